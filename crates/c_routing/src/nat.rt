//! Network address translation by a table of mappings.

ghost use Rattle.std.specs.Prelude.{◌≡◌, ◌<◌, ◌≤◌, length};
ghost use Rattle.c_routing.specs.Nat.{TranslatesIn, TranslatesOut};
ghost use Rattle.c_structs.specs.Written.{max_len};
ghost use Rattle.app_nat.specs.Reach.{Shrinks};
ghost use Rattle.app_nat.specs.Table.{IsTable};

use crate::rejections::Rejection;
use app_nat::{Mapping, Nat};
use c_structs::{MAX_LEN, usable};

/// Lets a frame go out: replaces the source of its packet, in place. Returns 0, or the number of the reason.
pub fn translate_out(nat: &Nat, mappings: &mut [Mapping], now: u64, frame: &mut [u8]) -> i32
    ensures translates { TranslatesOut nat.now mappings.old mappings.new now frame.old frame.new result }
    ensures keeps { IsTable nat.now mappings.old now → IsTable nat.now mappings.new now }
{
    if frame.len() > MAX_LEN {
        return Rejection::NotIp.code();
    }
    let count = usable(mappings.len());
    match app_nat::translate_out(nat, &mut mappings[..count], now, frame) {
        Ok(()) => 0,
        Err(reason) => Rejection::of_nat(reason).code(),
    }
}

/// Lets a frame come in: replaces the destination of its packet, in place. Returns 0, or the number of the reason.
pub fn translate_in(nat: &Nat, mappings: &mut [Mapping], now: u64, frame: &mut [u8]) -> i32
    ensures translates { TranslatesIn nat.now mappings.old mappings.new now frame.old frame.new result }
    ensures beyond { max_len < length mappings.old → mappings.new ≡ mappings.old }
    ensures keeps { IsTable nat.now mappings.old now → IsTable nat.now mappings.new now }
{
    if frame.len() > MAX_LEN {
        return Rejection::NotIp.code();
    }
    let count = usable(mappings.len());
    match app_nat::translate_in(nat, &mut mappings[..count], now, frame) {
        Ok(()) => 0,
        Err(reason) => Rejection::of_nat(reason).code(),
    }
}

/// Gives each place its least reach, and changes nothing else.
pub fn shrink_reach(nat: &Nat, mappings: &mut [Mapping], now: u64)
    ensures shrinks { length mappings.old ≤ max_len → Shrinks nat.now mappings.old mappings.new now }
    ensures beyond { max_len < length mappings.old → mappings.new ≡ mappings.old }
    ensures keeps { IsTable nat.now mappings.old now → IsTable nat.now mappings.new now }
{
    let count = usable(mappings.len());
    app_nat::shrink_reach(nat, &mut mappings[..count], now)
}
