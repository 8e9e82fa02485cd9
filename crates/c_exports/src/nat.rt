//! Network address translation by a table of mappings.

ghost use Rattle.std.specs.Prelude.{◌≡◌, ◌<◌, ◌≤◌, length};
ghost use Rattle.c_routing.specs.Nat.{TranslatesIn, TranslatesOut};
ghost use Rattle.c_structs.specs.Written.{max_len};
ghost use Rattle.app_nat.specs.Reach.{Shrinks};
ghost use Rattle.app_nat.specs.Table.{IsTable};

use app_nat::{Mapping, Nat};
use c_routing::{shrink_reach, translate_in, translate_out};

/// Replaces the source of a packet that leaves. Returns 0, or why it does not leave; then the frame and the table are
/// unchanged.
#[unsafe(no_mangle)]
pub extern "C" fn lk_translate_out(
    nat: &Nat,
    mappings: &mut [Mapping],
    now: u64,
    frame: &mut [u8],
) -> i32
    ensures translates { TranslatesOut nat.now mappings.old mappings.new now frame.old frame.new result }
    ensures keeps { IsTable nat.now mappings.old now → IsTable nat.now mappings.new now }
{
    translate_out(nat, mappings, now, frame)
}

/// Replaces the destination of a packet that comes in. Returns 0, or why it does not come in; then the frame is
/// unchanged.
#[unsafe(no_mangle)]
pub extern "C" fn lk_translate_in(
    nat: &Nat,
    mappings: &mut [Mapping],
    now: u64,
    frame: &mut [u8],
) -> i32
    ensures translates { TranslatesIn nat.now mappings.old mappings.new now frame.old frame.new result }
    ensures beyond { max_len < length mappings.old → mappings.new ≡ mappings.old }
    ensures keeps { IsTable nat.now mappings.old now → IsTable nat.now mappings.new now }
{
    translate_in(nat, mappings, now, frame)
}

/// Gives each place its least reach, and changes nothing else.
#[unsafe(no_mangle)]
pub extern "C" fn lk_shrink_reach(nat: &Nat, mappings: &mut [Mapping], now: u64)
    ensures shrinks { length mappings.old ≤ max_len → Shrinks nat.now mappings.old mappings.new now }
    ensures beyond { max_len < length mappings.old → mappings.new ≡ mappings.old }
    ensures keeps { IsTable nat.now mappings.old now → IsTable nat.now mappings.new now }
{
    shrink_reach(nat, mappings, now)
}
