//! The calls of a NAT with a table.

ghost use Rattle.std.specs.Prelude.{◌≡◌};
ghost use Rattle.app_nat.specs.Table.{IsTable};

use app_nat::{Mapping, Nat};
use c_exports::nat::{lk_translate_in, lk_translate_out};

/// A frame goes out in one way, or stays inside for one reason, if no endpoint has two mappings.
pub fn translate_out_once(
    nat: &Nat,
    mappings: &mut [Mapping],
    others: &mut [Mapping],
    now: u64,
    frame: &mut [u8],
    other: &mut [u8],
) -> (i32, i32)
    requires mappings { mappings.old ≡ others.old }
    requires frame { frame.old ≡ other.old }
    requires table { IsTable nat.now mappings.old now }
    ensures returned { result.0 ≡ result.1 }
    ensures mappings { mappings.new ≡ others.new }
    ensures frame { frame.new ≡ other.new }
{
    (
        lk_translate_out(nat, mappings, now, frame),
        lk_translate_out(nat, others, now, other),
    )
}

/// A frame comes in in one way, or stays outside for one reason.
pub fn translate_in_once(
    nat: &Nat,
    mappings: &mut [Mapping],
    others: &mut [Mapping],
    now: u64,
    frame: &mut [u8],
    other: &mut [u8],
) -> (i32, i32)
    requires mappings { mappings.old ≡ others.old }
    requires frame { frame.old ≡ other.old }
    ensures returned { result.0 ≡ result.1 }
    ensures mappings { mappings.new ≡ others.new }
    ensures frame { frame.new ≡ other.new }
{
    (
        lk_translate_in(nat, mappings, now, frame),
        lk_translate_in(nat, others, now, other),
    )
}
