//! The calls with numbers.

ghost use Rattle.std.specs.Prelude.{◌≡◌};

use c_exports::numbers::lk_compare_seq;

/// Two sequence numbers have one order.
#[tactic(auto, using(crate::proofs::Once::compared))]
pub fn compare_seq_once(a: u32, b: u32) -> (i32, i32)
    ensures { result.0 ≡ result.1 }
{
    (lk_compare_seq(a, b), lk_compare_seq(a, b))
}
