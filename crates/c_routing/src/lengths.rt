//! Lists that C passes.

ghost use Rattle.std.specs.Prelude.{◌≡◌, ◌≤◌, length};
ghost use Rattle.c_routing.specs.Lengths.{in_bounds};
ghost use Rattle.c_structs.specs.Written.{max_len};

use c_structs::MAX_LEN;

/// A list. One with more than `MAX_LEN` elements counts as empty.
#[inline(always)]
#[tactic(auto, unfolding(crate::specs::Lengths::in_bounds))]
pub fn in_bounds<T>(list: &[T]) -> &[T]
    ensures value { result.now ≡ in_bounds list.now }
    ensures fits { length result.now ≤ max_len }
{
    if list.len() <= MAX_LEN {
        list
    } else {
        &list[..0]
    }
}
