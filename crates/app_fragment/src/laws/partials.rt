//! Laws of the table of partial packets.

ghost use Rattle.std.specs.Prelude.{[], ◌≡◌, ◌<◌, ◌≤◌, ◌∷◌, length, ℕ};
ghost use Rattle.app_fragment.specs.Datagram.{IsWhole};
ghost use Rattle.app_fragment.specs.Partials.{IsAlone, IsLiveOf, IsPlaceFor, expiry, partial_at};
ghost use Rattle.app_fragment.specs.Parts.{IsOf};
ghost use Rattle.app_fragment.specs.declared.part.FragKey.{FragKey};

use crate::part::FragKey;
use crate::partials::{Partial, Reassembled, reassemble};

/// Only one entry is for the packet with a key.
pub fn place_is_unique(partials: &[Partial], now: u64, key: &FragKey)
    ensures { (i j : ℕ) → IsPlaceFor partials.now now key.now i → IsPlaceFor partials.now now key.now j → i ≡ j }
{}

/// If one fragment begins the entry of its packet, and the next one completes the packet in the time of the entry, then the
/// packet is made of these two fragments, whatever the memory had before.
pub fn two_fragments_make_a_packet(
    partials: &mut [Partial],
    memory: &mut [u8],
    now: u64,
    link: &[u8],
    first: &[u8],
    later: u64,
    second: &[u8],
    out: &mut [u8],
) -> (Reassembled, Reassembled)
    requires { length link.now ≡ 14 }
    ensures { (key : FragKey) (len : ℕ) → result.0 ≡ Reassembled.Incomplete → result.1 ≡ Reassembled.Whole len
        → IsOf key first.now → IsOf key second.now → ¬ IsAlone second.now → now ≤ later → later < expiry now
        → ((i : ℕ) → i < length partials.old → ¬ IsLiveOf now key (partial_at partials.old i))
        → IsWhole key (second.now ∷ first.now ∷ []) len out.new }
{
    let begun = reassemble(partials, memory, now, link, first, out);
    let completed = reassemble(partials, memory, later, link, second, out);
    (begun, completed)
}
