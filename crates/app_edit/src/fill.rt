//! The transport checksum, computed.

ghost use Rattle.std.specs.Prelude.{◌≡◌, is_some};
ghost use Rattle.std.specs.Option.{unwrap_or};
ghost use Rattle.app_edit.specs.Filled.{checksum_filled};

use crate::places::{Carried, Places};

/// Computes the checksum of TCP, UDP, ICMP or ICMPv6, as a device does for one that is left to it. Returns `false` if
/// there is none, or if the packet is a fragment or a UDP packet that is cut; then the frame is unchanged.
#[tactic(auto, unfolding(crate::specs::Filled::checksum_filled))]
pub fn fill_checksum(frame: &mut [u8]) -> bool
    ensures done { result ≡ is_some (checksum_filled frame.old) }
    ensures bytes { frame.new ≡ unwrap_or (checksum_filled frame.old) frame.old }
{
    let Some(places) = Places::inlined(frame) else {
        return false;
    };
    match places.carried {
        Carried::Segment(segment) if segment.is_whole => {
            segment.fill(places.version, frame);
            true
        }
        _ => false,
    }
}
