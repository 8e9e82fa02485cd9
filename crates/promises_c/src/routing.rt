//! The calls of a router, of NAT of one packet, and of the MSS clamp.

ghost use Rattle.std.specs.Prelude.{◌≡◌};

use c_exports::routing::{lk_clamp_mss_as, lk_forward, lk_translate};
use c_structs::Endpoint;

/// A frame is forwarded in one way, or rejected for one reason.
pub fn forward_once(frame: &mut [u8], other: &mut [u8], src: &[u8; 6], dst: &[u8; 6]) -> (i32, i32)
    requires { frame.old ≡ other.old }
    ensures returned { result.0 ≡ result.1 }
    ensures written { frame.new ≡ other.new }
{
    (lk_forward(frame, src, dst), lk_forward(other, src, dst))
}

/// A frame is translated in one way, or rejected for one reason.
#[tactic(auto, using(crate::proofs::RoutingOnce::translates_once))]
pub fn translate_once(frame: &mut [u8], other: &mut [u8], side: i32, end: &Endpoint) -> (i32, i32)
    requires { frame.old ≡ other.old }
    ensures returned { result.0 ≡ result.1 }
    ensures written { frame.new ≡ other.new }
{
    (
        lk_translate(frame, side, end),
        lk_translate(other, side, end),
    )
}

/// A frame is clamped in one way, as the caller says, or not at all.
pub fn clamp_mss_as_once(
    frame: &mut [u8],
    other: &mut [u8],
    max_seg_size: u16,
    offload: i32,
) -> (i32, i32)
    requires { frame.old ≡ other.old }
    ensures returned { result.0 ≡ result.1 }
    ensures written { frame.new ≡ other.new }
{
    (
        lk_clamp_mss_as(frame, max_seg_size, offload),
        lk_clamp_mss_as(other, max_seg_size, offload),
    )
}
