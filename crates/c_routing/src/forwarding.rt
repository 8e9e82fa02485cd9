//! One hop of a router.

ghost use Rattle.c_routing.specs.Forwarded.{Forwards, ethernet_addr};

use crate::rejections::Rejection;
use app_router::forward;
use c_structs::MAX_LEN;
use ip_wire::EthernetAddress;

/// Forwards the packet of a frame between two hosts, in place: one hop less, and new link addresses. Returns 0, or
/// the number of the reason; then the frame is unchanged.
pub fn forward_frame(frame: &mut [u8], src: &[u8; 6], dst: &[u8; 6]) -> i32
    ensures { Forwards frame.old frame.new (ethernet_addr src.now) (ethernet_addr dst.now) result }
{
    if frame.len() > MAX_LEN {
        return Rejection::NotIp.code();
    }
    match forward(frame, EthernetAddress(*src), EthernetAddress(*dst)) {
        Ok(_) => 0,
        Err(fault) => Rejection::of_header(fault).code(),
    }
}
