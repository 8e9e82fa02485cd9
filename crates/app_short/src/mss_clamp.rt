//! The MSS clamp of a router: it lowers the maximum segment size of connections over a link with a
//! small MTU.

ghost use Rattle.std.specs.Prelude.{◌≡◌, ◌↔◌, ◌%◌, if◌then◌else◌, Bool, IsTrue, List, Some, length, true, ℕ};
ghost use Rattle.app_short.specs.Clamp.{IsAbove};
ghost use Rattle.ip_wire.specs.IpAddress.{address_bytes};
ghost use Rattle.ip_wire.specs.Tcp.{HasLengths};
ghost use Rattle.ip_wire.specs.TcpRepr.{Reads, TcpHeader};
ghost use Rattle.ip_wire.specs.TcpSegmentSize.{with_max_seg_size};
ghost use Rattle.ip_wire.specs.declared.IpAddress.{IpAddress};

use ip_wire::laws::tcp_parts::one_option_list;
use ip_wire::{TcpPacket, TcpPacketMut};

/// Lowers the maximum segment size of a SYN to `limit` and updates the checksum, in place. Returns
/// whether it did: any other segment is unchanged.
pub fn clamp(segment: &mut [u8], limit: u16) -> bool
    ensures when { (src dst : IpAddress) (verified : Bool) (v : TcpHeader) (payload : List ℕ)
        → Reads segment.old src dst verified v payload → IsTrue result ↔ IsAbove limit v }
    ensures lowered { (src dst : IpAddress) (verified : Bool) (v : TcpHeader) (payload : List ℕ)
        → length (address_bytes src) % 2 ≡ 0 → length (address_bytes dst) % 2 ≡ 0
        → Reads segment.old src dst verified v payload → IsAbove limit v
        → Reads segment.new src dst verified (record v { max_seg_size = Some limit }) payload }
    ensures bytes { segment.new ≡ (if result then with_max_seg_size segment.old limit else segment.old) }
{
    if !is_above(segment, limit) {
        return false;
    }
    let mut packet = TcpPacketMut::new_unchecked(segment);
    packet.update_max_seg_size(limit);
    true
}

// Whether the segment is a SYN with a maximum segment size above the limit.
fn is_above(segment: &[u8], limit: u16) -> bool
    ensures lengths { result ≡ true → HasLengths segment.now }
    ensures value { (src dst : IpAddress) (verified : Bool) (v : TcpHeader) (payload : List ℕ)
        → Reads segment.now src dst verified v payload → IsTrue result ↔ IsAbove limit v }
{
    let Ok(packet) = TcpPacket::new_checked(segment) else {
        return false;
    };
    one_option_list(packet.options());
    match packet.options_summary() {
        Ok(summary) => match summary.max_segment_size {
            Some(size) => packet.syn() && size > limit,
            None => false,
        },
        Err(_) => false,
    }
}
