//! The MSS clamp: it lowers the maximum segment size of connections over a link with a small MTU.

ghost use Rattle.std.specs.Prelude.{◌≡◌, ◌≤◌, ◌%◌, ◌↔◌, Bool, IfNone, IfSome, IsTrue, List, None, ℕ, if◌then◌else◌, length, false, true};
ghost use Rattle.c_routing.specs.Clamped.{CarriesSegment, Clamps, ReadsSegment, clamped, is_left_to_device, resized, with_size};
ghost use Rattle.app_edit.specs.declared.replace.Offload.TheVariants.{Offloaded};
ghost use Rattle.app_short.specs.Clamp.{IsAbove};
ghost use Rattle.ip_wire.specs.Field.{field};
ghost use Rattle.ip_wire.specs.Ip.{dst_addr_of, src_addr_of};
ghost use Rattle.ip_wire.specs.IpAddress.{address_bytes};
ghost use Rattle.ip_wire.specs.TcpRepr.{Reads, TcpHeader};
ghost use Rattle.ip_wire.specs.Types.{EthernetRepr, IpRepr};
ghost use Rattle.ip_wire.specs.Checksum.{verifies};
ghost use Rattle.ip_wire.specs.declared.Checksum.{Checksum};

use app_edit::{Layout, Offload};
use app_short::mss_clamp::clamp;
use c_structs::MAX_LEN;
use ip_wire::{
    Checksum, ChecksumCapabilities, ETHERNET_HEADER_LEN, Frame, IpRepr, TcpPacket, TcpPacketMut,
    Transport,
};

/// Lowers the maximum segment size of a SYN in a frame to `limit`, and updates the TCP checksum, in place. A checksum that
/// counts as left to the device stays. Returns 1 if the size was larger, else 0; then the frame is unchanged.
pub fn clamp_frame(frame: &mut [u8], limit: u16, offload: Offload) -> i32
    ensures { Clamps offload frame.old frame.new limit result }
{
    if frame.len() > MAX_LEN {
        return 0;
    }
    match segment_header(frame) {
        Some(header) => {
            let (_, packet) = frame.split_at_mut(ETHERNET_HEADER_LEN);
            if clamp_packet(&header, packet, limit, offload) {
                1
            } else {
                0
            }
        }
        None => 0,
    }
}

// The IP header of a frame that carries a TCP segment. The checksum of the segment is not verified.
fn segment_header(frame: &[u8]) -> Option<IpRepr>
    ensures some { IfSome result (λ header. (link : EthernetRepr) × (v : TcpHeader) × (payload : List ℕ) × CarriesSegment Checksum.None frame.now link header v payload) }
    ensures none { IfNone result ((link : EthernetRepr) (header : IpRepr) (v : TcpHeader) (payload : List ℕ) → ¬ CarriesSegment Checksum.None frame.now link header v payload) }
{
    let caps = ChecksumCapabilities {
        tcp: Checksum::None,
        ..ChecksumCapabilities::default()
    };
    match Frame::parse_packet(frame, &caps) {
        Ok((_, header, transport)) => match transport {
            Transport::Tcp(_) => Some(header),
            _ => None,
        },
        Err(_) => None,
    }
}

// Clamps the segment of a packet with this header.
fn clamp_packet(header: &IpRepr, packet: &mut [u8], limit: u16, offload: Offload) -> bool
    requires { (v : TcpHeader) × (payload : List ℕ) × ReadsSegment Checksum.None packet.old header.now v payload }
    ensures when { (v : TcpHeader) (payload : List ℕ) → ReadsSegment Checksum.None packet.old header.now v payload → IsTrue result ↔ IsAbove limit v }
    ensures after { (choice : Checksum) (v : TcpHeader) (payload : List ℕ) → (offload ≡ Offloaded → verifies choice ≡ false) → IsAbove limit v
        → ReadsSegment choice packet.old header.now v payload → ReadsSegment choice packet.new header.now (with_size limit v) payload }
    ensures bytes { packet.new ≡ (if result then clamped offload header.now packet.old limit else packet.old) }
{
    let layout = Layout::of(header.version(), packet);
    let segment = &mut packet[layout.start..layout.end];
    clamp_segment(header, segment, limit, offload)
}

// Clamps the segment of a packet with this header.
#[inline(always)]
fn clamp_segment(header: &IpRepr, segment: &mut [u8], limit: u16, offload: Offload) -> bool
    requires { (v : TcpHeader) × (payload : List ℕ) × Reads segment.old (src_addr_of header.now) (dst_addr_of header.now) false v payload }
    ensures when { (v : TcpHeader) (payload : List ℕ)
        → Reads segment.old (src_addr_of header.now) (dst_addr_of header.now) false v payload → IsTrue result ↔ IsAbove limit v }
    ensures lowered { let src = src_addr_of header.now in
        let dst = dst_addr_of header.now in
        (verified : Bool) (v : TcpHeader) (payload : List ℕ) → (offload ≡ Offloaded → verified ≡ false) → length (address_bytes src) % 2 ≡ 0 → length (address_bytes dst) % 2 ≡ 0
        → Reads segment.old src dst verified v payload → IsAbove limit v → Reads segment.new src dst verified (with_size limit v) payload }
    ensures bytes { segment.new ≡ (if result then resized offload (src_addr_of header.now) (dst_addr_of header.now) segment.old limit else segment.old) }
{
    let left = sum_left_to_device(header, segment, offload);
    if !clamp(segment, limit) {
        return false;
    }
    if let Some(sum) = left {
        TcpPacketMut::new_unchecked(segment).set_checksum(sum);
    }
    true
}

// The checksum of a SYN in a packet with this header, if it counts as left to the device. Of other segments none does.
fn sum_left_to_device(header: &IpRepr, segment: &[u8], offload: Offload) -> Option<u16>
    requires { 20 ≤ length segment.now }
    ensures some { IfSome result (λ sum. (sum ≡ field segment.now 128 16)
        × IsTrue (is_left_to_device offload (src_addr_of header.now) (dst_addr_of header.now) segment.now)) }
    ensures none { result ≡ None → field segment.now 110 1 ≡ 1
        → is_left_to_device offload (src_addr_of header.now) (dst_addr_of header.now) segment.now ≡ false }
{
    let packet = TcpPacket::new_unchecked(segment);
    if packet.syn() && is_left_to_device(header, segment, offload) {
        Some(packet.checksum())
    } else {
        None
    }
}

// Whether the checksum of a segment in a packet with this header counts as left to the device.
fn is_left_to_device(header: &IpRepr, segment: &[u8], offload: Offload) -> bool
    requires { 20 ≤ length segment.now }
    ensures { result ≡ is_left_to_device offload (src_addr_of header.now) (dst_addr_of header.now) segment.now }
{
    match offload {
        Offload::Guess => {
            let packet = TcpPacket::new_unchecked(segment);
            let (src, dst) = (header.src_addr(), header.dst_addr());
            packet.verify_partial_checksum(&src, &dst) && !packet.verify_checksum(&src, &dst)
        }
        Offload::Offloaded => true,
        Offload::Complete => false,
    }
}
