//! The header of UDP, and partial checksums.

ghost use Rattle.std.specs.Prelude.{◌≡◌, ◌<◌, ◌≤◌, ◌+◌, ◌^◌, length, take};
ghost use Rattle.ip_wire.specs.IpAddress.{version_of};
ghost use Rattle.ip_wire.specs.Tcp as tcp;
ghost use Rattle.ip_wire.specs.Udp as udp;

use ip_wire::{
    ChecksumCapabilities, IpAddress, IpProtocol, TcpPacket, UDP_HEADER_LEN, UdpPacket,
    UdpPacketMut, UdpRepr, checksum,
};

/// `emit_header` writes the header that `emit` writes if it computes no checksum.
pub fn header_of_emit_udp(
    value: &UdpRepr,
    payload: &[u8],
    src_addr: &IpAddress,
    dst_addr: &IpAddress,
    header: &mut [u8],
    packet: &mut [u8],
)
    requires header { UDP_HEADER_LEN ≤ length header.old }
    requires room { UDP_HEADER_LEN + length payload.now ≤ length packet.old }
    requires payload_len { length payload.now ≤ udp.max_payload_len }
    requires family { version_of src_addr.now ≡ version_of dst_addr.now }
    ensures { take 8 header.new ≡ take 8 packet.new }
{
    value.emit_header(&mut UdpPacketMut::new_unchecked(header), payload.len());
    value.emit(
        &mut UdpPacketMut::new_unchecked(packet),
        src_addr,
        dst_addr,
        payload,
        &ChecksumCapabilities::ignored(),
    );
}

/// A partial checksum of UDP is the sum of the pseudo-header.
pub fn partial_checksum_udp(
    packet: &UdpPacket<'_>,
    src_addr: &IpAddress,
    dst_addr: &IpAddress,
) -> (bool, bool)
    requires header { 8 ≤ length (udp.packet_bytes packet.now) }
    requires family { version_of src_addr.now ≡ version_of dst_addr.now }
    ensures { result.0 ≡ result.1 }
{
    let len = u32::from(packet.len());
    let sum = checksum::pseudo_header(src_addr, dst_addr, IpProtocol::Udp, len);
    (
        packet.verify_partial_checksum(src_addr, dst_addr),
        packet.checksum() == sum,
    )
}

/// A partial checksum of TCP is the sum of the pseudo-header.
pub fn partial_checksum_tcp(
    packet: &TcpPacket<'_>,
    src_addr: &IpAddress,
    dst_addr: &IpAddress,
) -> (bool, bool)
    requires header { 18 ≤ length (tcp.packet_bytes packet.now) }
    requires len { length (tcp.packet_bytes packet.now) < 2 ^ 32 }
    requires family { version_of src_addr.now ≡ version_of dst_addr.now }
    ensures { result.0 ≡ result.1 }
{
    let len = packet.as_bytes().len() as u32;
    let sum = checksum::pseudo_header(src_addr, dst_addr, IpProtocol::Tcp, len);
    (
        packet.verify_partial_checksum(src_addr, dst_addr),
        packet.checksum() == sum,
    )
}
