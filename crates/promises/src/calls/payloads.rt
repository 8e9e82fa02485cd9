//! `payload_mut` borrows the bytes that `payload` returns. `copy` has the bytes of `buffer`.

ghost use Rattle.std.specs.Prelude.{◌≡◌, ◌≤◌, IsTrue, length};
ghost use Rattle.ip_wire.specs.Ipv4 as ipv4;
ghost use Rattle.ip_wire.specs.Ipv6 as ipv6;
ghost use Rattle.ip_wire.specs.Tcp as tcp;
ghost use Rattle.ip_wire.specs.Udp as udp;

use ip_wire::{
    EthernetFrame, EthernetFrameMut, Ipv4Packet, Ipv4PacketMut, Ipv6Packet, Ipv6PacketMut,
    TcpPacket, TcpPacketMut, UdpPacket, UdpPacketMut,
};

/// The payload of a frame.
pub fn payload_mut_ethernet(buffer: &mut [u8], copy: &[u8]) -> bool
    requires header { 14 ≤ length buffer.old }
    requires copy { copy.now ≡ buffer.old }
    ensures { IsTrue result }
{
    let mut frame = EthernetFrameMut::new_unchecked(buffer);
    *frame.payload_mut() == *EthernetFrame::new_unchecked(copy).payload()
}

/// The payload of an IPv4 packet.
pub fn payload_mut_ipv4(buffer: &mut [u8], copy: &[u8]) -> bool
    requires lengths { ipv4.HasLengths buffer.old }
    requires copy { copy.now ≡ buffer.old }
    ensures { IsTrue result }
{
    let mut packet = Ipv4PacketMut::new_unchecked(buffer);
    *packet.payload_mut() == *Ipv4Packet::new_unchecked(copy).payload()
}

/// The payload of an IPv6 packet.
pub fn payload_mut_ipv6(buffer: &mut [u8], copy: &[u8]) -> bool
    requires lengths { ipv6.HasLengths buffer.old }
    requires copy { copy.now ≡ buffer.old }
    ensures { IsTrue result }
{
    let mut packet = Ipv6PacketMut::new_unchecked(buffer);
    *packet.payload_mut() == *Ipv6Packet::new_unchecked(copy).payload()
}

/// The payload of a UDP packet.
pub fn payload_mut_udp(buffer: &mut [u8], copy: &[u8]) -> bool
    requires lengths { udp.HasLengths buffer.old }
    requires copy { copy.now ≡ buffer.old }
    ensures { IsTrue result }
{
    let mut packet = UdpPacketMut::new_unchecked(buffer);
    *packet.payload_mut() == *UdpPacket::new_unchecked(copy).payload()
}

/// The payload of a TCP segment.
pub fn payload_mut_tcp(buffer: &mut [u8], copy: &[u8]) -> bool
    requires field { 13 ≤ length buffer.old }
    requires begins { tcp.header_len buffer.old ≤ length buffer.old }
    requires copy { copy.now ≡ buffer.old }
    ensures { IsTrue result }
{
    let mut packet = TcpPacketMut::new_unchecked(buffer);
    *packet.payload_mut() == *TcpPacket::new_unchecked(copy).payload()
}

/// The options of a TCP segment.
pub fn options_mut_tcp(buffer: &mut [u8], copy: &[u8]) -> bool
    requires begins { 20 ≤ tcp.header_len buffer.old }
    requires ends { tcp.header_len buffer.old ≤ length buffer.old }
    requires copy { copy.now ≡ buffer.old }
    ensures { IsTrue result }
{
    let mut packet = TcpPacketMut::new_unchecked(buffer);
    *packet.options_mut() == *TcpPacket::new_unchecked(copy).options()
}
