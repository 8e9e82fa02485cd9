//! `emit` writes exactly the bytes of a value, over any old bytes, and leaves all others. The view is
//! gone afterwards, and its buffer holds what was written.

ghost use Rattle.std.specs.Prelude.{◌≡◌, ◌+◌, ◌≤◌, ◌++◌, [], drop, length};
ghost use Rattle.ip_wire.specs.Checksum.{computes};
ghost use Rattle.ip_wire.specs.Arp as arp;
ghost use Rattle.ip_wire.specs.Ethernet as ethernet;
ghost use Rattle.ip_wire.specs.IpAddress.{version_of};
ghost use Rattle.ip_wire.specs.Ipv4 as ipv4;
ghost use Rattle.ip_wire.specs.Ipv6 as ipv6;
ghost use Rattle.ip_wire.specs.Ipv6Fragment as fragment;
ghost use Rattle.ip_wire.specs.TcpRepr as tcp;
ghost use Rattle.ip_wire.specs.Udp as udp;

use ip_wire::{
    ArpPacketMut, ArpRepr, ChecksumCapabilities, ETHERNET_HEADER_LEN, EthernetFrameMut,
    EthernetRepr, IPV4_HEADER_LEN, IPV6_HEADER_LEN, IpAddress, Ipv4PacketMut, Ipv4Repr,
    Ipv6FragmentHeaderMut, Ipv6FragmentRepr, Ipv6PacketMut, Ipv6Repr, TcpPacketMut, TcpRepr,
    UDP_HEADER_LEN, UdpPacketMut, UdpRepr,
};

/// Writes an Ethernet header.
pub fn emit_ethernet(value: &EthernetRepr, buffer: &mut [u8])
    requires { ETHERNET_HEADER_LEN ≤ length buffer.old }
    ensures { buffer.new ≡ ethernet.bytes_of value.now ++ drop ETHERNET_HEADER_LEN buffer.old }
{
    value.emit(&mut EthernetFrameMut::new_unchecked(buffer));
}

/// Writes an ARP packet.
pub fn emit_arp(value: &ArpRepr, buffer: &mut [u8])
    requires { 28 ≤ length buffer.old }
    ensures { buffer.new ≡ arp.bytes_of value.now ++ drop 28 buffer.old }
{
    value.emit(&mut ArpPacketMut::new_unchecked(buffer));
}

/// Writes an IPv4 header.
pub fn emit_ipv4(value: &Ipv4Repr, buffer: &mut [u8], caps: &ChecksumCapabilities)
    requires payload_len { value.now.payload_len ≤ ipv4.max_payload_len }
    requires room { IPV4_HEADER_LEN ≤ length buffer.old }
    ensures { buffer.new ≡ ipv4.bytes_of value.now (computes caps.now.ipv4) ++ drop IPV4_HEADER_LEN buffer.old }
{
    value.emit(&mut Ipv4PacketMut::new_unchecked(buffer), caps);
}

/// Writes an IPv6 header.
pub fn emit_ipv6(value: &Ipv6Repr, buffer: &mut [u8])
    requires payload_len { value.now.payload_len ≤ 65535 }
    requires room { IPV6_HEADER_LEN ≤ length buffer.old }
    ensures { buffer.new ≡ ipv6.bytes_of value.now ++ drop IPV6_HEADER_LEN buffer.old }
{
    value.emit(&mut Ipv6PacketMut::new_unchecked(buffer));
}

/// Writes the header of an IPv6 fragment.
pub fn emit_ipv6_fragment(value: &Ipv6FragmentRepr, buffer: &mut [u8])
    requires { 6 ≤ length buffer.old }
    ensures { buffer.new ≡ fragment.bytes_of value.now ++ drop 6 buffer.old }
{
    value.emit(&mut Ipv6FragmentHeaderMut::new_unchecked(buffer));
}

/// Writes a UDP packet.
pub fn emit_udp(
    value: &UdpRepr,
    payload: &[u8],
    src_addr: &IpAddress,
    dst_addr: &IpAddress,
    buffer: &mut [u8],
    caps: &ChecksumCapabilities,
)
    requires room { UDP_HEADER_LEN + length payload.now ≤ length buffer.old }
    requires payload_len { length payload.now ≤ udp.max_payload_len }
    requires family { version_of src_addr.now ≡ version_of dst_addr.now }
    ensures { buffer.new ≡ udp.bytes_of value.now payload.now src_addr.now dst_addr.now (computes caps.now.udp) ++ drop (UDP_HEADER_LEN + length payload.now) buffer.old }
{
    value.emit(
        &mut UdpPacketMut::new_unchecked(buffer),
        src_addr,
        dst_addr,
        payload,
        caps,
    );
}

/// Writes a TCP segment. A computed checksum covers the whole buffer.
pub fn emit_tcp(
    value: &TcpRepr<'_>,
    src_addr: &IpAddress,
    dst_addr: &IpAddress,
    buffer: &mut [u8],
    caps: &ChecksumCapabilities,
)
    requires header_len { tcp.header_len_of (tcp.header_of value.now) ≤ 60 }
    requires room { tcp.header_len_of (tcp.header_of value.now) + length value.now.payload.now ≤ length buffer.old }
    requires family { version_of src_addr.now ≡ version_of dst_addr.now }
    ensures { let v = tcp.header_of value.now in let payload = value.now.payload.now in
        let rest = drop (tcp.header_len_of v + length payload) buffer.old in
        buffer.new ≡ tcp.bytes_of v payload src_addr.now dst_addr.now (computes caps.now.tcp) rest ++ rest }
{
    value.emit(
        &mut TcpPacketMut::new_unchecked(buffer),
        src_addr,
        dst_addr,
        caps,
    );
}

/// Writes a TCP segment to a buffer of its length.
pub fn emit_only_tcp(
    value: &TcpRepr<'_>,
    src_addr: &IpAddress,
    dst_addr: &IpAddress,
    buffer: &mut [u8],
    caps: &ChecksumCapabilities,
)
    requires header_len { tcp.header_len_of (tcp.header_of value.now) ≤ 60 }
    requires room { length buffer.old ≡ tcp.header_len_of (tcp.header_of value.now) + length value.now.payload.now }
    requires family { version_of src_addr.now ≡ version_of dst_addr.now }
    ensures { let v = tcp.header_of value.now in let payload = value.now.payload.now in
        buffer.new ≡ tcp.bytes_of v payload src_addr.now dst_addr.now (computes caps.now.tcp) [] }
{
    emit_tcp(value, src_addr, dst_addr, buffer, caps);
}
