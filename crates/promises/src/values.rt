//! A value that is emitted over any old bytes and parsed again is its normal form.

ghost use Rattle.std.specs.Prelude.{◌≡◌, ◌≢◌, ◌+◌, ◌≤◌, ◌++◌, IsOkAnd, IsTrue, Ok, drop, length};
ghost use Rattle.ip_wire.specs.Checksum.{computes, verifies};
ghost use Rattle.ip_wire.specs.Arp as arp;
ghost use Rattle.ip_wire.specs.Ethernet as ethernet;
ghost use Rattle.ip_wire.specs.Ip as ip;
ghost use Rattle.ip_wire.specs.IpAddress.{version_of};
ghost use Rattle.ip_wire.specs.Ipv4 as ipv4;
ghost use Rattle.ip_wire.specs.Ipv6 as ipv6;
ghost use Rattle.ip_wire.specs.Ipv6Fragment as fragment;
ghost use Rattle.ip_wire.specs.TcpRepr as tcp;
ghost use Rattle.ip_wire.specs.Udp as udp;

use crate::emit::{
    emit_arp, emit_ethernet, emit_ipv4, emit_ipv6, emit_ipv6_fragment, emit_only_tcp, emit_udp,
};
use ip_wire::{
    ArpPacket, ArpRepr, ChecksumCapabilities, ETHERNET_HEADER_LEN, EthernetFrame, EthernetRepr,
    IPV4_HEADER_LEN, IPV6_HEADER_LEN, IpAddress, IpPacket, IpRepr, Ipv4Packet, Ipv4Repr,
    Ipv6FragmentHeader, Ipv6FragmentRepr, Ipv6Packet, Ipv6Repr, Result, TcpPacket, TcpRepr,
    UDP_HEADER_LEN, UdpPacket, UdpRepr, laws,
};

/// A UDP packet parses as the same value and payload. The receiver verifies no checksum that the
/// sender left out.
pub fn emit_then_parse_udp(
    value: UdpRepr,
    payload: &[u8],
    src_addr: &IpAddress,
    dst_addr: &IpAddress,
    buffer: &mut [u8],
    sent: &ChecksumCapabilities,
    received: &ChecksumCapabilities,
) -> Result<UdpRepr>
    requires room { UDP_HEADER_LEN + length payload.now ≤ length buffer.old }
    requires payload_len { length payload.now ≤ udp.max_payload_len }
    requires receiver { value.dst_port ≢ 0 }
    requires family { version_of src_addr.now ≡ version_of dst_addr.now }
    requires checksum { IsTrue (verifies received.now.udp) → IsTrue (computes sent.now.udp) }
    ensures value { result ≡ Ok value }
    ensures payload { udp.payload_of buffer.new ≡ payload.now }
{
    let len = UDP_HEADER_LEN + payload.len();
    laws::udp::emit_reads_back_udp(
        value,
        *src_addr,
        *dst_addr,
        payload,
        &buffer[len..],
        sent.udp.tx(),
        received.udp.rx(),
    );
    emit_udp(&value, payload, src_addr, dst_addr, buffer, sent);
    UdpRepr::parse(
        &UdpPacket::new_unchecked(buffer),
        src_addr,
        dst_addr,
        received,
    )
}

/// An ARP packet parses as its normal form.
pub fn emit_then_parse_arp(value: ArpRepr, buffer: &mut [u8]) -> Result<ArpRepr>
    requires room { 28 ≤ length buffer.old }
    ensures value { result ≡ Ok (arp.normal value) }
    ensures written { buffer.new ≡ arp.bytes_of value ++ drop 28 buffer.old }
{
    laws::arp::emit_reads_back_arp(value, &buffer[28..]);
    emit_arp(&value, buffer);
    ArpRepr::parse(&ArpPacket::new_unchecked(buffer))
}

/// An Ethernet header parses as its normal form. The payload of the frame stays.
pub fn emit_then_parse_ethernet(value: EthernetRepr, buffer: &mut [u8]) -> Result<EthernetRepr>
    requires room { ETHERNET_HEADER_LEN ≤ length buffer.old }
    ensures value { result ≡ Ok (ethernet.normal value) }
    ensures written { buffer.new ≡ ethernet.bytes_of value ++ drop ETHERNET_HEADER_LEN buffer.old }
{
    laws::ethernet::emit_reads_back_ethernet(value, &buffer[ETHERNET_HEADER_LEN..]);
    emit_ethernet(&value, buffer);
    EthernetRepr::parse(&EthernetFrame::new_unchecked(buffer))
}

/// An IPv4 header parses as its normal form. The payload stays. The receiver verifies no checksum
/// that the sender left out.
pub fn emit_then_parse_ipv4(
    value: Ipv4Repr,
    buffer: &mut [u8],
    sent: &ChecksumCapabilities,
    received: &ChecksumCapabilities,
) -> Result<Ipv4Repr>
    requires payload_len { value.payload_len ≤ ipv4.max_payload_len }
    requires room { IPV4_HEADER_LEN + value.payload_len ≤ length buffer.old }
    requires checksum { IsTrue (verifies received.now.ipv4) → IsTrue (computes sent.now.ipv4) }
    ensures value { result ≡ Ok (ipv4.normal value) }
    ensures written { buffer.new ≡ ipv4.bytes_of value (computes sent.now.ipv4) ++ drop IPV4_HEADER_LEN buffer.old }
{
    let rest = &buffer[IPV4_HEADER_LEN..];
    laws::ipv4::emit_reads_back_ipv4(value, rest, sent.ipv4.tx(), received.ipv4.rx());
    emit_ipv4(&value, buffer, sent);
    Ipv4Repr::parse(&Ipv4Packet::new_unchecked(buffer), received)
}

/// An IPv6 header parses as its normal form. The payload stays.
pub fn emit_then_parse_ipv6(value: Ipv6Repr, buffer: &mut [u8]) -> Result<Ipv6Repr>
    requires payload_len { value.payload_len ≤ 65535 }
    requires room { IPV6_HEADER_LEN + value.payload_len ≤ length buffer.old }
    ensures value { result ≡ Ok (ipv6.normal value) }
    ensures written { buffer.new ≡ ipv6.bytes_of value ++ drop IPV6_HEADER_LEN buffer.old }
{
    laws::ipv6::emit_reads_back_ipv6(value, &buffer[IPV6_HEADER_LEN..]);
    emit_ipv6(&value, buffer);
    Ipv6Repr::parse(&Ipv6Packet::new_unchecked(buffer))
}

/// The header of an IPv6 fragment parses as its normal form.
pub fn emit_then_parse_ipv6_fragment(
    value: Ipv6FragmentRepr,
    buffer: &mut [u8],
) -> Result<Ipv6FragmentRepr>
    requires room { 6 ≤ length buffer.old }
    ensures value { result ≡ Ok (fragment.normal value) }
    ensures written { buffer.new ≡ fragment.bytes_of value ++ drop 6 buffer.old }
{
    laws::ipv6::emit_reads_back_ipv6_fragment(value, &buffer[6..]);
    emit_ipv6_fragment(&value, buffer);
    Ipv6FragmentRepr::parse(&Ipv6FragmentHeader::new_unchecked(buffer))
}

/// An IP header of either version parses as its normal form. The payload stays. The receiver
/// verifies no checksum that the sender left out.
pub fn emit_then_parse_ip(
    value: IpRepr,
    buffer: &mut [u8],
    sent: &ChecksumCapabilities,
    received: &ChecksumCapabilities,
) -> Result<IpRepr>
    requires payload_len { ip.payload_len_of value ≤ ip.max_payload_len value }
    requires room { ip.header_len_of value + ip.payload_len_of value ≤ length buffer.old }
    requires checksum { IsTrue (verifies received.now.ipv4) → IsTrue (computes sent.now.ipv4) }
    ensures value { result ≡ Ok (ip.normal value) }
    ensures payload { drop (ip.header_len_of value) buffer.new ≡ drop (ip.header_len_of value) buffer.old }
{
    value.emit(buffer, sent);
    laws::ip::emit_reads_back_ip(
        value,
        &buffer[value.header_len()..],
        sent.ipv4.tx(),
        received.ipv4.rx(),
    );
    IpRepr::parse(&IpPacket::new_unchecked(buffer), received)
}

/// A TCP segment in a buffer of its length parses as the normal form of its header and as the same
/// payload. The receiver verifies no checksum that the sender left out.
pub fn emit_then_parse_tcp<'b>(
    value: &TcpRepr<'_>,
    src_addr: &IpAddress,
    dst_addr: &IpAddress,
    buffer: &'b mut [u8],
    sent: &ChecksumCapabilities,
    received: &ChecksumCapabilities,
) -> Result<TcpRepr<'b>>
    requires header_len { tcp.header_len_of (tcp.header_of value.now) ≤ 60 }
    requires room { length buffer.old ≡ tcp.header_len_of (tcp.header_of value.now) + length value.now.payload.now }
    requires sender { value.now.src_port ≢ 0 }
    requires receiver { value.now.dst_port ≢ 0 }
    requires family { version_of src_addr.now ≡ version_of dst_addr.now }
    requires checksum { IsTrue (verifies received.now.tcp) → IsTrue (computes sent.now.tcp) }
    ensures value { IsOkAnd result (λ v. tcp.header_of v ≡ tcp.normal (tcp.header_of value.now)) }
    ensures payload { IsOkAnd result (λ v. v.payload.now ≡ value.now.payload.now) }
{
    emit_only_tcp(value, src_addr, dst_addr, buffer, sent);
    laws::tcp::emit_reads_back_tcp(
        *value,
        *src_addr,
        *dst_addr,
        sent.tcp.tx(),
        received.tcp.rx(),
    );
    laws::tcp::one_reading_tcp(buffer, *src_addr, *dst_addr, received.tcp.rx());
    TcpRepr::parse(
        &TcpPacket::new_unchecked(buffer),
        src_addr,
        dst_addr,
        received,
    )
}
