//! The values of a frame of which only the first bytes were captured, stored in the struct of C. The length of
//! the payload in the struct counts the bytes that are missing too, and `payload_captured` does not.

ghost use Rattle.std.specs.Prelude.{List, ℕ, ◌++◌, ◌≡◌, ◌≤◌, ◌<◌, ◌+◌, ◌-◌, drop, length, min, take};
ghost use Rattle.ip_wire.specs.Ethernet as ethernet;
ghost use Rattle.ip_wire.specs.IpAddress.{version_of};
ghost use Rattle.ip_wire.specs.Ipv4 as ipv4;
ghost use Rattle.ip_wire.specs.Ipv6 as ipv6;
ghost use Rattle.ip_wire.specs.Protocol.{protocol_of};
ghost use Rattle.c_read.specs.FrameFields.{fields_of, packet_fields_of};
ghost use Rattle.c_read.specs.Captured.{IsCutOf, begun_ipv4, begun_ipv6, captured_headers, captured_of, captured_packet_headers, captured_packet_of, cut_arp, cut_extended, cut_frame, cut_header, cut_ipv4, cut_ipv6, cut_packet, cut_tcp, cut_transport_by, cut_udp};

use crate::faults::{ARP_LEN, ipv4_fault, ipv6_fault, tcp_fault};
use crate::frame_fields::{
    reject, step_after, store_arp, store_captured, store_chain, store_ipv4, store_ipv4_header,
    store_ipv6, store_ipv6_header, store_link, store_part,
};
use crate::icmp_fields::{is_icmp, store_icmp_fields};
use crate::transport_fields::{reject_transport, store_tcp_fields, store_udp, store_udp_fields};
use crate::verdicts::cut_udp_verdict;
use c_structs::{FrameFields, Reason, Verdict};
use ip_wire::{
    ChecksumCapabilities, ETHERNET_HEADER_LEN, EthernetFrame, EthernetProtocol, IPV4_HEADER_LEN,
    IPV6_HEADER_LEN, IpAddress, IpProtocol, Ipv4Packet, Ipv4Repr, Ipv6Packet, Ipv6Repr,
    TCP_HEADER_LEN, TcpPacket, TcpRepr, UDP_HEADER_LEN, UdpPacket,
};
use wire_extensions::Chain;
use wire_icmp::{ICMP_HEADER_LEN, IcmpPacket};

/// Stores the values of a frame of `len` bytes of which fewer were captured, up to a header that is
/// rejected or that was not captured as a whole.
pub fn read_captured(fields: &mut FrameFields, captured: &[u8], len: usize)
    requires part { length captured.now < len }
    ensures value { fields.new ≡ captured_of (take len captured.now) (len - length captured.now) }
    ensures cut { (rest : List ℕ) → length captured.now + length rest ≡ len → IsCutOf (length captured.now) fields.new (fields_of (captured.now ++ rest)) }
    ensures within { fields.new.payload_offset + fields.new.payload_len ≤ len }
    ensures captured { fields.new.payload_captured ≡ min fields.new.payload_len (length captured.now - fields.new.payload_offset) }
{
    store_captured_headers(fields, captured, len);
    store_captured(fields, captured.len());
}

/// Stores the values of a packet of `len` bytes without an Ethernet header, of which fewer were captured, up to a
/// header that is rejected or that was not captured as a whole.
pub fn read_captured_packet(fields: &mut FrameFields, captured: &[u8], len: usize)
    requires part { length captured.now < len }
    ensures value { fields.new ≡ captured_packet_of (take len captured.now) (len - length captured.now) }
    ensures cut { (rest : List ℕ) → length captured.now + length rest ≡ len → IsCutOf (length captured.now) fields.new (packet_fields_of (captured.now ++ rest)) }
    ensures within { fields.new.payload_offset + fields.new.payload_len ≤ len }
    ensures captured { fields.new.payload_captured ≡ min fields.new.payload_len (length captured.now - fields.new.payload_offset) }
{
    store_captured_packet_headers(fields, captured, len);
    store_captured(fields, captured.len());
}

// Stores the values of the headers of a frame of `len` bytes of which fewer were captured.
fn store_captured_headers(fields: &mut FrameFields, captured: &[u8], len: usize)
    requires part { length captured.now < len }
    ensures value { fields.new ≡ captured_headers (take len captured.now) (len - length captured.now) }
    ensures within { fields.new.payload_offset + fields.new.payload_len ≤ len }
{
    *fields = FrameFields::nothing(len);
    if captured.len() < ETHERNET_HEADER_LEN {
        reject_cut(fields, ETHERNET_HEADER_LEN);
    } else {
        store_cut_frame(fields, &EthernetFrame::new_unchecked(captured));
    }
}

// Stores the values of the headers of a packet of `len` bytes of which fewer were captured.
fn store_captured_packet_headers(fields: &mut FrameFields, captured: &[u8], len: usize)
    requires part { length captured.now < len }
    ensures value { fields.new ≡ captured_packet_headers (take len captured.now) (len - length captured.now) }
    ensures within { fields.new.payload_offset + fields.new.payload_len ≤ len }
{
    *fields = FrameFields::nothing(len);
    fields.reason = Reason::Read.code();
    if captured.is_empty() {
        reject_cut(fields, 1);
    } else {
        store_cut_packet(fields, captured);
    }
}

// Stores why a header of at least so many bytes is rejected, if fewer were captured.
pub(super) fn reject_cut(fields: &mut FrameFields, least: usize)
    ensures { fields.new ≡ cut_header fields.old least }
{
    let reason = if fields.payload_len < least {
        Reason::TooShort
    } else {
        Reason::HeaderCut
    };
    reject(fields, reason);
}

// Stores a frame whose Ethernet header was captured.
fn store_cut_frame(fields: &mut FrameFields, frame: &EthernetFrame<'_>)
    requires offset { fields.old.payload_offset ≡ 0 }
    requires header { 14 ≤ length (ethernet.frame_bytes frame.now) }
    requires len { length (ethernet.frame_bytes frame.now) < fields.old.payload_len }
    ensures value { let bytes = ethernet.frame_bytes frame.now in
        fields.new ≡ cut_frame fields.old (ethernet.header_of bytes) (drop 14 bytes) }
    ensures within { fields.new.payload_offset + fields.new.payload_len ≤ fields.old.payload_len }
{
    store_link(fields, frame, fields.payload_len - ETHERNET_HEADER_LEN);
    let payload = frame.payload();
    match frame.ethertype() {
        EthernetProtocol::Arp => store_cut_arp(fields, payload),
        EthernetProtocol::Ipv4 => store_cut_ipv4(fields, payload),
        EthernetProtocol::Ipv6 => store_cut_ipv6(fields, payload),
        EthernetProtocol::Unknown(_) => {}
    }
}

// Stores an IP packet of either version.
fn store_cut_packet(fields: &mut FrameFields, bytes: &[u8])
    requires offset { fields.old.payload_offset ≤ 28 }
    requires len { length bytes.now < fields.old.payload_len }
    requires version { 1 ≤ length bytes.now }
    ensures value { fields.new ≡ cut_packet fields.old bytes.now }
    ensures within { fields.new.payload_offset + fields.new.payload_len ≤ fields.old.payload_offset + fields.old.payload_len }
{
    match Ipv4Packet::new_unchecked(bytes).version() {
        4 => store_cut_ipv4(fields, bytes),
        6 => store_cut_ipv6(fields, bytes),
        _ => reject(fields, Reason::BadVersion),
    }
}

// Stores an ARP packet.
#[inline(never)]
pub(super) fn store_cut_arp(fields: &mut FrameFields, bytes: &[u8])
    requires offset { fields.old.payload_offset ≤ 28 }
    requires len { length bytes.now < fields.old.payload_len }
    ensures value { fields.new ≡ cut_arp fields.old bytes.now }
    ensures within { fields.new.payload_offset + fields.new.payload_len ≤ fields.old.payload_offset + fields.old.payload_len }
{
    if bytes.len() < ARP_LEN {
        reject_cut(fields, ARP_LEN);
    } else {
        store_arp(fields, bytes);
    }
}

// Stores an IPv4 packet. If it was captured as a whole, or its header is wrong, it is stored as in a
// whole frame.
#[inline(never)]
pub(super) fn store_cut_ipv4(fields: &mut FrameFields, bytes: &[u8])
    requires offset { fields.old.payload_offset ≤ 28 }
    requires len { length bytes.now < fields.old.payload_len }
    ensures value { fields.new ≡ cut_ipv4 fields.old bytes.now }
    ensures within { fields.new.payload_offset + fields.new.payload_len ≤ fields.old.payload_offset + fields.old.payload_len }
{
    if bytes.len() < IPV4_HEADER_LEN {
        return reject_cut(fields, IPV4_HEADER_LEN);
    }
    let packet = Ipv4Packet::new_unchecked(bytes);
    let header_len = usize::from(packet.header_len());
    let total_len = usize::from(packet.total_len());
    if total_len <= bytes.len() {
        store_ipv4(fields, bytes);
    } else if packet.version() != 4
        || header_len < IPV4_HEADER_LEN
        || total_len < header_len
        || fields.payload_len < total_len
    {
        reject(fields, ipv4_fault(&packet));
    } else if bytes.len() < header_len {
        reject(fields, Reason::HeaderCut);
    } else {
        store_begun_ipv4(fields, bytes);
    }
}

// Stores an IPv4 packet whose header was captured, but not all of its payload.
fn store_begun_ipv4(fields: &mut FrameFields, bytes: &[u8])
    requires offset { fields.old.payload_offset ≤ 28 }
    requires least { 20 ≤ length bytes.now }
    requires header { ipv4.header_len bytes.now ≤ length bytes.now }
    requires len { length bytes.now < ipv4.total_len bytes.now }
    ensures value { fields.new ≡ begun_ipv4 fields.old bytes.now }
    ensures within { fields.new.payload_offset + fields.new.payload_len ≤ fields.old.payload_offset + ipv4.total_len bytes.now }
{
    let packet = Ipv4Packet::new_unchecked(bytes);
    let header_len = usize::from(packet.header_len());
    let header = Ipv4Repr {
        src_addr: packet.src_addr(),
        dst_addr: packet.dst_addr(),
        next_header: packet.next_header(),
        payload_len: usize::from(packet.total_len()) - header_len,
        hop_limit: packet.hop_limit(),
    };
    store_ipv4_header(fields, &packet, &header, header.payload_len);
    if fields.is_fragment == 0 {
        let src_addr = IpAddress::Ipv4(header.src_addr);
        let dst_addr = IpAddress::Ipv4(header.dst_addr);
        let protocol = fields.ip.protocol;
        store_cut_transport(fields, protocol, &src_addr, &dst_addr, &bytes[header_len..]);
    } else {
        store_part(fields, &bytes[header_len..]);
    }
}

// Stores an IPv6 packet. If it was captured as a whole, or its header is wrong, it is stored as in a
// whole frame.
#[inline(never)]
pub(super) fn store_cut_ipv6(fields: &mut FrameFields, bytes: &[u8])
    requires offset { fields.old.payload_offset ≤ 28 }
    requires len { length bytes.now < fields.old.payload_len }
    ensures value { fields.new ≡ cut_ipv6 fields.old bytes.now }
    ensures within { fields.new.payload_offset + fields.new.payload_len ≤ fields.old.payload_offset + fields.old.payload_len }
{
    if bytes.len() < IPV6_HEADER_LEN {
        return reject_cut(fields, IPV6_HEADER_LEN);
    }
    let packet = Ipv6Packet::new_unchecked(bytes);
    let total_len = packet.total_len();
    if total_len <= bytes.len() {
        store_ipv6(fields, bytes);
    } else if packet.version() != 6 || fields.payload_len < total_len {
        reject(fields, ipv6_fault(&packet));
    } else {
        store_begun_ipv6(fields, bytes);
    }
}

// Stores an IPv6 packet whose header was captured, but not all of its payload.
fn store_begun_ipv6(fields: &mut FrameFields, bytes: &[u8])
    requires offset { fields.old.payload_offset ≤ 28 }
    requires header { 40 ≤ length bytes.now }
    requires len { length bytes.now < ipv6.total_len bytes.now }
    ensures value { fields.new ≡ begun_ipv6 fields.old bytes.now }
    ensures within { fields.new.payload_offset + fields.new.payload_len ≤ fields.old.payload_offset + ipv6.total_len bytes.now }
{
    let packet = Ipv6Packet::new_unchecked(bytes);
    let header = Ipv6Repr {
        src_addr: packet.src_addr(),
        dst_addr: packet.dst_addr(),
        next_header: packet.next_header(),
        payload_len: usize::from(packet.payload_len()),
        hop_limit: packet.hop_limit(),
    };
    let payload = &bytes[IPV6_HEADER_LEN..];
    store_ipv6_header(fields, &packet, &header, header.payload_len);
    let src_addr = IpAddress::Ipv6(header.src_addr);
    let dst_addr = IpAddress::Ipv6(header.dst_addr);
    store_cut_extended(fields, &src_addr, &dst_addr, payload);
}

// Stores the extension headers that the payload of an IPv6 packet begins with, and what they lead to.
fn store_cut_extended(
    fields: &mut FrameFields,
    src_addr: &IpAddress,
    dst_addr: &IpAddress,
    bytes: &[u8],
)
    requires offset { fields.old.payload_offset ≤ 68 }
    requires len { length bytes.now < fields.old.payload_len }
    requires bounded { fields.old.payload_len ≤ 65535 }
    requires family { version_of src_addr.now ≡ version_of dst_addr.now }
    ensures value { fields.new ≡ cut_extended fields.old src_addr.now dst_addr.now bytes.now }
    ensures within { fields.new.payload_offset + fields.new.payload_len ≤ fields.old.payload_offset + fields.old.payload_len }
{
    let chain = Chain::of(fields.protocol, fields.payload_len, bytes);
    let rest = &bytes[chain.len..];
    store_chain(fields, &chain, rest);
    store_cut_transport(fields, chain.protocol, src_addr, dst_addr, rest);
}

// Stores the payload of a packet with this protocol number between two addresses.
#[inline(never)]
fn store_cut_transport(
    fields: &mut FrameFields,
    protocol: u8,
    src_addr: &IpAddress,
    dst_addr: &IpAddress,
    bytes: &[u8],
)
    requires offset { fields.old.payload_offset ≤ 65700 }
    requires len { length bytes.now < fields.old.payload_len }
    requires family { version_of src_addr.now ≡ version_of dst_addr.now }
    ensures value { fields.new ≡ cut_transport_by fields.old (protocol_of protocol) src_addr.now dst_addr.now bytes.now }
    ensures within { fields.new.payload_offset + fields.new.payload_len ≤ fields.old.payload_offset + fields.old.payload_len }
{
    match IpProtocol::from(protocol) {
        IpProtocol::Udp => store_cut_udp(fields, src_addr, dst_addr, bytes),
        IpProtocol::Tcp => store_cut_tcp(fields, src_addr, dst_addr, bytes),
        other => {
            if is_icmp(other, src_addr) && bytes.len() >= ICMP_HEADER_LEN {
                let packet = IcmpPacket::new_unchecked(bytes);
                store_icmp_fields(fields, &packet, Verdict::ChecksumCut);
            }
        }
    }
}

// Stores a UDP packet. If it was captured as a whole, or its length is wrong, it is stored as in a
// whole frame.
fn store_cut_udp(fields: &mut FrameFields, src_addr: &IpAddress, dst_addr: &IpAddress, bytes: &[u8])
    requires offset { fields.old.payload_offset ≤ 65700 }
    requires len { length bytes.now < fields.old.payload_len }
    requires family { version_of src_addr.now ≡ version_of dst_addr.now }
    ensures value { fields.new ≡ cut_udp fields.old src_addr.now dst_addr.now bytes.now }
    ensures within { fields.new.payload_offset + fields.new.payload_len ≤ fields.old.payload_offset + fields.old.payload_len }
{
    if bytes.len() < UDP_HEADER_LEN {
        return reject_cut(fields, UDP_HEADER_LEN);
    }
    let packet = UdpPacket::new_unchecked(bytes);
    let packet_len = usize::from(packet.len());
    if packet_len <= bytes.len() || fields.payload_len < packet_len {
        return store_udp(fields, src_addr, dst_addr, bytes);
    }
    store_udp_fields(fields, &packet, cut_udp_verdict(&packet, src_addr));
    if packet.dst_port() == 0 {
        reject_transport(fields, Reason::PortZero);
    } else {
        step_after(fields, UDP_HEADER_LEN, packet_len - UDP_HEADER_LEN);
    }
}

// Stores a TCP segment, whose checksum covers bytes that are missing.
fn store_cut_tcp(fields: &mut FrameFields, src_addr: &IpAddress, dst_addr: &IpAddress, bytes: &[u8])
    requires offset { fields.old.payload_offset ≤ 65700 }
    requires len { length bytes.now < fields.old.payload_len }
    requires family { version_of src_addr.now ≡ version_of dst_addr.now }
    ensures value { fields.new ≡ cut_tcp fields.old src_addr.now dst_addr.now bytes.now }
    ensures within { fields.new.payload_offset + fields.new.payload_len ≤ fields.old.payload_offset + fields.old.payload_len }
{
    if bytes.len() < TCP_HEADER_LEN {
        return reject_cut(fields, TCP_HEADER_LEN);
    }
    let len = fields.payload_len;
    let packet = TcpPacket::new_unchecked(bytes);
    store_tcp_fields(fields, &packet, Verdict::ChecksumCut);
    let caps = ChecksumCapabilities::ignored();
    match TcpRepr::parse(&packet, src_addr, dst_addr, &caps) {
        Ok(_) => {
            let header_len = usize::from(packet.header_len());
            step_after(fields, header_len, len - header_len);
        }
        Err(_) => reject_transport(fields, tcp_fault(&packet, len)),
    }
}
