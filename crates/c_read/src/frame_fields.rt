//! The values of a frame, stored in the struct of C.

ghost use Rattle.std.specs.Prelude.{◌≡◌, ◌≤◌, ◌+◌, IfSome, drop, length, true};
ghost use Rattle.ip_wire.specs.Field.{field};
ghost use Rattle.ip_wire.specs.Protocol.{protocol_of};
ghost use Rattle.ip_wire.specs.IpAddress.{version_of};
ghost use Rattle.ip_wire.specs.Arp as arp;
ghost use Rattle.ip_wire.specs.Ethernet as ethernet;
ghost use Rattle.ip_wire.specs.Ipv4 as ipv4;
ghost use Rattle.ip_wire.specs.Ipv6 as ipv6;
ghost use Rattle.c_structs.specs.Addresses.{endpoint_of};
ghost use Rattle.c_read.specs.FrameFields.{after_header, fields_of, frame_headers, is_first, is_ipv6_transport, packet_fields_of, packet_headers, rejected, with_arp, with_captured, with_chain, with_extended, with_first_ports, with_fragment_header, with_frame, with_ipv4, with_ipv4_fields, with_ipv6, with_ipv6_fields, with_link, with_message, with_packet, with_part};
ghost use Rattle.wire_extensions.specs.Extension.{is_extension};

use crate::faults::{ARP_LEN, arp_fault, extension_reason, ipv4_fault, ipv6_fault};
use crate::transport_fields::{store_first_ports, store_transport};
use crate::verdicts::ipv4_verdict;
use byteorder::{ByteOrder, NetworkEndian};
use c_structs::{
    Addr, DONT_FRAGMENT, DSCP_UNIT, Endpoint, FLOW_LABELS, FrameFields, MORE_FRAGMENTS,
    NetworkKind, Reason,
};
use ip_wire::{
    ArpPacket, ArpRepr, ChecksumCapabilities, ETHERNET_HEADER_LEN, EthernetAddress, EthernetFrame,
    EthernetProtocol, IPV6_HEADER_LEN, IpAddress, Ipv4Address, Ipv4Packet, Ipv4Repr,
    Ipv6FragmentRepr, Ipv6Packet, Ipv6Repr,
};
use net_base::array_at;
use wire_extensions::{Chain, EXTENSION_UNIT, is_part};

// The numbers of the usual transports (IANA, protocol numbers).
const TCP: u8 = 6;

const UDP: u8 = 17;

const ICMPV6: u8 = 58;

// The numbers of extension headers are the bits that are set: 0, 43, 44, 51 and 60.
const EXTENSIONS: u64 = 0x1008_1800_0000_0001;

const LAST_EXTENSION: u8 = 60;

// The byte of the EtherType in an Ethernet header.
const ETHERTYPE: usize = 12;

// An address of a header without ports.
#[inline(always)]
fn without_port(address: IpAddress) -> Endpoint
    ensures { result ≡ endpoint_of address 0 }
{
    Endpoint {
        addr: Addr::of(address),
        port: 0,
    }
}

/// Stores the values of a frame, up to a header that is rejected.
#[inline(always)]
pub fn read_frame(fields: &mut FrameFields, bytes: &[u8])
    ensures value { fields.new ≡ fields_of bytes.now }
    ensures within { fields.new.payload_offset + fields.new.payload_len ≤ length bytes.now }
    ensures captured { fields.new.payload_captured ≡ fields.new.payload_len }
{
    store_frame_headers(fields, bytes);
    fields.payload_captured = fields.payload_len;
}

/// Stores the values of an IP packet without an Ethernet header, up to a header that is rejected.
#[inline(always)]
pub fn read_packet(fields: &mut FrameFields, bytes: &[u8])
    ensures value { fields.new ≡ packet_fields_of bytes.now }
    ensures within { fields.new.payload_offset + fields.new.payload_len ≤ length bytes.now }
    ensures captured { fields.new.payload_captured ≡ fields.new.payload_len }
{
    store_packet_headers(fields, bytes);
    fields.payload_captured = fields.payload_len;
}

// Stores how many bytes of the payload are among the first so many bytes.
pub(super) fn store_captured(fields: &mut FrameFields, captured: usize)
    ensures { fields.new ≡ with_captured captured fields.old }
{
    let payload = captured.saturating_sub(fields.payload_offset);
    fields.payload_captured = fields.payload_len.min(payload);
}

// Stores the values of the headers of a frame.
#[inline(always)]
fn store_frame_headers(fields: &mut FrameFields, bytes: &[u8])
    ensures value { fields.new ≡ frame_headers bytes.now }
    ensures within { fields.new.payload_offset + fields.new.payload_len ≤ length bytes.now }
{
    *fields = FrameFields::nothing(bytes.len());
    let frame = EthernetFrame::new_unchecked(bytes);
    if frame.check_len().is_ok() {
        store_frame(fields, &frame);
    }
}

// Stores the values of the headers of an IP packet.
#[inline(always)]
fn store_packet_headers(fields: &mut FrameFields, bytes: &[u8])
    ensures value { fields.new ≡ packet_headers bytes.now }
    ensures within { fields.new.payload_offset + fields.new.payload_len ≤ length bytes.now }
{
    *fields = FrameFields::nothing(bytes.len());
    if !bytes.is_empty() {
        fields.reason = Reason::Read.code();
        store_packet(fields, bytes);
    }
}

// Stores an IP packet of either version.
#[inline(always)]
fn store_packet(fields: &mut FrameFields, bytes: &[u8])
    requires offset { fields.old.payload_offset ≤ 28 }
    requires len { fields.old.payload_len ≡ length bytes.now }
    requires version { 1 ≤ length bytes.now }
    ensures value { fields.new ≡ with_packet fields.old bytes.now }
    ensures within { fields.new.payload_offset + fields.new.payload_len ≤ fields.old.payload_offset + length bytes.now }
{
    match Ipv4Packet::new_unchecked(bytes).version() {
        4 => store_ipv4(fields, bytes),
        6 => store_ipv6(fields, bytes),
        _ => reject(fields, Reason::BadVersion),
    }
}

// Moves the payload after a header of this length.
pub(super) fn step_after(fields: &mut FrameFields, header_len: usize, payload_len: usize)
    requires { fields.old.payload_offset + header_len ≤ 65900 }
    ensures { fields.new ≡ after_header fields.old header_len payload_len }
{
    fields.payload_offset += header_len;
    fields.payload_len = payload_len;
}

// Stores why the next header is rejected.
pub(super) fn reject(fields: &mut FrameFields, reason: Reason)
    ensures { fields.new ≡ rejected fields.old reason }
{
    fields.reason = reason.code();
}

// Stores a frame with a whole header.
#[inline(always)]
fn store_frame(fields: &mut FrameFields, frame: &EthernetFrame<'_>)
    requires offset { fields.old.payload_offset ≡ 0 }
    requires header { 14 ≤ length (ethernet.frame_bytes frame.now) }
    ensures value { let bytes = ethernet.frame_bytes frame.now in
        fields.new ≡ with_frame fields.old (ethernet.header_of bytes) (drop 14 bytes) }
    ensures within { fields.new.payload_offset + fields.new.payload_len ≤ length (ethernet.frame_bytes frame.now) }
{
    // Read before anything is stored: the compiler does not know that the struct and the frame are apart.
    let ethertype = NetworkEndian::read_u16(&frame.as_bytes()[ETHERTYPE..ETHERNET_HEADER_LEN]);
    let payload = frame.payload();
    store_link(fields, frame, payload.len());
    match EthernetProtocol::from(ethertype) {
        EthernetProtocol::Arp => store_arp(fields, payload),
        EthernetProtocol::Ipv4 => store_ipv4(fields, payload),
        EthernetProtocol::Ipv6 => store_ipv6(fields, payload),
        EthernetProtocol::Unknown(_) => {}
    }
}

// Stores the Ethernet header of a frame with a payload of this length.
#[inline(always)]
pub(super) fn store_link(fields: &mut FrameFields, frame: &EthernetFrame<'_>, payload_len: usize)
    requires offset { fields.old.payload_offset ≡ 0 }
    requires header { 14 ≤ length (ethernet.frame_bytes frame.now) }
    ensures { fields.new ≡ with_link fields.old (ethernet.header_of (ethernet.frame_bytes frame.now)) payload_len }
{
    fields.ethernet.ethertype = frame.ethertype().number();
    let EthernetAddress(src) = frame.src_addr();
    fields.ethernet.src = src;
    let EthernetAddress(dst) = frame.dst_addr();
    fields.ethernet.dst = dst;
    fields.reason = Reason::Read.code();
    step_after(fields, ETHERNET_HEADER_LEN, payload_len);
}

// Stores an ARP packet.
pub(super) fn store_arp(fields: &mut FrameFields, bytes: &[u8])
    requires offset { fields.old.payload_offset ≤ 28 }
    requires len { length bytes.now ≤ fields.old.payload_len }
    ensures value { fields.new ≡ with_arp fields.old bytes.now }
    ensures within { fields.new.payload_offset + fields.new.payload_len ≤ fields.old.payload_offset + fields.old.payload_len }
{
    match ArpRepr::parse(&ArpPacket::new_unchecked(bytes)) {
        Ok(_) => store_message(fields, bytes),
        Err(_) => reject(fields, arp_fault(bytes)),
    }
}

// Stores the values of an ARP packet for Ethernet and IPv4, after which there is only padding. They
// are copied from the packet one by one.
fn store_message(fields: &mut FrameFields, bytes: &[u8])
    requires offset { fields.old.payload_offset ≤ 28 }
    requires whole { 28 ≤ length bytes.now }
    ensures value { fields.new ≡ with_message fields.old (arp.value_of bytes.now) }
    ensures offset { fields.new.payload_offset ≡ fields.old.payload_offset + 28 }
    ensures len { fields.new.payload_len ≡ 0 }
{
    fields.network = NetworkKind::Arp.code();
    fields.network_offset = fields.payload_offset;
    let src_addr = Ipv4Address::from_octets(array_at(bytes, 14));
    fields.src = without_port(IpAddress::Ipv4(src_addr));
    let dst_addr = Ipv4Address::from_octets(array_at(bytes, 24));
    fields.dst = without_port(IpAddress::Ipv4(dst_addr));
    fields.arp.operation = ArpPacket::new_unchecked(bytes).operation().number();
    fields.arp.src_hardware = array_at(bytes, 8);
    fields.arp.dst_hardware = array_at(bytes, 18);
    step_after(fields, ARP_LEN, 0);
}

// Stores an IPv4 packet. Of the payload of a fragment only ports are stored.
#[inline(always)]
pub(super) fn store_ipv4(fields: &mut FrameFields, bytes: &[u8])
    requires offset { fields.old.payload_offset ≤ 28 }
    requires len { length bytes.now ≤ fields.old.payload_len }
    ensures value { fields.new ≡ with_ipv4 fields.old bytes.now }
    ensures within { fields.new.payload_offset + fields.new.payload_len ≤ fields.old.payload_offset + fields.old.payload_len }
{
    let packet = Ipv4Packet::new_unchecked(bytes);
    match Ipv4Repr::parse(&packet, &ChecksumCapabilities::ignored()) {
        Ok(header) => {
            let payload = packet.payload();
            store_ipv4_header(fields, &packet, &header, payload.len());
            if fields.is_fragment == 0 {
                let src_addr = IpAddress::Ipv4(header.src_addr);
                let dst_addr = IpAddress::Ipv4(header.dst_addr);
                let protocol = fields.ip.protocol;
                store_transport(fields, protocol, &src_addr, &dst_addr, payload);
            } else {
                store_part(fields, payload);
            }
        }
        Err(_) => reject(fields, ipv4_fault(&packet)),
    }
}

// Stores the ports of an IPv4 fragment with this payload, if it is the first one.
#[cold]
#[inline(never)]
pub(super) fn store_part(fields: &mut FrameFields, payload: &[u8])
    ensures { fields.new ≡ with_part fields.old payload.now }
{
    if fields.ip.fragment_offset == 0 {
        store_first_ports(fields, fields.protocol, payload);
    }
}

// Stores the header of an IPv4 packet with a payload of this length.
#[inline(always)]
pub(super) fn store_ipv4_header(
    fields: &mut FrameFields,
    packet: &Ipv4Packet<'_>,
    header: &Ipv4Repr,
    payload_len: usize,
)
    requires offset { fields.old.payload_offset ≤ 28 }
    requires least { 20 ≤ length (ipv4.packet_bytes packet.now) }
    requires header { ipv4.header_len (ipv4.packet_bytes packet.now) ≤ length (ipv4.packet_bytes packet.now) }
    ensures { fields.new ≡ with_ipv4_fields fields.old (ipv4.packet_bytes packet.now) header.now payload_len }
{
    // Read before anything is stored: the compiler does not know that the struct and the packet are apart.
    let header_len = usize::from(packet.header_len());
    let service = packet.as_bytes()[1];
    let fragment = NetworkEndian::read_u16(&packet.as_bytes()[6..8]);
    fields.network = NetworkKind::Ipv4.code();
    fields.network_offset = fields.payload_offset;
    fields.src = without_port(IpAddress::Ipv4(header.src_addr));
    fields.dst = without_port(IpAddress::Ipv4(header.dst_addr));
    fields.ip.ident = u32::from(packet.ident());
    fields.ip.flow_label = 0;
    fields.ip.fragment_offset = fragment % MORE_FRAGMENTS * 8;
    fields.ip.protocol = packet.as_bytes()[9];
    fields.protocol = packet.as_bytes()[9];
    fields.ip.hop_limit = header.hop_limit;
    fields.ip.dscp = service / 4;
    fields.ip.ecn = service % 4;
    fields.ip.more_fragments = (fragment / MORE_FRAGMENTS % 2) as u8;
    fields.ip.dont_fragment = (fragment / DONT_FRAGMENT % 2) as u8;
    fields.is_fragment = u8::from(fragment % DONT_FRAGMENT != 0);
    fields.ipv4_checksum = ipv4_verdict(packet).code();
    step_after(fields, header_len, payload_len);
}

// Stores an IPv6 packet. Its extension headers are stepped through out of line.
#[inline(always)]
pub(super) fn store_ipv6(fields: &mut FrameFields, bytes: &[u8])
    requires offset { fields.old.payload_offset ≤ 28 }
    requires len { length bytes.now ≤ fields.old.payload_len }
    ensures value { fields.new ≡ with_ipv6 fields.old bytes.now }
    ensures within { fields.new.payload_offset + fields.new.payload_len ≤ fields.old.payload_offset + fields.old.payload_len }
{
    let packet = Ipv6Packet::new_unchecked(bytes);
    match Ipv6Repr::parse(&packet) {
        Ok(header) => {
            let payload = packet.payload();
            store_ipv6_header(fields, &packet, &header, payload.len());
            let protocol = fields.ip.protocol;
            let src_addr = IpAddress::Ipv6(header.src_addr);
            let dst_addr = IpAddress::Ipv6(header.dst_addr);
            if is_ipv6_transport(protocol) {
                store_transport(fields, protocol, &src_addr, &dst_addr, payload);
            } else if begins_chain(protocol) {
                store_extended(fields, src_addr, dst_addr, payload);
            }
        }
        Err(_) => reject(fields, ipv6_fault(&packet)),
    }
}

// Whether this is the number of TCP, UDP or ICMPv6.
#[inline(always)]
fn is_ipv6_transport(protocol: u8) -> bool
    ensures { result ≡ is_ipv6_transport protocol }
{
    matches!(protocol, TCP | UDP | ICMPV6)
}

// Whether an extension header follows the IPv6 header. The numbers are no cases of a `match`: of these and the transports
// the compiler would make one table of jumps, which takes a usual packet longer.
#[inline(always)]
fn begins_chain(protocol: u8) -> bool
    ensures { result ≡ is_extension protocol }
{
    protocol <= LAST_EXTENSION && (EXTENSIONS >> protocol) % 2 == 1
}

// Stores the header of an IPv6 packet with a payload of this length.
#[inline(always)]
pub(super) fn store_ipv6_header(
    fields: &mut FrameFields,
    packet: &Ipv6Packet<'_>,
    header: &Ipv6Repr,
    payload_len: usize,
)
    requires offset { fields.old.payload_offset ≤ 28 }
    requires header { 40 ≤ length (ipv6.packet_bytes packet.now) }
    ensures { fields.new ≡ with_ipv6_fields fields.old (ipv6.packet_bytes packet.now) header.now payload_len }
{
    let first = NetworkEndian::read_u32(&packet.as_bytes()[..4]);
    fields.network = NetworkKind::Ipv6.code();
    fields.network_offset = fields.payload_offset;
    fields.src = without_port(IpAddress::Ipv6(header.src_addr));
    fields.dst = without_port(IpAddress::Ipv6(header.dst_addr));
    fields.ip.flow_label = first % FLOW_LABELS;
    fields.ip.protocol = packet.as_bytes()[6];
    fields.protocol = packet.as_bytes()[6];
    fields.ip.hop_limit = header.hop_limit;
    fields.ip.dscp = (first / DSCP_UNIT % 64) as u8;
    fields.ip.ecn = (first / FLOW_LABELS % 4) as u8;
    step_after(fields, IPV6_HEADER_LEN, payload_len);
}

// Stores the extension headers that the payload of an IPv6 packet begins with, and what they lead to. Addresses are passed
// by value: other packets need none in memory.
#[inline(never)]
fn store_extended(fields: &mut FrameFields, src_addr: IpAddress, dst_addr: IpAddress, bytes: &[u8])
    requires offset { fields.old.payload_offset ≤ 68 }
    requires len { fields.old.payload_len ≡ length bytes.now }
    requires bounded { length bytes.now ≤ 65535 }
    requires family { version_of src_addr ≡ version_of dst_addr }
    ensures value { fields.new ≡ with_extended fields.old src_addr dst_addr bytes.now }
    ensures within { fields.new.payload_offset + fields.new.payload_len ≤ fields.old.payload_offset + length bytes.now }
{
    let chain = Chain::of(fields.protocol, bytes.len(), bytes);
    let rest = &bytes[chain.len..];
    store_chain(fields, &chain, rest);
    store_transport(fields, chain.protocol, &src_addr, &dst_addr, rest);
}

// Stores the extension headers of an IPv6 packet. A fragment header is the first of the rest.
pub(super) fn store_chain(fields: &mut FrameFields, chain: &Chain, rest: &[u8])
    requires offset { fields.old.payload_offset ≤ 68 }
    requires len { chain.now.len ≤ fields.old.payload_len }
    requires bounded { chain.now.len ≤ 65535 }
    requires part { IfSome chain.now.fragment (λ v. v.frag_offset ≤ 8191) }
    ensures { fields.new ≡ with_chain fields.old chain.now rest.now }
{
    step_after(fields, chain.len, fields.payload_len - chain.len);
    fields.protocol = chain.protocol;
    if let Some(fault) = chain.fault {
        reject(fields, extension_reason(fault));
    }
    if let Some(header) = &chain.fragment {
        store_fragment_header(fields, header, rest);
    }
}

// Stores a fragment header, and the ports after it.
fn store_fragment_header(fields: &mut FrameFields, header: &Ipv6FragmentRepr, rest: &[u8])
    requires { header.now.frag_offset ≤ 8191 }
    ensures { fields.new ≡ with_fragment_header fields.old header.now rest.now }
{
    fields.ip.ident = header.ident;
    fields.ip.fragment_offset = 8 * header.frag_offset;
    fields.ip.more_fragments = u8::from(header.more_frags);
    fields.is_fragment = u8::from(is_part(header));
    if is_first(header) {
        store_ports_after(fields, rest);
    }
}

// Stores the ports after the header of a first fragment, with which these bytes begin.
fn store_ports_after(fields: &mut FrameFields, rest: &[u8])
    ensures { fields.new ≡ with_first_ports fields.old true (protocol_of (field rest.now 0 8)) (drop 8 rest.now) }
{
    if rest.len() >= EXTENSION_UNIT {
        store_first_ports(fields, rest[0], &rest[EXTENSION_UNIT..]);
    }
}

// Whether a fragment header with these values is that of the first fragment.
fn is_first(header: &Ipv6FragmentRepr) -> bool
    ensures { result ≡ is_first header.now }
{
    header.more_frags && header.frag_offset == 0
}
