//! The fragment that an IPv4 or IPv6 packet is.

ghost use Rattle.std.specs.Prelude.{◌≡◌, ◌↔◌, ◌<◌, ◌≤◌, ◌+◌, ◌*◌, ◌==◌, IfSome, IsTrue, None, false, length, true};
ghost use Rattle.app_fragment.specs.Fragments.{IsShaped, fragment};
ghost use Rattle.app_fragment.specs.Ipv4Fragments.{IsIpv4};
ghost use Rattle.app_fragment.specs.Parts.{IsIpv6, IsOf, Reads, by_version, counted_len, ipv4_key, ipv6_key, packet_len, padded, part_header_len, whole_header_len};
ghost use Rattle.ip_wire.specs.Ipv4.{header_len, ip_version_of};

use crate::ipv4::is_ipv4;
use ip_wire::laws::field::bytes_fit;
use ip_wire::{
    IPV4_HEADER_LEN, IPV6_HEADER_LEN, IpProtocol, Ipv4Packet, Ipv6FragmentHeader, Ipv6Packet,
};

// The length of the fixed header and the fragment header of IPv6.
const PART_HEADER_LEN: usize = 48;

/// What the fragments of one packet have in common (RFC 791, section 3.2; RFC 8200, section 4.5). Any bytes are a value.
#[repr(C)]
#[derive(Debug, Clone, Copy, PartialEq, Eq)]
pub struct FragKey {
    /// The identification. Over IPv4 it has 16 bits.
    pub ident: u32,
    /// 4 or 6.
    pub version: u8,
    /// The protocol of the payload over IPv4. Fragments of IPv6 need not agree in it: 0.
    pub protocol: u8,
    pub unused: [u8; 2],
    /// Zeros follow an IPv4 address.
    pub src: [u8; 16],
    pub dst: [u8; 16],
}

impl FragKey {
    // Whether both have the same values.
    pub(crate) fn is_same(&self, other: &FragKey) -> bool
        ensures { IsTrue result ↔ (self.now ≡ other.now) }
    {
        *self == *other
    }
}

/// A fragment, as its packet says.
#[derive(Debug, Clone, Copy)]
pub(crate) struct Part<'a> {
    pub key: FragKey,
    /// Where it begins in the payload of its packet, in blocks of 8 bytes.
    pub first: usize,
    pub more: bool,
    /// The codepoint of explicit congestion notification (RFC 3168).
    pub ecn: u8,
    /// All bytes before the payload: over IPv6 the fixed header and the fragment header.
    pub header: &'a [u8],
    pub payload: &'a [u8],
}

/// The fragment in a packet. `None` if a length, the version or the checksum of its header is wrong, and for an IPv6 packet
/// whose fixed header is not followed by a fragment header.
pub(crate) fn part_of(packet: &[u8]) -> Option<Part<'_>>
    ensures reads { IfSome result (λ part. Reads packet.now part) }
    ensures bounds { IfSome result (λ part. (part.first < 8192) × (length part.payload.now < 65536)) }
    ensures none { result ≡ None → (key : FragKey) → ¬ IsOf key packet.now }
{
    bytes_fit(packet);
    if packet.len() < IPV4_HEADER_LEN {
        return None;
    }
    if is_ipv6(packet) {
        ipv6_part(packet)
    } else {
        ipv4_part(packet)
    }
}

/// Whether the version of a packet is 6.
pub(crate) fn is_ipv6(packet: &[u8]) -> bool
    requires { 1 ≤ length packet.now }
    ensures { result ≡ (ip_version_of packet.now == 6) }
{
    Ipv4Packet::new_unchecked(packet).version() == 6
}

fn ipv4_part(packet: &[u8]) -> Option<Part<'_>>
    requires other { (ip_version_of packet.now == 6) ≡ false }
    ensures reads { IfSome result (λ part. Reads packet.now part) }
    ensures bounds { IfSome result (λ part. (part.first < 8192) × (length part.payload.now < 65536)) }
    ensures none { result ≡ None → ¬ IsIpv4 packet.now }
{
    if !is_ipv4(packet) {
        return None;
    }
    let view = Ipv4Packet::new_unchecked(packet);
    Some(Part {
        key: ipv4_key(packet),
        first: usize::from(view.frag_offset()) / 8,
        more: view.more_frags(),
        ecn: view.ecn(),
        header: &packet[..usize::from(view.header_len())],
        payload: view.payload(),
    })
}

fn ipv6_part(packet: &[u8]) -> Option<Part<'_>>
    requires version { (ip_version_of packet.now == 6) ≡ true }
    ensures reads { IfSome result (λ part. Reads packet.now part) }
    ensures bounds { IfSome result (λ part. (part.first < 8192) × (length part.payload.now < 65536)) }
    ensures none { result ≡ None → ¬ IsIpv6 packet.now }
{
    if !has_fragment_header(packet) {
        return None;
    }
    let view = Ipv6Packet::new_unchecked(packet);
    let start = part_header_len(packet);
    let fragment = Ipv6FragmentHeader::new_unchecked(&packet[IPV6_HEADER_LEN + 2..start]);
    Some(Part {
        key: ipv6_key(packet),
        first: usize::from(fragment.frag_offset()),
        more: fragment.more_frags(),
        ecn: view.traffic_class() % 4,
        header: &packet[..start],
        payload: &packet[start..view.total_len()],
    })
}

// Whether the lengths and the version are right, and a fragment header follows the fixed one.
fn has_fragment_header(packet: &[u8]) -> bool
    ensures { IsTrue result ↔ IsIpv6 packet.now }
{
    let view = Ipv6Packet::new_unchecked(packet);
    if view.check_len().is_err() || view.version() != 6 {
        return false;
    }
    view.next_header() == IpProtocol::Ipv6Frag && view.payload_len() >= 8
}

fn ipv4_key(packet: &[u8]) -> FragKey
    requires { 20 ≤ length packet.now }
    ensures { result ≡ ipv4_key packet.now }
{
    let view = Ipv4Packet::new_unchecked(packet);
    FragKey {
        ident: u32::from(view.ident()),
        version: 4,
        protocol: view.next_header().number(),
        unused: [0; 2],
        src: padded(view.src_addr().octets()),
        dst: padded(view.dst_addr().octets()),
    }
}

fn ipv6_key(packet: &[u8]) -> FragKey
    requires { 48 ≤ length packet.now }
    ensures { result ≡ ipv6_key packet.now }
{
    let view = Ipv6Packet::new_unchecked(packet);
    let fragment = Ipv6FragmentHeader::new_unchecked(&packet[IPV6_HEADER_LEN + 2..PART_HEADER_LEN]);
    FragKey {
        ident: fragment.ident(),
        version: 6,
        protocol: 0,
        unused: [0; 2],
        src: view.src_addr().octets(),
        dst: view.dst_addr().octets(),
    }
}

fn padded(octets: [u8; 4]) -> [u8; 16]
    ensures { result ≡ padded octets }
{
    let [a, b, c, d] = octets;
    [a, b, c, d, 0, 0, 0, 0, 0, 0, 0, 0, 0, 0, 0, 0]
}

/// The length of the header of a fragment: all its bytes before the payload.
pub(crate) fn part_header_len(header: &[u8]) -> usize
    requires { 1 ≤ length header.now }
    ensures { result ≡ part_header_len header.now }
{
    header_len_or(header, PART_HEADER_LEN)
}

/// The length of the header of the whole packet.
pub(crate) fn whole_header_len(header: &[u8]) -> usize
    requires { 1 ≤ length header.now }
    ensures { result ≡ whole_header_len header.now }
{
    header_len_or(header, IPV6_HEADER_LEN)
}

/// How many bytes of the header the length field of a packet counts: over IPv4 all, and over IPv6 none.
pub(crate) fn counted_len(header: &[u8]) -> usize
    requires { 1 ≤ length header.now }
    ensures { result ≡ counted_len header.now }
{
    header_len_or(header, 0)
}

// The length of an IPv4 header, or this one over IPv6.
fn header_len_or(header: &[u8], ipv6: usize) -> usize
    requires { 1 ≤ length header.now }
    ensures { result ≡ by_version header.now (header_len header.now) ipv6 }
{
    if is_ipv6(header) {
        ipv6
    } else {
        usize::from(Ipv4Packet::new_unchecked(header).header_len())
    }
}

/// The length of the packet with this header.
pub(crate) fn packet_len(header: &[u8]) -> usize
    requires { 6 ≤ length header.now }
    ensures { result ≡ packet_len header.now }
{
    if is_ipv6(header) {
        Ipv6Packet::new_unchecked(header).total_len()
    } else {
        usize::from(Ipv4Packet::new_unchecked(header).total_len())
    }
}

impl Part<'_> {
    // Whether its packet is not fragmented.
    pub fn is_whole(&self) -> bool
        ensures { IsTrue result ↔ ((self.now.first ≡ 0) × (self.now.more ≡ false)) }
    {
        self.first == 0 && !self.more
    }

    // Whether it has bytes, and whole blocks unless it is the last.
    pub fn is_shaped(&self) -> bool
        ensures { IsTrue result ↔ IsShaped (fragment self.now.first self.now.more self.now.payload.now) }
    {
        let len = self.payload.len();
        len > 0 && (!self.more || len % 8 == 0)
    }

    // Whether it ends within so many bytes of the payload of its packet.
    pub fn fits(&self, room: usize) -> bool
        requires first { self.now.first < 8192 }
        requires bound { length self.now.payload.now < 65536 }
        ensures { IsTrue result ↔ (8 * self.now.first + length self.now.payload.now ≤ room) }
    {
        8 * self.first + self.payload.len() <= room
    }
}
