//! Where the fields of a packet are in its Ethernet frame.

ghost use Rattle.std.specs.Prelude.{◌≡◌, ◌≤◌, ◌+◌, ◌%◌, ◌^◌, IfSome, Some, false, length};
ghost use Rattle.app_edit.specs.Places as place;
ghost use Rattle.app_edit.specs.Places.{Holds, HoldsCarried, addresses_end, checksum_offset, checksum_place, covers_addresses, extensions, has_checksum, hides_next, is_ipv4, is_later, places_of};
ghost use Rattle.ip_wire.specs.Field.{field};
ghost use Rattle.wire_extensions.specs.Chain.{begun, end_of};
ghost use Rattle.wire_extensions.specs.Extension.{is_extension};
ghost use Rattle.ip_wire.specs.declared.IpVersion.TheVariants as version;

use crate::layout::Layout;
use crate::offsets::{ICMP_CHECKSUM, IPV6_END, TCP_CHECKSUM, UDP_CHECKSUM, UDP_LEN};
use byteorder::{ByteOrder, NetworkEndian};
use ip_wire::{
    ETHERNET_HEADER_LEN, EthernetFrame, EthernetProtocol, IpProtocol, IpVersion, Ipv4Packet,
    Ipv6FragmentRepr, Ipv6Packet, UDP_HEADER_LEN,
};
use wire_extensions::Chain;

// The numbers of the usual transports over IPv6.
pub(crate) const TCP: u8 = 6;

pub(crate) const UDP: u8 = 17;

const ICMPV6: u8 = 58;

// Where an IPv6 header names the next header.
const NEXT_HEADER: usize = 6;

/// A transport packet whose checksum field is in the frame. All places count from the first byte of the frame.
#[derive(Debug, Clone, Copy, PartialEq, Eq)]
pub struct Segment {
    // No padding follows the last field: it would be copied in words that overlap, and a load waits for both.
    /// TCP, UDP, ICMP over IPv4, or ICMPv6 over IPv6.
    pub protocol: IpProtocol,
    /// Whether the frame has all bytes that its checksum covers: it is not a fragment.
    pub is_whole: bool,
    /// Where its header begins.
    pub start: usize,
    /// The end of the bytes that its checksum covers and that are in the frame.
    pub end: usize,
}

/// What a packet carries.
#[derive(Debug, Clone, Copy, PartialEq, Eq)]
pub enum Carried {
    /// A transport packet, or its first fragment.
    Segment(Segment),
    /// Another protocol, whose checksum does not cover the addresses. It is not updated.
    Other,
    /// A fragment that is not the first. The checksum of its bytes is in the first one.
    Fragment,
    /// A transport packet whose checksum covers the addresses, and is not found or not updated: it is cut, the length of
    /// UDP is below 8, or it is of another protocol (DCCP, OSPF, VRRP, UDP-Lite, HIP, and over IPv6 PIM and Mobility).
    /// Or it follows an authentication header, or an IPv6 extension header that is rejected: one that is cut, hop-by-hop
    /// options that are not the first header, a routing header with segments left, or any after the header of a fragment.
    Hidden,
}

/// Where the parts of an IP packet are. All places count from the first byte of the frame.
#[derive(Debug, Clone, Copy, PartialEq, Eq)]
pub struct Places {
    pub version: IpVersion,
    /// The end of the IP header and of the extension headers that follow an IPv6 header.
    pub start: usize,
    /// The end of the packet. Later bytes are padding.
    pub end: usize,
    pub carried: Carried,
}

impl Segment {
    /// The place of the checksum field.
    pub fn checksum(&self) -> usize
        requires { checksum_place self.now ≤ 2 ^ 63 }
        ensures { result ≡ checksum_place self.now }
    {
        self.start + checksum_offset(self.protocol)
    }
}

impl Places {
    /// The places in an Ethernet II frame whose packet is IPv4 or IPv6. `None` if the EtherType is another one (such as
    /// a VLAN tag), or if the version or a length of the IP header is wrong. The checksum of an IPv4 header is not
    /// verified.
    pub fn of(frame: &[u8]) -> Option<Places>
        ensures value { result ≡ places_of frame.now }
        ensures holds { IfSome result (λ places. Holds places frame.now) }
    {
        Places::inlined(frame)
    }

    // The same, inlined: as a value in memory it is slow to copy. A caller that uses only the version does not compute
    // the rest.
    #[tactic(auto, unfolding(crate::specs::Places::places_of))]
    #[inline(always)]
    pub(crate) fn inlined(frame: &[u8]) -> Option<Places>
        ensures value { result ≡ places_of frame.now }
        ensures holds { IfSome result (λ places. Holds places frame.now) }
    {
        if frame.len() < ETHERNET_HEADER_LEN {
            return None;
        }
        match EthernetFrame::new_unchecked(frame).ethertype() {
            EthernetProtocol::Ipv4 => ipv4_places(frame),
            EthernetProtocol::Ipv6 => ipv6_places(frame),
            _ => None,
        }
    }
}

// The offset of the checksum field in a transport header.
fn checksum_offset(protocol: IpProtocol) -> usize
    ensures { result ≡ checksum_offset protocol }
{
    match protocol {
        IpProtocol::Tcp => TCP_CHECKSUM,
        IpProtocol::Udp => UDP_CHECKSUM,
        _ => ICMP_CHECKSUM,
    }
}

// The places of a frame with the EtherType of IPv4.
#[inline(always)]
fn ipv4_places(frame: &[u8]) -> Option<Places>
    requires { 14 ≤ length frame.now }
    ensures value { result ≡ place.ipv4_places frame.now }
    ensures holds { IfSome result (λ places. Holds places frame.now) }
{
    let (_, bytes) = frame.split_at(ETHERNET_HEADER_LEN);
    let Ok(packet) = Ipv4Packet::new_checked(bytes) else {
        return None;
    };
    if packet.version() != 4 {
        return None;
    }
    let layout = Layout::of(IpVersion::Ipv4, bytes);
    let start = ETHERNET_HEADER_LEN + layout.start;
    let end = ETHERNET_HEADER_LEN + layout.end;
    Some(Places {
        version: IpVersion::Ipv4,
        start,
        end,
        carried: ipv4_carried(frame, start, end),
    })
}

// What an IPv4 packet carries from `start` up to `end`.
#[inline(always)]
fn ipv4_carried(frame: &[u8], start: usize, end: usize) -> Carried
    requires begins { 34 ≤ start }
    requires even { start % 2 ≡ 0 }
    requires order { start ≤ end }
    requires ends { end ≤ length frame.now }
    ensures value { result ≡ place.ipv4_carried frame.now start end }
    ensures holds { HoldsCarried result version.Ipv4 start frame.now }
{
    let (_, bytes) = frame.split_at(ETHERNET_HEADER_LEN);
    let packet = Ipv4Packet::new_unchecked(bytes);
    if packet.frag_offset() != 0 {
        return Carried::Fragment;
    }
    let is_whole = !packet.more_frags();
    carried_by(
        frame,
        IpVersion::Ipv4,
        packet.next_header(),
        start,
        end,
        is_whole,
    )
}

// The places of a frame with the EtherType of IPv6.
#[inline(always)]
fn ipv6_places(frame: &[u8]) -> Option<Places>
    requires { 14 ≤ length frame.now }
    ensures value { result ≡ place.ipv6_places frame.now }
    ensures holds { IfSome result (λ places. Holds places frame.now) }
{
    let (_, bytes) = frame.split_at(ETHERNET_HEADER_LEN);
    let Ok(packet) = Ipv6Packet::new_checked(bytes) else {
        return None;
    };
    if packet.version() != 6 {
        return None;
    }
    let end = ETHERNET_HEADER_LEN + Layout::of(IpVersion::Ipv6, bytes).end;
    places_by_number(frame, next_number(bytes), end)
}

// The number of the next header in an IPv6 header.
#[inline(always)]
fn next_number(bytes: &[u8]) -> u8
    requires { 40 ≤ length bytes.now }
    ensures { result ≡ field bytes.now 48 8 }
{
    bytes[NEXT_HEADER]
}

// The places of an IPv6 packet with this next header that ends at `end`. The usual transports are compared first. The
// result is that of the caller: a value without `Some` would be copied.
#[inline(always)]
fn places_by_number(frame: &[u8], number: u8, end: usize) -> Option<Places>
    requires header { 54 ≤ end }
    requires ends { end ≤ length frame.now }
    ensures value { result ≡ Some (place.places_after frame.now (extensions frame.now number end) end) }
    ensures holds { IfSome result (λ places. Holds places frame.now) }
{
    match number {
        TCP | UDP | ICMPV6 => Some(direct_places(frame, number, end)),
        _ => Some(places_after(frame, number, end)),
    }
}

// The places of an IPv6 packet without extension headers.
#[inline(always)]
fn direct_places(frame: &[u8], number: u8, end: usize) -> Places
    requires header { 54 ≤ end }
    requires ends { end ≤ length frame.now }
    requires direct { is_extension number ≡ false }
    ensures value { result ≡ place.places_after frame.now (extensions frame.now number end) end }
    ensures holds { Holds result frame.now }
{
    begun_places(frame, number, end)
}

// The places of an IPv6 packet before its extension headers are stepped through.
#[inline(always)]
fn begun_places(frame: &[u8], number: u8, end: usize) -> Places
    requires header { 54 ≤ end }
    requires ends { end ≤ length frame.now }
    ensures value { result ≡ place.places_after frame.now (begun number) end }
    ensures holds { Holds result frame.now }
{
    let version = IpVersion::Ipv6;
    let protocol = IpProtocol::from(number);
    Places {
        version,
        start: IPV6_END,
        end,
        carried: carried_by(frame, version, protocol, IPV6_END, end, true),
    }
}

// The places of an IPv6 packet that may have extension headers.
#[inline(never)]
fn places_after(frame: &[u8], number: u8, end: usize) -> Places
    requires header { 54 ≤ end }
    requires ends { end ≤ length frame.now }
    ensures value { result ≡ place.places_after frame.now (extensions frame.now number end) end }
    ensures holds { Holds result frame.now }
{
    let chain = Chain::of(number, end - IPV6_END, &frame[IPV6_END..end]);
    Places {
        version: IpVersion::Ipv6,
        start: IPV6_END + chain.end(),
        end,
        carried: carried_after(frame, &chain, end),
    }
}

// What an IPv6 packet with these extension headers carries.
fn carried_after(frame: &[u8], chain: &Chain, end: usize) -> Carried
    requires even { chain.now.len % 2 ≡ 0 }
    requires order { 54 + end_of chain.now ≤ end }
    requires ends { end ≤ length frame.now }
    ensures value { result ≡ place.carried_after frame.now chain.now end }
    ensures holds { HoldsCarried result version.Ipv6 (54 + end_of chain.now) frame.now }
{
    if chain.fault.is_some() || chain.is_authenticated {
        return Carried::Hidden;
    }
    if is_later(&chain.fragment) {
        return Carried::Fragment;
    }
    let is_part = chain.ends_at_part();
    let number = if is_part {
        frame[IPV6_END + chain.len]
    } else {
        chain.protocol
    };
    carried_by(
        frame,
        IpVersion::Ipv6,
        IpProtocol::from(number),
        IPV6_END + chain.end(),
        end,
        !is_part,
    )
}

// Whether a fragment header, if there is one, is that of a fragment other than the first.
fn is_later(fragment: &Option<Ipv6FragmentRepr>) -> bool
    ensures { result ≡ is_later fragment.now }
{
    match fragment {
        Some(header) => header.frag_offset != 0,
        None => false,
    }
}

// What a packet of this protocol carries from `start` up to `end`, if it is no later fragment.
#[inline(always)]
fn carried_by(
    frame: &[u8],
    version: IpVersion,
    protocol: IpProtocol,
    start: usize,
    end: usize,
    is_whole: bool,
) -> Carried
    requires begins { addresses_end version ≤ start }
    requires even { start % 2 ≡ 0 }
    requires order { start ≤ end }
    requires ends { end ≤ length frame.now }
    ensures value { result ≡ place.carried_by frame.now (is_ipv4 version) protocol start end is_whole }
    ensures holds { HoldsCarried result version start frame.now }
{
    if has_checksum(version, protocol) {
        segment_at(frame, version, protocol, start, end, is_whole)
    } else if hides_next(version, protocol) || covers_addresses(version, protocol) {
        Carried::Hidden
    } else {
        Carried::Other
    }
}

// Whether it is the protocol of a transport packet with a checksum.
fn has_checksum(version: IpVersion, protocol: IpProtocol) -> bool
    ensures { result ≡ has_checksum (is_ipv4 version) protocol }
{
    match protocol {
        IpProtocol::Tcp | IpProtocol::Udp => true,
        IpProtocol::Icmp => is_ipv4(version),
        IpProtocol::Icmpv6 => !is_ipv4(version),
        _ => false,
    }
}

// Whether it is the number of an IPv6 extension header (RFC 8200, section 4), or of the authentication header.
fn hides_next(version: IpVersion, protocol: IpProtocol) -> bool
    ensures { result ≡ hides_next (is_ipv4 version) protocol }
{
    match protocol {
        IpProtocol::HopByHop
        | IpProtocol::Ipv6Route
        | IpProtocol::Ipv6Frag
        | IpProtocol::Ipv6Opts => !is_ipv4(version),
        IpProtocol::IpSecAh => true,
        _ => false,
    }
}

// Whether it is the number of another protocol whose checksum covers the addresses: DCCP, OSPF, VRRP, UDP-Lite, HIP,
// and over IPv6 PIM and Mobility.
fn covers_addresses(version: IpVersion, protocol: IpProtocol) -> bool
    ensures { result ≡ covers_addresses (is_ipv4 version) protocol }
{
    match protocol {
        IpProtocol::Unknown(number) => {
            matches!(number, 33 | 89 | 112 | 136 | 139)
                || !is_ipv4(version) && matches!(number, 103 | 135)
        }
        _ => false,
    }
}

fn is_ipv4(version: IpVersion) -> bool
    ensures { result ≡ is_ipv4 version }
{
    match version {
        IpVersion::Ipv4 => true,
        IpVersion::Ipv6 => false,
    }
}

// The transport packet with a checksum from `start` up to `end`.
#[inline(always)]
fn segment_at(
    frame: &[u8],
    version: IpVersion,
    protocol: IpProtocol,
    start: usize,
    end: usize,
    is_whole: bool,
) -> Carried
    requires begins { addresses_end version ≤ start }
    requires even { start % 2 ≡ 0 }
    requires order { start ≤ end }
    requires ends { end ≤ length frame.now }
    ensures value { result ≡ place.segment_at frame.now protocol start end is_whole }
    ensures holds { HoldsCarried result version start frame.now }
{
    if end < start + checksum_offset(protocol) + 2 {
        return Carried::Hidden;
    }
    match protocol {
        IpProtocol::Udp => datagram_at(frame, version, start, end, is_whole),
        _ => Carried::Segment(Segment {
            protocol,
            start,
            end,
            is_whole,
        }),
    }
}

// The UDP packet from `start` on. Its checksum covers as many bytes as its length field says.
#[inline(always)]
fn datagram_at(
    frame: &[u8],
    version: IpVersion,
    start: usize,
    end: usize,
    is_whole: bool,
) -> Carried
    requires begins { addresses_end version ≤ start }
    requires even { start % 2 ≡ 0 }
    requires room { start + 8 ≤ end }
    requires ends { end ≤ length frame.now }
    ensures value { result ≡ place.datagram_at frame.now start end is_whole }
    ensures holds { HoldsCarried result version start frame.now }
{
    let len = usize::from(NetworkEndian::read_u16(&frame[start + UDP_LEN..]));
    if len < UDP_HEADER_LEN {
        return Carried::Hidden;
    }
    Carried::Segment(Segment {
        protocol: IpProtocol::Udp,
        start,
        end: end.min(start + len),
        is_whole: is_whole && start + len <= end,
    })
}
