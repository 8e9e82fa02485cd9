//! Edits of the fields of a packet. Each returns `true` if it wrote, else the frame is unchanged.

ghost use Rattle.std.specs.Prelude.{◌≡◌, ◌≤◌, ◌<◌, ◌^◌, is_some, length, true};
ghost use Rattle.std.specs.Option.{unwrap_or};
ghost use Rattle.app_edit.specs.Edited.{addr_set, address_place, allows, bytes_set, dscp_set, edited, hop_limit_place, hop_limit_set, is_apart, keeps_carried, keeps_header, keeps_segment, port_place, port_set, takes_address, with_dscp};
ghost use Rattle.app_edit.specs.Places.{Holds, addresses_start, carried_start, places_of};
ghost use Rattle.ip_wire.specs.IpAddress.{IsAddress, address_bytes};

use crate::offsets::{
    DSCP_END, ICMP_CHECKSUM, IP_HEADER, IPV4_DST, IPV4_HOP_LIMIT, IPV4_PROTOCOL, IPV4_SRC,
    IPV4_TOTAL_LEN, IPV6_DST, IPV6_END, IPV6_HOP_LIMIT, IPV6_PAYLOAD_LEN, IPV6_SRC, TCP_CHECKSUM,
    TCP_DATA_OFFSET, UDP_CHECKSUM, UDP_LEN, VERSION_END,
};
use crate::places::{Carried, Places};
use crate::replace::{Offload, can_be_left};
use crate::side::Side;
use ip_wire::laws::field::bytes_fit;
use ip_wire::{IpAddress, IpProtocol, IpVersion, Ipv4PacketMut, Ipv6PacketMut};

/// Writes the TTL of IPv4 (RFC 791, section 3.1) or the hop limit of IPv6.
#[tactic(auto, unfolding(crate::specs::Edited::hop_limit_set))]
pub fn set_hop_limit(frame: &mut [u8], hop_limit: u8) -> bool
    ensures done { result ≡ is_some (hop_limit_set frame.old hop_limit) }
    ensures bytes { frame.new ≡ unwrap_or (hop_limit_set frame.old hop_limit) frame.old }
    ensures places { places_of frame.new ≡ places_of frame.old }
{
    let Some(places) = Places::inlined(frame) else {
        return false;
    };
    let at = hop_limit_place(places.version);
    places.replace_before_addresses(frame, at, &[hop_limit]);
    true
}

// The place of the TTL or hop limit.
fn hop_limit_place(version: IpVersion) -> usize
    ensures value { result ≡ hop_limit_place version }
    ensures before { result < addresses_start version }
{
    match version {
        IpVersion::Ipv4 => IPV4_HOP_LIMIT,
        IpVersion::Ipv6 => IPV6_HOP_LIMIT,
    }
}

/// Writes the DSCP, of 6 bits (RFC 2474, section 3). A larger number is rejected. The ECN stays.
#[tactic(auto, unfolding(crate::specs::Edited::dscp_set))]
pub fn set_dscp(frame: &mut [u8], dscp: u8) -> bool
    ensures done { result ≡ is_some (dscp_set frame.old dscp) }
    ensures bytes { frame.new ≡ unwrap_or (dscp_set frame.old dscp) frame.old }
    ensures places { places_of frame.new ≡ places_of frame.old }
{
    bytes_fit(frame);
    if dscp > 63 {
        return false;
    }
    let Some(places) = Places::inlined(frame) else {
        return false;
    };
    let mut bytes = [0; 2];
    bytes.copy_from_slice(&frame[IP_HEADER..DSCP_END]);
    write_dscp(places.version, &mut bytes, dscp);
    places.replace_before_addresses(frame, IP_HEADER, &bytes);
    true
}

// Writes the DSCP into the first two bytes of an IP header. The traffic class of IPv6 has the ECN below it.
fn write_dscp(version: IpVersion, bytes: &mut [u8], dscp: u8)
    requires len { 2 ≤ length bytes.old }
    requires fits { dscp ≤ 63 }
    ensures { bytes.new ≡ with_dscp version bytes.old dscp }
{
    match version {
        IpVersion::Ipv4 => Ipv4PacketMut::new_unchecked(bytes).set_dscp(dscp),
        IpVersion::Ipv6 => {
            let mut packet = Ipv6PacketMut::new_unchecked(bytes);
            let ecn = packet.traffic_class() % 4;
            packet.set_traffic_class(4 * dscp + ecn);
        }
    }
}

/// Writes the source or destination address. Rejected: an address of the other version, and a packet whose transport
/// checksum covers it and is not found (`Carried::Hidden`). Of a later fragment only the IP header is updated.
#[tactic(auto, unfolding(crate::specs::Edited::addr_set))]
pub fn set_addr(frame: &mut [u8], side: Side, addr: &IpAddress, offload: Offload) -> bool
    ensures done { result ≡ is_some (addr_set offload frame.old side addr.now) }
    ensures bytes { frame.new ≡ unwrap_or (addr_set offload frame.old side addr.now) frame.old }
    ensures places { places_of frame.new ≡ places_of frame.old }
{
    let Some(places) = Places::inlined(frame) else {
        return false;
    };
    if !takes_address(&places, addr) {
        return false;
    }
    write_address(&places, frame, side, addr, offload);
    true
}

// Whether a packet can have this address.
fn takes_address(places: &Places, addr: &IpAddress) -> bool
    ensures { result ≡ takes_address places.now addr.now }
{
    match places.carried {
        Carried::Hidden => false,
        _ => match (places.version, addr) {
            (IpVersion::Ipv4, IpAddress::Ipv4(_)) | (IpVersion::Ipv6, IpAddress::Ipv6(_)) => true,
            _ => false,
        },
    }
}

// The place of an address.
fn address_place(side: Side, version: IpVersion) -> usize
    ensures { result ≡ address_place side version }
{
    match (side, version) {
        (Side::Source, IpVersion::Ipv4) => IPV4_SRC,
        (Side::Source, IpVersion::Ipv6) => IPV6_SRC,
        (Side::Destination, IpVersion::Ipv4) => IPV4_DST,
        (Side::Destination, IpVersion::Ipv6) => IPV6_DST,
    }
}

// Writes an address that the packet can have, and updates the checksums.
fn write_address(places: &Places, frame: &mut [u8], side: Side, addr: &IpAddress, offload: Offload)
    requires places { Holds places.now frame.old }
    requires takes { takes_address places.now addr.now ≡ true }
    ensures bytes { frame.new ≡ edited offload places.now frame.old (address_place side places.now.version) (address_bytes addr.now) }
    ensures octets { IsAddress addr.now }
{
    let at = address_place(side, places.version);
    match addr {
        IpAddress::Ipv4(addr) => {
            places.replace_address(IpVersion::Ipv4, frame, at, &addr.octets(), offload);
        }
        IpAddress::Ipv6(addr) => {
            places.replace_address(IpVersion::Ipv6, frame, at, &addr.octets(), offload);
        }
    }
}

/// Writes the source or destination port of TCP or UDP, also in a first fragment. Any port is allowed.
#[tactic(auto, unfolding(crate::specs::Edited::port_set))]
pub fn set_port(frame: &mut [u8], side: Side, port: u16, offload: Offload) -> bool
    ensures done { result ≡ is_some (port_set offload frame.old side port) }
    ensures bytes { frame.new ≡ unwrap_or (port_set offload frame.old side port) frame.old }
    ensures places { places_of frame.new ≡ places_of frame.old }
{
    let Some(places) = Places::inlined(frame) else {
        return false;
    };
    match port_place(side, &places.carried) {
        Some(at) => {
            places.replace_port(frame, at, port, offload);
            true
        }
        None => false,
    }
}

// The place of a port.
fn port_place(side: Side, carried: &Carried) -> Option<usize>
    requires { carried_start carried.now < 2 ^ 63 }
    ensures { result ≡ port_place side carried.now }
{
    match carried {
        Carried::Segment(segment) if can_be_left(segment.protocol) => match side {
            Side::Source => Some(segment.start),
            Side::Destination => Some(segment.start + 2),
        },
        _ => None,
    }
}

/// Writes bytes of the packet or of the padding after it, from byte `at` of the frame on: addresses, ports, options,
/// payload and other fields. Rejected: bytes past the end of the frame, and bytes that say where the layers are, or
/// whose transport checksum is not found. These are
///
/// - the Ethernet header;
/// - the version and header length, the total length to the fragment offset, protocol and checksum of IPv4;
/// - the version, payload length and next header of IPv6, and its extension headers;
/// - the transport checksum, the data offset of TCP, the length of UDP;
/// - the payload of a later fragment;
/// - all from the addresses on, if the transport checksum is not found (`Carried::Hidden`).
///
/// No bytes are rejected too, if `at` is between two of these.
#[tactic(auto, unfolding(crate::specs::Edited::bytes_set))]
pub fn set_bytes(frame: &mut [u8], at: usize, bytes: &[u8], offload: Offload) -> bool
    ensures done { result ≡ is_some (bytes_set offload frame.old at bytes.now) }
    ensures bytes { frame.new ≡ unwrap_or (bytes_set offload frame.old at bytes.now) frame.old }
    ensures places { places_of frame.new ≡ places_of frame.old }
{
    if at > frame.len() || bytes.len() > frame.len() - at {
        return false;
    }
    let Some(places) = Places::inlined(frame) else {
        return false;
    };
    if !places.allows(at, at + bytes.len()) {
        return false;
    }
    places.replace(frame, at, bytes, offload);
    true
}

impl Places {
    // Whether an edit of these bytes is allowed.
    #[inline(always)]
    fn allows(&self, at: usize, end: usize) -> bool
        requires { carried_start self.now.carried < 2 ^ 63 }
        ensures { result ≡ allows self.now at end }
    {
        self.keeps_header(at, end) && self.keeps_carried(at, end)
    }

    #[inline(always)]
    fn keeps_header(&self, at: usize, end: usize) -> bool
        ensures { result ≡ keeps_header self.now.version self.now.start at end }
    {
        match self.version {
            IpVersion::Ipv4 => {
                is_apart(at, end, 0, VERSION_END)
                    && is_apart(at, end, IPV4_TOTAL_LEN, IPV4_HOP_LIMIT)
                    && is_apart(at, end, IPV4_PROTOCOL, IPV4_SRC)
            }
            IpVersion::Ipv6 => {
                is_apart(at, end, 0, VERSION_END)
                    && is_apart(at, end, IPV6_PAYLOAD_LEN, IPV6_HOP_LIMIT)
                    && is_apart(at, end, IPV6_END, self.start)
            }
        }
    }

    #[inline(always)]
    fn keeps_carried(&self, at: usize, end: usize) -> bool
        requires { carried_start self.now.carried < 2 ^ 63 }
        ensures { result ≡ keeps_carried self.now.carried self.now at end }
    {
        match self.carried {
            Carried::Segment(segment) => keeps_segment(segment.protocol, segment.start, at, end),
            Carried::Other => true,
            Carried::Fragment => {
                let first = match self.version {
                    IpVersion::Ipv4 => self.start,
                    IpVersion::Ipv6 => IPV6_END,
                };
                is_apart(at, end, first, self.end)
            }
            Carried::Hidden => {
                let first = match self.version {
                    IpVersion::Ipv4 => IPV4_PROTOCOL,
                    IpVersion::Ipv6 => IPV6_SRC,
                };
                is_apart(at, end, first, self.end)
            }
        }
    }
}

// Whether an edit keeps the fields of a transport header that it may not replace.
fn keeps_segment(protocol: IpProtocol, start: usize, at: usize, end: usize) -> bool
    requires { start < 2 ^ 63 }
    ensures { result ≡ keeps_segment protocol start at end }
{
    match protocol {
        IpProtocol::Tcp => {
            is_apart(
                at,
                end,
                start + TCP_DATA_OFFSET,
                start + TCP_DATA_OFFSET + 1,
            ) && is_apart(at, end, start + TCP_CHECKSUM, start + TCP_CHECKSUM + 2)
        }
        IpProtocol::Udp => is_apart(at, end, start + UDP_LEN, start + UDP_CHECKSUM + 2),
        _ => is_apart(at, end, start + ICMP_CHECKSUM, start + ICMP_CHECKSUM + 2),
    }
}

// Whether the bytes from `at` up to `end` have none of those from `first` up to `last`.
fn is_apart(at: usize, end: usize, first: usize, last: usize) -> bool
    ensures { result ≡ is_apart at end first last }
{
    end <= first || last <= at || last <= first
}
