//! Queries that ask for a group.

ghost use Rattle.std.specs.Prelude.{◌≡◌, ◌↔◌, ◌≤◌, ◌⊎◌, IsTrue, length, slice_range};
ghost use Rattle.app_mld.specs.Mld.{CarriesQuery, Delays, IsQuery, IsQueryMessage, link_local_prefix};
ghost use Rattle.ip_wire.specs.Block.{IsIn};
ghost use Rattle.ip_wire.specs.Class.{ipv6_unspecified};

use byteorder::{ByteOrder, NetworkEndian};
use ip_wire::{
    ChecksumCapabilities, Frame, IpAddress, IpRepr, Ipv6Address, Ipv6Cidr, Ipv6Repr, Transport,
};
use wire_extensions::Chain;
use wire_icmp::IcmpPacket;

const ICMPV6: u8 = 58;

// The ICMPv6 type of a query.
const QUERY: u8 = 130;

// The hop limit of all messages.
const HOP_LIMIT: u8 = 1;

// The length of a query of version 1, and the least one of version 2, in bytes.
const QUERY_LEN: usize = 24;

const QUERY2_LEN: usize = 28;

// Where the group of a query is.

const GROUP_AT: usize = 8;

/// The maximum response delay of a query in a frame, in milliseconds: a host that listens to the group reports it after a
/// random part of it (RFC 2710, section 4). `None` unless the frame is a valid query for all groups or for this one: from
/// an address in fe80::/10, with hop limit 1, of 24 bytes, or 28 or more, and with a valid checksum (section 5; RFC 3810,
/// sections 6.2 and 8.1).
pub fn query_delay(frame: &[u8], group: &Ipv6Address) -> Option<u16>
    ensures { Delays (IsQuery group.now frame.now) result }
{
    match Frame::parse_packet(frame, &ChecksumCapabilities::default()) {
        Ok((_, header, inner)) => match &header {
            IpRepr::Ipv6(ip) => match &inner {
                Transport::Other(payload) => carried_delay(ip, payload, group),
                _ => None,
            },
            IpRepr::Ipv4(_) => None,
        },
        Err(_) => None,
    }
}

// The delay of a query in the payload of a packet with this header.
fn carried_delay(ip: &Ipv6Repr, payload: &[u8], group: &Ipv6Address) -> Option<u16>
    ensures { Delays (CarriesQuery ip.now group.now payload.now) result }
{
    if !is_from_link(ip) {
        return None;
    }
    let chain = Chain::of(ip.next_header.number(), payload.len(), payload);
    if chain.protocol != ICMPV6 {
        return None;
    }
    message_delay(ip, &payload[chain.len..], group)
}

// Whether a packet is from the link: its hop limit is 1, and its source a link-local address.
fn is_from_link(ip: &Ipv6Repr) -> bool
    ensures { IsTrue result ↔ ((ip.now.hop_limit ≡ 1) × IsIn link_local_prefix ip.now.src_addr) }
{
    ip.hop_limit == HOP_LIMIT && Ipv6Cidr::LINK_LOCAL_PREFIX.contains_addr(&ip.src_addr)
}

// The delay of a query.
fn message_delay(ip: &Ipv6Repr, message: &[u8], group: &Ipv6Address) -> Option<u16>
    ensures { Delays (IsQueryMessage ip.now group.now message.now) result }
{
    if message.len() != QUERY_LEN && message.len() < QUERY2_LEN {
        return None;
    }
    let packet = IcmpPacket::new_unchecked(message);
    let (src_addr, dst_addr) = (IpAddress::Ipv6(ip.src_addr), IpAddress::Ipv6(ip.dst_addr));
    if packet.msg_type() != QUERY
        || !asks_for(message, group)
        || !packet.verify_checksum(&src_addr, &dst_addr)
    {
        return None;
    }
    Some(NetworkEndian::read_u16(&message[4..6]))
}

// Whether a query asks for the group, or for all groups.
fn asks_for(message: &[u8], group: &Ipv6Address) -> bool
    requires { 24 ≤ length message.now }
    ensures { IsTrue result ↔ ((slice_range message.now 8 24 ≡ ipv6_unspecified) ⊎ (slice_range message.now 8 24 ≡ group.now)) }
{
    let mut octets = [0; 16];
    octets.copy_from_slice(&message[GROUP_AT..QUERY_LEN]);
    let asked = Ipv6Address::from_octets(octets);
    asked.is_unspecified() || asked == *group
}
