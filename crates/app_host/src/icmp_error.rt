//! ICMP errors about the packet of a frame (RFC 1122, section 3.2.2; RFC 1812, section 4.3.2; RFC 4443,
//! section 2.4).

ghost use Rattle.std.specs.Prelude.{◌≡◌, ◌↔◌, IfSome, IsTrue, drop, true};
ghost use Rattle.app_host.specs.IcmpError.{IsBetweenHosts, IsError, IsErrorTo, IsIcmpError, IsOurGroup, IsToGroup, IsToReceiver, IsToldOf, header_from, quoted};
ghost use Rattle.app_host.specs.Kinds.{Tries};
ghost use Rattle.app_host.specs.Message.{Gives};
ghost use Rattle.app_host.specs.declared.icmp_error.About.{About};
ghost use Rattle.ip_wire.specs.Ethernet as ethernet;
ghost use Rattle.ip_wire.specs.Ip.{Reads, version_of};
ghost use Rattle.ip_wire.specs.Ipv4 as ipv4;
ghost use Rattle.ip_wire.specs.Ipv6 as ipv6;
ghost use Rattle.ip_wire.specs.Reply.{unmarked};
ghost use Rattle.ip_wire.specs.Types.{Ipv4, Ipv6};

use crate::interface::{Interface, header_back, is_host_addr};
use crate::ipv6_chain::upper_layer;
use crate::message::{MessageFrame, ethertype_of};
use crate::neighbour::group_hardware;
use ip_wire::{
    ChecksumCapabilities, EthernetFrame, EthernetRepr, IPV6_LINK_LOCAL_ALL_NODES, IpAddress,
    IpPacket, IpRepr, IpVersion, Ipv4Packet, Ipv4Repr, Ipv6Address, Ipv6Packet, Ipv6Repr,
};
use wire_icmp::{IcmpPacket, IcmpRepr, protocol_of};

/// The most bytes that an error of IPv4 quotes, so that its packet has at most 576 bytes (RFC 1812,
/// section 4.3.2.3).
const IPV4_QUOTE_LEN: usize = 548;

/// The most bytes that an error of IPv6 quotes, so that its packet has at most 1,280 bytes (RFC 4443, section 2.4 c).
const IPV6_QUOTE_LEN: usize = 1232;

/// The packets that an error is sent about.
#[derive(Debug, Clone, Copy, PartialEq, Eq)]
pub enum About {
    /// Those to one host.
    Hosts,
    /// Those to a multicast group of the interface too (RFC 4443, section 2.4 e.3).
    Groups,
    /// Those to one host, also fragments in which an extension header is missing (RFC 8200, section 4.5).
    Fragments,
}

/// A frame with an ICMP error about the packet of a frame, to its sender. It quotes as much of the packet
/// as fits into 576 bytes over IPv4, and into 1,280 over IPv6. `None` if the sender may not get one:
/// - The frame does not come from one host, or is not sent to this interface only.
/// - It carries no IP packet: lengths, version or IPv4 checksum are wrong, or the EtherType.
/// - No other host has its source, or no host its destination, or no host the address of `ours`.
/// - Over IPv4 the packet is a fragment other than the first.
/// - Over IPv6 an extension header does not end within the packet, or would be in another fragment.
/// - It carries an ICMP error or redirect, or may be part of one: it is a later fragment of ICMPv6.
///
/// The broadcast address of a subnet is not known here, so it counts as that of a host.
#[inline(never)]
pub fn error<'a>(frame: &'a [u8], ours: &Interface, message: IcmpRepr) -> Option<MessageFrame<'a>>
    ensures error { Gives (IsError ours.now frame.now message) result }
    ensures unmarked { IfSome result (λ error. error.dscp ≡ 0) }
{
    error_to(frame, ours, message, About::Hosts)
}

/// As `error`, for these packets.
#[inline(always)]
pub(crate) fn error_to<'a>(
    frame: &'a [u8],
    ours: &Interface,
    message: IcmpRepr,
    about: About,
) -> Option<MessageFrame<'a>>
    ensures error { Gives (IsErrorTo about ours.now frame.now message) result }
    ensures unmarked { IfSome result (λ error. error.dscp ≡ 0) }
{
    let view = EthernetFrame::new_unchecked(frame);
    let Ok(link) = EthernetRepr::parse(&view) else {
        return None;
    };
    let caps = ChecksumCapabilities::default();
    match IpRepr::parse(&IpPacket::new_unchecked(view.payload()), &caps) {
        Ok(header) => error_about(&link, &header, frame, ours, message, about),
        Err(_) => None,
    }
}

/// Writes the error that `error` returns to the front of `out`, and returns its length. `Some(None)` if it does not
/// fit, and `None` if the sender may not get one; then `out` is unchanged.
#[inline(never)]
pub fn try_error(
    frame: &[u8],
    ours: &Interface,
    message: IcmpRepr,
    out: &mut [u8],
) -> Option<Option<usize>>
    ensures { Tries unmarked (IsError ours.now frame.now message) out.old out.new result }
{
    let view = EthernetFrame::new_unchecked(frame);
    let Ok(link) = EthernetRepr::parse(&view) else {
        return None;
    };
    let caps = ChecksumCapabilities::default();
    // Each version has code of its own: an IP header that may be of either takes longer.
    match IpRepr::parse(&IpPacket::new_unchecked(view.payload()), &caps) {
        Ok(header) => match header {
            IpRepr::Ipv4(value) => {
                try_error_about(&link, &IpRepr::Ipv4(value), frame, ours, message, out)
            }
            IpRepr::Ipv6(value) => {
                try_error_about(&link, &IpRepr::Ipv6(value), frame, ours, message, out)
            }
        },
        Err(_) => None,
    }
}

// Writes the error about a packet with this header to one host, as `try_error`.
#[inline(always)]
fn try_error_about(
    link: &EthernetRepr,
    header: &IpRepr,
    frame: &[u8],
    ours: &Interface,
    message: IcmpRepr,
    out: &mut [u8],
) -> Option<Option<usize>>
    requires link { ethernet.Reads frame.now link.now }
    requires header { Reads (drop 14 frame.now) true header.now }
    ensures { Tries unmarked (IsError ours.now frame.now message) out.old out.new result }
{
    match error_about(link, header, frame, ours, message, About::Hosts) {
        Some(error) => Some(error.send(out)),
        None => None,
    }
}

// The error about a packet with this header, in a frame with this Ethernet header.
#[inline(always)]
fn error_about<'a>(
    link: &EthernetRepr,
    header: &IpRepr,
    frame: &'a [u8],
    ours: &Interface,
    message: IcmpRepr,
    about: About,
) -> Option<MessageFrame<'a>>
    requires link { ethernet.Reads frame.now link.now }
    requires header { Reads (drop 14 frame.now) true header.now }
    ensures error { Gives (IsErrorTo about ours.now frame.now message) result }
    ensures unmarked { IfSome result (λ error. error.dscp ≡ 0) }
{
    let packet = EthernetFrame::new_unchecked(frame).payload();
    if !is_to_receiver(about, link, header, ours) {
        return None;
    }
    if !is_told_of(about, header, packet) {
        return None;
    }
    let (src_addr, dst_addr) = (ours.hardware_addr, link.src_addr);
    let (back, quote) = (header_from(ours, header), quoted(header, packet));
    Some(MessageFrame::icmp(src_addr, dst_addr, back, message, quote))
}

// Whether a packet with these headers goes from one other host through this interface to one host.
#[inline(always)]
fn is_between_hosts(link: &EthernetRepr, header: &IpRepr, ours: &Interface) -> bool
    ensures { IsTrue result ↔ IsBetweenHosts ours.now link.now header.now }
{
    link.ethertype == ethertype_of(header.version())
        && link.dst_addr == ours.hardware_addr
        && link.src_addr.is_unicast()
        && !ours.is_invalid_source(&header.src_addr())
        && is_host_addr(&header.dst_addr())
        && is_host_addr(&header_from(ours, header).src_addr())
}

// The same, or for errors about packets to groups whether it goes to a group of ours.
#[inline(always)]
fn is_to_receiver(about: About, link: &EthernetRepr, header: &IpRepr, ours: &Interface) -> bool
    ensures { IsTrue result ↔ IsToReceiver about ours.now link.now header.now }
{
    if is_between_hosts(link, header, ours) {
        return true;
    }
    match about {
        About::Groups => match header {
            IpRepr::Ipv4(_) => false,
            IpRepr::Ipv6(header) => is_to_group(link, header, ours),
        },
        _ => false,
    }
}

// Whether a packet goes from one other host to a group of ours.
#[inline(never)]
fn is_to_group(link: &EthernetRepr, header: &Ipv6Repr, ours: &Interface) -> bool
    ensures { IsTrue result ↔ IsToGroup ours.now link.now header.now }
{
    let is_to_hardware = link.dst_addr == group_hardware(&header.dst_addr)
        || link.dst_addr == ours.hardware_addr;
    let to_us = EthernetRepr {
        dst_addr: ours.hardware_addr,
        ..*link
    };
    let header_to_us = IpRepr::Ipv6(Ipv6Repr {
        dst_addr: ours.ipv6_addr,
        ..*header
    });
    is_our_group(ours, &header.dst_addr)
        && is_to_hardware
        && is_between_hosts(&to_us, &header_to_us, ours)
}

/// Whether it is a multicast group of the interface: all nodes, or the solicited-node group of its address.
pub(crate) fn is_our_group(ours: &Interface, group: &Ipv6Address) -> bool
    ensures { IsTrue result ↔ IsOurGroup ours.now group.now }
{
    is_host_addr(&IpAddress::Ipv6(ours.ipv6_addr))
        && (*group == IPV6_LINK_LOCAL_ALL_NODES || *group == ours.ipv6_addr.solicited_node())
}

// Whether an error may be sent about what the packet carries.
#[inline(always)]
fn is_told_of(about: About, header: &IpRepr, packet: &[u8]) -> bool
    requires { Reads packet.now true header.now }
    ensures { IsTrue result ↔ IsToldOf about header.now packet.now }
{
    match header {
        IpRepr::Ipv4(header) => is_told_of_ipv4(header, packet),
        IpRepr::Ipv6(header) => is_told_of_ipv6(about, header, packet),
    }
}

fn is_told_of_ipv4(header: &Ipv4Repr, packet: &[u8]) -> bool
    requires { ipv4.Reads packet.now true header.now }
    ensures { (about : About) → IsTrue result ↔ IsToldOf about (Ipv4 header.now) packet.now }
{
    let packet = Ipv4Packet::new_unchecked(packet);
    let protocol = header.next_header.number();
    packet.frag_offset() == 0 && !is_icmp_error(IpVersion::Ipv4, protocol, packet.payload())
}

fn is_told_of_ipv6(about: About, header: &Ipv6Repr, packet: &[u8]) -> bool
    requires { ipv6.Reads packet.now header.now }
    ensures { IsTrue result ↔ IsToldOf about (Ipv6 header.now) packet.now }
{
    let payload = Ipv6Packet::new_unchecked(packet).payload();
    match upper_layer(header.next_header.number(), payload) {
        Some((protocol, message)) => !is_icmp_error(IpVersion::Ipv6, protocol, message),
        None => about == About::Fragments,
    }
}

// Whether the message of this protocol is ICMP, and no query.
fn is_icmp_error(version: IpVersion, protocol: u8, message: &[u8]) -> bool
    ensures { IsTrue result ↔ IsIcmpError version protocol message.now }
{
    if protocol != protocol_of(version).number() {
        return false;
    }
    message.is_empty() || !IcmpPacket::new_unchecked(message).is_query(version)
}

// What an error quotes of the packet.
#[inline(always)]
fn quoted<'a>(header: &IpRepr, packet: &'a [u8]) -> &'a [u8]
    requires { Reads packet.now true header.now }
    ensures { result.now ≡ quoted (version_of header.now) packet.now }
{
    let len = match header {
        IpRepr::Ipv4(_) => {
            let len = Ipv4Packet::new_unchecked(packet).total_len();
            IPV4_QUOTE_LEN.min(usize::from(len))
        }
        IpRepr::Ipv6(_) => {
            let len = Ipv6Packet::new_unchecked(packet).total_len();
            IPV6_QUOTE_LEN.min(len)
        }
    };
    &packet[..len]
}

// The header of a packet from our address back to the sender.
#[inline(always)]
fn header_from(ours: &Interface, header: &IpRepr) -> IpRepr
    ensures { result ≡ header_from ours.now header.now }
{
    match *header {
        IpRepr::Ipv4(value) => header_back(&IpRepr::Ipv4(Ipv4Repr {
            dst_addr: ours.ipv4_addr,
            ..value
        })),
        IpRepr::Ipv6(value) => header_back(&IpRepr::Ipv6(Ipv6Repr {
            dst_addr: ours.ipv6_addr,
            ..value
        })),
    }
}
