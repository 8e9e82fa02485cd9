//! The reply to a neighbour solicitation for the IPv6 address of the interface (RFC 4861, section 7.2.4).

ghost use Rattle.std.specs.Prelude.{◌≡◌, ◌↔◌, Bool, IfSome, IsTrue, List, None, ℕ};
ghost use Rattle.app_host.specs.Message.{Gives, message_frame};
ghost use Rattle.app_host.specs.Neighbour.{AdvertisesFrame, IsAnsweredTo, IsForTarget, IsNeighbourReply, IsSolicited, advert_header, advert_of, group_hardware, hardware_of};
ghost use Rattle.app_host.specs.Source.{IsHostAddr};
ghost use Rattle.app_host.specs.declared.message.Message.TheVariants.{Ndisc};
ghost use Rattle.ip_wire.specs.Frame.{other, packet};
ghost use Rattle.ip_wire.specs.declared.EthernetAddress.{EthernetAddress};
ghost use Rattle.ip_wire.specs.declared.IpAddress.TheVariants as address;
ghost use Rattle.ip_wire.specs.declared.IpRepr.TheVariants.{Ipv6};

use crate::interface::{Interface, is_host_addr};
use crate::message::MessageFrame;
use ip_wire::{
    Carried, ChecksumCapabilities, EthernetAddress, EthernetRepr, Frame, IPV6_LINK_LOCAL_ALL_NODES,
    IpAddress, IpProtocol, IpRepr, Ipv6Address, Ipv6Repr, Transport,
};
use wire_icmp::{IcmpPacket, NDISC_HOP_LIMIT, NdiscNeighborFlags, NdiscRepr};

/// The advertisement to a solicitation for the IPv6 address, with the hardware address. The solicitation
/// goes to the address or to its solicited-node group, and the frame to the hardware address or to that of the
/// group (RFC 6085). `None` for any other frame, if the Ethernet address of its sender or the one that it names
/// is not unicast, and if its source is neither valid nor `::`.
#[inline(always)]
pub fn reply<'a>(request: &Frame<'_>, ours: &Interface) -> Option<MessageFrame<'a>>
    ensures reply { Gives (AdvertisesFrame ours.now request.now) result }
    ensures unmarked { IfSome result (λ advert. advert.dscp ≡ 0) }
{
    match &request.carried {
        Carried::Packet(header, inner) => match header {
            IpRepr::Ipv6(header) => match inner {
                Transport::Other(bytes) => reply_to(&request.header, header, bytes, ours),
                _ => None,
            },
            _ => None,
        },
        _ => None,
    }
}

// The reply to the payload of a packet with these headers.
#[inline(always)]
fn reply_to<'a>(
    link: &EthernetRepr,
    header: &Ipv6Repr,
    request: &[u8],
    ours: &Interface,
) -> Option<MessageFrame<'a>>
    ensures reply { Gives (IsNeighbourReply ours.now link.now (packet (Ipv6 header.now) (other request.now))) result }
    ensures unmarked { IfSome result (λ advert. advert.dscp ≡ 0) }
{
    if !is_solicited(ours, link, header) {
        return None;
    }
    let caps = ChecksumCapabilities::default();
    let packet = IcmpPacket::new_unchecked(request);
    let (src_addr, dst_addr) = (header.src_addr, header.dst_addr);
    match NdiscRepr::parse(&packet, &src_addr, &dst_addr, header.hop_limit, &caps) {
        Ok(value) => match value {
            NdiscRepr::NeighborSolicit {
                target_addr,
                lladdr,
            } => {
                if target_addr != ours.ipv6_addr {
                    return None;
                }
                match answered_to(ours, link, header, lladdr) {
                    Some(to) => Some(advert(ours, to.0, to.1, to.2)),
                    None => None,
                }
            }
            _ => None,
        },
        Err(_) => None,
    }
}

// Whether a packet with these headers may ask for our address.
#[inline(always)]
fn is_solicited(ours: &Interface, link: &EthernetRepr, header: &Ipv6Repr) -> bool
    ensures { IsTrue result ↔ IsSolicited ours.now link.now header.now }
{
    header.next_header == IpProtocol::Icmpv6
        && link.src_addr.is_unicast()
        && is_host_addr(&IpAddress::Ipv6(ours.ipv6_addr))
        && is_for_target(ours, &link.dst_addr, &header.dst_addr)
}

// Whether a frame to this Ethernet address with a packet to this IPv6 address is for us as a target.
#[inline(always)]
fn is_for_target(ours: &Interface, hardware: &EthernetAddress, dst_addr: &Ipv6Address) -> bool
    requires { IsHostAddr (address.Ipv6 ours.now.ipv6_addr) }
    ensures { IsTrue result ↔ IsForTarget ours.now hardware.now dst_addr.now }
{
    let is_to_us = *hardware == ours.hardware_addr;
    (*dst_addr == ours.ipv6_addr && is_to_us)
        || (*dst_addr == ours.ipv6_addr.solicited_node()
            && (*hardware == group_hardware(dst_addr) || is_to_us))
}

// The Ethernet and the IPv6 address that get the advertisement, and whether it is solicited.
#[inline(always)]
fn answered_to(
    ours: &Interface,
    link: &EthernetRepr,
    header: &Ipv6Repr,
    named: Option<EthernetAddress>,
) -> Option<(EthernetAddress, Ipv6Address, bool)>
    ensures some { IfSome result (λ to. IsAnsweredTo ours.now link.now header.now named to.0 to.1 to.2) }
    ensures none { result ≡ None → (hardware : EthernetAddress) (dst : List ℕ) (solicited : Bool) → ¬ IsAnsweredTo ours.now link.now header.now named hardware dst solicited }
{
    if header.src_addr.is_unspecified() {
        let all_nodes = IPV6_LINK_LOCAL_ALL_NODES;
        return Some((group_hardware(&all_nodes), all_nodes, false));
    }
    if ours.is_invalid_source(&IpAddress::Ipv6(header.src_addr)) {
        return None;
    }
    let hardware = hardware_of(named, link.src_addr);
    if !hardware.is_unicast() {
        return None;
    }
    Some((hardware, header.src_addr, true))
}

// The Ethernet address of a sender: the one that it names, if any.
#[inline(always)]
fn hardware_of(named: Option<EthernetAddress>, hardware: EthernetAddress) -> EthernetAddress
    ensures { result ≡ hardware_of named hardware }
{
    match named {
        Some(named) => named,
        None => hardware,
    }
}

// The hardware address of a multicast group (RFC 2464, section 7).
#[inline(always)]
pub(crate) fn group_hardware(group: &Ipv6Address) -> EthernetAddress
    ensures { result.0 ≡ group_hardware group.now }
{
    let mut octets = [0x33; 6];
    octets[2..].copy_from_slice(&group.octets()[12..]);
    EthernetAddress(octets)
}

// The frame with the advertisement.
#[inline(always)]
fn advert<'a>(
    ours: &Interface,
    hardware: EthernetAddress,
    dst_addr: Ipv6Address,
    solicited: bool,
) -> MessageFrame<'a>
    ensures { result ≡ message_frame ours.now.hardware_addr hardware (Ipv6 (advert_header ours.now dst_addr)) (Ndisc (advert_of ours.now solicited)) }
{
    let header = IpRepr::Ipv6(Ipv6Repr {
        src_addr: ours.ipv6_addr,
        dst_addr,
        next_header: IpProtocol::Icmpv6,
        payload_len: 0,
        hop_limit: NDISC_HOP_LIMIT,
    });
    let flags = NdiscNeighborFlags {
        router: ours.is_router,
        solicited,
        override_: true,
    };
    let value = NdiscRepr::NeighborAdvert {
        flags,
        target_addr: ours.ipv6_addr,
        lladdr: Some(ours.hardware_addr),
    };
    MessageFrame::ndisc(ours.hardware_addr, hardware, header, value)
}
