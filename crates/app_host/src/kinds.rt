//! The answers of a host by what a frame carries. The headers are parsed one by one, and each kind has a function of its
//! own: a value `Frame` in memory has room for every kind, and to fill and copy it takes longer than the reply.

ghost use Rattle.std.specs.Prelude.{◌≡◌, List, drop, ℕ};
ghost use Rattle.app_host.specs.Kinds.{TriesReply};
ghost use Rattle.app_host.specs.Skipped.{without_extensions};
ghost use Rattle.ip_wire.specs.Ethernet as ethernet;
ghost use Rattle.ip_wire.specs.Frame.{ReadsPacket, all_checked, packet_payload, type_of};
ghost use Rattle.ip_wire.specs.FrameValue.{Finds};
ghost use Rattle.ip_wire.specs.Reply.{IsSendable, IsSent};
ghost use Rattle.ip_wire.specs.declared.Carried.TheVariants as carried;
ghost use Rattle.ip_wire.specs.declared.EthernetProtocol.TheVariants as ethertype;
ghost use Rattle.ip_wire.specs.declared.Transport.TheVariants as transport;

use crate::host::{Host, dscp_in};
use crate::skipped::without_extensions;
use crate::tcp_reply::reply_to;
use crate::{arp, icmp_echo, icmp_error, neighbour, parameter_problem, tcp_answer, udp_echo};
use ip_wire::{
    ArpPacket, ArpRepr, Carried, ChecksumCapabilities, EthernetFrame, EthernetProtocol,
    EthernetRepr, Frame, IpProtocol, IpRepr, Ipv4Packet, Ipv4Repr, Ipv6Packet, Ipv6Repr, TcpPacket,
    TcpRepr, Transport, UdpPacket, UdpRepr, laws,
};
use wire_icmp::{IcmpRepr, Unreachable};

/// Writes the reply of the host to a frame. `Some(None)` if it does not fit, `None` if there is no reply.
#[inline(always)]
pub(crate) fn answer(host: &Host<'_>, frame: &[u8], out: &mut [u8]) -> Option<Option<usize>>
    ensures { TriesReply host.now frame.now out.old out.new result }
{
    let view = EthernetFrame::new_unchecked(frame);
    let Ok(link) = EthernetRepr::parse(&view) else {
        return None;
    };
    let bytes = view.payload();
    match link.ethertype {
        EthernetProtocol::Arp => match ArpRepr::parse(&ArpPacket::new_unchecked(bytes)) {
            Ok(message) => answer_arp(host, link, message, out),
            Err(_) => None,
        },
        EthernetProtocol::Ipv4 => answer_ipv4(host, link, bytes, frame, out),
        EthernetProtocol::Ipv6 => answer_ipv6(host, link, bytes, frame, out),
        EthernetProtocol::Unknown(_) => None,
    }
}

// The reply to an ARP request.
#[inline(always)]
fn answer_arp(
    host: &Host<'_>,
    link: EthernetRepr,
    message: ArpRepr,
    out: &mut [u8],
) -> Option<Option<usize>>
    ensures { (bytes : List ℕ) → Finds all_checked (without_extensions bytes) (record { header = link; carried = carried.Arp message }) → TriesReply host.now bytes out.old out.new result }
{
    let request = Frame {
        header: link,
        carried: Carried::Arp(message),
    };
    match arp::reply(&request, &host.interface) {
        Some(reply) => Some(send_inlined(&reply, out)),
        None => None,
    }
}

// The reply to a frame with an IPv4 packet.
#[inline(always)]
fn answer_ipv4(
    host: &Host<'_>,
    link: EthernetRepr,
    bytes: &[u8],
    frame: &[u8],
    out: &mut [u8],
) -> Option<Option<usize>>
    requires link { ethernet.Reads frame.now link }
    requires ethertype { link.ethertype ≡ ethertype.Ipv4 }
    requires bytes { bytes.now ≡ drop 14 frame.now }
    ensures { TriesReply host.now frame.now out.old out.new result }
{
    let packet = Ipv4Packet::new_unchecked(bytes);
    match Ipv4Repr::parse(&packet, &ChecksumCapabilities::default()) {
        Ok(_) if packet.is_fragment() => None,
        Ok(value) => answer_packet(
            host,
            link,
            IpRepr::Ipv4(value),
            packet.payload(),
            frame,
            out,
        ),
        Err(_) => None,
    }
}

// The reply to a frame with an IPv6 packet.
#[inline(always)]
fn answer_ipv6(
    host: &Host<'_>,
    link: EthernetRepr,
    bytes: &[u8],
    frame: &[u8],
    out: &mut [u8],
) -> Option<Option<usize>>
    requires link { ethernet.Reads frame.now link }
    requires ethertype { link.ethertype ≡ ethertype.Ipv6 }
    requires bytes { bytes.now ≡ drop 14 frame.now }
    ensures { TriesReply host.now frame.now out.old out.new result }
{
    let packet = Ipv6Packet::new_unchecked(bytes);
    match Ipv6Repr::parse(&packet) {
        Ok(value) => {
            let (value, payload) = without_extensions(value, packet.payload());
            answer_packet(host, link, IpRepr::Ipv6(value), payload, frame, out)
        }
        Err(_) => None,
    }
}

// The reply to a packet with this header and payload, which have no extension headers that a host skips.
#[inline(always)]
fn answer_packet(
    host: &Host<'_>,
    link: EthernetRepr,
    header: IpRepr,
    payload: &[u8],
    frame: &[u8],
    out: &mut [u8],
) -> Option<Option<usize>>
    requires link { ethernet.Reads (without_extensions frame.now) link }
    requires ethertype { link.ethertype ≡ type_of header }
    requires header { ReadsPacket all_checked (drop 14 (without_extensions frame.now)) header }
    requires payload { payload.now ≡ packet_payload header (drop 14 (without_extensions frame.now)) }
    ensures { TriesReply host.now frame.now out.old out.new result }
{
    let (src_addr, dst_addr) = (header.src_addr(), header.dst_addr());
    let caps = ChecksumCapabilities::default();
    match header.next_header() {
        IpProtocol::Udp => {
            let packet = UdpPacket::new_unchecked(payload);
            match UdpRepr::parse(&packet, &src_addr, &dst_addr, &caps) {
                Ok(ports) => answer_udp(host, link, header, ports, packet.payload(), frame, out),
                Err(_) => None,
            }
        }
        IpProtocol::Tcp => {
            let packet = TcpPacket::new_unchecked(payload);
            match TcpRepr::parse(&packet, &src_addr, &dst_addr, &caps) {
                Ok(segment) => answer_tcp(host, link, header, segment, frame, out),
                Err(_) => None,
            }
        }
        _ => answer_other(host, link, header, payload, frame, out),
    }
}

// The reply to a UDP packet for the echo port, or the error about one for a closed port. Each version has code of its own:
// a header that may be of either takes longer.
#[inline(never)]
fn answer_udp(
    host: &Host<'_>,
    link: EthernetRepr,
    header: IpRepr,
    ports: UdpRepr,
    payload: &[u8],
    frame: &[u8],
    out: &mut [u8],
) -> Option<Option<usize>>
    requires { Finds all_checked (without_extensions frame.now) (record { header = link; carried = carried.Packet header (transport.Udp ports payload) }) }
    ensures { TriesReply host.now frame.now out.old out.new result }
{
    match header {
        IpRepr::Ipv4(value) => {
            let header = IpRepr::Ipv4(value);
            answer_udp_in::<false>(host, link, header, ports, payload, frame, out)
        }
        IpRepr::Ipv6(value) => {
            let header = IpRepr::Ipv6(value);
            answer_udp_in::<true>(host, link, header, ports, payload, frame, out)
        }
    }
}

// The same, in a packet of one version.
#[inline(always)]
fn answer_udp_in<const V6: bool>(
    host: &Host<'_>,
    link: EthernetRepr,
    header: IpRepr,
    ports: UdpRepr,
    payload: &[u8],
    frame: &[u8],
    out: &mut [u8],
) -> Option<Option<usize>>
    requires { Finds all_checked (without_extensions frame.now) (record { header = link; carried = carried.Packet header (transport.Udp ports payload) }) }
    ensures { TriesReply host.now frame.now out.old out.new result }
{
    let is_for_us = host.interface.accepts(&link, &header);
    if !is_for_us {
        return None;
    }
    if udp_echo::is_asked(&ports, host.echo_port) {
        let echo = udp_echo::echo_of(&host.interface, &link, &header, &ports, payload);
        return Some(send_inlined(&echo, out));
    }
    if host.serves(ports.dst_port) {
        return None;
    }
    let message = IcmpRepr::DstUnreachable {
        reason: Unreachable::Port,
    };
    icmp_error::try_error(frame, &host.interface, message, out)
}

// The reply to a TCP segment.
#[inline(never)]
fn answer_tcp(
    host: &Host<'_>,
    link: EthernetRepr,
    header: IpRepr,
    segment: TcpRepr<'_>,
    frame: &[u8],
    out: &mut [u8],
) -> Option<Option<usize>>
    requires { Finds all_checked (without_extensions frame.now) (record { header = link; carried = carried.Packet header (transport.Tcp segment) }) }
    ensures { TriesReply host.now frame.now out.old out.new result }
{
    match header {
        IpRepr::Ipv4(value) => {
            let header = IpRepr::Ipv4(value);
            answer_tcp_in::<false>(host, link, header, segment, frame, out)
        }
        IpRepr::Ipv6(value) => {
            let header = IpRepr::Ipv6(value);
            answer_tcp_in::<true>(host, link, header, segment, frame, out)
        }
    }
}

// The same, in a packet of one version.
#[inline(always)]
fn answer_tcp_in<const V6: bool>(
    host: &Host<'_>,
    link: EthernetRepr,
    header: IpRepr,
    segment: TcpRepr<'_>,
    frame: &[u8],
    out: &mut [u8],
) -> Option<Option<usize>>
    requires { Finds all_checked (without_extensions frame.now) (record { header = link; carried = carried.Packet header (transport.Tcp segment) }) }
    ensures { TriesReply host.now frame.now out.old out.new result }
{
    if !host.interface.accepts(&link, &header) {
        return None;
    }
    match reply_to(&segment, host.open_ports, &host.offer) {
        Some(reply) => {
            let reply = tcp_answer::frame_of(&host.interface, &link, &header, &reply);
            Some(send_inlined(&reply, out))
        }
        None => None,
    }
}

// The reply to an echo request, to a neighbour solicitation, or to a packet with a faulty extension header.
#[inline(never)]
fn answer_other(
    host: &Host<'_>,
    link: EthernetRepr,
    header: IpRepr,
    payload: &[u8],
    frame: &[u8],
    out: &mut [u8],
) -> Option<Option<usize>>
    requires { Finds all_checked (without_extensions frame.now) (record { header = link; carried = carried.Packet header (transport.Other payload) }) }
    ensures { TriesReply host.now frame.now out.old out.new result }
{
    let request = Frame {
        header: link,
        carried: Carried::Packet(header, Transport::Other(payload)),
    };
    if let Some(reply) = icmp_echo::reply(&request, dscp_in(&request, frame), &host.interface) {
        return Some(reply.send(out));
    }
    if let Some(advert) = neighbour::reply(&request, &host.interface) {
        return Some(advert.send(out));
    }
    match parameter_problem::reply(&request, frame, &host.interface) {
        Some(error) => Some(error.send(out)),
        None => None,
    }
}

// As `send`. Inlined, it writes only what the frame of this kind carries.
#[inline(always)]
fn send_inlined(frame: &Frame<'_>, out: &mut [u8]) -> Option<usize>
    requires { IsSendable frame.now }
    ensures { IsSent frame.now out.old out.new result }
{
    let caps = ChecksumCapabilities::default();
    let len = frame.try_emit(out, &caps)?;
    laws::frame_reads_back(frame, &out[len..], caps, caps);
    Some(len)
}
