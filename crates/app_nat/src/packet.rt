//! The packet in a frame over IPv4, as a NAT needs it.

ghost use Rattle.std.specs.Prelude.{◌≡◌, ◌↔◌, ◌≤◌, IfErr, IfOk, IsTrue, OnOk, Some, length};
ghost use Rattle.app_nat.specs.Nat as nat;
ghost use Rattle.app_nat.specs.Nat.{AllowsPort, CarriesWhole, Describes, IsPacket, IsRejected, ReadsPorts, echo_kind, transport_fault, whole_fault, whole_fault_by};
ghost use Rattle.app_nat.specs.Flows.{IsAnswerable, IsUnanswerable, destination_of, event_of, source_of};
ghost use Rattle.ip_wire.specs.Field.{field};
ghost use Rattle.ip_wire.specs.Frame.{ReadsPacket, all_checked, ipv4_payload};
ghost use Rattle.ip_wire.specs.Protocol.{protocol_of};
ghost use Rattle.ip_wire.specs.Types.{Ipv4};

use crate::translation::Rejection;
use crate::{Event, Ipv4Endpoint};
use app_edit::Side;
use ip_wire::laws::field::bytes_fit;
use ip_wire::{
    ChecksumCapabilities, ETHERNET_HEADER_LEN, EthernetFrame, EthernetProtocol, EthernetRepr,
    IpAddress, IpProtocol, Ipv4Packet, Ipv4Repr, TcpControl, TcpPacket, TcpRepr, UdpPacket,
    UdpRepr, parse_ipv4,
};
use wire_icmp::IcmpPacket;

// Where an IPv4 header has the number of the protocol.
const PROTOCOL: usize = 9;

/// What a packet carries, with the control flag of a TCP segment.
#[derive(Debug, Clone, Copy, PartialEq, Eq)]
pub enum Kind {
    Udp,
    Tcp(TcpControl),
    EchoRequest,
    EchoReply,
}

/// A UDP packet, a TCP segment or an ICMP echo message over IPv4. The identifier of an echo message is
/// both its source and its destination port.
#[derive(Debug, Clone, Copy, PartialEq, Eq)]
pub struct Packet {
    /// The IPv4 header, with the protocol and both addresses.
    pub header: Ipv4Repr,
    pub src_port: u16,
    pub dst_port: u16,
    pub kind: Kind,
}

impl Packet {
    /// Parses the packet in a frame, and verifies its checksums. Rejects a frame for the first reason of
    /// `Rejection` that applies, up to `BadTransport`.
    #[inline(always)]
    pub fn parse(frame: &[u8]) -> Result<Packet, Rejection>
        ensures packet { IfOk result (IsPacket frame.now) }
        ensures rejected { IfErr result (IsRejected frame.now) }
    {
        match parse_whole(frame) {
            Ok((header, payload)) => {
                let number = protocol_number(&frame[ETHERNET_HEADER_LEN..]);
                parse_transport(&header, number, payload)
            }
            Err(reason) => Err(reason),
        }
    }

    /// The endpoint that sent it.
    pub fn src(&self) -> Ipv4Endpoint
        ensures { result ≡ source_of self.now }
    {
        Ipv4Endpoint {
            addr: self.header.src_addr,
            port: self.src_port,
        }
    }

    /// The endpoint that it is for.
    pub fn dst(&self) -> Ipv4Endpoint
        ensures { result ≡ destination_of self.now }
    {
        Ipv4Endpoint {
            addr: self.header.dst_addr,
            port: self.dst_port,
        }
    }

    /// What a table of mappings looks at: the protocol, and the control flag of a TCP segment.
    pub fn event(&self) -> Event
        ensures { result ≡ event_of self.now }
    {
        match self.kind {
            Kind::Udp => Event::Udp,
            Kind::Tcp(control) => Event::Tcp(control),
            Kind::EchoRequest | Kind::EchoReply => Event::Icmp,
        }
    }

    // Returns `true` for an ICMP echo request.
    pub(super) fn is_echo_request(&self) -> bool
        ensures { IsTrue result ↔ (self.now.kind ≡ Kind.EchoRequest) }
    {
        matches!(self.kind, Kind::EchoRequest)
    }

    // Rejects a packet to which no answer can come: an echo reply, and a UDP or TCP packet from port 0.
    pub(super) fn check_source(&self) -> Result<(), Rejection>
        ensures answerable { OnOk result (IsAnswerable self.now) }
        ensures rejected { IfErr result (IsUnanswerable self.now) }
    {
        if matches!(self.kind, Kind::EchoReply) {
            return Err(Rejection::NoMapping);
        }
        if self.src_port == 0 && !self.is_echo_request() {
            return Err(Rejection::ZeroPort);
        }
        Ok(())
    }

    // Returns `true` if a receiver accepts the packet with this port on this side. A UDP packet may have
    // the source port 0 (RFC 768), and an echo message the identifier 0.
    pub(super) fn allows_port(&self, side: Side, port: u16) -> bool
        ensures { (transport : nat.Transport) → Describes self.now transport → IsTrue result ↔ AllowsPort side transport port }
    {
        port != 0
            || match self.kind {
                Kind::Udp => side == Side::Source,
                Kind::Tcp(_) => false,
                Kind::EchoRequest | Kind::EchoReply => true,
            }
    }
}

// The header and the payload of the IPv4 packet in a frame, if it is no fragment.
#[inline(always)]
pub(crate) fn parse_whole(frame: &[u8]) -> Result<(Ipv4Repr, &[u8]), Rejection>
    ensures whole { IfOk result (λ parts. CarriesWhole frame.now parts.0 parts.1.now) }
    ensures rejected { IfErr result (λ reason. whole_fault frame.now ≡ Some reason) }
{
    let Ok(link) = EthernetRepr::parse(&EthernetFrame::new_unchecked(frame)) else {
        return Err(Rejection::NotIpv4);
    };
    match link.ethertype {
        EthernetProtocol::Ipv4 => parse_unfragmented(&frame[ETHERNET_HEADER_LEN..]),
        _ => Err(Rejection::NotIpv4),
    }
}

// The header and the payload of an IPv4 packet, if it is no fragment.
#[inline(always)]
fn parse_unfragmented(bytes: &[u8]) -> Result<(Ipv4Repr, &[u8]), Rejection>
    ensures whole { IfOk result (λ parts. ReadsPacket all_checked bytes.now (Ipv4 parts.0) × (parts.1.now ≡ ipv4_payload bytes.now)) }
    ensures rejected { IfErr result (λ reason. whole_fault_by EthernetProtocol.Ipv4 bytes.now ≡ Some reason) }
{
    match parse_ipv4(bytes) {
        Ok(header) => {
            let packet = Ipv4Packet::new_unchecked(bytes);
            if packet.is_fragment() {
                return Err(Rejection::Fragment);
            }
            Ok((header, packet.payload()))
        }
        Err(fault) => Err(Rejection::of_header(fault)),
    }
}

// The number of the protocol in an IPv4 header. It is compared as it is: `next_header` of a parsed header was looked up
// in a table.
#[inline(always)]
pub(crate) fn protocol_number(packet: &[u8]) -> u8
    requires { 20 ≤ length packet.now }
    ensures { result ≡ field packet.now 72 8 }
{
    packet[PROTOCOL]
}

// The packet with this IPv4 header, protocol number and payload.
#[inline(always)]
fn parse_transport(header: &Ipv4Repr, number: u8, payload: &[u8]) -> Result<Packet, Rejection>
    requires { header.now.next_header ≡ protocol_of number }
    ensures header { IfOk result (λ p. p.header ≡ header.now) }
    ensures packet { IfOk result (λ p. (transport : nat.Transport) × ReadsPorts header.now payload.now transport × Describes p transport) }
    ensures rejected { IfErr result (λ reason. transport_fault header.now payload.now ≡ Some reason) }
{
    match IpProtocol::from(number) {
        IpProtocol::Udp => parse_udp(header, payload),
        IpProtocol::Tcp => parse_tcp(header, payload),
        IpProtocol::Icmp => parse_echo(header, payload),
        _ => Err(Rejection::OtherProtocol),
    }
}

// The UDP packet.
#[inline(always)]
fn parse_udp(header: &Ipv4Repr, payload: &[u8]) -> Result<Packet, Rejection>
    requires { header.now.next_header ≡ IpProtocol.Udp }
    ensures header { IfOk result (λ p. p.header ≡ header.now) }
    ensures packet { IfOk result (λ p. (transport : nat.Transport) × ReadsPorts header.now payload.now transport × Describes p transport) }
    ensures rejected { IfErr result (λ reason. transport_fault header.now payload.now ≡ Some reason) }
{
    let src = IpAddress::Ipv4(header.src_addr);
    let dst = IpAddress::Ipv4(header.dst_addr);
    let packet = UdpPacket::new_unchecked(payload);
    match UdpRepr::parse(&packet, &src, &dst, &ChecksumCapabilities::default()) {
        Ok(ports) => Ok(Packet {
            header: *header,
            src_port: ports.src_port,
            dst_port: ports.dst_port,
            kind: Kind::Udp,
        }),
        Err(_) => Err(Rejection::BadTransport),
    }
}

// The TCP segment.
#[inline(always)]
fn parse_tcp(header: &Ipv4Repr, payload: &[u8]) -> Result<Packet, Rejection>
    requires { header.now.next_header ≡ IpProtocol.Tcp }
    ensures header { IfOk result (λ p. p.header ≡ header.now) }
    ensures packet { IfOk result (λ p. (transport : nat.Transport) × ReadsPorts header.now payload.now transport × Describes p transport) }
    ensures rejected { IfErr result (λ reason. transport_fault header.now payload.now ≡ Some reason) }
{
    let src = IpAddress::Ipv4(header.src_addr);
    let dst = IpAddress::Ipv4(header.dst_addr);
    let packet = TcpPacket::new_unchecked(payload);
    match TcpRepr::parse(&packet, &src, &dst, &ChecksumCapabilities::default()) {
        Ok(segment) => Ok(Packet {
            header: *header,
            src_port: segment.src_port,
            dst_port: segment.dst_port,
            kind: Kind::Tcp(segment.control),
        }),
        Err(_) => Err(Rejection::BadTransport),
    }
}

// The echo message.
#[inline(always)]
fn parse_echo(header: &Ipv4Repr, payload: &[u8]) -> Result<Packet, Rejection>
    requires { header.now.next_header ≡ IpProtocol.Icmp }
    ensures header { IfOk result (λ p. p.header ≡ header.now) }
    ensures packet { IfOk result (λ p. (transport : nat.Transport) × ReadsPorts header.now payload.now transport × Describes p transport) }
    ensures rejected { IfErr result (λ reason. transport_fault header.now payload.now ≡ Some reason) }
{
    bytes_fit(payload);
    let kind = echo_kind(payload).ok_or(Rejection::OtherProtocol)?;
    let src = IpAddress::Ipv4(header.src_addr);
    let dst = IpAddress::Ipv4(header.dst_addr);
    let message = IcmpPacket::new_unchecked(payload);
    if message.check_len().is_err() || !message.verify_checksum(&src, &dst) {
        return Err(Rejection::BadTransport);
    }
    let ident = message.echo_ident();
    Ok(Packet {
        header: *header,
        src_port: ident,
        dst_port: ident,
        kind,
    })
}

// The kind of a message with the type and the code of an echo. What is missing in less than 2 bytes counts as 0.
fn echo_kind(message: &[u8]) -> Option<Kind>
    ensures { result ≡ echo_kind (field message.now 0 8) (field message.now 8 8) }
{
    match message {
        [8] | [8, 0, ..] => Some(Kind::EchoRequest),
        [] | [0] | [0, 0, ..] => Some(Kind::EchoReply),
        _ => None,
    }
}
