//! ICMP errors over IPv4, and the packet that they quote (RFC 5508, section 4; RFC 3022, section 4.3).

ghost use Rattle.std.specs.Prelude.{◌≡◌, ◌↔◌, ◌+◌, ◌≤◌, IfErr, IfOk, OnErr, OnOk, Some, drop, length};
ghost use Rattle.app_edit.specs.Sides.{opposite};
ghost use Rattle.app_nat.specs.Errors.{CarriesError, quoting, ErrorComesIn, ErrorGoesOut, IsErrorKeptInside, IsErrorKeptOutside, IsErrorTranslated, IsRejectedError, Quotes, Reports, end_bit, error_packet, error_with, flow_by, is_error, message_fault, quoted_fault, quoted_of, quoted_with, with_quoted_end};
ghost use Rattle.app_nat.specs.Nat.{addr_at, with_addr};
ghost use Rattle.app_nat.specs.declared.errors.Quoted.{Quoted};
ghost use Rattle.ip_wire.specs.Field.{field};
ghost use Rattle.ip_wire.specs.Frame.{ReadsPacket, all_checked, ipv4_payload};
ghost use Rattle.ip_wire.specs.Types.{Ipv4, Ipv4Repr};
ghost use Rattle.ip_wire.specs.Ipv4.{HasChecksum, header_len, total_len};

use crate::packet::parse_whole;
use crate::translation::{Rejection, replace_port, rewrite_tcp, rewrite_udp, set_addr};
use crate::{Ipv4Endpoint, Mapping, Nat, Protocol, inside_of, port_of};
use app_edit::{Layout, Side};
use ip_wire::laws::field::bytes_fit;
use ip_wire::{
    ETHERNET_HEADER_LEN, IPV4_HEADER_LEN, IpAddress, IpProtocol, IpVersion, Ipv4Address,
    Ipv4Packet, Ipv4Repr, UdpPacket,
};
use wire_icmp::{ICMP_HEADER_LEN, IcmpPacket, IcmpPacketMut};

// How much of a TCP segment has to be quoted for its checksum to be there.
const TCP_CHECKSUM_END: usize = 18;

// The packet that an ICMP error quotes.
#[derive(Clone, Copy)]
pub(crate) struct Quoted {
    pub(crate) protocol: Protocol,
    // The end that the NAT translates. The identifier of an echo message is its port.
    pub(crate) end: Ipv4Endpoint,
}

// An ICMP error over IPv4.
#[derive(Clone, Copy)]
struct IcmpError {
    header: Ipv4Repr,
    quoted: Quoted,
}

// Lets an ICMP error come in: if it is for the outside address, and quotes a packet from an outside port with a live
// mapping, the inside endpoint replaces the source of the quoted packet, and the destination of the error.
// Not inlined, so that its values take no registers while other packets are translated.
#[inline(never)]
pub(crate) fn error_in(
    nat: &Nat,
    mappings: &[Mapping],
    now: u64,
    frame: &mut [u8],
) -> Result<(), Rejection>
    ensures came { OnOk result (ErrorComesIn nat.now mappings.now now frame.old frame.new) }
    ensures rejected { IfErr result (IsErrorKeptOutside nat.now mappings.now now frame.old) }
    ensures unchanged { OnErr result (frame.new ≡ frame.old) }
{
    let error = IcmpError::parse(frame, Side::Source)?;
    let quoted = error.quoted;
    let end = quoted.end;
    if error.header.dst_addr.octets() != nat.outside || end.addr.octets() != nat.outside {
        return Err(Rejection::NoMapping);
    }
    let Some(inside) = inside_of(nat, mappings, now, quoted.protocol, end.port) else {
        return Err(Rejection::NoMapping);
    };
    error.rewrite(frame, Side::Source, inside.addr, inside.port);
    Ok(())
}

// Lets an ICMP error go out: if it quotes a packet to an inside endpoint with a live mapping, the outside address and
// port replace the destination of the quoted packet, and the outside address the source of the error.
// Not inlined, as `error_in`.
#[inline(never)]
pub(crate) fn error_out(
    nat: &Nat,
    mappings: &[Mapping],
    now: u64,
    frame: &mut [u8],
) -> Result<(), Rejection>
    ensures out { OnOk result (ErrorGoesOut nat.now mappings.now now frame.old frame.new) }
    ensures rejected { IfErr result (IsErrorKeptInside nat.now mappings.now now frame.old) }
    ensures unchanged { OnErr result (frame.new ≡ frame.old) }
{
    let error = IcmpError::parse(frame, Side::Destination)?;
    let quoted = error.quoted;
    let Some(port) = port_of(nat, mappings, now, quoted.protocol, &quoted.end) else {
        return Err(Rejection::NoMapping);
    };
    let outside = Ipv4Address::from_octets(nat.outside);
    error.rewrite(frame, Side::Destination, outside, port);
    Ok(())
}

impl IcmpError {
    // The error in a frame. `side`: which end of the quoted packet the NAT translates.
    #[inline(always)]
    fn parse(frame: &[u8], side: Side) -> Result<IcmpError, Rejection>
        ensures error { IfOk result (λ e. CarriesError side frame.now e.header e.quoted) }
        ensures rejected { IfErr result (IsRejectedError side frame.now) }
    {
        match parse_whole(frame) {
            Ok((header, payload)) => match parse_message(&header, payload, side) {
                Ok(quoted) => Ok(IcmpError { header, quoted }),
                Err(reason) => Err(reason),
            },
            Err(reason) => Err(reason),
        }
    }

    // Writes an address and a port into the quoted packet, and the address on the opposite side of the frame's own
    // packet.
    fn rewrite(&self, frame: &mut [u8], side: Side, addr: Ipv4Address, port: u16)
        requires { CarriesError side frame.old self.now.header self.now.quoted }
        ensures { IsErrorTranslated frame.old frame.new side self.now.header self.now.quoted addr port }
    {
        bytes_fit(frame);
        let (_, packet) = frame.split_at_mut(ETHERNET_HEADER_LEN);
        rewrite_packet(self.quoted.protocol, packet, side, addr, port);
    }
}

// The packet that is quoted by an ICMP error after this header.
fn parse_message(header: &Ipv4Repr, bytes: &[u8], side: Side) -> Result<Quoted, Rejection>
    ensures icmp { OnOk result (header.now.next_header ≡ IpProtocol.Icmp) }
    ensures reports { IfOk result (Reports side bytes.now) }
    ensures rejected { IfErr result (λ reason. message_fault side header.now bytes.now ≡ Some reason) }
{
    let IpProtocol::Icmp = header.next_header else {
        return Err(Rejection::OtherProtocol);
    };
    if !is_error(bytes) {
        return Err(Rejection::OtherProtocol);
    }
    let Ok(packet) = IcmpPacket::new_checked(bytes) else {
        return Err(Rejection::BadTransport);
    };
    let src = IpAddress::Ipv4(header.src_addr);
    if !packet.verify_checksum(&src, &IpAddress::Ipv4(header.dst_addr)) {
        return Err(Rejection::BadTransport);
    }
    parse_quoted(packet.payload(), side)
}

// Whether a message has the type of an error: destination unreachable, time exceeded or parameter problem.
fn is_error(message: &[u8]) -> bool
    ensures { result ≡ is_error (field message.now 0 8) }
{
    matches!(message, [3 | 11 | 12, ..])
}

// The quoted packet, if its header is whole, and 8 bytes follow it. Its checksum is not verified: some routers lower
// the hop limit and quote the old checksum.
fn parse_quoted(bytes: &[u8], side: Side) -> Result<Quoted, Rejection>
    ensures quotes { IfOk result (Quotes side bytes.now) }
    ensures rejected { IfErr result (λ reason. quoted_fault side bytes.now ≡ Some reason) }
{
    if bytes.len() < IPV4_HEADER_LEN {
        return Err(Rejection::BadTransport);
    }
    let packet = Ipv4Packet::new_unchecked(bytes);
    let len = usize::from(packet.header_len());
    if packet.version() != 4 || len < IPV4_HEADER_LEN || bytes.len() < len + 8 {
        return Err(Rejection::BadTransport);
    }
    if packet.frag_offset() != 0 {
        return Err(Rejection::NoMapping);
    }
    let after_header = &bytes[len..];
    let protocol = protocol_by(side, packet.next_header(), after_header[0]);
    let protocol = protocol.ok_or(Rejection::NoMapping)?;
    Ok(Quoted {
        protocol,
        end: Ipv4Endpoint {
            addr: addr_in(bytes, side),
            port: port_in(after_header, protocol, side),
        },
    })
}

// The address of an IPv4 header on this side.
fn addr_in(bytes: &[u8], side: Side) -> Ipv4Address
    requires { 20 ≤ length bytes.now }
    ensures { result ≡ addr_at side bytes.now }
{
    let packet = Ipv4Packet::new_unchecked(bytes);
    match side {
        Side::Source => packet.src_addr(),
        Side::Destination => packet.dst_addr(),
    }
}

// The protocol of a quoted packet. The identifier of an echo message is a port of the host that sends requests.
fn protocol_by(side: Side, protocol: IpProtocol, msg_type: u8) -> Option<Protocol>
    ensures { result ≡ flow_by side protocol msg_type }
{
    let echo = match side {
        Side::Source => 8,
        Side::Destination => 0,
    };
    match protocol {
        IpProtocol::Udp => Some(Protocol::Udp),
        IpProtocol::Tcp => Some(Protocol::Tcp),
        IpProtocol::Icmp if msg_type == echo => Some(Protocol::Icmp),
        _ => None,
    }
}

// The port or identifier after the header of a quoted packet.
fn port_in(after_header: &[u8], protocol: Protocol, side: Side) -> u16
    requires { 8 ≤ length after_header.now }
    ensures { result ≡ field after_header.now (end_bit protocol side) 16 }
{
    match protocol {
        Protocol::Icmp => IcmpPacket::new_unchecked(after_header).echo_ident(),
        // UDP and TCP begin with the same two ports.
        Protocol::Udp | Protocol::Tcp => match side {
            Side::Source => UdpPacket::new_unchecked(after_header).src_port(),
            Side::Destination => UdpPacket::new_unchecked(after_header).dst_port(),
        },
    }
}

// Writes the address and the port into a packet with an error.
fn rewrite_packet(protocol: Protocol, bytes: &mut [u8], side: Side, addr: Ipv4Address, port: u16)
    requires least { 20 ≤ header_len bytes.old }
    requires within { header_len bytes.old ≤ total_len bytes.old }
    requires whole { total_len bytes.old ≤ length bytes.old }
    requires quoted { 20 ≤ header_len (quoted_of bytes.old) }
    requires room { header_len (quoted_of bytes.old) + 8 ≤ length (quoted_of bytes.old) }
    ensures bytes { bytes.new ≡ error_packet protocol side addr port bytes.old }
    ensures carries { (v : Ipv4Repr) (q : Quoted) → q.protocol ≡ protocol → ReadsPacket all_checked bytes.old (Ipv4 v) → Reports side (ipv4_payload bytes.old) q
        → ReadsPacket all_checked bytes.new (Ipv4 (with_addr (opposite side) addr v)) × Reports side (ipv4_payload bytes.new) (quoting q addr port)
        × (HasChecksum (quoted_of bytes.old) ↔ HasChecksum (quoted_of bytes.new)) }
{
    let layout = Layout::of(IpVersion::Ipv4, bytes);
    let message = &mut bytes[layout.start..layout.end];
    rewrite_message(protocol, message, side, addr, port);
    set_addr(bytes, side.opposite(), addr);
}

// Writes the address and the port into the packet that an error quotes, and computes the checksum of the error anew.
fn rewrite_message(protocol: Protocol, bytes: &mut [u8], side: Side, addr: Ipv4Address, port: u16)
    requires least { 20 ≤ header_len (drop 8 bytes.old) }
    requires room { header_len (drop 8 bytes.old) + 8 ≤ length (drop 8 bytes.old) }
    ensures bytes { bytes.new ≡ error_with protocol side addr port bytes.old }
    ensures reports { (q : Quoted) → q.protocol ≡ protocol → Reports side bytes.old q → Reports side bytes.new (quoting q addr port) }
    ensures summed { HasChecksum (drop 8 bytes.old) ↔ HasChecksum (drop 8 bytes.new) }
{
    let (_, quoted) = bytes.split_at_mut(ICMP_HEADER_LEN);
    rewrite_quoted(protocol, quoted, side, addr, port);
    let any = IpAddress::Ipv4(addr);
    IcmpPacketMut::new_unchecked(bytes).fill_checksum(&any, &any);
}

// Writes the address and the port into a quoted packet.
fn rewrite_quoted(protocol: Protocol, bytes: &mut [u8], side: Side, addr: Ipv4Address, port: u16)
    requires least { 20 ≤ header_len bytes.old }
    requires room { header_len bytes.old + 8 ≤ length bytes.old }
    ensures bytes { bytes.new ≡ quoted_with protocol side addr port bytes.old }
    ensures quotes { (q : Quoted) → q.protocol ≡ protocol → Quotes side bytes.old q → Quotes side bytes.new (quoting q addr port) }
    ensures summed { HasChecksum bytes.old ↔ HasChecksum bytes.new }
{
    let old = addr_in(bytes, side);
    let len = usize::from(Ipv4Packet::new_unchecked(bytes).header_len());
    let (_, after_header) = bytes.split_at_mut(len);
    rewrite_end(protocol, after_header, side, old, addr, port);
    set_addr(bytes, side, addr);
}

// Writes the port or identifier after the header of a quoted packet, and updates the checksum there for it and the
// address.
fn rewrite_end(
    protocol: Protocol,
    bytes: &mut [u8],
    side: Side,
    old: Ipv4Address,
    new: Ipv4Address,
    port: u16,
)
    requires { 8 ≤ length bytes.old }
    ensures bytes { bytes.new ≡ with_quoted_end protocol side old new port bytes.old }
    ensures port { field bytes.new (end_bit protocol side) 16 ≡ port }
    ensures echo { protocol ≡ Protocol.Icmp → field bytes.new 0 8 ≡ field bytes.old 0 8 }
{
    bytes_fit(bytes);
    match protocol {
        Protocol::Udp => rewrite_udp(bytes, side, old, new, port),
        Protocol::Tcp if bytes.len() < TCP_CHECKSUM_END => {
            replace_port(bytes, side, port);
        }
        Protocol::Tcp => rewrite_tcp(bytes, side, old, new, port),
        Protocol::Icmp => IcmpPacketMut::new_unchecked(bytes).update_echo_ident(port),
    }
}
