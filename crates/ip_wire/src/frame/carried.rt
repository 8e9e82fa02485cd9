//! The payload of an Ethernet frame, as a value.

ghost use Rattle.std.specs.Prelude.{◌≡◌, ◌<◌, ◌≤◌, ◌+◌, ◌↔◌, ◌^◌, IfOk, Some, is_some, length};
ghost use Rattle.std.specs.Option.{option_map};
ghost use Rattle.ip_wire.specs.Frame as frame;
ghost use Rattle.ip_wire.specs.Frame.{ReadsCarried};
ghost use Rattle.ip_wire.specs.FrameValue.{FindsCarried, FitsCarried, FitsTransport, GivesCarried, ParsesCarried, carried_bytes, carried_len, carried_of, carried_payload, carried_text, packet_bytes, transport_len};
ghost use Rattle.net_base.specs.Filled.{Fills};
ghost use Rattle.wire_ip.specs.Ip as ip;

use super::Transport;
use net_base::{ChecksumCapabilities, Error, Result, try_copy};
use std::fmt;
use wire_arp::{ArpPacket, ArpRepr};
use wire_ethernet::EthernetProtocol;
use wire_ip::IpRepr;
use wire_ipv4::{Ipv4Packet, Ipv4Repr};
use wire_ipv6::{Ipv6Packet, Ipv6Repr};

/// The payload of an Ethernet frame, by the EtherType of its header.
#[derive(Debug, Clone, Copy, PartialEq, Eq)]
pub enum Carried<'a> {
    /// An ARP packet for Ethernet and IPv4.
    Arp(ArpRepr),
    /// An IP packet of either version.
    Packet(IpRepr, Transport<'a>),
    /// A fragment of an IPv4 packet. Its payload is not parsed.
    Fragment(Ipv4Packet<'a>),
    /// The payload of an unknown EtherType, or a payload that does not parse.
    Unread(&'a [u8]),
}

impl<'a> Carried<'a> {
    /// Parses the payload of a frame of this EtherType. From a header that does not parse on, the
    /// bytes are kept as `Unread`. Verifies the checksums that `caps` selects.
    #[inline(always)]
    pub fn read(
        ethertype: EthernetProtocol,
        bytes: &'a [u8],
        caps: &ChecksumCapabilities,
    ) -> Carried<'a>
        ensures { FindsCarried caps.now ethertype bytes.now result }
    {
        match ethertype {
            EthernetProtocol::Ipv4 => {
                let packet = Ipv4Packet::new_unchecked(bytes);
                match Ipv4Repr::parse(&packet, caps) {
                    Ok(_) if packet.is_fragment() => Carried::Fragment(packet),
                    Ok(value) => {
                        let header = IpRepr::Ipv4(value);
                        Carried::Packet(header, Transport::read(&header, packet.payload(), caps))
                    }
                    Err(_) => Carried::Unread(bytes),
                }
            }
            EthernetProtocol::Ipv6 => {
                let packet = Ipv6Packet::new_unchecked(bytes);
                match Ipv6Repr::parse(&packet) {
                    Ok(value) => {
                        let header = IpRepr::Ipv6(value);
                        Carried::Packet(header, Transport::read(&header, packet.payload(), caps))
                    }
                    Err(_) => Carried::Unread(bytes),
                }
            }
            EthernetProtocol::Arp => match ArpRepr::parse(&ArpPacket::new_unchecked(bytes)) {
                Ok(value) => Carried::Arp(value),
                Err(_) => Carried::Unread(bytes),
            },
            EthernetProtocol::Unknown(_) => Carried::Unread(bytes),
        }
    }

    /// As `read`, but an error unless everything was parsed: fragments are an error too.
    #[inline(always)]
    pub fn parse(
        ethertype: EthernetProtocol,
        bytes: &'a [u8],
        caps: &ChecksumCapabilities,
    ) -> Result<Carried<'a>>
        ensures ok { IfOk result (ParsesCarried caps.now ethertype bytes.now) }
        ensures reads { (c : frame.Carried) → GivesCarried result c ↔ ReadsCarried caps.now ethertype bytes.now c }
    {
        let value = Carried::read(ethertype, bytes, caps);
        if value.is_read() {
            Ok(value)
        } else {
            Err(Error)
        }
    }

    /// Whether everything was parsed: an ARP packet, or an IP packet with its transport.
    #[inline(always)]
    pub fn is_read(&self) -> bool
        ensures { result ≡ is_some (carried_of self.now) }
    {
        match self {
            Carried::Arp(_) => true,
            Carried::Packet(_, inner) => inner.is_read(),
            Carried::Fragment(_) | Carried::Unread(_) => false,
        }
    }

    /// The payload of the transport. None if no transport header was parsed.
    #[inline(always)]
    pub fn payload(&self) -> Option<&'a [u8]>
        ensures { option_map (λ bytes. bytes.now) result ≡ carried_payload self.now }
    {
        match self {
            Carried::Packet(_, inner) => inner.payload(),
            Carried::Arp(_) | Carried::Fragment(_) | Carried::Unread(_) => None,
        }
    }

    /// The number of bytes that `try_emit` writes.
    #[inline(always)]
    pub fn buffer_len(&self) -> usize
        requires { carried_len self.now < 2 ^ 64 }
        ensures { result ≡ carried_len self.now }
    {
        match self {
            Carried::Arp(value) => value.buffer_len(),
            Carried::Packet(header, inner) => header.header_len() + inner.buffer_len(),
            Carried::Fragment(packet) => packet.as_bytes().len(),
            Carried::Unread(bytes) => bytes.len(),
        }
    }

    /// Writes the payload of a frame to the front of `out`, and returns the number of bytes.
    /// Returns `None` and writes nothing if they do not fit. An IP header gets the length of the
    /// transport after it. Computes the checksums that `caps` selects; the others are 0.
    #[inline(always)]
    pub fn try_emit(&self, out: &mut [u8], caps: &ChecksumCapabilities) -> Option<usize>
        requires { FitsCarried self.now }
        ensures { Fills (carried_bytes caps.now self.now) (carried_len self.now) out.old out.new result }
    {
        match self {
            Carried::Arp(value) => value.try_emit(out),
            Carried::Packet(header, inner) => emit_packet(header, inner, out, caps),
            Carried::Fragment(packet) => try_copy(out, packet.as_bytes()),
            Carried::Unread(bytes) => try_copy(out, bytes),
        }
    }
}

// Writes an IP packet to the front of `out`: the transport first, since the header has its length.
#[inline(always)]
fn emit_packet(
    header: &IpRepr,
    inner: &Transport<'_>,
    out: &mut [u8],
    caps: &ChecksumCapabilities,
) -> Option<usize>
    requires len { transport_len inner.now ≤ ip.max_payload_len header.now }
    requires fits { FitsTransport inner.now }
    ensures { Fills (packet_bytes caps.now header.now inner.now) (ip.header_len_of header.now + transport_len inner.now) out.old out.new result }
{
    let header_len = header.header_len();
    if out.len() < header_len {
        return None;
    }
    let (front, rest) = out.split_at_mut(header_len);
    match inner.try_emit(header, rest, caps) {
        Some(len) => {
            let mut header = *header;
            header.set_payload_len(len);
            header.emit(front, caps);
            Some(header_len + len)
        }
        None => None,
    }
}

/// A line for each layer, each after a line end. Bytes that were not parsed print nothing.
impl fmt::Display for Carried<'_> {
    ghost output = { λ c. Some (carried_text c) };

    fn fmt<W: fmt::Write>(&self, f: &mut fmt::Formatter<W>) -> fmt::Result {
        match self {
            Carried::Arp(value) => write!(f, "\n{value}"),
            Carried::Packet(IpRepr::Ipv4(header), inner) => write!(f, "\n{header}{inner}"),
            Carried::Packet(IpRepr::Ipv6(header), inner) => write!(f, "\n{header}{inner}"),
            Carried::Fragment(packet) => write!(f, "\n{packet}"),
            Carried::Unread(_) => Ok(()),
        }
    }
}
