//! The payload of an IP packet, as a value.

ghost use Rattle.std.specs.Prelude.{◌≡◌, ◌<◌, ◌↔◌, ◌^◌, IfOk, IsTrue, Some, is_some};
ghost use Rattle.std.specs.Option.{option_map};
ghost use Rattle.ip_wire.specs.Frame as frame;
ghost use Rattle.ip_wire.specs.Frame.{ReadsTransport};
ghost use Rattle.ip_wire.specs.FrameValue.{FindsTransport, FitsTransport, GivesTransport, ParsesTransport, transport_bytes, transport_len, transport_of, transport_payload, transport_text};
ghost use Rattle.net_base.specs.Filled.{Fills};

use net_base::{ChecksumCapabilities, Error, Result, try_copy};
use std::fmt;
use wire_addr::IpProtocol;
use wire_ip::IpRepr;
use wire_tcp::{TCP_MAX_HEADER_LEN, TcpPacket, TcpRepr};
use wire_udp::{UDP_HEADER_LEN, UDP_MAX_PAYLOAD_LEN, UdpPacket, UdpRepr};

/// The payload of an IP packet, by the protocol that its header names.
#[derive(Debug, Clone, Copy, PartialEq, Eq)]
pub enum Transport<'a> {
    /// A UDP header and its payload.
    Udp(UdpRepr, &'a [u8]),
    /// A TCP header with its options; the value holds the payload.
    Tcp(TcpRepr<'a>),
    /// The payload of any other protocol.
    Other(&'a [u8]),
    /// The payload of a UDP or TCP packet whose header did not parse.
    Unread(&'a [u8]),
}

impl<'a> Transport<'a> {
    /// Parses the payload of a packet with this header. A UDP or TCP header that does not parse
    /// gives `Unread` with all bytes. Verifies the checksums that `caps` selects.
    #[inline(always)]
    pub fn read(header: &IpRepr, bytes: &'a [u8], caps: &ChecksumCapabilities) -> Transport<'a>
        ensures { FindsTransport caps.now header.now bytes.now result }
    {
        match header.next_header() {
            IpProtocol::Udp => {
                let packet = UdpPacket::new_unchecked(bytes);
                match UdpRepr::parse(&packet, &header.src_addr(), &header.dst_addr(), caps) {
                    Ok(value) => Transport::Udp(value, packet.payload()),
                    Err(_) => Transport::Unread(bytes),
                }
            }
            IpProtocol::Tcp => {
                let packet = TcpPacket::new_unchecked(bytes);
                match TcpRepr::parse(&packet, &header.src_addr(), &header.dst_addr(), caps) {
                    Ok(value) => Transport::Tcp(value),
                    Err(_) => Transport::Unread(bytes),
                }
            }
            _ => Transport::Other(bytes),
        }
    }

    /// As `read`, but a UDP or TCP header that does not parse is an error.
    #[inline(always)]
    pub fn parse(
        header: &IpRepr,
        bytes: &'a [u8],
        caps: &ChecksumCapabilities,
    ) -> Result<Transport<'a>>
        ensures ok { IfOk result (ParsesTransport caps.now header.now bytes.now) }
        ensures reads { (t : frame.Transport) → GivesTransport result t ↔ ReadsTransport caps.now header.now bytes.now t }
    {
        let value = Transport::read(header, bytes, caps);
        if value.is_read() {
            Ok(value)
        } else {
            Err(Error)
        }
    }

    /// Whether the payload was parsed: whether this is not `Unread`.
    #[inline(always)]
    pub fn is_read(&self) -> bool
        ensures { result ≡ is_some (transport_of self.now) }
    {
        !matches!(self, Transport::Unread(_))
    }

    /// What follows the UDP or TCP header, or all bytes of another protocol. None for `Unread`.
    #[inline(always)]
    pub fn payload(&self) -> Option<&'a [u8]>
        ensures { option_map (λ bytes. bytes.now) result ≡ transport_payload self.now }
    {
        match self {
            Transport::Udp(_, payload) | Transport::Other(payload) => Some(payload),
            Transport::Tcp(value) => Some(value.payload),
            Transport::Unread(_) => None,
        }
    }

    /// The number of bytes that `try_emit` writes.
    #[inline(always)]
    pub fn buffer_len(&self) -> usize
        requires { transport_len self.now < 2 ^ 64 }
        ensures { result ≡ transport_len self.now }
    {
        match self {
            Transport::Udp(_, payload) => UDP_HEADER_LEN + payload.len(),
            Transport::Tcp(value) => value.buffer_len(),
            Transport::Other(bytes) | Transport::Unread(bytes) => bytes.len(),
        }
    }

    /// Whether `try_emit` may be called: a UDP payload has at most 65,527 bytes, a TCP header at most 60.
    #[inline(always)]
    pub fn fits(&self) -> bool
        ensures { IsTrue result ↔ FitsTransport self.now }
    {
        match self {
            Transport::Udp(_, payload) => payload.len() <= UDP_MAX_PAYLOAD_LEN,
            Transport::Tcp(value) => value.header_len() <= TCP_MAX_HEADER_LEN,
            Transport::Other(_) | Transport::Unread(_) => true,
        }
    }

    /// Writes the payload of a packet with this header to the front of `out`, and returns the
    /// number of bytes. Returns `None` and writes nothing if they do not fit. Computes the
    /// checksums that `caps` selects; the others are 0.
    #[inline(always)]
    pub fn try_emit(
        &self,
        header: &IpRepr,
        out: &mut [u8],
        caps: &ChecksumCapabilities,
    ) -> Option<usize>
        requires { FitsTransport self.now }
        ensures { Fills (transport_bytes caps.now header.now self.now) (transport_len self.now) out.old out.new result }
    {
        match self {
            Transport::Udp(value, payload) => {
                value.try_emit(out, &header.src_addr(), &header.dst_addr(), payload, caps)
            }
            Transport::Tcp(value) => {
                value.try_emit(out, &header.src_addr(), &header.dst_addr(), caps)
            }
            Transport::Other(bytes) | Transport::Unread(bytes) => try_copy(out, bytes),
        }
    }
}

/// A line of its own, after a line end, for UDP and TCP; nothing for other bytes.
impl fmt::Display for Transport<'_> {
    ghost output = { λ t. Some (transport_text t) };

    fn fmt<W: fmt::Write>(&self, f: &mut fmt::Formatter<W>) -> fmt::Result {
        match self {
            Transport::Udp(value, payload) => {
                let len = payload.len();
                write!(f, "\n{value} len={len}")
            }
            Transport::Tcp(value) => write!(f, "\n{value}"),
            Transport::Other(_) | Transport::Unread(_) => Ok(()),
        }
    }
}
