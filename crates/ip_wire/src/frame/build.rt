//! Frames whose layers agree: EtherType, protocol and lengths are filled in.

ghost use Rattle.std.specs.Prelude.{◌≡◌, ◌↔◌, IfOk, IsOk, IsTrue, length};
ghost use Rattle.ip_wire.specs.FrameValue.{Agrees, Fits, NamesTransport, arp_frame, frame_around, protocol_before, transport_len};
ghost use Rattle.ip_wire.specs.Frame.{type_of_version};
ghost use Rattle.ip_wire.specs.declared.frame.transport.Transport.TheVariants as transport;
ghost use Rattle.wire_ip.specs.Ip.{header_before};

use super::{Carried, Frame, Transport};
use net_base::{Error, Result};
use wire_addr::{EthernetAddress, IpProtocol, IpVersion};
use wire_arp::ArpRepr;
use wire_ethernet::{EthernetProtocol, EthernetRepr};
use wire_ip::IpRepr;
use wire_tcp::TcpRepr;
use wire_udp::UdpRepr;

impl<'a> Frame<'a> {
    /// A frame with a UDP packet. Protocol and payload length of `header` are filled in. An error for
    /// destination port 0, and for a payload over 65,507 bytes over IPv4 or 65,527 over IPv6.
    #[inline(always)]
    pub fn udp(
        src_addr: EthernetAddress,
        dst_addr: EthernetAddress,
        header: IpRepr,
        value: UdpRepr,
        payload: &'a [u8],
    ) -> Result<Frame<'a>>
        ensures value { IfOk result (λ f. f ≡ frame_around src_addr dst_addr header (transport.Udp value payload.entry)) }
        ensures ok { let f = frame_around src_addr dst_addr header (transport.Udp value payload.entry) in IsOk result ↔ (Agrees f × Fits f) }
    {
        Frame::packet(src_addr, dst_addr, header, Transport::Udp(value, payload))
    }

    /// A frame with a TCP segment. Protocol and payload length of `header` are filled in. An error for
    /// port 0, for options that take more than 40 bytes, and for a segment over 65,515 bytes over IPv4 or
    /// 65,535 over IPv6.
    #[inline(always)]
    pub fn tcp(
        src_addr: EthernetAddress,
        dst_addr: EthernetAddress,
        header: IpRepr,
        value: TcpRepr<'a>,
    ) -> Result<Frame<'a>>
        ensures value { IfOk result (λ f. f ≡ frame_around src_addr dst_addr header (transport.Tcp value.entry)) }
        ensures ok { let f = frame_around src_addr dst_addr header (transport.Tcp value.entry) in IsOk result ↔ (Agrees f × Fits f) }
    {
        Frame::packet(src_addr, dst_addr, header, Transport::Tcp(value))
    }

    /// A frame with an ARP packet.
    pub fn arp(src_addr: EthernetAddress, dst_addr: EthernetAddress, value: ArpRepr) -> Frame<'a>
        ensures { result ≡ arp_frame src_addr dst_addr value }
    {
        Frame {
            header: EthernetRepr {
                src_addr,
                dst_addr,
                ethertype: EthernetProtocol::Arp,
            },
            carried: Carried::Arp(value),
        }
    }

    /// A frame with an IP packet. The payload length of `header` is filled in, and for UDP and TCP the
    /// protocol; `Transport::Other` keeps the protocol of `header`. An error for what would not be parsed
    /// again: `Unread`, an `Other` of protocol 6 or 17, a TCP port 0, a UDP destination port 0, a payload
    /// or TCP options that are too long.
    #[inline(always)]
    pub fn packet(
        src_addr: EthernetAddress,
        dst_addr: EthernetAddress,
        header: IpRepr,
        inner: Transport<'a>,
    ) -> Result<Frame<'a>>
        ensures value { IfOk result (λ f. f ≡ frame_around src_addr dst_addr header inner.entry) }
        ensures ok { let f = frame_around src_addr dst_addr header inner.entry in IsOk result ↔ (Agrees f × Fits f) }
    {
        if !can_name(&header, &inner) || !inner.fits() {
            return Err(Error);
        }
        let len = inner.buffer_len();
        if len > header.max_payload_len() {
            return Err(Error);
        }
        let filled = header.before(protocol(&header, &inner), len);
        Ok(Frame {
            header: EthernetRepr {
                src_addr,
                dst_addr,
                ethertype: ethertype_of(header.version()),
            },
            carried: Carried::Packet(filled, inner),
        })
    }
}

// Whether a packet with this header can carry the transport: no port is 0 that must not be, and bytes of
// another protocol do not name UDP or TCP.
#[inline(always)]
fn can_name(header: &IpRepr, inner: &Transport<'_>) -> bool
    ensures { IsTrue result ↔ NamesTransport (header_before header.now (protocol_before header.now inner.now) (transport_len inner.now)) inner.now }
{
    match inner {
        Transport::Udp(value, _) => value.dst_port != 0,
        Transport::Tcp(value) => value.src_port != 0 && value.dst_port != 0,
        Transport::Other(_) => !matches!(
            IpProtocol::from(u8::from(header.next_header())),
            IpProtocol::Udp | IpProtocol::Tcp
        ),
        Transport::Unread(_) => false,
    }
}

// The protocol of a transport; other bytes keep that of the header.
#[inline(always)]
fn protocol(header: &IpRepr, inner: &Transport<'_>) -> IpProtocol
    ensures { result ≡ protocol_before header.now inner.now }
{
    match inner {
        Transport::Udp(..) => IpProtocol::Udp,
        Transport::Tcp(_) => IpProtocol::Tcp,
        Transport::Other(_) | Transport::Unread(_) => header.next_header(),
    }
}

// The EtherType of a frame with a packet of this version.
#[inline(always)]
pub(super) fn ethertype_of(version: IpVersion) -> EthernetProtocol
    ensures { result ≡ type_of_version version }
{
    match version {
        IpVersion::Ipv4 => EthernetProtocol::Ipv4,
        IpVersion::Ipv6 => EthernetProtocol::Ipv6,
    }
}
