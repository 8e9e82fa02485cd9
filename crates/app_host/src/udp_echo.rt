//! The echo service of UDP (RFC 862): the payload of a packet returns to its sender.

ghost use Rattle.std.specs.Prelude.{◌≡◌, ◌<◌, ◌≤◌, ◌↔◌, IsTrue};
ghost use Rattle.ip_wire.specs.FrameValue.{frame_around};
ghost use Rattle.ip_wire.specs.Reply.{Gives, Sends, unmarked};
ghost use Rattle.ip_wire.specs.declared.Transport.TheVariants as transport;
ghost use Rattle.app_host.specs.Interface.{header_back};
ghost use Rattle.app_host.specs.UdpEcho.{EchoesBytes, EchoesFrame};

use crate::interface::{Interface, header_back};
use crate::message::header_before;
use ip_wire::{
    Carried, ChecksumCapabilities, EthernetRepr, Frame, IpProtocol, IpRepr, Transport,
    UDP_HEADER_LEN, UdpRepr, send_reply,
};

// The first port that is of no well-known service (RFC 6335, section 6).
const FIRST_USER_PORT: u16 = 1024;

/// The reply to a UDP packet for this port: the same payload, with addresses and ports exchanged. `None`
/// for any other frame, and for a source port below 1024 or not above this port: such a packet may be the
/// answer of a service or an echo, and the replies would never end.
#[inline(always)]
pub fn echo<'a>(request: &Frame<'a>, ours: &Interface, port: u16) -> Option<Frame<'a>>
    ensures { Gives (EchoesFrame ours.now port request.now) result }
{
    match &request.carried {
        Carried::Packet(header, inner) => match inner {
            Transport::Udp(ports, payload) => {
                if !is_asked(ports, port) || !ours.accepts(&request.header, header) {
                    return None;
                }
                let (src_addr, dst_addr) = (ours.hardware_addr, request.header.src_addr);
                let back = ports_back(ports);
                match Frame::udp(src_addr, dst_addr, header_back(header), back, payload) {
                    Ok(reply) => Some(reply),
                    Err(_) => None,
                }
            }
            _ => None,
        },
        _ => None,
    }
}

// The echo of a packet with these headers. No `Option` or `Result` is around it, since those are copied field by field.
#[inline(always)]
pub(crate) fn echo_of<'a>(
    ours: &Interface,
    link: &EthernetRepr,
    header: &IpRepr,
    ports: &UdpRepr,
    payload: &'a [u8],
) -> Frame<'a>
    ensures { result ≡ frame_around ours.now.hardware_addr link.now.src_addr (header_back header.now)
        (transport.Udp (record { src_port = ports.now.dst_port; dst_port = ports.now.src_port }) payload.entry) }
{
    let ip = header_back(header);
    Frame {
        header: header_before(ours.hardware_addr, link.src_addr, &ip),
        carried: Carried::Packet(
            ip.before(IpProtocol::Udp, UDP_HEADER_LEN + payload.len()),
            Transport::Udp(ports_back(ports), payload),
        ),
    }
}

// Whether a packet is for this port, and may get an echo.
#[inline(always)]
pub(crate) fn is_asked(ports: &UdpRepr, port: u16) -> bool
    ensures { IsTrue result ↔ ((ports.now.dst_port ≡ port) × (1024 ≤ ports.now.src_port) × (port < ports.now.src_port)) }
{
    ports.dst_port == port && ports.src_port >= FIRST_USER_PORT && ports.src_port > port
}

// The ports of a packet in the other direction.
#[inline(always)]
fn ports_back(ports: &UdpRepr) -> UdpRepr
    ensures { result ≡ record { src_port = ports.now.dst_port; dst_port = ports.now.src_port } }
{
    UdpRepr {
        src_port: ports.dst_port,
        dst_port: ports.src_port,
    }
}

/// Writes the reply to a frame to the front of `out`, and returns its length. `None` if there is no
/// reply or it does not fit; then `out` is unchanged.
pub fn answer(bytes: &[u8], ours: &Interface, port: u16, out: &mut [u8]) -> Option<usize>
    ensures { Sends unmarked (EchoesBytes ours.now port bytes.now) out.old out.new result }
{
    match Frame::parse(bytes, &ChecksumCapabilities::default()) {
        Ok(request) => send_reply(&echo(&request, ours, port), out),
        Err(_) => None,
    }
}
