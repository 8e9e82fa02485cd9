//! The replies of TCP to a segment without a connection, as frames.

ghost use Rattle.std.specs.Prelude.{◌≡◌, ◌+◌, ◌<◌, ◌^◌, length};
ghost use Rattle.ip_wire.specs.FrameValue.{Fits, frame_around};
ghost use Rattle.ip_wire.specs.Reply.{Gives, Sends, unmarked};
ghost use Rattle.ip_wire.specs.TcpRepr.{header_len_of, header_of};
ghost use Rattle.ip_wire.specs.declared.Transport.TheVariants as transport;
ghost use Rattle.app_host.specs.Interface.{header_back};
ghost use Rattle.app_host.specs.TcpReply.{TcpRepliesBytes, TcpRepliesFrame};

use crate::interface::{Interface, header_back};
use crate::message::header_before;
use crate::tcp_reply::{Offer, reply_to};
use ip_wire::{
    Carried, ChecksumCapabilities, EthernetRepr, Frame, IpProtocol, IpRepr, TcpRepr, Transport,
    send_reply,
};

/// The reply to a TCP segment for this interface, if these ports are open: SYN and ACK, or RST. `None`
/// for any other frame, and if `reply_to` returns `None`.
#[inline(always)]
pub fn reply<'a>(
    request: &Frame<'a>,
    ours: &Interface,
    ports: &[u16],
    offer: &Offer,
) -> Option<Frame<'a>>
    requires { Fits request.now }
    ensures { Gives (TcpRepliesFrame ours.now ports.now offer.now request.now) result }
{
    match &request.carried {
        Carried::Packet(header, inner) => match inner {
            Transport::Tcp(segment) => {
                if !ours.accepts(&request.header, header) {
                    return None;
                }
                match reply_to(segment, ports, offer) {
                    Some(reply) => {
                        let (src_addr, dst_addr) = (ours.hardware_addr, request.header.src_addr);
                        match Frame::tcp(src_addr, dst_addr, header_back(header), reply) {
                            Ok(reply) => Some(reply),
                            Err(_) => None,
                        }
                    }
                    None => None,
                }
            }
            _ => None,
        },
        _ => None,
    }
}

// The frame of a reply to a packet with these headers. No `Option` or `Result` is around it, since those are copied field
// by field.
#[inline(always)]
pub(crate) fn frame_of<'a>(
    ours: &Interface,
    link: &EthernetRepr,
    header: &IpRepr,
    reply: &TcpRepr<'a>,
) -> Frame<'a>
    requires { header_len_of (header_of reply.now) + length reply.now.payload.now < 2 ^ 64 }
    ensures { result ≡ frame_around ours.now.hardware_addr link.now.src_addr (header_back header.now) (transport.Tcp reply.now) }
{
    let (ip, len) = (header_back(header), reply.buffer_len());
    Frame {
        header: header_before(ours.hardware_addr, link.src_addr, &ip),
        carried: Carried::Packet(ip.before(IpProtocol::Tcp, len), Transport::Tcp(*reply)),
    }
}

/// Writes the reply to a frame to the front of `out`, and returns its length. `None` if there is no
/// reply or it does not fit; then `out` is unchanged.
pub fn answer(
    bytes: &[u8],
    ours: &Interface,
    ports: &[u16],
    offer: &Offer,
    out: &mut [u8],
) -> Option<usize>
    ensures { Sends unmarked (TcpRepliesBytes ours.now ports.now offer.now bytes.now) out.old out.new result }
{
    match Frame::parse(bytes, &ChecksumCapabilities::default()) {
        Ok(request) => send_reply(&reply(&request, ours, ports, offer), out),
        Err(_) => None,
    }
}
