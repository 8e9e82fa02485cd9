//! The reply to an echo request (RFC 792; RFC 1122, section 3.2.2.6; RFC 4443, section 4.2).

ghost use Rattle.std.specs.Prelude.{◌≡◌, ◌<◌, IfSome};
ghost use Rattle.app_host.specs.IcmpEcho.{IsIcmpEcho, RepliesEchoFrame};
ghost use Rattle.app_host.specs.Message.{Gives};
ghost use Rattle.ip_wire.specs.Frame.{other, packet};

use crate::interface::{Interface, header_back};
use crate::message::MessageFrame;
use ip_wire::{Carried, ChecksumCapabilities, EthernetRepr, Frame, IpRepr, Transport};
use wire_icmp::{IcmpPacket, IcmpRepr, protocol_of};

/// The reply to an echo request for this interface, with the same identifier, sequence number and data.
/// `None` for any other frame, also for a request to a group. The DSCP of the request is that of the reply too
/// (RFC 1812, section 4.3.2.5); a `Frame` has none.
#[inline(always)]
pub fn reply<'a>(request: &Frame<'a>, dscp: u8, ours: &Interface) -> Option<MessageFrame<'a>>
    requires { dscp < 64 }
    ensures reply { Gives (RepliesEchoFrame ours.now request.now) result }
    ensures dscp { IfSome result (λ reply. reply.dscp ≡ dscp) }
{
    match &request.carried {
        Carried::Packet(header, inner) => match inner {
            Transport::Other(bytes) => match reply_to(&request.header, header, bytes, ours) {
                Some(reply) => Some(MessageFrame { dscp, ..reply }),
                None => None,
            },
            _ => None,
        },
        _ => None,
    }
}

// The reply to the payload of a packet with these headers.
#[inline(always)]
fn reply_to<'a>(
    link: &EthernetRepr,
    header: &IpRepr,
    request: &'a [u8],
    ours: &Interface,
) -> Option<MessageFrame<'a>>
    ensures { Gives (IsIcmpEcho ours.now link.now (packet header.now (other request.now))) result }
{
    let is_icmp = header.next_header() == protocol_of(header.version());
    if !is_icmp || request.len() > header.max_payload_len() || !ours.accepts(link, header) {
        return None;
    }
    let packet = IcmpPacket::new_unchecked(request);
    let (src_addr, dst_addr) = (header.src_addr(), header.dst_addr());
    let caps = ChecksumCapabilities::default();
    match IcmpRepr::parse(&packet, &src_addr, &dst_addr, &caps) {
        Ok(value) => match value {
            IcmpRepr::EchoRequest { ident, seq_no } => {
                let value = IcmpRepr::EchoReply { ident, seq_no };
                let (src_addr, dst_addr) = (ours.hardware_addr, link.src_addr);
                let (back, data) = (header_back(header), packet.payload());
                Some(MessageFrame::icmp(src_addr, dst_addr, back, value, data))
            }
            _ => None,
        },
        Err(_) => None,
    }
}
