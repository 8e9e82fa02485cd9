//! The replies of a host. Each kind has its function in `app_host`.

ghost use Rattle.std.specs.Prelude.{◌≡◌, ◌↔◌, ◌<◌, ◌≤◌, IfSome, IsTrue, None, drop, length};
ghost use Rattle.app_host.specs.Host.{Answers, IsServed, IsUnread, RepliesBytes};
ghost use Rattle.app_host.specs.IcmpEcho.{KeepsDscp, reply_dscp};
ghost use Rattle.app_host.specs.Kinds.{TriesReply};
ghost use Rattle.app_host.specs.Message.{dscp_of};
ghost use Rattle.ip_wire.specs.Ip.{version_of};
ghost use Rattle.ip_wire.specs.Reply.{Sends};
ghost use Rattle.ip_wire.specs.Types.{IpRepr};
ghost use Rattle.ip_wire.specs.declared.Carried.TheVariants.{Packet};
ghost use Rattle.ip_wire.specs.declared.Transport.{Transport as Inner};

use crate::tcp_reply::Offer;
use crate::{Interface, kinds};
use ip_wire::{Carried, ETHERNET_HEADER_LEN, Frame, IpVersion, Ipv4Packet, Ipv6Packet};

/// A host with one interface, and no connections.
#[derive(Debug, Clone, Copy, PartialEq, Eq)]
pub struct Host<'a> {
    pub interface: Interface,
    /// The UDP port of the echo service. 0 turns the service off: no packet for port 0 parses.
    pub echo_port: u16,
    /// The other UDP ports that the host serves. A packet for them gets no reply here.
    pub open_udp_ports: &'a [u16],
    /// The open TCP ports.
    pub open_ports: &'a [u16],
    /// What the open TCP ports offer.
    pub offer: Offer,
}

/// Writes the reply of the host to the front of `out`, and returns its length. `None` if there is no
/// reply or it does not fit; then `out` is unchanged.
pub fn answer(host: &Host<'_>, frame: &[u8], out: &mut [u8]) -> Option<usize>
    ensures sends { Sends (reply_dscp frame.now) (RepliesBytes host.now frame.now) out.old out.new result }
    ensures unread { IsUnread frame.now → result ≡ None }
    ensures answers { IfSome result (λ len. Answers host.now frame.now out.new) }
    ensures dscp { IfSome result (λ len. KeepsDscp host.now.interface frame.now out.new) }
{
    match try_answer(host, frame, out) {
        Some(sent) => sent,
        None => None,
    }
}

/// As `answer`, but `Some(None)` if the reply does not fit, and `None` only if there is no reply.
#[inline(always)]
pub fn try_answer(host: &Host<'_>, frame: &[u8], out: &mut [u8]) -> Option<Option<usize>>
    ensures { TriesReply host.now frame.now out.old out.new result }
{
    kinds::answer(host, frame, out)
}

// The DSCP of the packet in a frame, which has these bytes. 0 if there is no packet.
#[inline(always)]
pub(crate) fn dscp_in(request: &Frame<'_>, frame: &[u8]) -> u8
    ensures fits { result < 64 }
    ensures is { (v : IpRepr) (inner : Inner) → 16 ≤ length frame.now → request.now.carried ≡ Packet v inner → result ≡ dscp_of (version_of v) (drop 14 frame.now) }
{
    match &request.carried {
        Carried::Packet(header, _) => {
            if frame.len() < ETHERNET_HEADER_LEN + 2 {
                return 0;
            }
            let packet = &frame[ETHERNET_HEADER_LEN..];
            match header.version() {
                IpVersion::Ipv4 => Ipv4Packet::new_unchecked(packet).dscp(),
                IpVersion::Ipv6 => Ipv6Packet::new_unchecked(packet).traffic_class() / 4,
            }
        }
        _ => 0,
    }
}

impl Host<'_> {
    // Whether a packet for this UDP port gets no error.
    #[inline(always)]
    pub(crate) fn serves(&self, port: u16) -> bool
        ensures { IsTrue result ↔ IsServed self.now port }
    {
        port == self.echo_port || self.open_udp_ports.contains(&port)
    }
}
