//! The ICMP errors of a router (RFC 1812, section 5.2.7; RFC 4443, section 3).

ghost use Rattle.std.specs.Prelude.{◌≡◌, ◌↔◌, IfSome, IsTrue, true};
ghost use Rattle.app_router.specs.IcmpProblem.{HasProblem, IsIn, IsTooLong, Tells, message_of};
ghost use Rattle.app_host.specs.Kinds.{Tries};
ghost use Rattle.app_host.specs.Message.{Gives};
ghost use Rattle.ip_wire.specs.Ip.{Reads};
ghost use Rattle.ip_wire.specs.Reply.{unmarked};

use app_host::{Interface, MessageFrame, icmp_error};
use ip_wire::{
    ChecksumCapabilities, ETHERNET_HEADER_LEN, EthernetFrame, IpPacket, IpRepr, Ipv4Packet,
    Ipv6Packet,
};
use wire_icmp::{Exceeded, IcmpRepr, Unreachable};

/// Why a packet is not forwarded, for its sender.
#[derive(Debug, Clone, Copy, PartialEq, Eq)]
pub enum Problem {
    /// The hop limit is 0 or 1.
    Expired,
    /// The packet is longer than the MTU of the next network, in bytes, and may not be fragmented.
    TooLong { mtu: u32 },
    /// No route leads to the destination.
    NoRoute,
    /// The destination, or the next router, does not answer.
    NoNeighbour,
    /// A rule of the router forbids it.
    Prohibited,
}

/// The error about the packet of a frame, to its sender. `None` if the packet does not have the problem, as
/// far as its bytes show that, and if `icmp_error::error` returns `None`. A router limits how many it sends
/// (RFC 1812, section 4.3.2.8; RFC 4443, section 2.4 f); this call does not.
pub fn error<'a>(frame: &'a [u8], ours: &Interface, problem: Problem) -> Option<MessageFrame<'a>>
    ensures error { Gives (Tells ours.now frame.now problem) result }
    ensures unmarked { IfSome result (λ error. error.dscp ≡ 0) }
{
    if problem.is_in(frame) {
        icmp_error::error(frame, ours, problem.message())
    } else {
        None
    }
}

/// Writes the error that `error` returns to the front of `out`, and returns its length. `Some(None)` if it does not
/// fit, and `None` if there is none; then `out` is unchanged.
pub fn try_error(
    frame: &[u8],
    ours: &Interface,
    problem: Problem,
    out: &mut [u8],
) -> Option<Option<usize>>
    ensures { Tries unmarked (Tells ours.now frame.now problem) out.old out.new result }
{
    if problem.is_in(frame) {
        icmp_error::try_error(frame, ours, problem.message(), out)
    } else {
        None
    }
}

impl Problem {
    // Whether a frame carries a packet that has the problem, as far as its bytes show that.
    fn is_in(&self, frame: &[u8]) -> bool
        ensures { IsTrue result ↔ IsIn self.now frame.now }
    {
        if frame.len() < ETHERNET_HEADER_LEN {
            return false;
        }
        let packet = EthernetFrame::new_unchecked(frame).payload();
        let caps = ChecksumCapabilities::default();
        match IpRepr::parse(&IpPacket::new_unchecked(packet), &caps) {
            Ok(header) => self.is_of(&header, packet),
            Err(_) => false,
        }
    }

    // Whether the packet has the problem, as far as its bytes show that.
    fn is_of(&self, header: &IpRepr, packet: &[u8]) -> bool
        requires { Reads packet.now true header.now }
        ensures { IsTrue result ↔ HasProblem self.now header.now packet.now }
    {
        match *self {
            Problem::Expired => header.hop_limit() <= 1,
            Problem::TooLong { mtu } => is_too_long(mtu, header, packet),
            Problem::NoRoute | Problem::NoNeighbour | Problem::Prohibited => true,
        }
    }

    // The message that tells of it.
    fn message(&self) -> IcmpRepr
        ensures { result ≡ message_of self.now }
    {
        match *self {
            Problem::Expired => IcmpRepr::TimeExceeded {
                reason: Exceeded::HopLimit,
            },
            Problem::TooLong { mtu } => IcmpRepr::PktTooBig { mtu },
            Problem::NoRoute => IcmpRepr::DstUnreachable {
                reason: Unreachable::NoRoute,
            },
            Problem::NoNeighbour => IcmpRepr::DstUnreachable {
                reason: Unreachable::Host,
            },
            Problem::Prohibited => IcmpRepr::DstUnreachable {
                reason: Unreachable::Prohibited,
            },
        }
    }
}

// Whether the packet is longer than this number of bytes, and may not be fragmented.
fn is_too_long(mtu: u32, header: &IpRepr, packet: &[u8]) -> bool
    requires { Reads packet.now true header.now }
    ensures { IsTrue result ↔ IsTooLong mtu header.now packet.now }
{
    match header {
        IpRepr::Ipv4(_) => {
            let packet = Ipv4Packet::new_unchecked(packet);
            mtu < u32::from(packet.total_len()) && packet.dont_frag()
        }
        IpRepr::Ipv6(_) => (mtu as usize) < Ipv6Packet::new_unchecked(packet).total_len(),
    }
}
