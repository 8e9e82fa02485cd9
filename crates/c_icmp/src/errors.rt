//! ICMP errors about frames.

ghost use Rattle.std.specs.Prelude.{◌≡◌, IfSome};
ghost use Rattle.app_host.specs.IcmpError.{IsError};
ghost use Rattle.app_host.specs.Kinds.{Tries};
ghost use Rattle.ip_wire.specs.Reply.{unmarked};
ghost use Rattle.wire_icmp.specs.declared.icmp.reason.Exceeded.TheVariants.{Reassembly};
ghost use Rattle.wire_icmp.specs.declared.icmp.reason.Unreachable.TheVariants.{Port};
ghost use Rattle.wire_icmp.specs.declared.icmp.repr.IcmpRepr.TheVariants.{DstUnreachable, TimeExceeded};
ghost use Rattle.c_icmp.specs.Errors.{TellsOf, WritesError, own_interface, problem_by};
ghost use Rattle.c_icmp.specs.Interfaces.{WritesReply};

use crate::interfaces::{interface, returned};
use crate::types::InterfaceFields;
use app_host::{Interface, icmp_error};
use c_structs::{Failure, MAX_LEN, usable};
use wire_icmp::{Exceeded, IcmpRepr, Unreachable};

/// `enum lk_problem`: why a packet was dropped.
#[derive(Clone, Copy)]
pub enum Problem {
    None,
    /// The hop limit is 0 or 1.
    HopLimitExpired,
    /// The packet is longer than the MTU, and may not be fragmented.
    PacketTooBig,
    RouteMissing,
    /// The next hop has no hardware address.
    NeighbourMissing,
    PortClosed,
    /// A filter rejects it.
    Prohibited,
    /// Its other fragments did not come in time.
    FragmentMissing,
}

impl Problem {
    /// The problem with this number; another number is none.
    pub fn of(number: i32) -> Problem
        ensures { result ≡ problem_by number }
    {
        match number {
            1 => Problem::HopLimitExpired,
            2 => Problem::PacketTooBig,
            3 => Problem::RouteMissing,
            4 => Problem::NeighbourMissing,
            5 => Problem::PortClosed,
            6 => Problem::Prohibited,
            7 => Problem::FragmentMissing,
            _ => Problem::None,
        }
    }
}

impl InterfaceFields {
    /// Writes an ICMP error about a frame, to its sender, and returns its length; 0 if there may be none. Fails with
    /// `NoVersion` if the struct lacks an IPv4 or an IPv6 address, with `NoHeader` if the frame is longer than
    /// `MAX_LEN`, and with `NoRoom`.
    #[tactic(auto, using(crate::proofs::FrameReplies::rejected))]
    pub fn emit_error(&self, problem: Problem, mtu: u32, frame: &[u8], out: &mut [u8]) -> isize
        ensures { WritesError (own_interface self.now) frame.now problem mtu out.old out.new result }
    {
        let hardware = self.hardware;
        match interface(&self.ipv4, &self.ipv6, hardware, false) {
            Some(ours) => {
                if frame.len() > MAX_LEN {
                    return Failure::NoHeader.code();
                }
                write_error(&ours, problem, mtu, frame, out)
            }
            None => Failure::NoVersion.code(),
        }
    }
}

// Writes the error of an interface.
fn write_error(ours: &Interface, problem: Problem, mtu: u32, frame: &[u8], out: &mut [u8]) -> isize
    ensures { WritesReply unmarked (TellsOf ours.now frame.now problem mtu) out.old out.new result }
{
    let (front, _) = out.split_at_mut(usable(out.len()));
    match try_error(ours, problem, mtu, frame, front) {
        Some(sent) => returned(sent),
        None => 0,
    }
}

// Writes the error of an interface. `Some(None)` if it does not fit, and `None` if there is none.
fn try_error(
    ours: &Interface,
    problem: Problem,
    mtu: u32,
    frame: &[u8],
    out: &mut [u8],
) -> Option<Option<usize>>
    ensures { Tries unmarked (TellsOf ours.now frame.now problem mtu) out.old out.new result }
{
    let told = match problem {
        Problem::None => return None,
        Problem::HopLimitExpired => app_router::Problem::Expired,
        Problem::PacketTooBig => app_router::Problem::TooLong { mtu },
        Problem::RouteMissing => app_router::Problem::NoRoute,
        Problem::NeighbourMissing => app_router::Problem::NoNeighbour,
        Problem::Prohibited => app_router::Problem::Prohibited,
        Problem::PortClosed => {
            let reason = Unreachable::Port;
            return icmp_error::try_error(frame, ours, IcmpRepr::DstUnreachable { reason }, out);
        }
        Problem::FragmentMissing => {
            let reason = Exceeded::Reassembly;
            return icmp_error::try_error(frame, ours, IcmpRepr::TimeExceeded { reason }, out);
        }
    };
    app_router::try_error(frame, ours, told, out)
}
