//! The "parameter problem" error about an extension header or a fragment of IPv6 (RFC 8200, section 4; RFC 4443,
//! section 3.4).

ghost use Rattle.std.specs.Prelude.{◌≡◌, ◌⊎◌, ◌↔◌, IfSome, IsTrue, List, ℕ};
ghost use Rattle.app_host.specs.Message.{Gives};
ghost use Rattle.app_host.specs.ParameterProblem.{IsParameterProblem, ProblemFrame};
ghost use Rattle.app_host.specs.IcmpError.{IsOurGroup};
ghost use Rattle.app_host.specs.Source.{IsOurs};
ghost use Rattle.ip_wire.specs.Frame.{other, packet};
ghost use Rattle.ip_wire.specs.declared.IpAddress.TheVariants as address;
ghost use Rattle.ip_wire.specs.declared.IpRepr.TheVariants.{Ipv6};

use crate::icmp_error::{error_to, is_our_group};
use crate::interface::Interface;
use crate::ipv6_fault::{Fault, first_fault};
use crate::message::MessageFrame;
use ip_wire::{
    Carried, Frame, IPV6_MAX_PAYLOAD_LEN, IpAddress, IpProtocol, IpRepr, Ipv6Address, Ipv6Repr,
    Transport,
};
use wire_icmp::IcmpRepr;

/// The error about the first fault in the extension headers of an IPv6 packet for this interface. `None` for any
/// other frame, if the fault is not reported, and if the sender may not get an error. An unknown option with the
/// highest bits 10 is reported about a packet to a group of the interface too. What follows the header of a fragment has
/// no fault of its own, but the first fragment must have all headers through that of an upper-layer protocol.
pub fn reply<'a>(request: &Frame<'_>, frame: &'a [u8], ours: &Interface) -> Option<MessageFrame<'a>>
    ensures reply { Gives (ProblemFrame ours.now frame.now request.now) result }
    ensures unmarked { IfSome result (λ error. error.dscp ≡ 0) }
{
    match &request.carried {
        Carried::Packet(header, inner) => match header {
            IpRepr::Ipv6(header) => match inner {
                Transport::Other(payload) => {
                    if header.next_header == IpProtocol::Icmpv6 {
                        return None;
                    }
                    reply_to(header, payload, frame, ours)
                }
                _ => None,
            },
            _ => None,
        },
        _ => None,
    }
}

// The error about a packet with this header and payload. Inlined, it slows down answers of other kinds.
#[inline(never)]
fn reply_to<'a>(
    header: &Ipv6Repr,
    payload: &[u8],
    frame: &'a [u8],
    ours: &Interface,
) -> Option<MessageFrame<'a>>
    ensures reply { Gives (IsParameterProblem ours.now frame.now (packet (Ipv6 header.now) (other payload.now))) result }
    ensures unmarked { IfSome result (λ error. error.dscp ≡ 0) }
{
    if payload.len() > IPV6_MAX_PAYLOAD_LEN {
        return None;
    }
    match first_fault(header.next_header.number(), payload) {
        Some(fault) => match fault {
            Fault::Reported {
                code,
                pointer,
                about,
            } => {
                if !is_for_us(ours, &header.dst_addr) {
                    return None;
                }
                error_to(frame, ours, IcmpRepr::ParamProblem { code, pointer }, about)
            }
            Fault::Silent => None,
        },
        None => None,
    }
}

// Whether a packet to this address is for us: it is our address or a group of ours.
fn is_for_us(ours: &Interface, dst_addr: &Ipv6Address) -> bool
    ensures { IsTrue result ↔ (IsOurs ours.now (address.Ipv6 dst_addr.now) ⊎ IsOurGroup ours.now dst_addr.now) }
{
    ours.has_addr(&IpAddress::Ipv6(*dst_addr)) || is_our_group(ours, dst_addr)
}
