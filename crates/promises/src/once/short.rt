//! The short applications.

ghost use Rattle.std.specs.Prelude.{◌≡◌, ◌↔◌, Bool, List, ℕ};
ghost use Rattle.app_short.specs.Flow.{IsOneFlow};
ghost use Rattle.ip_wire.specs.TcpRepr as tcp;
ghost use Rattle.ip_wire.specs.TcpRepr.{TcpHeader};
ghost use Rattle.ip_wire.specs.declared.IpAddress.{IpAddress};

use app_short::allow_list::is_allowed;
use app_short::flow_key::{Flow, FlowKey};
use app_short::hop_guard::is_near;
use app_short::mss_clamp::clamp;
use app_short::verify_checksum::parse_udp_ports;
use ip_wire::{ChecksumCapabilities, Frame, IpAddress, IpCidr, Ipv4Address, Result, UdpRepr};

/// An address is allowed, or it is not.
#[tactic(auto, using(std::proofs::lemmas::Bool::Decides::same_from_decides))]
pub fn is_allowed_once(list: &[IpCidr], addr: &IpAddress) -> (bool, bool)
    ensures { result.0 ≡ result.1 }
{
    (is_allowed(list, addr), is_allowed(list, addr))
}

/// A frame came from near, or it did not.
#[tactic(auto, using(std::proofs::lemmas::Bool::Decides::same_from_decides))]
pub fn is_near_once(bytes: &[u8], hops: u8) -> (bool, bool)
    ensures { result.0 ≡ result.1 }
{
    (is_near(bytes, hops), is_near(bytes, hops))
}

/// A frame has one flow, or none.
pub fn flow_once(frame: &Frame<'_>) -> (Option<Flow>, Option<Flow>)
    ensures { result.0 ≡ result.1 }
{
    (Flow::of_frame(frame), Flow::of_frame(frame))
}

/// Two packets are of one flow exactly if their keys are equal.
#[tactic(auto, using(crate::proofs::ShortOnce::one_flow))]
pub fn flow_keys(flow: &Flow, other: &Flow) -> (FlowKey, FlowKey)
    ensures { (result.1 ≡ result.0) ↔ IsOneFlow other.now flow.now }
{
    (flow.key(), other.key())
}

/// A segment is clamped in one way.
pub fn clamp_once(segment: &mut [u8], other: &mut [u8], limit: u16) -> (bool, bool)
    requires { segment.old ≡ other.old }
    ensures returned { (src dst : IpAddress) (verified : Bool) (v : TcpHeader) (payload : List ℕ)
        → tcp.Reads segment.old src dst verified v payload → result.0 ≡ result.1 }
    ensures segment { (src dst : IpAddress) (verified : Bool) (v : TcpHeader) (payload : List ℕ)
        → tcp.Reads segment.old src dst verified v payload → segment.new ≡ other.new }
{
    (clamp(segment, limit), clamp(other, limit))
}

/// A packet has one pair of ports, or an error.
pub fn parse_udp_ports_once(
    packet: &[u8],
    src_addr: Ipv4Address,
    dst_addr: Ipv4Address,
    caps: &ChecksumCapabilities,
) -> (Result<UdpRepr>, Result<UdpRepr>)
    ensures { result.0 ≡ result.1 }
{
    (
        parse_udp_ports(packet, src_addr, dst_addr, caps),
        parse_udp_ports(packet, src_addr, dst_addr, caps),
    )
}
