//! The calls of the NAT.

ghost use Rattle.std.specs.Prelude.{◌≡◌};
ghost use Rattle.app_nat.specs.Nat.{IsPacket};
ghost use Rattle.app_nat.specs.Table.{IsTable};

use app_nat::{
    Event, Ipv4Endpoint, Mapping, Nat, Packet, Protocol, Rejection, Side, find, inside_of, open,
    port_of, translate, translate_in, translate_out,
};
use ip_wire::Ipv4Address;

/// A frame goes out in one way, or stays inside for one reason, if no endpoint has two mappings.
#[tactic(auto, using(crate::proofs::NatsOnce::out_returned, crate::proofs::NatsOnce::out_table, crate::proofs::NatsOnce::out_frame))]
pub fn translate_out_once(
    nat: &Nat,
    mappings: &mut [Mapping],
    others: &mut [Mapping],
    now: u64,
    frame: &mut [u8],
    other: &mut [u8],
) -> (Result<(), Rejection>, Result<(), Rejection>)
    requires mappings { mappings.old ≡ others.old }
    requires frame { frame.old ≡ other.old }
    requires table { IsTable nat.now mappings.old now }
    ensures returned { result.0 ≡ result.1 }
    ensures mappings { mappings.new ≡ others.new }
    ensures frame { frame.new ≡ other.new }
{
    (
        translate_out(nat, mappings, now, frame),
        translate_out(nat, others, now, other),
    )
}

/// A frame comes in in one way, or stays outside for one reason.
#[tactic(auto, using(crate::proofs::NatsOnce::in_returned, crate::proofs::NatsOnce::in_table, crate::proofs::NatsOnce::in_frame))]
pub fn translate_in_once(
    nat: &Nat,
    mappings: &mut [Mapping],
    others: &mut [Mapping],
    now: u64,
    frame: &mut [u8],
    other: &mut [u8],
) -> (Result<(), Rejection>, Result<(), Rejection>)
    requires mappings { mappings.old ≡ others.old }
    requires frame { frame.old ≡ other.old }
    ensures returned { result.0 ≡ result.1 }
    ensures mappings { mappings.new ≡ others.new }
    ensures frame { frame.new ≡ other.new }
{
    (
        translate_in(nat, mappings, now, frame),
        translate_in(nat, others, now, other),
    )
}

/// An endpoint gets one port, or none.
#[tactic(auto, using(crate::proofs::NatsOnce::open_returned, crate::proofs::NatsOnce::open_table))]
pub fn open_once(
    nat: &Nat,
    mappings: &mut [Mapping],
    others: &mut [Mapping],
    now: u64,
    event: Event,
    inside: &Ipv4Endpoint,
    remote: &Ipv4Endpoint,
) -> (Option<u16>, Option<u16>)
    requires { mappings.old ≡ others.old }
    ensures returned { result.0 ≡ result.1 }
    ensures mappings { mappings.new ≡ others.new }
{
    (
        open(nat, mappings, now, event, inside, remote),
        open(nat, others, now, event, inside, remote),
    )
}

/// A port leads to one endpoint, or to none, and its mapping changes in one way.
#[tactic(auto, using(crate::proofs::NatsOnce::find_returned, crate::proofs::NatsOnce::find_table))]
pub fn find_once(
    nat: &Nat,
    mappings: &mut [Mapping],
    others: &mut [Mapping],
    now: u64,
    event: Event,
    port: u16,
    remote: &Ipv4Endpoint,
) -> (Option<Ipv4Endpoint>, Option<Ipv4Endpoint>)
    requires { mappings.old ≡ others.old }
    ensures returned { result.0 ≡ result.1 }
    ensures mappings { mappings.new ≡ others.new }
{
    (
        find(nat, mappings, now, event, port, remote),
        find(nat, others, now, event, port, remote),
    )
}

/// A port leads to one endpoint, or to none.
#[tactic(auto, using(crate::proofs::NatsOnce::inside_results))]
pub fn inside_of_once(
    nat: &Nat,
    mappings: &[Mapping],
    now: u64,
    protocol: Protocol,
    port: u16,
) -> (Option<Ipv4Endpoint>, Option<Ipv4Endpoint>)
    ensures { result.0 ≡ result.1 }
{
    (
        inside_of(nat, mappings, now, protocol, port),
        inside_of(nat, mappings, now, protocol, port),
    )
}

/// An endpoint has one port, or none, if no endpoint has two.
#[tactic(auto, using(crate::proofs::NatsOnce::port_results))]
pub fn port_of_once(
    nat: &Nat,
    mappings: &[Mapping],
    now: u64,
    protocol: Protocol,
    inside: &Ipv4Endpoint,
) -> (Option<u16>, Option<u16>)
    requires { IsTable nat.now mappings.now now }
    ensures { result.0 ≡ result.1 }
{
    (
        port_of(nat, mappings, now, protocol, inside),
        port_of(nat, mappings, now, protocol, inside),
    )
}

/// A frame is translated in one way, or rejected for one reason.
#[tactic(auto, using(crate::proofs::NatsOnce::translate_returned, crate::proofs::NatsOnce::translate_frame))]
pub fn translate_once(
    frame: &mut [u8],
    other: &mut [u8],
    side: Side,
    addr: Ipv4Address,
    port: u16,
) -> (Result<(), Rejection>, Result<(), Rejection>)
    requires { frame.old ≡ other.old }
    ensures returned { result.0 ≡ result.1 }
    ensures frame { frame.new ≡ other.new }
{
    (
        translate(frame, side, addr, port),
        translate(other, side, addr, port),
    )
}

/// A frame carries one packet, or is rejected for one reason.
#[tactic(auto, using(crate::proofs::NatsOnce::parse_results))]
pub fn packet_once(frame: &[u8]) -> (Result<Packet, Rejection>, Result<Packet, Rejection>)
    ensures { result.0 ≡ result.1 }
{
    (Packet::parse(frame), Packet::parse(frame))
}

/// The frame of a packet is rewritten in one way, or not at all.
#[tactic(auto, using(crate::proofs::NatsOnce::rewrite_returned, crate::proofs::NatsOnce::rewrite_frame))]
pub fn rewrite_once(
    packet: &Packet,
    frame: &mut [u8],
    other: &mut [u8],
    side: Side,
    addr: Ipv4Address,
    port: u16,
) -> (Result<(), Rejection>, Result<(), Rejection>)
    requires carries { IsPacket frame.old packet.now }
    requires same { frame.old ≡ other.old }
    ensures returned { result.0 ≡ result.1 }
    ensures frame { frame.new ≡ other.new }
{
    (
        packet.rewrite(frame, side, addr, port),
        packet.rewrite(other, side, addr, port),
    )
}
