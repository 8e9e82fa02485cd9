//! What `open` and `find` mean for a NAT. Each law is proved of the calls in its body, or of
//! definitions if its body is empty.

ghost use Rattle.std.specs.Prelude.{min, All, IfSome, List, None, Some, false, true, ℕ, ◌<◌, ◌≡◌, ◌≢◌, ◌≤◌};
ghost use Rattle.app_nat.specs.Mapping.{expiry, with_reach};
ghost use Rattle.app_nat.specs.State.{ends_connection, protocol_of, shortest_timeout, state_of, timeout_of};
ghost use Rattle.app_nat.specs.Table.{IsFree, IsFull, IsTable, IsUnmapped, MapsTo, Opens, free_mapping, mapping_at, port_at, ports, row_len, step_of};
ghost use Rattle.app_nat.specs.declared.mapping.Ipv4Endpoint.{Ipv4Endpoint};
ghost use Rattle.app_nat.specs.declared.mapping.Mapping.{Mapping};
ghost use Rattle.app_nat.specs.declared.state.Protocol.{Protocol};

use crate::mapping::{Ipv4Endpoint, Mapping};
use crate::nat::Nat;
use crate::state::{Event, TcpState};
use crate::table::{find, open};

/// A packet goes out, and an answer comes in before the time-out: it goes to the inside endpoint
/// that sent the packet, from whichever remote endpoint it comes (RFC 4787, REQ-8:
/// endpoint-independent filtering).
#[tactic(auto, using(crate::proofs::Meaning::answered))]
pub fn answer_comes_back(
    nat: &Nat,
    mappings: &mut [Mapping],
    now: u64,
    packet: Event,
    inside: &Ipv4Endpoint,
    remote: &Ipv4Endpoint,
    later: u64,
    answer: Event,
    sender: &Ipv4Endpoint,
) -> Option<Option<Ipv4Endpoint>>
    ensures { IfSome result (λ found. protocol_of answer ≡ protocol_of packet
        → later < expiry now (shortest_timeout nat.now (protocol_of packet)) → found ≡ Some inside.now) }
{
    let port = open(nat, mappings, now, packet, inside, remote)?;
    Some(find(nat, mappings, later, answer, port, sender))
}

/// An inside endpoint keeps its outside port, whatever the remote endpoint is (RFC 4787, REQ-1).
#[tactic(auto, using(crate::proofs::Meaning::independent))]
pub fn mapping_is_endpoint_independent(
    nat: &Nat,
    mappings: &mut [Mapping],
    now: u64,
    event: Event,
    inside: &Ipv4Endpoint,
    remote: &Ipv4Endpoint,
) -> Option<u16>
    ensures { (port : ℕ) → IsTable nat.now mappings.old now
        → MapsTo nat.now mappings.old now (protocol_of event) port inside.now → result ≡ Some port }
{
    open(nat, mappings, now, event, inside, remote)
}

/// A new mapping preserves the port, if that is free (RFC 4787, section 4.2.1).
#[tactic(auto, using(crate::proofs::Meaning::preserved))]
pub fn free_port_is_preserved(
    nat: &Nat,
    mappings: &mut [Mapping],
    now: u64,
    event: Event,
    inside: &Ipv4Endpoint,
    remote: &Ipv4Endpoint,
) -> Option<u16>
    ensures { IsUnmapped nat.now mappings.old now (protocol_of event) inside.now
        → IsFree nat.now mappings.old now (protocol_of event) inside.now.port → result ≡ Some inside.now.port }
{
    open(nat, mappings, now, event, inside, remote)
}

/// An inside endpoint gets a port as long as one is free.
#[tactic(auto, using(crate::proofs::Meaning::found))]
pub fn free_port_is_found(
    nat: &Nat,
    mappings: &mut [Mapping],
    now: u64,
    event: Event,
    inside: &Ipv4Endpoint,
    remote: &Ipv4Endpoint,
) -> Option<u16>
    ensures { (port : ℕ) → IsFree nat.now mappings.old now (protocol_of event) port → result ≢ None }
{
    open(nat, mappings, now, event, inside, remote)
}

/// A packet of one inside endpoint changes no live mapping of another one, nor of another protocol. A reach is not of the
/// mapping, but of its place.
pub fn other_mappings_stay(
    nat: &Nat,
    mappings: &mut [Mapping],
    now: u64,
    event: Event,
    inside: &Ipv4Endpoint,
    remote: &Ipv4Endpoint,
) -> Option<u16>
    ensures { (protocol : Protocol) (port : ℕ) (other : Ipv4Endpoint)
        → MapsTo nat.now mappings.old now protocol port other
        → ¬ ((protocol ≡ protocol_of event) × (other ≡ inside.now))
        → mapping_at nat.now mappings.new protocol port
        ≡ with_reach (mapping_at nat.now mappings.new protocol port).reach (mapping_at nat.now mappings.old protocol port) }
{
    open(nat, mappings, now, event, inside, remote)
}

/// A packet of the inside endpoint restarts the time-out of the mapping's state (RFC 4787, REQ-6).
#[tactic(auto, using(crate::proofs::Meaning::all_restart))]
pub fn outbound_packets_restart_the_time_out(
    nat: &Nat,
    mappings: &mut [Mapping],
    now: u64,
    event: Event,
    inside: &Ipv4Endpoint,
    remote: &Ipv4Endpoint,
) -> Option<u16>
    ensures { IfSome result (λ port. let mapping = mapping_at nat.now mappings.new (protocol_of event) port in
        mapping.expires ≡ expiry now (timeout_of nat.now (protocol_of event) (state_of mapping.state))) }
{
    open(nat, mappings, now, event, inside, remote)
}

/// A packet from outside extends no mapping. It changes one only if it is a TCP segment with FIN or
/// RST, and the mapping has one remote endpoint. So the end of one connection does not end another
/// (RFC 5382, REQ-5, holds for each).
pub fn inbound_packets_extend_nothing(
    nat: &Nat,
    mappings: &mut [Mapping],
    now: u64,
    event: Event,
    port: u16,
    remote: &Ipv4Endpoint,
) -> Option<Ipv4Endpoint>
    ensures extends { (protocol : Protocol) (other : ℕ)
        → (mapping_at nat.now mappings.new protocol other).expires
        ≤ (mapping_at nat.now mappings.old protocol other).expires }
    ensures open { ends_connection event ≡ false → mappings.new ≡ mappings.old }
    ensures shared { (mapping_at nat.now mappings.old (protocol_of event) port).shared ≢ 0
        → mappings.new ≡ mappings.old }
{
    find(nat, mappings, now, event, port, remote)
}

/// An established mapping with several remote endpoints stays established: no segment shortens its
/// time-out.
pub fn shared_mapping_stays_established(event: Event) -> TcpState
    ensures { result ≡ TcpState.Established }
{
    TcpState::Established.next(true, event)
}

/// An outside port stands for one inside endpoint.
pub fn port_has_one_endpoint(nat: &Nat, mappings: &[Mapping], now: u64)
    ensures { (protocol : Protocol) (port : ℕ) (first second : Ipv4Endpoint)
        → MapsTo nat.now mappings.now now protocol port first
        → MapsTo nat.now mappings.now now protocol port second → first ≡ second }
{}

/// Two inside endpoints with live mappings of one protocol have different outside ports (RFC 4787, REQ-3).
#[tactic(auto, using(crate::proofs::Meaning::opened_apart))]
pub fn endpoints_have_ports_of_their_own(
    nat: &Nat,
    mappings: &mut [Mapping],
    now: u64,
    event: Event,
    inside: &Ipv4Endpoint,
    remote: &Ipv4Endpoint,
    other_event: Event,
    other: &Ipv4Endpoint,
    other_remote: &Ipv4Endpoint,
) -> Option<(u16, u16)>
    ensures { IfSome result (λ (port, second). protocol_of other_event ≡ protocol_of event
        → now < expiry now (shortest_timeout nat.now (protocol_of event)) → port ≡ second → other.now ≡ inside.now) }
{
    let port = open(nat, mappings, now, event, inside, remote)?;
    let second = open(nat, mappings, now, other_event, other, other_remote)?;
    Some((port, second))
}

/// The first row of an inside endpoint has at least 63 ports, or all if there are fewer, and no two ranks are one port.
#[tactic(auto, using(crate::proofs::Searches::row_apart, crate::proofs::Searches::row_long))]
pub fn candidates_differ(nat: &Nat, inside: &Ipv4Endpoint)
    ensures many { (len : ℕ) → min 63 (ports nat.now len) ≤ row_len (ports nat.now len) (step_of nat.now.key (ports nat.now len) inside.now) }
    ensures apart { (len first second : ℕ) → first < second → second < row_len (ports nat.now len) (step_of nat.now.key (ports nat.now len) inside.now)
        → port_at nat.now len inside.now first ≢ port_at nat.now len inside.now second }
{}

/// `open` has one possible outcome.
#[tactic(auto, using(crate::proofs::Meaning::port_once, crate::proofs::Meaning::room, crate::proofs::Meaning::table_once))]
pub fn opened_port_is_one(
    nat: &Nat,
    now: u64,
    event: Event,
    inside: &Ipv4Endpoint,
    remote: &Ipv4Endpoint,
)
    ensures port { (old new other : List Mapping) (port second : ℕ)
        → Opens nat.now old new now event inside.now remote.now port
        → Opens nat.now old other now event inside.now remote.now second → port ≡ second }
    ensures table { (old new other : List Mapping) (port second : ℕ)
        → Opens nat.now old new now event inside.now remote.now port
        → Opens nat.now old other now event inside.now remote.now second → new ≡ other }
    ensures full { (old new : List Mapping) (port : ℕ)
        → Opens nat.now old new now event inside.now remote.now port
        → ¬ IsFull nat.now old now (protocol_of event) inside.now }
{}

/// The invariant stays true while time passes.
pub fn table_stays_with_time(nat: &Nat, mappings: &[Mapping])
    ensures { (now later : ℕ) → now ≤ later → IsTable nat.now mappings.now now → IsTable nat.now mappings.now later }
{}

/// A free mapping is all zeros.
pub fn free_mapping_is_zero()
    ensures { Mapping.FREE ≡ free_mapping }
{}

/// A table whose mappings are all free satisfies the invariant, as one of zeros does.
pub fn free_mappings_are_a_table(nat: &Nat, mappings: &[Mapping], now: u64)
    ensures { All (λ m. m.expires ≡ 0) mappings.now → IsTable nat.now mappings.now now }
{}
