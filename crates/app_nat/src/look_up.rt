//! Look-ups for packets that belong to no flow, as ICMP errors: they change no mapping.

ghost use Rattle.std.specs.Prelude.{◌≢◌, IfNone, IfSome};
ghost use Rattle.app_nat.specs.Table.{IsUnmapped, MapsTo};
ghost use Rattle.app_nat.specs.declared.mapping.Ipv4Endpoint.{Ipv4Endpoint};

use crate::choice::{has_port, kept_port};
use crate::mapping::{Ipv4Endpoint, Mapping};
use crate::nat::Nat;
use crate::state::Protocol;

/// The inside endpoint of an outside port. `None` if the port has no live mapping of this protocol.
pub fn inside_of(
    nat: &Nat,
    mappings: &[Mapping],
    now: u64,
    protocol: Protocol,
    port: u16,
) -> Option<Ipv4Endpoint>
    ensures found { IfSome result (MapsTo nat.now mappings.now now protocol port) }
    ensures none { IfNone result ((inside : Ipv4Endpoint) → ¬ MapsTo nat.now mappings.now now protocol port inside) }
{
    let port = usize::from(port);
    if !has_port(nat, mappings, port) {
        return None;
    }
    let mapping = &mappings[nat.place(mappings, protocol, port)];
    if mapping.expires <= now {
        return None;
    }
    Some(mapping.inside())
}

/// The outside port of an inside endpoint. `None` if the endpoint has no live mapping of this protocol.
pub fn port_of(
    nat: &Nat,
    mappings: &[Mapping],
    now: u64,
    protocol: Protocol,
    inside: &Ipv4Endpoint,
) -> Option<u16>
    ensures found { IfSome result (λ port. MapsTo nat.now mappings.now now protocol port inside.now) }
    ensures port { IfSome result (λ port. port ≢ 0) }
    ensures none { IfNone result (IsUnmapped nat.now mappings.now now protocol inside.now) }
{
    let port = kept_port(nat, mappings, now, protocol, inside)?;
    Some(port as u16)
}
