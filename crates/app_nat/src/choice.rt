//! The search for the outside port of an inside endpoint.

ghost use Rattle.std.specs.Prelude.{◌≡◌, ◌+◌, ◌*◌, ◌%◌, ◌<◌, ◌≤◌, ◌↔◌, IfNone, IfSome, IsTrue, length, max, min};
ghost use Rattle.app_nat.specs.Table.{Chosen, HasPort, IsFirstMapped, IsFree, IsUnmapped, MapsTo, Searches, mapping_at, port_after, port_in_rows, ports, row_len};

use crate::mapping::{Ipv4Endpoint, Mapping};
use crate::nat::Nat;
use crate::state::Protocol;

// The outside port of an inside endpoint.
#[derive(Clone, Copy)]
pub(crate) enum Choice {
    // The endpoint has a live mapping at this port.
    Kept(usize),
    // It has none, and this port is free. Then where its first row begins, and the step.
    Made(usize, usize, usize),
    // It has none, and no port is free.
    Full,
}

// Returns `true` for an outside port.
pub(crate) fn has_port(nat: &Nat, mappings: &[Mapping], port: usize) -> bool
    ensures { IsTrue result ↔ HasPort nat.now (length mappings.now) port }
{
    let first = usize::from(nat.first_port);
    first <= port && port < first + nat.ports(mappings)
}

// Returns `true` if the outside port has a live mapping of this inside endpoint.
fn maps_to(
    nat: &Nat,
    mappings: &[Mapping],
    now: u64,
    protocol: Protocol,
    port: usize,
    inside: &Ipv4Endpoint,
) -> bool
    ensures { IsTrue result ↔ MapsTo nat.now mappings.now now protocol port inside.now }
{
    has_port(nat, mappings, port) && leads_to(nat, mappings, now, protocol, port, inside)
}

// Returns `true` if the mapping of this outside port is live, and of this inside endpoint.
#[inline(always)]
fn leads_to(
    nat: &Nat,
    mappings: &[Mapping],
    now: u64,
    protocol: Protocol,
    port: usize,
    inside: &Ipv4Endpoint,
) -> bool
    requires { HasPort nat.now (length mappings.now) port }
    ensures { IsTrue result ↔ MapsTo nat.now mappings.now now protocol port inside.now }
{
    let mapping = &mappings[nat.place(mappings, protocol, port)];
    mapping.is_of(inside) && now < mapping.expires
}

// Returns `true` if the outside port has no live mapping.
fn is_free(nat: &Nat, mappings: &[Mapping], now: u64, protocol: Protocol, port: usize) -> bool
    ensures { IsTrue result ↔ IsFree nat.now mappings.now now protocol port }
{
    has_port(nat, mappings, port) && has_expired(nat, mappings, now, protocol, port)
}

// Returns `true` if the mapping of this outside port is not live.
#[inline(always)]
fn has_expired(nat: &Nat, mappings: &[Mapping], now: u64, protocol: Protocol, port: usize) -> bool
    requires { HasPort nat.now (length mappings.now) port }
    ensures { IsTrue result ↔ IsFree nat.now mappings.now now protocol port }
{
    mappings[nat.place(mappings, protocol, port)].expires <= now
}

// The first port of a row that has a live mapping of this inside endpoint.
#[inline(always)]
fn mapped_in_row(
    nat: &Nat,
    mappings: &[Mapping],
    now: u64,
    protocol: Protocol,
    start: usize,
    step: usize,
    inside: &Ipv4Endpoint,
) -> Option<usize>
    requires start { start < max 1 (ports nat.now (length mappings.now)) }
    requires least { 0 < step }
    requires step { step ≤ max 1 (ports nat.now (length mappings.now)) }
    ensures { Searches (λ port. MapsTo nat.now mappings.now now protocol port inside.now)
        (port_after nat.now (ports nat.now (length mappings.now)) start step) (row_len (ports nat.now (length mappings.now)) step) result }
{
    let count = nat.ports(mappings);
    let mut index = start;
    for rank in 0..count.div_ceil(step) {
        let port = usize::from(nat.first_port) + index;
        if leads_to(nat, mappings, now, protocol, port, inside) {
            return Some(port);
        }
        index = next(index, step, count);
    }
    None
}

// The first port of so many rows that has a live mapping of this inside endpoint.
fn mapped_port(
    nat: &Nat,
    mappings: &[Mapping],
    now: u64,
    protocol: Protocol,
    start: usize,
    step: usize,
    rows: usize,
    inside: &Ipv4Endpoint,
) -> Option<usize>
    requires start { start < max 1 (ports nat.now (length mappings.now)) }
    requires least { 0 < step }
    requires step { step ≤ max 1 (ports nat.now (length mappings.now)) }
    ensures { Searches (λ port. MapsTo nat.now mappings.now now protocol port inside.now)
        (port_in_rows nat.now (ports nat.now (length mappings.now)) start step) (rows * row_len (ports nat.now (length mappings.now)) step) result }
{
    let mut first = start;
    for row in 0..rows {
        if let Some(port) = mapped_in_row(nat, mappings, now, protocol, first, step, inside) {
            return Some(port);
        }
        first = next(first, 1, nat.ports(mappings));
    }
    None
}

// The first port of a row that is free.
#[inline(always)]
fn free_in_row(
    nat: &Nat,
    mappings: &[Mapping],
    now: u64,
    protocol: Protocol,
    start: usize,
    step: usize,
) -> Option<usize>
    requires start { start < max 1 (ports nat.now (length mappings.now)) }
    requires least { 0 < step }
    requires step { step ≤ max 1 (ports nat.now (length mappings.now)) }
    ensures { Searches (IsFree nat.now mappings.now now protocol)
        (port_after nat.now (ports nat.now (length mappings.now)) start step) (row_len (ports nat.now (length mappings.now)) step) result }
{
    let count = nat.ports(mappings);
    let mut index = start;
    for rank in 0..count.div_ceil(step) {
        let port = usize::from(nat.first_port) + index;
        if has_expired(nat, mappings, now, protocol, port) {
            return Some(port);
        }
        index = next(index, step, count);
    }
    None
}

// The first port of all rows that is free.
fn free_port(
    nat: &Nat,
    mappings: &[Mapping],
    now: u64,
    protocol: Protocol,
    start: usize,
    step: usize,
) -> Option<usize>
    requires start { start < max 1 (ports nat.now (length mappings.now)) }
    requires least { 0 < step }
    requires step { step ≤ max 1 (ports nat.now (length mappings.now)) }
    ensures { Searches (IsFree nat.now mappings.now now protocol)
        (port_in_rows nat.now (ports nat.now (length mappings.now)) start step) (step * row_len (ports nat.now (length mappings.now)) step) result }
{
    let mut first = start;
    for row in 0..step {
        if let Some(port) = free_in_row(nat, mappings, now, protocol, first, step) {
            return Some(port);
        }
        first = next(first, 1, nat.ports(mappings));
    }
    None
}

// The index of the port that is a step after that of this index.
#[inline(always)]
fn next(index: usize, step: usize, count: usize) -> usize
    requires index { index < max 1 count }
    requires step { step ≤ max 1 count }
    requires count { count ≤ 65536 }
    ensures { result ≡ (index + step) % max 1 count }
{
    let next = index + step;
    if next < count.max(1) {
        next
    } else {
        next - count.max(1)
    }
}

// The rows in which an endpoint is searched for whose first row begins here.
fn rows(nat: &Nat, mappings: &[Mapping], protocol: Protocol, start: usize, step: usize) -> usize
    requires start { start < max 1 (ports nat.now (length mappings.now)) }
    requires least { 0 < step }
    ensures { result ≡ min (1 + (mapping_at nat.now mappings.now protocol (nat.now.first_port + start)).reach) step }
{
    let home = nat.place(mappings, protocol, usize::from(nat.first_port) + start);
    match mappings.get(home) {
        Some(mapping) => 1 + usize::from(mapping.reach).min(step - 1),
        None => 1,
    }
}

// The outside port of the first live mapping of an inside endpoint.
#[inline(always)]
pub(crate) fn kept_port(
    nat: &Nat,
    mappings: &[Mapping],
    now: u64,
    protocol: Protocol,
    inside: &Ipv4Endpoint,
) -> Option<usize>
    ensures some { IfSome result (IsFirstMapped nat.now mappings.now now protocol inside.now) }
    ensures none { IfNone result (IsUnmapped nat.now mappings.now now protocol inside.now) }
{
    let own = usize::from(inside.port);
    if maps_to(nat, mappings, now, protocol, own, inside) {
        return Some(own);
    }
    let (start, step) = nat.spread(nat.ports(mappings), inside);
    let rows = rows(nat, mappings, protocol, start, step);
    mapped_port(nat, mappings, now, protocol, start, step, rows, inside)
}

// The outside port of an inside endpoint.
#[inline(always)]
pub(crate) fn choose(
    nat: &Nat,
    mappings: &[Mapping],
    now: u64,
    protocol: Protocol,
    inside: &Ipv4Endpoint,
) -> Choice
    ensures { Chosen nat.now mappings.now now protocol inside.now result }
{
    let own = usize::from(inside.port);
    if maps_to(nat, mappings, now, protocol, own, inside) {
        return Choice::Kept(own);
    }
    let (start, step) = nat.spread(nat.ports(mappings), inside);
    let rows = rows(nat, mappings, protocol, start, step);
    if let Some(port) = mapped_port(nat, mappings, now, protocol, start, step, rows, inside) {
        return Choice::Kept(port);
    }
    if is_free(nat, mappings, now, protocol, own) {
        return Choice::Made(own, start, step);
    }
    match free_port(nat, mappings, now, protocol, start, step) {
        Some(port) => Choice::Made(port, start, step),
        None => Choice::Full,
    }
}
