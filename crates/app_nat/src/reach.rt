//! The reach of each place, which says in how many rows endpoints are searched for.

ghost use Rattle.std.specs.Prelude.{ℕ, ◌≡◌, length};
ghost use Rattle.app_nat.specs.Reach.{HasMappings, Raises, Shrinks, at_place};
ghost use Rattle.app_nat.specs.Table.{HasPort, IsTable};

use crate::mapping::Mapping;
use crate::nat::Nat;
use crate::state::Protocol;
use crate::table::note;

/// Gives each place its least reach: the last row in which an endpoint whose home is there has a live mapping. Searches
/// read no more rows then. It reads all mappings, and changes nothing else.
pub fn shrink_reach(nat: &Nat, mappings: &mut [Mapping], now: u64)
    ensures shrinks { Shrinks nat.now mappings.old mappings.new now }
    ensures keeps { IsTable nat.now mappings.old now → IsTable nat.now mappings.new now }
{
    clear(mappings);
    raise(nat, mappings, now, Protocol::Udp);
    raise(nat, mappings, now, Protocol::Tcp);
    raise(nat, mappings, now, Protocol::Icmp);
}

// Sets each reach to 0.
fn clear(mappings: &mut [Mapping])
    ensures mappings { HasMappings mappings.old mappings.new }
    ensures reach { (place : ℕ) → (at_place mappings.new place).reach ≡ 0 }
{
    for mapping in mappings.iter_mut() {
        mapping.reach = 0;
    }
}

// Raises the reach of each home to the rows of the live mappings of a protocol.
fn raise(nat: &Nat, mappings: &mut [Mapping], now: u64, protocol: Protocol)
    ensures { Raises nat.now mappings.old mappings.new now (λ p port. p ≡ protocol) }
{
    let count = nat.ports(mappings);
    for index in 0..count {
        raise_by(
            nat,
            mappings,
            now,
            protocol,
            usize::from(nat.first_port) + index,
        );
    }
}

// Raises the reach of a home to the row of the mapping at this port, if it is live and not at the own port of its
// endpoint.
fn raise_by(nat: &Nat, mappings: &mut [Mapping], now: u64, protocol: Protocol, port: usize)
    requires { HasPort nat.now (length mappings.old) port }
    ensures { Raises nat.now mappings.old mappings.new now (λ p at. (p ≡ protocol) × (at ≡ port)) }
{
    let mapping = mappings[nat.place(mappings, protocol, port)];
    if now < mapping.expires && port != usize::from(mapping.inside_port) {
        let inside = mapping.inside();
        let (start, step) = nat.spread(nat.ports(mappings), &inside);
        note(nat, mappings, protocol, &inside, port, start, step);
    }
}
