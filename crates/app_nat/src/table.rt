//! The table of mappings.

ghost use Rattle.std.specs.Prelude.{◌≡◌, ◌≢◌, IfNone, IfSome, length};
ghost use Rattle.app_nat.specs.Mapping.{inside_of};
ghost use Rattle.app_nat.specs.State.{protocol_of};
ghost use Rattle.app_nat.specs.Table.{Finds, HasPort, IsFull, IsTable, MapsTo, Opens, noted, ports, start_of, step_of};
ghost use Rattle.app_nat.specs.declared.mapping.Ipv4Endpoint.{Ipv4Endpoint};

use crate::choice::{Choice, choose, has_port};
use crate::mapping::{Ipv4Endpoint, Mapping};
use crate::nat::Nat;
use crate::state::{Event, Protocol};

/// The outside port of an inside endpoint that sends a packet to a remote endpoint. Makes a mapping
/// if the endpoint has none: at its own port if that is free, else at another one. Restarts the
/// time-out. `None` if no port is free.
pub fn open(
    nat: &Nat,
    mappings: &mut [Mapping],
    now: u64,
    event: Event,
    inside: &Ipv4Endpoint,
    remote: &Ipv4Endpoint,
) -> Option<u16>
    ensures opened { IfSome result (Opens nat.now mappings.old mappings.new now event inside.now remote.now) }
    ensures full { IfNone result (IsFull nat.now mappings.old now (protocol_of event) inside.now) }
    ensures unchanged { IfNone result (mappings.new ≡ mappings.old) }
    ensures port { IfSome result (λ port. port ≢ 0) }
    ensures keeps { IsTable nat.now mappings.old now → IsTable nat.now mappings.new now }
{
    let protocol = event.protocol();
    match choose(nat, mappings, now, protocol, inside) {
        Choice::Kept(port) => {
            let place = nat.place(mappings, protocol, port);
            mappings[place] = mappings[place].after_outbound(nat, now, event, remote);
            Some(port as u16)
        }
        Choice::Made(port, start, step) => {
            let place = nat.place(mappings, protocol, port);
            note(nat, mappings, protocol, inside, port, start, step);
            let new = Mapping::new(inside, remote, mappings[place].reach);
            mappings[place] = new.after_outbound(nat, now, event, remote);
            Some(port as u16)
        }
        Choice::Full => None,
    }
}

// Notes at the home of an inside endpoint in which row it has this outside port, if it is not its own port.
pub(crate) fn note(
    nat: &Nat,
    mappings: &mut [Mapping],
    protocol: Protocol,
    inside: &Ipv4Endpoint,
    port: usize,
    start: usize,
    step: usize,
)
    requires port { HasPort nat.now (length mappings.old) port }
    requires start { start ≡ start_of nat.now.key (ports nat.now (length mappings.old)) inside.now }
    requires step { step ≡ step_of nat.now.key (ports nat.now (length mappings.old)) inside.now }
    ensures noted { mappings.new ≡ noted nat.now mappings.old protocol inside.now port }
    ensures length { length mappings.new ≡ length mappings.old }
{
    if port == usize::from(inside.port) {
        return;
    }
    let count = nat.ports(mappings);
    let first = usize::from(nat.first_port);
    let row = (port - first + (count - start)) % count.max(1) % step;
    let home = nat.place(mappings, protocol, first + start);
    mappings[home].reach = mappings[home].reach.max(row as u16);
}

/// The inside endpoint of an outside port to which a remote endpoint sends a packet. `None` if the
/// port has no live mapping. Does not restart the time-out.
#[inline(always)]
pub fn find(
    nat: &Nat,
    mappings: &mut [Mapping],
    now: u64,
    event: Event,
    port: u16,
    remote: &Ipv4Endpoint,
) -> Option<Ipv4Endpoint>
    ensures found { IfSome result (Finds nat.now mappings.old mappings.new now event port remote.now) }
    ensures none { IfNone result ((inside : Ipv4Endpoint)
        → ¬ MapsTo nat.now mappings.old now (protocol_of event) port inside) }
    ensures unchanged { IfNone result (mappings.new ≡ mappings.old) }
    ensures keeps { IsTable nat.now mappings.old now → IsTable nat.now mappings.new now }
{
    let port = usize::from(port);
    if !has_port(nat, mappings, port) {
        return None;
    }
    let place = nat.place(mappings, event.protocol(), port);
    let mapping = mappings[place];
    if mapping.expires <= now {
        return None;
    }
    mappings[place].receive(nat, now, event, remote);
    Some(mapping.inside())
}
