//! What `shrink_reach` means for a NAT.

ghost use Rattle.std.specs.Prelude.{◌≡◌, List};
ghost use Rattle.app_nat.specs.Reach.{Shrinks};
ghost use Rattle.app_nat.specs.Table.{IsTable};
ghost use Rattle.app_nat.specs.declared.mapping.Mapping.{Mapping};

use crate::look_up::port_of;
use crate::mapping::{Ipv4Endpoint, Mapping};
use crate::nat::Nat;
use crate::reach::shrink_reach;
use crate::state::Protocol;

/// Each inside endpoint has the same outside port as before.
pub fn outside_ports_stay(
    nat: &Nat,
    mappings: &mut [Mapping],
    now: u64,
    protocol: Protocol,
    inside: &Ipv4Endpoint,
) -> (Option<u16>, Option<u16>)
    ensures { IsTable nat.now mappings.old now → result.0 ≡ result.1 }
{
    let before = port_of(nat, mappings, now, protocol, inside);
    shrink_reach(nat, mappings, now);
    (before, port_of(nat, mappings, now, protocol, inside))
}

/// `shrink_reach` has one possible outcome.
pub fn shrunk_table_is_one(nat: &Nat, now: u64)
    ensures { (old new other : List Mapping) → Shrinks nat.now old new now → Shrinks nat.now old other now → new ≡ other }
{}
