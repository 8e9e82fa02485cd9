//! The choice of a route (RFC 1812, section 5.2.4.3): the longest prefix that contains the address.

ghost use Rattle.std.specs.Prelude.{◌≡◌, ◌≤◌, ◌<◌, All, MatchOption};
ghost use Rattle.app_router.specs.Route.{IsBetter, IsChosen, Leads};
ghost use Rattle.ip_wire.specs.IpCidr.{block_prefix_len};

use ip_wire::{IpAddress, IpCidr};

/// Where packets to the addresses of a block go next: to a router, or without one to the destination
/// itself, which is on the link of the interface.
#[derive(Debug, Clone, Copy, PartialEq, Eq)]
pub struct Route {
    pub block: IpCidr,
    pub next_hop: Option<IpAddress>,
    pub interface: u16,
}

/// The route with the longest prefix whose block contains the address; of equal blocks the first. `None` if no block
/// contains it.
pub fn choose(routes: &[Route], addr: &IpAddress) -> Option<Route>
    ensures { MatchOption result (All (λ route. ¬ Leads addr.now route) routes.now) (IsChosen routes.now addr.now) }
{
    let mut chosen = None;
    for route in routes {
        if route.block.contains_addr(addr) {
            chosen = Some(longer(chosen, *route));
        }
    }
    chosen
}

// The later of two routes if its prefix is longer, else the former.
fn longer(chosen: Option<Route>, route: Route) -> Route
    ensures { MatchOption chosen (result ≡ route) (IsBetter route result) }
{
    match chosen {
        Some(former) if route.block.prefix_len() <= former.block.prefix_len() => former,
        _ => route,
    }
}
