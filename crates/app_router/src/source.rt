//! The sources that a router accepts (RFC 1812, sections 5.3.7 and 5.3.8; RFC 3704, section 2.2).

ghost use Rattle.std.specs.Prelude.{◌↔◌, IsTrue, Option, ℕ, map};
ghost use Rattle.app_router.specs.Index.{IsIndex, block_of};
ghost use Rattle.app_router.specs.Source.{ChecksSource, IsBack, IsMartian};
ghost use Rattle.app_router.specs.Table.{IsTable};

use crate::index::{Node, choose};
use crate::route::Route;
use crate::table;
use app_host::{is_no_host, is_this_host};
use ip_wire::IpAddress;

/// Why a router drops a packet for its source address. If several reasons apply, it is the first.
#[derive(Debug, Clone, Copy, PartialEq, Eq)]
pub enum SourceFault {
    /// No host may send from this address.
    Martian,
    /// There is no route back.
    NoRoute,
    /// The route back leads to another interface.
    OtherInterface,
}

/// Returns `true` for an address from which no packet may come: in 0.0.0.0/8, 127.0.0.0/8, 224.0.0.0/4 or
/// 240.0.0.0/4 (RFC 1122, section 3.2.1.3; RFC 1812, section 5.3.7), `::`, `::1`, in ff00::/8 or
/// ::ffff:0:0/96 (RFC 4291). A link-local address is none of these: a router accepts packets from it, but
/// forwards none (RFC 3927, section 7; RFC 4291, section 2.5.6).
pub fn is_martian(addr: &IpAddress) -> bool
    ensures { IsTrue result ↔ IsMartian addr.now }
{
    is_this_host(addr) || is_no_host(addr)
}

/// Whether a router accepts a packet from `src` that came in by `interface`, if the route back leads to
/// `back` (strict reverse path forwarding, RFC 3704, section 2.2). `None`: it does.
pub fn check_source(src: &IpAddress, interface: u16, back: Option<u16>) -> Option<SourceFault>
    ensures { ChecksSource src.now interface back result }
{
    if is_martian(src) {
        return Some(SourceFault::Martian);
    }
    match back {
        None => Some(SourceFault::NoRoute),
        Some(back) if back != interface => Some(SourceFault::OtherInterface),
        Some(_) => None,
    }
}

/// Whether a router accepts a packet from `src` that came in by `interface`, as `check_source` does. The route back
/// is found by an index. `None`: it does.
pub fn check_source_by_index(
    routes: &[Route],
    nodes: &[Node],
    src: &IpAddress,
    interface: u16,
) -> Option<SourceFault>
    ensures { IsIndex (map block_of routes.now) nodes.now
        → (back : Option ℕ) × IsBack routes.now src.now back × ChecksSource src.now interface back result }
{
    let back = match choose(routes, nodes, src) {
        Some(route) => Some(route.interface),
        None => None,
    };
    check_source(src, interface, back)
}

/// Whether a router accepts a packet from `src` that came in by `interface`, as `check_source` does. The route back
/// is found by a table of the routes and its index. `None`: it does.
pub fn check_source_by_table(
    routes: &[Route],
    nodes: &[Node],
    cells: &[u64],
    src: &IpAddress,
    interface: u16,
) -> Option<SourceFault>
    ensures { IsIndex (map block_of routes.now) nodes.now → IsTable (map block_of routes.now) cells.now
        → (back : Option ℕ) × IsBack routes.now src.now back × ChecksSource src.now interface back result }
{
    let back = match table::choose(routes, nodes, cells, src) {
        Some(route) => Some(route.interface),
        None => None,
    };
    check_source(src, interface, back)
}
