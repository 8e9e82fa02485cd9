//! The sources that a router accepts.

ghost use Rattle.std.specs.Prelude.{◌≡◌, pos};
ghost use Rattle.c_routing.specs.Lengths.{in_bounds};
ghost use Rattle.c_routing.specs.Rejections.{source_code};
ghost use Rattle.c_routing.specs.Routes.{Chooses, IsIndexOf, IsTableOf};
ghost use Rattle.c_routing.specs.Sources.{ChecksAddr, IsBack};
ghost use Rattle.c_structs.specs.declared.types.Addr.{Addr};

use crate::lengths::in_bounds;
use crate::rejections::Rejection;
use crate::routes::{Route, choose_by_table, choose_route};
use app_router::index::Node;
use app_router::source::{SourceFault, check_source};
use c_structs::Addr;

/// Whether a router accepts a packet from this address that came in by an interface. Returns 0, or the number of the
/// reason.
pub fn check_addr(routes: &[Route], nodes: &[Node], src: &Addr, interface: u16) -> i32
    ensures { IsIndexOf (in_bounds routes.now) (in_bounds nodes.now) → ChecksAddr (in_bounds routes.now) src.now interface result }
{
    match src.ip() {
        Some(addr) => {
            let back = back(in_bounds(routes), choose_route(nodes, src));
            code(check_source(&addr, interface, back))
        }
        None => Rejection::Martian.code(),
    }
}

/// The same number, by a table of the routes and its index.
pub fn check_addr_by_table(
    routes: &[Route],
    nodes: &[Node],
    cells: &[u64],
    src: &Addr,
    interface: u16,
) -> i32
    ensures { IsTableOf (in_bounds routes.now) (in_bounds nodes.now) (in_bounds cells.now) → ChecksAddr (in_bounds routes.now) src.now interface result }
{
    match src.ip() {
        Some(addr) => {
            let back = back(in_bounds(routes), choose_by_table(nodes, cells, src));
            code(check_source(&addr, interface, back))
        }
        None => Rejection::Martian.code(),
    }
}

// The interface of the route that was chosen for an address.
fn back(routes: &[Route], place: isize) -> Option<u16>
    ensures { (addr : Addr) → Chooses routes.now addr place → IsBack routes.now addr result }
{
    let place = usize::try_from(place).ok()?;
    match routes.get(place) {
        Some(route) => Some(route.interface),
        None => None,
    }
}

// The number of a fault, or 0.
fn code(fault: Option<SourceFault>) -> i32
    ensures { result ≡ pos (source_code fault) }
{
    match fault {
        Some(fault) => Rejection::of_source(fault).code(),
        None => Rejection::NotRejected.code(),
    }
}
