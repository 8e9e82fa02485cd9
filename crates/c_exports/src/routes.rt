//! Routes.

ghost use Rattle.std.specs.Prelude.{List};
ghost use Rattle.c_routing.specs.Lengths.{in_bounds};
ghost use Rattle.c_routing.specs.Routes.{Chooses, Indexes, IsIndexOf, IsTableOf, MakesTable};
ghost use Rattle.c_routing.specs.Sources.{ChecksAddr};
ghost use Rattle.c_routing.specs.declared.routes.Route.{Route};

use app_router::index::Node;
use c_routing::{
    Route, check_addr, check_addr_by_table, choose_by_table, choose_route, index_routes, make_table,
};
use c_structs::Addr;

/// Writes the index of a list of routes, and returns their number. Fails if a block is no block, if there is no room, or
/// if a list is too long.
#[unsafe(no_mangle)]
pub extern "C" fn lk_index_routes(routes: &[Route], nodes: &mut [Node]) -> isize
    ensures { Indexes routes.now nodes.old nodes.new result }
{
    index_routes(routes, nodes)
}

/// Writes the table of an index, and returns the number of its cells. Fails if there is no room, or if a list is too long.
#[unsafe(no_mangle)]
pub extern "C" fn lk_make_route_table(nodes: &[Node], cells: &mut [u64]) -> isize
    ensures { MakesTable nodes.now cells.old cells.new result }
{
    make_table(nodes, cells)
}

/// The place of the route with the longest prefix that contains an address, or -1 if there is none. Of equal blocks
/// the first route counts.
#[unsafe(no_mangle)]
pub extern "C" fn lk_choose_route(nodes: &[Node], addr: &Addr) -> isize
    ensures { (routes : List Route) → IsIndexOf routes (in_bounds nodes.now) → Chooses routes addr.now result }
{
    choose_route(nodes, addr)
}

/// The place of the route with the longest prefix that contains an address, by a table and its index; -1 if there is
/// none.
#[unsafe(no_mangle)]
pub extern "C" fn lk_choose_route_by_table(nodes: &[Node], cells: &[u64], addr: &Addr) -> isize
    ensures { (routes : List Route) → IsTableOf routes (in_bounds nodes.now) (in_bounds cells.now) → Chooses routes addr.now result }
{
    choose_by_table(nodes, cells, addr)
}

/// Whether a router may accept a packet from an address that came in by an interface. Returns 0, or why it may not.
#[unsafe(no_mangle)]
pub extern "C" fn lk_check_source(
    routes: &[Route],
    nodes: &[Node],
    src: &Addr,
    interface: u16,
) -> i32
    ensures { IsIndexOf (in_bounds routes.now) (in_bounds nodes.now) → ChecksAddr (in_bounds routes.now) src.now interface result }
{
    check_addr(routes, nodes, src, interface)
}

/// Whether a router may accept a packet from an address that came in by an interface, by a table of the routes and
/// its index. Returns 0, or why it may not.
#[unsafe(no_mangle)]
pub extern "C" fn lk_check_source_by_table(
    routes: &[Route],
    nodes: &[Node],
    cells: &[u64],
    src: &Addr,
    interface: u16,
) -> i32
    ensures { IsTableOf (in_bounds routes.now) (in_bounds nodes.now) (in_bounds cells.now) → ChecksAddr (in_bounds routes.now) src.now interface result }
{
    check_addr_by_table(routes, nodes, cells, src, interface)
}
