//! The calls with a table of routes.

ghost use Rattle.std.specs.Prelude.{◌≡◌, List, length, map};
ghost use Rattle.app_router.specs.Index.{IsIndex, block_of};
ghost use Rattle.app_router.specs.Table.{IsTable};
ghost use Rattle.ip_wire.specs.declared.IpCidr.{IpCidr};

use app_router::index::{self, Node};
use app_router::route::{self, Route};
use app_router::source::{SourceFault, check_source_by_index, check_source_by_table};
use app_router::table;
use ip_wire::{IpAddress, IpCidr};

/// A table leads to the same route as its index.
pub fn choose_by_both(
    routes: &[Route],
    nodes: &[Node],
    cells: &[u64],
    addr: &IpAddress,
) -> (Option<Route>, Option<Route>)
    requires index { IsIndex (map block_of routes.now) nodes.now }
    requires table { IsTable (map block_of routes.now) cells.now }
    ensures { result.0 ≡ result.1 }
{
    (
        table::choose(routes, nodes, cells, addr),
        index::choose(routes, nodes, addr),
    )
}

/// A table has the same place for an address as its index.
pub fn find_by_both(nodes: &[Node], cells: &[u64], addr: &IpAddress) -> (Option<u32>, Option<u32>)
    ensures { (blocks : List IpCidr) → IsIndex blocks nodes.now → IsTable blocks cells.now → result.0 ≡ result.1 }
{
    (table::find(nodes, cells, addr), index::find(nodes, addr))
}

/// All tables of an index have the same place for an address.
pub fn find_by_two_tables(
    nodes: &[Node],
    cells: &[u64],
    others: &[u64],
    addr: &IpAddress,
) -> (Option<u32>, Option<u32>)
    ensures { (blocks : List IpCidr) → IsIndex blocks nodes.now → IsTable blocks cells.now → IsTable blocks others.now
        → result.0 ≡ result.1 }
{
    (
        table::find(nodes, cells, addr),
        table::find(nodes, others, addr),
    )
}

/// From any number of nodes on, the next place is the one that the index has for the address.
pub fn find_next_by_any_count(
    nodes: &[Node],
    count: &mut usize,
    addr: &IpAddress,
) -> (Option<u32>, Option<u32>)
    ensures { (blocks : List IpCidr) → IsIndex blocks nodes.now → result.0 ≡ result.1 }
{
    (
        index::find_next(nodes, count, addr),
        index::find(nodes, addr),
    )
}

/// The table of the most routes leads to the longest prefix.
pub fn table_leads(
    routes: &[Route],
    nodes: &mut [Node],
    cells: &mut [u64],
    addr: &IpAddress,
) -> (Option<Route>, Option<Route>)
    requires nodes { length nodes.old ≡ length routes.now }
    requires routes { length routes.now ≡ 67108863 }
    requires cells { length cells.old ≡ 335544320 }
    ensures { result.0 ≡ result.1 }
{
    index::index(routes, nodes);
    table::fill(nodes, cells);
    (
        table::choose(routes, nodes, cells, addr),
        route::choose(routes, addr),
    )
}

/// The route at the place that an index has for an address is the one that it leads to.
pub fn route_at_the_place(
    routes: &[Route],
    nodes: &[Node],
    addr: &IpAddress,
) -> (Option<Route>, Option<Route>)
    requires { IsIndex (map block_of routes.now) nodes.now }
    ensures { result.0 ≡ result.1 }
{
    let found = index::find(nodes, addr);
    (
        index::route_at(routes, found),
        index::choose(routes, nodes, addr),
    )
}

/// A source has one fault, or none, by a table and by its index.
pub fn check_source_by_both(
    routes: &[Route],
    nodes: &[Node],
    cells: &[u64],
    src: &IpAddress,
    interface: u16,
) -> (Option<SourceFault>, Option<SourceFault>)
    requires index { IsIndex (map block_of routes.now) nodes.now }
    requires table { IsTable (map block_of routes.now) cells.now }
    ensures { result.0 ≡ result.1 }
{
    (
        check_source_by_table(routes, nodes, cells, src, interface),
        check_source_by_index(routes, nodes, src, interface),
    )
}
