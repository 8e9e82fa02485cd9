//! The calls with routes.

ghost use Rattle.std.specs.Prelude.{◌≡◌, ◌≤◌, ◌<◌, drop, length, negsuc, ℕ};
ghost use Rattle.c_routing.specs.Lengths.{in_bounds};
ghost use Rattle.c_routing.specs.Routes.{IsIndexOf, IsTableOf, table_len};

use app_router::index::Node;
use c_exports::routes::{
    lk_check_source, lk_check_source_by_table, lk_choose_route, lk_choose_route_by_table,
    lk_index_routes, lk_make_route_table,
};
use c_routing::Route;
use c_structs::Addr;

/// Routes have an index, or none for one reason. Nothing is written after the index.
#[tactic(auto, using(crate::proofs::RoutesOnce::indexes_once))]
pub fn index_routes_once(routes: &[Route], nodes: &mut [Node], other: &mut [Node]) -> (isize, isize)
    requires { nodes.old ≡ other.old }
    ensures returned { result.0 ≡ result.1 }
    ensures failed { (n : ℕ) → result.0 ≡ negsuc n → nodes.new ≡ other.new }
    ensures following { drop (length routes.now) nodes.new ≡ drop (length routes.now) other.new }
{
    (
        lk_index_routes(routes, nodes),
        lk_index_routes(routes, other),
    )
}

/// By the indexes of two calls the same route is chosen.
#[tactic(auto, using(crate::proofs::RoutesOnce::chooses_once, crate::proofs::RoutesOnce::filled))]
pub fn choose_by_index(
    routes: &[Route],
    nodes: &mut [Node],
    other: &mut [Node],
    addr: &Addr,
) -> (isize, isize)
    requires nodes { length nodes.old ≡ length routes.now }
    requires other { length other.old ≡ length routes.now }
    requires usable { length routes.now ≤ 1099511627775 }
    ensures { result.0 ≡ result.1 }
{
    if lk_index_routes(routes, nodes) < 0 || lk_index_routes(routes, other) < 0 {
        return (0, 0);
    }
    (lk_choose_route(nodes, addr), lk_choose_route(other, addr))
}

/// By each index of the same routes the same route is chosen.
pub fn choose_route_once(
    routes: &[Route],
    nodes: &[Node],
    other: &[Node],
    addr: &Addr,
) -> (isize, isize)
    requires first { IsIndexOf routes.now (in_bounds nodes.now) }
    requires second { IsIndexOf routes.now (in_bounds other.now) }
    ensures { result.0 ≡ result.1 }
{
    (lk_choose_route(nodes, addr), lk_choose_route(other, addr))
}

/// By each index of the same routes a source has the same fault.
pub fn check_source_once(
    routes: &[Route],
    nodes: &[Node],
    other: &[Node],
    src: &Addr,
    interface: u16,
) -> (i32, i32)
    requires first { IsIndexOf (in_bounds routes.now) (in_bounds nodes.now) }
    requires second { IsIndexOf (in_bounds routes.now) (in_bounds other.now) }
    ensures { result.0 ≡ result.1 }
{
    (
        lk_check_source(routes, nodes, src, interface),
        lk_check_source(routes, other, src, interface),
    )
}

/// An index has a table, or none for one reason. Nothing is written after the table.
#[tactic(auto, using(crate::proofs::RouteTablesOnce::makes_once))]
pub fn make_route_table_once(nodes: &[Node], cells: &mut [u64], other: &mut [u64]) -> (isize, isize)
    requires { cells.old ≡ other.old }
    ensures returned { result.0 ≡ result.1 }
    ensures failed { (n : ℕ) → result.0 ≡ negsuc n → cells.new ≡ other.new }
    ensures following { drop (table_len nodes.now) cells.new ≡ drop (table_len nodes.now) other.new }
{
    (
        lk_make_route_table(nodes, cells),
        lk_make_route_table(nodes, other),
    )
}

/// By a table that was made the same route is chosen as by its index.
pub fn choose_by_made(
    routes: &[Route],
    nodes: &[Node],
    cells: &mut [u64],
    addr: &Addr,
) -> (isize, isize)
    requires index { IsIndexOf routes.now nodes.now }
    requires few { length nodes.now < 67108864 }
    requires room { table_len nodes.now ≤ length cells.old }
    requires usable { length cells.old ≤ 1099511627775 }
    ensures { result.0 ≡ result.1 }
{
    lk_make_route_table(nodes, cells);
    (
        lk_choose_route_by_table(nodes, cells, addr),
        lk_choose_route(nodes, addr),
    )
}

/// By each table and index of the same routes the same route is chosen.
pub fn choose_by_table_once(
    routes: &[Route],
    nodes: &[Node],
    cells: &[u64],
    other: &[Node],
    addr: &Addr,
) -> (isize, isize)
    requires first { IsTableOf routes.now (in_bounds nodes.now) (in_bounds cells.now) }
    requires second { IsIndexOf routes.now (in_bounds other.now) }
    ensures { result.0 ≡ result.1 }
{
    (
        lk_choose_route_by_table(nodes, cells, addr),
        lk_choose_route(other, addr),
    )
}

/// With fewer cells than the table has, the same route is chosen.
pub fn choose_with_few_cells(
    routes: &[Route],
    nodes: &[Node],
    cells: &[u64],
    addr: &Addr,
) -> (isize, isize)
    requires index { IsIndexOf routes.now (in_bounds nodes.now) }
    requires few { length cells.now < table_len (in_bounds nodes.now) }
    ensures { result.0 ≡ result.1 }
{
    (
        lk_choose_route_by_table(nodes, cells, addr),
        lk_choose_route(nodes, addr),
    )
}

/// By each table and index of the same routes a source has the same fault.
pub fn check_by_table_once(
    routes: &[Route],
    nodes: &[Node],
    cells: &[u64],
    other: &[Node],
    src: &Addr,
    interface: u16,
) -> (i32, i32)
    requires first { IsTableOf (in_bounds routes.now) (in_bounds nodes.now) (in_bounds cells.now) }
    requires second { IsIndexOf (in_bounds routes.now) (in_bounds other.now) }
    ensures { result.0 ≡ result.1 }
{
    (
        lk_check_source_by_table(routes, nodes, cells, src, interface),
        lk_check_source(routes, other, src, interface),
    )
}
