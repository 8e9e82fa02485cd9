//! Routes: their index, the table beside it, and the choice of a route.

ghost use Rattle.std.specs.Prelude.{◌≡◌, ◌<◌, ◌^◌, ◌&&◌, All, List, MatchOption, Some, is_none, length, map, nat_le, nat_lt, negsuc, pos};
ghost use Rattle.std.specs.List.{list_any};
ghost use Rattle.c_structs.specs.Addresses.{ip_of};
ghost use Rattle.c_structs.specs.Written.{max_len};
ghost use Rattle.c_routing.specs.Lengths.{in_bounds};
ghost use Rattle.c_routing.specs.Routes.{Chooses, Indexes, IsChosen, IsIndexOf, IsTableOf, Leads, MakesTable, destinations, index_failure, table_failure};
ghost use Rattle.app_router.specs.Index.{IsIndex};
ghost use Rattle.ip_wire.specs.declared.IpCidr.{IpCidr};

use crate::lengths::in_bounds;
use app_router::index::{Node, arrange, find};
use app_router::table::{self, MAX_ROUTES, answer};
use c_structs::{Addr, Block, Failure, MAX_LEN};

/// `struct lk_route`: a route.
#[repr(C)]
#[derive(Clone, Copy)]
pub struct Route {
    /// The destinations.
    pub block: Block,
    /// The next router. Without a version the destinations are on the link.
    pub next_hop: Addr,
    /// A number that the caller chooses.
    pub interface: u16,
}

/// Writes the index of a list of routes, one node for each, and returns their number. Fails with `NoVersion`,
/// `BadPrefix` and `NoRoom`; then the nodes are unchanged.
pub fn index_routes(routes: &[Route], nodes: &mut [Node]) -> isize
    ensures { Indexes routes.now nodes.old nodes.new result }
{
    if let Some(failure) = index_failure(routes, nodes.len()) {
        return failure.code();
    }
    let count = routes.len();
    index(routes, &mut nodes[..count]);
    count as isize
}

// Why these routes get no index of so many nodes. The routes of a list that is too long are not looked at.
fn index_failure(routes: &[Route], room: usize) -> Option<Failure>
    ensures { result ≡ index_failure routes.now room }
{
    if lacks_version(in_bounds(routes)) {
        Some(Failure::NoVersion)
    } else if lacks_block(in_bounds(routes)) {
        Some(Failure::BadPrefix)
    } else if has_room(routes.len(), room) {
        None
    } else {
        Some(Failure::NoRoom)
    }
}

fn lacks_version(routes: &[Route]) -> bool
    ensures { result ≡ list_any (λ route. is_none (ip_of route.block.addr)) routes.now }
{
    routes.iter().any(|route| route.block.addr.ip().is_none())
}

fn lacks_block(routes: &[Route]) -> bool
    ensures { result ≡ list_any (λ route. is_none (destinations route)) routes.now }
{
    routes.iter().any(|route| route.block.cidr().is_none())
}

fn has_room(count: usize, room: usize) -> bool
    ensures { result ≡ nat_le count room && nat_le room max_len && nat_lt count (2 ^ 32) }
{
    count <= room && room <= MAX_LEN && count <= u32::MAX as usize
}

// Makes the index of routes that have blocks.
fn index(routes: &[Route], nodes: &mut [Node])
    requires len { length nodes.old ≡ length routes.now }
    requires within { length routes.now < 2 ^ 32 }
    ensures { (blocks : List IpCidr) → map destinations routes.now ≡ map Some blocks → IsIndex blocks nodes.new }
{
    for i in 0..routes.len() {
        if let Some(block) = routes[i].block.cidr() {
            nodes[i] = Node::new(&block, i as u32);
        }
    }
    arrange(nodes);
}

/// Writes the table of an index, and returns the number of its cells. Fails with `NoRoom`; then the cells are unchanged.
pub fn make_table(nodes: &[Node], cells: &mut [u64]) -> isize
    ensures { MakesTable nodes.now cells.old cells.new result }
{
    if let Some(failure) = table_failure(nodes, cells.len()) {
        return failure.code();
    }
    let len = table::len(nodes.len());
    table::fill(nodes, &mut cells[..len]);
    len as isize
}

// Why this index gets no table in so many cells.
fn table_failure(nodes: &[Node], room: usize) -> Option<Failure>
    ensures { result ≡ table_failure nodes.now room }
{
    let count = nodes.len();
    if count <= MAX_ROUTES && table::len(count) <= room && room <= MAX_LEN {
        None
    } else {
        Some(Failure::NoRoom)
    }
}

/// The place of the route with the longest prefix that contains an address, or -1 if there is none. Of equal blocks the
/// first route counts.
#[inline(never)]
pub fn choose_route(nodes: &[Node], addr: &Addr) -> isize
    ensures { (routes : List Route) → IsIndexOf routes (in_bounds nodes.now) → Chooses routes addr.now result }
{
    number(choose(in_bounds(nodes), addr))
}

// A place, or -1.
fn number(place: Option<u32>) -> isize
    ensures { MatchOption place (result ≡ negsuc 0) (λ i. result ≡ pos i) }
{
    match place {
        Some(place) => place as isize,
        None => -1,
    }
}

// The same place, if there is a route.
fn choose(nodes: &[Node], addr: &Addr) -> Option<u32>
    ensures { (routes : List Route) → IsIndexOf routes nodes.now
        → MatchOption result (All (λ route. ¬ Leads addr.now route) routes) (IsChosen routes addr.now) }
{
    let addr = addr.ip()?;
    find(nodes, &addr)
}

/// The same place as `choose_route`, by a table and its index.
// As a function of its own it is compiled to fewer instructions.
#[inline(never)]
pub fn choose_by_table(nodes: &[Node], cells: &[u64], addr: &Addr) -> isize
    ensures { (routes : List Route) → IsTableOf routes (in_bounds nodes.now) (in_bounds cells.now) → Chooses routes addr.now result }
{
    if addr.version == 4 && nodes.len() <= MAX_ROUTES {
        let number = addr.ipv4().to_bits();
        if let Some(answer) = answer(nodes.len(), in_bounds(cells), number) {
            return answer as isize - 1;
        }
    }
    choose_route(nodes, addr)
}
