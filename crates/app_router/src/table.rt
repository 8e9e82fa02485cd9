//! A table beside an index of routes, for IPv4 addresses.
//!
//! The addresses are divided into ranges: one begins at the first address of each block, and one after its last, so the
//! addresses of a range have one route. They are also divided into equal parts. The entry of a part that lies within a
//! range is its answer; that of another part is a hint, the place of a range where a search begins (`parts`). A hint
//! only saves time: the range that is found is checked, and if none is found, the index is searched.
//!
//! Two fifths of the cells are the entries of the parts, two in each; one fifth are the hints of parts that are divided
//! again; two fifths are the ranges, sorted.

ghost use Rattle.std.specs.Prelude.{◌≡◌, ◌+◌, ◌*◌, ◌/◌, ◌%◌, ◌^◌, ◌≤◌, ◌<◌, All, IfSome, List, MatchOption, length, map, ℕ};
ghost use Rattle.std.specs.Option.{IsSome};
ghost use Rattle.app_router.specs.Index.{IsChosenAt, IsIndex, block_of, node_at};
ghost use Rattle.app_router.specs.Route.{IsChosen, Leads};
ghost use Rattle.app_router.specs.Table.{AreEnough, AreHints, AreRanges, Answers, IsAnswer, IsBeside, IsBounded, IsInRange, IsTable, IsUndivided, SparesNode, answer_of, half_at, hints_in, range_at, start_of};
ghost use Rattle.ip_wire.specs.IpCidr.{IsIn};
ghost use Rattle.ip_wire.specs.declared.IpCidr.{IpCidr};

mod parts;

use self::parts::{FEW, WHOLE, enter, half, hinted};
use crate::index::{self, Node, route_at};
use crate::route::Route;
use ip_wire::{IpAddress, Ipv4Address};

/// A longer list of routes has no table.
pub const MAX_ROUTES: usize = (1 << 26) - 1;

/// The number of cells of the table of so many routes.
pub const fn len(count: usize) -> usize
    requires { count < 2 ^ 26 }
    ensures { result ≡ 5 * (count + 1) }
{
    5 * (count + 1)
}

/// Makes the table of an index. Each cell is written.
pub fn fill(nodes: &[Node], cells: &mut [u64])
    requires few { length nodes.now < 2 ^ 26 }
    requires len { length cells.old ≡ 5 * (length nodes.now + 1) }
    ensures len { length cells.new ≡ length cells.old }
    ensures table { (blocks : List IpCidr) → IsIndex blocks nodes.now → IsTable blocks cells.new }
    ensures hints { AreHints (2 * (length nodes.now + 1)) (hints_in (length nodes.now) cells.new) }
{
    let unit = nodes.len() + 1;
    let (parts, rest) = cells.split_at_mut(2 * unit);
    let (hints, ranges) = rest.split_at_mut(unit);
    list_ranges(nodes, ranges);
    enter(ranges, parts, hints);
}

// Writes the ranges of an index.
fn list_ranges(nodes: &[Node], ranges: &mut [u64])
    requires { length ranges.old ≡ 2 * (length nodes.now + 1) }
    ensures len { length ranges.new ≡ length ranges.old }
    ensures ranges { (blocks : List IpCidr) → IsIndex blocks nodes.now → AreRanges blocks ranges.new }
    ensures first { start_of (range_at ranges.new 0) ≡ 0 }
    ensures beside { (blocks : List IpCidr) → IsIndex blocks nodes.now → (count p : ℕ) → IsUndivided blocks count p
        → (k : ℕ) → k < length ranges.new → IsBeside count p (start_of (range_at ranges.new k)) }
    ensures few { (blocks : List IpCidr) → IsIndex blocks nodes.now → (k : ℕ) → k < length ranges.new
        → answer_of (range_at ranges.new k) ≤ length blocks }
{
    bound(nodes, ranges);
    ranges.sort_unstable();
    answer_each(nodes, ranges);
}

// Writes the first address of each range, in the first 32 bits. The answers are any numbers.
fn bound(nodes: &[Node], ranges: &mut [u64])
    requires { length ranges.old ≡ 2 * (length nodes.now + 1) }
    ensures len { length ranges.new ≡ length ranges.old }
    ensures bounded { (k : ℕ) → k < length nodes.now → IsBounded ranges.new (node_at nodes.now k) }
    ensures first { start_of (range_at ranges.new 0) ≡ 0 }
    ensures beside { (count p : ℕ) → ((k : ℕ) → k < length nodes.now → SparesNode count p (node_at nodes.now k))
        → (k : ℕ) → k < length ranges.new → IsBeside count p (start_of (range_at ranges.new k)) }
{
    ranges[0] = 0;
    ranges[1] = 0;
    for (i, node) in nodes.iter().enumerate() {
        let (first, following) = node.bounds();
        ranges[2 * i + 2] = first;
        ranges[2 * i + 3] = following;
    }
}

// Writes the answers of ranges.
fn answer_each(nodes: &[Node], ranges: &mut [u64])
    ensures len { length ranges.new ≡ length ranges.old }
    ensures starts { (k : ℕ) → start_of (range_at ranges.new k) ≡ start_of (range_at ranges.old k) }
    ensures answers { (blocks : List IpCidr) → IsIndex blocks nodes.now → (k : ℕ) → k < length ranges.new
        → Answers blocks (λ addr. addr ≡ start_of (range_at ranges.new k)) (answer_of (range_at ranges.new k)) }
    ensures few { (blocks : List IpCidr) → IsIndex blocks nodes.now → (k : ℕ) → k < length ranges.new
        → answer_of (range_at ranges.new k) ≤ length blocks }
{
    let mut count = 0;
    for i in 0..ranges.len() {
        let start = (ranges[i] >> 32) as u32;
        let answer = answer_at(nodes, &mut count, start);
        ranges[i] = u64::from(start) << 32 | u64::from(answer);
    }
}

// The answer for an IPv4 address, by the index. `count` is that of `find_next`.
fn answer_at(nodes: &[Node], count: &mut usize, addr: u32) -> u32
    ensures answer { (blocks : List IpCidr) → IsIndex blocks nodes.now → Answers blocks (λ number. number ≡ addr) result }
    ensures few { (blocks : List IpCidr) → IsIndex blocks nodes.now → result ≤ length blocks }
{
    match index::find_next(nodes, count, &IpAddress::Ipv4(Ipv4Address::from_bits(addr))) {
        Some(route) => route.wrapping_add(1),
        None => 0,
    }
}

/// The place of the route with the longest prefix whose block contains the address, by a table and its index; of
/// equal blocks the first. `None` if no block contains it. With fewer cells than the table has, the index is
/// searched.
#[inline(always)]
pub fn find(nodes: &[Node], cells: &[u64], addr: &IpAddress) -> Option<u32>
    ensures { (blocks : List IpCidr) → IsIndex blocks nodes.now → IsTable blocks cells.now
        → MatchOption result (All (λ block. ¬ IsIn block addr.now) blocks) (IsChosenAt blocks addr.now) }
{
    if let IpAddress::Ipv4(ipv4) = addr {
        if let Some(answer) = answer(nodes.len(), cells, ipv4.to_bits()) {
            return answer.checked_sub(1);
        }
    }
    find_by_index(nodes, addr)
}

// The same place by the index. Its code is not part of a look-up, which is shorter then.
#[inline(never)]
fn find_by_index(nodes: &[Node], addr: &IpAddress) -> Option<u32>
    ensures { (blocks : List IpCidr) → IsIndex blocks nodes.now
        → MatchOption result (All (λ block. ¬ IsIn block addr.now) blocks) (IsChosenAt blocks addr.now) }
{
    index::find(nodes, addr)
}

/// One more than the place of the route for the IPv4 address of a number, or 0 if there is none, by the table of so many
/// routes. `None` if it does not tell; it tells if no block begins or ends in the part of the address.
#[inline(always)]
pub fn answer(count: usize, cells: &[u64], addr: u32) -> Option<u32>
    ensures answer { (blocks : List IpCidr) → length blocks ≡ count → IsTable blocks cells.now → IfSome result (Answers blocks (λ number. number ≡ addr)) }
    ensures some { (blocks : List IpCidr) → length blocks ≡ count → count < 2 ^ 26 → IsTable blocks cells.now → AreEnough blocks cells.now
        → IsUndivided blocks (4 * (count + 1)) (addr * (4 * (count + 1)) / 2 ^ 32) → IsSome result }
{
    if count > MAX_ROUTES || cells.len() < len(count) {
        return None;
    }
    let unit = count + 1;
    let (parts, rest) = cells.split_at(2 * unit);
    let (hints, rest) = rest.split_at(unit);
    let (ranges, _) = rest.split_at(2 * unit);
    // the part, and in the last 32 bits the position within it
    let position = u64::from(addr) * (4 * unit as u64);
    let entry = half(parts, (position >> 32) as usize);
    if entry >= WHOLE {
        return Some(entry - WHOLE);
    }
    range_answer(ranges, hinted(hints, entry, position), addr)
}

// The answer of the range of an address, if it is one of the 32 from a place on.
#[inline(always)]
fn range_answer(ranges: &[u64], place: usize, addr: u32) -> Option<u32>
    requires { place < 2 ^ 32 }
    ensures { IfSome result (λ answer. (k : ℕ) × (k < length ranges.now) × IsInRange ranges.now k addr × (answer ≡ answer_of (range_at ranges.now k))) }
{
    let end = ranges.len().saturating_sub(FEW);
    // the ranges up to this number begin at or before the address
    let last = (u64::from(addr) << 32) + 0xffff_ffff;
    for step in 0..8 {
        let place = place + step * FEW;
        if place >= end {
            return None;
        }
        let passed = usize::from(ranges[place + 1] <= last)
            + usize::from(ranges[place + 2] <= last)
            + usize::from(ranges[place + 3] <= last)
            + usize::from(ranges[place + 4] <= last);
        if passed < FEW {
            let (range, next) = (ranges[place + passed], ranges[place + passed + 1]);
            if range > last || next <= last {
                return None;
            }
            return Some((range % (1 << 32)) as u32);
        }
    }
    None
}

/// The route with the longest prefix whose block contains the address, by a table of the routes and its index; of
/// equal blocks the first. `None` if no block contains it.
#[inline(always)]
pub fn choose(routes: &[Route], nodes: &[Node], cells: &[u64], addr: &IpAddress) -> Option<Route>
    ensures { IsIndex (map block_of routes.now) nodes.now → IsTable (map block_of routes.now) cells.now
        → MatchOption result (All (λ route. ¬ Leads addr.now route) routes.now) (IsChosen routes.now addr.now) }
{
    route_at(routes, find(nodes, cells, addr))
}
