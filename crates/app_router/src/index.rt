//! An index of routes: a sorted array in which each node links to the next larger block around it.

ghost use Rattle.std.specs.Prelude.{◌≡◌, ◌≢◌, ◌↔◌, ◌+◌, ◌-◌, ◌*◌, ◌/◌, ◌%◌, ◌^◌, ◌≤◌, ◌<◌, All, IsTrue, List, MatchOption, ℕ, drop, length, map, take};
ghost use Rattle.std.specs.Ordering.{nat_cmp};
ghost use Rattle.std.specs.List.Sorted.{IsNonDecreasingBy};
ghost use Rattle.app_router.specs.Hints.{IsHinted, IsPlain, hint_at, offset_by, part_for, places_of};
ghost use Rattle.app_router.specs.Index.{AreLinked, Encloses, IsBlock, IsChosenAt, IsFilled, IsIndex, IsNearest, IsSplit, block_of, first_bits, node_at, node_of, node_with, place, rank, target_of, unlinked, unmarked, version_number};
ghost use Rattle.app_router.specs.Route.{IsChosen, Leads};
ghost use Rattle.ip_wire.specs.IpAddress.{IsAddress};
ghost use Rattle.ip_wire.specs.IpCidr.{IsIn};
ghost use Rattle.ip_wire.specs.declared.IpAddress.{IpAddress};
ghost use Rattle.ip_wire.specs.declared.IpCidr.{IpCidr};

mod hints;

use self::hints::{SMALL, hinted, mark};
use crate::route::Route;
use ip_wire::{IpAddress, IpCidr};
use std::cmp::Ordering;

// Longer than every prefix.
const WHOLE_LEN: u8 = 129;

/// A block of the index. Any bytes are a value.
#[repr(C)]
#[derive(Debug, Clone, Copy, PartialEq, Eq)]
pub struct Node {
    // the first address of the block; an IPv4 address has the first 32 bits
    high: u64,
    low: u64,
    // the place of its route
    route: u32,
    // one more than the place of the node of the next larger block around it, or 0
    above: u32,
    version: u8,
    prefix_len: u8,
    unused: [u8; 2],
    // where a search may begin (`hints`)
    hint: u32,
}

impl Node {
    /// The node of a block, before `arrange`. `route` is the place of the block in the list.
    pub fn new(block: &IpCidr, route: u32) -> Node
        ensures value { result ≡ node_of block.now route }
        ensures valid { IsBlock block.now }
    {
        let prefix_len = block.prefix_len();
        let addr = block.address();
        let first = masked(first_bits(&addr), prefix_len);
        Node::with(version_number(&addr), first, prefix_len, route)
    }

    // An address, as the node of a block with a longer prefix than any other.
    fn target(addr: &IpAddress) -> Node
        ensures value { result ≡ target_of addr.now }
        ensures octets { IsAddress addr.now }
    {
        Node::with(version_number(addr), first_bits(addr), WHOLE_LEN, 0)
    }

    fn with(version: u8, bits: u128, prefix_len: u8, route: u32) -> Node
        ensures { result ≡ node_with version bits prefix_len route }
    {
        Node {
            high: (bits >> 64) as u64,
            low: (bits % (1 << 64)) as u64,
            route,
            above: 0,
            version,
            prefix_len,
            unused: [0; 2],
            hint: 0,
        }
    }

    fn bits(&self) -> u128
        ensures { result ≡ self.now.high * 2 ^ 64 + self.now.low }
    {
        let (high, low) = (self.high, self.low);
        u128::from(high) << 64 | u128::from(low)
    }

    /// The first 64 bits of the first address of an IPv4 block and of the address after its last, which is 0 after the
    /// last of all. Zeros for another block.
    pub fn bounds(&self) -> (u64, u64)
        ensures ipv4 { self.now.version ≡ 4 → (result.0 ≡ self.now.high) × (result.1 ≡ (self.now.high + 2 ^ (64 - self.now.prefix_len)) % 2 ^ 64) }
        ensures other { self.now.version ≢ 4 → result ≡ (0, 0) }
    {
        if self.version != 4 {
            return (0, 0);
        }
        let high = self.high;
        let len = match 64u8.saturating_sub(self.prefix_len) {
            64 => 0,
            bits => 1 << bits,
        };
        (high, high.wrapping_add(len))
    }

    // Whether its first address is this one or before it.
    fn is_up_to(&self, other: &Node) -> bool
        ensures { IsTrue result ↔ (place self.now ≤ place other.now) }
    {
        let (high, other_high) = (self.high, other.high);
        let (low, other_low) = (self.low, other.low);
        if self.version != other.version {
            return self.version < other.version;
        }
        if high != other_high {
            return high < other_high;
        }
        low <= other_low
    }

    // The order of the nodes in an index.
    fn by_rank(&self, other: &Node) -> Ordering
        ensures { result ≡ nat_cmp (rank self.now) (rank other.now) }
    {
        let (high, other_high) = (self.high, other.high);
        let (low, other_low) = (self.low, other.low);
        let (len, other_len) = (self.prefix_len, other.prefix_len);
        let (route, other_route) = (self.route, other.route);
        if self.version != other.version {
            return self.version.cmp(&other.version);
        }
        if high != other_high {
            return high.cmp(&other_high);
        }
        if low != other_low {
            return low.cmp(&other_low);
        }
        len.cmp(&other_len).then(other_route.cmp(&route))
    }

    // The number of first bits that the first addresses have in common.
    fn common_bits(&self, other: &Node) -> u32 {
        (self.bits() ^ other.bits()).leading_zeros()
    }

    // The 64 bits of its first address after these.
    fn after(&self, shift: u32) -> u64
        requires { shift < 128 }
    {
        ((self.bits() << shift) >> 64) as u64
    }

    // Whether its prefix is shorter, and the other block has it too.
    fn encloses(&self, inner: &Node) -> bool
        ensures { IsTrue result ↔ Encloses self.now inner.now }
    {
        self.prefix_len < inner.prefix_len && self.leads(inner)
    }

    // Whether the first address of the other block begins with its prefix.
    fn leads(&self, other: &Node) -> bool
        ensures { IsTrue result ↔ (place self.now / 2 ^ (128 - self.now.prefix_len) ≡ place other.now / 2 ^ (128 - self.now.prefix_len)) }
    {
        let len = self.prefix_len;
        let (high, other_high) = (self.high, other.high);
        let (low, other_low) = (self.low, other.low);
        if self.version != other.version {
            false
        } else if len == 0 {
            true
        } else if len <= 64 {
            let zeros = 64 - len;
            high >> zeros == other_high >> zeros
        } else {
            let zeros = 128u8.saturating_sub(len);
            high == other_high && low >> zeros == other_low >> zeros
        }
    }
}

// The first `prefix_len` of 128 bits, and zeros.
fn masked(bits: u128, prefix_len: u8) -> u128
    requires { prefix_len ≤ 128 }
    ensures { result ≡ bits / 2 ^ (128 - prefix_len) * 2 ^ (128 - prefix_len) }
{
    let zeros = 128 - prefix_len;
    if zeros == 128 {
        0
    } else {
        bits >> zeros << zeros
    }
}

fn first_bits(addr: &IpAddress) -> u128
    ensures value { result ≡ first_bits addr.now }
    ensures octets { IsAddress addr.now }
{
    match *addr {
        IpAddress::Ipv4(addr) => u128::from(addr.to_bits()) << 96,
        IpAddress::Ipv6(addr) => addr.to_bits(),
    }
}

fn version_number(addr: &IpAddress) -> u8
    ensures { result ≡ version_number addr.now }
{
    match addr {
        IpAddress::Ipv4(_) => 4,
        IpAddress::Ipv6(_) => 6,
    }
}

/// Makes an index of the nodes of a list of blocks: node `i` is that of block `i`.
pub fn arrange(nodes: &mut [Node])
    requires { length nodes.old < 2 ^ 32 }
    ensures index { (blocks : List IpCidr) → IsFilled blocks nodes.old → IsIndex blocks nodes.new }
    ensures hinted { (blocks : List IpCidr) → IsFilled blocks nodes.old → 12 < length nodes.new → IsHinted nodes.new }
{
    nodes.sort_unstable_by(|a, b| a.by_rank(b));
    link(nodes);
    mark(nodes);
}

// Finds the next larger block around each, and sets the hints to 0.
fn link(nodes: &mut [Node])
    requires { length nodes.old < 2 ^ 32 }
    ensures same { map unlinked nodes.new ≡ map unlinked nodes.old }
    ensures linked { IsNonDecreasingBy place nodes.old → AreLinked nodes.new (length nodes.new) }
    ensures none { (k : ℕ) → k < length nodes.new → hint_at nodes.new k ≡ 0 }
{
    for i in 0..nodes.len() {
        let node = nodes[i];
        let above = climb(nodes, i, &node) as u32;
        nodes[i] = Node {
            above,
            hint: 0,
            ..node
        };
    }
}

// One more than the place of the last of the nodes before `start` that enclose another, or 0.
fn climb(nodes: &[Node], start: usize, inner: &Node) -> usize
    requires { start ≤ length nodes.now }
    ensures within { result ≤ start }
    ensures encloses { 0 < result → Encloses (node_at nodes.now (result - 1)) inner.now }
    ensures last { IsNonDecreasingBy place nodes.now → AreLinked nodes.now start
        → ((k : ℕ) → k < start → place (node_at nodes.now k) ≤ place inner.now)
        → IsNearest nodes.now result start inner.now }
{
    let mut from = start;
    while from > 0 {
        let node = &nodes[from - 1];
        if node.encloses(inner) {
            return from;
        }
        let above = node.above;
        if above as usize >= from {
            return 0;
        }
        from = above as usize;
    }
    0
}

// Two places around that of an address: those of the hints, or both ends of the array if the hints are wrong.
#[inline(always)]
fn bounds(nodes: &[Node], target: &Node) -> (usize, usize)
    ensures order { result.0 ≤ result.1 }
    ensures within { result.1 ≤ length nodes.now }
    ensures split { IsNonDecreasingBy place nodes.now → IsSplit nodes.now result.0 result.1 target.now }
    ensures ipv4 { (blocks : List IpCidr) (addr : IpAddress) → IsIndex blocks nodes.now → IsHinted nodes.now → IsAddress addr → target.now ≡ target_of addr
        → version_number addr ≡ 4 → let part = take (hint_at nodes.now 0) nodes.now in
        12 < length part → IsPlain part (part_for part target.now) → result ≡ places_of part (part_for part target.now) }
    ensures ipv6 { (blocks : List IpCidr) (addr : IpAddress) → IsIndex blocks nodes.now → IsHinted nodes.now → IsAddress addr → target.now ≡ target_of addr
        → version_number addr ≡ 6 → let part = drop (hint_at nodes.now 0) nodes.now in
        12 < length part → IsPlain part (part_for part target.now) → result ≡ offset_by (hint_at nodes.now 0) (places_of part (part_for part target.now)) }
{
    if nodes.len() <= SMALL {
        return (0, nodes.len());
    }
    let (low, high) = hinted(nodes, target);
    if splits(nodes, low, high, target) {
        (low, high)
    } else {
        (0, nodes.len())
    }
}

// Whether the nodes before the first place are at or before an address, and those from the second place on after it.
fn splits(nodes: &[Node], low: usize, high: usize, target: &Node) -> bool
    ensures order { IsTrue result → low ≤ high }
    ensures within { IsTrue result → high ≤ length nodes.now }
    ensures split { IsTrue result → IsNonDecreasingBy place nodes.now → IsSplit nodes.now low high target.now }
    ensures complete { low ≤ high → high ≤ length nodes.now → IsSplit nodes.now low high target.now → IsTrue result }
{
    if low > high || high > nodes.len() {
        return false;
    }
    if low > 0 && !nodes[low - 1].is_up_to(target) {
        return false;
    }
    if high < nodes.len() && nodes[high].is_up_to(target) {
        return false;
    }
    true
}

// The number of nodes whose first address is at or before an address.
#[inline(always)]
fn count_up_to(nodes: &[Node], target: &Node) -> usize
    ensures within { result ≤ length nodes.now }
    ensures split { IsNonDecreasingBy place nodes.now → IsSplit nodes.now result result target.now }
{
    let (mut low, mut high) = bounds(nodes, target);
    while low < high {
        let middle = low + (high - low) / 2;
        if nodes[middle].is_up_to(target) {
            low = middle + 1;
        } else {
            high = middle;
        }
    }
    low
}

/// The place of the route with the longest prefix whose block contains the address; of equal blocks the first. `None`
/// if no block contains it.
#[inline(always)]
pub fn find(nodes: &[Node], addr: &IpAddress) -> Option<u32>
    ensures { (blocks : List IpCidr) → IsIndex blocks nodes.now
        → MatchOption result (All (λ block. ¬ IsIn block addr.now) blocks) (IsChosenAt blocks addr.now) }
{
    let target = Node::target(addr);
    found(nodes, count_up_to(nodes, &target), &target)
}

/// The same place as `find`, in less time if addresses are searched in ascending order. `count` is the number of
/// nodes at or before the address that was searched last, and becomes that of this one; another number only takes
/// more time. `None` if no block contains the address.
pub fn find_next(nodes: &[Node], count: &mut usize, addr: &IpAddress) -> Option<u32>
    ensures { (blocks : List IpCidr) → IsIndex blocks nodes.now
        → MatchOption result (All (λ block. ¬ IsIn block addr.now) blocks) (IsChosenAt blocks addr.now) }
{
    let target = Node::target(addr);
    *count = first_after(nodes, *count, &target);
    if !splits(nodes, *count, *count, &target) {
        return find(nodes, addr);
    }
    found(nodes, *count, &target)
}

// The first node from a place on that is after an address, or the end.
fn first_after(nodes: &[Node], from: usize, target: &Node) -> usize {
    for i in from..nodes.len() {
        if !nodes[i].is_up_to(target) {
            return i;
        }
    }
    nodes.len()
}

// The route that is found for an address, by the number of nodes at or before it.
#[inline(always)]
fn found(nodes: &[Node], start: usize, target: &Node) -> Option<u32>
    requires { start ≤ length nodes.now }
    ensures { (blocks : List IpCidr) → (addr : IpAddress) → IsAddress addr → target.now ≡ target_of addr → IsIndex blocks nodes.now
        → (IsNonDecreasingBy place nodes.now → IsSplit nodes.now start start target.now)
        → MatchOption result (All (λ block. ¬ IsIn block addr) blocks) (IsChosenAt blocks addr) }
{
    match climb(nodes, start, target) {
        0 => None,
        found => Some(nodes[found - 1].route),
    }
}

/// Makes the index of a list of routes.
pub fn index(routes: &[Route], nodes: &mut [Node])
    requires len { length nodes.old ≡ length routes.now }
    requires within { length routes.now < 2 ^ 32 }
    ensures index { IsIndex (map block_of routes.now) nodes.new }
    ensures hinted { 12 < length nodes.new → IsHinted nodes.new }
{
    for (i, route) in routes.iter().enumerate() {
        nodes[i] = Node::new(&route.block, i as u32);
    }
    arrange(nodes);
}

/// The route with the longest prefix whose block contains the address, by the index of the routes; of equal blocks
/// the first. `None` if no block contains it.
pub fn choose(routes: &[Route], nodes: &[Node], addr: &IpAddress) -> Option<Route>
    ensures { IsIndex (map block_of routes.now) nodes.now
        → MatchOption result (All (λ route. ¬ Leads addr.now route) routes.now) (IsChosen routes.now addr.now) }
{
    route_at(routes, find(nodes, addr))
}

/// The route at the place that was found for an address, or `None` if no place was found.
pub fn route_at(routes: &[Route], found: Option<u32>) -> Option<Route>
    ensures { (addr : IpAddress) → MatchOption found (All (λ block. ¬ IsIn block addr) (map block_of routes.now)) (IsChosenAt (map block_of routes.now) addr)
        → MatchOption result (All (λ route. ¬ Leads addr route) routes.now) (IsChosen routes.now addr) }
{
    let place = found?;
    routes.get(place as usize).copied()
}
