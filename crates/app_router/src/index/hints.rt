//! Hints tell where the search for an address begins. They only save time: each is checked when it is used.
//!
//! The hint of the first node is the number of IPv4 nodes. The nodes of either version have hints of their own: the
//! address space is divided into equal parts, and there is a hint for each. It tells where the nodes of the part
//! begin, and how a part of many nodes is divided again. The last quarter of the hints belongs to such divisions,
//! one to every four nodes.

ghost use Rattle.std.specs.Prelude.{◌≡◌, ◌≢◌, ◌+◌, ◌-◌, ◌*◌, ◌/◌, ◌%◌, ◌^◌, ◌≤◌, ◌<◌, drop, length, map, take, ℕ};
ghost use Rattle.std.specs.Int.Bits.{bit_and};
ghost use Rattle.app_router.specs.Hints.{HasPlaces, IsHinted, IsInOrder, IsPlain, IsUnhinted, hint_at, offset_by, part_for, part_of, places_of};
ghost use Rattle.app_router.specs.Index.{node_at, unmarked};

use super::Node;

// So many nodes, or so many of one version, have no hints.
pub const SMALL: usize = 12;

// A part of so many nodes is not divided again.
const FEW: usize = 24;

// The first bits of a hint are a place, and the others tell how the part is divided again. A larger table has no room
// for them.
const PLACE_BITS: u32 = 25;

// Stores the hints. All of them are 0 before.
pub fn mark(nodes: &mut [Node])
    requires { length nodes.old < 2 ^ 32 }
    ensures same { map unmarked nodes.new ≡ map unmarked nodes.old }
    ensures hinted { 12 < length nodes.old → IsInOrder nodes.old → IsHinted nodes.new }
{
    if nodes.len() <= SMALL {
        return;
    }
    let count = nodes.partition_point(|node| node.version == 4);
    let (ipv4, ipv6) = nodes.split_at_mut(count);
    mark_version(ipv4);
    mark_version(ipv6);
    set_hint(nodes, 0, count as u32);
}

// Stores the hints of the nodes of one version. The first hint is left out.
fn mark_version(nodes: &mut [Node])
    requires { length nodes.old < 2 ^ 32 }
    ensures same { map unmarked nodes.new ≡ map unmarked nodes.old }
    ensures places { IsUnhinted nodes.old → HasPlaces nodes.new }
{
    let len = nodes.len();
    if len <= SMALL {
        return;
    }
    let parts = parts(len);
    for i in 0..len {
        let part = share(nodes[i].high, parts);
        set_hint(nodes, part + 1, i as u32 + 1);
    }
    let mut low = 0;
    for part in 0..parts {
        let high = (nodes[part + 1].hint as usize).max(low).min(len);
        let divided = mark_part(nodes, low, high);
        set_hint(nodes, part + 1, low as u32 + divided);
        low = high;
    }
    set_hint(nodes, parts + 1, len as u32);
}

fn set_hint(nodes: &mut [Node], place: usize, hint: u32)
    requires { place < length nodes.old }
    ensures same { map unmarked nodes.new ≡ map unmarked nodes.old }
    ensures set { hint_at nodes.new place ≡ hint }
    ensures others { (k : ℕ) → k ≢ place → hint_at nodes.new k ≡ hint_at nodes.old k }
{
    let node = nodes[place];
    nodes[place] = Node { hint, ..node };
}

// Divides a part with these nodes again, by the bits after those that they have in common, and stores where the nodes
// of each division begin. Returns the bits of its hint: one more than the number of common bits, or 0 if it is not
// divided. Up to one of 16 nodes at either end may have other bits.
fn mark_part(nodes: &mut [Node], low: usize, high: usize) -> u32
    requires order { low ≤ high }
    requires within { (high ≤ length nodes.old) × (length nodes.old < 2 ^ 32) }
    ensures same { map unmarked nodes.new ≡ map unmarked nodes.old }
    ensures others { (k : ℕ) → k < length nodes.old - length nodes.old / 4 → hint_at nodes.new k ≡ hint_at nodes.old k }
    ensures bits { result % 2 ^ 25 ≡ 0 }
    ensures most { result ≤ 127 * 2 ^ 25 }
    ensures few { 0 < result → length nodes.old < 2 ^ 25 }
{
    if high - low <= FEW || nodes.len() >> PLACE_BITS > 0 {
        return 0;
    }
    let others = (high - low) / 16;
    let usual = nodes[low + others];
    let common = usual.common_bits(&nodes[high - 1 - others]);
    let (first, count) = divisions(nodes.len(), low, high);
    if common > 126 || is_uneven(nodes, low, high, common, count) {
        return 0;
    }
    let mut start = low;
    while start < high && nodes[start].common_bits(&usual) < common {
        start += 1;
    }
    let mut end = high;
    while end > start && nodes[end - 1].common_bits(&usual) < common {
        end -= 1;
    }
    mark_divisions(nodes, start, end, first, count, common);
    (common + 1) << PLACE_BITS
}

// Stores where the nodes of each division begin.
fn mark_divisions(
    nodes: &mut [Node],
    start: usize,
    end: usize,
    first: usize,
    count: usize,
    common: u32,
)
    requires within { (start ≤ end) × (end ≤ length nodes.old) × (length nodes.old < 2 ^ 32) }
    requires hints { (0 < count) × (first + count ≤ length nodes.old) }
    requires common { common < 127 }
    ensures same { map unmarked nodes.new ≡ map unmarked nodes.old }
    ensures others { (k : ℕ) → k < first → hint_at nodes.new k ≡ hint_at nodes.old k }
{
    for i in start..end {
        let division = share(nodes[i].after(common), count);
        set_hint(nodes, first + division, i as u32 + 1);
    }
    let mut place = start as u32;
    for i in first..first + count {
        let next = nodes[i].hint.max(place);
        set_hint(nodes, i, place);
        place = next;
    }
}

// Whether one division has a quarter of the nodes or more. Then dividing saves no time.
fn is_uneven(nodes: &[Node], low: usize, high: usize, common: u32, count: usize) -> bool
    requires within { (low + 24 < high) × (high ≤ length nodes.now) }
    requires common { common < 127 }
{
    let quarter = (high - low) / 4;
    let before = share(nodes[low + quarter].after(common), count);
    let middle = share(nodes[low + 2 * quarter].after(common), count);
    let after = share(nodes[low + 3 * quarter].after(common), count);
    before == middle || middle == after
}

// The hints of the divisions of a part with these nodes: the first one, and their number.
fn divisions(len: usize, low: usize, high: usize) -> (usize, usize)
    requires { (low + 24 < high) × (high ≤ len) }
    ensures some { 0 < result.1 }
    ensures within { result.0 + result.1 ≤ len }
    ensures from { len - len / 4 ≤ result.0 }
{
    let before = low / 4;
    (len - len / 4 + before, high / 4 - before)
}

// The number of parts. Two hints more are left out: the first one, and that of the end of the last part.
fn parts(len: usize) -> usize
    requires { 12 < len }
    ensures { result ≡ len - len / 4 - 2 }
{
    len - len / 4 - 2
}

// The part of a number below 2^64, if these numbers are divided into so many equal parts.
fn share(number: u64, count: usize) -> usize
    ensures within { 0 < count → result < count }
    ensures value { result ≡ part_of count number }
{
    let product = u128::from(number) * count as u128;
    (product >> 64) as usize
}

/// Two places around that of an address, if the hints are right. Else they are any numbers.
#[inline(always)]
pub fn hinted(nodes: &[Node], target: &Node) -> (usize, usize)
    requires { 0 < length nodes.now }
    ensures ipv4 { target.now.version ≡ 4 → hint_at nodes.now 0 ≤ length nodes.now → let part = take (hint_at nodes.now 0) nodes.now in
        12 < length part → IsPlain part (part_for part target.now) → result ≡ places_of part (part_for part target.now) }
    ensures ipv6 { target.now.version ≢ 4 → hint_at nodes.now 0 ≤ length nodes.now → let part = drop (hint_at nodes.now 0) nodes.now in
        12 < length part → IsPlain part (part_for part target.now) → result ≡ offset_by (hint_at nodes.now 0) (places_of part (part_for part target.now)) }
{
    let ipv4 = nodes[0].hint as usize;
    if ipv4 > nodes.len() {
        return (0, nodes.len());
    }
    let (from, nodes) = if target.version == 4 {
        (0, &nodes[..ipv4])
    } else {
        (ipv4, &nodes[ipv4..])
    };
    let (low, high) = hinted_part(nodes, target);
    (from.wrapping_add(low), from.wrapping_add(high))
}

// The same among the nodes of one version.
#[inline(always)]
fn hinted_part(nodes: &[Node], target: &Node) -> (usize, usize)
    ensures { 12 < length nodes.now → IsPlain nodes.now (part_for nodes.now target.now) → result ≡ places_of nodes.now (part_for nodes.now target.now) }
{
    let len = nodes.len();
    if len <= SMALL {
        return (0, len);
    }
    let part = share(target.high, parts(len));
    let (hint, next) = (nodes[part + 1].hint, nodes[part + 2].hint);
    let places = place_bits(len);
    let (low, high) = (place_in(hint, places), place_in(next, places));
    if hint > places && low + FEW < high && high <= len {
        division(nodes, low, high, target, common_bits(hint))
    } else {
        (low, high)
    }
}

// The place in a hint, by the bits that are one.
#[inline(always)]
fn place_in(hint: u32, places: u32) -> usize
    ensures value { result ≡ bit_and hint places }
    ensures fits { hint < 2 ^ 32 }
{
    (hint & places) as usize
}

// The bits of a hint that are a place.
#[inline(always)]
fn place_bits(len: usize) -> u32
    ensures few { len < 2 ^ 25 → result ≡ 2 ^ 25 - 1 }
    ensures many { 2 ^ 25 ≤ len → result ≡ 2 ^ 32 - 1 }
{
    if len >> PLACE_BITS == 0 {
        (1 << PLACE_BITS) - 1
    } else {
        u32::MAX
    }
}

// The number of first bits that most nodes of a part have in common, by its hint.
fn common_bits(hint: u32) -> u32
    requires { 2 ^ 25 ≤ hint }
    ensures { result < 127 }
{
    (hint >> PLACE_BITS) - 1
}

// The same among the nodes of a part that is divided again.
#[inline(always)]
fn division(nodes: &[Node], low: usize, high: usize, target: &Node, common: u32) -> (usize, usize)
    requires within { (low + 24 < high) × (high ≤ length nodes.now) }
    requires common { common < 127 }
{
    let (first, count) = divisions(nodes.len(), low, high);
    let last = first + count - 1;
    let usual = &nodes[low + (high - low) / 16];
    if target.common_bits(usual) < common {
        return if target.bits() < usual.bits() {
            (low, nodes[first].hint as usize)
        } else {
            (nodes[last].hint as usize, high)
        };
    }
    let place = first + share(target.after(common), count);
    if place < last {
        (nodes[place].hint as usize, nodes[place + 1].hint as usize)
    } else {
        (nodes[last].hint as usize, high)
    }
}
