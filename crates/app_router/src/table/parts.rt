//! The entries of the parts of a table, and where a search begins.
//!
//! The first 27 bits of an entry that is no answer are a place. The other bits are 0 if it is that of the first range
//! of the part. Else the part is divided again: they are the binary logarithm of the number of its divisions, and the
//! place is that of the hint of the first one. A hint is the place of a range.

ghost use Rattle.std.specs.Prelude.{◌≡◌, ◌≢◌, ◌+◌, ◌*◌, ◌^◌, ◌≤◌, ◌<◌, IfSome, MatchOption, length, ℕ};
ghost use Rattle.std.specs.Option.{IsSome};
ghost use Rattle.app_router.specs.Table.{AreHints, IsClear, IsEntry, IsWithinRange, answer_of, half_at, range_at, start_of};

/// An entry from this number on is an answer.
pub const WHOLE: u32 = 1 << 31;

const PLACE_BITS: u32 = 27;

/// A search compares so many ranges at once. A part where more begin is divided.
pub const FEW: usize = 4;

/// Writes the entries of the parts, and the hints. Those that no part needs are 0.
pub fn enter(ranges: &[u64], parts: &mut [u64], hints: &mut [u64])
    requires some { 0 < length ranges.now }
    requires places { (length ranges.now ≤ 2 ^ 27) × (length hints.old ≤ 2 ^ 26) }
    requires few { 2 * length parts.old ≤ 2 ^ 31 }
    ensures parts_len { length parts.new ≡ length parts.old }
    ensures hints_len { length hints.new ≡ length hints.old }
    ensures hints { AreHints (length ranges.now) hints.new }
    ensures entries { (p : ℕ) → p < 2 * length parts.new → IsEntry ranges.now (2 * length parts.new) p (half_at parts.new p) }
    ensures filled { start_of (range_at ranges.now 0) ≡ 0 → (p : ℕ) → p < 2 * length parts.new → IsClear ranges.now (2 * length parts.new) p
        → 2 ^ 31 ≤ half_at parts.new p }
{
    hints.fill(0);
    let count = 2 * parts.len() as u64;
    let (mut place, mut used) = (0, 0);
    for part in 0..count {
        place = last_up_to(ranges, place, part << 32, count);
        let (hint, count_used) = divide(ranges, hints, used, place, part, count);
        used = count_used;
        let entry = entry(ranges, place, part, count, hint);
        set_half(parts, part as usize, entry);
    }
}

// The entry of a part.
fn entry(ranges: &[u64], place: usize, part: u64, count: u64, hint: u32) -> u32
    requires within { part < count }
    requires few { count ≤ 2 ^ 31 }
    requires hint { hint < 2 ^ 31 }
    ensures entry { IsEntry ranges.now count part result }
    ensures filled { place < length ranges.now → start_of (range_at ranges.now place) * count ≤ part * 2 ^ 32
        → (part + 1) * 2 ^ 32 ≤ start_of (range_at ranges.now (place + 1)) * count → answer_of (range_at ranges.now place) < 2 ^ 31 → 2 ^ 31 ≤ result }
{
    match whole(ranges, place, part, count) {
        Some(answer) => WHOLE + answer,
        None => hint,
    }
}

// The answer of a range, if the part lies within it.
fn whole(ranges: &[u64], place: usize, part: u64, count: u64) -> Option<u32>
    requires within { part < count }
    requires few { count ≤ 2 ^ 31 }
    ensures within { IfSome result (λ answer. (answer < 2 ^ 31) × IsWithinRange ranges.now count part place × (answer ≡ answer_of (range_at ranges.now place))) }
    ensures some { place < length ranges.now → start_of (range_at ranges.now place) * count ≤ part * 2 ^ 32
        → (part + 1) * 2 ^ 32 ≤ start_of (range_at ranges.now (place + 1)) * count → answer_of (range_at ranges.now place) < 2 ^ 31 → IsSome result }
{
    let range = *ranges.get(place)?;
    let next = match ranges.get(place + 1) {
        Some(next) => *next >> 32,
        None => 1 << 32,
    };
    let answer = (range % (1 << 32)) as u32;
    let begins = (range >> 32) * count <= part << 32;
    let ends = (part + 1) << 32 <= next * count;
    if begins && ends && answer < WHOLE {
        Some(answer)
    } else {
        None
    }
}

// From `place` on, the place of the last range that begins at or before a position, which is a part and 32 bits within
// it. If the one at `place` begins after it, any place.
fn last_up_to(ranges: &[u64], place: usize, position: u64, count: u64) -> usize
    requires within { place < length ranges.now }
    requires few { count ≤ 2 ^ 31 }
    ensures within { (place ≤ result) × (result < length ranges.now) }
    ensures begins { start_of (range_at ranges.now place) * count ≤ position → start_of (range_at ranges.now result) * count ≤ position }
    ensures last { result + 1 < length ranges.now → position < start_of (range_at ranges.now (result + 1)) * count }
{
    for next in place + 1..ranges.len() {
        if (ranges[next] >> 32) * count > position {
            return next - 1;
        }
    }
    ranges.len() - 1
}

// The binary logarithm of the number of divisions of a part where so many ranges begin, or 0.
fn division_bits(count: usize, room: usize) -> u32
    ensures bits { result ≤ 15 }
    ensures room { 0 < result → 2 ^ result ≤ room }
{
    if count <= FEW {
        return 0;
    }
    let bits = count.ilog2().min(15);
    if 1 << bits <= room { bits } else { 0 }
}

// Divides a part where many ranges begin, if there is room for the hints after the `used` ones. Returns what its entry is
// if it is no answer, and how many hints are used then.
fn divide(
    ranges: &[u64],
    hints: &mut [u64],
    used: usize,
    place: usize,
    part: u64,
    count: u64,
) -> (u32, usize)
    requires within { (place < length ranges.now) × (part < count) × (used ≤ 2 * length hints.old) }
    requires places { (length ranges.now ≤ 2 ^ 27) × (length hints.old ≤ 2 ^ 26) }
    requires few { count ≤ 2 ^ 31 }
    requires hints { AreHints (length ranges.now) hints.old }
    ensures len { length hints.new ≡ length hints.old }
    ensures hints { AreHints (length ranges.now) hints.new }
    ensures hint { result.0 < 2 ^ 31 }
    ensures used { result.1 ≤ 2 * length hints.old }
{
    let last = last_up_to(ranges, place, part << 32 | 0xffff_ffff, count);
    let bits = division_bits(last - place, 2 * hints.len() - used);
    if bits == 0 {
        return (place as u32, used);
    }
    let mut place = place;
    for i in 0..1 << bits {
        place = last_up_to(ranges, place, part << 32 | i << (32 - bits), count);
        set_half(hints, used + i as usize, place as u32);
    }
    (used as u32 + (bits << PLACE_BITS), used + (1 << bits))
}

/// The entry at a place.
#[inline(always)]
pub fn half(cells: &[u64], place: usize) -> u32
    requires { place < 2 * length cells.now }
    ensures { result ≡ half_at cells.now place }
{
    (cells[place / 2] >> (place % 2 * 32) & 0xffff_ffff) as u32
}

fn set_half(cells: &mut [u64], place: usize, half: u32)
    requires { place < 2 * length cells.old }
    ensures len { length cells.new ≡ length cells.old }
    ensures set { half_at cells.new place ≡ half }
    ensures others { (i : ℕ) → i ≢ place → half_at cells.new i ≡ half_at cells.old i }
{
    let cell = cells[place / 2];
    let half = u64::from(half);
    cells[place / 2] = if place % 2 == 0 {
        (cell >> 32 << 32) + half
    } else {
        (half << 32) + cell % (1 << 32)
    };
}

/// The place of a range where a search begins, by an entry that is no answer.
#[inline(always)]
pub fn hinted(hints: &[u64], entry: u32, position: u64) -> usize
    ensures { result < 2 ^ 32 }
{
    let place = (entry % (1 << PLACE_BITS)) as usize;
    let bits = entry >> PLACE_BITS;
    if bits == 0 {
        return place;
    }
    let place = place + ((position % (1 << 32)) >> (32 - bits)) as usize;
    if place < 2 * hints.len() {
        half(hints, place) as usize
    } else {
        0
    }
}
