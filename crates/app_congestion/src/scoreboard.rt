//! What the receiver of a connection has after a gap (RFC 2018; the scoreboard of RFC 6675, section 2).

ghost use Rattle.std.specs.Prelude.{◌≤◌, ◌+◌, min};

// Items from `from` to before `to`. Only `UNUSED` is empty; it comes after all others.
#[repr(C)]
#[derive(Debug, Clone, Copy)]
struct Range {
    from: u32,
    to: u32,
    ghost some: { min 4294967295 (from + 1) ≤ to },
    ghost ordered: { from ≤ to },
    ghost bound: { to ≤ 4294967295 },
}

// A place without a range.
const UNUSED: Range = Range {
    from: u32::MAX,
    to: u32::MAX,
};

/// What the receiver has after a gap, as its SACK options tell: up to four ranges of bytes, in order and apart. All numbers are
/// offsets from SND.UNA, below 2^31.
#[repr(C)]
#[derive(Debug, Clone, Copy)]
pub struct Scoreboard {
    first: Range,
    second: Range,
    third: Range,
    fourth: Range,
    ghost two: { min 4294967295 (first.to + 1) ≤ second.from },
    ghost three: { min 4294967295 (second.to + 1) ≤ third.from },
    ghost four: { min 4294967295 (third.to + 1) ≤ fourth.from },
}

#[tactic(auto, unfolding(crate::specs::Scoreboard::has))]
impl Range {
    ghost use Rattle.std.specs.Prelude.{◌≡◌, ◌-◌, ℕ, max, false, if◌then◌else◌, nat_le, MatchOption};
    ghost use Rattle.app_congestion.specs.Scoreboard.{covers, items};

    // The range after SND.UNA advanced by `newly`, if something is left of it.
    fn after(&self, newly: u32) -> Option<Range>
        ensures { MatchOption result ((n : ℕ) → covers self.now (n + newly) ≡ false) (λ r. (r.from ≡ self.now.from - newly) × (r.to + newly ≡ self.now.to)) }
    {
        if self.to <= newly || self.from == u32::MAX {
            return None;
        }
        Some(Range {
            from: self.from.saturating_sub(newly),
            to: self.to - newly,
        })
    }

    // How many items are in it.
    fn len(&self) -> u32
        ensures { result ≡ items self.now }
    {
        self.to - self.from
    }

    // The first offset at or after `at` that is not in the range.
    fn skip(&self, at: u32) -> u32
        ensures { result ≡ (if nat_le self.now.from at then max at self.now.to else at) }
    {
        if self.from <= at { at.max(self.to) } else { at }
    }
}

#[tactic(auto, unfolding(crate::specs::Scoreboard::has))]
impl Scoreboard {
    ghost use Rattle.std.specs.Prelude.{◌≡◌, ◌<◌, ◌-◌, ◌||◌, ◌⊎◌, ℕ, true, false, MatchOption};
    ghost use Rattle.app_congestion.specs.Scoreboard.{HasNoHole, IsHole, covers, has, is_within, ranges_of, total, used};

    /// Nothing is known.
    pub fn new() -> Scoreboard
        ensures known { (n : ℕ) → has result n ≡ false }
        ensures ranges { ranges_of result ≡ 0 }
        ensures unused { result.first.from ≡ 4294967295 }
    {
        Scoreboard {
            first: UNUSED,
            second: UNUSED,
            third: UNUSED,
            fourth: UNUSED,
        }
    }

    /// Forgets everything, as after a time-out (RFC 2018, section 8).
    pub fn clear(&mut self)
        ensures known { (n : ℕ) → has self.new n ≡ false }
        ensures ranges { ranges_of self.new ≡ 0 }
    {
        *self = Scoreboard::new();
    }

    /// Whether nothing is known.
    pub fn is_empty(&self) -> bool
        ensures yes { result ≡ true → (n : ℕ) → has self.now n ≡ false }
        ensures no { result ≡ false → has self.now self.now.first.from ≡ true }
    {
        self.first.from == u32::MAX
    }

    /// How many items the receiver is known to have.
    pub fn total(&self) -> u32
        ensures { result ≡ total self.now }
    {
        self.first.len() + self.second.len() + self.third.len() + self.fourth.len()
    }

    /// A block with these edges (RFC 2018, section 3): the receiver has what is at `from` and after it, and before `to`. Joins
    /// ranges that overlap or adjoin. Of five ranges it forgets the highest one. Does nothing if the block is empty.
    pub fn add(&mut self, from: u32, to: u32)
        ensures sound { (n : ℕ) → has self.new n ≡ true → (has self.old n ≡ true) ⊎ (is_within from to n ≡ true) }
        ensures exact { ranges_of self.old < 4 → (n : ℕ) → has self.new n ≡ (has self.old n || is_within from to n) }
        ensures lowest { (n m : ℕ) → (has self.old n || is_within from to n) ≡ true → has self.new m ≡ true → n ≤ m + 1 → has self.new n ≡ true }
        ensures full { ranges_of self.new < 4 → (n : ℕ) → has self.new n ≡ (has self.old n || is_within from to n) }
        ensures ranges { ranges_of self.new ≤ ranges_of self.old + 1 }
    {
        if from >= to {
            return;
        }
        let mut kept = Scoreboard::new();
        let mut range = Range { from, to };
        range = kept.join(self.fourth, range);
        range = kept.join(self.third, range);
        range = kept.join(self.second, range);
        range = kept.join(self.first, range);
        kept.push(range);
        *self = kept;
    }

    /// SND.UNA advances by `newly`: all offsets decrease by as much, and what is before SND.UNA is dropped.
    pub fn advance(&mut self, newly: u32)
        ensures known { (n : ℕ) → has self.new n ≡ has self.old (n + newly) }
        ensures ranges { ranges_of self.new ≤ ranges_of self.old }
    {
        if self.is_empty() {
            return;
        }
        let mut kept = Scoreboard::new();
        kept.push_after(self.fourth, newly);
        kept.push_after(self.third, newly);
        kept.push_after(self.second, newly);
        kept.push_after(self.first, newly);
        *self = kept;
    }

    /// The first hole at or after `from`: its offset and length. The receiver has what is next after a hole; `None` if it is
    /// not known to have anything after what it lacks.
    pub fn hole(&self, from: u32) -> Option<(u32, u32)>
        ensures { MatchOption result (HasNoHole self.now from) (λ hole. IsHole self.now from hole.0 hole.1) }
    {
        let lost = self.lost(from);
        let next = self.next(lost);
        if next == u32::MAX {
            return None;
        }
        Some((lost, next - lost))
    }

    // The first offset at or after `from` that the receiver does not have.
    fn lost(&self, from: u32) -> u32
        ensures after { from ≤ result }
        ensures before { (n : ℕ) → from ≤ n → n < result → has self.now n ≡ true }
        ensures lost { has self.now result ≡ false }
    {
        let at = self.first.skip(from);
        let at = self.second.skip(at);
        let at = self.third.skip(at);
        self.fourth.skip(at)
    }

    // The begin of the first range after `at`, or `u32::MAX`.
    fn next(&self, at: u32) -> u32
        requires { has self.now at ≡ false }
        ensures after { min 4294967295 (at + 1) ≤ result }
        ensures lost { (n : ℕ) → at ≤ n → n < result → has self.now n ≡ false }
        ensures next { result < 4294967295 → has self.now result ≡ true }
    {
        if at < self.first.from {
            self.first.from
        } else if at < self.second.from {
            self.second.from
        } else if at < self.third.from {
            self.third.from
        } else if at < self.fourth.from {
            self.fourth.from
        } else {
            u32::MAX
        }
    }

    // Puts a range before all others. Forgets the last one.
    fn push(&mut self, range: Range)
        requires { min 4294967295 (range.to + 1) ≤ self.old.first.from }
        ensures first { self.new.first ≡ range }
        ensures second { self.new.second ≡ self.old.first }
        ensures third { self.new.third ≡ self.old.second }
        ensures fourth { self.new.fourth ≡ self.old.third }
    {
        *self = Scoreboard {
            first: range,
            second: self.first,
            third: self.second,
            fourth: self.third,
        };
    }

    // Two ranges before all others: returns both as one if they overlap or adjoin, or else keeps the higher one and returns the
    // lower one.
    fn join(&mut self, a: Range, b: Range) -> Range
        requires room { 4294967295 ≤ self.old.fourth.from }
        requires a { min 4294967295 (a.to + 1) ≤ self.old.first.from }
        requires b { min 4294967295 (b.to + 1) ≤ self.old.first.from }
        ensures known { (n : ℕ) → (has self.new n || covers result n) ≡ (has self.old n || (covers a n || covers b n)) }
        ensures ranges { ranges_of self.new + used result ≤ ranges_of self.old + used a + used b }
        ensures order { min 4294967295 (result.to + 1) ≤ self.new.first.from }
        ensures first { a.from ≤ self.new.first.from }
        ensures second { self.old.first.from ≤ self.new.second.from }
        ensures third { self.old.second.from ≤ self.new.third.from }
        ensures fourth { self.old.third.from ≤ self.new.fourth.from }
    {
        if b.to < a.from {
            self.push(a);
            b
        } else if a.to < b.from {
            self.push(b);
            a
        } else {
            Range {
                from: a.from.min(b.from),
                to: a.to.max(b.to),
            }
        }
    }

    // Puts what is left of a range before all others, if anything is.
    fn push_after(&mut self, range: Range, newly: u32)
        requires room { 4294967295 ≤ self.old.fourth.from }
        requires order { min 4294967295 (range.to + 1 - newly) ≤ self.old.first.from }
        ensures known { (n : ℕ) → has self.new n ≡ (has self.old n || covers range (n + newly)) }
        ensures ranges { ranges_of self.new ≤ ranges_of self.old + used range }
        ensures first { range.from ≤ self.new.first.from + newly }
        ensures unused { 4294967295 ≤ range.from → 4294967295 ≤ self.old.first.from → 4294967295 ≤ self.new.first.from }
        ensures second { self.old.first.from ≤ self.new.second.from }
        ensures third { self.old.second.from ≤ self.new.third.from }
        ensures fourth { self.old.third.from ≤ self.new.fourth.from }
    {
        if let Some(left) = range.after(newly) {
            self.push(left);
        }
    }
}
