//! What the receiver keeps after gaps: ranges of numbers, in order and apart.

ghost use Rattle.std.specs.Prelude.{◌≤◌, ◌+◌, min};
ghost use Rattle.tcp_stream.specs.Order.{AreApart, IsRange, are_apart-prop, is_range-prop};

// Offsets from `from` to before `to`. Only `UNUSED` is empty; it comes after all others.
#[repr(C)]
#[derive(Debug, Clone, Copy)]
struct Range {
    from: u32,
    to: u32,
    ghost is_range: { IsRange from to } by { is_range-prop from to },
}

// A place without a range.
const UNUSED: Range = Range {
    from: u32::MAX,
    to: u32::MAX,
};

/// Up to eight ranges of bytes after RCV.NXT, in order and apart. All numbers are offsets from RCV.NXT.
#[repr(C)]
#[derive(Debug, Clone, Copy)]
pub(crate) struct Ranges {
    first: Range,
    second: Range,
    third: Range,
    fourth: Range,
    fifth: Range,
    sixth: Range,
    seventh: Range,
    eighth: Range,
    ghost two: { AreApart first.to second.from } by { are_apart-prop first.to second.from },
    ghost three: { AreApart second.to third.from } by { are_apart-prop second.to third.from },
    ghost four: { AreApart third.to fourth.from } by { are_apart-prop third.to fourth.from },
    ghost five: { AreApart fourth.to fifth.from } by { are_apart-prop fourth.to fifth.from },
    ghost six: { AreApart fifth.to sixth.from } by { are_apart-prop fifth.to sixth.from },
    ghost seven: { AreApart sixth.to seventh.from } by { are_apart-prop sixth.to seventh.from },
    ghost eight: { AreApart seventh.to eighth.from } by { are_apart-prop seventh.to eighth.from },
}

/// SACK blocks of an option: the first number and the one after the last (RFC 2018, section 3).
pub type Blocks = [Option<(u32, u32)>; 4];

#[tactic(auto, unfolding(crate::specs::Order::IsRange, crate::specs::Order::AreApart))]
impl Range {
    ghost use Rattle.std.specs.Prelude.{◌≡◌, ◌-◌, ◌%◌, ℕ, false, MatchOption};
    ghost use Rattle.tcp_stream.specs.Ranges.{block_of, covers, end_of};

    // The range after RCV.NXT advanced by `taken`, if something is left of it.
    fn after(&self, taken: u32) -> Option<Range>
        ensures { MatchOption result ((n : ℕ) → covers self.now (n + taken) ≡ false)
            (λ r. (r.from ≡ self.now.from - taken) × (r.to + taken ≡ self.now.to)) }
    {
        if self.to <= taken || self.from == u32::MAX {
            return None;
        }
        Some(Range {
            from: self.from.saturating_sub(taken),
            to: self.to - taken,
        })
    }

    // The offset after the last one; 0 if it is unused.
    fn end(&self) -> u32
        ensures { result ≡ end_of self.now }
    {
        if self.from == self.to { 0 } else { self.to }
    }

    // Whether an offset is in it.
    fn covers(&self, offset: u32) -> bool
        ensures { result ≡ covers self.now offset }
    {
        self.from <= offset && offset < self.to
    }

    // Its SACK block, if RCV.NXT is `next`.
    fn block(&self, next: u32) -> Option<(u32, u32)>
        ensures { result ≡ block_of next self.now }
    {
        if self.from == self.to {
            return None;
        }
        Some((next.wrapping_add(self.from), next.wrapping_add(self.to)))
    }
}

#[tactic(auto, unfolding(crate::specs::Order::IsRange, crate::specs::Order::AreApart))]
impl Ranges {
    ghost use Rattle.std.specs.Prelude.{◌≡◌, ◌<◌, ◌-◌, ◌||◌, ℕ, true, false};
    ghost use Rattle.tcp_stream.specs.Ranges.{blocks_of, covers, has, is_none, is_within, order_of, ranges_of, top, used};

    /// Nothing is kept.
    #[tactic(auto, unfolding(crate::specs::Ranges::has, crate::specs::Ranges::top, crate::specs::Ranges::ranges_of, crate::specs::Ranges::used, crate::specs::Order::IsRange, crate::specs::Order::AreApart))]
    pub(crate) fn new() -> Ranges
        ensures none { (n : ℕ) → has result n ≡ false }
        ensures top { top result ≡ 0 }
        ensures ranges { ranges_of result ≡ 0 }
        ensures unused { result.first.from ≡ 4294967295 }
    {
        Ranges {
            first: UNUSED,
            second: UNUSED,
            third: UNUSED,
            fourth: UNUSED,
            fifth: UNUSED,
            sixth: UNUSED,
            seventh: UNUSED,
            eighth: UNUSED,
        }
    }

    /// Whether nothing is kept.
    #[tactic(auto, unfolding(crate::specs::Ranges::has, crate::specs::Order::IsRange, crate::specs::Order::AreApart))]
    pub(crate) fn is_empty(&self) -> bool
        ensures value { result ≡ is_none self.now }
        ensures yes { result ≡ true → (n : ℕ) → has self.now n ≡ false }
        ensures no { result ≡ false → has self.now self.now.first.from ≡ true }
    {
        self.first.from == u32::MAX
    }

    /// The offset after the last one that is kept, or 0.
    #[tactic(auto, unfolding(crate::specs::Ranges::top, crate::specs::Order::IsRange, crate::specs::Order::AreApart))]
    pub(crate) fn top(&self) -> u32
        ensures { result ≡ top self.now }
    {
        if self.is_empty() {
            return 0;
        }
        self.first
            .end()
            .max(self.second.end())
            .max(self.third.end())
            .max(self.fourth.end())
            .max(self.fifth.end())
            .max(self.sixth.end())
            .max(self.seventh.end())
            .max(self.eighth.end())
    }

    /// The bytes from offset `from` to before `to` come: joins ranges that overlap or adjoin. Returns whether they are
    /// kept: not if they would be a ninth range.
    pub(crate) fn add(&mut self, from: u32, to: u32) -> bool
        requires { from < to }
        ensures kept { result ≡ true → (n : ℕ) → has self.new n ≡ (has self.old n || is_within from to n) }
        ensures refused { result ≡ false → self.new ≡ self.old }
        ensures room { ranges_of self.old < 8 → result ≡ true }
        ensures ranges { ranges_of self.new ≤ ranges_of self.old + 1 }
    {
        let mut kept = Ranges::new();
        let mut range = Range { from, to };
        range = kept.join(self.eighth, range);
        range = kept.join(self.seventh, range);
        range = kept.join(self.sixth, range);
        range = kept.join(self.fifth, range);
        range = kept.join(self.fourth, range);
        range = kept.join(self.third, range);
        range = kept.join(self.second, range);
        range = kept.join(self.first, range);
        if kept.eighth.from != u32::MAX {
            return false;
        }
        kept.push(range);
        *self = kept;
        true
    }

    /// RCV.NXT advances by `taken`: all offsets decrease by as much, and what is before RCV.NXT is dropped.
    pub(crate) fn advance(&mut self, taken: u32)
        ensures known { (n : ℕ) → has self.new n ≡ has self.old (n + taken) }
        ensures ranges { ranges_of self.new ≤ ranges_of self.old }
    {
        let mut kept = Ranges::new();
        kept.push_after(self.eighth, taken);
        kept.push_after(self.seventh, taken);
        kept.push_after(self.sixth, taken);
        kept.push_after(self.fifth, taken);
        kept.push_after(self.fourth, taken);
        kept.push_after(self.third, taken);
        kept.push_after(self.second, taken);
        kept.push_after(self.first, taken);
        *self = kept;
    }

    /// The first offset at or after `from` that is not kept.
    pub(crate) fn gap(&self, from: u32) -> u32
        ensures after { from ≤ result }
        ensures before { (n : ℕ) → from ≤ n → n < result → has self.now n ≡ true }
        ensures lost { has self.now result ≡ false }
    {
        if self.first.covers(from) {
            self.first.to
        } else if self.second.covers(from) {
            self.second.to
        } else if self.third.covers(from) {
            self.third.to
        } else if self.fourth.covers(from) {
            self.fourth.to
        } else if self.fifth.covers(from) {
            self.fifth.to
        } else if self.sixth.covers(from) {
            self.sixth.to
        } else if self.seventh.covers(from) {
            self.seventh.to
        } else if self.eighth.covers(from) {
            self.eighth.to
        } else {
            from
        }
    }

    /// The SACK blocks, if RCV.NXT is `next`: first the range with the offset `newest`, and then the first others (RFC
    /// 2018, section 4). There are at most three, as a timestamp leaves room for.
    #[inline(never)]
    pub(crate) fn blocks(&self, next: u32, newest: u32) -> Blocks
        ensures { result ≡ blocks_of self.now next newest }
    {
        let (one, two, three) = self.order(newest);
        [one.block(next), two.block(next), three.block(next), None]
    }

    // The three ranges that are told.
    #[tactic(auto, unfolding(crate::specs::Ranges::order_of, crate::specs::Order::IsRange, crate::specs::Order::AreApart))]
    fn order(&self, newest: u32) -> (Range, Range, Range)
        ensures { result ≡ order_of self.now newest }
    {
        if self.second.covers(newest) {
            (self.second, self.first, self.third)
        } else if self.third.covers(newest) {
            (self.third, self.first, self.second)
        } else if self.fourth.covers(newest) {
            (self.fourth, self.first, self.second)
        } else if self.fifth.covers(newest) {
            (self.fifth, self.first, self.second)
        } else if self.sixth.covers(newest) {
            (self.sixth, self.first, self.second)
        } else if self.seventh.covers(newest) {
            (self.seventh, self.first, self.second)
        } else if self.eighth.covers(newest) {
            (self.eighth, self.first, self.second)
        } else {
            (self.first, self.second, self.third)
        }
    }

    // Puts a range before all others. Forgets the last one.
    fn push(&mut self, range: Range)
        requires { min 4294967295 (range.to + 1) ≤ self.old.first.from }
        ensures first { self.new.first ≡ range }
        ensures second { self.new.second ≡ self.old.first }
        ensures third { self.new.third ≡ self.old.second }
        ensures fourth { self.new.fourth ≡ self.old.third }
        ensures fifth { self.new.fifth ≡ self.old.fourth }
        ensures sixth { self.new.sixth ≡ self.old.fifth }
        ensures seventh { self.new.seventh ≡ self.old.sixth }
        ensures eighth { self.new.eighth ≡ self.old.seventh }
    {
        *self = Ranges {
            first: range,
            second: self.first,
            third: self.second,
            fourth: self.third,
            fifth: self.fourth,
            sixth: self.fifth,
            seventh: self.sixth,
            eighth: self.seventh,
        };
    }

    // Two ranges before all others: returns both as one if they overlap or adjoin, or else keeps the higher one and
    // returns the lower one.
    #[tactic(auto, unfolding(crate::specs::Ranges::used, crate::specs::Ranges::ranges_of, crate::specs::Order::IsRange, crate::specs::Order::AreApart))]
    fn join(&mut self, a: Range, b: Range) -> Range
        requires room { 4294967295 ≤ self.old.eighth.from }
        requires a { min 4294967295 (a.to + 1) ≤ self.old.first.from }
        requires b { min 4294967295 (b.to + 1) ≤ self.old.first.from }
        ensures known { (n : ℕ) → (has self.new n || covers result n) ≡ (has self.old n || (covers a n || covers b n)) }
        ensures ranges { ranges_of self.new + used result ≤ ranges_of self.old + used a + used b }
        ensures most { ranges_of self.new + used result ≤ ranges_of self.old + used a + 1 }
        ensures order { min 4294967295 (result.to + 1) ≤ self.new.first.from }
        ensures some { b.from < b.to → result.from < result.to }
        ensures first { a.from ≤ self.new.first.from }
        ensures second { self.old.first.from ≤ self.new.second.from }
        ensures third { self.old.second.from ≤ self.new.third.from }
        ensures fourth { self.old.third.from ≤ self.new.fourth.from }
        ensures fifth { self.old.fourth.from ≤ self.new.fifth.from }
        ensures sixth { self.old.fifth.from ≤ self.new.sixth.from }
        ensures seventh { self.old.sixth.from ≤ self.new.seventh.from }
        ensures eighth { self.old.seventh.from ≤ self.new.eighth.from }
    {
        if b.to < a.from {
            self.push(a);
            return b;
        }
        if a.to < b.from {
            self.push(b);
            return a;
        }
        Range {
            from: a.from.min(b.from),
            to: a.to.max(b.to),
        }
    }

    // Puts what is left of a range before all others, if anything is.
    #[tactic(auto, unfolding(crate::specs::Ranges::used, crate::specs::Ranges::ranges_of, crate::specs::Order::IsRange, crate::specs::Order::AreApart))]
    fn push_after(&mut self, range: Range, taken: u32)
        requires room { 4294967295 ≤ self.old.eighth.from }
        requires order { min 4294967295 (range.to + 1 - taken) ≤ self.old.first.from }
        ensures known { (n : ℕ) → has self.new n ≡ (has self.old n || covers range (n + taken)) }
        ensures ranges { ranges_of self.new ≤ ranges_of self.old + used range }
        ensures first { range.from ≤ self.new.first.from + taken }
        ensures unused { 4294967295 ≤ range.from → 4294967295 ≤ self.old.first.from → 4294967295 ≤ self.new.first.from }
        ensures second { self.old.first.from ≤ self.new.second.from }
        ensures third { self.old.second.from ≤ self.new.third.from }
        ensures fourth { self.old.third.from ≤ self.new.fourth.from }
        ensures fifth { self.old.fourth.from ≤ self.new.fifth.from }
        ensures sixth { self.old.fifth.from ≤ self.new.sixth.from }
        ensures seventh { self.old.sixth.from ≤ self.new.seventh.from }
        ensures eighth { self.old.seventh.from ≤ self.new.eighth.from }
    {
        if let Some(left) = range.after(taken) {
            self.push(left);
        }
    }
}
