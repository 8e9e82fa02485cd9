//! Sequence numbers (RFC 9293, section 3.4).

ghost use Rattle.std.specs.Prelude.{◌≡◌, ◌↔◌, ◌+◌, ◌-◌, ◌%◌, ◌^◌, ◌<◌, IsTrue, Some, decimal};
ghost use Rattle.wire_tcp_options.specs.TcpSeq.{IsAfter, IsBefore, distance, number};

use std::cmp::Ordering;
use std::fmt;
use std::ops::{Add, AddAssign, Sub};

/// A sequence number, modulo 2<sup>32</sup>, as an `i32` with the same bits.
///
/// A number is before another if the way forward to it is shorter than the way back. If both are
/// 2<sup>31</sup> steps apart, each is before the other, so this is not a total order.
#[derive(Debug, Clone, Copy, PartialEq, Eq, Default)]
pub struct TcpSeqNumber(pub i32);

impl TcpSeqNumber {
    /// Returns `self` if it is after `rhs`, else `rhs`.
    pub fn max(self, rhs: TcpSeqNumber) -> TcpSeqNumber
        ensures after { IsAfter self rhs → result ≡ self }
        ensures other { ¬ IsAfter self rhs → result ≡ rhs }
    {
        if self.seq_gt(rhs) { self } else { rhs }
    }

    /// Returns `self` if it is before `rhs`, else `rhs`.
    pub fn min(self, rhs: TcpSeqNumber) -> TcpSeqNumber
        ensures before { IsBefore self rhs → result ≡ self }
        ensures other { ¬ IsBefore self rhs → result ≡ rhs }
    {
        if self.seq_lt(rhs) { self } else { rhs }
    }

    /// Returns `true` if this number is before the other.
    pub fn seq_lt(self, rhs: TcpSeqNumber) -> bool
        ensures { IsTrue result ↔ IsBefore self rhs }
    {
        self.0.wrapping_sub(rhs.0) < 0
    }

    /// Returns `true` if this number is before the other, or equal to it.
    pub fn seq_le(self, rhs: TcpSeqNumber) -> bool
        ensures { IsTrue result ↔ ¬ IsAfter self rhs }
    {
        self.0.wrapping_sub(rhs.0) <= 0
    }

    /// Returns `true` if this number is after the other.
    pub fn seq_gt(self, rhs: TcpSeqNumber) -> bool
        ensures { IsTrue result ↔ IsAfter self rhs }
    {
        self.0.wrapping_sub(rhs.0) > 0
    }

    /// Returns `true` if this number is not before the other.
    pub fn seq_ge(self, rhs: TcpSeqNumber) -> bool
        ensures { IsTrue result ↔ ¬ IsBefore self rhs }
    {
        self.0.wrapping_sub(rhs.0) >= 0
    }

    /// `Less` if this number is before the other, `Greater` if it is after it, else `Equal`.
    pub fn seq_cmp(self, rhs: TcpSeqNumber) -> Ordering
        ensures before { (result ≡ Ordering.Less) ↔ IsBefore self rhs }
        ensures same { (result ≡ Ordering.Equal) ↔ (self ≡ rhs) }
        ensures after { (result ≡ Ordering.Greater) ↔ IsAfter self rhs }
    {
        self.0.wrapping_sub(rhs.0).cmp(&0)
    }
}

impl fmt::Display for TcpSeqNumber {
    ghost output = { λ s. Some (decimal (number s)) };

    fn fmt<W: fmt::Write>(&self, f: &mut fmt::Formatter<W>) -> fmt::Result {
        write!(f, "{}", self.0.cast_unsigned())
    }
}

/// Moves a number forward, by less than 2<sup>31</sup> steps.
impl Add<usize> for TcpSeqNumber {
    type Output = TcpSeqNumber;

    ghost can_add = { λ a n. n < 2 ^ 31 };

    ghost add_gives = { λ a n r. number r ≡ (number a + n) % 2 ^ 32 };

    fn add(self, rhs: usize) -> TcpSeqNumber {
        TcpSeqNumber(self.0.wrapping_add(rhs as i32))
    }
}

/// Moves a number back, by less than 2<sup>31</sup> steps.
impl Sub<usize> for TcpSeqNumber {
    type Output = TcpSeqNumber;

    ghost can_sub = { λ a n. n < 2 ^ 31 };

    ghost sub_gives = { λ a n r. number r ≡ (number a + (2 ^ 32 - n)) % 2 ^ 32 };

    fn sub(self, rhs: usize) -> TcpSeqNumber {
        TcpSeqNumber(self.0.wrapping_sub(rhs as i32))
    }
}

/// Moves a number forward in place, by less than 2<sup>31</sup> steps.
impl AddAssign<usize> for TcpSeqNumber {
    ghost can_add_assign = { λ a n. n < 2 ^ 31 };

    ghost add_assign_gives = { λ a n r. number r ≡ (number a + n) % 2 ^ 32 };

    fn add_assign(&mut self, rhs: usize) {
        *self = *self + rhs;
    }
}

/// The distance forward from `rhs` to this number, which must not be before `rhs`.
impl Sub for TcpSeqNumber {
    type Output = usize;

    ghost can_sub = { λ a b. ¬ IsBefore a b };

    ghost sub_gives = { λ a b n. n ≡ distance a b };

    fn sub(self, rhs: TcpSeqNumber) -> usize {
        self.0.wrapping_sub(rhs.0) as usize
    }
}
