//! Laws of sequence numbers and options. A law states a fact about definitions, and its body does nothing.
//! `seq_calls_agree` compares calls: its body makes them.

ghost use Rattle.net_base.specs.declared.Error.{Error};
ghost use Rattle.std.specs.Prelude.{◌≡◌, ◌+◌, ◌%◌, ◌^◌, ◌<◌, ℕ, Bool, List, Option, Result, replicate, true};
ghost use Rattle.wire_tcp_options.specs.TcpItems.{IsOptionList, Item};
ghost use Rattle.wire_tcp_options.specs.TcpSeq.{IsAfter, IsBefore, distance, number};
ghost use Rattle.wire_tcp_options.specs.TcpSummary.{HasNoList, Summarizes};
ghost use Rattle.wire_tcp_options.specs.TcpWalk.{Answers, IsLongWalk, Mark};

use crate::tcp::{TcpOptionSummary, TcpSeqNumber};
use std::cmp::Ordering;

/// The number `steps` after another one is after it, at that distance, if `steps` is below 2^31.
/// Two numbers half the circle apart are each before the other.
pub fn seq_forward(from: TcpSeqNumber, steps: u32, to: TcpSeqNumber)
    requires { number to ≡ (number from + steps) % 2 ^ 32 }
    ensures distance { distance to from ≡ steps }
    ensures after { 0 < steps → steps < 2 ^ 31 → IsAfter to from }
    ensures opposite { steps ≡ 2 ^ 31 → IsBefore to from × IsBefore from to }
{}

/// The calls agree on a number and another one that is `steps` forward from it: the second is after the
/// first, and `steps` away. The result says of each comparison whether it agrees.
pub fn seq_calls_agree(from: TcpSeqNumber, steps: usize) -> [bool; 8]
    requires some { 0 < steps }
    requires half { steps < 2 ^ 31 }
    ensures { result ≡ replicate 8 true }
{
    let to = from + steps;
    [
        [
            to.seq_gt(from),
            to.seq_ge(from),
            to.seq_le(from),
            to.seq_lt(from),
        ] == [true, true, false, false],
        [
            from.seq_gt(to),
            from.seq_ge(to),
            from.seq_le(to),
            from.seq_lt(to),
        ] == [false, false, true, true],
        to.seq_cmp(from) == Ordering::Greater,
        from.seq_cmp(to) == Ordering::Less,
        to - from == steps,
        (to - steps) - from == 0,
        to.max(from) == to,
        to.min(from) == from,
    ]
}

/// Bytes have at most one option list.
pub fn one_option_list(bytes: &[u8])
    ensures { (items others : List Item) (tail left : List ℕ) →
        IsOptionList bytes.now items tail → IsOptionList bytes.now others left →
        (items ≡ others) × (tail ≡ left) }
{}

/// All bytes have exactly one longest walk over options.
pub fn one_long_walk(bytes: &[u8])
    ensures some { (marks : List Mark) × (rest : List ℕ) × IsLongWalk bytes.now marks rest }
    ensures only { (marks others : List Mark) (rest left : List ℕ) →
        IsLongWalk bytes.now marks rest → IsLongWalk bytes.now others left →
        (marks ≡ others) × (rest ≡ left) }
{}

/// Bytes have one summary of their options, or no option list.
pub fn one_summary(bytes: &[u8], a: TcpOptionSummary, b: TcpOptionSummary)
    ensures one { Summarizes bytes.now a → Summarizes bytes.now b → a ≡ b }
    ensures not_both { Summarizes bytes.now a → ¬ HasNoList bytes.now }
{}

/// A search for the first option of a kind has one result.
pub fn one_walk_answer(bytes: &[u8])
    ensures permitted { (kind : ℕ) (value : Item → Bool) (default : Bool) (a b : Result Bool Error) →
        Answers bytes.now kind value default a → Answers bytes.now kind value default b → a ≡ b }
    ensures ranges { (kind : ℕ) (value : Item → List (Option (ℕ × ℕ))) (default : List (Option (ℕ × ℕ))) (a b : Result (List (Option (ℕ × ℕ))) Error) →
        Answers bytes.now kind value default a → Answers bytes.now kind value default b → a ≡ b }
{}
