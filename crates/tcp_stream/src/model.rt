//! Two streams over a network that loses, repeats, reorders, splits and joins segments (RFC 9293): what the receiving
//! application reads is what the sending one wrote. The contracts of the code say that each of its steps is one of this model.

ghost use Rattle.std.specs.Prelude.{ℕ, ◌≡◌, ◌⊎◌, ◌+◌, ◌<◌, ◌≤◌, List, [], ◌∷◌, length, true};
ghost use Rattle.tcp_stream.specs.Rounds.{Round, AreRounds, rounds_of};
ghost use Rattle.tcp_stream.specs.Both.{Turn, BothDeliver, run_both, both_start};
ghost use Rattle.tcp_stream.specs.Network.{run, start, Event, Delivers, World, round, bad_day, in_other_segments, bytes_of, is_ended, stream};

/// Whatever the network loses, repeats, reorders, splits or joins: what is read is a prefix of what was written, the
/// end comes after all of it, and nothing counts as acknowledged that was not received.
pub fn delivers()
    ensures { (initial : ℕ) (events : List Event) → Delivers (run events (start initial)) }
{}

/// The same in both directions at once.
pub fn both_deliver()
    ensures { (i j : ℕ) (ts : List Turn) → BothDeliver (run_both ts (both_start i j)) }
{}

/// After any schedule, a round without loss brings the acknowledgement on, until all is acknowledged.
pub fn goes_on()
    ensures { (initial count room : ℕ) (events : List Event)
        → let w : World = run events (start initial) in w.receiver.is_open ≡ true
        → w.acked < length (stream w.written w.closed) → 0 < count → count ≤ 2147483648
        → (0 < room) ⊎ (w.acked < length w.receiver.got) → w.acked < (run (round count room) w).acked }
{}

/// After any schedule, over a network in which anything else is lost, repeated or reordered: if in each round one
/// segment at SND.UNA comes, and its acknowledgement, all that was written is acknowledged after as many rounds as
/// there are items. The receiver has room, and the application writes no more.
pub fn all_is_acknowledged()
    ensures { (initial : ℕ) (events : List Event) (rs : List Round)
        → let w : World = run events (start initial) in w.receiver.is_open ≡ true → AreRounds rs
        → length (stream w.written w.closed) ≤ w.acked + length rs
        → (run (rounds_of rs) w).acked ≡ length (stream w.written w.closed) }
{}

/// A schedule that brings something across.
pub fn something_comes()
    ensures bytes { bytes_of (run bad_day (start 4294967294)).receiver.got ≡ 1 ∷ 2 ∷ 3 ∷ [] }
    ensures end { is_ended (run bad_day (start 4294967294)).receiver.got ≡ true }
    ensures acked { (run bad_day (start 4294967294)).acked ≡ 4 }
    ensures resegmented { bytes_of (run in_other_segments (start 4294967294)).receiver.got ≡ 1 ∷ 2 ∷ 3 ∷ [] }
{}
