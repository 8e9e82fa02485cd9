//! Laws of several calls.

ghost use Rattle.std.specs.Prelude.{◌≡◌, ◌+◌, ◌≤◌, sum_by, false};
ghost use Rattle.app_congestion.specs.Congestion.{is_in_recovery, is_past};

use crate::{Congestion, Rto};

/// After nine time-outs in a row the timeout is the longest.
pub fn nine_back_offs_reach_the_longest(rto: &mut Rto)
    ensures { rto.new.timeout ≡ 60000 }
{
    for _ in 0..9u8 {
        rto.back_off();
    }
}

/// In congestion avoidance the window grows by at most one segment while at most the bytes of a window are acknowledged (RFC
/// 5681, section 3.1). The triples are what `on_ack` takes.
pub fn avoidance_adds_a_segment_per_window(c: &mut Congestion, acks: &[(u32, u32, u32)])
    requires avoidance { c.old.ssthresh ≤ c.old.cwnd }
    requires outside { is_in_recovery c.old.phase ≡ false }
    requires window { sum_by (λ a. a.0) acks.now ≤ c.old.cwnd }
    ensures { c.new.cwnd ≤ c.old.cwnd + c.old.mss }
{
    for (newly, flight, una) in acks {
        let _ = c.on_ack(*newly, *flight, *una);
    }
}

/// Once new data is acknowledged, cwnd is what it would be without a duplicate acknowledgement that sent nothing again outside
/// fast recovery (RFC 3042, section 2). Returns whether it sent something again, and cwnd without it. The triples are what
/// `on_duplicate` and `on_ack` take.
pub fn a_duplicate_leaves_cwnd(
    c: &mut Congestion,
    duplicate: (u32, u32, u32),
    ack: (u32, u32, u32),
) -> (bool, u32)
    requires outside { is_in_recovery c.old.phase ≡ false }
    requires room { c.old.cwnd + c.old.mss ≤ 1073741824 }
    requires acknowledges { 1 ≤ ack.0 }
    ensures { result.0 ≡ false → c.new.cwnd ≡ result.1 }
{
    let mut other = *c;
    let again = c.on_duplicate(duplicate.0, duplicate.1, duplicate.2);
    let _ = c.on_ack(ack.0, ack.1, ack.2);
    let _ = other.on_ack(ack.0, ack.1, ack.2);
    (again, other.cwnd())
}

/// In and after fast recovery, and after a time-out, duplicate acknowledgements of no more than `recover` send nothing again
/// (RFC 6582, section 3.2).
pub fn old_duplicates_send_nothing_again(
    c: &mut Congestion,
    flight: u32,
    una: u32,
    next: u32,
    count: u32,
) -> bool
    ensures { is_past c.old.phase una ≡ false → result ≡ false }
{
    let mut again = false;
    for _ in 0..count {
        again = c.on_duplicate(flight, una, next) || again;
    }
    again
}
