//! Events of a sender with cwnd and ssthresh after each, by hand from RFC 3042, RFC 3465, RFC 5681,
//! RFC 6582, RFC 4015, RFC 6928, RFC 7661 and RFC 8985.

use Turn::{Ack, Duplicate, Probe, Timeout, Undo};
use app_congestion::{Congestion, MAX_CWND};
use std::process::Abort;

#[derive(Debug, Clone, Copy)]
enum Turn {
    /// The bytes that are acknowledged, those in flight, and the first of them.
    Ack(u32, u32, u32),
    /// The bytes in flight, the first of them, and the next number.
    Duplicate(u32, u32, u32),
    /// The bytes in flight, and the next number.
    Probe(u32, u32),
    Timeout(u32, u32),
    /// cwnd and ssthresh of before.
    Undo(u32, u32),
}

/// What happens, cwnd and ssthresh then, and whether the first segment is sent again.
type Row = (Turn, u32, u32, bool);

/// The rows, in order, with segments of 1,000 bytes.
fn check(rt: &impl Abort, name: &str, rows: &[Row]) {
    let mut c = Congestion::new(1_000);
    for (i, (turn, cwnd, ssthresh, again)) in rows.iter().enumerate() {
        let sends = match *turn {
            Ack(newly, flight, una) => c.on_ack(newly, flight, una),
            Duplicate(flight, una, next) => c.on_duplicate(flight, una, next),
            Probe(flight, next) => {
                c.on_probe(flight, next);
                false
            }
            Timeout(flight, next) => {
                c.on_timeout(flight, next);
                false
            }
            Undo(cwnd, ssthresh) => {
                c.undo(cwnd, ssthresh);
                false
            }
        };
        assert_eq!(rt; c.cwnd(), *cwnd, "{name}, row {i}: cwnd");
        assert_eq!(rt; c.ssthresh(), *ssthresh, "{name}, row {i}: ssthresh");
        assert_eq!(rt; sends, *again, "{name}, row {i}: whether it sends again");
    }
}

// RFC 6928, section 2: min (10*MSS, max (2*MSS, 14600)).
#[test]
fn initial_windows(rt: HostRuntime) {
    let rows: [(u16, u32); 7] = [
        (0, 10),
        (1, 10),
        (536, 5_360),
        (1_460, 14_600),
        (2_190, 14_600),
        (9_000, 18_000),
        (65_535, 131_070),
    ];
    for (mss, cwnd) in rows {
        assert_eq!(rt; Congestion::new(mss).cwnd(), cwnd, "{mss}");
    }
}

#[test]
fn fast_recovery(rt: HostRuntime) {
    let rows = [
        // Slow start before a loss: at most two segments each.
        (Ack(1_000, 9_000, 1_001), 11_000, MAX_CWND, false),
        (Ack(500, 9_000, 1_501), 11_500, MAX_CWND, false),
        (Ack(3_000, 9_000, 4_501), 13_500, MAX_CWND, false),
        // Two segments are lost. The third duplicate: half of 12,001, and three segments.
        (Duplicate(12_001, 4_501, 16_501), 14_500, MAX_CWND, false),
        (Duplicate(12_001, 4_501, 16_501), 15_500, MAX_CWND, false),
        (Duplicate(12_001, 4_501, 16_501), 9_000, 6_000, true),
        (Duplicate(12_000, 4_501, 16_501), 10_000, 6_000, false),
        (Duplicate(12_000, 4_501, 16_501), 11_000, 6_000, false),
        // Partial acknowledgements, of more than a segment and of less.
        (Ack(2_000, 10_000, 6_501), 10_000, 6_000, true),
        (Ack(500, 9_500, 7_001), 9_500, 6_000, true),
        (Duplicate(9_500, 7_001, 16_501), 10_500, 6_000, false),
        // A full one: FlightSize and a segment.
        (Ack(9_500, 3_000, 16_501), 4_000, 6_000, false),
        // No more than `recover` is acknowledged.
        (Duplicate(3_000, 16_501, 19_501), 5_000, 6_000, false),
        (Duplicate(3_000, 16_501, 19_501), 6_000, 6_000, false),
        (Duplicate(3_000, 16_501, 19_501), 6_000, 6_000, false),
        (Ack(1_000, 2_000, 17_501), 5_000, 6_000, false),
        // More is.
        (Duplicate(5_001, 17_501, 22_502), 6_000, 6_000, false),
        (Duplicate(5_001, 17_501, 22_502), 7_000, 6_000, false),
        (Duplicate(5_001, 17_501, 22_502), 5_500, 2_500, true),
    ];
    check(&rt, "fast recovery", &rows);
}

// RFC 3465, section 2.3: L = 2 before the first loss, and L = 1 in the slow start after a time-out.
#[test]
fn byte_counting(rt: HostRuntime) {
    let rows = [
        (Ack(1, 9_999, 2), 10_001, MAX_CWND, false),
        (Ack(1_999, 9_000, 2_001), 12_000, MAX_CWND, false),
        (Ack(2_000, 9_000, 4_001), 14_000, MAX_CWND, false),
        (Ack(8_000, 5_000, 12_001), 16_000, MAX_CWND, false),
        (Timeout(16_000, 28_001), 1_000, 8_000, false),
        (Ack(2_000, 14_000, 14_001), 2_000, 8_000, false),
        // All that was sent before the time-out is acknowledged, and slow start goes on.
        (Ack(14_001, 2_000, 28_002), 3_000, 8_000, false),
        (Ack(2_000, 2_000, 30_002), 4_000, 8_000, false),
        // Not after an undo.
        (Undo(14_000, MAX_CWND), 14_000, MAX_CWND, false),
        (Ack(2_000, 12_000, 32_002), 16_000, MAX_CWND, false),
    ];
    check(&rt, "byte counting", &rows);
}

// RFC 7661, sections 4.3 and 4.4: cwnd grows while at least half of it was in flight, in slow start and in congestion avoidance.
#[test]
fn validation(rt: HostRuntime) {
    let rows = [
        (Ack(2_000, 2_999, 2_001), 10_000, MAX_CWND, false),
        (Ack(2_000, 3_000, 4_001), 12_000, MAX_CWND, false),
        (Ack(1, 0, 4_002), 12_000, MAX_CWND, false),
        (Undo(4_000, 2_000), 4_000, 2_000, false),
        // 3,000 of 4,000 bytes are counted, and forgotten when less than half was in flight.
        (Ack(3_000, 1_000, 7_002), 4_000, 2_000, false),
        (Ack(1_000, 999, 8_002), 4_000, 2_000, false),
        (Ack(3_999, 1_000, 12_001), 4_000, 2_000, false),
        (Ack(1, 1_999, 12_002), 5_000, 2_000, false),
        // What limited transmit allows does not count.
        (Duplicate(2_500, 12_002, 14_502), 6_000, 2_000, false),
        (Ack(2_500, 0, 14_502), 5_000, 2_000, false),
        (Ack(2_500, 0, 17_002), 6_000, 2_000, false),
    ];
    check(&rt, "validation", &rows);
}

// RFC 4015: after a spurious time-out cwnd and ssthresh are as before, and slow start goes on. The next loss is one of its own:
// the next time-out sets ssthresh again, and duplicates of what was in flight count.
#[test]
fn an_undo(rt: HostRuntime) {
    let rows = [
        (Timeout(10_000, 10_001), 1_000, 5_000, false),
        (Undo(10_000, MAX_CWND), 10_000, MAX_CWND, false),
        (Timeout(9_000, 10_001), 1_000, 4_500, false),
        (Undo(10_000, MAX_CWND), 10_000, MAX_CWND, false),
        (Ack(1_000, 9_000, 1_001), 11_000, MAX_CWND, false),
        (Duplicate(9_000, 1_001, 10_001), 12_000, MAX_CWND, false),
        (Duplicate(9_000, 1_001, 10_001), 13_000, MAX_CWND, false),
        (Duplicate(9_000, 1_001, 10_001), 7_500, 4_500, true),
        (Undo(11_000, 8_000), 11_000, 8_000, false),
        // At least a segment, and two.
        (Undo(0, 0), 1_000, 2_000, false),
    ];
    check(&rt, "an undo", &rows);
}

// RFC 3042, section 2: each of the first two duplicates allows a segment; cwnd is not changed by them. RFC 5681, section 3.2,
// step 2: what they sent does not count for ssthresh.
#[test]
fn limited_transmit(rt: HostRuntime) {
    let rows = [
        (Timeout(10_000, 10_001), 1_000, 5_000, false),
        (Ack(1_000, 9_000, 1_001), 2_000, 5_000, false),
        (Ack(1_000, 8_000, 2_001), 3_000, 5_000, false),
        (Ack(10_000, 4_000, 12_001), 4_000, 5_000, false),
        // Reordering: two duplicates, and slow start from 4,000 on.
        (Duplicate(4_000, 12_001, 16_001), 5_000, 5_000, false),
        (Duplicate(5_000, 12_001, 17_001), 6_000, 5_000, false),
        (Ack(2_000, 4_000, 14_001), 5_000, 5_000, false),
        // A loss: 4,000 bytes are in flight at the first duplicate, and 6,000 at the third.
        (Duplicate(4_000, 14_001, 18_001), 6_000, 5_000, false),
        (Duplicate(5_000, 14_001, 19_001), 7_000, 5_000, false),
        (Duplicate(6_000, 14_001, 20_001), 5_000, 2_000, true),
        (Duplicate(6_000, 14_001, 20_001), 6_000, 2_000, false),
        (Ack(6_000, 0, 20_001), 2_000, 2_000, false),
        // Congestion avoidance: a duplicate, and a segment for 3,000 bytes.
        (Ack(2_000, 1_000, 22_001), 3_000, 2_000, false),
        (Duplicate(3_000, 22_001, 25_001), 4_000, 2_000, false),
        (Ack(2_999, 1, 25_000), 3_000, 2_000, false),
        (Ack(1, 2_000, 25_001), 4_000, 2_000, false),
    ];
    check(&rt, "limited transmit", &rows);
}

// RFC 3042, section 2: at most cwnd and two segments are in flight, if the window of the receiver allows it.
#[test]
fn limited_flight(rt: HostRuntime) {
    let mut c = Congestion::new(1_000);
    assert_eq!(rt; c.may_send(65_535, 10_000), 0);
    let _ = c.on_duplicate(10_000, 1, 10_001);
    assert_eq!(rt; c.may_send(65_535, 10_000), 1_000);
    assert_eq!(rt; c.may_send(10_000, 10_000), 0);
    let _ = c.on_duplicate(11_000, 1, 11_001);
    assert_eq!(rt; c.may_send(65_535, 11_000), 1_000);
    assert_eq!(rt; c.may_send(65_535, 12_000), 0);
}

// RFC 8985, section 7.4, and RFC 5681, section 4.3: the loss of a retransmission halves ssthresh again.
#[test]
fn loss_probes(rt: HostRuntime) {
    let rows = [
        (Probe(8_001, 8_002), 4_000, 4_000, false),
        (Duplicate(8_001, 1, 8_002), 5_000, 4_000, false),
        (Probe(8_001, 8_002), 2_000, 2_000, false),
        (Ack(2_000, 6_001, 2_001), 1_000, 2_000, true),
        (Ack(6_001, 0, 8_002), 2_000, 2_000, false),
    ];
    check(&rt, "loss probes", &rows);
    // What limited transmit sent does not count.
    let rows = [
        (Duplicate(10_000, 1, 10_001), 11_000, MAX_CWND, false),
        (Duplicate(11_000, 1, 11_001), 12_000, MAX_CWND, false),
        (Probe(12_000, 12_001), 5_000, 5_000, false),
    ];
    check(&rt, "after limited transmit", &rows);
}

#[test]
fn time_outs(rt: HostRuntime) {
    let rows = [
        (Timeout(5_001, 22_502), 1_000, 2_500, false),
        // The segment was sent again by the timer: ssthresh stays.
        (Timeout(1_000, 22_502), 1_000, 2_500, false),
        // Slow start, also after three duplicates of what was sent before.
        (Ack(1_000, 4_001, 18_501), 2_000, 2_500, false),
        (Duplicate(4_001, 18_501, 22_502), 3_000, 2_500, false),
        (Duplicate(4_001, 18_501, 22_502), 4_000, 2_500, false),
        (Duplicate(4_001, 18_501, 22_502), 4_000, 2_500, false),
        (Ack(1_000, 3_001, 19_501), 3_000, 2_500, false),
        // Congestion avoidance: a segment for 3,000 bytes.
        (Ack(1_000, 2_001, 20_501), 3_000, 2_500, false),
        (Ack(1_999, 2, 22_500), 3_000, 2_500, false),
        (Ack(1, 2_000, 22_501), 4_000, 2_500, false),
        (Ack(1, 2_000, 22_502), 4_000, 2_500, false),
        // At least two segments. Another time-out halves again.
        (Timeout(3_000, 25_502), 1_000, 2_000, false),
    ];
    check(&rt, "time-outs", &rows);
}

// RFC 5681, section 4.1; RFC 6928, section 2.
#[test]
fn idle_and_lost_syn(rt: HostRuntime) {
    let mut c = Congestion::new(1_000);
    let _ = c.on_ack(1_000, 9_000, 1_001);
    assert_eq!(rt; c.cwnd(), 11_000);
    c.on_idle();
    assert_eq!(rt; c.cwnd(), 10_000);
    assert_eq!(rt; c.may_send(9_000, 4_000), 5_000);
    c.after_lost_syn();
    assert_eq!(rt; c.cwnd(), 1_000);
    c.on_idle();
    assert_eq!(rt; c.cwnd(), 1_000);
}

// Over the end of the sequence numbers.
#[test]
fn wraps(rt: HostRuntime) {
    let rows = [
        (
            Duplicate(8_000, 4_294_965_000, 5_704),
            11_000,
            MAX_CWND,
            false,
        ),
        (
            Duplicate(8_000, 4_294_965_000, 5_704),
            12_000,
            MAX_CWND,
            false,
        ),
        (Duplicate(8_000, 4_294_965_000, 5_704), 7_000, 4_000, true),
        (Ack(1_000, 7_000, 4_294_966_000), 7_000, 4_000, true),
        (Ack(7_000, 4_000, 5_704), 4_000, 4_000, false),
    ];
    check(&rt, "wraps", &rows);
}
