//! Samples and back-offs with the timeout after each. The timeouts are those of the formulas of RFC 6298, computed with
//! fractions and rounded down.

use Turn::{Expires, Sample};
use app_congestion::Rto;
use std::process::Abort;

#[derive(Debug, Clone, Copy)]
enum Turn {
    Sample(u32),
    Expires,
}

/// The rows, in order. Each timeout is right to 1 ms.
fn check(rt: &impl Abort, rows: &[(Turn, u32)]) {
    let mut rto = Rto::new();
    assert_eq!(rt; rto.timeout(), 1_000);
    for (i, (turn, timeout)) in rows.iter().enumerate() {
        match turn {
            Sample(rtt) => rto.on_sample(*rtt),
            Expires => rto.back_off(),
        }
        let difference = rto.timeout().abs_diff(*timeout);
        assert!(rt; difference <= 1, "row {i}: {}", rto.timeout());
    }
}

#[test]
fn samples(rt: HostRuntime) {
    // 437.5 after the third one: SRTT 125, RTTVAR 78.125.
    let rows = [
        (Sample(100), 300),
        (Sample(100), 300),
        (Sample(300), 437),
        (Sample(50), 425),
        (Expires, 850),
        (Expires, 1_700),
        (Sample(50), 405),
        (Sample(0), 424),
        (Sample(0), 424),
    ];
    check(&rt, &rows);
    let rows = [
        (Sample(1_000), 3_000),
        (Sample(1_000), 2_500),
        (Sample(1_000), 2_125),
    ];
    check(&rt, &rows);
    let rows = [1_200, 1_000, 850, 737, 653, 600, 600].map(|timeout| (Sample(400), timeout));
    check(&rt, &rows);
}

#[test]
fn bounds(rt: HostRuntime) {
    let rows = [
        (Sample(0), 200),
        (Sample(0), 200),
        (Expires, 400),
        (Sample(1_000), 1_125),
    ];
    check(&rt, &rows);
    check(&rt, &[(Sample(u32::MAX), 60_000), (Sample(100), 60_000)]);
}

#[test]
fn back_offs(rt: HostRuntime) {
    let rows = [
        (Expires, 2_000),
        (Expires, 4_000),
        (Expires, 8_000),
        (Expires, 16_000),
        (Expires, 32_000),
        (Expires, 60_000),
        (Expires, 60_000),
        (Sample(100), 300),
    ];
    check(&rt, &rows);
}

// RFC 8985, section 7.2: 2 SRTT, with 4 RTTVAR or at least 10 ms, and at most the timeout.
#[test]
fn loss_probes(rt: HostRuntime) {
    let mut rto = Rto::new();
    assert_eq!(rt; rto.probe_timeout(), 1_000);
    for (rtt, timeout) in [(20, 80), (20, 70), (100, 162), (1_000, 1_198)] {
        rto.on_sample(rtt);
        let difference = rto.probe_timeout().abs_diff(timeout);
        assert!(rt; difference <= 1, "{rtt}: {}", rto.probe_timeout());
    }
    let mut rto = Rto::new();
    rto.on_sample(0);
    assert_eq!(rt; rto.probe_timeout(), 10);
}

// Section 5.7.
#[test]
fn lost_syn(rt: HostRuntime) {
    let mut rto = Rto::new();
    rto.back_off();
    rto.after_lost_syn();
    assert_eq!(rt; rto.timeout(), 3_000);
}
