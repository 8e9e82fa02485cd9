//! Timestamps by hand from RFC 7323.

use app_options::Agreed;
use wire_tcp_options::TcpOptionSummary;

/// What is agreed on with a peer whose SYN had this timestamp at this time.
fn agreed(offset: u32, timestamp: Option<(u32, u32)>, now: u64) -> Agreed {
    let mut agreed = Agreed::new(offset);
    let options = TcpOptionSummary {
        timestamp,
        ..TcpOptionSummary::default()
    };
    agreed.on_syn(&options, now);
    agreed
}

// TS.Recent, the timestamp of a segment, and whether it is taken: s < t means 0 < (t - s) < 2^31 (section 5.2).
#[test]
fn old_ones(rt: HostRuntime) {
    let rows: [(u32, u32, bool); 9] = [
        (1_000, 1_000, true),
        (1_000, 1_001, true),
        (1_000, 999, false),
        (4_294_967_295, 0, true),
        (0, 4_294_967_295, false),
        (2_147_483_647, 0, false),
        (2_147_483_648, 0, true),
        (100, 2_147_483_748, true),
        (100, 2_147_483_749, false),
    ];
    for (recent, tsval, is_taken) in rows {
        let peer = agreed(0, Some((recent, 7)), 5_000);
        assert_eq!(rt;
            peer.takes(Some((tsval, 7)), 5_000),
            is_taken,
            "{tsval} after {recent}"
        );
    }
}

// TS.Recent is valid for 24 days (section 5.5).
#[test]
fn outdated(rt: HostRuntime) {
    let rows: [(u64, u64, bool); 5] = [
        (1_000, 1_000, false),
        (1_000, 2_073_601_000, false),
        (1_000, 2_073_601_001, true),
        (u64::MAX, u64::MAX, false),
        (18_446_744_071_635_951_614, u64::MAX, true),
    ];
    for (heard_at, now, is_taken) in rows {
        let peer = agreed(0, Some((50, 0)), heard_at);
        assert_eq!(rt;
            peer.takes(Some((49, 0)), now),
            is_taken,
            "{heard_at} {now}"
        );
    }
}

// If it was agreed on, a segment without one is dropped (section 3.2).
#[test]
fn missing(rt: HostRuntime) {
    assert!(rt; !agreed(0, Some((1, 0)), 0).takes(None, 0));
    assert!(rt; agreed(0, None, 0).takes(None, 0));
    assert!(rt; agreed(0, None, 0).takes(Some((1, 0)), 0));
    assert_eq!(rt; agreed(0, None, 0).of_segment(None, 9).timestamp, None);
}

// The start of the clock, the time, TSecr, and the round trip (section 4.1).
#[test]
fn round_trips(rt: HostRuntime) {
    let rows: [(u32, u64, u32, Option<u32>); 7] = [
        (0, 1_000, 400, Some(600)),
        (0, 1_000, 1_000, Some(0)),
        (0, 1_000, 1_001, None),
        (4_294_967_000, 1_000, 4_294_967_196, Some(804)),
        (0, 4_294_967_301, 4_294_967_290, Some(11)),
        (0, 2_147_483_647, 0, Some(2_147_483_647)),
        (0, 2_147_483_648, 0, None),
    ];
    for (offset, now, tsecr, round_trip) in rows {
        let one = agreed(offset, Some((5, 0)), 0);
        assert_eq!(rt;
            one.round_trip(Some((9, tsecr)), now),
            round_trip,
            "{tsecr} at {now}"
        );
    }
    assert_eq!(rt; agreed(0, None, 0).round_trip(Some((9, 400)), 1_000), None);
    assert_eq!(rt; agreed(0, Some((5, 0)), 0).round_trip(None, 1_000), None);
}

// TS.Recent after each segment of section 4.3, the second example. Of these, A, B and D count.
#[test]
fn recent(rt: HostRuntime) {
    let mut peer = agreed(4_294_967_290, Some((0, 0)), 0);
    let rows: [(u32, u64, u32); 3] = [
        (1, 3, 4_294_967_293),
        (2, 6, 0),
        (4, 4_294_967_300, 4_294_967_294),
    ];
    for (tsval, now, stamp) in rows {
        peer.on_timestamp(Some((tsval, 0)), now);
        assert_eq!(rt;
            peer.of_segment(None, now).timestamp,
            Some((stamp, tsval)),
            "{tsval}"
        );
    }
    peer.on_timestamp(None, 9);
    assert_eq!(rt; peer.of_segment(None, 6).timestamp, Some((0, 4)));
    let mut other = agreed(0, None, 0);
    other.on_timestamp(Some((1, 0)), 0);
    assert_eq!(rt; other.of_segment(None, 0).timestamp, None);
}
