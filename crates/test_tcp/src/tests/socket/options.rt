//! Options of both ends, and what they do over time.

use super::scenarios::Turn::{self, Gets, Open, Tick, Write};
use super::scenarios::{End, Flags, Line, plain, syn, syn_ack, tells, text};
use app_connection::State as S;
use std::process::Abort;
use wire_tcp_options::TcpOptionSummary;

/// The size of a receiving ring whose window needs one bit of scale.
const WIDE: usize = 70_000;

/// When something happens, with these options, and what it sends.
type RowWithOptions = (
    u64,
    Turn,
    TcpOptionSummary,
    Option<(Line, TcpOptionSummary)>,
);

fn first_syn(number: u32) -> Line {
    Line {
        window: 65_535,
        ..syn(number)
    }
}

fn wide(number: u32, ack: u32, len: usize) -> Line {
    Line {
        window: 35_000,
        ..plain(number, Some(ack), Flags::None, len)
    }
}

fn goes(line: Line, options: TcpOptionSummary) -> Option<(Line, TcpOptionSummary)> {
    Some((line, options))
}

fn stamped(tsval: u32, tsecr: u32) -> TcpOptionSummary {
    TcpOptionSummary {
        timestamp: Some((tsval, tsecr)),
        ..TcpOptionSummary::default()
    }
}

fn offered(mss: u16, scale: u8, tsval: u32, tsecr: u32) -> TcpOptionSummary {
    TcpOptionSummary {
        max_segment_size: Some(mss),
        window_scale: Some(scale),
        sack_permitted: true,
        ..stamped(tsval, tsecr)
    }
}

fn sacked(
    first: (u32, u32),
    second: Option<(u32, u32)>,
    tsval: u32,
    tsecr: u32,
) -> TcpOptionSummary {
    TcpOptionSummary {
        sack_ranges: [Some(first), second, None, None],
        ..stamped(tsval, tsecr)
    }
}

fn check_options(
    rt: &impl Abort,
    name: &str,
    end: &mut End,
    incoming: &mut [u8],
    rows: &[RowWithOptions],
) {
    for (i, (now, turn, options, sends)) in rows.iter().enumerate() {
        let sent = end.turn(incoming, *now, *turn, options);
        assert_eq!(rt; sent, *sends, "{name}, row {i}");
    }
    assert_eq!(rt; end.socket.state(), S::Established, "{name}");
}

// Both ends agree on a window scale, SACK and timestamps. The first and the third of four segments are lost. Then the peer
// sends text, an old segment, one without timestamp, and one after a gap.
#[test]
fn all_options(rt: HostRuntime) {
    let mut end = End::new();
    let mut incoming = [0; WIDE];
    check_options(&rt, "agree", &mut end, &mut incoming, &agree());
    check_options(&rt, "fill holes", &mut end, &mut incoming, &fill_holes());
    check_options(&rt, "take text", &mut end, &mut incoming, &take_text());
}

fn agree() -> [RowWithOptions; 7] {
    let none = TcpOptionSummary::default();
    let stamp = stamped(159, 7000);
    [
        (
            10,
            Open(99),
            none,
            goes(first_syn(99), offered(1000, 1, 109, 0)),
        ),
        (
            60,
            Gets(syn_ack(299, 100)),
            offered(1460, 7, 7000, 109),
            goes(wide(100, 300, 0), stamp),
        ),
        (60, Write(3952), none, None),
        (60, Tick, none, goes(wide(100, 300, 988), stamp)),
        (60, Tick, none, goes(wide(1088, 300, 988), stamp)),
        (60, Tick, none, goes(wide(2076, 300, 988), stamp)),
        (60, Tick, none, goes(wide(3064, 300, 988), stamp)),
    ]
}

fn fill_holes() -> [RowWithOptions; 7] {
    let none = TcpOptionSummary::default();
    let (second, last) = ((1088, 2076), (3064, 4052));
    let duplicate = Gets(tells(300, 100, 31));
    [
        (110, duplicate, sacked(second, None, 7050, 159), None),
        (111, duplicate, sacked(last, Some(second), 7051, 159), None),
        (112, duplicate, sacked(last, Some(second), 7052, 159), None),
        (
            112,
            Tick,
            none,
            goes(wide(100, 300, 988), stamped(211, 7052)),
        ),
        (
            112,
            Tick,
            none,
            goes(wide(2076, 300, 988), stamped(211, 7052)),
        ),
        (112, Tick, none, None),
        (200, Gets(tells(300, 4052, 31)), stamped(7100, 211), None),
    ]
}

fn take_text() -> [RowWithOptions; 6] {
    let none = TcpOptionSummary::default();
    let told = tells(4052, 1300, 34_500);
    let kept = sacked((2300, 3300), None, 419, 7110);
    [
        (210, Gets(text(300, 4052, 1000)), stamped(7110, 211), None),
        (250, Tick, none, goes(told, stamped(349, 7110))),
        (
            260,
            Gets(text(1300, 4052, 1000)),
            stamped(7109, 211),
            goes(told, stamped(359, 7110)),
        ),
        (270, Gets(text(1300, 4052, 1000)), none, None),
        (310, Tick, none, None),
        (
            320,
            Gets(text(2300, 4052, 1000)),
            stamped(7200, 349),
            goes(told, kept),
        ),
    ]
}

// A loss probe and the time-out send the first of four segments again. Then all are acknowledged. If the acknowledgement echoes the
// timestamp of the first transmission, nothing was lost (RFC 3522), and cwnd has the ten segments of before (RFC 4015): all
// goes but the last part, by Nagle's algorithm. If it echoes that of the probe, slow start goes on with two segments.
#[test]
fn a_spurious_time_out(rt: HostRuntime) {
    let late = [first(260), nothing(260), first(510), nothing(510)];
    check_undo(&rt, "spurious", 159, &late, 520, &after_undo(520));
    check_undo(&rt, "lost", 359, &late, 520, &after_loss(520));
}

// The same of the loss probe by itself. It leaves cwnd (RFC 8985, section 7.3), which has ten segments if nothing was lost. If it
// repaired a loss, cwnd is half of the four segments (section 7.4).
#[test]
fn a_loss_probe_repairs(rt: HostRuntime) {
    let late = [first(260), nothing(260)];
    check_undo(&rt, "spurious", 159, &late, 500, &after_undo(500));
    check_undo(&rt, "lost", 359, &late, 500, &after_loss(500));
}

fn nothing(now: u64) -> RowWithOptions {
    (now, Tick, TcpOptionSummary::default(), None)
}

// The first of the four segments goes.
fn first(now: u64) -> RowWithOptions {
    goes_at(now, wide(100, 300, 988), 7000)
}

fn goes_at(now: u64, line: Line, tsecr: u32) -> RowWithOptions {
    let stamp = stamped(now as u32 + 99, tsecr);
    (now, Tick, TcpOptionSummary::default(), goes(line, stamp))
}

// After the late rows an acknowledgement of all four comes, with this timestamp, and as much text is written.
fn check_undo(
    rt: &impl Abort,
    name: &str,
    tsecr: u32,
    late: &[RowWithOptions],
    now: u64,
    rows: &[RowWithOptions],
) {
    let mut end = End::new();
    let mut incoming = [0; WIDE];
    check_options(rt, name, &mut end, &mut incoming, &agree());
    check_options(rt, name, &mut end, &mut incoming, late);
    let told = [
        (now, Gets(tells(300, 4052, 200)), stamped(7050, tsecr), None),
        (now, Write(3952), TcpOptionSummary::default(), None),
    ];
    check_options(rt, name, &mut end, &mut incoming, &told);
    check_options(rt, name, &mut end, &mut incoming, rows);
}

// The first segment ends where the ring ends.
fn after_undo(now: u64) -> [RowWithOptions; 5] {
    [
        goes_at(now, wide(4052, 300, 48), 7050),
        goes_at(now, wide(4100, 300, 988), 7050),
        goes_at(now, wide(5088, 300, 988), 7050),
        goes_at(now, wide(6076, 300, 988), 7050),
        nothing(now),
    ]
}

fn after_loss(now: u64) -> [RowWithOptions; 3] {
    [
        goes_at(now, wide(4052, 300, 48), 7050),
        goes_at(now, wide(4100, 300, 988), 7050),
        nothing(now),
    ]
}
