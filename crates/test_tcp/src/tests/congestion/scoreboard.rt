//! Acknowledgements with SACK blocks, and the holes after each.

use app_congestion::Scoreboard;
use std::process::Abort;

/// From a sequence number up to another one.
type Edges = (u32, u32);

/// SEG.ACK, the SACK blocks, and the holes, in sequence numbers.
type Row = (u32, &'static [Edges], &'static [Edges]);

/// The rows, in order, of a sender with SND.UNA `una`.
fn check(rt: &impl Abort, name: &str, una: u32, rows: &[Row]) {
    let mut board = Scoreboard::new();
    let mut una = una;
    for (i, (ack, blocks, holes)) in rows.iter().enumerate() {
        board.advance(ack.wrapping_sub(una));
        una = *ack;
        for (left, right) in *blocks {
            board.add(left.wrapping_sub(una), right.wrapping_sub(una));
        }
        assert_eq!(rt; board.is_empty(), holes.is_empty(), "{name}, row {i}");
        let mut from = 0;
        for (left, right) in *holes {
            let hole = (left.wrapping_sub(una), right.wrapping_sub(*left));
            assert_eq!(rt; board.hole(from), Some(hole), "{name}, row {i}: {left}");
            from = right.wrapping_sub(una);
        }
        assert_eq!(rt; board.hole(from), None, "{name}, row {i}");
    }
}

// RFC 2018, section 4: 8 segments of 500 bytes from 5000 on. The last four are lost, and then the first.
#[test]
fn one_block(rt: HostRuntime) {
    check(&rt, "case 1", 5_000, &[(7_000, &[], &[])]);
    let rows: [Row; 8] = [
        (5_000, &[(5_500, 6_000)], &[(5_000, 5_500)]),
        (5_000, &[(5_500, 6_500)], &[(5_000, 5_500)]),
        (5_000, &[(5_500, 7_000)], &[(5_000, 5_500)]),
        (5_000, &[(5_500, 7_500)], &[(5_000, 5_500)]),
        (5_000, &[(5_500, 8_000)], &[(5_000, 5_500)]),
        (5_000, &[(5_500, 8_500)], &[(5_000, 5_500)]),
        (5_000, &[(5_500, 9_000)], &[(5_000, 5_500)]),
        (9_000, &[], &[]),
    ];
    check(&rt, "case 2", 5_000, &rows);
}

// RFC 2018, section 4, case 3: every second segment is lost; then the fourth and the second one come.
#[test]
fn several_blocks(rt: HostRuntime) {
    let rows: [Row; 6] = [
        (5_500, &[], &[]),
        (5_500, &[(6_000, 6_500)], &[(5_500, 6_000)]),
        (
            5_500,
            &[(7_000, 7_500), (6_000, 6_500)],
            &[(5_500, 6_000), (6_500, 7_000)],
        ),
        (
            5_500,
            &[(8_000, 8_500), (7_000, 7_500), (6_000, 6_500)],
            &[(5_500, 6_000), (6_500, 7_000), (7_500, 8_000)],
        ),
        (
            5_500,
            &[(6_000, 7_500), (8_000, 8_500)],
            &[(5_500, 6_000), (7_500, 8_000)],
        ),
        (7_500, &[(8_000, 8_500)], &[(7_500, 8_000)]),
    ];
    check(&rt, "case 3", 5_000, &rows);
}

// Over the end of the sequence numbers, with an empty block and one that ends before it begins.
#[test]
fn wraps(rt: HostRuntime) {
    let rows: [Row; 3] = [
        (
            4_294_967_000,
            &[(4_294_967_100, 4), (4, 4), (8, 6)],
            &[(4_294_967_000, 4_294_967_100)],
        ),
        (
            4_294_967_050,
            &[(104, 204)],
            &[(4_294_967_050, 4_294_967_100), (4, 104)],
        ),
        (204, &[], &[]),
    ];
    check(&rt, "wraps", 4_294_967_000, &rows);
}

// Of five separate ranges the highest is forgotten.
#[test]
fn forgets(rt: HostRuntime) {
    let mut board = Scoreboard::new();
    for from in [10, 30, 90, 70, 50] {
        board.add(from, from + 10);
    }
    assert_eq!(rt; board.hole(60), Some((60, 10)));
    assert_eq!(rt; board.hole(75), None);
    assert_eq!(rt; board.total(), 40);
    board.add(20, 50);
    board.add(90, 100);
    assert_eq!(rt; board.hole(15), Some((60, 10)));
    assert_eq!(rt; board.hole(75), Some((80, 10)));
    assert_eq!(rt; board.total(), 70);
    board.advance(15);
    assert_eq!(rt; board.total(), 65);
    board.clear();
    assert_eq!(rt; board.hole(0), None);
    assert_eq!(rt; board.total(), 0);
}
