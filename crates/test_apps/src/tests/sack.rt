//! The two ways to find SACK options: the search that goes on past the end mark, and the summary.

use ip_wire::TcpPacket;
use promises::calls::tcp::sack_by_summary;

/// Whether SACK is permitted, or the first range. By the search, and by the summary. `None` for an error.
type InTwoWays<T> = [Option<T>; 2];

/// The first options of a segment. Whether SACK is permitted, and the first range.
const ROWS: [(&[u8], InTwoWays<bool>, InTwoWays<Option<(u32, u32)>>); 9] = [
    (&[4, 2], [Some(true), Some(true)], [Some(None), Some(None)]),
    (
        &[1, 1],
        [Some(false), Some(false)],
        [Some(None), Some(None)],
    ),
    (
        &[0, 4, 2],
        [Some(true), Some(false)],
        [Some(None), Some(None)],
    ),
    (&[0, 9, 1], [None, Some(false)], [None, Some(None)]),
    (&[9, 1], [None, None], [None, None]),
    (
        &[5, 10, 0, 0, 0, 1, 0, 0, 0, 2],
        [Some(false), Some(false)],
        [Some(Some((1, 2))), Some(Some((1, 2)))],
    ),
    // Two options of the kind, with other ranges and with the same.
    (
        &[5, 10, 0, 0, 0, 1, 0, 0, 0, 2, 5, 10, 0, 0, 0, 3, 0, 0, 0, 4],
        [Some(false), Some(false)],
        [Some(Some((1, 2))), Some(Some((3, 4)))],
    ),
    (
        &[5, 10, 0, 0, 0, 1, 0, 0, 0, 2, 5, 10, 0, 0, 0, 1, 0, 0, 0, 2],
        [Some(false), Some(false)],
        [Some(Some((1, 2))), Some(Some((1, 2)))],
    ),
    (
        &[0, 5, 10, 0, 0, 0, 1, 0, 0, 0, 2],
        [Some(false), Some(false)],
        [Some(Some((1, 2))), Some(None)],
    ),
];

/// Options of 20 bytes that begin with these, with zeros after them.
fn padded(front: &[u8]) -> [u8; 40] {
    let mut segment = [0; 40];
    segment[12] = 0xa0;
    if front.len() <= 20 {
        segment[20..20 + front.len()].copy_from_slice(front);
    }
    segment
}

#[test]
fn finds_sack_in_two_ways(rt: HostRuntime) {
    for (front, permitted, range) in ROWS {
        let segment = padded(front);
        let Ok(packet) = TcpPacket::new_checked(&segment) else {
            assert!(rt; permitted == [None, None] && range == [None, None]);
            continue;
        };
        let (by_search, ranges, summary) = sack_by_summary(&packet);
        let (by_search, ranges, summary) = (by_search.ok(), ranges.ok(), summary.ok());
        let found = [by_search, summary.map(|s| s.sack_permitted)];
        assert!(rt; found == permitted, "{front:?}");
        let first = [ranges.map(|all| all[0]), summary.map(|s| s.sack_ranges[0])];
        assert!(rt; first == range, "{front:?}");
    }
}
