//! The options of TCP segments.

use super::pretty_print::Shown;
use ip_wire::{SACK_BLOCKS, TcpOption};
use test_support::bytes::has_front;

/// Texts of packets and values.
pub(super) const SHOWN: &[(Shown, &str)] = &[
    // One SACK range, and four
    (
        Shown::Tcp(b"\0\0\0\0\0\0\0\0\0\0\0\0\x80\0\0\0\0\0\0\0\x05\x0a\0\0\0\x01\0\0\0\x02\0\0"),
        "TCP src=0 dst=0 seq=0 win=0 len=0 sACKr[Some((1, 2)), None, None, None]",
    ),
    (
        Shown::Tcp(
            b"\0\0\0\0\0\0\0\0\0\0\0\0\xe0\0\0\0\0\0\0\0\x05\x22\0\0\0\x01\0\0\0\x02\0\0\0\x03\0\0\0\x04\0\0\0\x05\0\0\0\x06\0\0\0\x07\0\0\0\x08\0\0",
        ),
        "TCP src=0 dst=0 seq=0 win=0 len=0 sACKr[Some((1, 2)), Some((3, 4)), Some((5, 6)), Some((7, 8))]",
    ),
    (
        Shown::Tcp(
            b"\0\0\0\0\0\0\0\0\0\0\0\0\x90\0\0\0\0\0\0\0\x02\x04\x05\xb4\x04\x02\x08\x0a\0\0\0\x01\xff\xff\xff\xff",
        ),
        "TCP src=0 dst=0 seq=0 win=0 len=0 mss=1460 sACK tsval 00000001 tsecr ffffffff",
    ),
    // An unknown option, and a SACK option without a range
    (
        Shown::Tcp(b"\0\0\0\0\0\0\0\0\0\0\0\0\x70\0\0\0\0\0\0\0\x03\x03\x07\x0c\x02\x02\x05\0"),
        "TCP src=0 dst=0 seq=0 win=0 len=0 ws=7 opt(12) (wire::Error)",
    ),
];

/// No ranges.
const NO_RANGES: [Option<(u32, u32)>; SACK_BLOCKS] = [None; SACK_BLOCKS];

/// Ranges, and the bytes of the option with them.
const RANGES: &[([Option<(u32, u32)>; SACK_BLOCKS], &[u8])] = &[
    (
        [None, Some((1, 2)), Some((3, 4)), None],
        &[0x05, 0x12, 0, 0, 0, 1, 0, 0, 0, 2, 0, 0, 0, 3, 0, 0, 0, 4],
    ),
    (NO_RANGES, &[0x05, 0x02]),
];

#[test]
fn writes_ranges_without_gaps(rt: HostRuntime) {
    for (ranges, bytes) in RANGES {
        let option = TcpOption::SackRange(*ranges);
        let mut buffer = [0xff; 36];
        let len = option.buffer_len();
        let is_emitted = len <= 36 && option.emit(&mut buffer).len() == 36 - len;
        assert!(rt; is_emitted && len == bytes.len() && has_front(&buffer, bytes, 0xff));
    }
}
