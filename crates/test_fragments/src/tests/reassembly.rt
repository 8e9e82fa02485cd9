//! Packets that are put together from fragments, worked by hand as in the example of RFC 815, section 3.

use app_fragment::{Inserted, clear, insert};

/// A fragment: its offset in blocks, its length, the flag "more fragments", the value of each byte, and what `insert`
/// returns.
type Step = (u16, usize, bool, u8, Inserted);

/// The last block comes first, and the first one fills the last hole.
const OUT_OF_ORDER: [Step; 4] = [
    (3, 5, false, b'd', Inserted::Incomplete),
    (2, 8, true, b'c', Inserted::Incomplete),
    (0, 8, true, b'a', Inserted::Incomplete),
    (1, 8, true, b'b', Inserted::Complete),
];

/// Copies, also one that has the bytes of two fragments.
const COPIES: [Step; 6] = [
    (0, 8, true, b'a', Inserted::Incomplete),
    (0, 8, true, b'a', Inserted::Incomplete),
    (1, 8, true, b'a', Inserted::Incomplete),
    (0, 16, true, b'a', Inserted::Incomplete),
    (2, 3, false, b'b', Inserted::Complete),
    (2, 3, false, b'b', Inserted::Complete),
];

/// Overlaps, with other bytes and with the same.
const OVERLAPS: [Step; 6] = [
    (1, 16, true, b'b', Inserted::Incomplete),
    (1, 16, true, b'x', Inserted::Conflict),
    (2, 16, true, b'b', Inserted::Conflict),
    (0, 16, true, b'b', Inserted::Conflict),
    (3, 8, false, b'c', Inserted::Incomplete),
    (0, 8, true, b'a', Inserted::Complete),
];

/// Fragments that end after the last one, and another last one.
const ENDS: [Step; 6] = [
    (1, 4, false, b'b', Inserted::Incomplete),
    (1, 8, true, b'b', Inserted::Conflict),
    (2, 8, true, b'c', Inserted::Conflict),
    (2, 8, false, b'c', Inserted::Conflict),
    (0, 8, false, b'a', Inserted::Conflict),
    (0, 8, true, b'a', Inserted::Complete),
];

/// The lengths of the fragments add up to that of the packet, but the second block is missing.
const LEAK: [Step; 3] = [
    (0, 8, true, b'a', Inserted::Incomplete),
    (3, 8, true, b'b', Inserted::Incomplete),
    (2, 8, false, b'c', Inserted::Conflict),
];

/// No fragments, or too long for the buffer.
const REJECTED: [Step; 6] = [
    (0, 0, true, b'x', Inserted::Rejected),
    (0, 0, false, b'x', Inserted::Rejected),
    (0, 7, true, b'x', Inserted::Rejected),
    (3, 9, false, b'x', Inserted::Rejected),
    (4, 8, true, b'x', Inserted::Rejected),
    (0, 3, false, b'a', Inserted::Complete),
];

/// The fragments, and the payload of their packet; empty if it is not complete.
const ROWS: [(&[Step], &[u8]); 6] = [
    (&OUT_OF_ORDER, b"aaaaaaaabbbbbbbbccccccccddddd"),
    (&COPIES, b"aaaaaaaaaaaaaaaabbb"),
    (&OVERLAPS, b"aaaaaaaabbbbbbbbbbbbbbbbcccccccc"),
    (&ENDS, b"aaaaaaaabbbb"),
    (&LEAK, b""),
    (&REJECTED, b"aaa"),
];

#[test]
fn puts_packets_together(rt: HostRuntime) {
    for (steps, payload) in ROWS {
        let mut buffer = [b'S'; 32];
        let mut received = [0xff; 4];
        let mut ends = clear(&mut received);
        for (first, len, more, byte, inserted) in steps {
            let bytes = [*byte; 16];
            let bytes = &bytes[..(*len).min(16)];
            let first = usize::from(*first);
            let result = insert(&mut buffer, &mut received, &mut ends, first, *more, bytes);
            assert!(rt; result == *inserted, "{first} {bytes:?}");
        }
        assert!(rt; &buffer[..ends.len.min(32)] == payload, "{payload:?}");
    }
}
