//! Packets that are put together from their fragments. The first rows are the fragments of appendix A, example 2 of RFC 791;
//! `ipv4_fragments` has their headers. The others over IPv4 are worked by hand from section 3.2. Scapy made the fragments
//! over IPv6, and the checksums of IPv4 headers with codepoints of explicit congestion notification.

ghost use Rattle.std.specs.Prelude.{◌≤◌, ◌<◌, ◌*◌, length};

use super::ipv4_fragments::{
    DATAGRAM, EMPTY, FIRST, OPTIONS, OPTIONS_0, OPTIONS_1, SECOND, between,
};
use app_fragment::{Datagram, FragKey, Inserted, begin, write_alone};
use test_support::bytes::change;

/// A packet: its header, the place of its payload in that of the datagram, the bytes that change, and what `insert`
/// returns.
type Step<'a> = (&'a [u8], usize, &'a [(usize, u8)], Inserted);

const IN_ORDER: [Step<'static>; 2] = [
    (&FIRST, 0, &[], Inserted::Incomplete),
    (&SECOND, 256, &[], Inserted::Complete),
];

const LAST_FIRST: [Step<'static>; 2] = [
    (&SECOND, 256, &[], Inserted::Incomplete),
    (&FIRST, 0, &[], Inserted::Complete),
];

const COPIES: [Step<'static>; 4] = [
    (&FIRST, 0, &[], Inserted::Incomplete),
    (&FIRST, 0, &[], Inserted::Incomplete),
    (&SECOND, 256, &[], Inserted::Complete),
    (&FIRST, 0, &[], Inserted::Complete),
];

/// Another identification, protocol, source and destination, with a right checksum.
const OTHER_KEYS: [Step<'static>; 6] = [
    (&FIRST, 0, &[], Inserted::Incomplete),
    (&SECOND, 256, &[(5, 0x70), (11, 0x8c)], Inserted::Rejected),
    (&SECOND, 256, &[(9, 0x07), (11, 0x8c)], Inserted::Rejected),
    (&SECOND, 256, &[(15, 0x02), (11, 0x8c)], Inserted::Rejected),
    (&SECOND, 256, &[(19, 0x03), (11, 0x8c)], Inserted::Rejected),
    (&SECOND, 256, &[], Inserted::Complete),
];

/// A wrong checksum, a wrong version and wrong lengths, the last three with a right checksum; and a wrong byte in a copy.
const INVALID: [Step<'static>; 7] = [
    (&FIRST, 0, &[], Inserted::Incomplete),
    (&SECOND, 256, &[(11, 0x8e)], Inserted::Rejected),
    (&SECOND, 256, &[(0, 0x65), (10, 0x9e)], Inserted::Rejected),
    (
        &SECOND,
        256,
        &[(0, 0x44), (10, 0x81), (11, 0x90)],
        Inserted::Rejected,
    ),
    (&SECOND, 256, &[(2, 0x03), (10, 0xbb)], Inserted::Rejected),
    (&FIRST, 0, &[(20, 0x01)], Inserted::Conflict),
    (&SECOND, 256, &[], Inserted::Complete),
];

const WITHOUT_FIRST: [Step<'static>; 2] = [
    (&SECOND, 256, &[], Inserted::Incomplete),
    (&SECOND, 256, &[], Inserted::Incomplete),
];

const WITHOUT_LAST: [Step<'static>; 1] = [(&FIRST, 0, &[], Inserted::Incomplete)];

const WHOLE: [Step<'static>; 1] = [(&DATAGRAM, 0, &[], Inserted::Complete)];

/// A packet without payload is rejected.
const NOTHING: [Step<'static>; 1] = [(&EMPTY, 0, &[], Inserted::Rejected)];

/// The options are those of the first fragment.
const WITH_OPTIONS: [Step<'static>; 2] = [
    (&OPTIONS_1, 32, &[], Inserted::Incomplete),
    (&OPTIONS_0, 0, &[], Inserted::Complete),
];

/// The fragments of a packet with a payload of 400 bytes, and this packet.
const IPV6_0: [u8; 48] = [
    0x6b, 0x81, 0x23, 0x45, 0x01, 0x00, 0x2c, 0x3f, 0x20, 0x01, 0x0d, 0xb8, 0x00, 0x00, 0x00, 0x00,
    0x00, 0x00, 0x00, 0x00, 0x00, 0x00, 0x00, 0x01, 0x20, 0x01, 0x0d, 0xb8, 0x00, 0x00, 0x00, 0x00,
    0x00, 0x00, 0x00, 0x00, 0x00, 0x00, 0x00, 0x02, 0x11, 0x00, 0x00, 0x01, 0xde, 0xad, 0xbe, 0xef,
];

const IPV6_1: [u8; 48] = [
    0x6b, 0x81, 0x23, 0x45, 0x00, 0xa0, 0x2c, 0x3f, 0x20, 0x01, 0x0d, 0xb8, 0x00, 0x00, 0x00, 0x00,
    0x00, 0x00, 0x00, 0x00, 0x00, 0x00, 0x00, 0x01, 0x20, 0x01, 0x0d, 0xb8, 0x00, 0x00, 0x00, 0x00,
    0x00, 0x00, 0x00, 0x00, 0x00, 0x00, 0x00, 0x02, 0x11, 0x00, 0x00, 0xf8, 0xde, 0xad, 0xbe, 0xef,
];

const IPV6: [u8; 40] = [
    0x6b, 0x81, 0x23, 0x45, 0x01, 0x90, 0x11, 0x3f, 0x20, 0x01, 0x0d, 0xb8, 0x00, 0x00, 0x00, 0x00,
    0x00, 0x00, 0x00, 0x00, 0x00, 0x00, 0x00, 0x01, 0x20, 0x01, 0x0d, 0xb8, 0x00, 0x00, 0x00, 0x00,
    0x00, 0x00, 0x00, 0x00, 0x00, 0x00, 0x00, 0x02,
];

/// All of it with a fragment header (RFC 6946).
const ATOMIC: [u8; 48] = [
    0x6b, 0x81, 0x23, 0x45, 0x01, 0x98, 0x2c, 0x3f, 0x20, 0x01, 0x0d, 0xb8, 0x00, 0x00, 0x00, 0x00,
    0x00, 0x00, 0x00, 0x00, 0x00, 0x00, 0x00, 0x01, 0x20, 0x01, 0x0d, 0xb8, 0x00, 0x00, 0x00, 0x00,
    0x00, 0x00, 0x00, 0x00, 0x00, 0x00, 0x00, 0x02, 0x11, 0x00, 0x00, 0x00, 0xde, 0xad, 0xbe, 0xef,
];

const IPV6_LAST_FIRST: [Step<'static>; 2] = [
    (&IPV6_1, 248, &[], Inserted::Incomplete),
    (&IPV6_0, 0, &[], Inserted::Complete),
];

const IPV6_WHOLE: [Step<'static>; 1] = [(&ATOMIC, 0, &[], Inserted::Complete)];

/// Another source, destination and identification, and a fragment with another next header, which counts only in the
/// first one (RFC 8200, section 4.5).
const IPV6_KEYS: [Step<'static>; 5] = [
    (&IPV6_0, 0, &[], Inserted::Incomplete),
    (&IPV6_1, 248, &[(23, 0x03)], Inserted::Rejected),
    (&IPV6_1, 248, &[(39, 0x03)], Inserted::Rejected),
    (&IPV6_1, 248, &[(44, 0xdf)], Inserted::Rejected),
    (&IPV6_1, 248, &[(40, 0x3a)], Inserted::Complete),
];

/// A wrong version, another header after the fixed one, a payload of 7 bytes, and one that is longer than the bytes.
const IPV6_INVALID: [Step<'static>; 6] = [
    (&IPV6_0, 0, &[], Inserted::Incomplete),
    (&IPV6_1, 248, &[(0, 0x5b)], Inserted::Rejected),
    (&IPV6_1, 248, &[(6, 0x3c)], Inserted::Rejected),
    (&IPV6_1, 248, &[(5, 0x07)], Inserted::Rejected),
    (&IPV6_1, 248, &[(4, 0x02)], Inserted::Rejected),
    (&IPV6_1, 248, &[], Inserted::Complete),
];

type Change = (usize, u8);

/// The codepoints Not-ECT, ECT(1), ECT(0) and CE in an IPv6 header.
const NOT_ECT: [Change; 1] = [(1, 0x81)];

const ECT_1: [Change; 1] = [(1, 0x91)];

const ECT_0: [Change; 1] = [(1, 0xa1)];

const CE: [Change; 1] = [(1, 0xb1)];

/// ECT(0) in the first fragment of RFC 791, and ECT(0) and CE in the second one.
const FIRST_ECT_0: [Change; 2] = [(1, 0x02), (11, 0x6f)];

const SECOND_ECT_0: [Change; 2] = [(1, 0x02), (11, 0x8b)];

const SECOND_CE: [Change; 2] = [(1, 0x03), (11, 0x8a)];

const WITH_CE: [Step<'static>; 2] = [
    (&FIRST, 0, &FIRST_ECT_0, Inserted::Incomplete),
    (&SECOND, 256, &SECOND_CE, Inserted::Complete),
];

const WITHOUT_CE: [Step<'static>; 2] = [
    (&FIRST, 0, &FIRST_ECT_0, Inserted::Incomplete),
    (&SECOND, 256, &SECOND_ECT_0, Inserted::Complete),
];

const WITH_NOT_ECT: [Step<'static>; 3] = [
    (&FIRST, 0, &[], Inserted::Incomplete),
    (&SECOND, 256, &SECOND_CE, Inserted::Conflict),
    (&SECOND, 256, &[], Inserted::Complete),
];

/// The headers of whole packets with ECT(0) and with CE.
const WHOLE_ECT_0: [u8; 20] = [
    0x45, 0x02, 0x01, 0xd8, 0x00, 0x6f, 0x00, 0x00, 0x77, 0x06, 0xbd, 0xab, 0xc0, 0x00, 0x02, 0x01,
    0xc0, 0x00, 0x02, 0x02,
];

const WHOLE_CE: [u8; 20] = [
    0x45, 0x03, 0x01, 0xd8, 0x00, 0x6f, 0x00, 0x00, 0x77, 0x06, 0xbd, 0xaa, 0xc0, 0x00, 0x02, 0x01,
    0xc0, 0x00, 0x02, 0x02,
];

/// The identification, the version and the protocol of packets.
type Key = (u32, u8, u8);

const RFC791: Key = (0x6f, 4, 0x06);

const OVER_IPV6: Key = (0xdead_beef, 6, 0);

/// The packets, their key, and the header and total length of their datagram; 0 if it is not complete.
const ROWS: [(&[Step<'static>], Key, &[u8], usize); 17] = [
    (&IN_ORDER, RFC791, &DATAGRAM, 472),
    (&LAST_FIRST, RFC791, &DATAGRAM, 472),
    (&COPIES, RFC791, &DATAGRAM, 472),
    (&OTHER_KEYS, RFC791, &DATAGRAM, 472),
    (&INVALID, RFC791, &DATAGRAM, 472),
    (&WITHOUT_FIRST, RFC791, &DATAGRAM, 0),
    (&WITHOUT_LAST, RFC791, &DATAGRAM, 0),
    (&WHOLE, RFC791, &DATAGRAM, 472),
    (&NOTHING, (7, 4, 0x3b), &EMPTY, 0),
    (&WITH_OPTIONS, (7, 4, 0x11), &OPTIONS, 96),
    (&WITH_CE, RFC791, &WHOLE_CE, 472),
    (&WITHOUT_CE, RFC791, &WHOLE_ECT_0, 472),
    (&WITH_NOT_ECT, RFC791, &DATAGRAM, 472),
    (&IPV6_LAST_FIRST, OVER_IPV6, &IPV6, 440),
    (&IPV6_WHOLE, OVER_IPV6, &IPV6, 440),
    (&IPV6_KEYS, OVER_IPV6, &IPV6, 440),
    (&IPV6_INVALID, OVER_IPV6, &IPV6, 440),
];

/// The codepoints of the two fragments, what `insert` returns for the second one, and the codepoint of the whole packet
/// (RFC 3168, section 5.3).
const CODEPOINTS: [([Change; 1], [Change; 1], Inserted, [Change; 1]); 9] = [
    (NOT_ECT, NOT_ECT, Inserted::Complete, NOT_ECT),
    (ECT_0, ECT_0, Inserted::Complete, ECT_0),
    (ECT_1, ECT_1, Inserted::Complete, ECT_1),
    (CE, CE, Inserted::Complete, CE),
    (ECT_0, CE, Inserted::Complete, CE),
    (CE, ECT_0, Inserted::Complete, CE),
    (CE, ECT_1, Inserted::Complete, CE),
    (CE, NOT_ECT, Inserted::Conflict, NOT_ECT),
    (NOT_ECT, CE, Inserted::Conflict, NOT_ECT),
];

/// A key with the addresses of the rows.
fn key(key: Key) -> FragKey {
    let (ident, version, protocol) = key;
    let mut src = [0; 16];
    let mut dst = [0; 16];
    if version == 4 {
        src[..4].copy_from_slice(&[192, 0, 2, 1]);
        dst[..4].copy_from_slice(&[192, 0, 2, 2]);
    } else {
        src[..4].copy_from_slice(&[0x20, 0x01, 0x0d, 0xb8]);
        dst[..4].copy_from_slice(&[0x20, 0x01, 0x0d, 0xb8]);
        src[15] = 1;
        dst[15] = 2;
    }
    FragKey {
        ident,
        version,
        protocol,
        unused: [0; 2],
        src,
        dst,
    }
}

/// The packet with this header and the bytes of a payload from a place on: 0, 1, 2 and so on.
fn packet(header: &[u8], at: usize) -> [u8; 512] {
    let mut packet = [0; 512];
    for (i, byte) in packet.iter_mut().enumerate() {
        *byte = match header.get(i) {
            Some(octet) => *octet,
            None => (i.saturating_sub(header.len()).saturating_add(at) % 256) as u8,
        };
    }
    packet
}

/// Inserts the packets. Returns whether each result is the expected one.
fn insert_all(
    steps: &[Step<'_>],
    datagram: &mut Datagram,
    buffer: &mut [u8],
    received: &mut [u8],
) -> bool
    requires blocks { length buffer.old ≤ 8 * length received.old }
    requires small { length received.old < 65536 }
{
    let mut expected = true;
    for (header, at, changed, inserted) in steps {
        let mut packet = packet(header, *at);
        change(&mut packet, changed);
        if datagram.insert(buffer, received, &packet) != *inserted {
            expected = false;
        }
    }
    expected
}

#[test]
fn puts_datagrams_together(rt: HostRuntime) {
    for (steps, of, header, len) in ROWS {
        let whole = packet(header, 0);
        let mut buffer = [b'S'; 512];
        let mut received = [0xff; 64];
        let mut datagram = begin(&mut received, key(of));
        assert!(rt;
            insert_all(steps, &mut datagram, &mut buffer, &mut received),
            "{header:?}"
        );
        let mut out = [0xa5; 512];
        let written = datagram.write(&buffer, &received, &mut out);
        assert!(rt;
            written == if len == 0 { None } else { Some(len) },
            "{header:?}"
        );
        assert!(rt;
            between(&out, 0, len) == between(&whole, 0, len),
            "{header:?}"
        );
        assert!(rt;
            between(&out, len, 512).iter().all(|byte| *byte == 0xa5),
            "{header:?}"
        );
    }
}

/// A datagram that does not fit.
#[test]
fn writes_no_part_of_a_datagram(rt: HostRuntime) {
    let mut buffer = [b'S'; 512];
    let mut received = [0xff; 64];
    let mut datagram = begin(&mut received, key(RFC791));
    assert!(rt; insert_all(&IN_ORDER, &mut datagram, &mut buffer, &mut received));
    let mut out = [0xa5; 471];
    assert!(rt; datagram.write(&buffer, &received, &mut out).is_none());
    assert!(rt; out.iter().all(|byte| *byte == 0xa5));
}

/// The first fragment of a datagram of 65,535 bytes, and last fragments with 3 and 4 bytes: 4 are too many.
const LONG: [u8; 20] = [
    0x45, 0x00, 0xff, 0xfc, 0x00, 0x6f, 0x20, 0x00, 0x77, 0x06, 0x9f, 0x88, 0xc0, 0x00, 0x02, 0x01,
    0xc0, 0x00, 0x02, 0x02,
];

const LAST_3: [u8; 20] = [
    0x45, 0x00, 0x00, 0x17, 0x00, 0x6f, 0x1f, 0xfd, 0x77, 0x06, 0x9f, 0x71, 0xc0, 0x00, 0x02, 0x01,
    0xc0, 0x00, 0x02, 0x02,
];

const LAST_4: [u8; 20] = [
    0x45, 0x00, 0x00, 0x18, 0x00, 0x6f, 0x1f, 0xfd, 0x77, 0x06, 0x9f, 0x70, 0xc0, 0x00, 0x02, 0x01,
    0xc0, 0x00, 0x02, 0x02,
];

/// The datagram of 65,535 bytes.
const LONGEST: [u8; 20] = [
    0x45, 0x00, 0xff, 0xff, 0x00, 0x6f, 0x00, 0x00, 0x77, 0x06, 0xbf, 0x85, 0xc0, 0x00, 0x02, 0x01,
    0xc0, 0x00, 0x02, 0x02,
];

#[test]
fn writes_no_longer_datagram(rt: HostRuntime) {
    for (last, written) in [(LAST_3, Some(65535)), (LAST_4, None)] {
        let mut buffer = [b'S'; 65544];
        let mut received = [0xff; 8193];
        let mut first = [b'a'; 65532];
        let mut second = [b'b'; 24];
        first[..20].copy_from_slice(&LONG);
        second[..20].copy_from_slice(&last);
        let mut datagram = begin(&mut received, key(RFC791));
        let result = datagram.insert(&mut buffer, &mut received, &first);
        assert!(rt; result == Inserted::Incomplete);
        let result = datagram.insert(&mut buffer, &mut received, &second);
        let expected = match written {
            Some(_) => Inserted::Complete,
            None => Inserted::Conflict,
        };
        assert!(rt; result == expected);
        let mut out = [0xa5; 65544];
        assert!(rt; datagram.write(&buffer, &received, &mut out) == written);
        let end = written.unwrap_or(0);
        let start = end.min(20);
        assert!(rt; between(&out, 0, start) == between(&LONGEST, 0, start));
        assert!(rt;
            between(&out, start, end.min(65532))
                .iter()
                .all(|byte| *byte == b'a')
        );
        assert!(rt;
            between(&out, end.min(65532), end)
                .iter()
                .all(|byte| *byte == b'b')
        );
        assert!(rt; between(&out, end, 65544).iter().all(|byte| *byte == 0xa5));
    }
}

#[test]
fn codepoints_go_together(rt: HostRuntime) {
    for (first, second, inserted, whole) in CODEPOINTS {
        let mut buffer = [b'S'; 512];
        let mut received = [0xff; 64];
        let mut datagram = begin(&mut received, key(OVER_IPV6));
        let mut packet_0 = packet(&IPV6_0, 0);
        let mut packet_1 = packet(&IPV6_1, 248);
        let mut expected = packet(&IPV6, 0);
        change(&mut packet_0, &first);
        change(&mut packet_1, &second);
        change(&mut expected, &whole);
        let result = datagram.insert(&mut buffer, &mut received, &packet_0);
        assert!(rt; result == Inserted::Incomplete);
        let result = datagram.insert(&mut buffer, &mut received, &packet_1);
        assert!(rt; result == inserted);
        let mut out = [0xa5; 512];
        let written = datagram.write(&buffer, &received, &mut out);
        if inserted == Inserted::Complete {
            assert!(rt; written == Some(440));
            assert!(rt; between(&out, 0, 440) == between(&expected, 0, 440));
        } else {
            assert!(rt; written.is_none());
        }
    }
}

/// The length of the last fragment with its fragment header. It makes a payload of 65,535 bytes, or of 65,536.
#[test]
fn ipv6_payloads_have_a_limit(rt: HostRuntime) {
    for (last_len, expected) in [(23, Inserted::Complete), (24, Inserted::Conflict)] {
        let mut buffer = [b'S'; 65536];
        let mut received = [0xff; 8192];
        let mut first = [b'a'; 65568];
        let mut second = [b'b'; 64];
        first[..48].copy_from_slice(&IPV6_0);
        second[..48].copy_from_slice(&IPV6_1);
        change(&mut first, &[(4, 0xff), (5, 0xf8)]);
        change(
            &mut second,
            &[(4, 0), (5, last_len), (42, 0xff), (43, 0xf0)],
        );
        let mut datagram = begin(&mut received, key(OVER_IPV6));
        let result = datagram.insert(&mut buffer, &mut received, &first);
        assert!(rt; result == Inserted::Incomplete);
        let result = datagram.insert(&mut buffer, &mut received, &second);
        assert!(rt; result == expected);
        let mut out = [0xa5; 65580];
        let written = datagram.write(&buffer, &received, &mut out);
        if expected == Inserted::Complete {
            assert!(rt; written == Some(65575));
            assert!(rt; between(&out, 4, 6) == [0xff, 0xff].as_slice());
        } else {
            assert!(rt; written.is_none());
        }
    }
}

/// The first fragment as it was received: its header and payload.
#[test]
fn first_fragments_are_written(rt: HostRuntime) {
    let rows: [(&[Step<'static>], Key, &[u8], usize); 4] = [
        (&IN_ORDER, RFC791, &FIRST, 276),
        (&WITH_OPTIONS, (7, 4, 0x11), &OPTIONS_0, 64),
        (&IPV6_LAST_FIRST, OVER_IPV6, &IPV6_0, 296),
        (&WITHOUT_FIRST, RFC791, &FIRST, 0),
    ];
    for (steps, of, header, len) in rows {
        let first = packet(header, 0);
        let mut buffer = [b'S'; 512];
        let mut received = [0xff; 64];
        let mut datagram = begin(&mut received, key(of));
        assert!(rt; insert_all(steps, &mut datagram, &mut buffer, &mut received));
        let mut out = [0xa5; 512];
        let written = datagram.write_first(&buffer, &mut out);
        assert!(rt; written == if len == 0 { None } else { Some(len) });
        assert!(rt; between(&out, 0, len) == between(&first, 0, len));
        assert!(rt; between(&out, len, 512).iter().all(|byte| *byte == 0xa5));
        let mut short = [0xa5; 63];
        assert!(rt; datagram.write_first(&buffer, &mut short).is_none());
        assert!(rt; short.iter().all(|byte| *byte == 0xa5));
    }
}

/// Packets that are not fragmented, and fragments.
#[test]
fn whole_packets_are_written(rt: HostRuntime) {
    let rows: [(&[u8], &[u8], usize); 6] = [
        (&DATAGRAM, &DATAGRAM, 472),
        (&EMPTY, &EMPTY, 20),
        (&OPTIONS, &OPTIONS, 96),
        (&ATOMIC, &IPV6, 440),
        (&FIRST, &FIRST, 0),
        (&IPV6_1, &IPV6_1, 0),
    ];
    for (header, whole, len) in rows {
        let given = packet(header, 0);
        let whole = packet(whole, 0);
        let mut out = [0xa5; 512];
        let written = write_alone(&given, &mut out);
        assert!(rt; written == if len == 0 { None } else { Some(len) });
        assert!(rt; between(&out, 0, len) == between(&whole, 0, len));
        assert!(rt; between(&out, len, 512).iter().all(|byte| *byte == 0xa5));
        let mut short = [0xa5; 19];
        assert!(rt; write_alone(&given, &mut short).is_none());
    }
}
