//! A table of packets that are put together from their fragments. The packets are the fragments of appendix A, example 2 of
//! RFC 791, and others with the next identifications. They are kept for 60 seconds (RFC 1122, section 3.3.2).

use super::ipv4_fragments::{DATAGRAM, EMPTY, FIRST, SECOND, between};
use app_fragment::{Partial, Reassembled, expire, reassemble};
use test_support::bytes::change;

/// The Ethernet headers of the first and of the other fragments.
const LINK: [u8; 14] = [2, 0, 0, 0, 0, 2, 2, 0, 0, 0, 0, 1, 8, 0];

const OTHER_LINK: [u8; 14] = [2, 0, 0, 0, 0, 2, 2, 0, 0, 0, 0, 9, 8, 0];

type Change = (usize, u8);

/// The identification and the checksum of the second and the third packet, in their first and second fragments and in the
/// whole packets.
const B_0: [Change; 2] = [(5, 0x70), (11, 0x70)];

const B_1: [Change; 2] = [(5, 0x70), (11, 0x8c)];

const B: [Change; 2] = [(5, 0x70), (11, 0xac)];

const C_0: [Change; 2] = [(5, 0x71), (11, 0x6f)];

const C_1: [Change; 2] = [(5, 0x71), (11, 0x8b)];

const C: [Change; 2] = [(5, 0x71), (11, 0xab)];

/// The time, a header and the place of its payload, the bytes that change, and what `reassemble` returns.
type Event<'a> = (u64, &'a [u8], usize, &'a [Change], Reassembled);

const INCOMPLETE: Reassembled = Reassembled::Incomplete;

const WHOLE: Reassembled = Reassembled::Whole(472);

const TWO_PACKETS: [Event<'static>; 4] = [
    (1000, &FIRST, 0, &[], INCOMPLETE),
    (1000, &SECOND, 256, &B_1, INCOMPLETE),
    (1001, &SECOND, 256, &[], WHOLE),
    (1002, &FIRST, 0, &B_0, WHOLE),
];

/// The third packet takes the place of the first one, which ends first. The first one begins anew in the place of the
/// second one.
const THREE_PACKETS: [Event<'static>; 7] = [
    (1000, &FIRST, 0, &[], INCOMPLETE),
    (2000, &FIRST, 0, &B_0, INCOMPLETE),
    (3000, &FIRST, 0, &C_0, INCOMPLETE),
    (3001, &SECOND, 256, &[], INCOMPLETE),
    (3002, &SECOND, 256, &C_1, WHOLE),
    (3003, &SECOND, 256, &B_1, INCOMPLETE),
    (3004, &FIRST, 0, &[], WHOLE),
];

/// A packet whose time is over makes room before one that ends later, also if it began later.
const OVER: [Event<'static>; 5] = [
    (1000, &FIRST, 0, &[], INCOMPLETE),
    (50_000, &FIRST, 0, &B_0, INCOMPLETE),
    (61_000, &FIRST, 0, &C_0, INCOMPLETE),
    (61_001, &SECOND, 256, &B_1, WHOLE),
    (61_002, &SECOND, 256, &C_1, WHOLE),
];

const IN_TIME: [Event<'static>; 2] = [
    (1000, &FIRST, 0, &[], INCOMPLETE),
    (60_999, &SECOND, 256, &[], WHOLE),
];

const TOO_LATE: [Event<'static>; 3] = [
    (1000, &FIRST, 0, &[], INCOMPLETE),
    (61_000, &SECOND, 256, &[], INCOMPLETE),
    (61_001, &FIRST, 0, &[], WHOLE),
];

/// A copy with another byte. The packet is dropped with all its fragments, until its time is over (RFC 5722).
const DROPPED: [Event<'static>; 6] = [
    (1000, &FIRST, 0, &[], INCOMPLETE),
    (1001, &FIRST, 0, &[(20, 0x01)], Reassembled::Dropped),
    (1002, &FIRST, 0, &[], Reassembled::Dropped),
    (60_999, &SECOND, 256, &[], Reassembled::Dropped),
    (61_000, &SECOND, 256, &[], INCOMPLETE),
    (61_001, &FIRST, 0, &[], WHOLE),
];

/// A copy after the packet is complete begins the packet anew.
const COPIES: [Event<'static>; 5] = [
    (1000, &FIRST, 0, &[], INCOMPLETE),
    (1001, &FIRST, 0, &[], INCOMPLETE),
    (1002, &SECOND, 256, &[], WHOLE),
    (1003, &SECOND, 256, &[], INCOMPLETE),
    (1004, &FIRST, 0, &[], WHOLE),
];

/// Packets that are not fragmented, a wrong checksum, and a fragment of 255 bytes before another one.
const OTHERS: [Event<'static>; 6] = [
    (1000, &FIRST, 0, &[], INCOMPLETE),
    (1001, &DATAGRAM, 0, &[], WHOLE),
    (1002, &EMPTY, 0, &[], Reassembled::Whole(20)),
    (1003, &SECOND, 256, &[(11, 0x8e)], Reassembled::Rejected),
    (
        1004,
        &FIRST,
        0,
        &[(3, 0x13), (11, 0x72)],
        Reassembled::Rejected,
    ),
    (1005, &SECOND, 256, &[], WHOLE),
];

/// A part of the memory has room for a payload of 448 bytes. The packet has 452.
const TOO_LONG: [Event<'static>; 3] = [
    (1000, &FIRST, 0, &[], INCOMPLETE),
    (1001, &SECOND, 256, &[], Reassembled::TooLong),
    (1002, &DATAGRAM, 0, &[], WHOLE),
];

const NO_ENTRY: [Event<'static>; 2] = [
    (1000, &FIRST, 0, &[], Reassembled::TooLong),
    (1001, &DATAGRAM, 0, &[], WHOLE),
];

/// At the end of time the saturated end of an entry is not after it.
const LAST_TIME: [Event<'static>; 3] = [
    (u64::MAX - 1, &FIRST, 0, &[], INCOMPLETE),
    (u64::MAX - 1, &SECOND, 256, &[], WHOLE),
    (u64::MAX, &FIRST, 0, &[], INCOMPLETE),
];

/// The fragments, the number of entries, the memory of each, and the changes in the header of the last whole packet.
const ROWS: [(&[Event<'static>], usize, usize, &[Change]); 11] = [
    (&TWO_PACKETS, 2, 513, &B),
    (&THREE_PACKETS, 2, 513, &[]),
    (&OVER, 2, 513, &C),
    (&IN_TIME, 2, 513, &[]),
    (&TOO_LATE, 1, 513, &[]),
    (&DROPPED, 1, 513, &[]),
    (&COPIES, 2, 513, &[]),
    (&OTHERS, 1, 513, &[]),
    (&TOO_LONG, 2, 512, &[]),
    (&NO_ENTRY, 0, 513, &[]),
    (&LAST_TIME, 2, 513, &[]),
];

/// The packet with this header and these changes. The bytes of the payload of the whole packet are its identification, the
/// next number, and so on.
fn packet(header: &[u8], at: usize, changed: &[Change]) -> [u8; 512] {
    let mut packet = [0; 512];
    for (i, byte) in packet.iter_mut().enumerate() {
        if let Some(octet) = header.get(i) {
            *byte = *octet;
        }
    }
    change(&mut packet, changed);
    let ident = packet[5];
    for (i, byte) in packet.iter_mut().enumerate() {
        if i >= header.len() {
            let place = i.saturating_sub(header.len()).saturating_add(at);
            *byte = ((place % 256) as u8).wrapping_add(ident);
        }
    }
    change(&mut packet, changed);
    packet
}

/// Takes the fragments. Returns whether each answer is the expected one.
fn take_all(
    events: &[Event<'_>],
    partials: &mut [Partial],
    memory: &mut [u8],
    out: &mut [u8],
) -> bool {
    let mut expected = true;
    let mut link = LINK;
    for (now, header, at, changed, answer) in events {
        let packet = packet(header, *at, changed);
        if reassemble(partials, memory, *now, &link, &packet, out) != *answer {
            expected = false;
        }
        link = OTHER_LINK;
    }
    expected
}

/// The first bytes, or all if there are fewer.
fn first_of(bytes: &mut [u8], len: usize) -> &mut [u8] {
    let len = len.min(bytes.len());
    &mut bytes[..len]
}

#[test]
fn puts_packets_together(rt: HostRuntime) {
    for (events, count, share, changed) in ROWS {
        let mut partials = [Partial::NONE; 2];
        let mut memory = [b'S'; 1026];
        let mut out = [0xa5; 512];
        let count = count.min(2);
        let len = count.saturating_mul(share);
        assert!(rt;
            take_all(
                events,
                &mut partials[..count],
                first_of(&mut memory, len),
                &mut out
            ),
            "{events:?}"
        );
        let whole = packet(&DATAGRAM, 0, changed);
        assert!(rt;
            between(&out, 0, 472) == between(&whole, 0, 472),
            "{events:?}"
        );
        assert!(rt;
            between(&out, 472, 512).iter().all(|byte| *byte == 0xa5),
            "{events:?}"
        );
    }
}

/// A packet that does not fit comes with more room by the same fragment.
#[test]
fn keeps_a_packet_without_room(rt: HostRuntime) {
    let mut partials = [Partial::NONE; 1];
    let mut memory = [b'S'; 513];
    let mut out = [0xa5; 472];
    let events = [
        (1000, &FIRST[..], 0, &[][..], INCOMPLETE),
        (1001, &SECOND[..], 256, &[][..], Reassembled::NoRoom),
    ];
    assert!(rt; take_all(&events, &mut partials, &mut memory, &mut out[..471]));
    assert!(rt; out.iter().all(|byte| *byte == 0xa5));
    let events = [(1002, &SECOND[..], 256, &[][..], WHOLE)];
    assert!(rt; take_all(&events, &mut partials, &mut memory, &mut out));
    let whole = packet(&DATAGRAM, 0, &[]);
    assert!(rt; between(&out, 0, 472) == between(&whole, 0, 472));
}

/// The fragments that come. For each frame that `expire` gives, the changes in the header of its first fragment, and the
/// Ethernet header of the fragment that came first.
/// A packet whose time is over waits for it while another entry is not in use.
const EXPIRED: [(&[Event<'static>], &[(&[Change], &[u8; 14])]); 6] = [
    (&[], &[]),
    (&[(1000, &FIRST, 0, &[], INCOMPLETE)], &[(&[], &LINK)]),
    (
        &[
            (1000, &SECOND, 256, &[], INCOMPLETE),
            (1000, &FIRST, 0, &B_0, INCOMPLETE),
        ],
        &[(&B_0, &OTHER_LINK)],
    ),
    (
        &[
            (1000, &FIRST, 0, &[], INCOMPLETE),
            (1000, &FIRST, 0, &[(20, 0x01)], Reassembled::Dropped),
            (1000, &SECOND, 256, &B_1, INCOMPLETE),
        ],
        &[],
    ),
    (
        &[
            (999, &FIRST, 0, &[], INCOMPLETE),
            (1000, &FIRST, 0, &B_0, INCOMPLETE),
        ],
        &[(&[], &LINK), (&B_0, &OTHER_LINK)],
    ),
    (
        &[
            (1000, &FIRST, 0, &[], INCOMPLETE),
            (61_000, &FIRST, 0, &B_0, INCOMPLETE),
        ],
        &[(&[], &LINK)],
    ),
];

#[test]
fn gives_first_fragments_when_the_time_is_over(rt: HostRuntime) {
    for (events, frames) in EXPIRED {
        let mut partials = [Partial::NONE; 2];
        let mut memory = [b'S'; 1026];
        let mut out = [0xa5; 512];
        assert!(rt; take_all(events, &mut partials, &mut memory, &mut out));
        assert!(rt; expire(&mut partials, &memory, 60_998, &mut out).is_none());
        for (changed, link) in frames {
            let mut out = [0xa5; 512];
            let written = expire(&mut partials, &memory, 61_000, &mut out);
            let first = packet(&FIRST, 0, changed);
            assert!(rt; written == Some(290));
            assert!(rt; between(&out, 0, 14) == &link[..]);
            assert!(rt; between(&out, 14, 290) == between(&first, 0, 276));
            assert!(rt; between(&out, 290, 512).iter().all(|byte| *byte == 0xa5));
        }
        assert!(rt; expire(&mut partials, &memory, 61_000, &mut out).is_none());
        assert!(rt; out.iter().all(|byte| *byte == 0xa5));
    }
}

/// A first fragment that does not fit is left out.
#[test]
fn leaves_out_what_does_not_fit(rt: HostRuntime) {
    for (len, written) in [(0, None), (13, None), (289, None), (290, Some(290))] {
        let mut partials = [Partial::NONE; 1];
        let mut memory = [b'S'; 513];
        let mut out = [0xa5; 512];
        let events = [(1000, &FIRST[..], 0, &[][..], INCOMPLETE)];
        assert!(rt; take_all(&events, &mut partials, &mut memory, &mut out));
        assert!(rt; expire(&mut partials, &memory, 60_999, &mut out).is_none());
        assert!(rt; expire(&mut partials, &memory, 61_000, first_of(&mut out, len)) == written);
        assert!(rt; expire(&mut partials, &memory, 61_000, &mut out).is_none());
    }
}
