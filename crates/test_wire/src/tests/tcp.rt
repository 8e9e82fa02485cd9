//! TCP segments and sequence numbers. `tests/data/calls/worked_transport.call` has more examples.

use super::packets::{SEGMENT, SYN};
use super::pretty_print::Shown;
use super::views::{Format, NEVER};
use ip_wire::{
    IpAddress, TcpControl, TcpPacket, TcpPacketMut, TcpSeqNumber, TcpTimestampGenerator,
    TcpTimestampRepr,
};
use std::cmp::Ordering;
use test_support::bytes::copy_to;

/// Texts of packets and values.
pub(super) const SHOWN: &[(Shown, &str)] = &[
    (
        Shown::Tcp(&SYN),
        "TCP src=48896 dst=80 syn seq=19088743 win=291 len=4",
    ),
    (
        Shown::Tcp(&SEGMENT),
        "TCP src=48896 dst=80 fin rst seq=19088743 ack=2309737967 win=291 urg=513 len=4 ws=12",
    ),
    // The option aa of no length
    (
        Shown::Tcp(b"\xbf\0\0\x50\x01\x23\x45\x67\0\0\0\0\x60\x02\x01\x23\x7a\x8d\0\0\xaa\0\0\xff"),
        "TCP src=48896 dst=80 syn seq=19088743 win=291 len=0 (wire::Error)",
    ),
    (
        Shown::Tcp(b"\xbf\0\0\x50\x01\x23\x45\x67\0\0\0\0\x50\x02\x01\x23\x7a\x8d\0\0"),
        "TCP src=48896 dst=80 syn seq=19088743 win=291 len=0",
    ),
    // Headers of 16 and 60 bytes, and less than a header
    (
        Shown::Tcp(b"\xbf\0\0\x50\x01\x23\x45\x67\0\0\0\0\x40\x02\x01\x23\x7a\x8d\0\0\xaa\0\0\xff"),
        "TCP (wire::Error)",
    ),
    (
        Shown::Tcp(b"\xbf\0\0\x50\x01\x23\x45\x67\0\0\0\0\xf0\x02\x01\x23\x7a\x8d\0\0\xaa\0\0\xff"),
        "TCP (wire::Error)",
    ),
    (
        Shown::Tcp(b"\xbf\0\0\x50\x01\x23\x45\x67\0\0\0\0\x50\x02\x01\x23\x7a\x8d\0"),
        "TCP (wire::Error)",
    ),
    (
        Shown::Tcp(
            b"\xbf\0\0\x50\x01\x23\x45\x67\x89\xab\xcd\xef\x60\x35\x01\x23\x01\xb6\x02\x01\x03\x03\x0c",
        ),
        "TCP (wire::Error)",
    ),
    (Shown::Tcp(&[]), "TCP (wire::Error)"),
];

/// Packets, the least number of their bytes that the checks accept, and the least that parses.
pub(super) const LENGTHS: &[(Format, &[u8], usize, usize)] = &[
    (Format::Tcp, &SYN, 20, 20),
    (Format::Tcp, &SEGMENT, 24, 24),
    // The header length: 0, 16, 24, 28 and 60 bytes
    (
        Format::Tcp,
        b"\xbf\0\0\x50\x01\x23\x45\x67\0\0\0\0\0\x02\x01\x23\x7a\x8d\0\0\xaa\0\0\xff",
        NEVER,
        NEVER,
    ),
    (
        Format::Tcp,
        b"\xbf\0\0\x50\x01\x23\x45\x67\0\0\0\0\x40\x02\x01\x23\x7a\x8d\0\0\xaa\0\0\xff",
        NEVER,
        NEVER,
    ),
    (
        Format::Tcp,
        b"\xbf\0\0\x50\x01\x23\x45\x67\0\0\0\0\x60\x02\x01\x23\x7a\x8d\0\0\xaa\0\0\xff",
        24,
        24,
    ),
    (
        Format::Tcp,
        b"\xbf\0\0\x50\x01\x23\x45\x67\0\0\0\0\x70\x02\x01\x23\x7a\x8d\0\0\xaa\0\0\xff",
        NEVER,
        NEVER,
    ),
    (
        Format::Tcp,
        b"\xbf\0\0\x50\x01\x23\x45\x67\0\0\0\0\xf0\x02\x01\x23\x7a\x8d\0\0\xaa\0\0\xff",
        NEVER,
        NEVER,
    ),
];

/// Packets with padding after them, and where their payloads begin and end.
pub(super) const PAYLOADS: &[(Format, &[u8], usize, usize)] = &[
    (Format::Tcp, &SYN, 20, 24),
    (Format::Tcp, &SEGMENT, 24, 28),
];

#[test]
fn writes_options_and_payload(rt: HostRuntime) {
    let mut buffer = [0xa5; 28];
    buffer[..20].copy_from_slice(&SEGMENT[..20]);
    let mut packet = TcpPacketMut::new_checked(&mut buffer).expect(&rt, "a segment");
    assert!(rt; packet.seq_number() == TcpSeqNumber(0x0123_4567) && packet.header_len() == 24);
    copy_to(packet.options_mut(), &[0x03, 0x03, 0x0c, 0x01]);
    assert!(rt; packet.check_len().is_ok());
    copy_to(packet.payload_mut(), &[0xaa, 0x00, 0x00, 0xff]);
    assert!(rt; &*packet.into_inner() == SEGMENT.as_slice());
}

/// Checksums of the segment with SYN, and whether each covers all of it and only the pseudo-header.
const CHECKSUMS: &[(u16, [bool; 2])] = &[
    (0x7a8d, [true, false]),
    (0x7a8e, [false, false]),
    (0x8372, [false, true]),
    (0x0000, [false, false]),
];

#[test]
fn verifies_whole_and_partial_checksums(rt: HostRuntime) {
    let (src, dst) = (IpAddress::v4(192, 168, 1, 1), IpAddress::v4(192, 168, 1, 2));
    for (checksum, want) in CHECKSUMS {
        let mut buffer = SYN;
        let mut packet = TcpPacketMut::new_unchecked(&mut buffer);
        packet.set_checksum(*checksum);
        assert!(rt; packet.verify_checksum(&src, &dst) == want[0], "{checksum}");
        assert!(rt;
            packet.verify_partial_checksum(&src, &dst) == want[1],
            "{checksum}"
        );
    }
}

/// Segments, and how many sequence numbers they take. SYN and FIN count one each (RFC 9293, section 3.4).
const COUNTS: &[(&[u8], usize)] = &[
    (&SYN, 5),
    (&SEGMENT, 5),
    (
        b"\xbf\0\0\x50\x01\x23\x45\x67\0\0\0\0\x50\x03\x01\x23\x7a\x8d\0\0\xaa\0\0\xff",
        6,
    ),
];

/// Flags, how many sequence numbers each takes, and the flag without PSH.
const FLAGS: &[(TcpControl, usize, TcpControl)] = &[
    (TcpControl::None, 0, TcpControl::None),
    (TcpControl::Psh, 0, TcpControl::None),
    (TcpControl::Syn, 1, TcpControl::Syn),
    (TcpControl::Fin, 1, TcpControl::Fin),
    (TcpControl::Rst, 0, TcpControl::Rst),
];

#[test]
fn counts_sequence_numbers(rt: HostRuntime) {
    for (bytes, count) in COUNTS {
        let packet = TcpPacket::new_unchecked(bytes);
        let is_counted = packet.check_len().is_ok() && packet.segment_len() == *count;
        assert!(rt; is_counted, "{count}");
    }
    for (control, len, quashed) in FLAGS {
        assert!(rt;
            control.len() == *len && control.quash_psh() == *quashed,
            "{control:?}"
        );
    }
}

/// Numbers, and their order.
const ORDERS: &[(i32, i32, Ordering)] = &[
    (0, 0, Ordering::Equal),
    (0, 1, Ordering::Less),
    (1, 0, Ordering::Greater),
    (i32::MAX, i32::MIN, Ordering::Less),
    (-1, 0, Ordering::Less),
    (0, i32::MIN, Ordering::Less),
    (i32::MIN, 0, Ordering::Less),
    (i32::MAX, 0, Ordering::Greater),
    (i32::MIN, 1, Ordering::Greater),
];

#[test]
fn orders_sequence_numbers(rt: HostRuntime) {
    for (a, b, order) in ORDERS {
        let (a, b) = (TcpSeqNumber(*a), TcpSeqNumber(*b));
        let (before, after) = (*order == Ordering::Less, *order == Ordering::Greater);
        let found = [
            a.seq_lt(b) == before,
            a.seq_gt(b) == after,
            a.seq_le(b) != after,
            a.seq_ge(b) != before,
        ];
        let min = if before { a } else { b };
        let max = if after { a } else { b };
        let is_ordered = a.seq_cmp(b) == *order && a.min(b) == min && a.max(b) == max;
        assert!(rt; is_ordered && found == [true; 4], "{a} {b}");
    }
}

#[test]
fn counts_modulo_2_to_the_32(rt: HostRuntime) {
    let (first, last) = (TcpSeqNumber(i32::MIN), TcpSeqNumber(i32::MAX));
    let mut next = last;
    next += 1;
    let found = [
        next == first,
        last + 1 == first,
        next - 1 == last,
        next - last == 1,
        TcpSeqNumber::default() == TcpSeqNumber(0),
    ];
    assert_eq!(rt; found, [true; 5]);
}

/// A clock that always returns the same time.
fn stopped_clock() -> u32 {
    100
}

#[test]
fn replies_to_timestamps(rt: HostRuntime) {
    let stamp = TcpTimestampRepr::new(7, 9);
    let clock: TcpTimestampGenerator = stopped_clock;
    let reply = Some(TcpTimestampRepr::new(100, 7));
    let found = [
        stamp.generate_reply(Some(clock)) == reply,
        stamp.generate_reply(None).is_none(),
        TcpTimestampRepr::generate_reply_with_tsval(Some(clock), 7) == reply,
        TcpTimestampRepr::generate_reply_with_tsval(None, 7).is_none(),
    ];
    assert_eq!(rt; found, [true; 4]);
}
