//! The values of TCP segments.

use super::packets::SYN;
use super::pretty_print::Shown;
use ip_wire::{
    IpAddress, SACK_BLOCKS, TcpControl, TcpPacket, TcpPacketMut, TcpRepr, TcpSeqNumber,
    TcpTimestampRepr,
};
use net_base::ChecksumCapabilities;

/// Texts of packets and values.
pub(super) const SHOWN: &[(Shown, &str)] = &[
    (
        Shown::TcpValue(TcpRepr {
            control: TcpControl::Syn,
            ack_number: None,
            payload: &[0xaa, 0x00, 0x00, 0xff],
            ..ACK
        }),
        "TCP src=48896 dst=80 syn seq=19088743 win=291 len=4",
    ),
    (
        Shown::TcpValue(TcpRepr {
            control: TcpControl::Psh,
            max_seg_size: Some(1460),
            ..ACK
        }),
        "TCP src=48896 dst=80 psh seq=19088743 ack=162254319 win=291 len=0 mss=1460",
    ),
    (
        Shown::TcpValue(TcpRepr {
            control: TcpControl::Fin,
            ..ACK
        }),
        "TCP src=48896 dst=80 fin seq=19088743 ack=162254319 win=291 len=0",
    ),
    (
        Shown::TcpValue(TcpRepr {
            control: TcpControl::Rst,
            ..ACK
        }),
        "TCP src=48896 dst=80 rst seq=19088743 ack=162254319 win=291 len=0",
    ),
];

/// The values of the segment with SYN and no option.
pub(super) const SYN_VALUE: TcpRepr<'static> = TcpRepr {
    src_port: 48896,
    dst_port: 80,
    control: TcpControl::Syn,
    seq_number: TcpSeqNumber(0x01234567),
    ack_number: None,
    window_len: 0x0123,
    window_scale: None,
    max_seg_size: None,
    sack_permitted: false,
    sack_ranges: [None; SACK_BLOCKS],
    timestamp: None,
    payload: &[0xaa, 0x00, 0x00, 0xff],
};

/// The values of a segment without a payload that acknowledges.
const ACK: TcpRepr<'static> = TcpRepr {
    control: TcpControl::None,
    ack_number: Some(TcpSeqNumber(0x09abcdef)),
    payload: &[],
    ..SYN_VALUE
};

/// Segments, and their values.
const SEGMENTS: &[(&[u8], TcpRepr<'static>)] = &[
    (&SYN, SYN_VALUE),
    // SACK permitted, and one range, which is not emitted beside it
    (
        &[
            0xbf, 0x00, 0x00, 0x50, 0x01, 0x23, 0x45, 0x67, 0x09, 0xab, 0xcd, 0xef, 0x80, 0x10,
            0x01, 0x23, 0x7a, 0x8d, 0x00, 0x00, 0x04, 0x02, 0x05, 0x0a, 0, 0, 0, 1, 0, 0, 0, 2,
        ],
        TcpRepr {
            sack_permitted: true,
            sack_ranges: [Some((1, 2)), None, None, None],
            ..ACK
        },
    ),
    // Two ranges, which are not emitted without an acknowledgement
    (
        &[
            0xbf, 0x00, 0x00, 0x50, 0x01, 0x23, 0x45, 0x67, 0x09, 0xab, 0xcd, 0xef, 0xa0, 0x00,
            0x01, 0x23, 0x7a, 0x8d, 0x00, 0x00, 0x05, 0x12, 0, 0, 0, 1, 0, 0, 0, 2, 0, 0, 0, 3, 0,
            0, 0, 4, 0, 0,
        ],
        TcpRepr {
            ack_number: None,
            sack_ranges: [Some((1, 2)), Some((3, 4)), None, None],
            ..ACK
        },
    ),
];

#[test]
fn reads_segments(rt: HostRuntime) {
    let (src, dst) = (IpAddress::v4(192, 168, 1, 1), IpAddress::v4(192, 168, 1, 2));
    let caps = ChecksumCapabilities::ignored();
    for (bytes, value) in SEGMENTS {
        let packet = TcpPacket::new_unchecked(bytes);
        assert!(rt;
            TcpRepr::parse(&packet, &src, &dst, &caps) == Ok(*value),
            "{value}"
        );
    }
}

/// Values, how many sequence numbers they take, and whether they are empty.
const VALUES: &[(TcpRepr<'static>, usize, bool)] = &[
    (SYN_VALUE, 5, false),
    (ACK, 0, true),
    (
        TcpRepr {
            control: TcpControl::Psh,
            ..ACK
        },
        0,
        true,
    ),
    (
        TcpRepr {
            control: TcpControl::Psh,
            payload: &[0xaa, 0, 0, 0xff],
            ..ACK
        },
        4,
        false,
    ),
    (
        TcpRepr {
            control: TcpControl::Fin,
            ..ACK
        },
        1,
        false,
    ),
    (
        TcpRepr {
            control: TcpControl::Rst,
            ..ACK
        },
        0,
        false,
    ),
    (
        TcpRepr {
            max_seg_size: Some(1460),
            window_scale: Some(7),
            timestamp: Some(TcpTimestampRepr { tsval: 1, tsecr: 2 }),
            sack_ranges: [Some((1, 2)), Some((3, 4)), Some((5, 6)), None],
            ..ACK
        },
        0,
        true,
    ),
    (
        TcpRepr {
            timestamp: Some(TcpTimestampRepr { tsval: 1, tsecr: 2 }),
            sack_ranges: [Some((1, 2)), Some((3, 4)), Some((5, 6)), Some((7, 8))],
            ..ACK
        },
        0,
        true,
    ),
    (
        TcpRepr {
            sack_permitted: true,
            sack_ranges: [Some((1, 2)), None, None, None],
            ..ACK
        },
        0,
        true,
    ),
];

#[test]
fn values_count_as_their_segments(rt: HostRuntime) {
    for (value, count, is_empty) in VALUES {
        if value.payload.len() <= 4 {
            assert!(rt;
                value.segment_len() == *count && value.is_empty() == *is_empty,
                "{value}"
            );
        }
    }
}

#[test]
fn a_checksum_covers_the_whole_buffer(rt: HostRuntime) {
    let (src, dst) = (IpAddress::v4(192, 168, 1, 1), IpAddress::v4(192, 168, 1, 2));
    let mut want = [0xa5; 26];
    want[..24].copy_from_slice(&SYN);
    want[16..18].copy_from_slice(&[0xd4, 0xe5]);
    let mut buffer = [0xa5; 26];
    let value = SYN_VALUE;
    if value.header_len() == 20 && value.payload.len() == 4 {
        let mut packet = TcpPacketMut::new_unchecked(&mut buffer);
        value.emit(&mut packet, &src, &dst, &ChecksumCapabilities::default());
    }
    assert!(rt; buffer == want);
}
