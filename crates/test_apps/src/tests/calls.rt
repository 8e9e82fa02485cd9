//! A call of each kind, but for texts: `tests/judge/worked_values.c` parses and prints them.

use ip_wire::{
    Carried, ChecksumCapabilities, EthernetAddress, EthernetProtocol, EthernetRepr, Frame,
    IpAddress, Ipv4Address, Ipv4Cidr, Ipv4Packet, Ipv6Address, SACK_BLOCKS, TcpControl, TcpOption,
    TcpOptionSummary, TcpRepr, TcpSeqNumber, Transport, UdpRepr,
};
use promises::calls::blocks::netmask_then_block;
use promises::calls::hardware::eui_64_of_octets;
use promises::calls::interfaces::solicited_node_of_octets;
use promises::equality::{
    equal_values_carried, equal_values_frame, equal_values_tcp, equal_values_tcp_option,
    equal_values_tcp_option_summary, equal_values_transport, equal_views_ipv4,
};
use promises::frames::settles;
use promises::values::emit_then_parse_udp;
use test_support::udp_frames::FRAME;

#[test]
fn a_udp_packet_is_emitted_and_parsed(rt: HostRuntime) {
    let value = UdpRepr {
        src_port: 48896,
        dst_port: 53,
    };
    let src = IpAddress::v4(192, 168, 1, 1);
    let dst = IpAddress::v4(192, 168, 1, 2);
    let caps = ChecksumCapabilities::default();
    let mut buffer = [0xa5; 12];
    let payload = &FRAME[42..];
    let parsed = emit_then_parse_udp(value, payload, &src, &dst, &mut buffer, &caps, &caps);
    assert!(rt; parsed == Ok(value));
    assert!(rt; buffer.as_slice() == &FRAME[34..]);
}

#[test]
fn a_frame_settles(rt: HostRuntime) {
    let mut padded = [0xa5; 48];
    padded[..46].copy_from_slice(&FRAME);
    let mut first = [0xa5; 48];
    let mut second = [0xa5; 48];
    let len = settles(&padded, &mut first, &mut second);
    assert!(rt; len == 46);
    assert!(rt; second == padded);
}

/// A segment with this payload.
fn segment(payload: &[u8]) -> TcpRepr<'_> {
    TcpRepr {
        src_port: 48896,
        dst_port: 80,
        control: TcpControl::Psh,
        seq_number: TcpSeqNumber(1),
        ack_number: Some(TcpSeqNumber(2)),
        window_len: 291,
        window_scale: None,
        max_seg_size: None,
        sack_permitted: false,
        sack_ranges: [None; SACK_BLOCKS],
        timestamp: None,
        payload,
    }
}

#[test]
fn references_to_equal_bytes_are_equal(rt: HostRuntime) {
    let here = [0x0a, 0x0b];
    let there = [0x0a, 0x0b];
    let other = [0x0a, 0x0c];
    let view = Ipv4Packet::new_unchecked(&here);
    let found = [
        equal_values_tcp(&segment(&here), &segment(&there)),
        equal_values_tcp(&segment(&here), &segment(&other)),
        equal_views_ipv4(&view, &Ipv4Packet::new_unchecked(&there)),
        equal_views_ipv4(&view, &Ipv4Packet::new_unchecked(&other)),
    ];
    assert_eq!(rt; found, [true, false, true, false]);
}

#[test]
fn every_range_of_a_summary_is_compared(rt: HostRuntime) {
    let empty = TcpOptionSummary::default();
    let mut summary = empty;
    summary.sack_ranges[SACK_BLOCKS - 1] = Some((1, 2));
    let found = [
        equal_values_tcp_option_summary(&empty, &TcpOptionSummary::default()),
        equal_values_tcp_option_summary(&empty, &summary),
    ];
    assert_eq!(rt; found, [true, false]);
}

#[test]
fn values_of_different_variants_differ(rt: HostRuntime) {
    let bytes = [0x0a, 0x0b];
    let unknown = TcpOption::Unknown {
        kind: 30,
        bytes: &bytes,
    };
    let unread = Transport::Unread(&bytes);
    let packet = Ipv4Packet::new_unchecked(&bytes);
    let fragment = Carried::Fragment(packet);
    let found = [
        equal_values_tcp_option(&unknown, &unknown),
        equal_values_tcp_option(&unknown, &TcpOption::NoOperation),
        equal_values_transport(&unread, &unread),
        equal_values_transport(&unread, &Transport::Other(&bytes)),
        equal_values_carried(&fragment, &fragment),
        equal_values_carried(&fragment, &Carried::Unread(&bytes)),
    ];
    assert_eq!(rt; found, [true, false, true, false, true, false]);
}

/// A header of a frame.
const HEADER: EthernetRepr = EthernetRepr {
    src_addr: EthernetAddress([0x02, 0x00, 0x00, 0x00, 0x00, 0x01]),
    dst_addr: EthernetAddress([0x02, 0x00, 0x00, 0x00, 0x00, 0x02]),
    ethertype: EthernetProtocol::Unknown(0x88b5),
};

#[test]
fn frames_over_equal_bytes_are_equal(rt: HostRuntime) {
    let bytes = [[0x0a, 0x0b], [0x0a, 0x0b], [0x0a, 0x0c]];
    let a = Frame {
        header: HEADER,
        carried: Carried::Unread(&bytes[0]),
    };
    let b = Frame {
        header: HEADER,
        carried: Carried::Unread(&bytes[1]),
    };
    let c = Frame {
        header: HEADER,
        carried: Carried::Unread(&bytes[2]),
    };
    assert!(rt; equal_values_frame(&a, &b));
    assert!(rt; !equal_values_frame(&a, &c));
}

#[test]
fn calls_agree(rt: HostRuntime) {
    // The example of RFC 2464, section 4.
    let ethernet = EthernetAddress([0x34, 0x56, 0x78, 0x9a, 0xbc, 0xde]);
    let identifier = Some([0x36, 0x56, 0x78, 0xff, 0xfe, 0x9a, 0xbc, 0xde]);
    assert!(rt; eui_64_of_octets(ethernet) == (identifier, identifier));
    // The example of RFC 4291, section 2.7.1.
    let node = Ipv6Address::new(0x4037, 0, 0, 0, 1, 0x800, 0x200e, 0x8c6c);
    let group = [
        0xff, 2, 0, 0, 0, 0, 0, 0, 0, 0, 0, 1, 0xff, 0x0e, 0x8c, 0x6c,
    ];
    let block = Ipv4Cidr::new(Ipv4Address::new(192, 0, 2, 1), 24);
    assert!(rt; solicited_node_of_octets(&node) == (group, group));
    assert!(rt; netmask_then_block(&block) == Ok(block));
}
