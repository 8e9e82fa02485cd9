//! Frames that are written through three views.

use ip_wire::{
    Carried, ChecksumCapabilities, EthernetProtocol, EthernetRepr, Frame, IpProtocol, IpRepr,
    Ipv4Address, Ipv4Repr, Ipv6Address, Ipv6Repr, SACK_BLOCKS, TcpControl, TcpRepr, TcpSeqNumber,
    Transport, UdpRepr,
};
use promises::views::{emit_then_parse_tcp_frame, emit_then_parse_udp_frame};
use test_support::udp_frames::{DST, FRAME, SRC};

#[test]
fn a_udp_packet_is_written_view_by_view(rt: HostRuntime) {
    let header = EthernetRepr {
        src_addr: SRC,
        dst_addr: DST,
        ethertype: EthernetProtocol::Ipv4,
    };
    let inner = IpRepr::Ipv4(Ipv4Repr {
        src_addr: Ipv4Address::new(192, 168, 1, 1),
        dst_addr: Ipv4Address::new(192, 168, 1, 2),
        next_header: IpProtocol::Udp,
        payload_len: 12,
        hop_limit: 64,
    });
    let value = UdpRepr {
        src_port: 48896,
        dst_port: 53,
    };
    let payload = [0xaa, 0x00, 0x00, 0xff];
    let caps = ChecksumCapabilities::default();
    let mut buffer = [0xa5; 46];
    let parsed = emit_then_parse_udp_frame(
        &header,
        &inner,
        &value,
        &payload,
        &mut buffer,
        &caps,
        &caps,
    );
    let carried = Carried::Packet(inner, Transport::Udp(value, &payload));
    assert!(rt; parsed == Ok(Frame { header, carried }));
    assert!(rt; buffer.as_slice() == FRAME.as_slice());
}

#[test]
fn a_tcp_segment_is_written_view_by_view(rt: HostRuntime) {
    let header = EthernetRepr {
        src_addr: SRC,
        dst_addr: DST,
        ethertype: EthernetProtocol::Ipv6,
    };
    let inner = IpRepr::Ipv6(Ipv6Repr {
        src_addr: Ipv6Address::new(0x2001, 0xdb8, 0, 0, 0, 0, 0, 1),
        dst_addr: Ipv6Address::new(0x2001, 0xdb8, 0, 0, 0, 0, 0, 2),
        next_header: IpProtocol::Tcp,
        payload_len: 24,
        hop_limit: 64,
    });
    let value = TcpRepr {
        src_port: 48896,
        dst_port: 80,
        control: TcpControl::Psh,
        seq_number: TcpSeqNumber(0x0123_4567),
        ack_number: Some(TcpSeqNumber(0x09ab_cdef)),
        window_len: 0x0123,
        window_scale: None,
        max_seg_size: None,
        sack_permitted: false,
        sack_ranges: [None; SACK_BLOCKS],
        timestamp: None,
        payload: &[0xaa, 0x00, 0x00, 0xff],
    };
    let caps = ChecksumCapabilities::default();
    let mut buffer = [0xa5; 78];
    let parsed = emit_then_parse_tcp_frame(&header, &inner, &value, &mut buffer, &caps, &caps);
    let carried = Carried::Packet(inner, Transport::Tcp(value));
    assert!(rt; parsed == Ok(Frame { header, carried }));
}
