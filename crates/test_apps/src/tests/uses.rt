//! Each use, on frames that are listed byte by byte. `tests/judge/worked_route.c` has the MSS clamp.

use app_short::allow_list::is_allowed;
use app_short::flow_key::{Flow, FlowKey};
use app_short::read_frame::udp_packet;
use app_short::verify_checksum::{parse_udp_ports, verified_by_the_device};
use app_short::write_frame::write_udp;
use ip_wire::{
    Checksum, ChecksumCapabilities, Frame, IpAddress, IpCidr, IpEndpoint, IpProtocol, IpRepr,
    Ipv4Address, Ipv4Cidr, Ipv4Repr, Ipv6Address, Ipv6Cidr, Ipv6Repr, UdpRepr,
};
use test_support::bytes::{change, has_front};
use test_support::captured::{ECHO_REQUEST, SYN};
use test_support::udp_frames::{DST, FRAME, IPV6_FRAME, SRC};

/// The header of the packet in the first frame.
fn header() -> IpRepr {
    IpRepr::Ipv4(Ipv4Repr {
        src_addr: Ipv4Address::new(192, 168, 1, 1),
        dst_addr: Ipv4Address::new(192, 168, 1, 2),
        next_header: IpProtocol::Udp,
        payload_len: 12,
        hop_limit: 64,
    })
}

/// That of the packet in the second.
fn ipv6_header() -> IpRepr {
    IpRepr::Ipv6(Ipv6Repr {
        src_addr: Ipv6Address::new(0xfe80, 0, 0, 0, 0, 0, 0, 1),
        dst_addr: Ipv6Address::new(0xff02, 0, 0, 0, 0, 0, 0, 1),
        next_header: IpProtocol::Udp,
        payload_len: 12,
        hop_limit: 64,
    })
}

/// The ports of the packet in the first frame, and of that in the second.
const PORTS: UdpRepr = UdpRepr {
    src_port: 48896,
    dst_port: 53,
};

const IPV6_PORTS: UdpRepr = UdpRepr {
    src_port: 1,
    dst_port: 2,
};

/// A byte of the first frame, another value of it, and how many bytes of the frame there are. Then it is not read.
const UNREAD: [(usize, u8, usize); 9] = [
    (12, 0x86, 46),
    (14, 0x65, 46),
    (25, 0x78, 46),
    (23, 0x06, 46),
    (45, 0xfe, 46),
    (0, 0x01, 0),
    (0, 0x01, 13),
    (0, 0x01, 14),
    (0, 0x01, 45),
];

#[test]
fn reads_the_packet_of_a_frame(rt: HostRuntime) {
    let mut padded = [0; 60];
    padded[..46].copy_from_slice(&FRAME);
    assert!(rt; udp_packet(&padded) == Some((header(), PORTS, &FRAME[42..])));
    assert!(rt; udp_packet(&IPV6_FRAME) == Some((ipv6_header(), IPV6_PORTS, &IPV6_FRAME[62..])));
    for (at, octet, len) in UNREAD {
        let mut frame = FRAME;
        change(&mut frame, &[(at, octet)]);
        let (front, _) = frame.split_at(len.min(46));
        assert!(rt; udp_packet(front).is_none(), "{at} {len}");
    }
}

/// Writes one of the two frames.
fn write(buffer: &mut [u8], is_ipv6: bool) -> Option<usize> {
    if is_ipv6 {
        write_udp(buffer, SRC, DST, ipv6_header(), IPV6_PORTS, &[0xff; 4])
    } else {
        write_udp(buffer, SRC, DST, header(), PORTS, &[0xaa, 0, 0, 0xff])
    }
}

#[test]
fn writes_a_frame(rt: HostRuntime) {
    let (mut buffer, mut ipv6_buffer, mut short) = ([0xa5; 48], [0xa5; 68], [0xa5; 45]);
    let found = [
        write(&mut buffer, false),
        write(&mut ipv6_buffer, true),
        write(&mut short, false),
    ];
    assert!(rt; found == [Some(46), Some(66), None]);
    assert!(rt; has_front(&buffer, &FRAME, 0xa5) && has_front(&ipv6_buffer, &IPV6_FRAME, 0xa5));
    assert!(rt; short == [0xa5; 45]);
}

/// The packet in the first frame with a checksum, and whether it is read if checksums are verified.
const PACKETS: [([u8; 12], bool); 4] = [
    (
        [
            0xbf, 0x00, 0x00, 0x35, 0x00, 0x0c, 0x12, 0x4d, 0xaa, 0x00, 0x00, 0xff,
        ],
        true,
    ),
    (
        [
            0xbf, 0x00, 0x00, 0x35, 0x00, 0x0c, 0x12, 0x4e, 0xaa, 0x00, 0x00, 0xff,
        ],
        false,
    ),
    (
        [
            0xbf, 0x00, 0x00, 0x35, 0x00, 0x0c, 0x00, 0x00, 0xaa, 0x00, 0x00, 0xff,
        ],
        true,
    ),
    (
        [
            0xbf, 0x00, 0x00, 0x35, 0x00, 0x0c, 0x83, 0x71, 0xaa, 0x00, 0x00, 0xff,
        ],
        false,
    ),
];

/// Whether the packet in the first frame is read.
fn is_read(packet: &[u8], caps: &ChecksumCapabilities) -> bool {
    let src = Ipv4Address::new(192, 168, 1, 1);
    let dst = Ipv4Address::new(192, 168, 1, 2);
    parse_udp_ports(packet, src, dst, caps).is_ok()
}

#[test]
fn rejects_a_wrong_checksum(rt: HostRuntime) {
    let (all, by_device) = (ChecksumCapabilities::default(), verified_by_the_device());
    for (packet, is_verified) in PACKETS {
        assert!(rt; is_read(&packet, &all) == is_verified && is_read(&packet, &by_device));
    }
    // What is sent still has its checksums computed, and all but UDP's are verified.
    let udp = Checksum::Tx;
    assert!(rt; by_device == ChecksumCapabilities { udp, ..all });
}

#[test]
fn allows_the_addresses_of_its_blocks(rt: HostRuntime) {
    let list = [
        IpCidr::Ipv4(Ipv4Cidr::new(Ipv4Address::new(192, 168, 0, 0), 16)),
        IpCidr::Ipv6(Ipv6Cidr::LINK_LOCAL_PREFIX),
    ];
    for (list, addr, allowed) in [
        (&list[..], IpAddress::v4(192, 168, 1, 1), true),
        (&list, IpAddress::v4(192, 169, 1, 1), false),
        (&list, IpAddress::v6(0xfebf, 0, 0, 0, 0, 0, 0, 1), true),
        (&list, IpAddress::v6(0xfec0, 0, 0, 0, 0, 0, 0, 1), false),
        (&[], IpAddress::v4(192, 168, 1, 1), false),
    ] {
        assert!(rt; is_allowed(list, &addr) == allowed, "{addr}");
    }
}

const ECHO_BACK: [u8; 46] = [
    0x02, 0x00, 0x00, 0x00, 0x00, 0x01, 0x02, 0x00, 0x00, 0x00, 0x00, 0x02, 0x08, 0x00, 0x45, 0x00,
    0x00, 0x20, 0xe2, 0xdc, 0x40, 0x00, 0x40, 0x11, 0xd3, 0xec, 0xc0, 0x00, 0x02, 0x02, 0xc0, 0x00,
    0x02, 0x01, 0x00, 0x07, 0xa1, 0x67, 0x00, 0x0c, 0xfb, 0x92, 0x70, 0x69, 0x6e, 0x67,
];

const SYN_ACK: [u8; 74] = [
    0x02, 0x00, 0x00, 0x00, 0x00, 0x01, 0x02, 0x00, 0x00, 0x00, 0x00, 0x02, 0x08, 0x00, 0x45, 0x00,
    0x00, 0x3c, 0x00, 0x00, 0x40, 0x00, 0x40, 0x06, 0xb6, 0xb8, 0xc0, 0x00, 0x02, 0x02, 0xc0, 0x00,
    0x02, 0x01, 0x00, 0x50, 0xed, 0x70, 0x17, 0x22, 0x9f, 0x6e, 0x80, 0x03, 0xa2, 0x8e, 0xa0, 0x12,
    0xfe, 0x88, 0xca, 0xbe, 0x00, 0x00, 0x02, 0x04, 0x05, 0xb4, 0x04, 0x02, 0x08, 0x0a, 0xac, 0x74,
    0xa7, 0x50, 0x39, 0xd3, 0xa6, 0x25, 0x01, 0x03, 0x03, 0x0a,
];

/// The key of a frame.
fn key_of(bytes: &[u8]) -> Option<FlowKey> {
    match Frame::parse(bytes, &ChecksumCapabilities::default()) {
        Ok(frame) => match Flow::of_frame(&frame) {
            Some(flow) => Some(flow.key()),
            None => None,
        },
        Err(_) => None,
    }
}

/// The key of the packet and its echo.
fn echo_key() -> FlowKey {
    FlowKey {
        protocol: IpProtocol::Udp,
        low: IpEndpoint::new(IpAddress::v4(192, 0, 2, 1), 41319),
        high: IpEndpoint::new(IpAddress::v4(192, 0, 2, 2), 7),
    }
}

/// The key of the SYN and its reply.
fn syn_key() -> FlowKey {
    FlowKey {
        protocol: IpProtocol::Tcp,
        low: IpEndpoint::new(IpAddress::v4(192, 0, 2, 1), 60784),
        high: IpEndpoint::new(IpAddress::v4(192, 0, 2, 2), 80),
    }
}

#[test]
fn gives_both_directions_one_key(rt: HostRuntime) {
    assert!(rt; key_of(&ECHO_REQUEST) == Some(echo_key()));
    assert!(rt; key_of(&ECHO_BACK) == Some(echo_key()));
    assert!(rt; key_of(&SYN) == Some(syn_key()));
    assert!(rt; key_of(&SYN_ACK) == Some(syn_key()));
    assert!(rt; key_of(&FRAME[..45]).is_none());
    assert!(rt; key_of(&IPV6_FRAME).is_some());
}

/// The key of a flow between two ports of one host.
fn key_between(protocol: IpProtocol, src_port: u16, dst_port: u16) -> FlowKey {
    Flow {
        protocol,
        src: IpEndpoint::new(IpAddress::v4(192, 0, 2, 1), src_port),
        dst: IpEndpoint::new(IpAddress::v4(192, 0, 2, 1), dst_port),
    }
    .key()
}

#[test]
fn tells_flows_apart(rt: HostRuntime) {
    let udp = IpProtocol::Udp;
    let equal = [
        key_of(&SYN) == key_of(&ECHO_REQUEST),
        key_of(&FRAME) == key_of(&ECHO_REQUEST),
        key_between(udp, 9, 7) == key_between(udp, 7, 9),
        key_between(udp, 9, 7) == key_between(IpProtocol::Tcp, 9, 7),
        key_between(udp, 9, 7) == key_between(udp, 9, 9),
    ];
    assert_eq!(rt; equal, [false, false, true, false, false]);
}
