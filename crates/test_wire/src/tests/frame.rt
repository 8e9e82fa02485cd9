//! Whole frames.

use super::tcp_repr::SYN_VALUE;
use ip_wire::{
    ArpOperation, ArpRepr, Carried, EthernetAddress, EthernetProtocol, Frame, IpAddress,
    IpProtocol, IpRepr, IpVersion, Ipv4Address, Packet, TcpControl, TcpRepr, TcpSeqNumber,
    TcpTimestampRepr, Transport, UdpRepr,
};
use net_base::ChecksumCapabilities;
use test_support::bytes::has_front;
use test_support::texts::prints;
use test_support::udp_frames::{DST, FRAME as UDP, IPV6_FRAME as UDP_OVER_IPV6, SRC};

/// A SYN with a maximum segment size of 1,460 bytes.
const SYN: [u8; 58] = [
    0x01, 0x02, 0x03, 0x04, 0x05, 0x06, 0x11, 0x12, 0x13, 0x14, 0x15, 0x16, 0x08, 0x00, 0x45, 0x00,
    0x00, 0x2c, 0x00, 0x00, 0x40, 0x00, 0x40, 0x06, 0xb7, 0x78, 0xc0, 0xa8, 0x01, 0x01, 0xc0, 0xa8,
    0x01, 0x02, 0xc0, 0x00, 0x00, 0x50, 0x00, 0x00, 0x00, 0x01, 0x00, 0x00, 0x00, 0x00, 0x60, 0x02,
    0x04, 0x00, 0x50, 0x81, 0x00, 0x00, 0x02, 0x04, 0x05, 0xb4,
];

/// An ICMP echo request without a payload.
const ECHO: [u8; 42] = [
    0x01, 0x02, 0x03, 0x04, 0x05, 0x06, 0x11, 0x12, 0x13, 0x14, 0x15, 0x16, 0x08, 0x00, 0x45, 0x00,
    0x00, 0x1c, 0x00, 0x00, 0x40, 0x00, 0x40, 0x01, 0xb7, 0x8d, 0xc0, 0xa8, 0x01, 0x01, 0xc0, 0xa8,
    0x01, 0x02, 0x08, 0x00, 0xf7, 0xff, 0x00, 0x00, 0x00, 0x00,
];

/// The first fragment of an IPv4 packet.
const FRAGMENT: [u8; 38] = [
    0x01, 0x02, 0x03, 0x04, 0x05, 0x06, 0x11, 0x12, 0x13, 0x14, 0x15, 0x16, 0x08, 0x00, 0x45, 0x00,
    0x00, 0x18, 0x00, 0x00, 0x20, 0x00, 0x40, 0x11, 0xd7, 0x81, 0xc0, 0xa8, 0x01, 0x01, 0xc0, 0xa8,
    0x01, 0x02, 0xaa, 0x00, 0x00, 0xff,
];

/// 33.34.35.36 asks for 65.66.67.68.
const ARP: [u8; 42] = [
    0x01, 0x02, 0x03, 0x04, 0x05, 0x06, 0x11, 0x12, 0x13, 0x14, 0x15, 0x16, 0x08, 0x06, 0x00, 0x01,
    0x08, 0x00, 0x06, 0x04, 0x00, 0x01, 0x11, 0x12, 0x13, 0x14, 0x15, 0x16, 0x21, 0x22, 0x23, 0x24,
    0x31, 0x32, 0x33, 0x34, 0x35, 0x36, 0x41, 0x42, 0x43, 0x44,
];

/// A SYN from `fe80::1` to `fe80::2` with four bytes, without an Ethernet header.
const PACKET: [u8; 64] = [
    0x60, 0x00, 0x00, 0x00, 0x00, 0x18, 0x06, 0x40, 0xfe, 0x80, 0x00, 0x00, 0x00, 0x00, 0x00, 0x00,
    0x00, 0x00, 0x00, 0x00, 0x00, 0x00, 0x00, 0x01, 0xfe, 0x80, 0x00, 0x00, 0x00, 0x00, 0x00, 0x00,
    0x00, 0x00, 0x00, 0x00, 0x00, 0x00, 0x00, 0x02, 0xbf, 0x00, 0x00, 0x50, 0x01, 0x23, 0x45, 0x67,
    0x00, 0x00, 0x00, 0x00, 0x50, 0x02, 0x01, 0x23, 0x00, 0xdd, 0x00, 0x00, 0xaa, 0x00, 0x00, 0xff,
];

/// Frames, where their payloads begin, whether they are parsed to their end, and their texts.
const FRAMES: &[(&[u8], usize, bool, &str)] = &[
    (
        &UDP,
        42,
        true,
        "EthernetII src=11-12-13-14-15-16 dst=01-02-03-04-05-06 type=IPv4\nIPv4 src=192.168.1.1 dst=192.168.1.2 proto=UDP\nUDP src=48896 dst=53 len=4",
    ),
    (
        &UDP_OVER_IPV6,
        62,
        true,
        "EthernetII src=11-12-13-14-15-16 dst=01-02-03-04-05-06 type=IPv6\nIPv6 src=fe80::1 dst=ff02::1 nxt_hdr=UDP hop_limit=64\nUDP src=1 dst=2 len=4",
    ),
    (
        &SYN,
        58,
        true,
        "EthernetII src=11-12-13-14-15-16 dst=01-02-03-04-05-06 type=IPv4\nIPv4 src=192.168.1.1 dst=192.168.1.2 proto=TCP\nTCP src=49152 dst=80 syn seq=1 win=1024 len=0 mss=1460",
    ),
    (
        &ECHO,
        34,
        true,
        "EthernetII src=11-12-13-14-15-16 dst=01-02-03-04-05-06 type=IPv4\nIPv4 src=192.168.1.1 dst=192.168.1.2 proto=ICMP",
    ),
    // An ARP packet has no payload.
    (
        &ARP,
        usize::MAX,
        true,
        "EthernetII src=11-12-13-14-15-16 dst=01-02-03-04-05-06 type=ARP\nARP type=Ethernet+IPv4 src=11-12-13-14-15-16/33.34.35.36 tgt=31-32-33-34-35-36/65.66.67.68 op=Request",
    ),
    (
        &FRAGMENT,
        usize::MAX,
        false,
        "EthernetII src=11-12-13-14-15-16 dst=01-02-03-04-05-06 type=IPv4\nIPv4 src=192.168.1.1 dst=192.168.1.2 proto=UDP",
    ),
    // Another UDP checksum, another IPv4 checksum, and the Link Layer Discovery Protocol
    (
        b"\x01\x02\x03\x04\x05\x06\x11\x12\x13\x14\x15\x16\x08\0\x45\0\0\x20\0\0\x40\0\x40\x11\xb7\x79\xc0\xa8\x01\x01\xc0\xa8\x01\x02\xbf\0\0\x35\0\x0c\x12\x4e\xaa\0\0\xff",
        usize::MAX,
        false,
        "EthernetII src=11-12-13-14-15-16 dst=01-02-03-04-05-06 type=IPv4\nIPv4 src=192.168.1.1 dst=192.168.1.2 proto=UDP",
    ),
    (
        b"\x01\x02\x03\x04\x05\x06\x11\x12\x13\x14\x15\x16\x08\0\x45\0\0\x20\0\0\x40\0\x40\x11\xb7\x78\xc0\xa8\x01\x01\xc0\xa8\x01\x02\xbf\0\0\x35\0\x0c\x12\x4d\xaa\0\0\xff",
        usize::MAX,
        false,
        "EthernetII src=11-12-13-14-15-16 dst=01-02-03-04-05-06 type=IPv4",
    ),
    (
        b"\x01\x02\x03\x04\x05\x06\x11\x12\x13\x14\x15\x16\x88\xcc\x02\x07\x04",
        usize::MAX,
        false,
        "EthernetII src=11-12-13-14-15-16 dst=01-02-03-04-05-06 type=0x88cc",
    ),
];

#[test]
fn parses_what_is_right_and_keeps_the_rest(rt: HostRuntime) {
    let caps = ChecksumCapabilities::default();
    for (bytes, at, is_read, text) in FRAMES {
        let found = match Frame::read(bytes, &caps) {
            Ok(frame) => {
                prints(&frame, text)
                    && frame.payload() == bytes.get(*at..)
                    && frame.carried.is_read() == *is_read
            }
            Err(_) => false,
        };
        assert!(rt;
            found && Frame::parse(bytes, &caps).is_ok() == *is_read,
            "{text}"
        );
    }
    assert!(rt; Frame::read(&UDP[..13], &caps).is_err());
}

/// Whether a frame of these bytes is emitted as them, leaves the rest, and writes nothing where there is no room.
fn is_emitted(bytes: &[u8]) -> bool {
    let caps = ChecksumCapabilities::default();
    let mut buffer = [0xa5; 80];
    match Frame::parse(bytes, &caps) {
        Ok(frame) => {
            for room in 0..bytes.len().min(80) {
                if frame.try_emit(&mut buffer[..room], &caps).is_some() || buffer != [0xa5; 80] {
                    return false;
                }
            }
            frame.try_emit(&mut buffer, &caps) == Some(bytes.len())
                && frame.buffer_len() == bytes.len()
                && has_front(&buffer, bytes, 0xa5)
        }
        Err(_) => false,
    }
}

#[test]
fn emits_a_frame_and_leaves_the_rest(rt: HostRuntime) {
    for (bytes, _, is_read, text) in FRAMES {
        if *is_read {
            assert!(rt; is_emitted(bytes), "{text}");
        }
    }
    let caps = ChecksumCapabilities::default();
    let mut buffer = [0xa5; 80];
    if let Ok(frame) = Frame::parse(&UDP, &caps) {
        frame.emit(&mut buffer, &caps);
    }
    assert!(rt; has_front(&buffer, &UDP, 0xa5));
}

/// A header of this version, from 192.168.1.1 or `fe80::1`.
fn header(version: IpVersion, protocol: IpProtocol, payload_len: usize) -> IpRepr {
    match version {
        IpVersion::Ipv4 => IpRepr::new(
            IpAddress::v4(192, 168, 1, 1),
            IpAddress::v4(192, 168, 1, 2),
            protocol,
            payload_len,
            64,
        ),
        IpVersion::Ipv6 => IpRepr::new(
            IpAddress::v6(0xfe80, 0, 0, 0, 0, 0, 0, 1),
            IpAddress::v6(0xff02, 0, 0, 0, 0, 0, 0, 1),
            protocol,
            payload_len,
            64,
        ),
    }
}

/// The ports of the UDP packets.
const PORTS: UdpRepr = UdpRepr {
    src_port: 48896,
    dst_port: 53,
};

const PORTS_OVER_IPV6: UdpRepr = UdpRepr {
    src_port: 1,
    dst_port: 2,
};

/// The values of the SYN.
const SEGMENT: TcpRepr<'static> = TcpRepr {
    src_port: 49152,
    dst_port: 80,
    control: TcpControl::Syn,
    seq_number: TcpSeqNumber(1),
    ack_number: None,
    window_len: 1024,
    window_scale: None,
    max_seg_size: Some(1460),
    sack_permitted: false,
    sack_ranges: [None; 4],
    timestamp: None,
    payload: &[],
};

#[test]
fn parses_a_packet_and_a_payload_by_themselves(rt: HostRuntime) {
    let caps = ChecksumCapabilities::default();
    let over_ipv4 = header(IpVersion::Ipv4, IpProtocol::Udp, 12);
    let over_ipv6 = IpRepr::new(
        IpAddress::v6(0xfe80, 0, 0, 0, 0, 0, 0, 1),
        IpAddress::v6(0xfe80, 0, 0, 0, 0, 0, 0, 2),
        IpProtocol::Tcp,
        24,
        64,
    );
    let udp = Transport::Udp(PORTS, &UDP[42..]);
    let datagram = Packet {
        header: over_ipv4,
        inner: udp,
    };
    let segment = Packet {
        header: over_ipv6,
        inner: Transport::Tcp(SYN_VALUE),
    };
    let found = [
        Transport::parse(&over_ipv4, &UDP[34..], &caps) == Ok(udp),
        Transport::parse(&over_ipv4, &UDP[35..], &caps).is_err(),
        Carried::parse(EthernetProtocol::Ipv4, &UDP[14..], &caps).is_ok(),
        Carried::parse(EthernetProtocol::Ipv6, &UDP[14..], &caps).is_err(),
        Packet::parse(&UDP[14..], &caps) == Ok(datagram),
        Packet::parse(&PACKET, &caps) == Ok(segment),
        Packet::parse(&FRAGMENT[14..], &caps).is_err(),
        Packet::parse(&ARP[14..], &caps).is_err(),
    ];
    assert_eq!(rt; found, [true; 8]);
}

#[test]
fn puts_layers_together(rt: HostRuntime) {
    let caps = ChecksumCapabilities::default();
    let request = ArpRepr::EthernetIpv4 {
        operation: ArpOperation::Request,
        source_hardware_addr: SRC,
        source_protocol_addr: Ipv4Address::new(33, 34, 35, 36),
        target_hardware_addr: EthernetAddress([0x31, 0x32, 0x33, 0x34, 0x35, 0x36]),
        target_protocol_addr: Ipv4Address::new(65, 66, 67, 68),
    };
    let (v4, v6, unknown) = (IpVersion::Ipv4, IpVersion::Ipv6, IpProtocol::Unknown(99));
    let udp = Frame::udp(SRC, DST, header(v4, unknown, 0), PORTS, &UDP[42..]);
    let udp_over_ipv6 = Frame::udp(
        SRC,
        DST,
        header(v6, unknown, 0),
        PORTS_OVER_IPV6,
        &[0xff; 4],
    );
    let tcp = Frame::tcp(SRC, DST, header(v4, unknown, 0), SEGMENT);
    let other = Transport::Other(&ECHO[34..]);
    let echo = Frame::packet(SRC, DST, header(v4, IpProtocol::Icmp, 0), other);
    let arp = Frame::arp(SRC, DST, request);
    let built = [
        udp == Frame::parse(&UDP, &caps),
        udp_over_ipv6 == Frame::parse(&UDP_OVER_IPV6, &caps),
        tcp == Frame::parse(&SYN, &caps),
        echo == Frame::parse(&ECHO, &caps),
        Ok(arp) == Frame::parse(&ARP, &caps),
    ];
    assert_eq!(rt; built, [true; 5]);
}

/// Ports of UDP packets: the sender needs no answer, and no receiver.
const FROM_NO_PORT: UdpRepr = UdpRepr {
    src_port: 0,
    dst_port: 2,
};

const TO_NO_PORT: UdpRepr = UdpRepr {
    src_port: 1,
    dst_port: 0,
};

/// A segment with other ports.
const FROM_0: TcpRepr<'static> = TcpRepr {
    src_port: 0,
    ..SEGMENT
};

const TO_0: TcpRepr<'static> = TcpRepr {
    dst_port: 0,
    ..SEGMENT
};

/// Four ranges and a segment size take all 40 bytes of options.
const FULL: TcpRepr<'static> = TcpRepr {
    ack_number: Some(TcpSeqNumber(1)),
    sack_ranges: [Some((1, 2)), Some((3, 4)), Some((5, 6)), Some((7, 8))],
    ..SEGMENT
};

const TOO_FULL: TcpRepr<'static> = TcpRepr {
    max_seg_size: None,
    timestamp: Some(TcpTimestampRepr { tsval: 1, tsecr: 2 }),
    ..FULL
};

/// What a frame over IPv4 of this protocol is to hold, and whether it can.
const HELD: &[(IpProtocol, Transport<'static>, bool)] = &[
    (IpProtocol::Udp, Transport::Udp(FROM_NO_PORT, &[]), true),
    (IpProtocol::Udp, Transport::Udp(TO_NO_PORT, &[]), false),
    (IpProtocol::Tcp, Transport::Tcp(SEGMENT), true),
    (IpProtocol::Tcp, Transport::Tcp(FROM_0), false),
    (IpProtocol::Tcp, Transport::Tcp(TO_0), false),
    (IpProtocol::Tcp, Transport::Tcp(FULL), true),
    (IpProtocol::Tcp, Transport::Tcp(TOO_FULL), false),
    (IpProtocol::Udp, Transport::Other(&[1, 2, 3, 4]), false),
    (IpProtocol::Icmp, Transport::Other(&[1, 2, 3, 4]), true),
    (IpProtocol::Udp, Transport::Unread(&[1, 2, 3, 4]), false),
];

#[test]
fn rejects_what_a_frame_cannot_hold(rt: HostRuntime) {
    for (protocol, transport, want) in HELD {
        let header = header(IpVersion::Ipv4, *protocol, 0);
        assert!(rt;
            Frame::packet(SRC, DST, header, *transport).is_ok() == *want,
            "{protocol}"
        );
    }
}

/// The longest payload of each protocol by the version of IP. The total length of IPv4, the payload length of IPv6 and the
/// length of UDP have 16 bits (RFC 791, section 3.1; RFC 8200, section 3; RFC 768). The TCP header has 60 bytes.
const LONGEST: [(IpVersion, IpProtocol, usize); 6] = [
    (IpVersion::Ipv4, IpProtocol::Udp, 65_507),
    (IpVersion::Ipv6, IpProtocol::Udp, 65_527),
    (IpVersion::Ipv4, IpProtocol::Tcp, 65_455),
    (IpVersion::Ipv6, IpProtocol::Tcp, 65_475),
    (IpVersion::Ipv4, IpProtocol::Icmp, 65_515),
    (IpVersion::Ipv6, IpProtocol::Icmpv6, 65_535),
];

/// Whether a frame holds this payload.
fn is_held(version: IpVersion, protocol: IpProtocol, payload: &[u8]) -> bool {
    let transport = match protocol {
        IpProtocol::Udp => Transport::Udp(PORTS, payload),
        IpProtocol::Tcp => Transport::Tcp(TcpRepr { payload, ..FULL }),
        _ => Transport::Other(payload),
    };
    Frame::packet(SRC, DST, header(version, protocol, 0), transport).is_ok()
}

#[test]
fn holds_the_longest_payloads(rt: HostRuntime) {
    let zeros = [0; 65_536];
    for (version, protocol, len) in LONGEST {
        let len = len.min(65_535);
        assert!(rt;
            is_held(version, protocol, &zeros[..len])
                && !is_held(version, protocol, &zeros[..len + 1]),
            "{version} {protocol}"
        );
    }
}
