//! What a NAT needs of a packet. `tests/judge/worked_nat.c` and `tests/judge/worked_mappings.c` translate frames.

use app_nat::{Kind, Packet};
use ip_wire::{IpProtocol, TcpControl};
use test_support::captured::{DATA, ECHO_REQUEST, PING, SYN};

/// An echo reply from outside.
const PONG: [u8; 46] = [
    0x02, 0x00, 0x00, 0x00, 0x00, 0x01, 0x02, 0x00, 0x00, 0x00, 0x00, 0x02, 0x08, 0x00, 0x45, 0x00,
    0x00, 0x20, 0xd5, 0x7e, 0x40, 0x00, 0x40, 0x01, 0x67, 0x52, 0xc0, 0x00, 0x02, 0x02, 0xcb, 0x00,
    0x71, 0x09, 0x00, 0x00, 0x84, 0xed, 0x9c, 0x40, 0x00, 0x01, 0x70, 0x69, 0x6e, 0x67,
];

/// A frame, and the protocol, source port, destination port and kind of its packet. The identifier of an echo message is
/// both of its ports.
const PACKETS: [(&[u8], IpProtocol, u16, u16, Kind); 5] = [
    (&ECHO_REQUEST, IpProtocol::Udp, 41319, 7, Kind::Udp),
    (&SYN, IpProtocol::Tcp, 60784, 80, Kind::Tcp(TcpControl::Syn)),
    (
        &DATA,
        IpProtocol::Tcp,
        80,
        60784,
        Kind::Tcp(TcpControl::Psh),
    ),
    (&PING, IpProtocol::Icmp, 0x1234, 0x1234, Kind::EchoRequest),
    (&PONG, IpProtocol::Icmp, 40000, 40000, Kind::EchoReply),
];

#[test]
fn parses_packets(rt: HostRuntime) {
    for (frame, protocol, src_port, dst_port, kind) in PACKETS {
        let parses = match Packet::parse(frame) {
            Ok(packet) => {
                packet.header.next_header == protocol
                    && packet.src_port == src_port
                    && packet.dst_port == dst_port
                    && packet.kind == kind
            }
            Err(_) => false,
        };
        assert!(rt; parses, "{frame:?}");
    }
}
