//! Headers of either version. `tests/data/calls/worked_headers.call` has more examples.

use super::packets::{IPV4_PACKET, IPV6_PACKET};
use super::values::Emitted;
use super::views::{Format, payload};
use ip_wire::{IpAddress, IpPacket, IpProtocol, IpRepr, IpVersion};

/// Packets with padding after them, and where their payloads begin and end.
pub(super) const PAYLOADS: &[(Format, &[u8], usize, usize)] = &[(
    Format::Ip,
    b"\x45\0\0\x18\0\0\x40\0\x40\x01\xd2\x79\x11\x12\x13\x14\x21\x22\x23\x24\xaa\0\0\xff\0\0",
    20,
    24,
)];

/// Packets, and what their values emit.
pub(super) const EMITTED: &[(Emitted, &[u8], &[u8])] = &[
    (
        Emitted::Ip,
        &IPV4_PACKET,
        b"\x45\0\0\x18\0\0\x40\0\x40\x01\xd2\x79\x11\x12\x13\x14\x21\x22\x23\x24",
    ),
    (
        Emitted::Ip,
        &IPV6_PACKET,
        b"\x60\0\0\0\0\x0c\x11\x40\xfe\x80\0\0\0\0\0\0\0\0\0\0\0\0\0\x01\xff\x02\0\0\0\0\0\0\0\0\0\0\0\0\0\x01",
    ),
];

/// Packets of other versions than 4 and 6, and less than a packet.
const WITHOUT_PAYLOAD: &[&[u8]] = &[
    &[],
    b"\x45\0\0\x18\0\0\x40\0\x40\x01\xd2\x79\x11\x12\x13\x14\x21\x22\x23\x24\xaa\0\0",
    b"\x55\0\0\x18\0\0\x40\0\x40\x01\xd2\x79\x11\x12\x13\x14\x21\x22\x23\x24\xaa\0\0\xff\0\0",
];

#[test]
fn an_ip_view_has_the_payload_of_its_version(rt: HostRuntime) {
    for bytes in WITHOUT_PAYLOAD {
        assert!(rt; payload(Format::Ip, bytes).is_none(), "{bytes:?}");
    }
    assert!(rt; IpPacket::new_unchecked(&[]).check_len().is_err());
    assert!(rt; IpPacket::new_unchecked(&IPV4_PACKET).check_len().is_ok());
    let packet = IpPacket::new_unchecked(&IPV6_PACKET);
    assert!(rt; packet.payload() == Ok(&IPV6_PACKET[40..]));
    assert!(rt;
        [
            packet.version(),
            IpPacket::new_unchecked(&IPV4_PACKET).version()
        ] == [6, 4]
    );
    assert!(rt; packet.into_inner() == IPV6_PACKET.as_slice());
}

#[test]
fn builds_a_header_of_either_version(rt: HostRuntime) {
    let v4 = IpRepr::new(
        IpAddress::v4(17, 18, 19, 20),
        IpAddress::v4(33, 34, 35, 36),
        IpProtocol::Icmp,
        4,
        64,
    );
    let mut v6 = IpRepr::new(
        IpAddress::v6(0xfe80, 0, 0, 0, 0, 0, 0, 1),
        IpAddress::v6(0xff02, 0, 0, 0, 0, 0, 0, 1),
        IpProtocol::Udp,
        0,
        64,
    );
    v6.set_payload_len(12);
    let found = [
        v4.version() == IpVersion::Ipv4,
        v4.src_addr() == IpAddress::v4(17, 18, 19, 20),
        v4.next_header() == IpProtocol::Icmp,
        [v4.header_len(), v4.payload_len(), v4.buffer_len()] == [20, 4, 24],
        v6.version() == IpVersion::Ipv6,
        v6.src_addr() == IpAddress::v6(0xfe80, 0, 0, 0, 0, 0, 0, 1),
        v6.dst_addr() == IpAddress::v6(0xff02, 0, 0, 0, 0, 0, 0, 1),
        v6.next_header() == IpProtocol::Udp,
        v6.hop_limit() == 64,
        [v6.header_len(), v6.payload_len(), v6.buffer_len()] == [40, 12, 52],
    ];
    assert_eq!(rt; found, [true; 10]);
}
