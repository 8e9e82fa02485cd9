//! UDP packets. `tests/data/calls/worked_transport.call` has more examples.

use super::packets::UDP;
use super::pretty_print::Shown;
use super::values::Emitted;
use super::views::{Format, NEVER};
use ip_wire::{IpAddress, UdpPacketMut, UdpRepr};

/// Texts of packets and values.
pub(super) const SHOWN: &[(Shown, &str)] = &[
    (Shown::Udp(&UDP), "UDP src=48896 dst=53 len=4"),
    (
        Shown::Udp(b"\xbf\0\0\x35\0\x0c\x12\x4d\xaa\0\0"),
        "UDP (wire::Error)",
    ),
    (Shown::Udp(&[]), "UDP (wire::Error)"),
    (
        Shown::UdpValue(UdpRepr {
            src_port: 48896,
            dst_port: 53,
        }),
        "UDP src=48896 dst=53",
    ),
];

/// Packets, the least number of their bytes that the checks accept, and the least that parses.
pub(super) const LENGTHS: &[(Format, &[u8], usize, usize)] = &[
    (Format::Udp, &UDP, 12, 12),
    // The length field: 0, 7, 8 and 13
    (
        Format::Udp,
        b"\xbf\0\0\x35\0\0\x12\x4d\xaa\0\0\xff",
        NEVER,
        NEVER,
    ),
    (
        Format::Udp,
        b"\xbf\0\0\x35\0\x07\x12\x4d\xaa\0\0\xff",
        NEVER,
        NEVER,
    ),
    (Format::Udp, b"\xbf\0\0\x35\0\x08\x12\x4d\xaa\0\0\xff", 8, 8),
    (
        Format::Udp,
        b"\xbf\0\0\x35\0\x0d\x12\x4d\xaa\0\0\xff",
        NEVER,
        NEVER,
    ),
];

/// Packets with padding after them, and where their payloads begin and end.
pub(super) const PAYLOADS: &[(Format, &[u8], usize, usize)] = &[
    (Format::Udp, b"\xbf\0\0\x35\0\x08\x12\x4d\xaa\0\0\xff", 8, 8),
    (
        Format::Udp,
        b"\xbf\0\0\x35\0\x0c\x12\x4d\xaa\0\0\xff\x55\x55",
        8,
        12,
    ),
];

/// Packets, and what their values emit.
pub(super) const EMITTED: &[(Emitted, &[u8], &[u8])] = &[
    (Emitted::Udp, &UDP, &UDP),
    (Emitted::UdpHeader, &UDP, b"\xbf\0\0\x35\0\x0c\0\0"),
];

/// Checksums of the packet, and whether each covers all of it and only the pseudo-header.
const CHECKSUMS: &[(u16, [bool; 2])] = &[
    (0x124d, [true, false]),
    (0x124e, [false, false]),
    (0x8371, [false, true]),
    (0x0000, [true, false]),
];

#[test]
fn verifies_whole_and_partial_checksums(rt: HostRuntime) {
    let (src, dst) = (IpAddress::v4(192, 168, 1, 1), IpAddress::v4(192, 168, 1, 2));
    for (checksum, want) in CHECKSUMS {
        let mut buffer = [0x55; 14];
        buffer[..12].copy_from_slice(&UDP);
        let mut packet = UdpPacketMut::new_unchecked(&mut buffer);
        packet.set_checksum(*checksum);
        let fields = [
            packet.src_port(),
            packet.dst_port(),
            packet.len(),
            packet.checksum(),
        ];
        let found = packet.check_len().is_ok()
            && packet.verify_checksum(&src, &dst) == want[0]
            && packet.verify_partial_checksum(&src, &dst) == want[1];
        assert!(rt; found && fields == [48896, 53, 12, *checksum], "{checksum}");
    }
}
