//! IPv6 headers. `tests/data/calls/worked_headers.call` has more examples.

use super::packets::{IPV6_FRAGMENT, IPV6_PACKET};
use super::pretty_print::Shown;
use super::values::Emitted;
use super::views::{Format, NEVER};
use ip_wire::{
    ETHERNET_HEADER_LEN, EthernetFrame, IPV4_HEADER_LEN, IPV6_HEADER_LEN, Ipv6Packet,
    UDP_HEADER_LEN,
};

/// Texts of packets and values.
pub(super) const SHOWN: &[(Shown, &str)] = &[
    (
        Shown::Ipv6(&IPV6_PACKET),
        "IPv6 src=fe80::1 dst=ff02::1 nxt_hdr=UDP hop_limit=64",
    ),
    // Version 4, and less than the payload length
    (
        Shown::Ipv6(
            b"\x40\0\0\0\0\0\x11\x40\xfe\x80\0\0\0\0\0\0\0\0\0\0\0\0\0\x01\xff\x02\0\0\0\0\0\0\0\0\0\0\0\0\0\x01",
        ),
        "IPv6 (wire::Error)",
    ),
    (
        Shown::Ipv6(
            b"\x60\0\0\0\0\x01\x11\x40\xfe\x80\0\0\0\0\0\0\0\0\0\0\0\0\0\x01\xff\x02\0\0\0\0\0\0\0\0\0\0\0\0\0\x01",
        ),
        "IPv6 (wire::Error)",
    ),
    (Shown::Ipv6(&[]), "IPv6 (wire::Error)"),
];

/// Packets, the least number of their bytes that the checks accept, and the least that parses.
pub(super) const LENGTHS: &[(Format, &[u8], usize, usize)] = &[
    (Format::Ipv6, &IPV6_PACKET, 52, 52),
    (Format::Ipv6, &IPV6_FRAGMENT, 48, 48),
    // Versions 4 and 7 in 40 bytes
    (
        Format::Ipv6,
        b"\x40\0\0\0\0\0\x11\x40\xfe\x80\0\0\0\0\0\0\0\0\0\0\0\0\0\x01\xff\x02\0\0\0\0\0\0\0\0\0\0\0\0\0\x01",
        40,
        NEVER,
    ),
    (
        Format::Ipv6,
        b"\x70\0\0\0\0\0\x11\x40\xfe\x80\0\0\0\0\0\0\0\0\0\0\0\0\0\x01\xff\x02\0\0\0\0\0\0\0\0\0\0\0\0\0\x01",
        40,
        NEVER,
    ),
];

/// Packets with padding after them, and where their payloads begin and end.
pub(super) const PAYLOADS: &[(Format, &[u8], usize, usize)] = &[
    (Format::Ipv6, &IPV6_PACKET, 40, 52),
    (
        Format::Ipv6,
        b"\x60\0\0\0\0\x02\x11\x40\xfe\x80\0\0\0\0\0\0\0\0\0\0\0\0\0\x01\xff\x02\0\0\0\0\0\0\0\0\0\0\0\0\0\x01\xaa\xff\x55\x55",
        40,
        42,
    ),
];

/// Packets, and what their values emit.
pub(super) const EMITTED: &[(Emitted, &[u8], &[u8])] = &[(
    Emitted::Ipv6,
    &IPV6_PACKET,
    b"\x60\0\0\0\0\x0c\x11\x40\xfe\x80\0\0\0\0\0\0\0\0\0\0\0\0\0\x01\xff\x02\0\0\0\0\0\0\0\0\0\0\0\0\0\x01",
)];

#[test]
fn has_lengths(rt: HostRuntime) {
    let mut buffer = IPV6_PACKET;
    buffer[5] = 10;
    let packet = Ipv6Packet::new_unchecked(&buffer);
    assert!(rt; [packet.header_len(), packet.total_len()] == [40, 50]);
    let lens = [
        ETHERNET_HEADER_LEN,
        EthernetFrame::header_len(),
        EthernetFrame::buffer_len(50),
        IPV4_HEADER_LEN,
        IPV6_HEADER_LEN,
        UDP_HEADER_LEN,
    ];
    assert_eq!(rt; lens, [14, 14, 64, 20, 40, 8]);
}
