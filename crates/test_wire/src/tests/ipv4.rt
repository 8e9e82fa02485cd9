//! IPv4 headers. `tests/data/calls/worked_headers.call` has more examples.

use super::packets::{IPV4_FRAGMENT, IPV4_PACKET};
use super::pretty_print::Shown;
use super::values::Emitted;
use super::views::Format;
use ip_wire::{IpProtocol, Ipv4Address, Ipv4FragKey, Ipv4Packet, Ipv4PacketMut};

/// Texts of packets and values.
pub(super) const SHOWN: &[(Shown, &str)] = &[
    (
        Shown::Ipv4(&IPV4_PACKET),
        "IPv4 src=17.18.19.20 dst=33.34.35.36 proto=ICMP",
    ),
    (
        Shown::Ipv4(
            b"\x65\0\0\x18\0\0\x40\0\x40\x01\xd2\x79\x11\x12\x13\x14\x21\x22\x23\x24\xaa\0\0\xff",
        ),
        "IPv4 (wire::Error) src=17.18.19.20 dst=33.34.35.36 proto=ICMP hop_limit=64 ver=6 tlen=24 df",
    ),
    (
        Shown::Ipv4(
            b"\x45\0\0\x18\0\0\x40\0\x40\x01\xd2\x79\x11\x12\x13\x14\x21\x22\x23\x24\xaa\0\0",
        ),
        "IPv4 (wire::Error) src=17.18.19.20 dst=33.34.35.36 proto=ICMP hop_limit=64 tlen=24 df",
    ),
    (
        Shown::Ipv4(
            b"\x45\0\0\x1e\x01\x02\x62\x03\x1a\x01\xd5\x6e\x11\x12\x13\x14\x21\x22\x23\x24\xaa\0\0\0\0\0\0\0\0",
        ),
        "IPv4 (wire::Error) src=17.18.19.20 dst=33.34.35.36 proto=ICMP hop_limit=26 tlen=30 df mf off=4120 id=258",
    ),
    (
        Shown::Ipv4(b"\x45\0\0\x18\0\0\x40\0\x40\x01\xd2\x79\x11\x12\x13\x14\x21\x22\x23"),
        "IPv4 (wire::Error)",
    ),
    (Shown::Ipv4(&[]), "IPv4 (wire::Error)"),
];

/// Packets, the least number of their bytes that the checks accept, and the least that parses.
pub(super) const LENGTHS: &[(Format, &[u8], usize, usize)] = &[
    (Format::Ipv4, &IPV4_PACKET, 24, 24),
    (Format::Ipv4, &IPV4_FRAGMENT, 30, 30),
];

/// Packets with padding after them, and where their payloads begin and end.
pub(super) const PAYLOADS: &[(Format, &[u8], usize, usize)] = &[
    (Format::Ipv4, &IPV4_PACKET, 20, 24),
    (
        Format::Ipv4,
        b"\x45\0\0\x1e\x01\x02\x62\x03\x1a\x01\xd5\x6e\x11\x12\x13\x14\x21\x22\x23\x24\xaa\0\0\0\0\0\0\0\0\xff\0",
        20,
        30,
    ),
];

/// Packets, and what their values emit.
pub(super) const EMITTED: &[(Emitted, &[u8], &[u8])] = &[(
    Emitted::Ipv4,
    b"\x45\0\0\x18\0\0\x40\0\x40\x06\xd2\x74\x11\x12\x13\x14\x21\x22\x23\x24\xaa\0\0\xff",
    b"\x45\0\0\x18\0\0\x40\0\x40\x06\xd2\x74\x11\x12\x13\x14\x21\x22\x23\x24",
)];

/// Words of flags and offset, and whether the packet is a fragment: it has an offset, or more follows.
const FRAGMENTS: &[([u8; 2], bool)] = &[
    ([0x00, 0x00], false),
    ([0x40, 0x00], false),
    ([0x80, 0x00], false),
    ([0x20, 0x00], true),
    ([0x00, 0x01], true),
    ([0x1f, 0xff], true),
    ([0x3f, 0xff], true),
];

#[test]
fn a_fragment_has_an_offset_or_more_after_it(rt: HostRuntime) {
    for (word, is_fragment) in FRAGMENTS {
        let mut bytes = IPV4_PACKET;
        bytes[6..8].copy_from_slice(word);
        assert!(rt;
            Ipv4Packet::new_unchecked(&bytes).is_fragment() == *is_fragment,
            "{word:?}"
        );
    }
}

#[test]
fn keys_tell_packets_apart(rt: HostRuntime) {
    let key = Ipv4FragKey {
        id: 0x102,
        src_addr: Ipv4Address::new(17, 18, 19, 20),
        dst_addr: Ipv4Address::new(33, 34, 35, 36),
        protocol: IpProtocol::Icmp,
    };
    let mut buffer = IPV4_FRAGMENT;
    let read = Ipv4Packet::new_unchecked(&buffer).get_key();
    buffer[5] = 1;
    let earlier = Ipv4PacketMut::new_unchecked(&mut buffer).get_key();
    assert!(rt; read == key);
    assert!(rt; earlier < key);
}
