//! Ethernet frames. `tests/data/calls/worked_headers.call` has more examples.

use super::packets::ETHERNET;
use super::pretty_print::Shown;
use super::values::Emitted;
use super::views::Format;
use ip_wire::EthernetProtocol;

/// Texts of packets and values.
pub(super) const SHOWN: &[(Shown, &str)] = &[
    (
        Shown::Ethernet(&ETHERNET),
        "EthernetII src=11-12-13-14-15-16 dst=01-02-03-04-05-06 type=IPv4",
    ),
    (
        Shown::Ethernet(b"\x01\x02\x03\x04\x05\x06\x11\x12\x13\x14\x15\x16\x0b\0\xaa"),
        "EthernetII src=11-12-13-14-15-16 dst=01-02-03-04-05-06 type=0x0b00",
    ),
    (
        Shown::Ethernet(b"\x01\x02\x03\x04\x05\x06\x11\x12\x13\x14\x15\x16\x08"),
        "EthernetII (wire::Error)",
    ),
    (Shown::Ethernet(&[]), "EthernetII (wire::Error)"),
];

/// Packets, the least number of their bytes that the checks accept, and the least that parses.
pub(super) const LENGTHS: &[(Format, &[u8], usize, usize)] = &[(
    Format::Ethernet,
    &ETHERNET,
    14,
    14,
)];

/// Packets with padding after them, and where their payloads begin and end.
pub(super) const PAYLOADS: &[(Format, &[u8], usize, usize)] = &[(
    Format::Ethernet,
    &ETHERNET,
    14,
    20,
)];

/// Packets, and what their values emit.
pub(super) const EMITTED: &[(Emitted, &[u8], &[u8])] = &[
    (
        Emitted::Ethernet,
        &ETHERNET,
        b"\x01\x02\x03\x04\x05\x06\x11\x12\x13\x14\x15\x16\x08\0",
    ),
    (
        Emitted::Ethernet,
        b"\x01\x02\x03\x04\x05\x06\x11\x12\x13\x14\x15\x16\x86\xdd",
        b"\x01\x02\x03\x04\x05\x06\x11\x12\x13\x14\x15\x16\x86\xdd",
    ),
];

/// Numbers, and their names.
const ETHERTYPES: &[(u16, EthernetProtocol)] = &[
    (0x0800, EthernetProtocol::Ipv4),
    (0x0806, EthernetProtocol::Arp),
    (0x86dd, EthernetProtocol::Ipv6),
    (0x88cc, EthernetProtocol::Unknown(0x88cc)),
    (0x000a, EthernetProtocol::Unknown(10)),
];

#[test]
fn names_the_types_of_the_table(rt: HostRuntime) {
    for (number, name) in ETHERTYPES {
        assert!(rt;
            EthernetProtocol::from(*number) == *name && name.number() == *number,
            "{number}"
        );
    }
}
