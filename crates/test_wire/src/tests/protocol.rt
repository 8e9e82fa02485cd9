//! Protocol numbers. `tests/data/cases/shapes.hex` has the text of each.

use ip_wire::{ArpHardware, ArpOperation, EthernetProtocol};
use wire_addr::IpProtocol;

/// Numbers, and their names.
const PROTOCOLS: &[(u8, IpProtocol)] = &[
    (0, IpProtocol::HopByHop),
    (1, IpProtocol::Icmp),
    (2, IpProtocol::Igmp),
    (6, IpProtocol::Tcp),
    (17, IpProtocol::Udp),
    (43, IpProtocol::Ipv6Route),
    (44, IpProtocol::Ipv6Frag),
    (50, IpProtocol::IpSecEsp),
    (51, IpProtocol::IpSecAh),
    (58, IpProtocol::Icmpv6),
    (59, IpProtocol::Ipv6NoNxt),
    (60, IpProtocol::Ipv6Opts),
    (3, IpProtocol::Unknown(3)),
    (0xfe, IpProtocol::Unknown(0xfe)),
];

#[test]
fn names_the_protocols_of_the_table(rt: HostRuntime) {
    for (number, name) in PROTOCOLS {
        assert!(rt;
            IpProtocol::from(*number) == *name && name.number() == *number,
            "{number}"
        );
    }
}

/// An unlisted name of a listed number differs from the listed name, and keeps the number.
#[test]
fn an_unlisted_name_of_a_listed_number_keeps_it(rt: HostRuntime) {
    let names = EthernetProtocol::Unknown(0x0800) != EthernetProtocol::Ipv4;
    let numbers = [
        IpProtocol::Unknown(6).number().into(),
        EthernetProtocol::Unknown(0x0800).number(),
        ArpHardware::Unknown(1).number(),
        ArpOperation::Unknown(1).number(),
    ];
    assert!(rt; names && numbers == [6, 0x0800, 1, 1]);
}
