//! IPv6 addresses. `tests/data/calls/worked_addresses.call` has more examples.

use test_support::texts::prints;
use wire_addr::{
    EthernetAddress, HardwareAddress, IPV6_ADDR_SIZE, Ipv6Address, Ipv6Cidr, Ipv6MulticastScope,
};

#[test]
fn converts_from_octets_groups_and_bits(rt: HostRuntime) {
    let octets = [
        0xfe, 0x80, 0, 0, 0, 0, 0, 0, 0x10, 0x11, 0x12, 0x13, 0x14, 0x15, 0x16, 0x17,
    ];
    let groups = [0xfe80, 0, 0, 0, 0x1011, 0x1213, 0x1415, 0x1617];
    let address = Ipv6Address::new(0xfe80, 0, 0, 0, 0x1011, 0x1213, 0x1415, 0x1617);
    let bits = 0xfe80_0000_0000_0000_1011_1213_1415_1617;
    let found = [
        Ipv6Address::from_octets(octets) == address,
        Ipv6Address::from(octets) == address,
        Ipv6Address::from(groups) == address,
        Ipv6Address::from_bits(bits) == address,
        address.octets() == octets,
        address.segments() == groups,
        address.to_bits() == bits,
        Ipv6Address::LOCALHOST.to_bits() == 1,
        Ipv6Address::from_bits(1) == Ipv6Address::LOCALHOST,
        IPV6_ADDR_SIZE == 16,
    ];
    assert_eq!(rt; found, [true; 10]);
}

/// Numbers, and their scopes. A number of more than four bits has none.
const SCOPES: &[(u8, Ipv6MulticastScope)] = &[
    (0x02, Ipv6MulticastScope::LinkLocal),
    (0x0e, Ipv6MulticastScope::Global),
    (0x0f, Ipv6MulticastScope::Unknown),
    (0x10, Ipv6MulticastScope::Unknown),
    (0x12, Ipv6MulticastScope::Unknown),
    (0xfe, Ipv6MulticastScope::Unknown),
];

/// Prefix lengths, and the bytes of `123:4567:89ab::1` under the mask.
const MASKED: &[(u8, [u8; 16])] = &[
    (0, [0; 16]),
    (11, [0x01, 0x20, 0, 0, 0, 0, 0, 0, 0, 0, 0, 0, 0, 0, 0, 0]),
    (15, [0x01, 0x22, 0, 0, 0, 0, 0, 0, 0, 0, 0, 0, 0, 0, 0, 0]),
    (
        26,
        [0x01, 0x23, 0x45, 0x40, 0, 0, 0, 0, 0, 0, 0, 0, 0, 0, 0, 0],
    ),
    (
        127,
        [
            0x01, 0x23, 0x45, 0x67, 0x89, 0xab, 0, 0, 0, 0, 0, 0, 0, 0, 0, 0,
        ],
    ),
    (
        128,
        [
            0x01, 0x23, 0x45, 0x67, 0x89, 0xab, 0, 0, 0, 0, 0, 0, 0, 0, 0, 1,
        ],
    ),
];

#[test]
fn has_a_scope_and_keeps_its_first_bits_under_a_mask(rt: HostRuntime) {
    for (number, scope) in SCOPES {
        assert!(rt; Ipv6MulticastScope::from(*number) == *scope, "{number}");
    }
    let address = Ipv6Address::new(0x0123, 0x4567, 0x89ab, 0, 0, 0, 0, 1);
    for (len, octets) in MASKED {
        assert!(rt; address.mask((*len).min(128)) == *octets, "{len}");
    }
}

/// Unicast addresses, and their solicited-node addresses.
const NODES: &[([u16; 8], &str)] = &[
    ([0xfe80, 0, 0, 0, 0, 0, 0, 1], "ff02::1:ff00:1"),
    (
        [0x2001, 0xdb8, 0, 0, 0, 0, 0x12ab, 0xcdef],
        "ff02::1:ffab:cdef",
    ),
];

#[test]
fn its_solicited_node_address_has_its_last_three_bytes(rt: HostRuntime) {
    for (groups, text) in NODES {
        let address = Ipv6Address::from(*groups);
        assert!(rt;
            address.x_is_unicast() && prints(&address.solicited_node(), text),
            "{text}"
        );
    }
}

/// A prefix and its length, the bytes of a hardware address, and the address of an interface with both.
type Interface = ([u16; 8], u8, Option<[u8; 6]>, Option<[u16; 8]>);

const INTERFACES: &[Interface] = &[
    (
        [0xfe80, 0, 0, 0, 0, 0, 0, 0],
        64,
        Some([0x02, 0, 0, 0, 0, 0x01]),
        Some([0xfe80, 0, 0, 0, 0, 0xff, 0xfe00, 1]),
    ),
    (
        [0x2001, 0xdb8, 3, 0, 0, 0, 0, 0],
        64,
        Some([0xaa, 0xbb, 0xcc, 0xdd, 0xee, 0xff]),
        Some([0x2001, 0xdb8, 3, 0, 0xa8bb, 0xccff, 0xfedd, 0xeeff]),
    ),
    (
        [0xfe80, 0, 0, 0, 0, 0, 0, 0],
        63,
        Some([0x02, 0, 0, 0, 0, 0x01]),
        None,
    ),
    (
        [0xfe80, 0, 0, 0, 0, 0, 0, 0],
        72,
        Some([0x02, 0, 0, 0, 0, 0x01]),
        None,
    ),
    ([0xfe80, 0, 0, 0, 0, 0, 0, 0], 64, None, None),
];

#[test]
fn an_interface_has_an_address_on_its_link(rt: HostRuntime) {
    for (groups, len, octets, want) in INTERFACES {
        let prefix = Ipv6Cidr::new(Ipv6Address::from(*groups), (*len).min(128));
        let hardware = match octets {
            Some(octets) => HardwareAddress::Ethernet(EthernetAddress(*octets)),
            None => HardwareAddress::Ip,
        };
        let (address, block) = match want {
            Some(groups) => {
                let address = Ipv6Address::from(*groups);
                (Some(address), Some(Ipv6Cidr::new(address, 64)))
            }
            None => (None, None),
        };
        assert!(rt; Ipv6Address::from_link_prefix(&prefix, hardware) == address);
        assert!(rt; Ipv6Cidr::from_link_prefix(&prefix, hardware) == block);
    }
}
