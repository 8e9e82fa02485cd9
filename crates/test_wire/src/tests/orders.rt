//! Types with an order, each with values in ascending order.

use ip_wire::laws::addr::order_agrees;
use ip_wire::{
    ArpHardware, ArpOperation, EthernetAddress, EthernetProtocol, IpAddress, IpCidr, IpEndpoint,
    IpListenEndpoint, IpProtocol, IpVersion, Ipv4Address, Ipv4Cidr, Ipv4FragKey, Ipv6Address,
    Ipv6Cidr,
};
use std::alloc::{AllocError, Global};
use std::collections::HashSet;
use std::hash::Hash;
use std::test::Fail;

/// Whether each value equals only itself, and is less than all later ones.
fn are_in_order<T: Ord>(values: &[T]) -> bool {
    for (i, a) in values.iter().enumerate() {
        for (j, b) in values.iter().enumerate() {
            if a.cmp(b) != i.cmp(&j) || (a < b) != (i < j) || (a == b) != (i == j) {
                return false;
            }
        }
    }
    true
}

const ETHERTYPES: &[EthernetProtocol] = &[
    EthernetProtocol::Ipv4,
    EthernetProtocol::Arp,
    EthernetProtocol::Ipv6,
    EthernetProtocol::Unknown(0),
    EthernetProtocol::Unknown(0x0800),
    EthernetProtocol::Unknown(0xffff),
];

const PROTOCOLS: &[IpProtocol] = &[
    IpProtocol::HopByHop,
    IpProtocol::Icmp,
    IpProtocol::Igmp,
    IpProtocol::Tcp,
    IpProtocol::Udp,
    IpProtocol::Ipv6Route,
    IpProtocol::Ipv6Frag,
    IpProtocol::IpSecEsp,
    IpProtocol::IpSecAh,
    IpProtocol::Icmpv6,
    IpProtocol::Ipv6NoNxt,
    IpProtocol::Ipv6Opts,
    IpProtocol::Unknown(0),
    IpProtocol::Unknown(6),
    IpProtocol::Unknown(255),
];

const HARDWARE: &[ArpHardware] = &[
    ArpHardware::Ethernet,
    ArpHardware::Unknown(0),
    ArpHardware::Unknown(1),
    ArpHardware::Unknown(0xffff),
];

const OPERATIONS: &[ArpOperation] = &[
    ArpOperation::Request,
    ArpOperation::Reply,
    ArpOperation::Unknown(0),
    ArpOperation::Unknown(2),
    ArpOperation::Unknown(0xffff),
];

const HARDWARE_ADDRESSES: &[EthernetAddress] = &[
    EthernetAddress([0, 0, 0, 0, 0, 0xff]),
    EthernetAddress([0, 0, 0, 0, 1, 0]),
    EthernetAddress([1, 0, 0, 0, 0, 0]),
    EthernetAddress([1, 2, 3, 4, 5, 255]),
    EthernetAddress([1, 2, 3, 4, 6, 0]),
    EthernetAddress::BROADCAST,
];

#[test]
fn orders_numbers_by_their_names_and_others_last(rt: HostRuntime) {
    let found = [
        are_in_order(ETHERTYPES),
        are_in_order(PROTOCOLS),
        are_in_order(HARDWARE),
        are_in_order(OPERATIONS),
        are_in_order(HARDWARE_ADDRESSES),
        are_in_order(&[IpVersion::Ipv4, IpVersion::Ipv6]),
    ];
    assert_eq!(rt; found, [true; 6]);
}

/// Keys of packets: the identification, the last bytes of both addresses, and the protocol.
const KEYS: [(u16, u8, u8, IpProtocol); 8] = [
    (0, 9, 9, IpProtocol::Unknown(255)),
    (1, 1, 9, IpProtocol::Unknown(255)),
    (1, 2, 1, IpProtocol::Unknown(255)),
    (1, 2, 2, IpProtocol::HopByHop),
    (1, 2, 2, IpProtocol::Tcp),
    (1, 2, 2, IpProtocol::Unknown(6)),
    (2, 1, 1, IpProtocol::HopByHop),
    (0x0100, 1, 1, IpProtocol::HopByHop),
];

/// The key between two hosts of 10.0.0.0/24.
fn key(fields: (u16, u8, u8, IpProtocol)) -> Ipv4FragKey {
    let (id, src, dst, protocol) = fields;
    Ipv4FragKey {
        id,
        src_addr: Ipv4Address::new(10, 0, 0, src),
        dst_addr: Ipv4Address::new(10, 0, 0, dst),
        protocol,
    }
}

#[test]
fn orders_keys_by_identification_addresses_and_protocol(rt: HostRuntime) {
    let mut keys = [key(KEYS[0]); 8];
    for (at, fields) in KEYS.iter().enumerate() {
        if let Some(place) = keys.get_mut(at) {
            *place = key(*fields);
        }
    }
    assert!(rt; are_in_order(&keys));
}

#[test]
fn orders_addresses_by_version_and_bytes(rt: HostRuntime) {
    let found = [
        are_in_order(&[
            IpAddress::v4(9, 255, 255, 255),
            IpAddress::v4(10, 0, 0, 0),
            IpAddress::v4(255, 255, 255, 255),
            IpAddress::v6(0, 0, 0, 0, 0, 0, 0, 0),
            IpAddress::v6(0, 0, 0, 0, 0, 0, 0, 1),
            IpAddress::v6(0xfe80, 0, 0, 0, 0, 0, 0, 1),
        ]),
        are_in_order(&[
            Ipv4Address::new(9, 255, 255, 255),
            Ipv4Address::new(10, 0, 0, 0),
            Ipv4Address::new(10, 0, 0, 1),
        ]),
        are_in_order(&[
            Ipv6Address::new(0, 0, 0, 0, 0, 0, 0, 0),
            Ipv6Address::new(0, 0, 0, 0, 0, 0, 0, 1),
            Ipv6Address::new(1, 0, 0, 0, 0, 0, 0, 0),
        ]),
    ];
    assert_eq!(rt; found, [true; 3]);
}

#[test]
fn orders_blocks_by_address_and_prefix(rt: HostRuntime) {
    let (low, high) = (
        Ipv6Address::new(0xfe80, 0, 0, 0, 0, 0, 0, 1),
        Ipv6Address::new(0xfe80, 0, 0, 0, 0, 0, 0, 2),
    );
    order_agrees(&Ipv6Cidr::new(low, 128), &Ipv6Cidr::new(high, 10));
    let found = [
        are_in_order(&[
            Ipv4Cidr::new(Ipv4Address::new(9, 255, 255, 255), 32),
            Ipv4Cidr::new(Ipv4Address::new(10, 0, 0, 0), 8),
            Ipv4Cidr::new(Ipv4Address::new(10, 0, 0, 0), 9),
        ]),
        are_in_order(&[
            Ipv6Cidr::new(low, 128),
            Ipv6Cidr::new(high, 10),
            Ipv6Cidr::new(high, 64),
        ]),
        are_in_order(&[
            IpCidr::new(IpAddress::v4(10, 0, 0, 0), 31),
            IpCidr::new(IpAddress::v4(10, 0, 0, 0), 32),
            IpCidr::new(IpAddress::v4(10, 0, 0, 1), 8),
            IpCidr::new(IpAddress::v6(0, 0, 0, 0, 0, 0, 0, 0), 0),
        ]),
    ];
    assert_eq!(rt; found, [true; 3]);
}

#[test]
fn orders_endpoints_by_address_and_port(rt: HostRuntime) {
    let found = [
        are_in_order(&[
            IpEndpoint::new(IpAddress::v4(1, 2, 3, 4), 80),
            IpEndpoint::new(IpAddress::v4(1, 2, 3, 4), 65535),
            IpEndpoint::new(IpAddress::v4(1, 2, 3, 5), 1),
            IpEndpoint::new(IpAddress::v6(0, 0, 0, 0, 0, 0, 0, 0), 0),
        ]),
        are_in_order(&[
            IpListenEndpoint::from(65535),
            IpListenEndpoint::from((IpAddress::v4(1, 2, 3, 4), 0)),
            IpListenEndpoint::from((IpAddress::v4(1, 2, 3, 4), 65535)),
            IpListenEndpoint::from((IpAddress::v4(1, 2, 3, 5), 1)),
        ]),
    ];
    assert_eq!(rt; found, [true; 2]);
}

/// The number of different values.
fn count_distinct<T: Copy + Eq + Hash>(alloc: Global, values: &[T]) -> Result<usize, AllocError> {
    let mut seen = HashSet::new(alloc);
    for value in values {
        seen.insert(*value)?;
    }
    Ok(seen.len())
}

/// Five different protocols.
const HASHED: &[IpProtocol] = &[
    IpProtocol::Tcp,
    IpProtocol::Udp,
    IpProtocol::Unknown(6),
    IpProtocol::Unknown(17),
    IpProtocol::Unknown(0),
    IpProtocol::Tcp,
];

#[test]
fn hashes_values_by_their_fields(rt: HostRuntime) -> Result<(), Fail> {
    let (low, high) = (IpAddress::v4(1, 2, 3, 4), IpAddress::v4(1, 2, 3, 5));
    let blocks = [
        IpCidr::new(low, 24),
        IpCidr::new(low, 32),
        IpCidr::new(high, 32),
        IpCidr::new(low, 32),
    ];
    let endpoints = [
        IpListenEndpoint::from(80),
        IpListenEndpoint::from((low, 80)),
        IpListenEndpoint::from((high, 80)),
        IpListenEndpoint::from(80),
    ];
    let found = [
        count_distinct(rt.alloc(), HASHED)?,
        count_distinct(rt.alloc(), &blocks)?,
        count_distinct(rt.alloc(), &endpoints)?,
    ];
    assert_eq!(rt; found, [5, 3, 3]);
    Ok(())
}
