//! Addresses of either version. `tests/data/calls/worked_addresses.call` has more examples.

use std::net::{IpAddr, Ipv4Addr, Ipv6Addr};
use wire_addr::{IpAddress, IpVersion, Ipv4Address, Ipv6Address};

#[test]
fn converts_from_an_address_of_a_version(rt: HostRuntime) {
    let v4 = IpAddress::from(Ipv4Address::new(1, 2, 3, 4));
    let v6 = IpAddress::from(Ipv6Address::LOCALHOST);
    let is_same = v4 == IpAddress::v4(1, 2, 3, 4) && v6 == IpAddress::v6(0, 0, 0, 0, 0, 0, 0, 1);
    assert!(rt; is_same && v4.version() == IpVersion::Ipv4 && v6.version() == IpVersion::Ipv6);
}

#[test]
fn converts_to_and_from_std(rt: HostRuntime) {
    let octets = [
        0, 0, 0, 0, 0, 0, 0, 0, 0, 0, 0xff, 0xff, 0x01, 0x02, 0x03, 0x04,
    ];
    let (std4, std6) = (Ipv4Addr::new(192, 168, 1, 1), Ipv6Addr::from(octets));
    let v4 = IpAddress::v4(192, 168, 1, 1);
    let v6 = IpAddress::v6(0, 0, 0, 0, 0, 0xffff, 0x102, 0x304);
    let found = [
        IpAddress::from(std4) == v4,
        IpAddress::from(IpAddr::V4(std4)) == v4,
        IpAddress::from(std6) == v6,
        IpAddress::from(IpAddr::V6(std6)) == v6,
        IpAddr::from(v4) == IpAddr::V4(std4),
        IpAddr::from(v6) == IpAddr::V6(std6),
    ];
    assert_eq!(rt; found, [true; 6]);
}
