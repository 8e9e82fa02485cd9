//! CIDR blocks of addresses of either version. `tests/data/calls/worked_addresses.call` has more examples.

use wire_addr::{IpAddress, IpCidr, Ipv4Address, Ipv4Cidr, Ipv6Address, Ipv6Cidr};

#[test]
fn converts_from_a_block_of_a_version(rt: HostRuntime) {
    let v4 = IpCidr::from(Ipv4Cidr::new(Ipv4Address::new(10, 0, 0, 0), 8));
    let v6 = IpCidr::from(Ipv6Cidr::new(Ipv6Address::LOCALHOST, 128));
    let is_same = v4 == IpCidr::new(IpAddress::v4(10, 0, 0, 0), 8)
        && v6 == IpCidr::new(IpAddress::v6(0, 0, 0, 0, 0, 0, 0, 1), 128);
    assert!(rt; is_same && [v4.prefix_len(), v6.prefix_len()] == [8, 128]);
}
