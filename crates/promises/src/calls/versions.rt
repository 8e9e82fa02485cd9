//! Addresses, blocks and endpoints of either version.

ghost use Rattle.std.specs.Prelude.{◌≡◌, false, replicate};

use ip_wire::{IpAddress, IpCidr, IpListenEndpoint, Ipv4Address, Ipv4Cidr, Ipv6Address, Ipv6Cidr};

/// `v4` makes the address of `Ipv4Address::new`.
pub fn v4_by_version(a: u8, b: u8, c: u8, d: u8) -> (IpAddress, IpAddress)
    ensures { result.0 ≡ result.1 }
{
    (
        IpAddress::v4(a, b, c, d),
        IpAddress::from(Ipv4Address::new(a, b, c, d)),
    )
}

/// `v6` makes the address of `Ipv6Address::new`.
pub fn v6_by_version(groups: [u16; 8]) -> (IpAddress, IpAddress)
    ensures { result.0 ≡ result.1 }
{
    let [a, b, c, d, e, f, g, h] = groups;
    (
        IpAddress::v6(a, b, c, d, e, f, g, h),
        IpAddress::from(Ipv6Address::new(a, b, c, d, e, f, g, h)),
    )
}

/// An IPv4 address has the same classes as an `IpAddress`.
pub fn ipv4_classes_by_version(address: Ipv4Address) -> ([bool; 4], [bool; 4])
    ensures { result.0 ≡ result.1 }
{
    let ip = IpAddress::from(address);
    (
        [
            ip.is_unicast(),
            ip.is_multicast(),
            ip.is_broadcast(),
            ip.is_unspecified(),
        ],
        [
            address.x_is_unicast(),
            address.is_multicast(),
            address.is_broadcast(),
            address.is_unspecified(),
        ],
    )
}

/// An IPv6 address has the same classes as an `IpAddress`, which is never broadcast.
pub fn ipv6_classes_by_version(address: Ipv6Address) -> ([bool; 4], [bool; 4])
    ensures { result.0 ≡ result.1 }
{
    let ip = IpAddress::from(address);
    (
        [
            ip.is_unicast(),
            ip.is_multicast(),
            ip.is_broadcast(),
            ip.is_unspecified(),
        ],
        [
            address.x_is_unicast(),
            address.is_multicast(),
            false,
            address.is_unspecified(),
        ],
    )
}

/// An `IpAddress` has the prefix length of the netmask in it.
pub fn ipv4_prefix_len_by_version(address: Ipv4Address) -> (Option<u8>, Option<u8>)
    ensures { result.0 ≡ result.1 }
{
    (IpAddress::from(address).prefix_len(), address.prefix_len())
}

/// An `IpAddress` has the prefix length of the netmask in it.
pub fn ipv6_prefix_len_by_version(address: Ipv6Address) -> (Option<u8>, Option<u8>)
    ensures { result.0 ≡ result.1 }
{
    (IpAddress::from(address).prefix_len(), address.prefix_len())
}

/// An `IpCidr` contains the addresses that its block contains.
pub fn ipv4_contains_by_version(block: Ipv4Cidr, address: Ipv4Address) -> (bool, bool)
    ensures { result.0 ≡ result.1 }
{
    (
        IpCidr::from(block).contains_addr(&IpAddress::from(address)),
        block.contains_addr(&address),
    )
}

/// An `IpCidr` contains the addresses that its block contains.
pub fn ipv6_contains_by_version(block: Ipv6Cidr, address: Ipv6Address) -> (bool, bool)
    ensures { result.0 ≡ result.1 }
{
    (
        IpCidr::from(block).contains_addr(&IpAddress::from(address)),
        block.contains_addr(&address),
    )
}

/// An `IpCidr` contains no address of the other version.
pub fn contains_no_other_version(
    ipv4: (Ipv4Cidr, Ipv4Address),
    ipv6: (Ipv6Cidr, Ipv6Address),
) -> [bool; 2]
    ensures { result ≡ replicate 2 false }
{
    let (ipv4_block, ipv4_address) = ipv4;
    let (ipv6_block, ipv6_address) = ipv6;
    [
        IpCidr::from(ipv4_block).contains_addr(&IpAddress::from(ipv6_address)),
        IpCidr::from(ipv6_block).contains_addr(&IpAddress::from(ipv4_address)),
    ]
}

/// The address and the prefix length of a block make up this block.
pub fn parts_then_cidr(block: &IpCidr) -> IpCidr
    ensures { result ≡ block.now }
{
    IpCidr::new(block.address(), block.prefix_len())
}

/// A place to listen is specified exactly if it has an address and a port that is not 0.
pub fn specified_by_parts(addr: Option<IpAddress>, port: u16) -> (bool, bool)
    ensures { result.0 ≡ result.1 }
{
    let is_some = addr.is_some();
    let place = IpListenEndpoint { addr, port };
    (place.is_specified(), is_some && port != 0)
}
