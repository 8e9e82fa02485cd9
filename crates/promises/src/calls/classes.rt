//! Classes of addresses.

ghost use Rattle.std.specs.Prelude.{◌≡◌};
ghost use Rattle.ip_wire.specs.Class.{HasScope};

use ip_wire::{Ipv4Address, Ipv4Cidr, Ipv6Address, Ipv6Cidr, Ipv6MulticastScope, laws};

/// Multicast is 224.0.0.0/4, loopback 127.0.0.0/8, link-local 169.254.0.0/16.
pub fn ipv4_blocks(address: &Ipv4Address) -> ([bool; 3], [bool; 3])
    ensures { result.0 ≡ result.1 }
{
    let multicast = Ipv4Cidr::new(Ipv4Address::new(224, 0, 0, 0), 4);
    let loopback = Ipv4Cidr::new(Ipv4Address::new(127, 0, 0, 0), 8);
    let link_local = Ipv4Cidr::new(Ipv4Address::new(169, 254, 0, 0), 16);
    (
        [
            address.is_multicast(),
            address.is_loopback(),
            address.is_link_local(),
        ],
        [
            multicast.contains_addr(address),
            loopback.contains_addr(address),
            link_local.contains_addr(address),
        ],
    )
}

/// Unspecified is 0.0.0.0, broadcast 255.255.255.255.
pub fn ipv4_single_addresses(address: &Ipv4Address) -> ([bool; 2], [bool; 2])
    ensures { result.0 ≡ result.1 }
{
    (
        [address.is_unspecified(), address.is_broadcast()],
        [
            *address == Ipv4Address::new(0, 0, 0, 0),
            *address == Ipv4Address::new(255, 255, 255, 255),
        ],
    )
}

/// Multicast is ff00::/8, unique local fc00::/7.
pub fn ipv6_blocks(address: &Ipv6Address) -> ([bool; 2], [bool; 2])
    ensures { result.0 ≡ result.1 }
{
    let multicast = Ipv6Cidr::new(Ipv6Address::new(0xff00, 0, 0, 0, 0, 0, 0, 0), 8);
    let unique_local = Ipv6Cidr::new(Ipv6Address::new(0xfc00, 0, 0, 0, 0, 0, 0, 0), 7);
    (
        [address.is_multicast(), address.is_unique_local()],
        [
            multicast.contains_addr(address),
            unique_local.contains_addr(address),
        ],
    )
}

/// Whether an address is link-local, global unicast and solicited-node, by the calls; and whether fe80::/64,
/// 2000::/3 and ff02::1:ff00:0/104 contain it.
pub fn ipv6_more_blocks(address: &Ipv6Address) -> ([bool; 3], [bool; 3])
    ensures { result.0 ≡ result.1 }
{
    let link_local = Ipv6Cidr::new(Ipv6Address::new(0xfe80, 0, 0, 0, 0, 0, 0, 0), 64);
    let global_unicast = Ipv6Cidr::new(Ipv6Address::new(0x2000, 0, 0, 0, 0, 0, 0, 0), 3);
    let solicited_node = Ipv6Cidr::new(Ipv6Address::new(0xff02, 0, 0, 0, 0, 1, 0xff00, 0), 104);
    (
        [
            address.is_link_local(),
            address.is_global_unicast(),
            address.is_solicited_node_multicast(),
        ],
        [
            link_local.contains_addr(address),
            global_unicast.contains_addr(address),
            solicited_node.contains_addr(address),
        ],
    )
}

/// Unspecified is `::`, loopback `::1`.
pub fn ipv6_single_addresses(address: &Ipv6Address) -> ([bool; 2], [bool; 2])
    ensures { result.0 ≡ result.1 }
{
    (
        [address.is_unspecified(), address.is_loopback()],
        [
            *address == Ipv6Address::new(0, 0, 0, 0, 0, 0, 0, 0),
            *address == Ipv6Address::new(0, 0, 0, 0, 0, 0, 0, 1),
        ],
    )
}

/// A unicast address is not multicast, unspecified or broadcast. IPv6 has no broadcast.
pub fn unicast_by_other_classes(ipv4: &Ipv4Address, ipv6: &Ipv6Address) -> ([bool; 2], [bool; 2])
    ensures { result.0 ≡ result.1 }
{
    (
        [ipv4.x_is_unicast(), ipv6.x_is_unicast()],
        [
            !(ipv4.is_multicast() || ipv4.is_unspecified() || ipv4.is_broadcast()),
            !(ipv6.is_multicast() || ipv6.is_unspecified()),
        ],
    )
}

/// A multicast address has its scope in the low four bits of its second byte (RFC 4291, section
/// 2.7). The scope of a unicast address follows from its class (RFC 6724, section 3.1).
pub fn scope_by_class(address: &Ipv6Address) -> (Ipv6MulticastScope, Ipv6MulticastScope)
    ensures { result.0 ≡ result.1 }
{
    let scope = address.x_multicast_scope();
    let by_class = scope_of_class(address);
    laws::addr::one_scope(*address, scope, by_class);
    (scope, by_class)
}

fn scope_of_class(address: &Ipv6Address) -> Ipv6MulticastScope
    ensures { HasScope address.now result }
{
    if address.is_multicast() {
        Ipv6MulticastScope::from(address.octets()[1] % 16)
    } else if address.is_link_local() {
        Ipv6MulticastScope::LinkLocal
    } else if address.is_unique_local() || address.is_global_unicast() {
        Ipv6MulticastScope::Global
    } else {
        Ipv6MulticastScope::Unknown
    }
}
