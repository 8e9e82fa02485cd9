//! Addresses of interfaces.

ghost use Rattle.std.specs.Prelude.{◌≡◌, IfSome, IsTrue, Some};
ghost use Rattle.ip_wire.specs.Class.{IsIpv6Unicast};

use ip_wire::{HardwareAddress, Ipv6Address, Ipv6Cidr};

/// The solicited-node multicast address is ff02::1:ff00:0 with the last three bytes of the address
/// (RFC 4291, section 2.7.1).
pub fn solicited_node_of_octets(address: &Ipv6Address) -> ([u8; 16], [u8; 16])
    requires { IsIpv6Unicast address.now }
    ensures { result.0 ≡ result.1 }
{
    let [.., n, o, p] = address.octets();
    (
        address.solicited_node().octets(),
        [0xff, 0x02, 0, 0, 0, 0, 0, 0, 0, 0, 0, 1, 0xff, n, o, p],
    )
}

/// A solicited-node multicast address is in the block of these addresses.
pub fn solicited_node_is_in_its_block(address: &Ipv6Address) -> bool
    requires { IsIpv6Unicast address.now }
    ensures { IsTrue result }
{
    address.solicited_node().is_solicited_node_multicast()
}

/// The address of an interface is in the block of the link and ends in the EUI-64 (RFC 2464,
/// section 4).
pub fn parts_of_interface(
    link_prefix: &Ipv6Cidr,
    hardware: HardwareAddress,
) -> Option<(bool, [u8; 8], Option<[u8; 8]>)>
    ensures prefix { IfSome result (λ r. IsTrue r.0) }
    ensures identifier { IfSome result (λ r. Some r.1 ≡ r.2) }
{
    // The contract of `to_bits` says that there are sixteen bytes.
    let _bits = link_prefix.address().to_bits();
    match Ipv6Address::from_link_prefix(link_prefix, hardware) {
        Some(address) => {
            let _own_bits = address.to_bits();
            let [.., i, j, k, l, m, n, o, p] = address.octets();
            let is_in = link_prefix.contains_addr(&address);
            Some((is_in, [i, j, k, l, m, n, o, p], hardware.as_eui_64()))
        }
        None => None,
    }
}

/// An interface has an address exactly if the prefix length is 64 and it has an EUI-64.
pub fn interface_exists(link_prefix: &Ipv6Cidr, hardware: HardwareAddress) -> (bool, bool)
    ensures { result.0 ≡ result.1 }
{
    (
        Ipv6Address::from_link_prefix(link_prefix, hardware).is_some(),
        link_prefix.prefix_len() == 64 && hardware.as_eui_64().is_some(),
    )
}

/// The block of an interface has its address, and the prefix length of the link.
pub fn block_of_interface(
    link_prefix: &Ipv6Cidr,
    hardware: HardwareAddress,
) -> (Option<Ipv6Cidr>, Option<Ipv6Cidr>)
    ensures { result.0 ≡ result.1 }
{
    let block = Ipv6Cidr::from_link_prefix(link_prefix, hardware);
    let by_address = match Ipv6Address::from_link_prefix(link_prefix, hardware) {
        Some(address) => Some(Ipv6Cidr::new(address, link_prefix.prefix_len())),
        None => None,
    };
    (block, by_address)
}
