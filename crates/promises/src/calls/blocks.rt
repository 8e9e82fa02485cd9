//! CIDR blocks.

ghost use Rattle.std.specs.Prelude.{◌≡◌, ◌≤◌, ◌↔◌, IfSome, IsErr, IsTrue, Ok, Some, replicate, true};

use ip_wire::{IpCidr, Ipv4Address, Ipv4Cidr, Ipv6Address, Ipv6Cidr, Result, laws};

/// Two addresses are in one block exactly if they have the same masked address.
pub fn block_by_mask(
    a: &Ipv6Address,
    b: &Ipv6Address,
    prefix_len: u8,
) -> (bool, Ipv6Address, Ipv6Address)
    requires { prefix_len ≤ 128 }
    ensures { IsTrue result.0 ↔ (result.1 ≡ result.2) }
{
    let first = Ipv6Address::from_octets(a.mask(prefix_len));
    let second = Ipv6Address::from_octets(b.mask(prefix_len));
    laws::addr::one_masked_address(*b, first, second);
    let block = Ipv6Cidr::new(*a, prefix_len);
    (block.contains_addr(b), first, second)
}

/// The netmask of a block has its prefix length.
pub fn netmask_then_prefix_len(block: &Ipv4Cidr) -> (Option<u8>, Option<u8>)
    ensures { result.0 ≡ result.1 }
{
    (block.netmask().prefix_len(), Some(block.prefix_len()))
}

/// The netmask of a block gives the block back, except that of a prefix length of 0.
pub fn netmask_then_block(block: &Ipv4Cidr) -> Result<Ipv4Cidr>
    ensures some { 1 ≤ block.now.prefix_len → result ≡ Ok block.now }
    ensures none { block.now.prefix_len ≡ 0 → IsErr result }
{
    Ipv4Cidr::from_netmask(block.address(), block.netmask())
}

/// The first and the last address of a block are in it.
pub fn ends_are_in_the_block(block: &Ipv4Cidr) -> (bool, Option<bool>)
    ensures first { IsTrue result.0 }
    ensures last { IfSome result.1 (λ is_in. IsTrue is_in) }
{
    let last = match block.broadcast() {
        Some(address) => Some(block.contains_addr(&address)),
        None => None,
    };
    (block.contains_addr(&block.network().address()), last)
}

/// No address of a block is before the first or after the last one.
pub fn bits_in_block(block: &Ipv4Cidr, address: &Ipv4Address) -> (bool, u32, u32, Option<u32>)
    ensures first { IsTrue result.0 → result.1 ≤ result.2 }
    ensures last { IsTrue result.0 → IfSome result.3 (λ last. result.2 ≤ last) }
{
    let last = match block.broadcast() {
        Some(address) => Some(address.to_bits()),
        None => None,
    };
    let first = block.network().address().to_bits();
    (block.contains_addr(address), first, address.to_bits(), last)
}

/// A block contains itself.
pub fn block_contains_itself(ipv4: &Ipv4Cidr, ipv6: &Ipv6Cidr, ip: &IpCidr) -> [bool; 3]
    ensures { result ≡ replicate 3 true }
{
    [
        ipv4.contains_subnet(ipv4),
        ipv6.contains_subnet(ipv6),
        ip.contains_subnet(ip),
    ]
}

/// A block that contains another one contains its addresses.
pub fn ipv4_subnet_is_contained(
    block: &Ipv4Cidr,
    subnet: &Ipv4Cidr,
    address: &Ipv4Address,
) -> (bool, bool, bool)
    ensures { IsTrue result.0 → IsTrue result.1 → IsTrue result.2 }
{
    // The contract of this call says how many bytes there are.
    let _bits = address.to_bits();
    (
        block.contains_subnet(subnet),
        subnet.contains_addr(address),
        block.contains_addr(address),
    )
}

/// A block that contains another one contains its addresses.
pub fn ipv6_subnet_is_contained(
    block: &Ipv6Cidr,
    subnet: &Ipv6Cidr,
    address: &Ipv6Address,
) -> (bool, bool, bool)
    ensures { IsTrue result.0 → IsTrue result.1 → IsTrue result.2 }
{
    // The contract of this call says how many bytes there are.
    let _bits = address.to_bits();
    (
        block.contains_subnet(subnet),
        subnet.contains_addr(address),
        block.contains_addr(address),
    )
}

/// A block that contains another one contains the address of that one.
pub fn subnet_has_its_address(block: &IpCidr, subnet: &IpCidr) -> (bool, bool)
    ensures { IsTrue result.0 → IsTrue result.1 }
{
    (
        block.contains_subnet(subnet),
        block.contains_addr(&subnet.address()),
    )
}

/// A block contains another one exactly if it contains its address, and its own prefix is not longer.
pub fn subnet_by_prefix(block: &IpCidr, subnet: &IpCidr) -> (bool, bool, bool)
    ensures { IsTrue result.0 ↔ (IsTrue result.1 × IsTrue result.2) }
{
    (
        block.contains_subnet(subnet),
        block.contains_addr(&subnet.address()),
        block.prefix_len() <= subnet.prefix_len(),
    )
}
