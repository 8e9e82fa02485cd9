//! The bytes, bits and groups of an address.

ghost use Rattle.std.specs.Prelude.{◌≡◌};

use ip_wire::{Ipv4Address, Ipv6Address};

/// The bits of an IPv4 address are its bytes as a big-endian number.
pub fn bits_of_ipv4(a: u8, b: u8, c: u8, d: u8) -> (u32, u32)
    ensures { result.0 ≡ result.1 }
{
    (
        Ipv4Address::new(a, b, c, d).to_bits(),
        u32::from_be_bytes([a, b, c, d]),
    )
}

/// The bits of an IPv6 address are its bytes as a big-endian number.
#[tactic(auto, using(crate::proofs::Octets::sixteen_bytes))]
pub fn bits_of_ipv6(octets: [u8; 16]) -> (u128, u128)
    ensures { result.0 ≡ result.1 }
{
    (
        Ipv6Address::from_octets(octets).to_bits(),
        u128::from_be_bytes(octets),
    )
}

/// The address of some bits has these bits.
pub fn bits_then_ipv4(bits: u32) -> u32
    ensures { result ≡ bits }
{
    Ipv4Address::from_bits(bits).to_bits()
}

/// The address of some bits has these bits.
pub fn bits_then_ipv6(bits: u128) -> u128
    ensures { result ≡ bits }
{
    Ipv6Address::from_bits(bits).to_bits()
}

/// The address of four bytes has these bytes.
pub fn octets_then_ipv4(octets: [u8; 4]) -> [u8; 4]
    ensures { result ≡ octets }
{
    Ipv4Address::from_octets(octets).octets()
}

/// The address of sixteen bytes has these bytes.
pub fn octets_then_ipv6(octets: [u8; 16]) -> [u8; 16]
    ensures { result ≡ octets }
{
    Ipv6Address::from_octets(octets).octets()
}

/// The address of some groups has these groups.
#[tactic(auto, using(crate::proofs::Octets::groups_back))]
pub fn groups_then_ipv6(groups: [u16; 8]) -> [u16; 8]
    ensures { result ≡ groups }
{
    Ipv6Address::from(groups).segments()
}

/// The groups of an address make up this address.
pub fn ipv6_then_groups(address: &Ipv6Address) -> Ipv6Address
    ensures { result ≡ address.now }
{
    // The contract of this call says that there are sixteen bytes.
    let _bits = address.to_bits();
    Ipv6Address::from(address.segments())
}

/// `new` takes the groups in their order.
#[tactic(auto, using(crate::proofs::Octets::eight_groups))]
pub fn groups_of_new(groups: [u16; 8]) -> (Ipv6Address, Ipv6Address)
    ensures { result.0 ≡ result.1 }
{
    let [a, b, c, d, e, f, g, h] = groups;
    (
        Ipv6Address::new(a, b, c, d, e, f, g, h),
        Ipv6Address::from(groups),
    )
}
