//! Addresses of either IP version.

ghost use Rattle.std.specs.Prelude.{◌≡◌, ◌↔◌, ◌≤◌, ◌∷◌, [], IfSome, IsTrue, Some, ℕ};
ghost use Rattle.std.specs.Net.Grammar.{Parses};
ghost use Rattle.std.specs.declared.net.ip_addr.IpAddr.TheVariants.{V4, V6};
ghost use Rattle.wire_addr.specs.Bytes.{address_bytes};
ghost use Rattle.wire_addr.specs.Prefix.{IsNetmask};
ghost use Rattle.wire_addr.specs.IpAddress.{IsBroadcast, IsMulticast, IsUnicast, IsUnspecified, ReadsAddress, address_text, bits_of, address_bytes as bytes_in, version_of};
ghost use Rattle.wire_addr.specs.StdNet.{address_of};
ghost use Rattle.wire_addr.specs.declared.ip_address.IpAddress.TheVariants.{Ipv4, Ipv6};

use crate::ip_version::IpVersion;
use crate::{Ipv4Address, Ipv6Address};
use std::fmt;
use std::net::{IpAddr, Ipv4Addr, Ipv6Addr};
use std::str::FromStr;

/// An address of either IP version.
#[derive(Debug, Clone, Copy, PartialEq, Eq, PartialOrd, Ord, Hash)]
pub enum IpAddress {
    Ipv4(Ipv4Address),
    Ipv6(Ipv6Address),
}

impl IpAddress {
    /// The IPv4 address `a.b.c.d`.
    pub fn v4(a: u8, b: u8, c: u8, d: u8) -> IpAddress
        ensures { result ≡ Ipv4 (a ∷ b ∷ c ∷ d ∷ []) }
    {
        IpAddress::Ipv4(Ipv4Address::new(a, b, c, d))
    }

    /// The IPv6 address `a:b:c:d:e:f:g:h`.
    #[allow(clippy::too_many_arguments)]
    pub fn v6(a: u16, b: u16, c: u16, d: u16, e: u16, f: u16, g: u16, h: u16) -> IpAddress
        ensures { result ≡ Ipv6 (address_bytes (a ∷ b ∷ c ∷ d ∷ e ∷ f ∷ g ∷ h ∷ [])) }
    {
        IpAddress::Ipv6(Ipv6Address::new(a, b, c, d, e, f, g, h))
    }

    /// Parses an address of either version as `from_str` does, from bytes. `Err(())` if the text does not parse.
    #[tactic(auto, using(crate::proofs::Rejections::rejected, crate::proofs::EndTexts::no_address))]
    pub fn parse_ascii(text: &[u8]) -> Result<IpAddress, ()>
        ensures { Parses ReadsAddress text.now result }
    {
        match Ipv4Address::parse_ascii(text) {
            Ok(address) => Ok(IpAddress::Ipv4(address)),
            Err(()) => Ok(IpAddress::Ipv6(Ipv6Address::parse_ascii(text)?)),
        }
    }

    /// The version of the address.
    pub const fn version(&self) -> IpVersion
        ensures { result ≡ version_of self.now }
    {
        match *self {
            IpAddress::Ipv4(_) => IpVersion::Ipv4,
            IpAddress::Ipv6(_) => IpVersion::Ipv6,
        }
    }

    /// Returns `true` for a unicast address.
    pub fn is_unicast(&self) -> bool
        ensures { IsTrue result ↔ IsUnicast self.now }
    {
        match self {
            IpAddress::Ipv4(address) => address.x_is_unicast(),
            IpAddress::Ipv6(address) => address.x_is_unicast(),
        }
    }

    /// Returns `true` for a multicast address.
    pub fn is_multicast(&self) -> bool
        ensures { IsTrue result ↔ IsMulticast self.now }
    {
        match self {
            IpAddress::Ipv4(address) => address.is_multicast(),
            IpAddress::Ipv6(address) => address.is_multicast(),
        }
    }

    /// Returns `true` for the limited broadcast address 255.255.255.255. IPv6 has no broadcast.
    pub fn is_broadcast(&self) -> bool
        ensures { IsTrue result ↔ IsBroadcast self.now }
    {
        match self {
            IpAddress::Ipv4(address) => address.is_broadcast(),
            IpAddress::Ipv6(_) => false,
        }
    }

    /// Returns `true` for the unspecified address, 0.0.0.0 or `::`.
    pub fn is_unspecified(&self) -> bool
        ensures { IsTrue result ↔ IsUnspecified self.now }
    {
        match self {
            IpAddress::Ipv4(address) => address.is_unspecified(),
            IpAddress::Ipv6(address) => address.is_unspecified(),
        }
    }

    /// The prefix length of this netmask: the number of ones, if only zeros follow them. `None` for
    /// any other address.
    pub fn prefix_len(&self) -> Option<u8>
        ensures value { (n : ℕ) → (result ≡ Some n) ↔ IsNetmask n (bytes_in self.now) }
        ensures within { IfSome result (λ n. n ≤ bits_of self.now) }
    {
        match self {
            IpAddress::Ipv4(address) => address.prefix_len(),
            IpAddress::Ipv6(address) => address.prefix_len(),
        }
    }
}

impl From<Ipv4Address> for IpAddress {
    ghost from_gives = { λ octets address. address ≡ Ipv4 octets };

    fn from(value: Ipv4Address) -> IpAddress {
        IpAddress::Ipv4(value)
    }
}

impl From<Ipv6Address> for IpAddress {
    ghost from_gives = { λ octets address. address ≡ Ipv6 octets };

    fn from(value: Ipv6Address) -> IpAddress {
        IpAddress::Ipv6(value)
    }
}

/// The address with the same bytes.
impl From<IpAddr> for IpAddress {
    ghost from_gives = { λ addr address. address ≡ address_of addr };

    fn from(value: IpAddr) -> IpAddress {
        match value {
            IpAddr::V4(addr) => addr.into(),
            IpAddr::V6(addr) => addr.into(),
        }
    }
}

/// The address with the same bytes.
impl From<Ipv4Addr> for IpAddress {
    ghost from_gives = { λ addr address. address ≡ address_of (V4 addr) };

    fn from(value: Ipv4Addr) -> IpAddress {
        IpAddress::Ipv4(Ipv4Address::from_octets(value.octets()))
    }
}

/// The address with the same bytes.
impl From<Ipv6Addr> for IpAddress {
    ghost from_gives = { λ addr address. address ≡ address_of (V6 addr) };

    fn from(value: Ipv6Addr) -> IpAddress {
        IpAddress::Ipv6(Ipv6Address::from_octets(value.octets()))
    }
}

/// The address with the same bytes.
impl From<IpAddress> for IpAddr {
    ghost from_gives = { λ address addr. address_of addr ≡ address };

    fn from(value: IpAddress) -> IpAddr {
        match value {
            IpAddress::Ipv4(address) => IpAddr::V4(Ipv4Addr::from_octets(address.octets())),
            IpAddress::Ipv6(address) => IpAddr::V6(Ipv6Addr::from_octets(address.octets())),
        }
    }
}

/// Prints the address of its version.
impl fmt::Display for IpAddress {
    ghost output = { λ address. Some (address_text address) };

    fn fmt<W: fmt::Write>(&self, f: &mut fmt::Formatter<W>) -> fmt::Result {
        match *self {
            IpAddress::Ipv4(address) => write!(f, "{address}"),
            IpAddress::Ipv6(address) => write!(f, "{address}"),
        }
    }
}

/// Parses an address of either version. No text is an address of both.
impl FromStr for IpAddress {
    type Err = ();

    ghost from_str_gives = { Parses ReadsAddress };

    fn from_str(s: &str) -> Result<IpAddress, ()> {
        IpAddress::parse_ascii(s.as_bytes())
    }
}
