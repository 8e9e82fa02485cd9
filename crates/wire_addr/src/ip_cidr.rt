//! CIDR blocks of either IP version.

ghost use Rattle.std.specs.Prelude.{◌≡◌, ◌↔◌, ◌≤◌, IsTrue, Some};
ghost use Rattle.std.specs.Net.Grammar.{Parses};
ghost use Rattle.wire_addr.specs.IpAddress.{IsAddress, bits_of};
ghost use Rattle.wire_addr.specs.IpCidr.{IsIn, IsWithin, ReadsCidr, block_address, block_at, block_prefix_len, cidr_text};
ghost use Rattle.wire_addr.specs.declared.ip_cidr.IpCidr.TheVariants.{Ipv4, Ipv6};

use crate::{IpAddress, Ipv4Cidr, Ipv6Cidr};
use std::fmt;
use std::str::FromStr;

/// A CIDR block of either version: all addresses with the same first bits as one address.
#[derive(Debug, Clone, Copy, PartialEq, Eq, PartialOrd, Ord, Hash)]
pub enum IpCidr {
    Ipv4(Ipv4Cidr),
    Ipv6(Ipv6Cidr),
}

impl IpCidr {
    /// The block of all addresses with the same first `prefix_len` bits as this one.
    pub fn new(addr: IpAddress, prefix_len: u8) -> IpCidr
        requires { prefix_len ≤ bits_of addr }
        ensures { result ≡ block_at addr prefix_len }
    {
        match addr {
            IpAddress::Ipv4(addr) => IpCidr::Ipv4(Ipv4Cidr::new(addr, prefix_len)),
            IpAddress::Ipv6(addr) => IpCidr::Ipv6(Ipv6Cidr::new(addr, prefix_len)),
        }
    }

    /// Parses a block of either version as `from_str` does, from bytes. `Err(())` if the text does not parse.
    pub fn parse_ascii(text: &[u8]) -> Result<IpCidr, ()>
        ensures { Parses ReadsCidr text.now result }
    {
        match Ipv4Cidr::parse_ascii(text) {
            Ok(cidr) => Ok(IpCidr::Ipv4(cidr)),
            Err(()) => Ok(IpCidr::Ipv6(Ipv6Cidr::parse_ascii(text)?)),
        }
    }

    /// The address from which the block was made.
    pub fn address(&self) -> IpAddress
        ensures value { result ≡ block_address self.now }
        ensures octets { IsAddress result }
    {
        match self {
            IpCidr::Ipv4(cidr) => IpAddress::Ipv4(cidr.address()),
            IpCidr::Ipv6(cidr) => IpAddress::Ipv6(cidr.address()),
        }
    }

    /// The prefix length: the number of bits that all addresses of the block share.
    pub fn prefix_len(&self) -> u8
        ensures value { result ≡ block_prefix_len self.now }
        ensures within { result ≤ bits_of (block_address self.now) }
    {
        match self {
            IpCidr::Ipv4(cidr) => cidr.prefix_len(),
            IpCidr::Ipv6(cidr) => cidr.prefix_len(),
        }
    }

    /// Returns `true` if the address is in the block. An address of the other version never is.
    #[inline]
    pub fn contains_addr(&self, addr: &IpAddress) -> bool
        ensures { IsTrue result ↔ IsIn self.now addr.now }
    {
        match (self, addr) {
            (IpCidr::Ipv4(cidr), IpAddress::Ipv4(addr)) => cidr.contains_addr(addr),
            (IpCidr::Ipv6(cidr), IpAddress::Ipv6(addr)) => cidr.contains_addr(addr),
            _ => false,
        }
    }

    /// Returns `true` if every address of the other block is in this one. A block of the other version
    /// never is.
    #[inline]
    pub fn contains_subnet(&self, subnet: &IpCidr) -> bool
        ensures { IsTrue result ↔ IsWithin subnet.now self.now }
    {
        self.contains_addr(&subnet.address()) && self.prefix_len() <= subnet.prefix_len()
    }
}

impl From<Ipv4Cidr> for IpCidr {
    ghost from_gives = { λ block cidr. cidr ≡ Ipv4 block };

    fn from(value: Ipv4Cidr) -> IpCidr {
        IpCidr::Ipv4(value)
    }
}

impl From<Ipv6Cidr> for IpCidr {
    ghost from_gives = { λ block cidr. cidr ≡ Ipv6 block };

    fn from(value: Ipv6Cidr) -> IpCidr {
        IpCidr::Ipv6(value)
    }
}

/// Prints the block of its version.
impl fmt::Display for IpCidr {
    ghost output = { λ cidr. Some (cidr_text cidr) };

    fn fmt<W: fmt::Write>(&self, f: &mut fmt::Formatter<W>) -> fmt::Result {
        match *self {
            IpCidr::Ipv4(cidr) => write!(f, "{cidr}"),
            IpCidr::Ipv6(cidr) => write!(f, "{cidr}"),
        }
    }
}

/// Parses a block of either version. No text is a block of both.
impl FromStr for IpCidr {
    type Err = ();

    ghost from_str_gives = { Parses ReadsCidr };

    fn from_str(s: &str) -> Result<IpCidr, ()> {
        IpCidr::parse_ascii(s.as_bytes())
    }
}
