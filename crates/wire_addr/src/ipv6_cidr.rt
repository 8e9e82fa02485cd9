//! CIDR blocks of IPv6 addresses.

ghost use Rattle.std.specs.Prelude.{◌≡◌, ◌↔◌, ◌≤◌, IsTrue, Some};
ghost use Rattle.std.specs.Net.Grammar.{Parses};
ghost use Rattle.std.specs.Option.{option_map};
ghost use Rattle.wire_addr.specs.Block.{IsIn, IsWithin};
ghost use Rattle.wire_addr.specs.BlockText.{ReadsIpv6Block};
ghost use Rattle.wire_addr.specs.Class.{link_address};
ghost use Rattle.wire_addr.specs.Bytes.{IsByteArray};
ghost use Rattle.wire_addr.specs.Printed.{block_text, ipv6_text};

use crate::prefix::mask_128;
use crate::{HardwareAddress, Ipv6Address, number_after};
use std::fmt;
use std::marker::Model;
use std::str::FromStr;

/// A CIDR block: all IPv6 addresses with the same first bits as one address (RFC 4291, section
/// 2.3). It keeps that address with all its bits.
#[derive(Debug, Clone, Copy, PartialEq, Eq, PartialOrd, Ord, Hash)]
pub struct Ipv6Cidr {
    address: Ipv6Address,
    prefix_len: u8,
}

impl Model for Ipv6Cidr {
    ghost use Rattle.std.specs.Prelude.{◌≤◌};
    ghost use Rattle.wire_addr.specs.Block.{Block};
    ghost use Rattle.wire_addr.specs.Bytes.{IsByteArray};

    ghost Value = { Block };

    ghost view = { λ block. record { address = block.address; prefix_len = block.prefix_len } };

    ghost invariant = { λ block. IsByteArray 16 block.address × (block.prefix_len ≤ 128) };

    ghost inverse = { λ block. record { address = block.address; prefix_len = block.prefix_len } };
}

impl Ipv6Cidr {
    /// The solicited-node multicast addresses, ff02::1:ff00:0/104 (RFC 4291, section 2.7.1).
    pub const SOLICITED_NODE_PREFIX: Ipv6Cidr = Ipv6Cidr {
        address: Ipv6Address([0xff, 0x02, 0, 0, 0, 0, 0, 0, 0, 0, 0, 0x01, 0xff, 0, 0, 0]),
        prefix_len: 104,
    };

    /// The block set aside for link-local addresses, fe80::/10 (RFC 4291, section 2.4).
    pub const LINK_LOCAL_PREFIX: Ipv6Cidr = Ipv6Cidr {
        address: Ipv6Address([0xfe, 0x80, 0, 0, 0, 0, 0, 0, 0, 0, 0, 0, 0, 0, 0, 0]),
        prefix_len: 10,
    };

    /// The block of all addresses with the same first `prefix_len` bits as this one.
    #[inline]
    pub const fn new(address: Ipv6Address, prefix_len: u8) -> Ipv6Cidr
        requires { prefix_len ≤ 128 }
        ensures { result ≡ record { address = address; prefix_len = prefix_len } }
    {
        Ipv6Cidr {
            address,
            prefix_len,
        }
    }

    /// The block of the address that `Ipv6Address::from_link_prefix` returns, with the prefix
    /// length of the link. `None` if that function returns `None`.
    pub fn from_link_prefix(
        link_prefix: &Ipv6Cidr,
        interface_identifier: HardwareAddress,
    ) -> Option<Ipv6Cidr>
        ensures { result ≡ option_map (λ address. record { address = address; prefix_len = 64 })
            (link_address link_prefix.now interface_identifier) }
    {
        let address = Ipv6Address::from_link_prefix(link_prefix, interface_identifier)?;
        Some(Ipv6Cidr::new(address, link_prefix.prefix_len()))
    }

    /// Parses a block as `from_str` does, from bytes. `Err(())` if the text does not parse.
    #[inline]
    pub fn parse_ascii(text: &[u8]) -> Result<Ipv6Cidr, ()>
        ensures { Parses ReadsIpv6Block text.now result }
    {
        let (address, prefix_len) = number_after(text, b'/', 3, 128).ok_or(())?;
        Ok(Ipv6Cidr::new(Ipv6Address::parse_ascii(address)?, prefix_len as u8))
    }

    /// The address from which the block was made.
    #[inline]
    pub const fn address(&self) -> Ipv6Address
        ensures value { result ≡ self.now.address }
        ensures octets { IsByteArray 16 result }
    {
        self.address
    }

    /// The prefix length: the number of bits that all addresses of the block share.
    #[inline]
    pub const fn prefix_len(&self) -> u8
        ensures value { result ≡ self.now.prefix_len }
        ensures within { result ≤ 128 }
    {
        self.prefix_len
    }

    /// Returns `true` if the address is in the block.
    #[inline]
    pub fn contains_addr(&self, addr: &Ipv6Address) -> bool
        ensures { IsTrue result ↔ IsIn self.now addr.now }
    {
        let mask = mask_128(self.prefix_len);
        self.address.to_bits() & mask == addr.to_bits() & mask
    }

    /// Returns `true` if every address of the other block is in this one.
    #[tactic(auto, using(crate::proofs::Blocks::outside_test, crate::proofs::Blocks::within_test))]
    #[inline]
    pub fn contains_subnet(&self, subnet: &Ipv6Cidr) -> bool
        ensures { IsTrue result ↔ IsWithin 16 subnet.now self.now }
    {
        self.contains_addr(&subnet.address) && self.prefix_len <= subnet.prefix_len
    }
}

/// Prints the address, `/` and the prefix length (RFC 4291, section 2.3).
impl fmt::Display for Ipv6Cidr {
    ghost output = { λ block. Some (block_text ipv6_text block) };

    fn fmt<W: fmt::Write>(&self, f: &mut fmt::Formatter<W>) -> fmt::Result {
        write!(f, "{}/{}", self.address, self.prefix_len)
    }
}

/// Parses an address, `/` and a prefix length of one to three digits. The address keeps all its
/// bits.
impl FromStr for Ipv6Cidr {
    type Err = ();

    ghost from_str_gives = { Parses ReadsIpv6Block };

    fn from_str(s: &str) -> Result<Ipv6Cidr, ()> {
        Ipv6Cidr::parse_ascii(s.as_bytes())
    }
}
