//! CIDR blocks of IPv4 addresses.

ghost use Rattle.std.specs.Prelude.{◌≡◌, ◌↔◌, ◌≤◌, ◌<◌, IsTrue, MatchOption, Ok, Some};
ghost use Rattle.std.specs.Net.Grammar.{Parses};
ghost use Rattle.wire_addr.specs.Block.{Block, IsGreatest, IsIn, IsLeast, IsWithin};
ghost use Rattle.wire_addr.specs.BlockText.{ReadsIpv4Block};
ghost use Rattle.wire_addr.specs.Bytes.{IsByteArray};
ghost use Rattle.wire_addr.specs.Prefix.{IsNetmask};
ghost use Rattle.wire_addr.specs.Printed.{block_text, dotted};

use crate::prefix::mask_32;
use crate::{Ipv4Address, number_after};
use net_base::{Error, Result};
use std::fmt;
use std::marker::Model;
use std::str::FromStr;

/// A CIDR block: all IPv4 addresses with the same first bits as one address (RFC 4632, section
/// 3.1). It keeps that address with all its bits.
#[derive(Debug, Clone, Copy, PartialEq, Eq, PartialOrd, Ord, Hash)]
pub struct Ipv4Cidr {
    address: Ipv4Address,
    prefix_len: u8,
}

impl Model for Ipv4Cidr {
    ghost use Rattle.std.specs.Prelude.{◌≤◌};
    ghost use Rattle.wire_addr.specs.Block.{Block};
    ghost use Rattle.wire_addr.specs.Bytes.{IsByteArray};

    ghost Value = { Block };

    ghost view = { λ block. record { address = block.address; prefix_len = block.prefix_len } };

    ghost invariant = { λ block. IsByteArray 4 block.address × (block.prefix_len ≤ 32) };

    ghost inverse = { λ block. record { address = block.address; prefix_len = block.prefix_len } };
}

impl Ipv4Cidr {
    /// The block of all addresses with the same first `prefix_len` bits as this one.
    #[inline]
    pub const fn new(address: Ipv4Address, prefix_len: u8) -> Ipv4Cidr
        requires { prefix_len ≤ 32 }
        ensures { result ≡ record { address = address; prefix_len = prefix_len } }
    {
        Ipv4Cidr {
            address,
            prefix_len,
        }
    }

    /// The block of an address and a netmask. Fails if a zero comes before a one in the netmask,
    /// and for 0.0.0.0.
    pub fn from_netmask(addr: Ipv4Address, netmask: Ipv4Address) -> Result<Ipv4Cidr>
        ensures { (block : Block) → (result ≡ Ok block)
            ↔ ((block.address ≡ addr) × IsNetmask block.prefix_len netmask × (1 ≤ block.prefix_len)) }
    {
        match netmask.prefix_len() {
            Some(prefix_len) if prefix_len > 0 => Ok(Ipv4Cidr::new(addr, prefix_len)),
            _ => Err(Error),
        }
    }

    /// Parses a block as `from_str` does, from bytes. `Err(())` if the text does not parse.
    #[inline]
    pub fn parse_ascii(text: &[u8]) -> std::result::Result<Ipv4Cidr, ()>
        ensures { Parses ReadsIpv4Block text.now result }
    {
        let (address, prefix_len) = number_after(text, b'/', 2, 32).ok_or(())?;
        Ok(Ipv4Cidr::new(Ipv4Address::parse_ascii(address)?, prefix_len as u8))
    }

    /// The address from which the block was made.
    #[inline]
    pub const fn address(&self) -> Ipv4Address
        ensures value { result ≡ self.now.address }
        ensures octets { IsByteArray 4 result }
    {
        self.address
    }

    /// The prefix length: the number of bits that all addresses of the block share.
    #[inline]
    pub const fn prefix_len(&self) -> u8
        ensures value { result ≡ self.now.prefix_len }
        ensures within { result ≤ 32 }
    {
        self.prefix_len
    }

    /// The netmask: as many ones as the prefix is long, then zeros.
    #[inline]
    pub fn netmask(&self) -> Ipv4Address
        ensures { IsNetmask self.now.prefix_len result }
    {
        Ipv4Address::from_bits(mask_32(self.prefix_len))
    }

    /// The same block, made from its lowest address.
    #[inline]
    pub fn network(&self) -> Ipv4Cidr
        ensures address { IsLeast 4 self.now result.address }
        ensures prefix_len { result.prefix_len ≡ self.now.prefix_len }
    {
        let network = self.address.to_bits() & mask_32(self.prefix_len);
        Ipv4Cidr::new(Ipv4Address::from_bits(network), self.prefix_len)
    }

    /// The broadcast address of the block: its highest address (RFC 919, section 7). `None` for a
    /// block of one or two addresses (RFC 3021, section 2.1).
    #[inline]
    pub fn broadcast(&self) -> Option<Ipv4Address>
        ensures { MatchOption result (31 ≤ self.now.prefix_len)
            (λ address. (self.now.prefix_len < 31) × IsGreatest 4 self.now address) }
    {
        if self.prefix_len >= 31 {
            return None;
        }
        let mask = mask_32(self.prefix_len);
        Some(Ipv4Address::from_bits(self.address.to_bits() & mask | !mask))
    }

    /// Returns `true` if the address is in the block.
    #[inline]
    pub fn contains_addr(&self, addr: &Ipv4Address) -> bool
        ensures { IsTrue result ↔ IsIn self.now addr.now }
    {
        let mask = mask_32(self.prefix_len);
        self.address.to_bits() & mask == addr.to_bits() & mask
    }

    /// Returns `true` if every address of the other block is in this one.
    #[tactic(auto, using(crate::proofs::Blocks::outside_test, crate::proofs::Blocks::within_test))]
    #[inline]
    pub fn contains_subnet(&self, subnet: &Ipv4Cidr) -> bool
        ensures { IsTrue result ↔ IsWithin 4 subnet.now self.now }
    {
        self.contains_addr(&subnet.address) && self.prefix_len <= subnet.prefix_len
    }
}

/// Prints the address, `/` and the prefix length.
impl fmt::Display for Ipv4Cidr {
    ghost output = { λ block. Some (block_text dotted block) };

    fn fmt<W: fmt::Write>(&self, f: &mut fmt::Formatter<W>) -> fmt::Result {
        write!(f, "{}/{}", self.address, self.prefix_len)
    }
}

/// Parses an address, `/` and a prefix length of one or two digits. The address keeps all its bits.
impl FromStr for Ipv4Cidr {
    type Err = ();

    ghost from_str_gives = { Parses ReadsIpv4Block };

    fn from_str(s: &str) -> std::result::Result<Ipv4Cidr, ()> {
        Ipv4Cidr::parse_ascii(s.as_bytes())
    }
}
