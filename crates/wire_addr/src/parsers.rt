//! Parsers of addresses.

ghost use Rattle.std.specs.Net.Grammar.{Parses};
ghost use Rattle.wire_addr.specs.Read.{ReadsEthernet, ReadsIpv4, ReadsIpv6};

use crate::{EthernetAddress, Ipv4Address, Ipv6Address, groups, hex_bytes, octets};
use std::str::FromStr;

/// Parses six groups of one or two hex digits, all joined by `-` or all by `:`.
impl FromStr for EthernetAddress {
    type Err = ();

    ghost from_str_gives = { Parses ReadsEthernet };

    fn from_str(s: &str) -> Result<EthernetAddress, ()> {
        EthernetAddress::parse_ascii(s.as_bytes())
    }
}

impl EthernetAddress {
    /// Parses an address as `from_str` does, from bytes. `Err(())` if the text does not parse.
    #[inline]
    pub fn parse_ascii(text: &[u8]) -> Result<EthernetAddress, ()>
        ensures { Parses ReadsEthernet text.now result }
    {
        match hex_bytes(text) {
            Some(octets) => Ok(EthernetAddress(octets)),
            None => Err(()),
        }
    }
}

/// Parses four decimal numbers of one to three digits, joined by `.`.
impl FromStr for Ipv4Address {
    type Err = ();

    ghost from_str_gives = { Parses ReadsIpv4 };

    fn from_str(s: &str) -> Result<Ipv4Address, ()> {
        Ipv4Address::parse_ascii(s.as_bytes())
    }
}

impl Ipv4Address {
    /// Parses an address as `from_str` does, from bytes. `Err(())` if the text does not parse.
    #[inline]
    pub fn parse_ascii(text: &[u8]) -> Result<Ipv4Address, ()>
        ensures { Parses ReadsIpv4 text.now result }
    {
        match octets(text) {
            Some(octets) => Ok(Ipv4Address::from_octets(octets)),
            None => Err(()),
        }
    }
}

/// Parses the text forms of RFC 4291, section 2.2. A dotted IPv4 part is accepted only in an
/// IPv4-mapped address.
impl FromStr for Ipv6Address {
    type Err = ();

    ghost from_str_gives = { Parses ReadsIpv6 };

    fn from_str(s: &str) -> Result<Ipv6Address, ()> {
        Ipv6Address::parse_ascii(s.as_bytes())
    }
}

impl Ipv6Address {
    /// Parses an address as `from_str` does, from bytes. `Err(())` if the text does not parse.
    #[inline]
    pub fn parse_ascii(text: &[u8]) -> Result<Ipv6Address, ()>
        ensures { Parses ReadsIpv6 text.now result }
    {
        match groups(text) {
            Some(groups) => Ok(Ipv6Address::from(groups)),
            None => Err(()),
        }
    }
}
