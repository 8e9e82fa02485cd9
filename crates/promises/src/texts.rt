//! The printed text of a value parses as that value.

ghost use Rattle.std.specs.Prelude.{◌≡◌, IfOk, Some};
ghost use Rattle.ip_wire.specs.Endpoint.{ReadsEndpoint};
ghost use Rattle.ip_wire.specs.IpAddress.{ReadsAddress};
ghost use Rattle.ip_wire.specs.IpCidr.{ReadsCidr};

use ip_wire::{
    EthernetAddress, IpAddress, IpCidr, IpEndpoint, Ipv4Address, Ipv4Cidr, Ipv6Address, Ipv6Cidr,
    laws,
};
use std::alloc::{AllocError, Global};

/// Prints and parses an Ethernet address, such as `02-00-00-00-00-01`.
pub fn print_then_parse_ethernet(
    alloc: Global,
    address: &EthernetAddress,
) -> Result<Option<EthernetAddress>, AllocError>
    ensures { IfOk result (λ parsed. parsed ≡ Some address.now) }
{
    let text = format!(in alloc; "{address}")?;
    laws::addr::print_reads_back(*address, Ipv4Address::UNSPECIFIED, Ipv6Address::UNSPECIFIED);
    match EthernetAddress::parse_ascii(text.as_bytes()) {
        Ok(parsed) => {
            laws::addr::ethernet_one_reading(text.as_bytes(), *address, parsed);
            Ok(Some(parsed))
        }
        Err(()) => Ok(None),
    }
}

/// Prints and parses an IPv4 address, such as `192.0.2.1`.
pub fn print_then_parse_ipv4(
    alloc: Global,
    address: &Ipv4Address,
) -> Result<Option<Ipv4Address>, AllocError>
    ensures { IfOk result (λ parsed. parsed ≡ Some address.now) }
{
    let text = format!(in alloc; "{address}")?;
    laws::addr::print_reads_back(EthernetAddress([0; 6]), *address, Ipv6Address::UNSPECIFIED);
    match Ipv4Address::parse_ascii(text.as_bytes()) {
        Ok(parsed) => {
            laws::addr::ipv4_one_reading(text.as_bytes(), *address, parsed);
            Ok(Some(parsed))
        }
        Err(()) => Ok(None),
    }
}

/// Prints and parses an IPv6 address, such as `2001:db8::1`.
pub fn print_then_parse_ipv6(
    alloc: Global,
    address: &Ipv6Address,
) -> Result<Option<Ipv6Address>, AllocError>
    ensures { IfOk result (λ parsed. parsed ≡ Some address.now) }
{
    let text = format!(in alloc; "{address}")?;
    laws::addr::print_reads_back(EthernetAddress([0; 6]), Ipv4Address::UNSPECIFIED, *address);
    match Ipv6Address::parse_ascii(text.as_bytes()) {
        Ok(parsed) => {
            laws::addr::ipv6_one_reading(text.as_bytes(), *address, parsed);
            Ok(Some(parsed))
        }
        Err(()) => Ok(None),
    }
}

/// Prints and parses an address of either version.
pub fn print_then_parse_ip(
    alloc: Global,
    address: &IpAddress,
) -> Result<Option<IpAddress>, AllocError>
    ensures { IfOk result (λ parsed. parsed ≡ Some address.now) }
{
    let text = format!(in alloc; "{address}")?;
    laws::ends::print_reads_back_ip_address(*address);
    match IpAddress::parse_ascii(text.as_bytes()) {
        Ok(parsed) => {
            one_reading_ip(text.as_bytes(), address, &parsed);
            Ok(Some(parsed))
        }
        Err(()) => Ok(None),
    }
}

/// Prints and parses a block of IPv4 addresses, such as `192.0.2.0/24`.
pub fn print_then_parse_ipv4_cidr(
    alloc: Global,
    block: &Ipv4Cidr,
) -> Result<Option<Ipv4Cidr>, AllocError>
    ensures { IfOk result (λ parsed. parsed ≡ Some block.now) }
{
    let text = format!(in alloc; "{block}")?;
    laws::addr::print_reads_back_ipv4_cidr(*block);
    match Ipv4Cidr::parse_ascii(text.as_bytes()) {
        Ok(parsed) => {
            laws::addr::ipv4_cidr_one_reading(text.as_bytes(), *block, parsed);
            Ok(Some(parsed))
        }
        Err(()) => Ok(None),
    }
}

/// Prints and parses a block of IPv6 addresses, such as `2001:db8::/32`.
pub fn print_then_parse_ipv6_cidr(
    alloc: Global,
    block: &Ipv6Cidr,
) -> Result<Option<Ipv6Cidr>, AllocError>
    ensures { IfOk result (λ parsed. parsed ≡ Some block.now) }
{
    let text = format!(in alloc; "{block}")?;
    laws::addr::print_reads_back_ipv6_cidr(*block);
    match Ipv6Cidr::parse_ascii(text.as_bytes()) {
        Ok(parsed) => {
            laws::addr::ipv6_cidr_one_reading(text.as_bytes(), *block, parsed);
            Ok(Some(parsed))
        }
        Err(()) => Ok(None),
    }
}

/// Prints and parses a block of either version.
pub fn print_then_parse_ip_cidr(alloc: Global, block: &IpCidr) -> Result<Option<IpCidr>, AllocError>
    ensures { IfOk result (λ parsed. parsed ≡ Some block.now) }
{
    let text = format!(in alloc; "{block}")?;
    laws::ends::print_reads_back_ip_cidr(*block);
    match IpCidr::parse_ascii(text.as_bytes()) {
        Ok(parsed) => {
            one_reading_ip_cidr(text.as_bytes(), block, &parsed);
            Ok(Some(parsed))
        }
        Err(()) => Ok(None),
    }
}

/// Prints and parses an endpoint, such as `192.0.2.1:80` or `[2001:db8::1]:80`.
pub fn print_then_parse_ip_endpoint(
    alloc: Global,
    endpoint: &IpEndpoint,
) -> Result<Option<IpEndpoint>, AllocError>
    ensures { IfOk result (λ parsed. parsed ≡ Some endpoint.now) }
{
    let text = format!(in alloc; "{endpoint}")?;
    laws::ends::print_reads_back_ip_endpoint(*endpoint);
    match IpEndpoint::parse_ascii(text.as_bytes()) {
        Ok(parsed) => {
            one_reading_ip_endpoint(text.as_bytes(), endpoint, &parsed);
            Ok(Some(parsed))
        }
        Err(()) => Ok(None),
    }
}

// No text parses as two addresses.
fn one_reading_ip(text: &[u8], a: &IpAddress, b: &IpAddress)
    ensures { ReadsAddress text.now a.now → ReadsAddress text.now b.now → a.now ≡ b.now }
{
    laws::ends::ip_address_one_reading(text, *a, *b);
}

// No text parses as two blocks.
fn one_reading_ip_cidr(text: &[u8], a: &IpCidr, b: &IpCidr)
    ensures { ReadsCidr text.now a.now → ReadsCidr text.now b.now → a.now ≡ b.now }
{
    laws::ends::ip_cidr_one_reading(text, *a, *b);
}

// No text parses as two endpoints.
fn one_reading_ip_endpoint(text: &[u8], a: &IpEndpoint, b: &IpEndpoint)
    ensures { ReadsEndpoint text.now a.now → ReadsEndpoint text.now b.now → a.now ≡ b.now }
{
    laws::ends::ip_endpoint_one_reading(text, *a, *b);
}
