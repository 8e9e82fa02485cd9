//! Addresses, blocks and endpoints are printed, and their texts parsed. Some texts are damaged.

ghost use Rattle.std.specs.Prelude.{◌≤◌};
ghost use Rattle.ip_wire.specs.IpAddress.{bits_of};

use crate::digest::Digest;
use crate::frames::{ipv4, ipv6, port, station};
use crate::random::Random;
use ip_wire::{EthernetAddress, IpAddress, IpCidr, IpEndpoint};
use std::alloc::{AllocError, Global};
use std::fmt;

const MARKS: &[u8; 8] = b":./g[f01";

/// Prints and parses this many values.
pub fn run(alloc: Global, random: &mut Random, count: u32) -> Result<Digest, AllocError> {
    let mut room = Vec::new(alloc);
    let mut digest = Digest::new();
    for _ in 0..count {
        let text = empty_text(room);
        room = match random.below(8) {
            0 => {
                let value = station(random);
                let text = damage(random, print(text, &value)?);
                add_station(text.as_slice(), &mut digest);
                text
            }
            1..=3 => {
                let value = address(random);
                let text = damage(random, print(text, &value)?);
                add_address(text.as_slice(), &mut digest);
                text
            }
            4..=5 => {
                let value = block(random);
                let text = damage(random, print(text, &value)?);
                add_block(text.as_slice(), &mut digest);
                text
            }
            _ => {
                let endpoint = IpEndpoint::new(address(random), port(random));
                let text = damage(random, print(text, &endpoint)?);
                add_endpoint(text.as_slice(), &mut digest);
                text
            }
        };
        digest.add_bytes(room.as_slice());
    }
    Ok(digest)
}

// An empty text in the memory of `bytes`.
fn empty_text(mut bytes: Vec<u8>) -> String {
    bytes.clear();
    String::from_utf8(bytes).unwrap()
}

fn print<T: fmt::Display>(mut text: String, value: &T) -> Result<Vec<u8>, AllocError> {
    write!(text, "{value}")?;
    Ok(text.into_bytes())
}

fn address(random: &mut Random) -> IpAddress {
    match random.below(8) {
        0..=3 => IpAddress::Ipv4(ipv4(random)),
        4..=6 => IpAddress::Ipv6(ipv6(random)),
        _ => mapped(random),
    }
}

// An IPv4-mapped address.
fn mapped(random: &mut Random) -> IpAddress {
    let bits = u128::from(random.half()) | 0xffff << 32;
    IpAddress::Ipv6(bits.to_be_bytes().into())
}

fn block(random: &mut Random) -> IpCidr {
    if random.below(2) == 0 {
        IpCidr::new(IpAddress::Ipv4(ipv4(random)), random.below(33) as u8)
    } else {
        IpCidr::new(IpAddress::Ipv6(ipv6(random)), random.below(129) as u8)
    }
}

// Changes a byte of one in 16 texts.
fn damage(random: &mut Random, mut text: Vec<u8>) -> Vec<u8> {
    let (place, change) = (random.half() as usize, random.word());
    let at = place % text.len().max(1);
    if change % 16 == 0 {
        if let Some(byte) = text.as_mut_slice().get_mut(at) {
            *byte = MARKS[(change >> 61) as usize];
        }
    }
    text
}

fn add_station(text: &[u8], digest: &mut Digest) {
    match EthernetAddress::parse_ascii(text) {
        Ok(addr) => digest.add_bytes(addr.as_bytes()),
        Err(()) => digest.add(1),
    }
}

fn add_address(text: &[u8], digest: &mut Digest) {
    match IpAddress::parse_ascii(text) {
        Ok(addr) => add_octets(&addr, digest),
        Err(()) => digest.add(2),
    }
}

fn add_block(text: &[u8], digest: &mut Digest) {
    match IpCidr::parse_ascii(text) {
        Ok(block) => {
            add_octets(&block.address(), digest);
            digest.add(u64::from(block.prefix_len()));
        }
        Err(()) => digest.add(3),
    }
}

fn add_endpoint(text: &[u8], digest: &mut Digest) {
    match IpEndpoint::parse_ascii(text) {
        Ok(endpoint) => {
            add_octets(&endpoint.addr, digest);
            digest.add(u64::from(endpoint.port));
        }
        Err(()) => digest.add(4),
    }
}

/// Adds the bytes of an address.
pub fn add_octets(addr: &IpAddress, digest: &mut Digest) {
    match addr {
        IpAddress::Ipv4(addr) => digest.add_bytes(&addr.octets()),
        IpAddress::Ipv6(addr) => digest.add_bytes(&addr.octets()),
    }
}
