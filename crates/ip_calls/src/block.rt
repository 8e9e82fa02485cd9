//! Address blocks, and the masks that they are made of.

use crate::operands::{NOTHING, Operands};
use crate::text::{of_option, push_all};
use ip_wire::{IpCidr, Ipv4Address, Ipv4Cidr};
use std::alloc::{AllocError, Global};

/// Whether a block contains the address of another, and all of the other; for an IPv4 block also its
/// netmask, its network and its broadcast address.
pub fn answer(alloc: Global, operands: &mut Operands<'_>) -> Result<String, AllocError> {
    let (first, second) = (block(operands), block(operands));
    let mut text = String::new(alloc);
    push_all(
        &[
            first.contains_addr(&second.address()),
            first.contains_subnet(&second),
        ],
        &mut text,
    )?;
    if let IpCidr::Ipv4(first) = first {
        push_all(&[first.netmask()], &mut text)?;
        push_all(&[first.network()], &mut text)?;
        match first.broadcast() {
            Some(address) => push_all(&[address], &mut text)?,
            None => push_all(&[NOTHING], &mut text)?,
        }
    }
    Ok(text)
}

// A block.
fn block(operands: &mut Operands<'_>) -> IpCidr {
    let none = Ipv4Cidr::new(Ipv4Address::UNSPECIFIED, 0);
    operands.value(IpCidr::Ipv4(none))
}

/// `n` if the address is n ones, followed by zeros, else `-`.
pub fn prefix_len(alloc: Global, operands: &mut Operands<'_>) -> Result<String, AllocError> {
    of_option(alloc, operands.address().prefix_len(), NOTHING)
}

/// The block of an address and a netmask, or `err`.
pub fn from_netmask(alloc: Global, operands: &mut Operands<'_>) -> Result<String, AllocError> {
    let block = Ipv4Cidr::from_netmask(operands.ipv4(), operands.ipv4());
    of_option(alloc, block.ok(), "err")
}
