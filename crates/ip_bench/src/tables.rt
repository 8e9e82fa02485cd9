//! A router looks up routes in a table of 12 routes, as most routers have it, and in the table of a network with many
//! routes in a block of its own.

use crate::digest::Digest;
use crate::random::Random;
use crate::routes::{add_route, make_index};
use app_router::index::{self, Node};
use app_router::route::Route;
use ip_wire::{IpAddress, IpCidr, Ipv4Address, Ipv6Address};
use std::alloc::{AllocError, Global};

// How many routes the block has, and how many addresses are looked up in turn.
const OWN_ROUTES: u32 = 50_000;

const ADDRESSES: u32 = 65_536;

#[derive(Drop)]
struct Table {
    routes: Vec<Route>,
    nodes: Vec<Node>,
}

/// Looks up this many addresses in the large table, and four times as many in the small one.
pub fn run(alloc: Global, random: &mut Random, count: u32) -> Result<Digest, AllocError> {
    let mut digest = Digest::new();
    let len = count.min(ADDRESSES);
    let rounds = count / len.max(1);
    let few = indexed(alloc, few(alloc)?)?;
    let own = indexed(alloc, own(alloc, random, count / 4)?)?;
    let mut near = Vec::new(alloc);
    let mut beside = Vec::new(alloc);
    for _ in 0..len {
        near.push(near_address(random))?;
        beside.push(beside_address(random))?;
    }
    for _ in 0..rounds {
        for _ in 0..4 {
            look_up(&few, near.as_slice(), &mut digest);
        }
        look_up(&own, beside.as_slice(), &mut digest);
    }
    Ok(digest)
}

fn look_up(table: &Table, addresses: &[IpAddress], digest: &mut Digest) {
    for addr in addresses {
        let route = index::choose(table.routes.as_slice(), table.nodes.as_slice(), addr);
        add_route(&route, digest);
    }
}

fn indexed(alloc: Global, routes: Vec<Route>) -> Result<Table, AllocError> {
    let blank = Node::new(&ipv4_block(0, 0), 0);
    let mut nodes = vec![in alloc; blank; routes.len()]?;
    make_index(routes.as_slice(), nodes.as_mut_slice());
    Ok(Table { routes, nodes })
}

// Two default routes, and five links of each version.
fn few(alloc: Global) -> Result<Vec<Route>, AllocError> {
    let mut routes = Vec::new(alloc);
    routes.push(route(ipv4_block(0, 0), Some(ipv4(10 << 24 | 254)), 0))?;
    routes.push(route(ipv6_block(0, 0), Some(ipv6(OWN | 254)), 0))?;
    for link in 1..6 {
        let net = 10 << 24 | u32::from(link) << 8;
        routes.push(route(ipv4_block(net, 24), None, link))?;
        let net = OWN | u128::from(link) << 64;
        routes.push(route(ipv6_block(net, 64), None, link))?;
    }
    Ok(routes)
}

// The block 2001:db8::/32.
const OWN: u128 = 0x2001_0db8 << 96;

// A default route, and routes to parts of the block.
fn own(alloc: Global, random: &mut Random, count: u32) -> Result<Vec<Route>, AllocError> {
    let mut routes = Vec::new(alloc);
    routes.push(route(ipv6_block(0, 0), Some(ipv6(OWN | 254)), 0))?;
    for _ in 0..count.min(OWN_ROUTES) {
        let len = 48 + random.below(17) as u8;
        let net = OWN | u128::from(random.half()) << 64;
        let next_hop = Some(ipv4(random.half()));
        routes.push(route(ipv6_block(net, len), next_hop, 1))?;
    }
    Ok(routes)
}

fn route(block: IpCidr, next_hop: Option<IpAddress>, interface: u16) -> Route {
    Route {
        block,
        next_hop,
        interface,
    }
}

fn ipv4_block(bits: u32, len: u8) -> IpCidr {
    let addr = Ipv4Address::from_bits(bits);
    IpCidr::new(IpAddress::Ipv4(addr), len.min(32))
}

fn ipv6_block(bits: u128, len: u8) -> IpCidr {
    let addr = Ipv6Address::from_bits(bits);
    IpCidr::new(IpAddress::Ipv6(addr), len.min(128))
}

fn ipv4(bits: u32) -> IpAddress {
    IpAddress::Ipv4(Ipv4Address::from_bits(bits))
}

fn ipv6(bits: u128) -> IpAddress {
    IpAddress::Ipv6(Ipv6Address::from_bits(bits))
}

// Four of five addresses are IPv4, and half are near the links.
fn near_address(random: &mut Random) -> IpAddress {
    let (choice, bits) = (random.below(10), random.half());
    match choice {
        0..=3 => ipv4(10 << 24 | bits >> 21),
        4..=7 => ipv4(bits),
        8 => ipv6(OWN | u128::from(bits >> 29) << 64 | u128::from(bits)),
        _ => ipv6(0x2a00 << 112 | u128::from(bits) << 64),
    }
}

// One of five addresses is within the block, two are in its /24, and two in its /16.
fn beside_address(random: &mut Random) -> IpAddress {
    let (choice, bits) = (random.below(5), u128::from(random.word()));
    match choice {
        0 => ipv6(OWN | bits << 32),
        1..=2 => ipv6(0x20_010d << 104 | bits << 40),
        _ => ipv6(0x2001 << 112 | bits << 48),
    }
}
