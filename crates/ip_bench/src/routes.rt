//! A router indexes its routes. Then it checks the source of each packet, forwards it, and chooses its route.

ghost use Rattle.std.specs.Prelude.{◌≡◌, ◌≤◌, length};

use crate::derived::Frames;
use crate::digest::Digest;
use crate::frames::{Kind, pool, port, station};
use crate::random::Random;
use crate::texts::add_octets;
use app_router::forward;
use app_router::index::{self, Node};
use app_router::route::Route;
use app_router::source::{SourceFault, check_source_by_index};
use ip_wire::{HeaderFault as Rejection, IpAddress, IpCidr, IpRepr, Ipv4Address, Ipv6Address};
use std::alloc::{AllocError, Global};

/// What a table of routes looks like.
pub struct Table {
    // all IPv4 blocks are within this one, and all IPv6 blocks begin with one of 16 numbers from this one on
    ipv4: u32,
    ipv4_len: u8,
    ipv6: u16,
    ipv6_len: u8,
    // the usual prefix lengths: half of the blocks have the last one
    ipv4_lens: [u8; 8],
    ipv6_lens: [u8; 8],
}

/// Routes as on the Internet: all addresses, most prefixes with 24 or 48 bits.
pub const INTERNET: Table = Table {
    ipv4: 0,
    ipv4_len: 0,
    ipv6: 0x2a00,
    ipv6_len: 12,
    ipv4_lens: [12, 16, 18, 19, 20, 21, 22, 24],
    ipv6_lens: [24, 29, 32, 36, 40, 44, 46, 48],
};

/// Routes of a data centre: nested blocks in one private block.
pub const NESTED: Table = Table {
    ipv4: 10 << 24,
    ipv4_len: 8,
    ipv6: 0xfd00,
    ipv6_len: 16,
    ipv4_lens: [12, 16, 20, 24, 26, 28, 30, 32],
    ipv6_lens: [32, 48, 56, 64, 72, 96, 112, 128],
};

impl Table {
    fn ipv4(&self, random: &mut Random) -> Ipv4Address {
        let bits = random.half();
        let host = match self.ipv4_len {
            8 => bits >> 8,
            _ => bits,
        };
        Ipv4Address::from_bits(self.ipv4 | host)
    }

    fn ipv6(&self, random: &mut Random) -> Ipv6Address {
        let (high, low) = (random.word(), random.word());
        let first = match self.ipv6_len {
            12 => self.ipv6 | (high >> 60) as u16,
            _ => self.ipv6,
        };
        let bits = u128::from(first) << 112 | u128::from(high >> 16) << 64 | u128::from(low);
        Ipv6Address::from_bits(bits)
    }

    fn address(&self, random: &mut Random, is_ipv6: bool) -> IpAddress {
        if is_ipv6 {
            IpAddress::Ipv6(self.ipv6(random))
        } else {
            IpAddress::Ipv4(self.ipv4(random))
        }
    }

    fn block(&self, random: &mut Random) -> IpCidr {
        let choice = random.below(16).min(7) as usize;
        if is_ipv6(random) {
            let len = self.ipv6_lens[choice];
            IpCidr::new(IpAddress::Ipv6(self.ipv6(random)), len.min(128))
        } else {
            let len = self.ipv4_lens[choice];
            IpCidr::new(IpAddress::Ipv4(self.ipv4(random)), len.min(32))
        }
    }

    fn route(&self, random: &mut Random) -> Route {
        let block = self.block(random);
        Route {
            block,
            next_hop: Some(self.address(random, false)),
            interface: random.below(4) as u16,
        }
    }
}

// One of five packets and routes.
fn is_ipv6(random: &mut Random) -> bool {
    random.below(5) == 0
}

/// Indexes a quarter as many routes as there are packets, and routes the packets.
pub fn run(
    alloc: Global,
    random: &mut Random,
    count: u32,
    table: &Table,
) -> Result<Digest, AllocError> {
    let mut routes = Vec::new(alloc);
    for _ in 0..count / 4 {
        routes.push(table.route(random))?;
    }
    let blank = Node::new(&table.block(random), 0);
    let mut nodes = vec![in alloc; blank; routes.len()]?;
    let mut digest = Digest::new();
    make_index(routes.as_slice(), nodes.as_mut_slice());
    let pool = pool(alloc, random)?;
    let mut ipv4 = Frames::new(alloc, Kind::UdpIpv4)?;
    let mut ipv6 = Frames::new(alloc, Kind::UdpIpv6)?;
    for _ in 0..count {
        let ports = (port(random), port(random));
        let (src, dst, frame) = if is_ipv6(random) {
            let (src, dst) = (table.ipv6(random), table.ipv6(random));
            let (places, frame) = ipv6.next(random, pool.as_slice());
            places.set_ipv6(frame, (src, ports.0), (dst, ports.1));
            (IpAddress::Ipv6(src), IpAddress::Ipv6(dst), frame)
        } else {
            let (src, dst) = (table.ipv4(random), table.ipv4(random));
            let (places, frame) = ipv4.next(random, pool.as_slice());
            places.set_ipv4(frame, (src, ports.0), (dst, ports.1));
            (IpAddress::Ipv4(src), IpAddress::Ipv4(dst), frame)
        };
        let fault = check_source_by_index(routes.as_slice(), nodes.as_slice(), &src, 1);
        let route = index::choose(routes.as_slice(), nodes.as_slice(), &dst);
        let forwarded = forward(frame, station(random), station(random));
        add_verdicts(&fault, &forwarded, &mut digest);
        add_route(&route, &mut digest);
        digest.add_bytes(frame);
    }
    Ok(digest)
}

pub fn make_index(routes: &[Route], nodes: &mut [Node])
    requires { length nodes.old ≡ length routes.now }
{
    if routes.len() < 1 << 32 {
        index::index(routes, nodes);
    }
}

pub fn add_route(route: &Option<Route>, digest: &mut Digest) {
    let Some(route) = route else {
        digest.add(u64::MAX);
        return;
    };
    let choice = u64::from(route.interface) << 8 | u64::from(route.block.prefix_len());
    match route.next_hop {
        Some(IpAddress::Ipv4(addr)) => digest.add(u64::from(addr.to_bits()) << 32 | choice),
        Some(next_hop) => {
            digest.add(choice);
            add_octets(&next_hop, digest);
        }
        None => digest.add(choice | 1 << 24),
    }
}

fn add_verdicts(
    fault: &Option<SourceFault>,
    forwarded: &Result<IpRepr, Rejection>,
    digest: &mut Digest,
) {
    digest.add(match fault {
        None => 0,
        Some(SourceFault::Martian) => 1,
        Some(SourceFault::NoRoute) => 2,
        Some(SourceFault::OtherInterface) => 3,
    });
    digest.add(match forwarded {
        Ok(header) => u64::from(header.hop_limit()) << 8,
        Err(Rejection::NotIp) => 1,
        Err(Rejection::BadHeader) => 2,
        Err(Rejection::WrongChecksum) => 3,
        Err(Rejection::Expired) => 4,
    });
}
