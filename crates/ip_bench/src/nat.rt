//! A NAT translates packets of many flows that begin and end, and their answers.

use crate::derived::{Frames, half_at};
use crate::digest::Digest;
use crate::frames::{Kind, pool};
use crate::random::Random;
use app_nat::{Mapping, Nat, Rejection, translate_in, translate_out};
use ip_wire::Ipv4Address;
use std::alloc::{AllocError, Global};

// Three for each port from 1024 on. A checkout before ICMP uses two of a port, and has the same ports.
const MAPPINGS: usize = 193_536;

// How many flows are open at a time.
const FLOWS: u32 = 32_768;

#[derive(Drop)]
struct Flow {
    is_tcp: bool,
    inside: (Ipv4Address, u16),
    remote: (Ipv4Address, u16),
}

/// Translates this many packets and their answers.
pub fn run(alloc: Global, random: &mut Random, count: u32) -> Result<Digest, AllocError> {
    let outside = Ipv4Address::new(203, 0, 113, 7);
    let first = random.half();
    let nat = Nat::new([random.word(), random.word()], outside, 1024);
    let mut mappings = vec![in alloc; Mapping::FREE; MAPPINGS]?;
    let pool = pool(alloc, random)?;
    let mut tcp = Frames::new(alloc, Kind::TcpIpv4)?;
    let mut udp = Frames::new(alloc, Kind::UdpIpv4)?;
    let mut digest = Digest::new();
    for i in 0..count {
        let now = u64::from(i) / 4;
        let flow = flow_of(first.wrapping_add(i / 64).wrapping_add(random.below(FLOWS)));
        let frames = if flow.is_tcp { &mut tcp } else { &mut udp };
        let port = {
            let (places, frame) = frames.next(random, pool.as_slice());
            places.set_ipv4(frame, flow.inside, flow.remote);
            let outcome = translate_out(&nat, mappings.as_mut_slice(), now, frame);
            add(&outcome, frame, &mut digest);
            half_at(frame, 34)
        };
        let (places, frame) = frames.next(random, pool.as_slice());
        places.set_ipv4(frame, flow.remote, (outside, port));
        let outcome = translate_in(&nat, mappings.as_mut_slice(), now, frame);
        add(&outcome, frame, &mut digest);
    }
    Ok(digest)
}

// The flow of a number. One of two carries TCP.
fn flow_of(number: u32) -> Flow {
    let mut of_flow = Random::new(number);
    let (inside, remote) = (of_flow.half(), of_flow.half());
    let ports = of_flow.half();
    Flow {
        is_tcp: number % 2 == 0,
        inside: (
            Ipv4Address::from_bits(0x0a00_0000 | inside >> 16),
            1024 | (ports >> 16) as u16,
        ),
        remote: (
            Ipv4Address::from_bits(0x2000_0000 | remote >> 4),
            1 + (ports % 1024) as u16,
        ),
    }
}

// A translation verifies the payload, so that a changed one shows when its frame is used again.
fn add(outcome: &Result<(), Rejection>, frame: &[u8], digest: &mut Digest) {
    let reason = match outcome {
        Ok(()) => 0,
        Err(reason) => code(*reason),
    };
    digest.add(reason);
    digest.add_headers(frame);
}

fn code(reason: Rejection) -> u64 {
    match reason {
        Rejection::NotIpv4 => 1,
        Rejection::BadHeader => 2,
        Rejection::WrongChecksum => 3,
        Rejection::Fragment => 4,
        Rejection::OtherProtocol => 5,
        Rejection::BadTransport => 6,
        Rejection::ZeroPort => 7,
        Rejection::NoMapping => 8,
        Rejection::NoFreePort => 9,
    }
}
