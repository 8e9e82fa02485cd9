//! Frames as they cross a link: most carry TCP, and most are either short or full.

ghost use Rattle.std.specs.Prelude.{IfOk};
ghost use Rattle.ip_wire.specs.FrameValue.{Fits};

use crate::random::Random;
use ip_wire::{
    ArpOperation, ArpRepr, ChecksumCapabilities, EthernetAddress, Frame, IpProtocol, IpRepr,
    Ipv4Address, Ipv4Repr, Ipv6Address, Ipv6Repr, Result, TcpControl, TcpRepr, TcpSeqNumber,
    TcpTimestampRepr, Transport, UdpRepr,
};
use std::alloc::{AllocError, Global};

/// Room for each frame that is made here.
pub const ROOM: usize = 1600;

const POOL_LEN: usize = 65536;

/// Bytes of which the payloads are parts.
pub fn pool(alloc: Global, random: &mut Random) -> std::result::Result<Vec<u8>, AllocError> {
    let mut pool = Vec::new(alloc);
    for _ in 0..POOL_LEN / 8 {
        pool.extend_from_slice(&random.word().to_le_bytes())?;
    }
    Ok(pool)
}

/// What frames carry.
#[derive(Clone, Copy)]
pub enum Kind {
    /// All that crosses a link.
    Any,
    /// TCP over IPv4.
    TcpIpv4,
    /// UDP over IPv4.
    UdpIpv4,
    /// UDP over IPv6.
    UdpIpv6,
}

impl Kind {
    /// Writes a frame, and returns its length.
    pub fn put(self, random: &mut Random, pool: &[u8], out: &mut [u8]) -> usize {
        let (is_ipv6, is_tcp) = match self {
            Kind::Any => return put_frame(random, pool, out),
            Kind::TcpIpv4 => (false, true),
            Kind::UdpIpv4 => (false, false),
            Kind::UdpIpv6 => (true, false),
        };
        let header = header_of(random, is_ipv6, 128);
        let ports = (port(random), port(random));
        put_packet(random, pool, header, ports, is_tcp, out)
    }
}

/// Writes the next frame, and returns its length.
pub fn put_frame(random: &mut Random, pool: &[u8], out: &mut [u8]) -> usize {
    match frame(random, pool) {
        Ok(frame) => frame
            .try_emit(out, &ChecksumCapabilities::default())
            .unwrap_or(0),
        Err(_) => 0,
    }
}

/// Writes a UDP packet or a TCP segment between these endpoints, and returns its length.
pub fn put_packet(
    random: &mut Random,
    pool: &[u8],
    header: IpRepr,
    ports: (u16, u16),
    is_tcp: bool,
    out: &mut [u8],
) -> usize {
    let made = if is_tcp {
        tcp(random, pool, header, ports)
    } else {
        udp(random, pool, header, ports)
    };
    match made {
        Ok(frame) => frame
            .try_emit(out, &ChecksumCapabilities::default())
            .unwrap_or(0),
        Err(_) => 0,
    }
}

fn frame<'a>(random: &mut Random, pool: &'a [u8]) -> Result<Frame<'a>>
    ensures { IfOk result Fits }
{
    let header = header(random);
    let ports = (port(random), port(random));
    match random.below(100) {
        0 => Ok(arp(random)),
        1..=2 => other(random, pool, header),
        3..=22 => udp(random, pool, header, ports),
        _ => tcp(random, pool, header, ports),
    }
}

/// The Ethernet address of a host.
pub fn station(random: &mut Random) -> EthernetAddress {
    let [a, b, c, d, e, ..] = random.word().to_le_bytes();
    EthernetAddress([2, a, b, c, d, e])
}

/// A port other than 0.
pub fn port(random: &mut Random) -> u16 {
    1 + random.below(65535) as u16
}

/// An IPv4 address.
pub fn ipv4(random: &mut Random) -> Ipv4Address {
    Ipv4Address::from_bits(random.half())
}

/// An IPv6 address of a registry. Half of them have many zeros.
pub fn ipv6(random: &mut Random) -> Ipv6Address {
    let high = 0x2000 + u128::from(random.below(16)) * 0x100;
    let (prefix, host) = (random.word(), random.word());
    let (middle, low) = if host % 2 == 0 {
        (u128::from(prefix >> 32), u128::from(host >> 52))
    } else {
        (u128::from(prefix >> 16), u128::from(host))
    };
    Ipv6Address::from_bits(high << 112 | middle << 64 | low)
}

fn header(random: &mut Random) -> IpRepr {
    let hop_limit = 2 + random.below(250) as u8;
    let is_ipv6 = random.below(5) < 2;
    header_of(random, is_ipv6, hop_limit)
}

fn header_of(random: &mut Random, is_ipv6: bool, hop_limit: u8) -> IpRepr {
    if is_ipv6 {
        IpRepr::Ipv6(Ipv6Repr {
            src_addr: ipv6(random),
            dst_addr: ipv6(random),
            next_header: IpProtocol::Icmpv6,
            payload_len: 0,
            hop_limit,
        })
    } else {
        IpRepr::Ipv4(Ipv4Repr {
            src_addr: ipv4(random),
            dst_addr: ipv4(random),
            next_header: IpProtocol::Icmp,
            payload_len: 0,
            hop_limit,
        })
    }
}

// A payload of a length as on the Internet.
fn payload<'a>(random: &mut Random, pool: &'a [u8]) -> &'a [u8] {
    let len = match random.below(12) {
        0..=6 => random.below(13) as usize,
        7..=10 => 500 + random.below(41) as usize,
        _ => 1400 + random.below(21) as usize,
    };
    let start = random.below(60000) as usize;
    pool.get(start..start + len).unwrap_or(&[])
}

fn arp<'a>(random: &mut Random) -> Frame<'a>
    ensures { Fits result }
{
    let (source, target) = (station(random), station(random));
    let operation = if random.below(2) == 0 {
        ArpOperation::Request
    } else {
        ArpOperation::Reply
    };
    let value = ArpRepr::EthernetIpv4 {
        operation,
        source_hardware_addr: source,
        source_protocol_addr: ipv4(random),
        target_hardware_addr: target,
        target_protocol_addr: ipv4(random),
    };
    Frame::arp(source, target, value)
}

fn other<'a>(random: &mut Random, pool: &'a [u8], header: IpRepr) -> Result<Frame<'a>>
    ensures { IfOk result Fits }
{
    let inner = Transport::Other(payload(random, pool));
    Frame::packet(station(random), station(random), header, inner)
}

fn udp<'a>(
    random: &mut Random,
    pool: &'a [u8],
    header: IpRepr,
    ports: (u16, u16),
) -> Result<Frame<'a>>
    ensures { IfOk result Fits }
{
    let value = UdpRepr {
        src_port: ports.0,
        dst_port: ports.1,
    };
    let payload = payload(random, pool);
    Frame::udp(station(random), station(random), header, value, payload)
}

fn tcp<'a>(
    random: &mut Random,
    pool: &'a [u8],
    header: IpRepr,
    ports: (u16, u16),
) -> Result<Frame<'a>>
    ensures { IfOk result Fits }
{
    let value = segment(random, pool, ports);
    Frame::tcp(station(random), station(random), header, value)
}

// A segment with the options that are usual for its flags.
fn segment<'a>(random: &mut Random, pool: &'a [u8], ports: (u16, u16)) -> TcpRepr<'a> {
    let control = match random.below(16) {
        0 => TcpControl::Syn,
        1 => TcpControl::Fin,
        2..=6 => TcpControl::Psh,
        _ => TcpControl::None,
    };
    let is_syn = control == TcpControl::Syn;
    let timestamp = TcpTimestampRepr {
        tsval: random.half(),
        tsecr: random.half(),
    };
    let ranges = sack_ranges(random, is_syn);
    TcpRepr {
        src_port: ports.0,
        dst_port: ports.1,
        control,
        seq_number: seq_number(random),
        ack_number: Some(seq_number(random)),
        window_len: (random.word() >> 48) as u16,
        window_scale: is_syn.then_some(7),
        max_seg_size: is_syn.then_some(1460),
        sack_permitted: is_syn,
        sack_ranges: ranges,
        timestamp: (random.below(8) > 0).then_some(timestamp),
        payload: if is_syn { &[] } else { payload(random, pool) },
    }
}

fn seq_number(random: &mut Random) -> TcpSeqNumber {
    TcpSeqNumber(i32::from_le_bytes(random.half().to_le_bytes()))
}

// Two ranges in one of 16 segments.
fn sack_ranges(random: &mut Random, is_syn: bool) -> [Option<(u32, u32)>; 4] {
    let (first, second) = (random.half(), random.half());
    if is_syn || random.below(16) > 0 {
        return [None; 4];
    }
    [
        Some((first, first.wrapping_add(1448))),
        Some((second, second.wrapping_add(2896))),
        None,
        None,
    ]
}
