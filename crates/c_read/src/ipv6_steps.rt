//! The headers of an IPv6 packet one by one, each by its place.

ghost use Rattle.std.specs.Prelude.{◌≡◌, ◌≤◌, length, take};
ghost use Rattle.c_read.specs.Ipv6Steps.{first_of, following, step, step_to};

use byteorder::{ByteOrder, NetworkEndian};
use c_structs::Ipv6HeaderPlace;
use ip_wire::{IPV6_HEADER_LEN, Ipv6Packet};
use wire_extensions::{EXTENSION_UNIT, FRAGMENT, extension_len, is_extension};

// The protocols of an IPv6 header, and of what no header follows.
const IPV6: u8 = 41;

const NO_NEXT_HEADER: u8 = 59;

/// Steps to the next header of a packet, first to the IPv6 header, and returns 1. Returns 0 if no extension header
/// follows, and -1 if there is no IPv6 header or the next one is cut, and stores nothing then.
pub fn next_ipv6_header(header: &mut Ipv6HeaderPlace, bytes: &[u8]) -> i32
    ensures returned { result ≡ (step bytes.now header.old).0 }
    ensures stored { header.new ≡ (step bytes.now header.old).1 }
{
    let packet = Ipv6Packet::new_unchecked(bytes);
    if bytes.len() < IPV6_HEADER_LEN || packet.version() != 6 {
        return -1;
    }
    if header.len == 0 {
        *header = first_of(bytes[6]);
        return 1;
    }
    if !is_extension(header.next) {
        return 0;
    }
    let at = header.offset as usize + usize::from(header.len);
    let packet = front(bytes, packet.total_len());
    if packet.len() < at {
        return -1;
    }
    let (_, rest) = packet.split_at(at);
    step_to(header, rest, at)
}

// The IPv6 header before this protocol.
fn first_of(next: u8) -> Ipv6HeaderPlace
    ensures { result ≡ first_of next }
{
    Ipv6HeaderPlace {
        offset: 0,
        len: 40,
        protocol: IPV6,
        next,
    }
}

// Steps to the extension header that begins here.
fn step_to(header: &mut Ipv6HeaderPlace, rest: &[u8], at: usize) -> i32
    requires { at ≤ 65575 }
    ensures returned { result ≡ (step_to rest.now at header.old).0 }
    ensures stored { header.new ≡ (step_to rest.now at header.old).1 }
{
    if rest.len() < EXTENSION_UNIT {
        return -1;
    }
    let len = extension_len(header.next, rest);
    if rest.len() < len {
        return -1;
    }
    *header = Ipv6HeaderPlace {
        offset: at as u32,
        len: len as u16,
        protocol: header.next,
        next: following(header.next, rest),
    };
    1
}

// The protocol of what follows an extension header.
fn following(protocol: u8, bytes: &[u8]) -> u8
    requires { 8 ≤ length bytes.now }
    ensures { result ≡ following protocol bytes.now }
{
    if protocol == FRAGMENT && NetworkEndian::read_u16(&bytes[2..4]) >> 3 != 0 {
        NO_NEXT_HEADER
    } else {
        bytes[0]
    }
}

// The first bytes, at most so many.
fn front(bytes: &[u8], len: usize) -> &[u8]
    ensures value { result.now ≡ take len bytes.now }
    ensures bounded { length result.now ≤ len }
{
    &bytes[..len.min(bytes.len())]
}
