//! Why a host discards an IPv6 packet or fragment because of its extension headers (RFC 8200, section 4).

ghost use Rattle.std.specs.Prelude.{◌≡◌, ◌+◌, ◌≤◌, ◌<◌, None, drop, length, slice_index};
ghost use Rattle.app_host.specs.Ipv6Fault.{fault_of, fragment_fault, header_end, header_fault, is_fragment, is_last, is_processed, lacks_headers, option_end, option_fault, options_fault, routing_fault, type_fault};
ghost use Rattle.ip_wire.specs.Ipv6Fragment.{header_of};

use crate::icmp_error::About;
use crate::ipv6_chain::has_headers;
use ip_wire::{IPV6_MAX_PAYLOAD_LEN, Ipv6FragmentHeader, Ipv6FragmentRepr};
use wire_extensions::{EXTENSION_UNIT, FRAGMENT};

const HOP_BY_HOP: u8 = 0;

const ROUTING: u8 = 43;

const DESTINATION: u8 = 60;

// Where the IPv6 header has the length of its payload and the number of the next header.
const PAYLOAD_LEN_AT: u32 = 4;

const NEXT_HEADER_AT: u32 = 6;

// The length of the IPv6 header in bytes.
const HEADER_LEN: u32 = 40;

/// Why a host discards a packet.
#[derive(Debug, Clone, Copy, PartialEq, Eq)]
pub enum Fault {
    /// Without an error.
    Silent,
    /// With the error "parameter problem". `pointer` counts from the start of the IPv6 header.
    Reported {
        code: u8,
        pointer: u32,
        about: About,
    },
}

/// The first fault of the extension headers of a packet with this next header and payload. No IPv6 packet but a jumbogram
/// has a payload of more than 65,535 bytes.
pub fn first_fault(next_header: u8, payload: &[u8]) -> Option<Fault>
    requires { length payload.now ≤ 65535 }
    ensures { result ≡ fault_of next_header payload.now }
{
    let mut number = next_header;
    let mut pointer = NEXT_HEADER_AT;
    let mut start = 0;
    while !is_last(number) {
        if let Some(fault) = header_fault(payload, number, pointer, start) {
            return Some(fault);
        }
        if is_fragment(payload, number, start) {
            return None;
        }
        let end = header_end(payload, number, start);
        number = byte_at(payload, start);
        pointer = pointer_to(start);
        start = end;
    }
    None
}

// Whether the number ends the extension headers of a packet.
fn is_last(number: u8) -> bool
    ensures { result ≡ is_last number }
{
    matches!(number, 6 | 17 | 58 | 59)
}

// Whether the header with this number that starts here is that of a fragment.
fn is_fragment(payload: &[u8], number: u8, start: usize) -> bool
    requires position { start ≤ length payload.now }
    requires whole { number ≡ 44 → start + 8 ≤ length payload.now }
    ensures { result ≡ is_fragment payload.now number start }
{
    if number != FRAGMENT {
        return false;
    }
    let fragment = fragment_at(payload, start);
    fragment.more_frags || fragment.frag_offset != 0
}

// The values of the fragment header that starts here.
fn fragment_at(payload: &[u8], start: usize) -> Ipv6FragmentRepr
    requires { start + 8 ≤ length payload.now }
    ensures { result ≡ header_of (drop (start + 2) payload.now) }
{
    let header = Ipv6FragmentHeader::new_unchecked(&payload[start + 2..]);
    Ipv6FragmentRepr {
        frag_offset: header.frag_offset(),
        more_frags: header.more_frags(),
        ident: header.ident(),
    }
}

// The fault of the extension header with this number, to which the byte at `pointer` leads.
fn header_fault(payload: &[u8], number: u8, pointer: u32, start: usize) -> Option<Fault>
    requires position { start ≤ length payload.now }
    requires short { length payload.now ≤ 65535 }
    ensures fault { result ≡ header_fault payload.now number pointer start }
    ensures whole { result ≡ None → header_end payload.now number start ≤ length payload.now }
{
    if !is_processed(number, start) {
        return Some(reported(1, pointer, About::Hosts));
    }
    let end = header_end(payload, number, start);
    if payload.len() < end {
        return Some(Fault::Silent);
    }
    match number {
        ROUTING => routing_fault(payload, start),
        FRAGMENT => fragment_fault(payload, start, &fragment_at(payload, start)),
        _ => options_fault(payload, start + 2, end),
    }
}

// Whether the host processes the extension header with this number here.
fn is_processed(number: u8, start: usize) -> bool
    ensures { result ≡ is_processed number start }
{
    (number == HOP_BY_HOP && start == 0) || matches!(number, ROUTING | FRAGMENT | DESTINATION)
}

// Where the extension header with this number ends that starts here.
fn header_end(payload: &[u8], number: u8, start: usize) -> usize
    requires position { start ≤ length payload.now }
    requires short { length payload.now ≤ 65535 }
    ensures { result ≡ header_end payload.now number start }
{
    if number == FRAGMENT {
        return start + EXTENSION_UNIT;
    }
    start + EXTENSION_UNIT * (usize::from(byte_at(payload, start + 1)) + 1)
}

// The fault of the routing header that starts here.
fn routing_fault(payload: &[u8], start: usize) -> Option<Fault>
    requires position { start ≤ length payload.now }
    requires short { length payload.now ≤ 65535 }
    ensures { result ≡ routing_fault payload.now start }
{
    if byte_at(payload, start + 3) == 0 {
        return None;
    }
    Some(reported(0, pointer_to(start) + 2, About::Hosts))
}

// The fault of the fragment whose header starts here.
fn fragment_fault(payload: &[u8], start: usize, fragment: &Ipv6FragmentRepr) -> Option<Fault>
    requires whole { start + 8 ≤ length payload.now }
    requires short { length payload.now ≤ 65535 }
    ensures { result ≡ fragment_fault payload.now start fragment.now }
{
    let len = payload.len() - (start + EXTENSION_UNIT);
    if fragment.more_frags && len % EXTENSION_UNIT != 0 {
        return Some(reported(0, PAYLOAD_LEN_AT, About::Fragments));
    }
    let end = EXTENSION_UNIT * usize::from(fragment.frag_offset) + len;
    if start + end > IPV6_MAX_PAYLOAD_LEN {
        return Some(reported(0, pointer_to(start) + 2, About::Fragments));
    }
    if lacks_headers(payload, start, fragment) {
        return Some(reported(3, 0, About::Fragments));
    }
    None
}

// Whether a first fragment, whose header starts here, lacks a header.
fn lacks_headers(payload: &[u8], start: usize, fragment: &Ipv6FragmentRepr) -> bool
    requires { start + 8 ≤ length payload.now }
    ensures { result ≡ lacks_headers payload.now start fragment.now }
{
    fragment.more_frags
        && fragment.frag_offset == 0
        && !has_headers(payload[start], &payload[start + EXTENSION_UNIT..])
}

// The first fault of the options from `first` to `end`.
fn options_fault(payload: &[u8], first: usize, end: usize) -> Option<Fault>
    requires position { end ≤ length payload.now }
    requires short { length payload.now ≤ 65535 }
    ensures { result ≡ options_fault (length payload.now) payload.now first end }
{
    let mut start = first;
    while start < end {
        if let Some(fault) = option_fault(payload, start, end) {
            return Some(fault);
        }
        start = option_end(payload, start);
    }
    None
}

// The fault of the option that starts here, in a header that ends at `end`.
fn option_fault(payload: &[u8], start: usize, end: usize) -> Option<Fault>
    requires position { start < length payload.now }
    requires short { length payload.now ≤ 65535 }
    ensures { result ≡ option_fault payload.now start end }
{
    if end < option_end(payload, start) {
        return Some(reported(0, pointer_to(start) + 1, About::Hosts));
    }
    type_fault(byte_at(payload, start), pointer_to(start))
}

// Where the option ends that starts here.
fn option_end(payload: &[u8], start: usize) -> usize
    requires position { start < length payload.now }
    requires short { length payload.now ≤ 65535 }
    ensures { result ≡ option_end payload.now start }
{
    if byte_at(payload, start) == 0 {
        return start + 1;
    }
    start + 2 + usize::from(byte_at(payload, start + 1))
}

// The fault of an option with this type.
fn type_fault(kind: u8, pointer: u32) -> Option<Fault>
    ensures { result ≡ type_fault kind pointer }
{
    if kind < 64 {
        return None;
    }
    if kind < 128 {
        return Some(Fault::Silent);
    }
    let about = if kind < 192 {
        About::Groups
    } else {
        About::Hosts
    };
    Some(reported(2, pointer, about))
}

// A fault that is reported.
fn reported(code: u8, pointer: u32, about: About) -> Fault
    ensures { result ≡ Fault.Reported code pointer about }
{
    Fault::Reported {
        code,
        pointer,
        about,
    }
}

// The pointer to a byte of the payload.
fn pointer_to(position: usize) -> u32
    requires { position ≤ 65535 }
    ensures { result ≡ 40 + position }
{
    HEADER_LEN + position as u32
}

// A byte of the payload, or 0 past its end.
fn byte_at(payload: &[u8], position: usize) -> u8
    ensures { result ≡ slice_index payload.now position }
{
    match payload.get(position) {
        Some(byte) => *byte,
        None => 0,
    }
}
