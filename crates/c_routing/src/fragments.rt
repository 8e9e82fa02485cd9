//! Fragments of the IP packet in a frame.

ghost use Rattle.std.specs.Prelude.{◌≡◌, ◌≤◌, ◌==◌, IfSome, None, Some, drop, false, length};
ghost use Rattle.app_fragment.specs.Ipv4Fragments as ipv4;
ghost use Rattle.app_fragment.specs.Ipv6Fragments as ipv6_fragments;
ghost use Rattle.c_routing.specs.Fragmented.{HasLengths, MayBeWritten, WritesFragment, fragment_at, fragment_failure, fragment_frame, frame_at, ident_of, ipv4_at, ipv4_failure, ipv6_at, ipv6_failure, is_extension, is_ident, is_long, packet_failure, packet_of, place_of};
ghost use Rattle.c_structs.specs.Written.{Fills, Writes, max_len, within};
ghost use Rattle.ip_wire.specs.Ipv4.{ip_version_of, packet_bytes};
ghost use Rattle.ip_wire.specs.Ipv4 as ipv4_header;
ghost use Rattle.ip_wire.specs.Ipv6 as ipv6;

use app_fragment::{fragment_ipv4, fragment_ipv6, ipv4_place, ipv6_place};
use c_structs::{Failure, MAX_LEN, within};
use ip_wire::laws::field::bytes_fit;
use ip_wire::{
    ETHERNET_HEADER_LEN, EthernetFrame, EthernetProtocol, EthernetRepr, Ipv4Packet, Ipv6Packet,
    Ipv6Repr, parse_ipv4,
};

// The least MTU at which an IPv6 packet is cut: the fixed header, the fragment header and 8 bytes.
const LEAST_MTU: usize = 56;

/// Writes the fragment with this number of the packet in a frame, in a frame of its own. Returns its length, 0 after the
/// last fragment, or a failure.
pub fn write_fragment(frame: &[u8], mtu: usize, ident: i64, number: usize, out: &mut [u8]) -> isize
    ensures { WritesFragment (fragment_failure ident mtu (within frame.now)) (fragment_frame (ident_of ident) mtu number (within frame.now)) out.old out.new result }
{
    let frame = within(frame);
    if let Some(failure) = fragment_failure(frame, mtu, ident) {
        return failure.code();
    }
    match place_of(frame, mtu, number) {
        Some(at) => write_at(frame, at, mtu, ident_of(ident), out),
        None => 0,
    }
}

// The identification of a packet of one's own.
fn ident_of(number: i64) -> Option<u32>
    ensures { result ≡ ident_of number }
{
    u32::try_from(number).ok()
}

// Whether the number is an identification, or -1.
fn is_ident(number: i64) -> bool
    ensures { result ≡ is_ident number }
{
    ident_of(number).is_some() || number == -1
}

// Whether the identification does not fit in an IPv4 header.
fn is_long(ident: Option<u32>) -> bool
    ensures { result ≡ is_long ident }
{
    match ident {
        Some(number) => number > 65535,
        None => false,
    }
}

// Whether this is an IPv6 packet.
fn is_ipv6(packet: &[u8]) -> bool
    requires { 1 ≤ length packet.now }
    ensures { result ≡ (ip_version_of packet.now == 6) }
{
    Ipv6Packet::new_unchecked(packet).version() == 6
}

// Why the packet of a frame is not fragmented.
#[tactic(auto, unfolding(crate::specs::Fragmented::fragment_failure))]
fn fragment_failure(frame: &[u8], mtu: usize, ident: i64) -> Option<Failure>
    ensures { result ≡ fragment_failure ident mtu frame.now }
{
    if !is_ident(ident) {
        return Some(Failure::BadField);
    }
    match packet_of(frame) {
        Some(packet) => packet_failure(packet, mtu, ident_of(ident)),
        None => Some(Failure::NoHeader),
    }
}

// The bytes of a frame from its IP packet on.
fn packet_of(frame: &[u8]) -> Option<&[u8]>
    ensures none { result ≡ None → packet_of frame.now ≡ None }
    ensures some { IfSome result (λ packet. packet_of frame.now ≡ Some packet.now) }
    ensures lengths { IfSome result (λ packet. HasLengths packet.now) }
{
    let link = EthernetRepr::parse(&EthernetFrame::new_unchecked(frame)).ok()?;
    let (_, packet) = frame.split_at(ETHERNET_HEADER_LEN);
    match link.ethertype {
        EthernetProtocol::Ipv4 => match parse_ipv4(packet) {
            Ok(_) => Some(packet),
            Err(_) => None,
        },
        EthernetProtocol::Ipv6 => match Ipv6Repr::parse(&Ipv6Packet::new_unchecked(packet)) {
            Ok(_) => Some(packet),
            Err(_) => None,
        },
        _ => None,
    }
}

// Why a packet with a valid header is not fragmented.
fn packet_failure(packet: &[u8], mtu: usize, ident: Option<u32>) -> Option<Failure>
    requires { HasLengths packet.now }
    ensures { result ≡ packet_failure ident mtu packet.now }
{
    if is_ipv6(packet) {
        ipv6_failure(packet, mtu, ident)
    } else {
        ipv4_failure(&Ipv4Packet::new_unchecked(packet), mtu, ident)
    }
}

fn ipv4_failure(packet: &Ipv4Packet<'_>, mtu: usize, ident: Option<u32>) -> Option<Failure>
    requires { ipv4_header.HasLengths (packet_bytes packet.now) }
    ensures { result ≡ ipv4_failure ident mtu (packet_bytes packet.now) }
{
    let header_len = usize::from(packet.header_len());
    let total_len = usize::from(packet.total_len());
    let is_too_long = total_len > mtu;
    if is_long(ident) || is_too_long && mtu < header_len + 8 {
        Some(Failure::BadField)
    } else if usize::from(packet.frag_offset()) + (total_len - header_len) > 65535 {
        Some(Failure::PayloadTooLong)
    } else if ident.is_some() && packet.is_fragment() {
        Some(Failure::NoHeader)
    } else if ident.is_none() && is_too_long && packet.dont_frag() {
        Some(Failure::DontFragment)
    } else {
        None
    }
}

fn ipv6_failure(packet: &[u8], mtu: usize, ident: Option<u32>) -> Option<Failure>
    requires { ipv6.HasLengths packet.now }
    ensures { result ≡ ipv6_failure ident mtu packet.now }
{
    if Ipv6Packet::new_unchecked(packet).total_len() <= mtu {
        None
    } else if mtu < LEAST_MTU {
        Some(Failure::BadField)
    } else if ident.is_none() {
        Some(Failure::DontFragment)
    } else if is_extension(packet[6]) {
        Some(Failure::NoHeader)
    } else {
        None
    }
}

// Whether an IPv6 packet with this next header is not cut.
fn is_extension(next: u8) -> bool
    ensures { result ≡ is_extension next }
{
    next == 0 || next == 43 || next == 44 || next == 60
}

// Where a fragment begins in the payload of the packet in a frame.
fn place_of(frame: &[u8], mtu: usize, number: usize) -> Option<usize>
    requires header { 14 ≤ length frame.now }
    requires lengths { HasLengths (drop 14 frame.now) }
    ensures { result ≡ place_of (drop 14 frame.now) mtu number }
{
    let (_, packet) = frame.split_at(ETHERNET_HEADER_LEN);
    if is_ipv6(packet) {
        ipv6_place(packet, mtu, number)
    } else {
        ipv4_place(packet, mtu, number)
    }
}

// Writes the frame with the fragment that begins at this place. Returns its length, or a failure.
fn write_at(frame: &[u8], at: usize, mtu: usize, ident: Option<u32>, out: &mut [u8]) -> isize
    requires header { 14 ≤ length frame.now }
    requires may { MayBeWritten ident mtu (drop 14 frame.now) at }
    ensures { Writes (Some (frame_at ident mtu frame.now at)) None out.old out.new result }
{
    if out.len() > MAX_LEN {
        return Failure::NoRoom.code();
    }
    match fill_at(frame, at, mtu, ident, out) {
        Some(len) => len as isize,
        None => Failure::NoRoom.code(),
    }
}

// Writes the frame with the fragment that begins at this place.
fn fill_at(frame: &[u8], at: usize, mtu: usize, ident: Option<u32>, out: &mut [u8]) -> Option<usize>
    requires header { 14 ≤ length frame.now }
    requires may { MayBeWritten ident mtu (drop 14 frame.now) at }
    requires room { length out.old ≤ max_len }
    ensures { Fills (Some (frame_at ident mtu frame.now at)) out.old out.new result }
{
    let (link, packet) = frame.split_at(ETHERNET_HEADER_LEN);
    if out.len() < ETHERNET_HEADER_LEN {
        return None;
    }
    let (front, rest) = out.split_at_mut(ETHERNET_HEADER_LEN);
    match fill_packet(packet, at, mtu, ident, rest) {
        Some(len) => {
            front.copy_from_slice(link);
            Some(ETHERNET_HEADER_LEN + len)
        }
        None => None,
    }
}

// Writes the fragment that begins at this place.
fn fill_packet(
    packet: &[u8],
    at: usize,
    mtu: usize,
    ident: Option<u32>,
    out: &mut [u8],
) -> Option<usize>
    requires { MayBeWritten ident mtu packet.now at }
    ensures { Fills (Some (fragment_at ident mtu packet.now at)) out.old out.new result }
{
    if is_ipv6(packet) {
        fill_ipv6(packet, at, mtu, ident, out)
    } else {
        fill_ipv4(packet, at, mtu, ident, out)
    }
}

fn fill_ipv4(
    packet: &[u8],
    at: usize,
    mtu: usize,
    ident: Option<u32>,
    out: &mut [u8],
) -> Option<usize>
    requires short { is_long ident ≡ false }
    requires may { ipv4.MayBeFragmented ident packet.now mtu }
    requires begin { ipv4.MayBegin packet.now at mtu }
    ensures { Fills (Some (ipv4_at ident mtu packet.now at)) out.old out.new result }
{
    bytes_fit(packet);
    match fragment_ipv4(packet, at, mtu, short(ident), out) {
        Some(written) => Some(written.len),
        None => None,
    }
}

// The identification of an IPv4 header.
fn short(ident: Option<u32>) -> Option<u16>
    requires { is_long ident ≡ false }
    ensures { result ≡ ident }
{
    match ident {
        Some(number) => Some(number as u16),
        None => None,
    }
}

fn fill_ipv6(
    packet: &[u8],
    at: usize,
    mtu: usize,
    ident: Option<u32>,
    out: &mut [u8],
) -> Option<usize>
    requires may { ipv6_fragments.MayBeFragmented packet.now mtu }
    requires begin { ipv6_fragments.MayBegin packet.now at mtu }
    ensures { Fills (Some (ipv6_at ident mtu packet.now at)) out.old out.new result }
{
    bytes_fit(packet);
    match fragment_ipv6(packet, at, mtu, ident.unwrap_or(0), out) {
        Some(written) => Some(written.len),
        None => None,
    }
}
