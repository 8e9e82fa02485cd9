//! The fragments of an IPv4 packet (RFC 791, sections 2.3 and 3.2; RFC 1812, section 4.2.2.7).

ghost use Rattle.std.specs.Prelude.{◌≡◌, ◌↔◌, ◌+◌, ◌-◌, ◌≤◌, ◌++◌, Bool, IfSome, IsSome, IsTrue, None, drop, length, slice_range};
ghost use Rattle.ip_wire.specs.Ipv4.{HasChecksum, HasLengths, fragment_offset, header_len, ip_version_of, packet_bytes, total_len, with_checksum};
ghost use Rattle.app_fragment.specs.Ipv4Fragments.{IsAllowed, IsIpv4, MayBeFragmented, MayBegin, fragment_bytes, fragment_header, fragment_len, has_more, header_at, next_place, options_at, payload_len, place_of, with_ident, with_place};

use crate::cut::numbered_place;
use crate::options::replace_options;
use ip_wire::laws::field::bytes_fit;
use ip_wire::{IPV4_HEADER_LEN, Ipv4Packet, Ipv4PacketMut};

/// A fragment that was written.
#[derive(Debug, Clone, Copy, PartialEq, Eq)]
pub struct Written {
    /// Its total length in bytes.
    pub len: usize,
    /// Where the next fragment begins in the payload. After the last one it is the length of the payload.
    pub next: usize,
}

/// Writes one fragment of an IPv4 packet to the front of `out`: the one that begins at byte `at` of the payload. Call it
/// with `at` 0, and then with each `next`, until that is the length of the payload. A fragment has at most `mtu` bytes, as
/// many as fit, with whole blocks of 8 bytes unless it is the last. A fragment may be fragmented again.
///
/// `ident` is `None` for a packet that is forwarded. It keeps its identification, and DF must be clear unless it fits in
/// `mtu`. A packet of one's own gets the identification `ident`, and DF is cleared; it must not be a fragment.
///
/// The header is that of the packet with its options. In later fragments NOPs replace the options without the copied flag
/// (RFC 791, section 3.1), so that the header keeps its length, as in Linux.
///
/// Returns `None` and writes nothing if
///
/// - the packet may not be fragmented, as above;
/// - a length, the version or the checksum of the header is wrong, or the payload ends after byte 65,535 of the packet
///   that it is a fragment of;
/// - `at` is not in the payload (0 if that is empty), or no multiple of 8;
/// - neither 8 bytes of the payload fit in `mtu` nor all that are left;
/// - the fragment does not fit in `out`.
pub fn fragment_ipv4(
    packet: &[u8],
    at: usize,
    mtu: usize,
    ident: Option<u16>,
    out: &mut [u8],
) -> Option<Written>
    ensures accepted { IsSome result ↔ (MayBeFragmented ident packet.now mtu × MayBegin packet.now at mtu
        × (fragment_len packet.now at (next_place packet.now at mtu) ≤ length out.old)) }
    ensures next { IfSome result (λ written. written.next ≡ next_place packet.now at mtu) }
    ensures bytes { IfSome result (λ written.
        out.new ≡ fragment_bytes ident packet.now at written.next ++ drop written.len out.old) }
    ensures len { IfSome result (λ written. written.len ≡ fragment_len packet.now at written.next) }
    ensures fits { IfSome result (λ written. written.len ≤ mtu) }
    ensures reads { IfSome result (λ written. HasLengths out.new × (ip_version_of out.new ≡ 4) × HasChecksum out.new
        × (total_len out.new ≡ written.len)) }
    ensures unchanged { result ≡ None → out.new ≡ out.old }
{
    bytes_fit(packet);
    if !may_be_fragmented(packet, ident, mtu) || !may_begin(packet, at, mtu) {
        return None;
    }
    let next = next_place(packet, at, mtu);
    let len = usize::from(Ipv4Packet::new_unchecked(packet).header_len()) + (next - at);
    if out.len() < len {
        return None;
    }
    write(packet, at, next, ident, out);
    Some(Written { len, next })
}

/// Where the fragment of this number begins in the payload of an IPv4 packet, as `fragment_ipv4` takes it. The first has
/// number 0. Returns `None` after the last one.
pub fn ipv4_place(packet: &[u8], mtu: usize, number: usize) -> Option<usize>
    requires { HasLengths packet.now }
    ensures { result ≡ place_of packet.now mtu number }
{
    let view = Ipv4Packet::new_unchecked(packet);
    let header_len = usize::from(view.header_len());
    let payload_len = usize::from(view.total_len()) - header_len;
    numbered_place(payload_len, mtu.saturating_sub(header_len), number)
}

/// Whether the lengths, the version and the checksum are right.
pub(crate) fn is_ipv4(packet: &[u8]) -> bool
    ensures { IsTrue result ↔ IsIpv4 packet.now }
{
    let view = Ipv4Packet::new_unchecked(packet);
    if view.check_len().is_err() || view.version() != 4 {
        return false;
    }
    view.verify_checksum()
}

// Whether the header is valid, and the packet may be fragmented.
fn may_be_fragmented(packet: &[u8], ident: Option<u16>, mtu: usize) -> bool
    ensures { IsTrue result ↔ MayBeFragmented ident packet.now mtu }
{
    if !is_ipv4(packet) {
        return false;
    }
    let view = Ipv4Packet::new_unchecked(packet);
    let payload_len = usize::from(view.total_len()) - usize::from(view.header_len());
    is_allowed(&view, ident, mtu) && usize::from(view.frag_offset()) + payload_len <= 65535
}

// Whether fragmentation is allowed.
fn is_allowed(packet: &Ipv4Packet<'_>, ident: Option<u16>, mtu: usize) -> bool
    requires { 8 ≤ length (packet_bytes packet.now) }
    ensures { IsTrue result ↔ IsAllowed ident (packet_bytes packet.now) mtu }
{
    match ident {
        None => !packet.dont_frag() || usize::from(packet.total_len()) <= mtu,
        Some(_) => !packet.is_fragment(),
    }
}

// Whether a fragment may begin at this place.
fn may_begin(packet: &[u8], at: usize, mtu: usize) -> bool
    requires { HasLengths packet.now }
    ensures { IsTrue result ↔ MayBegin packet.now at mtu }
{
    let view = Ipv4Packet::new_unchecked(packet);
    let header_len = usize::from(view.header_len());
    let payload_len = usize::from(view.total_len()) - header_len;
    if at % 8 != 0 || at >= payload_len && at != 0 {
        return false;
    }
    header_len + 8 <= mtu || header_len + (payload_len - at) <= mtu
}

// Where the fragment ends.
fn next_place(packet: &[u8], at: usize, mtu: usize) -> usize
    requires lengths { HasLengths packet.now }
    requires begins { MayBegin packet.now at mtu }
    ensures value { result ≡ next_place packet.now at mtu }
    ensures order { at ≤ result }
    ensures within { result ≤ payload_len packet.now }
    ensures fits { header_len packet.now + (result - at) ≤ mtu }
{
    let view = Ipv4Packet::new_unchecked(packet);
    let header_len = usize::from(view.header_len());
    let left = usize::from(view.total_len()) - header_len - at;
    let room = mtu - header_len;
    if left <= room {
        at + left
    } else {
        at + room / 8 * 8
    }
}

// Writes the fragment between two places.
fn write(packet: &[u8], at: usize, next: usize, ident: Option<u16>, out: &mut [u8])
    requires lengths { HasLengths packet.now }
    requires order { at ≤ next }
    requires within { next ≤ payload_len packet.now }
    requires offset { fragment_offset packet.now + payload_len packet.now ≤ 65535 }
    requires room { fragment_len packet.now at next ≤ length out.old }
    ensures { out.new ≡ fragment_bytes ident packet.now at next ++ drop (fragment_len packet.now at next) out.old }
{
    let start = usize::from(Ipv4Packet::new_unchecked(packet).header_len());
    let (header, rest) = out.split_at_mut(start);
    write_header(packet, at, next, ident, header);
    rest[..next - at].copy_from_slice(&packet[start + at..start + next]);
}

// Writes the header of the fragment between two places.
fn write_header(packet: &[u8], at: usize, next: usize, ident: Option<u16>, header: &mut [u8])
    requires lengths { HasLengths packet.now }
    requires order { at ≤ next }
    requires within { next ≤ payload_len packet.now }
    requires offset { fragment_offset packet.now + payload_len packet.now ≤ 65535 }
    requires room { length header.old ≡ header_len packet.now }
    ensures { header.new ≡ fragment_header ident packet.now at next }
{
    let view = Ipv4Packet::new_unchecked(packet);
    let len = header.len() + (next - at);
    let offset = offset_at(&view, at);
    let more = has_more(&view, next);
    copy_header(packet, at, header);
    set_ident(header, ident);
    set_place(header, len as u16, more, offset as u16);
    fill_checksum(header);
}

// The fragment offset in bytes.
fn offset_at(packet: &Ipv4Packet<'_>, at: usize) -> usize
    requires room { 8 ≤ length (packet_bytes packet.now) }
    requires small { at ≤ 65535 }
    ensures { result ≡ fragment_offset (packet_bytes packet.now) + at }
{
    usize::from(packet.frag_offset()) + at
}

// Whether a fragment that ends there has more fragments after it.
fn has_more(packet: &Ipv4Packet<'_>, next: usize) -> bool
    requires { HasLengths (packet_bytes packet.now) }
    ensures { result ≡ has_more (packet_bytes packet.now) next }
{
    let end = usize::from(packet.total_len()) - usize::from(packet.header_len());
    packet.more_frags() || next != end
}

// Copies the header, with the options of the fragment.
fn copy_header(packet: &[u8], at: usize, header: &mut [u8])
    requires lengths { HasLengths packet.now }
    requires room { length header.old ≡ header_len packet.now }
    ensures { header.new ≡ header_at packet.now at }
{
    header.copy_from_slice(&packet[..header.len()]);
    set_options(&mut header[IPV4_HEADER_LEN..], at);
}

fn set_options(options: &mut [u8], at: usize)
    ensures { options.new ≡ options_at at options.old }
{
    if at != 0 {
        replace_options(options);
    }
}

fn set_ident(header: &mut [u8], ident: Option<u16>)
    requires { 20 ≤ length header.old }
    ensures { header.new ≡ with_ident ident header.old }
{
    if let Some(ident) = ident {
        let mut packet = Ipv4PacketMut::new_unchecked(header);
        packet.set_ident(ident);
        packet.set_dont_frag(false);
    }
}

pub(crate) fn set_place(header: &mut [u8], len: u16, more: bool, offset: u16)
    requires { 20 ≤ length header.old }
    ensures { header.new ≡ with_place len more offset header.old }
{
    let mut packet = Ipv4PacketMut::new_unchecked(header);
    packet.set_total_len(len);
    packet.set_more_frags(more);
    packet.set_frag_offset(offset);
}

pub(crate) fn fill_checksum(header: &mut [u8])
    requires field { 12 ≤ length header.old }
    requires header { header_len header.old ≤ length header.old }
    ensures { header.new ≡ with_checksum header.old }
{
    Ipv4PacketMut::new_unchecked(header).fill_checksum();
}
