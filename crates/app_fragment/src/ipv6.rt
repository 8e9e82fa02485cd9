//! The fragments of an IPv6 packet (RFC 8200, section 4.5).

ghost use Rattle.std.specs.Prelude.{◌≡◌, ◌↔◌, ◌+◌, ◌-◌, ◌/◌, ◌<◌, ◌≤◌, ◌++◌, IfSome, IsSome, IsTrue, None, drop, false, length};
ghost use Rattle.ip_wire.specs.Field.{with_field};
ghost use Rattle.ip_wire.specs.Ipv6.{HasLengths, ip_version_of, payload_len_of, total_len};
ghost use Rattle.ip_wire.specs.Ipv6Fragment.{bytes_of};
ghost use Rattle.app_fragment.specs.Ipv6Fragments.{IsExtension, MayBeFragmented, MayBegin, cut_bytes, fixed_header, fragment_bytes, fragment_header, fragment_len, header_len, next_place, own_header, place_of};

use crate::cut::numbered_place;
use crate::ipv4::Written;
use ip_wire::laws::field::bytes_fit;
use ip_wire::{
    IPV6_HEADER_LEN, IpProtocol, Ipv6FragmentHeaderMut, Ipv6FragmentRepr, Ipv6Packet, Ipv6PacketMut,
};

// The lengths of the fixed header and the fragment header together.
const HEADERS_LEN: usize = 48;

/// Writes one fragment of an IPv6 packet of one's own to the front of `out`: the one that begins at byte `at` of the
/// payload. Routers do not fragment IPv6. Call it with `at` 0, and then with each `next`, until that is the length of the
/// payload. A fragment has at most `mtu` bytes, as many as fit, with whole blocks of 8 bytes unless it is the last.
///
/// Each fragment has the fixed header of the packet with the next header 44 and its own payload length, a fragment header
/// with the identification `ident`, and its part of the payload. A packet that fits in `mtu` is copied as it is: it gets
/// no fragment header (RFC 8021).
///
/// Not supported: extension headers before the fragment header. A packet with hop-by-hop options, a routing header or
/// destination options after the fixed header is only copied, if it fits.
///
/// Returns `None` and writes nothing if
///
/// - a length or the version of the header is wrong;
/// - the packet does not fit in `mtu`, and its next header is 0, 43 or 60 (as above), or 44: a fragment header;
/// - `at` is not in the payload (0 if that is empty), or no multiple of 8, or not 0 for a packet that fits in `mtu`;
/// - neither 8 bytes of the payload fit in `mtu` after both headers nor all that are left;
/// - the fragment does not fit in `out`.
pub fn fragment_ipv6(
    packet: &[u8],
    at: usize,
    mtu: usize,
    ident: u32,
    out: &mut [u8],
) -> Option<Written>
    ensures accepted { IsSome result ↔ (MayBeFragmented packet.now mtu × MayBegin packet.now at mtu
        × (fragment_len packet.now mtu at (next_place packet.now at mtu) ≤ length out.old)) }
    ensures next { IfSome result (λ written. written.next ≡ next_place packet.now at mtu) }
    ensures bytes { IfSome result (λ written.
        out.new ≡ fragment_bytes ident packet.now mtu at written.next ++ drop written.len out.old) }
    ensures len { IfSome result (λ written. written.len ≡ fragment_len packet.now mtu at written.next) }
    ensures fits { IfSome result (λ written. written.len ≤ mtu) }
    ensures reads { IfSome result (λ written. HasLengths out.new × (ip_version_of out.new ≡ 6)
        × (total_len out.new ≡ written.len)) }
    ensures unchanged { result ≡ None → out.new ≡ out.old }
{
    bytes_fit(packet);
    if !may_be_fragmented(packet, mtu) || !may_begin(packet, at, mtu) {
        return None;
    }
    let next = next_place(packet, at, mtu);
    let len = header_len(packet, mtu) + (next - at);
    if out.len() < len {
        return None;
    }
    write(packet, at, next, mtu, ident, out);
    Some(Written { len, next })
}

/// Where the fragment of this number begins in the payload of an IPv6 packet, as `fragment_ipv6` takes it. The first has
/// number 0. Returns `None` after the last one.
pub fn ipv6_place(packet: &[u8], mtu: usize, number: usize) -> Option<usize>
    requires { HasLengths packet.now }
    ensures { result ≡ place_of packet.now mtu number }
{
    let payload_len = usize::from(Ipv6Packet::new_unchecked(packet).payload_len());
    numbered_place(
        payload_len,
        mtu.saturating_sub(header_len(packet, mtu)),
        number,
    )
}

// Whether the packet fits in the MTU, or may be cut.
fn may_be_fragmented(packet: &[u8], mtu: usize) -> bool
    ensures { IsTrue result ↔ MayBeFragmented packet.now mtu }
{
    let view = Ipv6Packet::new_unchecked(packet);
    if view.check_len().is_err() || view.version() != 6 {
        return false;
    }
    view.total_len() <= mtu || !is_extension(packet[6])
}

// Whether the next header is an extension header that is not cut.
fn is_extension(next: u8) -> bool
    ensures { IsTrue result ↔ IsExtension next }
{
    next == 0 || next == 43 || next == 44 || next == 60
}

// The length of the header of each fragment.
fn header_len(packet: &[u8], mtu: usize) -> usize
    requires { HasLengths packet.now }
    ensures { result ≡ header_len packet.now mtu }
{
    if Ipv6Packet::new_unchecked(packet).total_len() <= mtu {
        IPV6_HEADER_LEN
    } else {
        HEADERS_LEN
    }
}

// Whether a fragment may begin at this place.
fn may_begin(packet: &[u8], at: usize, mtu: usize) -> bool
    requires { HasLengths packet.now }
    ensures { IsTrue result ↔ MayBegin packet.now at mtu }
{
    let view = Ipv6Packet::new_unchecked(packet);
    let header_len = header_len(packet, mtu);
    let payload_len = usize::from(view.payload_len());
    if at % 8 != 0 || at >= payload_len && at != 0 {
        return false;
    }
    if view.total_len() <= mtu && at != 0 {
        return false;
    }
    header_len + 8 <= mtu || header_len + (payload_len - at) <= mtu
}

// Where the fragment ends.
fn next_place(packet: &[u8], at: usize, mtu: usize) -> usize
    requires lengths { HasLengths packet.now }
    requires begins { MayBegin packet.now at mtu }
    ensures value { result ≡ next_place packet.now at mtu }
    ensures order { at ≤ result }
    ensures within { result ≤ payload_len_of packet.now }
    ensures fits { header_len packet.now mtu + (result - at) ≤ mtu }
    ensures whole { total_len packet.now ≤ mtu → result - at ≡ payload_len_of packet.now }
{
    let left = usize::from(Ipv6Packet::new_unchecked(packet).payload_len()) - at;
    let room = mtu - header_len(packet, mtu);
    if left <= room {
        at + left
    } else {
        at + room / 8 * 8
    }
}

// Writes the fragment between two places.
fn write(packet: &[u8], at: usize, next: usize, mtu: usize, ident: u32, out: &mut [u8])
    requires lengths { HasLengths packet.now }
    requires order { at ≤ next }
    requires within { next ≤ payload_len_of packet.now }
    requires fits { header_len packet.now mtu + (next - at) ≤ mtu }
    requires whole { total_len packet.now ≤ mtu → next - at ≡ payload_len_of packet.now }
    requires room { fragment_len packet.now mtu at next ≤ length out.old }
    ensures { out.new ≡ fragment_bytes ident packet.now mtu at next ++ drop (fragment_len packet.now mtu at next) out.old }
{
    let len = Ipv6Packet::new_unchecked(packet).total_len();
    if len <= mtu {
        out[..len].copy_from_slice(&packet[..len]);
    } else {
        cut(packet, at, next, ident, out);
    }
}

// Writes the fragment between two places of a packet that is cut.
fn cut(packet: &[u8], at: usize, next: usize, ident: u32, out: &mut [u8])
    requires lengths { HasLengths packet.now }
    requires order { at ≤ next }
    requires within { next ≤ payload_len_of packet.now }
    requires small { 8 + (next - at) ≤ 65535 }
    requires room { 48 + (next - at) ≤ length out.old }
    ensures { out.new ≡ cut_bytes ident packet.now at next ++ drop (48 + (next - at)) out.old }
{
    let (header, rest) = out.split_at_mut(HEADERS_LEN);
    write_header(packet, at, next, ident, header);
    rest[..next - at].copy_from_slice(&packet[IPV6_HEADER_LEN + at..IPV6_HEADER_LEN + next]);
}

// Writes both headers of the fragment between two places.
fn write_header(packet: &[u8], at: usize, next: usize, ident: u32, header: &mut [u8])
    requires lengths { HasLengths packet.now }
    requires order { at ≤ next }
    requires within { next ≤ payload_len_of packet.now }
    requires small { 8 + (next - at) ≤ 65535 }
    requires room { length header.old ≡ 48 }
    ensures { header.new ≡ fragment_header ident packet.now at next }
{
    let (fixed, own) = header.split_at_mut(IPV6_HEADER_LEN);
    write_fixed(packet, next - at, fixed);
    write_own(packet, at, next, ident, own);
}

// Writes the fixed header of a fragment with so many bytes of the payload.
fn write_fixed(packet: &[u8], len: usize, header: &mut [u8])
    requires lengths { HasLengths packet.now }
    requires small { 8 + len ≤ 65535 }
    requires room { length header.old ≡ 40 }
    ensures { header.new ≡ fixed_header packet.now len }
{
    header.copy_from_slice(&packet[..IPV6_HEADER_LEN]);
    set_fields(header, 8 + len);
}

// Writes the payload length and the next header of a fragment.
fn set_fields(header: &mut [u8], len: usize)
    requires room { 40 ≤ length header.old }
    requires small { len ≤ 65535 }
    ensures { header.new ≡ with_field (with_field header.old 32 16 len) 48 8 44 }
{
    let mut packet = Ipv6PacketMut::new_unchecked(header);
    packet.set_payload_len(len as u16);
    packet.set_next_header(IpProtocol::Ipv6Frag);
}

// Writes the fragment header.
fn write_own(packet: &[u8], at: usize, next: usize, ident: u32, header: &mut [u8])
    requires lengths { HasLengths packet.now }
    requires order { at ≤ next }
    requires within { next ≤ payload_len_of packet.now }
    requires room { length header.old ≡ 8 }
    ensures { header.new ≡ own_header ident packet.now at next }
{
    let value = Ipv6FragmentRepr {
        frag_offset: (at / 8) as u16,
        more_frags: next != usize::from(Ipv6Packet::new_unchecked(packet).payload_len()),
        ident,
    };
    header[0] = packet[6];
    header[1] = 0;
    emit(&value, &mut header[2..]);
}

fn emit(value: &Ipv6FragmentRepr, header: &mut [u8])
    requires { length header.old ≡ 6 }
    ensures { header.new ≡ bytes_of value.now }
{
    value.emit(&mut Ipv6FragmentHeaderMut::new_unchecked(header));
}
