//! IP headers of either version.

ghost use Rattle.std.specs.Prelude.{◌≡◌, ◌≤◌, ◌<◌, ◌%◌, ◌++◌, IfSome, Some, drop, false, flat_map, length, slice_index, take, true};
ghost use Rattle.std.specs.Option.{option_map};
ghost use Rattle.byteorder.specs.Endian.{big_bytes};
ghost use Rattle.ip_wire.specs.Ip.{bytes_of, header_len_of, max_payload_len, payload_len_of};
ghost use Rattle.ip_wire.specs.Ipv4 as ipv4;
ghost use Rattle.ip_wire.specs.Ipv6 as ipv6;
ghost use Rattle.c_write.specs.Headers.{header_bytes, has_place, ip_between, ip_bytes, ip_value, is_expressible, only_if, with_ipv4_fields, with_ipv6_fields};
ghost use Rattle.ip_wire.specs.declared.IpAddress.TheVariants as address;
ghost use Rattle.ip_wire.specs.Types.{Ipv4, Ipv6};
ghost use Rattle.c_structs.specs.Written.{Fills};
ghost use Rattle.c_structs.specs.declared.flags.TheConstants.{FLOW_LABELS};

use byteorder::{ByteOrder, NetworkEndian};
use c_structs::{Addr, DONT_FRAGMENT, FLOW_LABELS, Ip, MORE_FRAGMENTS};
use ip_wire::{IPV4_HEADER_LEN, IPV6_HEADER_LEN, IpProtocol, IpRepr, Ipv4Repr, Ipv6Repr};
use wire_checksum::for_emit;

// The upper half of the first 32 bits: version 4 and a header of 5 words (RFC 791, section 3.1).
const IPV4_START: u32 = 0x4500;

// The first 32 bits: version 6 (RFC 8200, section 3).
const IPV6_START: u32 = 0x6000_0000;

// The lowest bits of the first and the third byte of 32 bits, of their upper half, and of the upper half of 64 bits.
const FIRST_BYTE: u32 = 1 << 24;

const THIRD_BYTE: u32 = 1 << 8;

const UPPER_HALF: u32 = 1 << 16;

const UPPER_WORD: u64 = 1 << 32;

/// The values of a header of this protocol between two addresses, the first of this version.
/// `None` if the addresses have no version or different ones, or if the header cannot express a
/// field or the length.
#[inline(always)]
pub fn ip_value(
    header: &Ip,
    version: u16,
    protocol: u8,
    src: &Addr,
    dst: &Addr,
    payload_len: usize,
) -> Option<IpRepr>
    requires { version ≡ src.now.version }
    ensures value { result ≡ ip_value header.now protocol src.now dst.now payload_len }
    ensures fits { IfSome result (λ v. payload_len_of v ≤ max_payload_len v) }
{
    if dst.version != version {
        return None;
    }
    let value = match version {
        4 => ipv4_value(header, protocol, src, dst, payload_len),
        6 => ipv6_value(header, protocol, src, dst, payload_len),
        _ => return None,
    };
    is_expressible(header, &value).then_some(value)
}

// The values of an IPv4 header.
#[inline(always)]
fn ipv4_value(header: &Ip, protocol: u8, src: &Addr, dst: &Addr, payload_len: usize) -> IpRepr
    ensures { Some result ≡ ip_between header.now protocol payload_len
        (address.Ipv4 (take 4 src.now.octets)) (address.Ipv4 (take 4 dst.now.octets)) }
{
    IpRepr::Ipv4(Ipv4Repr {
        src_addr: src.ipv4(),
        dst_addr: dst.ipv4(),
        next_header: IpProtocol::Unknown(protocol),
        payload_len,
        hop_limit: header.hop_limit,
    })
}

// The values of an IPv6 header.
#[inline(always)]
fn ipv6_value(header: &Ip, protocol: u8, src: &Addr, dst: &Addr, payload_len: usize) -> IpRepr
    ensures { Some result ≡ ip_between header.now protocol payload_len
        (address.Ipv6 src.now.octets) (address.Ipv6 dst.now.octets) }
{
    IpRepr::Ipv6(Ipv6Repr {
        src_addr: src.ipv6(),
        dst_addr: dst.ipv6(),
        next_header: IpProtocol::Unknown(protocol),
        payload_len,
        hop_limit: header.hop_limit,
    })
}

/// Writes the header between two addresses to the front of `out`, and returns its length. `None`
/// if it does not fit, or as for `ip_value`. Each version is written apart, so that its values stay in
/// registers.
#[inline(always)]
pub fn emit_ip(
    header: &Ip,
    src: &Addr,
    dst: &Addr,
    payload_len: usize,
    computed: bool,
    out: &mut [u8],
) -> Option<usize>
    ensures { Fills (ip_bytes header.now src.now dst.now payload_len computed) out.old out.new result }
{
    let protocol = header.protocol;
    match (src.version, dst.version) {
        (4, 4) => emit_value(
            header,
            ipv4_value(header, protocol, src, dst, payload_len),
            computed,
            out,
        ),
        (6, 6) => emit_value(
            header,
            ipv6_value(header, protocol, src, dst, payload_len),
            computed,
            out,
        ),
        _ => None,
    }
}

// Writes a header with these values, if it can express them.
#[inline(always)]
fn emit_value(header: &Ip, value: IpRepr, computed: bool, out: &mut [u8]) -> Option<usize>
    ensures { Fills (option_map (header_bytes header.now computed) (only_if (is_expressible header.now value) value)) out.old out.new result }
{
    let len = value.header_len();
    if !is_expressible(header, &value) || out.len() < len {
        return None;
    }
    write_ip(header, &value, computed, out);
    Some(len)
}

// Whether the header can express the length and each field.
#[inline(always)]
fn is_expressible(header: &Ip, value: &IpRepr) -> bool
    ensures { result ≡ is_expressible header.now value.now }
{
    value.payload_len() <= value.max_payload_len()
        && header.hop_limit > 0
        && header.dscp < 64
        && header.ecn < 4
        && has_place(header, value)
}

// Whether each field has as many bits as the header of this version has for it. IPv6 has none for
// fragments.
#[inline(always)]
fn has_place(header: &Ip, value: &IpRepr) -> bool
    ensures { result ≡ has_place header.now value.now }
{
    match value {
        IpRepr::Ipv4(_) => header.ident < 1 << 16 && header.fragment_offset % 8 == 0,
        IpRepr::Ipv6(_) => {
            header.flow_label < FLOW_LABELS
                && header.ident == 0
                && header.fragment_offset == 0
                && header.more_fragments == 0
        }
    }
}

/// Writes the header with these values to the front of `out`. The checksum of IPv4 is 0 unless it
/// is computed.
#[inline(always)]
pub fn write_ip(header: &Ip, value: &IpRepr, computed: bool, out: &mut [u8])
    requires expressible { is_expressible header.now value.now ≡ true }
    requires room { header_len_of value.now ≤ length out.old }
    ensures { out.new ≡ header_bytes header.now computed value.now ++ drop (header_len_of value.now) out.old }
{
    match value {
        IpRepr::Ipv4(value) => write_ipv4(header, value, computed, out),
        IpRepr::Ipv6(value) => write_ipv6(header, value, out),
    }
}

// Writes an IPv4 header. The checksum is computed from the words before they are written, since
// bytes that were just written are slow to read again.
#[inline(always)]
fn write_ipv4(header: &Ip, value: &Ipv4Repr, computed: bool, out: &mut [u8])
    requires payload_len { value.now.payload_len ≤ ipv4.max_payload_len }
    requires dscp { header.now.dscp < 64 }
    requires ecn { header.now.ecn < 4 }
    requires ident { header.now.ident < 65536 }
    requires room { 20 ≤ length out.old }
    ensures { out.new ≡ header_bytes header.now computed (Ipv4 value.now) ++ drop 20 out.old }
{
    let mut words = ipv4_words(header, *value);
    if computed {
        words[2] += u32::from(!for_emit::words(words));
    }
    let (front, _) = out.split_at_mut(IPV4_HEADER_LEN);
    NetworkEndian::write_u32_into(&words, front);
}

// The words of an IPv4 header, of 32 bits each. Its checksum is 0.
#[inline(always)]
fn ipv4_words(header: &Ip, value: Ipv4Repr) -> [u32; 5]
    requires payload_len { value.payload_len ≤ ipv4.max_payload_len }
    requires dscp { header.now.dscp < 64 }
    requires ecn { header.now.ecn < 4 }
    requires ident { header.now.ident < 65536 }
    ensures value { flat_map (big_bytes 4) result ≡ with_ipv4_fields header.now (ipv4.bytes_of value false) }
    ensures no_checksum { slice_index result 2 % 65536 ≡ 0 }
{
    let service = u32::from(4 * header.dscp + header.ecn);
    let total_len = (IPV4_HEADER_LEN + value.payload_len) as u32;
    let dont_fragment = u32::from(header.dont_fragment != 0) * u32::from(DONT_FRAGMENT);
    let more_fragments = u32::from(header.more_fragments != 0) * u32::from(MORE_FRAGMENTS);
    let offset = u32::from(header.fragment_offset / 8);
    let protocol = u32::from(u8::from(value.next_header));
    [
        (IPV4_START + service) * UPPER_HALF + total_len,
        header.ident * UPPER_HALF + dont_fragment + more_fragments + offset,
        u32::from(value.hop_limit) * FIRST_BYTE + protocol * UPPER_HALF,
        value.src_addr.to_bits(),
        value.dst_addr.to_bits(),
    ]
}

// Writes an IPv6 header.
#[inline(always)]
fn write_ipv6(header: &Ip, value: &Ipv6Repr, out: &mut [u8])
    requires payload_len { value.now.payload_len ≤ 65535 }
    requires dscp { header.now.dscp < 64 }
    requires ecn { header.now.ecn < 4 }
    requires flow_label { header.now.flow_label < FLOW_LABELS }
    requires room { 40 ≤ length out.old }
    ensures { out.new ≡ with_ipv6_fields header.now (ipv6.bytes_of value.now) ++ drop 40 out.old }
{
    let words = ipv6_words(header, *value);
    let (front, _) = out.split_at_mut(IPV6_HEADER_LEN);
    NetworkEndian::write_u64_into(&words, front);
}

// The words of an IPv6 header, of 64 bits each.
#[inline(always)]
fn ipv6_words(header: &Ip, value: Ipv6Repr) -> [u64; 5]
    requires payload_len { value.payload_len ≤ 65535 }
    requires dscp { header.now.dscp < 64 }
    requires ecn { header.now.ecn < 4 }
    requires flow_label { header.now.flow_label < FLOW_LABELS }
    ensures { flat_map (big_bytes 8) result ≡ with_ipv6_fields header.now (ipv6.bytes_of value) }
{
    let service = u32::from(4 * header.dscp + header.ecn);
    let first = IPV6_START + service * FLOW_LABELS + header.flow_label;
    let protocol = u32::from(u8::from(value.next_header));
    let hop_limit = u32::from(value.hop_limit);
    let second = value.payload_len as u32 * UPPER_HALF + protocol * THIRD_BYTE + hop_limit;
    let src = value.src_addr.octets();
    let dst = value.dst_addr.octets();
    [
        u64::from(first) * UPPER_WORD + u64::from(second),
        NetworkEndian::read_u64(&src[..8]),
        NetworkEndian::read_u64(&src[8..]),
        NetworkEndian::read_u64(&dst[..8]),
        NetworkEndian::read_u64(&dst[8..]),
    ]
}
