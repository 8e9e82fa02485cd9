//! Writes ICMP messages, by themselves, in IP packets and in whole frames.

ghost use Rattle.std.specs.Prelude.{◌≡◌};
ghost use Rattle.ip_wire.specs.Checksum.{computes};
ghost use Rattle.wire_addr.specs.declared.ip_version.IpVersion.{IpVersion};
ghost use Rattle.wire_icmp.specs.Icmp.{choice_of};
ghost use Rattle.c_structs.specs.Written.{Fills};
ghost use Rattle.c_icmp.specs.Frames.{icmp_failure, icmp_frame, icmp_frame_failure, icmp_packet, protocol_number};
ghost use Rattle.c_icmp.specs.Messages.{header_value, icmp_bytes};

use c_structs::{Addr, Failure, FrameFields, Icmp};
use c_write::{emit_ip_header, emit_link, frame_failure, ip_header, most_payload, pair_failure};
use ip_wire::{ChecksumCapabilities, ETHERNET_HEADER_LEN};
use wire_icmp::{ICMP_HEADER_LEN, IcmpHeader};

// The protocols of IPv4 and of IPv6.
const ICMP: u8 = 1;

pub(crate) const ICMPV6: u8 = 58;

// The longest payload: header and payload fit into an IPv6 packet.
const MAX_PAYLOAD_LEN: usize = 65527;

/// Writes a message to the front of `out` and returns its length. `None` if it does not fit, or if there is an
/// `icmp_failure`.
#[inline(always)]
pub fn emit_icmp(
    header: &Icmp,
    src: &Addr,
    dst: &Addr,
    payload: &[u8],
    computed: bool,
    out: &mut [u8],
) -> Option<usize>
    ensures { Fills (icmp_bytes header.now src.now dst.now payload.now computed) out.old out.new result }
{
    if payload.len() > MAX_PAYLOAD_LEN {
        return None;
    }
    let (src_addr, dst_addr) = src.pair(src.version, dst)?;
    let caps = checksums(computed);
    header_value(header).try_emit(out, &src_addr, &dst_addr, payload, &caps)
}

// The values of a header.
#[inline(always)]
fn header_value(header: &Icmp) -> IcmpHeader
    ensures { result ≡ header_value header.now }
{
    IcmpHeader {
        msg_type: header.msg_type,
        msg_code: header.code,
        word: header.word,
    }
}

// What asks to compute checksums, or not to.
#[inline(always)]
fn checksums(computed: bool) -> ChecksumCapabilities
    ensures { (v : IpVersion) → computes (choice_of v result) ≡ computed }
{
    if computed {
        ChecksumCapabilities::default()
    } else {
        ChecksumCapabilities::ignored()
    }
}

/// Why no message with a payload of this length goes between two addresses.
pub fn icmp_failure(src: &Addr, dst: &Addr, payload_len: usize) -> Option<Failure>
    ensures { result ≡ icmp_failure src.now dst.now payload_len }
{
    let failure = pair_failure(src, dst);
    if failure.is_some() {
        failure
    } else if payload_len > MAX_PAYLOAD_LEN {
        Some(Failure::PayloadTooLong)
    } else {
        None
    }
}

/// Writes an IP packet with an ICMP message and this payload, and returns its length.
#[inline(always)]
pub fn emit_icmp_packet(headers: &FrameFields, payload: &[u8], out: &mut [u8]) -> Option<usize>
    ensures { Fills (icmp_packet headers.now payload.now) out.old out.new result }
{
    if payload.len() > MAX_PAYLOAD_LEN {
        return None;
    }
    let version = headers.src.addr.version;
    let len = ICMP_HEADER_LEN + payload.len();
    let ip_header = ip_header(headers, version, protocol_number(version), len)?;
    let start = ip_header.header_len();
    let end = start + len;
    if out.len() < end {
        return None;
    }
    let (front, message) = out.split_at_mut(start);
    emit_ip_header(headers, &ip_header, front);
    let (src, dst) = (&headers.src.addr, &headers.dst.addr);
    match emit_icmp(&headers.icmp, src, dst, payload, true, message) {
        Some(_) => Some(end),
        None => None,
    }
}

/// Writes a frame with an ICMP message and this payload, and returns its length.
pub fn emit_icmp_frame(headers: &FrameFields, payload: &[u8], out: &mut [u8]) -> Option<usize>
    ensures { Fills (icmp_frame headers.now payload.now) out.old out.new result }
{
    // Once they are read, the checker knows how long they are.
    let _hardware = (headers.ethernet.src[0], headers.ethernet.dst[0]);
    let (link, packet) = out.split_at_mut_checked(ETHERNET_HEADER_LEN)?;
    let len = emit_icmp_packet(headers, payload, packet)?;
    Some(emit_link(headers, link) + len)
}

/// The failure of a frame with an ICMP message with a payload of this length; `None` if it can be emitted.
#[cold]
pub fn icmp_frame_failure(headers: &FrameFields, payload_len: usize) -> Option<Failure>
    ensures { result ≡ icmp_frame_failure headers.now payload_len }
{
    let failure = frame_failure(headers, true);
    let most = most_payload(headers.src.addr.version);
    if failure.is_some() {
        failure
    } else if payload_len > most - ICMP_HEADER_LEN {
        Some(Failure::PayloadTooLong)
    } else {
        None
    }
}

// The protocol of ICMP over this version of IP.
fn protocol_number(version: u16) -> u8
    ensures { result ≡ protocol_number version }
{
    if version == 4 { ICMP } else { ICMPV6 }
}
