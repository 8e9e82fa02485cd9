//! Why a call writes nothing: the first test that fails.

ghost use Rattle.std.specs.Prelude.{◌≡◌, ◌≤◌};
ghost use Rattle.c_write.specs.Failures.{arp_failure, frame_failure, has_fields, ip_failure, most_payload, options_failure, pair_failure, rebuild_failure, segment_failure, tcp_failure, tcp_frame_failure, udp_failure, udp_frame_failure};

use crate::packets::is_whole;
use crate::tcp_len::{has_one_control, tcp_header_len};
use c_structs::{Addr, Endpoint, FLOW_LABELS, Failure, FrameFields, Ip, Tcp, TcpOptions};
use ip_wire::{
    ETHERNET_HEADER_LEN, IPV4_MAX_PAYLOAD_LEN, IPV6_MAX_PAYLOAD_LEN, UDP_HEADER_LEN,
    UDP_MAX_PAYLOAD_LEN,
};

/// Why two addresses are not of one version: `NoVersion` or `TwoVersions`. `None`: they are.
#[inline(always)]
pub fn pair_failure(src: &Addr, dst: &Addr) -> Option<Failure>
    ensures { result ≡ pair_failure src.now dst.now }
{
    if !(src.has_version() && dst.has_version()) {
        Some(Failure::NoVersion)
    } else if src.version != dst.version {
        Some(Failure::TwoVersions)
    } else {
        None
    }
}

/// Why no ARP packet has these addresses.
#[inline(always)]
pub fn arp_failure(src: &Addr, dst: &Addr) -> Option<Failure>
    ensures { result ≡ arp_failure src.now dst.now }
{
    if src.version == 4 && dst.version == 4 {
        None
    } else {
        Some(Failure::NoVersion)
    }
}

/// The longest payload that the length field of this version can say.
#[inline(always)]
pub fn most_payload(version: u16) -> usize
    ensures { result ≡ most_payload version }
{
    if version == 4 {
        IPV4_MAX_PAYLOAD_LEN
    } else {
        IPV6_MAX_PAYLOAD_LEN
    }
}

// Whether a header of this version has a place for each field.
#[inline(always)]
fn has_fields(header: &Ip, version: u16) -> bool
    ensures { result ≡ has_fields header.now version }
{
    header.dscp < 64
        && header.ecn < 4
        && if version == 4 {
            header.ident < 1 << 16 && header.fragment_offset % 8 == 0
        } else {
            header.ident == 0
                && header.fragment_offset == 0
                && header.more_fragments == 0
                && header.flow_label < FLOW_LABELS
        }
}

/// Why the header cannot be written before a payload of this length. `None`: it can, if there is room.
#[inline(always)]
pub fn ip_failure(header: &Ip, src: &Addr, dst: &Addr, payload_len: usize) -> Option<Failure>
    ensures { result ≡ ip_failure header.now src.now dst.now payload_len }
{
    let failure = pair_failure(src, dst);
    if failure.is_some() {
        failure
    } else if header.hop_limit == 0 {
        Some(Failure::NoHopLimit)
    } else if !has_fields(header, src.version) {
        Some(Failure::BadField)
    } else if payload_len > most_payload(src.version) {
        Some(Failure::PayloadTooLong)
    } else {
        None
    }
}

/// Why no UDP packet with a payload of this length has these endpoints.
#[inline(always)]
pub fn udp_failure(src: &Endpoint, dst: &Endpoint, payload_len: usize) -> Option<Failure>
    ensures { result ≡ udp_failure src.now dst.now payload_len }
{
    let failure = pair_failure(&src.addr, &dst.addr);
    if failure.is_some() {
        failure
    } else if dst.port == 0 {
        Some(Failure::NoPort)
    } else if payload_len > UDP_MAX_PAYLOAD_LEN {
        Some(Failure::PayloadTooLong)
    } else {
        None
    }
}

/// Why the options do not fit into a header. `None`: they fit.
pub fn options_failure(options: &TcpOptions) -> Option<Failure>
    ensures { result ≡ options_failure options.now }
{
    match tcp_header_len(options) {
        Some(_) => None,
        None => Some(Failure::OptionsTooLong),
    }
}

// Why a header with these options cannot be written before a payload of this length, if both together have
// so many bytes at most.
fn segment_failure(
    header: &Tcp,
    options: &TcpOptions,
    payload_len: usize,
    most: usize,
) -> Option<Failure>
    requires { 60 ≤ most }
    ensures { result ≡ segment_failure header.now options.now payload_len most }
{
    if !has_one_control(header) {
        return Some(Failure::TwoControls);
    }
    match tcp_header_len(options) {
        Some(len) if payload_len <= most - len => None,
        Some(_) => Some(Failure::PayloadTooLong),
        None => Some(Failure::OptionsTooLong),
    }
}

/// Why no segment with a payload of this length has these endpoints.
pub fn tcp_failure(
    header: &Tcp,
    options: &TcpOptions,
    src: &Endpoint,
    dst: &Endpoint,
    payload_len: usize,
) -> Option<Failure>
    ensures { result ≡ tcp_failure header.now options.now src.now dst.now payload_len }
{
    let failure = pair_failure(&src.addr, &dst.addr);
    if failure.is_some() {
        failure
    } else if src.port == 0 || dst.port == 0 {
        Some(Failure::NoPort)
    } else {
        segment_failure(header, options, payload_len, IPV6_MAX_PAYLOAD_LEN)
    }
}

/// The failure of a frame with a packet of any length, by whether its ports are right; `None` if it can be emitted.
pub fn frame_failure(fields: &FrameFields, has_ports: bool) -> Option<Failure>
    ensures { result ≡ frame_failure fields.now has_ports }
{
    let failure = pair_failure(&fields.src.addr, &fields.dst.addr);
    if failure.is_some() {
        failure
    } else if !has_ports {
        Some(Failure::NoPort)
    } else if fields.ip.hop_limit == 0 {
        Some(Failure::NoHopLimit)
    } else if !(has_fields(&fields.ip, fields.src.addr.version) && is_whole(&fields.ip)) {
        Some(Failure::BadField)
    } else {
        None
    }
}

/// The failure of a UDP frame with this payload length; `None` if it can be emitted.
#[cold]
pub fn udp_frame_failure(fields: &FrameFields, payload_len: usize) -> Option<Failure>
    ensures { result ≡ udp_frame_failure fields.now payload_len }
{
    let failure = frame_failure(fields, fields.dst.port != 0);
    let most = most_payload(fields.src.addr.version);
    if failure.is_some() {
        failure
    } else if payload_len > most - UDP_HEADER_LEN {
        Some(Failure::PayloadTooLong)
    } else {
        None
    }
}

/// The failure of a frame with a TCP segment with a payload of this length; `None` if it can be emitted.
#[cold]
pub fn tcp_frame_failure(
    fields: &FrameFields,
    options: &TcpOptions,
    payload_len: usize,
) -> Option<Failure>
    ensures { result ≡ tcp_frame_failure fields.now options.now payload_len }
{
    let failure = frame_failure(fields, fields.src.port != 0 && fields.dst.port != 0);
    if failure.is_some() {
        return failure;
    }
    let most = most_payload(fields.src.addr.version);
    segment_failure(&fields.tcp, options, payload_len, most)
}

/// Why the frame cannot be rebuilt: `NoHeader` below 14 bytes. `None`: it can.
pub fn rebuild_failure(frame: &[u8]) -> Option<Failure>
    ensures { result ≡ rebuild_failure frame.now }
{
    (frame.len() < ETHERNET_HEADER_LEN).then_some(Failure::NoHeader)
}
