//! Whole IP packets with UDP or TCP.

ghost use Rattle.std.specs.Prelude.{◌≡◌, ◌≢◌, ◌≤◌, ◌+◌, ◌++◌, IfSome, drop, length, slice_range, true};
ghost use Rattle.ip_wire.specs.Ip.{dst_addr_of, header_len_of, src_addr_of};
ghost use Rattle.ip_wire.specs.Udp as udp;
ghost use Rattle.c_write.specs.Frames.{ip_header, is_whole, tcp_packet, tcp_packet_around, udp_packet, udp_packet_around};
ghost use Rattle.c_write.specs.Headers.{header_bytes, is_expressible, options_header_len, ports_of, segment_bytes, tcp_value};
ghost use Rattle.c_structs.specs.Written.{Fills};

use crate::ip::{ip_value, write_ip};
use crate::tcp_len::segment_header_len;
use crate::{tcp, udp};
use c_structs::{FrameFields, Ip, TcpOptions};
use ip_wire::{IpRepr, UDP_HEADER_LEN, UDP_MAX_PAYLOAD_LEN, UdpRepr};
use net_base::write_at;

// The protocols of IP.
const TCP: u8 = 6;

const UDP: u8 = 17;

/// Whether the fields say that the packet is whole.
#[inline(always)]
pub(crate) fn is_whole(header: &Ip) -> bool
    ensures { result ≡ is_whole header.now }
{
    header.fragment_offset == 0 && header.more_fragments == 0
}

/// The values of the IP header before a packet of this protocol, with a source of this version.
/// `None` if it cannot be written or says that the packet is a fragment.
#[inline(always)]
pub fn ip_header(fields: &FrameFields, version: u16, protocol: u8, len: usize) -> Option<IpRepr>
    requires { version ≡ fields.now.src.addr.version }
    ensures value { result ≡ ip_header fields.now protocol len }
    ensures len { IfSome result (λ v. length (header_bytes fields.now.ip true v) ≡ header_len_of v) }
{
    let (src, dst) = (&fields.src.addr, &fields.dst.addr);
    let value = ip_value(&fields.ip, version, protocol, src, dst, len)?;
    is_whole(&fields.ip).then_some(value)
}

/// Writes the IP header into `out`.
#[inline(always)]
pub fn emit_ip_header(fields: &FrameFields, ip_header: &IpRepr, out: &mut [u8])
    requires expressible { is_expressible fields.now.ip ip_header.now ≡ true }
    requires room { length out.old ≡ header_len_of ip_header.now }
    ensures { out.new ≡ header_bytes fields.now.ip true ip_header.now }
{
    write_ip(&fields.ip, ip_header, true, out);
}

// Writes the IP header and that of UDP around a payload that is in `out` after them.
#[inline(always)]
fn wrap_udp(fields: &FrameFields, ip_header: &IpRepr, payload_len: usize, out: &mut [u8])
    requires expressible { is_expressible fields.now.ip ip_header.now ≡ true }
    requires payload_len { payload_len ≤ udp.max_payload_len }
    requires room { header_len_of ip_header.now + 8 + payload_len ≤ length out.old }
    ensures { let v = ip_header.now in let first = header_len_of v + 8 in
        let payload = slice_range out.old first (first + payload_len) in
        out.new ≡ header_bytes fields.now.ip true v
        ++ udp.bytes_of (ports_of fields.now.src fields.now.dst) payload (src_addr_of v) (dst_addr_of v) true
        ++ drop (first + payload_len) out.old }
{
    let (header, packet) = out.split_at_mut(ip_header.header_len());
    emit_ip_header(fields, ip_header, header);
    let ports = UdpRepr {
        src_port: fields.src.port,
        dst_port: fields.dst.port,
    };
    let (src_addr, dst_addr) = (ip_header.src_addr(), ip_header.dst_addr());
    udp::wrap(ports, src_addr, dst_addr, payload_len, packet);
}

// Writes the IP header and a UDP packet.
#[inline(always)]
fn write_udp(fields: &FrameFields, ip_header: &IpRepr, payload: &[u8], out: &mut [u8])
    requires expressible { is_expressible fields.now.ip ip_header.now ≡ true }
    requires payload_len { length payload.now ≤ udp.max_payload_len }
    requires room { header_len_of ip_header.now + 8 + length payload.now ≤ length out.old }
    ensures { let v = ip_header.now in let end = header_len_of v + 8 + length payload.now in
        out.new ≡ header_bytes fields.now.ip true v
        ++ udp.bytes_of (ports_of fields.now.src fields.now.dst) payload.now (src_addr_of v) (dst_addr_of v) true
        ++ drop end out.old }
{
    let (header, packet) = out.split_at_mut(ip_header.header_len());
    emit_ip_header(fields, ip_header, header);
    let ports = UdpRepr {
        src_port: fields.src.port,
        dst_port: fields.dst.port,
    };
    let (src_addr, dst_addr) = (ip_header.src_addr(), ip_header.dst_addr());
    udp::write(ports, src_addr, dst_addr, payload, packet);
}

// Writes the IP header and that of TCP around a payload that is in `out` after them.
#[inline(always)]
fn wrap_tcp(
    fields: &FrameFields,
    ip_header: &IpRepr,
    options: &TcpOptions,
    header_len: usize,
    payload_len: usize,
    out: &mut [u8],
)
    requires expressible { is_expressible fields.now.ip ip_header.now ≡ true }
    requires few { options.now.sack_range_count ≤ length options.now.sack_ranges }
    requires value { header_len ≡ options_header_len options.now }
    requires most { header_len ≤ 60 }
    requires room { header_len_of ip_header.now + header_len + payload_len ≤ length out.old }
    ensures { let v = ip_header.now in let u = tcp_value fields.now.tcp options.now fields.now.src.port fields.now.dst.port in
        let first = header_len_of v + header_len in
        let payload = slice_range out.old first (first + payload_len) in
        out.new ≡ header_bytes fields.now.ip true v
        ++ segment_bytes fields.now.tcp u payload (src_addr_of v) (dst_addr_of v) true
        ++ drop (first + payload_len) out.old }
{
    let (header, packet) = out.split_at_mut(ip_header.header_len());
    emit_ip_header(fields, ip_header, header);
    let ports = (fields.src.port, fields.dst.port);
    let (src_addr, dst_addr) = (ip_header.src_addr(), ip_header.dst_addr());
    tcp::wrap_segment(
        &fields.tcp,
        options,
        ports,
        src_addr,
        dst_addr,
        header_len,
        payload_len,
        true,
        packet,
    );
}

/// Writes an IP packet with UDP and this payload, and returns its length. `None` if there is a failure or no
/// room; then `out` is unchanged.
#[inline(always)]
pub fn emit_udp_packet(fields: &FrameFields, payload: &[u8], out: &mut [u8]) -> Option<usize>
    ensures { Fills (udp_packet fields.now payload.now) out.old out.new result }
{
    if fields.dst.port == 0 {
        return None;
    }
    match fields.src.addr.version {
        4 => emit_udp_from(fields, 4, payload, out),
        version => emit_udp_from(fields, version, payload, out),
    }
}

// The same with a source of this version.
#[inline(always)]
fn emit_udp_from(
    fields: &FrameFields,
    version: u16,
    payload: &[u8],
    out: &mut [u8],
) -> Option<usize>
    requires version { version ≡ fields.now.src.addr.version }
    requires dst_port { fields.now.dst.port ≢ 0 }
    ensures { Fills (udp_packet fields.now payload.now) out.old out.new result }
{
    if payload.len() > UDP_MAX_PAYLOAD_LEN {
        return None;
    }
    let ip_header = ip_header(fields, version, UDP, UDP_HEADER_LEN + payload.len())?;
    let start = ip_header.header_len() + UDP_HEADER_LEN;
    let end = start + payload.len();
    if out.len() < end {
        return None;
    }
    write_udp(fields, &ip_header, payload, out);
    Some(end)
}

/// Writes an IP packet with UDP around the payload in `out`, and returns its length. `None` if there is a failure
/// or no room; then `out` is unchanged.
#[inline(always)]
pub fn wrap_udp_packet(fields: &FrameFields, payload_len: usize, out: &mut [u8]) -> Option<usize>
    ensures { Fills (udp_packet_around fields.now payload_len out.old) out.old out.new result }
{
    if fields.dst.port == 0 {
        return None;
    }
    match fields.src.addr.version {
        4 => wrap_udp_from(fields, 4, payload_len, out),
        version => wrap_udp_from(fields, version, payload_len, out),
    }
}

// The same with a source of this version.
#[inline(always)]
fn wrap_udp_from(
    fields: &FrameFields,
    version: u16,
    payload_len: usize,
    out: &mut [u8],
) -> Option<usize>
    requires version { version ≡ fields.now.src.addr.version }
    requires dst_port { fields.now.dst.port ≢ 0 }
    ensures { Fills (udp_packet_around fields.now payload_len out.old) out.old out.new result }
{
    if payload_len > UDP_MAX_PAYLOAD_LEN {
        return None;
    }
    let ip_header = ip_header(fields, version, UDP, UDP_HEADER_LEN + payload_len)?;
    let end = ip_header.header_len() + UDP_HEADER_LEN + payload_len;
    if out.len() < end {
        return None;
    }
    wrap_udp(fields, &ip_header, payload_len, out);
    Some(end)
}

/// Writes an IP packet with TCP and this payload, and returns its length. `None` if there is a failure or no
/// room; then `out` is unchanged.
#[inline(always)]
pub fn emit_tcp_packet(
    fields: &FrameFields,
    options: &TcpOptions,
    payload: &[u8],
    out: &mut [u8],
) -> Option<usize>
    ensures { Fills (tcp_packet fields.now options.now payload.now) out.old out.new result }
{
    if fields.src.port == 0 || fields.dst.port == 0 {
        return None;
    }
    match fields.src.addr.version {
        4 => emit_tcp_from(fields, 4, options, payload, out),
        version => emit_tcp_from(fields, version, options, payload, out),
    }
}

// The same with a source of this version.
#[inline(always)]
fn emit_tcp_from(
    fields: &FrameFields,
    version: u16,
    options: &TcpOptions,
    payload: &[u8],
    out: &mut [u8],
) -> Option<usize>
    requires version { version ≡ fields.now.src.addr.version }
    requires src_port { fields.now.src.port ≢ 0 }
    requires dst_port { fields.now.dst.port ≢ 0 }
    ensures { Fills (tcp_packet fields.now options.now payload.now) out.old out.new result }
{
    let header_len = segment_header_len(&fields.tcp, options, payload.len())?;
    let ip_header = ip_header(fields, version, TCP, header_len + payload.len())?;
    let start = ip_header.header_len() + header_len;
    let end = start + payload.len();
    if out.len() < end {
        return None;
    }
    write_at(out, start, payload);
    wrap_tcp(fields, &ip_header, options, header_len, payload.len(), out);
    Some(end)
}

/// Writes an IP packet with TCP around the payload in `out`, and returns its length. `None` if there is a
/// failure or no room; then `out` is unchanged.
#[inline(always)]
pub fn wrap_tcp_packet(
    fields: &FrameFields,
    options: &TcpOptions,
    payload_len: usize,
    out: &mut [u8],
) -> Option<usize>
    ensures { Fills (tcp_packet_around fields.now options.now payload_len out.old) out.old out.new result }
{
    if fields.src.port == 0 || fields.dst.port == 0 {
        return None;
    }
    match fields.src.addr.version {
        4 => wrap_tcp_from(fields, 4, options, payload_len, out),
        version => wrap_tcp_from(fields, version, options, payload_len, out),
    }
}

// The same with a source of this version.
#[inline(always)]
fn wrap_tcp_from(
    fields: &FrameFields,
    version: u16,
    options: &TcpOptions,
    payload_len: usize,
    out: &mut [u8],
) -> Option<usize>
    requires version { version ≡ fields.now.src.addr.version }
    requires src_port { fields.now.src.port ≢ 0 }
    requires dst_port { fields.now.dst.port ≢ 0 }
    ensures { Fills (tcp_packet_around fields.now options.now payload_len out.old) out.old out.new result }
{
    let header_len = segment_header_len(&fields.tcp, options, payload_len)?;
    let ip_header = ip_header(fields, version, TCP, header_len + payload_len)?;
    let end = ip_header.header_len() + header_len + payload_len;
    if out.len() < end {
        return None;
    }
    wrap_tcp(fields, &ip_header, options, header_len, payload_len, out);
    Some(end)
}
