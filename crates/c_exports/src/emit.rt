//! The layers of a frame, one by one.
#![tactic(auto, using(crate::proofs::Written::all, crate::proofs::Written::none, crate::proofs::Written::too_long))]

ghost use Rattle.std.specs.Prelude.{◌≡◌, None, Some, length, pos};
ghost use Rattle.std.specs.Option.{option_map_or};
ghost use Rattle.c_write.specs.Failures.{arp_failure, ip_failure, options_failure, tcp_failure, udp_failure};
ghost use Rattle.c_write.specs.Headers.{arp_bytes, ip_bytes, link_bytes, tcp_bytes, tcp_header_len, udp_bytes};
ghost use Rattle.c_structs.specs.Written.{Writes, failed_by, is_set};

use c_structs::{Addr, Arp, Endpoint, Ethernet, Ip, MAX_LEN, Tcp, TcpOptions, failed, is_set};
use c_write::{
    arp_failure, emit_arp, emit_ethernet, emit_ip, emit_tcp, emit_udp, ip_failure, options_failure,
    tcp_failure, tcp_header_len, udp_failure,
};

/// Writes an Ethernet header. Returns its length, or a failure; then `out` is unchanged.
#[unsafe(no_mangle)]
pub extern "C" fn lk_emit_ethernet(header: &Ethernet, out: &mut [u8]) -> isize
    ensures { Writes (Some (link_bytes header.now header.now.ethertype)) None out.old out.new result }
{
    if out.len() <= MAX_LEN
        && let Some(len) = emit_ethernet(header, out)
    {
        len as isize
    } else {
        failed(None)
    }
}

/// Writes an ARP packet. Returns its length, or a failure; then `out` is unchanged.
#[unsafe(no_mangle)]
pub extern "C" fn lk_emit_arp(header: &Arp, src: &Addr, dst: &Addr, out: &mut [u8]) -> isize
    ensures { Writes (arp_bytes header.now src.now dst.now) (arp_failure src.now dst.now) out.old out.new result }
{
    if out.len() <= MAX_LEN
        && let Some(len) = emit_arp(header, src, dst, out)
    {
        len as isize
    } else {
        failed(arp_failure(src, dst))
    }
}

/// Writes an IPv4 or IPv6 header. Returns its length, or a failure; then `out` is unchanged.
#[unsafe(no_mangle)]
pub extern "C" fn lk_emit_ip(
    header: &Ip,
    src: &Addr,
    dst: &Addr,
    payload_len: usize,
    computed: i32,
    out: &mut [u8],
) -> isize
    ensures { Writes (ip_bytes header.now src.now dst.now payload_len (is_set computed)) (ip_failure header.now src.now dst.now payload_len) out.old out.new result }
{
    if out.len() <= MAX_LEN
        && let Some(len) = emit_ip(header, src, dst, payload_len, is_set(computed), out)
    {
        len as isize
    } else {
        failed(ip_failure(header, src, dst, payload_len))
    }
}

/// Writes a UDP header and its payload. Returns its length, or a failure; then `out` is unchanged.
#[unsafe(no_mangle)]
pub extern "C" fn lk_emit_udp(
    src: &Endpoint,
    dst: &Endpoint,
    payload: &[u8],
    computed: i32,
    out: &mut [u8],
) -> isize
    ensures { Writes (udp_bytes src.now dst.now payload.now (is_set computed)) (udp_failure src.now dst.now (length payload.now)) out.old out.new result }
{
    if out.len() <= MAX_LEN
        && let Some(len) = emit_udp(src, dst, payload, is_set(computed), out)
    {
        len as isize
    } else {
        failed(udp_failure(src, dst, payload.len()))
    }
}

/// Writes a TCP header with its options and its payload. Returns its length, or a failure; then `out` is unchanged.
#[unsafe(no_mangle)]
pub extern "C" fn lk_emit_tcp(
    header: &Tcp,
    options: &TcpOptions,
    src: &Endpoint,
    dst: &Endpoint,
    payload: &[u8],
    computed: i32,
    out: &mut [u8],
) -> isize
    ensures { Writes (tcp_bytes header.now options.now src.now dst.now payload.now (is_set computed))
        (tcp_failure header.now options.now src.now dst.now (length payload.now)) out.old out.new result }
{
    if out.len() <= MAX_LEN
        && let Some(len) = emit_tcp(header, options, src, dst, payload, is_set(computed), out)
    {
        len as isize
    } else {
        failed(tcp_failure(header, options, src, dst, payload.len()))
    }
}

/// The length of a TCP header with these options. Fails if they do not fit.
#[unsafe(no_mangle)]
pub extern "C" fn lk_tcp_header_len(options: &TcpOptions) -> isize
    ensures { result ≡ option_map_or pos (tcp_header_len options.now) (failed_by (options_failure options.now)) }
{
    match tcp_header_len(options) {
        Some(len) => len as isize,
        None => failed(options_failure(options)),
    }
}
