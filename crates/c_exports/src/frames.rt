//! Whole frames and packets.
#![tactic(auto, using(crate::proofs::Written::all, crate::proofs::Written::none, crate::proofs::Written::too_long))]

ghost use Rattle.std.specs.Prelude.{◌≡◌, length};
ghost use Rattle.c_write.specs.Failures.{arp_failure, tcp_frame_failure, udp_frame_failure};
ghost use Rattle.c_write.specs.Frames.{arp_frame, reply_to, tcp_frame, tcp_frame_around, tcp_packet, tcp_packet_around, udp_frame, udp_frame_around, udp_packet, udp_packet_around};
ghost use Rattle.c_structs.specs.Written.{Writes};

use c_structs::{FrameFields, MAX_LEN, TcpOptions, failed};
use c_write::{
    arp_failure, emit_arp_frame, emit_tcp_frame, emit_tcp_packet, emit_udp_frame, emit_udp_packet,
    tcp_frame_failure, turn_around, udp_frame_failure, wrap_tcp_frame, wrap_tcp_packet,
    wrap_udp_frame, wrap_udp_packet,
};

/// Turns a frame that was read into its reply.
#[unsafe(no_mangle)]
pub extern "C" fn lk_make_reply(frame: &mut FrameFields)
    ensures { frame.new ≡ reply_to frame.old }
{
    turn_around(frame);
}

/// Writes a whole frame with a UDP packet and this payload. Returns its length, or a failure; then `out` is
/// unchanged.
#[unsafe(no_mangle)]
pub extern "C" fn lk_emit_udp_frame(headers: &FrameFields, payload: &[u8], out: &mut [u8]) -> isize
    ensures { Writes (udp_frame headers.now payload.now) (udp_frame_failure headers.now (length payload.now)) out.old out.new result }
{
    if out.len() <= MAX_LEN
        && let Some(len) = emit_udp_frame(headers, payload, out)
    {
        len as isize
    } else {
        failed(udp_frame_failure(headers, payload.len()))
    }
}

/// Writes a whole frame with a TCP segment and this payload. Returns its length, or a failure; then `out` is
/// unchanged.
#[unsafe(no_mangle)]
pub extern "C" fn lk_emit_tcp_frame(
    headers: &FrameFields,
    options: &TcpOptions,
    payload: &[u8],
    out: &mut [u8],
) -> isize
    ensures { Writes (tcp_frame headers.now options.now payload.now) (tcp_frame_failure headers.now options.now (length payload.now)) out.old out.new result }
{
    if out.len() <= MAX_LEN
        && let Some(len) = emit_tcp_frame(headers, options, payload, out)
    {
        len as isize
    } else {
        failed(tcp_frame_failure(headers, options, payload.len()))
    }
}

/// Writes a frame with a UDP packet around a payload that is in `out` already. Returns its length, or a failure; then
/// `out` is unchanged.
#[unsafe(no_mangle)]
pub extern "C" fn lk_wrap_udp_frame(
    headers: &FrameFields,
    payload_len: usize,
    out: &mut [u8],
) -> isize
    ensures { Writes (udp_frame_around headers.now payload_len out.old) (udp_frame_failure headers.now payload_len) out.old out.new result }
{
    if out.len() <= MAX_LEN
        && let Some(len) = wrap_udp_frame(headers, payload_len, out)
    {
        len as isize
    } else {
        failed(udp_frame_failure(headers, payload_len))
    }
}

/// Writes a frame with a TCP segment around a payload that is in `out` already. Returns its length, or a failure;
/// then `out` is unchanged.
#[unsafe(no_mangle)]
pub extern "C" fn lk_wrap_tcp_frame(
    headers: &FrameFields,
    options: &TcpOptions,
    payload_len: usize,
    out: &mut [u8],
) -> isize
    ensures { Writes (tcp_frame_around headers.now options.now payload_len out.old) (tcp_frame_failure headers.now options.now payload_len) out.old out.new result }
{
    if out.len() <= MAX_LEN
        && let Some(len) = wrap_tcp_frame(headers, options, payload_len, out)
    {
        len as isize
    } else {
        failed(tcp_frame_failure(headers, options, payload_len))
    }
}

/// Writes a whole frame with an ARP packet. Returns its length, or a failure; then `out` is unchanged.
#[unsafe(no_mangle)]
pub extern "C" fn lk_emit_arp_frame(headers: &FrameFields, out: &mut [u8]) -> isize
    ensures { Writes (arp_frame headers.now) (arp_failure headers.now.src.addr headers.now.dst.addr) out.old out.new result }
{
    if out.len() <= MAX_LEN
        && let Some(len) = emit_arp_frame(headers, out)
    {
        len as isize
    } else {
        failed(arp_failure(&headers.src.addr, &headers.dst.addr))
    }
}

/// Writes an IP packet with UDP and this payload. Returns its length, or a failure; then `out` is
/// unchanged.
#[unsafe(no_mangle)]
pub extern "C" fn lk_emit_udp_packet(headers: &FrameFields, payload: &[u8], out: &mut [u8]) -> isize
    ensures { Writes (udp_packet headers.now payload.now) (udp_frame_failure headers.now (length payload.now)) out.old out.new result }
{
    if out.len() <= MAX_LEN
        && let Some(len) = emit_udp_packet(headers, payload, out)
    {
        len as isize
    } else {
        failed(udp_frame_failure(headers, payload.len()))
    }
}

/// Writes an IP packet with TCP and this payload. Returns its length, or a failure; then `out` is
/// unchanged.
#[unsafe(no_mangle)]
pub extern "C" fn lk_emit_tcp_packet(
    headers: &FrameFields,
    options: &TcpOptions,
    payload: &[u8],
    out: &mut [u8],
) -> isize
    ensures { Writes (tcp_packet headers.now options.now payload.now) (tcp_frame_failure headers.now options.now (length payload.now)) out.old out.new result }
{
    if out.len() <= MAX_LEN
        && let Some(len) = emit_tcp_packet(headers, options, payload, out)
    {
        len as isize
    } else {
        failed(tcp_frame_failure(headers, options, payload.len()))
    }
}

/// Writes an IP packet with UDP around a payload that is in `out` already. Returns its length, or a failure; then
/// `out` is unchanged.
#[unsafe(no_mangle)]
pub extern "C" fn lk_wrap_udp_packet(
    headers: &FrameFields,
    payload_len: usize,
    out: &mut [u8],
) -> isize
    ensures { Writes (udp_packet_around headers.now payload_len out.old) (udp_frame_failure headers.now payload_len) out.old out.new result }
{
    if out.len() <= MAX_LEN
        && let Some(len) = wrap_udp_packet(headers, payload_len, out)
    {
        len as isize
    } else {
        failed(udp_frame_failure(headers, payload_len))
    }
}

/// Writes an IP packet with TCP around a payload that is in `out` already. Returns its length, or a failure;
/// then `out` is unchanged.
#[unsafe(no_mangle)]
pub extern "C" fn lk_wrap_tcp_packet(
    headers: &FrameFields,
    options: &TcpOptions,
    payload_len: usize,
    out: &mut [u8],
) -> isize
    ensures { Writes (tcp_packet_around headers.now options.now payload_len out.old) (tcp_frame_failure headers.now options.now payload_len) out.old out.new result }
{
    if out.len() <= MAX_LEN
        && let Some(len) = wrap_tcp_packet(headers, options, payload_len, out)
    {
        len as isize
    } else {
        failed(tcp_frame_failure(headers, options, payload_len))
    }
}
