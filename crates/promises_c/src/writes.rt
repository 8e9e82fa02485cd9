//! Two of the calls that write bytes, by `Writes` and by `Edits`. The contracts of the others have the same words.
//! And packets beside frames.

ghost use Rattle.std.specs.Prelude.{◌≡◌, ◌≤◌, ◌+◌, drop, length, negsuc, pos, ℕ};
ghost use Rattle.c_structs.specs.Written.{max_len};

use c_exports::edits::lk_set_port_as;
use c_exports::emit::lk_emit_ip;
use c_exports::frames::{
    lk_emit_tcp_frame, lk_emit_tcp_packet, lk_emit_udp_frame, lk_emit_udp_packet,
    lk_wrap_tcp_frame, lk_wrap_tcp_packet, lk_wrap_udp_frame, lk_wrap_udp_packet,
};
use c_exports::icmp::{lk_emit_icmp_frame, lk_emit_icmp_packet};
use c_structs::{Addr, FrameFields, Ip, TcpOptions};

/// An IP header has one form.
#[tactic(auto, using(crate::proofs::Once::writes_result, crate::proofs::Once::writes_bytes))]
pub fn emit_ip_once(
    header: &Ip,
    src: &Addr,
    dst: &Addr,
    payload_len: usize,
    computed: i32,
    out: &mut [u8],
    other: &mut [u8],
) -> (isize, isize)
    requires { out.old ≡ other.old }
    ensures returned { result.0 ≡ result.1 }
    ensures written { out.new ≡ other.new }
{
    (
        lk_emit_ip(header, src, dst, payload_len, computed, out),
        lk_emit_ip(header, src, dst, payload_len, computed, other),
    )
}

/// A port is written in one way, as the caller says, or not at all.
pub fn set_port_as_once(
    frame: &mut [u8],
    other: &mut [u8],
    side: i32,
    port: u16,
    offload: i32,
) -> (i32, i32)
    requires { frame.old ≡ other.old }
    ensures returned { result.0 ≡ result.1 }
    ensures written { frame.new ≡ other.new }
{
    (
        lk_set_port_as(frame, side, port, offload),
        lk_set_port_as(other, side, port, offload),
    )
}

/// An IP packet with UDP is what the call for frames writes after its Ethernet header, and fails as that call does.
pub fn udp_packet_in_frame(
    headers: &FrameFields,
    payload: &[u8],
    packet: &mut [u8],
    frame: &mut [u8],
) -> (isize, isize)
    requires room { length frame.old ≡ 14 + length packet.old }
    requires most { length frame.old ≤ max_len }
    requires rest { drop 14 frame.old ≡ packet.old }
    ensures written { drop 14 frame.new ≡ packet.new }
    ensures returned { (n : ℕ) → result.0 ≡ pos n → result.1 ≡ pos (14 + n) }
    ensures failed { (n : ℕ) → result.0 ≡ negsuc n → result.1 ≡ negsuc n }
{
    // Once they are read, the checker knows how long they are.
    let _hardware = (headers.ethernet.src[0], headers.ethernet.dst[0]);
    (
        lk_emit_udp_packet(headers, payload, packet),
        lk_emit_udp_frame(headers, payload, frame),
    )
}

/// An IP packet with TCP is what the call for frames writes after its Ethernet header, and fails as that call does.
pub fn tcp_packet_in_frame(
    headers: &FrameFields,
    options: &TcpOptions,
    payload: &[u8],
    packet: &mut [u8],
    frame: &mut [u8],
) -> (isize, isize)
    requires room { length frame.old ≡ 14 + length packet.old }
    requires most { length frame.old ≤ max_len }
    requires rest { drop 14 frame.old ≡ packet.old }
    ensures written { drop 14 frame.new ≡ packet.new }
    ensures returned { (n : ℕ) → result.0 ≡ pos n → result.1 ≡ pos (14 + n) }
    ensures failed { (n : ℕ) → result.0 ≡ negsuc n → result.1 ≡ negsuc n }
{
    // Once they are read, the checker knows how long they are.
    let _hardware = (headers.ethernet.src[0], headers.ethernet.dst[0]);
    (
        lk_emit_tcp_packet(headers, options, payload, packet),
        lk_emit_tcp_frame(headers, options, payload, frame),
    )
}

/// An IP packet with ICMP is what the call for frames writes after its Ethernet header, and fails as that call does.
pub fn icmp_packet_in_frame(
    headers: &FrameFields,
    payload: &[u8],
    packet: &mut [u8],
    frame: &mut [u8],
) -> (isize, isize)
    requires room { length frame.old ≡ 14 + length packet.old }
    requires most { length frame.old ≤ max_len }
    requires rest { drop 14 frame.old ≡ packet.old }
    ensures written { drop 14 frame.new ≡ packet.new }
    ensures returned { (n : ℕ) → result.0 ≡ pos n → result.1 ≡ pos (14 + n) }
    ensures failed { (n : ℕ) → result.0 ≡ negsuc n → result.1 ≡ negsuc n }
{
    // Once they are read, the checker knows how long they are.
    let _hardware = (headers.ethernet.src[0], headers.ethernet.dst[0]);
    (
        lk_emit_icmp_packet(headers, payload, packet),
        lk_emit_icmp_frame(headers, payload, frame),
    )
}

/// An IP packet around a UDP payload is what the call for frames writes after its Ethernet header, and fails as that call does.
pub fn udp_around_in_frame(
    headers: &FrameFields,
    payload_len: usize,
    packet: &mut [u8],
    frame: &mut [u8],
) -> (isize, isize)
    requires room { length frame.old ≡ 14 + length packet.old }
    requires most { length frame.old ≤ max_len }
    requires rest { drop 14 frame.old ≡ packet.old }
    ensures written { drop 14 frame.new ≡ packet.new }
    ensures returned { (n : ℕ) → result.0 ≡ pos n → result.1 ≡ pos (14 + n) }
    ensures failed { (n : ℕ) → result.0 ≡ negsuc n → result.1 ≡ negsuc n }
{
    // Once they are read, the checker knows how long they are.
    let _hardware = (headers.ethernet.src[0], headers.ethernet.dst[0]);
    (
        lk_wrap_udp_packet(headers, payload_len, packet),
        lk_wrap_udp_frame(headers, payload_len, frame),
    )
}

/// An IP packet around a TCP payload is what the call for frames writes after its Ethernet header, and fails as that call does.
pub fn tcp_around_in_frame(
    headers: &FrameFields,
    options: &TcpOptions,
    payload_len: usize,
    packet: &mut [u8],
    frame: &mut [u8],
) -> (isize, isize)
    requires room { length frame.old ≡ 14 + length packet.old }
    requires most { length frame.old ≤ max_len }
    requires rest { drop 14 frame.old ≡ packet.old }
    ensures written { drop 14 frame.new ≡ packet.new }
    ensures returned { (n : ℕ) → result.0 ≡ pos n → result.1 ≡ pos (14 + n) }
    ensures failed { (n : ℕ) → result.0 ≡ negsuc n → result.1 ≡ negsuc n }
{
    // Once they are read, the checker knows how long they are.
    let _hardware = (headers.ethernet.src[0], headers.ethernet.dst[0]);
    (
        lk_wrap_tcp_packet(headers, options, payload_len, packet),
        lk_wrap_tcp_frame(headers, options, payload_len, frame),
    )
}
