//! Calls that read frames.

ghost use Rattle.std.specs.Prelude.{List, ℕ, ◌++◌, ◌≡◌, ◌≤◌, ◌+◌, ◌-◌, length, negsuc, pos, take};
ghost use Rattle.std.specs.Ordering.{int_eq};
ghost use Rattle.c_read.specs.Captured.{IsCutOf, captured_of, captured_packet_of};
ghost use Rattle.c_read.specs.FrameFields.{fields_of, packet_fields_of};
ghost use Rattle.c_read.specs.FrameOptions.{HasOptions};
ghost use Rattle.c_read.specs.Ipv6Steps as ipv6_steps;
ghost use Rattle.c_read.specs.TcpOptions.{ReadsItems, tcp_options_of};
ghost use Rattle.c_read.specs.TcpSteps.{step};
ghost use Rattle.c_structs.specs.Written.{IsRead, flag, max_len, usable, within};

use c_read::{
    next_ipv6_header, next_tcp_option, read_frame, read_frame_options, read_packet,
    read_tcp_options,
};
use c_structs::{FrameFields, Ipv6HeaderPlace, TcpOptionPlace, TcpOptions, usable, within};

const VERSION_MAJOR: u32 = 0;

const VERSION_MINOR: u32 = 5;

const VERSION_PATCH: u32 = 0;

/// The version of the library: major * 65536 + minor * 256 + patch.
#[unsafe(no_mangle)]
pub extern "C" fn lk_version() -> u32
    ensures { result ≡ 1280 }
{
    VERSION_MAJOR * 65536 + VERSION_MINOR * 256 + VERSION_PATCH
}

/// Parses an Ethernet frame, stores its values, and returns 0 or why a header was rejected. A wrong
/// checksum is no reason to reject.
#[unsafe(no_mangle)]
pub extern "C" fn lk_read_frame(bytes: &[u8], frame: &mut FrameFields) -> i32
    ensures fields { frame.new ≡ fields_of (within bytes.now) }
    ensures within { frame.new.payload_offset + frame.new.payload_len ≤ length bytes.now }
    ensures captured { frame.new.payload_captured ≡ frame.new.payload_len }
    ensures reason { result ≡ pos (fields_of (within bytes.now)).reason }
{
    read_frame(frame, within(bytes));
    i32::from(frame.reason)
}

/// Parses an IP packet without an Ethernet header, by the version in its first byte, as `lk_read_frame`
/// does.
#[unsafe(no_mangle)]
pub extern "C" fn lk_read_packet(bytes: &[u8], frame: &mut FrameFields) -> i32
    ensures fields { frame.new ≡ packet_fields_of (within bytes.now) }
    ensures within { frame.new.payload_offset + frame.new.payload_len ≤ length bytes.now }
    ensures captured { frame.new.payload_captured ≡ frame.new.payload_len }
    ensures reason { result ≡ pos (packet_fields_of (within bytes.now)).reason }
{
    read_packet(frame, within(bytes));
    i32::from(frame.reason)
}

/// Parses the first bytes of an Ethernet frame of `len` bytes, as `lk_read_frame` does, and stores all
/// headers that are there. Lengths in headers are compared with `len`. A header that was not captured as a
/// whole is rejected. If more bytes than `len` were captured, only the first `len` count.
#[unsafe(no_mangle)]
pub extern "C" fn lk_read_captured(captured: &[u8], len: usize, frame: &mut FrameFields) -> i32
    ensures fields { let bytes = within captured.now in frame.new ≡ captured_of (take (usable len) bytes) (usable len - length bytes) }
    ensures whole { let bytes = within captured.now in usable len ≤ length bytes → frame.new ≡ fields_of (take (usable len) bytes) }
    ensures cut { let bytes = within captured.now in
        (rest : List ℕ) → length bytes + length rest ≡ usable len → IsCutOf (length bytes) frame.new (fields_of (bytes ++ rest)) }
    ensures within { frame.new.payload_offset + frame.new.payload_len ≤ len }
    ensures reason { result ≡ pos frame.new.reason }
{
    read_captured(within(captured), usable(len), frame)
}

/// Parses the first bytes of an IP packet of `len` bytes without an Ethernet header, as `lk_read_captured` does of a
/// frame.
#[unsafe(no_mangle)]
pub extern "C" fn lk_read_captured_packet(
    captured: &[u8],
    len: usize,
    frame: &mut FrameFields,
) -> i32
    ensures fields { let bytes = within captured.now in frame.new ≡ captured_packet_of (take (usable len) bytes) (usable len - length bytes) }
    ensures whole { let bytes = within captured.now in usable len ≤ length bytes → frame.new ≡ packet_fields_of (take (usable len) bytes) }
    ensures cut { let bytes = within captured.now in
        (rest : List ℕ) → length bytes + length rest ≡ usable len → IsCutOf (length bytes) frame.new (packet_fields_of (bytes ++ rest)) }
    ensures within { frame.new.payload_offset + frame.new.payload_len ≤ len }
    ensures reason { result ≡ pos frame.new.reason }
{
    read_captured_packet(within(captured), usable(len), frame)
}

// The same for a length that can be used.
#[inline(always)]
fn read_captured(captured: &[u8], len: usize, frame: &mut FrameFields) -> i32
    requires { length captured.now ≤ max_len }
    ensures fields { frame.new ≡ captured_of (take len captured.now) (len - length captured.now) }
    ensures whole { len ≤ length captured.now → frame.new ≡ fields_of (take len captured.now) }
    ensures cut { (rest : List ℕ) → length captured.now + length rest ≡ len → IsCutOf (length captured.now) frame.new (fields_of (captured.now ++ rest)) }
    ensures within { frame.new.payload_offset + frame.new.payload_len ≤ len }
    ensures reason { result ≡ pos frame.new.reason }
{
    if len <= captured.len() {
        return lk_read_frame(&captured[..len], frame);
    }
    c_read::read_captured(frame, captured, len);
    i32::from(frame.reason)
}

// The same for a length that can be used.
#[inline(always)]
fn read_captured_packet(captured: &[u8], len: usize, frame: &mut FrameFields) -> i32
    requires { length captured.now ≤ max_len }
    ensures fields { frame.new ≡ captured_packet_of (take len captured.now) (len - length captured.now) }
    ensures whole { len ≤ length captured.now → frame.new ≡ packet_fields_of (take len captured.now) }
    ensures cut { (rest : List ℕ) → length captured.now + length rest ≡ len → IsCutOf (length captured.now) frame.new (packet_fields_of (captured.now ++ rest)) }
    ensures within { frame.new.payload_offset + frame.new.payload_len ≤ len }
    ensures reason { result ≡ pos frame.new.reason }
{
    if len <= captured.len() {
        return lk_read_packet(&captured[..len], frame);
    }
    c_read::read_captured_packet(frame, captured, len);
    i32::from(frame.reason)
}

/// Stores the options of a TCP header and returns 1. Returns 0 and stores nothing if its lengths are
/// wrong, or if an option before the end mark is malformed.
#[unsafe(no_mangle)]
pub extern "C" fn lk_find_tcp_options(header: &[u8], options: &mut TcpOptions) -> i32
    ensures { IsRead ReadsItems tcp_options_of (within header.now) options.old options.new result }
{
    if read_tcp_options(options, within(header)) {
        1
    } else {
        0
    }
}

/// Parses an Ethernet frame as `lk_read_frame` does. Stores the options of the TCP header too, or zeros if none was read.
#[unsafe(no_mangle)]
pub extern "C" fn lk_read_frame_options(
    bytes: &[u8],
    frame: &mut FrameFields,
    options: &mut TcpOptions,
) -> i32
    ensures fields { frame.new ≡ fields_of (within bytes.now) }
    ensures options { HasOptions frame.new (within bytes.now) options.new }
    ensures within { frame.new.payload_offset + frame.new.payload_len ≤ length bytes.now }
    ensures captured { frame.new.payload_captured ≡ frame.new.payload_len }
    ensures reason { result ≡ pos (fields_of (within bytes.now)).reason }
{
    let reason = lk_read_frame(bytes, frame);
    read_frame_options(options, frame, bytes);
    reason
}

/// `struct lk_tcp_option`: where an option of a TCP header is, and whether the next one is malformed.
#[repr(C)]
#[derive(Clone, Copy)]
pub struct TcpOptionStep {
    pub place: TcpOptionPlace,
    /// 1: the next option is malformed.
    pub is_malformed: u8,
}

/// Steps to the next option of a TCP header, and returns 1. Returns 0 if there is none, or if it is malformed or the
/// lengths of the header are wrong. Then the place stays.
#[unsafe(no_mangle)]
pub extern "C" fn lk_next_tcp_option(header: &[u8], option: &mut TcpOptionStep) -> i32
    ensures returned { result ≡ pos (flag (int_eq (step (within header.now) option.old.place).0 (pos 1))) }
    ensures stored { option.new.place ≡ (step (within header.now) option.old.place).1 }
    ensures malformed { option.new.is_malformed ≡ flag (int_eq (step (within header.now) option.old.place).0 (negsuc 0)) }
{
    let found = next_tcp_option(&mut option.place, within(header));
    option.is_malformed = u8::from(found == -1);
    i32::from(found == 1)
}

/// `struct lk_ipv6_header`: where a header of an IPv6 packet is, and whether the next one is malformed.
#[repr(C)]
#[derive(Clone, Copy)]
pub struct Ipv6HeaderStep {
    pub place: Ipv6HeaderPlace,
    /// 1: the next header is malformed.
    pub is_malformed: u8,
}

/// Steps to the next header of an IPv6 packet, and returns 1. Returns 0 if no extension header follows, or if there is no
/// IPv6 header or the next one is cut. Then the place stays.
#[unsafe(no_mangle)]
pub extern "C" fn lk_next_ipv6_header(packet: &[u8], header: &mut Ipv6HeaderStep) -> i32
    ensures returned { result ≡ pos (flag (int_eq (ipv6_steps.step (within packet.now) header.old.place).0 (pos 1))) }
    ensures stored { header.new.place ≡ (ipv6_steps.step (within packet.now) header.old.place).1 }
    ensures malformed { header.new.is_malformed ≡ flag (int_eq (ipv6_steps.step (within packet.now) header.old.place).0 (negsuc 0)) }
{
    let found = next_ipv6_header(&mut header.place, within(packet));
    header.is_malformed = u8::from(found == -1);
    i32::from(found == 1)
}
