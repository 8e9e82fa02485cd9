//! The innermost header of a frame.

ghost use Rattle.std.specs.Prelude.{◌≡◌, ◌≤◌, ◌<◌, ◌+◌, ◌++◌, length};
ghost use Rattle.arrayvec.specs.ArrayString.{array_string_len};
ghost use Rattle.c_read.specs.Summary.{arp_text, flags_text, fragment_text, header_text, icmp_text, protocol_text, tcp_text, where_set};

use super::ends::transport_of;
use super::line::{Line, push_number};
use c_structs::{Arp, FrameFields, Ip, Tcp};
use itoa::Integer;
use wire_addr::push_dashed;

/// Appends the innermost header. The type and code are those of an ICMP message.
#[inline(always)]
pub(crate) fn push_header(text: &mut Line, frame: &FrameFields, icmp_type: u8, icmp_code: u8)
    requires { array_string_len text.old + 78 ≤ 275 }
    ensures bytes { text.new.bytes ≡ text.old.bytes ++ header_text frame.now icmp_type icmp_code }
    ensures len { array_string_len text.new ≤ array_string_len text.old + 78 }
{
    match transport_of(frame) {
        1 => text.push_str(" UDP"),
        2 => push_tcp(text, &frame.tcp),
        3 => push_icmp(text, icmp_type, icmp_code),
        _ => match frame.network {
            0 => (),
            1 => push_arp(text, &frame.arp),
            _ => push_protocol(text, frame),
        },
    }
}

fn push_tcp(text: &mut Line, header: &Tcp)
    requires { array_string_len text.old + 78 ≤ 275 }
    ensures bytes { text.new.bytes ≡ text.old.bytes ++ tcp_text header.now }
    ensures len { array_string_len text.new ≤ array_string_len text.old + 78 }
{
    let flags = header.flags;
    text.push_str(" TCP");
    push_flags(text, flags);
    push_number(text, " seq=", header.seq_number);
    push_number_where_set(text, flags, 16, " ack=", header.ack_number);
    push_number(text, " win=", header.window_len);
    push_number_where_set(text, flags, 32, " urg=", header.urgent_at);
}

#[inline(always)]
fn push_flags(text: &mut Line, flags: u8)
    requires { array_string_len text.old + 24 ≤ 275 }
    ensures bytes { text.new.bytes ≡ text.old.bytes ++ flags_text flags }
    ensures len { array_string_len text.new ≤ array_string_len text.old + 24 }
{
    push_where_set(text, flags, 2, " syn");
    push_where_set(text, flags, 1, " fin");
    push_where_set(text, flags, 4, " rst");
    push_where_set(text, flags, 8, " psh");
    push_where_set(text, flags, 64, " ece");
    push_where_set(text, flags, 128, " cwr");
}

/// Appends the word if this bit of the flags is set.
#[inline(always)]
fn push_where_set(text: &mut Line, flags: u8, bit: u8, word: &str)
    requires bit { 0 < bit }
    requires room { array_string_len text.old + length word.now ≤ 275 }
    ensures bytes { text.new.bytes ≡ text.old.bytes ++ where_set flags bit word.now }
    ensures len { array_string_len text.new ≤ array_string_len text.old + length word.now }
{
    if flags / bit % 2 == 1 {
        text.push_str(word);
    }
}

/// Appends a word and a number if this bit of the flags is set.
#[inline(always)]
fn push_number_where_set<I: Integer>(text: &mut Line, flags: u8, bit: u8, word: &str, n: I)
    requires bit { 0 < bit }
    requires room { array_string_len text.old + length word.now + I.MAX_STR_LEN ≤ 275 }
    ensures bytes { text.new.bytes ≡ text.old.bytes ++ where_set flags bit (word.now ++ I.text n) }
    ensures len { array_string_len text.new ≤ array_string_len text.old + length word.now + I.MAX_STR_LEN }
{
    if flags / bit % 2 == 1 {
        push_number(text, word, n);
    }
}

fn push_icmp(text: &mut Line, icmp_type: u8, code: u8)
    requires { array_string_len text.old + 23 ≤ 275 }
    ensures bytes { text.new.bytes ≡ text.old.bytes ++ icmp_text icmp_type code }
    ensures len { array_string_len text.new ≤ array_string_len text.old + 23 }
{
    push_number(text, " ICMP type=", icmp_type);
    push_number(text, " code=", code);
}

fn push_arp(text: &mut Line, header: &Arp)
    requires { array_string_len text.old + 36 ≤ 275 }
    ensures bytes { text.new.bytes ≡ text.old.bytes ++ arp_text header.now }
    ensures len { array_string_len text.new ≤ array_string_len text.old + 36 }
{
    push_number(text, " op=", header.operation);
    text.push_str(" hardware=");
    push_dashed(text, header.src_hardware);
}

fn push_protocol(text: &mut Line, frame: &FrameFields)
    requires { array_string_len text.old + 26 ≤ 275 }
    ensures bytes { text.new.bytes ≡ text.old.bytes ++ protocol_text frame.now }
    ensures len { array_string_len text.new ≤ array_string_len text.old + 26 }
{
    push_number(text, " proto=", frame.protocol);
    if frame.is_fragment != 0 {
        push_fragment(text, &frame.ip);
    }
}

fn push_fragment(text: &mut Line, header: &Ip)
    requires { array_string_len text.old + 16 ≤ 275 }
    ensures bytes { text.new.bytes ≡ text.old.bytes ++ fragment_text header.now }
    ensures len { array_string_len text.new ≤ array_string_len text.old + 16 }
{
    push_number(text, " fragment=", header.fragment_offset);
    if header.more_fragments != 0 {
        text.push_str("+");
    }
}
