//! Segments in the struct of C.

ghost use Rattle.std.specs.Prelude.{◌≡◌, ◌≤◌, ◌/◌, ◌%◌, ◌==◌, [], length, true};
ghost use Rattle.wire_tcp_options.specs.TcpSummary.{summary_of};
ghost use Rattle.c_socket.specs.Segments.{IsReset, bit, fields_of, flags_of, has, segment_of};

use crate::options::options_of;
use app_connection::{Reply, Segment};
use app_socket::Header;
use c_structs::{Tcp, TcpOptions};
use wire_tcp_options::TcpOptionSummary;

// The flags of a TCP header (RFC 9293, section 3.1).
const FIN: u8 = 1;

const SYN: u8 = 2;

const RST: u8 = 4;

const PSH: u8 = 8;

const ACK: u8 = 16;

/// `struct lk_segment`: a TCP segment without its ports.
#[repr(C)]
#[derive(Clone, Copy)]
pub struct SegmentFields<'a> {
    pub tcp: Tcp,
    pub options: TcpOptions,
    pub payload: &'a [u8],
}

// A flag, or 0.
fn bit(is_set: bool, value: u8) -> u8
    ensures value { result ≡ bit is_set value }
    ensures most { result ≤ value }
{
    if is_set { value } else { 0 }
}

// The flags of a segment. One with text has PSH (section 3.9.1.2).
fn flags_of(segment: &Segment) -> u8
    ensures { result ≡ flags_of segment.now }
{
    bit(segment.fin, FIN)
        + bit(segment.syn, SYN)
        + bit(segment.rst, RST)
        + bit(!segment.payload.is_empty(), PSH)
        + bit(segment.ack.is_some(), ACK)
}

/// The struct of a segment with this header.
pub(crate) fn fields_of<'a>(segment: &Segment<'a>, header: &Header) -> SegmentFields<'a>
    ensures { result ≡ fields_of segment.now header.now }
{
    SegmentFields {
        tcp: Tcp {
            seq_number: segment.number,
            ack_number: segment.ack.unwrap_or(0),
            window_len: header.window,
            urgent_at: 0,
            flags: flags_of(segment),
            header_len: 0,
        },
        options: options_of(&header.options),
        payload: segment.payload,
    }
}

impl<'a> SegmentFields<'a> {
    /// The segment, with its window as in the header.
    pub(crate) fn value(&self) -> Segment<'a>
        ensures { result ≡ segment_of self.now }
    {
        Segment {
            number: self.tcp.seq_number,
            ack: if self.has(ACK) {
                Some(self.tcp.ack_number)
            } else {
                None
            },
            window: u32::from(self.tcp.window_len),
            syn: self.has(SYN),
            rst: self.has(RST),
            fin: self.has(FIN),
            payload: self.payload,
        }
    }

    // Whether a flag is set.
    fn has(&self, flag: u8) -> bool
        requires { 1 ≤ flag }
        ensures { result ≡ has self.now flag }
    {
        self.tcp.flags / flag % 2 == 1
    }
}

/// The struct of an RST.
pub(crate) fn reset_of<'a>(reset: &Reply) -> SegmentFields<'a>
    ensures { reset.now.rst ≡ true → IsReset result }
{
    let segment = reset_segment(reset);
    let header = Header {
        window: 0,
        options: TcpOptionSummary::default(),
    };
    fields_of(&segment, &header)
}

// A reply as a segment, whose window is 0.
fn reset_segment<'a>(reset: &Reply) -> Segment<'a>
    ensures { result.rst ≡ reset.now.rst }
{
    Segment {
        number: reset.number,
        ack: reset.ack,
        window: 0,
        syn: reset.syn,
        rst: reset.rst,
        fin: false,
        payload: &[],
    }
}
