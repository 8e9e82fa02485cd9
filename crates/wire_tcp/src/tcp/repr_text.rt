//! The printed text of a value.

ghost use Rattle.std.specs.Prelude.{◌≡◌, ◌+◌, ◌≤◌, ◌++◌, [], Some, length};
ghost use Rattle.arrayvec.specs.ArrayString.{array_string_len};
ghost use Rattle.wire_tcp.specs.TcpRepr.{header_of};
ghost use Rattle.wire_tcp.specs.TcpReprText.{ack_text, control_text, flow_text, size_text, start_text, value_text};

use super::TcpRepr;
use arrayvec::ArrayString;
use itoa::Buffer;
use std::fmt;
use wire_tcp_options::{TcpControl, TcpSeqNumber};

impl fmt::Display for TcpRepr<'_> {
    ghost output = { λ v. Some (value_text (header_of v) (length v.payload.now)) };

    fn fmt<W: fmt::Write>(&self, f: &mut fmt::Formatter<W>) -> fmt::Result {
        let mut text = ArrayString::new();
        self.push_to(&mut text);
        f.write_str(text.as_str())
    }
}

impl TcpRepr<'_> {
    // Writes the printed text into an empty string.
    fn push_to(&self, text: &mut ArrayString<102>)
        requires { text.old.bytes ≡ [] }
        ensures { text.new.bytes ≡ value_text (header_of self.now) (length self.now.payload.now) }
    {
        push_start(
            text,
            self.src_port,
            self.dst_port,
            self.control,
            self.seq_number,
        );
        push_ack(text, self.ack_number);
        push_flow(text, self.window_len, self.payload.len());
        push_size(text, self.max_seg_size);
    }
}

// Writes the ports, the control flag and the sequence number into an empty string.
#[tactic(auto, unfolding(crate::specs::TcpReprText::start_text))]
#[inline(always)]
fn push_start(
    text: &mut ArrayString<102>,
    src: u16,
    dst: u16,
    control: TcpControl,
    seq: TcpSeqNumber,
)
    requires { text.old.bytes ≡ [] }
    ensures bytes { text.new.bytes ≡ start_text src dst control seq }
    ensures len { array_string_len text.new ≤ 42 }
{
    text.push_str("TCP src=");
    text.push_str(Buffer::new().format(src));
    text.push_str(" dst=");
    text.push_str(Buffer::new().format(dst));
    text.push_str(word_of(control));
    text.push_str(" seq=");
    text.push_str(Buffer::new().format(seq.0.cast_unsigned()));
}

// The word for a control flag.
fn word_of(control: TcpControl) -> &'static str
    ensures word { result.now ≡ control_text control }
    ensures short { length result.now ≤ 4 }
{
    match control {
        TcpControl::None => "",
        TcpControl::Psh => " psh",
        TcpControl::Syn => " syn",
        TcpControl::Fin => " fin",
        TcpControl::Rst => " rst",
    }
}

// Appends the acknowledgement number, if there is one. There must be room for 15 bytes.
#[inline(always)]
fn push_ack(text: &mut ArrayString<102>, ack: Option<TcpSeqNumber>)
    requires { array_string_len text.old + 15 ≤ 102 }
    ensures bytes { text.new.bytes ≡ text.old.bytes ++ ack_text ack }
    ensures len { array_string_len text.new ≤ array_string_len text.old + 15 }
{
    if let Some(number) = ack {
        text.push_str(" ack=");
        text.push_str(Buffer::new().format(number.0.cast_unsigned()));
    }
}

// Appends the window and the length of the payload. There must be room for 35 bytes.
#[tactic(auto, unfolding(crate::specs::TcpReprText::flow_text))]
#[inline(always)]
fn push_flow(text: &mut ArrayString<102>, window: u16, len: usize)
    requires { array_string_len text.old + 35 ≤ 102 }
    ensures bytes { text.new.bytes ≡ text.old.bytes ++ flow_text window len }
    ensures len { array_string_len text.new ≤ array_string_len text.old + 35 }
{
    text.push_str(" win=");
    text.push_str(Buffer::new().format(window));
    text.push_str(" len=");
    text.push_str(Buffer::new().format(len));
}

// Appends the maximum segment size, if there is one. There must be room for 10 bytes.
#[inline(always)]
fn push_size(text: &mut ArrayString<102>, size: Option<u16>)
    requires { array_string_len text.old + 10 ≤ 102 }
    ensures { text.new.bytes ≡ text.old.bytes ++ size_text size }
{
    if let Some(size) = size {
        text.push_str(" mss=");
        text.push_str(Buffer::new().format(size));
    }
}
