//! A frame as one line of text.

ghost use Rattle.std.specs.Prelude.{◌≡◌, None, Some};
ghost use Rattle.c_structs.specs.Written.{Prints};
ghost use Rattle.c_read.specs.Summary.{frame_line};

mod ends;
mod headers;
mod line;
mod notes;

use c_structs::{FrameFields, print};
use ends::push_ends;
use headers::push_header;
use line::{Line, push_number};
use notes::push_notes;

/// Prints a frame in one line: its addresses, its innermost header, the length of its payload in bytes, and what
/// is wrong. The type and code are those of its ICMP message, if it has one. Returns the length of the line, or a
/// failure without room; then `out` is unchanged.
pub fn print_frame(frame: &FrameFields, icmp_type: u8, icmp_code: u8, out: &mut [u8]) -> isize
    ensures { Prints (Some (frame_line frame.now icmp_type icmp_code)) None out.old out.new result }
{
    let mut text = Line::new();
    push_ends(&mut text, frame);
    push_header(&mut text, frame, icmp_type, icmp_code);
    push_number(&mut text, " len=", frame.payload_len);
    push_notes(&mut text, frame);
    print(text.as_str(), out)
}
