//! What is wrong with a frame.

ghost use Rattle.std.specs.Prelude.{◌≡◌, ◌≤◌, ◌+◌, ◌++◌, length};
ghost use Rattle.arrayvec.specs.ArrayString.{array_string_len};
ghost use Rattle.c_read.specs.Summary.{ipv4_note, reason_note, transport_note};

use super::line::Line;
use c_structs::FrameFields;

/// Appends what the checksums say and why a header was rejected.
#[inline(always)]
pub(crate) fn push_notes(text: &mut Line, frame: &FrameFields)
    requires { array_string_len text.old + 70 ≤ 275 }
    ensures bytes { text.new.bytes ≡ text.old.bytes ++ ipv4_note frame.now.ipv4_checksum ++ transport_note frame.now.transport_checksum ++ reason_note frame.now.reason }
    ensures len { array_string_len text.new ≤ array_string_len text.old + 70 }
{
    push_note(text, ipv4_note(frame.ipv4_checksum));
    push_note(text, transport_note(frame.transport_checksum));
    push_note(text, reason_note(frame.reason));
}

// Most frames have no note, and an empty text is not copied.
#[inline(always)]
fn push_note(text: &mut Line, note: &str)
    requires { array_string_len text.old + length note.now ≤ 275 }
    ensures bytes { text.new.bytes ≡ text.old.bytes ++ note.now }
    ensures len { array_string_len text.new ≡ array_string_len text.old + length note.now }
{
    if !note.is_empty() {
        text.push_str(note);
    }
}

/// The note about the checksum of an IPv4 header, by the number of its verdict.
pub(crate) fn ipv4_note(verdict: u8) -> &'static str
    ensures text { result.now ≡ ipv4_note verdict }
    ensures short { length result.now ≤ 28 }
{
    match verdict {
        2 => " (header checksum incorrect)",
        _ => "",
    }
}

/// The note about the checksum of a transport header, by the number of its verdict.
pub(crate) fn transport_note(verdict: u8) -> &'static str
    ensures text { result.now ≡ transport_note verdict }
    ensures short { length result.now ≤ 27 }
{
    match verdict {
        2 => " (checksum incorrect)",
        3 => " (no checksum)",
        4 => " (partial checksum correct)",
        5 => " (checksum cut)",
        _ => "",
    }
}

/// The note about a rejected header, by the number of the reason.
pub(crate) fn reason_note(reason: u8) -> &'static str
    ensures text { result.now ≡ reason_note reason }
    ensures short { length result.now ≤ 15 }
{
    match reason {
        1 => " (too short)",
        2 => " (bad version)",
        3 => " (bad length)",
        4 => " (other ARP)",
        5 => " (port zero)",
        6 => " (bad flags)",
        7 => " (bad options)",
        8 => " (header cut)",
        9 => " (unknown link)",
        10 => " (hops left)",
        11 => " (bad order)",
        _ => "",
    }
}
