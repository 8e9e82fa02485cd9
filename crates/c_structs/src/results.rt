//! Results of C calls, and texts.

ghost use Rattle.std.specs.Prelude.{◌≡◌, ◌≤◌, None, Some, length};
ghost use Rattle.c_structs.specs.Written.{Prints, failed_by, is_set, max_len, usable, with_end, within};

use crate::failures::Failure;

/// The longest input or output of a call, in bytes.
pub const MAX_LEN: usize = (1 << 40) - 1;

/// An input. One that is longer than `MAX_LEN` counts as empty.
#[inline(always)]
#[tactic(auto, unfolding(crate::specs::Written::within))]
pub fn within(bytes: &[u8]) -> &[u8]
    ensures value { result.now ≡ within bytes.now }
    ensures no_longer { length result.now ≤ length bytes.now }
    ensures fits { length result.now ≤ max_len }
{
    if bytes.len() <= MAX_LEN { bytes } else { &[] }
}

/// A number of bytes. One that is above `MAX_LEN` counts as 0.
#[inline(always)]
#[tactic(auto, unfolding(crate::specs::Written::usable))]
pub fn usable(len: usize) -> usize
    ensures value { result ≡ usable len }
    ensures no_longer { result ≤ len }
{
    if len <= MAX_LEN { len } else { 0 }
}

/// What a call returns that wrote nothing: its failure, or that there was no room.
#[inline(always)]
pub fn failed(failure: Option<Failure>) -> isize
    ensures { result ≡ failed_by failure }
{
    failure.unwrap_or(Failure::NoRoom).code()
}

/// Whether a C flag is set.
#[inline(always)]
pub fn is_set(number: i32) -> bool
    ensures { result ≡ is_set number }
{
    number != 0
}

/// Prints a text: writes it to the front of `out`, with a null after it if there is room, and returns its
/// length, or that there is no room for the text.
pub fn print(text: &str, out: &mut [u8]) -> isize
    ensures { Prints (Some text.now) None out.old out.new result }
{
    let len = text.len();
    if len > out.len() || out.len() > MAX_LEN {
        return Failure::NoRoom.code();
    }
    out[..len].copy_from_slice(text.as_bytes());
    end_text(len, out);
    len as isize
}

/// Writes a null after a text of this length, if there is room.
#[inline(always)]
pub fn end_text(len: usize, out: &mut [u8])
    ensures { out.new ≡ with_end out.old len }
{
    if len < out.len() {
        out[len] = 0;
    }
}
