//! The lines of the input.

ghost use Rattle.std.specs.Prelude.{◌≡◌, ◌<◌, ◌∷◌, length};
ghost use Rattle.std.specs.Str.Lines.{lines, strip_carriage_return};

use memchr::memchr;

/// Splits the first line off a text that is not empty. A line ends at a line feed, and one carriage
/// return before that is dropped. The second part is what follows the line feed.
pub fn split_line(text: &[u8]) -> (&[u8], &[u8])
    requires { 0 < length text.now }
    ensures lines { lines text.now ≡ result.0.now ∷ lines result.1.now }
    ensures shorter { length result.1.now < length text.now }
{
    match memchr(b'\n', text) {
        Some(at) => (strip_return(&text[..at]), &text[at + 1..]),
        None => (text, &[]),
    }
}

// A line without the carriage return at its end.
fn strip_return(line: &[u8]) -> &[u8]
    ensures { result.now ≡ strip_carriage_return line.now }
{
    match line {
        [front @ .., b'\r'] => front,
        _ => line,
    }
}
