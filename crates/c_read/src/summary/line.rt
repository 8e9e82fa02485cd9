//! The string that the parts of a line are appended to.

ghost use Rattle.std.specs.Prelude.{◌≡◌, ◌≤◌, ◌+◌, ◌++◌, length};
ghost use Rattle.arrayvec.specs.ArrayString.{array_string_len};

use arrayvec::ArrayString;
use itoa::{Buffer, Integer};

/// A string with room for the longest line, which has 275 bytes.
pub(crate) type Line = ArrayString<275>;

/// Appends a word and a number in decimal.
#[inline(always)]
pub(crate) fn push_number<I: Integer>(text: &mut Line, word: &str, n: I)
    requires { array_string_len text.old + length word.now + I.MAX_STR_LEN ≤ 275 }
    ensures bytes { text.new.bytes ≡ text.old.bytes ++ word.now ++ I.text n }
    ensures len { array_string_len text.new ≤ array_string_len text.old + length word.now + I.MAX_STR_LEN }
{
    text.push_str(word);
    text.push_str(Buffer::new().format(n));
}
