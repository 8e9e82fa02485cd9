//! Texts that end in a mark and a number.

ghost use Rattle.std.specs.Prelude.{◌≡◌, ◌≢◌, ◌≤◌, ◌<◌, ℕ, List, IfSome, MatchOption, length, slice_index};
ghost use Rattle.std.specs.Char.{digit_value};
ghost use Rattle.wire_addr.specs.Ending.{EndsInNumber};

use crate::number_text::number;

/// The index of the last occurrence of the byte.
#[inline(always)]
fn last_place(text: &[u8], byte: u8) -> Option<usize>
    ensures { MatchOption result ((k : ℕ) → k < length text.now → slice_index text.now k ≢ byte)
        (λ at. (at < length text.now) × (slice_index text.now at ≡ byte)
        × ((k : ℕ) → at < k → k < length text.now → slice_index text.now k ≢ byte)) }
{
    text.iter().rposition(|b| *b == byte)
}

/// Splits at the last mark. Returns the text in front of it and the decimal number of one to `places`
/// digits after it, if it is at most `most`. It looks only at the last `places` + 1 bytes. `None` if there is no such
/// number.
#[inline(always)]
pub fn number_after(text: &[u8], mark: u8, places: usize, most: u32) -> Option<(&[u8], u32)>
    requires apart { 10 ≤ digit_value mark }
    requires short { places ≤ 5 }
    ensures value { MatchOption result ((front : List ℕ) (n : ℕ) → ¬ (EndsInNumber mark places most text.now front n))
        (λ found. EndsInNumber mark places most text.now found.0.now found.1) }
    ensures fits { IfSome result (λ found. found.1 ≤ most) }
{
    let first = text.len().saturating_sub(places + 1);
    let at = first + last_place(&text[first..], mark)?;
    let number = number(&text[at + 1..], 10, places, most)?;
    Some((&text[..at], number))
}
