//! Bytes joined by a mark.

ghost use Rattle.std.specs.Prelude.{◌≡◌, ◌↔◌, ◌≤◌, ◌<◌, ◌∷◌, [], ℕ, List, true, IsTrue, Some, length};
ghost use Rattle.std.specs.Char.{digit_value};
ghost use Rattle.wire_addr.specs.Grammar.{IsDotted, IsHexBytes, IsHexText, IsNumber, Reads};
ghost use Rattle.wire_addr.specs.Reading.{FilledFrom, numbers_of, dotted_read, pieces_of};

use crate::number_text::{first_piece, hex_digit};

/// Fills `values` from numbers joined by the mark. Returns whether the text has exactly that many.
#[tactic(auto, using(crate::proofs::Joined::filled))]
#[inline(always)]
fn fill(text: &[u8], mark: u8, radix: u32, places: usize, values: &mut [u8]) -> bool
    requires low { 2 ≤ radix }
    requires high { radix ≤ 16 }
    requires short { places ≤ 5 }
    requires apart { radix ≤ digit_value mark }
    requires some { 0 < length values.old }
    ensures { FilledFrom (numbers_of radix places 255 (pieces_of mark text.now)) values.new result }
{
    let mut rest = Some(text);
    for value in values.iter_mut() {
        let Some(more) = rest else { return false };
        let Some((number, following)) = first_piece(more, mark, radix, places, 255) else {
            return false
        };
        *value = number as u8;
        rest = following;
    }
    rest.is_none()
}

/// The bytes of four decimal numbers joined by dots. `None` for any other text.
#[tactic(auto, using(crate::proofs::Readers::reads_dotted, crate::proofs::Steps::four_bytes))]
#[inline(always)]
pub fn octets(text: &[u8]) -> Option<[u8; 4]>
    ensures { Reads IsDotted text.now result }
{
    let mut octets = [0; 4];
    fill(text, b'.', 10, 3, &mut octets).then_some(octets)
}

/// The bytes of six hex numbers joined by this mark.
#[tactic(auto, using(crate::proofs::Readers::reads_hex_bytes, crate::proofs::Steps::six_bytes))]
#[inline(always)]
fn hex_bytes_joined(text: &[u8], mark: u8) -> Option<[u8; 6]>
    requires apart { 16 ≤ digit_value mark }
    ensures { Reads (IsHexBytes mark) text.now result }
{
    let mut octets = [0; 6];
    fill(text, mark, 16, 2, &mut octets).then_some(octets)
}

/// The value of two hex digits, and whether both bytes are digits.
#[inline(always)]
fn two_digits(high: u8, low: u8) -> (u8, bool)
    ensures value { result.1 ≡ true → IsNumber 16 2 255 (high ∷ low ∷ []) result.0 }
    ensures digits { digit_value high < 16 → digit_value low < 16 → result.1 ≡ true }
{
    let (high, low) = (hex_digit(high), hex_digit(low));
    (((high * 16 + low) % 256) as u8, (high < 16) & (low < 16))
}

/// The bytes of six pairs of hex digits joined by this mark; one test covers all digits but the first.
#[inline(always)]
fn six_pairs(text: &[u8; 17], mark: u8) -> Option<[u8; 6]>
    ensures { Reads (IsHexBytes mark) text.now result }
{
    if hex_digit(text[0]) > 15 {
        return None;
    }
    let marks = (text[2] == mark)
        & (text[5] == mark)
        & (text[8] == mark)
        & (text[11] == mark)
        & (text[14] == mark);
    let (a, a_holds) = two_digits(text[0], text[1]);
    let (b, b_holds) = two_digits(text[3], text[4]);
    let (c, c_holds) = two_digits(text[6], text[7]);
    let (d, d_holds) = two_digits(text[9], text[10]);
    let (e, e_holds) = two_digits(text[12], text[13]);
    let (f, f_holds) = two_digits(text[15], text[16]);
    let all = marks & a_holds & b_holds & c_holds & d_holds & e_holds & f_holds;
    all.then_some([a, b, c, d, e, f])
}

/// The six bytes of a text of length 17, the usual form: each number has two digits.
#[inline(always)]
fn pairs(text: &[u8; 17]) -> Option<[u8; 6]>
    ensures { Reads IsHexText text.now result }
{
    if text[2] == b'-' {
        six_pairs(text, b'-')
    } else {
        six_pairs(text, b':')
    }
}

/// The byte after the first number, of one or two digits, if there is one.
#[inline(always)]
fn first_mark(text: &[u8]) -> Option<u8>
    ensures { (mark : ℕ) (octets : List ℕ) → 16 ≤ digit_value mark → IsHexBytes mark text.now octets → result ≡ Some mark }
{
    let [_, second, third, ..] = text else {
        return None
    };
    let is_digit = hex_digit(*second) < 16;
    Some(if is_digit { *third } else { *second })
}

/// The bytes of six hex numbers joined by the mark after the first.
#[inline(always)]
fn numbers(text: &[u8]) -> Option<[u8; 6]>
    ensures { Reads IsHexText text.now result }
{
    match first_mark(text)? {
        b'-' => hex_bytes_joined(text, b'-'),
        b':' => hex_bytes_joined(text, b':'),
        _ => None,
    }
}

/// Whether the text is longer than six numbers of two digits with five marks.
#[inline(always)]
fn is_too_long(text: &[u8]) -> bool
    ensures { IsTrue result ↔ (17 < length text.now) }
{
    text.len() > 17
}

/// The bytes of six hex numbers, joined all by dashes or all by colons. `None` for any other text.
pub fn hex_bytes(text: &[u8]) -> Option<[u8; 6]>
    ensures { Reads IsHexText text.now result }
{
    if let Some(chunk) = text.first_chunk::<17>() {
        return if is_too_long(text) {
            None
        } else {
            pairs(chunk)
        };
    }
    numbers(text)
}
