//! Numbers, and the first of several numbers that are joined by a mark.

ghost use Rattle.std.specs.Prelude.{◌≡◌, ◌≤◌, ◌<◌, ◌⊎◌, IfSome, length, min, slice_index, take};
ghost use Rattle.std.specs.Char.{digit_value};
ghost use Rattle.std.specs.Str.Parse.{AllDigits, digits_value};
ghost use Rattle.wire_addr.specs.Grammar.{IsNumber, Reads};
ghost use Rattle.wire_addr.specs.Reading.{FirstPiece};

/// The value of each byte that is a hex digit, of either case, and 16 for any other.
const HEX_DIGITS: [u8; 256] = [
    16, 16, 16, 16, 16, 16, 16, 16, 16, 16, 16, 16, 16, 16, 16, 16, 16, 16, 16, 16, 16, 16, 16, 16,
    16, 16, 16, 16, 16, 16, 16, 16, 16, 16, 16, 16, 16, 16, 16, 16, 16, 16, 16, 16, 16, 16, 16, 16,
    0, 1, 2, 3, 4, 5, 6, 7, 8, 9, 16, 16, 16, 16, 16, 16, 16, 10, 11, 12, 13, 14, 15, 16, 16, 16,
    16, 16, 16, 16, 16, 16, 16, 16, 16, 16, 16, 16, 16, 16, 16, 16, 16, 16, 16, 16, 16, 16, 16, 10,
    11, 12, 13, 14, 15, 16, 16, 16, 16, 16, 16, 16, 16, 16, 16, 16, 16, 16, 16, 16, 16, 16, 16, 16,
    16, 16, 16, 16, 16, 16, 16, 16, 16, 16, 16, 16, 16, 16, 16, 16, 16, 16, 16, 16, 16, 16, 16, 16,
    16, 16, 16, 16, 16, 16, 16, 16, 16, 16, 16, 16, 16, 16, 16, 16, 16, 16, 16, 16, 16, 16, 16, 16,
    16, 16, 16, 16, 16, 16, 16, 16, 16, 16, 16, 16, 16, 16, 16, 16, 16, 16, 16, 16, 16, 16, 16, 16,
    16, 16, 16, 16, 16, 16, 16, 16, 16, 16, 16, 16, 16, 16, 16, 16, 16, 16, 16, 16, 16, 16, 16, 16,
    16, 16, 16, 16, 16, 16, 16, 16, 16, 16, 16, 16, 16, 16, 16, 16, 16, 16, 16, 16, 16, 16, 16, 16,
    16, 16, 16, 16, 16, 16, 16, 16, 16, 16, 16, 16, 16, 16,
];

/// The value of a hex digit, and 16 for any other byte. It takes fewer steps than `char::to_digit`.
#[inline(always)]
pub(crate) fn hex_digit(byte: u8) -> u32
    ensures { result ≡ min 16 (digit_value byte) }
{
    HEX_DIGITS[byte as usize] as u32
}

/// The value of the leading digits, up to the given number of digits, and how many digits there are.
#[inline(always)]
pub(crate) fn first_number(text: &[u8], radix: u32, places: usize) -> (u32, usize)
    requires low { 2 ≤ radix }
    requires high { radix ≤ 16 }
    requires short { places ≤ 5 }
    ensures digits { AllDigits radix (take result.1 text.now) }
    ensures value { result.0 ≡ digits_value radix (take result.1 text.now) }
    ensures within { result.1 ≤ length text.now }
    ensures places { result.1 ≤ places }
    ensures whole { (result.1 ≡ places) ⊎ ((result.1 ≡ length text.now) ⊎ (radix ≤ digit_value (slice_index text.now result.1))) }
{
    let mut value = 0;
    for len in 0..places {
        if len == text.len() {
            return (value, len);
        }
        let digit = hex_digit(text[len]);
        if digit >= radix {
            return (value, len);
        }
        value = value * radix + digit;
    }
    (value, places)
}

/// The value of four hex digits, if all four are digits; one test covers all four.
#[inline(always)]
fn four_digits(text: &[u8; 4]) -> Option<u32>
    ensures { IfSome result (λ n. AllDigits 16 text.now × (n ≡ digits_value 16 text.now)) }
{
    let [a, b, c, d] = *text;
    let (a, b, c, d) = (hex_digit(a), hex_digit(b), hex_digit(c), hex_digit(d));
    let all = (a < 16) & (b < 16) & (c < 16) & (d < 16);
    all.then_some(((a * 16 + b) * 16 + c) * 16 + d)
}

/// The value of the leading hex digits, at most four, and how many there are,
/// which is usually four.
#[inline(always)]
pub(crate) fn first_group(text: &[u8]) -> (u32, usize)
    ensures digits { AllDigits 16 (take result.1 text.now) }
    ensures value { result.0 ≡ digits_value 16 (take result.1 text.now) }
    ensures within { result.1 ≤ length text.now }
    ensures places { result.1 ≤ 4 }
    ensures whole { (result.1 ≡ 4) ⊎ ((result.1 ≡ length text.now) ⊎ (16 ≤ digit_value (slice_index text.now result.1))) }
{
    match text.first_chunk::<4>().and_then(four_digits) {
        Some(value) => (value, 4),
        None => first_number(text, 16, 4),
    }
}

/// The value of a text of one to `places` digits. `None` if there are others, or it is above `most`.
#[inline(always)]
pub fn number(text: &[u8], radix: u32, places: usize, most: u32) -> Option<u32>
    requires low { 2 ≤ radix }
    requires high { radix ≤ 16 }
    requires short { places ≤ 5 }
    ensures value { Reads (IsNumber radix places most) text.now result }
    ensures fits { IfSome result (λ n. n ≤ most) }
{
    let (value, len) = first_number(text, radix, places);
    if len == 0 || len < text.len() || value > most {
        return None;
    }
    Some(value)
}

/// The number in front of the first mark, or of the whole text, and the text after the mark, if any.
#[inline(always)]
pub(crate) fn first_piece(
    text: &[u8],
    mark: u8,
    radix: u32,
    places: usize,
    most: u32,
) -> Option<(u32, Option<&[u8]>)>
    requires low { 2 ≤ radix }
    requires high { radix ≤ 16 }
    requires short { places ≤ 5 }
    requires apart { radix ≤ digit_value mark }
    ensures reads { FirstPiece mark radix places most text.now result }
    ensures fits { IfSome result (λ r. r.0 ≤ most) }
    ensures shorter { IfSome result (λ r. IfSome r.1 (λ rest. length rest.now < length text.now)) }
{
    let (value, len) = first_number(text, radix, places);
    if len == 0 || value > most {
        return None;
    }
    match text[len..].split_first() {
        None => Some((value, None)),
        Some((byte, following)) if *byte == mark => Some((value, Some(following))),
        _ => None,
    }
}
