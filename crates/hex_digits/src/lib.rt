//! Hex digits (RFC 4648, section 8): decoding by a table, and the digits of bytes.
#![tactic(auto)]

ghost use Rattle.std.specs.Prelude.{◌≡◌, ◌≢◌, ◌<◌, ◌*◌, ℕ, Some, Ok, Err, MatchResult, length, slice_index};
ghost use Rattle.hex.specs.Hex.{decode_sized, encode_lower, hex_digit_value, lower_digits};

use hex::FromHexError;

/// The values of the digits. The crate `hex` is asked for each once, so `decode` only looks them up.
#[derive(Debug, Drop)]
pub struct Digits {
    values: [u8; 256],
    ghost right: { (c : ℕ) → c < 256 → slice_index values c < 16 → hex_digit_value c ≡ Some (slice_index values c) },
}

// The entry of a byte that is no digit. Those of digits are below 16.
const NONE: u8 = 255;

impl Digits {
    /// The values that `hex` finds.
    pub fn new() -> Digits {
        let mut values = [NONE; 256];
        'bytes: for i in 0..values.len() {
            values[i] = value(i as u8);
        }
        Digits { values }
    }

    /// Decodes a text of digits, in upper or lower case, as `hex::decode_to_slice` does. An error if
    /// the text is not twice as long as `out`, and if it has another character. In the second case
    /// `out` may have changed.
    pub fn decode(&self, text: &[u8], out: &mut [u8]) -> Result<(), FromHexError>
        ensures value { MatchResult (decode_sized text.now (length out.old))
            (λ bytes. (result ≡ Ok tt) × (out.new ≡ bytes))
            (λ e. result ≡ Err e) }
        ensures same { (length text.now ≢ 2 * length out.old) → out.new ≡ out.old }
    {
        if text.len() % 2 != 0 || text.len() / 2 != out.len() {
            return hex::decode_to_slice(text, out);
        }
        // No branch for each digit: an entry of `NONE` leaves a bit that no value has.
        let mut bits = 0;
        'pairs: for i in 0..out.len() {
            let high = self.values[usize::from(text[2 * i])];
            let low = self.values[usize::from(text[2 * i + 1])];
            bits |= high | low;
            out[i] = (high << 4) | low;
        }
        if bits > 15 {
            return hex::decode_to_slice(text, out);
        }
        Ok(())
    }
}

// The value that `hex` finds for a digit, and `NONE` for another byte.
fn value(digit: u8) -> u8
    ensures { result < 16 → hex_digit_value digit ≡ Some result }
{
    let mut value = [0];
    match hex::decode_to_slice([b'0', digit].as_slice(), &mut value) {
        Ok(()) => value[0],
        Err(_) => NONE,
    }
}

/// Writes the digits of bytes, in lower case, to a buffer of twice their length.
pub fn write_digits(bytes: &[u8], out: &mut [u8])
    requires { length out.old ≡ 2 * length bytes.now }
    ensures { out.new ≡ encode_lower bytes.now }
{
    'bytes: for i in 0..bytes.len() {
        let byte = bytes[i];
        out[2 * i] = digit(byte >> 4);
        out[2 * i + 1] = digit(byte & 15);
    }
}

// The digit of a value. Computed, because the loop over the bytes then runs in vector registers.
fn digit(value: u8) -> u8
    requires { value < 16 }
    ensures { result ≡ slice_index lower_digits value }
{
    if value < 10 {
        b'0' + value
    } else {
        b'a' - 10 + value
    }
}
