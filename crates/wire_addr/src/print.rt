//! The parts of printed addresses, appended to a string of fixed capacity.

ghost use Rattle.std.specs.Prelude.{◌≡◌, ◌+◌, ◌-◌, ◌*◌, ◌/◌, ◌%◌, ◌≤◌, [], ◌∷◌, ◌++◌, decimal, drop, length, take};
ghost use Rattle.std.specs.Str.{IsAscii};
ghost use Rattle.arrayvec.specs.ArrayString.{array_string_len};
ghost use Rattle.wire_addr.specs.Printed.{WritesAt, colon_hex, dashed, dotted, hex, hex_byte};

use crate::tables::{decimal_dots, hex_pair};
use arrayvec::ArrayString;

/// Appends ASCII bytes. There must be room, here and below.
pub(crate) fn push_ascii<const CAP: usize>(text: &mut ArrayString<CAP>, bytes: &[u8])
    requires ascii { IsAscii bytes.now }
    requires room { array_string_len text.old + length bytes.now ≤ CAP }
    ensures bytes { text.new.bytes ≡ text.old.bytes ++ bytes.now }
    ensures len { array_string_len text.new ≡ array_string_len text.old + length bytes.now }
{
    text.push_str(unsafe { str::from_utf8_unchecked(bytes) });
}

/// The decimal digits of a number, the hundreds first.
fn decimal_digits(n: u8) -> [u8; 3]
    ensures { result ≡ (48 + n / 100) ∷ (48 + n / 10 % 10) ∷ (48 + n % 10) ∷ [] }
{
    [b'0' + n / 100, b'0' + n / 10 % 10, b'0' + n % 10]
}

/// Copies bytes to `out`, from byte `at` on, and returns where they end.
#[inline(always)]
fn write_bytes(out: &mut [u8], at: usize, bytes: &[u8]) -> usize
    requires { at + length bytes.now ≤ length out.old }
    ensures { WritesAt out.old bytes.now at out.new result }
{
    let end = at + bytes.len();
    out[at..end].copy_from_slice(bytes);
    end
}

/// Writes a number in decimal to `out`, from byte `at` on, and returns where it ends.
#[tactic(auto, using(crate::proofs::Digits::decimal_one, crate::proofs::Digits::decimal_two, crate::proofs::Digits::decimal_three))]
#[inline(always)]
fn write_decimal(out: &mut [u8], at: usize, n: u8) -> usize
    requires { at + 3 ≤ length out.old }
    ensures written { WritesAt out.old (decimal n) at out.new result }
    ensures most { result ≤ at + 3 }
{
    let digits = decimal_digits(n);
    match n {
        100.. => write_bytes(out, at, &digits),
        10.. => write_bytes(out, at, &digits[1..]),
        _ => write_bytes(out, at, &digits[2..]),
    }
}

/// Writes four decimal numbers joined by `.` to the front of `out`, and returns their length.
#[tactic(auto, using(crate::proofs::Written::dotted_written))]
pub(crate) fn write_dotted(out: &mut [u8], octets: [u8; 4]) -> usize
    requires { 15 ≤ length out.old }
    ensures len { result ≡ length (dotted octets) }
    ensures bytes { out.new ≡ dotted octets ++ drop result out.old }
    ensures most { result ≤ 15 }
{
    let [a, b, c, d] = octets;
    let first = write_decimal(out, 0, a);
    let dot = write_bytes(out, first, b".");
    let second = write_decimal(out, dot, b);
    let dot = write_bytes(out, second, b".");
    let third = write_decimal(out, dot, c);
    let dot = write_bytes(out, third, b".");
    write_decimal(out, dot, d)
}

/// Appends the first bytes of some ASCII bytes. There must be room for all of them.
#[inline(always)]
fn push_front<const CAP: usize>(text: &mut ArrayString<CAP>, bytes: &[u8], len: usize)
    requires ascii { IsAscii bytes.now }
    requires front { len ≤ length bytes.now }
    requires room { array_string_len text.old + length bytes.now ≤ CAP }
    ensures bytes { text.new.bytes ≡ text.old.bytes ++ take len bytes.now }
    ensures len { array_string_len text.new ≡ array_string_len text.old + len }
{
    let end = text.len() + len;
    push_ascii(text, bytes);
    text.truncate(end);
}

/// The number of decimal digits.
#[tactic(auto, using(crate::proofs::Digits::decimal_one, crate::proofs::Digits::decimal_two, crate::proofs::Digits::decimal_three))]
#[inline(always)]
fn decimal_len(n: u8) -> usize
    ensures len { result ≡ length (decimal n) }
    ensures most { result ≤ 3 }
{
    match n {
        100.. => 3,
        10.. => 2,
        _ => 1,
    }
}

/// Appends a number in decimal.
#[inline(always)]
fn push_decimal<const CAP: usize>(text: &mut ArrayString<CAP>, n: u8)
    requires { array_string_len text.old + 3 ≤ CAP }
    ensures bytes { text.new.bytes ≡ text.old.bytes ++ decimal n }
    ensures len { array_string_len text.new ≤ array_string_len text.old + 3 }
{
    push_front(text, &decimal_dots(n)[..3], decimal_len(n));
}

/// Appends a number in decimal and a `.`.
#[inline(always)]
fn push_decimal_dot<const CAP: usize>(text: &mut ArrayString<CAP>, n: u8)
    requires { array_string_len text.old + 4 ≤ CAP }
    ensures bytes { text.new.bytes ≡ text.old.bytes ++ decimal n ++ 46 ∷ [] }
    ensures len { array_string_len text.new ≤ array_string_len text.old + 4 }
{
    push_front(text, &decimal_dots(n), decimal_len(n) + 1);
}

/// Appends an IPv4 address: four decimal numbers joined by `.`.
pub fn push_dotted<const CAP: usize>(text: &mut ArrayString<CAP>, octets: [u8; 4])
    requires { array_string_len text.old + 15 ≤ CAP }
    ensures bytes { text.new.bytes ≡ text.old.bytes ++ dotted octets }
    ensures len { array_string_len text.new ≤ array_string_len text.old + 15 }
{
    let [a, b, c, d] = octets;
    push_decimal_dot(text, a);
    push_decimal_dot(text, b);
    push_decimal_dot(text, c);
    push_decimal(text, d);
}

/// Appends a byte in two lower-case hex digits.
#[inline(always)]
pub fn push_hex_byte<const CAP: usize>(text: &mut ArrayString<CAP>, octet: u8)
    requires { array_string_len text.old + 2 ≤ CAP }
    ensures bytes { text.new.bytes ≡ text.old.bytes ++ hex_byte octet }
    ensures len { array_string_len text.new ≡ array_string_len text.old + 2 }
{
    let (high, low) = hex_pair(octet);
    push_ascii(text, &[high, low]);
}

/// Appends an Ethernet address: two lower-case hex digits for each byte, joined by `-`.
#[inline(always)]
pub fn push_dashed<const CAP: usize>(text: &mut ArrayString<CAP>, octets: [u8; 6])
    requires { array_string_len text.old + 17 ≤ CAP }
    ensures bytes { text.new.bytes ≡ text.old.bytes ++ dashed octets }
    ensures len { array_string_len text.new ≡ array_string_len text.old + 17 }
{
    let [a, b, c, d, e, f] = octets;
    let (a, b, c) = (hex_pair(a), hex_pair(b), hex_pair(c));
    let (d, e, f) = (hex_pair(d), hex_pair(e), hex_pair(f));
    push_ascii(
        text,
        &[
            a.0, a.1, b'-', b.0, b.1, b'-', c.0, c.1, b'-', d.0, d.1, b'-', e.0, e.1, b'-', f.0,
            f.1,
        ],
    );
}

/// Appends a group in hex with no leading zeros.
#[tactic(auto, using(crate::proofs::Digits::hex_one, crate::proofs::Digits::hex_two, crate::proofs::Digits::hex_three, crate::proofs::Digits::hex_four))]
fn push_hex<const CAP: usize>(text: &mut ArrayString<CAP>, group: u16)
    requires { array_string_len text.old + 4 ≤ CAP }
    ensures bytes { text.new.bytes ≡ text.old.bytes ++ hex group }
    ensures len { array_string_len text.new ≤ array_string_len text.old + 4 }
{
    let (a, b) = hex_pair((group / 0x100) as u8);
    let (c, d) = hex_pair((group % 0x100) as u8);
    let digits = [a, b, c, d];
    match group {
        0x1000.. => push_ascii(text, &digits),
        0x100.. => push_ascii(text, &digits[1..]),
        0x10.. => push_ascii(text, &digits[2..]),
        _ => push_ascii(text, &digits[3..]),
    }
}

/// Appends groups in hex, joined by `:`.
pub(crate) fn push_groups<const CAP: usize>(text: &mut ArrayString<CAP>, groups: &[u16])
    requires { array_string_len text.old + 5 * length groups.now ≤ CAP + 1 }
    ensures bytes { text.new.bytes ≡ text.old.bytes ++ colon_hex groups.now }
    ensures len { array_string_len text.new ≤ array_string_len text.old + (5 * length groups.now - 1) }
{
    if let [first, rest @ ..] = groups {
        push_hex(text, *first);
        for group in rest {
            text.push_str(":");
            push_hex(text, *group);
        }
    }
}
