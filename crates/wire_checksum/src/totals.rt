//! Totals of bytes. A total is any number that stands for a sum. Its 16-bit words are little-endian
//! and added with end-around carry (RFC 1071). `finish` turns it into the sum.

ghost use Rattle.std.specs.Prelude.{◌≡◌, ◌+◌, ◌*◌, ◌/◌, ◌^◌, ◌<◌, ◌≤◌, ◌%◌, length, sum, take, drop};
ghost use Rattle.wire_checksum.specs.WordSum.{residue, sum_of_bytes, words};

use std::simd::prelude::*;

// From this length on whole vectors are summed by lanes. Fewer bytes are summed faster by chains.
const LONG: usize = 8_192;

/// The sum that a total stands for. The words of a total are little-endian, so the two bytes of the
/// folded total are swapped.
#[inline]
pub fn finish(total: u64) -> u16
    ensures { result ≡ residue (256 * total) }
{
    reduce(total).swap_bytes()
}

/// Folds a number to the one's complement sum of its 16-bit words.
#[inline]
pub fn reduce(total: u64) -> u16
    ensures { result ≡ residue total }
{
    fold_to_u16(fold_to_u32(total))
}

// Folds 64 bits to 32. A number plus itself with its halves exchanged has the sum of the halves,
// with end-around carry, in its upper half.
#[tactic(auto, using(crate::proofs::Rounds::once_64))]
#[inline]
fn fold_to_u32(total: u64) -> u32
    ensures { residue result ≡ residue total }
{
    let twice = total.wrapping_add(total.rotate_left(32));
    (twice >> 32) as u32
}

// Folds 32 bits to 16 in the same way.
#[inline]
fn fold_to_u16(number: u32) -> u16
    ensures { result ≡ residue number }
{
    let twice = number.wrapping_add(number.rotate_left(16));
    (twice >> 16) as u16
}

/// Adds two totals with end-around carry.
#[inline]
pub fn around(a: u64, b: u64) -> u64
    ensures { residue (256 * result) ≡ residue (256 * (a + b)) }
{
    let sum = u128::from(a) + u128::from(b);
    (sum % (1 << 64)) as u64 + (sum >> 64) as u64
}

/// The sum of bytes. It is inlined for 8 to 255 bytes, and a call for other lengths.
#[inline(always)]
#[tactic(auto, using(crate::proofs::WordLists::with_tail))]
pub fn sum_here(bytes: &[u8]) -> u16
    ensures { result ≡ sum_of_bytes bytes.now }
{
    if bytes.len() < 8 || bytes.len() >= 256 {
        sum_apart(bytes)
    } else {
        finish(one_chain(bytes, tail(bytes)))
    }
}

// Each of these calls is the last step of its caller, so that no caller keeps a stack frame for it.
#[inline(never)]
#[tactic(auto, using(crate::proofs::WordLists::with_tail))]
fn sum_apart(bytes: &[u8]) -> u16
    ensures { result ≡ sum_of_bytes bytes.now }
{
    if bytes.len() < 8 || bytes.len() >= LONG {
        sum_of_total(bytes)
    } else {
        finish(by_words(bytes, tail(bytes)))
    }
}

#[inline(never)]
fn sum_of_total(bytes: &[u8]) -> u16
    ensures { result ≡ sum_of_bytes bytes.now }
{
    finish(total(bytes))
}

/// The total of bytes, as a call. Inlined into `checksum::packet`, it makes `parse` larger and slower,
/// also where no checksum is verified.
#[inline(never)]
#[tactic(auto, using(crate::proofs::WordLists::with_tail))]
pub fn total(bytes: &[u8]) -> u64
    ensures { residue (256 * result) ≡ sum_of_bytes bytes.now }
{
    if bytes.len() < 8 || bytes.len() >= 256 {
        total_apart(bytes)
    } else {
        one_chain(bytes, tail(bytes))
    }
}

#[inline(never)]
#[tactic(auto, using(crate::proofs::WordLists::with_tail))]
fn total_apart(bytes: &[u8]) -> u64
    ensures { residue (256 * result) ≡ sum_of_bytes bytes.now }
{
    if bytes.len() < 8 {
        plain(bytes)
    } else if bytes.len() < LONG {
        by_words(bytes, tail(bytes))
    } else {
        by_vectors(bytes)
    }
}

// The total of bytes: whole vectors of 32 bytes by lanes, the rest by the plain loop.
#[inline(never)]
fn by_vectors(bytes: &[u8]) -> u64
    ensures { residue (256 * result) ≡ sum_of_bytes bytes.now }
{
    let (vectors, rest) = bytes.split_at(bytes.len() / 32 * 32);
    around(lanes(vectors), plain(rest))
}

// Adds all whole words of 8 bytes to a total.
#[inline(always)]
fn by_words(bytes: &[u8], start: u64) -> u64
    ensures { residue (256 * result) ≡ residue (256 * start + sum (words (take (length bytes.now / 8 * 8) bytes.now))) }
{
    let (front, rest) = bytes.split_at(bytes.len() / 128 * 128);
    two_chains(front, one_chain(rest, start))
}

/// The total of at most 60 bytes in whole words of 4, such as a header or an address.
#[inline(always)]
pub fn total_of_words(bytes: &[u8]) -> u64
    requires whole { length bytes.now % 4 ≡ 0 }
    requires short { length bytes.now ≤ 60 }
    ensures { residue (256 * result) ≡ sum_of_bytes bytes.now }
{
    let (words, _) = bytes.as_chunks::<4>();
    let mut sum: u64 = 0;
    for word in words {
        sum += u64::from(u32::from_le_bytes(*word));
    }
    sum
}

// The total of the bytes after the last whole word of 8 bytes. They are the end of the last 8
// bytes.
#[tactic(auto, using(crate::proofs::Ends::end_of))]
#[inline]
fn tail(bytes: &[u8]) -> u64
    requires { 8 ≤ length bytes.now }
    ensures { residue (256 * result) ≡ sum_of_bytes (drop (length bytes.now / 8 * 8) bytes.now) }
{
    match bytes.last_chunk::<8>() {
        Some(last) => (u64::from_le_bytes(*last) >> 8) >> (56 - 8 * (bytes.len() % 8)),
        None => unreachable!(),
    }
}

// The total of bytes, by a plain loop over their 16-bit words.
#[inline]
fn plain(bytes: &[u8]) -> u64
    requires { length bytes.now ≤ 8192 }
    ensures { residue (256 * result) ≡ sum_of_bytes bytes.now }
{
    let (pairs, rest) = bytes.as_chunks::<2>();
    let mut sum: u64 = 0;
    for pair in pairs {
        sum += u64::from(u16::from_le_bytes(*pair));
    }
    match rest {
        [last] => sum + u64::from(*last),
        _ => sum,
    }
}

// Adds a word to a chain, which is a number and the carry that the last addition left. The carry is
// added with the word.
#[tactic(auto, using(crate::proofs::Chains::word_added))]
#[inline(always)]
fn add(chain: (u64, u64), word: &[u8; 8]) -> (u64, u64)
    requires { chain.0 + chain.1 < 2 ^ 64 }
    ensures value { residue (256 * (result.0 + result.1)) ≡ residue (256 * (chain.0 + chain.1) + sum (words word.now)) }
    ensures small { result.0 + result.1 < 2 ^ 64 }
{
    let sum = u128::from(chain.0) + u128::from(u64::from_le_bytes(*word)) + u128::from(chain.1);
    ((sum % (1 << 64)) as u64, (sum >> 64) as u64)
}

// Adds two words to a chain.
#[inline(always)]
fn add_two(chain: (u64, u64), bytes: &[u8; 16]) -> (u64, u64)
    requires { chain.0 + chain.1 < 2 ^ 64 }
    ensures value { residue (256 * (result.0 + result.1)) ≡ residue (256 * (chain.0 + chain.1) + sum (words bytes.now)) }
    ensures small { result.0 + result.1 < 2 ^ 64 }
{
    let (halves, _) = bytes.as_chunks::<8>();
    add(add(chain, &halves[0]), &halves[1])
}

// Adds four words to a chain.
#[inline(always)]
fn add_four(chain: (u64, u64), bytes: &[u8; 32]) -> (u64, u64)
    requires { chain.0 + chain.1 < 2 ^ 64 }
    ensures value { residue (256 * (result.0 + result.1)) ≡ residue (256 * (chain.0 + chain.1) + sum (words bytes.now)) }
    ensures small { result.0 + result.1 < 2 ^ 64 }
{
    let (halves, _) = bytes.as_chunks::<16>();
    add_two(add_two(chain, &halves[0]), &halves[1])
}

// Adds four words to a total.
#[inline(always)]
fn add_chunk(start: u64, bytes: &[u8; 32]) -> u64
    ensures { residue (256 * result) ≡ residue (256 * start + sum (words bytes.now)) }
{
    let (sum, carry) = add_four((start, 0), bytes);
    sum + carry
}

// Adds eight words to a total.
#[inline(always)]
fn add_eight(start: u64, bytes: &[u8; 64]) -> u64
    ensures { residue (256 * result) ≡ residue (256 * start + sum (words bytes.now)) }
{
    let (halves, _) = bytes.as_chunks::<32>();
    let (sum, carry) = add_four(add_four((start, 0), &halves[0]), &halves[1]);
    sum + carry
}

// Adds all whole words of 8 bytes to a total. The words after the chunks come first, which needs
// fewer jumps.
#[inline]
fn one_chain(bytes: &[u8], start: u64) -> u64
    ensures { residue (256 * result) ≡ residue (256 * start + sum (words (take (length bytes.now / 8 * 8) bytes.now))) }
{
    let (chunks, rest) = bytes.as_chunks::<32>();
    let mut sum = last_words(rest, start);
    for chunk in chunks {
        sum = add_chunk(sum, chunk);
    }
    sum
}

// Adds at most three whole words of 8 bytes to a total.
#[inline]
fn last_words(bytes: &[u8], start: u64) -> u64
    requires { length bytes.now < 32 }
    ensures { residue (256 * result) ≡ residue (256 * start + sum (words (take (length bytes.now / 8 * 8) bytes.now))) }
{
    let (words, _) = bytes.as_chunks::<8>();
    let mut sum = start;
    if words.len() >= 2 {
        sum = around(
            around(sum, u64::from_le_bytes(words[0])),
            u64::from_le_bytes(words[1]),
        );
    }
    if words.len() % 2 == 1 {
        sum = around(sum, u64::from_le_bytes(words[words.len() - 1]));
    }
    sum
}

// Adds whole blocks of 128 bytes to a total. Each half of a block has its own sum, so that one addition
// need not wait for the other.
#[inline]
fn two_chains(bytes: &[u8], start: u64) -> u64
    requires { length bytes.now % 128 ≡ 0 }
    ensures { residue (256 * result) ≡ residue (256 * start + sum (words bytes.now)) }
{
    let (blocks, _) = bytes.as_chunks::<128>();
    let mut first = start;
    let mut second: u64 = 0;
    for block in blocks {
        let (halves, _) = block.as_chunks::<64>();
        first = add_eight(first, &halves[0]);
        second = add_eight(second, &halves[1]);
    }
    around(first, second)
}

// The total of whole vectors of 32 bytes.
fn lanes(bytes: &[u8]) -> u64
    requires { length bytes.now % 32 ≡ 0 }
    ensures { residue (256 * result) ≡ sum_of_bytes bytes.now }
{
    let (blocks, rest) = bytes.as_chunks::<8192>();
    let mut sum: u128 = 0;
    for block in blocks {
        sum += u128::from(by_lanes(block));
    }
    sum += u128::from(by_lanes(rest));
    let high = (sum >> 64) as u64;
    let low = (sum % (1 << 64)) as u64;
    256 * (high + (low >> 32) + low % (1 << 32))
}

// The plain sum of the words of whole vectors. Bytes at even places are the high bytes of words.
// `odd` sums the bytes at odd places: its lanes have 16 bits, which hold the sum of up to 257
// bytes. `all` sums the bytes at even places and 256 times those at odd places, modulo 65536.
fn by_lanes(bytes: &[u8]) -> u64
    requires whole { length bytes.now % 32 ≡ 0 }
    requires short { length bytes.now ≤ 8192 }
    ensures value { result ≡ sum (words bytes.now) }
    ensures small { result < 2 ^ 32 }
{
    let (vectors, _) = bytes.as_chunks::<32>();
    let mut all = u16x16::splat(0);
    let mut odd = u16x16::splat(0);
    for vector in vectors {
        let pairs = u16x16::from_le_bytes(u8x32::from_array(*vector));
        all = all + pairs;
        odd = odd.strict_add(pairs >> u16x16::splat(8));
    }
    let even = all - (odd << u16x16::splat(8));
    let even = u64::from(even.cast::<u32>().strict_reduce_sum());
    256 * even + u64::from(odd.cast::<u32>().strict_reduce_sum())
}
