//! A digest of results.

use std::fmt;

/// Four mixed sums of 64-bit words.
#[derive(Drop)]
pub struct Digest {
    lanes: [u64; 4],
}

impl Digest {
    /// The digest of nothing.
    pub fn new() -> Digest {
        Digest {
            lanes: [1, 2, 3, 4],
        }
    }

    /// Adds a number.
    #[inline]
    pub fn add(&mut self, word: u64) {
        self.lanes[0] = mixed(self.lanes[0], word);
    }

    /// Adds four numbers.
    #[inline]
    pub fn add_row(&mut self, row: [u64; 4]) {
        self.lanes = with_row(self.lanes, row);
    }

    /// Adds the first 64 bytes of a frame, and its length.
    pub fn add_headers(&mut self, frame: &[u8]) {
        self.add(frame.len() as u64);
        self.add_bytes(frame.get(..64).unwrap_or(frame));
    }

    /// Adds bytes, and how many there are. The last rows and words overlap, which takes less time than a loop.
    pub fn add_bytes(&mut self, bytes: &[u8]) {
        let (words, _) = bytes.as_chunks::<8>();
        let (rows, _) = words.as_chunks::<4>();
        let mut lanes = self.lanes;
        for row in rows {
            lanes = with_row(lanes, numbers(row));
        }
        match words.last_chunk::<4>() {
            Some(row) => lanes = with_row(lanes, numbers(row)),
            None => {
                for word in words {
                    lanes[0] = mixed(lanes[0], u64::from_le_bytes(*word));
                }
            }
        }
        let last = match bytes.last_chunk::<8>() {
            Some(word) => u64::from_le_bytes(*word),
            None => bytes
                .iter()
                .fold(0, |word, byte| word << 8 | u64::from(*byte)),
        };
        self.lanes = with_row(lanes, [last, bytes.len() as u64, 0, 0]);
    }
}

#[inline]
fn with_row(lanes: [u64; 4], row: [u64; 4]) -> [u64; 4] {
    [
        mixed(lanes[0], row[0]),
        mixed(lanes[1], row[1]),
        mixed(lanes[2], row[2]),
        mixed(lanes[3], row[3]),
    ]
}

#[inline]
fn numbers(row: &[[u8; 8]; 4]) -> [u64; 4] {
    let [a, b, c, d] = row;
    [
        u64::from_le_bytes(*a),
        u64::from_le_bytes(*b),
        u64::from_le_bytes(*c),
        u64::from_le_bytes(*d),
    ]
}

// Each word counts by its value and by its place.
#[inline]
fn mixed(sum: u64, word: u64) -> u64 {
    (sum.rotate_left(23) ^ word).wrapping_mul(0x9e37_79b9_7f4a_7c15)
}

impl fmt::Display for Digest {
    fn fmt<W: fmt::Write>(&self, f: &mut fmt::Formatter<W>) -> fmt::Result {
        let [a, b, c, d] = self.lanes;
        write!(f, "{a:016x}{b:016x}{c:016x}{d:016x}")
    }
}
