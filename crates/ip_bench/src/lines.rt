//! The input of the program `ip_frames`: frames as lines of hex digits.

use crate::derived::Frames;
use crate::frames::{Kind, pool};
use crate::random::Random;
use std::alloc::{AllocError, Global};

const LOWER: &[u8; 16] = b"0123456789abcdef";

const UPPER: &[u8; 16] = b"0123456789ABCDEF";

/// This many lines. One of two has capital letters, and one of 64 a byte that is no digit.
pub fn lines(alloc: Global, random: &mut Random, count: u32) -> Result<Vec<u8>, AllocError> {
    let pool = pool(alloc, random)?;
    let mut frames = Frames::new(alloc, Kind::Any)?;
    let mut text = Vec::new(alloc);
    for _ in 0..count {
        let (places, frame) = frames.next(random, pool.as_slice());
        places.vary(random, frame);
        let choice = random.word();
        let start = text.len();
        let digits = if choice % 2 == 0 { LOWER } else { UPPER };
        for byte in frame.iter() {
            text.push(digits[usize::from(*byte >> 4)])?;
            text.push(digits[usize::from(*byte % 16)])?;
        }
        if choice >> 58 == 0 {
            let line = text.as_mut_slice().get_mut(start..).unwrap_or(&mut []);
            let at = random.half() as usize % line.len().max(1);
            if let Some(digit) = line.get_mut(at) {
                *digit = b'g';
            }
        }
        text.push(b'\n')?;
    }
    Ok(text)
}
