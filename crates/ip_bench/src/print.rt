//! Frames are read and printed, a line for each layer.

use crate::derived::Frames;
use crate::digest::Digest;
use crate::frames::{Kind, pool};
use crate::random::Random;
use ip_wire::{ChecksumCapabilities, Frame};
use std::alloc::{AllocError, Global};

/// Prints this many frames.
pub fn run(alloc: Global, random: &mut Random, count: u32) -> Result<Digest, AllocError> {
    let pool = pool(alloc, random)?;
    let mut frames = Frames::new(alloc, Kind::Any)?;
    let mut text = String::new(alloc);
    let mut digest = Digest::new();
    let caps = ChecksumCapabilities::default();
    for _ in 0..count {
        let (places, bytes) = frames.next(random, pool.as_slice());
        places.vary(random, bytes);
        text.clear();
        if let Ok(frame) = Frame::read(bytes, &caps) {
            writeln!(text, "{frame}")?;
        }
        digest.add_bytes(text.as_bytes());
    }
    Ok(digest)
}
