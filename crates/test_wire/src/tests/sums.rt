//! Checksums compared with a plain loop over the words.

use ip_wire::checksum::{combine, data};
use std::alloc::{AllocError, Global};

// The sum of bytes, word by word.
fn plain(bytes: &[u8]) -> u16 {
    let (words, rest) = bytes.as_chunks::<2>();
    let mut sum = 0;
    for word in words {
        sum = combine(&[sum, u16::from_be_bytes(*word)]);
    }
    match rest {
        [last] => combine(&[sum, u16::from(*last) << 8]),
        _ => sum,
    }
}

// The high bytes of the numbers that a linear congruential generator modulo 2^32 returns.
fn mixed(alloc: Global, generator: (u32, u32, u32), len: usize) -> Result<Vec<u8>, AllocError> {
    let (mut number, factor, increment) = generator;
    let mut bytes = vec![in alloc; 0; len]?;
    for byte in bytes.iter_mut() {
        number = number.wrapping_mul(factor).wrapping_add(increment);
        *byte = (number >> 24) as u8;
    }
    Ok(bytes)
}

/// A generator of mixed bytes.
const MIXED: (u32, u32, u32) = (1, 1_103_515_245, 12_345);

/// The bytes ff, and ff and fe by turns: the factor is -1, so a number is the increment less the one before it.
const FF: (u32, u32, u32) = (0xff00_0000, u32::MAX, 0xfe00_0000);

const FF_FE: (u32, u32, u32) = (0xfe00_0000, u32::MAX, 0xfd00_0000);

const LENGTHS: [usize; 13] = [1, 7, 8, 19, 20, 21, 64, 319, 320, 1500, 16383, 16384, 16447];

#[test]
fn sums_of_each_length_and_at_each_place(rt: HostRuntime) {
    let bytes = mixed(rt.alloc(), MIXED, 16_500).expect(&rt, "memory");
    for len in 0..=400 {
        let part = bytes.get(..len).unwrap_or(&[]);
        assert!(rt;
            part.len() == len && data(part) == plain(part),
            "of {len} bytes"
        );
    }
    for start in 0..32 {
        let rest = bytes.get(start..).unwrap_or(&[]);
        for len in LENGTHS {
            let part = rest.get(..len).unwrap_or(&[]);
            assert!(rt;
                part.len() == len && data(part) == plain(part),
                "of {len} bytes from {start} on"
            );
        }
    }
}

// The expected sums of mixed bytes are Python's, of the same bytes. Lanes begin at 8,192 bytes.
const SUMS: &[((u32, u32, u32), usize, u16)] = &[
    (FF, 131_076, 0xffff),
    (FF, 1_000_000, 0xffff),
    (FF_FE, 262_144, 0xfffd),
    (MIXED, 8_191, 0x4686),
    (MIXED, 8_192, 0x477e),
    (MIXED, 8_193, 0x9c7e),
    (MIXED, 8_223, 0xea5f),
    (MIXED, 8_224, 0xeaad),
    (MIXED, 8_225, 0xe0ae),
    (MIXED, 16_384, 0xf088),
    (MIXED, 16_415, 0xe098),
    (MIXED, 32_767, 0x3a4c),
    (MIXED, 32_768, 0x3acc),
    (MIXED, 32_799, 0xba63),
    (MIXED, 40_961, 0x9e2f),
    (MIXED, 65_537, 0xa4c4),
];

#[test]
fn sums_of_many_and_of_mixed_bytes(rt: HostRuntime) {
    for (generator, len, sum) in SUMS {
        let bytes = mixed(rt.alloc(), *generator, *len).expect(&rt, "memory");
        assert!(rt; data(&bytes) == *sum, "of {len} bytes");
    }
}
