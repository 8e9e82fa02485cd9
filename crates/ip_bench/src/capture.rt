//! Frames of a capture are read into the fields that C sees, and written again. Some are damaged or cut.

use crate::derived::Frames;
use crate::digest::Digest;
use crate::frames::{Kind, ROOM, pool};
use crate::random::Random;
use c_read::read_frame;
use c_structs::{Endpoint, FrameFields};
use c_write::rebuild_frame;
use std::alloc::{AllocError, Global};

/// Reads and rebuilds this many frames. Of one of four rebuilt frames the digest has all bytes, of the others the
/// headers.
pub fn run(alloc: Global, random: &mut Random, count: u32) -> Result<Digest, AllocError> {
    let pool = pool(alloc, random)?;
    let mut frames = Frames::new(alloc, Kind::Any)?;
    let mut again = vec![in alloc; 0; ROOM]?;
    let mut digest = Digest::new();
    let mut fields = FrameFields::nothing(0);
    for i in 0..count {
        let (places, frame) = frames.next(random, pool.as_slice());
        places.vary(random, frame);
        let damage = Damage::new(random, frame.len());
        damage.turn(frame);
        let bytes = frame.get(..damage.len).unwrap_or(&[]);
        read_frame(&mut fields, bytes);
        let rebuilt = rebuild_frame(bytes, again.as_mut_slice());
        add_fields(&fields, &mut digest);
        match rebuilt.and_then(|n| again.as_slice().get(..n)) {
            Some(written) if i % 4 == 0 => digest.add_bytes(written),
            Some(written) => digest.add_headers(written),
            None => digest.add(u64::MAX),
        }
        damage.turn(frame);
    }
    Ok(digest)
}

// A byte of one of 16 frames is changed, and one of 64 is cut.
#[derive(Clone, Copy)]
struct Damage {
    at: usize,
    change: u8,
    len: usize,
}

impl Damage {
    fn new(random: &mut Random, len: usize) -> Damage {
        let word = random.word();
        let none = Damage {
            at: 0,
            change: 0,
            len,
        };
        match word % 64 {
            0 => Damage {
                len: place(word, len),
                ..none
            },
            1..=4 => Damage {
                at: place(word, len),
                change: (word >> 56) as u8,
                ..none
            },
            _ => none,
        }
    }

    // Changes the byte, or changes it back.
    fn turn(&self, frame: &mut [u8]) {
        if let Some(byte) = frame.get_mut(self.at) {
            *byte ^= self.change;
        }
    }
}

// A place below a length.
fn place(word: u64, len: usize) -> usize {
    ((word >> 32) as usize) % len.max(1)
}

fn add_fields(fields: &FrameFields, digest: &mut Digest) {
    let FrameFields {
        src,
        dst,
        ethernet,
        arp,
        ip,
        tcp,
        ..
    } = *fields;
    digest.add_row([
        codes_of(fields),
        offsets_of(fields),
        word_of(ethernet.src, ethernet.ethertype),
        word_of(ethernet.dst, arp.operation),
    ]);
    add_octets(&src, &dst, digest);
    let [offset_high, offset_low] = ip.fragment_offset.to_be_bytes();
    digest.add_row([
        u64::from(src.port) << 48
            | u64::from(dst.port) << 32
            | u64::from(src.addr.version) << 16
            | u64::from(dst.addr.version) << 8
            | u64::from(tcp.header_len),
        u64::from(tcp.seq_number) << 32 | u64::from(tcp.ack_number),
        u64::from(ip.ident) << 32 | u64::from(ip.flow_label),
        u64::from_le_bytes([
            ip.protocol,
            ip.hop_limit,
            ip.dscp,
            ip.ecn,
            ip.more_fragments,
            ip.dont_fragment,
            offset_high,
            offset_low,
        ]),
    ]);
    digest.add_row([
        word_of(arp.src_hardware, tcp.window_len),
        word_of(arp.dst_hardware, tcp.urgent_at),
        0,
        0,
    ]);
}

fn codes_of(fields: &FrameFields) -> u64 {
    u64::from_le_bytes([
        fields.reason,
        fields.network,
        fields.transport,
        fields.rejected,
        fields.is_fragment,
        fields.ipv4_checksum,
        fields.transport_checksum,
        fields.tcp.flags,
    ])
}

// A frame that is made here has less than 65,536 bytes.
fn offsets_of(fields: &FrameFields) -> u64 {
    (fields.network_offset as u64) << 48
        | (fields.transport_offset as u64) << 32
        | (fields.payload_offset as u64) << 16
        | fields.payload_len as u64
}

fn add_octets(src: &Endpoint, dst: &Endpoint, digest: &mut Digest) {
    let (src, dst) = (
        u128::from_le_bytes(src.addr.octets),
        u128::from_le_bytes(dst.addr.octets),
    );
    digest.add_row([low(src), (src >> 64) as u64, low(dst), (dst >> 64) as u64]);
}

fn low(bits: u128) -> u64 {
    (bits % (1 << 64)) as u64
}

// An Ethernet address and a number of 16 bits.
fn word_of(addr: [u8; 6], half: u16) -> u64 {
    let [a, b, c, d, e, f] = addr;
    u64::from_le_bytes([a, b, c, d, e, f, 0, 0]) | u64::from(half) << 48
}
