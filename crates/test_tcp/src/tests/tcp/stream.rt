//! Two hosts over a network that loses, repeats and reorders: what one wrote the other one reads, over the end of the
//! sequence numbers.

use tcp_stream::{Blocks, Receiving, Sending};

/// The size of a ring, the segments and acknowledgements that the network keeps, and the longest segment.
const SIZE: usize = 16;

const SLOTS: usize = 4;

const MSS: usize = 6;

/// How many bytes are written in one direction.
const WRITTEN: usize = 100;

/// A segment that the network keeps.
#[derive(Debug, Clone, Copy)]
struct Packet {
    number: u32,
    syn: bool,
    fin: bool,
    len: usize,
    bytes: [u8; MSS],
}

/// One direction of a connection: a sender, a receiver, and what is between them.
#[derive(Debug, Clone, Copy)]
struct Direction {
    sending: Sending,
    receiving: Receiving,
    outgoing: [u8; SIZE],
    incoming: [u8; SIZE],
    segments: [Option<Packet>; SLOTS],
    acks: [Option<u32>; SLOTS],
    written: usize,
    read: usize,
    is_right: bool,
}

/// The byte that is written at a place.
fn byte_at(place: usize) -> u8 {
    (place % 251) as u8
}

impl Direction {
    fn new(initial: u32) -> Direction {
        Direction {
            sending: Sending::new(initial),
            receiving: Receiving::new(),
            outgoing: [0; SIZE],
            incoming: [0; SIZE],
            segments: [None; SLOTS],
            acks: [None; SLOTS],
            written: 0,
            read: 0,
            is_right: true,
        }
    }

    /// Writes one byte, or closes after the last.
    fn write(&mut self) {
        if !self.sending.fits(SIZE) {
            return;
        }
        if self.written >= WRITTEN {
            self.sending.close();
            return;
        }
        let byte = [byte_at(self.written)];
        if self.sending.write(&mut self.outgoing, &byte) == 1 {
            self.written += 1;
        }
    }

    /// Sends a segment, which takes the place of another one in the network.
    fn send(&mut self, slot: usize, offset: usize, count: usize) {
        if !self.sending.fits(SIZE) {
            return;
        }
        let segment = self.sending.segment(&self.outgoing, offset, count);
        let len = segment.payload.len();
        if len > MSS {
            self.is_right = false;
            return;
        }
        let mut bytes = [0; MSS];
        bytes[..len].copy_from_slice(segment.payload);
        self.segments[slot % SLOTS] = Some(Packet {
            number: segment.number,
            syn: segment.syn,
            fin: segment.fin,
            len,
            bytes,
        });
    }

    /// A segment comes, perhaps for the second time.
    fn deliver(&mut self, slot: usize) {
        if !self.receiving.fits(SIZE) {
            return;
        }
        if let Some(packet) = self.segments[slot % SLOTS] {
            if packet.syn {
                self.receiving.on_syn(packet.number);
            } else if packet.len <= MSS {
                let payload = &packet.bytes[..packet.len];
                self.receiving
                    .on_segment(&mut self.incoming, packet.number, payload, packet.fin);
            }
        }
    }

    /// The receiver acknowledges.
    fn answer(&mut self, slot: usize) {
        self.acks[slot % SLOTS] = self.receiving.next();
    }

    /// An acknowledgement comes, perhaps for the second time.
    fn acknowledge(&mut self, slot: usize) {
        if !self.sending.fits(SIZE) {
            return;
        }
        if let Some(number) = self.acks[slot % SLOTS] {
            self.sending.on_ack(&self.outgoing, number);
        }
    }

    /// The application reads, and compares with what was written.
    fn read(&mut self, count: usize) {
        if !self.receiving.fits(SIZE) {
            return;
        }
        for byte in self.receiving.read(&self.incoming, count) {
            if *byte != byte_at(self.read) || self.read >= WRITTEN {
                self.is_right = false;
                return;
            }
            self.read += 1;
        }
    }

    /// One of these, by a number.
    fn step(&mut self, draw: u32) {
        let slot = (draw >> 8) as usize;
        let count = (draw >> 16) as usize % MSS + 1;
        match draw % 8 {
            0 | 1 => self.write(),
            2 => self.send(slot, 0, count),
            3 => self.send(slot, (draw >> 20) as usize % SIZE, count),
            4 | 5 => self.deliver(slot),
            6 => {
                self.answer(slot);
                self.acknowledge(slot >> 2);
            }
            _ => self.read(count),
        }
        if self.receiving.is_ended() && self.read != WRITTEN {
            self.is_right = false;
        }
    }

    /// A round without loss.
    fn round(&mut self) {
        self.write();
        self.send(0, 0, MSS);
        self.deliver(0);
        self.answer(0);
        self.acknowledge(0);
        self.read(SIZE);
    }
}

#[test]
fn bytes_come_in_order(rt: HostRuntime) {
    for seed in 0..2000u32 {
        let mut draw = seed.wrapping_mul(2654435761);
        let mut there = Direction::new(0u32.wrapping_sub(seed % 90));
        let mut back = Direction::new(draw);
        for _ in 0..400 {
            draw = draw.wrapping_mul(1664525).wrapping_add(1013904223);
            there.step(draw >> 4);
            back.step(draw >> 7);
        }
        let early = there.read;
        for _ in 0..200 {
            there.round();
            back.round();
        }
        assert!(rt; there.is_right && back.is_right, "seed {seed}");
        assert!(rt;
            there.receiving.is_ended() && back.receiving.is_ended(),
            "seed {seed}, {early} read"
        );
        assert_eq!(rt; there.read, WRITTEN, "seed {seed}");
    }
}

/// Four segments come with the first as the last one. What is kept after gaps, and how much is acknowledged at the end.
fn first_comes_last(initial: u32, order: [usize; 3]) -> (Blocks, Option<u32>, usize) {
    let mut direction = Direction::new(initial);
    direction.send(0, 0, 1);
    direction.deliver(0);
    direction.answer(0);
    direction.acknowledge(0);
    for _ in 0..SIZE {
        direction.write();
    }
    for slot in 0..SLOTS {
        direction.send(slot, slot * 4, 4);
    }
    for slot in order {
        direction.deliver(slot);
    }
    let kept = direction.receiving.blocks();
    direction.deliver(0);
    direction.read(SIZE);
    direction.read(SIZE);
    let read = if direction.is_right {
        direction.read
    } else {
        0
    };
    (kept, direction.receiving.next(), read)
}

#[test]
fn what_comes_after_a_gap_is_kept(rt: HostRuntime) {
    // The SYN and 5 bytes have the numbers before 0.
    let initial = 0u32.wrapping_sub(6);
    let all = Some(11);
    for order in [[1, 2, 3], [2, 1, 3], [3, 2, 1], [2, 3, 1], [3, 1, 2]] {
        let (kept, next, read) = first_comes_last(initial, order);
        assert_eq!(rt; kept, [Some((u32::MAX, 11)), None, None, None], "{order:?}");
        assert_eq!(rt; next, all, "{order:?}");
        assert_eq!(rt; read, SIZE, "{order:?}");
    }
    // Of two pieces apart, the one that came last is told first.
    let low = Some((u32::MAX, 3));
    let high = Some((7, 11));
    let (kept, next, read) = first_comes_last(initial, [3, 1, 1]);
    assert_eq!(rt; kept, [low, high, None, None]);
    assert_eq!(rt; next, Some(3));
    assert_eq!(rt; read, 8);
    assert_eq!(rt;
        first_comes_last(initial, [1, 3, 3]).0,
        [high, low, None, None]
    );
}

/// A receiver whose SYN came, in a ring of 64 bytes. RCV.NXT is 0.
fn receiver() -> (Receiving, [u8; 64]) {
    let mut receiving = Receiving::new();
    receiving.on_syn(u32::MAX);
    (receiving, [0; 64])
}

// Eight pieces of one byte, with a byte between them. A ninth one is dropped, the eighth of them grows.
#[test]
fn eight_pieces(rt: HostRuntime) {
    let (mut receiving, mut ring) = receiver();
    for place in (1..17).step_by(2) {
        receiving.on_segment(&mut ring, place, &[place as u8], false);
    }
    assert_eq!(rt;
        receiving.blocks(),
        [Some((15, 16)), Some((1, 2)), Some((3, 4)), None]
    );
    receiving.on_segment(&mut ring, 17, &[17], false);
    assert_eq!(rt; receiving.blocks()[0], Some((15, 16)));
    receiving.on_segment(&mut ring, 16, &[16], false);
    assert_eq!(rt; receiving.blocks()[0], Some((15, 17)));
    for place in (0..16).step_by(2) {
        assert_eq!(rt; receiving.next(), Some(place));
        receiving.on_segment(&mut ring, place, &[place as u8], false);
    }
    assert_eq!(rt; receiving.next(), Some(17));
    assert!(rt; !receiving.has_gap());
    let bytes = receiving.read(&ring, 64);
    assert_eq!(rt; bytes.len(), 17);
    for (place, byte) in bytes.iter().enumerate() {
        assert_eq!(rt; *byte as usize, place);
    }
}

// A FIN comes before the bytes that it follows, with some of them and alone.
#[test]
fn an_early_fin(rt: HostRuntime) {
    for payload in [&[2u8, 3][..], &[][..]] {
        let (mut receiving, mut ring) = receiver();
        receiving.on_segment(&mut ring, 4 - payload.len() as u32, payload, true);
        assert!(rt; !receiving.has_fin());
        receiving.on_segment(&mut ring, 0, &[0, 1], false);
        if payload.is_empty() {
            receiving.on_segment(&mut ring, 2, &[2, 3], false);
        }
        assert!(rt; receiving.has_fin());
        assert_eq!(rt; receiving.next(), Some(5));
        assert_eq!(rt; receiving.read(&ring, 64).len(), 4);
        assert!(rt; receiving.is_ended());
    }
}
