//! Frames that are made once and used 64 times, each time with other addresses and ports. So a workload spends little
//! of its time on its input.

ghost use Rattle.std.specs.Prelude.{◌≤◌, ◌<◌, ◌^◌};

use crate::frames::{Kind, ROOM};
use crate::random::Random;
use ip_wire::{Ipv4Address, Ipv6Address};
use std::alloc::{AllocError, Global};

// How many frames there are at a time, and how often each is used before another takes its room.
const FRAMES: u32 = 64;

const USES: u8 = 64;

/// Frames of one kind.
#[derive(Drop)]
pub struct Frames {
    kind: Kind,
    rooms: Vec<u8>,
    slots: Vec<Slot>,
}

#[derive(Clone, Copy)]
struct Slot {
    len: usize,
    uses: u8,
    places: Places,
}

impl Frames {
    /// No frames yet.
    pub fn new(alloc: Global, kind: Kind) -> Result<Frames, AllocError> {
        let unused = Slot {
            len: 0,
            uses: 0,
            places: ABSENT,
        };
        Ok(Frames {
            kind,
            rooms: vec![in alloc; 0; FRAMES as usize * ROOM]?,
            slots: vec![in alloc; unused; FRAMES as usize]?,
        })
    }

    /// One of the frames, as its last user left it.
    #[inline]
    pub fn next(&mut self, random: &mut Random, pool: &[u8]) -> (Places, &mut [u8]) {
        let number = random.below(FRAMES) as usize;
        let start = number * ROOM;
        let (Some(slot), Some(room)) = (
            self.slots.as_mut_slice().get_mut(number),
            self.rooms.as_mut_slice().get_mut(start..start + ROOM),
        ) else {
            return (ABSENT, &mut []);
        };
        match slot.uses.checked_sub(1) {
            Some(uses) => slot.uses = uses,
            None => *slot = self.kind.made(random, pool, room),
        }
        (slot.places, room.get_mut(..slot.len).unwrap_or(&mut []))
    }
}

impl Kind {
    #[inline(never)]
    fn made(self, random: &mut Random, pool: &[u8], room: &mut [u8]) -> Slot {
        let len = self.put(random, pool, room);
        Slot {
            len,
            uses: USES - 1,
            places: Places::of(room.get(..len).unwrap_or(&[])),
        }
    }
}

/// Where the numbers are that change in a frame. Those that it lacks are nowhere.
#[derive(Clone, Copy)]
pub struct Places {
    src: usize,
    dst: usize,
    header_checksum: usize,
    ports: usize,
    payload: usize,
    checksum: usize,
}

const NOWHERE: usize = usize::MAX;

const ABSENT: Places = Places {
    src: NOWHERE,
    dst: NOWHERE,
    header_checksum: NOWHERE,
    ports: NOWHERE,
    payload: NOWHERE,
    checksum: NOWHERE,
};

impl Places {
    // The places in a frame without IPv4 options. Of an IPv6 address the last word changes, and of ARP the address of
    // the sender.
    fn of(frame: &[u8]) -> Places {
        match half_at(frame, 12) {
            0x0800 => Places {
                src: 26,
                dst: 30,
                header_checksum: 24,
                ..Places::of_transport(frame, 34, byte_at(frame, 23))
            },
            0x86dd => Places {
                src: 34,
                dst: 50,
                ..Places::of_transport(frame, 54, byte_at(frame, 20))
            },
            _ => Places { src: 28, ..ABSENT },
        }
    }

    fn of_transport(frame: &[u8], at: usize, protocol: u8) -> Places
        requires { at ≤ 54 }
    {
        match protocol {
            6 => Places {
                ports: at,
                payload: at + usize::from(byte_at(frame, at + 12) >> 4) * 4,
                checksum: at + 16,
                ..ABSENT
            },
            17 => Places {
                ports: at,
                payload: at + 8,
                checksum: at + 6,
                ..ABSENT
            },
            _ => ABSENT,
        }
    }

    /// Changes the addresses, the ports and the payload.
    #[inline]
    pub fn vary(&self, random: &mut Random, frame: &mut [u8]) {
        let word = random.word();
        let (high, low) = ((word >> 32) as u32, (word % (1 << 32)) as u32);
        let addresses = put(frame, self.src, low) + put(frame, self.dst, high);
        // Readers reject a port of 0.
        let ports = put(frame, self.ports, low | 0x1_0001);
        let payload = put(frame, self.payload, high);
        update(frame, self.header_checksum, addresses);
        update(frame, self.checksum, addresses + ports + payload);
    }

    /// Sets the endpoints of an IPv4 packet.
    #[inline]
    pub fn set_ipv4(&self, frame: &mut [u8], src: (Ipv4Address, u16), dst: (Ipv4Address, u16)) {
        let addresses = put(frame, 26, src.0.to_bits()) + put(frame, 30, dst.0.to_bits());
        let ports = put(frame, self.ports, both(src.1, dst.1));
        update(frame, self.header_checksum, addresses);
        update(frame, self.checksum, addresses + ports);
    }

    /// Sets the endpoints of an IPv6 packet.
    pub fn set_ipv6(&self, frame: &mut [u8], src: (Ipv6Address, u16), dst: (Ipv6Address, u16)) {
        let addresses = put_bits(frame, 22, src.0.to_bits()) + put_bits(frame, 38, dst.0.to_bits());
        let ports = put(frame, self.ports, both(src.1, dst.1));
        update(frame, self.checksum, addresses + ports);
    }
}

fn both(first: u16, second: u16) -> u32 {
    u32::from(first) << 16 | u32::from(second)
}

fn put_bits(frame: &mut [u8], at: usize, bits: u128) -> u64
    requires { at ≤ 38 }
    ensures { result < 2 ^ 35 }
{
    put(frame, at, (bits >> 96) as u32)
        + put(frame, at + 4, ((bits >> 64) % (1 << 32)) as u32)
        + put(frame, at + 8, ((bits >> 32) % (1 << 32)) as u32)
        + put(frame, at + 12, (bits % (1 << 32)) as u32)
}

// Writes a word at a place, if the frame has it. Returns by how much that raises the sum of its 16-bit words, modulo
// 65535.
fn put(frame: &mut [u8], at: usize, word: u32) -> u64
    ensures { result < 2 ^ 33 }
{
    let Some(rest) = frame.get_mut(at..) else {
        return 0;
    };
    let Some(place) = rest.first_chunk_mut::<4>() else {
        return 0;
    };
    let old = u32::from_be_bytes(*place);
    *place = word.to_be_bytes();
    u64::from(!old) + u64::from(word)
}

// Updates the checksum at a place (RFC 1624), if the frame has it. It never becomes 0, which in UDP means that there is
// none.
fn update(frame: &mut [u8], at: usize, change: u64)
    requires { change < 2 ^ 40 }
{
    let Some(rest) = frame.get_mut(at..) else {
        return;
    };
    let Some(place) = rest.first_chunk_mut::<2>() else {
        return;
    };
    let sum = u64::from(!u16::from_be_bytes(*place)) + change;
    *place = (!((sum % 65535) as u16)).to_be_bytes();
}

/// The 16-bit number at a place, or 0 if the frame ends before it.
pub fn half_at(frame: &[u8], at: usize) -> u16 {
    match frame.get(at..).and_then(|rest| rest.first_chunk::<2>()) {
        Some(half) => u16::from_be_bytes(*half),
        None => 0,
    }
}

fn byte_at(frame: &[u8], at: usize) -> u8 {
    frame.get(at).map_or(0, |byte| *byte)
}
