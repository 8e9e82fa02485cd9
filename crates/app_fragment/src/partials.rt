//! A table of packets that are put together from their fragments, in memory of the caller.

ghost use Rattle.std.specs.Prelude.{◌≡◌, ◌↔◌, ◌*◌, ◌<◌, ◌≤◌, IfSome, IsTrue, None, length};
ghost use Rattle.app_fragment.specs.Fragments.{end_of};
ghost use Rattle.app_fragment.specs.Parts.{IsValid, fragment_of};
ghost use Rattle.app_fragment.specs.Partials.{Adds, Does, Expires, HasNoFirst, IsAlone, IsFirstFrame, IsFragment, IsLiveOf, IsPlaceFor, IsReturned, IsTold, Opens, Reassembles, Takes, bare, block_count, ended, entry, room_of, share_len, table};

use crate::datagram::{Datagram, begin, write_alone};
use crate::part::{FragKey, part_of};
use crate::reassembly::Inserted;

/// How long the fragments of a packet are kept, in milliseconds (RFC 1122, section 3.3.2; RFC 8200, section 4.5).
const TIMEOUT: u64 = 60_000;

// The blocks of 8 bytes that the longest payload has.
const MAX_BLOCKS: usize = 8192;

// The length of an Ethernet header.
const LINK_LEN: usize = 14;

/// A packet of which fragments were received. Any bytes are a value; all zeros are none.
#[repr(C)]
#[derive(Debug, Clone, Copy)]
pub struct Partial {
    /// The fragments are kept before this time. In milliseconds; 0: there is none.
    pub expires: u64,
    pub(crate) datagram: Datagram,
    // Other than 0: the packet is dropped, with all its fragments that come before `expires`.
    dropped: u8,
    // The Ethernet header of the fragment that came first.
    link: [u8; 14],
    unused: u8,
}

/// What one more fragment did.
#[derive(Debug, Clone, Copy, PartialEq, Eq)]
pub enum Reassembled {
    /// A part of its packet is missing.
    Incomplete,
    /// The packet was written. It has this length, in bytes.
    Whole(usize),
    /// It is no valid fragment. Nothing is changed.
    Rejected,
    /// It does not fit in the memory of a packet. Nothing is changed.
    TooLong,
    /// Its packet is dropped: fragments overlap, disagree about congestion, or make a packet that is too long.
    Dropped,
    /// The packet is complete, but does not fit in `out`. The same fragment with more room gives it.
    NoRoom,
}

/// Takes a fragment of an IPv4 or IPv6 packet, and writes the packet to the front of `out` if it is complete. A packet
/// that is not fragmented is complete. Each packet has an equal part of `memory`: a byte for each 8 bytes of its payload,
/// and the payload. If all are in use, the one that expires first makes room. `link` is the Ethernet header of the
/// fragment.
pub fn reassemble(
    partials: &mut [Partial],
    memory: &mut [u8],
    now: u64,
    link: &[u8],
    packet: &[u8],
    out: &mut [u8],
) -> Reassembled
    requires { length link.now ≡ 14 }
    ensures { Reassembles (table partials.old memory.old) (table partials.new memory.new) now link.now packet.now out.old out.new result }
{
    let Some(part) = part_of(packet) else {
        return Reassembled::Rejected;
    };
    if part.is_whole() {
        return give_back(packet, out);
    }
    if !part.is_shaped() {
        return Reassembled::Rejected;
    }
    let len = share_len(partials.len(), memory.len());
    if !part.fits(8 * block_count(len)) {
        return Reassembled::TooLong;
    }
    take(partials, memory, now, &part.key, link, packet, out)
}

// Writes a packet that is not fragmented.
fn give_back(packet: &[u8], out: &mut [u8]) -> Reassembled
    requires alone { IsAlone packet.now }
    requires valid { IsValid packet.now }
    ensures { IsReturned packet.now out.old out.new result }
{
    match write_alone(packet, out) {
        Some(len) => Reassembled::Whole(len),
        None => Reassembled::NoRoom,
    }
}

// The length of the part of a memory that each packet has.
fn share_len(count: usize, len: usize) -> usize
    ensures value { result ≡ share_len count len }
    ensures within { result * count ≤ len }
{
    if count == 0 { 0 } else { len / count }
}

// How many blocks of 8 bytes a part of this length has room for.
fn block_count(len: usize) -> usize
    ensures value { result ≡ block_count len }
    ensures within { 9 * result ≤ len }
    ensures small { result ≤ 8192 }
{
    MAX_BLOCKS.min(len / 9)
}

// Adds a fragment to its packet, in the entry for it.
fn take(
    partials: &mut [Partial],
    memory: &mut [u8],
    now: u64,
    key: &FragKey,
    link: &[u8],
    packet: &[u8],
    out: &mut [u8],
) -> Reassembled
    requires link { length link.now ≡ 14 }
    requires fragment { IsFragment key.now packet.now }
    requires fits { end_of (fragment_of packet.now) ≤ room_of (table partials.old memory.old) }
    ensures { Takes (table partials.old memory.old) (table partials.new memory.new) now link.now packet.now out.old out.new result }
{
    let place = place_of(partials, now, key);
    let len = share_len(partials.len(), memory.len());
    let part = &mut memory[place * len..(place + 1) * len];
    add(&mut partials[place], part, now, key, link, packet, out)
}

// The place of the packet with this key, or of the one that makes room for it.
fn place_of(partials: &[Partial], now: u64, key: &FragKey) -> usize
    requires { 0 < length partials.now }
    ensures { IsPlaceFor partials.now now key.now result }
{
    let mut first = 0;
    for i in 0..partials.len() {
        if partials[i].is_live_of(now, key) {
            return i;
        }
        if partials[i].expires < partials[first].expires {
            first = i;
        }
    }
    first
}

impl Partial {
    /// An entry that is not in use.
    pub const NONE: Partial = Partial {
        expires: 0,
        datagram: Datagram::NONE,
        dropped: 0,
        link: [0; 14],
        unused: 0,
    };

    // Whether it has the packet with this key, and its time is not over.
    fn is_live_of(&self, now: u64, key: &FragKey) -> bool
        ensures { IsTrue result ↔ IsLiveOf now key.now self.now }
    {
        now < self.expires && self.datagram.key.is_same(key)
    }
}

// Adds a fragment to its packet, in its part of the memory.
fn add(
    partial: &mut Partial,
    part: &mut [u8],
    now: u64,
    key: &FragKey,
    link: &[u8],
    packet: &[u8],
    out: &mut [u8],
) -> Reassembled
    requires link { length link.now ≡ 14 }
    requires fragment { IsFragment key.now packet.now }
    requires fits { end_of (fragment_of packet.now) ≤ 8 * block_count (length part.old) }
    ensures { Adds now key.now link.now packet.now (entry partial.old part.old) (entry partial.new part.new) out.old out.new result }
{
    let blocks = block_count(part.len());
    let (received, rest) = part.split_at_mut(blocks);
    let buffer = &mut rest[..8 * blocks];
    prepare(partial, buffer, received, now, key, link);
    if partial.dropped != 0 {
        return Reassembled::Dropped;
    }
    insert(partial, buffer, received, packet, out)
}

// Begins the packet with this key anew, unless the entry has it.
fn prepare(
    partial: &mut Partial,
    buffer: &[u8],
    received: &mut [u8],
    now: u64,
    key: &FragKey,
    link: &[u8],
)
    requires { length link.now ≡ 14 }
    ensures { Opens now key.now link.now (bare partial.old received.old buffer.now) (bare partial.new received.new buffer.now) }
{
    if partial.is_live_of(now, key) {
        return;
    }
    partial.expires = now.saturating_add(TIMEOUT);
    partial.datagram = begin(received, *key);
    partial.dropped = 0;
    partial.link.copy_from_slice(link);
}

// Adds a fragment to the packet of an entry. If the packet is complete, writes it, and ends the entry.
fn insert(
    partial: &mut Partial,
    buffer: &mut [u8],
    received: &mut [u8],
    packet: &[u8],
    out: &mut [u8],
) -> Reassembled
    requires fragment { IsFragment partial.old.datagram.key packet.now }
    requires sound { partial.old.dropped ≡ 0 }
    requires fits { end_of (fragment_of packet.now) ≤ length buffer.old }
    requires blocks { length buffer.old ≤ 8 * length received.old }
    requires small { length received.old < 65536 }
    ensures { Does (record { packet = packet.now; old = bare partial.old received.old buffer.old; new = bare partial.new received.new buffer.new; before = out.old; after = out.new }) result }
{
    match partial.datagram.insert(buffer, received, packet) {
        Inserted::Incomplete => Reassembled::Incomplete,
        Inserted::Complete => match partial.datagram.write(buffer, received, out) {
            Some(len) => {
                partial.expires = 0;
                Reassembled::Whole(len)
            }
            None => Reassembled::NoRoom,
        },
        // It is rejected only if the bytes of the entry are those of no packet.
        Inserted::Rejected => {
            partial.dropped = 1;
            Reassembled::Dropped
        }
        Inserted::Conflict => {
            partial.dropped = 1;
            Reassembled::Dropped
        }
    }
}

/// Ends packets whose time is over, up to one whose first fragment was received. Writes this fragment to the front of `out`,
/// with the Ethernet header of the fragment that came first, and returns its length: an ICMP error "time exceeded" tells its
/// sender. Returns `None` and writes nothing if there is none. A fragment that does not fit in `out` is left out.
pub fn expire(partials: &mut [Partial], memory: &[u8], now: u64, out: &mut [u8]) -> Option<usize>
    ensures { Expires (table partials.old memory.now) partials.new now out.old out.new result }
{
    let len = share_len(partials.len(), memory.len());
    for i in 0..partials.len() {
        let part = &memory[i * len..(i + 1) * len];
        if let Some(found) = partials[i].end_over(part, now, out) {
            return Some(found);
        }
    }
    None
}

impl Partial {
    // Ends it if its time is over, and writes the frame with the first fragment.
    fn end_over(&mut self, part: &[u8], now: u64, out: &mut [u8]) -> Option<usize>
        ensures ended { self.new ≡ ended now self.old }
        ensures frame { IfSome result (λ len. IsTold now self.old × IsFirstFrame (entry self.old part.now) len out.old out.new) }
        ensures silent { result ≡ None → IsTold now self.old → HasNoFirst (entry self.old part.now) (length out.old) }
        ensures unwritten { result ≡ None → out.new ≡ out.old }
    {
        if self.expires == 0 || now < self.expires {
            return None;
        }
        self.expires = 0;
        if self.dropped != 0 {
            return None;
        }
        self.write_first(part, out)
    }

    // Writes the frame with the first fragment.
    fn write_first(&self, part: &[u8], out: &mut [u8]) -> Option<usize>
        ensures frame { IfSome result (λ len. IsFirstFrame (entry self.now part.now) len out.old out.new) }
        ensures silent { result ≡ None → HasNoFirst (entry self.now part.now) (length out.old) }
        ensures unwritten { result ≡ None → out.new ≡ out.old }
    {
        if out.len() < LINK_LEN {
            return None;
        }
        let blocks = block_count(part.len());
        let buffer = &part[blocks..9 * blocks];
        let (front, rest) = out.split_at_mut(LINK_LEN);
        let len = self.datagram.write_first(buffer, rest)?;
        front.copy_from_slice(&self.link);
        Some(LINK_LEN + len)
    }
}
