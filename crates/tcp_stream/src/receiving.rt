//! The receiving half: what came in order and the application did not read yet, and what came after gaps (RFC 9293,
//! sections 3.3.1 and 3.10.7.4).

ghost use Rattle.std.specs.Prelude.{◌≡◌, ◌+◌, ◌-◌, ◌%◌, [], ◌≤◌, ◌<◌, ◌++◌, ◌∷◌, ◌==◌, ◌&&◌, if◌then◌else◌, not, IfSome, Some, None, ℕ, List, length, map, max, take, true, false};
ghost use Rattle.tcp_stream.specs.Endpoint.{Item, Byte, Syn, distance};
ghost use Rattle.tcp_stream.specs.Network.{World, Event, Segment_comes, happens, run, start, IsPrefixOf};
ghost use Rattle.tcp_stream.specs.Items.{items_of};
ghost use Rattle.tcp_stream.specs.Ranges.{has, top, is_none, ranges_of, blocks_of};
ghost use Rattle.tcp_stream.specs.Stands.{Advances, AreTold, FinStays, Stands, SegmentComes, ComesAhead, Uses, StaysKept, IsAnswer, room_of, reach};

use crate::ranges::{Blocks, Ranges};
use crate::ring::{RING_LIMIT, put, wrapped};

// Half of the sequence numbers: a number that is less after another one is newer.
const HALF: usize = 1 << 31;

/// The receiving half of a connection. The bytes are in a ring of the caller's, of less than 2^30 bytes.
#[repr(C)]
#[derive(Debug, Clone, Copy)]
pub struct Receiving {
    // RCV.NXT
    next: u32,
    // Where the newest of what is kept after gaps began, in offsets from RCV.NXT.
    newest: u32,
    // Where the bytes begin in the ring, and how many they are.
    start: usize,
    len: usize,
    // What is kept after gaps, and where a FIN is (0: it did not come); in offsets from RCV.NXT.
    ranges: Ranges,
    fin_at: u32,
    // Whether the SYN and the FIN came.
    is_open: bool,
    has_fin: bool,
}

impl Receiving {
    /// Before a SYN comes.
    pub fn new() -> Receiving
        ensures begin { result.start ≡ 0 }
        ensures len { reach result ≡ 0 }
        ensures none { (n : ℕ) → has result.ranges n ≡ false }
        ensures stands { (initial : ℕ) (buffer : List ℕ) → Stands (start initial) [] result buffer }
    {
        Receiving {
            next: 0,
            start: 0,
            len: 0,
            ranges: Ranges::new(),
            newest: 0,
            fin_at: 0,
            is_open: false,
            has_fin: false,
        }
    }

    /// Takes the SYN with this sequence number (IRS). Another one changes nothing.
    pub fn on_syn(&mut self, number: u32)
        ensures begin { self.new.start ≡ self.old.start }
        ensures len { reach self.new ≡ reach self.old }
        ensures again { self.old.is_open ≡ true → self.new ≡ self.old }
        ensures first { self.old.is_open ≡ false
            → (self.new.is_open ≡ true) × (self.new.next ≡ (number + 1) % 4294967296) }
        ensures opens { (w : World) (consumed buffer : List ℕ) (which : ℕ) (rest : List Item) → self.old.is_open ≡ false
            → SegmentComes w which number (Syn ∷ rest) → Stands w consumed self.old buffer
            → Stands (happens w (Segment_comes which 1)) consumed self.new buffer }
    {
        if !self.is_open {
            self.next = number.wrapping_add(1);
            self.is_open = true;
        }
    }

    /// Takes what is new of a segment and in order, as far as there is room. `number` is that of its first byte
    /// (SEG.SEQ, or the next number if it has a SYN). A FIN is taken after all bytes before it.
    ///
    /// After a gap it keeps the bytes and a FIN, and takes them when the gap is closed. It drops bytes there if they
    /// would be a ninth range apart from the others.
    pub fn on_segment(&mut self, ring: &mut [u8], number: u32, payload: &[u8], fin: bool)
        requires begin { self.old.start < length ring.old }
        requires len { reach self.old ≤ length ring.old }
        requires small { length ring.old < 1073741824 }
        ensures begin { self.new.start < length ring.old }
        ensures len { reach self.new ≤ length ring.old }
        ensures opened { self.new.is_open ≡ self.old.is_open }
        ensures edge { self.new.has_fin ≡ false → (self.new.next + (length ring.old - self.new.len)) % 4294967296
            ≡ (self.old.next + (length ring.old - self.old.len)) % 4294967296 }
        ensures keeps { self.old.is_open ≡ true → ranges_of self.old.ranges < 8 → 0 < distance number self.old.next
            → distance number self.old.next + length payload.now ≤ room_of self.old (length ring.old) → (n : ℕ)
            → n < length payload.now → has self.new.ranges (distance number self.old.next + n) ≡ true }
        ensures gap { has self.old.ranges 0 ≡ false → has self.new.ranges 0 ≡ false }
        ensures keeps_fin { self.old.is_open ≡ true → ranges_of self.old.ranges < 8 → fin ≡ true
            → 0 < distance number self.old.next
            → distance number self.old.next + length payload.now < room_of self.old (length ring.old)
            → self.new.fin_at ≡ distance number self.old.next + length payload.now }
        ensures stays { StaysKept self.old self.new }
        ensures stays_fin { fin ≡ false → FinStays self.old self.new }
        ensures stands { (w : World) (consumed : List ℕ) (which : ℕ)
            → SegmentComes w which number (items_of false payload.now fin) → Stands w consumed self.old ring.old → Uses
            (happens w (Segment_comes which (room_of self.old (length ring.old)))) consumed self.new ring.new }
    {
        if !self.is_open {
            return;
        }
        let skip = self.next.wrapping_sub(number) as usize;
        if skip >= HALF {
            let ahead = number.wrapping_sub(self.next) as usize;
            self.keep(ring, ahead, payload, fin);
            return;
        }
        if skip > payload.len() {
            return;
        }
        let fresh = &payload[skip..];
        let room = self.room(ring.len());
        let n = fresh.len().min(room);
        put(ring, self.start, self.len, &fresh[..n]);
        if fin && n < room {
            self.len += n;
            self.next = self.next.wrapping_add(n as u32);
            self.end();
        } else {
            self.advance(n as u32);
        }
    }

    // The FIN is next.
    fn end(&mut self)
        ensures same { self.new ≡ record self.old {
          next = (self.old.next + 1) % 4294967296;
          ranges = self.new.ranges;
          newest = 0;
          fin_at = 0;
          has_fin = true;
        } }
        ensures none { (n : ℕ) → has self.new.ranges n ≡ false }
        ensures top { top self.new.ranges ≡ 0 }
    {
        self.next = self.next.wrapping_add(1);
        self.has_fin = true;
        self.ranges = Ranges::new();
        self.newest = 0;
        self.fin_at = 0;
    }

    // RCV.NXT advances over n bytes that came in order, the bytes that are kept after them, and a FIN there.
    fn advance(&mut self, n: u32)
        requires reach { reach self.old < 1073741824 }
        requires room { self.old.len + n < 1073741824 }
        ensures advances { Advances self.old n self.new }
        ensures reach { reach self.new ≤ max (self.old.len + n) (reach self.old) }
    {
        if self.ranges.is_empty() && self.fin_at == 0 {
            self.len += n as usize;
            self.next = self.next.wrapping_add(n);
            return;
        }
        self.close_gap(n);
    }

    // The same, if something is kept.
    #[inline(never)]
    fn close_gap(&mut self, n: u32)
        requires reach { reach self.old < 1073741824 }
        requires room { self.old.len + n < 1073741824 }
        ensures advances { Advances self.old n self.new }
        ensures reach { reach self.new ≤ max (self.old.len + n) (reach self.old) }
    {
        let to = self.ranges.gap(n);
        self.len += to as usize;
        self.next = self.next.wrapping_add(to);
        if to > 0 && self.fin_at == to {
            self.end();
            return;
        }
        self.ranges.advance(to);
        self.newest = self.newest.saturating_sub(to);
        self.fin_at = self.fin_at.saturating_sub(to);
    }

    // Keeps bytes that begin so many after RCV.NXT, as far as there is room, and a FIN after them.
    #[inline(never)]
    fn keep(&mut self, ring: &mut [u8], ahead: usize, bytes: &[u8], fin: bool)
        requires begin { self.old.start < length ring.old }
        requires len { reach self.old ≤ length ring.old }
        requires small { length ring.old < 1073741824 }
        requires ahead { 0 < ahead }
        requires is_open { self.old.is_open ≡ true }
        ensures same { self.new ≡ record self.old {
          ranges = self.new.ranges;
          newest = self.new.newest;
          fin_at = self.new.fin_at;
        } }
        ensures len { reach self.new ≤ length ring.old }
        ensures gap { has self.old.ranges 0 ≡ false → has self.new.ranges 0 ≡ false }
        ensures wider { (n : ℕ) → has self.old.ranges n ≡ true → has self.new.ranges n ≡ true }
        ensures all { ranges_of self.old.ranges < 8 → ahead + length bytes.now ≤ room_of self.old (length ring.old)
            → (n : ℕ) → n < length bytes.now → has self.new.ranges (ahead + n) ≡ true }
        ensures fin { ranges_of self.old.ranges < 8 → fin ≡ true
            → ahead + length bytes.now < room_of self.old (length ring.old)
            → self.new.fin_at ≡ ahead + length bytes.now }
        ensures none { fin ≡ false → self.new.fin_at ≡ self.old.fin_at }
        ensures stands { (w : World) (consumed : List ℕ) (which : ℕ)
            → ComesAhead w which ahead (items_of false bytes.now fin) → Stands w consumed self.old ring.old
            → Stands w consumed self.new ring.new }
    {
        let room = self.room(ring.len());
        if ahead >= room {
            return;
        }
        let n = bytes.len().min(room - ahead);
        if !self.keep_bytes(ring, ahead, &bytes[..n]) {
            return;
        }
        if fin && n == bytes.len() && ahead + n < room {
            self.fin_at = (ahead + n) as u32;
        }
    }

    // Keeps bytes that begin so many after RCV.NXT. Returns false if it drops them.
    fn keep_bytes(&mut self, ring: &mut [u8], ahead: usize, bytes: &[u8]) -> bool
        requires begin { self.old.start < length ring.old }
        requires len { reach self.old ≤ length ring.old }
        requires small { length ring.old < 1073741824 }
        requires ahead { 0 < ahead }
        requires fits { self.old.len + ahead + length bytes.now ≤ length ring.old }
        requires is_open { self.old.is_open ≡ true }
        ensures same { self.new ≡ record self.old { ranges = self.new.ranges; newest = self.new.newest } }
        ensures len { reach self.new ≤ length ring.old }
        ensures gap { has self.old.ranges 0 ≡ false → has self.new.ranges 0 ≡ false }
        ensures wider { (n : ℕ) → has self.old.ranges n ≡ true → has self.new.ranges n ≡ true }
        ensures room { ranges_of self.old.ranges < 8 → result ≡ true }
        ensures all { result ≡ true → (n : ℕ) → n < length bytes.now → has self.new.ranges (ahead + n) ≡ true }
        ensures stands { (w : World) (consumed : List ℕ) (which : ℕ) (rest : List Item)
            → ComesAhead w which ahead (map Byte bytes.now ++ rest) → Stands w consumed self.old ring.old
            → Stands w consumed self.new ring.new }
    {
        if bytes.is_empty() {
            return true;
        }
        if !self.ranges.add(ahead as u32, (ahead + bytes.len()) as u32) {
            return false;
        }
        put(ring, self.start, self.len + ahead, bytes);
        self.newest = ahead as u32;
        true
    }

    /// The next bytes for the application, at most `count`. They end at the end of the ring: then the next call has the
    /// others.
    pub fn read<'a>(&mut self, ring: &'a [u8], count: usize) -> &'a [u8]
        requires begin { self.old.start < length ring.now }
        requires len { reach self.old ≤ length ring.now }
        requires small { length ring.now < 1073741824 }
        ensures begin { self.new.start < length ring.now }
        ensures len { reach self.new ≤ length ring.now }
        ensures reads { self.new ≡ record self.old { start = self.new.start; len = self.new.len } }
        ensures fewer { self.new.len + length result.now ≡ self.old.len }
        ensures few { length result.now ≤ count }
        ensures some { 0 < count → 0 < self.old.len → 0 < length result.now }
        ensures stands { (w : World) (consumed : List ℕ) → Stands w consumed self.old ring.now
            → Stands w (consumed ++ result.now) self.new ring.now }
        ensures delivers { (initial : ℕ) (events : List Event) (consumed : List ℕ)
            → let w : World = run events (start initial) in Stands w consumed self.old ring.now
            → IsPrefixOf (consumed ++ result.now) w.written }
    {
        let n = count.min(self.len).min(ring.len() - self.start);
        let bytes = &ring[self.start..self.start + n];
        self.start = wrapped(self.start + n, ring.len());
        self.len -= n;
        bytes
    }

    /// Whether the application has read all that the peer wrote, and the peer has closed.
    pub fn is_ended(&self) -> bool
        ensures value { result ≡ (self.now.has_fin && self.now.len == 0) }
        ensures whole { (initial : ℕ) (events : List Event) (consumed buffer : List ℕ) → result ≡ true
            → let w : World = run events (start initial) in Stands w consumed self.now buffer
            → (w.closed ≡ true) × (consumed ≡ w.written) }
    {
        self.has_fin && self.len == 0
    }

    /// The number to acknowledge (RCV.NXT); `None` before the SYN.
    pub fn next(&self) -> Option<u32>
        ensures value { result ≡ (if self.now.is_open then Some self.now.next else None) }
        ensures legal { (w : World) (consumed buffer : List ℕ) → Stands w consumed self.now buffer
            → IfSome result (λ number. IsAnswer w number) }
    {
        if self.is_open { Some(self.next) } else { None }
    }

    /// The SACK blocks of what is kept after gaps: the numbers of the first byte, and after the last one (RFC 2018,
    /// section 3). The first one has the newest bytes, and the others are the lowest (section 4). There are at most
    /// three.
    pub fn blocks(&self) -> Blocks
        ensures value { result ≡ blocks_of self.now.ranges self.now.next self.now.newest }
        ensures legal { (w : World) (consumed buffer : List ℕ) → Stands w consumed self.now buffer → AreTold w result }
    {
        self.ranges.blocks(self.next, self.newest)
    }

    /// Whether bytes are kept after a gap.
    pub fn has_gap(&self) -> bool
        ensures value { result ≡ not (is_none self.now.ranges) }
        ensures none { result ≡ false → (n : ℕ) → has self.now.ranges n ≡ false }
        ensures some { result ≡ true → (n : ℕ) × (has self.now.ranges n ≡ true) }
    {
        !self.ranges.is_empty()
    }

    /// How many bytes there is room for in a ring of this size (RCV.WND): 0 after a FIN.
    pub fn room(&self, size: usize) -> usize
        requires { self.now.len ≤ size }
        ensures { result ≡ room_of self.now size }
    {
        if self.has_fin { 0 } else { size - self.len }
    }

    /// Whether the bytes are in a ring of this size: what the other calls require, of the ring that they always get.
    pub fn fits(&self, size: usize) -> bool
        ensures begin { result ≡ true → self.now.start < size }
        ensures len { result ≡ true → reach self.now ≤ size }
        ensures small { result ≡ true → size < 1073741824 }
        ensures all { self.now.start < size → reach self.now ≤ size → size < 1073741824 → result ≡ true }
    {
        self.start < size
            && size < RING_LIMIT
            && self.len <= size
            && self.ranges.top() as usize <= size - self.len
    }
}

impl Receiving {
    /// Whether the FIN of the peer came, after all its bytes.
    pub fn has_fin(&self) -> bool
        ensures { result ≡ self.now.has_fin }
    {
        self.has_fin
    }
}
