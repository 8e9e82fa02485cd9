//! The sending half: what the application wrote and the peer did not acknowledge yet (RFC 9293, section 3.3.1).

ghost use Rattle.std.specs.Prelude.{◌≡◌, ◌&&◌, ◌||◌, nat_lt, ◌+◌, ◌-◌, ◌%◌, ◌≤◌, ◌<◌, ℕ, Bool, List, [], ◌∷◌, length, take, drop, min, max, true, false, if◌then◌else◌};
ghost use Rattle.tcp_stream.specs.Endpoint.{Item, Syn, distance};
ghost use Rattle.tcp_stream.specs.Network.{World, Event, Write, Close, Send, Ack_comes, happens, run, start, number_at};
ghost use Rattle.tcp_stream.specs.Items.{items_of, syn_of};
ghost use Rattle.tcp_stream.specs.Waits.{Waits, AckComes, IsSend, count_of, from_of, pending, rest_of, unsent_of};

use crate::ring::{RING_LIMIT, put, wrapped};

/// A segment that goes out.
#[derive(Debug, Clone, Copy)]
pub struct Segment<'a> {
    /// The sequence number of its first item.
    pub number: u32,
    /// Whether it has a SYN, which takes the first number.
    pub syn: bool,
    /// Its bytes.
    pub payload: &'a [u8],
    /// Whether it has a FIN, which takes the last number.
    pub fin: bool,
}

/// The sending half of a connection. The bytes are in a ring of the caller's, of less than 2^30 bytes.
#[repr(C)]
#[derive(Debug, Clone, Copy)]
pub struct Sending {
    // SND.UNA
    una: u32,
    // SND.NXT - SND.UNA
    flight: u32,
    // Where the bytes begin in the ring, and how many they are.
    start: usize,
    len: usize,
    // Whether a SYN or FIN is not acknowledged yet.
    has_syn: bool,
    has_fin: bool,
    is_closed: bool,
}

impl Sending {
    /// Before the SYN is sent, which has this sequence number (ISS).
    pub fn new(initial: u32) -> Sending
        ensures start { result.start ≡ 0 }
        ensures len { result.len ≡ 0 }
        ensures syn { result.has_syn ≡ true }
        ensures waits { (buffer : List ℕ) → Waits (start initial) result buffer }
    {
        Sending {
            una: initial,
            flight: 0,
            start: 0,
            len: 0,
            has_syn: true,
            has_fin: false,
            is_closed: false,
        }
    }

    /// Whether the bytes are in a ring of this size: what the other calls require, of the ring that they always get.
    pub fn fits(&self, size: usize) -> bool
        ensures start { result ≡ true → self.now.start < size }
        ensures len { result ≡ true → self.now.len ≤ size }
        ensures small { result ≡ true → size < 1073741824 }
        ensures all { self.now.start < size → self.now.len ≤ size → size < 1073741824 → result ≡ true }
    {
        self.start < size && self.len <= size && size < RING_LIMIT
    }

    /// Takes bytes of the application, as far as the ring has room. Returns how many: 0 after `close`.
    pub fn write(&mut self, ring: &mut [u8], bytes: &[u8]) -> usize
        requires start { self.old.start < length ring.old }
        requires len { self.old.len ≤ length ring.old }
        requires small { length ring.old < 1073741824 }
        ensures start { self.new.start < length ring.old }
        ensures len { self.new.len ≤ length ring.old }
        ensures same { self.new ≡ record self.old { len = self.new.len } }
        ensures count { result
            ≡ (if self.old.is_closed then 0 else min (length bytes.now) (length ring.old - self.old.len)) }
        ensures waits { (w : World) → Waits w self.old ring.old
            → Waits (happens w (Write (take result bytes.now))) self.new ring.new }
    {
        if self.is_closed {
            return 0;
        }
        let n = bytes.len().min(ring.len() - self.len);
        put(ring, self.start, self.len, &bytes[..n]);
        self.len += n;
        n
    }

    /// The application writes no more: a FIN follows its bytes. A second call changes nothing.
    pub fn close(&mut self)
        ensures start { self.new.start ≡ self.old.start }
        ensures len { self.new.len ≡ self.old.len }
        ensures same { self.new ≡ record self.old { has_fin = self.new.has_fin; is_closed = true } }
        ensures closed { self.new.is_closed ≡ true }
        ensures fin { self.old.is_closed ≡ false → self.new.has_fin ≡ true }
        ensures waits { (w : World) (buffer : List ℕ) → Waits w self.old buffer
            → Waits (happens w Close) self.new buffer }
    {
        if !self.is_closed {
            self.is_closed = true;
            self.has_fin = true;
        }
    }

    /// Takes an acknowledgement (SEG.ACK). One that acknowledges nothing new, or what was not sent, changes nothing.
    pub fn on_ack(&mut self, ring: &[u8], number: u32)
        requires start { self.old.start < length ring.now }
        requires len { self.old.len ≤ length ring.now }
        requires small { length ring.now < 1073741824 }
        ensures start { self.new.start < length ring.now }
        ensures len { self.new.len ≤ length ring.now }
        ensures flight { self.new.flight + distance self.new.una self.old.una ≡ self.old.flight }
        ensures una { self.new.una
            ≡ (if nat_lt self.old.flight (distance number self.old.una) then self.old.una else number) }
        ensures waits { (w : World) (which : ℕ) → AckComes w which number → Waits w self.old ring.now
            → Waits (happens w (Ack_comes which)) self.new ring.now }
        ensures counted { (initial : ℕ) (events : List Event) (which : ℕ)
            → AckComes (run events (start initial)) which number
            → let v : World = happens (run events (start initial)) (Ack_comes which) in v.acked
            ≤ length v.receiver.got }
    {
        let newly = number.wrapping_sub(self.una);
        if newly > self.flight {
            return;
        }
        self.una = number;
        self.flight -= newly;
        self.let_go(ring.len(), newly as usize);
    }

    /// The next segment to send, from `offset` after SND.UNA on, with at most `count` bytes; a FIN counts as one. An offset after
    /// SND.NXT counts as SND.NXT. The SYN goes by itself. The bytes end at the end of the ring: then the next call has the others.
    pub fn segment<'a>(&mut self, ring: &'a [u8], offset: usize, count: usize) -> Segment<'a>
        requires start { self.old.start < length ring.now }
        requires len { self.old.len ≤ length ring.now }
        requires small { length ring.now < 1073741824 }
        ensures same { self.new ≡ record self.old { flight = self.new.flight } }
        ensures legal { (w : World) → Waits w self.old ring.now
            → IsSend w (from_of self.old offset) result.number (items_of result.syn result.payload.now result.fin) }
        ensures waits { (w : World) → Waits w self.old ring.now → Waits
            (happens w (Send (from_of self.old offset) (length (items_of result.syn result.payload.now result.fin))))
            self.new ring.now }
        ensures flight { self.new.flight ≡ max self.old.flight
            (from_of self.old offset + length (items_of result.syn result.payload.now result.fin)) }
        ensures some { 0 < count → offset < length (pending self.old ring.now)
            → 0 < length (items_of result.syn result.payload.now result.fin) }
        ensures few { length result.payload.now ≤ count }
        ensures inner { length result.payload.now ≤ length ring.now }
        ensures syn { self.old.has_syn ≡ false → result.syn ≡ false }
        ensures brings { 0 < count → offset < count_of self.old
            → 0 < length result.payload.now + (if result.syn then 1 else 0) + (if result.fin then 1 else 0) }
        ensures at_una { offset ≡ 0 → result.number ≡ self.old.una }
        ensures first { self.old.has_syn ≡ true → offset ≡ 0
            → items_of result.syn result.payload.now result.fin ≡ Syn ∷ [] }
        ensures number { result.number ≡ (self.old.una + from_of self.old offset) % 4294967296 }
        ensures most { length result.payload.now + (if result.syn then 1 else 0) + (if result.fin then 1 else 0)
            ≤ max 1 count }
    {
        let from = offset
            .min(self.flight as usize)
            .min(self.syn_len() + self.len);
        let segment = self.cut(ring, from, count);
        let end = from
            + usize::from(segment.syn)
            + segment.payload.len()
            + usize::from(segment.fin);
        self.flight = self.flight.max(end as u32);
        segment
    }

    // How many numbers the SYN takes that is not acknowledged.
    fn syn_len(&self) -> usize
        ensures { result ≡ length (syn_of self.now.has_syn) }
    {
        if self.has_syn { 1 } else { 0 }
    }

    // The segment from an item on.
    fn cut<'a>(&self, ring: &'a [u8], from: usize, count: usize) -> Segment<'a>
        requires start { self.now.start < length ring.now }
        requires len { self.now.len ≤ length ring.now }
        requires small { length ring.now < 1073741824 }
        requires from { from ≤ length (syn_of self.now.has_syn) + self.now.len }
        ensures number { result.number ≡ (self.now.una + from) % 4294967296 }
        ensures items { let items : List Item = items_of result.syn result.payload.now result.fin in items
            ≡ take (length items) (drop from (pending self.now ring.now)) }
        ensures inside { from + length (items_of result.syn result.payload.now result.fin)
            ≤ length (pending self.now ring.now) }
        ensures some { 0 < count → from < length (pending self.now ring.now)
            → 0 < length (items_of result.syn result.payload.now result.fin) }
        ensures few { length result.payload.now ≤ count }
        ensures inner { length result.payload.now ≤ length ring.now }
        ensures syn { self.now.has_syn ≡ false → result.syn ≡ false }
        ensures brings { 0 < count → from < count_of self.now
            → 0 < length result.payload.now + (if result.syn then 1 else 0) + (if result.fin then 1 else 0) }
        ensures at_una { from ≡ 0 → result.number ≡ self.now.una }
        ensures first { self.now.has_syn ≡ true → from ≡ 0
            → items_of result.syn result.payload.now result.fin ≡ Syn ∷ [] }
        ensures most { length result.payload.now + (if result.syn then 1 else 0) + (if result.fin then 1 else 0)
            ≤ max 1 count }
    {
        if self.has_syn && from == 0 {
            return Segment {
                number: self.una,
                syn: true,
                payload: &ring[..0],
                fin: false,
            };
        }
        let skip = from - self.syn_len();
        let at = wrapped(self.start + skip, ring.len());
        let n = count.min(self.len - skip).min(ring.len() - at);
        Segment {
            number: self.una.wrapping_add(from as u32),
            syn: false,
            payload: &ring[at..at + n],
            fin: self.has_fin && skip + n == self.len && n < count,
        }
    }

    // Forgets the first items.
    fn let_go(&mut self, size: usize, count: usize)
        requires start { self.old.start < size }
        requires len { self.old.len ≤ size }
        requires small { size < 1073741824 }
        ensures start { self.new.start < size }
        ensures len { self.new.len ≤ size }
        ensures una { self.new.una ≡ self.old.una }
        ensures flight { self.new.flight ≡ self.old.flight }
        ensures closed { self.new.is_closed ≡ self.old.is_closed }
        ensures fin { self.old.has_fin ≡ false → self.new.has_fin ≡ false }
        ensures rest { (buffer : List ℕ) → length buffer ≡ size
            → pending self.new buffer ≡ drop count (pending self.old buffer) }
    {
        if self.has_syn {
            if count > 0 {
                self.has_syn = false;
                self.let_go_bytes(size, count - 1);
            }
        } else {
            self.let_go_bytes(size, count);
        }
    }

    // Forgets the first items of those that are no SYN.
    fn let_go_bytes(&mut self, size: usize, count: usize)
        requires start { self.old.start < size }
        requires len { self.old.len ≤ size }
        requires small { size < 1073741824 }
        ensures start { self.new.start < size }
        ensures len { self.new.len ≤ size }
        ensures una { self.new.una ≡ self.old.una }
        ensures flight { self.new.flight ≡ self.old.flight }
        ensures closed { self.new.is_closed ≡ self.old.is_closed }
        ensures syn { self.new.has_syn ≡ self.old.has_syn }
        ensures fin { self.old.has_fin ≡ false → self.new.has_fin ≡ false }
        ensures rest { (buffer : List ℕ) → length buffer ≡ size
            → rest_of self.new buffer ≡ drop count (rest_of self.old buffer) }
    {
        if count > self.len {
            self.len = 0;
            self.has_fin = false;
        } else {
            self.start = wrapped(self.start + count, size);
            self.len -= count;
        }
    }
}

impl Sending {
    /// The oldest number that is not acknowledged (SND.UNA).
    pub fn una(&self) -> u32
        ensures { result ≡ self.now.una }
    {
        self.una
    }

    /// The number after the last one that was sent (SND.NXT).
    pub fn next(&self) -> u32
        ensures { result ≡ (self.now.una + self.now.flight) % 4294967296 }
    {
        self.una.wrapping_add(self.flight)
    }

    /// How many numbers were sent and not acknowledged (SND.NXT - SND.UNA).
    pub fn flight(&self) -> u32
        ensures { result ≡ self.now.flight }
    {
        self.flight
    }

    /// How many items wait to be sent for the first time: bytes and a FIN, and the SYN before it is sent.
    pub fn unsent(&self) -> usize
        ensures { self.now.len < 1073741824 → result ≡ unsent_of self.now }
    {
        let flags = self.syn_len() + usize::from(self.has_fin);
        self.len
            .saturating_add(flags)
            .saturating_sub(self.flight as usize)
    }

    /// Whether `close` was called.
    pub fn is_closed(&self) -> bool
        ensures { result ≡ self.now.is_closed }
    {
        self.is_closed
    }

    /// Whether there is a FIN that the peer did not acknowledge.
    pub fn has_fin(&self) -> bool
        ensures { result ≡ self.now.has_fin }
    {
        self.has_fin
    }

    /// Whether `segment` has something to send, from `offset` after SND.UNA on, with at most `count` bytes.
    pub fn has_next(&self, offset: usize, count: usize) -> bool
        ensures { result ≡ (nat_lt 0 count && (self.now.has_syn || (self.now.has_fin || nat_lt offset self.now.len))) }
    {
        count > 0 && (self.has_syn || self.has_fin || offset < self.len)
    }
}
