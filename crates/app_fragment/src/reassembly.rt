//! A packet put together from its fragments, in memory of the caller: a buffer for the payload, and a byte for each 8
//! bytes of it that says whether they were received (the data buffer and the fragment block bit table of RFC 791, section
//! 3.2). The caller keeps one such memory for each packet, by `FragKey`, and a time limit.

ghost use Rattle.std.specs.Prelude.{[], ◌≡◌, ◌≢◌, ◌↔◌, ◌+◌, ◌*◌, ◌%◌, ◌<◌, ◌≤◌, ◌++◌, ◌∷◌, ◌⊎◌, ℕ, Bool, EachIndex, IsTrue, List, drop, false, length, slice_index, slice_range, take};
ghost use Rattle.app_fragment.specs.Fragments.{Agree, Assembles, Fragment, HasBlock, Holds, IsBlockOf, IsIn, IsNewOrRepeated, IsShaped, Make, fragment};

/// The ends of the fragments of a packet, in bytes of its payload.
#[repr(C)]
#[derive(Debug, Clone, Copy, PartialEq, Eq)]
pub struct Ends {
    /// The end of the last fragment: the length of the payload. 0 until it is received.
    pub len: usize,
    /// The greatest end of a fragment.
    pub high: usize,
}

/// What one more fragment did.
#[derive(Debug, Clone, Copy, PartialEq, Eq)]
pub enum Inserted {
    /// A part of the packet is missing.
    Incomplete,
    /// The packet is complete: the first `len` bytes of the buffer.
    Complete,
    /// It does not fit in the buffer, has no bytes, or has no whole blocks of 8 bytes and is not the last. Nothing is
    /// changed.
    Rejected,
    /// It overlaps other fragments with other bytes or in part, or ends after the last one, or is another last one.
    /// Nothing is changed. The caller drops the packet (RFC 5722; RFC 8200, section 4.5).
    Conflict,
}

// How a fragment relates to the received bytes.
#[derive(Debug, Clone, Copy, PartialEq, Eq)]
enum Placed {
    // No byte of it was received before. It is in the buffer now.
    New,
    // All of its bytes were received before.
    Duplicate,
    // Some of its bytes were received before, or all with another value.
    Overlap,
}

/// Drops all fragments. The buffer stays as it is; its bytes count as not received.
pub fn clear(received: &mut [u8]) -> Ends
    ensures { (buffer : List ℕ) → Assembles buffer received.new result [] }
{
    for block in received.iter_mut() {
        *block = 0;
    }
    Ends { len: 0, high: 0 }
}

/// Adds a fragment to those of its packet: the payload `bytes`, from block `first` of the packet on, and the flag "more
/// fragments". A fragment that repeats received bytes is accepted.
pub fn insert(
    buffer: &mut [u8],
    received: &mut [u8],
    ends: &mut Ends,
    first: usize,
    more: bool,
    bytes: &[u8],
) -> Inserted
    requires start { first < 65536 }
    requires bound { length bytes.now < 65536 }
    requires blocks { length buffer.old ≤ 8 * length received.old }
    requires small { length received.old < 65536 }
    ensures assembled { (result ≡ Inserted.Incomplete) ⊎ (result ≡ Inserted.Complete) → (fs : List Fragment)
        → Assembles buffer.old received.old ends.old fs
        → Assembles buffer.new received.new ends.new (fragment first more bytes.now ∷ fs) }
    ensures within { (result ≡ Inserted.Incomplete) ⊎ (result ≡ Inserted.Complete) → ends.new.len ≤ length buffer.new }
    ensures len { (result ≡ Inserted.Incomplete) ⊎ (result ≡ Inserted.Complete)
        → (IsTrue more → ends.new.len ≡ ends.old.len) × (more ≡ false → ends.new.len ≡ 8 * first + length bytes.now) }
    ensures complete { result ≡ Inserted.Complete → (fs : List Fragment) → Assembles buffer.old received.old ends.old fs
        → Make (fragment first more bytes.now ∷ fs) (take ends.new.len buffer.new) }
    ensures missing { result ≡ Inserted.Incomplete → (fs : List Fragment) → Assembles buffer.old received.old ends.old fs
        → (packet : List ℕ) → ¬ Make (fragment first more bytes.now ∷ fs) packet }
    ensures apart { (result ≡ Inserted.Incomplete) ⊎ (result ≡ Inserted.Complete) → (fs : List Fragment)
        → Assembles buffer.old received.old ends.old fs
        → IsNewOrRepeated buffer.old received.old (fragment first more bytes.now) fs }
    ensures valid { result ≢ Inserted.Rejected → IsShaped (fragment first more bytes.now)
        × (8 * first + length bytes.now ≤ length buffer.old) }
    ensures rejected { result ≡ Inserted.Rejected → ends.old.len ≤ length buffer.old → 0 < length bytes.now
        → (IsTrue more → length bytes.now % 8 ≡ 0) → ¬ (8 * first + length bytes.now ≤ length buffer.old) }
    ensures conflict { result ≡ Inserted.Conflict → (fs : List Fragment) → Assembles buffer.old received.old ends.old fs
        → ¬ Agree (fragment first more bytes.now) fs }
    ensures bytes_kept { (result ≡ Inserted.Rejected) ⊎ (result ≡ Inserted.Conflict) → buffer.new ≡ buffer.old }
    ensures received_kept { (result ≡ Inserted.Rejected) ⊎ (result ≡ Inserted.Conflict) → received.new ≡ received.old }
    ensures ends_kept { (result ≡ Inserted.Rejected) ⊎ (result ≡ Inserted.Conflict) → ends.new ≡ ends.old }
{
    let end = 8 * first + bytes.len();
    let len = packet_len(ends.len, end, more);
    if !is_shaped(bytes.len(), more) || end > buffer.len() || len > buffer.len() {
        return Inserted::Rejected;
    }
    if !end_fits(ends.len, ends.high, end, more) {
        return Inserted::Conflict;
    }
    if !put(buffer, received, first, bytes) {
        return Inserted::Conflict;
    }
    let high = ends.high.max(end);
    ends.len = len;
    ends.high = high;
    if is_complete(received, len) {
        Inserted::Complete
    } else {
        Inserted::Incomplete
    }
}

// Whether a fragment of this length has bytes, and whole blocks unless it is the last.
fn is_shaped(len: usize, more: bool) -> bool
    ensures filled { IsTrue result → 0 < len }
    ensures blocks { IsTrue result → IsTrue more → len % 8 ≡ 0 }
    ensures all { 0 < len → (IsTrue more → len % 8 ≡ 0) → IsTrue result }
{
    if more {
        len > 0 && len % 8 == 0
    } else {
        len > 0
    }
}

// Whether one more fragment may end there.
fn end_fits(len: usize, high: usize, end: usize, more: bool) -> bool
    ensures more { IsTrue result → IsTrue more → len ≢ 0 → end ≤ len }
    ensures same { IsTrue result → more ≡ false → len ≢ 0 → end ≡ len }
    ensures above { IsTrue result → more ≡ false → high ≤ end }
    ensures all { (IsTrue more → len ≢ 0 → end ≤ len) → (more ≡ false → len ≢ 0 → end ≡ len)
        → (more ≡ false → high ≤ end) → IsTrue result }
{
    if more {
        len == 0 || end <= len
    } else {
        let is_end = len == 0 || end == len;
        is_end && high <= end
    }
}

// The length of the payload with one more fragment.
fn packet_len(len: usize, end: usize, more: bool) -> usize
    ensures more { IsTrue more → result ≡ len }
    ensures last { more ≡ false → result ≡ end }
{
    if more { len } else { end }
}

// Whether all bytes of a payload of this length are received.
pub(crate) fn is_complete(received: &[u8], len: usize) -> bool
    requires { len ≤ 8 * length received.now }
    ensures some { IsTrue result → len ≢ 0 }
    ensures all { IsTrue result → (i : ℕ) → 8 * i < len → slice_index received.now i ≢ 0 }
    ensures missing { result ≡ false → len ≢ 0 → ¬ ((i : ℕ) → 8 * i < len → slice_index received.now i ≢ 0) }
{
    let blocks = len.div_ceil(8);
    len != 0 && all_received(&received[..blocks])
}

// Adds the bytes of a fragment, unless they overlap received ones.
fn put(buffer: &mut [u8], received: &mut [u8], first: usize, bytes: &[u8]) -> bool
    requires room { 8 * first + length bytes.now ≤ length buffer.old }
    requires blocks { length buffer.old ≤ 8 * length received.old }
    requires bound { length received.old < 65536 }
    ensures holds { IsTrue result → (more : Bool) (fs : List Fragment) → Holds buffer.old received.old fs
        → Holds buffer.new received.new (fragment first more bytes.now ∷ fs) }
    ensures apart { IsTrue result → (more : Bool) (fs : List Fragment) → Holds buffer.old received.old fs
        → IsNewOrRepeated buffer.old received.old (fragment first more bytes.now) fs }
    ensures some { result ≡ false → (more : Bool)
        → ¬ ((i : ℕ) → HasBlock (fragment first more bytes.now) i → slice_index received.old i ≡ 0) }
    ensures other { result ≡ false → (more : Bool) → ¬ IsIn buffer.old received.old (fragment first more bytes.now) }
    ensures bytes_kept { result ≡ false → buffer.new ≡ buffer.old }
    ensures received_kept { result ≡ false → received.new ≡ received.old }
{
    match place(buffer, received, first, bytes) {
        Placed::New => true,
        Placed::Duplicate => true,
        Placed::Overlap => false,
    }
}

// Writes the bytes of a fragment to the buffer and marks its blocks, unless they overlap received ones.
fn place(buffer: &mut [u8], received: &mut [u8], first: usize, bytes: &[u8]) -> Placed
    requires room { 8 * first + length bytes.now ≤ length buffer.old }
    requires blocks { length buffer.old ≤ 8 * length received.old }
    requires bound { length received.old < 65536 }
    ensures fresh { result ≡ Placed.New → (i : ℕ) → IsBlockOf first bytes.now i → slice_index received.old i ≡ 0 }
    ensures marked { result ≡ Placed.New → (i : ℕ) → IsBlockOf first bytes.now i → slice_index received.new i ≡ 1 }
    ensures before { result ≡ Placed.New → (i : ℕ) → i < first
        → slice_index received.new i ≡ slice_index received.old i }
    ensures after { result ≡ Placed.New → (i : ℕ) → 8 * first + length bytes.now ≤ 8 * i
        → slice_index received.new i ≡ slice_index received.old i }
    ensures written { result ≡ Placed.New
        → buffer.new ≡ take (8 * first) buffer.old ++ bytes.now ++ drop (8 * first + length bytes.now) buffer.old }
    ensures all { result ≡ Placed.Duplicate → (i : ℕ) → IsBlockOf first bytes.now i → slice_index received.old i ≢ 0 }
    ensures same { result ≡ Placed.Duplicate
        → slice_range buffer.old (8 * first) (8 * first + length bytes.now) ≡ bytes.now }
    ensures some { result ≡ Placed.Overlap
        → ¬ ((i : ℕ) → IsBlockOf first bytes.now i → slice_index received.old i ≡ 0) }
    ensures other { result ≡ Placed.Overlap
        → ((i : ℕ) → IsBlockOf first bytes.now i → slice_index received.old i ≢ 0)
        → slice_range buffer.old (8 * first) (8 * first + length bytes.now) ≢ bytes.now }
    ensures kept_bytes { result ≢ Placed.New → buffer.new ≡ buffer.old }
    ensures kept_received { result ≢ Placed.New → received.new ≡ received.old }
{
    let start = 8 * first;
    let end = start + bytes.len();
    let last = first + bytes.len().div_ceil(8);
    if none_received(&received[first..last]) {
        buffer[start..end].copy_from_slice(bytes);
        mark(&mut received[first..last]);
        Placed::New
    } else if !all_received(&received[first..last]) {
        Placed::Overlap
    } else if &buffer[start..end] == bytes {
        Placed::Duplicate
    } else {
        Placed::Overlap
    }
}

fn none_received(received: &[u8]) -> bool
    ensures { IsTrue result ↔ EachIndex received.now (λ i. slice_index received.now i ≡ 0) }
{
    received.iter().all(|block| *block == 0)
}

fn all_received(received: &[u8]) -> bool
    ensures { IsTrue result ↔ EachIndex received.now (λ i. slice_index received.now i ≢ 0) }
{
    received.iter().all(|block| *block != 0)
}

fn mark(received: &mut [u8])
    ensures { EachIndex received.new (λ i. slice_index received.new i ≡ 1) }
{
    for block in received.iter_mut() {
        *block = 1;
    }
}
