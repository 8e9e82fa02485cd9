//! The next fragment of a packet, and where the fragment of a number begins.

ghost use Rattle.std.specs.Prelude.{◌≡◌, ◌+◌, ◌-◌, ◌*◌, ◌%◌, ◌<◌, ◌≤◌, ◌↔◌, IsTrue, false, length, slice_range};
ghost use Rattle.app_fragment.specs.Fragments.{Fragment, IsPartOf, cut_len, numbered_place};

/// A fragment by its length.
#[derive(Debug, Clone, Copy, PartialEq, Eq)]
pub struct Piece {
    /// The number of bytes of the payload.
    pub len: usize,
    /// The flag "more fragments".
    pub more: bool,
}

/// The fragment of this payload that begins at block `first`, of 8 bytes each. It has at most `room` bytes: as many as
/// fit, in whole blocks unless it is the last.
pub fn cut_next(payload: &[u8], first: usize, room: usize) -> Piece
    requires room { 8 ≤ room }
    requires start { 8 * first < length payload.now }
    requires bound { length payload.now < 65536 }
    ensures len { result.len ≡ cut_len room (length payload.now - 8 * first) }
    ensures some { 0 < result.len }
    ensures fits { result.len ≤ room }
    ensures inside { 8 * first + result.len ≤ length payload.now }
    ensures more { IsTrue result.more ↔ (8 * first + result.len < length payload.now) }
    ensures part { IsPartOf (record { first = first; more = result.more; bytes = slice_range payload.now (8 * first) (8 * first + result.len) }) payload.now }
{
    let left = payload.len() - 8 * first;
    if left <= room {
        Piece {
            len: left,
            more: false,
        }
    } else {
        Piece {
            len: room / 8 * 8,
            more: true,
        }
    }
}

/// Where the fragment of this number begins in a payload of `len` bytes, if each has at most `room` of them. The first has
/// number 0. Returns `None` after the last one.
pub fn numbered_place(len: usize, room: usize, number: usize) -> Option<usize>
    ensures { result ≡ numbered_place room len number }
{
    if number == 0 {
        return Some(0);
    }
    let before = (number - 1).checked_mul(room / 8 * 8)?;
    if is_last(len, before, room) {
        None
    } else {
        Some(before + room / 8 * 8)
    }
}

// Whether the fragment that begins at this place is the last one: it has all that is left.
fn is_last(len: usize, at: usize, room: usize) -> bool
    ensures { IsTrue result ↔ (len - at ≤ room) }
{
    len.saturating_sub(at) <= room
}
