//! Parts of a slice that are borrowed to be written.

ghost use Rattle.std.specs.Borrow.{sem};
ghost use Rattle.std.specs.Prelude.{◌≡◌, ◌≤◌, length, slice_range};
ghost use Rattle.net_base.specs.Borrow.{BorrowsPart};

use std::slice::from_raw_parts_mut;

/// Bytes, and a range of them: those from `start` up to, but without, `end`.
#[derive(Debug, Drop)]
pub struct Located<'a> {
    pub bytes: &'a mut [u8],
    pub start: usize,
    pub end: usize,
}

impl<'a> Located<'a> {
    /// A mutable borrow of the bytes of the range. The bytes around them stay unchanged.
    pub fn into_slice(self) -> &'a mut [u8]
        requires order { self.start ≤ self.end }
        requires in_bounds { self.end ≤ length self.bytes.now }
        ensures* writes_back { sem 𝓛 (BorrowsPart self.entry.bytes self.entry.start self.entry.end result) }
        ensures value { result.now ≡ slice_range self.entry.bytes.now self.entry.start self.entry.end }
    {
        unsafe {
            from_raw_parts_mut(
                self.bytes.as_mut_ptr().add(self.start),
                self.end - self.start,
            )
        }
    }
}
