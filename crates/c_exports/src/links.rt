//! Calls that read packets by the link type of a capture.

ghost use Rattle.std.specs.Prelude.{◌≡◌, ◌≤◌, ◌+◌, length, pos, take};
ghost use Rattle.c_read.specs.Links.{link_or, link_reason, linked_of};
ghost use Rattle.c_structs.specs.Written.{usable, within};

use c_read::{read_link, read_linked};
use c_structs::{FrameFields, usable, within};
use wire_link::Link;

/// Stores the link-layer header that captured bytes begin with, and returns 0. Returns why it is rejected, and stores
/// nothing then.
#[unsafe(no_mangle)]
pub extern "C" fn lk_read_link(link_type: u32, captured: &[u8], link: &mut Link) -> i32
    ensures stored { link.new ≡ link_or link_type (within captured.now) link.old }
    ensures returned { result ≡ pos (link_reason link_type (within captured.now)) }
{
    read_link(link_type, within(captured), link)
}

/// Parses the first bytes of a packet of `len` bytes with a link-layer header, as `lk_read_captured` does of a frame.
#[unsafe(no_mangle)]
pub extern "C" fn lk_read_linktype(
    link_type: u32,
    captured: &[u8],
    len: usize,
    frame: &mut FrameFields,
) -> i32
    ensures fields { let bytes = take (usable len) (within captured.now) in
        frame.new ≡ linked_of link_type bytes (usable len) }
    ensures within { frame.new.payload_offset + frame.new.payload_len ≤ len }
    ensures reason { result ≡ pos frame.new.reason }
{
    let len = usable(len);
    read_linked(frame, link_type, front(within(captured), len), len);
    i32::from(frame.reason)
}

// The first bytes, at most so many.
fn front(bytes: &[u8], len: usize) -> &[u8]
    ensures value { result.now ≡ take len bytes.now }
    ensures bounded { length result.now ≤ len }
{
    &bytes[..len.min(bytes.len())]
}
