//! The calls that read packets by their link type.

ghost use Rattle.std.specs.Prelude.{◌≡◌, ◌≢◌, pos};

use c_exports::links::{lk_read_link, lk_read_linktype};
use c_structs::FrameFields;
use wire_link::Link;

/// A packet has the EtherType of its link-layer header. If the header is rejected, the packet is rejected too.
pub fn link_of_packet(
    link_type: u32,
    bytes: &[u8],
    link: &mut Link,
    frame: &mut FrameFields,
) -> (i32, i32)
    ensures read { result.0 ≡ pos 0 → frame.new.ethernet.ethertype ≡ link.new.ethertype }
    ensures rejected { result.0 ≢ pos 0 → result.1 ≢ pos 0 }
{
    (
        lk_read_link(link_type, bytes, link),
        lk_read_linktype(link_type, bytes, bytes.len(), frame),
    )
}
