//! One hop of a router, NAT of one packet, and the MSS clamp.

ghost use Rattle.app_edit.specs.declared.replace.Offload.TheVariants.{Guess};
ghost use Rattle.c_routing.specs.Clamped.{Clamps};
ghost use Rattle.c_routing.specs.Edited.{offload_of};
ghost use Rattle.c_routing.specs.Forwarded.{Forwards, ethernet_addr};
ghost use Rattle.c_routing.specs.Translated.{Translates, side_of};

use app_edit::Offload;
use c_routing::{clamp_frame, forward_frame, offload_of, translate_frame};
use c_structs::Endpoint;

/// Forwards the packet of a frame between two hosts. Returns 0, or why it is not forwarded; then the frame is
/// unchanged.
#[unsafe(no_mangle)]
pub extern "C" fn lk_forward(frame: &mut [u8], src: &[u8; 6], dst: &[u8; 6]) -> i32
    ensures { Forwards frame.old frame.new (ethernet_addr src.now) (ethernet_addr dst.now) result }
{
    forward_frame(frame, src, dst)
}

/// Writes another address and port into the packet of a frame. Returns 0, or why it is not translated; then the frame
/// is unchanged.
#[unsafe(no_mangle)]
pub extern "C" fn lk_translate(frame: &mut [u8], side: i32, end: &Endpoint) -> i32
    ensures { Translates frame.old frame.new (side_of side) end.now result }
{
    translate_frame(frame, side, end)
}

/// Lowers the maximum segment size of a SYN to a limit. Returns 1 if it was larger, else 0; then the frame is unchanged.
#[unsafe(no_mangle)]
pub extern "C" fn lk_clamp_mss(frame: &mut [u8], max_seg_size: u16) -> i32
    ensures { Clamps Guess frame.old frame.new max_seg_size result }
{
    clamp_frame(frame, max_seg_size, Offload::Guess)
}

/// Lowers the maximum segment size of a SYN. The caller says whether the TCP checksum is left to the device.
#[unsafe(no_mangle)]
pub extern "C" fn lk_clamp_mss_as(frame: &mut [u8], max_seg_size: u16, offload: i32) -> i32
    ensures { Clamps (offload_of offload) frame.old frame.new max_seg_size result }
{
    clamp_frame(frame, max_seg_size, offload_of(offload))
}
