//! A frame as a line of text.

ghost use Rattle.std.specs.Prelude.{◌≡◌, None, Some};
ghost use Rattle.c_structs.specs.Written.{Prints};
ghost use Rattle.c_read.specs.Summary.{frame_line};

use c_read::print_frame;
use c_structs::FrameFields;

/// Prints a frame in one line. Returns its length, or a failure; then `out` is unchanged.
#[unsafe(no_mangle)]
pub extern "C" fn lk_print_frame(frame: &FrameFields, out: &mut [u8]) -> isize
    ensures { Prints (Some (frame_line frame.now frame.now.icmp.msg_type frame.now.icmp.code)) None out.old out.new result }
{
    print_frame(frame, frame.icmp.msg_type, frame.icmp.code, out)
}
