//! Rebuilding a whole frame.
#![tactic(auto, using(crate::proofs::Written::all, crate::proofs::Written::none, crate::proofs::Written::too_long))]

ghost use Rattle.std.specs.Prelude.{◌≡◌, ◌≤◌, length, pos};
ghost use Rattle.ip_wire.specs.Frame.{rebuilt};
ghost use Rattle.c_write.specs.Frames.{rebuilt_of};
ghost use Rattle.c_write.specs.Failures.{rebuild_failure};
ghost use Rattle.c_structs.specs.Written.{Writes, max_len, within};

use c_structs::{MAX_LEN, failed, within};
use c_write::{rebuild_failure, rebuild_frame};

/// Parses a frame, and writes it with its headers emitted again. Returns its length, which is at most that
/// of the parsed frame. On a failure `out` is unchanged.
#[unsafe(no_mangle)]
#[tactic(auto, using(crate::proofs::Rebuilt::fits))]
pub extern "C" fn lk_rebuild(frame: &[u8], out: &mut [u8]) -> isize
    ensures frame { Writes (rebuilt_of (within frame.now)) (rebuild_failure (within frame.now)) out.old out.new result }
    ensures fits { 14 ≤ length frame.now → length frame.now ≤ length out.old → length out.old ≤ max_len → result ≡ pos (length (rebuilt frame.now)) }
{
    write_rebuilt(within(frame), out)
}

// The same for a frame of a usable length.
#[inline(always)]
fn write_rebuilt(frame: &[u8], out: &mut [u8]) -> isize
    ensures { Writes (rebuilt_of frame.now) (rebuild_failure frame.now) out.old out.new result }
{
    if out.len() <= MAX_LEN
        && let Some(len) = rebuild_frame(frame, out)
    {
        len as isize
    } else {
        failed(rebuild_failure(frame))
    }
}
