//! Packets that are put together from their fragments.

ghost use Rattle.std.specs.Prelude.{◌≡◌, ◌<◌, length};
ghost use Rattle.c_routing.specs.Reassembled.{ExpiresFrame, ReassemblesFrame};
ghost use Rattle.c_structs.specs.Written.{max_len, within};
ghost use Rattle.app_fragment.specs.Partials.{table};

use app_fragment::Partial;
use c_routing::{expire_packet, reassemble_frame};

/// Takes the fragment in a frame, and writes the frame with its packet if that is complete. Returns its length, 0 if a part
/// of it is missing, or a failure.
#[unsafe(no_mangle)]
pub extern "C" fn lk_reassemble(
    partials: &mut [Partial],
    memory: &mut [u8],
    now: u64,
    frame: &[u8],
    out: &mut [u8],
) -> isize
    ensures reassembles { ReassemblesFrame (table partials.old memory.old) (table partials.new memory.new) now (within frame.now) out.old out.new result }
    ensures partials_beyond { max_len < length partials.old → partials.new ≡ partials.old }
    ensures memory_beyond { max_len < length memory.old → memory.new ≡ memory.old }
    ensures out_beyond { max_len < length out.old → out.new ≡ out.old }
{
    reassemble_frame(partials, memory, now, frame, out)
}

/// Ends packets whose time is over, and writes the frame with the first fragment of one. Returns its length, or 0.
#[unsafe(no_mangle)]
pub extern "C" fn lk_expire_reassembly(
    partials: &mut [Partial],
    memory: &[u8],
    now: u64,
    out: &mut [u8],
) -> usize
    ensures expires { ExpiresFrame (table partials.old memory.now) partials.new now out.old out.new result }
    ensures partials_beyond { max_len < length partials.old → partials.new ≡ partials.old }
    ensures out_beyond { max_len < length out.old → out.new ≡ out.old }
{
    expire_packet(partials, memory, now, out)
}
