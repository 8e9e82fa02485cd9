//! Fragments of IP packets.

ghost use Rattle.c_routing.specs.Fragmented.{WritesFragment, fragment_failure, fragment_frame, ident_of};
ghost use Rattle.c_structs.specs.Written.{within};

use c_routing::write_fragment;

/// Writes the fragment with this number of the IP packet in a frame, in a frame of its own, and returns its length; 0
/// after the last fragment.
#[unsafe(no_mangle)]
pub extern "C" fn lk_fragment(
    frame: &[u8],
    mtu: usize,
    ident: i64,
    number: usize,
    out: &mut [u8],
) -> isize
    ensures { WritesFragment (fragment_failure ident mtu (within frame.now)) (fragment_frame (ident_of ident) mtu number (within frame.now)) out.old out.new result }
{
    write_fragment(frame, mtu, ident, number, out)
}
