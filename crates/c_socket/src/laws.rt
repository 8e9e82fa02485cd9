//! Laws of several calls.

ghost use Rattle.std.specs.Prelude.{◌≡◌, ℕ};
ghost use Rattle.app_connection.specs.Arrived.{BothComeAcross};
ghost use Rattle.app_connection.specs.Runs.{BothRead};
ghost use Rattle.app_connection.specs.Worlds.{said};
ghost use Rattle.app_socket.specs.Runs as socket;
ghost use Rattle.c_socket.specs.Openings as openings;
ghost use Rattle.c_socket.specs.Runs.{Ends, Runs, ends_of};
ghost use Rattle.c_socket.specs.Segments.{fields_of, segment_of};

pub mod runs;

use app_connection::Segment;
use app_socket::Header;

/// What one program reads from a connection is a prefix of what the other one wrote, and all of it once `is_ended` returns 1.
/// This holds for all calls of both programs in any order and at any times, over a network that loses, repeats, reorders, delays,
/// splits and joins segments. Each end opens once. Each segment that PAWS takes was stored by a call of the other end, or was made
/// of such segments, and since then each program wrote less than 2^30 - 1 bytes. A RST may be from anyone.
pub fn two_programs_deliver()
    ensures { (p : Ends) → Runs p → BothRead (socket.ends_of (ends_of p)) }
{}

/// The same in each connection of two programs that open again any number of times.
pub fn programs_that_open_again_deliver()
    ensures { (p : openings.Programs) → openings.Runs p → (n : ℕ) → BothRead (openings.ends_of p n) }
{}

/// What is acknowledged has come: if nothing of a program waits, the other one has read all that it wrote, or it waits in the ring
/// to be read. So has the end. The runs are those of `two_programs_deliver`.
pub fn what_programs_acknowledge_has_come()
    ensures { (p : Ends) → Runs p → BothComeAcross (socket.ends_of (ends_of p)) }
{}

/// The struct of a segment has its sequence number, text, flags and acknowledgement.
pub fn a_struct_says_its_segment()
    ensures { (s : Segment) (header : Header) → said (segment_of (fields_of s header)) ≡ said s }
{}
