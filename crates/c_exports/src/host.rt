//! A host with one interface and no connections.

ghost use Rattle.std.specs.Prelude.{◌≡◌, ◌≤◌, IsSome, length, pos};
ghost use Rattle.app_host.specs.Host.{IsUnread};
ghost use Rattle.c_icmp.specs.HostFields.{WritesAnswer, host_of};
ghost use Rattle.c_structs.specs.Written.{max_len};

use c_icmp::HostFields;

/// Writes the answer of a host to a frame, and returns its length; 0 if there is none. Fails if the struct lacks
/// an IPv4 or an IPv6 address, or if the frame is too long.
#[unsafe(no_mangle)]
pub extern "C" fn lk_answer(host: &HostFields<'_>, frame: &[u8], out: &mut [u8]) -> isize
    ensures answers { WritesAnswer (host_of host.now) frame.now out.old out.new result }
    ensures unread { IsSome (host_of host.now) → length frame.now ≤ max_len → IsUnread frame.now → result ≡ pos 0 }
{
    host.answer(frame, out)
}
