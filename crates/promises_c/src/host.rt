//! The call for a host.

ghost use Rattle.std.specs.Prelude.{◌≡◌};

use c_exports::host::lk_answer;
use c_icmp::HostFields;

/// A frame gets one answer, to the byte.
pub fn answer_once(
    host: &HostFields<'_>,
    frame: &[u8],
    out: &mut [u8],
    other: &mut [u8],
) -> (isize, isize)
    requires { out.old ≡ other.old }
    ensures returned { result.0 ≡ result.1 }
    ensures written { out.new ≡ other.new }
{
    (lk_answer(host, frame, out), lk_answer(host, frame, other))
}
