//! The calls with ICMP messages.

ghost use Rattle.std.specs.Prelude.{◌≡◌};

use c_exports::icmp::{lk_emit_icmp_error, lk_find_ndisc};
use c_icmp::{InterfaceFields, Ndisc};

/// A frame carries one neighbour discovery message, or none.
pub fn read_ndisc_once(frame: &[u8], ndisc: &mut Ndisc, other: &mut Ndisc) -> (i32, i32)
    requires { ndisc.old ≡ other.old }
    ensures returned { result.0 ≡ result.1 }
    ensures written { ndisc.new ≡ other.new }
{
    (lk_find_ndisc(frame, ndisc), lk_find_ndisc(frame, other))
}

/// A frame gets one error, to the byte.
pub fn emit_icmp_error_once(
    own: &InterfaceFields,
    problem: i32,
    mtu: u32,
    frame: &[u8],
    out: &mut [u8],
    other: &mut [u8],
) -> (isize, isize)
    requires { out.old ≡ other.old }
    ensures returned { result.0 ≡ result.1 }
    ensures written { out.new ≡ other.new }
{
    (
        lk_emit_icmp_error(own, problem, mtu, frame, out),
        lk_emit_icmp_error(own, problem, mtu, frame, other),
    )
}
