//! Reports and queries of multicast listener discovery.

ghost use Rattle.std.specs.Prelude.{◌≡◌};
ghost use Rattle.c_icmp.specs.Mld.{AsksFor, TellsDelay, are_ipv6, mld_failure, mld_report};
ghost use Rattle.c_structs.specs.Written.{Fills};

use app_mld::{emit_report, query_delay};
use c_structs::{Addr, Failure, FrameFields};
use ip_wire::EthernetAddress;

/// Writes the frame of a report, and returns its length. `None` if it does not fit, or if there is an `mld_failure`.
pub fn emit_mld_report(headers: &FrameFields, out: &mut [u8]) -> Option<usize>
    ensures { Fills (mld_report headers.now) out.old out.new result }
{
    if !are_ipv6(headers) {
        return None;
    }
    let hardware = headers.ethernet.src;
    let (src, group) = (headers.src.addr.ipv6(), headers.dst.addr.ipv6());
    emit_report(EthernetAddress(hardware), src, group, out)
}

/// The failure of a report; `None` if it can be written.
pub fn mld_failure(headers: &FrameFields) -> Option<Failure>
    ensures { result ≡ mld_failure headers.now }
{
    if are_ipv6(headers) {
        None
    } else {
        Some(Failure::NoVersion)
    }
}

// Whether source and destination are IPv6 addresses.
fn are_ipv6(headers: &FrameFields) -> bool
    ensures { result ≡ are_ipv6 headers.now }
{
    headers.src.addr.version == 6 && headers.dst.addr.version == 6
}

/// The maximum response delay of a query that asks for the group, in milliseconds; -1 if the frame is none.
pub fn read_mld_query(frame: &[u8], group: &Addr) -> i32
    ensures { TellsDelay (AsksFor group.now frame.now) result }
{
    if group.version != 6 {
        return -1;
    }
    match query_delay(frame, &group.ipv6()) {
        Some(delay) => i32::from(delay),
        None => -1,
    }
}
