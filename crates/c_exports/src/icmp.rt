//! ICMP messages, neighbour discovery, multicast listener discovery and ICMP errors.
#![tactic(auto, using(crate::proofs::Written::all, crate::proofs::Written::none, crate::proofs::Written::too_long))]

ghost use Rattle.std.specs.Prelude.{◌≡◌, length};
ghost use Rattle.c_icmp.specs.Errors.{WritesError, own_interface, problem_by};
ghost use Rattle.c_icmp.specs.Frames.{icmp_failure, icmp_frame, icmp_frame_failure, icmp_packet};
ghost use Rattle.c_icmp.specs.Messages.{icmp_bytes};
ghost use Rattle.c_icmp.specs.Mld.{AsksFor, mld_failure, mld_report};
ghost use Rattle.c_icmp.specs.Neighbours.{ReadsNdisc, ndisc_failure, ndisc_frame, ndisc_struct};
ghost use Rattle.c_structs.specs.Written.{IsRead, Writes, is_set, within};

use c_icmp::{
    InterfaceFields, Ndisc, Problem, emit_icmp, emit_icmp_frame, emit_icmp_packet, emit_mld_report,
    emit_ndisc_frame, icmp_failure, icmp_frame_failure, mld_failure, ndisc_failure, read_mld_query,
};
use c_structs::{Addr, FrameFields, Icmp, MAX_LEN, failed, is_set, within};

/// Writes the header of an ICMP message and its payload. Returns its length, or a failure; then `out` is unchanged.
#[unsafe(no_mangle)]
pub extern "C" fn lk_emit_icmp(
    header: &Icmp,
    src: &Addr,
    dst: &Addr,
    payload: &[u8],
    computed: i32,
    out: &mut [u8],
) -> isize
    ensures { Writes (icmp_bytes header.now src.now dst.now payload.now (is_set computed)) (icmp_failure src.now dst.now (length payload.now)) out.old out.new result }
{
    if out.len() <= MAX_LEN
        && let Some(len) = emit_icmp(header, src, dst, payload, is_set(computed), out)
    {
        len as isize
    } else {
        failed(icmp_failure(src, dst, payload.len()))
    }
}

/// Writes a whole frame with an ICMP message and this payload. Returns its length, or a failure; then `out` is
/// unchanged.
#[unsafe(no_mangle)]
pub extern "C" fn lk_emit_icmp_frame(headers: &FrameFields, payload: &[u8], out: &mut [u8]) -> isize
    ensures { Writes (icmp_frame headers.now payload.now) (icmp_frame_failure headers.now (length payload.now)) out.old out.new result }
{
    if out.len() <= MAX_LEN
        && let Some(len) = emit_icmp_frame(headers, payload, out)
    {
        len as isize
    } else {
        failed(icmp_frame_failure(headers, payload.len()))
    }
}

/// Writes an IP packet with an ICMP message and this payload. Returns its length, or a failure; then `out` is
/// unchanged.
#[unsafe(no_mangle)]
pub extern "C" fn lk_emit_icmp_packet(
    headers: &FrameFields,
    payload: &[u8],
    out: &mut [u8],
) -> isize
    ensures { Writes (icmp_packet headers.now payload.now) (icmp_frame_failure headers.now (length payload.now)) out.old out.new result }
{
    if out.len() <= MAX_LEN
        && let Some(len) = emit_icmp_packet(headers, payload, out)
    {
        len as isize
    } else {
        failed(icmp_frame_failure(headers, payload.len()))
    }
}

/// Parses a neighbour solicitation or advertisement in a frame, stores it, and returns 1. Returns 0 if the frame
/// carries none that is valid.
#[unsafe(no_mangle)]
pub extern "C" fn lk_find_ndisc(frame: &[u8], ndisc: &mut Ndisc) -> i32
    ensures { IsRead ReadsNdisc ndisc_struct (within frame.now) ndisc.old ndisc.new result }
{
    ndisc.read(within(frame))
}

/// Writes a whole frame with a neighbour solicitation or advertisement. Returns its length, or a failure; then `out`
/// is unchanged.
#[unsafe(no_mangle)]
pub extern "C" fn lk_emit_ndisc_frame(headers: &FrameFields, ndisc: &Ndisc, out: &mut [u8]) -> isize
    ensures { Writes (ndisc_frame headers.now ndisc.now) (ndisc_failure headers.now ndisc.now) out.old out.new result }
{
    if out.len() <= MAX_LEN
        && let Some(len) = emit_ndisc_frame(headers, ndisc, out)
    {
        len as isize
    } else {
        failed(ndisc_failure(headers, ndisc))
    }
}

/// Writes a whole frame with the report of a multicast group.
#[unsafe(no_mangle)]
pub extern "C" fn lk_emit_mld_report(headers: &FrameFields, out: &mut [u8]) -> isize
    ensures { Writes (mld_report headers.now) (mld_failure headers.now) out.old out.new result }
{
    if out.len() <= MAX_LEN
        && let Some(len) = emit_mld_report(headers, out)
    {
        len as isize
    } else {
        failed(mld_failure(headers))
    }
}

/// `struct lk_mld_query`: a query of multicast listener discovery.
#[repr(C)]
#[derive(Clone, Copy)]
pub struct MldQuery {
    /// The maximum response delay, in milliseconds.
    pub max_delay: u32,
}

/// Stores a query in a frame that asks for the multicast group, and returns 1. Returns 0 if the frame has none.
#[unsafe(no_mangle)]
pub extern "C" fn lk_find_mld_query(frame: &[u8], group: &Addr, query: &mut MldQuery) -> i32
    ensures { IsRead (AsksFor group.now) (λ delay. record { max_delay = delay }) (within frame.now) query.old query.new result }
{
    let delay = read_mld_query(within(frame), group);
    if delay < 0 {
        return 0;
    }
    query.max_delay = delay as u32;
    1
}

/// Writes an ICMP error about a frame that came in by an interface, to its sender, and returns its length; 0 if there
/// may be none. Fails if the struct lacks an IPv4 or an IPv6 address, or if the frame is too long.
#[unsafe(no_mangle)]
pub extern "C" fn lk_emit_icmp_error(
    own: &InterfaceFields,
    problem: i32,
    mtu: u32,
    frame: &[u8],
    out: &mut [u8],
) -> isize
    ensures { WritesError (own_interface own.now) frame.now (problem_by problem) mtu out.old out.new result }
{
    own.emit_error(Problem::of(problem), mtu, frame, out)
}
