//! Edits of the fields of a packet, in place. Each returns 1 if it wrote, or 0; then the frame is unchanged.

ghost use Rattle.std.specs.Prelude.{◌≡◌, pos};
ghost use Rattle.std.specs.Option.{option_and_then};
ghost use Rattle.app_edit.specs.Edited.{addr_set, bytes_set, dscp_set, hop_limit_set, port_set};
ghost use Rattle.app_edit.specs.Filled.{checksum_filled};
ghost use Rattle.c_routing.specs.Edited.{Edits, offload_of};
ghost use Rattle.c_routing.specs.Translated.{side_of};
ghost use Rattle.c_structs.specs.Addresses.{ip_of};
ghost use Rattle.c_structs.specs.Written.{flag, within};

use crate::translation::side_of;
use app_edit::Offload;
use c_structs::{Addr, MAX_LEN};

/// Writes the TTL or hop limit.
pub fn set_hop_limit(frame: &mut [u8], hop_limit: u8) -> i32
    ensures { Edits (hop_limit_set (within frame.old) hop_limit) frame.old frame.new result }
{
    if frame.len() > MAX_LEN {
        return 0;
    }
    code(app_edit::set_hop_limit(frame, hop_limit))
}

/// Writes the DSCP, of 6 bits.
pub fn set_dscp(frame: &mut [u8], dscp: u8) -> i32
    ensures { Edits (dscp_set (within frame.old) dscp) frame.old frame.new result }
{
    if frame.len() > MAX_LEN {
        return 0;
    }
    code(app_edit::set_dscp(frame, dscp))
}

/// Writes the source or destination address.
#[inline(always)]
pub fn set_addr(frame: &mut [u8], side: i32, addr: &Addr, offload: Offload) -> i32
    ensures { Edits (option_and_then (addr_set offload (within frame.old) (side_of side)) (ip_of addr.now)) frame.old frame.new result }
{
    if frame.len() > MAX_LEN {
        return 0;
    }
    match addr.ip() {
        Some(addr) => code(app_edit::set_addr(frame, side_of(side), &addr, offload)),
        None => 0,
    }
}

/// Writes the source or destination port of TCP or UDP.
pub fn set_port(frame: &mut [u8], side: i32, port: u16, offload: Offload) -> i32
    ensures { Edits (port_set offload (within frame.old) (side_of side) port) frame.old frame.new result }
{
    if frame.len() > MAX_LEN {
        return 0;
    }
    code(app_edit::set_port(frame, side_of(side), port, offload))
}

/// Writes bytes from this byte of the frame on.
pub fn set_bytes(frame: &mut [u8], offset: usize, bytes: &[u8], offload: Offload) -> i32
    ensures { Edits (bytes_set offload (within frame.old) offset bytes.now) frame.old frame.new result }
{
    if frame.len() > MAX_LEN {
        return 0;
    }
    code(app_edit::set_bytes(frame, offset, bytes, offload))
}

/// Computes the transport checksum.
pub fn fill_checksum(frame: &mut [u8]) -> i32
    ensures { Edits (checksum_filled (within frame.old)) frame.old frame.new result }
{
    if frame.len() > MAX_LEN {
        return 0;
    }
    code(app_edit::fill_checksum(frame))
}

/// What the caller says of a checksum by this number. Any other number is a guess.
pub fn offload_of(number: i32) -> Offload
    ensures { result ≡ offload_of number }
{
    if number == 1 {
        Offload::Offloaded
    } else if number == 2 {
        Offload::Complete
    } else {
        Offload::Guess
    }
}

// The number that C gets.
fn code(done: bool) -> i32
    ensures { result ≡ pos (flag done) }
{
    if done { 1 } else { 0 }
}
