//! Edits of the fields of a packet, in place. Each returns 1 if it wrote, or 0; then the frame is unchanged.

ghost use Rattle.std.specs.Option.{option_and_then};
ghost use Rattle.app_edit.specs.Edited.{addr_set, bytes_set, dscp_set, hop_limit_set, port_set};
ghost use Rattle.app_edit.specs.Filled.{checksum_filled};
ghost use Rattle.app_edit.specs.declared.replace.Offload.TheVariants.{Guess};
ghost use Rattle.c_routing.specs.Edited.{Edits, offload_of};
ghost use Rattle.c_routing.specs.Translated.{side_of};
ghost use Rattle.c_structs.specs.Addresses.{ip_of};
ghost use Rattle.c_structs.specs.Written.{within};

use app_edit::Offload;
use c_routing::{
    fill_checksum, offload_of, set_addr, set_bytes, set_dscp, set_hop_limit, set_port,
};
use c_structs::Addr;

/// Writes the TTL or hop limit.
#[unsafe(no_mangle)]
pub extern "C" fn lk_set_hop_limit(frame: &mut [u8], hop_limit: u8) -> i32
    ensures { Edits (hop_limit_set (within frame.old) hop_limit) frame.old frame.new result }
{
    set_hop_limit(frame, hop_limit)
}

/// Writes the DSCP, of 6 bits. A larger number is rejected.
#[unsafe(no_mangle)]
pub extern "C" fn lk_set_dscp(frame: &mut [u8], dscp: u8) -> i32
    ensures { Edits (dscp_set (within frame.old) dscp) frame.old frame.new result }
{
    set_dscp(frame, dscp)
}

/// Writes the source or destination address, of the version of the packet.
#[unsafe(no_mangle)]
pub extern "C" fn lk_set_addr(frame: &mut [u8], side: i32, addr: &Addr) -> i32
    ensures { Edits (option_and_then (addr_set Guess (within frame.old) (side_of side)) (ip_of addr.now)) frame.old frame.new result }
{
    set_addr(frame, side, addr, Offload::Guess)
}

/// Writes the source or destination address. The caller says whether the transport checksum is left to the device.
#[unsafe(no_mangle)]
pub extern "C" fn lk_set_addr_as(frame: &mut [u8], side: i32, addr: &Addr, offload: i32) -> i32
    ensures { Edits (option_and_then (addr_set (offload_of offload) (within frame.old) (side_of side)) (ip_of addr.now)) frame.old frame.new result }
{
    set_addr(frame, side, addr, offload_of(offload))
}

/// Writes the source or destination port of TCP or UDP.
#[unsafe(no_mangle)]
pub extern "C" fn lk_set_port(frame: &mut [u8], side: i32, port: u16) -> i32
    ensures { Edits (port_set Guess (within frame.old) (side_of side) port) frame.old frame.new result }
{
    set_port(frame, side, port, Offload::Guess)
}

/// Writes a port of TCP or UDP. The caller says whether the checksum is left to the device.
#[unsafe(no_mangle)]
pub extern "C" fn lk_set_port_as(frame: &mut [u8], side: i32, port: u16, offload: i32) -> i32
    ensures { Edits (port_set (offload_of offload) (within frame.old) (side_of side) port) frame.old frame.new result }
{
    set_port(frame, side, port, offload_of(offload))
}

/// Writes bytes from this byte of the frame on.
#[unsafe(no_mangle)]
pub extern "C" fn lk_set_bytes(frame: &mut [u8], offset: usize, bytes: &[u8]) -> i32
    ensures { Edits (bytes_set Guess (within frame.old) offset bytes.now) frame.old frame.new result }
{
    set_bytes(frame, offset, bytes, Offload::Guess)
}

/// Writes bytes from a byte of the frame on. The caller says whether the transport checksum is left to the device.
#[unsafe(no_mangle)]
pub extern "C" fn lk_set_bytes_as(
    frame: &mut [u8],
    offset: usize,
    bytes: &[u8],
    offload: i32,
) -> i32
    ensures { Edits (bytes_set (offload_of offload) (within frame.old) offset bytes.now) frame.old frame.new result }
{
    set_bytes(frame, offset, bytes, offload_of(offload))
}

/// Computes the transport checksum.
#[unsafe(no_mangle)]
pub extern "C" fn lk_fill_checksum(frame: &mut [u8]) -> i32
    ensures { Edits (checksum_filled (within frame.old)) frame.old frame.new result }
{
    fill_checksum(frame)
}
