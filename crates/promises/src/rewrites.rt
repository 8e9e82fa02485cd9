//! What was parsed is emitted in no more bytes.

ghost use Rattle.std.specs.Prelude.{◌≡◌, ◌+◌, ◌≤◌, ◌++◌, IfOk, drop, length};
ghost use Rattle.ip_wire.specs.Checksum.{computes, verifies};
ghost use Rattle.ip_wire.specs.IpAddress.{version_of};
ghost use Rattle.ip_wire.specs.Tcp.{header_len};
ghost use Rattle.ip_wire.specs.Udp as udp;

use crate::emit::{emit_tcp, emit_udp};
use ip_wire::{
    ChecksumCapabilities, IpAddress, Result, TcpPacket, TcpRepr, UDP_HEADER_LEN, UdpPacket, UdpRepr,
};

/// A UDP packet that parses is written again with its payload, in no more bytes. Returns their
/// number.
pub fn parse_then_emit_udp(
    bytes: &[u8],
    src_addr: &IpAddress,
    dst_addr: &IpAddress,
    out: &mut [u8],
    caps: &ChecksumCapabilities,
) -> Result<usize>
    requires family { version_of src_addr.now ≡ version_of dst_addr.now }
    requires room { length bytes.now ≤ length out.old }
    ensures no_longer { IfOk result (λ len. len ≤ length bytes.now) }
    ensures written { IfOk result (λ len. (v : UdpRepr)
        → udp.Reads bytes.now src_addr.now dst_addr.now (verifies caps.now.udp) v (udp.payload_of bytes.now)
        → out.new ≡ udp.bytes_of v (udp.payload_of bytes.now) src_addr.now dst_addr.now (computes caps.now.udp) ++ drop len out.old) }
{
    let packet = UdpPacket::new_unchecked(bytes);
    let value = UdpRepr::parse(&packet, src_addr, dst_addr, caps)?;
    let payload = packet.payload();
    emit_udp(&value, payload, src_addr, dst_addr, out, caps);
    Ok(UDP_HEADER_LEN + payload.len())
}

/// A TCP segment that parses is written again with its payload. Neither its header nor the segment
/// is longer than before. Returns the lengths of both.
pub fn parse_then_emit_tcp(
    bytes: &[u8],
    src_addr: &IpAddress,
    dst_addr: &IpAddress,
    out: &mut [u8],
    caps: &ChecksumCapabilities,
) -> Result<(usize, usize)>
    requires family { version_of src_addr.now ≡ version_of dst_addr.now }
    requires room { length bytes.now ≤ length out.old }
    ensures header { IfOk result (λ lens. lens.0 ≤ header_len bytes.now) }
    ensures no_longer { IfOk result (λ lens. lens.1 ≤ length bytes.now) }
{
    match TcpRepr::parse(&TcpPacket::new_unchecked(bytes), src_addr, dst_addr, caps) {
        Ok(value) => {
            emit_tcp(&value, src_addr, dst_addr, out, caps);
            Ok((value.header_len(), value.buffer_len()))
        }
        Err(error) => Err(error),
    }
}
