//! UDP packets.

ghost use Rattle.std.specs.Prelude.{◌≡◌, ◌≤◌, ◌+◌, ◌++◌, drop, length, slice_range, true};
ghost use Rattle.ip_wire.specs.IpAddress.{version_of};
ghost use Rattle.ip_wire.specs.Udp.{bytes_of, max_payload_len};

use ip_wire::{ChecksumCapabilities, IpAddress, UDP_HEADER_LEN, UdpPacketMut, UdpRepr};

/// Writes the header of a packet between two addresses around a payload that is in `out` after it.
#[inline(always)]
pub fn wrap(
    header: UdpRepr,
    src_addr: IpAddress,
    dst_addr: IpAddress,
    payload_len: usize,
    out: &mut [u8],
)
    requires payload_len { payload_len ≤ max_payload_len }
    requires room { 8 + payload_len ≤ length out.old }
    requires family { version_of src_addr ≡ version_of dst_addr }
    ensures { let payload = slice_range out.old 8 (8 + payload_len) in
        out.new ≡ bytes_of header payload src_addr dst_addr true ++ drop (8 + payload_len) out.old }
{
    let (packet, _) = out.split_at_mut(UDP_HEADER_LEN + payload_len);
    let mut packet = UdpPacketMut::new_unchecked(packet);
    header.emit_header(&mut packet, payload_len);
    packet.fill_checksum(&src_addr, &dst_addr);
}

/// Writes a packet between two addresses to the front of `out`. The checksum is computed from the
/// values and the caller's payload: bytes that were just written are slow to read again.
#[inline(always)]
pub fn write(
    header: UdpRepr,
    src_addr: IpAddress,
    dst_addr: IpAddress,
    payload: &[u8],
    out: &mut [u8],
)
    requires payload_len { length payload.now ≤ max_payload_len }
    requires room { 8 + length payload.now ≤ length out.old }
    requires family { version_of src_addr ≡ version_of dst_addr }
    ensures { out.new ≡ bytes_of header payload.now src_addr dst_addr true ++ drop (8 + length payload.now) out.old }
{
    header.emit(
        &mut UdpPacketMut::new_unchecked(out),
        &src_addr,
        &dst_addr,
        payload,
        &ChecksumCapabilities::default(),
    );
}
