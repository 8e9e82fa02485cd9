//! The steps of `TcpRepr::emit`.

ghost use Rattle.std.specs.Prelude.{◌≡◌, ◌+◌, ◌-◌, ◌≤◌, ◌++◌, drop, length, replicate};
ghost use Rattle.byteorder.specs.Endian.{big_bytes};
ghost use Rattle.wire_addr.specs.IpAddress.{version_of};
ghost use Rattle.net_base.specs.Field.{with_range};
ghost use Rattle.wire_tcp.specs.Tcp.{Becomes, packet_bytes_mut, segment_sum, with_checksum_field};
ghost use Rattle.wire_tcp_options.specs.TcpOption.{IsEmittable, option_len, option_text};
ghost use Rattle.wire_tcp.specs.TcpFixed.{fixed_bytes};

use super::{TCP_HEADER_LEN, TcpPacketMut};
use byteorder::{ByteOrder, NetworkEndian};
use net_base::write_at;
use wire_addr::{IpAddress, IpProtocol};
use wire_tcp_options::TcpOption;

// The first 20 bytes of a header, with 0 as checksum and urgent pointer. `offset_and_flags` is
// the word that holds the data offset and the flags.
#[inline(always)]
pub(super) fn fixed(
    src_port: u16,
    dst_port: u16,
    seq_number: u32,
    ack_number: u32,
    offset_and_flags: u16,
    window_len: u16,
) -> [u8; TCP_HEADER_LEN]
    ensures { result ≡ fixed_bytes src_port dst_port seq_number ack_number offset_and_flags window_len }
{
    let mut bytes = [0; TCP_HEADER_LEN];
    write_pair(&mut bytes[0..8], join(src_port, dst_port), seq_number);
    let flow = join(offset_and_flags, window_len);
    write_pair(&mut bytes[8..16], ack_number, flow);
    bytes
}

// Writes the checksum of a segment that begins with `fixed` and has no checksum yet. Those 20
// bytes are not read from the segment: bytes that were just written are slow to read again.
#[inline(always)]
pub(super) fn write_checksum(
    packet: &mut TcpPacketMut<'_>,
    fixed: &[u8; TCP_HEADER_LEN],
    src_addr: &IpAddress,
    dst_addr: &IpAddress,
)
    requires room { 20 ≤ length (packet_bytes_mut packet.old) }
    requires front { packet_bytes_mut packet.old ≡ fixed.now ++ drop 20 (packet_bytes_mut packet.old) }
    requires family { version_of src_addr.now ≡ version_of dst_addr.now }
    ensures { let bytes = packet_bytes_mut packet.old in
        Becomes packet.old packet.new (with_checksum_field bytes (65535 - segment_sum src_addr.now dst_addr.now bytes)) }
{
    let (_, rest) = packet.as_bytes().split_at(TCP_HEADER_LEN);
    let sum = wire_checksum::for_emit::packet(*src_addr, *dst_addr, IpProtocol::Tcp, fixed, rest);
    packet.set_checksum(!sum);
}

// Joins two 16-bit numbers to one of 32 bits.
#[tactic(auto, using(crate::proofs::Pairs::joined))]
fn join(high: u16, low: u16) -> u32
    ensures { big_bytes 4 result ≡ big_bytes 2 high ++ big_bytes 2 low }
{
    (u32::from(high) << 16) + u32::from(low)
}

// Writes two 32-bit numbers by one store.
#[tactic(auto, using(crate::proofs::Pairs::paired))]
fn write_pair(buffer: &mut [u8], high: u32, low: u32)
    requires { length buffer.old ≡ 8 }
    ensures { buffer.new ≡ big_bytes 4 high ++ big_bytes 4 low }
{
    NetworkEndian::write_u64(buffer, (u64::from(high) << 32) + u64::from(low));
}

// Writes an option at byte `at`, and returns where it ends.
#[inline(always)]
pub(super) fn write_option(
    packet: &mut TcpPacketMut<'_>,
    at: usize,
    option: &TcpOption<'_>,
) -> usize
    requires room { at + option_len option.now ≤ length (packet_bytes_mut packet.old) }
    requires fits { IsEmittable option.now }
    ensures end { result ≡ at + option_len option.now }
    ensures written { Becomes packet.old packet.new (with_range (packet_bytes_mut packet.old) at result (option_text option.now)) }
{
    let end = at + option.buffer_len();
    wire_tcp_options::write_option(option, &mut packet.buffer[at..end]);
    end
}

// Writes zeros to the bytes from `start` up to `end`.
pub(super) fn write_zeros(packet: &mut TcpPacketMut<'_>, start: usize, end: usize)
    requires begins { start ≤ end }
    requires ends { end ≤ length (packet_bytes_mut packet.old) }
    ensures { Becomes packet.old packet.new (with_range (packet_bytes_mut packet.old) start end (replicate (end - start) 0)) }
{
    packet.buffer[start..end].fill(0);
}

// Copies the bytes to the segment, from byte `start` on.
pub(super) fn write_bytes(packet: &mut TcpPacketMut<'_>, start: usize, bytes: &[u8])
    requires { start + length bytes.now ≤ length (packet_bytes_mut packet.old) }
    ensures { Becomes packet.old packet.new (with_range (packet_bytes_mut packet.old) start (start + length bytes.now) bytes.now) }
{
    write_at(packet.buffer, start, bytes);
}
