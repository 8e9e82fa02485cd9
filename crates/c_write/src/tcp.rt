//! TCP segments.

ghost use Rattle.std.specs.Prelude.{◌≡◌, ◌≤◌, ◌<◌, ◌+◌, ◌++◌, ◌%◌, drop, flat_map, if◌then◌else◌, length, slice_index, slice_range, take};
ghost use Rattle.byteorder.specs.Endian.{big_bytes};
ghost use Rattle.ip_wire.specs.IpAddress.{version_of};
ghost use Rattle.ip_wire.specs.Field.{with_field};
ghost use Rattle.ip_wire.specs.Tcp.{with_checksum};
ghost use Rattle.c_write.specs.Headers.{front_bytes, options_header_len, segment_bytes, tcp_value};
ghost use Rattle.c_write.specs.Resummed.{resummed};

use crate::tcp_bytes::emit_options;
use byteorder::{ByteOrder, NetworkEndian};
use c_structs::{Tcp, TcpOptions};
use ip_wire::{IpAddress, IpProtocol, TCP_HEADER_LEN, TcpPacketMut, checksum};
use wire_checksum::for_emit;

/// Writes the checksum of a segment at the front of `out` that has 0 there, from a segment that was
/// read between the same addresses with its checksum and has the same payload: the payload is not
/// summed again. `old` is the header that was read, `old_len` the length of its segment.
#[inline(always)]
pub fn put_checksum(old: &[u8], old_len: usize, header_len: usize, len: usize, out: &mut [u8])
    requires header { 20 ≤ header_len }
    requires room { header_len ≤ length out.old }
    ensures { out.new ≡ with_field out.old 128 16 (resummed old.now old_len (take header_len out.old) len) }
{
    let old_sum = checksum::combine(&[checksum::data(old), (old_len % 65_536) as u16]);
    let new_sum = checksum::combine(&[checksum::data(&out[..header_len]), (len % 65_536) as u16]);
    let checksum = checksum::update(0, old_sum, new_sum);
    let mut packet = TcpPacketMut::new_unchecked(out);
    packet.set_checksum(checksum);
}

/// Writes a header with these options and ports between two addresses, around a payload that is in
/// `out` after it. The first 20 bytes are written last, with their checksum, and are not read
/// again: bytes that were just written are slow to read. The checksum is 0 unless it is computed.
#[inline(always)]
pub fn wrap_segment(
    header: &Tcp,
    options: &TcpOptions,
    ports: (u16, u16),
    src_addr: IpAddress,
    dst_addr: IpAddress,
    header_len: usize,
    payload_len: usize,
    computed: bool,
    out: &mut [u8],
)
    requires few { options.now.sack_range_count ≤ length options.now.sack_ranges }
    requires value { header_len ≡ options_header_len options.now }
    requires most { header_len ≤ 60 }
    requires room { header_len + payload_len ≤ length out.old }
    requires family { version_of src_addr ≡ version_of dst_addr }
    ensures { let v = tcp_value header.now options.now ports.0 ports.1 in let end = header_len + payload_len in
        let payload = slice_range out.old header_len end in
        out.new ≡ segment_bytes header.now v payload src_addr dst_addr computed ++ drop end out.old }
{
    // Once they are read, the checker knows that each has 32 bits.
    let _numbers = (header.seq_number, header.ack_number);
    emit_options(options, header_len, out);
    let rest = &out[TCP_HEADER_LEN..header_len + payload_len];
    let words = front(
        header, ports, src_addr, dst_addr, header_len, rest, computed,
    );
    write_front(&words, out);
}

// The words of the first 20 bytes before the rest of a segment. The checksum is 0 unless it is
// computed.
#[inline(always)]
fn front(
    header: &Tcp,
    ports: (u16, u16),
    src_addr: IpAddress,
    dst_addr: IpAddress,
    header_len: usize,
    rest: &[u8],
    computed: bool,
) -> [u32; 5]
    requires most { header_len ≤ 60 }
    requires family { version_of src_addr ≡ version_of dst_addr }
    ensures { let bytes = front_bytes header.now ports.0 ports.1 header_len ++ rest.now in
        flat_map (big_bytes 4) result ++ rest.now ≡ (if computed then with_checksum src_addr dst_addr bytes else bytes) }
{
    let words = words(header, ports, header_len);
    if computed {
        summed(words, src_addr, dst_addr, rest)
    } else {
        words
    }
}

// The words of the first 20 bytes, of 32 bits each. Their checksum is 0.
#[inline(always)]
fn words(header: &Tcp, ports: (u16, u16), header_len: usize) -> [u32; 5]
    requires { header_len ≤ 60 }
    ensures value { flat_map (big_bytes 4) result ≡ front_bytes header.now ports.0 ports.1 header_len }
    ensures no_checksum { slice_index result 4 < 65536 }
{
    let offset = (header_len / 4 * 16) as u32;
    [
        u32::from(ports.0) * 65536 + u32::from(ports.1),
        header.seq_number,
        header.ack_number,
        offset * 16777216 + u32::from(header.flags) * 65536 + u32::from(header.window_len),
        u32::from(header.urgent_at),
    ]
}

// The words of a header with the checksum of a segment. The rest of the segment follows them.
#[inline(always)]
fn summed(words: [u32; 5], src_addr: IpAddress, dst_addr: IpAddress, rest: &[u8]) -> [u32; 5]
    requires no_checksum { slice_index words 4 < 65536 }
    requires family { version_of src_addr ≡ version_of dst_addr }
    ensures { flat_map (big_bytes 4) result ++ rest.now ≡ with_checksum src_addr dst_addr (flat_map (big_bytes 4) words ++ rest.now) }
{
    let mut front = [0; TCP_HEADER_LEN];
    NetworkEndian::write_u32_into(&words, &mut front);
    let sum = for_emit::packet(src_addr, dst_addr, IpProtocol::Tcp, &front, rest);
    let mut words = words;
    words[4] += u32::from(!sum) * 65536;
    words
}

// Writes the first 20 bytes of a header.
#[inline(always)]
fn write_front(words: &[u32; 5], out: &mut [u8])
    requires { 20 ≤ length out.old }
    ensures { out.new ≡ flat_map (big_bytes 4) words.now ++ drop 20 out.old }
{
    let (front, _) = out.split_at_mut(TCP_HEADER_LEN);
    NetworkEndian::write_u32_into(words, front);
}
