//! TCP headers that are rebuilt from their bytes.

ghost use Rattle.std.specs.Prelude.{◌≡◌, ◌≤◌, ◌↔◌, ◌⊎◌, IsTrue, Some, length};
ghost use Rattle.ip_wire.specs.IpAddress.{version_of};
ghost use Rattle.ip_wire.specs.Tcp.{header_len};
ghost use Rattle.c_structs.specs.TcpKept.{HasPaddedStamp, HasStamp};
ghost use Rattle.c_structs.specs.Written.{Fills};
ghost use Rattle.c_write.specs.TcpKept.{IsAck, IsPlain, IsSound, with_stamp_first};

use byteorder::{ByteOrder, NetworkEndian};
use c_structs::{has_padded_stamp, has_stamp};
use ip_wire::{IpAddress, TCP_HEADER_LEN, TcpPacket, TcpPacketMut, checksum};
use net_base::{try_copy, write_at};

// No sum has this complement.
const NO_CHECKSUM: u16 = 0xffff;

/// Whether a segment has a header that is emitted as it is, with no option or a timestamp.
#[inline(always)]
pub fn is_kept(bytes: &[u8]) -> bool
    ensures { IsTrue result → IsPlain bytes.now × ((header_len bytes.now ≡ 20) ⊎ HasStamp bytes.now) }
{
    is_plain(bytes) && (has_no_options(bytes) || has_stamp(bytes))
}

/// Whether only the options of a header change when it is emitted: it has a timestamp after two no-operations.
#[inline(always)]
pub fn is_stamped(bytes: &[u8]) -> bool
    ensures { IsTrue result → IsPlain bytes.now × HasPaddedStamp bytes.now }
{
    is_plain(bytes) && has_padded_stamp(bytes)
}

/// Whether a segment has a header, ports other than 0, and a valid checksum.
#[inline(always)]
pub fn is_sound(bytes: &[u8], src_addr: &IpAddress, dst_addr: &IpAddress) -> bool
    requires { version_of src_addr.now ≡ version_of dst_addr.now }
    ensures { IsTrue result ↔ IsSound src_addr.now dst_addr.now bytes.now }
{
    if bytes.len() < TCP_HEADER_LEN {
        return false;
    }
    let packet = TcpPacket::new_unchecked(bytes);
    packet.src_port() != 0 && packet.dst_port() != 0 && packet.verify_checksum(src_addr, dst_addr)
}

/// Copies a segment with the timestamp at the front of the options, and returns its length. `None` if it
/// does not fit.
#[inline(always)]
pub fn copy_stamped(bytes: &[u8], out: &mut [u8]) -> Option<usize>
    requires { 32 ≤ length bytes.now }
    ensures { Fills (Some (with_stamp_first bytes.now bytes.now)) out.old out.new result }
{
    match try_copy(out, bytes) {
        Some(len) => {
            move_stamp(bytes, out);
            Some(len)
        }
        None => None,
    }
}

// Writes the timestamp of a header to the front of the options.
#[inline(always)]
fn move_stamp(header: &[u8], out: &mut [u8])
    requires header { 32 ≤ length header.now }
    requires room { 32 ≤ length out.old }
    ensures { out.new ≡ with_stamp_first header.now out.old }
{
    write_at(out, 20, &header[22..32]);
    write_at(out, 30, &[0, 0]);
    let old = TcpPacket::new_unchecked(header).checksum();
    TcpPacketMut::new_unchecked(out).set_checksum(checksum::update(old, 0x0101, 0));
}

// Whether the first 20 bytes of a header are emitted as they are.
#[inline(always)]
fn is_plain(bytes: &[u8]) -> bool
    ensures { IsTrue result → IsPlain bytes.now }
{
    if bytes.len() < TCP_HEADER_LEN {
        return false;
    }
    let packet = TcpPacket::new_unchecked(bytes);
    let flags = NetworkEndian::read_u16(&bytes[12..14]) % 4096;
    is_ack(flags) && packet.urgent_at() == 0 && packet.checksum() != NO_CHECKSUM
}

// Whether the flags are ACK and at most one of PSH, RST, SYN and FIN.
#[inline(always)]
fn is_ack(flags: u16) -> bool
    ensures { IsTrue result → IsAck flags }
{
    matches!(flags, 0x010 | 0x011 | 0x012 | 0x014 | 0x018)
}

// Whether a header has no options.
#[inline(always)]
fn has_no_options(bytes: &[u8]) -> bool
    requires { 20 ≤ length bytes.now }
    ensures { IsTrue result → header_len bytes.now ≡ 20 }
{
    usize::from(TcpPacket::new_unchecked(bytes).header_len()) == TCP_HEADER_LEN
}
