//! TCP headers whose only option is a timestamp.

ghost use Rattle.std.specs.Prelude.{◌≡◌, IsTrue};
ghost use Rattle.c_structs.specs.TcpKept.{HasPaddedStamp, HasStamp};

use byteorder::{ByteOrder, NetworkEndian};
use ip_wire::TcpPacket;

// The length of a header whose only option is a timestamp.
const STAMPED_LEN: u8 = 32;

// The kind and the length of a timestamp, and two bytes of no operation before them.
const STAMP: u16 = 0x080a;

const PADDED_STAMP: u32 = 0x0101_080a;

/// Whether the options are a timestamp and two zeros.
#[inline(always)]
pub fn has_stamp(bytes: &[u8]) -> bool
    ensures { IsTrue result → HasStamp bytes.now }
{
    if bytes.len() < usize::from(STAMPED_LEN) {
        return false;
    }
    TcpPacket::new_unchecked(bytes).header_len() == STAMPED_LEN
        && NetworkEndian::read_u16(&bytes[20..22]) == STAMP
        && NetworkEndian::read_u16(&bytes[30..32]) == 0
}

/// Whether the options are two bytes of no operation and a timestamp.
#[inline(always)]
pub fn has_padded_stamp(bytes: &[u8]) -> bool
    ensures { IsTrue result → HasPaddedStamp bytes.now }
{
    if bytes.len() < usize::from(STAMPED_LEN) {
        return false;
    }
    TcpPacket::new_unchecked(bytes).header_len() == STAMPED_LEN
        && NetworkEndian::read_u32(&bytes[20..24]) == PADDED_STAMP
}
