//! Fields of whole bytes.

ghost use Rattle.std.specs.Prelude.{◌≡◌, ◌+◌, ◌≤◌, ◌++◌, drop, length, slice_range};
ghost use Rattle.net_base.specs.Field.{with_range};
ghost use Rattle.net_base.specs.Filled.{Fills};

use byteorder::{ByteOrder, NetworkEndian};

/// The `N` bytes from byte `first` on.
pub fn array_at<const N: usize>(bytes: &[u8], first: usize) -> [u8; N]
    requires { first + N ≤ length bytes.now }
    ensures { result ≡ slice_range bytes.now first (first + N) }
{
    let mut array = [0; N];
    array.copy_from_slice(&bytes[first..first + N]);
    array
}

/// Writes these bytes to the front. All bytes after them stay unchanged.
#[inline(always)]
pub fn write_front<const N: usize>(bytes: &mut [u8], front: &[u8; N])
    requires { N ≤ length bytes.old }
    ensures { bytes.new ≡ front.now ++ drop N bytes.old }
{
    bytes[..N].copy_from_slice(front);
}

/// Writes six bytes, such as an Ethernet address, to the front. All bytes after them stay unchanged. They
/// are moved as two words, which needs no copy on the stack.
#[inline(always)]
pub fn write_six(bytes: &mut [u8], six: &[u8; 6])
    requires { 6 ≤ length bytes.old }
    ensures { bytes.new ≡ six.now ++ drop 6 bytes.old }
{
    NetworkEndian::write_u32(bytes, NetworkEndian::read_u32(six));
    NetworkEndian::write_u16(&mut bytes[4..6], NetworkEndian::read_u16(&six[4..6]));
}

/// Copies `part` to the front of the bytes and returns its length. Returns `None` and writes nothing if it does
/// not fit.
#[inline(always)]
pub fn try_copy(bytes: &mut [u8], part: &[u8]) -> Option<usize>
    ensures { Fills part.now (length part.now) bytes.old bytes.new result }
{
    if bytes.len() < part.len() {
        return None;
    }
    bytes[..part.len()].copy_from_slice(part);
    Some(part.len())
}

/// Copies `part` to the bytes, from byte `first` on, and leaves all other bytes. An empty part is tested
/// for, because a copy of no bytes still costs a call.
#[inline(always)]
pub fn write_at(bytes: &mut [u8], first: usize, part: &[u8])
    requires { first + length part.now ≤ length bytes.old }
    ensures { bytes.new ≡ with_range bytes.old first (first + length part.now) part.now }
{
    if part.is_empty() {
        return;
    }
    bytes[first..first + part.len()].copy_from_slice(part);
}
