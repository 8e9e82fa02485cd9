//! Sums for `emit`, computed from values before they are written. Bytes that were just written are
//! slow to read again.

ghost use Rattle.std.specs.Prelude.{◌≡◌, ◌%◌, ◌≤◌, ◌++◌, flat_map, length};
ghost use Rattle.byteorder.specs.Endian.{big_bytes};
ghost use Rattle.wire_addr.specs.IpAddress.{version_of};
ghost use Rattle.wire_checksum.specs.PseudoHeader.{with_pseudo_header};
ghost use Rattle.wire_checksum.specs.WordSum.{sum_of_bytes};

use crate::checksum::pseudo_header_total;
use crate::totals::{around, finish, reduce, total, total_of_words};
use wire_addr::{IpAddress, IpProtocol};

/// The sum of a header of 20 bytes, such as an IPv4 header without options. It equals
/// `checksum::data`.
#[inline(always)]
pub fn header(bytes: &[u8; 20]) -> u16
    ensures { result ≡ sum_of_bytes bytes.now }
{
    finish(total_of_words(bytes))
}

/// The sum of the big-endian bytes of five numbers, such as an IPv4 header without options.
#[inline(always)]
pub fn words(numbers: [u32; 5]) -> u16
    ensures { result ≡ sum_of_bytes (flat_map (big_bytes 4) numbers) }
{
    let [a, b, c, d, e] = numbers;
    reduce(u64::from(a) + u64::from(b) + u64::from(c) + u64::from(d) + u64::from(e))
}

/// The sum of a pseudo-header and a packet in two slices. It equals `checksum::packet` of both
/// slices joined. The first slice has at most 60 bytes, in whole words of 4.
#[inline(always)]
pub fn packet(
    src_addr: IpAddress,
    dst_addr: IpAddress,
    next_header: IpProtocol,
    front: &[u8],
    rest: &[u8],
) -> u16
    requires family { version_of src_addr ≡ version_of dst_addr }
    requires whole { length front.now % 4 ≡ 0 }
    requires short { length front.now ≤ 60 }
    ensures { result ≡ sum_of_bytes (with_pseudo_header src_addr dst_addr next_header (front.now ++ rest.now)) }
{
    let length = ((front.len() + rest.len()) % (1 << 16)) as u32;
    let pseudo_header = pseudo_header_total(src_addr, dst_addr, next_header, length);
    finish(around(around(pseudo_header, total_of_words(front)), total(rest)))
}
