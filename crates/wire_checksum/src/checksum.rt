//! The Internet checksum (RFC 1071), without the final complement. A sum here is a one's complement
//! sum of 16-bit words.

ghost use Rattle.std.specs.Prelude.{◌≡◌, ◌+◌, ◌-◌, ◌*◌, ◌%◌, ◌<◌, length, ℕ};
ghost use Rattle.wire_addr.specs.IpAddress.{address_bytes, version_of};
ghost use Rattle.wire_checksum.specs.PseudoHeader.{pseudo_header_bytes, with_pseudo_header};
ghost use Rattle.wire_checksum.specs.WordSum.{residue, sum_of, sum_of_bytes, updated};

use crate::totals::{around, finish, sum_here, total, total_of_words};
use wire_addr::{IpAddress, IpProtocol, Ipv4Address, Ipv6Address};

/// Adds numbers, such as the sums of the parts of a packet. The result is 0 if all numbers are 0.
/// Else it is the number in 1 to 65535 that is congruent to their plain sum modulo 65535.
pub fn combine(sums: &[u16]) -> u16
    ensures { result ≡ sum_of sums.now }
{
    let mut sum: u32 = 0;
    for number in sums {
        sum += u32::from(*number);
        if sum > 0xffff {
            sum -= 0xffff;
        }
    }
    sum as u16
}

/// The checksum after a word that it covers changed from `old` to `new` (RFC 1624, equation 3). To
/// change several words at once, pass the sums of the old and the new words. Here a checksum is the
/// complement of a sum, as in a header. The result is the computed checksum if the old one was, and
/// valid if the old one was. This does not hold if all covered bytes are 0 now, which never happens in
/// IPv4, UDP or TCP.
pub fn update(checksum: u16, old: u16, new: u16) -> u16
    ensures value { result ≡ updated checksum old new }
    ensures valid { (rest : ℕ) → 0 < rest + new → residue (rest + old + checksum) ≡ 65535
        → residue (rest + new + result) ≡ 65535 }
    ensures computed { (rest : ℕ) → 0 < rest + new → checksum ≡ 65535 - residue (rest + old)
        → result ≡ 65535 - residue (rest + new) }
{
    !combine(&[!checksum, !old, new])
}

/// The sum of the big-endian 16-bit words of the bytes, added as by `combine`. An odd last byte is
/// the high byte of a word.
#[inline(always)]
pub fn data(bytes: &[u8]) -> u16
    ensures { result ≡ sum_of_bytes bytes.now }
{
    match <&[u8; 20]>::try_from(bytes) {
        Ok(header) => finish(total_of_words(header)),
        Err(_) => sum_here(bytes),
    }
}

/// The sum of an IPv4 pseudo-header (RFC 768). Only the low 16 bits of the length count. The length
/// is in bytes.
pub fn pseudo_header_v4(
    src_addr: &Ipv4Address,
    dst_addr: &Ipv4Address,
    next_header: IpProtocol,
    length: u32,
) -> u16
    ensures { result ≡ sum_of_bytes (pseudo_header_bytes src_addr.now dst_addr.now next_header length) }
{
    let (src_addr, dst_addr) = (IpAddress::Ipv4(*src_addr), IpAddress::Ipv4(*dst_addr));
    pseudo_header(&src_addr, &dst_addr, next_header, length)
}

/// The sum of an IPv6 pseudo-header (RFC 8200, section 8.1). Only the low 16 bits of the length
/// count. The length is in bytes.
pub fn pseudo_header_v6(
    src_addr: &Ipv6Address,
    dst_addr: &Ipv6Address,
    next_header: IpProtocol,
    length: u32,
) -> u16
    ensures { result ≡ sum_of_bytes (pseudo_header_bytes src_addr.now dst_addr.now next_header length) }
{
    let (src_addr, dst_addr) = (IpAddress::Ipv6(*src_addr), IpAddress::Ipv6(*dst_addr));
    pseudo_header(&src_addr, &dst_addr, next_header, length)
}

/// The sum of the pseudo-header of either IP version. Only the low 16 bits of the length count. The
/// length is in bytes.
pub fn pseudo_header(
    src_addr: &IpAddress,
    dst_addr: &IpAddress,
    next_header: IpProtocol,
    length: u32,
) -> u16
    requires { version_of src_addr.now ≡ version_of dst_addr.now }
    ensures { result ≡ sum_of_bytes (pseudo_header_bytes (address_bytes src_addr.now) (address_bytes dst_addr.now) next_header length) }
{
    finish(pseudo_header_total(*src_addr, *dst_addr, next_header, length))
}

/// The sum of a pseudo-header and the packet after it. The length in the pseudo-header is that of
/// the packet.
#[tactic(auto, using(crate::proofs::PseudoSums::total_with_pseudo_header))]
#[inline(always)]
pub fn packet(
    src_addr: IpAddress,
    dst_addr: IpAddress,
    next_header: IpProtocol,
    packet: &[u8],
) -> u16
    requires { version_of src_addr ≡ version_of dst_addr }
    ensures { result ≡ sum_of_bytes (with_pseudo_header src_addr dst_addr next_header packet.now) }
{
    let length = (packet.len() % (1 << 16)) as u32;
    let header = pseudo_header_total(src_addr, dst_addr, next_header, length);
    finish(around(header, total(packet)))
}

/// The sum of the bytes of an address, as it is part of a pseudo-header.
pub fn address(address: &IpAddress) -> u16
    ensures value { result ≡ sum_of_bytes (address_bytes address.now) }
    ensures whole_words { length (address_bytes address.now) % 2 ≡ 0 }
{
    finish(address_total(*address))
}

// The total of a pseudo-header.
#[inline]
pub(crate) fn pseudo_header_total(
    src_addr: IpAddress,
    dst_addr: IpAddress,
    next_header: IpProtocol,
    length: u32,
) -> u64
    ensures { residue (256 * result) ≡ sum_of_bytes (pseudo_header_bytes (address_bytes src_addr) (address_bytes dst_addr) next_header length) }
{
    let number = u16::from(u8::from(next_header));
    let length = (length % (1 << 16)) as u16;
    around(
        around(address_total(src_addr), address_total(dst_addr)),
        u64::from(number.swap_bytes()) + u64::from(length.swap_bytes()),
    )
}

// The total of an address.
#[inline]
fn address_total(address: IpAddress) -> u64
    ensures value { residue (256 * result) ≡ sum_of_bytes (address_bytes address) }
    ensures whole_words { length (address_bytes address) % 2 ≡ 0 }
{
    match address {
        IpAddress::Ipv4(address) => total_of_words(&address.octets()),
        IpAddress::Ipv6(address) => total_of_words(&address.octets()),
    }
}
