//! Checksums and sequence numbers.

ghost use Rattle.std.specs.Prelude.{◌≡◌, ◌↔◌, ◌+◌, ◌-◌, ◌%◌, ◌^◌, negsuc, pos};
ghost use Rattle.std.specs.Int.{cast_signed, w32};
ghost use Rattle.ip_wire.specs.TcpRepr.{seq_of};
ghost use Rattle.ip_wire.specs.TcpSeq.{IsAfter, IsBefore, distance};
ghost use Rattle.ip_wire.specs.Udp.{checksum_for};
ghost use Rattle.app_edit.specs.Checksums.{StaysComputed, sum_at, updated_udp};
ghost use Rattle.c_structs.specs.Addresses.{address_sum};
ghost use Rattle.c_structs.specs.Written.{within};
ghost use Rattle.ip_wire.specs.WordSum.{sum_of_bytes, updated};

use app_edit::{update_bytes, update_udp, update_udp_bytes};
use c_structs::{Addr, address_sum, within};
use ip_wire::{TcpSeqNumber, checksum};
use std::cmp::Ordering;

/// The Internet checksum of bytes before its complement (`ip_wire::checksum::data`).
#[unsafe(no_mangle)]
pub extern "C" fn lk_checksum(bytes: &[u8]) -> u16
    ensures { result ≡ sum_of_bytes (within bytes.now) }
{
    checksum::data(within(bytes))
}

/// The checksum field after a 16-bit word that it covers changed (`ip_wire::checksum::update`).
#[unsafe(no_mangle)]
pub extern "C" fn lk_update_checksum(checksum: u16, before: u16, after: u16) -> u16
    ensures { result ≡ updated checksum before after }
{
    checksum::update(checksum, before, after)
}

/// The checksum field after an address that it covers changed.
#[unsafe(no_mangle)]
pub extern "C" fn lk_update_checksum_addr(checksum: u16, before: &Addr, after: &Addr) -> u16
    ensures { result ≡ updated checksum (address_sum before.now) (address_sum after.now) }
{
    checksum::update(checksum, address_sum(before), address_sum(after))
}

/// The checksum field of UDP after a 16-bit word that it covers changed.
#[unsafe(no_mangle)]
pub extern "C" fn lk_update_udp_checksum(checksum: u16, before: u16, after: u16) -> u16
    ensures { result ≡ updated_udp checksum before after }
{
    update_udp(checksum, before, after)
}

/// The checksum field of UDP after an address that it covers changed.
#[unsafe(no_mangle)]
pub extern "C" fn lk_update_udp_checksum_addr(checksum: u16, before: &Addr, after: &Addr) -> u16
    ensures { result ≡ updated_udp checksum (address_sum before.now) (address_sum after.now) }
{
    update_udp(checksum, address_sum(before), address_sum(after))
}

/// The checksum field after the bytes at this offset of what it covers were replaced (RFC 1071, section 2 B; RFC 1624).
#[unsafe(no_mangle)]
pub extern "C" fn lk_update_checksum_bytes(
    checksum: u16,
    offset: usize,
    before: &[u8],
    after: &[u8],
) -> u16
    ensures value { result ≡ updated checksum (sum_at offset (within before.now)) (sum_at offset (within after.now)) }
    ensures computed { StaysComputed (λ sum. 65535 - sum) offset (within before.now) (within after.now) checksum result }
{
    update_bytes(checksum, offset, within(before), within(after))
}

/// The checksum field of UDP after the bytes at this offset of what it covers were replaced.
#[unsafe(no_mangle)]
pub extern "C" fn lk_update_udp_checksum_bytes(
    checksum: u16,
    offset: usize,
    before: &[u8],
    after: &[u8],
) -> u16
    ensures value { result ≡ updated_udp checksum (sum_at offset (within before.now)) (sum_at offset (within after.now)) }
    ensures computed { StaysComputed checksum_for offset (within before.now) (within after.now) checksum result }
{
    update_udp_bytes(checksum, offset, within(before), within(after))
}

/// The number `steps` after `seq`, modulo 2<sup>32</sup>.
#[unsafe(no_mangle)]
pub extern "C" fn lk_add_seq(seq: u32, steps: u32) -> u32
    ensures { result ≡ (seq + steps) % 2 ^ 32 }
{
    seq.wrapping_add(steps)
}

/// How far `a` is after `b`, or below 0 how far it is before `b`.
#[unsafe(no_mangle)]
pub extern "C" fn lk_subtract_seq(a: u32, b: u32) -> i32
    ensures { result ≡ cast_signed w32 (distance (seq_of a) (seq_of b)) }
{
    a.wrapping_sub(b).cast_signed()
}

/// -1 if `a` is before `b`, 0 if they are equal, 1 if it is after. At a distance of 2<sup>31</sup> each is
/// before the other.
#[unsafe(no_mangle)]
pub extern "C" fn lk_compare_seq(a: u32, b: u32) -> i32
    ensures before { (result ≡ negsuc 0) ↔ IsBefore (seq_of a) (seq_of b) }
    ensures same { (result ≡ pos 0) ↔ (a ≡ b) }
    ensures after { (result ≡ pos 1) ↔ IsAfter (seq_of a) (seq_of b) }
{
    let a = TcpSeqNumber(a.cast_signed());
    match a.seq_cmp(TcpSeqNumber(b.cast_signed())) {
        Ordering::Less => -1,
        Ordering::Equal => 0,
        Ordering::Greater => 1,
    }
}
