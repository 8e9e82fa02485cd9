//! Checksum fields after a part of what they cover changed (RFC 1624).

ghost use Rattle.std.specs.Prelude.{◌≡◌, ◌+◌, ◌-◌, ◌*◌};
ghost use Rattle.app_edit.specs.Checksums.{StaysComputed, sum_at, updated_udp};
ghost use Rattle.ip_wire.specs.Udp.{checksum_for};
ghost use Rattle.ip_wire.specs.WordSum.{sum_of_bytes, updated};

use ip_wire::checksum;

/// The checksum field of a UDP packet after words that it covers changed, by their sums. A field of 0 stays, and a
/// computed 0 is 0xffff (RFC 768).
pub fn update_udp(field: u16, before: u16, after: u16) -> u16
    ensures { result ≡ updated_udp field before after }
{
    if field == 0 {
        return 0;
    }
    match checksum::update(field, before, after) {
        0 => 0xffff,
        checksum => checksum,
    }
}

/// The checksum field after the bytes at this offset of what it covers were replaced.
#[inline(always)]
pub fn update_bytes(field: u16, offset: usize, before: &[u8], after: &[u8]) -> u16
    ensures value { result ≡ updated field (sum_at offset before.now) (sum_at offset after.now) }
    ensures computed { StaysComputed (λ sum. 65535 - sum) offset before.now after.now field result }
{
    checksum::update(field, sum_at(offset, before), sum_at(offset, after))
}

/// The checksum field of a UDP packet after the bytes at this offset of what it covers were replaced.
#[inline(always)]
pub fn update_udp_bytes(field: u16, offset: usize, before: &[u8], after: &[u8]) -> u16
    ensures value { result ≡ updated_udp field (sum_at offset before.now) (sum_at offset after.now) }
    ensures computed { StaysComputed checksum_for offset before.now after.now field result }
{
    update_udp(field, sum_at(offset, before), sum_at(offset, after))
}

// The sum of bytes from this offset of a message on.
#[inline(always)]
fn sum_at(offset: usize, bytes: &[u8]) -> u16
    ensures { result ≡ sum_at offset bytes.now }
{
    let sum = sum_of(bytes);
    if offset % 2 == 0 {
        sum
    } else {
        sum.swap_bytes()
    }
}

// The sum of bytes. The few bytes of most edits are added directly; `checksum::data` is made for longer inputs.
#[inline(always)]
fn sum_of(bytes: &[u8]) -> u16
    ensures { result ≡ sum_of_bytes bytes.now }
{
    if bytes.len() >= 8 {
        return checksum::data(bytes);
    }
    match bytes {
        [a] => word(*a, 0),
        [a, b] => word(*a, *b),
        [a, b, c, d] => checksum::combine(&[word(*a, *b), word(*c, *d)]),
        _ => checksum::data(bytes),
    }
}

// The number of two bytes, the high byte first.
#[inline(always)]
fn word(high: u8, low: u8) -> u16
    ensures { result ≡ 256 * high + low }
{
    256 * u16::from(high) + u16::from(low)
}
