//! The places of the four addresses, by the length fields. They follow each other, after the first
//! eight bytes.

ghost use Rattle.std.specs.Prelude.{◌≡◌, ◌+◌, ◌*◌};

use std::ops::Range;

/// The length of the fields before the addresses, in bytes.
pub const FIXED_LEN: usize = 8;

/// The bytes of the source's hardware address.
pub fn source_hardware_addr(hardware_len: u8) -> Range<usize>
    ensures start { result.start ≡ 8 }
    ensures end { result.end ≡ 8 + hardware_len }
{
    FIXED_LEN..FIXED_LEN + usize::from(hardware_len)
}

/// The bytes of the source's protocol address.
pub fn source_protocol_addr(hardware_len: u8, protocol_len: u8) -> Range<usize>
    ensures start { result.start ≡ 8 + hardware_len }
    ensures end { result.end ≡ 8 + hardware_len + protocol_len }
{
    let start = source_hardware_addr(hardware_len).end;
    start..start + usize::from(protocol_len)
}

/// The bytes of the target's hardware address.
pub fn target_hardware_addr(hardware_len: u8, protocol_len: u8) -> Range<usize>
    ensures start { result.start ≡ 8 + hardware_len + protocol_len }
    ensures end { result.end ≡ 8 + 2 * hardware_len + protocol_len }
{
    let start = source_protocol_addr(hardware_len, protocol_len).end;
    start..start + usize::from(hardware_len)
}

/// The bytes of the target's protocol address.
pub fn target_protocol_addr(hardware_len: u8, protocol_len: u8) -> Range<usize>
    ensures start { result.start ≡ 8 + 2 * hardware_len + protocol_len }
    ensures end { result.end ≡ 8 + 2 * hardware_len + 2 * protocol_len }
{
    let start = target_hardware_addr(hardware_len, protocol_len).end;
    start..start + usize::from(protocol_len)
}
