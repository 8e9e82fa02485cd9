//! Masks of prefixes: ones, then zeros.

ghost use Rattle.std.specs.Prelude.{◌≡◌, ◌-◌, ◌^◌, ◌≤◌};

/// A mask of 32 bits that begins with `ones` ones.
#[inline]
pub(crate) fn mask_32(ones: u8) -> u32
    requires { ones ≤ 32 }
    ensures { result ≡ 2 ^ 32 - 2 ^ (32 - ones) }
{
    let zeros = 32 - ones;
    if zeros == 32 { 0 } else { u32::MAX << zeros }
}

/// A mask of 128 bits that begins with `ones` ones.
#[inline]
pub(crate) fn mask_128(ones: u8) -> u128
    requires { ones ≤ 128 }
    ensures { result ≡ 2 ^ 128 - 2 ^ (128 - ones) }
{
    let zeros = 128 - ones;
    if zeros == 128 { 0 } else { u128::MAX << zeros }
}
