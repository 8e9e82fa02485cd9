//! One extension header.

ghost use Rattle.std.specs.Prelude.{◌≡◌, ◌≤◌, ◌%◌, length};
ghost use Rattle.wire_extensions.specs.Extension.{extension_len, is_extension};

/// The protocol of a fragment header.
pub const FRAGMENT: u8 = 44;

/// The protocol of an authentication header.
pub(crate) const AUTHENTICATION: u8 = 51;

/// The length of the shortest extension header, and of a fragment header, in bytes.
pub const EXTENSION_UNIT: usize = 8;

/// Whether this is the number of an extension header: hop-by-hop options, routing, fragment, authentication,
/// destination options.
#[inline(always)]
pub fn is_extension(protocol: u8) -> bool
    ensures { result ≡ is_extension protocol }
{
    matches!(protocol, 0 | 43 | 44 | 51 | 60)
}

/// The length of an extension header in bytes.
pub fn extension_len(protocol: u8, bytes: &[u8]) -> usize
    requires { 8 ≤ length bytes.now }
    ensures value { result ≡ extension_len protocol bytes.now }
    ensures least { 8 ≤ result }
    ensures bounded { result ≤ 2048 }
    ensures even { result % 2 ≡ 0 }
{
    match protocol {
        FRAGMENT => EXTENSION_UNIT,
        AUTHENTICATION => EXTENSION_UNIT + 4 * usize::from(bytes[1]),
        _ => EXTENSION_UNIT + EXTENSION_UNIT * usize::from(bytes[1]),
    }
}
