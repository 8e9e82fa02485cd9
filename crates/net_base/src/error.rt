//! The one error of this library.

ghost use Rattle.std.specs.Prelude.{Some, codes};

use std::error::Error as StdError;
use std::fmt;

/// The bytes do not parse: there are too few, a length field is impossible, or a version or checksum
/// is wrong. Or the bytes are no hardware address of the medium.
#[derive(Debug, Clone, Copy, PartialEq, Eq)]
pub struct Error;

impl fmt::Display for Error {
    ghost output = { λ _. Some (codes "wire::Error") };

    fn fmt<W: fmt::Write>(&self, f: &mut fmt::Formatter<W>) -> fmt::Result {
        write!(f, "wire::Error")
    }
}

impl StdError for Error {}

/// The result of a call that rejects bytes.
pub type Result<T> = std::result::Result<T, Error>;
