//! IPv6 fragment headers (RFC 8200, section 4.5), without their first two bytes: the next header and
//! a reserved byte.

mod header;
mod header_mut;
mod repr;

pub use header::{Ipv6FragmentHeader, Ipv6FragmentHeaderMut};
pub use repr::Ipv6FragmentRepr;

// The length of a header without its first two bytes.
const HEADER_LEN: usize = 6;
