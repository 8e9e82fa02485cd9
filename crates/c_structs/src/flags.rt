//! The bits of IP headers.

/// The flag MF among the 16 bits of an IPv4 header with the fragment offset (RFC 791, section 3.1).
pub const MORE_FRAGMENTS: u16 = 0x2000;

/// The flag DF among these 16 bits.
pub const DONT_FRAGMENT: u16 = 0x4000;

/// How many flow labels there are: the lowest 20 of the first 32 bits of an IPv6 header (RFC 8200, section 3). ECN
/// follows them.
pub const FLOW_LABELS: u32 = 1 << 20;

/// The lowest bit of DSCP in the first 32 bits of an IPv6 header.
pub const DSCP_UNIT: u32 = 1 << 22;
