//! Neighbour solicitations and advertisements, ICMPv6 messages of the types 135 and 136.

mod option;
mod repr;
mod text;

pub use repr::{NdiscNeighborFlags, NdiscRepr};

/// The hop limit of each message, and the only one that is valid. A packet that came through a router
/// has less (RFC 4861, section 3.1).
pub const NDISC_HOP_LIMIT: u8 = 255;
