//! Fragments of packets (RFC 791, section 3.2; RFC 8200, section 4.5): a packet is cut into them, and put together again
//! in memory of the caller. `fragment_ipv4` writes the fragments of an IPv4 packet, and `fragment_ipv6` those of an IPv6
//! packet.
#![tactic(auto)]

mod cut;
mod datagram;
mod ipv4;
mod ipv6;
pub mod laws;
mod options;
mod part;
mod partials;
mod reassembly;

pub use cut::{Piece, cut_next, numbered_place};
pub use datagram::{Datagram, begin, write_alone};
pub use ipv4::{Written, fragment_ipv4, ipv4_place};
pub use ipv6::{fragment_ipv6, ipv6_place};
pub use part::FragKey;
pub use partials::{Partial, Reassembled, expire, reassemble};
pub use reassembly::{Ends, Inserted, clear, insert};
