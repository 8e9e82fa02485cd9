//! Packets of the Internet Protocol, of either version.
#![tactic(auto)]

mod ip;
pub mod laws;

pub use ip::{IpPacket, IpRepr};
