//! Both halves of a TCP connection over rings in the caller's memory, and the network between them (RFC 9293): what the
//! receiver reads is what the sender wrote.
#![tactic(auto)]

pub mod laws;
pub mod model;
mod order;
mod ranges;
mod receiving;
mod ring;
mod sending;

pub use order::{is_ahead, is_before};
pub use ranges::Blocks;
pub use receiving::Receiving;
pub use sending::{Segment, Sending};
