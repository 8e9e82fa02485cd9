//! When and how much a TCP sender may send: the retransmission timer (RFC 6298) and the congestion window (RFC 5681, with
//! NewReno, RFC 6582, and limited transmit, RFC 3042). No input, output or clock.
#![tactic(auto)]

mod congestion;
mod estimate;
mod fields;
pub mod laws;
mod phase;
mod rto;
mod scoreboard;

pub use congestion::{Congestion, MAX_CWND};
pub use fields::{CongestionFields, RtoFields};
pub use rto::{MAX_RTO, MIN_RTO, Rto};
pub use scoreboard::Scoreboard;
