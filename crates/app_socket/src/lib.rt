//! A TCP connection with its timers: retransmission, persist, delayed acknowledgement, keep-alive and the time-outs of silence
//! (RFC 9293, section 3.8; RFC 1122, section 4.2.3), with congestion control (RFC 5681, RFC 6298, RFC 6582), above
//! `app_connection`. No input, output, clock or allocation.
#![tactic(auto)]

mod answers;
mod arrival;
mod before;
mod calls;
mod fields;
mod flow;
pub mod laws;
mod options;
mod paws;
mod pieces;
mod socket;
mod step;
mod tick;
mod timers;
mod undo;
mod window;

pub use fields::SocketFields;
pub use options::Options;
pub use socket::{Header, Socket};
pub use step::Event;
