//! A TCP connection: its states, its set-up and its end, over both halves of `tcp_stream` (RFC 9293, section 3.10; RFC 5961).
//! No input, output or timers.
#![tactic(auto)]

mod arrival;
mod connection;
mod fields;
pub mod laws;
mod segment;
mod sequence;
mod set_up;
mod state;
mod step;

pub use connection::Connection;
pub use fields::ConnectionFields;
pub use segment::{Reply, Segment};
pub use state::State;
pub use step::Event;
