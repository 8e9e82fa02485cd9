//! A router: it forwards frames in place, tells senders why it does not, chooses routes, by an index if there are
//! many, and checks the sources of packets.
#![tactic(auto)]

pub mod index;
mod problem;
pub mod route;
mod router;
pub mod source;
pub mod table;

pub use problem::{Problem, error, try_error};
pub use router::forward;
