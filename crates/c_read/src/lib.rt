//! Frames, headers, options and captured packets as the structs of `c_structs`, and a frame as one line of text.
//! `c_exports` exports them to C.
#![tactic(auto)]

mod captured;
mod faults;
mod frame_fields;
mod frame_options;
mod icmp_fields;
mod ipv6_steps;
pub mod laws;
mod links;
mod summary;
mod tcp_options;
mod tcp_steps;
mod tcp_usual;
mod transport_fields;
mod verdicts;

pub use captured::{read_captured, read_captured_packet};
pub use frame_fields::{read_frame, read_packet};
pub use frame_options::read_frame_options;
pub use ipv6_steps::next_ipv6_header;
pub use links::{read_link, read_linked};
pub use summary::print_frame;
pub use tcp_options::read_tcp_options;
pub use tcp_steps::next_tcp_option;
