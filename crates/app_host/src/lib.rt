//! A host with one interface: it replies to ARP requests, to neighbour solicitations, to echo requests, to UDP
//! packets for its echo port or a closed one, to TCP segments without a connection, and to faulty extension headers
//! of IPv6. Each reply is also a function by itself, and so are ICMP errors about a frame.
#![tactic(auto)]

pub mod arp;
mod host;
pub mod icmp_echo;
pub mod icmp_error;
mod interface;
mod ipv6_chain;
pub mod ipv6_fault;
mod kinds;
pub mod laws;
mod message;
pub mod neighbour;
pub mod parameter_problem;
mod skipped;
pub mod tcp_answer;
pub mod tcp_reply;
pub mod udp_echo;

pub use host::{Host, answer, try_answer};
pub use interface::{HOP_LIMIT, Interface, is_host_addr, is_no_host, is_this_host};
pub use message::{Message, MessageFrame};
