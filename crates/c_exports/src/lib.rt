//! The packet layer for programs in other languages. `include/ip_wire.h` declares these functions for C.
#![tactic(auto)]

pub mod addresses;
pub mod edits;
pub mod emit;
pub mod fragments;
pub mod frames;
pub mod host;
pub mod icmp;
pub mod links;
pub mod nat;
pub mod numbers;
pub mod read_calls;
pub mod reassembly;
pub mod rebuild;
pub mod routes;
pub mod routing;
pub mod sockets;
pub mod summary;
