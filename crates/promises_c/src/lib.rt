//! The calls of the C library whose contracts are relations have one answer: with equal arguments they return and
//! write the same, and two calls for one question agree.
#![tactic(auto)]

pub mod addresses;
pub mod host;
pub mod icmp;
pub mod links;
pub mod nat;
pub mod numbers;
pub mod read_calls;
pub mod routes;
pub mod routing;
pub mod writes;
