//! The result of a call is also that of another call, or of a second formula. If contract and body of
//! one of the two are wrong in the same way, these proofs fail.

pub mod blocks;
pub mod classes;
pub mod frames;
pub mod hardware;
pub mod interfaces;
pub mod octets;
pub mod payloads;
pub mod tcp;
pub mod transport;
pub mod versions;
