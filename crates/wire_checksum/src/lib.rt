//! The Internet checksum (RFC 1071).
#![tactic(auto)]

pub mod checksum;
pub mod for_emit;
pub mod laws;
mod totals;
