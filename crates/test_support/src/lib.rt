//! What the crates with tests share: frames, and helpers that change, compare and print.
#![tactic(auto)]

pub mod bytes;
pub mod captured;
#[cfg(test)]
mod tests;
pub mod texts;
pub mod udp_frames;
