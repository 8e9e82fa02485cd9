//! What the layer and its applications promise across two or more calls, one function per sentence.
//! Each is proved only from public contracts and laws, so it also shows how a user combines them.
#![tactic(auto)]

pub mod calls;
pub mod emit;
pub mod equality;
pub mod frames;
pub mod once;
pub mod rewrites;
pub mod texts;
pub mod values;
pub mod views;
