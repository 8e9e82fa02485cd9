//! Tests of the crates that use the library.
#![tactic(auto)]

#[cfg(test)]
mod tests;
