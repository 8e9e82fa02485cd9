//! Tests of the TCP crates, which are proved once without them.
#![tactic(auto)]

#[cfg(test)]
mod tests;
