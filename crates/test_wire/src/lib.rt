//! Tests of addresses, of checksums, of each format and of whole frames, through the calls that their users make.
#![tactic(auto)]

#[cfg(test)]
mod tests;
