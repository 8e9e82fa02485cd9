//! Tests of `app_fragment`.
#![tactic(auto)]

#[cfg(test)]
mod tests;
