//! Connections over time.

mod options;
mod scenarios;
