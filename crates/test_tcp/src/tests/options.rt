//! Tests of all calls.

mod options;
mod timestamps;
mod windows;
