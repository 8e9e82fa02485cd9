//! Tests of both.

mod rto;
mod scoreboard;
mod windows;
