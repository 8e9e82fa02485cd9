//! Tests of both halves together.

mod order;
mod stream;
