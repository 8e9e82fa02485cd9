//! TCP, from the stream up.

mod congestion;
mod connection;
mod options;
mod socket;
mod tcp;
