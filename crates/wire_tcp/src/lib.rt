//! The Transmission Control Protocol (RFC 9293; options by RFC 2018 and RFC 7323).
#![tactic(auto)]

pub mod laws;
mod tcp;

pub use tcp::{TCP_HEADER_LEN, TCP_MAX_HEADER_LEN, TcpPacket, TcpPacketMut, TcpRepr};
