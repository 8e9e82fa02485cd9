//! The User Datagram Protocol (RFC 768; over IPv6 RFC 8200, section 8.1).
#![tactic(auto)]

pub mod laws;
mod udp;

pub use udp::{UDP_HEADER_LEN, UDP_MAX_PAYLOAD_LEN, UdpPacket, UdpPacketMut, UdpRepr};
