//! TCP segments (RFC 9293, section 3.1).

mod emit;
mod for_emit;
mod packet;
mod packet_mut;
mod repr;
mod repr_text;
mod text;
mod update;

pub use packet::{TcpPacket, TcpPacketMut};
pub use repr::TcpRepr;

/// The length of a header without options in bytes.
pub const TCP_HEADER_LEN: usize = 20;

/// The length of the longest header in bytes. The data offset has 4 bits and counts words of 4
/// bytes.
pub const TCP_MAX_HEADER_LEN: usize = 60;
