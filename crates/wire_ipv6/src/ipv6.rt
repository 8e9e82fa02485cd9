//! IPv6 headers (RFC 8200).

mod packet;
mod packet_mut;
mod repr;

pub use packet::{Ipv6Packet, Ipv6PacketMut};
pub use repr::Ipv6Repr;

/// The length of a header in bytes. Extension headers belong to the payload.
pub const IPV6_HEADER_LEN: usize = 40;

/// The length of the longest payload in bytes. The payload length field has 16 bits.
pub const IPV6_MAX_PAYLOAD_LEN: usize = 65_535;

/// The packet size in bytes that every link must support (RFC 8200, section 5).
pub const IPV6_MIN_MTU: usize = 1280;
