//! UDP packets (RFC 768).

ghost use Rattle.std.specs.Prelude.{◌≡◌};
ghost use Rattle.wire_udp.specs.Udp.{checksum_for};

mod packet;
mod packet_mut;
mod repr;
mod update;

pub use packet::{UdpPacket, UdpPacketMut};
pub use repr::UdpRepr;

/// The length of a header in bytes.
pub const UDP_HEADER_LEN: usize = 8;

/// The length of the longest payload in bytes. The 16-bit length field counts the header too. An
/// IPv4 packet has room for 20 bytes less.
pub const UDP_MAX_PAYLOAD_LEN: usize = 65_527;

// The checksum of a packet with this sum: its complement, or 0xffff if the complement is 0. In the
// header 0 means that there is no checksum (RFC 768).
fn checksum_for(sum: u16) -> u16
    ensures { result ≡ checksum_for sum }
{
    if sum == 0xffff { 0xffff } else { !sum }
}
