//! The hop limit check of RFC 5082: a neighbour sends with hop limit 255, and each router takes one away.

ghost use Rattle.std.specs.Prelude.{◌↔◌, IsTrue};
ghost use Rattle.app_short.specs.Hops.{IsNear};

use ip_wire::{ChecksumCapabilities, Frame};

/// The hop limit that a neighbour sends with.
const SENT: u8 = 255;

/// Returns `true` if the frame carries a packet that parses with valid checksums, and whose hop limit says that
/// it came over at most `hops` routers.
pub fn is_near(bytes: &[u8], hops: u8) -> bool
    ensures { IsTrue result ↔ IsNear hops bytes.now }
{
    match Frame::parse_packet(bytes, &ChecksumCapabilities::default()) {
        Ok((_, header, _)) => header.hop_limit() >= SENT - hops,
        Err(_) => false,
    }
}
