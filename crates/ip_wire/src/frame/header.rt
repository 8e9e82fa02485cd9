//! The IP header of a packet that a router forwards or NAT translates.

ghost use Rattle.std.specs.Prelude.{◌≡◌, IfErr, IfOk, Some, true};
ghost use Rattle.ip_wire.specs.HeaderFault.{ipv4_fault};
ghost use Rattle.wire_ipv4.specs.Ipv4.{Reads};

use net_base::ChecksumCapabilities;
use wire_ipv4::{Ipv4Packet, Ipv4Repr};

/// Why the IP header of a frame is rejected. If several reasons apply, it is the first of them.
#[derive(Debug, Clone, Copy, PartialEq, Eq)]
pub enum HeaderFault {
    /// The frame has no Ethernet header, or an EtherType that is not taken: a router takes IPv4 and
    /// IPv6, NAT takes IPv4.
    NotIp,
    /// The version of the IP header does not match the EtherType, or its lengths are invalid.
    BadHeader,
    /// The checksum of the IPv4 header is wrong.
    WrongChecksum,
    /// The hop limit is 0 or 1. NAT accepts such a header.
    Expired,
}

/// Parses the header of an IPv4 packet, and verifies its checksum. An error is `BadHeader` or
/// `WrongChecksum`.
#[inline(always)]
pub fn parse_ipv4(bytes: &[u8]) -> Result<Ipv4Repr, HeaderFault>
    ensures reads { IfOk result (Reads bytes.now true) }
    ensures fault { IfErr result (λ fault. ipv4_fault bytes.now ≡ Some fault) }
{
    let packet = Ipv4Packet::new_unchecked(bytes);
    let Ok(header) = Ipv4Repr::parse(&packet, &ChecksumCapabilities::ignored()) else {
        return Err(HeaderFault::BadHeader);
    };
    if !packet.verify_checksum() {
        return Err(HeaderFault::WrongChecksum);
    }
    Ok(header)
}
