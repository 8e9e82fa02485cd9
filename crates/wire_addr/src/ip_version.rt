//! Versions of the Internet Protocol.

ghost use Rattle.std.specs.Prelude.{◌≡◌, ◌↔◌, Ok, Some};
ghost use Rattle.std.specs.Result.{result_ok};
ghost use Rattle.wire_addr.specs.IpVersion.{IsOfVersion, packet_version, version_text};
ghost use Rattle.wire_addr.specs.declared.ip_version.IpVersion.{IpVersion};

use net_base::{Error, Result};
use std::fmt;

/// A version of the Internet Protocol.
#[derive(Debug, Clone, Copy, PartialEq, Eq, PartialOrd, Ord, Hash)]
pub enum IpVersion {
    /// RFC 791.
    Ipv4,
    /// RFC 8200.
    Ipv6,
}

impl IpVersion {
    /// The version in the first four bits of a packet. Fails for an empty slice and for any other
    /// version number.
    #[tactic(auto, unfolding(crate::specs::IpVersion::packet_version))]
    pub fn of_packet(packet: &[u8]) -> Result<IpVersion>
        ensures version { (v : IpVersion) → (result ≡ Ok v) ↔ IsOfVersion packet.now v }
        ensures value { packet_version packet.now ≡ result_ok result }
    {
        let Some(first) = packet.first() else {
            return Err(Error);
        };
        match first >> 4 {
            4 => Ok(IpVersion::Ipv4),
            6 => Ok(IpVersion::Ipv6),
            _ => Err(Error),
        }
    }
}

impl fmt::Display for IpVersion {
    ghost output = { λ v. Some (version_text v) };

    fn fmt<W: fmt::Write>(&self, f: &mut fmt::Formatter<W>) -> fmt::Result {
        match *self {
            IpVersion::Ipv4 => write!(f, "IPv4"),
            IpVersion::Ipv6 => write!(f, "IPv6"),
        }
    }
}
