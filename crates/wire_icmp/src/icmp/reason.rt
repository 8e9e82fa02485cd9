//! Why a packet was not delivered, as the code of an error says.

ghost use Rattle.std.specs.Prelude.{◌≡◌, Some};
ghost use Rattle.wire_icmp.specs.Icmp.{exceeded_by, exceeded_code, unreachable_by, unreachable_code};
ghost use Rattle.wire_icmp.specs.IcmpText.{exceeded_text, unreachable_text};

use std::fmt;
use wire_addr::IpVersion;

/// Why a destination is unreachable (RFC 792; RFC 1812, section 5.2.7.1; RFC 4443, section 3.1).
#[derive(Debug, Clone, Copy, PartialEq, Eq)]
pub enum Unreachable {
    /// No route to the network.
    NoRoute,
    /// The host, or address, does not answer.
    Host,
    /// No program has the port.
    Port,
    /// A filter forbids it.
    Prohibited,
    /// Any other code.
    Other(u8),
}

impl Unreachable {
    /// The code of the reason.
    pub fn code(&self, version: IpVersion) -> u8
        ensures { result ≡ unreachable_code version self.now }
    {
        match version {
            IpVersion::Ipv4 => match *self {
                Unreachable::NoRoute => 0,
                Unreachable::Host => 1,
                Unreachable::Port => 3,
                Unreachable::Prohibited => 13,
                Unreachable::Other(code) => code,
            },
            IpVersion::Ipv6 => match *self {
                Unreachable::NoRoute => 0,
                Unreachable::Prohibited => 1,
                Unreachable::Host => 3,
                Unreachable::Port => 4,
                Unreachable::Other(code) => code,
            },
        }
    }

    /// The reason that has this code.
    pub fn by_code(version: IpVersion, code: u8) -> Unreachable
        ensures { result ≡ unreachable_by version code }
    {
        match version {
            IpVersion::Ipv4 => match code {
                0 => Unreachable::NoRoute,
                1 => Unreachable::Host,
                3 => Unreachable::Port,
                13 => Unreachable::Prohibited,
                _ => Unreachable::Other(code),
            },
            IpVersion::Ipv6 => match code {
                0 => Unreachable::NoRoute,
                1 => Unreachable::Prohibited,
                3 => Unreachable::Host,
                4 => Unreachable::Port,
                _ => Unreachable::Other(code),
            },
        }
    }
}

impl fmt::Display for Unreachable {
    ghost output = { λ reason. Some (unreachable_text reason) };

    fn fmt<W: fmt::Write>(&self, f: &mut fmt::Formatter<W>) -> fmt::Result {
        match *self {
            Unreachable::NoRoute => write!(f, "no route"),
            Unreachable::Host => write!(f, "host"),
            Unreachable::Port => write!(f, "port"),
            Unreachable::Prohibited => write!(f, "prohibited"),
            Unreachable::Other(code) => write!(f, "code {code}"),
        }
    }
}

/// What ran out (RFC 792; RFC 4443, section 3.3).
#[derive(Debug, Clone, Copy, PartialEq, Eq)]
pub enum Exceeded {
    /// The hop limit, or time to live, on the way.
    HopLimit,
    /// The time for all fragments to arrive.
    Reassembly,
    /// Any other code.
    Other(u8),
}

impl Exceeded {
    /// The code, which is that of both versions.
    pub fn code(&self) -> u8
        ensures { result ≡ exceeded_code self.now }
    {
        match *self {
            Exceeded::HopLimit => 0,
            Exceeded::Reassembly => 1,
            Exceeded::Other(code) => code,
        }
    }

    /// What has this code.
    pub fn by_code(code: u8) -> Exceeded
        ensures { result ≡ exceeded_by code }
    {
        match code {
            0 => Exceeded::HopLimit,
            1 => Exceeded::Reassembly,
            _ => Exceeded::Other(code),
        }
    }
}

impl fmt::Display for Exceeded {
    ghost output = { λ reason. Some (exceeded_text reason) };

    fn fmt<W: fmt::Write>(&self, f: &mut fmt::Formatter<W>) -> fmt::Result {
        match *self {
            Exceeded::HopLimit => write!(f, "hop limit"),
            Exceeded::Reassembly => write!(f, "reassembly"),
            Exceeded::Other(code) => write!(f, "code {code}"),
        }
    }
}
