//! A port to listen on.

ghost use Rattle.std.specs.Prelude.{◌≡◌, ◌↔◌, IsTrue, Some};
ghost use Rattle.std.specs.declared.net.socket_addr.SocketAddr.TheVariants.{V4, V6};
ghost use Rattle.wire_addr.specs.Endpoint.{IsAtPair, IsSpecified, listening_at, listening_on, listening_text};
ghost use Rattle.wire_addr.specs.StdNet.{endpoint_of};
ghost use Rattle.wire_addr.specs.declared.ip_endpoint.IpEndpoint.{IpEndpoint};

use crate::{IpAddress, IpEndpoint};
use std::fmt;
use std::net::{SocketAddr, SocketAddrV4, SocketAddrV6};

/// A port to listen on, at one address or, if none is given, at every address. The default is port 0
/// at every address.
#[derive(Debug, Clone, Copy, PartialEq, Eq, PartialOrd, Ord, Hash, Default)]
pub struct IpListenEndpoint {
    pub addr: Option<IpAddress>,
    pub port: u16,
}

impl IpListenEndpoint {
    /// Returns `true` if an address is given and the port is not 0.
    pub const fn is_specified(&self) -> bool
        ensures { IsTrue result ↔ IsSpecified self.now }
    {
        matches!(self.addr, Some(_)) && self.port != 0
    }
}

/// The port, at every address.
impl From<u16> for IpListenEndpoint {
    ghost from_gives = { λ port listening. listening ≡ listening_on port };

    fn from(port: u16) -> IpListenEndpoint {
        IpListenEndpoint { addr: None, port }
    }
}

impl From<IpEndpoint> for IpListenEndpoint {
    ghost from_gives = { λ endpoint listening. listening ≡ listening_at endpoint };

    fn from(value: IpEndpoint) -> IpListenEndpoint {
        IpListenEndpoint {
            addr: Some(value.addr),
            port: value.port,
        }
    }
}

/// The address and port of the pair.
impl<A: Into<IpAddress>> From<(A, u16)> for IpListenEndpoint {
    ghost from_gives = { λ pair listening. (endpoint : IpEndpoint)
        × IsAtPair A.Into.converts pair endpoint × (listening ≡ listening_at endpoint) };

    fn from(pair: (A, u16)) -> IpListenEndpoint {
        IpEndpoint::from(pair).into()
    }
}

/// The same address and port.
impl From<SocketAddr> for IpListenEndpoint {
    ghost from_gives = { λ socket listening. listening ≡ listening_at (endpoint_of socket) };

    fn from(value: SocketAddr) -> IpListenEndpoint {
        (value.ip(), value.port()).into()
    }
}

/// The same address and port. Flow and scope are dropped.
impl From<SocketAddrV4> for IpListenEndpoint {
    ghost from_gives = { λ socket listening. listening ≡ listening_at (endpoint_of (V4 socket)) };

    fn from(value: SocketAddrV4) -> IpListenEndpoint {
        SocketAddr::V4(value).into()
    }
}

/// The same address and port.
impl From<SocketAddrV6> for IpListenEndpoint {
    ghost from_gives = { λ socket listening. listening ≡ listening_at (endpoint_of (V6 socket)) };

    fn from(value: SocketAddrV6) -> IpListenEndpoint {
        SocketAddr::V6(value).into()
    }
}

/// Prints as an endpoint; `*` stands for every address.
impl fmt::Display for IpListenEndpoint {
    ghost output = { λ listening. Some (listening_text listening.addr listening.port) };

    fn fmt<W: fmt::Write>(&self, f: &mut fmt::Formatter<W>) -> fmt::Result {
        match self.addr {
            Some(addr) => write!(f, "{}", IpEndpoint::new(addr, self.port)),
            None => write!(f, "*:{}", self.port),
        }
    }
}
