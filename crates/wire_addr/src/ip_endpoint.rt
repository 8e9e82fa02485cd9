//! Endpoints: an address with a port.

ghost use Rattle.std.specs.Prelude.{◌≡◌, ◌≢◌, [], ℕ, List, MatchOption, Some};
ghost use Rattle.std.specs.Net.Grammar.{Parses};
ghost use Rattle.std.specs.Net.Socket.{IsPlainSocket};
ghost use Rattle.std.specs.declared.net.socket_addr.SocketAddr.TheVariants.{V4, V6};
ghost use Rattle.wire_addr.specs.Endpoint.{IsAtPair, IsWithPort, ReadsEndpoint, ReadsHost, bracketed, endpoint_at, endpoint_text};
ghost use Rattle.wire_addr.specs.IpAddress.{ReadsAddress};
ghost use Rattle.wire_addr.specs.StdNet.{endpoint_of};

use crate::{IpAddress, Ipv4Address, Ipv6Address, number_after};
use arrayvec::ArrayString;
use itoa::Buffer;
use std::fmt;
use std::net::{SocketAddr, SocketAddrV4, SocketAddrV6};
use std::str::FromStr;

/// An address and a port.
#[derive(Debug, Clone, Copy, PartialEq, Eq, PartialOrd, Ord, Hash)]
pub struct IpEndpoint {
    pub addr: IpAddress,
    pub port: u16,
}

impl IpEndpoint {
    /// The endpoint at this address and port.
    pub const fn new(addr: IpAddress, port: u16) -> IpEndpoint
        ensures { result ≡ endpoint_at addr port }
    {
        IpEndpoint { addr, port }
    }

    /// Parses an endpoint as `from_str` does, from bytes. `Err(())` if the text does not parse.
    pub fn parse_ascii(text: &[u8]) -> Result<IpEndpoint, ()>
        ensures { Parses ReadsEndpoint text.now result }
    {
        // The likely form is tried first.
        if seems_to_have_a_port(text) {
            match with_port(text) {
                Ok(endpoint) => Ok(endpoint),
                Err(()) => without_port(text),
            }
        } else {
            match without_port(text) {
                Ok(endpoint) => Ok(endpoint),
                Err(()) => with_port(text),
            }
        }
    }

    /// The printed text: the address, `:` and the port in decimal. An IPv6 address is in brackets (RFC 5952,
    /// section 6).
    pub fn text(&self) -> ArrayString<47>
        ensures { result.bytes ≡ endpoint_text self.now }
    {
        let mut text = ArrayString::new();
        self.push_to(&mut text);
        text
    }

    // Writes the printed text into an empty string.
    #[inline(always)]
    fn push_to(&self, text: &mut ArrayString<47>)
        requires { text.old.bytes ≡ [] }
        ensures { text.new.bytes ≡ endpoint_text self.now }
    {
        match self.addr {
            IpAddress::Ipv4(addr) => text.push_str(addr.text().as_str()),
            IpAddress::Ipv6(addr) => {
                text.push_str("[");
                text.push_str(addr.text().as_str());
                text.push_str("]");
            }
        }
        text.push_str(":");
        text.push_str(Buffer::new().format(self.port));
    }
}

/// An endpoint from a pair, if its first part converts to an address.
impl<A: Into<IpAddress>> From<(A, u16)> for IpEndpoint {
    ghost from_gives = { IsAtPair A.Into.converts };

    fn from((addr, port): (A, u16)) -> IpEndpoint {
        IpEndpoint::new(addr.into(), port)
    }
}

/// The same address and port. Flow and scope of an IPv6 address are dropped.
impl From<SocketAddr> for IpEndpoint {
    ghost from_gives = { λ socket endpoint. endpoint ≡ endpoint_of socket };

    fn from(value: SocketAddr) -> IpEndpoint {
        IpEndpoint::new(value.ip().into(), value.port())
    }
}

/// The same address and port.
impl From<SocketAddrV4> for IpEndpoint {
    ghost from_gives = { λ socket endpoint. endpoint ≡ endpoint_of (V4 socket) };

    fn from(value: SocketAddrV4) -> IpEndpoint {
        SocketAddr::V4(value).into()
    }
}

/// The same address and port. Flow and scope are dropped.
impl From<SocketAddrV6> for IpEndpoint {
    ghost from_gives = { λ socket endpoint. endpoint ≡ endpoint_of (V6 socket) };

    fn from(value: SocketAddrV6) -> IpEndpoint {
        SocketAddr::V6(value).into()
    }
}

/// The same address and port. Flow and scope of an IPv6 address are 0.
impl From<IpEndpoint> for SocketAddr {
    ghost from_gives = { λ endpoint socket. (endpoint_of socket ≡ endpoint) × IsPlainSocket socket endpoint.port };

    fn from(value: IpEndpoint) -> SocketAddr {
        SocketAddr::new(value.addr.into(), value.port)
    }
}

/// Width and precision of the formatter are ignored.
impl fmt::Display for IpEndpoint {
    ghost output = { λ endpoint. Some (endpoint_text endpoint) };

    fn fmt<W: fmt::Write>(&self, f: &mut fmt::Formatter<W>) -> fmt::Result {
        let mut text = ArrayString::new();
        self.push_to(&mut text);
        f.write_str(text.as_str())
    }
}

/// The text between brackets, if it starts with `[` and ends with `]`.
fn in_brackets(text: &[u8]) -> Option<&[u8]>
    ensures { MatchOption result ((inner : List ℕ) → text.now ≢ bracketed inner) (λ inner. text.now ≡ bracketed inner.now) }
{
    match text {
        [b'[', inner @ .., b']'] => Some(inner),
        _ => None,
    }
}

/// Parses the address before a port: an IPv6 address is in brackets.
fn host(text: &[u8]) -> Result<IpAddress, ()>
    ensures { Parses ReadsHost text.now result }
{
    match in_brackets(text) {
        Some(inner) => Ok(IpAddress::Ipv6(Ipv6Address::parse_ascii(inner)?)),
        None => Ok(IpAddress::Ipv4(Ipv4Address::parse_ascii(text)?)),
    }
}

/// Whether the text begins with a bracket, or as an IPv4 address and has a colon near its end.
#[inline(always)]
fn seems_to_have_a_port(text: &[u8]) -> bool {
    let len = text.len();
    if len < 8 {
        return false;
    }
    let is_dotted = (text[1] == b'.') | (text[2] == b'.') | (text[3] == b'.');
    if (text[0] <= b'9') & is_dotted {
        (text[len - 2] == b':')
            | (text[len - 3] == b':')
            | (text[len - 4] == b':')
            | (text[len - 5] == b':')
            | (text[len - 6] == b':')
    } else {
        text[0] == b'['
    }
}

/// Parses an address, `:` and a port.
#[inline(always)]
fn with_port(text: &[u8]) -> Result<IpEndpoint, ()>
    ensures { Parses IsWithPort text.now result }
{
    let (address, port) = number_after(text, b':', 5, 65535).ok_or(())?;
    Ok(IpEndpoint::new(host(address)?, port as u16))
}

/// Parses an address without a port.
#[inline(always)]
fn without_port(text: &[u8]) -> Result<IpEndpoint, ()>
    ensures { Parses (λ text endpoint. ReadsAddress text endpoint.addr × (endpoint.port ≡ 0)) text.now result }
{
    match IpAddress::parse_ascii(text) {
        Ok(addr) => Ok(IpEndpoint::new(addr, 0)),
        Err(()) => Err(()),
    }
}

/// Parses an address by itself, with port 0, or an address, `:` and a port. An IPv6 address before a port is
/// in brackets.
impl FromStr for IpEndpoint {
    type Err = ();

    ghost from_str_gives = { Parses ReadsEndpoint };

    fn from_str(s: &str) -> Result<IpEndpoint, ()> {
        IpEndpoint::parse_ascii(s.as_bytes())
    }
}
