//! Addresses, blocks and endpoints, and their texts.

ghost use Rattle.std.specs.Prelude.{◌≡◌, ◌≤◌, ◌∷◌, ◌++◌, ◌↔◌, IfSome, IsSomeAnd, IsTrue, None, Some, decimal, length, take};
ghost use Rattle.ip_wire.specs.IpAddress.{address_text, version_of};
ghost use Rattle.ip_wire.specs.IpCidr.{IsIn, cidr_text};
ghost use Rattle.ip_wire.specs.Printed.{dotted, slash};
ghost use Rattle.c_structs.specs.Addresses.{addr_of, address_sum, block_of, block_struct, endpoint_struct, ip_endpoint_of, ip_of, pair_of};
ghost use Rattle.c_structs.specs.Written.{Prints};

use crate::results::{MAX_LEN, end_text, print};
use crate::types::{Addr, Block, Endpoint};
use arrayvec::ArrayString;
use ip_wire::{
    IpAddress, IpCidr, IpEndpoint, Ipv4Address, Ipv4Cidr, Ipv6Address, Ipv6Cidr, checksum,
};
use itoa::Buffer;

// The length of the longest printed IPv4 address.
const MAX_IPV4_TEXT_LEN: usize = 15;

impl Addr {
    /// The struct of an address.
    #[inline(always)]
    pub fn of(address: IpAddress) -> Addr
        ensures { result ≡ addr_of address }
    {
        match address {
            IpAddress::Ipv4(address) => {
                let [a, b, c, d] = address.octets();
                Addr {
                    octets: [a, b, c, d, 0, 0, 0, 0, 0, 0, 0, 0, 0, 0, 0, 0],
                    version: 4,
                }
            }
            IpAddress::Ipv6(address) => {
                let octets = address.octets();
                Addr { octets, version: 6 }
            }
        }
    }

    /// The address. `None` if the version is neither 4 nor 6.
    #[inline(always)]
    pub fn ip(&self) -> Option<IpAddress>
        ensures { result ≡ ip_of self.now }
    {
        match self.version {
            4 => Some(IpAddress::Ipv4(self.ipv4())),
            6 => Some(IpAddress::Ipv6(self.ipv6())),
            _ => None,
        }
    }

    /// This address, of this version, and another one. `None` if they have no version, or different
    /// ones.
    #[inline(always)]
    pub fn pair(&self, version: u16, other: &Addr) -> Option<(IpAddress, IpAddress)>
        requires { version ≡ self.now.version }
        ensures value { result ≡ pair_of self.now other.now }
        ensures family { IfSome result (λ pair. version_of pair.0 ≡ version_of pair.1) }
    {
        if other.version != version {
            return None;
        }
        match version {
            4 => Some((IpAddress::Ipv4(self.ipv4()), IpAddress::Ipv4(other.ipv4()))),
            6 => Some((IpAddress::Ipv6(self.ipv6()), IpAddress::Ipv6(other.ipv6()))),
            _ => None,
        }
    }

    /// The bytes as an IPv4 address.
    #[inline(always)]
    pub fn ipv4(&self) -> Ipv4Address
        ensures { result ≡ take 4 self.now.octets }
    {
        Ipv4Address::new(
            self.octets[0],
            self.octets[1],
            self.octets[2],
            self.octets[3],
        )
    }

    /// The bytes as an IPv6 address.
    #[inline(always)]
    pub fn ipv6(&self) -> Ipv6Address
        ensures { result ≡ self.now.octets }
    {
        Ipv6Address::from_octets(self.octets)
    }
}

impl Block {
    /// The struct of a block.
    pub fn of(block: &IpCidr) -> Block
        ensures { result ≡ block_struct block.now }
    {
        Block {
            addr: Addr::of(block.address()),
            prefix_len: u16::from(block.prefix_len()),
        }
    }

    /// The block. `None` if there is no such version or prefix length.
    pub fn cidr(&self) -> Option<IpCidr>
        ensures { result ≡ block_of self.now }
    {
        let address = self.addr.ip()?;
        let bits = match &address {
            IpAddress::Ipv4(_) => 32,
            IpAddress::Ipv6(_) => 128,
        };
        if self.prefix_len > bits {
            return None;
        }
        Some(IpCidr::new(address, self.prefix_len as u8))
    }

    /// Whether an address is in the block. `false` if one of them has no value.
    pub fn contains(&self, addr: &Addr) -> bool
        ensures { IsTrue result ↔ IsSomeAnd (block_of self.now) (λ cidr. IsSomeAnd (ip_of addr.now) (IsIn cidr)) }
    {
        if addr.version != self.addr.version {
            return false;
        }
        let prefix_len = self.prefix_len;
        match addr.version {
            4 => {
                prefix_len <= 32
                    && Ipv4Cidr::new(self.addr.ipv4(), prefix_len as u8).contains_addr(&addr.ipv4())
            }
            6 => {
                prefix_len <= 128
                    && Ipv6Cidr::new(self.addr.ipv6(), prefix_len as u8).contains_addr(&addr.ipv6())
            }
            _ => false,
        }
    }
}

impl Endpoint {
    /// The struct of an endpoint.
    pub fn of(endpoint: &IpEndpoint) -> Endpoint
        ensures { result ≡ endpoint_struct endpoint.now }
    {
        Endpoint {
            addr: Addr::of(endpoint.addr),
            port: endpoint.port,
        }
    }

    /// The endpoint. `None` if there is no such version.
    pub fn ip(&self) -> Option<IpEndpoint>
        ensures { result ≡ ip_endpoint_of self.now }
    {
        Some(IpEndpoint::new(self.addr.ip()?, self.port))
    }
}

/// The sum of the bytes of an address, 0 without a version.
pub fn address_sum(addr: &Addr) -> u16
    ensures { result ≡ address_sum addr.now }
{
    match addr.ip() {
        Some(address) => checksum::address(&address),
        None => 0,
    }
}

/// Prints an address, IPv6 by RFC 5952. Returns the length of the text, or a failure without room; then `out` is
/// unchanged.
pub fn print_address(address: &IpAddress, out: &mut [u8]) -> isize
    ensures { Prints (Some (address_text address.now)) None out.old out.new result }
{
    match address {
        IpAddress::Ipv4(address) => print_ipv4(address, out),
        IpAddress::Ipv6(address) => print(address.text().as_str(), out),
    }
}

// Prints an IPv4 address, straight to `out` if there is room for the longest text.
fn print_ipv4(address: &Ipv4Address, out: &mut [u8]) -> isize
    ensures { Prints (Some (dotted address.now)) None out.old out.new result }
{
    if out.len() < MAX_IPV4_TEXT_LEN || out.len() > MAX_LEN {
        return print(address.text().as_str(), out);
    }
    let len = address.write_text(out);
    end_text(len, out);
    len as isize
}

/// Prints a block. Returns the length of the text, or a failure without room; then `out` is unchanged.
pub fn print_block(block: &IpCidr, out: &mut [u8]) -> isize
    ensures { Prints (Some (cidr_text block.now)) None out.old out.new result }
{
    let prefix_len = block.prefix_len();
    match block {
        IpCidr::Ipv4(block) => print_prefix(block.address().text().as_str(), prefix_len, out),
        IpCidr::Ipv6(block) => print_prefix(block.address().text().as_str(), prefix_len, out),
    }
}

// Prints the text of an address, and the prefix length of a block.
fn print_prefix(address: &str, prefix_len: u8, out: &mut [u8]) -> isize
    requires { length address.now ≤ 39 }
    ensures { Prints (Some (address.now ++ slash ∷ decimal prefix_len)) None out.old out.new result }
{
    let mut text = ArrayString::<43>::new();
    text.push_str(address);
    text.push_str("/");
    text.push_str(Buffer::new().format(prefix_len));
    print(text.as_str(), out)
}
