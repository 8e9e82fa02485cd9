//! The addresses of a host on one link.

ghost use Rattle.std.specs.Prelude.{◌≡◌, ◌↔◌, IsTrue};
ghost use Rattle.app_host.specs.Interface.{IsForUs, header_back};
ghost use Rattle.app_host.specs.Source.{IsAsker, IsHostAddr, IsInField, IsInvalidSource, IsNoHost, IsOurs, IsThisHost, ipv4_reserved, ipv4_this_network, ipv6_mapped};
ghost use Rattle.ip_wire.specs.Block.{IsIn};

use ip_wire::{
    EthernetAddress, EthernetRepr, IpAddress, IpRepr, Ipv4Address, Ipv4Cidr, Ipv4Repr, Ipv6Address,
    Ipv6Cidr, Ipv6Repr,
};

/// The hop limit of each reply.
pub const HOP_LIMIT: u8 = 64;

/// One hardware address, one IPv4 address and one IPv6 address. 0.0.0.0 and `::` stand for no address of the version.
#[derive(Debug, Clone, Copy, PartialEq, Eq)]
pub struct Interface {
    pub hardware_addr: EthernetAddress,
    pub ipv4_addr: Ipv4Address,
    pub ipv6_addr: Ipv6Address,
    /// Whether the host forwards packets. Its neighbour advertisements have the flag R then.
    pub is_router: bool,
}

impl Interface {
    /// Returns `true` if the interface has this address. It has none that no single host may have, as 0.0.0.0 or `::`.
    #[inline(always)]
    pub fn has_addr(&self, addr: &IpAddress) -> bool
        ensures { IsTrue result ↔ IsOurs self.now addr.now }
    {
        self.has_in_field(addr) && is_host_addr(addr)
    }

    // Whether the address is in the field for its version.
    #[inline(always)]
    fn has_in_field(&self, addr: &IpAddress) -> bool
        ensures { IsTrue result ↔ IsInField self.now addr.now }
    {
        match addr {
            IpAddress::Ipv4(addr) => *addr == self.ipv4_addr,
            IpAddress::Ipv6(addr) => *addr == self.ipv6_addr,
        }
    }

    /// Returns `true` if no packet of another host has this source address (RFC 1122, section 3.2.1.3).
    /// Among them are the addresses of the interface.
    #[inline(always)]
    pub fn is_invalid_source(&self, addr: &IpAddress) -> bool
        ensures { IsTrue result ↔ IsInvalidSource self.now addr.now }
    {
        is_this_host(addr) || is_no_host(addr) || self.has_addr(addr)
    }

    /// Returns `true` if an ARP request may come from this Ethernet and IPv4 address: the first is unicast, and
    /// the second is a valid source, or 0.0.0.0 as in a probe (RFC 5227, section 2.1.1).
    #[inline(always)]
    pub fn may_ask(&self, hardware: &EthernetAddress, addr: &Ipv4Address) -> bool
        ensures { IsTrue result ↔ IsAsker self.now hardware.now addr.now }
    {
        hardware.is_unicast()
            && (addr.is_unspecified() || !self.is_invalid_source(&IpAddress::Ipv4(*addr)))
    }

    /// Returns `true` if a packet may get a reply: it goes from one other host to this interface only.
    /// Broadcast and multicast packets get no reply, in either direction (RFC 1122, sections 3.2.1.3 and 3.3.6).
    #[inline(always)]
    pub fn accepts(&self, link: &EthernetRepr, header: &IpRepr) -> bool
        ensures { IsTrue result ↔ IsForUs self.now link.now header.now }
    {
        link.dst_addr == self.hardware_addr
            && link.src_addr.is_unicast()
            && self.has_addr(&header.dst_addr())
            && !self.is_invalid_source(&header.src_addr())
    }
}

/// Returns `true` for an address by which a host means itself: in 0.0.0.0/8 or 127.0.0.0/8 (RFC 1122,
/// section 3.2.1.3), `::` or `::1` (RFC 4291, sections 2.5.2 and 2.5.3).
#[inline(always)]
pub fn is_this_host(addr: &IpAddress) -> bool
    ensures { IsTrue result ↔ IsThisHost addr.now }
{
    match addr {
        IpAddress::Ipv4(addr) => is_this_network(addr) || addr.is_loopback(),
        IpAddress::Ipv6(addr) => addr.is_unspecified() || addr.is_loopback(),
    }
}

/// Returns `true` for an address that no host has: in 224.0.0.0/4 or 240.0.0.0/4 (RFC 1122, section
/// 3.2.1.3), ff00::/8 or ::ffff:0:0/96 (RFC 4291, sections 2.7 and 2.5.5.2).
#[inline(always)]
pub fn is_no_host(addr: &IpAddress) -> bool
    ensures { IsTrue result ↔ IsNoHost addr.now }
{
    match addr {
        IpAddress::Ipv4(addr) => addr.is_multicast() || is_reserved(addr),
        IpAddress::Ipv6(addr) => addr.is_multicast() || is_mapped(addr),
    }
}

/// Returns `true` for an address that one host may have: neither of `is_this_host` nor of `is_no_host`.
#[inline(always)]
pub fn is_host_addr(addr: &IpAddress) -> bool
    ensures { IsTrue result ↔ IsHostAddr addr.now }
{
    !is_this_host(addr) && !is_no_host(addr)
}

// Whether the address is in 0.0.0.0/8.
#[inline(always)]
fn is_this_network(addr: &Ipv4Address) -> bool
    ensures { IsTrue result ↔ IsIn ipv4_this_network addr.now }
{
    Ipv4Cidr::new(Ipv4Address::new(0, 0, 0, 0), 8).contains_addr(addr)
}

// Whether the address is in 240.0.0.0/4.
#[inline(always)]
fn is_reserved(addr: &Ipv4Address) -> bool
    ensures { IsTrue result ↔ IsIn ipv4_reserved addr.now }
{
    Ipv4Cidr::new(Ipv4Address::new(240, 0, 0, 0), 4).contains_addr(addr)
}

// Whether the address is in ::ffff:0:0/96.
#[inline(always)]
fn is_mapped(addr: &Ipv6Address) -> bool
    ensures { IsTrue result ↔ IsIn ipv6_mapped addr.now }
{
    Ipv6Cidr::new(Ipv6Address::new(0, 0, 0, 0, 0, 0xffff, 0, 0), 96).contains_addr(addr)
}

/// The header of a packet in the other direction, with hop limit 64.
#[inline(always)]
pub fn header_back(header: &IpRepr) -> IpRepr
    ensures { result ≡ header_back header.now }
{
    match *header {
        IpRepr::Ipv4(value) => IpRepr::Ipv4(Ipv4Repr {
            src_addr: value.dst_addr,
            dst_addr: value.src_addr,
            hop_limit: HOP_LIMIT,
            ..value
        }),
        IpRepr::Ipv6(value) => IpRepr::Ipv6(Ipv6Repr {
            src_addr: value.dst_addr,
            dst_addr: value.src_addr,
            hop_limit: HOP_LIMIT,
            ..value
        }),
    }
}
