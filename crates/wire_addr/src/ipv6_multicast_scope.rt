//! Scopes of IPv6 addresses.

ghost use Rattle.std.specs.Prelude.{◌≡◌};
ghost use Rattle.wire_addr.specs.Class.{scope_of};

/// The scope of a multicast address: how far packets to it are forwarded (RFC 4291, section 2.7).
#[derive(Debug, Clone, Copy, PartialEq, Eq)]
pub enum Ipv6MulticastScope {
    /// One interface.
    InterfaceLocal,
    /// One link.
    LinkLocal,
    /// As configured by an administrator.
    AdminLocal,
    /// One site.
    SiteLocal,
    /// All sites of one organization.
    OrganizationLocal,
    /// The whole Internet.
    Global,
    /// A number without a scope, or an address without one.
    Unknown,
}

impl From<u8> for Ipv6MulticastScope {
    ghost from_gives = { λ n scope. scope ≡ scope_of n };

    fn from(value: u8) -> Ipv6MulticastScope {
        match value {
            1 => Ipv6MulticastScope::InterfaceLocal,
            2 => Ipv6MulticastScope::LinkLocal,
            4 => Ipv6MulticastScope::AdminLocal,
            5 => Ipv6MulticastScope::SiteLocal,
            8 => Ipv6MulticastScope::OrganizationLocal,
            14 => Ipv6MulticastScope::Global,
            _ => Ipv6MulticastScope::Unknown,
        }
    }
}
