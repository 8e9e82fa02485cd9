//! Classes of addresses.

use crate::operands::Operands;
use crate::text::push_all;
use ip_wire::{IpAddress, Ipv4Address, Ipv6Address, Ipv6MulticastScope};
use std::alloc::{AllocError, Global};

/// The names of the classes that contain an address, separated by spaces, and then the scope of an
/// IPv6 address.
pub fn answer(alloc: Global, operands: &mut Operands<'_>) -> Result<String, AllocError> {
    let address = operands.address();
    let mut text = String::new(alloc);
    match address {
        IpAddress::Ipv4(ipv4) => push_ipv4(&address, &ipv4, &mut text)?,
        IpAddress::Ipv6(ipv6) => push_ipv6(&address, &ipv6, &mut text)?,
    }
    Ok(text)
}

// Appends the classes of an IPv4 address.
fn push_ipv4(address: &IpAddress, ipv4: &Ipv4Address, text: &mut String) -> Result<(), AllocError> {
    for (contains, name) in [
        (address.is_unspecified(), "unspecified"),
        (address.is_broadcast(), "broadcast"),
        (ipv4.is_loopback(), "loopback"),
        (address.is_multicast(), "multicast"),
        (ipv4.is_link_local(), "link-local"),
        (address.is_unicast(), "unicast"),
    ] {
        if contains {
            push_all(&[name], text)?;
        }
    }
    Ok(())
}

// Appends the classes of an IPv6 address, and its scope.
fn push_ipv6(address: &IpAddress, ipv6: &Ipv6Address, text: &mut String) -> Result<(), AllocError> {
    for (contains, name) in [
        (address.is_unspecified(), "unspecified"),
        (address.is_broadcast(), "broadcast"),
        (ipv6.is_loopback(), "loopback"),
        (address.is_multicast(), "multicast"),
        (ipv6.is_unique_local(), "unique-local"),
        (ipv6.is_link_local(), "link-local"),
        (ipv6.is_global_unicast(), "global-unicast"),
        (ipv6.is_solicited_node_multicast(), "solicited-node"),
        (address.is_unicast(), "unicast"),
    ] {
        if contains {
            push_all(&[name], text)?;
        }
    }
    push_all(&["scope="], text)?;
    text.push_str(scope_name(ipv6.x_multicast_scope()))
}

// The name of a scope.
fn scope_name(scope: Ipv6MulticastScope) -> &'static str {
    match scope {
        Ipv6MulticastScope::InterfaceLocal => "interface-local",
        Ipv6MulticastScope::LinkLocal => "link-local",
        Ipv6MulticastScope::AdminLocal => "admin-local",
        Ipv6MulticastScope::SiteLocal => "site-local",
        Ipv6MulticastScope::OrganizationLocal => "organization-local",
        Ipv6MulticastScope::Global => "global",
        Ipv6MulticastScope::Unknown => "unknown",
    }
}
