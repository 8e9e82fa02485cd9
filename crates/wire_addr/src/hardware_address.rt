//! Link-layer addresses of any medium.

ghost use Rattle.std.specs.Prelude.{◌≡◌, ◌≢◌, ◌↔◌, IfSome, IsTrue, Some, length};
ghost use Rattle.wire_addr.specs.Hardware.{IsBroadcast, IsUnicast, address_text, eui_64_of, medium_of, address_bytes};
ghost use Rattle.wire_addr.specs.declared.hardware_address.HardwareAddress.TheVariants.{Ip, Ethernet};

use crate::EthernetAddress;
use net_base::Medium;
use std::fmt;

/// The link-layer address of a device.
#[derive(Debug, Clone, Copy, PartialEq, Eq)]
pub enum HardwareAddress {
    /// The medium has no hardware addresses.
    Ip,
    Ethernet(EthernetAddress),
}

impl HardwareAddress {
    /// Its six bytes.
    pub fn as_bytes(&self) -> &[u8]
        requires { self.now ≢ Ip }
        ensures octets { address_bytes self.now ≡ Some result.now }
        ensures len { length result.now ≡ 6 }
    {
        match self {
            HardwareAddress::Ip => unreachable!(),
            HardwareAddress::Ethernet(address) => address.as_bytes(),
        }
    }

    /// Returns `true` for the address of one host.
    pub fn is_unicast(&self) -> bool
        requires { self.now ≢ Ip }
        ensures { IfSome (address_bytes self.now) (λ octets. IsTrue result ↔ IsUnicast octets) }
    {
        match self {
            HardwareAddress::Ip => unreachable!(),
            HardwareAddress::Ethernet(address) => address.is_unicast(),
        }
    }

    /// Returns `true` for the broadcast address.
    pub fn is_broadcast(&self) -> bool
        requires { self.now ≢ Ip }
        ensures { IfSome (address_bytes self.now) (λ octets. IsTrue result ↔ IsBroadcast octets) }
    {
        match self {
            HardwareAddress::Ip => unreachable!(),
            HardwareAddress::Ethernet(address) => address.is_broadcast(),
        }
    }

    /// The Ethernet address in it.
    pub fn ethernet_or_panic(&self) -> EthernetAddress
        requires { self.now ≢ Ip }
        ensures { self.now ≡ Ethernet result }
    {
        match *self {
            HardwareAddress::Ip => unreachable!(),
            HardwareAddress::Ethernet(address) => address,
        }
    }

    /// The medium of the address.
    pub const fn medium(&self) -> Medium
        ensures { result ≡ medium_of self.now }
    {
        match self {
            HardwareAddress::Ip => Medium::Ip,
            HardwareAddress::Ethernet(_) => Medium::Ethernet,
        }
    }

    /// The interface identifier in IPv6 addresses, a modified EUI-64 (RFC 4291, appendix A), or
    /// `None` for `Ip`.
    pub fn as_eui_64(&self) -> Option<[u8; 8]>
        ensures { result ≡ eui_64_of self.now }
    {
        match self {
            HardwareAddress::Ip => None,
            HardwareAddress::Ethernet(address) => address.as_eui_64(),
        }
    }
}

/// Prints the Ethernet address, or that there is no hardware address.
impl fmt::Display for HardwareAddress {
    ghost output = { λ address. Some (address_text address) };

    fn fmt<W: fmt::Write>(&self, f: &mut fmt::Formatter<W>) -> fmt::Result {
        match *self {
            HardwareAddress::Ip => write!(f, "no hardware addr"),
            HardwareAddress::Ethernet(address) => write!(f, "{address}"),
        }
    }
}

impl From<EthernetAddress> for HardwareAddress {
    ghost from_gives = { λ ethernet address. address ≡ Ethernet ethernet };

    fn from(address: EthernetAddress) -> HardwareAddress {
        HardwareAddress::Ethernet(address)
    }
}
