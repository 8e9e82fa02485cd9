//! Link-layer addresses of an unknown medium.

ghost use Rattle.std.specs.Prelude.{◌≡◌, ◌↔◌, ◌≤◌, [], IsTrue, Ok, Some, length};
ghost use Rattle.wire_addr.specs.Hardware.{AreAddress, address_bytes};
ghost use Rattle.wire_addr.specs.Printed.{coloned};
ghost use Rattle.wire_addr.specs.declared.hardware_address.HardwareAddress.{HardwareAddress};

use crate::{EthernetAddress, HardwareAddress};
use net_base::{Error, Medium, Result};
use std::fmt;
use std::marker::Model;

/// The number of bytes of the longest hardware address.
pub const MAX_HARDWARE_ADDRESS_LEN: usize = 6;

/// At most six bytes that may be a hardware address. A clause sees the list of them. The rest of
/// the array is 0, so that equal bytes are equal values.
#[derive(Debug, Clone, Copy, PartialEq, Eq)]
pub struct RawHardwareAddress {
    len: u8,
    octets: [u8; MAX_HARDWARE_ADDRESS_LEN],
}

impl Model for RawHardwareAddress {
    ghost use Rattle.std.specs.Prelude.{ℕ, List, length, take};
    ghost use Rattle.wire_addr.specs.Raw.{HasZerosAfter, with_zeros};

    ghost Value = { List ℕ };

    ghost view = { λ a. take a.len a.octets };

    ghost invariant = { λ a. HasZerosAfter a.len a.octets };

    ghost inverse = { λ octets. record { len = length octets; octets = with_zeros octets } };
}

impl RawHardwareAddress {
    /// The address with these bytes. The slice must have at most six.
    pub fn from_bytes(bytes: &[u8]) -> RawHardwareAddress
        requires { length bytes.now ≤ 6 }
        ensures { result ≡ bytes.now }
    {
        let mut octets = [0; MAX_HARDWARE_ADDRESS_LEN];
        octets[..bytes.len()].copy_from_slice(bytes);
        RawHardwareAddress {
            len: bytes.len() as u8,
            octets,
        }
    }

    /// The bytes.
    pub fn as_bytes(&self) -> &[u8]
        ensures octets { result.now ≡ self.now }
        ensures len { length result.now ≤ 6 }
    {
        &self.octets[..usize::from(self.len)]
    }

    /// The number of bytes.
    pub fn len(&self) -> usize
        ensures { result ≡ length self.now }
    {
        self.len.into()
    }

    /// Returns `true` if there are no bytes.
    pub const fn is_empty(&self) -> bool
        ensures { IsTrue result ↔ (self.now ≡ []) }
    {
        self.len == 0
    }

    /// The address with these bytes on a medium. Fails unless the medium is Ethernet and there are
    /// six bytes.
    pub fn parse(&self, medium: Medium) -> Result<HardwareAddress>
        ensures { (address : HardwareAddress) → (result ≡ Ok address) ↔ AreAddress self.now medium address }
    {
        match medium {
            Medium::Ethernet => {
                if self.len() != 6 {
                    return Err(Error);
                }
                Ok(EthernetAddress::from_bytes(self.as_bytes()).into())
            }
            Medium::Ip => Err(Error),
        }
    }

    /// The bytes of an address. `Ip` has none.
    pub fn from_hardware(address: HardwareAddress) -> Option<RawHardwareAddress>
        ensures { result ≡ address_bytes address }
    {
        match address {
            HardwareAddress::Ip => None,
            HardwareAddress::Ethernet(address) => Some(address.into()),
        }
    }
}

/// Prints two lower-case hex digits for each byte, joined by `:`.
impl fmt::Display for RawHardwareAddress {
    ghost output = { λ octets. Some (coloned octets) };

    fn fmt<W: fmt::Write>(&self, f: &mut fmt::Formatter<W>) -> fmt::Result {
        if let &[first, ref rest @ ..] = self.as_bytes() {
            write!(f, "{first:02x}")?;
            for &octet in rest {
                write!(f, ":{octet:02x}")?;
            }
        }
        Ok(())
    }
}

impl From<EthernetAddress> for RawHardwareAddress {
    ghost from_gives = { λ address octets. octets ≡ address.0 };

    fn from(address: EthernetAddress) -> RawHardwareAddress {
        RawHardwareAddress::from_bytes(address.as_bytes())
    }
}
