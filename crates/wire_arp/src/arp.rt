//! ARP packets (RFC 826), which ask for a hardware address and tell it.

ghost use Rattle.std.specs.Prelude.{◌≡◌};
ghost use Rattle.wire_arp.specs.Arp.{hardware_number, hardware_of, operation_number, operation_of};

mod packet;
mod packet_mut;
mod places;
mod repr;
mod text;

pub use packet::{ArpPacket, ArpPacketMut};
pub use repr::ArpRepr;

/// The kind of a packet's hardware addresses, by the number that IANA assigned to it.
#[derive(Debug, Clone, Copy, PartialEq, Eq, PartialOrd, Ord)]
pub enum ArpHardware {
    /// 1.
    Ethernet,
    /// Any other number. The number of a named kind is never read as this, but may be written.
    Unknown(u16),
}

impl ArpHardware {
    /// The number in the packet's field for the hardware (RFC 826, `ar$hrd`).
    #[inline(always)]
    pub fn number(self) -> u16
        ensures { result ≡ hardware_number self }
    {
        match self {
            ArpHardware::Ethernet => 1,
            ArpHardware::Unknown(other) => other,
        }
    }
}

impl From<u16> for ArpHardware {
    ghost from_gives = { λ n h. h ≡ hardware_of n };

    #[inline(always)]
    fn from(value: u16) -> ArpHardware {
        match value {
            1 => ArpHardware::Ethernet,
            other => ArpHardware::Unknown(other),
        }
    }
}

impl From<ArpHardware> for u16 {
    ghost from_gives = { λ h n. n ≡ hardware_number h };

    #[inline(always)]
    fn from(value: ArpHardware) -> u16 {
        value.number()
    }
}

/// The operation of a packet.
#[derive(Debug, Clone, Copy, PartialEq, Eq, PartialOrd, Ord)]
pub enum ArpOperation {
    /// 1: it asks for the target's hardware address.
    Request,
    /// 2: it tells the source's hardware address.
    Reply,
    /// Any other number. The number of a named operation is never read as this, but may be written.
    Unknown(u16),
}

impl ArpOperation {
    /// The number in the packet's field for the operation (RFC 826, `ar$op`).
    #[inline(always)]
    pub fn number(self) -> u16
        ensures { result ≡ operation_number self }
    {
        match self {
            ArpOperation::Request => 1,
            ArpOperation::Reply => 2,
            ArpOperation::Unknown(other) => other,
        }
    }
}

impl From<u16> for ArpOperation {
    ghost from_gives = { λ n o. o ≡ operation_of n };

    #[inline(always)]
    fn from(value: u16) -> ArpOperation {
        match value {
            1 => ArpOperation::Request,
            2 => ArpOperation::Reply,
            other => ArpOperation::Unknown(other),
        }
    }
}

impl From<ArpOperation> for u16 {
    ghost from_gives = { λ o n. n ≡ operation_number o };

    #[inline(always)]
    fn from(value: ArpOperation) -> u16 {
        value.number()
    }
}
