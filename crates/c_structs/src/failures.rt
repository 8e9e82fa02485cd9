//! Why a call writes nothing: the failures, and those of an address and of a block.

ghost use Rattle.std.specs.Prelude.{◌≡◌};
ghost use Rattle.c_structs.specs.Failures.{addr_failure, block_failure, has_version};
ghost use Rattle.c_structs.specs.Written.{failure_code};

use crate::types::{Addr, Block};

/// `LK_NO_VERSION` and the others of `include/ip_wire.h`, in their order.
#[derive(Clone, Copy)]
pub enum Failure {
    /// An address has another version than the call can write.
    NoVersion,
    /// One address is IPv4, the other IPv6.
    TwoVersions,
    /// A prefix length above that of the version.
    BadPrefix,
    /// A port is 0 that a receiver rejects.
    NoPort,
    /// The hop limit is 0.
    NoHopLimit,
    /// The header has no place for a field of `Ip`.
    BadField,
    /// More than one of SYN, FIN and RST.
    TwoControls,
    /// TCP options of more than 40 bytes, or more than 4 SACK ranges.
    OptionsTooLong,
    /// The payload is longer than the length field can say.
    PayloadTooLong,
    /// The frame to be rebuilt is shorter than an Ethernet header.
    NoHeader,
    /// The result is longer than the slice.
    NoRoom,
    /// The packet is longer than the MTU, and has DF.
    DontFragment,
    /// The packet of a fragment is dropped.
    Dropped,
}

impl Failure {
    /// Its number for C. Any sum of it and lengths is negative, and as a `usize` it is above `MAX_LEN`.
    pub fn code(self) -> isize
        ensures { result ≡ failure_code self }
    {
        -((1 + isize::from(self as u8)) * (1 << 40))
    }
}

impl Addr {
    /// Whether its version is 4 or 6.
    pub fn has_version(&self) -> bool
        ensures { result ≡ has_version self.now }
    {
        self.version == 4 || self.version == 6
    }

    /// Why the address cannot be printed: `NoVersion`. `None`: it can.
    pub fn failure(&self) -> Option<Failure>
        ensures { result ≡ addr_failure self.now }
    {
        if self.has_version() {
            None
        } else {
            Some(Failure::NoVersion)
        }
    }
}

impl Block {
    /// Why the block cannot be printed: `NoVersion` or `BadPrefix`. `None`: it can.
    pub fn failure(&self) -> Option<Failure>
        ensures { result ≡ block_failure self.now }
    {
        if self.addr.ip().is_none() {
            Some(Failure::NoVersion)
        } else if self.cidr().is_none() {
            Some(Failure::BadPrefix)
        } else {
            None
        }
    }
}
