//! The medium of a device.

/// The format of the frames of a device.
#[derive(Debug, Clone, Copy, PartialEq, Eq)]
pub enum Medium {
    /// Ethernet II frames: a header with two hardware addresses, then a packet.
    Ethernet,
    /// IP packets with nothing in front of them. Such a device has no hardware address.
    Ip,
}
