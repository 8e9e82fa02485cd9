//! A view of an IP packet of either version.

ghost use Rattle.std.specs.Prelude.{◌≡◌, ◌↔◌, ◌≤◌, IfOk, IsOk, length};
ghost use Rattle.net_base.specs.Field.{field};
ghost use Rattle.wire_addr.specs.IpVersion.{IsOfVersion};
ghost use Rattle.wire_addr.specs.declared.IpVersion.{IpVersion};
ghost use Rattle.wire_ip.specs.Ip.{HasLengths, packet_bytes, payload_of};

use net_base::{Error, Result};
use wire_addr::IpVersion;
use wire_ipv4::Ipv4Packet;
use wire_ipv6::Ipv6Packet;

/// A view of a borrowed IP packet of either version.
#[derive(Debug, Clone, Copy, PartialEq, Eq)]
pub struct IpPacket<'a> {
    buffer: &'a [u8],
}

impl<'a> IpPacket<'a> {
    /// A view of any bytes. Nothing is checked.
    pub fn new_unchecked(buffer: &'a [u8]) -> IpPacket<'a>
        ensures { packet_bytes result ≡ buffer.now }
    {
        IpPacket { buffer }
    }

    /// A view of bytes that `check_len` accepts, else an error.
    pub fn new_checked(buffer: &'a [u8]) -> Result<IpPacket<'a>>
        ensures ok { IsOk result ↔ (1 ≤ length buffer.now) }
        ensures bytes { IfOk result (λ packet. packet_bytes packet ≡ buffer.now) }
    {
        let packet = IpPacket::new_unchecked(buffer);
        packet.check_len()?;
        Ok(packet)
    }

    /// Checks that there is at least one byte, and else returns an error. After `Ok`, `version` may be called.
    pub fn check_len(&self) -> Result<()>
        ensures { IsOk result ↔ (1 ≤ length (packet_bytes self.now)) }
    {
        if self.buffer.is_empty() {
            Err(Error)
        } else {
            Ok(())
        }
    }

    /// The borrowed slice, with its own lifetime.
    pub fn into_inner(self) -> &'a [u8]
        ensures { result.now ≡ packet_bytes self.entry }
    {
        self.buffer
    }

    /// The version field, of 4 bits. It need not be 4 or 6.
    pub fn version(&self) -> u8
        requires { 1 ≤ length (packet_bytes self.now) }
        ensures { result ≡ field (packet_bytes self.now) 0 4 }
    {
        self.buffer[0] >> 4
    }

    /// The payload: the bytes after the header, up to the end of the packet. IPv6 extension headers are part
    /// of it. Fails for a version other than 4 and 6, and if the lengths are invalid.
    pub fn payload(&self) -> Result<&'a [u8]>
        ensures version { IsOk result → (v : IpVersion) × IsOfVersion (packet_bytes self.now) v }
        ensures ok { (v : IpVersion) → IsOfVersion (packet_bytes self.now) v → IsOk result ↔ HasLengths (packet_bytes self.now) v }
        ensures payload { (v : IpVersion) → IsOfVersion (packet_bytes self.now) v
            → IfOk result (λ payload. payload.now ≡ payload_of (packet_bytes self.now) v) }
    {
        match IpVersion::of_packet(self.buffer)? {
            IpVersion::Ipv4 => {
                let packet = Ipv4Packet::new_unchecked(self.buffer);
                packet.check_len()?;
                Ok(packet.payload())
            }
            IpVersion::Ipv6 => {
                let packet = Ipv6Packet::new_unchecked(self.buffer);
                packet.check_len()?;
                Ok(packet.payload())
            }
        }
    }
}
