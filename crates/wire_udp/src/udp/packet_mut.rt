//! Setters of UDP packets.

ghost use Rattle.std.specs.Prelude.{◌≡◌, ◌↔◌, ◌≤◌, ◌+◌, IfOk, IsOk, length};
ghost use Rattle.std.specs.Borrow.{sem};
ghost use Rattle.wire_addr.specs.IpAddress.{version_of};
ghost use Rattle.net_base.specs.Field.{with_field, with_range};
ghost use Rattle.net_base.specs.Borrow.{Checks, Holds, Locates, StaysIfErr};
ghost use Rattle.wire_udp.specs.Udp.{Becomes, HasLengths, packet_bytes_mut, packet_len, packet_slice, payload_of, with_checksum, with_checksum_field, with_dst_port, with_src_port};
ghost use Rattle.wire_udp.specs.UdpBorrow.{BorrowsPayload};

use super::packet::UdpView;
use super::{UDP_HEADER_LEN, UdpPacket, UdpPacketMut, checksum_for};
use byteorder::{ByteOrder, NetworkEndian};
use net_base::{Checked, Error, Located, Result, write_at};
use wire_addr::{IpAddress, IpProtocol};
use wire_checksum::checksum;

impl<'a> UdpPacketMut<'a> {
    /// A mutable view of bytes that `check_len` accepts, else an error. Rejected bytes are
    /// unchanged.
    pub fn new_checked(buffer: &'a mut [u8]) -> Result<UdpPacketMut<'a>>
        ensures* rejected { sem 𝓛 (StaysIfErr buffer.entry packet_slice result) }
        ensures ok { IsOk result ↔ HasLengths buffer.old }
        ensures bytes { IfOk result (λ packet. Holds buffer.entry (packet_slice packet) buffer.old) }
    {
        let checked = check(buffer);
        if checked.ok {
            Ok(UdpView {
                buffer: checked.bytes,
            })
        } else {
            Err(Error)
        }
    }

    /// The payload, to be written in place. Bytes written to it land in the packet; all other bytes
    /// stay.
    pub fn payload_mut(&mut self) -> &mut [u8]
        requires { HasLengths (packet_bytes_mut self.old) }
        ensures* writes_back { sem 𝓛 (BorrowsPayload self.entry result) }
        ensures value { result.now ≡ payload_of (packet_bytes_mut self.old) }
    {
        locate_payload(self.buffer).into_slice()
    }

    /// Writes the source port, or 0 if the sender has none.
    pub fn set_src_port(&mut self, value: u16)
        requires { 2 ≤ length (packet_bytes_mut self.old) }
        ensures { Becomes self.old self.new (with_src_port (packet_bytes_mut self.old) value) }
    {
        NetworkEndian::write_u16(&mut self.buffer[0..2], value);
    }

    /// Writes the destination port.
    pub fn set_dst_port(&mut self, value: u16)
        requires { 4 ≤ length (packet_bytes_mut self.old) }
        ensures { Becomes self.old self.new (with_dst_port (packet_bytes_mut self.old) value) }
    {
        NetworkEndian::write_u16(&mut self.buffer[2..4], value);
    }

    /// Writes the length field: the length of header and payload in bytes.
    pub fn set_len(&mut self, value: u16)
        requires { 6 ≤ length (packet_bytes_mut self.old) }
        ensures { Becomes self.old self.new (with_field (packet_bytes_mut self.old) 32 16 value) }
    {
        NetworkEndian::write_u16(&mut self.buffer[4..6], value);
    }

    /// Writes the checksum field.
    pub fn set_checksum(&mut self, value: u16)
        requires { 8 ≤ length (packet_bytes_mut self.old) }
        ensures { Becomes self.old self.new (with_checksum_field (packet_bytes_mut self.old) value) }
    {
        NetworkEndian::write_u16(&mut self.buffer[6..8], value);
    }

    // Writes the bytes after the header.
    pub(super) fn set_payload(&mut self, payload: &[u8])
        requires { 8 + length payload.now ≤ length (packet_bytes_mut self.old) }
        ensures { Becomes self.old self.new (with_range (packet_bytes_mut self.old) 8 (8 + length payload.now) payload.now) }
    {
        write_at(self.buffer, UDP_HEADER_LEN, payload);
    }

    /// Computes the checksum of the packet and its pseudo-header, and writes it. A checksum of 0 is
    /// written as 0xffff, because 0 means that there is none (RFC 768).
    pub fn fill_checksum(&mut self, src_addr: &IpAddress, dst_addr: &IpAddress)
        requires header { 8 ≤ length (packet_bytes_mut self.old) }
        requires whole { packet_len (packet_bytes_mut self.old) ≤ length (packet_bytes_mut self.old) }
        requires family { version_of src_addr.now ≡ version_of dst_addr.now }
        ensures { Becomes self.old self.new (with_checksum src_addr.now dst_addr.now (packet_bytes_mut self.old)) }
    {
        let len = usize::from(self.len());
        self.set_checksum(0);
        let packet = &self.as_bytes()[..len];
        let sum = checksum::packet(*src_addr, *dst_addr, IpProtocol::Udp, packet);
        self.set_checksum(checksum_for(sum));
    }
}

// The slice, and whether `check_len` accepts it.
fn check(bytes: &mut [u8]) -> Checked<'_>
    ensures { Checks bytes.entry (HasLengths bytes.old) result }
{
    let ok = UdpPacket::new_checked(bytes).is_ok();
    Checked { bytes, ok }
}

// The slice, and the range of the payload in it.
fn locate_payload(bytes: &mut [u8]) -> Located<'_>
    requires { HasLengths bytes.old }
    ensures { Locates bytes.entry 8 (packet_len bytes.old) result }
{
    let end = usize::from(UdpPacket::new_unchecked(bytes).len());
    Located {
        bytes,
        start: UDP_HEADER_LEN,
        end,
    }
}
