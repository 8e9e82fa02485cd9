//! Setters of ICMP messages.

ghost use Rattle.std.specs.Prelude.{◌≡◌, ◌↔◌, ◌≤◌, ◌+◌, IfOk, IsOk, length};
ghost use Rattle.std.specs.Borrow.{sem};
ghost use Rattle.wire_addr.specs.IpAddress.{version_of};
ghost use Rattle.net_base.specs.Field.{with_field, with_range};
ghost use Rattle.net_base.specs.Borrow.{Checks, Holds, Locates, StaysIfErr};
ghost use Rattle.wire_icmp.specs.Icmp.{Becomes, HasHeader, echo_ident_of, packet_bytes_mut, packet_slice, payload_of, with_checksum, with_updated_checksum};
ghost use Rattle.wire_icmp.specs.IcmpBorrow.{BorrowsPayload};

use super::packet::IcmpView;
use super::{ICMP_HEADER_LEN, IcmpPacket, IcmpPacketMut, message_sum};
use byteorder::{ByteOrder, NetworkEndian};
use net_base::{Checked, Error, Located, Result, write_at};
use wire_addr::IpAddress;
use wire_checksum::checksum;

impl<'a> IcmpPacketMut<'a> {
    /// A mutable view of bytes that `check_len` accepts, else an error. Rejected bytes are
    /// unchanged.
    pub fn new_checked(buffer: &'a mut [u8]) -> Result<IcmpPacketMut<'a>>
        ensures* rejected { sem 𝓛 (StaysIfErr buffer.entry packet_slice result) }
        ensures ok { IsOk result ↔ HasHeader buffer.old }
        ensures bytes { IfOk result (λ packet. Holds buffer.entry (packet_slice packet) buffer.old) }
    {
        let checked = check(buffer);
        if checked.ok {
            Ok(IcmpView {
                buffer: checked.bytes,
            })
        } else {
            Err(Error)
        }
    }

    /// The payload, to be written in place. Bytes written to it land in the message; the header
    /// stays.
    pub fn payload_mut(&mut self) -> &mut [u8]
        requires { HasHeader (packet_bytes_mut self.old) }
        ensures* writes_back { sem 𝓛 (BorrowsPayload self.entry result) }
        ensures value { result.now ≡ payload_of (packet_bytes_mut self.old) }
    {
        locate_payload(self.buffer).into_slice()
    }

    /// Writes the type.
    pub fn set_msg_type(&mut self, value: u8)
        requires { 1 ≤ length (packet_bytes_mut self.old) }
        ensures { Becomes self.old self.new (with_field (packet_bytes_mut self.old) 0 8 value) }
    {
        self.buffer[0] = value;
    }

    /// Writes the code.
    pub fn set_msg_code(&mut self, value: u8)
        requires { 2 ≤ length (packet_bytes_mut self.old) }
        ensures { Becomes self.old self.new (with_field (packet_bytes_mut self.old) 8 8 value) }
    {
        self.buffer[1] = value;
    }

    /// Writes the checksum field.
    pub fn set_checksum(&mut self, value: u16)
        requires { 4 ≤ length (packet_bytes_mut self.old) }
        ensures { Becomes self.old self.new (with_field (packet_bytes_mut self.old) 16 16 value) }
    {
        NetworkEndian::write_u16(&mut self.buffer[2..4], value);
    }

    /// Writes the second word of the header.
    pub fn set_word(&mut self, value: u32)
        requires { 8 ≤ length (packet_bytes_mut self.old) }
        ensures { Becomes self.old self.new (with_field (packet_bytes_mut self.old) 32 32 value) }
    {
        NetworkEndian::write_u32(&mut self.buffer[4..8], value);
    }

    /// Writes the identifier of an echo.
    pub fn set_echo_ident(&mut self, value: u16)
        requires { 6 ≤ length (packet_bytes_mut self.old) }
        ensures { Becomes self.old self.new (with_field (packet_bytes_mut self.old) 32 16 value) }
    {
        NetworkEndian::write_u16(&mut self.buffer[4..6], value);
    }

    // Writes the bytes after the header.
    pub(super) fn set_payload(&mut self, payload: &[u8])
        requires { 8 + length payload.now ≤ length (packet_bytes_mut self.old) }
        ensures { Becomes self.old self.new (with_range (packet_bytes_mut self.old) 8 (8 + length payload.now) payload.now) }
    {
        write_at(self.buffer, ICMP_HEADER_LEN, payload);
    }

    /// Computes the checksum of all bytes under the view, over IPv6 with their pseudo-header, and
    /// writes it.
    pub fn fill_checksum(&mut self, src_addr: &IpAddress, dst_addr: &IpAddress)
        requires header { 4 ≤ length (packet_bytes_mut self.old) }
        requires family { version_of src_addr.now ≡ version_of dst_addr.now }
        ensures { Becomes self.old self.new (with_checksum src_addr.now dst_addr.now (packet_bytes_mut self.old)) }
    {
        self.set_checksum(0);
        let sum = message_sum(src_addr, dst_addr, self.as_bytes());
        self.set_checksum(!sum);
    }

    /// Updates the checksum after words that it covers changed (RFC 1624). `old` and `new` are the
    /// sums of these words before and after, as of `checksum::data`. 0 is written as 0xffff, because
    /// a message whose other bytes are all 0 verifies with no other checksum.
    pub fn update_checksum(&mut self, old: u16, new: u16)
        requires { 4 ≤ length (packet_bytes_mut self.old) }
        ensures { Becomes self.old self.new (with_updated_checksum (packet_bytes_mut self.old) old new) }
    {
        let checksum = checksum::update(self.checksum(), old, new);
        self.set_checksum(if checksum == 0 { 0xffff } else { checksum });
    }

    /// Writes the identifier of an echo, and updates the checksum.
    pub fn update_echo_ident(&mut self, value: u16)
        requires { 6 ≤ length (packet_bytes_mut self.old) }
        ensures { let bytes = packet_bytes_mut self.old in
            Becomes self.old self.new (with_updated_checksum (with_field bytes 32 16 value) (echo_ident_of bytes) value) }
    {
        let old = self.echo_ident();
        self.set_echo_ident(value);
        self.update_checksum(old, value);
    }
}

// The slice, and whether `check_len` accepts it.
fn check(bytes: &mut [u8]) -> Checked<'_>
    ensures { Checks bytes.entry (HasHeader bytes.old) result }
{
    let ok = IcmpPacket::new_checked(bytes).is_ok();
    Checked { bytes, ok }
}

// The slice, and the range of the payload in it.
fn locate_payload(bytes: &mut [u8]) -> Located<'_>
    requires { HasHeader bytes.old }
    ensures { Locates bytes.entry ICMP_HEADER_LEN (length bytes.old) result }
{
    let end = bytes.len();
    Located {
        bytes,
        start: ICMP_HEADER_LEN,
        end,
    }
}
