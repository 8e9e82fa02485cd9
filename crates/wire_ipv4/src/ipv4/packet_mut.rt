//! Setters of IPv4 packets.

ghost use Rattle.std.specs.Prelude.{◌≡◌, ◌↔◌, ◌≤◌, ◌<◌, ◌-◌, ◌/◌, if◌then◌else◌, IfOk, IsOk, length, slice_range};
ghost use Rattle.std.specs.Borrow.{sem};
ghost use Rattle.net_base.specs.Field.{with_field, with_range};
ghost use Rattle.net_base.specs.Borrow.{Checks, Holds, Locates, StaysIfErr};
ghost use Rattle.wire_ipv4.specs.Ipv4.{Becomes, HasLengths, header_len, packet_bytes_mut, packet_slice, total_len, with_checksum, with_checksum_field};
ghost use Rattle.wire_ipv4.specs.Ipv4Borrow.{BorrowsPayload};
ghost use Rattle.wire_addr.specs.Protocol.{number_of};

use super::packet::Ipv4View;
use super::{Ipv4Packet, Ipv4PacketMut};
use byteorder::{ByteOrder, NetworkEndian};
use net_base::{Checked, Error, Located, Result, set_bits, set_bits_u16};
use wire_addr::{IpProtocol, Ipv4Address};
use wire_checksum::checksum;

impl<'a> Ipv4PacketMut<'a> {
    /// A mutable view of bytes that `check_len` accepts, else an error. Rejected bytes are
    /// unchanged.
    pub fn new_checked(buffer: &'a mut [u8]) -> Result<Ipv4PacketMut<'a>>
        ensures* rejected { sem 𝓛 (StaysIfErr buffer.entry packet_slice result) }
        ensures ok { IsOk result ↔ HasLengths buffer.old }
        ensures bytes { IfOk result (λ packet. Holds buffer.entry (packet_slice packet) buffer.old) }
    {
        let checked = check(buffer);
        if checked.ok {
            Ok(Ipv4View {
                buffer: checked.bytes,
            })
        } else {
            Err(Error)
        }
    }

    /// The payload, to be written in place. Bytes written to it land in the packet; all other bytes
    /// are unchanged.
    pub fn payload_mut(&mut self) -> &mut [u8]
        requires fields { 4 ≤ length (packet_bytes_mut self.old) }
        requires begins { header_len (packet_bytes_mut self.old) ≤ total_len (packet_bytes_mut self.old) }
        requires ends { total_len (packet_bytes_mut self.old) ≤ length (packet_bytes_mut self.old) }
        ensures* writes_back { sem 𝓛 (BorrowsPayload self.entry result) }
        ensures value { let bytes = packet_bytes_mut self.old in
            result.now ≡ slice_range bytes (header_len bytes) (total_len bytes) }
    {
        locate_payload(self.buffer).into_slice()
    }

    /// Writes the version, cut to 4 bits.
    pub fn set_version(&mut self, value: u8)
        requires { 1 ≤ length (packet_bytes_mut self.old) }
        ensures { Becomes self.old self.new (with_field (packet_bytes_mut self.old) 0 4 value) }
    {
        set_bits(self.buffer, 0, 4, value);
    }

    /// Writes the length of the header in bytes, cut to a multiple of 4 below 64.
    pub fn set_header_len(&mut self, value: u8)
        requires { 1 ≤ length (packet_bytes_mut self.old) }
        ensures { Becomes self.old self.new (with_field (packet_bytes_mut self.old) 4 4 (value / 4)) }
    {
        set_bits(self.buffer, 4, 4, value / 4);
    }

    /// Writes the differentiated services code point, cut to 6 bits.
    pub fn set_dscp(&mut self, value: u8)
        requires { 2 ≤ length (packet_bytes_mut self.old) }
        ensures { Becomes self.old self.new (with_field (packet_bytes_mut self.old) 8 6 value) }
    {
        set_bits(self.buffer, 8, 6, value);
    }

    /// Writes the explicit congestion notification, cut to 2 bits.
    pub fn set_ecn(&mut self, value: u8)
        requires { 2 ≤ length (packet_bytes_mut self.old) }
        ensures { Becomes self.old self.new (with_field (packet_bytes_mut self.old) 14 2 value) }
    {
        set_bits(self.buffer, 14, 2, value);
    }

    /// Writes the total length in bytes: header and payload.
    pub fn set_total_len(&mut self, value: u16)
        requires { 4 ≤ length (packet_bytes_mut self.old) }
        ensures { Becomes self.old self.new (with_field (packet_bytes_mut self.old) 16 16 value) }
    {
        NetworkEndian::write_u16(&mut self.buffer[2..4], value);
    }

    /// Writes the identification.
    pub fn set_ident(&mut self, value: u16)
        requires { 6 ≤ length (packet_bytes_mut self.old) }
        ensures { Becomes self.old self.new (with_field (packet_bytes_mut self.old) 32 16 value) }
    {
        NetworkEndian::write_u16(&mut self.buffer[4..6], value);
    }

    /// Writes the flag DF (don't fragment).
    pub fn set_dont_frag(&mut self, value: bool)
        requires { 7 ≤ length (packet_bytes_mut self.old) }
        ensures { Becomes self.old self.new (with_field (packet_bytes_mut self.old) 49 1 (if value then 1 else 0)) }
    {
        set_bits(self.buffer, 49, 1, value.into());
    }

    /// Writes the flag MF (more fragments).
    pub fn set_more_frags(&mut self, value: bool)
        requires { 7 ≤ length (packet_bytes_mut self.old) }
        ensures { Becomes self.old self.new (with_field (packet_bytes_mut self.old) 50 1 (if value then 1 else 0)) }
    {
        set_bits(self.buffer, 50, 1, value.into());
    }

    /// Writes the fragment offset in bytes, cut to a multiple of 8.
    pub fn set_frag_offset(&mut self, value: u16)
        requires { 8 ≤ length (packet_bytes_mut self.old) }
        ensures { Becomes self.old self.new (with_field (packet_bytes_mut self.old) 51 13 (value / 8)) }
    {
        set_bits_u16(&mut self.buffer[6..8], 3, 13, value / 8);
    }

    /// Writes the hop limit.
    pub fn set_hop_limit(&mut self, value: u8)
        requires { 9 ≤ length (packet_bytes_mut self.old) }
        ensures { Becomes self.old self.new (with_field (packet_bytes_mut self.old) 64 8 value) }
    {
        self.buffer[8] = value;
    }

    /// Writes the protocol of the payload.
    pub fn set_next_header(&mut self, value: IpProtocol)
        requires { 10 ≤ length (packet_bytes_mut self.old) }
        ensures { Becomes self.old self.new (with_field (packet_bytes_mut self.old) 72 8 (number_of value)) }
    {
        self.buffer[9] = value.into();
    }

    /// Writes the checksum field.
    pub fn set_checksum(&mut self, value: u16)
        requires { 12 ≤ length (packet_bytes_mut self.old) }
        ensures { Becomes self.old self.new (with_checksum_field (packet_bytes_mut self.old) value) }
    {
        NetworkEndian::write_u16(&mut self.buffer[10..12], value);
    }

    /// Writes the source address.
    pub fn set_src_addr(&mut self, value: Ipv4Address)
        requires { 16 ≤ length (packet_bytes_mut self.old) }
        ensures { Becomes self.old self.new (with_range (packet_bytes_mut self.old) 12 16 value) }
    {
        self.buffer[12..16].copy_from_slice(&value.octets());
    }

    /// Writes the destination address.
    pub fn set_dst_addr(&mut self, value: Ipv4Address)
        requires { 20 ≤ length (packet_bytes_mut self.old) }
        ensures { Becomes self.old self.new (with_range (packet_bytes_mut self.old) 16 20 value) }
    {
        self.buffer[16..20].copy_from_slice(&value.octets());
    }

    /// Clears the three flags, also the reserved one.
    pub fn clear_flags(&mut self)
        requires { 7 ≤ length (packet_bytes_mut self.old) }
        ensures { Becomes self.old self.new (with_field (packet_bytes_mut self.old) 48 3 0) }
    {
        set_bits(self.buffer, 48, 3, 0);
    }

    /// Computes the checksum of the header, and writes it.
    pub fn fill_checksum(&mut self)
        requires field { 12 ≤ length (packet_bytes_mut self.old) }
        requires header { header_len (packet_bytes_mut self.old) ≤ length (packet_bytes_mut self.old) }
        ensures { Becomes self.old self.new (with_checksum (packet_bytes_mut self.old)) }
    {
        let header_len = usize::from(self.header_len());
        self.set_checksum(0);
        let sum = checksum::data(&self.as_bytes()[..header_len]);
        self.set_checksum(!sum);
    }
}

// The slice, and whether `check_len` accepts it.
fn check(bytes: &mut [u8]) -> Checked<'_>
    ensures { Checks bytes.entry (HasLengths bytes.old) result }
{
    let ok = Ipv4Packet::new_checked(bytes).is_ok();
    Checked { bytes, ok }
}

// The slice, and the range of the payload in it.
fn locate_payload(bytes: &mut [u8]) -> Located<'_>
    requires fields { 4 ≤ length bytes.old }
    requires begins { header_len bytes.old ≤ total_len bytes.old }
    requires ends { total_len bytes.old ≤ length bytes.old }
    ensures { Locates bytes.entry (header_len bytes.old) (total_len bytes.old) result }
{
    let packet = Ipv4Packet::new_unchecked(bytes);
    let start = usize::from(packet.header_len());
    let end = usize::from(packet.total_len());
    Located { bytes, start, end }
}
