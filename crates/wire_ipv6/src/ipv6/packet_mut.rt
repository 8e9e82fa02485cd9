//! Setters of IPv6 packets.

ghost use Rattle.std.specs.Prelude.{◌≡◌, ◌↔◌, ◌≤◌, IfOk, IsOk, length};
ghost use Rattle.std.specs.Borrow.{sem};
ghost use Rattle.net_base.specs.Field.{with_field, with_range};
ghost use Rattle.net_base.specs.Borrow.{Checks, Holds, Locates, StaysIfErr};
ghost use Rattle.wire_ipv6.specs.Ipv6.{Becomes, HasLengths, packet_bytes_mut, packet_slice, payload_of, total_len};
ghost use Rattle.wire_ipv6.specs.Ipv6Borrow.{BorrowsPayload};
ghost use Rattle.wire_addr.specs.Protocol.{number_of};

use super::packet::Ipv6View;
use super::{IPV6_HEADER_LEN, Ipv6Packet, Ipv6PacketMut};
use byteorder::{ByteOrder, NetworkEndian};
use net_base::{Checked, Error, Located, Result, set_bits, set_bits_u16, set_bits_u24};
use wire_addr::{IpProtocol, Ipv6Address};

impl<'a> Ipv6PacketMut<'a> {
    /// A mutable view of bytes that `check_len` accepts, else an error. Rejected bytes are unchanged.
    pub fn new_checked(buffer: &'a mut [u8]) -> Result<Ipv6PacketMut<'a>>
        ensures* rejected { sem 𝓛 (StaysIfErr buffer.entry packet_slice result) }
        ensures ok { IsOk result ↔ HasLengths buffer.old }
        ensures bytes { IfOk result (λ packet. Holds buffer.entry (packet_slice packet) buffer.old) }
    {
        let checked = check(buffer);
        if checked.ok {
            Ok(Ipv6View {
                buffer: checked.bytes,
            })
        } else {
            Err(Error)
        }
    }

    /// The payload, to be written in place. Bytes written to it land in the packet; all other bytes
    /// stay.
    pub fn payload_mut(&mut self) -> &mut [u8]
        requires { HasLengths (packet_bytes_mut self.old) }
        ensures* writes_back { sem 𝓛 (BorrowsPayload self.entry result) }
        ensures value { result.now ≡ payload_of (packet_bytes_mut self.old) }
    {
        locate_payload(self.buffer).into_slice()
    }

    // Writes the version, the traffic class and the flow label at once.
    pub(super) fn set_first_word(&mut self, value: u32)
        requires { 4 ≤ length (packet_bytes_mut self.old) }
        ensures { Becomes self.old self.new (with_field (packet_bytes_mut self.old) 0 32 value) }
    {
        NetworkEndian::write_u32(&mut self.buffer[0..4], value);
    }

    /// Writes the version, cut to 4 bits.
    pub fn set_version(&mut self, value: u8)
        requires { 1 ≤ length (packet_bytes_mut self.old) }
        ensures { Becomes self.old self.new (with_field (packet_bytes_mut self.old) 0 4 value) }
    {
        set_bits(self.buffer, 0, 4, value);
    }

    /// Writes the traffic class.
    pub fn set_traffic_class(&mut self, value: u8)
        requires { 2 ≤ length (packet_bytes_mut self.old) }
        ensures { Becomes self.old self.new (with_field (packet_bytes_mut self.old) 4 8 value) }
    {
        set_bits_u16(&mut self.buffer[0..2], 4, 8, value.into());
    }

    /// Writes the flow label, cut to 20 bits.
    pub fn set_flow_label(&mut self, value: u32)
        requires { 4 ≤ length (packet_bytes_mut self.old) }
        ensures { Becomes self.old self.new (with_field (packet_bytes_mut self.old) 12 20 value) }
    {
        set_bits_u24(&mut self.buffer[1..4], 4, 20, value);
    }

    /// Writes the length of the payload in bytes.
    pub fn set_payload_len(&mut self, value: u16)
        requires { 6 ≤ length (packet_bytes_mut self.old) }
        ensures { Becomes self.old self.new (with_field (packet_bytes_mut self.old) 32 16 value) }
    {
        NetworkEndian::write_u16(&mut self.buffer[4..6], value);
    }

    /// Writes the next header.
    pub fn set_next_header(&mut self, value: IpProtocol)
        requires { 7 ≤ length (packet_bytes_mut self.old) }
        ensures { Becomes self.old self.new (with_field (packet_bytes_mut self.old) 48 8 (number_of value)) }
    {
        self.buffer[6] = value.into();
    }

    /// Writes the hop limit.
    pub fn set_hop_limit(&mut self, value: u8)
        requires { 8 ≤ length (packet_bytes_mut self.old) }
        ensures { Becomes self.old self.new (with_field (packet_bytes_mut self.old) 56 8 value) }
    {
        self.buffer[7] = value;
    }

    /// Writes the source address.
    pub fn set_src_addr(&mut self, value: Ipv6Address)
        requires { 24 ≤ length (packet_bytes_mut self.old) }
        ensures { Becomes self.old self.new (with_range (packet_bytes_mut self.old) 8 24 value) }
    {
        self.buffer[8..24].copy_from_slice(&value.octets());
    }

    /// Writes the destination address.
    pub fn set_dst_addr(&mut self, value: Ipv6Address)
        requires { 40 ≤ length (packet_bytes_mut self.old) }
        ensures { Becomes self.old self.new (with_range (packet_bytes_mut self.old) 24 40 value) }
    {
        self.buffer[24..40].copy_from_slice(&value.octets());
    }
}

// The slice, and whether `check_len` accepts it.
fn check(bytes: &mut [u8]) -> Checked<'_>
    ensures { Checks bytes.entry (HasLengths bytes.old) result }
{
    let ok = Ipv6Packet::new_checked(bytes).is_ok();
    Checked { bytes, ok }
}

// The slice, and the range of the payload in it.
fn locate_payload(bytes: &mut [u8]) -> Located<'_>
    requires { HasLengths bytes.old }
    ensures { Locates bytes.entry 40 (total_len bytes.old) result }
{
    let end = Ipv6Packet::new_unchecked(bytes).total_len();
    Located {
        bytes,
        start: IPV6_HEADER_LEN,
        end,
    }
}
