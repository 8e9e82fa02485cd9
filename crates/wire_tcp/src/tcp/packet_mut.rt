//! Setters of TCP segments.

ghost use Rattle.std.specs.Prelude.{◌≡◌, ◌↔◌, ◌≤◌, ◌/◌, IfOk, IsOk, length};
ghost use Rattle.std.specs.Borrow.{sem};
ghost use Rattle.wire_addr.specs.IpAddress.{version_of};
ghost use Rattle.net_base.specs.Field.{with_field};
ghost use Rattle.net_base.specs.Borrow.{Checks, Holds, Locates, StaysIfErr};
ghost use Rattle.wire_tcp.specs.Tcp.{Becomes, HasLengths, header_len, options_of, packet_bytes_mut, packet_slice, payload_of, with_checksum, with_checksum_field, with_dst_port, with_flag, with_src_port, with_window_len};
ghost use Rattle.wire_tcp.specs.TcpBorrow.{BorrowsOptions, BorrowsPayload};
ghost use Rattle.wire_tcp_options.specs.TcpSeq.{number};

use super::packet::TcpView;
use super::{TCP_HEADER_LEN, TcpPacket, TcpPacketMut};
use byteorder::{ByteOrder, NetworkEndian};
use net_base::{Checked, Error, Located, Result, set_bits, set_bits_u16};
use wire_addr::{IpAddress, IpProtocol};
use wire_checksum::checksum;
use wire_tcp_options::TcpSeqNumber;

impl<'a> TcpPacketMut<'a> {
    /// A mutable view of bytes that `check_len` accepts, else an error. Rejected bytes are
    /// unchanged.
    pub fn new_checked(buffer: &'a mut [u8]) -> Result<TcpPacketMut<'a>>
        ensures* rejected { sem 𝓛 (StaysIfErr buffer.entry packet_slice result) }
        ensures ok { IsOk result ↔ HasLengths buffer.old }
        ensures bytes { IfOk result (λ packet. Holds buffer.entry (packet_slice packet) buffer.old) }
    {
        let checked = check(buffer);
        if checked.ok {
            Ok(TcpView {
                buffer: checked.bytes,
            })
        } else {
            Err(Error)
        }
    }

    /// The bytes of the options, to be written in place. Bytes written to it land in the segment;
    /// all other bytes stay.
    pub fn options_mut(&mut self) -> &mut [u8]
        requires begins { 20 ≤ header_len (packet_bytes_mut self.old) }
        requires ends { header_len (packet_bytes_mut self.old) ≤ length (packet_bytes_mut self.old) }
        ensures* writes_back { sem 𝓛 (BorrowsOptions self.entry result) }
        ensures value { result.now ≡ options_of (packet_bytes_mut self.old) }
    {
        locate_options(self.buffer).into_slice()
    }

    /// The payload, to be written in place. Bytes written to it land in the segment; all other
    /// bytes stay.
    pub fn payload_mut(&mut self) -> &mut [u8]
        requires field { 13 ≤ length (packet_bytes_mut self.old) }
        requires begins { header_len (packet_bytes_mut self.old) ≤ length (packet_bytes_mut self.old) }
        ensures* writes_back { sem 𝓛 (BorrowsPayload self.entry result) }
        ensures value { result.now ≡ payload_of (packet_bytes_mut self.old) }
    {
        locate_payload(self.buffer).into_slice()
    }

    /// Writes the source port.
    pub fn set_src_port(&mut self, value: u16)
        requires { 2 ≤ length (packet_bytes_mut self.old) }
        ensures { Becomes self.old self.new (with_src_port (packet_bytes_mut self.old) value) }
    {
        NetworkEndian::write_u16(&mut self.buffer[0..2], value);
    }

    /// Writes the destination port.
    pub fn set_dst_port(&mut self, value: u16)
        requires { 4 ≤ length (packet_bytes_mut self.old) }
        ensures { Becomes self.old self.new (with_dst_port (packet_bytes_mut self.old) value) }
    {
        NetworkEndian::write_u16(&mut self.buffer[2..4], value);
    }

    /// Writes the sequence number of the first byte of the payload, or of SYN.
    pub fn set_seq_number(&mut self, value: TcpSeqNumber)
        requires { 8 ≤ length (packet_bytes_mut self.old) }
        ensures { Becomes self.old self.new (with_field (packet_bytes_mut self.old) 32 32 (number value)) }
    {
        NetworkEndian::write_i32(&mut self.buffer[4..8], value.0);
    }

    /// Writes the acknowledgement number: the sequence number that the sender expects next.
    pub fn set_ack_number(&mut self, value: TcpSeqNumber)
        requires { 12 ≤ length (packet_bytes_mut self.old) }
        ensures { Becomes self.old self.new (with_field (packet_bytes_mut self.old) 64 32 (number value)) }
    {
        NetworkEndian::write_i32(&mut self.buffer[8..12], value.0);
    }

    /// Writes the data offset for a header of this length in bytes. The length is rounded down to
    /// a multiple of 4, modulo 64.
    pub fn set_header_len(&mut self, value: u8)
        requires { 13 ≤ length (packet_bytes_mut self.old) }
        ensures { Becomes self.old self.new (with_field (packet_bytes_mut self.old) 96 4 (value / 4)) }
    {
        set_bits(self.buffer, 96, 4, value / 4);
    }

    /// Clears the nine flags, and the three reserved bits before them.
    pub fn clear_flags(&mut self)
        requires { 14 ≤ length (packet_bytes_mut self.old) }
        ensures { Becomes self.old self.new (with_field (packet_bytes_mut self.old) 100 12 0) }
    {
        set_bits_u16(&mut self.buffer[12..14], 4, 12, 0);
    }

    /// Writes the flag NS.
    pub fn set_ns(&mut self, value: bool)
        requires { 13 ≤ length (packet_bytes_mut self.old) }
        ensures { Becomes self.old self.new (with_flag (packet_bytes_mut self.old) 103 value) }
    {
        set_bits(self.buffer, 103, 1, value.into());
    }

    /// Writes the flag CWR.
    pub fn set_cwr(&mut self, value: bool)
        requires { 14 ≤ length (packet_bytes_mut self.old) }
        ensures { Becomes self.old self.new (with_flag (packet_bytes_mut self.old) 104 value) }
    {
        set_bits(self.buffer, 104, 1, value.into());
    }

    /// Writes the flag ECE.
    pub fn set_ece(&mut self, value: bool)
        requires { 14 ≤ length (packet_bytes_mut self.old) }
        ensures { Becomes self.old self.new (with_flag (packet_bytes_mut self.old) 105 value) }
    {
        set_bits(self.buffer, 105, 1, value.into());
    }

    /// Writes the flag URG.
    pub fn set_urg(&mut self, value: bool)
        requires { 14 ≤ length (packet_bytes_mut self.old) }
        ensures { Becomes self.old self.new (with_flag (packet_bytes_mut self.old) 106 value) }
    {
        set_bits(self.buffer, 106, 1, value.into());
    }

    /// Writes the flag ACK.
    pub fn set_ack(&mut self, value: bool)
        requires { 14 ≤ length (packet_bytes_mut self.old) }
        ensures { Becomes self.old self.new (with_flag (packet_bytes_mut self.old) 107 value) }
    {
        set_bits(self.buffer, 107, 1, value.into());
    }

    /// Writes the flag PSH.
    pub fn set_psh(&mut self, value: bool)
        requires { 14 ≤ length (packet_bytes_mut self.old) }
        ensures { Becomes self.old self.new (with_flag (packet_bytes_mut self.old) 108 value) }
    {
        set_bits(self.buffer, 108, 1, value.into());
    }

    /// Writes the flag RST.
    pub fn set_rst(&mut self, value: bool)
        requires { 14 ≤ length (packet_bytes_mut self.old) }
        ensures { Becomes self.old self.new (with_flag (packet_bytes_mut self.old) 109 value) }
    {
        set_bits(self.buffer, 109, 1, value.into());
    }

    /// Writes the flag SYN.
    pub fn set_syn(&mut self, value: bool)
        requires { 14 ≤ length (packet_bytes_mut self.old) }
        ensures { Becomes self.old self.new (with_flag (packet_bytes_mut self.old) 110 value) }
    {
        set_bits(self.buffer, 110, 1, value.into());
    }

    /// Writes the flag FIN.
    pub fn set_fin(&mut self, value: bool)
        requires { 14 ≤ length (packet_bytes_mut self.old) }
        ensures { Becomes self.old self.new (with_flag (packet_bytes_mut self.old) 111 value) }
    {
        set_bits(self.buffer, 111, 1, value.into());
    }

    /// Writes the receive window of the sender in bytes, before scaling.
    pub fn set_window_len(&mut self, value: u16)
        requires { 16 ≤ length (packet_bytes_mut self.old) }
        ensures { Becomes self.old self.new (with_window_len (packet_bytes_mut self.old) value) }
    {
        NetworkEndian::write_u16(&mut self.buffer[14..16], value);
    }

    /// Writes the checksum field.
    pub fn set_checksum(&mut self, value: u16)
        requires { 18 ≤ length (packet_bytes_mut self.old) }
        ensures { Becomes self.old self.new (with_checksum_field (packet_bytes_mut self.old) value) }
    {
        NetworkEndian::write_u16(&mut self.buffer[16..18], value);
    }

    /// Writes the urgent pointer.
    pub fn set_urgent_at(&mut self, value: u16)
        requires { 20 ≤ length (packet_bytes_mut self.old) }
        ensures { Becomes self.old self.new (with_field (packet_bytes_mut self.old) 144 16 value) }
    {
        NetworkEndian::write_u16(&mut self.buffer[18..20], value);
    }

    /// Computes the checksum of all bytes and their pseudo-header, and writes it.
    pub fn fill_checksum(&mut self, src_addr: &IpAddress, dst_addr: &IpAddress)
        requires header { 18 ≤ length (packet_bytes_mut self.old) }
        requires family { version_of src_addr.now ≡ version_of dst_addr.now }
        ensures { let bytes = packet_bytes_mut self.old in
            Becomes self.old self.new (with_checksum src_addr.now dst_addr.now bytes) }
    {
        self.set_checksum(0);
        let sum = checksum::packet(*src_addr, *dst_addr, IpProtocol::Tcp, self.as_bytes());
        self.set_checksum(!sum);
    }
}

// The slice, and whether `check_len` accepts it.
fn check(bytes: &mut [u8]) -> Checked<'_>
    ensures { Checks bytes.entry (HasLengths bytes.old) result }
{
    let ok = TcpPacket::new_checked(bytes).is_ok();
    Checked { bytes, ok }
}

// The slice, and the range of the options in it.
fn locate_options(bytes: &mut [u8]) -> Located<'_>
    requires begins { 20 ≤ header_len bytes.old }
    requires ends { header_len bytes.old ≤ length bytes.old }
    ensures { Locates bytes.entry 20 (header_len bytes.old) result }
{
    let end = usize::from(TcpPacket::new_unchecked(bytes).header_len());
    Located {
        bytes,
        start: TCP_HEADER_LEN,
        end,
    }
}

// The slice, and the range of the payload in it.
fn locate_payload(bytes: &mut [u8]) -> Located<'_>
    requires field { 13 ≤ length bytes.old }
    requires begins { header_len bytes.old ≤ length bytes.old }
    ensures { Locates bytes.entry (header_len bytes.old) (length bytes.old) result }
{
    let start = usize::from(TcpPacket::new_unchecked(bytes).header_len());
    let end = bytes.len();
    Located { bytes, start, end }
}
