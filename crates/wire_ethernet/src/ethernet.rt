//! Frames of Ethernet II: what they carry, their views and the values of their header.

ghost use Rattle.std.specs.Prelude.{◌≡◌, ◌↔◌, ◌≤◌, ◌+◌, ◌^◌, ◌<◌, ◌++◌, [], IfOk, IsOk, Ok, OnOk, Some, drop, length};
ghost use Rattle.std.specs.Result.{result_ok};
ghost use Rattle.std.specs.Borrow.{sem};
ghost use Rattle.arrayvec.specs.ArrayString.{array_string_len};
ghost use Rattle.net_base.specs.Field.{with_field, with_range};
ghost use Rattle.net_base.specs.Borrow.{Checks, Holds, Locates, StaysIfErr};
ghost use Rattle.wire_ethernet.specs.EthernetBorrow.{BorrowsPayload};
ghost use Rattle.wire_ethernet.specs.Ethernet.{Becomes, Reads, bytes_of, dst_addr_of, ethernet_of, ethertype_of, frame_bytes, frame_bytes_mut, frame_slice, frame_text, header_text, number_of, protocol_of, protocol_text, src_addr_of};
ghost use Rattle.wire_ethernet.specs.declared.ethernet.EthernetRepr.{EthernetRepr};

use arrayvec::ArrayString;
use byteorder::{ByteOrder, NetworkEndian};
use net_base::{Checked, Error, Located, Octets, Result, debug_view, write_six};
use std::fmt;
use wire_addr::{EthernetAddress, push_dashed, push_hex_byte};

/// The length of a frame's header.
pub const ETHERNET_HEADER_LEN: usize = 14;

/// The protocol of a frame's payload, the EtherType of its header.
#[derive(Debug, Clone, Copy, PartialEq, Eq, PartialOrd, Ord)]
pub enum EthernetProtocol {
    /// 0x0800 (RFC 894).
    Ipv4,
    /// 0x0806 (RFC 826).
    Arp,
    /// 0x86dd (RFC 2464).
    Ipv6,
    /// Any other number. The number of a named protocol is never read as this, but may be written.
    Unknown(u16),
}

impl EthernetProtocol {
    /// The number in the header field "EtherType".
    #[inline(always)]
    pub fn number(self) -> u16
        ensures { result ≡ number_of self }
    {
        match self {
            EthernetProtocol::Ipv4 => 0x0800,
            EthernetProtocol::Arp => 0x0806,
            EthernetProtocol::Ipv6 => 0x86dd,
            EthernetProtocol::Unknown(other) => other,
        }
    }

    // Appends the name, or `0x` and four hex digits. There must be room for 6 bytes.
    fn push_to<const CAP: usize>(self, text: &mut ArrayString<CAP>)
        requires { array_string_len text.old + 6 ≤ CAP }
        ensures bytes { text.new.bytes ≡ text.old.bytes ++ protocol_text self }
        ensures len { array_string_len text.new ≤ array_string_len text.old + 6 }
    {
        match self {
            EthernetProtocol::Ipv4 => text.push_str("IPv4"),
            EthernetProtocol::Arp => text.push_str("ARP"),
            EthernetProtocol::Ipv6 => text.push_str("IPv6"),
            EthernetProtocol::Unknown(id) => {
                text.push_str("0x");
                push_hex_byte(text, (id / 256) as u8);
                push_hex_byte(text, (id % 256) as u8);
            }
        }
    }
}

impl From<u16> for EthernetProtocol {
    ghost from_gives = { λ n p. p ≡ protocol_of n };

    #[inline(always)]
    fn from(value: u16) -> EthernetProtocol {
        match value {
            0x0800 => EthernetProtocol::Ipv4,
            0x0806 => EthernetProtocol::Arp,
            0x86dd => EthernetProtocol::Ipv6,
            other => EthernetProtocol::Unknown(other),
        }
    }
}

impl From<EthernetProtocol> for u16 {
    ghost from_gives = { λ p n. n ≡ number_of p };

    #[inline(always)]
    fn from(value: EthernetProtocol) -> u16 {
        value.number()
    }
}

/// The name of the protocol, or `0x` and four hex digits.
impl fmt::Display for EthernetProtocol {
    ghost output = { λ p. Some (protocol_text p) };

    fn fmt<W: fmt::Write>(&self, f: &mut fmt::Formatter<W>) -> fmt::Result {
        let mut text = ArrayString::<6>::new();
        self.push_to(&mut text);
        f.write_str(text.as_str())
    }
}

/// A view of the borrowed bytes of a frame. Each call requires only the bytes that it uses.
#[derive(Clone, Copy, PartialEq, Eq, Drop)]
pub struct EthernetView<B> {
    buffer: B,
}

/// A reading view.
pub type EthernetFrame<'a> = EthernetView<&'a [u8]>;

/// A mutable view.
pub type EthernetFrameMut<'a> = EthernetView<&'a mut [u8]>;

impl<B: Octets> EthernetView<B> {
    /// The view of any bytes.
    pub fn new_unchecked(buffer: B) -> EthernetView<B>
        ensures { frame_slice result ≡ buffer }
    {
        EthernetView { buffer }
    }

    /// Ok exactly if the bytes hold a header. Then every getter and setter may be called.
    pub fn check_len(&self) -> Result<()>
        ensures { IsOk result ↔ (14 ≤ length (B.octets (frame_slice self.now))) }
    {
        if self.as_bytes().len() < ETHERNET_HEADER_LEN {
            Err(Error)
        } else {
            Ok(())
        }
    }

    /// The borrowed bytes, with their own lifetime.
    pub fn into_inner(self) -> B
        ensures { result ≡ frame_slice self }
    {
        self.buffer
    }

    /// The bytes.
    pub fn as_bytes(&self) -> &[u8]
        ensures { result.now ≡ B.octets (frame_slice self.now) }
    {
        self.buffer.octets()
    }

    /// A view that reads the same bytes.
    pub fn as_view(&self) -> EthernetFrame<'_>
        ensures { frame_bytes result ≡ B.octets (frame_slice self.now) }
    {
        EthernetView::new_unchecked(self.as_bytes())
    }

    /// The address of the receiver.
    pub fn dst_addr(&self) -> EthernetAddress
        requires { 6 ≤ length (B.octets (frame_slice self.now)) }
        ensures { result.0 ≡ dst_addr_of (B.octets (frame_slice self.now)) }
    {
        EthernetAddress::from_bytes(&self.as_bytes()[0..6])
    }

    /// The address of the sender.
    pub fn src_addr(&self) -> EthernetAddress
        requires { 12 ≤ length (B.octets (frame_slice self.now)) }
        ensures { result.0 ≡ src_addr_of (B.octets (frame_slice self.now)) }
    {
        EthernetAddress::from_bytes(&self.as_bytes()[6..12])
    }

    /// The protocol of the payload. A tag of a virtual network is not looked for.
    pub fn ethertype(&self) -> EthernetProtocol
        requires { 14 ≤ length (B.octets (frame_slice self.now)) }
        ensures { result ≡ ethertype_of (B.octets (frame_slice self.now)) }
    {
        EthernetProtocol::from(NetworkEndian::read_u16(&self.as_bytes()[12..14]))
    }
}

impl<'a> EthernetFrame<'a> {
    /// A view of bytes that hold a header, at least 14, else an error.
    pub fn new_checked(buffer: &'a [u8]) -> Result<EthernetFrame<'a>>
        ensures ok { IsOk result ↔ (14 ≤ length buffer.now) }
        ensures bytes { IfOk result (λ frame. frame_bytes frame ≡ buffer.now) }
    {
        let frame = EthernetView::new_unchecked(buffer);
        frame.check_len()?;
        Ok(frame)
    }

    /// The length of a header.
    pub fn header_len() -> usize
        ensures { result ≡ 14 }
    {
        ETHERNET_HEADER_LEN
    }

    /// The length of a frame with a payload of so many bytes.
    pub fn buffer_len(payload_len: usize) -> usize
        requires { 14 + payload_len < 2 ^ 64 }
        ensures { result ≡ 14 + payload_len }
    {
        ETHERNET_HEADER_LEN + payload_len
    }

    /// What follows the header.
    pub fn payload(&self) -> &'a [u8]
        requires { 14 ≤ length (frame_bytes self.now) }
        ensures { result.now ≡ drop 14 (frame_bytes self.now) }
    {
        &self.buffer[ETHERNET_HEADER_LEN..]
    }
}

impl<B: Octets> fmt::Debug for EthernetView<B> {
    fn fmt<W: fmt::Write>(&self, f: &mut fmt::Formatter<W>) -> fmt::Result {
        debug_view(f, "EthernetFrame", &self.buffer)
    }
}

/// The values of the header, or the error where the bytes hold none.
impl fmt::Display for EthernetFrame<'_> {
    ghost output = { λ frame. Some (frame_text (frame_bytes frame)) };

    fn fmt<W: fmt::Write>(&self, f: &mut fmt::Formatter<W>) -> fmt::Result {
        match EthernetRepr::parse(self) {
            Ok(header) => write!(f, "{header}"),
            Err(error) => write!(f, "EthernetII ({error})"),
        }
    }
}

impl<'a> EthernetFrameMut<'a> {
    /// A mutable view, or an error for fewer than 14 bytes, which stay unchanged.
    pub fn new_checked(buffer: &'a mut [u8]) -> Result<EthernetFrameMut<'a>>
        ensures* rejected { sem 𝓛 (StaysIfErr buffer.entry frame_slice result) }
        ensures ok { IsOk result ↔ (14 ≤ length buffer.old) }
        ensures frame { IfOk result (λ frame. Holds buffer.entry (frame_slice frame) buffer.old) }
    {
        let checked = check(buffer);
        if checked.ok {
            Ok(EthernetView {
                buffer: checked.bytes,
            })
        } else {
            Err(Error)
        }
    }

    /// The payload, to be written in place. Bytes written to it go into the frame; the header
    /// stays.
    pub fn payload_mut(&mut self) -> &mut [u8]
        requires { 14 ≤ length (frame_bytes_mut self.old) }
        ensures* writes_back { sem 𝓛 (BorrowsPayload self.entry result) }
        ensures value { result.now ≡ drop 14 (frame_bytes_mut self.old) }
    {
        locate_payload(self.buffer).into_slice()
    }

    /// Writes the address of the receiver.
    pub fn set_dst_addr(&mut self, value: EthernetAddress)
        requires { 6 ≤ length (frame_bytes_mut self.old) }
        ensures { Becomes self.old self.new (with_range (frame_bytes_mut self.old) 0 6 value.0) }
    {
        self.buffer[0..6].copy_from_slice(value.as_bytes());
    }

    /// Writes the address of the sender.
    pub fn set_src_addr(&mut self, value: EthernetAddress)
        requires { 12 ≤ length (frame_bytes_mut self.old) }
        ensures { Becomes self.old self.new (with_range (frame_bytes_mut self.old) 6 12 value.0) }
    {
        self.buffer[6..12].copy_from_slice(value.as_bytes());
    }

    /// Writes the protocol of the payload.
    pub fn set_ethertype(&mut self, value: EthernetProtocol)
        requires { 14 ≤ length (frame_bytes_mut self.old) }
        ensures { Becomes self.old self.new (with_field (frame_bytes_mut self.old) 96 16 (number_of value)) }
    {
        NetworkEndian::write_u16(&mut self.buffer[12..14], value.into());
    }
}

// Whether the bytes hold a header.
fn check(bytes: &mut [u8]) -> Checked<'_>
    ensures { Checks bytes.entry (14 ≤ length bytes.old) result }
{
    let ok = EthernetFrame::new_checked(bytes).is_ok();
    Checked { bytes, ok }
}

// The place of the payload in the bytes of a frame.
fn locate_payload(bytes: &mut [u8]) -> Located<'_>
    requires { 14 ≤ length bytes.old }
    ensures { Locates bytes.entry 14 (length bytes.old) result }
{
    let end = bytes.len();
    Located {
        bytes,
        start: ETHERNET_HEADER_LEN,
        end,
    }
}

/// The values of a frame's header.
#[derive(Debug, Clone, Copy, PartialEq, Eq)]
pub struct EthernetRepr {
    /// The address of the sender.
    pub src_addr: EthernetAddress,
    /// The address of the receiver.
    pub dst_addr: EthernetAddress,
    /// The protocol of the payload.
    pub ethertype: EthernetProtocol,
}

impl EthernetRepr {
    /// The values of a frame's header. Bytes that hold no header are rejected.
    pub fn parse(frame: &EthernetFrame<'_>) -> Result<EthernetRepr>
        ensures reads { (v : EthernetRepr) → (result ≡ Ok v) ↔ Reads (frame_bytes frame.now) v }
        ensures value { ethernet_of (frame_bytes frame.now) ≡ result_ok result }
        ensures lengths { OnOk result (14 ≤ length (frame_bytes frame.now)) }
    {
        frame.check_len()?;
        Ok(EthernetRepr {
            src_addr: frame.src_addr(),
            dst_addr: frame.dst_addr(),
            ethertype: frame.ethertype(),
        })
    }

    /// The length of the header.
    pub fn buffer_len(&self) -> usize
        ensures { result ≡ 14 }
    {
        ETHERNET_HEADER_LEN
    }

    /// Writes the header. All bytes after it stay unchanged.
    pub fn emit(&self, frame: &mut EthernetFrameMut<'_>)
        requires { 14 ≤ length (frame_bytes_mut frame.old) }
        ensures { Becomes frame.old frame.new (bytes_of self.now ++ drop 14 (frame_bytes_mut frame.old)) }
    {
        write_six(frame.buffer, &self.dst_addr.0);
        write_six(&mut frame.buffer[6..12], &self.src_addr.0);
        NetworkEndian::write_u16(&mut frame.buffer[12..14], self.ethertype.number());
    }

    // Writes the printed text into an empty string.
    fn push_to(&self, text: &mut ArrayString<66>)
        requires { text.old.bytes ≡ [] }
        ensures { text.new.bytes ≡ header_text self.now }
    {
        text.push_str("EthernetII src=");
        push_dashed(text, self.src_addr.0);
        text.push_str(" dst=");
        push_dashed(text, self.dst_addr.0);
        text.push_str(" type=");
        self.ethertype.push_to(text);
    }
}

impl fmt::Display for EthernetRepr {
    ghost output = { λ v. Some (header_text v) };

    fn fmt<W: fmt::Write>(&self, f: &mut fmt::Formatter<W>) -> fmt::Result {
        let mut text = ArrayString::new();
        self.push_to(&mut text);
        f.write_str(text.as_str())
    }
}
