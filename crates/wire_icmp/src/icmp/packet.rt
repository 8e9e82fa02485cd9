//! Views of ICMP messages, and their getters.

ghost use Rattle.std.specs.Prelude.{◌≡◌, ◌↔◌, ◌≤◌, IfOk, IsOk, IsTrue, Some, length};
ghost use Rattle.wire_addr.specs.IpAddress.{version_of};
ghost use Rattle.wire_icmp.specs.Icmp.{HasHeader, Verifies, checksum_of, echo_ident_of, is_query, msg_code_of, msg_type_of, packet_bytes, packet_slice, payload_of, second_word_of, verifies};
ghost use Rattle.wire_icmp.specs.IcmpText.{packet_text};

use super::{ICMP_HEADER_LEN, message_sum};
use byteorder::{ByteOrder, NetworkEndian};
use net_base::{Error, Octets, Result, debug_view};
use std::fmt;
use wire_addr::{IpAddress, IpVersion};

/// A view of a borrowed ICMP message. A call requires only the bytes that it uses.
#[derive(Clone, Copy, PartialEq, Eq, Drop)]
pub struct IcmpView<B> {
    pub(super) buffer: B,
}

/// A reading view.
pub type IcmpPacket<'a> = IcmpView<&'a [u8]>;

/// A mutable view.
pub type IcmpPacketMut<'a> = IcmpView<&'a mut [u8]>;

impl<B: Octets> IcmpView<B> {
    /// A view of any bytes. Nothing is checked.
    pub fn new_unchecked(buffer: B) -> IcmpView<B>
        ensures { packet_slice result ≡ buffer }
    {
        IcmpView { buffer }
    }

    /// Checks that the bytes hold a whole header. After `Ok` every call of this view may be made.
    pub fn check_len(&self) -> Result<()>
        ensures { IsOk result ↔ HasHeader (B.octets (packet_slice self.now)) }
    {
        if self.as_bytes().len() < ICMP_HEADER_LEN {
            return Err(Error);
        }
        Ok(())
    }

    /// The borrowed slice, with its own lifetime.
    pub fn into_inner(self) -> B
        ensures { result ≡ packet_slice self }
    {
        self.buffer
    }

    /// The bytes under the view.
    pub fn as_bytes(&self) -> &[u8]
        ensures { result.now ≡ B.octets (packet_slice self.now) }
    {
        self.buffer.octets()
    }

    /// A reading view of the same bytes.
    pub fn as_view(&self) -> IcmpPacket<'_>
        ensures { packet_bytes result ≡ B.octets (packet_slice self.now) }
    {
        IcmpView::new_unchecked(self.as_bytes())
    }

    /// The type. Its meaning depends on the version.
    pub fn msg_type(&self) -> u8
        requires { 1 ≤ length (B.octets (packet_slice self.now)) }
        ensures { result ≡ msg_type_of (B.octets (packet_slice self.now)) }
    {
        self.as_bytes()[0]
    }

    /// The code. Its meaning depends on the type.
    pub fn msg_code(&self) -> u8
        requires { 2 ≤ length (B.octets (packet_slice self.now)) }
        ensures { result ≡ msg_code_of (B.octets (packet_slice self.now)) }
    {
        self.as_bytes()[1]
    }

    /// The checksum field.
    pub fn checksum(&self) -> u16
        requires { 4 ≤ length (B.octets (packet_slice self.now)) }
        ensures { result ≡ checksum_of (B.octets (packet_slice self.now)) }
    {
        NetworkEndian::read_u16(&self.as_bytes()[2..4])
    }

    /// The second word of the header, such as the identifier and the sequence number of an echo.
    pub fn word(&self) -> u32
        requires { 8 ≤ length (B.octets (packet_slice self.now)) }
        ensures { result ≡ second_word_of (B.octets (packet_slice self.now)) }
    {
        NetworkEndian::read_u32(&self.as_bytes()[4..8])
    }

    /// The identifier of an echo: the first 16 bits of the second word.
    pub fn echo_ident(&self) -> u16
        requires { 6 ≤ length (B.octets (packet_slice self.now)) }
        ensures { result ≡ echo_ident_of (B.octets (packet_slice self.now)) }
    {
        NetworkEndian::read_u16(&self.as_bytes()[4..6])
    }

    /// Returns `true` if the type is that of a query or of an answer to one, so that an error about
    /// the message may be sent (RFC 1122, section 3.2.2; RFC 4443, section 2.4 e).
    pub fn is_query(&self, version: IpVersion) -> bool
        requires { 1 ≤ length (B.octets (packet_slice self.now)) }
        ensures { result ≡ is_query version (msg_type_of (B.octets (packet_slice self.now))) }
    {
        let msg_type = self.msg_type();
        match version {
            IpVersion::Ipv4 => matches!(msg_type, 0 | 8 | 13..=18),
            IpVersion::Ipv6 => 128 <= msg_type && msg_type != 137,
        }
    }

    /// Returns `true` if the checksum is correct: the sum of the message, and over IPv6 of its
    /// pseudo-header too, is 0xffff.
    #[inline(always)]
    pub fn verify_checksum(&self, src_addr: &IpAddress, dst_addr: &IpAddress) -> bool
        requires { version_of src_addr.now ≡ version_of dst_addr.now }
        ensures holds { IsTrue result ↔ Verifies src_addr.now dst_addr.now (B.octets (packet_slice self.now)) }
        ensures value { result ≡ verifies src_addr.now dst_addr.now (B.octets (packet_slice self.now)) }
    {
        message_sum(src_addr, dst_addr, self.as_bytes()) == 0xffff
    }
}

impl<'a> IcmpPacket<'a> {
    /// A view of bytes that `check_len` accepts, else an error.
    pub fn new_checked(buffer: &'a [u8]) -> Result<IcmpPacket<'a>>
        ensures ok { IsOk result ↔ HasHeader buffer.now }
        ensures bytes { IfOk result (λ packet. packet_bytes packet ≡ buffer.now) }
    {
        let packet = IcmpView::new_unchecked(buffer);
        packet.check_len()?;
        Ok(packet)
    }

    /// The payload, all bytes after the header: the data of an echo, or the packet that an error
    /// quotes.
    pub fn payload(&self) -> &'a [u8]
        requires { HasHeader (packet_bytes self.now) }
        ensures { result.now ≡ payload_of (packet_bytes self.now) }
    {
        &self.buffer[ICMP_HEADER_LEN..]
    }
}

impl<B: Octets> fmt::Debug for IcmpView<B> {
    fn fmt<W: fmt::Write>(&self, f: &mut fmt::Formatter<W>) -> fmt::Result {
        debug_view(f, "IcmpPacket", &self.buffer)
    }
}

/// Prints the type, the code and the payload length, or an error if `check_len` rejects the bytes.
impl fmt::Display for IcmpPacket<'_> {
    ghost output = { λ packet. Some (packet_text (packet_bytes packet)) };

    fn fmt<W: fmt::Write>(&self, f: &mut fmt::Formatter<W>) -> fmt::Result {
        match self.check_len() {
            Ok(()) => {
                let (msg_type, code) = (self.msg_type(), self.msg_code());
                let len = self.payload().len();
                write!(f, "ICMP type={msg_type} code={code} len={len}")
            }
            Err(error) => write!(f, "ICMP ({error})"),
        }
    }
}
