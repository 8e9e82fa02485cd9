//! Views of UDP packets, and their getters.

ghost use Rattle.std.specs.Prelude.{◌≡◌, ◌↔◌, ◌≤◌, ◌⊎◌, IfOk, IsOk, IsTrue, Some, length};
ghost use Rattle.wire_addr.specs.IpAddress.{version_of};
ghost use Rattle.wire_udp.specs.Udp.{HasChecksum, HasLengths, Verifies, checksum_of, dst_port_of, has_checksum, packet_bytes, packet_len, packet_slice, payload_of, pseudo_header_sum, src_port_of};
ghost use Rattle.wire_udp.specs.UdpText.{packet_text};

use super::UDP_HEADER_LEN;
use byteorder::{ByteOrder, NetworkEndian};
use net_base::{Error, Octets, Result, debug_view};
use std::fmt;
use wire_addr::{IpAddress, IpProtocol};
use wire_checksum::checksum;

/// A view of a borrowed UDP packet. A call requires only the bytes that it uses.
#[derive(Clone, Copy, PartialEq, Eq, Drop)]
pub struct UdpView<B> {
    pub(super) buffer: B,
}

/// A reading view.
pub type UdpPacket<'a> = UdpView<&'a [u8]>;

/// A mutable view.
pub type UdpPacketMut<'a> = UdpView<&'a mut [u8]>;

#[allow(clippy::len_without_is_empty)]
impl<B: Octets> UdpView<B> {
    /// A view of any bytes. Nothing is checked.
    pub fn new_unchecked(buffer: B) -> UdpView<B>
        ensures { packet_slice result ≡ buffer }
    {
        UdpView { buffer }
    }

    /// Checks the length field: it is at least 8, and the bytes hold a whole header and a packet of
    /// that length. After `Ok` every call of this view may be made, until the length field is
    /// written.
    pub fn check_len(&self) -> Result<()>
        ensures { IsOk result ↔ HasLengths (B.octets (packet_slice self.now)) }
    {
        let buffer_len = self.as_bytes().len();
        if buffer_len < UDP_HEADER_LEN {
            return Err(Error);
        }
        let len = usize::from(self.len());
        if len < UDP_HEADER_LEN || buffer_len < len {
            return Err(Error);
        }
        Ok(())
    }

    /// The borrowed slice, with its own lifetime.
    pub fn into_inner(self) -> B
        ensures { result ≡ packet_slice self }
    {
        self.buffer
    }

    /// The bytes under the view.
    pub fn as_bytes(&self) -> &[u8]
        ensures { result.now ≡ B.octets (packet_slice self.now) }
    {
        self.buffer.octets()
    }

    /// A reading view of the same bytes.
    pub fn as_view(&self) -> UdpPacket<'_>
        ensures { packet_bytes result ≡ B.octets (packet_slice self.now) }
    {
        UdpView::new_unchecked(self.as_bytes())
    }

    /// The source port, or 0 if the sender has none.
    pub fn src_port(&self) -> u16
        requires { 2 ≤ length (B.octets (packet_slice self.now)) }
        ensures { result ≡ src_port_of (B.octets (packet_slice self.now)) }
    {
        NetworkEndian::read_u16(&self.as_bytes()[0..2])
    }

    /// The destination port.
    pub fn dst_port(&self) -> u16
        requires { 4 ≤ length (B.octets (packet_slice self.now)) }
        ensures { result ≡ dst_port_of (B.octets (packet_slice self.now)) }
    {
        NetworkEndian::read_u16(&self.as_bytes()[2..4])
    }

    /// The length field: the length of header and payload in bytes.
    pub fn len(&self) -> u16
        requires { 6 ≤ length (B.octets (packet_slice self.now)) }
        ensures { result ≡ packet_len (B.octets (packet_slice self.now)) }
    {
        NetworkEndian::read_u16(&self.as_bytes()[4..6])
    }

    /// The checksum field, or 0 if the sender computed no checksum.
    pub fn checksum(&self) -> u16
        requires { 8 ≤ length (B.octets (packet_slice self.now)) }
        ensures { result ≡ checksum_of (B.octets (packet_slice self.now)) }
    {
        NetworkEndian::read_u16(&self.as_bytes()[6..8])
    }

    /// Returns `true` if the checksum field holds only the sum of the pseudo-header. The device
    /// then adds the rest (checksum offload).
    pub fn verify_partial_checksum(&self, src_addr: &IpAddress, dst_addr: &IpAddress) -> bool
        requires header { 8 ≤ length (B.octets (packet_slice self.now)) }
        requires family { version_of src_addr.now ≡ version_of dst_addr.now }
        ensures { IsTrue result ↔ (checksum_of (B.octets (packet_slice self.now)) ≡ pseudo_header_sum src_addr.now dst_addr.now (B.octets (packet_slice self.now))) }
    {
        let len = u32::from(self.len());
        self.checksum() == checksum::pseudo_header(src_addr, dst_addr, IpProtocol::Udp, len)
    }

    /// Returns `true` if the checksum field is 0, or if the sum of pseudo-header and packet is
    /// 0xffff.
    #[inline(always)]
    pub fn verify_checksum(&self, src_addr: &IpAddress, dst_addr: &IpAddress) -> bool
        requires header { 8 ≤ length (B.octets (packet_slice self.now)) }
        requires whole { packet_len (B.octets (packet_slice self.now)) ≤ length (B.octets (packet_slice self.now)) }
        requires family { version_of src_addr.now ≡ version_of dst_addr.now }
        ensures { IsTrue result ↔ ((checksum_of (B.octets (packet_slice self.now)) ≡ 0) ⊎ Verifies src_addr.now dst_addr.now (B.octets (packet_slice self.now))) }
    {
        if self.checksum() == 0 {
            return true;
        }
        let packet = &self.as_bytes()[..usize::from(self.len())];
        checksum::packet(*src_addr, *dst_addr, IpProtocol::Udp, packet) == 0xffff
    }

    /// Returns `true` if the checksum is correct, or if it is 0 and the addresses are IPv4. Over IPv6
    /// the sender must compute a checksum (RFC 8200, section 8.1).
    #[inline(always)]
    pub fn has_valid_checksum(&self, src_addr: &IpAddress, dst_addr: &IpAddress) -> bool
        requires header { 8 ≤ length (B.octets (packet_slice self.now)) }
        requires whole { packet_len (B.octets (packet_slice self.now)) ≤ length (B.octets (packet_slice self.now)) }
        requires family { version_of src_addr.now ≡ version_of dst_addr.now }
        ensures holds { IsTrue result ↔ HasChecksum src_addr.now dst_addr.now (B.octets (packet_slice self.now)) }
        ensures value { result ≡ has_checksum src_addr.now dst_addr.now (B.octets (packet_slice self.now)) }
    {
        if self.checksum() == 0 {
            matches!(src_addr, IpAddress::Ipv4(_))
        } else {
            self.verify_checksum(src_addr, dst_addr)
        }
    }
}

impl<'a> UdpPacket<'a> {
    /// A view of bytes that `check_len` accepts, else an error.
    pub fn new_checked(buffer: &'a [u8]) -> Result<UdpPacket<'a>>
        ensures ok { IsOk result ↔ HasLengths buffer.now }
        ensures bytes { IfOk result (λ packet. packet_bytes packet ≡ buffer.now) }
    {
        let packet = UdpView::new_unchecked(buffer);
        packet.check_len()?;
        Ok(packet)
    }

    /// The payload: the bytes after the header, up to the length field. Later bytes are padding.
    pub fn payload(&self) -> &'a [u8]
        requires { HasLengths (packet_bytes self.now) }
        ensures { result.now ≡ payload_of (packet_bytes self.now) }
    {
        &self.buffer[UDP_HEADER_LEN..usize::from(self.len())]
    }
}

impl<B: Octets> fmt::Debug for UdpView<B> {
    fn fmt<W: fmt::Write>(&self, f: &mut fmt::Formatter<W>) -> fmt::Result {
        debug_view(f, "UdpPacket", &self.buffer)
    }
}

/// Prints the ports and the payload length, or an error if `check_len` rejects the bytes.
impl fmt::Display for UdpPacket<'_> {
    ghost output = { λ packet. Some (packet_text (packet_bytes packet)) };

    fn fmt<W: fmt::Write>(&self, f: &mut fmt::Formatter<W>) -> fmt::Result {
        match self.check_len() {
            Ok(()) => {
                let (src, dst, len) = (self.src_port(), self.dst_port(), self.payload().len());
                write!(f, "UDP src={src} dst={dst} len={len}")
            }
            Err(error) => write!(f, "UDP ({error})"),
        }
    }
}
