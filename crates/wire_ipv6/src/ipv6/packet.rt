//! Views of IPv6 packets, and their getters.

ghost use Rattle.std.specs.Prelude.{◌≡◌, ◌↔◌, ◌≤◌, IfOk, IsOk, Some, length};
ghost use Rattle.net_base.specs.Field.{field};
ghost use Rattle.wire_ipv6.specs.Ipv6.{HasLengths, dst_addr_of, hop_limit_of, ip_version_of, next_header_of, packet_bytes, packet_slice, payload_len_of, payload_of, src_addr_of, total_len};
ghost use Rattle.wire_ipv6.specs.Ipv6Text.{packet_text};

use super::{IPV6_HEADER_LEN, Ipv6Repr};
use byteorder::{ByteOrder, NetworkEndian};
use net_base::{Error, Octets, Result, array_at, debug_view};
use std::fmt;
use wire_addr::{IpProtocol, Ipv6Address};

/// A view of a borrowed IPv6 packet. A call requires only the bytes that it uses.
#[derive(Clone, Copy, PartialEq, Eq, Drop)]
pub struct Ipv6View<B> {
    pub(super) buffer: B,
}

/// A reading view.
pub type Ipv6Packet<'a> = Ipv6View<&'a [u8]>;

/// A mutable view.
pub type Ipv6PacketMut<'a> = Ipv6View<&'a mut [u8]>;

impl<B: Octets> Ipv6View<B> {
    /// A view of any bytes. Nothing is checked.
    pub fn new_unchecked(buffer: B) -> Ipv6View<B>
        ensures { packet_slice result ≡ buffer }
    {
        Ipv6View { buffer }
    }

    /// Checks the lengths: the bytes hold a whole header, and a payload of the length that it names.
    /// After `Ok` every call of this view may be made, until the payload length is written.
    pub fn check_len(&self) -> Result<()>
        ensures { IsOk result ↔ HasLengths (B.octets (packet_slice self.now)) }
    {
        let len = self.as_bytes().len();
        if len < IPV6_HEADER_LEN || len < self.total_len() {
            Err(Error)
        } else {
            Ok(())
        }
    }

    /// The borrowed slice, with its own lifetime.
    pub fn into_inner(self) -> B
        ensures { result ≡ packet_slice self }
    {
        self.buffer
    }

    /// The bytes under the view.
    pub fn as_bytes(&self) -> &[u8]
        ensures { result.now ≡ B.octets (packet_slice self.now) }
    {
        self.buffer.octets()
    }

    /// A reading view of the same bytes.
    pub fn as_view(&self) -> Ipv6Packet<'_>
        ensures { packet_bytes result ≡ B.octets (packet_slice self.now) }
    {
        Ipv6View::new_unchecked(self.as_bytes())
    }

    /// The length of the header in bytes, which is always 40.
    pub fn header_len(&self) -> usize
        ensures { result ≡ 40 }
    {
        IPV6_HEADER_LEN
    }

    /// The version, of 4 bits.
    pub fn version(&self) -> u8
        requires { 1 ≤ length (B.octets (packet_slice self.now)) }
        ensures { result ≡ ip_version_of (B.octets (packet_slice self.now)) }
    {
        self.as_bytes()[0] >> 4
    }

    /// The traffic class: the differentiated services code point and the explicit congestion
    /// notification (RFC 8200, section 7).
    pub fn traffic_class(&self) -> u8
        requires { 2 ≤ length (B.octets (packet_slice self.now)) }
        ensures { result ≡ field (B.octets (packet_slice self.now)) 4 8 }
    {
        (NetworkEndian::read_u16(&self.as_bytes()[0..2]) >> 4 & 0xff) as u8
    }

    /// The flow label, of 20 bits (RFC 8200, section 6).
    pub fn flow_label(&self) -> u32
        requires { 4 ≤ length (B.octets (packet_slice self.now)) }
        ensures { result ≡ field (B.octets (packet_slice self.now)) 12 20 }
    {
        NetworkEndian::read_u24(&self.as_bytes()[1..4]) & 0x000f_ffff
    }

    /// The length of the payload in bytes. Extension headers are counted.
    pub fn payload_len(&self) -> u16
        requires { 6 ≤ length (B.octets (packet_slice self.now)) }
        ensures { result ≡ payload_len_of (B.octets (packet_slice self.now)) }
    {
        NetworkEndian::read_u16(&self.as_bytes()[4..6])
    }

    /// The length of the packet in bytes: header and payload.
    pub fn total_len(&self) -> usize
        requires { 6 ≤ length (B.octets (packet_slice self.now)) }
        ensures { result ≡ total_len (B.octets (packet_slice self.now)) }
    {
        IPV6_HEADER_LEN + usize::from(self.payload_len())
    }

    /// The next header: the protocol of the payload, or the type of the first extension header.
    #[inline(always)]
    pub fn next_header(&self) -> IpProtocol
        requires { 7 ≤ length (B.octets (packet_slice self.now)) }
        ensures { result ≡ next_header_of (B.octets (packet_slice self.now)) }
    {
        IpProtocol::from(self.as_bytes()[6])
    }

    /// The hop limit: the number of hops that the packet may still take.
    pub fn hop_limit(&self) -> u8
        requires { 8 ≤ length (B.octets (packet_slice self.now)) }
        ensures { result ≡ hop_limit_of (B.octets (packet_slice self.now)) }
    {
        self.as_bytes()[7]
    }

    /// The source address.
    pub fn src_addr(&self) -> Ipv6Address
        requires { 24 ≤ length (B.octets (packet_slice self.now)) }
        ensures { result ≡ src_addr_of (B.octets (packet_slice self.now)) }
    {
        Ipv6Address::from_octets(array_at(self.as_bytes(), 8))
    }

    /// The destination address.
    pub fn dst_addr(&self) -> Ipv6Address
        requires { 40 ≤ length (B.octets (packet_slice self.now)) }
        ensures { result ≡ dst_addr_of (B.octets (packet_slice self.now)) }
    {
        Ipv6Address::from_octets(array_at(self.as_bytes(), 24))
    }
}

impl<'a> Ipv6Packet<'a> {
    /// A view of bytes that `check_len` accepts, else an error.
    pub fn new_checked(buffer: &'a [u8]) -> Result<Ipv6Packet<'a>>
        ensures ok { IsOk result ↔ HasLengths buffer.now }
        ensures bytes { IfOk result (λ packet. packet_bytes packet ≡ buffer.now) }
    {
        let packet = Ipv6View::new_unchecked(buffer);
        packet.check_len()?;
        Ok(packet)
    }

    /// The payload: the bytes after the header, up to the end of the packet. Later bytes are padding.
    pub fn payload(&self) -> &'a [u8]
        requires { HasLengths (packet_bytes self.now) }
        ensures { result.now ≡ payload_of (packet_bytes self.now) }
    {
        &self.buffer[IPV6_HEADER_LEN..self.total_len()]
    }
}

impl<B: Octets> fmt::Debug for Ipv6View<B> {
    fn fmt<W: fmt::Write>(&self, f: &mut fmt::Formatter<W>) -> fmt::Result {
        debug_view(f, "Ipv6Packet", &self.buffer)
    }
}

impl fmt::Display for Ipv6Packet<'_> {
    ghost output = { λ packet. Some (packet_text (packet_bytes packet)) };

    fn fmt<W: fmt::Write>(&self, f: &mut fmt::Formatter<W>) -> fmt::Result {
        match Ipv6Repr::parse(self) {
            Ok(value) => write!(f, "{value}"),
            Err(error) => write!(f, "IPv6 ({error})"),
        }
    }
}
