//! Views of IPv4 packets, and their getters.

ghost use Rattle.std.specs.Prelude.{◌≡◌, ◌↔◌, ◌≤◌, IfOk, IsOk, IsTrue, Some, length, slice_range, take};
ghost use Rattle.net_base.specs.Field.{field};
ghost use Rattle.wire_ipv4.specs.Ipv4.{HasLengths, checksum_of, dont_frag_of, dscp_of, dst_addr_of, ecn_of, fragment_offset, header_len, hop_limit_of, ident_of, ip_version_of, is_fragment, key_of, more_frags_of, next_header_of, packet_bytes, packet_slice, src_addr_of, total_len};
ghost use Rattle.wire_ipv4.specs.Ipv4Text.{packet_text};
ghost use Rattle.wire_checksum.specs.WordSum.{sum_of_bytes};

use super::text::write_fields;
use super::{IPV4_HEADER_LEN, Ipv4FragKey, Ipv4Repr};
use byteorder::{ByteOrder, NetworkEndian};
use net_base::{ChecksumCapabilities, Error, Octets, Result, array_at, debug_view, is_bit_set};
use std::fmt;
use wire_addr::{IpProtocol, Ipv4Address};
use wire_checksum::checksum;

/// A view of a borrowed IPv4 packet. A call requires only the bytes that it uses.
#[derive(Clone, Copy, PartialEq, Eq, Drop)]
pub struct Ipv4View<B> {
    pub(super) buffer: B,
}

/// A reading view.
pub type Ipv4Packet<'a> = Ipv4View<&'a [u8]>;

/// A mutable view.
pub type Ipv4PacketMut<'a> = Ipv4View<&'a mut [u8]>;

impl<B: Octets> Ipv4View<B> {
    /// A view of any bytes. Nothing is checked.
    pub fn new_unchecked(buffer: B) -> Ipv4View<B>
        ensures { packet_slice result ≡ buffer }
    {
        Ipv4View { buffer }
    }

    /// Checks the lengths: the header length is at least 20, the total length at least that, and the
    /// bytes hold the whole packet. After `Ok` every call of this view may be made, until the header
    /// length or the total length is written.
    pub fn check_len(&self) -> Result<()>
        ensures { IsOk result ↔ HasLengths (B.octets (packet_slice self.now)) }
    {
        let len = self.as_bytes().len();
        if len < IPV4_HEADER_LEN {
            return Err(Error);
        }
        let header_len = usize::from(self.header_len());
        let total_len = usize::from(self.total_len());
        if header_len < IPV4_HEADER_LEN || total_len < header_len || len < total_len {
            return Err(Error);
        }
        Ok(())
    }

    /// The borrowed slice, with its own lifetime.
    pub fn into_inner(self) -> B
        ensures { result ≡ packet_slice self }
    {
        self.buffer
    }

    /// The bytes under the view.
    pub fn as_bytes(&self) -> &[u8]
        ensures { result.now ≡ B.octets (packet_slice self.now) }
    {
        self.buffer.octets()
    }

    /// A reading view of the same bytes.
    pub fn as_view(&self) -> Ipv4Packet<'_>
        ensures { packet_bytes result ≡ B.octets (packet_slice self.now) }
    {
        Ipv4View::new_unchecked(self.as_bytes())
    }

    /// The version, of 4 bits.
    pub fn version(&self) -> u8
        requires { 1 ≤ length (B.octets (packet_slice self.now)) }
        ensures { result ≡ ip_version_of (B.octets (packet_slice self.now)) }
    {
        self.as_bytes()[0] >> 4
    }

    /// The length of the header in bytes: a multiple of 4, at most 60.
    pub fn header_len(&self) -> u8
        requires { 1 ≤ length (B.octets (packet_slice self.now)) }
        ensures { result ≡ header_len (B.octets (packet_slice self.now)) }
    {
        (self.as_bytes()[0] & 0x0f) * 4
    }

    /// The differentiated services code point, of 6 bits (RFC 2474, section 3).
    pub fn dscp(&self) -> u8
        requires { 2 ≤ length (B.octets (packet_slice self.now)) }
        ensures { result ≡ dscp_of (B.octets (packet_slice self.now)) }
    {
        self.as_bytes()[1] >> 2
    }

    /// The explicit congestion notification, of 2 bits (RFC 3168, section 5).
    pub fn ecn(&self) -> u8
        requires { 2 ≤ length (B.octets (packet_slice self.now)) }
        ensures { result ≡ ecn_of (B.octets (packet_slice self.now)) }
    {
        self.as_bytes()[1] & 0x03
    }

    /// The total length in bytes: header and payload.
    pub fn total_len(&self) -> u16
        requires { 4 ≤ length (B.octets (packet_slice self.now)) }
        ensures { result ≡ total_len (B.octets (packet_slice self.now)) }
    {
        NetworkEndian::read_u16(&self.as_bytes()[2..4])
    }

    /// The identification, which all fragments of a packet share.
    pub fn ident(&self) -> u16
        requires { 6 ≤ length (B.octets (packet_slice self.now)) }
        ensures { result ≡ ident_of (B.octets (packet_slice self.now)) }
    {
        NetworkEndian::read_u16(&self.as_bytes()[4..6])
    }

    /// Returns `true` if the flag DF (don't fragment) is set.
    pub fn dont_frag(&self) -> bool
        requires { 7 ≤ length (B.octets (packet_slice self.now)) }
        ensures { IsTrue result ↔ (dont_frag_of (B.octets (packet_slice self.now)) ≡ 1) }
    {
        is_bit_set(self.as_bytes(), 49)
    }

    /// Returns `true` if the flag MF (more fragments) is set.
    pub fn more_frags(&self) -> bool
        requires { 7 ≤ length (B.octets (packet_slice self.now)) }
        ensures { IsTrue result ↔ (more_frags_of (B.octets (packet_slice self.now)) ≡ 1) }
    {
        is_bit_set(self.as_bytes(), 50)
    }

    /// The fragment offset in bytes: a multiple of 8.
    pub fn frag_offset(&self) -> u16
        requires { 8 ≤ length (B.octets (packet_slice self.now)) }
        ensures { result ≡ fragment_offset (B.octets (packet_slice self.now)) }
    {
        NetworkEndian::read_u16(&self.as_bytes()[6..8]) << 3
    }

    /// Returns `true` if the packet is a fragment: the flag MF is set, or the fragment offset is
    /// not 0 (RFC 791, section 3.2).
    pub fn is_fragment(&self) -> bool
        requires { 8 ≤ length (B.octets (packet_slice self.now)) }
        ensures { result ≡ is_fragment (B.octets (packet_slice self.now)) }
    {
        self.more_frags() | (self.frag_offset() != 0)
    }

    /// The hop limit: the number of hops that the packet may still take (the field "time to live").
    pub fn hop_limit(&self) -> u8
        requires { 9 ≤ length (B.octets (packet_slice self.now)) }
        ensures { result ≡ hop_limit_of (B.octets (packet_slice self.now)) }
    {
        self.as_bytes()[8]
    }

    /// The protocol of the payload.
    #[inline(always)]
    pub fn next_header(&self) -> IpProtocol
        requires { 10 ≤ length (B.octets (packet_slice self.now)) }
        ensures { result ≡ next_header_of (B.octets (packet_slice self.now)) }
    {
        IpProtocol::from(self.as_bytes()[9])
    }

    /// The checksum field, of the header only.
    pub fn checksum(&self) -> u16
        requires { 12 ≤ length (B.octets (packet_slice self.now)) }
        ensures { result ≡ checksum_of (B.octets (packet_slice self.now)) }
    {
        NetworkEndian::read_u16(&self.as_bytes()[10..12])
    }

    /// The source address.
    pub fn src_addr(&self) -> Ipv4Address
        requires { 16 ≤ length (B.octets (packet_slice self.now)) }
        ensures { result ≡ src_addr_of (B.octets (packet_slice self.now)) }
    {
        Ipv4Address::from_octets(array_at(self.as_bytes(), 12))
    }

    /// The destination address.
    pub fn dst_addr(&self) -> Ipv4Address
        requires { 20 ≤ length (B.octets (packet_slice self.now)) }
        ensures { result ≡ dst_addr_of (B.octets (packet_slice self.now)) }
    {
        Ipv4Address::from_octets(array_at(self.as_bytes(), 16))
    }

    /// The key of a fragment: the values that all fragments of the packet have in common.
    pub fn get_key(&self) -> Ipv4FragKey
        requires { 20 ≤ length (B.octets (packet_slice self.now)) }
        ensures { result ≡ key_of (B.octets (packet_slice self.now)) }
    {
        Ipv4FragKey {
            id: self.ident(),
            src_addr: self.src_addr(),
            dst_addr: self.dst_addr(),
            protocol: self.next_header(),
        }
    }

    /// Returns `true` if the header checksum is valid: the sum of the header is 0xffff.
    pub fn verify_checksum(&self) -> bool
        requires field { 1 ≤ length (B.octets (packet_slice self.now)) }
        requires header { header_len (B.octets (packet_slice self.now)) ≤ length (B.octets (packet_slice self.now)) }
        ensures { let bytes = B.octets (packet_slice self.now) in
            IsTrue result ↔ (sum_of_bytes (take (header_len bytes) bytes) ≡ 65535) }
    {
        let header_len = usize::from(self.header_len());
        checksum::data(&self.as_bytes()[..header_len]) == 0xffff
    }
}

impl<'a> Ipv4Packet<'a> {
    /// A view of bytes that `check_len` accepts, else an error.
    pub fn new_checked(buffer: &'a [u8]) -> Result<Ipv4Packet<'a>>
        ensures ok { IsOk result ↔ HasLengths buffer.now }
        ensures bytes { IfOk result (λ packet. packet_bytes packet ≡ buffer.now) }
    {
        let packet = Ipv4View::new_unchecked(buffer);
        packet.check_len()?;
        Ok(packet)
    }

    /// The payload: the bytes after the header, up to the total length. Later bytes are padding.
    pub fn payload(&self) -> &'a [u8]
        requires fields { 4 ≤ length (packet_bytes self.now) }
        requires begins { header_len (packet_bytes self.now) ≤ total_len (packet_bytes self.now) }
        requires ends { total_len (packet_bytes self.now) ≤ length (packet_bytes self.now) }
        ensures { let bytes = packet_bytes self.now in
            result.now ≡ slice_range bytes (header_len bytes) (total_len bytes) }
    {
        let header_len = usize::from(self.header_len());
        let total_len = usize::from(self.total_len());
        &self.buffer[header_len..total_len]
    }
}

impl<B: Octets> fmt::Debug for Ipv4View<B> {
    fn fmt<W: fmt::Write>(&self, f: &mut fmt::Formatter<W>) -> fmt::Result {
        debug_view(f, "Ipv4Packet", &self.buffer)
    }
}

impl fmt::Display for Ipv4Packet<'_> {
    ghost output = { λ packet. Some (packet_text (packet_bytes packet)) };

    fn fmt<W: fmt::Write>(&self, f: &mut fmt::Formatter<W>) -> fmt::Result {
        match Ipv4Repr::parse(self, &ChecksumCapabilities::ignored()) {
            Ok(value) => write!(f, "{value}"),
            Err(error) => {
                write!(f, "IPv4 ({error})")?;
                write_fields(self, f)
            }
        }
    }
}
