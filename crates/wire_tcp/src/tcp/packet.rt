//! Views of TCP segments, and their getters.

ghost use Rattle.std.specs.Prelude.{◌≡◌, ◌↔◌, ◌≤◌, [], IfOk, IsOk, IsTrue, OnErr, false, length, true};
ghost use Rattle.wire_addr.specs.IpAddress.{version_of};
ghost use Rattle.net_base.specs.Field.{field};
ghost use Rattle.wire_tcp.specs.Tcp.{HasLengths, Verifies, ack_bits_of, ack_of, checksum_of, cwr_of, dst_port_of, ece_of, fin_of, header_len, ns_of, options_of, packet_bytes, packet_slice, payload_of, pseudo_header_sum, psh_of, rst_of, segment_len, seq_bits_of, src_port_of, syn_of, urg_of, urgent_at_of, window_len_of};
ghost use Rattle.wire_tcp_options.specs.TcpItems.{first_blocks};
ghost use Rattle.wire_tcp_options.specs.TcpSeq.{number};
ghost use Rattle.wire_tcp_options.specs.TcpSummary.{HasNoList, Summarizes};
ghost use Rattle.wire_tcp_options.specs.TcpWalk.{Answers};

use super::TCP_HEADER_LEN;
use byteorder::{ByteOrder, NetworkEndian};
use net_base::{Error, Octets, Result, debug_view, is_bit_set};
use std::fmt;
use wire_addr::{IpAddress, IpProtocol};
use wire_checksum::checksum;
use wire_tcp_options::{SACK_BLOCKS, TcpOptionSummary, TcpSeqNumber, summarize, walk};

/// A view of a borrowed TCP segment. A call requires only the bytes that it uses.
#[derive(Clone, Copy, PartialEq, Eq, Drop)]
pub struct TcpView<B> {
    pub(super) buffer: B,
}

/// A reading view.
pub type TcpPacket<'a> = TcpView<&'a [u8]>;

/// A mutable view.
pub type TcpPacketMut<'a> = TcpView<&'a mut [u8]>;

impl<B: Octets> TcpView<B> {
    /// A view of any bytes. Nothing is checked.
    pub fn new_unchecked(buffer: B) -> TcpView<B>
        ensures { packet_slice result ≡ buffer }
    {
        TcpView { buffer }
    }

    /// Checks the data offset: the header has at least 20 bytes, and the slice contains all of it.
    /// After `Ok` every call of this view may be made, until the header length is written.
    pub fn check_len(&self) -> Result<()>
        ensures { IsOk result ↔ HasLengths (B.octets (packet_slice self.now)) }
    {
        let len = self.as_bytes().len();
        if len < TCP_HEADER_LEN {
            return Err(Error);
        }
        let header_len = usize::from(self.header_len());
        if header_len < TCP_HEADER_LEN || len < header_len {
            return Err(Error);
        }
        Ok(())
    }

    /// The borrowed slice, with its own lifetime.
    pub fn into_inner(self) -> B
        ensures { result ≡ packet_slice self }
    {
        self.buffer
    }

    /// The bytes under the view.
    pub fn as_bytes(&self) -> &[u8]
        ensures { result.now ≡ B.octets (packet_slice self.now) }
    {
        self.buffer.octets()
    }

    /// A reading view of the same bytes.
    pub fn as_view(&self) -> TcpPacket<'_>
        ensures { packet_bytes result ≡ B.octets (packet_slice self.now) }
    {
        TcpView::new_unchecked(self.as_bytes())
    }

    /// The source port.
    pub fn src_port(&self) -> u16
        requires { 2 ≤ length (B.octets (packet_slice self.now)) }
        ensures { result ≡ src_port_of (B.octets (packet_slice self.now)) }
    {
        NetworkEndian::read_u16(&self.as_bytes()[0..2])
    }

    /// The destination port.
    pub fn dst_port(&self) -> u16
        requires { 4 ≤ length (B.octets (packet_slice self.now)) }
        ensures { result ≡ dst_port_of (B.octets (packet_slice self.now)) }
    {
        NetworkEndian::read_u16(&self.as_bytes()[2..4])
    }

    /// The sequence number of the first byte of the payload, or of SYN.
    pub fn seq_number(&self) -> TcpSeqNumber
        requires { 8 ≤ length (B.octets (packet_slice self.now)) }
        ensures { number result ≡ seq_bits_of (B.octets (packet_slice self.now)) }
    {
        seq_number_of(NetworkEndian::read_u32(&self.as_bytes()[4..8]))
    }

    /// The sequence number that the sender expects next. It is valid if ACK is set.
    pub fn ack_number(&self) -> TcpSeqNumber
        requires { 12 ≤ length (B.octets (packet_slice self.now)) }
        ensures { number result ≡ ack_bits_of (B.octets (packet_slice self.now)) }
    {
        seq_number_of(NetworkEndian::read_u32(&self.as_bytes()[8..12]))
    }

    /// The length of the header in bytes: 4 times the data offset, so at most 60.
    pub fn header_len(&self) -> u8
        requires { 13 ≤ length (B.octets (packet_slice self.now)) }
        ensures { result ≡ header_len (B.octets (packet_slice self.now)) }
    {
        (self.as_bytes()[12] >> 4) * 4
    }

    /// NS, the nonce sum that protects congestion notifications (RFC 3540).
    pub fn ns(&self) -> bool
        requires { 13 ≤ length (B.octets (packet_slice self.now)) }
        ensures { IsTrue result ↔ (ns_of (B.octets (packet_slice self.now)) ≡ 1) }
    {
        is_bit_set(self.as_bytes(), 103)
    }

    /// CWR: congestion window reduced (RFC 3168).
    pub fn cwr(&self) -> bool
        requires { 14 ≤ length (B.octets (packet_slice self.now)) }
        ensures { IsTrue result ↔ (cwr_of (B.octets (packet_slice self.now)) ≡ 1) }
    {
        is_bit_set(self.as_bytes(), 104)
    }

    /// ECE: the echo of a congestion notification (RFC 3168).
    pub fn ece(&self) -> bool
        requires { 14 ≤ length (B.octets (packet_slice self.now)) }
        ensures { IsTrue result ↔ (ece_of (B.octets (packet_slice self.now)) ≡ 1) }
    {
        is_bit_set(self.as_bytes(), 105)
    }

    /// URG: the urgent pointer is valid.
    pub fn urg(&self) -> bool
        requires { 14 ≤ length (B.octets (packet_slice self.now)) }
        ensures { IsTrue result ↔ (urg_of (B.octets (packet_slice self.now)) ≡ 1) }
    {
        is_bit_set(self.as_bytes(), 106)
    }

    /// ACK: the acknowledgement number is valid.
    pub fn ack(&self) -> bool
        requires { 14 ≤ length (B.octets (packet_slice self.now)) }
        ensures { IsTrue result ↔ (ack_of (B.octets (packet_slice self.now)) ≡ 1) }
    {
        is_bit_set(self.as_bytes(), 107)
    }

    /// PSH: the receiver passes the data on at once.
    pub fn psh(&self) -> bool
        requires { 14 ≤ length (B.octets (packet_slice self.now)) }
        ensures { IsTrue result ↔ (psh_of (B.octets (packet_slice self.now)) ≡ 1) }
    {
        is_bit_set(self.as_bytes(), 108)
    }

    /// RST: reset the connection.
    pub fn rst(&self) -> bool
        requires { 14 ≤ length (B.octets (packet_slice self.now)) }
        ensures { IsTrue result ↔ (rst_of (B.octets (packet_slice self.now)) ≡ 1) }
    {
        is_bit_set(self.as_bytes(), 109)
    }

    /// SYN: synchronize sequence numbers.
    pub fn syn(&self) -> bool
        requires { 14 ≤ length (B.octets (packet_slice self.now)) }
        ensures { IsTrue result ↔ (syn_of (B.octets (packet_slice self.now)) ≡ 1) }
    {
        is_bit_set(self.as_bytes(), 110)
    }

    /// FIN: no more data from the sender.
    pub fn fin(&self) -> bool
        requires { 14 ≤ length (B.octets (packet_slice self.now)) }
        ensures { IsTrue result ↔ (fin_of (B.octets (packet_slice self.now)) ≡ 1) }
    {
        is_bit_set(self.as_bytes(), 111)
    }

    /// The receive window of the sender in bytes, before scaling.
    pub fn window_len(&self) -> u16
        requires { 16 ≤ length (B.octets (packet_slice self.now)) }
        ensures { result ≡ window_len_of (B.octets (packet_slice self.now)) }
    {
        NetworkEndian::read_u16(&self.as_bytes()[14..16])
    }

    /// The checksum field.
    pub fn checksum(&self) -> u16
        requires { 18 ≤ length (B.octets (packet_slice self.now)) }
        ensures { result ≡ checksum_of (B.octets (packet_slice self.now)) }
    {
        NetworkEndian::read_u16(&self.as_bytes()[16..18])
    }

    /// The urgent pointer: the distance from the sequence number to the end of the urgent data.
    pub fn urgent_at(&self) -> u16
        requires { 20 ≤ length (B.octets (packet_slice self.now)) }
        ensures { result ≡ urgent_at_of (B.octets (packet_slice self.now)) }
    {
        NetworkEndian::read_u16(&self.as_bytes()[18..20])
    }

    /// The number of sequence numbers that the segment uses: one for each byte of its payload, for
    /// SYN and for FIN.
    pub fn segment_len(&self) -> usize
        requires fields { 14 ≤ length (B.octets (packet_slice self.now)) }
        requires header { let bytes = B.octets (packet_slice self.now) in header_len bytes ≤ length bytes }
        ensures { result ≡ segment_len (B.octets (packet_slice self.now)) }
    {
        let payload_len = self.as_bytes().len() - usize::from(self.header_len());
        payload_len + usize::from(self.syn()) + usize::from(self.fin())
    }

    /// Returns `true` if an option permits SACK, also past the end of the list. Fails if a
    /// malformed option comes before such an option.
    pub fn selective_ack_permitted(&self) -> Result<bool>
        requires begins { 20 ≤ header_len (B.octets (packet_slice self.now)) }
        requires ends { let bytes = B.octets (packet_slice self.now) in header_len bytes ≤ length bytes }
        ensures { Answers (options_of (B.octets (packet_slice self.now))) 4 (λ i. true) false result }
    {
        walk::sack_permitted(self.option_bytes())
    }

    /// The ranges of the first SACK option, also past the end of the list, or no ranges. Fails if
    /// a malformed option comes before such an option.
    pub fn selective_ack_ranges(&self) -> Result<[Option<(u32, u32)>; SACK_BLOCKS]>
        requires begins { 20 ≤ header_len (B.octets (packet_slice self.now)) }
        requires ends { let bytes = B.octets (packet_slice self.now) in header_len bytes ≤ length bytes }
        ensures { let options = options_of (B.octets (packet_slice self.now)) in
            Answers options 5 (λ i. first_blocks i.content) (first_blocks []) result }
    {
        walk::sack_ranges(self.option_bytes())
    }

    /// The values of all options up to the end of the list. Fails if one of them is malformed.
    #[inline(always)]
    pub fn options_summary(&self) -> Result<TcpOptionSummary>
        requires begins { 20 ≤ header_len (B.octets (packet_slice self.now)) }
        requires ends { let bytes = B.octets (packet_slice self.now) in header_len bytes ≤ length bytes }
        ensures ok { IfOk result (Summarizes (options_of (B.octets (packet_slice self.now)))) }
        ensures err { OnErr result (HasNoList (options_of (B.octets (packet_slice self.now)))) }
    {
        summarize(self.option_bytes())
    }

    // The bytes of the options.
    pub(super) fn option_bytes(&self) -> &[u8]
        requires begins { 20 ≤ header_len (B.octets (packet_slice self.now)) }
        requires ends { let bytes = B.octets (packet_slice self.now) in header_len bytes ≤ length bytes }
        ensures { result.now ≡ options_of (B.octets (packet_slice self.now)) }
    {
        &self.as_bytes()[TCP_HEADER_LEN..usize::from(self.header_len())]
    }

    /// Returns `true` if the checksum field holds only the sum of the pseudo-header. The device
    /// then adds the rest (checksum offload).
    pub fn verify_partial_checksum(&self, src_addr: &IpAddress, dst_addr: &IpAddress) -> bool
        requires header { 18 ≤ length (B.octets (packet_slice self.now)) }
        requires family { version_of src_addr.now ≡ version_of dst_addr.now }
        ensures { let bytes = B.octets (packet_slice self.now) in
            IsTrue result ↔ (checksum_of bytes ≡ pseudo_header_sum src_addr.now dst_addr.now bytes) }
    {
        let len = (self.as_bytes().len() % (1 << 16)) as u32;
        self.checksum() == checksum::pseudo_header(src_addr, dst_addr, IpProtocol::Tcp, len)
    }

    /// Returns `true` if the checksum is correct: the sum of pseudo-header and segment is 0xffff.
    #[inline(always)]
    pub fn verify_checksum(&self, src_addr: &IpAddress, dst_addr: &IpAddress) -> bool
        requires { version_of src_addr.now ≡ version_of dst_addr.now }
        ensures { let bytes = B.octets (packet_slice self.now) in
            IsTrue result ↔ Verifies src_addr.now dst_addr.now bytes }
    {
        checksum::packet(*src_addr, *dst_addr, IpProtocol::Tcp, self.as_bytes()) == 0xffff
    }
}

impl<'a> TcpPacket<'a> {
    /// A view of bytes that `check_len` accepts, else an error.
    pub fn new_checked(buffer: &'a [u8]) -> Result<TcpPacket<'a>>
        ensures ok { IsOk result ↔ HasLengths buffer.now }
        ensures bytes { IfOk result (λ packet. packet_bytes packet ≡ buffer.now) }
    {
        let packet = TcpView::new_unchecked(buffer);
        packet.check_len()?;
        Ok(packet)
    }

    /// The bytes of the options, up to the end of the header.
    pub fn options(&self) -> &'a [u8]
        requires begins { 20 ≤ header_len (packet_bytes self.now) }
        requires ends { header_len (packet_bytes self.now) ≤ length (packet_bytes self.now) }
        ensures { result.now ≡ options_of (packet_bytes self.now) }
    {
        &self.buffer[TCP_HEADER_LEN..usize::from(self.header_len())]
    }

    /// The payload: all bytes after the header.
    pub fn payload(&self) -> &'a [u8]
        requires field { 13 ≤ length (packet_bytes self.now) }
        requires begins { header_len (packet_bytes self.now) ≤ length (packet_bytes self.now) }
        ensures { result.now ≡ payload_of (packet_bytes self.now) }
    {
        &self.buffer[usize::from(self.header_len())..]
    }
}

impl<B: Octets> fmt::Debug for TcpView<B> {
    fn fmt<W: fmt::Write>(&self, f: &mut fmt::Formatter<W>) -> fmt::Result {
        debug_view(f, "TcpPacket", &self.buffer)
    }
}

// The sequence number with these bits.
fn seq_number_of(bits: u32) -> TcpSeqNumber
    ensures { number result ≡ bits }
{
    TcpSeqNumber(bits.cast_signed())
}
