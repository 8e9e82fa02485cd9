//! `TcpRepr::emit`.

ghost use Rattle.std.specs.Prelude.{◌≡◌, ◌+◌, ◌≤◌, ◌++◌, [], drop, length};
ghost use Rattle.net_base.specs.Checksum.{computes};
ghost use Rattle.wire_addr.specs.IpAddress.{version_of};
ghost use Rattle.net_base.specs.Field.{with_range};
ghost use Rattle.net_base.specs.Filled.{Fills};
ghost use Rattle.wire_tcp.specs.Tcp.{Becomes, packet_bytes_mut};
ghost use Rattle.wire_tcp_options.specs.TcpItems.{texts};
ghost use Rattle.wire_tcp.specs.TcpFixed.{fixed_bytes};
ghost use Rattle.wire_tcp_options.specs.TcpSeq.{number};
ghost use Rattle.wire_tcp.specs.TcpRepr.{ack_bits, bytes_of, flag_of, header_len_of, header_of, offset_and_flags, option_bytes, sack_items, segment_size_items, timestamp_items, window_scale_items};

use super::{TCP_HEADER_LEN, TcpPacketMut, TcpRepr, for_emit};
use net_base::ChecksumCapabilities;
use wire_addr::IpAddress;
use wire_tcp_options::{TcpControl, TcpOption, TcpSeqNumber, TcpTimestampRepr, count_ranges};

// The flag ACK.
const ACK: u16 = 0x010;

impl TcpRepr<'_> {
    /// Writes the header and the payload. All bytes after them stay. SACK permitted takes the
    /// place of ranges. Ranges are written without gaps, and only with an acknowledgement. If
    /// `caps` asks for a checksum, it covers the whole buffer; else it is 0.
    #[inline(always)]
    pub fn emit(
        &self,
        packet: &mut TcpPacketMut<'_>,
        src_addr: &IpAddress,
        dst_addr: &IpAddress,
        caps: &ChecksumCapabilities,
    )
        requires header_len { header_len_of (header_of self.now) ≤ 60 }
        requires room { header_len_of (header_of self.now) + length self.now.payload.now ≤ length (packet_bytes_mut packet.old) }
        requires family { version_of src_addr.now ≡ version_of dst_addr.now }
        ensures { let v = header_of self.now in let payload = self.now.payload.now in
            let rest = drop (header_len_of v + length payload) (packet_bytes_mut packet.old) in
            Becomes packet.old packet.new (bytes_of v payload src_addr.now dst_addr.now (computes caps.now.tcp) rest ++ rest) }
    {
        let header_len = self.header_len();
        let fixed = self.fixed(header_len);
        for_emit::write_bytes(packet, 0, &fixed);
        self.emit_options(packet, header_len);
        for_emit::write_bytes(packet, header_len, self.payload);
        if caps.tcp.tx() {
            for_emit::write_checksum(packet, &fixed, src_addr, dst_addr);
        }
    }

    /// As `emit`, to the front of `out`, and returns the length of the segment in bytes. Returns `None`
    /// and writes nothing if it does not fit. A checksum covers only the segment.
    #[inline(always)]
    pub fn try_emit(
        &self,
        out: &mut [u8],
        src_addr: &IpAddress,
        dst_addr: &IpAddress,
        caps: &ChecksumCapabilities,
    ) -> Option<usize>
        requires header_len { header_len_of (header_of self.now) ≤ 60 }
        requires family { version_of src_addr.now ≡ version_of dst_addr.now }
        ensures { let v = header_of self.now in let payload = self.now.payload.now in
            let bytes = bytes_of v payload src_addr.now dst_addr.now (computes caps.now.tcp) [] in
            Fills bytes (header_len_of v + length payload) out.old out.new result }
    {
        let len = self.buffer_len();
        let (front, _) = out.split_at_mut_checked(len)?;
        let mut packet = TcpPacketMut::new_unchecked(front);
        self.emit(&mut packet, src_addr, dst_addr, caps);
        Some(len)
    }

    // The first 20 bytes of the header, with 0 as checksum.
    #[inline(always)]
    fn fixed(&self, header_len: usize) -> [u8; TCP_HEADER_LEN]
        requires value { header_len ≡ header_len_of (header_of self.now) }
        requires most { header_len ≤ 60 }
        ensures { let v = header_of self.now in
            result ≡ fixed_bytes v.src_port v.dst_port (number v.seq_number) (ack_bits v) (offset_and_flags v) v.window_len }
    {
        for_emit::fixed(
            self.src_port,
            self.dst_port,
            bits_of(self.seq_number),
            self.ack_bits(),
            self.offset_and_flags(header_len),
            self.window_len,
        )
    }

    // The acknowledgement number, or 0.
    fn ack_bits(&self) -> u32
        ensures { result ≡ ack_bits (header_of self.now) }
    {
        match self.ack_number {
            Some(number) => bits_of(number),
            None => 0,
        }
    }

    // The word that holds the data offset and the flags.
    fn offset_and_flags(&self, header_len: usize) -> u16
        requires value { header_len ≡ header_len_of (header_of self.now) }
        requires most { header_len ≤ 60 }
        ensures { result ≡ offset_and_flags (header_of self.now) }
    {
        let offset = (header_len / 4 * 4096) as u16;
        let ack = if self.ack_number.is_some() { ACK } else { 0 };
        offset + ack + flag_of(self.control)
    }

    // Writes the options, and zeros up to the end of the header.
    #[inline(always)]
    fn emit_options(&self, packet: &mut TcpPacketMut<'_>, header_len: usize)
        requires value { header_len ≡ header_len_of (header_of self.now) }
        requires room { header_len ≤ length (packet_bytes_mut packet.old) }
        ensures { Becomes packet.old packet.new (with_range (packet_bytes_mut packet.old) 20 header_len (option_bytes (header_of self.now))) }
    {
        let sized = self.emit_segment_size(packet, TCP_HEADER_LEN);
        let scaled = self.emit_window_scale(packet, sized);
        let acknowledged = self.emit_sack(packet, scaled);
        let stamped = self.emit_timestamp(packet, acknowledged);
        for_emit::write_zeros(packet, stamped, header_len);
    }

    // Writes the maximum segment size at byte `at`, if there is one, and returns where it ends.
    fn emit_segment_size(&self, packet: &mut TcpPacketMut<'_>, at: usize) -> usize
        requires { at + length (texts (segment_size_items self.now.max_seg_size)) ≤ length (packet_bytes_mut packet.old) }
        ensures end { result ≡ at + length (texts (segment_size_items self.now.max_seg_size)) }
        ensures written { Becomes packet.old packet.new (with_range (packet_bytes_mut packet.old) at result (texts (segment_size_items self.now.max_seg_size))) }
    {
        match self.max_seg_size {
            Some(size) => for_emit::write_option(packet, at, &TcpOption::MaxSegmentSize(size)),
            None => at,
        }
    }

    // Writes the window scale at byte `at`, if there is one, and returns where it ends.
    fn emit_window_scale(&self, packet: &mut TcpPacketMut<'_>, at: usize) -> usize
        requires { at + length (texts (window_scale_items self.now.window_scale)) ≤ length (packet_bytes_mut packet.old) }
        ensures end { result ≡ at + length (texts (window_scale_items self.now.window_scale)) }
        ensures written { Becomes packet.old packet.new (with_range (packet_bytes_mut packet.old) at result (texts (window_scale_items self.now.window_scale))) }
    {
        match self.window_scale {
            Some(scale) => for_emit::write_option(packet, at, &TcpOption::WindowScale(scale)),
            None => at,
        }
    }

    // Writes SACK permitted at byte `at`, or else the ranges if there is an acknowledgement, and
    // returns where they end.
    fn emit_sack(&self, packet: &mut TcpPacketMut<'_>, at: usize) -> usize
        requires { at + length (texts (sack_items (header_of self.now))) ≤ length (packet_bytes_mut packet.old) }
        ensures end { result ≡ at + length (texts (sack_items (header_of self.now))) }
        ensures written { Becomes packet.old packet.new (with_range (packet_bytes_mut packet.old) at result (texts (sack_items (header_of self.now)))) }
    {
        if self.sack_permitted {
            for_emit::write_option(packet, at, &TcpOption::SackPermitted)
        } else if self.ack_number.is_some() && count_ranges(&self.sack_ranges) != 0 {
            let ranges = self.sack_ranges;
            for_emit::write_option(packet, at, &TcpOption::SackRange(ranges))
        } else {
            at
        }
    }

    // Writes the timestamp at byte `at`, if there is one, and returns where it ends.
    fn emit_timestamp(&self, packet: &mut TcpPacketMut<'_>, at: usize) -> usize
        requires { at + length (texts (timestamp_items self.now.timestamp)) ≤ length (packet_bytes_mut packet.old) }
        ensures end { result ≡ at + length (texts (timestamp_items self.now.timestamp)) }
        ensures written { Becomes packet.old packet.new (with_range (packet_bytes_mut packet.old) at result (texts (timestamp_items self.now.timestamp))) }
    {
        match self.timestamp {
            Some(TcpTimestampRepr { tsval, tsecr }) => {
                for_emit::write_option(packet, at, &TcpOption::TimeStamp { tsval, tsecr })
            }
            None => at,
        }
    }
}

// The sequence number as a `u32`.
fn bits_of(seq: TcpSeqNumber) -> u32
    ensures { result ≡ number seq }
{
    seq.0.cast_unsigned()
}

// The flag of a control.
fn flag_of(control: TcpControl) -> u16
    ensures { result ≡ flag_of control }
{
    match control {
        TcpControl::None => 0x000,
        TcpControl::Fin => 0x001,
        TcpControl::Syn => 0x002,
        TcpControl::Rst => 0x004,
        TcpControl::Psh => 0x008,
    }
}
