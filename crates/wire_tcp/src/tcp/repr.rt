//! `TcpRepr`, the values of a TCP segment.

ghost use Rattle.std.specs.Prelude.{◌≡◌, ◌↔◌, ◌+◌, ◌^◌, ◌<◌, ◌≤◌, [], IfOk, IsTrue, OnErr, OnOk, length};
ghost use Rattle.std.specs.Option.{option_map};
ghost use Rattle.std.specs.Result.{result_ok};
ghost use Rattle.net_base.specs.Checksum.{verifies};
ghost use Rattle.wire_addr.specs.IpAddress.{version_of};
ghost use Rattle.wire_tcp.specs.Tcp.{HasLengths, header_len, packet_bytes};
ghost use Rattle.wire_tcp_options.specs.TcpSeq.{control_len};
ghost use Rattle.wire_tcp.specs.TcpRepr.{HasControl, HasNoControl, HasNoReading, IsQuiet, Reads, ack_number_of, header_len_of, header_of, tcp_of};

use super::{TCP_HEADER_LEN, TcpPacket};
use net_base::{ChecksumCapabilities, Error, Result};
use wire_addr::IpAddress;
use wire_tcp_options::{SACK_BLOCKS, TcpControl, TcpSeqNumber, TcpTimestampRepr, count_ranges};

// The largest window scale (RFC 7323, section 2.3).
const MAX_WINDOW_SCALE: u8 = 14;

/// The values of a segment that upper layers need. There is no urgent pointer, and at most one flag
/// beside ACK.
#[derive(Debug, PartialEq, Eq, Clone, Copy)]
pub struct TcpRepr<'a> {
    pub src_port: u16,
    pub dst_port: u16,
    pub control: TcpControl,
    /// The sequence number of the first byte of the payload, or of SYN.
    pub seq_number: TcpSeqNumber,
    /// The sequence number that the sender expects next.
    pub ack_number: Option<TcpSeqNumber>,
    /// The receive window of the sender in bytes, before scaling.
    pub window_len: u16,
    /// The number of bits by which windows are shifted.
    pub window_scale: Option<u8>,
    /// The largest segment that the sender accepts, in bytes.
    pub max_seg_size: Option<u16>,
    /// The sender accepts selective acknowledgements.
    pub sack_permitted: bool,
    /// The first SACK blocks, each from its left edge up to, but without, its right edge.
    pub sack_ranges: [Option<(u32, u32)>; SACK_BLOCKS],
    pub timestamp: Option<TcpTimestampRepr>,
    pub payload: &'a [u8],
}

impl<'a> TcpRepr<'a> {
    /// Parses a segment. Rejects what `check_len` rejects, a port of 0, more than one of SYN, FIN
    /// and RST, a malformed option before the end of the list, and a wrong checksum if `caps` asks
    /// to verify it. Of each kind the last option counts. A window scale above 14 becomes 14. All
    /// other flags are ignored.
    #[inline(always)]
    pub fn parse(
        packet: &TcpPacket<'a>,
        src_addr: &IpAddress,
        dst_addr: &IpAddress,
        caps: &ChecksumCapabilities,
    ) -> Result<TcpRepr<'a>>
        requires { version_of src_addr.now ≡ version_of dst_addr.now }
        ensures ok { let bytes = packet_bytes packet.now in
            IfOk result (λ v. Reads bytes src_addr.now dst_addr.now (verifies caps.now.tcp) (header_of v) v.payload.now) }
        ensures err { OnErr result (HasNoReading (packet_bytes packet.now) src_addr.now dst_addr.now (verifies caps.now.tcp)) }
        ensures value { tcp_of src_addr.now dst_addr.now (verifies caps.now.tcp) (packet_bytes packet.now) ≡ option_map header_of (result_ok result) }
        ensures lengths { OnOk result (HasLengths (packet_bytes packet.now)) }
        ensures room { IfOk result (λ v. header_len_of (header_of v) ≤ header_len (packet_bytes packet.now)) }
    {
        packet.check_len()?;
        let (src_port, dst_port) = (packet.src_port(), packet.dst_port());
        if src_port == 0 || dst_port == 0 {
            return Err(Error);
        }
        let control = control_of(packet)?;
        if caps.tcp.rx() && !packet.verify_checksum(src_addr, dst_addr) {
            return Err(Error);
        }
        let options = packet.options_summary()?;
        let sack_ranges = options.sack_ranges;
        Ok(TcpRepr {
            src_port,
            dst_port,
            control,
            seq_number: packet.seq_number(),
            ack_number: ack_number_of(packet),
            window_len: packet.window_len(),
            window_scale: options
                .window_scale
                .map(|scale| scale.min(MAX_WINDOW_SCALE)),
            max_seg_size: options.max_segment_size,
            sack_permitted: options.sack_permitted,
            sack_ranges,
            timestamp: options
                .timestamp
                .map(|(tsval, tsecr)| TcpTimestampRepr { tsval, tsecr }),
            payload: packet.payload(),
        })
    }

    /// The length of the emitted header in bytes. Ranges count even if `emit` leaves them out:
    /// beside `sack_permitted`, or without an acknowledgement.
    #[inline(always)]
    pub fn header_len(&self) -> usize
        ensures { result ≡ header_len_of (header_of self.now) }
    {
        let mut len = TCP_HEADER_LEN;
        if self.max_seg_size.is_some() {
            len += 4;
        }
        if self.window_scale.is_some() {
            len += 3;
        }
        if self.sack_permitted {
            len += 2;
        }
        let ranges = count_ranges(&self.sack_ranges);
        if ranges != 0 {
            len += 2 + 8 * ranges;
        }
        if self.timestamp.is_some() {
            len += 10;
        }
        len.next_multiple_of(4)
    }

    /// The length of the emitted segment in bytes.
    #[inline(always)]
    pub fn buffer_len(&self) -> usize
        requires { header_len_of (header_of self.now) + length self.now.payload.now < 2 ^ 64 }
        ensures { result ≡ header_len_of (header_of self.now) + length self.now.payload.now }
    {
        self.header_len() + self.payload.len()
    }

    /// The number of sequence numbers that the segment uses: one for each byte of its payload, for
    /// SYN and for FIN.
    pub fn segment_len(&self) -> usize
        requires { length self.now.payload.now + control_len self.now.control < 2 ^ 64 }
        ensures { result ≡ length self.now.payload.now + control_len self.now.control }
    {
        self.payload.len() + self.control.len()
    }

    /// Returns `true` if the segment has no payload, and no control flag except PSH.
    pub fn is_empty(&self) -> bool
        ensures { IsTrue result ↔ ((self.now.payload.now ≡ []) × IsQuiet self.now.control) }
    {
        match self.control {
            TcpControl::None | TcpControl::Psh => self.payload.is_empty(),
            TcpControl::Syn | TcpControl::Fin | TcpControl::Rst => false,
        }
    }
}

// The control flag. Fails if more than one of SYN, FIN and RST is set.
#[inline(always)]
fn control_of(packet: &TcpPacket<'_>) -> Result<TcpControl>
    requires { 14 ≤ length (packet_bytes packet.now) }
    ensures ok { IfOk result (HasControl (packet_bytes packet.now)) }
    ensures err { OnErr result (HasNoControl (packet_bytes packet.now)) }
{
    match (packet.rst(), packet.syn(), packet.fin()) {
        (false, false, false) if packet.psh() => Ok(TcpControl::Psh),
        (false, false, false) => Ok(TcpControl::None),
        (true, false, false) => Ok(TcpControl::Rst),
        (false, true, false) => Ok(TcpControl::Syn),
        (false, false, true) => Ok(TcpControl::Fin),
        _ => Err(Error),
    }
}

// The acknowledgement number, if ACK is set.
fn ack_number_of(packet: &TcpPacket<'_>) -> Option<TcpSeqNumber>
    requires { 14 ≤ length (packet_bytes packet.now) }
    ensures { result ≡ ack_number_of (packet_bytes packet.now) }
{
    if packet.ack() {
        Some(packet.ack_number())
    } else {
        None
    }
}
