//! The values of ICMP messages.

ghost use Rattle.std.specs.Prelude.{◌≡◌, ◌↔◌, ◌≤◌, ◌+◌, ◌++◌, Ok, OnOk, Some, drop, length};
ghost use Rattle.std.specs.Result.{result_ok};
ghost use Rattle.net_base.specs.Checksum.{computes, verifies};
ghost use Rattle.wire_addr.specs.IpAddress.{version_of};
ghost use Rattle.net_base.specs.Filled.{Fills};
ghost use Rattle.wire_icmp.specs.Icmp.{Becomes, HasHeader, IsNormal, Reads, bytes_of, choice_of, code_of, header_of, icmp_of, is_error, message_of, packet_bytes, packet_bytes_mut, payload_of, type_of, word_of};
ghost use Rattle.wire_icmp.specs.IcmpText.{value_text};
ghost use Rattle.wire_icmp.specs.declared.icmp.repr.IcmpRepr.{IcmpRepr};

use super::{
    Exceeded, ICMP_HEADER_LEN, IcmpHeader, IcmpPacket, IcmpPacketMut, Unreachable, choice_of,
};
use net_base::{ChecksumCapabilities, Error, Result};
use std::fmt;
use wire_addr::{IpAddress, IpVersion};

/// A message without its payload. The payload of an echo is its data, that of an error is the front of
/// the packet that it is about.
#[derive(Debug, Clone, Copy, PartialEq, Eq)]
pub enum IcmpRepr {
    EchoRequest { ident: u16, seq_no: u16 },
    EchoReply { ident: u16, seq_no: u16 },
    DstUnreachable { reason: Unreachable },
    /// The packet is longer than the MTU of the next network, which is in bytes. Over IPv4 it has 16
    /// bits, and is 0 from a router that does not tell it (RFC 1191, section 4).
    PktTooBig { mtu: u32 },
    TimeExceeded { reason: Exceeded },
    /// `pointer` is the place of the faulty byte in the packet. Over IPv4 it has 8 bits.
    ParamProblem { code: u8, pointer: u32 },
}

impl IcmpRepr {
    /// Parses a message between two addresses. Rejects what `check_len` rejects, a type that this
    /// value has not, an echo with another code than 0, and a wrong checksum if `caps` asks to verify
    /// it in the version of the addresses.
    #[inline(always)]
    pub fn parse(
        packet: &IcmpPacket<'_>,
        src_addr: &IpAddress,
        dst_addr: &IpAddress,
        caps: &ChecksumCapabilities,
    ) -> Result<IcmpRepr>
        requires { version_of src_addr.now ≡ version_of dst_addr.now }
        ensures reads { let bytes = packet_bytes packet.now in
            (v : IcmpRepr) → (result ≡ Ok v) ↔ Reads bytes src_addr.now dst_addr.now (verifies (choice_of (version_of src_addr.now) caps.now)) v (payload_of bytes) }
        ensures value { icmp_of src_addr.now dst_addr.now (verifies (choice_of (version_of src_addr.now) caps.now)) (packet_bytes packet.now) ≡ result_ok result }
        ensures whole { OnOk result (HasHeader (packet_bytes packet.now)) }
    {
        packet.check_len()?;
        let version = src_addr.version();
        if choice_of(version, caps).rx() && !packet.verify_checksum(src_addr, dst_addr) {
            return Err(Error);
        }
        let (msg_type, code) = (packet.msg_type(), packet.msg_code());
        match message_of(version, msg_type, code, packet.word()) {
            Some(message) => Ok(message),
            None => Err(Error),
        }
    }

    /// The length of the emitted header in bytes.
    pub fn header_len(&self) -> usize
        ensures { result ≡ ICMP_HEADER_LEN }
    {
        ICMP_HEADER_LEN
    }

    /// The header of the message in this version. A number that is too great for its bits becomes the
    /// greatest number of them.
    #[inline(always)]
    pub fn header(&self, version: IpVersion) -> IcmpHeader
        ensures { result ≡ header_of version self.now }
    {
        IcmpHeader {
            msg_type: self.msg_type(version),
            msg_code: self.msg_code(version),
            word: self.word(version),
        }
    }

    /// The value that the emitted message parses as: a code or a number that has its own variant, or
    /// that does not fit, changes.
    pub fn normal(&self, version: IpVersion) -> IcmpRepr
        ensures { IsNormal version self.now result }
    {
        let header = self.header(version);
        match message_of(version, header.msg_type, header.msg_code, header.word) {
            Some(message) => message,
            None => *self,
        }
    }

    /// Returns `true` for every message but the two of an echo.
    pub fn is_error(&self) -> bool
        ensures { result ≡ is_error self.now }
    {
        !matches!(
            self,
            IcmpRepr::EchoRequest { .. } | IcmpRepr::EchoReply { .. }
        )
    }

    /// Writes the header and the payload, as `IcmpHeader::emit`.
    #[inline(always)]
    pub fn emit(
        &self,
        packet: &mut IcmpPacketMut<'_>,
        src_addr: &IpAddress,
        dst_addr: &IpAddress,
        payload: &[u8],
        caps: &ChecksumCapabilities,
    )
        requires room { ICMP_HEADER_LEN + length payload.now ≤ length (packet_bytes_mut packet.old) }
        requires family { version_of src_addr.now ≡ version_of dst_addr.now }
        ensures { let rest = drop (ICMP_HEADER_LEN + length payload.now) (packet_bytes_mut packet.old) in
            Becomes packet.old packet.new (bytes_of self.now payload.now src_addr.now dst_addr.now (computes (choice_of (version_of src_addr.now) caps.now)) ++ rest) }
    {
        self.header(src_addr.version())
            .emit(packet, src_addr, dst_addr, payload, caps);
    }

    /// As `emit`, to the front of `out`, and returns the length of the message in bytes. Returns `None`
    /// and writes nothing if it does not fit.
    #[inline(always)]
    pub fn try_emit(
        &self,
        out: &mut [u8],
        src_addr: &IpAddress,
        dst_addr: &IpAddress,
        payload: &[u8],
        caps: &ChecksumCapabilities,
    ) -> Option<usize>
        requires { version_of src_addr.now ≡ version_of dst_addr.now }
        ensures { let bytes = bytes_of self.now payload.now src_addr.now dst_addr.now (computes (choice_of (version_of src_addr.now) caps.now)) in
            Fills bytes (ICMP_HEADER_LEN + length payload.now) out.old out.new result }
    {
        self.header(src_addr.version())
            .try_emit(out, src_addr, dst_addr, payload, caps)
    }

    fn msg_type(&self, version: IpVersion) -> u8
        ensures { result ≡ type_of version self.now }
    {
        match version {
            IpVersion::Ipv4 => match *self {
                IcmpRepr::EchoReply { .. } => 0,
                IcmpRepr::DstUnreachable { .. } | IcmpRepr::PktTooBig { .. } => 3,
                IcmpRepr::EchoRequest { .. } => 8,
                IcmpRepr::TimeExceeded { .. } => 11,
                IcmpRepr::ParamProblem { .. } => 12,
            },
            IpVersion::Ipv6 => match *self {
                IcmpRepr::DstUnreachable { .. } => 1,
                IcmpRepr::PktTooBig { .. } => 2,
                IcmpRepr::TimeExceeded { .. } => 3,
                IcmpRepr::ParamProblem { .. } => 4,
                IcmpRepr::EchoRequest { .. } => 128,
                IcmpRepr::EchoReply { .. } => 129,
            },
        }
    }

    fn msg_code(&self, version: IpVersion) -> u8
        ensures { result ≡ code_of version self.now }
    {
        match *self {
            IcmpRepr::DstUnreachable { reason } => reason.code(version),
            IcmpRepr::PktTooBig { .. } => match version {
                IpVersion::Ipv4 => 4,
                IpVersion::Ipv6 => 0,
            },
            IcmpRepr::TimeExceeded { reason } => reason.code(),
            IcmpRepr::ParamProblem { code, .. } => code,
            IcmpRepr::EchoRequest { .. } | IcmpRepr::EchoReply { .. } => 0,
        }
    }

    fn word(&self, version: IpVersion) -> u32
        ensures { result ≡ word_of version self.now }
    {
        match *self {
            IcmpRepr::EchoRequest { ident, seq_no } | IcmpRepr::EchoReply { ident, seq_no } => {
                u32::from(ident) << 16 | u32::from(seq_no)
            }
            IcmpRepr::PktTooBig { mtu } => match version {
                IpVersion::Ipv4 => mtu.min(0xffff),
                IpVersion::Ipv6 => mtu,
            },
            IcmpRepr::ParamProblem { pointer, .. } => match version {
                IpVersion::Ipv4 => pointer.min(0xff) << 24,
                IpVersion::Ipv6 => pointer,
            },
            IcmpRepr::DstUnreachable { .. } | IcmpRepr::TimeExceeded { .. } => 0,
        }
    }
}

impl fmt::Display for IcmpRepr {
    ghost output = { λ v. Some (value_text v) };

    fn fmt<W: fmt::Write>(&self, f: &mut fmt::Formatter<W>) -> fmt::Result {
        match *self {
            IcmpRepr::EchoRequest { ident, seq_no } => {
                write!(f, "ICMP echo request id={ident} seq={seq_no}")
            }
            IcmpRepr::EchoReply { ident, seq_no } => {
                write!(f, "ICMP echo reply id={ident} seq={seq_no}")
            }
            IcmpRepr::DstUnreachable { reason } => {
                write!(f, "ICMP destination unreachable ({reason})")
            }
            IcmpRepr::PktTooBig { mtu } => write!(f, "ICMP packet too big mtu={mtu}"),
            IcmpRepr::TimeExceeded { reason } => write!(f, "ICMP time exceeded ({reason})"),
            IcmpRepr::ParamProblem { code, pointer } => {
                write!(f, "ICMP parameter problem code={code} pointer={pointer}")
            }
        }
    }
}

// The message of a header with this type, code and second word.
fn message_of(version: IpVersion, msg_type: u8, code: u8, word: u32) -> Option<IcmpRepr>
    ensures { result ≡ message_of version msg_type code word }
{
    let (ident, seq_no) = ((word >> 16) as u16, (word & 0xffff) as u16);
    let message = match version {
        IpVersion::Ipv4 => match (msg_type, code) {
            (0, 0) => IcmpRepr::EchoReply { ident, seq_no },
            (3, 4) => IcmpRepr::PktTooBig { mtu: word & 0xffff },
            (3, _) => IcmpRepr::DstUnreachable {
                reason: Unreachable::by_code(version, code),
            },
            (8, 0) => IcmpRepr::EchoRequest { ident, seq_no },
            (11, _) => IcmpRepr::TimeExceeded {
                reason: Exceeded::by_code(code),
            },
            (12, _) => IcmpRepr::ParamProblem {
                code,
                pointer: word >> 24,
            },
            _ => return None,
        },
        IpVersion::Ipv6 => match (msg_type, code) {
            (1, _) => IcmpRepr::DstUnreachable {
                reason: Unreachable::by_code(version, code),
            },
            (2, _) => IcmpRepr::PktTooBig { mtu: word },
            (3, _) => IcmpRepr::TimeExceeded {
                reason: Exceeded::by_code(code),
            },
            (4, _) => IcmpRepr::ParamProblem {
                code,
                pointer: word,
            },
            (128, 0) => IcmpRepr::EchoRequest { ident, seq_no },
            (129, 0) => IcmpRepr::EchoReply { ident, seq_no },
            _ => return None,
        },
    };
    Some(message)
}
