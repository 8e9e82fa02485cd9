//! Frames with a message of ICMP or of neighbour discovery. The bytes of the message are written when the
//! frame is sent, so no frame borrows them.

ghost use Rattle.std.specs.Prelude.{◌≡◌, ◌≤◌, ◌<◌, ◌+◌, ◌^◌, ◌++◌, IfSome, drop, length, true};
ghost use Rattle.app_host.specs.Message.{Composes, HasClass, IsFrameRemarked, IsMarked, IsOfVersion, IsRemarked, IsSendable, IsSent, frame_bytes, message_bytes, message_frame, message_len, values_of};
ghost use Rattle.app_host.specs.declared.message.Message.TheVariants.{Icmp, Ndisc};
ghost use Rattle.ip_wire.specs.Ethernet as ethernet;
ghost use Rattle.ip_wire.specs.Frame.{IsReadWhole, ReadsPacket, all_checked, type_of, type_of_version};
ghost use Rattle.ip_wire.specs.Ip.{bytes_of, dst_addr_of, header_len_of, max_payload_len, payload_len_of, src_addr_of, version_of};
ghost use Rattle.ip_wire.specs.Filled.{Fills};
ghost use Rattle.wire_icmp.specs.Icmp as icmp;
ghost use Rattle.wire_icmp.specs.Ndisc as ndisc;

use ip_wire::laws::field::bytes_fit;
use ip_wire::{
    ChecksumCapabilities, ETHERNET_HEADER_LEN, EthernetAddress, EthernetFrameMut, EthernetProtocol,
    EthernetRepr, IpRepr, IpVersion, Ipv4PacketMut, Ipv6PacketMut, Ipv6Repr,
};
use wire_icmp::{ICMP_HEADER_LEN, IcmpRepr, NdiscRepr, protocol_of};

/// What a packet of the protocol ICMP or ICMPv6 carries.
#[derive(Debug, Clone, Copy, PartialEq, Eq)]
pub enum Message<'a> {
    /// An ICMP message with its payload: the data of an echo, or the packet that an error quotes.
    Icmp(IcmpRepr, &'a [u8]),
    /// A message of neighbour discovery, which is of IPv6.
    Ndisc(NdiscRepr),
}

/// A frame with a message.
#[derive(Debug, Clone, Copy, PartialEq, Eq)]
pub struct MessageFrame<'a> {
    pub header: EthernetRepr,
    /// The IP header, with the protocol and the length of the message.
    pub ip: IpRepr,
    /// The DSCP of the packet, at most 63. Its ECN is 0.
    pub dscp: u8,
    pub message: Message<'a>,
}

impl<'a> Message<'a> {
    /// The length of the message in bytes.
    #[inline(always)]
    pub fn buffer_len(&self) -> usize
        ensures { result ≡ message_len self.now }
    {
        match self {
            Message::Icmp(_, payload) => ICMP_HEADER_LEN + payload.len(),
            Message::Ndisc(value) => value.buffer_len(),
        }
    }

    // Writes the message with its checksum to the front of `out`, and returns its length. `None` if it
    // does not fit; then `out` is unchanged.
    #[inline(always)]
    fn try_emit(&self, ip: &IpRepr, out: &mut [u8]) -> Option<usize>
        requires { IsOfVersion self.now ip.now }
        ensures { Fills (message_bytes ip.now self.now) (message_len self.now) out.old out.new result }
    {
        match self {
            Message::Icmp(value, payload) => emit_icmp(value, payload, ip, out),
            Message::Ndisc(value) => match ip {
                IpRepr::Ipv6(ip) => emit_ndisc(value, ip, out),
                IpRepr::Ipv4(_) => None,
            },
        }
    }
}

#[inline(always)]
fn emit_icmp(value: &IcmpRepr, payload: &[u8], ip: &IpRepr, out: &mut [u8]) -> Option<usize>
    ensures { Fills (icmp.bytes_of value.now payload.now (src_addr_of ip.now) (dst_addr_of ip.now) true) (8 + length payload.now) out.old out.new result }
{
    let (src_addr, dst_addr) = (ip.src_addr(), ip.dst_addr());
    let caps = ChecksumCapabilities::default();
    value.try_emit(out, &src_addr, &dst_addr, payload, &caps)
}

#[inline(always)]
fn emit_ndisc(value: &NdiscRepr, ip: &Ipv6Repr, out: &mut [u8]) -> Option<usize>
    ensures { Fills (ndisc.bytes_of value.now ip.now.src_addr ip.now.dst_addr true) (ndisc.len_of value.now) out.old out.new result }
{
    let caps = ChecksumCapabilities::default();
    value.try_emit(out, &ip.src_addr, &ip.dst_addr, &caps)
}

impl<'a> MessageFrame<'a> {
    // The frame between two hosts with an ICMP message, in a packet with the addresses and the hop
    // limit of a header, and with DSCP 0.
    #[inline(always)]
    pub(crate) fn icmp(
        src_addr: EthernetAddress,
        dst_addr: EthernetAddress,
        ip: IpRepr,
        value: IcmpRepr,
        payload: &'a [u8],
    ) -> MessageFrame<'a>
        ensures { result ≡ message_frame src_addr dst_addr ip (Icmp value payload.entry) }
    {
        MessageFrame {
            header: header_before(src_addr, dst_addr, &ip),
            ip: ip.before(protocol_of(ip.version()), ICMP_HEADER_LEN + payload.len()),
            dscp: 0,
            message: Message::Icmp(value, payload),
        }
    }

    // The same with a message of neighbour discovery.
    #[inline(always)]
    pub(crate) fn ndisc(
        src_addr: EthernetAddress,
        dst_addr: EthernetAddress,
        ip: IpRepr,
        value: NdiscRepr,
    ) -> MessageFrame<'a>
        ensures { result ≡ message_frame src_addr dst_addr ip (Ndisc value) }
    {
        let len = value.buffer_len();
        MessageFrame {
            header: header_before(src_addr, dst_addr, &ip),
            ip: ip.before(protocol_of(ip.version()), len),
            dscp: 0,
            message: Message::Ndisc(value),
        }
    }

    /// The length of the frame in bytes.
    #[inline(always)]
    pub fn buffer_len(&self) -> usize
        requires { IsSendable self.now }
        ensures { result ≡ 14 + (header_len_of self.now.ip + message_len self.now.message) }
    {
        ETHERNET_HEADER_LEN + (self.ip.header_len() + self.message.buffer_len())
    }

    /// Writes the frame with its checksums to the front of `out`, and returns its length. `None` if it
    /// does not fit; then `out` is unchanged.
    #[inline(always)]
    pub fn send(&self, out: &mut [u8]) -> Option<usize>
        requires { IsSendable self.now }
        ensures sends { IsSent self.now out.old out.new result }
        ensures marked { IfSome result (λ len. IsMarked self.now out.new) }
    {
        message_composes(self.header, self.ip);
        match self.try_emit(out) {
            Some(len) => {
                self.mark(out);
                Some(len)
            }
            None => None,
        }
    }

    // Writes the DSCP into the emitted frame.
    #[inline(always)]
    fn mark(&self, out: &mut [u8])
        requires fits { self.now.dscp < 64 }
        requires reads { IsReadWhole out.old self.now.header (values_of self.now) }
        requires unmarked { HasClass (version_of self.now.ip) (drop 14 out.old) 0 }
        ensures { IsFrameRemarked self.now out.old out.new }
    {
        if self.dscp == 0 {
            return;
        }
        let (_, packet) = out.split_at_mut(ETHERNET_HEADER_LEN);
        set_dscp(&self.ip, packet, self.dscp);
    }

    #[inline(always)]
    fn try_emit(&self, out: &mut [u8]) -> Option<usize>
        requires { IsSendable self.now }
        ensures { Fills (frame_bytes self.now) (14 + (header_len_of self.now.ip + message_len self.now.message)) out.old out.new result }
    {
        let headers_len = ETHERNET_HEADER_LEN + self.ip.header_len();
        if out.len() < headers_len {
            return None;
        }
        let (front, rest) = out.split_at_mut(headers_len);
        match self.message.try_emit(&self.ip, rest) {
            Some(len) => {
                self.emit_headers(front);
                Some(headers_len + len)
            }
            None => None,
        }
    }

    // Writes both headers.
    #[inline(always)]
    fn emit_headers(&self, out: &mut [u8])
        requires sendable { IsSendable self.now }
        requires room { length out.old ≡ 14 + header_len_of self.now.ip }
        ensures { out.new ≡ ethernet.bytes_of self.now.header ++ bytes_of self.now.ip true }
    {
        let (link, packet) = out.split_at_mut(ETHERNET_HEADER_LEN);
        self.header.emit(&mut EthernetFrameMut::new_unchecked(link));
        self.ip.emit(packet, &ChecksumCapabilities::default());
    }
}

// Writes the DSCP of a packet with this header, in which DSCP and ECN are 0.
#[inline(always)]
fn set_dscp(ip: &IpRepr, packet: &mut [u8], dscp: u8)
    requires fits { dscp < 64 }
    requires reads { ReadsPacket all_checked packet.old ip.now }
    requires unmarked { HasClass (version_of ip.now) packet.old 0 }
    ensures { IsRemarked ip.now packet.old packet.new dscp }
{
    bytes_fit(packet);
    match ip {
        IpRepr::Ipv4(_) => {
            let mut packet = Ipv4PacketMut::new_unchecked(packet);
            packet.update_dscp(dscp);
        }
        IpRepr::Ipv6(_) => {
            let mut packet = Ipv6PacketMut::new_unchecked(packet);
            packet.set_traffic_class(4 * dscp);
        }
    }
}

// A frame with a packet of ICMP is parsed as its values.
fn message_composes(header: EthernetRepr, ip: IpRepr)
    requires { payload_len_of ip ≤ max_payload_len ip }
    ensures { Composes header ip }
{}

// The header of a frame between two hosts with a packet of this header.
#[inline(always)]
pub(crate) fn header_before(
    src_addr: EthernetAddress,
    dst_addr: EthernetAddress,
    ip: &IpRepr,
) -> EthernetRepr
    ensures { result ≡ record { src_addr = src_addr; dst_addr = dst_addr; ethertype = type_of ip.now } }
{
    EthernetRepr {
        src_addr,
        dst_addr,
        ethertype: ethertype_of(ip.version()),
    }
}

// The EtherType of a frame with a packet of this version.
#[inline(always)]
pub(crate) fn ethertype_of(version: IpVersion) -> EthernetProtocol
    ensures { result ≡ type_of_version version }
{
    match version {
        IpVersion::Ipv4 => EthernetProtocol::Ipv4,
        IpVersion::Ipv6 => EthernetProtocol::Ipv6,
    }
}
