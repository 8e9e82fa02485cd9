//! Three mutable views over the parts of one buffer. The three values that are emitted through them
//! make one frame, if each header names what follows it, and the frame parses as their normal forms.

ghost use Rattle.std.specs.Prelude.{◌≡◌, ◌≢◌, ◌+◌, ◌≤◌, ◌++◌, [], IsTrue, length};
ghost use Rattle.ip_wire.specs.Checksum.{computes, verifies};
ghost use Rattle.ip_wire.specs.Ethernet as ethernet;
ghost use Rattle.ip_wire.specs.Frame.{datagram, packet, segment, type_of};
ghost use Rattle.ip_wire.specs.FrameValue.{Gives};
ghost use Rattle.ip_wire.specs.Ip as ip;
ghost use Rattle.ip_wire.specs.IpAddress.{version_of};
ghost use Rattle.ip_wire.specs.Ipv4 as ipv4;
ghost use Rattle.ip_wire.specs.Ipv6 as ipv6;
ghost use Rattle.ip_wire.specs.Protocol as protocol;
ghost use Rattle.ip_wire.specs.Tcp.{Becomes, packet_bytes_mut};
ghost use Rattle.ip_wire.specs.TcpRepr as tcp;
ghost use Rattle.ip_wire.specs.Udp as udp;
ghost use Rattle.ip_wire.specs.declared.IpVersion.TheVariants as version;

use ip_wire::{
    ChecksumCapabilities, ETHERNET_HEADER_LEN, EthernetFrameMut, EthernetRepr, Frame,
    IPV4_HEADER_LEN, IPV6_HEADER_LEN, IpAddress, IpRepr, Ipv4PacketMut, Ipv4Repr, Ipv6PacketMut,
    Ipv6Repr, Result, TcpPacketMut, TcpRepr, UdpPacketMut, UdpRepr, laws,
};

// Writes an Ethernet header to a view of its length.
fn fill_ethernet(value: &EthernetRepr, frame: &mut EthernetFrameMut<'_>)
    requires { length (ethernet.frame_bytes_mut frame.old) ≡ ETHERNET_HEADER_LEN }
    ensures { ethernet.Becomes frame.old frame.new (ethernet.bytes_of value.now) }
{
    value.emit(frame);
}

// Writes an IPv4 header to a view of its length.
fn fill_ipv4(value: &Ipv4Repr, packet: &mut Ipv4PacketMut<'_>, caps: &ChecksumCapabilities)
    requires payload_len { value.now.payload_len ≤ ipv4.max_payload_len }
    requires room { length (ipv4.packet_bytes_mut packet.old) ≡ IPV4_HEADER_LEN }
    ensures { ipv4.Becomes packet.old packet.new (ipv4.bytes_of value.now (computes caps.now.ipv4)) }
{
    value.emit(packet, caps);
}

// Writes an IPv6 header to a view of its length.
fn fill_ipv6(value: &Ipv6Repr, packet: &mut Ipv6PacketMut<'_>)
    requires payload_len { value.now.payload_len ≤ 65535 }
    requires room { length (ipv6.packet_bytes_mut packet.old) ≡ IPV6_HEADER_LEN }
    ensures { ipv6.Becomes packet.old packet.new (ipv6.bytes_of value.now) }
{
    value.emit(packet);
}

// Writes an IP header to bytes of its length, through a view of its version.
fn fill_ip(value: &IpRepr, bytes: &mut [u8], caps: &ChecksumCapabilities)
    requires payload_len { ip.payload_len_of value.now ≤ ip.max_payload_len value.now }
    requires room { length bytes.old ≡ ip.header_len_of value.now }
    ensures { bytes.new ≡ ip.bytes_of value.now (computes caps.now.ipv4) }
{
    match value {
        IpRepr::Ipv4(value) => {
            let mut packet = Ipv4PacketMut::new_unchecked(bytes);
            fill_ipv4(value, &mut packet, caps);
        }
        IpRepr::Ipv6(value) => {
            let mut packet = Ipv6PacketMut::new_unchecked(bytes);
            fill_ipv6(value, &mut packet);
        }
    }
}

// Writes a UDP packet to a view of its length.
fn fill_udp(
    value: &UdpRepr,
    payload: &[u8],
    src_addr: &IpAddress,
    dst_addr: &IpAddress,
    packet: &mut UdpPacketMut<'_>,
    caps: &ChecksumCapabilities,
)
    requires payload_len { length payload.now ≤ udp.max_payload_len }
    requires room { length (udp.packet_bytes_mut packet.old) ≡ 8 + length payload.now }
    requires family { version_of src_addr.now ≡ version_of dst_addr.now }
    ensures { udp.Becomes packet.old packet.new (udp.bytes_of value.now payload.now src_addr.now dst_addr.now (computes caps.now.udp)) }
{
    value.emit(packet, src_addr, dst_addr, payload, caps);
}

// Writes a TCP segment to a view of its length.
fn fill_tcp(
    value: &TcpRepr<'_>,
    src_addr: &IpAddress,
    dst_addr: &IpAddress,
    packet: &mut TcpPacketMut<'_>,
    caps: &ChecksumCapabilities,
)
    requires header_len { tcp.header_len_of (tcp.header_of value.now) ≤ 60 }
    requires room { length (packet_bytes_mut packet.old) ≡ tcp.header_len_of (tcp.header_of value.now) + length value.now.payload.now }
    requires family { version_of src_addr.now ≡ version_of dst_addr.now }
    ensures { let payload = value.now.payload.now in
        Becomes packet.old packet.new (tcp.bytes_of (tcp.header_of value.now) payload src_addr.now dst_addr.now (computes caps.now.tcp) []) }
{
    value.emit(packet, src_addr, dst_addr, caps);
}

/// Writes a UDP packet in an IP packet in an Ethernet frame.
pub fn emit_udp_frame(
    header: &EthernetRepr,
    inner: &IpRepr,
    value: &UdpRepr,
    payload: &[u8],
    buffer: &mut [u8],
    caps: &ChecksumCapabilities,
)
    requires room { length buffer.old ≡ 14 + (ip.header_len_of inner.now + (8 + length payload.now)) }
    requires payload_len { length payload.now ≤ udp.max_payload_len }
    requires packet_len { ip.payload_len_of inner.now ≤ ip.max_payload_len inner.now }
    ensures { let v = inner.now in
        buffer.new ≡ ethernet.bytes_of header.now ++ (ip.bytes_of v (computes caps.now.ipv4) ++ udp.bytes_of value.now payload.now (ip.src_addr_of v) (ip.dst_addr_of v) (computes caps.now.udp)) }
{
    let (front, rest) = buffer.split_at_mut(ETHERNET_HEADER_LEN);
    let (middle, back) = rest.split_at_mut(inner.header_len());
    let mut frame = EthernetFrameMut::new_unchecked(front);
    let mut datagram = UdpPacketMut::new_unchecked(back);
    let (src_addr, dst_addr) = (inner.src_addr(), inner.dst_addr());
    fill_ethernet(header, &mut frame);
    fill_ip(inner, middle, caps);
    fill_udp(value, payload, &src_addr, &dst_addr, &mut datagram, caps);
}

/// Writes a UDP packet in an IP packet in an Ethernet frame, and parses the frame. Each checksum that
/// is verified must be computed.
pub fn emit_then_parse_udp_frame<'b>(
    header: &EthernetRepr,
    inner: &IpRepr,
    value: &UdpRepr,
    payload: &[u8],
    buffer: &'b mut [u8],
    sent: &ChecksumCapabilities,
    received: &ChecksumCapabilities,
) -> Result<Frame<'b>>
    requires ethertype { ethernet.number_of header.now.ethertype ≡ ethernet.number_of (type_of inner.now) }
    requires next_header { protocol.number_of (ip.next_header_of inner.now) ≡ 17 }
    requires payload_len { ip.payload_len_of inner.now ≡ 8 + length payload.now }
    requires fits { ip.payload_len_of inner.now ≤ ip.max_payload_len inner.now }
    requires receiver { value.now.dst_port ≢ 0 }
    requires room { length buffer.old ≡ 14 + (ip.header_len_of inner.now + ip.payload_len_of inner.now) }
    requires packet_checksum { ip.version_of inner.now ≡ version.Ipv4 → IsTrue (verifies received.now.ipv4) → IsTrue (computes sent.now.ipv4) }
    requires checksum { IsTrue (verifies received.now.udp) → IsTrue (computes sent.now.udp) }
    ensures { Gives result (ethernet.normal header.now) (packet (ip.normal inner.now) (datagram value.now payload.now)) }
{
    emit_udp_frame(header, inner, value, payload, buffer, sent);
    laws::frame_composes_udp(*header, *inner, *value, payload, &[], *sent, *received);
    Frame::parse(buffer, received)
}

/// Writes a TCP segment in an IP packet in an Ethernet frame.
pub fn emit_tcp_frame(
    header: &EthernetRepr,
    inner: &IpRepr,
    value: &TcpRepr<'_>,
    buffer: &mut [u8],
    caps: &ChecksumCapabilities,
)
    requires header_len { tcp.header_len_of (tcp.header_of value.now) ≤ 60 }
    requires room { let segment_len = tcp.header_len_of (tcp.header_of value.now) + length value.now.payload.now in
        length buffer.old ≡ 14 + (ip.header_len_of inner.now + segment_len) }
    requires packet_len { ip.payload_len_of inner.now ≤ ip.max_payload_len inner.now }
    ensures { let v = inner.now in
        let segment_bytes = tcp.bytes_of (tcp.header_of value.now) value.now.payload.now (ip.src_addr_of v) (ip.dst_addr_of v) (computes caps.now.tcp) [] in
        buffer.new ≡ ethernet.bytes_of header.now ++ (ip.bytes_of v (computes caps.now.ipv4) ++ segment_bytes) }
{
    let (front, rest) = buffer.split_at_mut(ETHERNET_HEADER_LEN);
    let (middle, back) = rest.split_at_mut(inner.header_len());
    let mut frame = EthernetFrameMut::new_unchecked(front);
    let mut segment = TcpPacketMut::new_unchecked(back);
    let (src_addr, dst_addr) = (inner.src_addr(), inner.dst_addr());
    fill_ethernet(header, &mut frame);
    fill_ip(inner, middle, caps);
    fill_tcp(value, &src_addr, &dst_addr, &mut segment, caps);
}

/// The same of TCP.
pub fn emit_then_parse_tcp_frame<'b>(
    header: &EthernetRepr,
    inner: &IpRepr,
    value: &TcpRepr<'_>,
    buffer: &'b mut [u8],
    sent: &ChecksumCapabilities,
    received: &ChecksumCapabilities,
) -> Result<Frame<'b>>
    requires ethertype { ethernet.number_of header.now.ethertype ≡ ethernet.number_of (type_of inner.now) }
    requires next_header { protocol.number_of (ip.next_header_of inner.now) ≡ 6 }
    requires payload_len { ip.payload_len_of inner.now ≡ tcp.header_len_of (tcp.header_of value.now) + length value.now.payload.now }
    requires fits { ip.payload_len_of inner.now ≤ ip.max_payload_len inner.now }
    requires header_len { tcp.header_len_of (tcp.header_of value.now) ≤ 60 }
    requires sender { value.now.src_port ≢ 0 }
    requires receiver { value.now.dst_port ≢ 0 }
    requires room { length buffer.old ≡ 14 + (ip.header_len_of inner.now + ip.payload_len_of inner.now) }
    requires packet_checksum { ip.version_of inner.now ≡ version.Ipv4 → IsTrue (verifies received.now.ipv4) → IsTrue (computes sent.now.ipv4) }
    requires checksum { IsTrue (verifies received.now.tcp) → IsTrue (computes sent.now.tcp) }
    ensures { Gives result (ethernet.normal header.now) (packet (ip.normal inner.now) (segment (tcp.normal (tcp.header_of value.now)) value.now.payload.now)) }
{
    emit_tcp_frame(header, inner, value, buffer, sent);
    laws::frame_composes_tcp(*header, *inner, *value, &[], *sent, *received);
    Frame::parse(buffer, received)
}
