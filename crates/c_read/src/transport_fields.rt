//! The values of transport headers, stored in the struct of C.

ghost use Rattle.std.specs.Prelude.{◌≡◌, ◌≤◌, ◌+◌, length, true};
ghost use Rattle.ip_wire.specs.IpAddress.{version_of};
ghost use Rattle.ip_wire.specs.Protocol.{protocol_of};
ghost use Rattle.ip_wire.specs.Tcp as tcp;
ghost use Rattle.ip_wire.specs.Udp as udp;
ghost use Rattle.c_read.specs.FrameFields.{begins_with_ports, rejected_transport, udp_fault, with_first_ports, with_tcp, with_tcp_fields, with_tcp_header, with_transport_by, with_udp, with_udp_fields, with_udp_header};

use crate::faults::{tcp_fault, udp_fault};
use crate::frame_fields::{reject, step_after};
use crate::icmp_fields::{is_icmp, store_icmp};
use crate::tcp_usual::is_usual;
use crate::verdicts::{tcp_verdict, udp_verdict};
use c_structs::{FrameFields, Reason, TransportKind, Verdict};
use ip_wire::{
    ChecksumCapabilities, IpAddress, IpProtocol, TCP_HEADER_LEN, TcpPacket, TcpRepr,
    UDP_HEADER_LEN, UdpPacket, UdpRepr,
};
use wire_icmp::ICMP_HEADER_LEN;

// The length of the ports at the beginning of a UDP or TCP header.
const PORTS_LEN: usize = 4;

// Stores the payload of a packet with this protocol number between two addresses. The number is compared
// here as it is: its name in the header would have been looked up before.
#[inline(always)]
pub(super) fn store_transport(
    fields: &mut FrameFields,
    protocol: u8,
    src_addr: &IpAddress,
    dst_addr: &IpAddress,
    bytes: &[u8],
)
    requires offset { fields.old.payload_offset ≤ 65700 }
    requires len { fields.old.payload_len ≡ length bytes.now }
    requires family { version_of src_addr.now ≡ version_of dst_addr.now }
    ensures value { fields.new ≡ with_transport_by fields.old (protocol_of protocol) src_addr.now dst_addr.now bytes.now }
    ensures within { fields.new.payload_offset + fields.new.payload_len ≤ fields.old.payload_offset + length bytes.now }
{
    match IpProtocol::from(protocol) {
        IpProtocol::Udp => store_udp(fields, src_addr, dst_addr, bytes),
        IpProtocol::Tcp => store_tcp(fields, src_addr, dst_addr, bytes),
        other => {
            if is_icmp(other, src_addr) && bytes.len() >= ICMP_HEADER_LEN {
                store_icmp(fields, *src_addr, *dst_addr, bytes);
            }
        }
    }
}

// Stores a UDP packet. A rejected header is stored too, if it is there as a whole.
#[inline(always)]
pub(super) fn store_udp(
    fields: &mut FrameFields,
    src_addr: &IpAddress,
    dst_addr: &IpAddress,
    bytes: &[u8],
)
    requires offset { fields.old.payload_offset ≤ 65700 }
    requires len { length bytes.now ≤ fields.old.payload_len }
    requires family { version_of src_addr.now ≡ version_of dst_addr.now }
    ensures value { fields.new ≡ with_udp fields.old src_addr.now dst_addr.now bytes.now }
    ensures within { fields.new.payload_offset + fields.new.payload_len ≤ fields.old.payload_offset + fields.old.payload_len }
{
    if bytes.len() < UDP_HEADER_LEN {
        return reject(fields, Reason::TooShort);
    }
    let packet = UdpPacket::new_unchecked(bytes);
    let caps = ChecksumCapabilities::ignored();
    match UdpRepr::parse(&packet, src_addr, dst_addr, &caps) {
        Ok(_) => {
            let payload_len = packet.payload().len();
            store_udp_header(fields, src_addr, dst_addr, &packet);
            step_after(fields, UDP_HEADER_LEN, payload_len);
        }
        Err(_) => store_rejected_udp(fields, *src_addr, *dst_addr, &packet),
    }
}

// Stores the header of a UDP packet that is rejected.
#[cold]
fn store_rejected_udp(
    fields: &mut FrameFields,
    src_addr: IpAddress,
    dst_addr: IpAddress,
    packet: &UdpPacket<'_>,
)
    requires header { 8 ≤ length (udp.packet_bytes packet.now) }
    requires family { version_of src_addr ≡ version_of dst_addr }
    ensures { let bytes = udp.packet_bytes packet.now in
        fields.new ≡ rejected_transport (with_udp_header fields.old src_addr dst_addr bytes) (udp_fault bytes) }
{
    store_udp_header(fields, &src_addr, &dst_addr, packet);
    reject_transport(fields, udp_fault(packet));
}

// Stores the header of a UDP packet. If its length is wrong, no checksum can be computed.
#[inline(always)]
fn store_udp_header(
    fields: &mut FrameFields,
    src_addr: &IpAddress,
    dst_addr: &IpAddress,
    packet: &UdpPacket<'_>,
)
    requires header { 8 ≤ length (udp.packet_bytes packet.now) }
    requires family { version_of src_addr.now ≡ version_of dst_addr.now }
    ensures { fields.new ≡ with_udp_header fields.old src_addr.now dst_addr.now (udp.packet_bytes packet.now) }
{
    store_udp_fields(fields, packet, udp_verdict(packet, src_addr, dst_addr));
}

// Stores the header of a UDP packet whose checksum has this verdict.
#[inline(always)]
pub(super) fn store_udp_fields(fields: &mut FrameFields, packet: &UdpPacket<'_>, verdict: Verdict)
    requires { 8 ≤ length (udp.packet_bytes packet.now) }
    ensures { fields.new ≡ with_udp_fields fields.old (udp.packet_bytes packet.now) verdict }
{
    fields.transport = TransportKind::Udp.code();
    fields.transport_offset = fields.payload_offset;
    fields.src.port = packet.src_port();
    fields.dst.port = packet.dst_port();
    fields.transport_checksum = verdict.code();
}

// Stores a TCP segment. A rejected header is stored too, if it is there as a whole.
#[inline(always)]
fn store_tcp(fields: &mut FrameFields, src_addr: &IpAddress, dst_addr: &IpAddress, bytes: &[u8])
    requires offset { fields.old.payload_offset ≤ 65700 }
    requires len { fields.old.payload_len ≡ length bytes.now }
    requires family { version_of src_addr.now ≡ version_of dst_addr.now }
    ensures value { fields.new ≡ with_tcp fields.old src_addr.now dst_addr.now bytes.now }
    ensures within { fields.new.payload_offset + fields.new.payload_len ≤ fields.old.payload_offset + length bytes.now }
{
    if bytes.len() < TCP_HEADER_LEN {
        return reject(fields, Reason::TooShort);
    }
    let packet = TcpPacket::new_unchecked(bytes);
    store_tcp_header(fields, src_addr, dst_addr, &packet);
    if is_usual(bytes) {
        return step_after(
            fields,
            usize::from(packet.header_len()),
            packet.payload().len(),
        );
    }
    let caps = ChecksumCapabilities::ignored();
    match TcpRepr::parse(&packet, src_addr, dst_addr, &caps) {
        Ok(_) => step_after(
            fields,
            usize::from(packet.header_len()),
            packet.payload().len(),
        ),
        Err(_) => reject_transport(fields, tcp_fault(&packet, bytes.len())),
    }
}

// Stores the header of a TCP segment.
#[inline(always)]
fn store_tcp_header(
    fields: &mut FrameFields,
    src_addr: &IpAddress,
    dst_addr: &IpAddress,
    packet: &TcpPacket<'_>,
)
    requires header { 20 ≤ length (tcp.packet_bytes packet.now) }
    requires family { version_of src_addr.now ≡ version_of dst_addr.now }
    ensures { fields.new ≡ with_tcp_header fields.old src_addr.now dst_addr.now (tcp.packet_bytes packet.now) }
{
    store_tcp_fields(fields, packet, tcp_verdict(packet, src_addr, dst_addr));
}

// Stores the header of a TCP segment whose checksum has this verdict.
#[inline(always)]
pub(super) fn store_tcp_fields(fields: &mut FrameFields, packet: &TcpPacket<'_>, verdict: Verdict)
    requires { 20 ≤ length (tcp.packet_bytes packet.now) }
    ensures { fields.new ≡ with_tcp_fields fields.old (tcp.packet_bytes packet.now) verdict }
{
    fields.transport = TransportKind::Tcp.code();
    fields.transport_offset = fields.payload_offset;
    fields.src.port = packet.src_port();
    fields.dst.port = packet.dst_port();
    fields.tcp.seq_number = packet.seq_number().0.cast_unsigned();
    fields.tcp.ack_number = packet.ack_number().0.cast_unsigned();
    fields.tcp.window_len = packet.window_len();
    fields.tcp.urgent_at = packet.urgent_at();
    fields.tcp.flags = packet.as_bytes()[13];
    fields.tcp.header_len = packet.header_len();
    fields.transport_checksum = verdict.code();
}

// Stores why the transport header is rejected, whose fields are stored already.
pub(super) fn reject_transport(fields: &mut FrameFields, reason: Reason)
    ensures { fields.new ≡ rejected_transport fields.old reason }
{
    fields.rejected = fields.transport;
    fields.transport = TransportKind::None.code();
    reject(fields, reason);
}

// Stores the ports that a first fragment of this protocol begins with, if they are there.
pub(super) fn store_first_ports(fields: &mut FrameFields, protocol: u8, bytes: &[u8])
    ensures { fields.new ≡ with_first_ports fields.old true (protocol_of protocol) bytes.now }
{
    if bytes.len() >= PORTS_LEN && begins_with_ports(protocol) {
        let header = UdpPacket::new_unchecked(bytes);
        fields.src.port = header.src_port();
        fields.dst.port = header.dst_port();
    }
}

// Whether a header of this protocol begins with two ports.
fn begins_with_ports(protocol: u8) -> bool
    ensures { result ≡ begins_with_ports (protocol_of protocol) }
{
    matches!(
        IpProtocol::from(protocol),
        IpProtocol::Udp | IpProtocol::Tcp
    )
}
