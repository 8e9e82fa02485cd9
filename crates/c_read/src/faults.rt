//! Why bytes that do not parse as a header are rejected: the first test that fails.

ghost use Rattle.std.specs.Prelude.{◌≡◌, ◌≤◌, length};
ghost use Rattle.ip_wire.specs.Ipv4 as ipv4;
ghost use Rattle.ip_wire.specs.Ipv6 as ipv6;
ghost use Rattle.ip_wire.specs.Tcp as tcp;
ghost use Rattle.ip_wire.specs.Udp as udp;
ghost use Rattle.c_read.specs.FrameFields.{arp_fault, extension_reason, ipv4_fault, ipv6_fault, tcp_fault, udp_fault};

use c_structs::Reason;
use ip_wire::{
    IPV4_HEADER_LEN, IPV6_HEADER_LEN, Ipv4Packet, Ipv6Packet, TCP_HEADER_LEN, TcpPacket, UdpPacket,
};
use wire_extensions::ExtensionFault;

/// The length of an ARP packet for Ethernet and IPv4, in bytes.
pub const ARP_LEN: usize = 28;

/// Why an ARP packet is rejected.
#[cold]
pub fn arp_fault(bytes: &[u8]) -> Reason
    ensures { result ≡ arp_fault bytes.now }
{
    if bytes.len() < ARP_LEN {
        Reason::TooShort
    } else {
        Reason::OtherArp
    }
}

/// Why an IPv4 header is rejected.
#[cold]
pub fn ipv4_fault(packet: &Ipv4Packet<'_>) -> Reason
    ensures { result ≡ ipv4_fault (ipv4.packet_bytes packet.now) }
{
    if packet.as_bytes().len() < IPV4_HEADER_LEN {
        Reason::TooShort
    } else if packet.version() != 4 {
        Reason::BadVersion
    } else {
        Reason::BadLength
    }
}

/// Why an IPv6 header is rejected.
#[cold]
pub fn ipv6_fault(packet: &Ipv6Packet<'_>) -> Reason
    ensures { result ≡ ipv6_fault (ipv6.packet_bytes packet.now) }
{
    if packet.as_bytes().len() < IPV6_HEADER_LEN {
        Reason::TooShort
    } else if packet.version() != 6 {
        Reason::BadVersion
    } else {
        Reason::BadLength
    }
}

/// Why an IPv6 extension header is rejected.
#[cold]
pub fn extension_reason(fault: ExtensionFault) -> Reason
    ensures { result ≡ extension_reason fault }
{
    match fault {
        ExtensionFault::TooShort => Reason::TooShort,
        ExtensionFault::HeaderCut => Reason::HeaderCut,
        ExtensionFault::HopsLeft => Reason::HopsLeft,
        ExtensionFault::BadOrder => Reason::BadOrder,
    }
}

/// Why a UDP header of 8 bytes is rejected.
#[cold]
pub fn udp_fault(packet: &UdpPacket<'_>) -> Reason
    ensures { result ≡ udp_fault (udp.packet_bytes packet.now) }
{
    if packet.check_len().is_err() {
        Reason::BadLength
    } else {
        Reason::PortZero
    }
}

/// Why the header of a TCP segment of `len` bytes is rejected, of which at least 20 were captured.
#[cold]
pub fn tcp_fault(packet: &TcpPacket<'_>, len: usize) -> Reason
    requires { 20 ≤ length (tcp.packet_bytes packet.now) }
    ensures { result ≡ tcp_fault (tcp.packet_bytes packet.now) len }
{
    let header_len = usize::from(packet.header_len());
    if header_len < TCP_HEADER_LEN || len < header_len {
        Reason::BadLength
    } else if packet.src_port() == 0 || packet.dst_port() == 0 {
        Reason::PortZero
    } else if u8::from(packet.syn()) + u8::from(packet.fin()) + u8::from(packet.rst()) > 1 {
        Reason::BadFlags
    } else if packet.as_bytes().len() < header_len {
        Reason::HeaderCut
    } else {
        Reason::BadOptions
    }
}
