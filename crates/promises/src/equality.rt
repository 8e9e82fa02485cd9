//! Equal bytes and equal values.

ghost use Rattle.std.specs.Prelude.{◌≡◌, ◌≢◌, ◌↔◌, ◌+◌, ◌≤◌, IsTrue, length};
ghost use Rattle.promises.specs.Same.{SameCarried, SameFrame, SameOption, SameSegment, SameTransport};
ghost use Rattle.ip_wire.specs.Arp as arp;
ghost use Rattle.ip_wire.specs.Ethernet as ethernet;
ghost use Rattle.ip_wire.specs.Ip as ip;
ghost use Rattle.ip_wire.specs.IpAddress.{version_of};
ghost use Rattle.ip_wire.specs.Ipv4 as ipv4;
ghost use Rattle.ip_wire.specs.Ipv6 as ipv6;
ghost use Rattle.ip_wire.specs.Ipv6Fragment as fragment;
ghost use Rattle.ip_wire.specs.Tcp as segment;
ghost use Rattle.ip_wire.specs.TcpRepr as tcp;
ghost use Rattle.ip_wire.specs.Udp as udp;

mod comparisons;

use crate::emit::emit_only_tcp;
use ip_wire::{
    ArpPacket, Carried, ChecksumCapabilities, EthernetFrame, Frame, IpAddress, IpPacket,
    Ipv4Packet, Ipv6FragmentHeader, Ipv6Packet, TcpOption, TcpOptionSummary, TcpPacket, TcpRepr,
    Transport, UdpPacket, UdpRepr, laws,
};

/// `==` of two UDP headers returns `true` exactly if they are equal.
pub fn equal_values_udp(a: UdpRepr, b: UdpRepr) -> bool
    ensures { IsTrue result ↔ (a ≡ b) }
{
    laws::eq_is_equality();
    a == b
}

/// The same of the values of all options of a header.
pub fn equal_values_tcp_option_summary(a: &TcpOptionSummary, b: &TcpOptionSummary) -> bool
    ensures { IsTrue result ↔ (a.now ≡ b.now) }
{
    a == b
}

/// The same of one option: kinds and data are equal.
pub fn equal_values_tcp_option(a: &TcpOption<'_>, b: &TcpOption<'_>) -> bool
    ensures { IsTrue result ↔ SameOption a.now b.now }
{
    comparisons::tcp_options();
    a == b
}

/// The same of two TCP segments: headers and payloads are equal.
pub fn equal_values_tcp(a: &TcpRepr<'_>, b: &TcpRepr<'_>) -> bool
    ensures { IsTrue result ↔ SameSegment a.now b.now }
{
    comparisons::segments();
    a == b
}

/// The same of the payloads of two IP packets.
pub fn equal_values_transport(a: &Transport<'_>, b: &Transport<'_>) -> bool
    ensures { IsTrue result ↔ SameTransport a.now b.now }
{
    comparisons::transports();
    a == b
}

/// The same of the payloads of two frames.
pub fn equal_values_carried(a: &Carried<'_>, b: &Carried<'_>) -> bool
    ensures { IsTrue result ↔ SameCarried a.now b.now }
{
    comparisons::payloads();
    a == b
}

/// The same of two frames.
pub fn equal_values_frame(a: &Frame<'_>, b: &Frame<'_>) -> bool
    ensures { IsTrue result ↔ SameFrame a.now b.now }
{
    comparisons::frames();
    a == b
}

/// `==` of two views of frames returns `true` exactly if all bytes are equal, also those of padding.
pub fn equal_views_ethernet(a: &EthernetFrame<'_>, b: &EthernetFrame<'_>) -> bool
    ensures { IsTrue result ↔ (ethernet.frame_bytes a.now ≡ ethernet.frame_bytes b.now) }
{
    a == b
}

/// The same of two views of ARP packets.
pub fn equal_views_arp(a: &ArpPacket<'_>, b: &ArpPacket<'_>) -> bool
    ensures { IsTrue result ↔ (arp.packet_bytes a.now ≡ arp.packet_bytes b.now) }
{
    a == b
}

/// The same of two views of IP packets.
pub fn equal_views_ip(a: &IpPacket<'_>, b: &IpPacket<'_>) -> bool
    ensures { IsTrue result ↔ (ip.packet_bytes a.now ≡ ip.packet_bytes b.now) }
{
    a == b
}

/// The same of two views of IPv4 packets.
pub fn equal_views_ipv4(a: &Ipv4Packet<'_>, b: &Ipv4Packet<'_>) -> bool
    ensures { IsTrue result ↔ (ipv4.packet_bytes a.now ≡ ipv4.packet_bytes b.now) }
{
    a == b
}

/// The same of two views of IPv6 packets.
pub fn equal_views_ipv6(a: &Ipv6Packet<'_>, b: &Ipv6Packet<'_>) -> bool
    ensures { IsTrue result ↔ (ipv6.packet_bytes a.now ≡ ipv6.packet_bytes b.now) }
{
    a == b
}

/// The same of two views of headers of IPv6 fragments.
pub fn equal_views_ipv6_fragment(a: &Ipv6FragmentHeader<'_>, b: &Ipv6FragmentHeader<'_>) -> bool
    ensures { IsTrue result ↔ (fragment.header_bytes a.now ≡ fragment.header_bytes b.now) }
{
    a == b
}

/// The same of two views of UDP packets.
pub fn equal_views_udp(a: &UdpPacket<'_>, b: &UdpPacket<'_>) -> bool
    ensures { IsTrue result ↔ (udp.packet_bytes a.now ≡ udp.packet_bytes b.now) }
{
    a == b
}

/// The same of two views of TCP segments.
pub fn equal_views_tcp(a: &TcpPacket<'_>, b: &TcpPacket<'_>) -> bool
    ensures { IsTrue result ↔ (segment.packet_bytes a.now ≡ segment.packet_bytes b.now) }
{
    a == b
}

/// Two normal TCP segments that are emitted as the same bytes have equal headers and payloads.
pub fn equal_bytes_tcp(
    a: &TcpRepr<'_>,
    b: &TcpRepr<'_>,
    src_addr: &IpAddress,
    dst_addr: &IpAddress,
    a_buffer: &mut [u8],
    b_buffer: &mut [u8],
) -> bool
    requires a_normal { tcp.normal (tcp.header_of a.now) ≡ tcp.header_of a.now }
    requires a_len { tcp.header_len_of (tcp.header_of a.now) ≤ 60 }
    requires a_sender { a.now.src_port ≢ 0 }
    requires a_receiver { a.now.dst_port ≢ 0 }
    requires a_room { length a_buffer.old ≡ tcp.header_len_of (tcp.header_of a.now) + length a.now.payload.now }
    requires b_normal { tcp.normal (tcp.header_of b.now) ≡ tcp.header_of b.now }
    requires b_len { tcp.header_len_of (tcp.header_of b.now) ≤ 60 }
    requires b_sender { b.now.src_port ≢ 0 }
    requires b_receiver { b.now.dst_port ≢ 0 }
    requires b_room { length b_buffer.old ≡ tcp.header_len_of (tcp.header_of b.now) + length b.now.payload.now }
    requires family { version_of src_addr.now ≡ version_of dst_addr.now }
    ensures header { IsTrue result → tcp.header_of a.now ≡ tcp.header_of b.now }
    ensures payload { IsTrue result → a.now.payload.now ≡ b.now.payload.now }
{
    let caps = ChecksumCapabilities::default();
    emit_only_tcp(a, src_addr, dst_addr, a_buffer, &caps);
    emit_only_tcp(b, src_addr, dst_addr, b_buffer, &caps);
    if &*a_buffer == &*b_buffer {
        laws::tcp::equal_bytes(*a, *b, *src_addr, *dst_addr);
        true
    } else {
        false
    }
}
