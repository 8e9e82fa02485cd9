//! Verdicts on checksums.

ghost use Rattle.std.specs.Prelude.{◌≡◌, ◌≤◌, ◌==◌, if◌then◌else◌, length};
ghost use Rattle.ip_wire.specs.Field.{field};
ghost use Rattle.ip_wire.specs.IpAddress.{version_of};
ghost use Rattle.ip_wire.specs.Ipv4 as ipv4;
ghost use Rattle.ip_wire.specs.Tcp as tcp;
ghost use Rattle.ip_wire.specs.Udp as udp;
ghost use Rattle.wire_icmp.specs.Icmp.{packet_bytes};
ghost use Rattle.c_structs.specs.Verdicts.{cut_udp_verdict, icmp_verdict, ipv4_verdict, tcp_verdict, udp_verdict, zero_udp_verdict};
ghost use Rattle.c_structs.specs.declared.codes.Verdict.TheVariants as verdict;

use c_structs::Verdict;
use ip_wire::{IpAddress, Ipv4Packet, TcpPacket, UdpPacket};
use wire_icmp::IcmpPacket;

/// The verdict on the checksum of an IPv4 header.
#[inline(always)]
pub fn ipv4_verdict(packet: &Ipv4Packet<'_>) -> Verdict
    requires field { 1 ≤ length (ipv4.packet_bytes packet.now) }
    requires header { ipv4.header_len (ipv4.packet_bytes packet.now) ≤ length (ipv4.packet_bytes packet.now) }
    ensures { result ≡ ipv4_verdict (ipv4.packet_bytes packet.now) }
{
    if packet.verify_checksum() {
        Verdict::Right
    } else {
        Verdict::Wrong
    }
}

/// The verdict on the checksum of a UDP packet; `None` if its length is wrong.
#[inline(always)]
pub fn udp_verdict(packet: &UdpPacket<'_>, src_addr: &IpAddress, dst_addr: &IpAddress) -> Verdict
    requires { version_of src_addr.now ≡ version_of dst_addr.now }
    ensures { let bytes = udp.packet_bytes packet.now in
        result ≡ (if udp.has_lengths bytes then udp_verdict src_addr.now dst_addr.now bytes else verdict.None) }
{
    if packet.check_len().is_err() {
        Verdict::None
    } else if packet.checksum() == 0 {
        zero_udp_verdict(src_addr)
    } else if packet.verify_checksum(src_addr, dst_addr) {
        Verdict::Right
    } else {
        partial_udp_verdict(packet, *src_addr, *dst_addr)
    }
}

/// The verdict on the checksum of a UDP packet that was not captured as a whole.
pub fn cut_udp_verdict(packet: &UdpPacket<'_>, src_addr: &IpAddress) -> Verdict
    requires { 8 ≤ length (udp.packet_bytes packet.now) }
    ensures { result ≡ cut_udp_verdict src_addr.now (udp.packet_bytes packet.now) }
{
    if packet.checksum() == 0 {
        zero_udp_verdict(src_addr)
    } else {
        Verdict::ChecksumCut
    }
}

// The verdict on a checksum field of 0 in UDP.
#[inline(always)]
fn zero_udp_verdict(src_addr: &IpAddress) -> Verdict
    ensures { result ≡ zero_udp_verdict src_addr.now }
{
    match src_addr {
        IpAddress::Ipv4(_) => Verdict::LeftOut,
        IpAddress::Ipv6(_) => Verdict::Wrong,
    }
}

// The verdict on a checksum of UDP that is not right. A valid checksum needs no addresses in memory, so
// they are passed by value.
#[cold]
fn partial_udp_verdict(packet: &UdpPacket<'_>, src_addr: IpAddress, dst_addr: IpAddress) -> Verdict
    requires header { 8 ≤ length (udp.packet_bytes packet.now) }
    requires family { version_of src_addr ≡ version_of dst_addr }
    ensures { let bytes = udp.packet_bytes packet.now in
        result ≡ (if field bytes 48 16 == udp.pseudo_header_sum src_addr dst_addr bytes then verdict.LeftToDevice else verdict.Wrong) }
{
    if packet.verify_partial_checksum(&src_addr, &dst_addr) {
        Verdict::LeftToDevice
    } else {
        Verdict::Wrong
    }
}

/// The verdict on the checksum of a TCP segment.
#[inline(always)]
pub fn tcp_verdict(packet: &TcpPacket<'_>, src_addr: &IpAddress, dst_addr: &IpAddress) -> Verdict
    requires header { 18 ≤ length (tcp.packet_bytes packet.now) }
    requires family { version_of src_addr.now ≡ version_of dst_addr.now }
    ensures { result ≡ tcp_verdict src_addr.now dst_addr.now (tcp.packet_bytes packet.now) }
{
    if packet.verify_checksum(src_addr, dst_addr) {
        Verdict::Right
    } else {
        partial_tcp_verdict(packet, *src_addr, *dst_addr)
    }
}

// The verdict on a checksum of TCP that is not right.
#[cold]
fn partial_tcp_verdict(packet: &TcpPacket<'_>, src_addr: IpAddress, dst_addr: IpAddress) -> Verdict
    requires header { 18 ≤ length (tcp.packet_bytes packet.now) }
    requires family { version_of src_addr ≡ version_of dst_addr }
    ensures { let bytes = tcp.packet_bytes packet.now in
        result ≡ (if field bytes 128 16 == tcp.pseudo_header_sum src_addr dst_addr bytes then verdict.LeftToDevice else verdict.Wrong) }
{
    if packet.verify_partial_checksum(&src_addr, &dst_addr) {
        Verdict::LeftToDevice
    } else {
        Verdict::Wrong
    }
}

/// The verdict on the checksum of an ICMP message.
#[inline(always)]
pub fn icmp_verdict(packet: &IcmpPacket<'_>, src_addr: &IpAddress, dst_addr: &IpAddress) -> Verdict
    requires { version_of src_addr.now ≡ version_of dst_addr.now }
    ensures { result ≡ icmp_verdict src_addr.now dst_addr.now (packet_bytes packet.now) }
{
    if packet.verify_checksum(src_addr, dst_addr) {
        Verdict::Right
    } else {
        Verdict::Wrong
    }
}
