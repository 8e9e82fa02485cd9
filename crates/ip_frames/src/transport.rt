//! The line of a UDP packet or a TCP segment.

ghost use Rattle.std.specs.Prelude.{◌≡◌, ◌++◌, OnOk, codes, decimal, length};
ghost use Rattle.ip_frames.specs.Output.{AddsText, ended, tcp_format, transport_lines, udp_format, unread_verdict, verdict_after};
ghost use Rattle.ip_wire.specs.Frame as frame;
ghost use Rattle.ip_wire.specs.Frame.{ReadsTransport, all_checked};
ghost use Rattle.ip_wire.specs.FrameValue.{FindsTransport};
ghost use Rattle.ip_wire.specs.Tcp as tcp;
ghost use Rattle.ip_wire.specs.TcpText as tcp_texts;
ghost use Rattle.ip_wire.specs.Udp as udp;
ghost use Rattle.ip_wire.specs.UdpText as udp_texts;

use ip_wire::{
    ChecksumCapabilities, IpProtocol, IpRepr, TcpPacket, TcpRepr, Transport, UdpPacket, UdpRepr,
};
use std::alloc::AllocError;

/// Appends the line of the payload of an IP packet to `text`. The value says what was parsed of
/// `bytes`. Views print what a value does not hold.
pub fn push_transport(
    header: &IpRepr,
    inner: &Transport<'_>,
    bytes: &[u8],
    text: &mut String,
) -> Result<(), AllocError>
    requires { FindsTransport all_checked header.now bytes.now inner.now }
    ensures { OnOk result (AddsText text.old text.new (transport_lines header.now bytes.now)) }
{
    match inner {
        Transport::Udp(ports, payload) => push_datagram(ports, payload, text),
        Transport::Tcp(_) => push_tcp(&TcpPacket::new_unchecked(bytes), "", text),
        Transport::Other(_) => Ok(()),
        Transport::Unread(_) => push_unread(header, bytes, text),
    }
}

// Appends the line of a UDP packet or a TCP segment that does not parse with its checksum.
fn push_unread(header: &IpRepr, bytes: &[u8], text: &mut String) -> Result<(), AllocError>
    requires { (t : frame.Transport) → ¬ ReadsTransport all_checked header.now bytes.now t }
    ensures { OnOk result (AddsText text.old text.new (transport_lines header.now bytes.now)) }
{
    match header.next_header() {
        IpProtocol::Udp => {
            let packet = UdpPacket::new_unchecked(bytes);
            push_udp(&packet, udp_verdict(&packet, header), text)
        }
        IpProtocol::Tcp => {
            let packet = TcpPacket::new_unchecked(bytes);
            push_tcp(&packet, tcp_verdict(&packet, header), text)
        }
        _ => Ok(()),
    }
}

// Appends the line of a UDP packet that parses.
fn push_datagram(ports: &UdpRepr, payload: &[u8], text: &mut String) -> Result<(), AllocError>
    ensures { OnOk result (AddsText text.old text.new (ended (udp_texts.value_text ports.now ++ codes " len=" ++ decimal (length payload.now)))) }
{
    let len = payload.len();
    writeln!(text, "{ports} len={len}")
}

// Appends the line of a UDP packet, with this note.
fn push_udp(packet: &UdpPacket<'_>, note: &str, text: &mut String) -> Result<(), AllocError>
    ensures { OnOk result (AddsText text.old text.new (ended (udp_texts.packet_text (udp.packet_bytes packet.now) ++ note.now))) }
{
    writeln!(text, "{packet}{note}")
}

// Appends the line of a TCP segment, with this note.
fn push_tcp(packet: &TcpPacket<'_>, note: &str, text: &mut String) -> Result<(), AllocError>
    ensures { OnOk result (AddsText text.old text.new (ended (tcp_texts.packet_text (tcp.packet_bytes packet.now) ++ note.now))) }
{
    writeln!(text, "{packet}{note}")
}

// The note on a UDP packet that does not parse with its checksum.
fn udp_verdict(packet: &UdpPacket<'_>, header: &IpRepr) -> &'static str
    ensures { result.now ≡ verdict_after udp_format header.now (udp.packet_bytes packet.now) }
{
    if packet.check_len().is_err() {
        return "";
    }
    let (src, dst) = (header.src_addr(), header.dst_addr());
    let is_read = UdpRepr::parse(packet, &src, &dst, &ChecksumCapabilities::ignored()).is_ok();
    unread_verdict(is_read, packet.verify_partial_checksum(&src, &dst))
}

// The note on a TCP segment that does not parse with its checksum.
fn tcp_verdict(packet: &TcpPacket<'_>, header: &IpRepr) -> &'static str
    ensures { result.now ≡ verdict_after tcp_format header.now (tcp.packet_bytes packet.now) }
{
    if packet.check_len().is_err() {
        return "";
    }
    let (src, dst) = (header.src_addr(), header.dst_addr());
    let is_read = TcpRepr::parse(packet, &src, &dst, &ChecksumCapabilities::ignored()).is_ok();
    unread_verdict(is_read, packet.verify_partial_checksum(&src, &dst))
}

// The note on a UDP packet or TCP segment with valid lengths that does not parse: whether it
// parses without its checksum, and whether the checksum is only the pseudo-header sum.
fn unread_verdict(is_read: bool, is_partial: bool) -> &'static str
    ensures { result.now ≡ unread_verdict is_read is_partial }
{
    match (is_read, is_partial) {
        (false, _) => " (refused)",
        (true, true) => " (partial checksum correct)",
        (true, false) => " (checksum incorrect)",
    }
}
