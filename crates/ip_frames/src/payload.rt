//! The lines of a frame's payload.

ghost use Rattle.std.specs.Prelude.{◌≡◌, ◌==◌, ◌++◌, OnOk, drop, false};
ghost use Rattle.ip_frames.specs.Output.{AddsText, checksum_note, ended, fragment_header_line, fragment_line, payload_lines};
ghost use Rattle.ip_wire.specs.ArpText as arp_texts;
ghost use Rattle.ip_wire.specs.Field.{field};
ghost use Rattle.ip_wire.specs.Frame.{ReadsPacket, all_checked, packet_payload, type_of};
ghost use Rattle.ip_wire.specs.FrameValue.{FindsCarried, FindsTransport, ReadsNothing};
ghost use Rattle.ip_wire.specs.Ipv4.{HasLengths, fragment_offset, ipv4_of, packet_bytes};
ghost use Rattle.ip_wire.specs.Ipv4Text.{packet_text};

use crate::transport::push_transport;
use ip_wire::{
    ArpPacket, ArpRepr, Carried, ChecksumCapabilities, EthernetProtocol, Frame, IpProtocol, IpRepr,
    Ipv4Packet, Ipv4Repr, Ipv6FragmentHeader, Ipv6Packet, Transport,
};
use std::alloc::AllocError;

/// Appends the lines of a frame's payload to `text`. The value says what was parsed of `bytes`, and
/// the views print the fields that it does not hold.
pub fn push_payload(frame: &Frame<'_>, bytes: &[u8], text: &mut String) -> Result<(), AllocError>
    requires { FindsCarried all_checked frame.now.header.ethertype bytes.now frame.now.carried }
    ensures { OnOk result (AddsText text.old text.new (payload_lines frame.now.header.ethertype bytes.now)) }
{
    match &frame.carried {
        Carried::Arp(value) => push_message(value, text),
        Carried::Packet(header, inner) => push_packet(header, inner, bytes, text),
        Carried::Fragment(packet) => push_fragment(packet, text),
        Carried::Unread(bytes) => push_unread(frame.header.ethertype, bytes, text),
    }
}

// Appends the line of an ARP packet that parses.
fn push_message(value: &ArpRepr, text: &mut String) -> Result<(), AllocError>
    ensures { OnOk result (AddsText text.old text.new (ended (arp_texts.value_text value.now))) }
{
    writeln!(text, "{value}")
}

// Appends the line of an ARP packet.
fn push_arp(bytes: &[u8], text: &mut String) -> Result<(), AllocError>
    ensures { OnOk result (AddsText text.old text.new (ended (arp_texts.packet_text bytes.now))) }
{
    let packet = ArpPacket::new_unchecked(bytes);
    writeln!(text, "{packet}")
}

// Appends the lines of an IP packet.
fn push_packet(
    header: &IpRepr,
    inner: &Transport<'_>,
    bytes: &[u8],
    text: &mut String,
) -> Result<(), AllocError>
    requires packet { ReadsPacket all_checked bytes.now header.now }
    requires transport { FindsTransport all_checked header.now (packet_payload header.now bytes.now) inner.now }
    ensures { OnOk result (AddsText text.old text.new (payload_lines (type_of header.now) bytes.now)) }
{
    match header {
        IpRepr::Ipv4(value) => {
            let packet = Ipv4Packet::new_unchecked(bytes);
            writeln!(text, "{value}")?;
            push_transport(header, inner, packet.payload(), text)
        }
        IpRepr::Ipv6(value) => {
            let packet = Ipv6Packet::new_unchecked(bytes);
            writeln!(text, "{value}")?;
            match value.next_header {
                IpProtocol::Ipv6Frag => push_fragment_header(packet.payload(), text),
                _ => push_transport(header, inner, packet.payload(), text),
            }
        }
    }
}

// Appends the lines of a fragment of an IPv4 packet.
#[tactic(auto, unfolding(crate::specs::Output::fragment_line))]
fn push_fragment(packet: &Ipv4Packet<'_>, text: &mut String) -> Result<(), AllocError>
    requires { HasLengths (packet_bytes packet.now) }
    ensures { let bytes = packet_bytes packet.now in
        OnOk result (AddsText text.old text.new (ended (packet_text bytes) ++ fragment_line (fragment_offset bytes) (field bytes 50 1 == 1) (field bytes 32 16))) }
{
    writeln!(text, "{packet}")?;
    push_fragment_line(
        packet.frag_offset(),
        packet.more_frags(),
        packet.ident(),
        text,
    )
}

// Appends the line with the place of a fragment.
#[tactic(auto, unfolding(crate::specs::Output::fragment_line))]
fn push_fragment_line(offset: u16, more: bool, id: u16, text: &mut String) -> Result<(), AllocError>
    ensures { OnOk result (AddsText text.old text.new (fragment_line offset more id)) }
{
    writeln!(text, "fragment offset={offset} more={more} id={id}")
}

// Appends the line of the fragment header at the front of a payload.
#[tactic(auto, unfolding(crate::specs::Output::fragment_header_line))]
fn push_fragment_header(payload: &[u8], text: &mut String) -> Result<(), AllocError>
    ensures { OnOk result (AddsText text.old text.new (fragment_header_line payload.now)) }
{
    let header = Ipv6FragmentHeader::new_unchecked(skip_next_header(payload));
    writeln!(text, "{header}")
}

// The bytes of a fragment header after the next header and the reserved byte. The view begins
// there (RFC 8200, section 4.5).
fn skip_next_header(bytes: &[u8]) -> &[u8]
    ensures { result.now ≡ drop 2 bytes.now }
{
    match bytes {
        [_, _, rest @ ..] => rest,
        _ => &[],
    }
}

// Appends the line of a payload that does not parse, by its EtherType.
fn push_unread(
    ethertype: EthernetProtocol,
    bytes: &[u8],
    text: &mut String,
) -> Result<(), AllocError>
    requires { ReadsNothing all_checked ethertype bytes.now }
    ensures { OnOk result (AddsText text.old text.new (payload_lines ethertype bytes.now)) }
{
    match ethertype {
        EthernetProtocol::Ipv4 => {
            let packet = Ipv4Packet::new_unchecked(bytes);
            let note = checksum_note(&packet);
            writeln!(text, "{packet}{note}")
        }
        EthernetProtocol::Ipv6 => {
            let packet = Ipv6Packet::new_unchecked(bytes);
            writeln!(text, "{packet}")
        }
        EthernetProtocol::Arp => push_arp(bytes, text),
        EthernetProtocol::Unknown(_) => Ok(()),
    }
}

// The note on a packet that does not parse: whether it parses without its checksum.
fn checksum_note(packet: &Ipv4Packet<'_>) -> &'static str
    ensures { result.now ≡ checksum_note (ipv4_of false (packet_bytes packet.now)) }
{
    match Ipv4Repr::parse(packet, &ChecksumCapabilities::ignored()) {
        Ok(_) => " (checksum incorrect)",
        Err(_) => "",
    }
}
