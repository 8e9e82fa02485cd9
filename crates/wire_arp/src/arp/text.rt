//! The printed words of a packet, and its fields if it does not parse.

ghost use Rattle.std.specs.Prelude.{Some};
ghost use Rattle.std.specs.Fmt.{WritesOnOk};
ghost use Rattle.wire_arp.specs.Arp.{HasLengths, packet_bytes};
ghost use Rattle.wire_arp.specs.ArpText.{addresses_text, fields_text, hardware_word, list_text, numbers_text, operation_word, protocol_word};

use super::{ArpHardware, ArpOperation, ArpPacket};
use std::fmt;
use wire_ethernet::EthernetProtocol;

/// Writes the fields of a packet.
pub fn write_fields<W: fmt::Write>(packet: &ArpPacket<'_>, f: &mut fmt::Formatter<W>) -> fmt::Result
    requires { HasLengths (packet_bytes packet.now) }
    ensures { WritesOnOk W.write_str_gives f.old result (fields_text (packet_bytes packet.now)) f.new }
{
    write_numbers(
        f,
        packet.hardware_type(),
        packet.protocol_type(),
        packet.hardware_len(),
        packet.protocol_len(),
        packet.operation(),
    )?;
    write_addresses(packet, f)
}

// Writes the numbers of a packet that does not parse, and the lengths of its addresses.
#[tactic(auto, unfolding(crate::specs::ArpText::numbers_text))]
fn write_numbers<W: fmt::Write>(
    f: &mut fmt::Formatter<W>,
    hardware: ArpHardware,
    protocol: EthernetProtocol,
    hlen: u8,
    plen: u8,
    operation: ArpOperation,
) -> fmt::Result
    ensures { WritesOnOk W.write_str_gives f.old result (numbers_text hardware protocol hlen plen operation) f.new }
{
    let htype = HardwareWord(hardware);
    let ptype = ProtocolWord(protocol);
    let op = OperationWord(operation);
    write!(
        f,
        "ARP (unrecognized) htype={htype} ptype={ptype} hlen={hlen} plen={plen} op={op}"
    )
}

// Writes the addresses.
#[tactic(auto, unfolding(crate::specs::ArpText::addresses_text))]
fn write_addresses<W: fmt::Write>(packet: &ArpPacket<'_>, f: &mut fmt::Formatter<W>) -> fmt::Result
    requires { HasLengths (packet_bytes packet.now) }
    ensures { WritesOnOk W.write_str_gives f.old result (addresses_text (packet_bytes packet.now)) f.new }
{
    let sha = Octets(packet.source_hardware_addr());
    let spa = Octets(packet.source_protocol_addr());
    let tha = Octets(packet.target_hardware_addr());
    let tpa = Octets(packet.target_protocol_addr());
    write!(f, " sha={sha} spa={spa} tha={tha} tpa={tpa}")
}

/// The bytes of an address, to print them as a list.
#[derive(Clone, Copy)]
struct Octets<'a>(&'a [u8]);

impl fmt::Display for Octets<'_> {
    ghost output = { λ octets. Some (list_text octets.0.now) };

    #[tactic(auto, using(crate::proofs::ArpTexts::debug_list_of_bytes))]
    fn fmt<W: fmt::Write>(&self, f: &mut fmt::Formatter<W>) -> fmt::Result {
        let octets = self.0;
        write!(f, "{octets:?}")
    }
}

/// A kind of hardware address, to print its name, or `Unknown` and its number.
#[derive(Clone, Copy)]
struct HardwareWord(ArpHardware);

impl fmt::Display for HardwareWord {
    ghost output = { λ word. Some (hardware_word word.0) };

    fn fmt<W: fmt::Write>(&self, f: &mut fmt::Formatter<W>) -> fmt::Result {
        match self.0 {
            ArpHardware::Ethernet => write!(f, "Ethernet"),
            ArpHardware::Unknown(number) => write!(f, "Unknown({number})"),
        }
    }
}

/// A protocol, to print its name, or `Unknown` and its number.
#[derive(Clone, Copy)]
struct ProtocolWord(EthernetProtocol);

impl fmt::Display for ProtocolWord {
    ghost output = { λ word. Some (protocol_word word.0) };

    fn fmt<W: fmt::Write>(&self, f: &mut fmt::Formatter<W>) -> fmt::Result {
        match self.0 {
            EthernetProtocol::Ipv4 => write!(f, "Ipv4"),
            EthernetProtocol::Arp => write!(f, "Arp"),
            EthernetProtocol::Ipv6 => write!(f, "Ipv6"),
            EthernetProtocol::Unknown(number) => write!(f, "Unknown({number})"),
        }
    }
}

/// An operation, to print its name, or `Unknown` and its number.
#[derive(Clone, Copy)]
pub struct OperationWord(pub ArpOperation);

impl fmt::Display for OperationWord {
    ghost output = { λ word. Some (operation_word word.0) };

    fn fmt<W: fmt::Write>(&self, f: &mut fmt::Formatter<W>) -> fmt::Result {
        match self.0 {
            ArpOperation::Request => write!(f, "Request"),
            ArpOperation::Reply => write!(f, "Reply"),
            ArpOperation::Unknown(number) => write!(f, "Unknown({number})"),
        }
    }
}
