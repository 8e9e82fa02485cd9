//! Laws of this crate. A law states a fact about definitions, or about the calls in its body.

ghost use Rattle.std.specs.Prelude.{◌≡◌, ◌↔◌, ◌++◌, ◌≤◌, IsTrue, Some, length, true};
ghost use Rattle.wire_addr.specs.Order.{named_cmp};
ghost use Rattle.net_base.specs.Diagram.{end_of, nth_field};
ghost use Rattle.wire_arp.specs.Arp.{Reads, arp_of, bytes_of, hardware_number, is_unknown_hardware, is_unknown_operation, normal, operation_number, packet_bytes, packet_bytes_mut};
ghost use Rattle.wire_arp.specs.ArpFields.{Fits, IsGot, address_of, after, diagram, got, read_of, widths, write_of};

use crate::arp::{ArpHardware, ArpOperation, ArpPacket, ArpPacketMut, ArpRepr};
use net_base::laws::bytes_fit;
use wire_ethernet::EthernetProtocol;

/// The packet of a value, with any bytes after it, parses as the value's normal form.
pub fn emit_reads_back_arp(value: ArpRepr, rest: &[u8])
    ensures { Reads (bytes_of value ++ rest.now) (normal value) }
{}

/// No bytes parse as two values.
pub fn reads_once_arp(bytes: &[u8], value: ArpRepr, other: ArpRepr)
    requires value { Reads bytes.now value }
    requires other { Reads bytes.now other }
    ensures { value ≡ other }
{}

/// The value computed from bytes is the one that they parse as.
pub fn reading_is_computed_arp(bytes: &[u8], value: ArpRepr)
    ensures { (arp_of bytes.now ≡ Some value) ↔ Reads bytes.now value }
{}

/// A normal form is its own, and a value that was read is in its normal form.
pub fn normal_twice_arp(bytes: &[u8], value: ArpRepr)
    ensures twice { normal (normal value) ≡ normal value }
    ensures read { Reads bytes.now value → normal value ≡ value }
{}

/// What was read is emitted in no more bytes than it was read from.
pub fn no_more_bytes_arp(bytes: &[u8], value: ArpRepr)
    requires { Reads bytes.now value }
    ensures { length (bytes_of value) ≤ length bytes.now }
{}

/// Kinds of hardware addresses are equal exactly as values are. Those with a name come before unknown
/// numbers.
pub fn arp_hardware_order(a: ArpHardware, b: ArpHardware)
    ensures order { ⟦<ArpHardware as Ord>⟧.cmp a b ≡ named_cmp is_unknown_hardware hardware_number a b }
    ensures equal { (⟦<ArpHardware as PartialEq>⟧.eq a b ≡ true) ↔ (a ≡ b) }
{}

/// Operations are equal exactly as values are. Those with a name come before unknown numbers.
pub fn arp_operation_order(a: ArpOperation, b: ArpOperation)
    ensures order { ⟦<ArpOperation as Ord>⟧.cmp a b ≡ named_cmp is_unknown_operation operation_number a b }
    ensures equal { (⟦<ArpOperation as PartialEq>⟧.eq a b ≡ true) ↔ (a ≡ b) }
{}

/// The fields of a packet for Ethernet and IPv4 are those of the diagram.
pub fn ethernet_ipv4_has_the_diagram_arp(bytes: &[u8])
    requires hardware { nth_field diagram 2 bytes.now ≡ 6 }
    requires protocol { nth_field diagram 3 bytes.now ≡ 4 }
    ensures { widths bytes.now ≡ diagram }
{}

/// A call of a setter.
#[derive(Debug, Clone, Copy)]
pub enum ArpSetting<'a> {
    HardwareType(ArpHardware),
    ProtocolType(EthernetProtocol),
    HardwareLen(u8),
    ProtocolLen(u8),
    Operation(ArpOperation),
    SourceHardwareAddr(&'a [u8]),
    SourceProtocolAddr(&'a [u8]),
    TargetHardwareAddr(&'a [u8]),
    TargetProtocolAddr(&'a [u8]),
}

/// A setter writes its field, and nothing else. The places of the addresses are those before the write.
pub fn setter_writes_one_field_arp(packet: &mut ArpPacketMut<'_>, setting: ArpSetting<'_>)
    requires lengths { let bytes = packet_bytes_mut packet.old in end_of (widths bytes) (write_of setting).0 ≤ length bytes }
    requires fits { Fits setting (packet_bytes_mut packet.old) }
    ensures { packet_bytes_mut packet.new ≡ after setting.entry (packet_bytes_mut packet.old) }
{
    match setting {
        ArpSetting::HardwareType(x) => packet.set_hardware_type(x),
        ArpSetting::ProtocolType(x) => packet.set_protocol_type(x),
        ArpSetting::HardwareLen(x) => packet.set_hardware_len(x),
        ArpSetting::ProtocolLen(x) => packet.set_protocol_len(x),
        ArpSetting::Operation(x) => packet.set_operation(x),
        ArpSetting::SourceHardwareAddr(x) => {
            bytes_fit(x);
            packet.set_source_hardware_addr(x)
        }
        ArpSetting::SourceProtocolAddr(x) => {
            bytes_fit(x);
            packet.set_source_protocol_addr(x)
        }
        ArpSetting::TargetHardwareAddr(x) => {
            bytes_fit(x);
            packet.set_target_hardware_addr(x)
        }
        ArpSetting::TargetProtocolAddr(x) => {
            bytes_fit(x);
            packet.set_target_protocol_addr(x)
        }
    }
}

/// A call of a getter of a field before the addresses.
#[derive(Debug, Clone, Copy)]
pub enum ArpGetting {
    HardwareType,
    ProtocolType,
    HardwareLen,
    ProtocolLen,
    Operation,
}

/// A getter returns the number in its field.
pub fn getters_read_fields_arp(packet: &ArpPacket<'_>, getting: ArpGetting) -> u16
    requires { end_of diagram (read_of getting) ≤ length (packet_bytes packet.now) }
    ensures { result ≡ got getting (packet_bytes packet.now) }
{
    match getting {
        ArpGetting::HardwareType => packet.hardware_type().number(),
        ArpGetting::ProtocolType => packet.protocol_type().number(),
        ArpGetting::HardwareLen => packet.hardware_len().into(),
        ArpGetting::ProtocolLen => packet.protocol_len().into(),
        ArpGetting::Operation => packet.operation().number(),
    }
}

/// A call of the getter of an address.
#[derive(Debug, Clone, Copy)]
pub enum ArpAddressGetting {
    SourceHardwareAddr,
    SourceProtocolAddr,
    TargetHardwareAddr,
    TargetProtocolAddr,
}

/// A getter of an address returns its field, of the length that the packet names.
pub fn address_getters_read_fields_arp<'a>(
    packet: &ArpPacket<'a>,
    getting: ArpAddressGetting,
) -> &'a [u8]
    requires { let bytes = packet_bytes packet.now in end_of (widths bytes) (address_of getting) ≤ length bytes }
    ensures { IsGot getting result.now (packet_bytes packet.now) }
{
    bytes_fit(packet.as_bytes());
    match getting {
        ArpAddressGetting::SourceHardwareAddr => packet.source_hardware_addr(),
        ArpAddressGetting::SourceProtocolAddr => packet.source_protocol_addr(),
        ArpAddressGetting::TargetHardwareAddr => packet.target_hardware_addr(),
        ArpAddressGetting::TargetProtocolAddr => packet.target_protocol_addr(),
    }
}

/// A getter of an address of a mutable view returns its field, of the length that the packet names.
pub fn mutable_address_getters_read_fields_arp<'a>(
    packet: &'a ArpPacketMut<'_>,
    getting: ArpAddressGetting,
) -> &'a [u8]
    requires { let bytes = packet_bytes_mut packet.now in end_of (widths bytes) (address_of getting) ≤ length bytes }
    ensures { IsGot getting result.now (packet_bytes_mut packet.now) }
{
    bytes_fit(packet.as_bytes());
    match getting {
        ArpAddressGetting::SourceHardwareAddr => packet.source_hardware_addr(),
        ArpAddressGetting::SourceProtocolAddr => packet.source_protocol_addr(),
        ArpAddressGetting::TargetHardwareAddr => packet.target_hardware_addr(),
        ArpAddressGetting::TargetProtocolAddr => packet.target_protocol_addr(),
    }
}

/// `new_unchecked`, `as_view` and `into_inner` keep the bytes.
/// `new_checked` accepts what `check_len` accepts.
pub fn views_have_the_bytes_arp(bytes: &[u8]) -> bool
    ensures { IsTrue result }
{
    let packet = ArpPacket::new_unchecked(bytes);
    packet.as_bytes() == bytes
        && packet.as_view().as_bytes() == bytes
        && packet.into_inner() == bytes
        && ArpPacket::new_checked(bytes).is_ok() == packet.check_len().is_ok()
}
