//! Laws of this crate. A law states a fact about definitions, and its body does nothing. The laws
//! `.._by_version_ip` compare calls: their bodies make both.

ghost use Rattle.std.specs.Prelude.{◌≡◌, ◌↔◌, ◌+◌, ◌++◌, ◌≤◌, IsTrue, None, Some, length, option_map};
ghost use Rattle.std.specs.Result.{result_ok};
ghost use Rattle.wire_addr.specs.IpVersion.{packet_version};
ghost use Rattle.wire_addr.specs.declared.ip_version.IpVersion.TheVariants as version;
ghost use Rattle.wire_ipv4.specs.Ipv4 as v4;
ghost use Rattle.wire_ipv6.specs.Ipv6 as v6;
ghost use Rattle.wire_ip.specs.Ip.{Reads, ReadsHeader, bytes_of, header_len_of, ip_of, max_payload_len, normal, packet_bytes, payload_len_of, payload_of, version_of};
ghost use Rattle.wire_ip.specs.declared.ip.repr.IpRepr.TheVariants.{Ipv4, Ipv6};

use crate::ip::{IpPacket, IpRepr};
use net_base::{ChecksumCapabilities, Result};
use wire_addr::IpVersion;
use wire_ipv4::{Ipv4Packet, Ipv4PacketMut, Ipv4Repr};
use wire_ipv6::{Ipv6Packet, Ipv6PacketMut, Ipv6Repr};

/// The header of a value, with its payload and any bytes after it, parses as the value's normal
/// form, where a checksum that is verified was computed.
pub fn emit_reads_back_ip(value: IpRepr, rest: &[u8], computed: bool, verified: bool)
    requires payload_len { payload_len_of value ≤ max_payload_len value }
    requires payload { payload_len_of value ≤ length rest.now }
    requires checksum { IsTrue verified → IsTrue computed }
    ensures { Reads (bytes_of value computed ++ rest.now) verified (normal value) }
{}

/// No bytes parse as two values.
pub fn reads_once_ip(bytes: &[u8], verified: bool, value: IpRepr, other: IpRepr)
    requires value { Reads bytes.now verified value }
    requires other { Reads bytes.now verified other }
    ensures { value ≡ other }
{}

/// The computed value of bytes is the value that they parse as.
pub fn reading_is_computed_ip(bytes: &[u8], verified: bool, value: IpRepr)
    ensures { (ip_of verified bytes.now ≡ Some value) ↔ Reads bytes.now verified value }
{}

/// The normal form of a normal form is itself, and a parsed value is in normal form.
pub fn normal_twice_ip(bytes: &[u8], verified: bool, value: IpRepr)
    ensures twice { normal (normal value) ≡ normal value }
    ensures read { Reads bytes.now verified value → normal value ≡ value }
{}

/// The header emitted for a parsed value, with the payload, is never longer than the parsed bytes.
pub fn no_more_bytes_ip(bytes: &[u8], verified: bool, computed: bool, value: IpRepr)
    requires { Reads bytes.now verified value }
    ensures { length (bytes_of value computed) + payload_len_of value ≤ length bytes.now }
{}

/// The emitted header has the length that `header_len` returns.
pub fn header_length_ip(value: IpRepr, computed: bool)
    ensures { length (bytes_of value computed) ≡ header_len_of value }
{}

/// The payload of a parsed packet has the length that the value names, and the header of a value
/// can express it.
pub fn read_payload_fits_ip(bytes: &[u8], verified: bool, value: IpRepr)
    requires { ReadsHeader bytes.now verified value }
    ensures len { length (payload_of bytes.now (version_of value)) ≡ payload_len_of value }
    ensures fits { payload_len_of value ≤ max_payload_len value }
{}

/// A packet parses as by the `parse` of its version, with the same capabilities. The result has the three
/// results: of either version, of IPv4 and of IPv6.
pub fn parses_by_version_ip(
    packet: &IpPacket<'_>,
    ipv4: &Ipv4Packet<'_>,
    ipv6: &Ipv6Packet<'_>,
    caps: &ChecksumCapabilities,
) -> (Result<IpRepr>, Result<Ipv4Repr>, Result<Ipv6Repr>)
    requires ipv4 { v4.packet_bytes ipv4.now ≡ packet_bytes packet.now }
    requires ipv6 { v6.packet_bytes ipv6.now ≡ packet_bytes packet.now }
    ensures ipv4 { packet_version (packet_bytes packet.now) ≡ Some version.Ipv4 → result_ok result.0 ≡ option_map Ipv4 (result_ok result.1) }
    ensures ipv6 { packet_version (packet_bytes packet.now) ≡ Some version.Ipv6 → result_ok result.0 ≡ option_map Ipv6 (result_ok result.2) }
    ensures other { packet_version (packet_bytes packet.now) ≡ None → result_ok result.0 ≡ None }
{
    (
        IpRepr::parse(packet, caps),
        Ipv4Repr::parse(ipv4, caps),
        Ipv6Repr::parse(ipv6),
    )
}

/// A header is written as by the `emit` of its version, with the same capabilities.
pub fn emits_by_version_ip(
    value: &IpRepr,
    caps: &ChecksumCapabilities,
    buffer: &mut [u8],
    other: &mut [u8],
)
    requires same { buffer.old ≡ other.old }
    requires room { header_len_of value.now ≤ length buffer.old }
    requires payload_len { payload_len_of value.now ≤ max_payload_len value.now }
    ensures { buffer.new ≡ other.new }
{
    value.emit(buffer, caps);
    match value {
        IpRepr::Ipv4(value) => value.emit(&mut Ipv4PacketMut::new_unchecked(other), caps),
        IpRepr::Ipv6(value) => value.emit(&mut Ipv6PacketMut::new_unchecked(other)),
    }
}

/// The payload of a packet is that of the view of its version. The result says whether both are equal, or
/// both missing.
pub fn payload_by_version_ip(bytes: &[u8]) -> bool
    ensures { IsTrue result }
{
    let payload = IpPacket::new_unchecked(bytes).payload();
    match IpVersion::of_packet(bytes) {
        Ok(IpVersion::Ipv4) => {
            let packet = Ipv4Packet::new_unchecked(bytes);
            match payload {
                Ok(payload) => payload == packet.payload(),
                Err(_) => packet.check_len().is_err(),
            }
        }
        Ok(IpVersion::Ipv6) => {
            let packet = Ipv6Packet::new_unchecked(bytes);
            match payload {
                Ok(payload) => payload == packet.payload(),
                Err(_) => packet.check_len().is_err(),
            }
        }
        Err(_) => payload.is_err(),
    }
}
