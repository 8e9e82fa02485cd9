//! Laws of UDP. A law states a fact about definitions, or about the calls in its body.

ghost use Rattle.std.specs.Prelude.{◌≡◌, ◌≢◌, ◌↔◌, ◌++◌, ◌%◌, ◌≤◌, IsTrue, List, Some, false, length, true, ℕ};
ghost use Rattle.wire_addr.specs.IpAddress.{address_bytes, version_of};
ghost use Rattle.wire_addr.specs.declared.ip_address.IpAddress.{IpAddress};
ghost use Rattle.net_base.specs.Diagram.{end_of, nth_field};
ghost use Rattle.wire_udp.specs.Udp.{HasChecksum, HasLengths, Reads, Verifies, bytes_of, checksum_of, max_payload_len, packet_bytes, packet_bytes_mut, packet_len, payload_of, udp_of, with_checksum, with_checksum_field, with_dst_port, with_src_port};
ghost use Rattle.wire_udp.specs.UdpFields.{address_after, address_before, after, after_fill, after_update, diagram, got, read_of, with_sums, write_of};
ghost use Rattle.wire_udp.specs.declared.udp.repr.UdpRepr.{UdpRepr};

use crate::udp::{UDP_HEADER_LEN, UdpPacket, UdpPacketMut, UdpRepr};
use net_base::laws::bytes_fit;
use wire_addr::IpAddress;

/// The emitted packet, with any bytes after it, parses as the same value and payload. A checksum
/// that is verified must have been computed.
pub fn emit_reads_back_udp(
    value: UdpRepr,
    src_addr: IpAddress,
    dst_addr: IpAddress,
    payload: &[u8],
    rest: &[u8],
    computed: bool,
    verified: bool,
)
    requires payload_len { length payload.now ≤ max_payload_len }
    requires receiver { value.dst_port ≢ 0 }
    requires family { version_of src_addr ≡ version_of dst_addr }
    requires checksum { IsTrue verified → IsTrue computed }
    ensures { Reads (bytes_of value payload.now src_addr dst_addr computed ++ rest.now) src_addr dst_addr verified value payload.now }
{}

/// Bytes parse as at most one value and payload.
pub fn reads_once_udp(
    bytes: &[u8],
    src_addr: IpAddress,
    dst_addr: IpAddress,
    verified: bool,
    value: UdpRepr,
    payload: &[u8],
    other: UdpRepr,
    other_payload: &[u8],
)
    requires value { Reads bytes.now src_addr dst_addr verified value payload.now }
    requires other { Reads bytes.now src_addr dst_addr verified other other_payload.now }
    ensures value { value ≡ other }
    ensures payload { payload.now ≡ other_payload.now }
{}

/// `udp_of` computes the value that the bytes parse as, if there is one.
pub fn reading_is_computed_udp(
    bytes: &[u8],
    src_addr: IpAddress,
    dst_addr: IpAddress,
    verified: bool,
    value: UdpRepr,
)
    ensures { (udp_of src_addr dst_addr verified bytes.now ≡ Some value) ↔ Reads bytes.now src_addr dst_addr verified value (payload_of bytes.now) }
{}

/// The emitted packet is never longer than the bytes that were parsed.
pub fn no_more_bytes_udp(
    bytes: &[u8],
    src_addr: IpAddress,
    dst_addr: IpAddress,
    verified: bool,
    computed: bool,
    value: UdpRepr,
    payload: &[u8],
)
    requires { Reads bytes.now src_addr dst_addr verified value payload.now }
    ensures { length (bytes_of value payload.now src_addr dst_addr computed) ≤ length bytes.now }
{}

/// A parsed payload is no longer than the longest one that a header can state.
pub fn read_payload_fits_udp(
    bytes: &[u8],
    src_addr: IpAddress,
    dst_addr: IpAddress,
    verified: bool,
    value: UdpRepr,
    payload: &[u8],
)
    requires { Reads bytes.now src_addr dst_addr verified value payload.now }
    ensures { length payload.now ≤ max_payload_len }
{}

/// A checksum that `fill_checksum` wrote is valid, and the packet parses as the same value with it.
pub fn filled_checksum_verifies_udp(bytes: &[u8], src_addr: IpAddress, dst_addr: IpAddress)
    requires lengths { HasLengths bytes.now }
    requires family { version_of src_addr ≡ version_of dst_addr }
    ensures valid { HasChecksum src_addr dst_addr (with_checksum src_addr dst_addr bytes.now) }
    ensures written { checksum_of (with_checksum src_addr dst_addr bytes.now) ≢ 0 }
    ensures verifies { Verifies src_addr dst_addr (with_checksum src_addr dst_addr bytes.now) }
    ensures reads { (v : UdpRepr) (payload : List ℕ) → Reads bytes.now src_addr dst_addr false v payload
        → Reads (with_checksum src_addr dst_addr bytes.now) src_addr dst_addr true v payload }
{}

/// A value that parses with its checksum not verified also parses with the checksum verified, exactly
/// if the checksum is valid.
pub fn valid_checksum_reads_udp(
    bytes: &[u8],
    src_addr: IpAddress,
    dst_addr: IpAddress,
    value: UdpRepr,
    payload: &[u8],
)
    ensures { Reads bytes.now src_addr dst_addr true value payload.now
        ↔ (Reads bytes.now src_addr dst_addr false value payload.now × HasChecksum src_addr dst_addr bytes.now) }
{}

/// Writing one field changes one value, and no other. The checksum is not part of the value, and is
/// not verified here.
pub fn one_value_changes_udp(
    bytes: &[u8],
    src_addr: IpAddress,
    dst_addr: IpAddress,
    value: UdpRepr,
    payload: &[u8],
    word: u16,
)
    requires { Reads bytes.now src_addr dst_addr false value payload.now }
    ensures src_port { Reads (with_src_port bytes.now word) src_addr dst_addr false (record value { src_port = word }) payload.now }
    ensures dst_port { word ≢ 0 → Reads (with_dst_port bytes.now word) src_addr dst_addr false (record value { dst_port = word }) payload.now }
    ensures checksum { Reads (with_checksum_field bytes.now word) src_addr dst_addr false value payload.now }
{}

/// A call of a setter.
#[derive(Debug, Clone, Copy)]
pub enum UdpSetting {
    SrcPort(u16),
    DstPort(u16),
    Len(u16),
    Checksum(u16),
}

/// A setter writes its field of the header's diagram, and nothing else.
pub fn setter_writes_one_field_udp(packet: &mut UdpPacketMut<'_>, setting: UdpSetting)
    requires { end_of diagram (write_of setting).0 ≤ length (packet_bytes_mut packet.old) }
    ensures { packet_bytes_mut packet.new ≡ after setting (packet_bytes_mut packet.old) }
{
    match setting {
        UdpSetting::SrcPort(x) => packet.set_src_port(x),
        UdpSetting::DstPort(x) => packet.set_dst_port(x),
        UdpSetting::Len(x) => packet.set_len(x),
        UdpSetting::Checksum(x) => packet.set_checksum(x),
    }
}

/// A call of a getter.
#[derive(Debug, Clone, Copy)]
pub enum UdpGetting {
    SrcPort,
    DstPort,
    Len,
    Checksum,
}

/// A getter returns the number in its field of the header's diagram.
pub fn getters_read_fields_udp(packet: &UdpPacket<'_>, getting: UdpGetting) -> u16
    requires { end_of diagram (read_of getting) ≤ length (packet_bytes packet.now) }
    ensures { result ≡ got getting (packet_bytes packet.now) }
{
    match getting {
        UdpGetting::SrcPort => packet.src_port(),
        UdpGetting::DstPort => packet.dst_port(),
        UdpGetting::Len => packet.len(),
        UdpGetting::Checksum => packet.checksum(),
    }
}

/// A call that writes the checksum too: for a new port, or for an old and a new address.
#[derive(Debug, Clone, Copy)]
pub enum UdpUpdate {
    SrcPort(u16),
    DstPort(u16),
    Address(IpAddress, IpAddress),
}

/// An update writes its field of the header's diagram and the checksum, and nothing else. A valid
/// checksum stays valid.
pub fn update_writes_two_fields_udp(packet: &mut UdpPacketMut<'_>, update: UdpUpdate)
    requires header { 8 ≤ length (packet_bytes_mut packet.old) }
    requires family { (address : IpAddress) → version_of (address_before update address) ≡ version_of (address_after update address) }
    ensures fields { packet_bytes_mut packet.new ≡ after_update update (packet_bytes_mut packet.old) }
    ensures valid_src { (src dst : IpAddress) → length (address_bytes src) % 2 ≡ 0 → length (address_bytes dst) % 2 ≡ 0 → HasLengths (packet_bytes_mut packet.old)
        → HasChecksum (address_before update src) dst (packet_bytes_mut packet.old) → HasChecksum (address_after update src) dst (packet_bytes_mut packet.new) }
    ensures valid_dst { (src dst : IpAddress) → length (address_bytes src) % 2 ≡ 0 → length (address_bytes dst) % 2 ≡ 0 → HasLengths (packet_bytes_mut packet.old)
        → HasChecksum src (address_before update dst) (packet_bytes_mut packet.old) → HasChecksum src (address_after update dst) (packet_bytes_mut packet.new) }
{
    match update {
        UdpUpdate::SrcPort(x) => packet.update_src_port(x),
        UdpUpdate::DstPort(x) => packet.update_dst_port(x),
        UdpUpdate::Address(old, new) => packet.update_address(&old, &new),
    }
}

/// Updating the checksum for changed words writes the checksum, and nothing else.
pub fn update_checksum_writes_one_field_udp(packet: &mut UdpPacketMut<'_>, old: u16, new: u16)
    requires { 8 ≤ length (packet_bytes_mut packet.old) }
    ensures { let bytes = packet_bytes_mut packet.old in packet_bytes_mut packet.new ≡ with_sums old new bytes bytes }
{
    packet.update_checksum(old, new);
}

/// Filling in the checksum writes the checksum, and nothing else. It is then valid, and not 0.
pub fn fill_checksum_writes_one_field_udp(
    packet: &mut UdpPacketMut<'_>,
    src_addr: IpAddress,
    dst_addr: IpAddress,
)
    requires lengths { HasLengths (packet_bytes_mut packet.old) }
    requires family { version_of src_addr ≡ version_of dst_addr }
    ensures fields { packet_bytes_mut packet.new ≡ after_fill src_addr dst_addr (packet_bytes_mut packet.old) }
    ensures some { nth_field diagram 3 (packet_bytes_mut packet.new) ≢ 0 }
    ensures valid { Verifies src_addr dst_addr (packet_bytes_mut packet.new) }
{
    bytes_fit(packet.as_bytes());
    packet.fill_checksum(&src_addr, &dst_addr);
}

/// The length field counts the header and the payload.
pub fn lengths_agree_udp(packet: &UdpPacket<'_>, value: UdpRepr) -> bool
    requires { HasLengths (packet_bytes packet.now) }
    ensures { IsTrue result }
{
    value.header_len() == UDP_HEADER_LEN
        && usize::from(packet.len()) == UDP_HEADER_LEN + packet.payload().len()
}

/// `new_unchecked`, `as_view` and `into_inner` keep the bytes.
/// `new_checked` accepts what `check_len` accepts.
pub fn views_have_the_bytes_udp(bytes: &[u8]) -> bool
    ensures { IsTrue result }
{
    let packet = UdpPacket::new_unchecked(bytes);
    packet.as_bytes() == bytes
        && packet.as_view().as_bytes() == bytes
        && packet.into_inner() == bytes
        && UdpPacket::new_checked(bytes).is_ok() == packet.check_len().is_ok()
}

/// A checksum is valid if it verifies, except 0 over IPv6.
pub fn checksum_verdicts_agree_udp(
    packet: &UdpPacket<'_>,
    src_addr: &IpAddress,
    dst_addr: &IpAddress,
) -> bool
    requires header { 8 ≤ length (packet_bytes packet.now) }
    requires whole { packet_len (packet_bytes packet.now) ≤ length (packet_bytes packet.now) }
    requires family { version_of src_addr.now ≡ version_of dst_addr.now }
    ensures { IsTrue result }
{
    let none = packet.checksum() == 0;
    let verifies = packet.verify_checksum(src_addr, dst_addr);
    let valid = packet.has_valid_checksum(src_addr, dst_addr);
    match src_addr {
        IpAddress::Ipv4(_) => valid == verifies,
        IpAddress::Ipv6(_) => valid == (verifies && !none),
    }
}
