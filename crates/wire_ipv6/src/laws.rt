//! Laws of this crate. A law states a fact about definitions, or about the calls in its body.

ghost use Rattle.std.specs.Prelude.{◌≡◌, ◌↔◌, ℕ, ◌+◌, ◌++◌, ◌<◌, ◌≤◌, IsTrue, Some, length};
ghost use Rattle.wire_addr.specs.Protocol.{protocol_of};
ghost use Rattle.net_base.specs.Diagram.{end_of};
ghost use Rattle.net_base.specs.Field.{with_field, with_range};
ghost use Rattle.wire_ipv6.specs.Ipv6 as ipv6;
ghost use Rattle.wire_ipv6.specs.Ipv6Fields as ipv6_fields;
ghost use Rattle.wire_ipv6.specs.Ipv6Fragment as fragment;
ghost use Rattle.wire_ipv6.specs.Ipv6FragmentFields as fragment_fields;

use crate::ipv6::{IPV6_HEADER_LEN, Ipv6Packet, Ipv6PacketMut, Ipv6Repr};
use crate::ipv6fragment::{Ipv6FragmentHeader, Ipv6FragmentHeaderMut, Ipv6FragmentRepr};
use net_base::laws::bytes_fit;
use wire_addr::{IpProtocol, Ipv6Address};

/// The header of a value, with its payload and any bytes after it, parses as the value's normal
/// form.
pub fn emit_reads_back_ipv6(value: Ipv6Repr, rest: &[u8])
    requires payload_len { value.payload_len ≤ 65535 }
    requires payload { value.payload_len ≤ length rest.now }
    ensures { ipv6.Reads (ipv6.bytes_of value ++ rest.now) (ipv6.normal value) }
{}

/// No bytes parse as two values.
pub fn reads_once_ipv6(bytes: &[u8], value: Ipv6Repr, other: Ipv6Repr)
    requires value { ipv6.Reads bytes.now value }
    requires other { ipv6.Reads bytes.now other }
    ensures { value ≡ other }
{}

/// The computed value of bytes is the value that they parse as.
pub fn reading_is_computed_ipv6(bytes: &[u8], value: Ipv6Repr)
    ensures { (ipv6.ipv6_of bytes.now ≡ Some value) ↔ ipv6.Reads bytes.now value }
{}

/// Writing one field changes one value, and no other. The traffic class and the flow label are in no
/// value. A payload length is written for bytes that hold so long a payload.
pub fn one_value_changes_ipv6(bytes: &[u8], value: Ipv6Repr, octet: u8, address: Ipv6Address)
    requires { ipv6.Reads bytes.now value }
    ensures hop_limit { ipv6.Reads (with_field bytes.now 56 8 octet) (record value { hop_limit = octet }) }
    ensures next_header { ipv6.Reads (with_field bytes.now 48 8 octet) (record value { next_header = protocol_of octet }) }
    ensures src_addr { ipv6.Reads (with_range bytes.now 8 24 address) (record value { src_addr = address }) }
    ensures dst_addr { ipv6.Reads (with_range bytes.now 24 40 address) (record value { dst_addr = address }) }
    ensures payload_len { (len : ℕ) → len < 65536 → 40 + len ≤ length bytes.now → ipv6.Reads (with_field bytes.now 32 16 len) (record value { payload_len = len }) }
    ensures unread { (first width x : ℕ) → 0 < width → 4 ≤ first → first + width ≤ 32 → ipv6.Reads (with_field bytes.now first width x) value }
{}

/// The normal form of a normal form is itself, and a parsed value is in normal form.
pub fn normal_twice_ipv6(bytes: &[u8], value: Ipv6Repr)
    ensures twice { ipv6.normal (ipv6.normal value) ≡ ipv6.normal value }
    ensures read { ipv6.Reads bytes.now value → ipv6.normal value ≡ value }
{}

/// The header of a value, with any bytes after it, parses as the value's normal form.
pub fn emit_reads_back_ipv6_fragment(value: Ipv6FragmentRepr, rest: &[u8])
    ensures { fragment.Reads (fragment.bytes_of value ++ rest.now) (fragment.normal value) }
{}

/// No bytes parse as two values.
pub fn reads_once_ipv6_fragment(bytes: &[u8], value: Ipv6FragmentRepr, other: Ipv6FragmentRepr)
    requires value { fragment.Reads bytes.now value }
    requires other { fragment.Reads bytes.now other }
    ensures { value ≡ other }
{}

/// The computed value of bytes is the value that they parse as.
pub fn reading_is_computed_ipv6_fragment(bytes: &[u8], value: Ipv6FragmentRepr)
    ensures { (fragment.ipv6_fragment_of bytes.now ≡ Some value) ↔ fragment.Reads bytes.now value }
{}

/// The normal form of a normal form is itself, and a parsed value is in normal form.
pub fn normal_twice_ipv6_fragment(bytes: &[u8], value: Ipv6FragmentRepr)
    ensures twice { fragment.normal (fragment.normal value) ≡ fragment.normal value }
    ensures read { fragment.Reads bytes.now value → fragment.normal value ≡ value }
{}

/// The header emitted for a parsed value, with the payload, is never longer than the parsed bytes.
pub fn no_more_bytes_ipv6(bytes: &[u8], value: Ipv6Repr)
    requires { ipv6.Reads bytes.now value }
    ensures { length (ipv6.bytes_of value) + value.payload_len ≤ length bytes.now }
{}

/// The header emitted for a parsed value is never longer than the parsed bytes.
pub fn no_more_bytes_ipv6_fragment(bytes: &[u8], value: Ipv6FragmentRepr)
    requires { fragment.Reads bytes.now value }
    ensures { length (fragment.bytes_of value) ≤ length bytes.now }
{}

/// A call of a setter.
#[derive(Debug, Clone, Copy)]
pub enum Ipv6Setting {
    Version(u8),
    TrafficClass(u8),
    FlowLabel(u32),
    PayloadLen(u16),
    NextHeader(IpProtocol),
    HopLimit(u8),
    SrcAddr(Ipv6Address),
    DstAddr(Ipv6Address),
}

/// A setter writes its field of the header's diagram, and nothing else.
pub fn setter_writes_one_field_ipv6(packet: &mut Ipv6PacketMut<'_>, setting: Ipv6Setting)
    requires { end_of ipv6_fields.diagram (ipv6_fields.write_of setting).0 ≤ length (ipv6.packet_bytes_mut packet.old) }
    ensures { ipv6.packet_bytes_mut packet.new ≡ ipv6_fields.after setting (ipv6.packet_bytes_mut packet.old) }
{
    match setting {
        Ipv6Setting::Version(x) => packet.set_version(x),
        Ipv6Setting::TrafficClass(x) => packet.set_traffic_class(x),
        Ipv6Setting::FlowLabel(x) => packet.set_flow_label(x),
        Ipv6Setting::PayloadLen(x) => packet.set_payload_len(x),
        Ipv6Setting::NextHeader(x) => packet.set_next_header(x),
        Ipv6Setting::HopLimit(x) => packet.set_hop_limit(x),
        Ipv6Setting::SrcAddr(x) => packet.set_src_addr(x),
        Ipv6Setting::DstAddr(x) => packet.set_dst_addr(x),
    }
}

/// A call of a getter.
#[derive(Debug, Clone, Copy)]
pub enum Ipv6Getting {
    Version,
    TrafficClass,
    FlowLabel,
    PayloadLen,
    NextHeader,
    HopLimit,
    SrcAddr,
    DstAddr,
}

/// A getter returns the number in its field of the header's diagram.
pub fn getters_read_fields_ipv6(packet: &Ipv6Packet<'_>, getting: Ipv6Getting) -> u128
    requires { end_of ipv6_fields.diagram (ipv6_fields.read_of getting) ≤ length (ipv6.packet_bytes packet.now) }
    ensures { result ≡ ipv6_fields.got getting (ipv6.packet_bytes packet.now) }
{
    bytes_fit(packet.as_bytes());
    match getting {
        Ipv6Getting::Version => packet.version().into(),
        Ipv6Getting::TrafficClass => packet.traffic_class().into(),
        Ipv6Getting::FlowLabel => packet.flow_label().into(),
        Ipv6Getting::PayloadLen => packet.payload_len().into(),
        Ipv6Getting::NextHeader => packet.next_header().number().into(),
        Ipv6Getting::HopLimit => packet.hop_limit().into(),
        Ipv6Getting::SrcAddr => packet.src_addr().to_bits(),
        Ipv6Getting::DstAddr => packet.dst_addr().to_bits(),
    }
}

/// The packet's length counts the header and the payload.
pub fn lengths_agree_ipv6(packet: &Ipv6Packet<'_>, value: Ipv6Repr) -> bool
    requires { ipv6.HasLengths (ipv6.packet_bytes packet.now) }
    ensures { IsTrue result }
{
    let payload_len = usize::from(packet.payload_len());
    packet.header_len() == IPV6_HEADER_LEN
        && value.buffer_len() == IPV6_HEADER_LEN
        && packet.total_len() == IPV6_HEADER_LEN + payload_len
        && packet.payload().len() == payload_len
}

/// `new_unchecked`, `as_view` and `into_inner` keep the bytes.
/// `new_checked` accepts what `check_len` accepts.
pub fn views_have_the_bytes_ipv6(bytes: &[u8]) -> bool
    ensures { IsTrue result }
{
    let packet = Ipv6Packet::new_unchecked(bytes);
    packet.as_bytes() == bytes
        && packet.as_view().as_bytes() == bytes
        && packet.into_inner() == bytes
        && Ipv6Packet::new_checked(bytes).is_ok() == packet.check_len().is_ok()
}

/// A call that writes a fragment header.
#[derive(Debug, Clone, Copy)]
pub enum Ipv6FragmentSetting {
    FragOffset(u16),
    ClearReserved,
    MoreFrags(bool),
    Ident(u32),
}

/// A setter writes its field of the fragment header's diagram, and nothing else.
pub fn setter_writes_one_field_ipv6_fragment(
    header: &mut Ipv6FragmentHeaderMut<'_>,
    setting: Ipv6FragmentSetting,
)
    requires { end_of fragment_fields.diagram (fragment_fields.write_of setting).0 ≤ length (fragment.header_bytes_mut header.old) }
    ensures { fragment.header_bytes_mut header.new ≡ fragment_fields.after setting (fragment.header_bytes_mut header.old) }
{
    match setting {
        Ipv6FragmentSetting::FragOffset(x) => header.set_frag_offset(x),
        Ipv6FragmentSetting::ClearReserved => header.clear_reserved(),
        Ipv6FragmentSetting::MoreFrags(x) => header.set_more_frags(x),
        Ipv6FragmentSetting::Ident(x) => header.set_ident(x),
    }
}

/// A call of a getter of a fragment header.
#[derive(Debug, Clone, Copy)]
pub enum Ipv6FragmentGetting {
    FragOffset,
    MoreFrags,
    Ident,
}

/// A getter returns the number in its field of the fragment header's diagram.
pub fn getters_read_fields_ipv6_fragment(
    header: &Ipv6FragmentHeader<'_>,
    getting: Ipv6FragmentGetting,
) -> u32
    requires { end_of fragment_fields.diagram (fragment_fields.read_of getting) ≤ length (fragment.header_bytes header.now) }
    ensures { result ≡ fragment_fields.got getting (fragment.header_bytes header.now) }
{
    match getting {
        Ipv6FragmentGetting::FragOffset => header.frag_offset().into(),
        Ipv6FragmentGetting::MoreFrags => header.more_frags().into(),
        Ipv6FragmentGetting::Ident => header.ident(),
    }
}

/// `check_len` accepts exactly the bytes that hold the header of a value.
pub fn lengths_agree_ipv6_fragment(header: &Ipv6FragmentHeader<'_>, value: Ipv6FragmentRepr) -> bool
    ensures { IsTrue result }
{
    header.check_len().is_ok() == (value.buffer_len() <= header.as_bytes().len())
}

/// `new_unchecked`, `as_view` and `into_inner` keep the bytes.
/// `new_checked` accepts what `check_len` accepts.
pub fn views_have_the_bytes_ipv6_fragment(bytes: &[u8]) -> bool
    ensures { IsTrue result }
{
    let header = Ipv6FragmentHeader::new_unchecked(bytes);
    header.as_bytes() == bytes
        && header.as_view().as_bytes() == bytes
        && header.into_inner() == bytes
        && Ipv6FragmentHeader::new_checked(bytes).is_ok() == header.check_len().is_ok()
}
