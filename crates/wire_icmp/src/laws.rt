//! Laws of ICMP. A law states a fact about definitions, or about the calls in its body.

ghost use Rattle.std.specs.Prelude.{◌≡◌, ◌≢◌, ◌↔◌, ◌%◌, ◌≤◌, IsTrue, List, Some, false, length, not, true, ℕ};
ghost use Rattle.wire_addr.specs.IpAddress.{address_bytes, version_of};
ghost use Rattle.wire_addr.specs.declared.ip_address.IpAddress.{IpAddress};
ghost use Rattle.net_base.specs.Diagram.{end_of, nth_field, with_nth};
ghost use Rattle.wire_icmp.specs.Icmp.{IsExact, IsNormal, Reads, Verifies, bytes_of, icmp_of, packet_bytes, packet_bytes_mut, payload_of, with_checksum};
ghost use Rattle.wire_icmp.specs.IcmpFields.{after, after_fill, echo_diagram, got, read_in, read_of, with_sums, write_in, write_of};
ghost use Rattle.wire_icmp.specs.declared.icmp.repr.IcmpRepr.{IcmpRepr};

use crate::icmp::{IcmpPacket, IcmpPacketMut, IcmpRepr};
use net_base::laws::bytes_fit;
use wire_addr::{IpAddress, IpVersion};

mod ndisc;

pub use ndisc::{
    emit_reads_back_ndisc, no_more_bytes_ndisc, reading_is_computed_ndisc, reads_once_ndisc,
};

/// The emitted message parses as the normal form of the value, and as the same payload. A checksum
/// that is verified must have been computed.
pub fn emit_reads_back_icmp(
    value: IcmpRepr,
    src_addr: IpAddress,
    dst_addr: IpAddress,
    payload: &[u8],
    computed: bool,
    verified: bool,
)
    requires family { version_of src_addr ≡ version_of dst_addr }
    requires checksum { IsTrue verified → IsTrue computed }
    ensures { (normal : IcmpRepr) → IsNormal (version_of src_addr) value normal
        → Reads (bytes_of value payload.now src_addr dst_addr computed) src_addr dst_addr verified normal payload.now }
{
    value.header(src_addr.version());
}

/// Each value has one normal form. It is exact, and an exact value is its own.
pub fn normal_is_exact_icmp(version: IpVersion, value: IcmpRepr) -> IcmpRepr
    ensures normal { IsNormal version value result }
    ensures exact { IsExact version result }
    ensures same { IsExact version value → result ≡ value }
    ensures twice { IsNormal version result result }
{
    match value {
        IcmpRepr::EchoRequest { ident, seq_no } => {
            let value = IcmpRepr::EchoRequest { ident, seq_no };
            value.normal(version)
        }
        IcmpRepr::EchoReply { ident, seq_no } => {
            let value = IcmpRepr::EchoReply { ident, seq_no };
            value.normal(version)
        }
        other => other.normal(version),
    }
}

/// A parsed value is exact: the message that is emitted from it parses as the same value.
pub fn read_is_exact_icmp(
    bytes: &[u8],
    src_addr: IpAddress,
    dst_addr: IpAddress,
    verified: bool,
    value: IcmpRepr,
    payload: &[u8],
)
    requires { Reads bytes.now src_addr dst_addr verified value payload.now }
    ensures exact { IsExact (version_of src_addr) value }
    ensures normal { IsNormal (version_of src_addr) value value }
{}

/// Bytes parse as at most one value and payload.
pub fn reads_once_icmp(
    bytes: &[u8],
    src_addr: IpAddress,
    dst_addr: IpAddress,
    verified: bool,
    value: IcmpRepr,
    payload: &[u8],
    other: IcmpRepr,
    other_payload: &[u8],
)
    requires value { Reads bytes.now src_addr dst_addr verified value payload.now }
    requires other { Reads bytes.now src_addr dst_addr verified other other_payload.now }
    ensures value { value ≡ other }
    ensures payload { payload.now ≡ other_payload.now }
{}

/// `icmp_of` computes the value that the bytes parse as, if there is one.
pub fn reading_is_computed_icmp(
    bytes: &[u8],
    src_addr: IpAddress,
    dst_addr: IpAddress,
    verified: bool,
    value: IcmpRepr,
)
    ensures { (icmp_of src_addr dst_addr verified bytes.now ≡ Some value) ↔ Reads bytes.now src_addr dst_addr verified value (payload_of bytes.now) }
{}

/// The emitted message is as long as the bytes that were parsed.
pub fn no_more_bytes_icmp(
    bytes: &[u8],
    src_addr: IpAddress,
    dst_addr: IpAddress,
    verified: bool,
    computed: bool,
    value: IcmpRepr,
    payload: &[u8],
)
    requires { Reads bytes.now src_addr dst_addr verified value payload.now }
    ensures { length (bytes_of value payload.now src_addr dst_addr computed) ≡ length bytes.now }
{}

/// A checksum that `fill_checksum` wrote is correct, and the message parses as the same value with it.
#[tactic(auto, using(crate::proofs::IcmpReadsBack::reads_checksum, crate::proofs::IcmpSums::filled))]
pub fn filled_checksum_verifies_icmp(bytes: &[u8], src_addr: IpAddress, dst_addr: IpAddress)
    requires header { 4 ≤ length bytes.now }
    ensures verifies { Verifies src_addr dst_addr (with_checksum src_addr dst_addr bytes.now) }
    ensures reads { (v : IcmpRepr) (payload : List ℕ) → Reads bytes.now src_addr dst_addr false v payload
        → Reads (with_checksum src_addr dst_addr bytes.now) src_addr dst_addr true v payload }
{}

/// A value that parses with its checksum not verified also parses with the checksum verified, exactly
/// if the checksum is correct.
pub fn valid_checksum_reads_icmp(
    bytes: &[u8],
    src_addr: IpAddress,
    dst_addr: IpAddress,
    value: IcmpRepr,
    payload: &[u8],
)
    ensures { Reads bytes.now src_addr dst_addr true value payload.now
        ↔ (Reads bytes.now src_addr dst_addr false value payload.now × Verifies src_addr dst_addr bytes.now) }
{}

/// A call of a setter.
#[derive(Debug, Clone, Copy)]
pub enum IcmpSetting {
    MsgType(u8),
    MsgCode(u8),
    Checksum(u16),
    Word(u32),
    EchoIdent(u16),
}

/// A setter writes its field of the header's diagram, and nothing else.
pub fn setter_writes_one_field_icmp(packet: &mut IcmpPacketMut<'_>, setting: IcmpSetting)
    requires { end_of (write_in setting) (write_of setting).0 ≤ length (packet_bytes_mut packet.old) }
    ensures { packet_bytes_mut packet.new ≡ after setting (packet_bytes_mut packet.old) }
{
    match setting {
        IcmpSetting::MsgType(x) => packet.set_msg_type(x),
        IcmpSetting::MsgCode(x) => packet.set_msg_code(x),
        IcmpSetting::Checksum(x) => packet.set_checksum(x),
        IcmpSetting::Word(x) => packet.set_word(x),
        IcmpSetting::EchoIdent(x) => packet.set_echo_ident(x),
    }
}

/// A call of a getter.
#[derive(Debug, Clone, Copy)]
pub enum IcmpGetting {
    MsgType,
    MsgCode,
    Checksum,
    Word,
    EchoIdent,
}

/// A getter returns the number in its field of the header's diagram.
pub fn getters_read_fields_icmp(packet: &IcmpPacket<'_>, getting: IcmpGetting) -> u32
    requires { end_of (read_in getting) (read_of getting) ≤ length (packet_bytes packet.now) }
    ensures { result ≡ got getting (packet_bytes packet.now) }
{
    match getting {
        IcmpGetting::MsgType => packet.msg_type().into(),
        IcmpGetting::MsgCode => packet.msg_code().into(),
        IcmpGetting::Checksum => packet.checksum().into(),
        IcmpGetting::Word => packet.word(),
        IcmpGetting::EchoIdent => packet.echo_ident().into(),
    }
}

/// Filling in the checksum writes the checksum, and nothing else. It is then correct.
#[tactic(auto, using(crate::proofs::IcmpSums::filled))]
pub fn fill_checksum_writes_one_field_icmp(
    packet: &mut IcmpPacketMut<'_>,
    src_addr: IpAddress,
    dst_addr: IpAddress,
)
    requires header { 4 ≤ length (packet_bytes_mut packet.old) }
    requires family { version_of src_addr ≡ version_of dst_addr }
    ensures fields { packet_bytes_mut packet.new ≡ after_fill src_addr dst_addr (packet_bytes_mut packet.old) }
    ensures valid { Verifies src_addr dst_addr (packet_bytes_mut packet.new) }
{
    bytes_fit(packet.as_bytes());
    packet.fill_checksum(&src_addr, &dst_addr);
}

/// Updating the checksum for changed words writes the checksum, and nothing else.
pub fn update_checksum_writes_one_field_icmp(packet: &mut IcmpPacketMut<'_>, old: u16, new: u16)
    requires { 4 ≤ length (packet_bytes_mut packet.old) }
    ensures { packet_bytes_mut packet.new ≡ with_sums old new (packet_bytes_mut packet.old) }
{
    packet.update_checksum(old, new);
}

/// Writing the identifier of an echo with the checksum writes these two fields, and nothing else. A
/// correct checksum stays correct.
pub fn update_ident_writes_two_fields_icmp(packet: &mut IcmpPacketMut<'_>, ident: u16)
    requires { 6 ≤ length (packet_bytes_mut packet.old) }
    ensures fields { let bytes = packet_bytes_mut packet.old in
        packet_bytes_mut packet.new ≡ with_sums (nth_field echo_diagram 3 bytes) ident (with_nth echo_diagram 3 ident bytes) }
    ensures valid { (src dst : IpAddress) → length (address_bytes src) % 2 ≡ 0 → length (address_bytes dst) % 2 ≡ 0
        → Verifies src dst (packet_bytes_mut packet.old) → Verifies src dst (packet_bytes_mut packet.new) }
{
    bytes_fit(packet.as_bytes());
    packet.update_echo_ident(ident);
}

/// `new_unchecked`, `as_view` and `into_inner` keep the bytes.
/// `new_checked` accepts what `check_len` accepts, and the payload is all bytes after the header.
pub fn views_have_the_bytes_icmp(bytes: &[u8]) -> bool
    ensures { IsTrue result }
{
    let packet = IcmpPacket::new_unchecked(bytes);
    packet.as_bytes() == bytes
        && packet.as_view().as_bytes() == bytes
        && packet.into_inner() == bytes
        && IcmpPacket::new_checked(bytes).is_ok() == packet.check_len().is_ok()
        && (packet.check_len().is_err() || packet.payload() == &bytes[8..])
}

/// A message is an error exactly if its type is not that of a query.
pub fn errors_are_no_queries_icmp(
    value: &IcmpRepr,
    version: IpVersion,
    packet: &mut IcmpPacketMut<'_>,
) -> bool
    requires { 1 ≤ length (packet_bytes_mut packet.old) }
    ensures { IsTrue result }
{
    packet.set_msg_type(value.header(version).msg_type);
    packet.is_query(version) != value.is_error()
}
