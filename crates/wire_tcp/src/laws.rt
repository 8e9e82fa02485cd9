//! Laws of TCP segments. A law states a fact about definitions, or about the calls in its body.

ghost use Rattle.std.specs.Prelude.{◌≡◌, ◌≢◌, ◌⊎◌, ◌↔◌, ◌+◌, ◌*◌, ◌%◌, ◌<◌, ◌≤◌, if◌then◌else◌, ℕ, [], Bool, IfSome, List, IsTrue, None, Some, false, true, length};
ghost use Rattle.std.specs.Option.{option_map};
ghost use Rattle.wire_addr.specs.IpAddress.{address_bytes, version_of};
ghost use Rattle.wire_addr.specs.declared.ip_address.IpAddress.{IpAddress};
ghost use Rattle.net_base.specs.Diagram.{end_of};
ghost use Rattle.net_base.specs.Field.{field, with_field};
ghost use Rattle.wire_tcp.specs.Tcp.{HasLengths, Verifies, ack_bits_of, header_len, packet_bytes, packet_bytes_mut, payload_of, with_checksum, with_checksum_field, with_dst_port, with_flag, with_src_port, with_window_len};
ghost use Rattle.wire_tcp.specs.TcpRepr.{HasIdleRanges, IsQuiet, Reads, TcpHeader, bytes_of, header_len_of, header_of, no_ranges, normal, seq_of, tcp_of};
ghost use Rattle.wire_tcp.specs.TcpFields.{address_after, address_before, after, after_fill, after_update, diagram, got, quiet_of, read_of, with_no_flags, with_sums, write_of};

use crate::tcp::{TCP_HEADER_LEN, TcpPacket, TcpPacketMut, TcpRepr};
use net_base::ChecksumCapabilities;
use net_base::laws::bytes_fit;
use wire_addr::IpAddress;
use wire_tcp_options::{TcpControl, TcpSeqNumber};

/// The emitted segment, in a buffer of exactly its length, parses as the value's normal form and
/// the same payload. A checksum that is verified must have been computed.
pub fn emit_reads_back_tcp(
    value: TcpRepr<'_>,
    src_addr: IpAddress,
    dst_addr: IpAddress,
    computed: bool,
    verified: bool,
)
    requires header_len { header_len_of (header_of value) ≤ 60 }
    requires sender { value.src_port ≢ 0 }
    requires receiver { value.dst_port ≢ 0 }
    requires family { version_of src_addr ≡ version_of dst_addr }
    requires checksum { IsTrue verified → IsTrue computed }
    ensures { let v = header_of value.entry in let payload = value.entry.payload.now in
        Reads (bytes_of v payload src_addr dst_addr computed []) src_addr dst_addr verified (normal v) payload }
{}

/// Bytes parse as at most one value and payload.
pub fn reads_once_tcp(
    bytes: &[u8],
    src_addr: IpAddress,
    dst_addr: IpAddress,
    verified: bool,
    value: TcpRepr<'_>,
    other: TcpRepr<'_>,
)
    requires value { Reads bytes.now src_addr dst_addr verified (header_of value) value.payload.now }
    requires other { Reads bytes.now src_addr dst_addr verified (header_of other) other.payload.now }
    ensures value { header_of value.entry ≡ header_of other.entry }
    ensures payload { value.entry.payload.now ≡ other.entry.payload.now }
{}

/// Bytes parse as at most one header and payload. This is `reads_once_tcp` also for a normal form that
/// no `TcpRepr` of the caller has.
pub fn one_reading_tcp(bytes: &[u8], src_addr: IpAddress, dst_addr: IpAddress, verified: bool)
    ensures { (v w : TcpHeader) (payload other : List ℕ) → Reads bytes.now src_addr dst_addr verified v payload
        → Reads bytes.now src_addr dst_addr verified w other → (v ≡ w) × (payload ≡ other) }
{}

/// `tcp_of` computes the value that the bytes parse as, if there is one.
pub fn reading_is_computed_tcp(
    bytes: &[u8],
    src_addr: IpAddress,
    dst_addr: IpAddress,
    verified: bool,
    value: TcpRepr<'_>,
)
    ensures { let v = header_of value.entry in
        (tcp_of src_addr dst_addr verified bytes.now ≡ Some v) ↔ Reads bytes.now src_addr dst_addr verified v (payload_of bytes.now) }
{}

/// The normal form of a normal form is itself. A parsed value is normal, except if it has ranges
/// and either no acknowledgement or SACK permitted. Then the header of its normal form is shorter.
pub fn normal_twice_tcp(
    bytes: &[u8],
    src_addr: IpAddress,
    dst_addr: IpAddress,
    verified: bool,
    value: TcpRepr<'_>,
)
    ensures twice { normal (normal (header_of value.entry)) ≡ normal (header_of value.entry) }
    ensures read { let v = header_of value.entry in
        Reads bytes.now src_addr dst_addr verified v value.entry.payload.now → (normal v ≡ v) ⊎ HasIdleRanges v }
    ensures idle { HasIdleRanges (header_of value.entry) → header_len_of (normal (header_of value.entry)) < header_len_of (header_of value.entry) }
{}

/// Normal values with the same emitted bytes, checksum included, are equal.
pub fn equal_bytes(value: TcpRepr<'_>, other: TcpRepr<'_>, src_addr: IpAddress, dst_addr: IpAddress)
    requires value_normal { normal (header_of value) ≡ header_of value }
    requires value_len { header_len_of (header_of value) ≤ 60 }
    requires value_sender { value.src_port ≢ 0 }
    requires value_receiver { value.dst_port ≢ 0 }
    requires other_normal { normal (header_of other) ≡ header_of other }
    requires other_len { header_len_of (header_of other) ≤ 60 }
    requires other_sender { other.src_port ≢ 0 }
    requires other_receiver { other.dst_port ≢ 0 }
    requires family { version_of src_addr ≡ version_of dst_addr }
    requires bytes { bytes_of (header_of value) value.payload.now src_addr dst_addr true [] ≡ bytes_of (header_of other) other.payload.now src_addr dst_addr true [] }
    ensures value { header_of value.entry ≡ header_of other.entry }
    ensures payload { value.entry.payload.now ≡ other.entry.payload.now }
{}

/// The emitted header of a normal value parses as that value. No other header that parses as it is
/// shorter, whatever its addresses, and with or without verification.
pub fn shortest_header(
    value: TcpRepr<'_>,
    src_addr: IpAddress,
    dst_addr: IpAddress,
    computed: bool,
    verified: bool,
)
    requires normal { normal (header_of value) ≡ header_of value }
    requires header_len { header_len_of (header_of value) ≤ 60 }
    requires sender { value.src_port ≢ 0 }
    requires receiver { value.dst_port ≢ 0 }
    requires family { version_of src_addr ≡ version_of dst_addr }
    requires checksum { IsTrue verified → IsTrue computed }
    ensures read { let v = header_of value.entry in let payload = value.entry.payload.now in
        let bytes = bytes_of v payload src_addr dst_addr computed [] in
        Reads bytes src_addr dst_addr verified v payload × (header_len bytes ≡ header_len_of v) }
    ensures least { let v = header_of value.entry in
        (bytes payload : List ℕ) (src dst : IpAddress) (checked : Bool) → Reads bytes src dst checked v payload → header_len_of v ≤ header_len bytes }
{}

/// Changing one aligned 16-bit word of a segment with a correct checksum makes the checksum wrong.
/// The new word must not be congruent to the old one modulo 65535.
pub fn word_changed(bytes: &[u8], src_addr: IpAddress, dst_addr: IpAddress, index: usize, word: u16)
    requires family { version_of src_addr ≡ version_of dst_addr }
    requires holds { Verifies src_addr dst_addr bytes.now }
    requires place { 2 * index + 2 ≤ length bytes.now }
    requires changed { word % 65535 ≢ field bytes.now (16 * index) 16 % 65535 }
    ensures { ¬ Verifies src_addr dst_addr (with_field bytes.now (16 * index) 16 word) }
{}

/// A segment with the checksum that `fill_checksum` writes verifies.
pub fn filled_checksum_verifies(src_addr: IpAddress, dst_addr: IpAddress, bytes: &[u8])
    requires header { 18 ≤ length bytes.now }
    requires family { version_of src_addr ≡ version_of dst_addr }
    ensures { Verifies src_addr dst_addr (with_checksum src_addr dst_addr bytes.now) }
{}

/// A value without SACK ranges has a header of at most 40 bytes. It is normal if its window scale is at
/// most 14.
#[tactic(auto, using(crate::proofs::TcpForms::header_len_no_ranges, crate::proofs::TcpForms::normal_no_ranges))]
pub fn no_ranges_tcp(value: TcpRepr<'_>)
    requires { value.sack_ranges ≡ no_ranges }
    ensures header_len { header_len_of (header_of value.entry) ≤ 40 }
    ensures normal { IfSome value.entry.window_scale (λ scale. scale ≤ 14) → normal (header_of value.entry) ≡ header_of value.entry }
{}

/// A value that parses with its checksum not verified also parses with the checksum verified, exactly
/// if the checksum is valid.
pub fn valid_checksum_reads_tcp(
    bytes: &[u8],
    src_addr: IpAddress,
    dst_addr: IpAddress,
    value: TcpRepr<'_>,
)
    ensures { let v = header_of value.entry in let payload = value.entry.payload.now in
        Reads bytes.now src_addr dst_addr true v payload ↔ (Reads bytes.now src_addr dst_addr false v payload × Verifies src_addr dst_addr bytes.now) }
{}

/// Writing one field changes one value, and no other. SYN, FIN, RST and PSH are written where no other
/// one of SYN, FIN and RST is set. The reserved bits, NS, CWR, ECE, URG, the checksum and the urgent
/// pointer are in no value. The checksum is not verified here.
pub fn one_value_changes_tcp(
    bytes: &[u8],
    src_addr: IpAddress,
    dst_addr: IpAddress,
    value: TcpRepr<'_>,
    word: u16,
    number: u32,
    on: bool,
)
    requires { Reads bytes.now src_addr dst_addr false (header_of value) value.payload.now }
    ensures src_port { word ≢ 0 → Reads (with_src_port bytes.now word) src_addr dst_addr false (record (header_of value.entry) { src_port = word }) value.entry.payload.now }
    ensures dst_port { word ≢ 0 → Reads (with_dst_port bytes.now word) src_addr dst_addr false (record (header_of value.entry) { dst_port = word }) value.entry.payload.now }
    ensures seq_number { Reads (with_field bytes.now 32 32 number) src_addr dst_addr false (record (header_of value.entry) { seq_number = seq_of number }) value.entry.payload.now }
    ensures ack_number { let ack = option_map (λ old. seq_of number) value.entry.ack_number in
        Reads (with_field bytes.now 64 32 number) src_addr dst_addr false (record (header_of value.entry) { ack_number = ack }) value.entry.payload.now }
    ensures ack { let ack = if on then Some (seq_of (ack_bits_of bytes.now)) else None in
        Reads (with_flag bytes.now 107 on) src_addr dst_addr false (record (header_of value.entry) { ack_number = ack }) value.entry.payload.now }
    ensures psh { IsQuiet value.entry.control → let control = if on then TcpControl.Psh else TcpControl.None in
        Reads (with_flag bytes.now 108 on) src_addr dst_addr false (record (header_of value.entry) { control = control }) value.entry.payload.now }
    ensures rst { IsQuiet value.entry.control ⊎ (value.entry.control ≡ TcpControl.Rst) → let control = if on then TcpControl.Rst else quiet_of bytes.now in
        Reads (with_flag bytes.now 109 on) src_addr dst_addr false (record (header_of value.entry) { control = control }) value.entry.payload.now }
    ensures syn { IsQuiet value.entry.control ⊎ (value.entry.control ≡ TcpControl.Syn) → let control = if on then TcpControl.Syn else quiet_of bytes.now in
        Reads (with_flag bytes.now 110 on) src_addr dst_addr false (record (header_of value.entry) { control = control }) value.entry.payload.now }
    ensures fin { IsQuiet value.entry.control ⊎ (value.entry.control ≡ TcpControl.Fin) → let control = if on then TcpControl.Fin else quiet_of bytes.now in
        Reads (with_flag bytes.now 111 on) src_addr dst_addr false (record (header_of value.entry) { control = control }) value.entry.payload.now }
    ensures window_len { Reads (with_window_len bytes.now word) src_addr dst_addr false (record (header_of value.entry) { window_len = word }) value.entry.payload.now }
    ensures checksum { Reads (with_checksum_field bytes.now word) src_addr dst_addr false (header_of value.entry) value.entry.payload.now }
    ensures unread { (first width x : ℕ) → 0 < width → ((100 ≤ first) × (first + width ≤ 107)) ⊎ ((144 ≤ first) × (first + width ≤ 160))
        → Reads (with_field bytes.now first width x) src_addr dst_addr false (header_of value.entry) value.entry.payload.now }
{}

/// A segment whose checksum `fill_checksum` wrote parses as before, with its checksum verified.
pub fn filled_checksum_reads_tcp(
    bytes: &[u8],
    src_addr: IpAddress,
    dst_addr: IpAddress,
    value: TcpRepr<'_>,
)
    requires { Reads bytes.now src_addr dst_addr false (header_of value) value.payload.now }
    ensures { Reads (with_checksum src_addr dst_addr bytes.now) src_addr dst_addr true (header_of value.entry) value.entry.payload.now }
{}

/// A call of a setter.
#[derive(Debug, Clone, Copy)]
pub enum TcpSetting {
    SrcPort(u16),
    DstPort(u16),
    SeqNumber(TcpSeqNumber),
    AckNumber(TcpSeqNumber),
    HeaderLen(u8),
    Ns(bool),
    Cwr(bool),
    Ece(bool),
    Urg(bool),
    Ack(bool),
    Psh(bool),
    Rst(bool),
    Syn(bool),
    Fin(bool),
    WindowLen(u16),
    Checksum(u16),
    UrgentAt(u16),
}

/// A setter writes its field of the header's diagram, and nothing else.
pub fn setter_writes_one_field_tcp(packet: &mut TcpPacketMut<'_>, setting: TcpSetting)
    requires { end_of diagram (write_of setting).0 ≤ length (packet_bytes_mut packet.old) }
    ensures { packet_bytes_mut packet.new ≡ after setting (packet_bytes_mut packet.old) }
{
    match setting {
        TcpSetting::SrcPort(x) => packet.set_src_port(x),
        TcpSetting::DstPort(x) => packet.set_dst_port(x),
        TcpSetting::SeqNumber(x) => packet.set_seq_number(x),
        TcpSetting::AckNumber(x) => packet.set_ack_number(x),
        TcpSetting::HeaderLen(x) => packet.set_header_len(x),
        TcpSetting::Ns(x) => packet.set_ns(x),
        TcpSetting::Cwr(x) => packet.set_cwr(x),
        TcpSetting::Ece(x) => packet.set_ece(x),
        TcpSetting::Urg(x) => packet.set_urg(x),
        TcpSetting::Ack(x) => packet.set_ack(x),
        TcpSetting::Psh(x) => packet.set_psh(x),
        TcpSetting::Rst(x) => packet.set_rst(x),
        TcpSetting::Syn(x) => packet.set_syn(x),
        TcpSetting::Fin(x) => packet.set_fin(x),
        TcpSetting::WindowLen(x) => packet.set_window_len(x),
        TcpSetting::Checksum(x) => packet.set_checksum(x),
        TcpSetting::UrgentAt(x) => packet.set_urgent_at(x),
    }
}

/// Clearing the flags writes all nine, and the reserved bits, and nothing else.
pub fn clear_flags_writes_the_flags_tcp(packet: &mut TcpPacketMut<'_>)
    requires { 14 ≤ length (packet_bytes_mut packet.old) }
    ensures { packet_bytes_mut packet.new ≡ with_no_flags (packet_bytes_mut packet.old) }
{
    packet.clear_flags();
}

/// A call of a getter.
#[derive(Debug, Clone, Copy)]
pub enum TcpGetting {
    SrcPort,
    DstPort,
    SeqNumber,
    AckNumber,
    HeaderLen,
    Ns,
    Cwr,
    Ece,
    Urg,
    Ack,
    Psh,
    Rst,
    Syn,
    Fin,
    WindowLen,
    Checksum,
    UrgentAt,
}

/// A getter returns the number in its field of the header's diagram, in its unit.
pub fn getters_read_fields_tcp(packet: &TcpPacket<'_>, getting: TcpGetting) -> u32
    requires { end_of diagram (read_of getting).0 ≤ length (packet_bytes packet.now) }
    ensures { result ≡ got getting (packet_bytes packet.now) }
{
    match getting {
        TcpGetting::SrcPort => packet.src_port().into(),
        TcpGetting::DstPort => packet.dst_port().into(),
        TcpGetting::SeqNumber => packet.seq_number().0.cast_unsigned(),
        TcpGetting::AckNumber => packet.ack_number().0.cast_unsigned(),
        TcpGetting::HeaderLen => packet.header_len().into(),
        TcpGetting::Ns => packet.ns().into(),
        TcpGetting::Cwr => packet.cwr().into(),
        TcpGetting::Ece => packet.ece().into(),
        TcpGetting::Urg => packet.urg().into(),
        TcpGetting::Ack => packet.ack().into(),
        TcpGetting::Psh => packet.psh().into(),
        TcpGetting::Rst => packet.rst().into(),
        TcpGetting::Syn => packet.syn().into(),
        TcpGetting::Fin => packet.fin().into(),
        TcpGetting::WindowLen => packet.window_len().into(),
        TcpGetting::Checksum => packet.checksum().into(),
        TcpGetting::UrgentAt => packet.urgent_at().into(),
    }
}

/// A call that writes the checksum too: for a new port or window, or for an old and a new address.
#[derive(Debug, Clone, Copy)]
pub enum TcpUpdate {
    SrcPort(u16),
    DstPort(u16),
    WindowLen(u16),
    Address(IpAddress, IpAddress),
}

/// An update writes its field of the header's diagram and the checksum, and nothing else. A valid
/// checksum stays valid.
pub fn update_writes_two_fields_tcp(packet: &mut TcpPacketMut<'_>, update: TcpUpdate)
    requires { 18 ≤ length (packet_bytes_mut packet.old) }
    ensures fields { packet_bytes_mut packet.new ≡ after_update update (packet_bytes_mut packet.old) }
    ensures valid_src { (src dst : IpAddress) → length (address_bytes src) % 2 ≡ 0 → length (address_bytes dst) % 2 ≡ 0
        → Verifies (address_before update src) dst (packet_bytes_mut packet.old) → Verifies (address_after update src) dst (packet_bytes_mut packet.new) }
    ensures valid_dst { (src dst : IpAddress) → length (address_bytes src) % 2 ≡ 0 → length (address_bytes dst) % 2 ≡ 0
        → Verifies src (address_before update dst) (packet_bytes_mut packet.old) → Verifies src (address_after update dst) (packet_bytes_mut packet.new) }
{
    match update {
        TcpUpdate::SrcPort(x) => packet.update_src_port(x),
        TcpUpdate::DstPort(x) => packet.update_dst_port(x),
        TcpUpdate::WindowLen(x) => packet.update_window_len(x),
        TcpUpdate::Address(old, new) => packet.update_address(&old, &new),
    }
}

/// Updating the checksum for changed words writes the checksum, and nothing else.
pub fn update_checksum_writes_one_field_tcp(packet: &mut TcpPacketMut<'_>, old: u16, new: u16)
    requires { 18 ≤ length (packet_bytes_mut packet.old) }
    ensures { let bytes = packet_bytes_mut packet.old in packet_bytes_mut packet.new ≡ with_sums old new bytes bytes }
{
    packet.update_checksum(old, new);
}

/// Filling in the checksum writes the checksum, and nothing else. The segment then verifies.
pub fn fill_checksum_writes_one_field_tcp(
    packet: &mut TcpPacketMut<'_>,
    src_addr: IpAddress,
    dst_addr: IpAddress,
)
    requires header { 18 ≤ length (packet_bytes_mut packet.old) }
    requires family { version_of src_addr ≡ version_of dst_addr }
    ensures fields { packet_bytes_mut packet.new ≡ after_fill src_addr dst_addr (packet_bytes_mut packet.old) }
    ensures valid { Verifies src_addr dst_addr (packet_bytes_mut packet.new) }
{
    bytes_fit(packet.as_bytes());
    packet.fill_checksum(&src_addr, &dst_addr);
}

/// The header's length and the lengths of options and payload agree. A segment uses one sequence
/// number for each byte of its payload, for SYN and for FIN.
pub fn lengths_agree_tcp(packet: &TcpPacket<'_>) -> bool
    requires { HasLengths (packet_bytes packet.now) }
    ensures { IsTrue result }
{
    let header_len = usize::from(packet.header_len());
    let payload_len = packet.payload().len();
    let flags = usize::from(packet.syn()) + usize::from(packet.fin());
    header_len == TCP_HEADER_LEN + packet.options().len()
        && packet.as_bytes().len() == header_len + payload_len
        && packet.segment_len() == payload_len + flags
}

/// `new_unchecked`, `as_view` and `into_inner` keep the bytes.
/// `new_checked` accepts what `check_len` accepts.
pub fn views_have_the_bytes_tcp(bytes: &[u8]) -> bool
    ensures { IsTrue result }
{
    let packet = TcpPacket::new_unchecked(bytes);
    packet.as_bytes() == bytes
        && packet.as_view().as_bytes() == bytes
        && packet.into_inner() == bytes
        && TcpPacket::new_checked(bytes).is_ok() == packet.check_len().is_ok()
}

/// A parsed value uses as many sequence numbers as its segment.
pub fn value_counts_as_segment_tcp(
    packet: &TcpPacket<'_>,
    src_addr: &IpAddress,
    dst_addr: &IpAddress,
    caps: &ChecksumCapabilities,
) -> bool
    requires { version_of src_addr.now ≡ version_of dst_addr.now }
    ensures { IsTrue result }
{
    match TcpRepr::parse(packet, src_addr, dst_addr, caps) {
        Ok(value) => value.segment_len() == packet.segment_len(),
        Err(_) => true,
    }
}

/// A parsed value is empty if its segment has no payload and none of SYN, FIN and RST.
pub fn value_is_empty_as_segment_tcp(
    packet: &TcpPacket<'_>,
    src_addr: &IpAddress,
    dst_addr: &IpAddress,
    caps: &ChecksumCapabilities,
) -> bool
    requires { version_of src_addr.now ≡ version_of dst_addr.now }
    ensures { IsTrue result }
{
    match TcpRepr::parse(packet, src_addr, dst_addr, caps) {
        Ok(value) => {
            let rst = usize::from(packet.rst());
            value.is_empty() == (packet.segment_len() + rst == 0)
        }
        Err(_) => true,
    }
}
