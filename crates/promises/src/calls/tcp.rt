//! Flags, timestamps and options of TCP.

ghost use Rattle.std.specs.Prelude.{◌≡◌, ◌↔◌, ◌≤◌, [], IfOk, IfSome, IsOkAnd, Ok, false, length, true};
ghost use Rattle.std.specs.Option.{option_map};
ghost use Rattle.ip_wire.specs.IpAddress.{version_of};
ghost use Rattle.promises.specs.Sack.{AgreesWith};
ghost use Rattle.ip_wire.specs.Tcp.{header_len, options_of, packet_bytes};
ghost use Rattle.ip_wire.specs.TcpItems.{first_blocks};

use ip_wire::{
    ChecksumCapabilities, IpAddress, Result, SACK_BLOCKS, TcpControl, TcpOptionSummary, TcpPacket,
    TcpRepr, TcpTimestampGenerator, TcpTimestampRepr, laws,
};

/// PSH is dropped, and the other flags stay.
pub fn quash_psh_by_flag(control: TcpControl) -> (TcpControl, TcpControl)
    ensures { result.0 ≡ result.1 }
{
    let quashed = match control {
        TcpControl::Psh => TcpControl::None,
        other => other,
    };
    (control.quash_psh(), quashed)
}

/// Without PSH a segment uses as many sequence numbers.
pub fn len_without_psh(control: TcpControl) -> (usize, usize)
    ensures { result.0 ≡ result.1 }
{
    (control.quash_psh().len(), control.len())
}

/// Both calls echo the timestamp, if there is a clock.
pub fn echo_by_tsval(
    timestamp: &TcpTimestampRepr,
    generator: Option<TcpTimestampGenerator>,
) -> (Option<u32>, Option<u32>)
    requires { IfSome generator (λ clock. pre clock) }
    ensures { result.0 ≡ result.1 }
{
    let reply = timestamp.generate_reply(generator);
    let by_tsval = TcpTimestampRepr::generate_reply_with_tsval(generator, timestamp.tsval);
    (echoed(reply), echoed(by_tsval))
}

/// The options of a parsed segment are those of `options_summary`.
pub fn options_of_parse<'a>(
    packet: &TcpPacket<'a>,
    src_addr: &IpAddress,
    dst_addr: &IpAddress,
    caps: &ChecksumCapabilities,
) -> (Result<TcpRepr<'a>>, Result<TcpOptionSummary>)
    requires begins { 20 ≤ header_len (packet_bytes packet.now) }
    requires ends { header_len (packet_bytes packet.now) ≤ length (packet_bytes packet.now) }
    requires family { version_of src_addr.now ≡ version_of dst_addr.now }
    ensures { IfOk result.0 (λ v. IsOkAnd result.1 (λ s. (v.max_seg_size ≡ s.max_segment_size) × (v.sack_permitted ≡ s.sack_permitted) × (v.sack_ranges ≡ s.sack_ranges))) }
{
    laws::tcp_parts::one_option_list(packet.options());
    let parsed = TcpRepr::parse(packet, src_addr, dst_addr, caps);
    (parsed, packet.options_summary())
}

/// The search for SACK options goes on past the end of the list, and the summary stops there. They agree
/// exactly if the first option of the kind has the value of the last, or the list has none of the kind and the
/// search past its end finds none.
pub fn sack_by_summary(
    packet: &TcpPacket<'_>,
) -> (
    Result<bool>,
    Result<[Option<(u32, u32)>; SACK_BLOCKS]>,
    Result<TcpOptionSummary>,
)
    requires begins { 20 ≤ header_len (packet_bytes packet.now) }
    requires ends { header_len (packet_bytes packet.now) ≤ length (packet_bytes packet.now) }
    ensures permitted { let options = options_of (packet_bytes packet.now) in
        IfOk result.2 (λ s. (result.0 ≡ Ok s.sack_permitted) ↔ AgreesWith options 4 (λ i. true) false s.sack_permitted) }
    ensures ranges { let options = options_of (packet_bytes packet.now) in
        IfOk result.2 (λ s. (result.1 ≡ Ok s.sack_ranges)
        ↔ AgreesWith options 5 (λ i. first_blocks i.content) (first_blocks []) s.sack_ranges) }
{
    (
        packet.selective_ack_permitted(),
        packet.selective_ack_ranges(),
        packet.options_summary(),
    )
}

fn echoed(reply: Option<TcpTimestampRepr>) -> Option<u32>
    ensures { result ≡ option_map (λ r. r.tsecr) reply }
{
    match reply {
        Some(timestamp) => Some(timestamp.tsecr),
        None => None,
    }
}
