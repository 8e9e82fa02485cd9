//! The options of a TCP header, stored in the struct of C.

ghost use Rattle.std.specs.Prelude.{◌≡◌, [], ◌∷◌, List, length, pos};
ghost use Rattle.ip_wire.specs.Tcp.{HasLengths};
ghost use Rattle.ip_wire.specs.TcpItems.{Item, item};
ghost use Rattle.ip_wire.specs.TcpSummary.{summary_of};
ghost use Rattle.c_structs.specs.Written.{IsRead, flag};
ghost use Rattle.c_read.specs.TcpOptions.{IsListed, ReadsItems, range_of, tcp_options_of};

use byteorder::{ByteOrder, NetworkEndian};
use c_structs::{SackRange, TcpOptions, has_padded_stamp, has_stamp};
use ip_wire::{TcpOptionSummary, TcpPacket};
use wire_tcp_options::summarize;

// The largest window scale (RFC 7323, section 2.3).
const MAX_WINDOW_SCALE: u8 = 14;

// The range in this place, or zeros.
fn range_of(range: Option<(u32, u32)>) -> SackRange
    ensures { result ≡ range_of range }
{
    match range {
        Some((left, right)) => SackRange { left, right },
        None => SackRange { left: 0, right: 0 },
    }
}

/// Stores the options of a header, and returns `true`. Returns `false` and stores nothing if its
/// lengths are wrong, or if an option before the end mark is malformed.
pub fn read_tcp_options(options: &mut TcpOptions, header: &[u8]) -> bool
    ensures { IsRead ReadsItems tcp_options_of header.now options.old options.new (pos (flag result)) }
{
    match TcpPacket::new_checked(header) {
        Ok(_) => read_header(options, header),
        Err(_) => false,
    }
}

// The same for a header with valid lengths.
#[inline(always)]
pub(super) fn read_header(options: &mut TcpOptions, header: &[u8]) -> bool
    requires { HasLengths header.now }
    ensures { IsRead ReadsItems tcp_options_of header.now options.old options.new (pos (flag result)) }
{
    let list = TcpPacket::new_unchecked(header).options();
    // The common cases have stores of their own, which the compiler does not merge with those of a walk.
    if list.is_empty() {
        *options = from_summary(&TcpOptionSummary::default());
        return true;
    }
    if has_padded_stamp(header) {
        *options = from_summary(&timestamp_in(&header[24..32]));
        return true;
    }
    if has_stamp(header) {
        *options = from_summary(&timestamp_in(&header[22..30]));
        return true;
    }
    read_list(options, list)
}

// Stores the options of a list. The call keeps the registers of a walk out of `read_header`.
#[inline(never)]
fn read_list(options: &mut TcpOptions, list: &[u8]) -> bool
    ensures { IsRead IsListed tcp_options_of list.now options.old options.new (pos (flag result)) }
{
    match summarize(list) {
        Ok(summary) => {
            *options = from_summary(&summary);
            true
        }
        Err(_) => false,
    }
}

// The options with these values.
#[inline(always)]
pub(super) fn from_summary(summary: &TcpOptionSummary) -> TcpOptions
    ensures { (items : List Item) → summary.now ≡ summary_of items → result ≡ tcp_options_of items }
{
    let [first, second, third, fourth] = summary.sack_ranges;
    let (tsval, tsecr) = summary.timestamp.unwrap_or((0, 0));
    TcpOptions {
        sack_ranges: [
            range_of(first),
            range_of(second),
            range_of(third),
            range_of(fourth),
        ],
        tsval,
        tsecr,
        max_seg_size: summary.max_segment_size.unwrap_or(0),
        window_scale: summary.window_scale.unwrap_or(0).min(MAX_WINDOW_SCALE),
        sack_permitted: u8::from(summary.sack_permitted),
        sack_range_count: u8::from(first.is_some())
            + u8::from(second.is_some())
            + u8::from(third.is_some())
            + u8::from(fourth.is_some()),
        has_max_seg_size: u8::from(summary.max_segment_size.is_some()),
        has_window_scale: u8::from(summary.window_scale.is_some()),
        has_timestamp: u8::from(summary.timestamp.is_some()),
    }
}

// The values of a list whose only option is a timestamp with these data.
#[inline(always)]
fn timestamp_in(bytes: &[u8]) -> TcpOptionSummary
    requires { length bytes.now ≡ 8 }
    ensures { result ≡ summary_of (item 8 bytes.now ∷ []) }
{
    let tsval = NetworkEndian::read_u32(bytes);
    let tsecr = NetworkEndian::read_u32(&bytes[4..]);
    TcpOptionSummary {
        timestamp: Some((tsval, tsecr)),
        ..TcpOptionSummary::default()
    }
}
