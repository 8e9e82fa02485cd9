//! TCP options in the struct of C.

ghost use Rattle.std.specs.Prelude.{◌≡◌, ◌<◌};
ghost use Rattle.c_socket.specs.Options.{options_of, range_at, range_count, range_of, ranges_of, summary_of};

use c_structs::{SackRange, TcpOptions};
use wire_tcp_options::{SACK_BLOCKS, TcpOptionSummary};

// The range in this place, or zeros.
fn range_of(range: Option<(u32, u32)>) -> SackRange
    ensures { result ≡ range_of range }
{
    let (left, right) = range.unwrap_or((0, 0));
    SackRange { left, right }
}

// The ranges, with zeros in the places that are free.
fn ranges_of(summary: &TcpOptionSummary) -> [SackRange; SACK_BLOCKS]
    ensures { result ≡ ranges_of summary.now }
{
    let ranges = &summary.sack_ranges;
    [
        range_of(ranges[0]),
        range_of(ranges[1]),
        range_of(ranges[2]),
        range_of(ranges[3]),
    ]
}

// How many ranges there are.
fn range_count(summary: &TcpOptionSummary) -> u8
    ensures { result ≡ range_count summary.now }
{
    let ranges = &summary.sack_ranges;
    u8::from(ranges[0].is_some())
        + u8::from(ranges[1].is_some())
        + u8::from(ranges[2].is_some())
        + u8::from(ranges[3].is_some())
}

/// The struct of these options.
pub(crate) fn options_of(summary: &TcpOptionSummary) -> TcpOptions
    ensures { result ≡ options_of summary.now }
{
    let (tsval, tsecr) = summary.timestamp.unwrap_or((0, 0));
    TcpOptions {
        sack_ranges: ranges_of(summary),
        tsval,
        tsecr,
        max_seg_size: summary.max_segment_size.unwrap_or(0),
        window_scale: summary.window_scale.unwrap_or(0),
        sack_permitted: u8::from(summary.sack_permitted),
        sack_range_count: range_count(summary),
        has_max_seg_size: u8::from(summary.max_segment_size.is_some()),
        has_window_scale: u8::from(summary.window_scale.is_some()),
        has_timestamp: u8::from(summary.timestamp.is_some()),
    }
}

/// The options in a struct.
pub(crate) fn summary_of(options: &TcpOptions) -> TcpOptionSummary
    ensures { result ≡ summary_of options.now }
{
    TcpOptionSummary {
        max_segment_size: (options.has_max_seg_size != 0).then_some(options.max_seg_size),
        window_scale: (options.has_window_scale != 0).then_some(options.window_scale),
        sack_permitted: options.sack_permitted != 0,
        sack_ranges: [
            range_at(options, 0),
            range_at(options, 1),
            range_at(options, 2),
            range_at(options, 3),
        ],
        timestamp: (options.has_timestamp != 0).then_some((options.tsval, options.tsecr)),
    }
}

// The SACK range in this place, if there are so many.
fn range_at(options: &TcpOptions, place: usize) -> Option<(u32, u32)>
    requires { place < 4 }
    ensures { result ≡ range_at options.now place }
{
    let range = options.sack_ranges[place];
    (place < usize::from(options.sack_range_count)).then_some((range.left, range.right))
}
