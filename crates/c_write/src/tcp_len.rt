//! The lengths of TCP headers.

ghost use Rattle.std.specs.Prelude.{◌≡◌, ◌≤◌, MatchOption, None, Some, count_by, is_some, length};
ghost use Rattle.ip_wire.specs.TcpRepr.{len_if, options_len, sack_len};
ghost use Rattle.c_write.specs.Headers.{has_one_control, options_header_len, options_value, segment_header_len, tcp_header_len};

use crate::tcp_bytes::where_set;
use c_structs::{Tcp, TcpOptions};
use ip_wire::{
    IPV6_MAX_PAYLOAD_LEN, SACK_BLOCKS, TCP_HEADER_LEN, TCP_MAX_HEADER_LEN, TcpTimestampRepr,
};

/// The length of a header with these options. `None` if they do not fit.
#[inline(always)]
pub fn tcp_header_len(options: &TcpOptions) -> Option<usize>
    ensures value { result ≡ tcp_header_len options.now }
    ensures some { MatchOption result (tcp_header_len options.now ≡ None) (λ len.
        (len ≡ options_header_len options.now) × (options.now.sack_range_count ≤ length options.now.sack_ranges) × (len ≤ 60)) }
{
    // Once one is read, the checker knows how many the struct has room for.
    let _first = options.sack_ranges[0].left;
    if usize::from(options.sack_range_count) > SACK_BLOCKS {
        return None;
    }
    let len = (TCP_HEADER_LEN + options_len(options) + 3) / 4 * 4;
    (len <= TCP_MAX_HEADER_LEN).then_some(len)
}

// The length of the options in bytes. Ranges count beside SACK permitted too.
#[inline(always)]
fn options_len(options: &TcpOptions) -> usize
    requires few { options.now.sack_range_count ≤ length options.now.sack_ranges }
    ensures { result ≡ options_len (options_value options.now) }
{
    let has_max_seg_size = where_set(options.has_max_seg_size, options.max_seg_size).is_some();
    let has_window_scale = where_set(options.has_window_scale, options.window_scale).is_some();
    let timestamp = TcpTimestampRepr::new(options.tsval, options.tsecr);
    let has_timestamp = where_set(options.has_timestamp, timestamp).is_some();
    len_if(has_max_seg_size, 4)
        + len_if(has_window_scale, 3)
        + len_if(options.sack_permitted != 0, 2)
        + ranges_len(options)
        + len_if(has_timestamp, 10)
}

// The length of a SACK option in bytes, 0 if there are no ranges.
#[inline(always)]
fn ranges_len(options: &TcpOptions) -> usize
    requires { options.now.sack_range_count ≤ length options.now.sack_ranges }
    ensures { result ≡ sack_len (count_by is_some (options_value options.now).sack_ranges) }
{
    // Once one is read, the checker knows how many the struct has room for.
    let _first = options.sack_ranges[0].left;
    let count = usize::from(options.sack_range_count);
    if count == 0 { 0 } else { 2 + 8 * count }
}

/// The length of a header with these options that can be written before a payload of this length.
/// `None` if the options do not fit, more than one of FIN, SYN and RST is set, or no IP packet can
/// carry the segment.
#[inline(always)]
pub fn segment_header_len(header: &Tcp, options: &TcpOptions, payload_len: usize) -> Option<usize>
    ensures { MatchOption result (segment_header_len header.now options.now payload_len ≡ None) (λ len.
        (segment_header_len header.now options.now payload_len ≡ Some len)
        × (len ≡ options_header_len options.now) × (options.now.sack_range_count ≤ length options.now.sack_ranges) × (len ≤ 60)) }
{
    let header_len = tcp_header_len(options)?;
    if !has_one_control(header) || payload_len > IPV6_MAX_PAYLOAD_LEN - header_len {
        return None;
    }
    Some(header_len)
}

// Whether at most one of FIN, SYN and RST is set.
#[inline(always)]
pub(crate) fn has_one_control(header: &Tcp) -> bool
    ensures { result ≡ has_one_control header.now.flags }
{
    let low = header.flags % 8;
    low <= 2 || low == 4
}

// A length if the test is true.
#[inline(always)]
fn len_if(test: bool, len: usize) -> usize
    ensures { result ≡ len_if test len }
{
    if test { len } else { 0 }
}
