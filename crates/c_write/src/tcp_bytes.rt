//! The options of a TCP header, written from their numbers.

ghost use Rattle.std.specs.Prelude.{◌≡◌, ◌+◌, ◌-◌, ◌*◌, ◌≤◌, ◌∷◌, ◌++◌, length, replicate};
ghost use Rattle.byteorder.specs.Endian.{big_bytes};
ghost use Rattle.ip_wire.specs.Field.{with_range};
ghost use Rattle.ip_wire.specs.TcpRepr.{option_bytes, sack_items, segment_size_items, timestamp_items, window_scale_items};
ghost use Rattle.wire_tcp_options.specs.TcpItems.{texts};
ghost use Rattle.wire_tcp_options.specs.TcpOption.{IsEmittable, option_len, option_text};
ghost use Rattle.c_write.specs.Headers.{edges, options_header_len, options_value, where_set};

use byteorder::{ByteOrder, NetworkEndian};
use c_structs::{SackRange, TcpOptions};
use ip_wire::{TCP_HEADER_LEN, TcpOption, TcpTimestampRepr};
use wire_tcp_options::write_option;

// The kind of the option with SACK ranges.
const SACK_RANGES: u8 = 5;

/// Writes the options after the first 20 bytes of a header, and zeros up to its end.
#[inline(always)]
pub fn emit_options(options: &TcpOptions, header_len: usize, out: &mut [u8])
    requires few { options.now.sack_range_count ≤ length options.now.sack_ranges }
    requires value { header_len ≡ options_header_len options.now }
    requires room { header_len ≤ length out.old }
    ensures { out.new ≡ with_range out.old 20 header_len (option_bytes (options_value options.now)) }
{
    if header_len == TCP_HEADER_LEN {
        return;
    }
    let sized = emit_segment_size(options, TCP_HEADER_LEN, out);
    let scaled = emit_window_scale(options, sized, out);
    let acknowledged = emit_sack(options, scaled, out);
    let stamped = emit_timestamp(options, acknowledged, out);
    write_zeros(stamped, header_len, out);
}

// Writes the maximum segment size at byte `at`, if there is one, and returns where it ends.
#[inline(always)]
fn emit_segment_size(options: &TcpOptions, at: usize, out: &mut [u8]) -> usize
    requires { at + length (texts (segment_size_items (options_value options.now).max_seg_size)) ≤ length out.old }
    ensures end { result ≡ at + length (texts (segment_size_items (options_value options.now).max_seg_size)) }
    ensures written { out.new ≡ with_range out.old at result (texts (segment_size_items (options_value options.now).max_seg_size)) }
{
    match where_set(options.has_max_seg_size, options.max_seg_size) {
        Some(size) => put(&TcpOption::MaxSegmentSize(size), at, out),
        None => at,
    }
}

// Writes the window scale at byte `at`, if there is one, and returns where it ends.
#[inline(always)]
fn emit_window_scale(options: &TcpOptions, at: usize, out: &mut [u8]) -> usize
    requires { at + length (texts (window_scale_items (options_value options.now).window_scale)) ≤ length out.old }
    ensures end { result ≡ at + length (texts (window_scale_items (options_value options.now).window_scale)) }
    ensures written { out.new ≡ with_range out.old at result (texts (window_scale_items (options_value options.now).window_scale)) }
{
    match where_set(options.has_window_scale, options.window_scale) {
        Some(scale) => put(&TcpOption::WindowScale(scale), at, out),
        None => at,
    }
}

// Writes SACK permitted at byte `at`, or else the ranges, and returns where they end.
#[inline(always)]
fn emit_sack(options: &TcpOptions, at: usize, out: &mut [u8]) -> usize
    requires few { options.now.sack_range_count ≤ length options.now.sack_ranges }
    requires room { at + length (texts (sack_items (options_value options.now))) ≤ length out.old }
    ensures end { result ≡ at + length (texts (sack_items (options_value options.now))) }
    ensures written { out.new ≡ with_range out.old at result (texts (sack_items (options_value options.now))) }
{
    // Once one is read, the checker knows how many the struct has room for.
    let _first = options.sack_ranges[0].left;
    let count = usize::from(options.sack_range_count);
    if options.sack_permitted != 0 {
        put(&TcpOption::SackPermitted, at, out)
    } else if count != 0 {
        put_ranges(&options.sack_ranges[..count], at, out)
    } else {
        at
    }
}

// Writes the timestamp at byte `at`, if there is one, and returns where it ends.
#[inline(always)]
fn emit_timestamp(options: &TcpOptions, at: usize, out: &mut [u8]) -> usize
    requires { at + length (texts (timestamp_items (options_value options.now).timestamp)) ≤ length out.old }
    ensures end { result ≡ at + length (texts (timestamp_items (options_value options.now).timestamp)) }
    ensures written { out.new ≡ with_range out.old at result (texts (timestamp_items (options_value options.now).timestamp)) }
{
    match where_set(
        options.has_timestamp,
        TcpTimestampRepr::new(options.tsval, options.tsecr),
    ) {
        Some(TcpTimestampRepr { tsval, tsecr }) => {
            put(&TcpOption::TimeStamp { tsval, tsecr }, at, out)
        }
        None => at,
    }
}

/// The value if the number is not 0, else `None`.
#[inline(always)]
pub fn where_set<T: Copy>(number: u8, value: T) -> Option<T>
    ensures { result ≡ where_set number value }
{
    (number != 0).then_some(value)
}

// Writes an option at byte `at`, and returns where it ends.
#[inline(always)]
fn put(option: &TcpOption<'_>, at: usize, out: &mut [u8]) -> usize
    requires room { at + option_len option.now ≤ length out.old }
    requires fits { IsEmittable option.now }
    ensures end { result ≡ at + option_len option.now }
    ensures written { out.new ≡ with_range out.old at result (option_text option.now) }
{
    let end = at + option.buffer_len();
    write_option(option, &mut out[at..end]);
    end
}

// Writes a SACK option with these ranges at byte `at`, and returns where it ends.
#[inline(always)]
fn put_ranges(ranges: &[SackRange], at: usize, out: &mut [u8]) -> usize
    requires room { at + (2 + 8 * length ranges.now) ≤ length out.old }
    requires few { length ranges.now ≤ 4 }
    ensures end { result ≡ at + (2 + 8 * length ranges.now) }
    ensures written { out.new ≡ with_range out.old at result (5 ∷ (2 + 8 * length ranges.now) ∷ edges ranges.now) }
{
    let end = at + (2 + 8 * ranges.len());
    write_sack(ranges, &mut out[at..end]);
    end
}

// Writes a SACK option with these ranges to a slice of exactly its length.
#[inline(always)]
fn write_sack(ranges: &[SackRange], out: &mut [u8])
    requires len { length out.old ≡ 2 + 8 * length ranges.now }
    requires few { length ranges.now ≤ 4 }
    ensures { out.new ≡ 5 ∷ (2 + 8 * length ranges.now) ∷ edges ranges.now }
{
    let len = out.len() as u8;
    let (head, rest) = out.split_at_mut(2);
    head.copy_from_slice(&[SACK_RANGES, len]);
    write_ranges(ranges, rest);
}

// Writes the edges of ranges.
#[inline(always)]
fn write_ranges(ranges: &[SackRange], out: &mut [u8])
    requires { length out.old ≡ 8 * length ranges.now }
    ensures { out.new ≡ edges ranges.now }
{
    let mut at = 0;
    for range in ranges {
        write_range(range.left, range.right, &mut out[at..at + 8]);
        at += 8;
    }
}

// Writes both edges of a range.
#[inline(always)]
fn write_range(left: u32, right: u32, out: &mut [u8])
    requires { length out.old ≡ 8 }
    ensures { out.new ≡ big_bytes 4 left ++ big_bytes 4 right }
{
    NetworkEndian::write_u32(out, left);
    NetworkEndian::write_u32(&mut out[4..], right);
}

// Writes zeros from byte `start` up to byte `end`. For up to three this is no call.
#[inline(always)]
fn write_zeros(start: usize, end: usize, out: &mut [u8])
    requires begins { start ≤ end }
    requires ends { end ≤ length out.old }
    ensures { out.new ≡ with_range out.old start end (replicate (end - start) 0) }
{
    match end - start {
        0 => {}
        1 => out[start..start + 1].fill(0),
        2 => out[start..start + 2].fill(0),
        3 => out[start..start + 3].fill(0),
        _ => out[start..end].fill(0),
    }
}
