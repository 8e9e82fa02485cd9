//! Options of a header, one at a time (RFC 9293, section 3.1; RFC 2018; RFC 7323).

ghost use Rattle.std.specs.Prelude.{◌≡◌, ◌+◌, ◌*◌, ◌%◌, ◌<◌, ◌≤◌, ◌∷◌, ◌++◌, IfOk, OnErr, count_by, drop, is_some, length, slice_index};
ghost use Rattle.std.specs.Borrow.{sem};
ghost use Rattle.byteorder.specs.Endian.{big_bytes};
ghost use Rattle.wire_tcp_options.specs.TcpOptionBorrow.{BorrowsRest, LocatesRest};
ghost use Rattle.wire_tcp_options.specs.TcpItems.{IsItem, block_at, first_blocks, is_sized, item, text};
ghost use Rattle.wire_tcp_options.specs.TcpOption.{Begins, BeginsNothing, IsEmittable, IsReading, option_len, option_text, range_bytes, ranges_in, rest_after};

use super::SACK_BLOCKS;
use byteorder::{ByteOrder, NetworkEndian};
use net_base::{Error, Located, Result};

pub(super) const OPT_END: u8 = 0;

pub(super) const OPT_NOP: u8 = 1;

pub(super) const OPT_MSS: u8 = 2;

pub(super) const OPT_WS: u8 = 3;

pub(super) const OPT_SACKPERM: u8 = 4;

pub(super) const OPT_SACKRNG: u8 = 5;

pub(super) const OPT_TSTAMP: u8 = 8;

/// An option of a header.
#[derive(Debug, Clone, Copy, PartialEq, Eq)]
pub enum TcpOption<'a> {
    /// The end of the option list. The bytes after it are padding.
    EndOfList,
    NoOperation,
    /// The largest segment that the sender accepts, in bytes (RFC 9293, section 3.7.1).
    MaxSegmentSize(u16),
    /// The number of bits by which windows are shifted (RFC 7323, section 2).
    WindowScale(u8),
    /// The sender accepts selective acknowledgements (RFC 2018, section 2).
    SackPermitted,
    /// The first SACK blocks, each from its left edge up to, but without, its right edge (RFC 2018,
    /// section 3).
    SackRange([Option<(u32, u32)>; SACK_BLOCKS]),
    /// A timestamp, and the echoed timestamp (RFC 7323, section 3).
    TimeStamp { tsval: u32, tsecr: u32 },
    /// An option of another kind, or a timestamp of another length.
    Unknown { kind: u8, bytes: &'a [u8] },
}

impl<'a> TcpOption<'a> {
    /// Parses the first option. Returns the bytes after it, and the option. Fails if there are no
    /// bytes, if the length is wrong for the option's kind, or if the option passes the end of the
    /// bytes.
    #[tactic(auto, using(crate::proofs::Items::take_left, crate::proofs::Items::first_cell, crate::proofs::Items::IsItem_bare, crate::proofs::Items::Begins_from_item))]
    #[inline(always)]
    pub fn parse(buffer: &'a [u8]) -> Result<(&'a [u8], TcpOption<'a>)>
        ensures ok { IfOk result (λ read. Begins read.1 buffer.now read.0.now) }
        ensures err { OnErr result (BeginsNothing buffer.now) }
    {
        if buffer.is_empty() {
            return Err(Error);
        }
        let kind = buffer[0];
        if kind == OPT_END {
            return Ok((&buffer[1..], TcpOption::EndOfList));
        }
        if kind == OPT_NOP {
            return Ok((&buffer[1..], TcpOption::NoOperation));
        }
        let (rest, content) = split_item(buffer)?;
        Ok((rest, TcpOption::of_item(kind, content)))
    }

    // The option of this kind with these data bytes.
    #[inline(always)]
    fn of_item(kind: u8, content: &'a [u8]) -> TcpOption<'a>
        requires above { 1 < kind }
        requires item { IsItem (item kind content.now) }
        ensures { IsReading result (item kind content.now) }
    {
        match kind {
            OPT_MSS => TcpOption::MaxSegmentSize(NetworkEndian::read_u16(content)),
            OPT_WS => TcpOption::WindowScale(content[0]),
            OPT_SACKPERM => TcpOption::SackPermitted,
            OPT_SACKRNG => TcpOption::SackRange(first_blocks(content)),
            OPT_TSTAMP if content.len() == 8 => TcpOption::TimeStamp {
                tsval: NetworkEndian::read_u32(content),
                tsecr: NetworkEndian::read_u32(&content[4..]),
            },
            _ => TcpOption::Unknown {
                kind,
                bytes: content,
            },
        }
    }

    /// The length of the emitted option in bytes. It is 1 for the end of the list: padding is not
    /// counted.
    #[inline(always)]
    pub fn buffer_len(&self) -> usize
        ensures { result ≡ option_len self.now }
    {
        match self {
            TcpOption::EndOfList => 1,
            TcpOption::NoOperation => 1,
            TcpOption::MaxSegmentSize(_) => 4,
            TcpOption::WindowScale(_) => 3,
            TcpOption::SackPermitted => 2,
            TcpOption::SackRange(ranges) => 2 + 8 * count_ranges(ranges),
            TcpOption::TimeStamp { .. } => 10,
            TcpOption::Unknown { bytes, .. } => add_head(bytes),
        }
    }

    // The SACK ranges. They are all `None` for any other option.
    pub(super) fn ranges(&self) -> [Option<(u32, u32)>; SACK_BLOCKS]
        ensures { result ≡ ranges_in self.now }
    {
        match self {
            TcpOption::SackRange(ranges) => *ranges,
            _ => [None; SACK_BLOCKS],
        }
    }

    /// Writes the option to the front of the buffer, and returns the bytes after it, to be written
    /// in place. After an end of the list all bytes are set to 0, as padding. After other
    /// options they are unchanged.
    pub fn emit<'b>(&self, buffer: &'b mut [u8]) -> &'b mut [u8]
        requires room { option_len self.now ≤ length buffer.old }
        requires fits { IsEmittable self.now }
        ensures* writes_back { sem 𝓛 (BorrowsRest buffer.entry (option_text self.now) result) }
        ensures value { result.now ≡ rest_after self.now buffer.old }
    {
        write_and_locate_rest(buffer, self).into_slice()
    }
}

// The bytes after the first option, and the data of that option, which has a length byte.
#[inline(always)]
pub(super) fn split_item(buffer: &[u8]) -> Result<(&[u8], &[u8])>
    requires filled { 0 < length buffer.now }
    requires kind { 1 < slice_index buffer.now 0 }
    ensures ok { IfOk result (λ read. let i = item (slice_index buffer.now 0) read.1.now in
        IsItem i × (buffer.now ≡ text i ++ read.0.now)) }
    ensures err { OnErr result (BeginsNothing buffer.now) }
{
    if buffer.len() < 2 {
        return Err(Error);
    }
    let len = usize::from(buffer[1]);
    if len < 2 || buffer.len() < len || !is_sized(buffer[0], len - 2) {
        return Err(Error);
    }
    Ok((&buffer[len..], &buffer[2..len]))
}

// Whether an option of this kind can have `size` bytes of data.
#[inline(always)]
fn is_sized(kind: u8, size: usize) -> bool
    requires { size ≤ 253 }
    ensures { result ≡ is_sized kind size }
{
    match kind {
        OPT_MSS => size == 2,
        OPT_WS => size == 1,
        OPT_SACKPERM => size == 0,
        OPT_SACKRNG => size > 0 && size % 8 == 0,
        _ => true,
    }
}

/// Writes the option to a buffer of exactly its length.
#[inline(always)]
pub fn write_option(option: &TcpOption<'_>, buffer: &mut [u8])
    requires len { length buffer.old ≡ option_len option.now }
    requires fits { IsEmittable option.now }
    ensures { buffer.new ≡ option_text option.now }
{
    match option {
        TcpOption::EndOfList => buffer[0] = OPT_END,
        TcpOption::NoOperation => buffer[0] = OPT_NOP,
        TcpOption::MaxSegmentSize(size) => {
            write_head(buffer, OPT_MSS);
            NetworkEndian::write_u16(&mut buffer[2..], *size);
        }
        TcpOption::WindowScale(scale) => {
            write_head(buffer, OPT_WS);
            buffer[2] = *scale;
        }
        TcpOption::SackPermitted => write_head(buffer, OPT_SACKPERM),
        TcpOption::SackRange(ranges) => write_sack(buffer, ranges),
        TcpOption::TimeStamp { tsval, tsecr } => {
            write_head(buffer, OPT_TSTAMP);
            NetworkEndian::write_u32(&mut buffer[2..], *tsval);
            NetworkEndian::write_u32(&mut buffer[6..], *tsecr);
        }
        TcpOption::Unknown { kind, bytes } => {
            write_head(buffer, *kind);
            buffer[2..].copy_from_slice(bytes);
        }
    }
}

// Writes the option to the front of the buffer. Returns the buffer, and the range of the bytes
// after the option.
fn write_and_locate_rest<'b>(buffer: &'b mut [u8], option: &TcpOption<'_>) -> Located<'b>
    requires room { option_len option.now ≤ length buffer.old }
    requires fits { IsEmittable option.now }
    ensures { let rest = rest_after option.now buffer.old in
        LocatesRest buffer.entry (option_text option.now) rest result }
{
    let start = option.buffer_len();
    let end = buffer.len();
    write_option(option, &mut buffer[..start]);
    if let TcpOption::EndOfList = option {
        buffer[start..].fill(0);
    }
    Located {
        bytes: buffer,
        start,
        end,
    }
}

// The first blocks in the data of a SACK option.
#[inline(always)]
pub(super) fn first_blocks(content: &[u8]) -> [Option<(u32, u32)>; SACK_BLOCKS]
    requires { length content.now % 8 ≡ 0 }
    ensures { result ≡ first_blocks content.now }
{
    [
        block_at(content, 0),
        block_at(content, 1),
        block_at(content, 2),
        block_at(content, 3),
    ]
}

// Block `i` in the data of a SACK option, if there is one.
#[tactic(auto, using(crate::proofs::Items::take_left, crate::proofs::Items::block_at_here))]
#[inline(always)]
fn block_at(content: &[u8], i: usize) -> Option<(u32, u32)>
    requires whole { length content.now % 8 ≡ 0 }
    requires kept { i < SACK_BLOCKS }
    ensures { result ≡ block_at content.now i }
{
    let first = 8 * i;
    if first < content.len() {
        let left = NetworkEndian::read_u32(&content[first..]);
        let right = NetworkEndian::read_u32(&content[first + 4..]);
        Some((left, right))
    } else {
        None
    }
}

/// The number of ranges that are `Some`.
pub fn count_ranges(ranges: &[Option<(u32, u32)>; SACK_BLOCKS]) -> usize
    ensures count { result ≡ count_by is_some ranges.now }
    ensures bound { result ≤ SACK_BLOCKS }
{
    let mut count = 0;
    for range in ranges {
        count += usize::from(range.is_some());
    }
    count
}

// The length of an option with these data bytes.
fn add_head(bytes: &[u8]) -> usize
    ensures { result ≡ 2 + length bytes.now }
{
    2 + bytes.len()
}

// Writes the kind, and the length of the buffer as the option's length.
fn write_head(buffer: &mut [u8], kind: u8)
    requires room { 2 ≤ length buffer.old }
    requires fits { length buffer.old < 256 }
    ensures { buffer.new ≡ kind ∷ length buffer.old ∷ drop 2 buffer.old }
{
    buffer[0] = kind;
    buffer[1] = buffer.len() as u8;
}

// Writes a SACK option to a buffer of exactly its length.
fn write_sack(buffer: &mut [u8], ranges: &[Option<(u32, u32)>; SACK_BLOCKS])
    requires { length buffer.old ≡ 2 + 8 * count_by is_some ranges.now }
    ensures { buffer.new ≡ 5 ∷ length buffer.old ∷ range_bytes ranges.now }
{
    write_head(buffer, OPT_SACKRNG);
    write_ranges(&mut buffer[2..], ranges);
}

// Writes the ranges that are `Some`, without gaps.
fn write_ranges(buffer: &mut [u8], ranges: &[Option<(u32, u32)>])
    requires { length buffer.old ≡ 8 * count_by is_some ranges.now }
    ensures { buffer.new ≡ range_bytes ranges.now }
{
    let mut at = 0;
    for range in ranges {
        if let Some((left, right)) = range {
            write_range(&mut buffer[at..at + 8], *left, *right);
            at += 8;
        }
    }
}

// Writes the two edges of a range.
fn write_range(buffer: &mut [u8], left: u32, right: u32)
    requires { length buffer.old ≡ 8 }
    ensures { buffer.new ≡ big_bytes 4 left ++ big_bytes 4 right }
{
    NetworkEndian::write_u32(buffer, left);
    NetworkEndian::write_u32(&mut buffer[4..], right);
}
