//! The values of the options of a TCP header.

use crate::operands::Operands;
use ip_wire::{
    Result as Parsed, SACK_BLOCKS, TCP_HEADER_LEN, TcpOption, TcpOptionSummary, TcpPacket,
};
use std::alloc::{AllocError, Global};
use std::fmt::Debug;

// The largest length of the options in a header in bytes, in whole words of 4.
const MAX_OPTIONS_LEN: usize = 40;

/// The summary of the options, whether SACK is permitted, and the ranges of the first SACK option.
pub fn answer(alloc: Global, operands: &mut Operands<'_>) -> Result<String, AllocError> {
    let options = operands.octets(alloc)?;
    let mut bytes = vec![in alloc; 0; TCP_HEADER_LEN]?;
    bytes.extend_from_slice(options.as_slice())?;
    if options.len() <= MAX_OPTIONS_LEN && options.len() % 4 == 0 {
        bytes[12] = ((TCP_HEADER_LEN + options.len()) / 4 * 16) as u8;
    }
    let Ok(packet) = TcpPacket::new_checked(bytes.as_slice()) else {
        operands.reject();
        return Ok(String::new(alloc));
    };
    let summary = shown(alloc, packet.options_summary().map(fields))?;
    let permitted = shown(alloc, packet.selective_ack_permitted())?;
    let ranges = shown(alloc, packet.selective_ack_ranges())?;
    format!(in alloc; "{summary} {permitted} {ranges}")
}

/// The first option, the number of bytes after it, its emitted bytes, and the number of bytes that are
/// left of the buffer. The buffer is two bytes longer than the option. `err` if there is no option.
pub fn first(alloc: Global, operands: &mut Operands<'_>) -> Result<String, AllocError> {
    let octets = operands.octets(alloc)?;
    let Ok((rest, option)) = TcpOption::parse(octets.as_slice()) else {
        return String::from_str(alloc, "err");
    };
    let value = shown(alloc, Ok(option))?;
    let mut out = vec![in alloc; 0xff; option.buffer_len() + 2]?;
    let left = option.emit(out.as_mut_slice()).len();
    let digits = hex::encode(alloc, out.as_slice())?;
    format!(in alloc; "{value} {} {digits} {left}", rest.len())
}

type Pair = Option<(u32, u32)>;

type Fields = (Option<u16>, Option<u8>, bool, [Pair; SACK_BLOCKS], Pair);

// The fields of a summary, without their names.
fn fields(summary: TcpOptionSummary) -> Fields {
    let ranges = summary.sack_ranges;
    (
        summary.max_segment_size,
        summary.window_scale,
        summary.sack_permitted,
        ranges,
        summary.timestamp,
    )
}

// The debug form of a value without its spaces, or `err`.
fn shown<T: Debug + Drop>(alloc: Global, value: Parsed<T>) -> Result<String, AllocError> {
    match value {
        Ok(value) => without_spaces(alloc, format!(in alloc; "{value:?}")?.as_str()),
        Err(_) => String::from_str(alloc, "err"),
    }
}

// A text without its spaces.
fn without_spaces(alloc: Global, text: &str) -> Result<String, AllocError> {
    let mut rest = String::new(alloc);
    for part in text.split(' ') {
        rest.push_str(part)?;
    }
    Ok(rest)
}
