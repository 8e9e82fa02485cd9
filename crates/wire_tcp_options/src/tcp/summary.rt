//! The values of all options of a header.

ghost use Rattle.std.specs.Prelude.{◌≡◌, ◌%◌, ◌<◌, [], ◌∷◌, ◌++◌, List, IfOk, OnErr, length};
ghost use Rattle.wire_tcp_options.specs.TcpItems.{IsItem, Item, item};
ghost use Rattle.wire_tcp_options.specs.TcpSummary.{HasNoList, Summarizes, summary_in, summary_of};

use super::SACK_BLOCKS;
use super::option::{
    OPT_END, OPT_MSS, OPT_NOP, OPT_SACKPERM, OPT_SACKRNG, OPT_TSTAMP, OPT_WS, first_blocks,
    split_item,
};
use byteorder::{ByteOrder, NetworkEndian};
use net_base::Result;

/// The values of the options of a header. Of each kind the last option counts.
#[derive(Debug, Clone, Copy, PartialEq, Eq)]
pub struct TcpOptionSummary {
    /// The largest segment that the sender accepts, in bytes.
    pub max_segment_size: Option<u16>,
    /// The number of bits by which windows are shifted, unchanged if it is above 14.
    pub window_scale: Option<u8>,
    pub sack_permitted: bool,
    pub sack_ranges: [Option<(u32, u32)>; SACK_BLOCKS],
    /// The timestamp, and the echoed timestamp.
    pub timestamp: Option<(u32, u32)>,
}

/// The summary of no options.
impl Default for TcpOptionSummary {
    ghost is_default = { λ summary. summary ≡ summary_of [] };

    fn default() -> TcpOptionSummary {
        TcpOptionSummary {
            max_segment_size: None,
            window_scale: None,
            sack_permitted: false,
            sack_ranges: [None; SACK_BLOCKS],
            timestamp: None,
        }
    }
}

// The values of the options that a walk has passed.
#[derive(Clone, Copy)]
struct OptionValues<'a> {
    max_segment_size: Option<u16>,
    window_scale: Option<u8>,
    sack_permitted: bool,
    // The data of the last SACK option. Its blocks are read once, after the walk.
    sack_blocks: &'a [u8],
    timestamp: Option<(u32, u32)>,
}

/// The values of the options of a header, up to the end of the list. Fails if one of them is
/// malformed.
#[inline(always)]
pub fn summarize(options: &[u8]) -> Result<TcpOptionSummary>
    ensures ok { IfOk result (Summarizes options.now) }
    ensures err { OnErr result (HasNoList options.now) }
{
    let mut values = OptionValues {
        max_segment_size: None,
        window_scale: None,
        sack_permitted: false,
        sack_blocks: &options[..0],
        timestamp: None,
    };
    let mut rest = options;
    while !rest.is_empty() {
        let kind = rest[0];
        if kind == OPT_END {
            break;
        }
        if kind == OPT_NOP {
            rest = &rest[1..];
        } else {
            let (next, content) = split_item(rest)?;
            values.note(kind, content);
            rest = next;
        }
    }
    Ok(values.summary())
}

impl<'a> OptionValues<'a> {
    // Adds the next option, which has this kind and these data bytes.
    #[inline(always)]
    fn note(&mut self, kind: u8, content: &'a [u8])
        requires above { 1 < kind }
        requires item { IsItem (item kind content.now) }
        ensures values { (items : List Item) → summary_in self.old ≡ summary_of items →
            summary_in self.new ≡ summary_of (items ++ item kind content.now ∷ []) }
        ensures whole { length self.old.sack_blocks.now % 8 ≡ 0 → length self.new.sack_blocks.now % 8 ≡ 0 }
    {
        match kind {
            OPT_MSS => self.max_segment_size = Some(NetworkEndian::read_u16(content)),
            OPT_WS => self.window_scale = Some(content[0]),
            OPT_SACKPERM => self.sack_permitted = true,
            OPT_SACKRNG => self.sack_blocks = content,
            OPT_TSTAMP if content.len() == 8 => {
                let tsval = NetworkEndian::read_u32(content);
                let tsecr = NetworkEndian::read_u32(&content[4..]);
                self.timestamp = Some((tsval, tsecr));
            }
            _ => {}
        }
    }

    // The summary of these values.
    #[inline(always)]
    fn summary(&self) -> TcpOptionSummary
        requires { length self.now.sack_blocks.now % 8 ≡ 0 }
        ensures { result ≡ summary_in self.now }
    {
        TcpOptionSummary {
            max_segment_size: self.max_segment_size,
            window_scale: self.window_scale,
            sack_permitted: self.sack_permitted,
            sack_ranges: first_blocks(self.sack_blocks),
            timestamp: self.timestamp,
        }
    }
}
