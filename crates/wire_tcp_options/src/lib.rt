//! What TCP segments are made of: options, sequence numbers, control flags and timestamps (RFC 9293;
//! options by RFC 2018 and RFC 7323).
#![tactic(auto)]

pub mod laws;
mod tcp;

pub use tcp::{
    SACK_BLOCKS, TcpControl, TcpOption, TcpOptionSummary, TcpSeqNumber, TcpTimestampGenerator,
    TcpTimestampRepr, count_ranges, max_segment_size_at, summarize, walk, write_option,
};
