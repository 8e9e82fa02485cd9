//! Parts of TCP segments (RFC 9293, section 3.1).

mod control;
mod option;
mod place;
mod seq_number;
mod summary;
mod timestamp;
pub mod walk;

pub use control::TcpControl;
pub use option::{TcpOption, count_ranges, write_option};
pub use place::max_segment_size_at;
pub use seq_number::TcpSeqNumber;
pub use summary::{TcpOptionSummary, summarize};
pub use timestamp::{TcpTimestampGenerator, TcpTimestampRepr};

/// The number of SACK blocks that are kept. The first ones are.
pub const SACK_BLOCKS: usize = 4;
