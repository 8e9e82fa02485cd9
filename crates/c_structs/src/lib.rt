//! The structs of `include/ip_wire.h`, with their numbers and failures. `c_read` and `c_write` fill and write them.
#![tactic(auto)]

mod addresses;
mod codes;
mod failures;
mod flags;
mod nothing;
mod results;
mod tcp_kept;
mod types;

pub use addresses::{address_sum, print_address, print_block};
pub use codes::{NetworkKind, Reason, TransportKind, Verdict};
pub use failures::Failure;
pub use flags::{DONT_FRAGMENT, DSCP_UNIT, FLOW_LABELS, MORE_FRAGMENTS};
pub use results::{MAX_LEN, failed, is_set, print, usable, within};
pub use tcp_kept::{has_padded_stamp, has_stamp};
pub use types::{
    Addr, Arp, Block, Endpoint, Ethernet, FrameFields, Icmp, Ip, Ipv6HeaderPlace, SackRange, Tcp,
    TcpOptionPlace, TcpOptions,
};
