//! Edits of single fields of the packet in an Ethernet frame, in place. The checksums that cover the written bytes
//! are updated (RFC 1624). `update_bytes` and `update_udp_bytes` update a single checksum field.
#![tactic(auto)]

mod checksums;
mod edits;
mod ends;
mod fill;
pub mod laws;
mod layout;
mod offsets;
mod places;
mod replace;
mod side;

pub use checksums::{update_bytes, update_udp, update_udp_bytes};
pub use edits::{set_addr, set_bytes, set_dscp, set_hop_limit, set_port};
pub use fill::fill_checksum;
pub use layout::Layout;
pub use places::{Carried, Places, Segment};
pub use replace::Offload;
pub use side::Side;
