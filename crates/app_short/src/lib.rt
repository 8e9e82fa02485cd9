//! Uses of the library, each in a short file of its own. Read `read_frame` first.
#![tactic(auto)]

pub mod allow_list;
pub mod flow_key;
pub mod hop_guard;
pub mod mss_clamp;
pub mod read_frame;
pub mod verify_checksum;
pub mod write_frame;
