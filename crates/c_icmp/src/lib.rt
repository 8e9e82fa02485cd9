//! ICMP in the structs of `include/ip_wire.h`: messages that are written, neighbour discovery, multicast
//! listener discovery, and ICMP errors. `c_exports` exports it to C.
#![tactic(auto)]

mod emit;
mod errors;
mod host;
mod interfaces;
pub mod laws;
mod mld;
mod neighbours;
mod types;

pub use emit::{emit_icmp, emit_icmp_frame, emit_icmp_packet, icmp_failure, icmp_frame_failure};
pub use errors::Problem;
pub use mld::{emit_mld_report, mld_failure, read_mld_query};
pub use neighbours::{emit_ndisc_frame, ndisc_failure};
pub use types::{HostFields, InterfaceFields, Ndisc};
