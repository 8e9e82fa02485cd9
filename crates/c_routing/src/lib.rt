//! The steps of a router and of NAT on frames, and edits of single fields, as the calls of `include/ip_wire.h` make them. `c_exports` exports them to C.
#![tactic(auto)]

mod clamping;
mod edits;
mod forwarding;
mod fragments;
mod lengths;
mod nat;
mod reassembly;
mod rejections;
mod routes;
mod sources;
mod translation;

pub use clamping::clamp_frame;
pub use edits::{
    fill_checksum, offload_of, set_addr, set_bytes, set_dscp, set_hop_limit, set_port,
};
pub use forwarding::forward_frame;
pub use fragments::write_fragment;
pub use nat::{shrink_reach, translate_in, translate_out};
pub use reassembly::{expire_packet, reassemble_frame};
pub use rejections::Rejection;
pub use routes::{Route, choose_by_table, choose_route, index_routes, make_table};
pub use sources::{check_addr, check_addr_by_table};
pub use translation::translate_frame;
