//! What writes packets and frames, and rebuilds frames, from the structs of `include/ip_wire.h`, and why it cannot. `c_exports`
//! exports it to C.
#![tactic(auto)]

mod arp;
mod emit;
mod failures;
mod frames;
mod ip;
pub mod laws;
mod packets;
mod rebuild;
mod tcp;
mod tcp_bytes;
mod tcp_kept;
mod tcp_len;
mod udp;

pub use arp::emit_arp;
pub use emit::{emit_tcp, emit_udp};
pub use failures::{
    arp_failure, frame_failure, ip_failure, most_payload, options_failure, pair_failure,
    rebuild_failure, tcp_failure, tcp_frame_failure, udp_failure, udp_frame_failure,
};
pub use frames::{
    emit_arp_frame, emit_ethernet, emit_link, emit_tcp_frame, emit_udp_frame, turn_around,
    wrap_tcp_frame, wrap_udp_frame,
};
pub use ip::emit_ip;
pub use packets::{
    emit_ip_header, emit_tcp_packet, emit_udp_packet, ip_header, wrap_tcp_packet, wrap_udp_packet,
};
pub use rebuild::rebuild_frame;
pub use tcp_len::tcp_header_len;
