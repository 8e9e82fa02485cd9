//! What the ends of a TCP connection agree on in their SYNs, and the options of each segment: maximum segment size (RFC 9293,
//! section 3.7.1), window scale and timestamps (RFC 7323), selective acknowledgements (RFC 2018). No input, output, clock or
//! allocation.
#![tactic(auto)]

mod agreed;
mod fields;
pub mod laws;
mod mss;
mod scale;
mod timestamps;

pub use agreed::Agreed;
pub use fields::AgreedFields;
pub use mss::peer_mss;
pub use scale::{scale_of, syn_window};
