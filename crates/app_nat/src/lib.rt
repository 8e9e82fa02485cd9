//! Network address translation in place: of one address and port, and by a table of mappings. The table says which
//! outside port stands for which inside endpoint (RFC 4787, RFC 5382, RFC 5508).
#![tactic(auto)]

mod choice;
mod errors;
mod flows;
pub mod laws;
mod look_up;
mod mapping;
mod nat;
mod packet;
mod reach;
mod state;
mod table;
mod translation;

pub use app_edit::Side;
pub use flows::{translate_in, translate_out};
pub use look_up::{inside_of, port_of};
pub use mapping::{Ipv4Endpoint, Mapping};
pub use nat::{ICMP_TIMEOUT, Nat, TCP_TIMEOUT, TCP_TRANSITORY_TIMEOUT, UDP_TIMEOUT, mappings_for};
pub use packet::{Kind, Packet};
pub use reach::shrink_reach;
pub use state::{Event, Protocol, TcpState};
pub use table::{find, open};
pub use translation::{Rejection, translate};
