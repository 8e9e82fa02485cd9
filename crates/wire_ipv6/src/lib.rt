//! IPv6 headers and IPv6 fragment headers.
#![tactic(auto)]

mod ipv6;
mod ipv6fragment;
pub mod laws;

pub use ipv6::{
    IPV6_HEADER_LEN, IPV6_MAX_PAYLOAD_LEN, IPV6_MIN_MTU, Ipv6Packet, Ipv6PacketMut, Ipv6Repr,
};
pub use ipv6fragment::{Ipv6FragmentHeader, Ipv6FragmentHeaderMut, Ipv6FragmentRepr};
