//! The Internet Control Message Protocol (RFC 792; over IPv6 RFC 4443), and neighbour discovery for IPv6 (RFC 4861):
//! neighbour solicitations and advertisements.
#![tactic(auto)]

mod icmp;
pub mod laws;
mod ndisc;

pub use icmp::{
    Exceeded, ICMP_HEADER_LEN, IcmpHeader, IcmpPacket, IcmpPacketMut, IcmpRepr, Unreachable,
    protocol_of,
};
pub use ndisc::{NDISC_HOP_LIMIT, NdiscNeighborFlags, NdiscRepr};
