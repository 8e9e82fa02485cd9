//! Ethernet II frames.
#![tactic(auto)]

mod ethernet;
pub mod laws;

pub use ethernet::{
    ETHERNET_HEADER_LEN, EthernetFrame, EthernetFrameMut, EthernetProtocol, EthernetRepr,
};
