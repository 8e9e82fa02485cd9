//! ARP packets.
#![tactic(auto)]

mod arp;
pub mod laws;

pub use arp::{ArpHardware, ArpOperation, ArpPacket, ArpPacketMut, ArpRepr};
