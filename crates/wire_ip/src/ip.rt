//! IP packets of either version. The first four bits tell which.

mod packet;
mod repr;

pub use packet::IpPacket;
pub use repr::IpRepr;
