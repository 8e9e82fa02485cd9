//! ICMP messages. Both versions have one header: a type, a code, a checksum and a word whose meaning
//! depends on the type. The version of a message is that of the addresses between which it goes.

ghost use Rattle.std.specs.Prelude.{◌≡◌};
ghost use Rattle.net_base.specs.declared.checksum.Checksum.{Checksum};
ghost use Rattle.wire_addr.specs.IpAddress.{version_of};
ghost use Rattle.wire_icmp.specs.Icmp.{choice_of, message_sum, protocol_of};

mod header;
mod packet;
mod packet_mut;
mod reason;
mod repr;

pub use header::IcmpHeader;
use net_base::{Checksum, ChecksumCapabilities};
pub use packet::{IcmpPacket, IcmpPacketMut};
pub use reason::{Exceeded, Unreachable};
pub use repr::IcmpRepr;
use wire_addr::{IpAddress, IpProtocol, IpVersion};
use wire_checksum::checksum;

/// The length of a header in bytes.
pub const ICMP_HEADER_LEN: usize = 8;

/// The protocol of the messages of a version.
pub fn protocol_of(version: IpVersion) -> IpProtocol
    ensures { result ≡ protocol_of version }
{
    match version {
        IpVersion::Ipv4 => IpProtocol::Icmp,
        IpVersion::Ipv6 => IpProtocol::Icmpv6,
    }
}

// What is done with the checksum of the messages of a version.
fn choice_of(version: IpVersion, caps: &ChecksumCapabilities) -> Checksum
    ensures { result ≡ choice_of version caps.now }
{
    match version {
        IpVersion::Ipv4 => caps.icmpv4,
        IpVersion::Ipv6 => caps.icmpv6,
    }
}

// The sum that the checksum complements: over IPv6 a pseudo-header counts too (RFC 4443, section 2.3).
fn message_sum(src_addr: &IpAddress, dst_addr: &IpAddress, message: &[u8]) -> u16
    requires { version_of src_addr.now ≡ version_of dst_addr.now }
    ensures { result ≡ message_sum src_addr.now dst_addr.now message.now }
{
    match src_addr {
        IpAddress::Ipv4(_) => checksum::data(message),
        IpAddress::Ipv6(_) => {
            checksum::packet(*src_addr, *dst_addr, IpProtocol::Icmpv6, message)
        }
    }
}
