//! Link types, and the EtherType in a header of each.

ghost use Rattle.std.specs.Prelude.{◌≡◌, ◌≤◌, length};
ghost use Rattle.wire_link.specs.Link.{cooked_type, family_type, has_version, header_len, least_len, link_type_of, loopback_type, raw_type, type_in};

use crate::link::LinkFault;
use byteorder::{ByteOrder, LittleEndian, NetworkEndian};

const IPV4: u16 = 0x0800;

const IPV6: u16 = 0x86dd;

/// A link type that is known (www.tcpdump.org/linktypes.html).
#[derive(Debug, Clone, Copy, PartialEq, Eq)]
pub enum LinkType {
    /// BSD loopback: an address family in the byte order of the capturing host.
    Null,
    Ethernet,
    /// OpenBSD loopback: an address family in network byte order.
    Loop,
    /// An IPv4 or IPv6 packet without a header before it.
    Raw,
    /// The first version of the Linux cooked header.
    LinuxSll,
    Ipv4,
    Ipv6,
    /// The second version of the Linux cooked header.
    LinuxSll2,
}

impl LinkType {
    /// The link type with this number in the header of a capture file. 12 and 14 are `Raw` too: libpcap
    /// returns them for live captures. `None` if it is not known.
    pub fn of(number: u32) -> Option<LinkType>
        ensures { result ≡ link_type_of number }
    {
        match number {
            0 => Some(LinkType::Null),
            1 => Some(LinkType::Ethernet),
            12 | 14 | 101 => Some(LinkType::Raw),
            108 => Some(LinkType::Loop),
            113 => Some(LinkType::LinuxSll),
            228 => Some(LinkType::Ipv4),
            229 => Some(LinkType::Ipv6),
            276 => Some(LinkType::LinuxSll2),
            _ => None,
        }
    }

    /// The length of the header, without VLAN tags, in bytes.
    pub fn header_len(self) -> usize
        ensures value { result ≡ header_len self }
        ensures bounded { result ≤ 20 }
    {
        match self {
            LinkType::Null | LinkType::Loop => 4,
            LinkType::Ethernet => 14,
            LinkType::Raw | LinkType::Ipv4 | LinkType::Ipv6 => 0,
            LinkType::LinuxSll => 16,
            LinkType::LinuxSll2 => 20,
        }
    }

    // How many bytes tell the EtherType: the header, or the first byte of a packet without one.
    pub(crate) fn least_len(self) -> usize
        ensures value { result ≡ least_len self }
        ensures header { header_len self ≤ result }
    {
        match self {
            LinkType::Raw | LinkType::Ipv4 | LinkType::Ipv6 => 1,
            _ => self.header_len(),
        }
    }

    // The EtherType of the header that the bytes begin with; 0 if it has none.
    pub(crate) fn ethertype(self, bytes: &[u8]) -> Result<u16, LinkFault>
        requires { least_len self ≤ length bytes.now }
        ensures { result ≡ type_in self bytes.now }
    {
        match self {
            LinkType::Null => Ok(loopback_type(bytes)),
            LinkType::Ethernet => Ok(NetworkEndian::read_u16(&bytes[12..14])),
            LinkType::Loop => Ok(family_type(NetworkEndian::read_u32(bytes))),
            LinkType::Raw | LinkType::Ipv4 | LinkType::Ipv6 => self.raw_type(bytes[0] >> 4),
            LinkType::LinuxSll => Ok(cooked_type(
                NetworkEndian::read_u16(&bytes[2..4]),
                NetworkEndian::read_u16(&bytes[14..16]),
            )),
            LinkType::LinuxSll2 => Ok(cooked_type(
                NetworkEndian::read_u16(&bytes[8..10]),
                NetworkEndian::read_u16(bytes),
            )),
        }
    }

    // The EtherType of an IP packet of this version, if the link type has such packets.
    fn raw_type(self, version: u8) -> Result<u16, LinkFault>
        ensures { result ≡ raw_type self version }
    {
        match version {
            _ if !self.has_version(version) => Err(LinkFault::BadVersion),
            4 => Ok(IPV4),
            _ => Ok(IPV6),
        }
    }

    // Whether packets without a header have this version.
    fn has_version(self, version: u8) -> bool
        ensures { result ≡ has_version self version }
    {
        match self {
            LinkType::Ipv4 => version == 4,
            LinkType::Ipv6 => version == 6,
            _ => matches!(version, 4 | 6),
        }
    }
}

// The EtherType of an address family: IPv6 has another number in Linux, NetBSD and OpenBSD, FreeBSD, and macOS.
fn family_type(family: u32) -> u16
    ensures { result ≡ family_type family }
{
    match family {
        2 => IPV4,
        10 | 24 | 28 | 30 => IPV6,
        _ => 0,
    }
}

// The EtherType of an address family in either byte order.
fn loopback_type(bytes: &[u8]) -> u16
    requires { 4 ≤ length bytes.now }
    ensures { result ≡ loopback_type bytes.now }
{
    match family_type(NetworkEndian::read_u32(bytes)) {
        0 => family_type(LittleEndian::read_u32(bytes)),
        ethertype => ethertype,
    }
}

// The EtherType of a cooked header of a device of this ARPHRD type. Frame relay (770), radiotap (803) and
// netlink (824) have none in its place.
fn cooked_type(device: u16, protocol: u16) -> u16
    ensures { result ≡ cooked_type device protocol }
{
    match device {
        770 | 803 | 824 => 0,
        _ => protocol,
    }
}
