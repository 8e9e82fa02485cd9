//! The values of an IP header of either version.

ghost use Rattle.std.specs.Prelude.{◌≡◌, ◌↔◌, ◌≤◌, ◌<◌, ◌+◌, ◌^◌, ◌++◌, Ok, drop, length};
ghost use Rattle.std.specs.Result.{result_ok};
ghost use Rattle.net_base.specs.Checksum.{computes, verifies};
ghost use Rattle.wire_addr.specs.IpAddress as address;
ghost use Rattle.wire_ip.specs.Ip.{Reads, bytes_of, dst_addr_of, header_before, header_len_of, hop_limit_of, ip_of, max_payload_len, next_header_of, packet_bytes, payload_len_of, src_addr_of, version_of, with_payload_len};
ghost use Rattle.wire_ip.specs.declared.ip.repr.IpRepr.{IpRepr};
ghost use Rattle.wire_ip.specs.declared.ip.repr.IpRepr.TheVariants.{Ipv4, Ipv6};

use super::IpPacket;
use net_base::{ChecksumCapabilities, Result};
use wire_addr::{IpAddress, IpProtocol, IpVersion};
use wire_ipv4::{IPV4_MAX_PAYLOAD_LEN, Ipv4Packet, Ipv4PacketMut, Ipv4Repr};
use wire_ipv6::{IPV6_MAX_PAYLOAD_LEN, Ipv6Packet, Ipv6PacketMut, Ipv6Repr};

/// The values of an IP header of either version.
#[derive(Debug, Clone, Copy, PartialEq, Eq)]
pub enum IpRepr {
    Ipv4(Ipv4Repr),
    Ipv6(Ipv6Repr),
}

impl From<Ipv4Repr> for IpRepr {
    ghost from_gives = { λ v w. w ≡ Ipv4 v };

    fn from(value: Ipv4Repr) -> IpRepr {
        IpRepr::Ipv4(value)
    }
}

impl From<Ipv6Repr> for IpRepr {
    ghost from_gives = { λ v w. w ≡ Ipv6 v };

    fn from(value: Ipv6Repr) -> IpRepr {
        IpRepr::Ipv6(value)
    }
}

impl IpRepr {
    /// The header for two addresses of one version.
    pub fn new(
        src_addr: IpAddress,
        dst_addr: IpAddress,
        next_header: IpProtocol,
        payload_len: usize,
        hop_limit: u8,
    ) -> IpRepr
        requires { address.version_of src_addr ≡ address.version_of dst_addr }
        ensures version { version_of result ≡ address.version_of src_addr }
        ensures src_addr { src_addr_of result ≡ src_addr }
        ensures dst_addr { dst_addr_of result ≡ dst_addr }
        ensures next_header { next_header_of result ≡ next_header }
        ensures payload_len { payload_len_of result ≡ payload_len }
        ensures hop_limit { hop_limit_of result ≡ hop_limit }
    {
        match (&src_addr, &dst_addr) {
            (IpAddress::Ipv4(src_addr), IpAddress::Ipv4(dst_addr)) => IpRepr::Ipv4(Ipv4Repr {
                src_addr: *src_addr,
                dst_addr: *dst_addr,
                next_header,
                payload_len,
                hop_limit,
            }),
            (IpAddress::Ipv6(src_addr), IpAddress::Ipv6(dst_addr)) => IpRepr::Ipv6(Ipv6Repr {
                src_addr: *src_addr,
                dst_addr: *dst_addr,
                next_header,
                payload_len,
                hop_limit,
            }),
            _ => unreachable!(),
        }
    }

    /// Parses a header by the version in its first four bits. Rejects no bytes, other versions, and what the parser
    /// of this version rejects. The checksum of an IPv4 header is verified if `caps` asks for it.
    pub fn parse(packet: &IpPacket<'_>, caps: &ChecksumCapabilities) -> Result<IpRepr>
        ensures reads { (v : IpRepr) → (result ≡ Ok v) ↔ Reads (packet_bytes packet.now) (verifies caps.now.ipv4) v }
        ensures value { ip_of (verifies caps.now.ipv4) (packet_bytes packet.now) ≡ result_ok result }
    {
        let bytes = packet.into_inner();
        match IpVersion::of_packet(bytes)? {
            IpVersion::Ipv4 => {
                let value = Ipv4Repr::parse(&Ipv4Packet::new_unchecked(bytes), caps)?;
                Ok(IpRepr::Ipv4(value))
            }
            IpVersion::Ipv6 => {
                let value = Ipv6Repr::parse(&Ipv6Packet::new_unchecked(bytes))?;
                Ok(IpRepr::Ipv6(value))
            }
        }
    }

    /// The version of the header.
    pub fn version(&self) -> IpVersion
        ensures { result ≡ version_of self.now }
    {
        match self {
            IpRepr::Ipv4(_) => IpVersion::Ipv4,
            IpRepr::Ipv6(_) => IpVersion::Ipv6,
        }
    }

    /// The source address.
    pub fn src_addr(&self) -> IpAddress
        ensures { result ≡ src_addr_of self.now }
    {
        match self {
            IpRepr::Ipv4(value) => IpAddress::Ipv4(value.src_addr),
            IpRepr::Ipv6(value) => IpAddress::Ipv6(value.src_addr),
        }
    }

    /// The destination address.
    pub fn dst_addr(&self) -> IpAddress
        ensures { result ≡ dst_addr_of self.now }
    {
        match self {
            IpRepr::Ipv4(value) => IpAddress::Ipv4(value.dst_addr),
            IpRepr::Ipv6(value) => IpAddress::Ipv6(value.dst_addr),
        }
    }

    /// The protocol of the payload.
    pub fn next_header(&self) -> IpProtocol
        ensures { result ≡ next_header_of self.now }
    {
        match self {
            IpRepr::Ipv4(value) => value.next_header,
            IpRepr::Ipv6(value) => value.next_header,
        }
    }

    /// The length of the payload in bytes.
    pub fn payload_len(&self) -> usize
        ensures { result ≡ payload_len_of self.now }
    {
        match self {
            IpRepr::Ipv4(value) => value.payload_len,
            IpRepr::Ipv6(value) => value.payload_len,
        }
    }

    /// Sets the length of the payload in bytes.
    pub fn set_payload_len(&mut self, length: usize)
        ensures { self.new ≡ with_payload_len self.old length }
    {
        match self {
            IpRepr::Ipv4(value) => value.payload_len = length,
            IpRepr::Ipv6(value) => value.payload_len = length,
        }
    }

    /// The header before a payload of this protocol and this length in bytes.
    #[inline(always)]
    pub fn before(self, next_header: IpProtocol, payload_len: usize) -> IpRepr
        ensures { result ≡ header_before self next_header payload_len }
    {
        // In place: a value that is rebuilt by version is copied field by field.
        let mut header = self;
        match &mut header {
            IpRepr::Ipv4(value) => {
                value.next_header = next_header;
                value.payload_len = payload_len;
            }
            IpRepr::Ipv6(value) => {
                value.next_header = next_header;
                value.payload_len = payload_len;
            }
        }
        header
    }

    /// The hop limit, or the time to live of IPv4.
    pub fn hop_limit(&self) -> u8
        ensures { result ≡ hop_limit_of self.now }
    {
        match self {
            IpRepr::Ipv4(value) => value.hop_limit,
            IpRepr::Ipv6(value) => value.hop_limit,
        }
    }

    /// The length of the emitted header in bytes.
    pub fn header_len(&self) -> usize
        ensures { result ≡ header_len_of self.now }
    {
        match self {
            IpRepr::Ipv4(value) => value.buffer_len(),
            IpRepr::Ipv6(value) => value.buffer_len(),
        }
    }

    /// The length of the longest payload that the header can express in bytes.
    pub fn max_payload_len(&self) -> usize
        ensures { result ≡ max_payload_len self.now }
    {
        match self {
            IpRepr::Ipv4(_) => IPV4_MAX_PAYLOAD_LEN,
            IpRepr::Ipv6(_) => IPV6_MAX_PAYLOAD_LEN,
        }
    }

    /// The length of the packet in bytes: header and payload.
    pub fn buffer_len(&self) -> usize
        requires { header_len_of self.now + payload_len_of self.now < 2 ^ 64 }
        ensures { result ≡ header_len_of self.now + payload_len_of self.now }
    {
        self.header_len() + self.payload_len()
    }

    /// Writes the header. All bytes after it stay. The checksum of an IPv4 header is
    /// computed if `caps` asks for it, else it is 0.
    #[inline(always)]
    pub fn emit(&self, buffer: &mut [u8], caps: &ChecksumCapabilities)
        requires room { header_len_of self.now ≤ length buffer.old }
        requires payload_len { payload_len_of self.now ≤ max_payload_len self.now }
        ensures { buffer.new ≡ bytes_of self.now (computes caps.now.ipv4) ++ drop (header_len_of self.now) buffer.old }
    {
        match self {
            IpRepr::Ipv4(value) => value.emit(&mut Ipv4PacketMut::new_unchecked(buffer), caps),
            IpRepr::Ipv6(value) => value.emit(&mut Ipv6PacketMut::new_unchecked(buffer)),
        }
    }
}
