//! The values of a neighbour solicitation or advertisement.

ghost use Rattle.std.specs.Prelude.{◌≡◌, ◌↔◌, ◌≤◌, ◌-◌, ◌++◌, IsTrue, Ok, drop, length, take};
ghost use Rattle.std.specs.Result.{result_ok};
ghost use Rattle.net_base.specs.Checksum.{computes, verifies};
ghost use Rattle.wire_addr.specs.IpAddress.{version_of};
ghost use Rattle.net_base.specs.Filled.{Fills};
ghost use Rattle.wire_icmp.specs.Icmp.{Becomes, packet_bytes, packet_bytes_mut};
ghost use Rattle.wire_icmp.specs.Ndisc.{IsAllowed, Reads, address_in, body_of, bytes_of, flags_of, flags_word, header_of, is_sound, len_of, ndisc_of, option_type, target_of, value_of};
ghost use Rattle.wire_icmp.specs.declared.ndisc.repr.NdiscRepr.{NdiscRepr};

use super::NDISC_HOP_LIMIT;
use super::option::{UNIT, find_lladdr};
use crate::{ICMP_HEADER_LEN, IcmpHeader, IcmpPacket, IcmpPacketMut};
use net_base::{ChecksumCapabilities, Error, Result, array_at, is_bit_set, write_front, write_six};
use wire_addr::{EthernetAddress, IpAddress, Ipv6Address};

/// The type of a solicitation.
const SOLICIT: u8 = 135;

/// The type of an advertisement.
const ADVERT: u8 = 136;

/// The type of the option with the link-layer address of the sender (RFC 4861, section 4.6.1).
const SOURCE_LLADDR: u8 = 1;

/// The type of the option with the link-layer address of the target (RFC 4861, section 4.6.1).
const TARGET_LLADDR: u8 = 2;

/// The length of a message without options, in bytes.
const HEADER_LEN: usize = 24;

/// The flags of an advertisement (RFC 4861, section 4.4).
#[derive(Debug, Clone, Copy, PartialEq, Eq)]
pub struct NdiscNeighborFlags {
    /// The sender is a router.
    pub router: bool,
    /// The advertisement answers a solicitation from its destination.
    pub solicited: bool,
    /// The link-layer address replaces a cached one.
    pub override_: bool,
}

/// A neighbour solicitation or advertisement.
#[derive(Debug, Clone, Copy, PartialEq, Eq)]
pub enum NdiscRepr {
    /// Asks for the link-layer address of the target (RFC 4861, section 4.3).
    NeighborSolicit {
        target_addr: Ipv6Address,
        /// The link-layer address of the sender.
        lladdr: Option<EthernetAddress>,
    },
    /// Tells the link-layer address of the target (RFC 4861, section 4.4).
    NeighborAdvert {
        flags: NdiscNeighborFlags,
        target_addr: Ipv6Address,
        /// The link-layer address of the target.
        lladdr: Option<EthernetAddress>,
    },
}

impl NdiscRepr {
    /// Parses a message. `hop_limit` is that of its IPv6 header. Rejects other types, and messages
    /// that RFC 4861 calls invalid (sections 7.1.1 and 7.1.2). A wrong checksum is rejected if `caps`
    /// asks to verify it. Of several link-layer address options the first counts; its length must be
    /// that of Ethernet. Other options are skipped.
    pub fn parse(
        packet: &IcmpPacket<'_>,
        src_addr: &Ipv6Address,
        dst_addr: &Ipv6Address,
        hop_limit: u8,
        caps: &ChecksumCapabilities,
    ) -> Result<NdiscRepr>
        ensures reads { (v : NdiscRepr) → (result ≡ Ok v) ↔ Reads (packet_bytes packet.now) src_addr.now dst_addr.now hop_limit (verifies caps.now.icmpv6) v }
        ensures value { ndisc_of src_addr.now dst_addr.now hop_limit (verifies caps.now.icmpv6) (packet_bytes packet.now) ≡ result_ok result }
    {
        let (src, dst) = (IpAddress::Ipv6(*src_addr), IpAddress::Ipv6(*dst_addr));
        if !is_sound(packet, &src, &dst, hop_limit, caps) {
            return Err(Error);
        }
        let value = NdiscRepr::read_fields(packet)?;
        if !value.is_allowed(src_addr, dst_addr) {
            return Err(Error);
        }
        Ok(value)
    }

    // The value of the fields.
    fn read_fields(packet: &IcmpPacket<'_>) -> Result<NdiscRepr>
        requires { 24 ≤ length (packet_bytes packet.now) }
        ensures { value_of (packet_bytes packet.now) ≡ result_ok result }
    {
        let bytes = packet.as_bytes();
        let target_addr = Ipv6Address::from_octets(array_at(bytes, ICMP_HEADER_LEN));
        let options = &bytes[HEADER_LEN..];
        match packet.msg_type() {
            SOLICIT => {
                let lladdr = find_lladdr(options, SOURCE_LLADDR)?;
                Ok(NdiscRepr::NeighborSolicit {
                    target_addr,
                    lladdr,
                })
            }
            ADVERT => {
                let lladdr = find_lladdr(options, TARGET_LLADDR)?;
                Ok(NdiscRepr::NeighborAdvert {
                    flags: read_flags(bytes),
                    target_addr,
                    lladdr,
                })
            }
            _ => Err(Error),
        }
    }

    /// Returns `true` if the message is valid between these addresses (RFC 4861, sections 7.1.1 and
    /// 7.1.2). The target is no multicast address. A solicitation from `::` goes to a solicited-node
    /// group, and has no link-layer address. An advertisement to a group is not solicited.
    pub fn is_allowed(&self, src_addr: &Ipv6Address, dst_addr: &Ipv6Address) -> bool
        ensures { IsTrue result ↔ IsAllowed self.now src_addr.now dst_addr.now }
    {
        match self {
            NdiscRepr::NeighborSolicit {
                target_addr,
                lladdr,
            } => {
                !target_addr.is_multicast()
                    && (!src_addr.is_unspecified()
                        || (dst_addr.is_solicited_node_multicast() && lladdr.is_none()))
            }
            NdiscRepr::NeighborAdvert {
                flags,
                target_addr,
                ..
            } => !target_addr.is_multicast() && !(flags.solicited && dst_addr.is_multicast()),
        }
    }

    /// The length of the message in bytes: 24, or 32 with a link-layer address.
    pub fn buffer_len(&self) -> usize
        ensures { result ≡ len_of self.now }
    {
        match self.lladdr() {
            Some(_) => HEADER_LEN + UNIT,
            None => HEADER_LEN,
        }
    }

    /// Writes the message. All bytes after it stay. The checksum is computed if `caps` asks for it,
    /// else it is 0.
    pub fn emit(
        &self,
        packet: &mut IcmpPacketMut<'_>,
        src_addr: &Ipv6Address,
        dst_addr: &Ipv6Address,
        caps: &ChecksumCapabilities,
    )
        requires { len_of self.now ≤ length (packet_bytes_mut packet.old) }
        ensures { let bytes = bytes_of self.now src_addr.now dst_addr.now (computes caps.now.icmpv6) in
            Becomes packet.old packet.new (bytes ++ drop (len_of self.now) (packet_bytes_mut packet.old)) }
    {
        let (src, dst) = (IpAddress::Ipv6(*src_addr), IpAddress::Ipv6(*dst_addr));
        let body = self.body();
        let body = &body[..self.buffer_len() - ICMP_HEADER_LEN];
        self.header().emit(packet, &src, &dst, body, caps);
    }

    /// As `emit`, to the front of `out`, and returns the length of the message in bytes. Returns `None`
    /// and writes nothing if it does not fit.
    pub fn try_emit(
        &self,
        out: &mut [u8],
        src_addr: &Ipv6Address,
        dst_addr: &Ipv6Address,
        caps: &ChecksumCapabilities,
    ) -> Option<usize>
        ensures { let bytes = bytes_of self.now src_addr.now dst_addr.now (computes caps.now.icmpv6) in
            Fills bytes (len_of self.now) out.old out.new result }
    {
        let len = self.buffer_len();
        if out.len() < len {
            return None;
        }
        let mut packet = IcmpPacketMut::new_unchecked(out);
        self.emit(&mut packet, src_addr, dst_addr, caps);
        Some(len)
    }

    // The header of the ICMP message.
    fn header(&self) -> IcmpHeader
        ensures { result ≡ header_of self.now }
    {
        let (msg_type, word) = match self {
            NdiscRepr::NeighborSolicit { .. } => (SOLICIT, 0),
            NdiscRepr::NeighborAdvert { flags, .. } => (ADVERT, flags.word()),
        };
        IcmpHeader {
            msg_type,
            msg_code: 0,
            word,
        }
    }

    // The target and the option, and zeros if there is no option.
    fn body(&self) -> [u8; 24]
        ensures { take (len_of self.now - 8) result ≡ body_of self.now }
    {
        let mut body = [0; 24];
        write_front(&mut body, &self.target_addr().octets());
        if let Some(lladdr) = self.lladdr() {
            body[16] = self.option_type();
            body[17] = 1;
            write_six(&mut body[18..], &lladdr.0);
        }
        body
    }

    /// The target.
    pub fn target_addr(&self) -> Ipv6Address
        ensures { result ≡ target_of self.now }
    {
        match *self {
            NdiscRepr::NeighborSolicit { target_addr, .. }
            | NdiscRepr::NeighborAdvert { target_addr, .. } => target_addr,
        }
    }

    /// The link-layer address, of the sender of a solicitation or of the target of an advertisement. `None` without
    /// this option.
    pub fn lladdr(&self) -> Option<EthernetAddress>
        ensures { result ≡ address_in self.now }
    {
        match *self {
            NdiscRepr::NeighborSolicit { lladdr, .. } | NdiscRepr::NeighborAdvert { lladdr, .. } =>
                lladdr,
        }
    }

    // The type of the option for the link-layer address.
    fn option_type(&self) -> u8
        ensures { result ≡ option_type self.now }
    {
        match self {
            NdiscRepr::NeighborSolicit { .. } => SOURCE_LLADDR,
            NdiscRepr::NeighborAdvert { .. } => TARGET_LLADDR,
        }
    }
}

impl NdiscNeighborFlags {
    // The second word of the header.
    fn word(&self) -> u32
        ensures { result ≡ flags_word self.now }
    {
        (u32::from(self.router) << 31)
            + (u32::from(self.solicited) << 30)
            + (u32::from(self.override_) << 29)
    }
}

// Whether length, hop limit, code and checksum are valid.
fn is_sound(
    packet: &IcmpPacket<'_>,
    src_addr: &IpAddress,
    dst_addr: &IpAddress,
    hop_limit: u8,
    caps: &ChecksumCapabilities,
) -> bool
    requires { version_of src_addr.now ≡ version_of dst_addr.now }
    ensures { result ≡ is_sound src_addr.now dst_addr.now hop_limit (verifies caps.now.icmpv6) (packet_bytes packet.now) }
{
    packet.as_bytes().len() >= HEADER_LEN
        && hop_limit == NDISC_HOP_LIMIT
        && packet.msg_code() == 0
        && (!caps.icmpv6.rx() || packet.verify_checksum(src_addr, dst_addr))
}

// The flags of a message.
fn read_flags(bytes: &[u8]) -> NdiscNeighborFlags
    requires { 5 ≤ length bytes.now }
    ensures { result ≡ flags_of bytes.now }
{
    NdiscNeighborFlags {
        router: is_bit_set(bytes, 32),
        solicited: is_bit_set(bytes, 33),
        override_: is_bit_set(bytes, 34),
    }
}
