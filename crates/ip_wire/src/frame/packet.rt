//! The packet of a frame: both headers and the transport. A packet without a frame: its header and
//! the transport.

ghost use Rattle.std.specs.Prelude.{◌≡◌, ◌↔◌, IfOk, Some};
ghost use Rattle.ip_wire.specs.Frame as frame;
ghost use Rattle.ip_wire.specs.Frame.{ReadsCarried, ReadsFrame, packet, type_of};
ghost use Rattle.ip_wire.specs.Packet.{GivesPacket, IsPacket, ParsesPacket, packet_of};
ghost use Rattle.wire_ethernet.specs.declared.EthernetRepr.{EthernetRepr};
ghost use Rattle.wire_ip.specs.declared.IpRepr.{IpRepr};

use super::build::ethertype_of;
use super::{Carried, Frame, Transport};
use net_base::{ChecksumCapabilities, Error, Result};
use wire_addr::IpVersion;
use wire_ethernet::EthernetRepr;
use wire_ip::IpRepr;

/// An IP packet without an Ethernet header, as a TUN device or a raw capture has it: the values of
/// its headers, and the innermost payload.
#[derive(Debug, Clone, Copy, PartialEq, Eq)]
pub struct Packet<'a> {
    /// The IP header.
    pub header: IpRepr,
    /// What follows it.
    pub inner: Transport<'a>,
}

impl<'a> Packet<'a> {
    /// Parses a packet of the version in its first four bits. Padding is dropped. Verifies the
    /// checksums that `caps` selects. An error for another version, for an IPv4 fragment, and for
    /// each packet that `Frame::parse` rejects after an Ethernet header.
    #[inline(always)]
    pub fn parse(bytes: &'a [u8], caps: &ChecksumCapabilities) -> Result<Packet<'a>>
        ensures ok { IfOk result (ParsesPacket caps.now bytes.now) }
        ensures reads { (v : IpRepr) (t : frame.Transport) → GivesPacket result v t
            ↔ ReadsCarried caps.now (type_of v) bytes.now (packet v t) }
    {
        let ethertype = ethertype_of(IpVersion::of_packet(bytes)?);
        match Carried::parse(ethertype, bytes, caps) {
            Ok(carried) => match &carried {
                Carried::Packet(header, inner) => Ok(Packet {
                    header: *header,
                    inner: *inner,
                }),
                _ => Err(Error),
            },
            Err(error) => Err(error),
        }
    }
}

impl<'a> Frame<'a> {
    /// Parses a frame that carries an IP packet: its Ethernet header, its IP header and its transport.
    /// Verifies the checksums that `caps` selects. An error for ARP, and for each frame that `parse` rejects.
    #[inline(always)]
    pub fn parse_packet(
        bytes: &'a [u8],
        caps: &ChecksumCapabilities,
    ) -> Result<(EthernetRepr, IpRepr, Transport<'a>)>
        ensures value { IsPacket (packet_of caps.now bytes.now) result }
        ensures reads { (link : EthernetRepr) (v : IpRepr) (t : frame.Transport) →
            (packet_of caps.now bytes.now ≡ Some (link, v, t)) ↔ ReadsFrame caps.now bytes.now link (packet v t) }
    {
        match Frame::parse(bytes, caps) {
            Ok(frame) => match &frame.carried {
                Carried::Packet(header, inner) => Ok((frame.header, *header, *inner)),
                _ => Err(Error),
            },
            Err(error) => Err(error),
        }
    }
}
