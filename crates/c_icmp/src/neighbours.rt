//! Neighbour solicitations and advertisements.

ghost use Rattle.std.specs.Option.{option_map_or};
ghost use Rattle.std.specs.Prelude.{◌≡◌, MatchResult};
ghost use Rattle.ip_wire.specs.Types.{Ipv6};
ghost use Rattle.wire_icmp.specs.declared.ndisc.repr.NdiscRepr.{NdiscRepr};
ghost use Rattle.c_structs.specs.Addresses.{addr_of};
ghost use Rattle.c_structs.specs.Written.{Fills, IsRead};
ghost use Rattle.c_icmp.specs.Neighbours.{CarriesNdisc, ReadsNdisc, has_ipv6, hardware_bytes, hardware_of, is_accepted, ndisc_failure, ndisc_frame, ndisc_ip, ndisc_packet, ndisc_struct, ndisc_value};

use crate::emit::ICMPV6;
use crate::types::Ndisc;
use c_structs::{Addr, Failure, FrameFields, Ip};
use c_write::{emit_ip_header, emit_link, ip_header};
use ip_wire::{
    ChecksumCapabilities, ETHERNET_HEADER_LEN, Error, EthernetAddress, EthernetFrame,
    EthernetProtocol, EthernetRepr, IpAddress, IpProtocol, Ipv6Address, Ipv6Packet, Ipv6Repr,
    Result,
};
use wire_icmp::{IcmpPacket, NDISC_HOP_LIMIT, NdiscNeighborFlags, NdiscRepr};

impl Ndisc {
    /// Parses a message in a frame, stores it, and returns 1. Returns 0 if the frame carries none that is valid.
    pub fn read(&mut self, frame: &[u8]) -> i32
        ensures { IsRead ReadsNdisc ndisc_struct frame.now self.old self.new result }
    {
        match parse_ndisc(frame) {
            Ok(value) => {
                self.store(&value);
                1
            }
            Err(_) => 0,
        }
    }

    // Stores a value, field by field: a struct would be made in memory first, and copied.
    #[inline(always)]
    fn store(&mut self, value: &NdiscRepr)
        ensures { self.new ≡ ndisc_struct value.now }
    {
        match value {
            NdiscRepr::NeighborSolicit {
                target_addr,
                lladdr,
            } => {
                self.store_addrs(*target_addr, *lladdr);
                self.is_advert = 0;
                self.is_router = 0;
                self.is_solicited = 0;
                self.overrides = 0;
            }
            NdiscRepr::NeighborAdvert {
                flags,
                target_addr,
                lladdr,
            } => {
                self.store_addrs(*target_addr, *lladdr);
                self.is_advert = 1;
                self.is_router = u8::from(flags.router);
                self.is_solicited = u8::from(flags.solicited);
                self.overrides = u8::from(flags.override_);
            }
        }
    }

    // Stores the target and the hardware address of the option.
    #[inline(always)]
    fn store_addrs(&mut self, target: Ipv6Address, hardware: Option<EthernetAddress>)
        ensures { self.new ≡ record self.old {
          target = addr_of (IpAddress.Ipv6 target);
          hardware = hardware_bytes hardware;
          has_hardware = option_map_or (λ h. 1) hardware 0;
        } }
    {
        self.target = Addr::of(IpAddress::Ipv6(target));
        self.hardware = hardware_bytes(hardware);
        self.has_hardware = u8::from(hardware.is_some());
    }

    // The value.
    fn value(&self) -> NdiscRepr
        ensures { result ≡ ndisc_value self.now }
    {
        let target_addr = self.target.ipv6();
        let lladdr = self.hardware();
        if self.is_advert == 0 {
            return NdiscRepr::NeighborSolicit {
                target_addr,
                lladdr,
            };
        }
        NdiscRepr::NeighborAdvert {
            flags: NdiscNeighborFlags {
                router: self.is_router != 0,
                solicited: self.is_solicited != 0,
                override_: self.overrides != 0,
            },
            target_addr,
            lladdr,
        }
    }

    // The hardware address of the option.
    fn hardware(&self) -> Option<EthernetAddress>
        ensures { result ≡ hardware_of self.now }
    {
        let hardware = self.hardware;
        (self.has_hardware != 0).then_some(EthernetAddress(hardware))
    }
}

// The bytes of a hardware address, or zeros.
fn hardware_bytes(hardware: Option<EthernetAddress>) -> [u8; 6]
    ensures { result ≡ hardware_bytes hardware }
{
    match hardware {
        Some(address) => {
            let octets = address.0;
            octets
        }
        None => [0; 6],
    }
}

// The message in a frame, if it is valid.
#[inline(always)]
fn parse_ndisc(frame: &[u8]) -> Result<NdiscRepr>
    ensures { MatchResult result (ReadsNdisc frame.now) (λ _. (v : NdiscRepr) → ¬ ReadsNdisc frame.now v) }
{
    let view = EthernetFrame::new_unchecked(frame);
    let Ok(link) = EthernetRepr::parse(&view) else {
        return Err(Error);
    };
    if link.ethertype != EthernetProtocol::Ipv6 {
        return Err(Error);
    }
    let packet = Ipv6Packet::new_unchecked(view.payload());
    match Ipv6Repr::parse(&packet) {
        Ok(ip) => parse_message(&ip, packet.payload()),
        Err(_) => Err(Error),
    }
}

// The message after an IPv6 header, if it is valid. The addresses are copied, so that the rest of the header is not
// kept in memory.
#[inline(always)]
fn parse_message(ip: &Ipv6Repr, message: &[u8]) -> Result<NdiscRepr>
    ensures { MatchResult result (CarriesNdisc (Ipv6 ip.now) message.now) (λ _. (v : NdiscRepr) → ¬ CarriesNdisc (Ipv6 ip.now) message.now v) }
{
    if ip.next_header != IpProtocol::Icmpv6 {
        return Err(Error);
    }
    let packet = IcmpPacket::new_unchecked(message);
    let caps = ChecksumCapabilities::default();
    let (src, dst) = (ip.src_addr, ip.dst_addr);
    NdiscRepr::parse(&packet, &src, &dst, ip.hop_limit, &caps)
}

/// Writes a frame with a message, and returns its length. `None` if it does not fit, or if there is an
/// `ndisc_failure`.
pub fn emit_ndisc_frame(frame: &FrameFields, ndisc: &Ndisc, out: &mut [u8]) -> Option<usize>
    ensures { Fills (ndisc_frame frame.now ndisc.now) out.old out.new result }
{
    // Once they are read, the checker knows how long they are.
    let _hardware = (frame.ethernet.src[0], frame.ethernet.dst[0]);
    let (link, packet) = out.split_at_mut_checked(ETHERNET_HEADER_LEN)?;
    let len = emit_ndisc_packet(frame, ndisc, packet)?;
    Some(emit_link(frame, link) + len)
}

// Writes an IP packet with a message, and returns its length.
#[inline(always)]
fn emit_ndisc_packet(frame: &FrameFields, ndisc: &Ndisc, out: &mut [u8]) -> Option<usize>
    ensures { Fills (ndisc_packet frame.now ndisc.now) out.old out.new result }
{
    if !has_ipv6(frame, ndisc) || !is_accepted(frame, ndisc) {
        return None;
    }
    let mut headers = *frame;
    headers.ip = ndisc_ip();
    let value = ndisc.value();
    let len = value.buffer_len();
    let ip_header = ip_header(&headers, 6, ICMPV6, len)?;
    let start = ip_header.header_len();
    let end = start + len;
    if out.len() < end {
        return None;
    }
    let (front, message) = out.split_at_mut(start);
    emit_ip_header(&headers, &ip_header, front);
    let (src, dst) = (headers.src.addr.ipv6(), headers.dst.addr.ipv6());
    match value.try_emit(message, &src, &dst, &ChecksumCapabilities::default()) {
        Some(_) => Some(end),
        None => None,
    }
}

/// The failure of a frame with a message; `None` if it can be emitted.
pub fn ndisc_failure(frame: &FrameFields, ndisc: &Ndisc) -> Option<Failure>
    ensures { result ≡ ndisc_failure frame.now ndisc.now }
{
    if !has_ipv6(frame, ndisc) {
        Some(Failure::NoVersion)
    } else if !is_accepted(frame, ndisc) {
        Some(Failure::BadField)
    } else {
        None
    }
}

// Whether all three addresses are IPv6 addresses.
fn has_ipv6(frame: &FrameFields, ndisc: &Ndisc) -> bool
    ensures { result ≡ has_ipv6 frame.now ndisc.now }
{
    frame.src.addr.version == 6 && frame.dst.addr.version == 6 && ndisc.target.version == 6
}

// Whether receivers accept the message between these addresses.
fn is_accepted(frame: &FrameFields, ndisc: &Ndisc) -> bool
    ensures { result ≡ is_accepted frame.now ndisc.now }
{
    let (src, dst) = (frame.src.addr.ipv6(), frame.dst.addr.ipv6());
    ndisc.value().is_allowed(&src, &dst)
}

// The IP header of a message.
fn ndisc_ip() -> Ip
    ensures { result ≡ ndisc_ip }
{
    Ip {
        ident: 0,
        flow_label: 0,
        fragment_offset: 0,
        protocol: 0,
        hop_limit: NDISC_HOP_LIMIT,
        dscp: 0,
        ecn: 0,
        more_fragments: 0,
        dont_fragment: 0,
    }
}
