//! One hop of a router (RFC 1812, section 5.3.1; RFC 8200, section 3).

ghost use Rattle.std.specs.Prelude.{◌≡◌, ◌<◌, ◌-◌, IfErr, IfOk, OnErr, Some, true};
ghost use Rattle.app_router.specs.Forward.{CarriesAs, IsForwarded, fault_of, header_fault, one_hop_less, packet_fault, with_hop_limit};
ghost use Rattle.ip_wire.specs.Ip.{ReadsHeader, hop_limit_of};

use ip_wire::laws::field::bytes_fit;
use ip_wire::{
    ETHERNET_HEADER_LEN, EthernetAddress, EthernetFrame, EthernetFrameMut, EthernetProtocol,
    EthernetRepr, HeaderFault, IpRepr, Ipv4PacketMut, Ipv4Repr, Ipv6Packet, Ipv6PacketMut,
    Ipv6Repr, checksum, laws, parse_ipv4,
};

/// Forwards the packet of a frame: writes the link addresses, lowers the hop limit by one, and updates the
/// checksum of an IPv4 header. Returns the new header. A rejected frame is unchanged.
pub fn forward(
    frame: &mut [u8],
    src_addr: EthernetAddress,
    dst_addr: EthernetAddress,
) -> Result<IpRepr, HeaderFault>
    ensures forwarded { IfOk result (IsForwarded frame.old frame.new src_addr dst_addr) }
    ensures rejected { IfErr result (λ fault. fault_of frame.old ≡ Some fault) }
    ensures unchanged { OnErr result (frame.new ≡ frame.old) }
{
    let Ok(link) = EthernetRepr::parse(&EthernetFrame::new_unchecked(frame)) else {
        return Err(HeaderFault::NotIp);
    };
    let header = accept(link.ethertype, &frame[ETHERNET_HEADER_LEN..])?;
    let (front, packet) = frame.split_at_mut(ETHERNET_HEADER_LEN);
    let mut front = EthernetFrameMut::new_unchecked(front);
    front.set_src_addr(src_addr);
    front.set_dst_addr(dst_addr);
    take_hop(&header, packet);
    Ok(one_less(header))
}

// The header of the packet in a frame with this EtherType, if it may take a hop.
#[tactic(auto, using(crate::proofs::Forwards::expired))]
fn accept(ethertype: EthernetProtocol, packet: &[u8]) -> Result<IpRepr, HeaderFault>
    ensures carries { IfOk result (CarriesAs ethertype packet.now true) }
    ensures alive { IfOk result (λ header. 1 < hop_limit_of header) }
    ensures rejected { IfErr result (λ fault. packet_fault ethertype packet.now ≡ Some fault) }
{
    let header = parse(ethertype, packet)?;
    if header.hop_limit() <= 1 {
        return Err(HeaderFault::Expired);
    }
    Ok(header)
}

// The header of the packet in a frame with this EtherType.
fn parse(ethertype: EthernetProtocol, packet: &[u8]) -> Result<IpRepr, HeaderFault>
    ensures carries { IfOk result (CarriesAs ethertype packet.now true) }
    ensures rejected { IfErr result (λ fault. header_fault ethertype packet.now ≡ Some fault) }
{
    match ethertype {
        EthernetProtocol::Ipv4 => match parse_ipv4(packet) {
            Ok(header) => Ok(IpRepr::Ipv4(header)),
            Err(fault) => Err(fault),
        },
        EthernetProtocol::Ipv6 => match Ipv6Repr::parse(&Ipv6Packet::new_unchecked(packet)) {
            Ok(header) => Ok(IpRepr::Ipv6(header)),
            Err(_) => Err(HeaderFault::BadHeader),
        },
        _ => Err(HeaderFault::NotIp),
    }
}

// Lowers the hop limit of a packet with this header by one.
fn take_hop(header: &IpRepr, packet: &mut [u8])
    requires reads { ReadsHeader packet.old true header.now }
    requires alive { 1 < hop_limit_of header.now }
    ensures reads { ReadsHeader packet.new true (one_hop_less header.now) }
    ensures bytes { packet.new ≡ with_hop_limit header.now packet.old (hop_limit_of header.now - 1) }
{
    let hop_limit = header.hop_limit() - 1;
    match *header {
        IpRepr::Ipv4(_) => {
            bytes_fit(packet);
            let mut packet = Ipv4PacketMut::new_unchecked(packet);
            packet.set_hop_limit(hop_limit);
            // The hop limit is the high byte of its word, which is less by 0x100, whatever it was.
            packet.set_checksum(checksum::update(packet.checksum(), 0x100, 0));
        }
        IpRepr::Ipv6(value) => {
            laws::ipv6::one_value_changes_ipv6(packet, value, hop_limit, value.src_addr);
            let mut packet = Ipv6PacketMut::new_unchecked(packet);
            packet.set_hop_limit(hop_limit);
        }
    }
}

// The header with one hop less.
fn one_less(header: IpRepr) -> IpRepr
    requires { 1 < hop_limit_of header }
    ensures { result ≡ one_hop_less header }
{
    let hop_limit = header.hop_limit() - 1;
    match header {
        IpRepr::Ipv4(value) => IpRepr::Ipv4(Ipv4Repr { hop_limit, ..value }),
        IpRepr::Ipv6(value) => IpRepr::Ipv6(Ipv6Repr { hop_limit, ..value }),
    }
}
