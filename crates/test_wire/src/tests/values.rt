//! Values of all formats: each emits exactly the bytes that it was parsed from, or its normal form, and leaves the rest.

use super::{arp, ethernet, ip, ipv4, ipv6, ipv6fragment, udp};
use ip_wire::{
    ArpPacket, ArpPacketMut, ArpRepr, EthernetFrame, EthernetFrameMut, EthernetRepr,
    IPV4_MAX_PAYLOAD_LEN, IPV6_MAX_PAYLOAD_LEN, IpAddress, IpPacket, IpRepr, Ipv4Packet,
    Ipv4PacketMut, Ipv4Repr, Ipv6FragmentHeader, Ipv6FragmentHeaderMut, Ipv6FragmentRepr,
    Ipv6Packet, Ipv6PacketMut, Ipv6Repr, UdpPacket, UdpPacketMut, UdpRepr,
};
use net_base::ChecksumCapabilities;
use test_support::bytes::{OLD, has_front};

/// A format with values.
#[derive(Clone, Copy)]
pub(super) enum Emitted {
    Ethernet,
    Arp,
    Ip,
    Ipv4,
    Ipv6,
    Fragment,
    Udp,
    UdpHeader,
}

/// Emits the value that the bytes parse as. Returns the length that the value has, and 0 if the bytes do not parse.
pub(super) fn emit(format: Emitted, bytes: &[u8], buffer: &mut [u8; 64]) -> usize {
    let caps = ChecksumCapabilities::default();
    match format {
        Emitted::Ethernet => match EthernetRepr::parse(&EthernetFrame::new_unchecked(bytes)) {
            Ok(value) => {
                value.emit(&mut EthernetFrameMut::new_unchecked(buffer));
                value.buffer_len()
            }
            Err(_) => 0,
        },
        Emitted::Arp => match ArpRepr::parse(&ArpPacket::new_unchecked(bytes)) {
            Ok(value) => {
                value.emit(&mut ArpPacketMut::new_unchecked(buffer));
                value.buffer_len()
            }
            Err(_) => 0,
        },
        Emitted::Ip => match IpRepr::parse(&IpPacket::new_unchecked(bytes), &caps) {
            Ok(value) if value.payload_len() <= value.max_payload_len() => {
                value.emit(buffer, &caps);
                value.header_len()
            }
            _ => 0,
        },
        Emitted::Ipv4 => match Ipv4Repr::parse(&Ipv4Packet::new_unchecked(bytes), &caps) {
            Ok(value) if value.payload_len <= IPV4_MAX_PAYLOAD_LEN => {
                value.emit(&mut Ipv4PacketMut::new_unchecked(buffer), &caps);
                value.buffer_len()
            }
            _ => 0,
        },
        Emitted::Ipv6 => match Ipv6Repr::parse(&Ipv6Packet::new_unchecked(bytes)) {
            Ok(value) if value.payload_len <= IPV6_MAX_PAYLOAD_LEN => {
                value.emit(&mut Ipv6PacketMut::new_unchecked(buffer));
                value.buffer_len()
            }
            _ => 0,
        },
        Emitted::Fragment => match Ipv6FragmentRepr::parse(&Ipv6FragmentHeader::new_unchecked(
            bytes,
        )) {
            Ok(value) => {
                value.emit(&mut Ipv6FragmentHeaderMut::new_unchecked(buffer));
                value.buffer_len()
            }
            Err(_) => 0,
        },
        Emitted::Udp | Emitted::UdpHeader => emit_udp(format, bytes, buffer),
    }
}

/// Emits a UDP packet or only its header, between 192.168.1.1 and 192.168.1.2.
fn emit_udp(format: Emitted, bytes: &[u8], buffer: &mut [u8; 64]) -> usize {
    let (src, dst) = (IpAddress::v4(192, 168, 1, 1), IpAddress::v4(192, 168, 1, 2));
    let caps = ChecksumCapabilities::default();
    let packet = UdpPacket::new_unchecked(bytes);
    match (UdpRepr::parse(&packet, &src, &dst, &caps), format) {
        (Ok(value), Emitted::Udp) => {
            let payload = [0xaa, 0x00, 0x00, 0xff];
            value.emit(
                &mut UdpPacketMut::new_unchecked(buffer),
                &src,
                &dst,
                &payload,
                &caps,
            );
            value.header_len() + 4
        }
        (Ok(value), _) => {
            value.emit_header(&mut UdpPacketMut::new_unchecked(buffer), 4);
            value.header_len()
        }
        (Err(_), _) => 0,
    }
}

/// Packets of all formats.
const TABLES: [&[(Emitted, &[u8], &[u8])]; 7] = [
    arp::EMITTED,
    ethernet::EMITTED,
    ip::EMITTED,
    ipv4::EMITTED,
    ipv6::EMITTED,
    ipv6fragment::EMITTED,
    udp::EMITTED,
];

/// Whether exactly these bytes are emitted, whatever the buffer held before.
fn emits(format: Emitted, bytes: &[u8], want: &[u8]) -> bool {
    for old in OLD {
        let mut buffer = [old; 64];
        if emit(format, bytes, &mut buffer) != want.len() || !has_front(&buffer, want, old) {
            return false;
        }
    }
    true
}

#[test]
fn emits_a_header_and_leaves_the_rest(rt: HostRuntime) {
    for table in TABLES {
        for (format, bytes, want) in table {
            assert!(rt; emits(*format, bytes, want), "{bytes:?}");
        }
    }
}
