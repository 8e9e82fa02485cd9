//! The texts of packets, of damaged packets and of values.

use super::{arp, ethernet, icmp_repr, ipv4, ipv6, ipv6fragment, tcp, tcp_options, tcp_repr, udp};
use ip_wire::{
    ArpPacket, EthernetFrame, Ipv4Packet, Ipv6FragmentHeader, Ipv6FragmentRepr, Ipv6Packet,
    TcpControl, TcpPacket, TcpRepr, TcpSeqNumber, UdpPacket, UdpRepr,
};
use net_base::Error;
use test_support::texts::prints;
use wire_icmp::{IcmpPacket, IcmpRepr};

/// What is printed: the bytes of a packet, or a value.
#[derive(Clone, Copy)]
pub(super) enum Shown {
    Error,
    Ethernet(&'static [u8]),
    Arp(&'static [u8]),
    Ipv4(&'static [u8]),
    Ipv6(&'static [u8]),
    Fragment(&'static [u8]),
    Udp(&'static [u8]),
    Tcp(&'static [u8]),
    Icmp(&'static [u8]),
    FragmentValue(Ipv6FragmentRepr),
    UdpValue(UdpRepr),
    TcpValue(TcpRepr<'static>),
    IcmpValue(IcmpRepr),
}

/// Whether it prints as this text.
fn is_shown(shown: &Shown, text: &str) -> bool {
    match shown {
        Shown::Error => prints(&Error, text),
        Shown::Ethernet(bytes) => prints(&EthernetFrame::new_unchecked(bytes), text),
        Shown::Arp(bytes) => prints(&ArpPacket::new_unchecked(bytes), text),
        Shown::Ipv4(bytes) => prints(&Ipv4Packet::new_unchecked(bytes), text),
        Shown::Ipv6(bytes) => prints(&Ipv6Packet::new_unchecked(bytes), text),
        Shown::Fragment(bytes) => prints(&Ipv6FragmentHeader::new_unchecked(bytes), text),
        Shown::Udp(bytes) => prints(&UdpPacket::new_unchecked(bytes), text),
        Shown::Tcp(bytes) => prints(&TcpPacket::new_unchecked(bytes), text),
        Shown::Icmp(bytes) => prints(&IcmpPacket::new_unchecked(bytes), text),
        Shown::FragmentValue(value) => prints(value, text),
        Shown::UdpValue(value) => prints(value, text),
        Shown::TcpValue(value) => prints(value, text),
        Shown::IcmpValue(value) => prints(value, text),
    }
}

/// The text of the error.
const SHOWN: &[(Shown, &str)] = &[(Shown::Error, "wire::Error")];

/// Texts of all formats.
const TABLES: [&[(Shown, &str)]; 11] = [
    SHOWN,
    arp::SHOWN,
    ethernet::SHOWN,
    icmp_repr::SHOWN,
    ipv4::SHOWN,
    ipv6::SHOWN,
    ipv6fragment::SHOWN,
    tcp::SHOWN,
    tcp_options::SHOWN,
    tcp_repr::SHOWN,
    udp::SHOWN,
];

#[test]
fn prints_packets_and_values(rt: HostRuntime) {
    for table in TABLES {
        for (shown, text) in table {
            assert!(rt; is_shown(shown, text), "{text}");
        }
    }
}
