//! What the views of all formats have in common: length checks, payloads and all bytes.

use super::packets::{ECHO, ETHERNET, FRAGMENT_HEADER, SEGMENT, SHORT_ARP};
use super::{arp, ethernet, icmp, ip, ipv4, ipv6, ipv6fragment, tcp, udp};
use ip_wire::{
    ArpPacket, ArpPacketMut, ArpRepr, EthernetFrame, EthernetFrameMut, EthernetRepr, IpPacket,
    Ipv4Packet, Ipv4PacketMut, Ipv4Repr, Ipv6FragmentHeader, Ipv6FragmentHeaderMut,
    Ipv6FragmentRepr, Ipv6Packet, Ipv6PacketMut, Ipv6Repr, TcpPacket, TcpPacketMut, UdpPacket,
    UdpPacketMut,
};
use net_base::ChecksumCapabilities;
use test_support::bytes::copy_to;
use wire_icmp::{IcmpPacket, IcmpPacketMut};

/// A format with views.
#[derive(Clone, Copy)]
pub(super) enum Format {
    Ethernet,
    Arp,
    Ip,
    Ipv4,
    Ipv6,
    Fragment,
    Udp,
    Tcp,
    Icmp,
}

/// Whether the checks of a view and of a mutable view accept the bytes.
fn checks(format: Format, bytes: &mut [u8]) -> [bool; 4] {
    match format {
        Format::Ethernet => [
            EthernetFrame::new_unchecked(bytes).check_len().is_ok(),
            EthernetFrame::new_checked(bytes).is_ok(),
            EthernetFrameMut::new_unchecked(bytes).check_len().is_ok(),
            EthernetFrameMut::new_checked(bytes).is_ok(),
        ],
        Format::Arp => [
            ArpPacket::new_unchecked(bytes).check_len().is_ok(),
            ArpPacket::new_checked(bytes).is_ok(),
            ArpPacketMut::new_unchecked(bytes).check_len().is_ok(),
            ArpPacketMut::new_checked(bytes).is_ok(),
        ],
        Format::Ipv4 | Format::Ip => [
            Ipv4Packet::new_unchecked(bytes).check_len().is_ok(),
            Ipv4Packet::new_checked(bytes).is_ok(),
            Ipv4PacketMut::new_unchecked(bytes).check_len().is_ok(),
            Ipv4PacketMut::new_checked(bytes).is_ok(),
        ],
        Format::Ipv6 => [
            Ipv6Packet::new_unchecked(bytes).check_len().is_ok(),
            Ipv6Packet::new_checked(bytes).is_ok(),
            Ipv6PacketMut::new_unchecked(bytes).check_len().is_ok(),
            Ipv6PacketMut::new_checked(bytes).is_ok(),
        ],
        Format::Fragment => [
            Ipv6FragmentHeader::new_unchecked(bytes).check_len().is_ok(),
            Ipv6FragmentHeader::new_checked(bytes).is_ok(),
            Ipv6FragmentHeaderMut::new_unchecked(bytes)
                .check_len()
                .is_ok(),
            Ipv6FragmentHeaderMut::new_checked(bytes).is_ok(),
        ],
        Format::Udp => [
            UdpPacket::new_unchecked(bytes).check_len().is_ok(),
            UdpPacket::new_checked(bytes).is_ok(),
            UdpPacketMut::new_unchecked(bytes).check_len().is_ok(),
            UdpPacketMut::new_checked(bytes).is_ok(),
        ],
        Format::Tcp => [
            TcpPacket::new_unchecked(bytes).check_len().is_ok(),
            TcpPacket::new_checked(bytes).is_ok(),
            TcpPacketMut::new_unchecked(bytes).check_len().is_ok(),
            TcpPacketMut::new_checked(bytes).is_ok(),
        ],
        Format::Icmp => [
            IcmpPacket::new_unchecked(bytes).check_len().is_ok(),
            IcmpPacket::new_checked(bytes).is_ok(),
            IcmpPacketMut::new_unchecked(bytes).check_len().is_ok(),
            IcmpPacketMut::new_checked(bytes).is_ok(),
        ],
    }
}

/// Whether the bytes parse as a header, if its value needs no addresses.
fn parses(format: Format, bytes: &[u8]) -> Option<bool> {
    let caps = ChecksumCapabilities::default();
    match format {
        Format::Ethernet => {
            let frame = EthernetFrame::new_unchecked(bytes);
            Some(EthernetRepr::parse(&frame).is_ok())
        }
        Format::Arp => {
            let packet = ArpPacket::new_unchecked(bytes);
            Some(ArpRepr::parse(&packet).is_ok())
        }
        Format::Ipv4 | Format::Ip => {
            let packet = Ipv4Packet::new_unchecked(bytes);
            Some(Ipv4Repr::parse(&packet, &caps).is_ok())
        }
        Format::Ipv6 => {
            let packet = Ipv6Packet::new_unchecked(bytes);
            Some(Ipv6Repr::parse(&packet).is_ok())
        }
        Format::Fragment => {
            let header = Ipv6FragmentHeader::new_unchecked(bytes);
            Some(Ipv6FragmentRepr::parse(&header).is_ok())
        }
        Format::Udp | Format::Tcp | Format::Icmp => None,
    }
}

/// No number of bytes is enough.
pub(super) const NEVER: usize = usize::MAX;

/// Packets of all formats.
const LENGTHS: [&[(Format, &[u8], usize, usize)]; 8] = [
    arp::LENGTHS,
    ethernet::LENGTHS,
    icmp::LENGTHS,
    ipv4::LENGTHS,
    ipv6::LENGTHS,
    ipv6fragment::LENGTHS,
    tcp::LENGTHS,
    udp::LENGTHS,
];

/// Whether the checks accept exactly so many bytes of a packet and more, and whether as many parse.
fn has_lengths(format: Format, bytes: &[u8], least: usize, parsed: usize) -> bool {
    for len in 0..=bytes.len().min(64) {
        let mut buffer = [0; 64];
        copy_to(&mut buffer[..len], &bytes[..len]);
        let are_accepted = checks(format, &mut buffer[..len]) == [len >= least; 4];
        let is_parsed = match parses(format, &bytes[..len]) {
            Some(is_parsed) => is_parsed,
            None => len >= parsed,
        };
        if !are_accepted || is_parsed != (len >= parsed) {
            return false;
        }
    }
    true
}

#[test]
fn rejects_less_than_the_packet(rt: HostRuntime) {
    for table in LENGTHS {
        for (format, bytes, least, parsed) in table {
            assert!(rt; has_lengths(*format, bytes, *least, *parsed), "{bytes:?}");
        }
    }
}

/// The payload that a view finds.
pub(super) fn payload(format: Format, bytes: &[u8]) -> Option<&[u8]> {
    match format {
        Format::Ethernet => Some(EthernetFrame::new_checked(bytes).ok()?.payload()),
        Format::Arp | Format::Fragment => None,
        Format::Ip => IpPacket::new_unchecked(bytes).payload().ok(),
        Format::Ipv4 => Some(Ipv4Packet::new_checked(bytes).ok()?.payload()),
        Format::Ipv6 => Some(Ipv6Packet::new_checked(bytes).ok()?.payload()),
        Format::Udp => Some(UdpPacket::new_checked(bytes).ok()?.payload()),
        Format::Tcp => Some(TcpPacket::new_checked(bytes).ok()?.payload()),
        Format::Icmp => Some(IcmpPacket::new_checked(bytes).ok()?.payload()),
    }
}

/// Fills the payload that a mutable view borrows.
fn fill(format: Format, bytes: &mut [u8]) {
    match format {
        Format::Ethernet => {
            if let Ok(mut frame) = EthernetFrameMut::new_checked(bytes) {
                frame.payload_mut().fill(0x5a);
            }
        }
        Format::Arp | Format::Fragment => (),
        Format::Ipv4 | Format::Ip => {
            if let Ok(mut packet) = Ipv4PacketMut::new_checked(bytes) {
                packet.payload_mut().fill(0x5a);
            }
        }
        Format::Ipv6 => {
            if let Ok(mut packet) = Ipv6PacketMut::new_checked(bytes) {
                packet.payload_mut().fill(0x5a);
            }
        }
        Format::Udp => {
            if let Ok(mut packet) = UdpPacketMut::new_checked(bytes) {
                packet.payload_mut().fill(0x5a);
            }
        }
        Format::Tcp => {
            if let Ok(mut packet) = TcpPacketMut::new_checked(bytes) {
                packet.payload_mut().fill(0x5a);
            }
        }
        Format::Icmp => {
            if let Ok(mut packet) = IcmpPacketMut::new_checked(bytes) {
                packet.payload_mut().fill(0x5a);
            }
        }
    }
}

/// Packets of all formats.
const PAYLOADS: [&[(Format, &[u8], usize, usize)]; 7] = [
    ethernet::PAYLOADS,
    icmp::PAYLOADS,
    ip::PAYLOADS,
    ipv4::PAYLOADS,
    ipv6::PAYLOADS,
    tcp::PAYLOADS,
    udp::PAYLOADS,
];

/// Whether the payload of a packet begins and ends here, and a mutable view borrows it.
fn has_payload(format: Format, bytes: &[u8], start: usize, end: usize) -> bool {
    let mut buffer = [0; 64];
    let mut want = [0; 64];
    let len = bytes.len().min(64);
    copy_to(&mut buffer[..len], &bytes[..len]);
    copy_to(&mut want[..len], &bytes[..len]);
    if let Some(part) = want.get_mut(start..end) {
        part.fill(0x5a);
    }
    fill(format, &mut buffer[..len]);
    buffer == want && payload(format, bytes) == bytes.get(start..end)
}

#[test]
fn padding_is_no_payload(rt: HostRuntime) {
    for table in PAYLOADS {
        for (format, bytes, start, end) in table {
            assert!(rt; has_payload(*format, bytes, *start, *end), "{bytes:?}");
        }
    }
}

/// Whether a view and a mutable view have all bytes.
fn keeps(format: Format, bytes: &[u8], buffer: &mut [u8]) -> bool {
    match format {
        Format::Ethernet => {
            let view = EthernetFrame::new_unchecked(bytes);
            let mutable = EthernetFrameMut::new_unchecked(buffer);
            mutable.as_view() == view
                && mutable.as_bytes() == bytes
                && view.as_bytes() == bytes
                && &*mutable.into_inner() == bytes
                && view.into_inner() == bytes
        }
        Format::Arp => {
            let view = ArpPacket::new_unchecked(bytes);
            let mutable = ArpPacketMut::new_unchecked(buffer);
            mutable.as_view() == view
                && mutable.as_bytes() == bytes
                && view.as_bytes() == bytes
                && &*mutable.into_inner() == bytes
                && view.into_inner() == bytes
        }
        Format::Fragment => {
            let view = Ipv6FragmentHeader::new_unchecked(bytes);
            let mutable = Ipv6FragmentHeaderMut::new_unchecked(buffer);
            mutable.as_view() == view
                && mutable.as_bytes() == bytes
                && view.as_bytes() == bytes
                && &*mutable.into_inner() == bytes
                && view.into_inner() == bytes
        }
        Format::Udp => {
            let view = UdpPacket::new_unchecked(bytes);
            let mutable = UdpPacketMut::new_unchecked(buffer);
            mutable.as_view() == view
                && mutable.as_bytes() == bytes
                && view.as_bytes() == bytes
                && &*mutable.into_inner() == bytes
                && view.into_inner() == bytes
        }
        Format::Tcp => {
            let view = TcpPacket::new_unchecked(bytes);
            let mutable = TcpPacketMut::new_unchecked(buffer);
            mutable.as_view() == view
                && mutable.as_bytes() == bytes
                && view.as_bytes() == bytes
                && &*mutable.into_inner() == bytes
                && view.into_inner() == bytes
        }
        Format::Icmp => {
            let view = IcmpPacket::new_unchecked(bytes);
            let mutable = IcmpPacketMut::new_unchecked(buffer);
            mutable.as_view() == view
                && mutable.as_bytes() == bytes
                && view.as_bytes() == bytes
                && &*mutable.into_inner() == bytes
                && view.into_inner() == bytes
        }
        Format::Ip | Format::Ipv4 | Format::Ipv6 => false,
    }
}

/// Packets of the formats with views on all bytes.
const KEPT: &[(Format, &[u8])] = &[
    (Format::Ethernet, &ETHERNET),
    (Format::Arp, &SHORT_ARP),
    (Format::Fragment, &FRAGMENT_HEADER),
    (
        Format::Udp,
        b"\xbf\0\0\x35\0\x0c\x12\x4d\xaa\0\0\xff\x55\x55",
    ),
    (Format::Tcp, &SEGMENT),
    (Format::Icmp, &ECHO),
];

#[test]
fn a_view_has_all_bytes(rt: HostRuntime) {
    for (format, bytes) in KEPT {
        let mut buffer = [0; 64];
        let len = bytes.len().min(64);
        copy_to(&mut buffer[..len], &bytes[..len]);
        assert!(rt; keeps(*format, bytes, &mut buffer[..len]), "{bytes:?}");
    }
}
