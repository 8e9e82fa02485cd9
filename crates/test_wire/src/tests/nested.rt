//! Views on payloads that other views borrow.

use super::packets::SYN;
use super::tcp_repr::SYN_VALUE;
use ip_wire::{
    EthernetFrame, EthernetFrameMut, EthernetProtocol, EthernetRepr, IpAddress, IpProtocol,
    Ipv4Address, Ipv4Packet, Ipv4PacketMut, Ipv4Repr, Ipv6Address, Ipv6FragmentHeaderMut,
    Ipv6FragmentRepr, Ipv6PacketMut, Ipv6Repr, Result, TcpPacket, TcpPacketMut,
};
use net_base::ChecksumCapabilities;
use test_support::udp_frames::{DST, SRC};

/// A fragment in a packet in a frame, with two bytes of padding after it. Its frame header has no addresses.
const FRAGMENT_FRAME: [u8; 64] = [
    0xa5, 0xa5, 0xa5, 0xa5, 0xa5, 0xa5, 0xa5, 0xa5, 0xa5, 0xa5, 0xa5, 0xa5, 0x86, 0xdd, 0x60, 0x00,
    0x00, 0x00, 0x00, 0x08, 0x2c, 0x01, 0x00, 0x00, 0x00, 0x00, 0x00, 0x00, 0x00, 0x00, 0x00, 0x00,
    0x00, 0x00, 0x00, 0x00, 0x00, 0x01, 0x00, 0x00, 0x00, 0x00, 0x00, 0x00, 0x00, 0x00, 0x00, 0x00,
    0x00, 0x00, 0x00, 0x00, 0x00, 0x00, 0x11, 0x00, 0x0a, 0x01, 0x00, 0x01, 0x09, 0x32, 0xa5, 0xa5,
];

/// Writes a fragment header after two bytes, if there are 8. Returns the number of bytes.
fn write_fragment(bytes: &mut [u8]) -> usize {
    let fragment = Ipv6FragmentRepr {
        frag_offset: 320,
        more_frags: true,
        ident: 67890,
    };
    if bytes.len() == 8 {
        bytes[..2].copy_from_slice(&[17, 0]);
        fragment.emit(&mut Ipv6FragmentHeaderMut::new_unchecked(&mut bytes[2..]));
    }
    bytes.len()
}

#[test]
fn a_fragment_is_written_view_by_view(rt: HostRuntime) {
    let mut buffer = [0xa5; 64];
    let mut frame = EthernetFrameMut::new_checked(&mut buffer).expect(&rt, "a frame");
    frame.set_ethertype(EthernetProtocol::Ipv6);
    let mut packet = Ipv6PacketMut::new_unchecked(frame.payload_mut());
    let header = Ipv6Repr {
        src_addr: Ipv6Address::LOCALHOST,
        dst_addr: Ipv6Address::UNSPECIFIED,
        next_header: IpProtocol::Ipv6Frag,
        payload_len: 8,
        hop_limit: 1,
    };
    header.emit(&mut packet);
    assert!(rt; packet.check_len().is_ok());
    let payload_len = write_fragment(packet.payload_mut());
    assert!(rt; payload_len == 8);
    assert!(rt; buffer == FRAGMENT_FRAME);
}

/// A segment in a packet in a frame, with two bytes of padding after them.
const SEGMENT_FRAME: [u8; 60] = [
    0x01, 0x02, 0x03, 0x04, 0x05, 0x06, 0x11, 0x12, 0x13, 0x14, 0x15, 0x16, 0x08, 0x00, 0x45, 0x00,
    0x00, 0x2c, 0x00, 0x00, 0x40, 0x00, 0x40, 0x06, 0xb7, 0x78, 0xc0, 0xa8, 0x01, 0x01, 0xc0, 0xa8,
    0x01, 0x02, 0xbf, 0x00, 0x00, 0x50, 0x01, 0x23, 0x45, 0x67, 0x00, 0x00, 0x00, 0x00, 0x50, 0x02,
    0x01, 0x23, 0x7a, 0x8d, 0x00, 0x00, 0xaa, 0x00, 0x00, 0xff, 0xa5, 0xa5,
];

/// Writes the segment with SYN, if there are as many bytes.
fn write_segment(bytes: &mut [u8]) {
    let (src, dst) = (IpAddress::v4(192, 168, 1, 1), IpAddress::v4(192, 168, 1, 2));
    let value = SYN_VALUE;
    if value.header_len() == 20 && value.payload.len() == 4 && bytes.len() == SYN.len() {
        let mut segment = TcpPacketMut::new_unchecked(bytes);
        value.emit(&mut segment, &src, &dst, &ChecksumCapabilities::default());
    }
}

#[test]
fn a_segment_is_written_through_three_views(rt: HostRuntime) {
    let mut buffer = [0xa5; 60];
    let mut frame = EthernetFrameMut::new_unchecked(&mut buffer);
    let header = EthernetRepr {
        src_addr: SRC,
        dst_addr: DST,
        ethertype: EthernetProtocol::Ipv4,
    };
    header.emit(&mut frame);
    let mut packet = Ipv4PacketMut::new_unchecked(frame.payload_mut());
    let header = Ipv4Repr {
        src_addr: Ipv4Address::new(192, 168, 1, 1),
        dst_addr: Ipv4Address::new(192, 168, 1, 2),
        next_header: IpProtocol::Tcp,
        payload_len: 24,
        hop_limit: 64,
    };
    header.emit(&mut packet, &ChecksumCapabilities::default());
    assert!(rt; packet.check_len().is_ok());
    write_segment(packet.payload_mut());
    assert!(rt; buffer == SEGMENT_FRAME);
}

/// The payload of a packet in a frame. It is used after both views are gone.
fn payload(bytes: &[u8]) -> Result<&[u8]> {
    let frame = EthernetFrame::new_checked(bytes)?;
    let packet = Ipv4Packet::new_checked(frame.payload())?;
    Ok(packet.payload())
}

/// The payload of a segment in a packet in a frame. It is used after the three views are gone.
fn segment_payload(bytes: &[u8]) -> Result<&[u8]> {
    let segment = TcpPacket::new_checked(payload(bytes)?)?;
    Ok(segment.payload())
}

#[test]
fn a_payload_outlives_its_views(rt: HostRuntime) {
    assert!(rt; payload(&SEGMENT_FRAME) == Ok(&SYN));
    assert!(rt; segment_payload(&SEGMENT_FRAME) == Ok(&SYN[20..]));
    assert!(rt; payload(&SEGMENT_FRAME[..57]).is_err());
    assert!(rt; payload(&SEGMENT_FRAME[..13]).is_err());
}
