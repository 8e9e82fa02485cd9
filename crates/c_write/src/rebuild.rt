//! Rebuilding a whole frame.

ghost use Rattle.std.specs.Prelude.{◌≡◌, ◌≢◌, ◌≤◌, ◌++◌, IsTrue, Some, drop, length, true};
ghost use Rattle.ip_wire.specs.Field.{field};
ghost use Rattle.ip_wire.specs.Frame.{rebuilt_transport_by, rebuilt_payload, rebuilt_transport};
ghost use Rattle.ip_wire.specs.Ip.{bytes_of, next_header_of, with_payload_len};
ghost use Rattle.ip_wire.specs.IpAddress.{version_of};
ghost use Rattle.ip_wire.specs.Ipv6.{header_of};
ghost use Rattle.ip_wire.specs.Protocol.{protocol_of};
ghost use Rattle.ip_wire.specs.Types as repr;
ghost use Rattle.ip_wire.specs.Udp.{packet_len};
ghost use Rattle.ip_wire.specs.declared.EthernetProtocol.TheVariants.{Arp, Ipv4, Ipv6};
ghost use Rattle.ip_wire.specs.declared.IpProtocol.TheVariants.{Tcp, Udp};
ghost use Rattle.c_write.specs.Frames.{rebuilt_of};
ghost use Rattle.c_structs.specs.Written.{Fills};

use crate::{tcp, tcp_kept};
use byteorder::{ByteOrder, NetworkEndian};
use ip_wire::{
    ArpPacket, ArpRepr, ChecksumCapabilities, ETHERNET_HEADER_LEN, EthernetFrame, EthernetProtocol,
    IPV4_HEADER_LEN, IPV6_HEADER_LEN, IpAddress, IpProtocol, IpRepr, Ipv4Packet, Ipv4Repr,
    Ipv6Packet, Ipv6Repr, TcpPacket, TcpRepr, UDP_HEADER_LEN, UdpPacket, UdpRepr,
};
use net_base::{array_at, try_copy, write_at, write_front};

// The length of an ARP packet for Ethernet and IPv4.
const ARP_LEN: usize = 28;

// The byte of the protocol number in an IPv4 header (RFC 791, section 3.1), and of the next header in an
// IPv6 header (RFC 8200, section 3).
const IPV4_PROTOCOL: usize = 9;

const IPV6_NEXT_HEADER: usize = 6;

const IPV6_HOP_LIMIT: usize = 7;

/// Writes a rebuilt frame to the front of `out` and returns its length. `None` if it does not fit, or if
/// there is no Ethernet header.
pub fn rebuild_frame(bytes: &[u8], out: &mut [u8]) -> Option<usize>
    ensures { Fills (rebuilt_of bytes.now) out.old out.new result }
{
    if bytes.len() < ETHERNET_HEADER_LEN || out.len() < ETHERNET_HEADER_LEN {
        return None;
    }
    let frame = EthernetFrame::new_unchecked(bytes);
    let (front, rest) = out.split_at_mut(ETHERNET_HEADER_LEN);
    match rebuild_payload(frame.ethertype(), frame.payload(), rest) {
        Some(len) => {
            // A header that was read is in its normal form.
            write_front(front, &array_at::<ETHERNET_HEADER_LEN>(bytes, 0));
            Some(ETHERNET_HEADER_LEN + len)
        }
        None => None,
    }
}

// Rebuilds the payload of a frame with this EtherType.
fn rebuild_payload(ethertype: EthernetProtocol, bytes: &[u8], out: &mut [u8]) -> Option<usize>
    ensures { Fills (Some (rebuilt_payload ethertype bytes.now)) out.old out.new result }
{
    match ethertype {
        EthernetProtocol::Ipv4 => rebuild_ipv4(bytes, out),
        EthernetProtocol::Ipv6 => rebuild_ipv6(bytes, out),
        EthernetProtocol::Arp => rebuild_arp(bytes, out),
        EthernetProtocol::Unknown(_) => try_copy(out, bytes),
    }
}

// Rebuilds an ARP packet; copies it if it does not parse.
fn rebuild_arp(bytes: &[u8], out: &mut [u8]) -> Option<usize>
    ensures { Fills (Some (rebuilt_payload Arp bytes.now)) out.old out.new result }
{
    match ArpRepr::parse(&ArpPacket::new_unchecked(bytes)) {
        // It is emitted as it was read, without padding.
        Ok(_) => try_copy(out, &bytes[..ARP_LEN]),
        Err(_) => try_copy(out, bytes),
    }
}

// Rebuilds an IPv4 packet; copies it if it does not parse with its checksum, or is a fragment. The payload
// length is set to that of the rebuilt payload.
fn rebuild_ipv4(bytes: &[u8], out: &mut [u8]) -> Option<usize>
    ensures { Fills (Some (rebuilt_payload Ipv4 bytes.now)) out.old out.new result }
{
    let packet = Ipv4Packet::new_unchecked(bytes);
    match Ipv4Repr::parse(&packet, &ChecksumCapabilities::default()) {
        Ok(header) if !packet.is_fragment() => {
            let (front, rest) = out.split_at_mut_checked(IPV4_HEADER_LEN)?;
            let (header, protocol) = (IpRepr::Ipv4(header), bytes[IPV4_PROTOCOL]);
            let payload_len = rebuild_transport(&header, protocol, packet.payload(), rest)?;
            // A number is written as it is: the name of a protocol would first be looked up in a table.
            let header = header.before(IpProtocol::Unknown(protocol), payload_len);
            header.emit(front, &ChecksumCapabilities::default());
            Some(IPV4_HEADER_LEN + payload_len)
        }
        _ => try_copy(out, bytes),
    }
}

// Rebuilds an IPv6 packet; copies it if it does not parse. The payload length is set to that of the rebuilt
// payload.
fn rebuild_ipv6(bytes: &[u8], out: &mut [u8]) -> Option<usize>
    ensures { Fills (Some (rebuilt_payload Ipv6 bytes.now)) out.old out.new result }
{
    let packet = Ipv6Packet::new_unchecked(bytes);
    match Ipv6Repr::parse(&packet) {
        Ok(header) => {
            let (front, rest) = out.split_at_mut_checked(IPV6_HEADER_LEN)?;
            let (header, protocol) = (IpRepr::Ipv6(header), bytes[IPV6_NEXT_HEADER]);
            let payload_len = rebuild_transport(&header, protocol, packet.payload(), rest)?;
            put_ipv6(bytes, payload_len, front);
            Some(IPV6_HEADER_LEN + payload_len)
        }
        Err(_) => try_copy(out, bytes),
    }
}

// Writes the IPv6 header that the bytes begin with before a payload of this length. It is copied: values
// would take registers while the payload is rebuilt.
#[inline(always)]
fn put_ipv6(bytes: &[u8], payload_len: usize, out: &mut [u8])
    requires whole { 40 ≤ length bytes.now }
    requires payload_len { payload_len ≤ 65535 }
    requires room { 40 ≤ length out.old }
    ensures { out.new ≡ bytes_of (with_payload_len (repr.Ipv6 (header_of bytes.now)) payload_len) true ++ drop 40 out.old }
{
    let (protocol, hop_limit) = (bytes[IPV6_NEXT_HEADER], bytes[IPV6_HOP_LIMIT]);
    let mut first = [0x60, 0, 0, 0, 0, 0, protocol, hop_limit];
    NetworkEndian::write_u16(&mut first[4..6], payload_len as u16);
    write_front(out, &first);
    write_at(out, 8, &bytes[8..IPV6_HEADER_LEN]);
}

// Rebuilds the payload of a packet with this header and protocol number. The number is compared here as it
// is: its name in the header would have been looked up before. What is copied whether it parses or not is
// not summed.
#[inline(always)]
fn rebuild_transport(header: &IpRepr, protocol: u8, bytes: &[u8], out: &mut [u8]) -> Option<usize>
    requires { next_header_of header.now ≡ protocol_of protocol }
    ensures { Fills (Some (rebuilt_transport header.now bytes.now)) out.old out.new result }
{
    // Once they are read, the checker knows how long they are.
    let _addresses = (header.src_addr(), header.dst_addr());
    match IpProtocol::from(protocol) {
        IpProtocol::Udp if !is_whole_udp(bytes) => {
            rebuild_udp(header.src_addr(), header.dst_addr(), bytes, out)
        }
        IpProtocol::Tcp if !tcp_kept::is_kept(bytes) => {
            rebuild_tcp(header.src_addr(), header.dst_addr(), bytes, out)
        }
        _ => try_copy(out, bytes),
    }
}

// Whether a UDP packet has a checksum, and no padding after it.
#[inline(always)]
fn is_whole_udp(bytes: &[u8]) -> bool
    ensures { IsTrue result → (packet_len bytes.now ≡ length bytes.now) × (field bytes.now 48 16 ≢ 0) }
{
    if bytes.len() < UDP_HEADER_LEN {
        return false;
    }
    let packet = UdpPacket::new_unchecked(bytes);
    usize::from(packet.len()) == bytes.len() && packet.checksum() != 0
}

// Rebuilds a UDP packet; copies it if it does not parse with its checksum.
#[inline(never)]
fn rebuild_udp(
    src_addr: IpAddress,
    dst_addr: IpAddress,
    bytes: &[u8],
    out: &mut [u8],
) -> Option<usize>
    requires { version_of src_addr ≡ version_of dst_addr }
    ensures { Fills (Some (rebuilt_transport_by Udp src_addr dst_addr bytes.now)) out.old out.new result }
{
    let caps = ChecksumCapabilities::default();
    let packet = UdpPacket::new_unchecked(bytes);
    match UdpRepr::parse(&packet, &src_addr, &dst_addr, &caps) {
        Ok(header) if packet.checksum() == 0 => {
            header.try_emit(out, &src_addr, &dst_addr, packet.payload(), &caps)
        }
        // No other packet has these values, this payload and a valid checksum.
        Ok(_) => try_copy(out, &bytes[..usize::from(packet.len())]),
        Err(_) => try_copy(out, bytes),
    }
}

// Rebuilds a TCP segment; copies it if it does not parse with its checksum.
#[inline(always)]
fn rebuild_tcp(
    src_addr: IpAddress,
    dst_addr: IpAddress,
    bytes: &[u8],
    out: &mut [u8],
) -> Option<usize>
    requires { version_of src_addr ≡ version_of dst_addr }
    ensures { Fills (Some (rebuilt_transport_by Tcp src_addr dst_addr bytes.now)) out.old out.new result }
{
    if tcp_kept::is_stamped(bytes) {
        if !tcp_kept::is_sound(bytes, &src_addr, &dst_addr) {
            return try_copy(out, bytes);
        }
        return tcp_kept::copy_stamped(bytes, out);
    }
    rebuild_any_tcp(src_addr, dst_addr, bytes, out)
}

// The same by the values of the segment. The call keeps their room out of all other frames.
#[inline(never)]
fn rebuild_any_tcp(
    src_addr: IpAddress,
    dst_addr: IpAddress,
    bytes: &[u8],
    out: &mut [u8],
) -> Option<usize>
    requires { version_of src_addr ≡ version_of dst_addr }
    ensures { Fills (Some (rebuilt_transport_by Tcp src_addr dst_addr bytes.now)) out.old out.new result }
{
    let caps = ChecksumCapabilities::default();
    let packet = TcpPacket::new_unchecked(bytes);
    match TcpRepr::parse(&packet, &src_addr, &dst_addr, &caps) {
        Ok(segment) => {
            let unsummed = ChecksumCapabilities::ignored();
            match segment.try_emit(out, &src_addr, &dst_addr, &unsummed) {
                Some(len) => {
                    let old = &bytes[..usize::from(packet.header_len())];
                    tcp::put_checksum(old, bytes.len(), segment.header_len(), len, out);
                    Some(len)
                }
                None => None,
            }
        }
        Err(_) => try_copy(out, bytes),
    }
}
