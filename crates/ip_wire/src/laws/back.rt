//! Frames are parsed as they were emitted.

ghost use Rattle.std.specs.Prelude.{◌≡◌, ◌≢◌, ◌≤◌, ◌+◌, ◌++◌, [], IsTrue, length};
ghost use Rattle.ip_wire.specs.Frame.{ReadsFrame, all_checked, datagram, message, other, packet, rebuilt, segment, type_of};
ghost use Rattle.ip_wire.specs.FrameValue.{Agrees, AgreesCarried, Composes, Computes, Finds, Fits, FitsCarried, ReadsNormalOf, carried_bytes, frame_bytes, normal_carried_of};
ghost use Rattle.net_base.specs.Checksum.{computes, verifies};
ghost use Rattle.wire_arp.specs.Arp as arp;
ghost use Rattle.wire_addr.specs.Protocol as protocol;
ghost use Rattle.wire_addr.specs.declared.IpProtocol.TheVariants as ip_protocol;
ghost use Rattle.wire_addr.specs.declared.IpVersion.TheVariants as version;
ghost use Rattle.wire_ethernet.specs.Ethernet as ethernet;
ghost use Rattle.wire_ip.specs.Ip as ip;
ghost use Rattle.wire_tcp.specs.TcpRepr as tcp;
ghost use Rattle.wire_udp.specs.Udp as udp;

use crate::frame::{Carried, Frame, Transport};
use net_base::ChecksumCapabilities;
use wire_arp::ArpRepr;
use wire_ethernet::EthernetRepr;
use wire_ip::IpRepr;
use wire_tcp::TcpRepr;
use wire_udp::UdpRepr;

/// An Ethernet header and what it carries, emitted with any padding after them, parse layer by
/// layer as their normal forms. Each header must name what follows it. Of the checksums that these
/// headers have, each that the receiver verifies must be computed.
pub fn frame_composes(
    header: EthernetRepr,
    carried: &Carried<'_>,
    padding: &[u8],
    sent: ChecksumCapabilities,
    received: ChecksumCapabilities,
)
    requires agrees { AgreesCarried header.ethertype carried.now }
    requires fits { FitsCarried carried.now }
    requires checksums { Computes sent received carried.now }
    ensures { Composes received (ethernet.bytes_of header ++ carried_bytes sent carried.now ++ padding.now) header carried.now }
{
    match carried {
        Carried::Arp(value) => frame_composes_arp(header, *value, padding, received),
        Carried::Packet(packet, inner) => {
            let mut filled = *packet;
            match inner {
                Transport::Udp(value, payload) => {
                    filled.set_payload_len(8 + payload.len());
                    frame_composes_udp(header, filled, *value, payload, padding, sent, received);
                }
                Transport::Tcp(value) => {
                    filled.set_payload_len(value.buffer_len());
                    frame_composes_tcp(header, filled, *value, padding, sent, received);
                }
                Transport::Other(payload) => {
                    filled.set_payload_len(payload.len());
                    frame_composes_other(header, filled, payload, padding, sent, received);
                }
                Transport::Unread(_) => {}
            }
        }
        Carried::Fragment(_) | Carried::Unread(_) => {}
    }
}

/// The emitted frame, with any padding after it, parses as the normal form of its value. The
/// premises are those of `frame_composes`.
pub fn frame_reads_back(
    frame: &Frame<'_>,
    padding: &[u8],
    sent: ChecksumCapabilities,
    received: ChecksumCapabilities,
)
    requires agrees { Agrees frame.now }
    requires fits { Fits frame.now }
    requires checksums { Computes sent received frame.now.carried }
    ensures { ReadsNormalOf received (frame_bytes sent frame.now ++ padding.now) frame.now }
{
    let header = frame.header;
    frame_composes(header, &frame.carried, padding, sent, received);
}

/// No bytes parse as the normal forms of two frames that differ in their normal forms.
pub fn composes_once(bytes: &[u8], received: ChecksumCapabilities, a: &Frame<'_>, b: &Frame<'_>)
    ensures { ReadsNormalOf received bytes.now a.now → ReadsNormalOf received bytes.now b.now
        → (ethernet.normal a.now.header ≡ ethernet.normal b.now.header) × (normal_carried_of a.now.carried ≡ normal_carried_of b.now.carried) }
{}

/// A frame that is parsed leniently and emitted, with every checksum verified and computed, is the rebuilt
/// frame.
pub fn frame_rebuilds(bytes: &[u8], frame: &Frame<'_>)
    ensures { Finds all_checked bytes.now frame.now → frame_bytes all_checked frame.now ≡ rebuilt bytes.now }
{}

/// A frame with matching Ethernet, IP and UDP headers, with any padding, parses as the normal forms
/// of its headers and its payload, if each verified checksum was computed.
pub fn frame_composes_udp(
    header: EthernetRepr,
    inner: IpRepr,
    value: UdpRepr,
    payload: &[u8],
    padding: &[u8],
    sent: ChecksumCapabilities,
    received: ChecksumCapabilities,
)
    requires names { ethernet.number_of header.ethertype ≡ ethernet.number_of (type_of inner) }
    requires protocol { protocol.number_of (ip.next_header_of inner) ≡ 17 }
    requires len { ip.payload_len_of inner ≡ 8 + length payload.now }
    requires fits { ip.payload_len_of inner ≤ ip.max_payload_len inner }
    requires receiver { value.dst_port ≢ 0 }
    requires packet_checksum { ip.version_of inner ≡ version.Ipv4 → IsTrue (verifies received.ipv4) → IsTrue (computes sent.ipv4) }
    requires checksum { IsTrue (verifies received.udp) → IsTrue (computes sent.udp) }
    ensures { let datagram_bytes = udp.bytes_of value payload.now (ip.src_addr_of inner) (ip.dst_addr_of inner) (computes sent.udp) in
        ReadsFrame received (ethernet.bytes_of header ++ (ip.bytes_of inner (computes sent.ipv4) ++ datagram_bytes) ++ padding.now) (ethernet.normal header) (packet (ip.normal inner) (datagram value payload.now)) }
{}

/// A frame with matching Ethernet, IP and TCP headers, with any padding, parses as the normal forms of its headers
/// and its payload, if each verified checksum was computed.
pub fn frame_composes_tcp(
    header: EthernetRepr,
    inner: IpRepr,
    value: TcpRepr<'_>,
    padding: &[u8],
    sent: ChecksumCapabilities,
    received: ChecksumCapabilities,
)
    requires names { ethernet.number_of header.ethertype ≡ ethernet.number_of (type_of inner) }
    requires protocol { protocol.number_of (ip.next_header_of inner) ≡ 6 }
    requires len { ip.payload_len_of inner ≡ tcp.header_len_of (tcp.header_of value) + length value.payload.now }
    requires fits { ip.payload_len_of inner ≤ ip.max_payload_len inner }
    requires header_len { tcp.header_len_of (tcp.header_of value) ≤ 60 }
    requires sender { value.src_port ≢ 0 }
    requires receiver { value.dst_port ≢ 0 }
    requires packet_checksum { ip.version_of inner ≡ version.Ipv4 → IsTrue (verifies received.ipv4) → IsTrue (computes sent.ipv4) }
    requires checksum { IsTrue (verifies received.tcp) → IsTrue (computes sent.tcp) }
    ensures { let v = tcp.header_of value.entry in let payload = value.entry.payload.now in
        let segment_bytes = tcp.bytes_of v payload (ip.src_addr_of inner) (ip.dst_addr_of inner) (computes sent.tcp) [] in
        ReadsFrame received (ethernet.bytes_of header ++ (ip.bytes_of inner (computes sent.ipv4) ++ segment_bytes) ++ padding.now) (ethernet.normal header) (packet (ip.normal inner) (segment (tcp.normal v) payload)) }
{}

/// A frame with an ARP packet and the EtherType of ARP, with any padding, parses as the normal forms
/// of both. It has no checksum.
pub fn frame_composes_arp(
    header: EthernetRepr,
    value: ArpRepr,
    padding: &[u8],
    received: ChecksumCapabilities,
)
    requires { ethernet.number_of header.ethertype ≡ 0x0806 }
    ensures { ReadsFrame received (ethernet.bytes_of header ++ arp.bytes_of value ++ padding.now) (ethernet.normal header) (message (arp.normal value)) }
{}

/// A frame with matching headers and a payload of another protocol than UDP and TCP, with any
/// padding, parses as the normal forms of its headers and that payload.
pub fn frame_composes_other(
    header: EthernetRepr,
    inner: IpRepr,
    payload: &[u8],
    padding: &[u8],
    sent: ChecksumCapabilities,
    received: ChecksumCapabilities,
)
    requires names { ethernet.number_of header.ethertype ≡ ethernet.number_of (type_of inner) }
    requires datagram { ip.next_header_of (ip.normal inner) ≢ ip_protocol.Udp }
    requires segment { ip.next_header_of (ip.normal inner) ≢ ip_protocol.Tcp }
    requires len { ip.payload_len_of inner ≡ length payload.now }
    requires fits { ip.payload_len_of inner ≤ ip.max_payload_len inner }
    requires packet_checksum { ip.version_of inner ≡ version.Ipv4 → IsTrue (verifies received.ipv4) → IsTrue (computes sent.ipv4) }
    ensures { ReadsFrame received (ethernet.bytes_of header ++ (ip.bytes_of inner (computes sent.ipv4) ++ payload.now) ++ padding.now) (ethernet.normal header) (packet (ip.normal inner) (other payload.now)) }
{}
