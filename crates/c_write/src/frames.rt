//! Whole frames.

ghost use Rattle.std.specs.Prelude.{◌≡◌, ◌≤◌, ◌+◌, ◌++◌, Some, drop, length};
ghost use Rattle.c_write.specs.Frames.{arp_frame, back_arp, back_ip, back_link, packet_link, reply_to, tcp_frame, tcp_frame_around, type_number, udp_frame, udp_frame_around};
ghost use Rattle.c_write.specs.Headers.{link_bytes};
ghost use Rattle.c_structs.specs.Written.{Fills};

use crate::arp::arp_value;
use crate::packets::{emit_tcp_packet, emit_udp_packet, wrap_tcp_packet, wrap_udp_packet};
use c_structs::{Arp, Ethernet, FrameFields, Ip, TcpOptions};
use ip_wire::{
    ETHERNET_HEADER_LEN, EthernetAddress, EthernetFrameMut, EthernetProtocol, EthernetRepr,
};

// The hop limit of a reply.
const HOP_LIMIT: u8 = 64;

// EtherTypes.
const IPV4: u16 = 0x0800;

const ARP: u16 = 0x0806;

const IPV6: u16 = 0x86dd;

/// Writes an Ethernet header of this type to the front of `out`.
#[inline(always)]
pub fn write_ethernet(header: &Ethernet, number: u16, out: &mut [u8])
    requires { 14 ≤ length out.old }
    ensures { out.new ≡ link_bytes header.now number ++ drop 14 out.old }
{
    let src = header.src;
    let dst = header.dst;
    let value = EthernetRepr {
        src_addr: EthernetAddress(src),
        dst_addr: EthernetAddress(dst),
        ethertype: EthernetProtocol::Unknown(number),
    };
    value.emit(&mut EthernetFrameMut::new_unchecked(out));
}

/// Writes the Ethernet header to the front of `out` and returns its length. `None` if it does not fit.
#[inline(always)]
pub fn emit_ethernet(header: &Ethernet, out: &mut [u8]) -> Option<usize>
    ensures { Fills (Some (link_bytes header.now header.now.ethertype)) out.old out.new result }
{
    if out.len() < ETHERNET_HEADER_LEN {
        return None;
    }
    write_ethernet(header, header.ethertype, out);
    Some(ETHERNET_HEADER_LEN)
}

// The header of the way back.
fn back_link(header: &Ethernet) -> Ethernet
    ensures { result ≡ back_link header.now }
{
    let src = header.dst;
    let dst = header.src;
    Ethernet {
        src,
        dst,
        ethertype: header.ethertype,
    }
}

// The header of a new packet that answers this one: only protocol and DSCP stay.
fn back_ip(header: &Ip) -> Ip
    ensures { result ≡ back_ip header.now }
{
    Ip {
        ident: 0,
        flow_label: 0,
        fragment_offset: 0,
        protocol: header.protocol,
        hop_limit: HOP_LIMIT,
        dscp: header.dscp,
        ecn: 0,
        more_fragments: 0,
        dont_fragment: 1,
    }
}

// The ARP packet of the way back.
fn back_arp(header: &Arp) -> Arp
    ensures { result ≡ back_arp header.now }
{
    let src_hardware = header.dst_hardware;
    let dst_hardware = header.src_hardware;
    Arp {
        operation: header.operation,
        src_hardware,
        dst_hardware,
    }
}

/// Turns a frame into its reply: the way back, by a new IP packet.
pub fn turn_around(fields: &mut FrameFields)
    ensures { fields.new ≡ reply_to fields.old }
{
    let src = fields.dst;
    fields.dst = fields.src;
    fields.src = src;
    fields.ethernet = back_link(&fields.ethernet);
    fields.arp = back_arp(&fields.arp);
    fields.ip = back_ip(&fields.ip);
}

/// Writes the Ethernet header before a packet, and returns its length.
#[inline(always)]
pub fn emit_link(fields: &FrameFields, out: &mut [u8]) -> usize
    requires { length out.old ≡ 14 }
    ensures header { out.new ≡ packet_link fields.now }
    ensures len { result ≡ 14 }
{
    let number = type_number(fields.src.addr.version);
    write_ethernet(&fields.ethernet, number, out);
    ETHERNET_HEADER_LEN
}

/// Writes a frame with a UDP packet and this payload, and returns its length. `None` if there is a failure or
/// no room; then `out` is unchanged.
pub fn emit_udp_frame(fields: &FrameFields, payload: &[u8], out: &mut [u8]) -> Option<usize>
    ensures { Fills (udp_frame fields.now payload.now) out.old out.new result }
{
    // Once they are read, the checker knows how long they are.
    let _hardware = (fields.ethernet.src[0], fields.ethernet.dst[0]);
    let (link, packet) = out.split_at_mut_checked(ETHERNET_HEADER_LEN)?;
    let len = emit_udp_packet(fields, payload, packet)?;
    Some(emit_link(fields, link) + len)
}

/// Writes a frame with a UDP packet around the payload in `out`, and returns its length. `None` if there is a failure or
/// no room; then `out` is unchanged.
pub fn wrap_udp_frame(fields: &FrameFields, payload_len: usize, out: &mut [u8]) -> Option<usize>
    ensures { Fills (udp_frame_around fields.now payload_len out.old) out.old out.new result }
{
    // Once they are read, the checker knows how long they are.
    let _hardware = (fields.ethernet.src[0], fields.ethernet.dst[0]);
    let (link, packet) = out.split_at_mut_checked(ETHERNET_HEADER_LEN)?;
    let len = wrap_udp_packet(fields, payload_len, packet)?;
    Some(emit_link(fields, link) + len)
}

/// Writes a frame with a TCP segment and this payload, and returns its length. `None` if there is a failure or
/// no room; then `out` is unchanged.
pub fn emit_tcp_frame(
    fields: &FrameFields,
    options: &TcpOptions,
    payload: &[u8],
    out: &mut [u8],
) -> Option<usize>
    ensures { Fills (tcp_frame fields.now options.now payload.now) out.old out.new result }
{
    // Once they are read, the checker knows how long they are.
    let _hardware = (fields.ethernet.src[0], fields.ethernet.dst[0]);
    let (link, packet) = out.split_at_mut_checked(ETHERNET_HEADER_LEN)?;
    let len = emit_tcp_packet(fields, options, payload, packet)?;
    Some(emit_link(fields, link) + len)
}

/// Writes a frame with a TCP segment around the payload in `out`, and returns its length. `None` if there is a failure or
/// no room; then `out` is unchanged.
pub fn wrap_tcp_frame(
    fields: &FrameFields,
    options: &TcpOptions,
    payload_len: usize,
    out: &mut [u8],
) -> Option<usize>
    ensures { Fills (tcp_frame_around fields.now options.now payload_len out.old) out.old out.new result }
{
    // Once they are read, the checker knows how long they are.
    let _hardware = (fields.ethernet.src[0], fields.ethernet.dst[0]);
    let (link, packet) = out.split_at_mut_checked(ETHERNET_HEADER_LEN)?;
    let len = wrap_tcp_packet(fields, options, payload_len, packet)?;
    Some(emit_link(fields, link) + len)
}

/// Writes a frame with an ARP packet, and returns its length. `None` if there is a failure or no room; then `out` is
/// unchanged.
pub fn emit_arp_frame(fields: &FrameFields, out: &mut [u8]) -> Option<usize>
    ensures { Fills (arp_frame fields.now) out.old out.new result }
{
    // Once they are read, the checker knows how long they are.
    let _hardware = (fields.ethernet.src[0], fields.ethernet.dst[0]);
    let value = arp_value(&fields.arp, &fields.src.addr, &fields.dst.addr)?;
    if out.len() < ETHERNET_HEADER_LEN {
        return None;
    }
    let (link, rest) = out.split_at_mut(ETHERNET_HEADER_LEN);
    match value.try_emit(rest) {
        Some(len) => {
            write_ethernet(&fields.ethernet, ARP, link);
            Some(ETHERNET_HEADER_LEN + len)
        }
        None => None,
    }
}

// The EtherType of a packet between addresses of this version.
#[inline(always)]
fn type_number(version: u16) -> u16
    ensures { result ≡ type_number version }
{
    if version == 4 { IPV4 } else { IPV6 }
}
