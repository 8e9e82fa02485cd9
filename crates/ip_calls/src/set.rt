//! Calls of setters.

ghost use Rattle.std.specs.Prelude.{◌≤◌, length};
ghost use Rattle.ip_wire.specs.Arp as arp;
ghost use Rattle.ip_wire.specs.Ipv4 as ipv4;
ghost use Rattle.ip_wire.specs.Tcp as tcp;

use crate::operands::Operands;
use ip_wire::{
    ArpPacketMut, ETHERNET_HEADER_LEN, EthernetFrameMut, IPV4_HEADER_LEN, IPV6_HEADER_LEN,
    Ipv4PacketMut, Ipv6FragmentHeaderMut, Ipv6PacketMut, TCP_HEADER_LEN, TcpPacketMut,
    UDP_HEADER_LEN, UdpPacketMut,
};
use std::alloc::{AllocError, Global};

/// The bytes after a call of a setter. They have to hold the header of the view.
pub fn answer(alloc: Global, operands: &mut Operands<'_>) -> Result<String, AllocError> {
    let (view, call, octets) = (operands.word(), operands.word(), operands.last());
    let mut octets = operands.bytes_of(alloc, octets)?;
    let bytes = octets.as_mut_slice();
    match view {
        "eth" => ethernet(call, operands, bytes),
        "arp" => arp(alloc, call, operands, bytes)?,
        "ipv4" => ipv4(call, operands, bytes),
        "ipv6" => ipv6(call, operands, bytes),
        "frag" => fragment(call, operands, bytes),
        "udp" => udp(call, operands, bytes),
        "tcp" => tcp(call, operands, bytes),
        _ => operands.reject(),
    }
    hex::encode(alloc, octets.as_slice())
}

fn ethernet(call: &str, operands: &mut Operands<'_>, bytes: &mut [u8]) {
    if bytes.len() < ETHERNET_HEADER_LEN {
        return operands.reject();
    }
    let mut frame = EthernetFrameMut::new_unchecked(bytes);
    match call {
        "set_dst_addr" => frame.set_dst_addr(operands.ethernet()),
        "set_src_addr" => frame.set_src_addr(operands.ethernet()),
        "set_ethertype" => frame.set_ethertype(operands.number::<u16>().into()),
        _ => operands.reject(),
    }
}

fn arp(
    alloc: Global,
    call: &str,
    operands: &mut Operands<'_>,
    bytes: &mut [u8],
) -> Result<(), AllocError> {
    if bytes.len() < 8 {
        operands.reject();
        return Ok(());
    }
    let mut packet = ArpPacketMut::new_unchecked(bytes);
    match call {
        "set_hardware_type" => packet.set_hardware_type(operands.number::<u16>().into()),
        "set_protocol_type" => packet.set_protocol_type(operands.number::<u16>().into()),
        "set_hardware_len" => packet.set_hardware_len(operands.number()),
        "set_protocol_len" => packet.set_protocol_len(operands.number()),
        "set_operation" => packet.set_operation(operands.number::<u16>().into()),
        _ => {
            let address = operands.octets(alloc)?;
            arp_address(call, address.as_slice(), operands, &mut packet)
        }
    }
    Ok(())
}

// Writes an address, if it has the length that the packet gives, and the packet is whole.
fn arp_address(
    call: &str,
    address: &[u8],
    operands: &mut Operands<'_>,
    packet: &mut ArpPacketMut<'_>,
)
    requires { 8 ≤ length (arp.packet_bytes_mut packet.old) }
{
    if packet.check_len().is_err() {
        return operands.reject();
    }
    let is_hardware = address.len() == usize::from(packet.hardware_len());
    let is_protocol = address.len() == usize::from(packet.protocol_len());
    match call {
        "set_source_hardware_addr" if is_hardware => packet.set_source_hardware_addr(address),
        "set_source_protocol_addr" if is_protocol => packet.set_source_protocol_addr(address),
        "set_target_hardware_addr" if is_hardware => packet.set_target_hardware_addr(address),
        "set_target_protocol_addr" if is_protocol => packet.set_target_protocol_addr(address),
        _ => operands.reject(),
    }
}

fn ipv4(call: &str, operands: &mut Operands<'_>, bytes: &mut [u8]) {
    if bytes.len() < IPV4_HEADER_LEN {
        return operands.reject();
    }
    let mut packet = Ipv4PacketMut::new_unchecked(bytes);
    match call {
        "set_version" => packet.set_version(operands.number()),
        "set_header_len" => packet.set_header_len(operands.number()),
        "set_dscp" => packet.set_dscp(operands.number()),
        "set_ecn" => packet.set_ecn(operands.number()),
        "set_total_len" => packet.set_total_len(operands.number()),
        "set_hop_limit" => packet.set_hop_limit(operands.number()),
        "set_next_header" => packet.set_next_header(operands.number::<u8>().into()),
        "set_src_addr" => packet.set_src_addr(operands.ipv4()),
        "set_dst_addr" => packet.set_dst_addr(operands.ipv4()),
        _ => ipv4_fragment(call, operands, &mut packet),
    }
}

// Writes a field of the fragmentation, or a checksum.
fn ipv4_fragment(call: &str, operands: &mut Operands<'_>, packet: &mut Ipv4PacketMut<'_>)
    requires { 20 ≤ length (ipv4.packet_bytes_mut packet.old) }
{
    let is_whole = usize::from(packet.header_len()) <= packet.as_bytes().len();
    match call {
        "set_ident" => packet.set_ident(operands.number()),
        "set_dont_frag" => packet.set_dont_frag(operands.flag()),
        "set_more_frags" => packet.set_more_frags(operands.flag()),
        "set_frag_offset" => packet.set_frag_offset(operands.number()),
        "clear_flags" => packet.clear_flags(),
        "set_checksum" => packet.set_checksum(operands.number()),
        "fill_checksum" if is_whole => packet.fill_checksum(),
        _ => ipv4_update(call, operands, packet),
    }
}

fn ipv4_update(call: &str, operands: &mut Operands<'_>, packet: &mut Ipv4PacketMut<'_>)
    requires { 20 ≤ length (ipv4.packet_bytes_mut packet.old) }
{
    match call {
        "update_dscp" => packet.update_dscp(operands.number()),
        "update_ecn" => packet.update_ecn(operands.number()),
        "update_hop_limit" => packet.update_hop_limit(operands.number()),
        "update_src_addr" => packet.update_src_addr(operands.ipv4()),
        "update_dst_addr" => packet.update_dst_addr(operands.ipv4()),
        "update_checksum" => packet.update_checksum(operands.number(), operands.number()),
        _ => operands.reject(),
    }
}

fn ipv6(call: &str, operands: &mut Operands<'_>, bytes: &mut [u8]) {
    if bytes.len() < IPV6_HEADER_LEN {
        return operands.reject();
    }
    let mut packet = Ipv6PacketMut::new_unchecked(bytes);
    match call {
        "set_version" => packet.set_version(operands.number()),
        "set_traffic_class" => packet.set_traffic_class(operands.number()),
        "set_flow_label" => packet.set_flow_label(operands.number()),
        "set_payload_len" => packet.set_payload_len(operands.number()),
        "set_next_header" => packet.set_next_header(operands.number::<u8>().into()),
        "set_hop_limit" => packet.set_hop_limit(operands.number()),
        "set_src_addr" => packet.set_src_addr(operands.ipv6()),
        "set_dst_addr" => packet.set_dst_addr(operands.ipv6()),
        _ => operands.reject(),
    }
}

fn fragment(call: &str, operands: &mut Operands<'_>, bytes: &mut [u8]) {
    if bytes.len() < 6 {
        return operands.reject();
    }
    let mut header = Ipv6FragmentHeaderMut::new_unchecked(bytes);
    match call {
        "set_frag_offset" => header.set_frag_offset(operands.number()),
        "set_more_frags" => header.set_more_frags(operands.flag()),
        "set_ident" => header.set_ident(operands.number()),
        "clear_reserved" => header.clear_reserved(),
        _ => operands.reject(),
    }
}

fn udp(call: &str, operands: &mut Operands<'_>, bytes: &mut [u8]) {
    if bytes.len() < UDP_HEADER_LEN {
        return operands.reject();
    }
    let mut packet = UdpPacketMut::new_unchecked(bytes);
    let is_whole = usize::from(packet.len()) <= packet.as_bytes().len();
    match call {
        "set_src_port" => packet.set_src_port(operands.number()),
        "set_dst_port" => packet.set_dst_port(operands.number()),
        "set_len" => packet.set_len(operands.number()),
        "set_checksum" => packet.set_checksum(operands.number()),
        "fill_checksum" if is_whole => {
            let (src_addr, dst_addr) = operands.addresses();
            packet.fill_checksum(&src_addr, &dst_addr)
        }
        "update_src_port" => packet.update_src_port(operands.number()),
        "update_dst_port" => packet.update_dst_port(operands.number()),
        "update_address" => {
            let (old, new) = operands.addresses();
            packet.update_address(&old, &new)
        }
        "update_checksum" => packet.update_checksum(operands.number(), operands.number()),
        _ => operands.reject(),
    }
}

fn tcp(call: &str, operands: &mut Operands<'_>, bytes: &mut [u8]) {
    if bytes.len() < TCP_HEADER_LEN {
        return operands.reject();
    }
    let mut packet = TcpPacketMut::new_unchecked(bytes);
    match call {
        "set_src_port" => packet.set_src_port(operands.number()),
        "set_dst_port" => packet.set_dst_port(operands.number()),
        "set_seq_number" => packet.set_seq_number(operands.seq_number()),
        "set_ack_number" => packet.set_ack_number(operands.seq_number()),
        "set_header_len" => packet.set_header_len(operands.number()),
        "set_window_len" => packet.set_window_len(operands.number()),
        "set_urgent_at" => packet.set_urgent_at(operands.number()),
        "clear_flags" => packet.clear_flags(),
        _ => tcp_checksum(call, operands, &mut packet),
    }
}

// Writes or updates the checksum, or a flag.
fn tcp_checksum(call: &str, operands: &mut Operands<'_>, packet: &mut TcpPacketMut<'_>)
    requires { 20 ≤ length (tcp.packet_bytes_mut packet.old) }
{
    let is_whole = packet.check_len().is_ok();
    match call {
        "set_checksum" => packet.set_checksum(operands.number()),
        "fill_checksum" => {
            let (src_addr, dst_addr) = operands.addresses();
            packet.fill_checksum(&src_addr, &dst_addr)
        }
        "update_src_port" => packet.update_src_port(operands.number()),
        "update_dst_port" => packet.update_dst_port(operands.number()),
        "update_window_len" => packet.update_window_len(operands.number()),
        "update_max_seg_size" if is_whole => {
            packet.update_max_seg_size(operands.number());
        }
        "update_address" => {
            let (old, new) = operands.addresses();
            packet.update_address(&old, &new)
        }
        "update_checksum" => packet.update_checksum(operands.number(), operands.number()),
        _ => tcp_flag(call, operands, packet),
    }
}

fn tcp_flag(call: &str, operands: &mut Operands<'_>, packet: &mut TcpPacketMut<'_>)
    requires { 20 ≤ length (tcp.packet_bytes_mut packet.old) }
{
    let value = operands.flag();
    match call {
        "set_ns" => packet.set_ns(value),
        "set_cwr" => packet.set_cwr(value),
        "set_ece" => packet.set_ece(value),
        "set_urg" => packet.set_urg(value),
        "set_ack" => packet.set_ack(value),
        "set_psh" => packet.set_psh(value),
        "set_rst" => packet.set_rst(value),
        "set_syn" => packet.set_syn(value),
        "set_fin" => packet.set_fin(value),
        _ => operands.reject(),
    }
}
