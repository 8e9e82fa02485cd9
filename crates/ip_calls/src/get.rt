//! The values of getters.

use crate::operands::{NOTHING, Operands};
use crate::text::push_all;
use ip_wire::{
    ArpPacket, EthernetFrame, IPV4_HEADER_LEN, IPV6_HEADER_LEN, Ipv4Packet, Ipv6FragmentHeader,
    Ipv6Packet, TCP_HEADER_LEN, TcpPacket, UDP_HEADER_LEN, UdpPacket,
};
use std::alloc::{AllocError, Global};

/// What the getters of a view return, in the order of the fields.
pub fn answer(alloc: Global, operands: &mut Operands<'_>) -> Result<String, AllocError> {
    let view = operands.word();
    let octets = operands.octets(alloc)?;
    let bytes = octets.as_slice();
    let mut text = String::new(alloc);
    match view {
        "eth" => ethernet(bytes, &mut text),
        "arp" => arp(alloc, bytes, &mut text),
        "ipv4" => ipv4(bytes, &mut text),
        "ipv6" => ipv6(bytes, &mut text),
        "frag" => fragment(bytes, &mut text),
        "udp" => udp(bytes, &mut text),
        "tcp" => tcp(bytes, &mut text),
        _ => Ok(()),
    }?;
    if text.is_empty() {
        operands.reject();
    }
    Ok(text)
}

// Each of these appends the values of one view, or nothing if the bytes do not hold its header.

fn ethernet(bytes: &[u8], text: &mut String) -> Result<(), AllocError> {
    let Ok(frame) = EthernetFrame::new_checked(bytes) else {
        return Ok(());
    };
    push_all(&[frame.dst_addr(), frame.src_addr()], text)?;
    push_all(&[frame.ethertype().number()], text)
}

fn arp(alloc: Global, bytes: &[u8], text: &mut String) -> Result<(), AllocError> {
    let Ok(packet) = ArpPacket::new_checked(bytes) else {
        return Ok(());
    };
    let numbers = [
        packet.hardware_type().number(),
        packet.protocol_type().number(),
        packet.hardware_len().into(),
        packet.protocol_len().into(),
        packet.operation().number(),
    ];
    push_all(&numbers, text)?;
    for address in [
        packet.source_hardware_addr(),
        packet.source_protocol_addr(),
        packet.target_hardware_addr(),
        packet.target_protocol_addr(),
    ] {
        let digits = hex::encode(alloc, address)?;
        let word = if address.is_empty() {
            NOTHING
        } else {
            digits.as_str()
        };
        push_all(&[word], text)?;
    }
    Ok(())
}

fn ipv4(bytes: &[u8], text: &mut String) -> Result<(), AllocError> {
    if bytes.len() < IPV4_HEADER_LEN {
        return Ok(());
    }
    let packet = Ipv4Packet::new_unchecked(bytes);
    let numbers = [
        packet.version().into(),
        packet.header_len().into(),
        packet.dscp().into(),
        packet.ecn().into(),
        packet.total_len(),
        packet.ident(),
    ];
    push_all(&numbers, text)?;
    push_all(&[packet.dont_frag(), packet.more_frags()], text)?;
    let numbers = [
        packet.frag_offset(),
        packet.hop_limit().into(),
        packet.next_header().number().into(),
        packet.checksum(),
    ];
    push_all(&numbers, text)?;
    push_all(&[packet.src_addr(), packet.dst_addr()], text)
}

fn ipv6(bytes: &[u8], text: &mut String) -> Result<(), AllocError> {
    if bytes.len() < IPV6_HEADER_LEN {
        return Ok(());
    }
    let packet = Ipv6Packet::new_unchecked(bytes);
    let numbers = [
        packet.version().into(),
        packet.traffic_class().into(),
        packet.flow_label(),
        packet.payload_len().into(),
        packet.next_header().number().into(),
        packet.hop_limit().into(),
    ];
    push_all(&numbers, text)?;
    push_all(&[packet.src_addr(), packet.dst_addr()], text)
}

fn fragment(bytes: &[u8], text: &mut String) -> Result<(), AllocError> {
    let Ok(header) = Ipv6FragmentHeader::new_checked(bytes) else {
        return Ok(());
    };
    push_all(&[header.frag_offset()], text)?;
    push_all(&[header.more_frags()], text)?;
    push_all(&[header.ident()], text)
}

fn udp(bytes: &[u8], text: &mut String) -> Result<(), AllocError> {
    if bytes.len() < UDP_HEADER_LEN {
        return Ok(());
    }
    let packet = UdpPacket::new_unchecked(bytes);
    let numbers = [
        packet.src_port(),
        packet.dst_port(),
        packet.len(),
        packet.checksum(),
    ];
    push_all(&numbers, text)
}

fn tcp(bytes: &[u8], text: &mut String) -> Result<(), AllocError> {
    if bytes.len() < TCP_HEADER_LEN {
        return Ok(());
    }
    let packet = TcpPacket::new_unchecked(bytes);
    push_all(&[packet.src_port(), packet.dst_port()], text)?;
    push_all(&[packet.seq_number(), packet.ack_number()], text)?;
    push_all(&[packet.header_len()], text)?;
    let flags = [
        packet.ns(),
        packet.cwr(),
        packet.ece(),
        packet.urg(),
        packet.ack(),
        packet.psh(),
        packet.rst(),
        packet.syn(),
        packet.fin(),
    ];
    push_all(&flags, text)?;
    let numbers = [packet.window_len(), packet.checksum(), packet.urgent_at()];
    push_all(&numbers, text)
}
