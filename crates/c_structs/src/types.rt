//! The structs of `include/ip_wire.h`.

use ip_wire::SACK_BLOCKS;

/// `struct lk_addr`: an IPv4 or IPv6 address.
#[repr(C)]
#[derive(Clone, Copy)]
pub struct Addr {
    /// Of IPv4 the first four; the others are 0.
    pub octets: [u8; 16],
    /// 4 or 6; 0 for no address.
    pub version: u16,
}

/// `struct lk_endpoint`: an address with a port.
#[repr(C)]
#[derive(Clone, Copy)]
pub struct Endpoint {
    pub addr: Addr,
    pub port: u16,
}

/// `struct lk_prefix`: a CIDR block.
#[repr(C)]
#[derive(Clone, Copy)]
pub struct Block {
    pub addr: Addr,
    /// At most 32 for IPv4, 128 for IPv6.
    pub prefix_len: u16,
}

/// `struct lk_ethernet`: an Ethernet header.
#[repr(C)]
#[derive(Clone, Copy)]
pub struct Ethernet {
    pub src: [u8; 6],
    pub dst: [u8; 6],
    pub ethertype: u16,
}

/// `struct lk_arp`: an ARP packet for Ethernet and IPv4, without its IPv4 addresses.
#[repr(C)]
#[derive(Clone, Copy)]
pub struct Arp {
    /// 1 for a request, 2 for a reply.
    pub operation: u16,
    pub src_hardware: [u8; 6],
    pub dst_hardware: [u8; 6],
}

/// `struct lk_ip`: an IPv4 or IPv6 header, without its addresses and lengths.
#[repr(C)]
#[derive(Clone, Copy)]
pub struct Ip {
    /// 16 bits in IPv4, 32 bits in the fragment header of IPv6.
    pub ident: u32,
    /// 20 bits, only in IPv6.
    pub flow_label: u32,
    /// In bytes, a multiple of 8.
    pub fragment_offset: u16,
    pub protocol: u8,
    pub hop_limit: u8,
    /// 6 bits; in IPv6 the upper ones of the traffic class.
    pub dscp: u8,
    /// 2 bits; in IPv6 the lower ones of the traffic class.
    pub ecn: u8,
    pub more_fragments: u8,
    /// Only in IPv4.
    pub dont_fragment: u8,
}

/// `struct lk_tcp`: a TCP header without its ports, checksum and options.
#[repr(C)]
#[derive(Clone, Copy)]
pub struct Tcp {
    pub seq_number: u32,
    pub ack_number: u32,
    pub window_len: u16,
    pub urgent_at: u16,
    /// FIN is 1, SYN 2, RST 4, PSH 8, ACK 16, URG 32, ECE 64, CWR 128.
    pub flags: u8,
    /// In bytes, 20 to 60; of a rejected header 0 to 60.
    pub header_len: u8,
}

/// `struct lk_sack_range`: received data, from the left edge up to, but without, the right one.
#[repr(C)]
#[derive(Clone, Copy)]
pub struct SackRange {
    pub left: u32,
    pub right: u32,
}

/// `struct lk_tcp_options`: the options of a TCP header. A value with a field `has_..` is present
/// if that field is not 0.
#[repr(C)]
#[derive(Clone, Copy)]
pub struct TcpOptions {
    /// The first `sack_range_count` of them are there.
    pub sack_ranges: [SackRange; SACK_BLOCKS],
    pub tsval: u32,
    pub tsecr: u32,
    pub max_seg_size: u16,
    pub window_scale: u8,
    pub sack_permitted: u8,
    pub sack_range_count: u8,
    pub has_max_seg_size: u8,
    pub has_window_scale: u8,
    pub has_timestamp: u8,
}

/// `struct lk_tcp_option`: where an option of a TCP header is.
#[repr(C)]
#[derive(Clone, Copy)]
pub struct TcpOptionPlace {
    /// Of its first byte in the header; 0 before the first option.
    pub offset: u8,
    /// 0 for the end mark, 1 for padding.
    pub kind: u8,
    /// Of the whole option, in bytes.
    pub len: u8,
}

/// `struct lk_ipv6_header`: where a header of an IPv6 packet is.
#[repr(C)]
#[derive(Clone, Copy)]
pub struct Ipv6HeaderPlace {
    /// Of its first byte in the packet.
    pub offset: u32,
    /// Of the whole header, in bytes; 0 before the first header.
    pub len: u16,
    /// Its own number: 41 for the IPv6 header.
    pub protocol: u8,
    /// The number of what follows it.
    pub next: u8,
}

/// `struct lk_icmp`: the header of an ICMP message, without its checksum.
#[repr(C)]
#[derive(Clone, Copy)]
pub struct Icmp {
    /// Bytes 4 to 7.
    pub word: u32,
    pub msg_type: u8,
    pub code: u8,
}

/// `struct lk_frame`: the values of a frame, and where its headers and its payload are.
#[repr(C)]
#[derive(Clone, Copy)]
pub struct FrameFields {
    /// Of the ARP or IP header, from the first byte of the frame.
    pub network_offset: usize,
    /// Of the UDP, TCP or ICMP header.
    pub transport_offset: usize,
    pub payload_offset: usize,
    pub payload_len: usize,
    /// How many bytes of the payload were captured.
    pub payload_captured: usize,
    pub src: Endpoint,
    pub dst: Endpoint,
    pub ip: Ip,
    pub tcp: Tcp,
    pub ethernet: Ethernet,
    pub arp: Arp,
    /// Why a header was rejected, or 0.
    pub reason: u8,
    /// 1 for ARP, 2 for IPv4, 3 for IPv6.
    pub network: u8,
    /// 1 for UDP, 2 for TCP, 3 for ICMP.
    pub transport: u8,
    /// The same of a rejected header whose fields are stored.
    pub rejected: u8,
    pub is_fragment: u8,
    pub ipv4_checksum: u8,
    pub transport_checksum: u8,
    /// The number of the transport header or of the payload, after IPv6 extension headers.
    pub protocol: u8,
    /// Zeros, after which `icmp` is aligned.
    pub unused: [u8; 4],
    pub icmp: Icmp,
}
