//! Offsets of fields in an Ethernet frame (RFC 791, section 3.1; RFC 8200, sections 3 and 4.5), and in transport
//! headers (RFC 9293, section 3.1; RFC 768; RFC 792; RFC 4443, section 2.1).

use ip_wire::{ETHERNET_HEADER_LEN, IPV4_HEADER_LEN, IPV6_HEADER_LEN};

pub(crate) const IP_HEADER: usize = ETHERNET_HEADER_LEN;
/// The end of the byte with the version. IPv4 has its header length there, too.
pub(crate) const VERSION_END: usize = IP_HEADER + 1;
/// The end of the bytes with the DSCP.
pub(crate) const DSCP_END: usize = IP_HEADER + 2;

pub(crate) const IPV4_TOTAL_LEN: usize = IP_HEADER + 2;

pub(crate) const IPV4_HOP_LIMIT: usize = IP_HEADER + 8;

pub(crate) const IPV4_PROTOCOL: usize = IP_HEADER + 9;

pub(crate) const IPV4_CHECKSUM: usize = IP_HEADER + 10;

pub(crate) const IPV4_SRC: usize = IP_HEADER + 12;

pub(crate) const IPV4_DST: usize = IP_HEADER + 16;
/// The end of an IPv4 header without options.
pub(crate) const IPV4_END: usize = IP_HEADER + IPV4_HEADER_LEN;

pub(crate) const IPV6_PAYLOAD_LEN: usize = IP_HEADER + 4;

pub(crate) const IPV6_HOP_LIMIT: usize = IP_HEADER + 7;

pub(crate) const IPV6_SRC: usize = IP_HEADER + 8;

pub(crate) const IPV6_DST: usize = IP_HEADER + 24;

pub(crate) const IPV6_END: usize = IP_HEADER + IPV6_HEADER_LEN;

pub(crate) const TCP_DATA_OFFSET: usize = 12;

pub(crate) const TCP_CHECKSUM: usize = 16;

pub(crate) const UDP_LEN: usize = 4;

pub(crate) const UDP_CHECKSUM: usize = 6;
/// In ICMP and ICMPv6.
pub(crate) const ICMP_CHECKSUM: usize = 2;
