//! What the constants are. A clause names a constant that is a number or a plain struct; one whose type
//! has a Model is handed out, and the clause is on the result.

ghost use Rattle.std.specs.Prelude.{◌≡◌, ◌∷◌, [], None, replicate};
ghost use Rattle.net_base.specs.Checksum.{all_are};
ghost use Rattle.net_base.specs.declared.Checksum.TheVariants as checksum;
ghost use Rattle.wire_addr.specs.Class.{ipv6_block};
ghost use Rattle.wire_addr.specs.Bytes.{address_bytes};
ghost use Rattle.wire_tcp_options.specs.TcpSeq.{number};

use net_base::ChecksumCapabilities;
use wire_addr::{
    EthernetAddress, IPV4_MULTICAST_ALL_ROUTERS, IPV4_MULTICAST_ALL_SYSTEMS, IPV6_ADDR_SIZE,
    IPV6_LINK_LOCAL_ALL_MLDV2_ROUTERS, IPV6_LINK_LOCAL_ALL_NODES, IPV6_LINK_LOCAL_ALL_ROUTERS,
    IPV6_LINK_LOCAL_ALL_RPL_NODES, IpListenEndpoint, Ipv4Address, Ipv6Address, Ipv6Cidr,
    MAX_HARDWARE_ADDRESS_LEN,
};
use wire_ethernet::ETHERNET_HEADER_LEN;
use wire_ipv4::{IPV4_HEADER_LEN, IPV4_MAX_PAYLOAD_LEN, IPV4_MIN_MTU};
use wire_ipv6::{IPV6_HEADER_LEN, IPV6_MAX_PAYLOAD_LEN, IPV6_MIN_MTU};
use wire_tcp::{TCP_HEADER_LEN, TCP_MAX_HEADER_LEN};
use wire_tcp_options::{SACK_BLOCKS, TcpSeqNumber};
use wire_udp::{UDP_HEADER_LEN, UDP_MAX_PAYLOAD_LEN};

/// The lengths in bytes: of headers without options, of the longest payloads, of addresses, and of the
/// packet that every link of a version can carry. `SACK_BLOCKS` counts the ranges that a TCP header can hold.
pub fn constant_lengths()
    ensures ethernet { ETHERNET_HEADER_LEN ≡ 14 }
    ensures hardware_address { MAX_HARDWARE_ADDRESS_LEN ≡ 6 }
    ensures ipv4 { IPV4_HEADER_LEN ≡ 20 }
    ensures ipv4_payload { IPV4_MAX_PAYLOAD_LEN ≡ 65515 }
    ensures ipv4_mtu { IPV4_MIN_MTU ≡ 576 }
    ensures ipv6 { IPV6_HEADER_LEN ≡ 40 }
    ensures ipv6_payload { IPV6_MAX_PAYLOAD_LEN ≡ 65535 }
    ensures ipv6_address { IPV6_ADDR_SIZE ≡ 16 }
    ensures ipv6_mtu { IPV6_MIN_MTU ≡ 1280 }
    ensures tcp { TCP_HEADER_LEN ≡ 20 }
    ensures tcp_header { TCP_MAX_HEADER_LEN ≡ 60 }
    ensures tcp_sack_blocks { SACK_BLOCKS ≡ 4 }
    ensures udp { UDP_HEADER_LEN ≡ 8 }
    ensures udp_payload { UDP_MAX_PAYLOAD_LEN ≡ 65527 }
{}

/// The Ethernet address of all hosts.
pub fn constant_ethernet_address()
    ensures { EthernetAddress.BROADCAST.0 ≡ 0xff ∷ 0xff ∷ 0xff ∷ 0xff ∷ 0xff ∷ 0xff ∷ [] }
{}

/// The constants among the IPv4 addresses: 0.0.0.0, 255.255.255.255, 224.0.0.1, 224.0.0.2.
pub fn constant_ipv4_addresses() -> [Ipv4Address; 4]
    ensures { result ≡ (0 ∷ 0 ∷ 0 ∷ 0 ∷ [])
        ∷ (255 ∷ 255 ∷ 255 ∷ 255 ∷ [])
        ∷ (224 ∷ 0 ∷ 0 ∷ 1 ∷ [])
        ∷ (224 ∷ 0 ∷ 0 ∷ 2 ∷ [])
        ∷ [] }
{
    [
        Ipv4Address::UNSPECIFIED,
        Ipv4Address::BROADCAST,
        IPV4_MULTICAST_ALL_SYSTEMS,
        IPV4_MULTICAST_ALL_ROUTERS,
    ]
}

/// The constants among the IPv6 addresses: `::`, `::1`, `ff02::1`, `ff02::2`, `ff02::16`, `ff02::1a`.
pub fn constant_ipv6_addresses() -> [Ipv6Address; 6]
    ensures { result ≡ address_bytes (0 ∷ 0 ∷ 0 ∷ 0 ∷ 0 ∷ 0 ∷ 0 ∷ 0 ∷ [])
        ∷ address_bytes (0 ∷ 0 ∷ 0 ∷ 0 ∷ 0 ∷ 0 ∷ 0 ∷ 1 ∷ [])
        ∷ address_bytes (0xff02 ∷ 0 ∷ 0 ∷ 0 ∷ 0 ∷ 0 ∷ 0 ∷ 1 ∷ [])
        ∷ address_bytes (0xff02 ∷ 0 ∷ 0 ∷ 0 ∷ 0 ∷ 0 ∷ 0 ∷ 2 ∷ [])
        ∷ address_bytes (0xff02 ∷ 0 ∷ 0 ∷ 0 ∷ 0 ∷ 0 ∷ 0 ∷ 0x16 ∷ [])
        ∷ address_bytes (0xff02 ∷ 0 ∷ 0 ∷ 0 ∷ 0 ∷ 0 ∷ 0 ∷ 0x1a ∷ [])
        ∷ [] }
{
    [
        Ipv6Address::UNSPECIFIED,
        Ipv6Address::LOCALHOST,
        IPV6_LINK_LOCAL_ALL_NODES,
        IPV6_LINK_LOCAL_ALL_ROUTERS,
        IPV6_LINK_LOCAL_ALL_MLDV2_ROUTERS,
        IPV6_LINK_LOCAL_ALL_RPL_NODES,
    ]
}

/// The constants among the blocks: `fe80::/10`, `ff02::1:ff00:0/104`.
pub fn constant_blocks() -> [Ipv6Cidr; 2]
    ensures { result ≡ ipv6_block (0xfe80 ∷ 0 ∷ 0 ∷ 0 ∷ 0 ∷ 0 ∷ 0 ∷ 0 ∷ []) 10
        ∷ ipv6_block (0xff02 ∷ 0 ∷ 0 ∷ 0 ∷ 0 ∷ 1 ∷ 0xff00 ∷ 0 ∷ []) 104
        ∷ [] }
{
    [Ipv6Cidr::LINK_LOCAL_PREFIX, Ipv6Cidr::SOLICITED_NODE_PREFIX]
}

/// The default values: an Ethernet address of zeros, every checksum verified and computed, a listening
/// endpoint with port 0 for every address, and sequence number 0.
pub fn constant_defaults() -> (
    EthernetAddress,
    ChecksumCapabilities,
    IpListenEndpoint,
    TcpSeqNumber,
)
    ensures ethernet_address { result.0.0 ≡ replicate 6 0 }
    ensures checksums { result.1 ≡ all_are checksum.Both }
    ensures address { result.2.addr ≡ None }
    ensures port { result.2.port ≡ 0 }
    ensures seq_number { number result.3 ≡ 0 }
{
    (
        EthernetAddress::default(),
        ChecksumCapabilities::default(),
        IpListenEndpoint::default(),
        TcpSeqNumber::default(),
    )
}
