//! Shared by all layers: the error, the checksum capabilities and constants.

use ip_wire::{
    ETHERNET_HEADER_LEN, Error, IPV4_HEADER_LEN, IPV4_MAX_PAYLOAD_LEN, IPV4_MIN_MTU,
    IPV6_ADDR_SIZE, IPV6_HEADER_LEN, IPV6_MAX_PAYLOAD_LEN, IPV6_MIN_MTU, MAX_HARDWARE_ADDRESS_LEN,
    SACK_BLOCKS, TCP_HEADER_LEN, TCP_MAX_HEADER_LEN, UDP_HEADER_LEN, UDP_MAX_PAYLOAD_LEN,
};
use net_base::{Checksum, ChecksumCapabilities, Medium};
use std::error::Error as StdError;

/// The value of a type that is an error.
fn error<E: StdError>(value: E) -> E {
    value
}

#[test]
fn has_defaults_and_constants(rt: HostRuntime) {
    let (caps, ignored) = (
        ChecksumCapabilities::default(),
        ChecksumCapabilities::ignored(),
    );
    let found = [
        [caps.ipv4, caps.udp, caps.tcp, caps.icmpv4, caps.icmpv6] == [Checksum::Both; 5],
        [
            ignored.ipv4,
            ignored.udp,
            ignored.tcp,
            ignored.icmpv4,
            ignored.icmpv6,
        ] == [Checksum::None; 5],
        Checksum::default() == Checksum::Both,
        Medium::Ethernet != Medium::Ip,
        [IPV4_MIN_MTU, IPV6_MIN_MTU] == [576, 1280],
        error(Error) == Error,
    ];
    assert_eq!(rt; found, [true; 6]);
}

/// Lengths and the figures of IEEE 802.3, RFC 791 (section 3.1), RFC 8200 (section 3), RFC 4291 (section 2), RFC 9293
/// (section 3.1), RFC 2018 (section 3) and RFC 768.
const LENGTHS: [(usize, usize); 12] = [
    (ETHERNET_HEADER_LEN, 14),
    (MAX_HARDWARE_ADDRESS_LEN, 6),
    (IPV4_HEADER_LEN, 20),
    (IPV4_MAX_PAYLOAD_LEN, 65_515),
    (IPV6_HEADER_LEN, 40),
    (IPV6_MAX_PAYLOAD_LEN, 65_535),
    (IPV6_ADDR_SIZE, 16),
    (TCP_HEADER_LEN, 20),
    (TCP_MAX_HEADER_LEN, 60),
    (SACK_BLOCKS, 4),
    (UDP_HEADER_LEN, 8),
    (UDP_MAX_PAYLOAD_LEN, 65_527),
];

#[test]
fn has_the_lengths_of_the_standards(rt: HostRuntime) {
    for (len, want) in LENGTHS {
        assert!(rt; len == want, "{want}");
    }
}
