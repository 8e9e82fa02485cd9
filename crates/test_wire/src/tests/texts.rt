//! Texts of addresses, blocks, endpoints and numbers. `tests/data/calls/worked_addresses.call` has more examples.

use ip_wire::EthernetProtocol;
use test_support::texts::prints;
use wire_addr::{
    EthernetAddress, HardwareAddress, IPV4_MULTICAST_ALL_ROUTERS, IPV4_MULTICAST_ALL_SYSTEMS,
    IPV6_LINK_LOCAL_ALL_MLDV2_ROUTERS, IPV6_LINK_LOCAL_ALL_NODES, IPV6_LINK_LOCAL_ALL_ROUTERS,
    IPV6_LINK_LOCAL_ALL_RPL_NODES, IpAddress, IpCidr, IpEndpoint, IpListenEndpoint, IpProtocol,
    IpVersion, Ipv4Address, Ipv4Cidr, Ipv6Address, Ipv6Cidr, MAX_HARDWARE_ADDRESS_LEN,
    RawHardwareAddress,
};
use wire_tcp_options::TcpSeqNumber;

/// What is printed.
#[derive(Clone, Copy)]
enum Shown {
    Address(IpAddress),
    Ipv4(Ipv4Address),
    Ipv6(Ipv6Address),
    Block6(Ipv6Cidr),
    Block(u8),
    Ethernet([u8; 6]),
    Hardware(HardwareAddress),
    Raw(&'static [u8]),
    Endpoint(IpEndpoint),
    Listen(IpListenEndpoint),
    EtherType(EthernetProtocol),
    Protocol(IpProtocol),
    Version(IpVersion),
    SeqNumber(i32),
}

/// Whether it prints as this text.
fn is_shown(shown: &Shown, text: &str) -> bool {
    match shown {
        Shown::Address(address) => prints(address, text),
        Shown::Ipv4(address) => prints(address, text),
        Shown::Ipv6(address) => prints(address, text),
        Shown::Block6(block) => prints(block, text),
        Shown::Block(len) => prints(
            &IpCidr::new(IpAddress::v4(192, 0, 2, 1), (*len).min(32)),
            text,
        ),
        Shown::Ethernet(octets) => prints(&EthernetAddress(*octets), text),
        Shown::Hardware(address) => prints(address, text),
        Shown::Raw(octets) => {
            let len = octets.len().min(MAX_HARDWARE_ADDRESS_LEN);
            prints(&RawHardwareAddress::from_bytes(&octets[..len]), text)
        }
        Shown::Endpoint(endpoint) => prints(endpoint, text),
        Shown::Listen(endpoint) => prints(endpoint, text),
        Shown::EtherType(name) => prints(name, text),
        Shown::Protocol(name) => prints(name, text),
        Shown::Version(version) => prints(version, text),
        Shown::SeqNumber(number) => prints(&TcpSeqNumber(*number), text),
    }
}

const SHOWN: [(Shown, &str); 34] = [
    (
        Shown::Address(IpAddress::Ipv6(Ipv6Address::LOCALHOST)),
        "::1",
    ),
    (Shown::Ipv4(Ipv4Address::UNSPECIFIED), "0.0.0.0"),
    (Shown::Ipv4(Ipv4Address::BROADCAST), "255.255.255.255"),
    (Shown::Ipv4(IPV4_MULTICAST_ALL_SYSTEMS), "224.0.0.1"),
    (Shown::Ipv4(IPV4_MULTICAST_ALL_ROUTERS), "224.0.0.2"),
    (Shown::Ipv6(Ipv6Address::UNSPECIFIED), "::"),
    (Shown::Ipv6(Ipv6Address::LOCALHOST), "::1"),
    (Shown::Ipv6(IPV6_LINK_LOCAL_ALL_NODES), "ff02::1"),
    (Shown::Ipv6(IPV6_LINK_LOCAL_ALL_ROUTERS), "ff02::2"),
    (Shown::Ipv6(IPV6_LINK_LOCAL_ALL_MLDV2_ROUTERS), "ff02::16"),
    (Shown::Ipv6(IPV6_LINK_LOCAL_ALL_RPL_NODES), "ff02::1a"),
    (Shown::Block6(Ipv6Cidr::LINK_LOCAL_PREFIX), "fe80::/10"),
    (
        Shown::Block6(Ipv6Cidr::SOLICITED_NODE_PREFIX),
        "ff02::1:ff00:0/104",
    ),
    (Shown::Block(24), "192.0.2.1/24"),
    (Shown::Ethernet([2, 0, 0, 0, 0, 1]), "02-00-00-00-00-01"),
    (Shown::Hardware(HardwareAddress::Ip), "no hardware addr"),
    (
        Shown::Hardware(HardwareAddress::Ethernet(EthernetAddress([2, 0, 0, 0, 0, 1]))),
        "02-00-00-00-00-01",
    ),
    (Shown::Raw(&[]), ""),
    (Shown::Raw(&[0x0a]), "0a"),
    (Shown::Raw(&[0x01, 0x00]), "01:00"),
    (Shown::Raw(&[0x02, 0, 0, 0, 0, 0x01]), "02:00:00:00:00:01"),
    (
        Shown::Raw(&[0xab, 0xcd, 0xef, 0x0a, 0xa0, 0xff]),
        "ab:cd:ef:0a:a0:ff",
    ),
    (
        Shown::Endpoint(IpEndpoint {
            addr: IpAddress::Ipv4(IPV4_MULTICAST_ALL_SYSTEMS),
            port: 80,
        }),
        "224.0.0.1:80",
    ),
    (
        Shown::Listen(IpListenEndpoint {
            addr: Some(IpAddress::Ipv4(IPV4_MULTICAST_ALL_SYSTEMS)),
            port: 80,
        }),
        "224.0.0.1:80",
    ),
    (
        Shown::Listen(IpListenEndpoint {
            addr: None,
            port: 80,
        }),
        "*:80",
    ),
    (Shown::EtherType(EthernetProtocol::Ipv4), "IPv4"),
    (Shown::EtherType(EthernetProtocol::Arp), "ARP"),
    (Shown::EtherType(EthernetProtocol::Ipv6), "IPv6"),
    (
        Shown::EtherType(EthernetProtocol::Unknown(0x88cc)),
        "0x88cc",
    ),
    (Shown::EtherType(EthernetProtocol::Unknown(10)), "0x000a"),
    (Shown::Protocol(IpProtocol::Unknown(3)), "0x03"),
    (Shown::Version(IpVersion::Ipv4), "IPv4"),
    (Shown::Version(IpVersion::Ipv6), "IPv6"),
    (Shown::SeqNumber(-1), "4294967295"),
];

#[test]
fn prints_values(rt: HostRuntime) {
    for (shown, text) in &SHOWN {
        assert!(rt; is_shown(shown, text), "{text}");
    }
}

#[test]
fn parses_bytes(rt: HostRuntime) {
    let (ipv4, ipv6) = (Ipv4Address::new(192, 0, 2, 1), Ipv6Address::LOCALHOST);
    let found = [
        Ipv4Address::parse_ascii(b"192.0.2.1") == Ok(ipv4),
        Ipv6Address::parse_ascii(b"::1") == Ok(ipv6),
        Ipv4Cidr::parse_ascii(b"192.0.2.1/24") == Ok(Ipv4Cidr::new(ipv4, 24)),
        Ipv6Cidr::parse_ascii(b"::1/128") == Ok(Ipv6Cidr::new(ipv6, 128)),
        Ipv4Cidr::parse_ascii(b"192.0.2.1/24\xff").is_err(),
    ];
    assert_eq!(rt; found, [true; 5]);
}
