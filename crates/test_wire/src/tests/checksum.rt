//! Sums of words, and pseudo-headers.

use super::packets::UDP;
use ip_wire::{IpAddress, IpProtocol, Ipv4Address, Ipv6Address, checksum};

/// Words, and their sum.
const SUMS: &[(&[u16], u16)] = &[
    (&[], 0),
    (&[0, 0], 0),
    (&[0xffff, 0xffff], 0xffff),
    (&[0xffff, 1], 1),
    (&[0xc0a8, 0x0101, 0xc0a8, 0x0102, 0x0011, 0x000c], 0x8371),
];

#[test]
fn combines_sums(rt: HostRuntime) {
    for (words, sum) in SUMS {
        assert!(rt; checksum::combine(words) == *sum, "{words:?}");
    }
}

#[test]
fn sums_pseudo_headers(rt: HostRuntime) {
    let v4_src = Ipv4Address::new(192, 168, 1, 1);
    let v4_dst = Ipv4Address::new(192, 168, 1, 2);
    let (src, dst) = (IpAddress::Ipv4(v4_src), IpAddress::Ipv4(v4_dst));
    let v6_src = Ipv6Address::new(0xfe80, 0, 0, 0, 0, 0, 0, 1);
    let v6_dst = Ipv6Address::new(0xff02, 0, 0, 0, 0, 0, 0, 1);
    let v6_host = Ipv6Address::new(0xfe80, 0, 0, 0, 0, 0, 0, 2);
    let (src_ipv6, dst_ipv6) = (IpAddress::Ipv6(v6_src), IpAddress::Ipv6(v6_dst));
    let zeros = [0; 0x1_000c];
    let sums = [
        checksum::pseudo_header(&src, &dst, IpProtocol::Udp, 12),
        checksum::pseudo_header_v4(&v4_src, &v4_dst, IpProtocol::Udp, 12),
        // The low 16 bits of a length count.
        checksum::pseudo_header(&src, &dst, IpProtocol::Udp, 0x1_000c),
        checksum::packet(src, dst, IpProtocol::Udp, &zeros[..12]),
        checksum::packet(src, dst, IpProtocol::Udp, &zeros),
        checksum::packet(src, dst, IpProtocol::Udp, &UDP),
        checksum::pseudo_header(&src_ipv6, &dst_ipv6, IpProtocol::Udp, 12),
        checksum::pseudo_header_v6(&v6_src, &v6_dst, IpProtocol::Udp, 12),
        // fe80 + 1 + fe80 + 2 + 11 + c is 1fd20.
        checksum::pseudo_header_v6(&v6_src, &v6_host, IpProtocol::Udp, 12),
    ];
    let want = [
        0x8371, 0x8371, 0x8371, 0x8371, 0x8371, 0xffff, 0xfda2, 0xfda2, 0xfd21,
    ];
    assert_eq!(rt; sums, want);
}
