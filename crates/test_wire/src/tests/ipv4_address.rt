//! IPv4 addresses. `tests/data/calls/worked_addresses.call` has more examples.

use wire_addr::Ipv4Address;

/// Bytes of addresses, and the number of their bits.
const BITS: &[([u8; 4], u32)] = &[
    ([0, 0, 0, 0], 0),
    ([192, 168, 1, 2], 0xc0a8_0102),
    ([255, 255, 255, 255], 0xffff_ffff),
];

#[test]
fn converts_to_and_from_bits(rt: HostRuntime) {
    for (octets, bits) in BITS {
        assert!(rt;
            Ipv4Address::from_octets(*octets).to_bits() == *bits,
            "{bits}"
        );
        assert!(rt; Ipv4Address::from_bits(*bits).octets() == *octets, "{bits}");
    }
}
