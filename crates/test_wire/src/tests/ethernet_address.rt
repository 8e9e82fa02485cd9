//! Ethernet addresses.

use wire_addr::EthernetAddress;

/// Addresses, with their EUI-64 and whether each is unicast, multicast, locally administered and broadcast.
pub(super) const ADDRESSES: &[([u8; 6], [u8; 8], [bool; 4])] = &[
    (
        [0x02, 0, 0, 0, 0, 0x01],
        [0, 0, 0, 0xff, 0xfe, 0, 0, 0x01],
        [true, false, true, false],
    ),
    (
        [0x34, 0x56, 0x78, 0x9a, 0xbc, 0xde],
        [0x36, 0x56, 0x78, 0xff, 0xfe, 0x9a, 0xbc, 0xde],
        [true, false, false, false],
    ),
    (
        [0xaa, 0xbb, 0xcc, 0xdd, 0xee, 0xff],
        [0xa8, 0xbb, 0xcc, 0xff, 0xfe, 0xdd, 0xee, 0xff],
        [true, false, true, false],
    ),
    (
        [0xfe, 0xff, 0xff, 0xff, 0xff, 0xff],
        [0xfc, 0xff, 0xff, 0xff, 0xfe, 0xff, 0xff, 0xff],
        [true, false, true, false],
    ),
    (
        [0x01, 0, 0x5e, 0, 0, 0x01],
        [0x03, 0, 0x5e, 0xff, 0xfe, 0, 0, 0x01],
        [false, true, false, false],
    ),
    (
        [0x33, 0x33, 0, 0, 0, 0x01],
        [0x31, 0x33, 0, 0xff, 0xfe, 0, 0, 0x01],
        [false, true, true, false],
    ),
    (
        [0xff, 0xff, 0xff, 0xff, 0xff, 0xfe],
        [0xfd, 0xff, 0xff, 0xff, 0xfe, 0xff, 0xff, 0xfe],
        [false, true, true, false],
    ),
    (
        [0xff; 6],
        [0xfd, 0xff, 0xff, 0xff, 0xfe, 0xff, 0xff, 0xff],
        [false, true, true, true],
    ),
];

#[test]
fn has_classes_and_an_eui_64(rt: HostRuntime) {
    for (octets, eui_64, classes) in ADDRESSES {
        let address = EthernetAddress::from_bytes(octets);
        let found = [
            address.is_unicast(),
            address.is_multicast(),
            address.is_local(),
            address.is_broadcast(),
        ];
        let has_bytes = address.as_bytes() == octets.as_slice();
        let has_eui_64 = address.as_eui_64() == Some(*eui_64);
        assert!(rt; found == *classes && has_bytes && has_eui_64, "{octets:?}");
    }
}
