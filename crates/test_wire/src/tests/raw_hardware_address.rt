//! Hardware addresses as bytes of a packet.

use net_base::Medium;
use wire_addr::{EthernetAddress, HardwareAddress, MAX_HARDWARE_ADDRESS_LEN, RawHardwareAddress};

/// Bytes of addresses.
const ADDRESSES: &[&[u8]] = &[
    &[],
    &[0x0a],
    &[0x01, 0x00],
    &[0x01, 0x00, 0x00],
    &[1; 5],
    &[0; 6],
    &[0x02, 0, 0, 0, 0, 0x01],
    &[0xab, 0xcd, 0xef, 0x0a, 0xa0, 0xff],
];

#[test]
fn keeps_bytes(rt: HostRuntime) {
    for octets in ADDRESSES {
        let len = octets.len().min(MAX_HARDWARE_ADDRESS_LEN);
        let address = RawHardwareAddress::from_bytes(&octets[..len]);
        let is_empty = address.is_empty() == octets.is_empty();
        let has_len = is_empty && address.len() == octets.len();
        assert!(rt; has_len && address.as_bytes() == *octets, "{octets:?}");
    }
}

#[test]
fn parses_six_bytes_on_ethernet(rt: HostRuntime) {
    for octets in ADDRESSES {
        let len = octets.len().min(MAX_HARDWARE_ADDRESS_LEN);
        let address = RawHardwareAddress::from_bytes(&octets[..len]);
        let is_parsed = address.parse(Medium::Ethernet).is_ok() == (octets.len() == 6);
        assert!(rt;
            is_parsed && address.parse(Medium::Ip).is_err(),
            "{octets:?}"
        );
    }
}

#[test]
fn is_equal_by_bytes(rt: HostRuntime) {
    let other = RawHardwareAddress::from_bytes(&[0x01, 0x00]);
    for octets in ADDRESSES {
        let len = octets.len().min(MAX_HARDWARE_ADDRESS_LEN);
        let is_equal = RawHardwareAddress::from_bytes(&octets[..len]) == other;
        assert!(rt;
            is_equal == (*octets == [0x01, 0x00].as_slice()),
            "{octets:?}"
        );
    }
}

#[test]
fn converts_from_and_to_an_address(rt: HostRuntime) {
    let ethernet = EthernetAddress([0x02, 0x00, 0x00, 0x00, 0x00, 0x01]);
    let address = RawHardwareAddress::from(ethernet);
    let hardware = HardwareAddress::Ethernet(ethernet);
    let found = [
        address.as_bytes() == ethernet.as_bytes(),
        address.parse(Medium::Ethernet) == Ok(hardware),
        RawHardwareAddress::from_hardware(hardware) == Some(address),
        RawHardwareAddress::from_hardware(HardwareAddress::Ip).is_none(),
    ];
    assert_eq!(rt; found, [true; 4]);
}
