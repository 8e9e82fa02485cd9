//! Hardware addresses by their medium.

use super::ethernet_address::ADDRESSES;
use net_base::Medium;
use wire_addr::{EthernetAddress, HardwareAddress};

#[test]
fn answers_as_its_ethernet_address(rt: HostRuntime) {
    for (octets, eui_64, classes) in ADDRESSES {
        let address = HardwareAddress::from(EthernetAddress(*octets));
        let found = [address.is_unicast(), address.is_broadcast()];
        let is_ethernet = address.ethernet_or_panic().as_bytes() == octets.as_slice()
            && address.as_bytes() == octets.as_slice()
            && address.medium() == Medium::Ethernet;
        let has_eui_64 = address.as_eui_64() == Some(*eui_64);
        assert!(rt;
            found == [classes[0], classes[3]] && is_ethernet && has_eui_64,
            "{octets:?}"
        );
    }
    let none = HardwareAddress::Ip;
    assert!(rt; none.medium() == Medium::Ip && none.as_eui_64().is_none());
    assert!(rt; EthernetAddress::default() == EthernetAddress([0; 6]));
    assert!(rt; EthernetAddress::BROADCAST == EthernetAddress([0xff; 6]));
}
