//! Hardware addresses.

ghost use Rattle.std.specs.Prelude.{◌≡◌, IfSome, Ok, None};

use ip_wire::{EthernetAddress, HardwareAddress, RawHardwareAddress, Result};

/// The modified EUI-64 has ff and fe in its middle, and the U/L bit inverted (RFC 4291, appendix A).
#[tactic(auto, using(crate::proofs::Octets::xor_local, crate::proofs::Octets::middle_of_six))]
pub fn eui_64_of_octets(address: EthernetAddress) -> (Option<[u8; 8]>, Option<[u8; 8]>)
    ensures { result.0 ≡ result.1 }
{
    let [a, b, c, d, e, f] = address.0;
    (
        address.as_eui_64(),
        Some([a ^ 0x02, b, c, 0xff, 0xfe, d, e, f]),
    )
}

/// Two bits of the first byte are the I/G and the U/L bit (IEEE 802.3, 3.2.3).
pub fn bits_of_ethernet(address: EthernetAddress) -> ([bool; 2], [bool; 2])
    ensures { result.0 ≡ result.1 }
{
    let first = address.0[0];
    (
        [address.is_multicast(), address.is_local()],
        [first % 2 == 1, first / 2 % 2 == 1],
    )
}

/// A broadcast address has 48 ones. A unicast address is neither broadcast nor multicast.
pub fn classes_of_ethernet(address: EthernetAddress) -> ([bool; 2], [bool; 2])
    ensures { result.0 ≡ result.1 }
{
    let broadcast = address == EthernetAddress([0xff; 6]);
    (
        [address.is_broadcast(), address.is_unicast()],
        [broadcast, !broadcast && !address.is_multicast()],
    )
}

/// A hardware address of Ethernet gives the Ethernet address back.
pub fn hardware_then_ethernet(ethernet: EthernetAddress) -> EthernetAddress
    ensures { result ≡ ethernet }
{
    HardwareAddress::from(ethernet).ethernet_or_panic()
}

/// A hardware address of Ethernet has the classes of the Ethernet address.
pub fn classes_of_hardware(ethernet: EthernetAddress) -> ([bool; 2], [bool; 2])
    ensures { result.0 ≡ result.1 }
{
    let hardware = HardwareAddress::from(ethernet);
    (
        [hardware.is_unicast(), hardware.is_broadcast()],
        [ethernet.is_unicast(), ethernet.is_broadcast()],
    )
}

/// A hardware address of Ethernet has the modified EUI-64 of the Ethernet address.
pub fn eui_64_of_hardware(ethernet: EthernetAddress) -> (Option<[u8; 8]>, Option<[u8; 8]>)
    ensures { result.0 ≡ result.1 }
{
    (
        HardwareAddress::from(ethernet).as_eui_64(),
        ethernet.as_eui_64(),
    )
}

/// A hardware address of another medium has neither bytes nor an EUI-64.
pub fn octets_of_no_hardware() -> (Option<RawHardwareAddress>, Option<[u8; 8]>)
    ensures raw { result.0 ≡ None }
    ensures eui_64 { result.1 ≡ None }
{
    let hardware = HardwareAddress::Ip;
    (
        RawHardwareAddress::from_hardware(hardware),
        hardware.as_eui_64(),
    )
}

/// The bytes of a hardware address of Ethernet are those of the Ethernet address.
pub fn raw_of_hardware(
    ethernet: EthernetAddress,
) -> (Option<RawHardwareAddress>, Option<RawHardwareAddress>)
    ensures { result.0 ≡ result.1 }
{
    (
        RawHardwareAddress::from_hardware(HardwareAddress::from(ethernet)),
        Some(RawHardwareAddress::from_bytes(ethernet.as_bytes())),
    )
}

/// The bytes of a hardware address parse as this address on its medium.
pub fn raw_then_hardware(hardware: HardwareAddress) -> Option<Result<HardwareAddress>>
    ensures { IfSome result (λ parsed. parsed ≡ Ok hardware) }
{
    match RawHardwareAddress::from_hardware(hardware) {
        Some(raw) => Some(raw.parse(hardware.medium())),
        None => None,
    }
}
