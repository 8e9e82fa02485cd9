//! ARP packets. `tests/data/calls/worked_headers.call` has more examples.

use super::packets::{ARP, SHORT_ARP};
use super::pretty_print::Shown;
use super::values::{Emitted, emit};
use super::views::Format;
use ip_wire::{ArpHardware, ArpOperation, ArpPacket};
use test_support::bytes::{change, has_front};

/// Texts of packets and values.
pub(super) const SHOWN: &[(Shown, &str)] = &[
    (
        Shown::Arp(&ARP),
        "ARP type=Ethernet+IPv4 src=11-12-13-14-15-16/33.34.35.36 tgt=31-32-33-34-35-36/65.66.67.68 op=Request",
    ),
    (
        Shown::Arp(&SHORT_ARP),
        "ARP (unrecognized) htype=Ethernet ptype=Ipv6 hlen=1 plen=1 op=Reply sha=[10] spa=[11] tha=[12] tpa=[13]",
    ),
    (
        Shown::Arp(b"\x12\x34\x88\xcc\0\0\0\x03"),
        "ARP (unrecognized) htype=Unknown(4660) ptype=Unknown(35020) hlen=0 plen=0 op=Unknown(3) sha=[] spa=[] tha=[] tpa=[]",
    ),
    (
        Shown::Arp(
            b"\0\x01\x08\0\x05\x04\0\x01\x11\x12\x13\x14\x15\x16\x21\x22\x23\x24\x31\x32\x33\x34\x35\x36\x41\x42\x43\x44",
        ),
        "ARP (unrecognized) htype=Ethernet ptype=Ipv4 hlen=5 plen=4 op=Request sha=[17, 18, 19, 20, 21] spa=[22, 33, 34, 35] tha=[36, 49, 50, 51, 52] tpa=[53, 54, 65, 66]",
    ),
    (
        Shown::Arp(
            b"\0\x01\x08\0\x06\x04\0\x01\x11\x12\x13\x14\x15\x16\x21\x22\x23\x24\x31\x32\x33\x34\x35\x36\x41\x42\x43",
        ),
        "ARP (wire::Error)",
    ),
    (Shown::Arp(&[]), "ARP (wire::Error)"),
];

/// Packets, the least number of their bytes that the checks accept, and the least that parses.
pub(super) const LENGTHS: &[(Format, &[u8], usize, usize)] = &[(Format::Arp, &ARP, 28, 28)];

/// Packets, and what their values emit.
pub(super) const EMITTED: &[(Emitted, &[u8], &[u8])] = &[(Emitted::Arp, &ARP, &ARP)];

/// Places in the ARP packet and their bytes, whether the packet is whole with such a byte, and whether it parses.
const CHANGES: &[(usize, u8, bool, bool)] = &[
    (7, 0x01, true, true),
    (7, 0x02, true, true),
    (6, 0x01, true, true),
    (0, 0x01, true, false),
    (1, 0x02, true, false),
    (3, 0x06, true, false),
    (4, 0x05, true, false),
    (4, 0x07, false, false),
    (5, 0x03, true, false),
    (5, 0x05, false, false),
];

#[test]
fn reads_only_ethernet_and_ipv4(rt: HostRuntime) {
    for (place, byte, is_whole, is_read) in CHANGES {
        let mut packet = ARP;
        change(&mut packet, &[(*place, *byte)]);
        let mut buffer = [0xa5; 64];
        let is_emitted = emit(Emitted::Arp, &packet, &mut buffer) == 28
            && has_front(&buffer, &packet, 0xa5);
        let found = ArpPacket::new_checked(&packet).is_ok();
        assert!(rt;
            found == *is_whole && is_emitted == *is_read,
            "{place} {byte}"
        );
    }
}

/// Numbers, and their names.
const HARDWARE: &[(u16, ArpHardware)] = &[
    (1, ArpHardware::Ethernet),
    (0, ArpHardware::Unknown(0)),
    (2, ArpHardware::Unknown(2)),
    (0x0100, ArpHardware::Unknown(0x0100)),
];

const OPERATIONS: &[(u16, ArpOperation)] = &[
    (1, ArpOperation::Request),
    (2, ArpOperation::Reply),
    (0, ArpOperation::Unknown(0)),
    (3, ArpOperation::Unknown(3)),
];

#[test]
fn names_hardware_and_operations(rt: HostRuntime) {
    for (number, name) in HARDWARE {
        assert!(rt;
            ArpHardware::from(*number) == *name && name.number() == *number,
            "{number}"
        );
    }
    for (number, name) in OPERATIONS {
        assert!(rt;
            ArpOperation::from(*number) == *name && name.number() == *number,
            "{number}"
        );
    }
}
