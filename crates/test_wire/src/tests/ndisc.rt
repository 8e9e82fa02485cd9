//! Neighbour solicitations and advertisements. Their bytes come from the Linux kernel: of duplicate address
//! detection, and of the first packet to a neighbour.

use net_base::ChecksumCapabilities;
use test_support::bytes::change;
use test_support::texts::prints;
use wire_addr::Ipv6Address;
use wire_icmp::{IcmpPacket, NDISC_HOP_LIMIT, NdiscRepr};

/// A solicitation from `::` to the solicited-node group of its target. Its option is a nonce (RFC 3971).
const PROBE: [u8; 32] = [
    0x87, 0x00, 0xd2, 0x4d, 0, 0, 0, 0, 0x20, 0x01, 0x0d, 0xb8, 0, 0, 0, 0, 0, 0, 0, 0, 0, 0, 0,
    0x0b, 0x0e, 0x01, 0xa0, 0xa1, 0x91, 0xbf, 0x3a, 0x21,
];

/// A solicitation from host a to the same group.
const SOLICIT: [u8; 32] = [
    0x87, 0x00, 0x1c, 0x03, 0, 0, 0, 0, 0x20, 0x01, 0x0d, 0xb8, 0, 0, 0, 0, 0, 0, 0, 0, 0, 0, 0,
    0x0b, 0x01, 0x01, 0x02, 0, 0, 0, 0, 0x0a,
];

/// The advertisement that answers it.
const ADVERT: [u8; 32] = [
    0x88, 0x00, 0x8a, 0x4d, 0x60, 0, 0, 0, 0x20, 0x01, 0x0d, 0xb8, 0, 0, 0, 0, 0, 0, 0, 0, 0, 0, 0,
    0x0b, 0x02, 0x01, 0x02, 0, 0, 0, 0, 0x0b,
];

/// The addresses: none, hosts a, b and c, the solicited-node group of host b, and all nodes.
const NONE: [u16; 8] = [0; 8];

const A: [u16; 8] = [0x2001, 0xdb8, 0, 0, 0, 0, 0, 0x0a];

const B: [u16; 8] = [0x2001, 0xdb8, 0, 0, 0, 0, 0, 0x0b];

const C: [u16; 8] = [0x2001, 0xdb8, 0, 0, 0, 0, 0, 0x0c];

const GROUP: [u16; 8] = [0xff02, 0, 0, 0, 0, 1, 0xff00, 0x0b];

const NODES: [u16; 8] = [0xff02, 0, 0, 0, 0, 0, 0, 1];

/// The texts of values. A text has all fields of a value.
const PLAIN: Option<&str> = Some("NDISC solicit target=2001:db8::b");

const FROM_A: Option<&str> = Some("NDISC solicit target=2001:db8::b lladdr=02-00-00-00-00-0a");

const FROM_B: Option<&str> = Some("NDISC solicit target=2001:db8::b lladdr=02-00-00-00-00-0b");

const SOLICITED: Option<&str> = Some(
    "NDISC advert target=2001:db8::b solicited lladdr=02-00-00-00-00-0b",
);

const BOTH: Option<&str> = Some(
    "NDISC advert target=2001:db8::b solicited override lladdr=02-00-00-00-00-0b",
);

const ROUTER: Option<&str> = Some(
    "NDISC advert target=2001:db8::b router lladdr=02-00-00-00-00-0b",
);

const ROUTER_AND_OVERRIDE: Option<&str> = Some(
    "NDISC advert target=2001:db8::b router override lladdr=02-00-00-00-00-0b",
);

const OVERRIDE: Option<&str> = Some(
    "NDISC advert target=2001:db8::b override lladdr=02-00-00-00-00-0b",
);

const NO_FLAG: Option<&str> = Some("NDISC advert target=2001:db8::b lladdr=02-00-00-00-00-0b");

/// The ends of a message, and its hop limit.
type Ends = ([u16; 8], [u16; 8], u8);

/// Whether the bytes parse as a value with this text. Then the value is emitted as these bytes, if it has all of them.
fn reads(bytes: &[u8], ends: &Ends, caps: &ChecksumCapabilities, want: Option<&str>) -> bool {
    let (src, dst, hop_limit) = *ends;
    let (src, dst) = (Ipv6Address::from(src), Ipv6Address::from(dst));
    let packet = IcmpPacket::new_unchecked(bytes);
    match (NdiscRepr::parse(&packet, &src, &dst, hop_limit, caps), want) {
        (Ok(value), Some(text)) => {
            let mut out = [0x55; 32];
            let len = value.try_emit(&mut out, &src, &dst, caps);
            let is_emitted = len == Some(bytes.len()) && out.starts_with(bytes);
            prints(&value, text) && (is_emitted || !caps.icmpv6.rx() || value.lladdr().is_none())
        }
        (found, want) => found.is_err() && want.is_none(),
    }
}

/// Messages with their ends, and the texts of their values with the checksum verified. The nonce is not kept.
const MESSAGES: &[(&[u8], Ends, Option<&str>)] = &[
    (&PROBE, (NONE, GROUP, NDISC_HOP_LIMIT), PLAIN),
    (&SOLICIT, (A, GROUP, NDISC_HOP_LIMIT), FROM_A),
    (&ADVERT, (B, A, NDISC_HOP_LIMIT), BOTH),
    (&ADVERT, (B, C, NDISC_HOP_LIMIT), None),
];

#[test]
fn reads_and_writes_what_a_kernel_sends(rt: HostRuntime) {
    for (bytes, ends, text) in MESSAGES {
        assert!(rt;
            reads(bytes, ends, &ChecksumCapabilities::default(), *text),
            "{bytes:?}"
        );
    }
}

/// A message, a place in it and its byte there, and the number of its bytes.
type Changed = ([u8; 32], usize, u8, usize);

/// Changed messages, and the texts of their values with the checksum not verified.
const CHANGED: &[(Changed, Ends, Option<&str>)] = &[
    // Reserved, a router solicitation, a code, a multicast target
    ((SOLICIT, 4, 0xff, 32), (A, GROUP, 255), FROM_A),
    ((SOLICIT, 0, 0x85, 32), (A, GROUP, 255), None),
    ((SOLICIT, 1, 0x01, 32), (A, GROUP, 255), None),
    ((SOLICIT, 8, 0xff, 32), (A, GROUP, 255), None),
    // An option of no length, and one that passes the end
    ((SOLICIT, 25, 0x00, 32), (A, GROUP, 255), None),
    ((SOLICIT, 25, 0x02, 32), (A, GROUP, 255), None),
    ((SOLICIT, 0, 0x87, 32), (A, GROUP, 254), None),
    ((SOLICIT, 0, 0x87, 23), (A, GROUP, 255), None),
    ((SOLICIT, 0, 0x87, 24), (A, GROUP, 255), PLAIN),
    ((SOLICIT, 0, 0x87, 25), (A, GROUP, 255), None),
    ((SOLICIT, 0, 0x87, 32), (NONE, GROUP, 255), None),
    ((PROBE, 0, 0x87, 32), (NONE, B, 255), None),
    ((PROBE, 0, 0x87, 32), (A, B, 255), PLAIN),
    // Each flag
    ((ADVERT, 4, 0x00, 32), (B, A, 255), NO_FLAG),
    ((ADVERT, 4, 0x80, 32), (B, A, 255), ROUTER),
    ((ADVERT, 4, 0x40, 32), (B, A, 255), SOLICITED),
    ((ADVERT, 4, 0x20, 32), (B, A, 255), OVERRIDE),
    ((ADVERT, 4, 0xa0, 32), (B, A, 255), ROUTER_AND_OVERRIDE),
    ((ADVERT, 4, 0x1f, 32), (B, A, 255), NO_FLAG),
    // To all nodes
    ((ADVERT, 4, 0x00, 32), (B, NODES, 255), NO_FLAG),
    ((ADVERT, 4, 0x80, 32), (B, NODES, 255), ROUTER),
    ((ADVERT, 4, 0x40, 32), (B, NODES, 255), None),
    ((ADVERT, 4, 0x20, 32), (B, NODES, 255), OVERRIDE),
    ((ADVERT, 4, 0x1f, 32), (B, NODES, 255), NO_FLAG),
];

/// Whether a changed message reads as this text.
fn reads_changed(changed: &Changed, ends: &Ends, want: Option<&str>) -> bool {
    let (mut bytes, place, octet, len) = *changed;
    change(&mut bytes, &[(place, octet)]);
    let part = bytes.get(..len).unwrap_or(&[]);
    reads(part, ends, &ChecksumCapabilities::ignored(), want)
}

#[test]
fn rejects_what_is_invalid_and_reads_each_flag(rt: HostRuntime) {
    for (changed, ends, want) in CHANGED {
        assert!(rt; reads_changed(changed, ends, *want), "{changed:?}");
    }
}

/// Options of a solicitation, and the texts of its value.
const OPTIONS: &[([u8; 24], Option<&str>)] = &[
    (
        [
            1, 1, 2, 0, 0, 0, 0, 0x0a, 1, 1, 2, 0, 0, 0, 0, 0x0b, 2, 1, 2, 0, 0, 0, 0, 0x0b,
        ],
        FROM_A,
    ),
    // After another option
    (
        [
            14, 2, 0, 0, 0, 0, 0, 0, 1, 1, 2, 0, 0, 0, 0, 0x0a, 1, 1, 2, 0, 0, 0, 0, 0x0b,
        ],
        FROM_B,
    ),
    // Of a target
    (
        [
            2, 1, 2, 0, 0, 0, 0, 0x0a, 2, 2, 0, 0, 0, 0, 0, 0, 0, 0, 0, 0, 0, 0, 0, 0,
        ],
        PLAIN,
    ),
    // Too long
    (
        [
            1, 2, 2, 0, 0, 0, 0, 0x0a, 0, 0, 0, 0, 0, 0, 0, 0, 1, 1, 2, 0, 0, 0, 0, 0x0b,
        ],
        None,
    ),
];

#[test]
fn takes_the_first_address_option(rt: HostRuntime) {
    for (options, want) in OPTIONS {
        let mut bytes = [0; 48];
        bytes[..24].copy_from_slice(&SOLICIT[..24]);
        bytes[24..].copy_from_slice(options);
        let caps = ChecksumCapabilities::ignored();
        assert!(rt;
            reads(&bytes, &(A, GROUP, 255), &caps, *want),
            "{options:?}"
        );
    }
}
