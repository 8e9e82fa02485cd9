//! The link types of www.tcpdump.org/linktypes.html with the lengths of their headers, and headers that are rejected, with
//! the number of bytes that they need. `tests/judge/worked_link.c` has others.

use wire_link::{Link, LinkFault, LinkType};

/// An Ethernet header with the tags 200 and 100.
const TAGGED: [u8; 22] = [
    2, 0, 0, 0, 0, 2, 2, 0, 0, 0, 0, 1, 0x88, 0xa8, 0, 200, 0x81, 0, 0, 100, 8, 0,
];

/// The number of a link type, bytes of which so many are there, and why they are rejected.
const REJECTED: [(u32, &[u8], usize, LinkFault); 13] = [
    (101, &[0], 1, LinkFault::BadVersion),
    (101, &[0x3f], 1, LinkFault::BadVersion),
    (101, &[0x50], 1, LinkFault::BadVersion),
    (101, &[0x70], 1, LinkFault::BadVersion),
    (228, &[0x60], 1, LinkFault::BadVersion),
    (229, &[0x45], 1, LinkFault::BadVersion),
    (228, &[], 0, LinkFault::TooShort(1)),
    (1, &TAGGED, 0, LinkFault::TooShort(14)),
    (1, &TAGGED, 13, LinkFault::TooShort(14)),
    (1, &TAGGED, 14, LinkFault::TooShort(18)),
    (1, &TAGGED, 17, LinkFault::TooShort(18)),
    (1, &TAGGED, 18, LinkFault::TooShort(22)),
    (1, &TAGGED, 21, LinkFault::TooShort(22)),
];

/// The number of a link type, and the length of its header. 12 and 14 are DLT_RAW of other systems.
const LENGTHS: [(u32, usize); 10] = [
    (0, 4),
    (1, 14),
    (12, 0),
    (14, 0),
    (101, 0),
    (108, 4),
    (113, 16),
    (228, 0),
    (229, 0),
    (276, 20),
];

/// Numbers beside these.
const UNKNOWN: [u32; 17] = [
    2, 11, 13, 15, 100, 102, 107, 109, 112, 114, 127, 227, 230, 256, 275, 277, 4294967295,
];

/// What is found in the header of a link type with this number.
fn parse(number: u32, bytes: &[u8]) -> Option<Result<Link, LinkFault>> {
    let link_type = LinkType::of(number)?;
    Some(Link::parse(link_type, bytes))
}

#[test]
fn rejects_other_headers(rt: HostRuntime) {
    for (number, bytes, len, fault) in REJECTED {
        let (bytes, _) = bytes.split_at(len.min(bytes.len()));
        assert!(rt;
            parse(number, bytes) == Some(Err(fault)),
            "{number} {bytes:?}"
        );
    }
}

#[test]
fn knows_link_types(rt: HostRuntime) {
    for (number, len) in LENGTHS {
        let found = LinkType::of(number).map(|link_type| link_type.header_len());
        assert!(rt; found == Some(len), "{number}");
    }
    for number in UNKNOWN {
        assert!(rt; LinkType::of(number).is_none(), "{number}");
    }
}
