//! ICMP messages. Their bytes come from the Linux kernel: of `ping`, of a host, and of a router that cannot
//! forward a packet.

ghost use Rattle.std.specs.Prelude.{◌≡◌};
ghost use Rattle.wire_addr.specs.IpAddress.{version_of};

use super::packets::ECHO;
use super::views::Format;
use net_base::ChecksumCapabilities;
use test_support::bytes::{OLD, has_front};
use wire_addr::{IpAddress, IpVersion};
use wire_icmp::{
    Exceeded, ICMP_HEADER_LEN, IcmpHeader, IcmpPacket, IcmpPacketMut, IcmpRepr, Unreachable,
    protocol_of,
};

/// The data of each echo.
const DATA: [u8; 9] = [0xa1, 0xb2, 0xc3, 0, 0, 0, 0, 0, 0x43];

/// The first 28 bytes of a packet to a closed port, and 4 of its data.
const QUOTED: [u8; 32] = [
    0x45, 0x00, 0x00, 0x20, 0x1a, 0xc8, 0x40, 0x00, 0x3f, 0x11, 0x34, 0xce, 0xc0, 0x00, 0x02, 0x01,
    0xc6, 0x33, 0x64, 0x02, 0xbe, 0x32, 0x27, 0x0f, 0x00, 0x0c, 0xec, 0x54, 0x5a, 0x5a, 0x5a, 0x5a,
];

const REQUEST: IcmpRepr = IcmpRepr::EchoRequest {
    ident: 0x1234,
    seq_no: 1,
};

const REPLY: IcmpRepr = IcmpRepr::EchoReply {
    ident: 0x1234,
    seq_no: 1,
};

/// The addresses of both hosts.
fn ends(version: IpVersion) -> (IpAddress, IpAddress)
    ensures { version_of result.0 ≡ version_of result.1 }
{
    match version {
        IpVersion::Ipv4 => (IpAddress::v4(192, 0, 2, 1), IpAddress::v4(198, 51, 100, 2)),
        IpVersion::Ipv6 => (
            IpAddress::v6(0x2001, 0xdb8, 1, 0, 0, 0, 0, 1),
            IpAddress::v6(0x2001, 0xdb8, 2, 0, 0, 0, 0, 2),
        ),
    }
}

/// Packets, the least number of their bytes that the checks accept, and the least that parses.
pub(super) const LENGTHS: &[(Format, &[u8], usize, usize)] = &[(Format::Icmp, &ECHO, 8, 8)];

/// Packets with padding after them, and where their payloads begin and end.
pub(super) const PAYLOADS: &[(Format, &[u8], usize, usize)] = &[(Format::Icmp, &ECHO, 8, 17)];

/// Messages: version, header, payload and value. They go from the first host to the second; the sum is the same
/// the other way.
const MESSAGES: &[(IpVersion, [u8; 8], &[u8], IcmpRepr)] = &[
    (
        IpVersion::Ipv4,
        [0x08, 0x00, 0x3e, 0x17, 0x12, 0x34, 0x00, 0x01],
        &DATA,
        REQUEST,
    ),
    (
        IpVersion::Ipv4,
        [0x00, 0x00, 0x46, 0x17, 0x12, 0x34, 0x00, 0x01],
        &DATA,
        REPLY,
    ),
    (
        IpVersion::Ipv6,
        [0x80, 0x00, 0x6a, 0x53, 0x12, 0x34, 0x00, 0x01],
        &DATA,
        REQUEST,
    ),
    (
        IpVersion::Ipv6,
        [0x81, 0x00, 0x69, 0x53, 0x12, 0x34, 0x00, 0x01],
        &DATA,
        REPLY,
    ),
    (
        IpVersion::Ipv4,
        [0x03, 0x03, 0x76, 0xa5, 0, 0, 0, 0],
        &QUOTED,
        IcmpRepr::DstUnreachable {
            reason: Unreachable::Port,
        },
    ),
];

/// Whether a message is emitted from the value and leaves the rest, parses as the value, and is rejected with another
/// checksum or with too little room.
fn is_message(version: IpVersion, header: &[u8; 8], payload: &[u8], value: IcmpRepr) -> bool {
    let (src, dst) = ends(version);
    let caps = ChecksumCapabilities::default();
    let mut buffer = [0x55; 42];
    let len = ICMP_HEADER_LEN + payload.len().min(32);
    let is_left = value
        .try_emit(&mut buffer[..len - 1], &src, &dst, payload, &caps)
        .is_none()
        && buffer == [0x55; 42];
    let is_emitted = value.try_emit(&mut buffer, &src, &dst, payload, &caps) == Some(len)
        && &buffer[..8] == header.as_slice()
        && &buffer[8..len] == payload
        && has_front(&buffer[len..], &[], 0x55);
    let packet = IcmpPacket::new_unchecked(&buffer[..len]);
    let is_parsed = IcmpRepr::parse(&packet, &src, &dst, &caps) == Ok(value);
    buffer[3] = !buffer[3];
    let packet = IcmpPacket::new_unchecked(&buffer[..len]);
    is_left && is_emitted && is_parsed && IcmpRepr::parse(&packet, &src, &dst, &caps).is_err()
}

#[test]
fn reads_and_writes_whole_messages(rt: HostRuntime) {
    for (version, header, payload, value) in MESSAGES {
        let is_whole = is_message(*version, header, payload, *value);
        assert!(rt;
            is_whole && value.header_len() == ICMP_HEADER_LEN,
            "{value}"
        );
    }
}

/// Headers of errors, and their values.
const ERRORS: &[(IpVersion, [u8; 8], IcmpRepr)] = &[
    (
        IpVersion::Ipv4,
        [3, 0, 0x9d, 0x54, 0, 0, 0, 0],
        IcmpRepr::DstUnreachable {
            reason: Unreachable::NoRoute,
        },
    ),
    (
        IpVersion::Ipv4,
        [3, 1, 0x72, 0xe6, 0, 0, 0, 0],
        IcmpRepr::DstUnreachable {
            reason: Unreachable::Host,
        },
    ),
    (
        IpVersion::Ipv4,
        [3, 3, 0x76, 0xa5, 0, 0, 0, 0],
        IcmpRepr::DstUnreachable {
            reason: Unreachable::Port,
        },
    ),
    (
        IpVersion::Ipv4,
        [3, 4, 0x66, 0xce, 0, 0, 5, 0x14],
        IcmpRepr::PktTooBig { mtu: 1300 },
    ),
    (
        IpVersion::Ipv4,
        [3, 13, 0x8d, 0x51, 0, 0, 0, 0],
        IcmpRepr::DstUnreachable {
            reason: Unreachable::Prohibited,
        },
    ),
    (
        IpVersion::Ipv4,
        [3, 10, 0, 0, 0, 0, 0, 0],
        IcmpRepr::DstUnreachable {
            reason: Unreachable::Other(10),
        },
    ),
    (
        IpVersion::Ipv4,
        [11, 0, 0x87, 0x7c, 0, 0, 0, 0],
        IcmpRepr::TimeExceeded {
            reason: Exceeded::HopLimit,
        },
    ),
    (
        IpVersion::Ipv4,
        [11, 1, 0xe2, 0xb1, 0, 0, 0, 0],
        IcmpRepr::TimeExceeded {
            reason: Exceeded::Reassembly,
        },
    ),
    (
        IpVersion::Ipv4,
        [11, 9, 0, 0, 0, 0, 0, 0],
        IcmpRepr::TimeExceeded {
            reason: Exceeded::Other(9),
        },
    ),
    (
        IpVersion::Ipv4,
        [12, 0, 0xcc, 0xba, 21, 0, 0, 0],
        IcmpRepr::ParamProblem {
            code: 0,
            pointer: 21,
        },
    ),
    (
        IpVersion::Ipv6,
        [1, 0, 0x5b, 0xd9, 0, 0, 0, 0],
        IcmpRepr::DstUnreachable {
            reason: Unreachable::NoRoute,
        },
    ),
    (
        IpVersion::Ipv6,
        [1, 1, 0xf1, 0x1b, 0, 0, 0, 0],
        IcmpRepr::DstUnreachable {
            reason: Unreachable::Prohibited,
        },
    ),
    (
        IpVersion::Ipv6,
        [1, 3, 0xbe, 0xb9, 0, 0, 0, 0],
        IcmpRepr::DstUnreachable {
            reason: Unreachable::Host,
        },
    ),
    (
        IpVersion::Ipv6,
        [1, 4, 0x55, 0x3d, 0, 0, 0, 0],
        IcmpRepr::DstUnreachable {
            reason: Unreachable::Port,
        },
    ),
    (
        IpVersion::Ipv6,
        [1, 6, 0, 0, 0, 0, 0, 0],
        IcmpRepr::DstUnreachable {
            reason: Unreachable::Other(6),
        },
    ),
    (
        IpVersion::Ipv6,
        [2, 0, 0x1b, 0x51, 0, 0, 5, 0x14],
        IcmpRepr::PktTooBig { mtu: 1300 },
    ),
    (
        IpVersion::Ipv6,
        [3, 0, 0xb5, 0x86, 0, 0, 0, 0],
        IcmpRepr::TimeExceeded {
            reason: Exceeded::HopLimit,
        },
    ),
    (
        IpVersion::Ipv6,
        [3, 1, 0x61, 0x55, 0, 0, 0, 0],
        IcmpRepr::TimeExceeded {
            reason: Exceeded::Reassembly,
        },
    ),
    (
        IpVersion::Ipv6,
        [4, 1, 0xd4, 0x9c, 0, 0, 0, 6],
        IcmpRepr::ParamProblem {
            code: 1,
            pointer: 6,
        },
    ),
];

#[test]
fn knows_the_errors(rt: HostRuntime) {
    let caps = ChecksumCapabilities::ignored();
    for (version, header, value) in ERRORS {
        let (src, dst) = ends(*version);
        let packet = IcmpPacket::new_unchecked(header);
        let written = value.header(*version);
        let types = [written.msg_type, written.msg_code];
        let is_written = types == [packet.msg_type(), packet.msg_code()]
            && written.word == packet.word();
        let is_read = IcmpRepr::parse(&packet, &src, &dst, &caps) == Ok(*value);
        let is_normal = value.normal(*version) == *value;
        let is_error = value.is_error() && !packet.is_query(*version);
        assert!(rt; is_written && is_read && is_normal && is_error, "{value}");
    }
}

/// Types and codes of headers with the word 0x8000_0500, and their values.
const OTHERS: &[(IpVersion, u8, u8, Option<IcmpRepr>)] = &[
    (IpVersion::Ipv4, 0, 1, None),
    (IpVersion::Ipv4, 1, 0, None),
    (IpVersion::Ipv4, 4, 0, None),
    (IpVersion::Ipv4, 5, 0, None),
    (IpVersion::Ipv4, 8, 1, None),
    (IpVersion::Ipv4, 13, 0, None),
    (IpVersion::Ipv4, 128, 0, None),
    (IpVersion::Ipv6, 0, 0, None),
    (IpVersion::Ipv6, 5, 0, None),
    (IpVersion::Ipv6, 8, 0, None),
    (IpVersion::Ipv6, 128, 1, None),
    (IpVersion::Ipv6, 129, 1, None),
    (IpVersion::Ipv6, 135, 0, None),
    (IpVersion::Ipv6, 137, 0, None),
    // RFC 1191, section 4: 16 bits; RFC 4443, section 3.2: 32 bits, and the code is ignored
    (
        IpVersion::Ipv4,
        3,
        4,
        Some(IcmpRepr::PktTooBig { mtu: 0x500 }),
    ),
    (
        IpVersion::Ipv6,
        2,
        7,
        Some(IcmpRepr::PktTooBig { mtu: 0x8000_0500 }),
    ),
];

#[test]
fn rejects_other_messages(rt: HostRuntime) {
    let caps = ChecksumCapabilities::ignored();
    for (version, msg_type, code, value) in OTHERS {
        let (src, dst) = ends(*version);
        let header = [*msg_type, *code, 0, 0, 0x80, 0, 5, 0];
        let packet = IcmpPacket::new_unchecked(&header);
        let found = IcmpRepr::parse(&packet, &src, &dst, &caps).ok();
        assert!(rt; found == *value, "{msg_type} {code}");
    }
}

/// The types that are queries or answers to one over IPv4 and over IPv6, as a range begins and ends.
const QUERIES: &[(u8, [bool; 2])] = &[
    (0, [true, false]),
    (1, [false, false]),
    (5, [false, false]),
    (7, [false, false]),
    (8, [true, false]),
    (9, [false, false]),
    (12, [false, false]),
    (13, [true, false]),
    (18, [true, false]),
    (19, [false, false]),
    (127, [false, false]),
    (128, [false, true]),
    (129, [false, true]),
    (136, [false, true]),
    (137, [false, false]),
    (138, [false, true]),
    (255, [false, true]),
];

#[test]
fn knows_the_queries(rt: HostRuntime) {
    for (msg_type, want) in QUERIES {
        let bytes = [*msg_type];
        let packet = IcmpPacket::new_unchecked(&bytes);
        let queries = [
            packet.is_query(IpVersion::Ipv4),
            packet.is_query(IpVersion::Ipv6),
        ];
        assert!(rt; queries == *want, "{msg_type}");
    }
    let numbers = [
        protocol_of(IpVersion::Ipv4).number(),
        protocol_of(IpVersion::Ipv6).number(),
    ];
    assert!(rt; numbers == [1, 58]);
}

const HEADER: IcmpHeader = IcmpHeader {
    msg_type: 8,
    msg_code: 0,
    word: 0x1234_0001,
};

/// The echo request without its checksum.
const UNSUMMED: [u8; 17] = [
    0x08, 0x00, 0, 0, 0x12, 0x34, 0x00, 0x01, 0xa1, 0xb2, 0xc3, 0, 0, 0, 0, 0, 0x43,
];

#[test]
fn writes_a_message_and_leaves_the_rest(rt: HostRuntime) {
    let (src, dst) = ends(IpVersion::Ipv4);
    let (caps, ignored) = (
        ChecksumCapabilities::default(),
        ChecksumCapabilities::ignored(),
    );
    for old in OLD {
        let (mut whole, mut without) = ([old; 19], [old; 19]);
        let mut packet = IcmpPacketMut::new_unchecked(&mut whole);
        HEADER.emit(&mut packet, &src, &dst, &DATA, &caps);
        let mut packet = IcmpPacketMut::new_unchecked(&mut without);
        REQUEST.emit(&mut packet, &src, &dst, &DATA, &ignored);
        let is_whole = has_front(&whole, &ECHO, old);
        assert!(rt; is_whole && has_front(&without, &UNSUMMED, old), "{old}");
    }
}

#[test]
fn writes_each_field(rt: HostRuntime) {
    let (src, dst) = ends(IpVersion::Ipv4);
    let mut buffer = ECHO;
    buffer[..8].fill(0x55);
    let mut packet = IcmpPacketMut::new_unchecked(&mut buffer);
    packet.set_msg_type(8);
    packet.set_msg_code(0);
    packet.set_word(0x5678_0001);
    packet.set_echo_ident(0x1234);
    packet.fill_checksum(&src, &dst);
    assert!(rt; packet.as_bytes() == ECHO.as_slice());
    packet.set_checksum(0x3e16);
    assert!(rt; !packet.verify_checksum(&src, &dst));
    assert!(rt; packet.into_inner().starts_with(&[8, 0, 0x3e, 0x16]));
}

/// Checksums of an echo reply without data and with sequence number 0: an identifier, another one, and the checksum
/// with that.
const UPDATES: &[(u16, u16, u16, u16)] = &[
    (0xedcb, 0x1234, 0x1235, 0xedca),
    (0xedcb, 0x1234, 0, 0xffff),
    (0xffff, 0, 0x1234, 0xedcb),
    (0xedcb, 0x1234, 0xffff, 0xffff),
];

#[test]
fn a_checksum_that_is_updated_stays_valid(rt: HostRuntime) {
    let (src, dst) = ends(IpVersion::Ipv4);
    for (checksum, ident, new, want) in UPDATES {
        let mut buffer = [0; 8];
        let mut packet = IcmpPacketMut::new_unchecked(&mut buffer);
        packet.set_echo_ident(*ident);
        packet.set_checksum(*checksum);
        packet.update_echo_ident(*new);
        let is_updated = packet.verify_checksum(&src, &dst)
            && packet.echo_ident() == *new
            && packet.checksum() == *want;
        packet.update_checksum(*new, *ident);
        packet.set_echo_ident(*ident);
        assert!(rt; is_updated && packet.verify_checksum(&src, &dst), "{new}");
    }
}
