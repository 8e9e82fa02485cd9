//! The values of ICMP messages.

use super::packets::ECHO;
use super::pretty_print::Shown;
use wire_addr::IpVersion;
use wire_icmp::{Exceeded, IcmpRepr, Unreachable};

/// Texts of packets and values.
pub(super) const SHOWN: &[(Shown, &str)] = &[
    (
        Shown::IcmpValue(IcmpRepr::EchoRequest {
            ident: 0x1234,
            seq_no: 1,
        }),
        "ICMP echo request id=4660 seq=1",
    ),
    (
        Shown::IcmpValue(IcmpRepr::EchoReply {
            ident: 0x1234,
            seq_no: 1,
        }),
        "ICMP echo reply id=4660 seq=1",
    ),
    (
        Shown::IcmpValue(IcmpRepr::DstUnreachable {
            reason: Unreachable::NoRoute,
        }),
        "ICMP destination unreachable (no route)",
    ),
    (
        Shown::IcmpValue(IcmpRepr::DstUnreachable {
            reason: Unreachable::Host,
        }),
        "ICMP destination unreachable (host)",
    ),
    (
        Shown::IcmpValue(IcmpRepr::DstUnreachable {
            reason: Unreachable::Port,
        }),
        "ICMP destination unreachable (port)",
    ),
    (
        Shown::IcmpValue(IcmpRepr::DstUnreachable {
            reason: Unreachable::Prohibited,
        }),
        "ICMP destination unreachable (prohibited)",
    ),
    (
        Shown::IcmpValue(IcmpRepr::DstUnreachable {
            reason: Unreachable::Other(7),
        }),
        "ICMP destination unreachable (code 7)",
    ),
    (
        Shown::IcmpValue(IcmpRepr::PktTooBig { mtu: 1300 }),
        "ICMP packet too big mtu=1300",
    ),
    (
        Shown::IcmpValue(IcmpRepr::TimeExceeded {
            reason: Exceeded::HopLimit,
        }),
        "ICMP time exceeded (hop limit)",
    ),
    (
        Shown::IcmpValue(IcmpRepr::TimeExceeded {
            reason: Exceeded::Reassembly,
        }),
        "ICMP time exceeded (reassembly)",
    ),
    (
        Shown::IcmpValue(IcmpRepr::TimeExceeded {
            reason: Exceeded::Other(7),
        }),
        "ICMP time exceeded (code 7)",
    ),
    (
        Shown::IcmpValue(IcmpRepr::ParamProblem {
            code: 1,
            pointer: 6,
        }),
        "ICMP parameter problem code=1 pointer=6",
    ),
    (Shown::Icmp(&ECHO), "ICMP type=8 code=0 len=9"),
    (
        Shown::Icmp(b"\x08\0\x3e\x17\x12\x34\0"),
        "ICMP (wire::Error)",
    ),
];

/// Values that do not fit, and their normal forms.
const NORMAL: &[(IpVersion, IcmpRepr, IcmpRepr)] = &[
    (
        IpVersion::Ipv4,
        IcmpRepr::PktTooBig { mtu: 65536 },
        IcmpRepr::PktTooBig { mtu: 65535 },
    ),
    (
        IpVersion::Ipv6,
        IcmpRepr::PktTooBig { mtu: 65536 },
        IcmpRepr::PktTooBig { mtu: 65536 },
    ),
    (
        IpVersion::Ipv4,
        IcmpRepr::ParamProblem {
            code: 0,
            pointer: 256,
        },
        IcmpRepr::ParamProblem {
            code: 0,
            pointer: 255,
        },
    ),
    (
        IpVersion::Ipv6,
        IcmpRepr::ParamProblem {
            code: 0,
            pointer: 256,
        },
        IcmpRepr::ParamProblem {
            code: 0,
            pointer: 256,
        },
    ),
    (
        IpVersion::Ipv4,
        IcmpRepr::DstUnreachable {
            reason: Unreachable::Other(4),
        },
        IcmpRepr::PktTooBig { mtu: 0 },
    ),
    (
        IpVersion::Ipv6,
        IcmpRepr::DstUnreachable {
            reason: Unreachable::Other(4),
        },
        IcmpRepr::DstUnreachable {
            reason: Unreachable::Port,
        },
    ),
    (
        IpVersion::Ipv4,
        IcmpRepr::TimeExceeded {
            reason: Exceeded::Other(0),
        },
        IcmpRepr::TimeExceeded {
            reason: Exceeded::HopLimit,
        },
    ),
];

#[test]
fn a_value_that_does_not_fit_has_a_normal_form(rt: HostRuntime) {
    for (version, value, normal) in NORMAL {
        assert!(rt; value.normal(*version) == *normal, "{value}");
    }
}
