//! IPv6 fragment headers. `tests/data/calls/worked_headers.call` has more examples.

use super::packets::FRAGMENT_HEADER;
use super::pretty_print::Shown;
use super::values::Emitted;
use super::views::Format;
use ip_wire::Ipv6FragmentRepr;

/// Texts of packets and values.
pub(super) const SHOWN: &[(Shown, &str)] = &[
    (
        Shown::Fragment(&FRAGMENT_HEADER),
        "IPv6 Fragment offset=320 more=false ident=67890",
    ),
    (
        Shown::Fragment(b"\xff\xf9\0\0\0\0"),
        "IPv6 Fragment offset=8191 more=true ident=0",
    ),
    (
        Shown::Fragment(b"\x0a\0\0\x01\x09"),
        "IPv6 Fragment (wire::Error)",
    ),
    (
        Shown::Fragment(b"\x0a\0\0\x01"),
        "IPv6 Fragment (wire::Error)",
    ),
    (Shown::Fragment(b"\x0a\0\0"), "IPv6 Fragment (wire::Error)"),
    (Shown::Fragment(b"\x0a\0"), "IPv6 Fragment (wire::Error)"),
    (Shown::Fragment(b"\x0a"), "IPv6 Fragment (wire::Error)"),
    (Shown::Fragment(&[]), "IPv6 Fragment (wire::Error)"),
    (
        Shown::FragmentValue(Ipv6FragmentRepr {
            frag_offset: 320,
            more_frags: false,
            ident: 67890,
        }),
        "IPv6 Fragment offset=320 more=false ident=67890",
    ),
    (
        Shown::FragmentValue(Ipv6FragmentRepr {
            frag_offset: 8191,
            more_frags: true,
            ident: 0,
        }),
        "IPv6 Fragment offset=8191 more=true ident=0",
    ),
];

/// Packets, the least number of their bytes that the checks accept, and the least that parses.
pub(super) const LENGTHS: &[(Format, &[u8], usize, usize)] = &[(
    Format::Fragment,
    &FRAGMENT_HEADER,
    6,
    6,
)];

/// Packets, and what their values emit.
pub(super) const EMITTED: &[(Emitted, &[u8], &[u8])] = &[
    (Emitted::Fragment, &FRAGMENT_HEADER, &FRAGMENT_HEADER),
    // The reserved bits are not kept.
    (
        Emitted::Fragment,
        b"\x0a\x06\0\x01\x09\x32",
        &FRAGMENT_HEADER,
    ),
    (
        Emitted::Fragment,
        b"\0\x01\0\0\x30\x39",
        b"\0\x01\0\0\x30\x39",
    ),
    (
        Emitted::Fragment,
        b"\xff\xf8\xff\xff\xff\xff",
        b"\xff\xf8\xff\xff\xff\xff",
    ),
];
