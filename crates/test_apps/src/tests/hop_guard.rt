//! The hop limit check. A neighbour sends with hop limit 255 (RFC 5082, section 3).

use app_short::hop_guard::is_near;
use test_support::bytes::change;
use test_support::captured::{ARP_REQUEST, ECHO_REQUEST, SYN};
use test_support::udp_frames::IPV6_FRAME;

/// A frame, the bytes that change in it, over how many routers it may come, and whether it is accepted.
const ROWS: [(&[u8], &[(usize, u8)], u8, bool); 15] = [
    (&ECHO_REQUEST, &[(22, 255), (24, 0xd6), (25, 0x68)], 0, true),
    (
        &ECHO_REQUEST,
        &[(22, 253), (24, 0xd8), (25, 0x68)],
        1,
        false,
    ),
    (&ECHO_REQUEST, &[(22, 253), (24, 0xd8), (25, 0x68)], 2, true),
    (&ECHO_REQUEST, &[], 190, false),
    (&ECHO_REQUEST, &[], 191, true),
    (&SYN, &[], 190, false),
    (&SYN, &[], 191, true),
    (&IPV6_FRAME, &[(21, 255)], 0, true),
    (&IPV6_FRAME, &[(21, 254)], 0, false),
    (&IPV6_FRAME, &[(21, 254)], 1, true),
    // Frames that do not parse: ARP, a wrong IPv4 checksum, a wrong UDP checksum, a packet that is cut, no bytes.
    (&ARP_REQUEST, &[], 255, false),
    (&ECHO_REQUEST, &[(22, 255)], 255, false),
    (
        &ECHO_REQUEST,
        &[(22, 255), (24, 0xd6), (25, 0x68), (45, 0x66)],
        255,
        false,
    ),
    (&SYN, &[(17, 0x3d), (25, 0xfb)], 255, false),
    (&[], &[], 255, false),
];

#[test]
fn accepts_packets_over_few_routers(rt: HostRuntime) {
    for (frame, octets, hops, near) in ROWS {
        let mut buffer = [0; 80];
        let len = frame.len().min(80);
        buffer[..len].copy_from_slice(&frame[..len]);
        change(&mut buffer, octets);
        assert!(rt; is_near(&buffer[..len], hops) == near, "{frame:?} {hops}");
    }
}
