//! The header that a router returns of a forwarded packet. `tests/judge/worked_route.c` has the frames.

use app_router::forward;
use ip_wire::{EthernetAddress, HeaderFault, IpProtocol, IpRepr, Ipv4Address, Ipv4Repr};
use test_support::captured::ECHO_REQUEST;
use test_support::udp_frames::IPV6_FRAME;

const SRC: EthernetAddress = EthernetAddress([0x02, 0x00, 0x00, 0x00, 0x00, 0x11]);

const DST: EthernetAddress = EthernetAddress([0x02, 0x00, 0x00, 0x00, 0x00, 0x12]);

#[test]
fn returns_the_new_header(rt: HostRuntime) {
    let (mut frame, mut ipv6_frame) = (ECHO_REQUEST, IPV6_FRAME);
    let header = Ipv4Repr {
        src_addr: Ipv4Address::new(192, 0, 2, 1),
        dst_addr: Ipv4Address::new(192, 0, 2, 2),
        next_header: IpProtocol::Udp,
        payload_len: 12,
        hop_limit: 63,
    };
    assert!(rt; forward(&mut frame, SRC, DST) == Ok(IpRepr::Ipv4(header)));
    let hop_limit = forward(&mut ipv6_frame, SRC, DST).map(|header| header.hop_limit());
    assert!(rt; hop_limit == Ok(63));
    assert!(rt; forward(&mut frame[..13], SRC, DST) == Err(HeaderFault::NotIp));
    assert!(rt; forward(&mut frame[..14], SRC, DST) == Err(HeaderFault::BadHeader));
}
