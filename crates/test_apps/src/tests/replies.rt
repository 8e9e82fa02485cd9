//! A reply of each kind by itself. `tests/data/calls/worked_replies.call` and `tests/judge/worked_hosts.c` have the
//! replies of a host.

use app_host::tcp_reply::Offer;
use app_host::{Interface, arp, tcp_answer, udp_echo};
use ip_wire::{EthernetAddress, Ipv4Address, Ipv6Address, TcpSeqNumber};
use test_support::captured::{ARP_REPLY, ARP_REQUEST, ECHO_REPLY, ECHO_REQUEST, SYN, SYN_ACK};

/// What SYN-ACKs offer.
const OFFER: Offer = Offer {
    initial: TcpSeqNumber(0x0a0b_0c0d),
    window_len: 0x7210,
    max_seg_size: 1460,
    window_scale: 7,
    clock: 0x5566_7788,
};

#[test]
fn replies_to_a_request_a_packet_and_a_syn(rt: HostRuntime) {
    let ours = Interface {
        hardware_addr: EthernetAddress([0x02, 0x00, 0x00, 0x00, 0x00, 0x02]),
        ipv4_addr: Ipv4Address::new(192, 0, 2, 2),
        ipv6_addr: Ipv6Address::new(0x2001, 0xdb8, 0, 0, 0, 0, 0, 2),
        is_router: false,
    };
    let (mut reply, mut echo, mut syn_ack) = ([0; 42], [0; 46], [0; 74]);
    let found = [
        arp::answer(&ARP_REQUEST, &ours, &mut reply),
        udp_echo::answer(&ECHO_REQUEST, &ours, 7, &mut echo),
        tcp_answer::answer(&SYN, &ours, &[22, 80], &OFFER, &mut syn_ack),
    ];
    assert!(rt; found == [Some(42), Some(46), Some(74)]);
    assert!(rt; reply == ARP_REPLY && echo == ECHO_REPLY && syn_ack == SYN_ACK);
}
