//! The ports and time-outs of a NAT. `tests/judge/worked_mappings.c` follows packets through its table.

use app_nat::{Mapping, Nat, mappings_for};
use ip_wire::Ipv4Address;

/// The first port of a NAT, and how many ports it has with 384 mappings, up to port 65535.
const PORTS: [(u16, usize); 4] = [(1024, 128), (65408, 128), (65409, 127), (0, 0)];

/// A table for so many ports has these ports and no other one.
#[test]
fn has_the_ports_of_its_mappings(rt: HostRuntime) {
    let mappings = [Mapping::FREE; 384];
    let outside = Ipv4Address::new(203, 0, 113, 9);
    for (first_port, ports) in PORTS {
        let nat = Nat::new([7, 11], outside, first_port);
        assert!(rt; nat.ports(&mappings) == ports, "{first_port}");
    }
    assert!(rt; Nat::new([7, 11], outside, 1024).ports(&mappings[1..]) == 127);
    assert!(rt; mappings_for(128) == 384 && mappings_for(0) == 0);
}

/// 5 minutes for UDP (RFC 4787, REQ-5), 2 hours and 4 minutes for TCP, 4 minutes while a connection opens or
/// closes (RFC 5382, REQ-5), 60 seconds for ICMP (RFC 5508, REQ-2).
#[test]
fn has_the_usual_time_outs(rt: HostRuntime) {
    let nat = Nat::new([7, 11], Ipv4Address::new(203, 0, 113, 9), 1024);
    let tcp = [nat.tcp_timeout, nat.tcp_transitory_timeout];
    assert_eq!(rt; tcp, [7_440_000, 240_000]);
    assert_eq!(rt; [nat.udp_timeout, nat.icmp_timeout], [300_000, 60_000]);
}
