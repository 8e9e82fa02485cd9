//! Endpoints, and ports to listen on. `tests/data/calls/worked_addresses.call` has more examples.

use std::net::{Ipv4Addr, Ipv6Addr, SocketAddr, SocketAddrV4, SocketAddrV6};
use wire_addr::{IpAddress, IpEndpoint, IpListenEndpoint, Ipv4Address, Ipv6Address};

/// 192.168.1.1.
fn v4() -> IpAddress {
    IpAddress::v4(192, 168, 1, 1)
}

/// `::1`.
fn v6() -> IpAddress {
    IpAddress::v6(0, 0, 0, 0, 0, 0, 0, 1)
}

/// A listening endpoint of this address and port.
fn listening(addr: Option<IpAddress>, port: u16) -> IpListenEndpoint {
    IpListenEndpoint { addr, port }
}

#[test]
fn converts_from_an_address_and_a_port(rt: HostRuntime) {
    let (ipv4, ipv6) = (Ipv4Address::new(192, 168, 1, 1), Ipv6Address::LOCALHOST);
    let found = [
        IpEndpoint::from((ipv4, 80)) == IpEndpoint::new(v4(), 80),
        IpEndpoint::from((ipv6, 80)) == IpEndpoint::new(v6(), 80),
        IpEndpoint::from((v4(), 80)) == IpEndpoint::new(v4(), 80),
        IpEndpoint::new(v4(), 80).text().as_str() == "192.168.1.1:80",
        IpListenEndpoint::from((ipv4, 80)) == listening(Some(v4()), 80),
        IpListenEndpoint::from((ipv6, 80)) == listening(Some(v6()), 80),
        IpListenEndpoint::from((v4(), 80)) == listening(Some(v4()), 80),
        IpListenEndpoint::default() == listening(None, 0),
    ];
    assert_eq!(rt; found, [true; 8]);
}

#[test]
fn is_specified_by_an_address_and_a_port(rt: HostRuntime) {
    let found = [
        listening(None, 0).is_specified(),
        listening(None, 80).is_specified(),
        listening(Some(v4()), 0).is_specified(),
        listening(Some(v4()), 80).is_specified(),
        listening(Some(IpAddress::v4(0, 0, 0, 0)), 80).is_specified(),
    ];
    assert_eq!(rt; found, [false, false, false, true, true]);
}

#[test]
fn converts_to_and_from_socket_addresses(rt: HostRuntime) {
    let socket = SocketAddrV4::new(Ipv4Addr::new(192, 168, 1, 1), 80);
    let endpoint = IpEndpoint::new(IpAddress::v4(192, 168, 1, 1), 80);
    let found = [
        IpEndpoint::from(socket) == endpoint,
        IpEndpoint::from(SocketAddr::V4(socket)) == endpoint,
        IpListenEndpoint::from(socket) == IpListenEndpoint::from(endpoint),
        SocketAddr::from(endpoint) == SocketAddr::V4(socket),
    ];
    assert_eq!(rt; found, [true; 4]);
}

#[test]
fn converts_without_flow_and_scope(rt: HostRuntime) {
    let ip = Ipv6Addr::new(0xfe80, 0, 0, 0, 0x1011, 0x1213, 0x1415, 0x1617);
    let socket = SocketAddrV6::new(ip, 53, 7, 9);
    let addr = IpAddress::v6(0xfe80, 0, 0, 0, 0x1011, 0x1213, 0x1415, 0x1617);
    let endpoint = IpEndpoint::new(addr, 53);
    let listening = IpListenEndpoint::from(endpoint);
    let found = [
        IpEndpoint::from(socket) == endpoint,
        IpEndpoint::from(SocketAddr::V6(socket)) == endpoint,
        IpListenEndpoint::from(socket) == listening,
        IpListenEndpoint::from(SocketAddr::V6(socket)) == listening,
        SocketAddr::from(endpoint) == SocketAddr::V6(SocketAddrV6::new(ip, 53, 0, 0)),
    ];
    assert_eq!(rt; found, [true; 5]);
}
