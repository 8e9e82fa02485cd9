//! The linear choice of a route. The routes and the answers are some of those of `ip route get` of Linux 6.
//! `tests/judge/worked_route.c` has all of them, for the index and its table.

use app_router::route::{Route, choose};
use ip_wire::{IpAddress, IpCidr};

fn route(block: IpCidr, interface: u16) -> Route {
    Route {
        block,
        next_hop: None,
        interface,
    }
}

/// An IPv4 address, and the interface of its route.
const ROWS: [([u8; 4], u16); 9] = [
    ([8, 8, 8, 8], 0),
    ([9, 255, 255, 255], 0),
    ([10, 0, 0, 0], 1),
    ([10, 255, 255, 255], 1),
    ([11, 0, 0, 0], 0),
    ([10, 1, 0, 0], 2),
    ([10, 1, 255, 255], 2),
    ([10, 2, 0, 0], 1),
    ([10, 1, 2, 3], 4),
];

#[test]
fn chooses_as_linux(rt: HostRuntime) {
    let routes = [
        route(IpCidr::new(IpAddress::v4(0, 0, 0, 0), 0), 0),
        route(IpCidr::new(IpAddress::v4(10, 0, 0, 0), 8), 1),
        route(IpCidr::new(IpAddress::v4(10, 1, 0, 0), 16), 2),
        route(IpCidr::new(IpAddress::v4(10, 1, 0, 0), 16), 3),
        route(IpCidr::new(IpAddress::v4(10, 1, 2, 3), 32), 4),
        route(
            IpCidr::new(IpAddress::v6(0x2001, 0xdb8, 0, 0, 0, 0, 0, 0), 32),
            5,
        ),
    ];
    for ([a, b, c, d], interface) in ROWS {
        let chosen = choose(&routes, &IpAddress::v4(a, b, c, d));
        assert!(rt;
            chosen == Some(routes[usize::from(interface).min(4)]),
            "{interface}"
        );
    }
    let (inside, outside) = (
        IpAddress::v6(0x2001, 0xdb8, 0, 0, 0, 0, 0, 1),
        IpAddress::v6(0x2001, 0xdb9, 0, 0, 0, 0, 0, 0),
    );
    assert!(rt; choose(&routes, &inside) == Some(routes[5]));
    assert!(rt; choose(&routes, &outside).is_none());
    assert!(rt; choose(&[], &IpAddress::v4(10, 1, 2, 3)).is_none());
}
