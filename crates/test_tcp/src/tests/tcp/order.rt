//! The order of sequence numbers, by the examples of RFC 1982.

use tcp_stream::{is_ahead, is_before};

// The second number of each row is before the first one, in 8 bits (section 5.2). Shifted by 24 bits they are examples in 32 bits.
const LATER: [(u32, u32); 10] = [
    (1, 0),
    (44, 0),
    (100, 0),
    (100, 44),
    (200, 100),
    (255, 200),
    (0, 255),
    (100, 255),
    (0, 200),
    (44, 200),
];

#[test]
fn serial_numbers(rt: HostRuntime) {
    for (later, earlier) in LATER {
        let (later, earlier) = (later << 24, earlier << 24);
        assert!(rt; is_before(earlier, later), "{earlier} {later}");
        assert!(rt; !is_before(later, earlier), "{later} {earlier}");
        assert!(rt; !is_before(later, later), "{later}");
        assert!(rt;
            is_ahead(earlier, later) && is_ahead(later, later),
            "{earlier} {later}"
        );
        assert!(rt; !is_ahead(later, earlier), "{later} {earlier}");
    }
}

// Numbers that are 2^31 apart have no order (section 3.2). Next to them there is one.
#[test]
fn half_apart(rt: HostRuntime) {
    let rows: [(u32, u32, bool); 6] = [
        (0, 2_147_483_647, true),
        (0, 2_147_483_648, false),
        (2_147_483_648, 0, false),
        (2_147_483_649, 0, true),
        (4_294_967_295, 2_147_483_646, true),
        (4_294_967_295, 2_147_483_647, false),
    ];
    for (a, b, is_earlier) in rows {
        assert_eq!(rt; is_before(a, b), is_earlier, "{a} {b}");
        assert_eq!(rt; is_ahead(a, b), is_earlier, "{a} {b}");
    }
}
