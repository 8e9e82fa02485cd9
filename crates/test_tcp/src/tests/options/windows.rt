//! Shift counts and window fields, from RFC 7323 and from Linux.

use app_options::{Agreed, scale_of, syn_window};
use wire_tcp_options::TcpOptionSummary;

/// What is agreed on with a peer that tells this shift count, or none.
fn agreed(window_scale: Option<u8>) -> Agreed {
    let mut agreed = Agreed::new(0);
    let options = TcpOptionSummary {
        window_scale,
        ..TcpOptionSummary::default()
    };
    agreed.on_syn(&options, 0);
    agreed
}

// Linux takes ilog2(size) - 15, from 0 to 14 (tcp_select_initial_window): 7 for 6 MiB, its default of tcp_rmem. With 14 the
// largest window is 1 GiB (RFC 7323, section 2.3).
#[test]
fn scales(rt: HostRuntime) {
    let rows: [(usize, u8); 12] = [
        (0, 0),
        (1, 0),
        (65_535, 0),
        (65_536, 1),
        (131_071, 1),
        (131_072, 2),
        (6_291_456, 7),
        (33_554_432, 10),
        (536_870_911, 13),
        (536_870_912, 14),
        (1_073_741_823, 14),
        (usize::MAX, 14),
    ];
    for (size, scale) in rows {
        assert_eq!(rt; scale_of(size), scale, "{size}");
    }
}

// The own window, the size of the ring, the field, and the window that the peer reads in it.
#[test]
fn fields(rt: HostRuntime) {
    let rows: [(u32, usize, u16, u32); 8] = [
        (0, 6_291_456, 0, 0),
        (127, 6_291_456, 0, 0),
        (128, 6_291_456, 1, 128),
        (1_000, 6_291_456, 7, 896),
        (6_291_456, 6_291_456, 49_152, 6_291_456),
        (65_535, 65_535, 65_535, 65_535),
        (131_071, 131_071, 65_535, 131_070),
        (1_073_741_823, 1_073_741_823, 65_535, 1_073_725_440),
    ];
    for (window, size, field, read) in rows {
        let told = agreed(Some(3)).window_out(window, size);
        let peer = agreed(Some(scale_of(size)));
        assert_eq!(rt; told, field, "{window} of {size}");
        assert_eq!(rt; peer.window_in(u32::from(told)), read, "{window} of {size}");
    }
}

// Without the option nothing is scaled, nor is the field of a SYN (section 2.2).
#[test]
fn unscaled(rt: HostRuntime) {
    let peer = agreed(None);
    for (window, field) in [(0, 0), (1_000, 1_000), (65_535, 65_535), (65_536, 65_535)] {
        assert_eq!(rt; peer.window_out(window, 6_291_456), field, "{window}");
        assert_eq!(rt; syn_window(window), field, "{window}");
        assert_eq!(rt;
            peer.window_in(u32::from(field)),
            u32::from(field),
            "{window}"
        );
    }
}

// A shift count above 14 counts as 14 (section 2.3).
#[test]
fn large_shift_counts(rt: HostRuntime) {
    for (scale, window) in [(13, 8_192), (14, 16_384), (15, 16_384), (255, 16_384)] {
        assert_eq!(rt; agreed(Some(scale)).window_in(1), window, "{scale}");
    }
}
