//! The options of segments and the room that they leave, by hand from the RFCs.

use app_options::{Agreed, peer_mss};
use std::process::Abort;
use wire_tcp_options::TcpOptionSummary;

/// The window scale, SACK permitted, and the timestamp of a SYN.
type Offer = (Option<u8>, bool, Option<(u32, u32)>);

fn options(mss: Option<u16>, (window_scale, sack_permitted, timestamp): Offer) -> TcpOptionSummary {
    TcpOptionSummary {
        max_segment_size: mss,
        window_scale,
        sack_permitted,
        sack_ranges: [None; 4],
        timestamp,
    }
}

/// An end whose timestamps begin at 1,000, after a SYN with these options.
fn agreed(offer: Offer) -> Agreed {
    let mut agreed = Agreed::new(1_000);
    agreed.on_syn(&options(Some(1_460), offer), 10);
    agreed
}

/// The SYN with ACK that answers one with these options.
fn check(rt: &impl Abort, offer: Offer, answer: Offer) {
    let syn = agreed(offer).of_syn(1_440, 100_000, 20, true);
    assert_eq!(rt; syn, options(Some(1_440), answer));
}

// RFC 9293, section 3.7.1.
#[test]
fn segment_sizes(rt: HostRuntime) {
    let rows: [(Option<u16>, u16); 6] = [
        (None, 536),
        (Some(0), 48),
        (Some(47), 48),
        (Some(49), 49),
        (Some(1_460), 1_460),
        (Some(65_535), 65_535),
    ];
    for (mss, size) in rows {
        assert_eq!(rt;
            peer_mss(&options(mss, (None, false, None))),
            size,
            "{mss:?}"
        );
    }
}

// RFC 7323, sections 2.2 and 3.2: a SYN offers all, and one with ACK has what the other one had. RFC 2018, section 2.
#[test]
fn syns(rt: HostRuntime) {
    let offer = (Some(1), true, Some((1_020, 0)));
    let syn = Agreed::new(1_000).of_syn(1_440, 100_000, 20, false);
    assert_eq!(rt; syn, options(Some(1_440), offer));
    let syn = agreed((None, false, None)).of_syn(1_440, 100_000, 20, false);
    assert_eq!(rt; syn, options(Some(1_440), offer));
    check(&rt, (None, false, None), (None, false, None));
    check(&rt, (Some(9), false, None), (Some(1), false, None));
    check(&rt, (Some(0), false, None), (Some(1), false, None));
    check(&rt, (None, true, None), (None, true, None));
    let timestamp = (None, false, Some((77, 5)));
    check(&rt, timestamp, (None, false, Some((1_020, 77))));
    let all = (Some(9), true, Some((77, 0)));
    check(&rt, all, (Some(1), true, Some((1_020, 77))));
}

// SACK blocks while bytes are kept after gaps (RFC 2018, section 4). A timestamp in each segment (RFC 7323, section 3.2).
#[test]
fn segments(rt: HostRuntime) {
    let kept = [Some((5_000, 6_000)), Some((1_000, 2_000)), None, None];
    let all = agreed((Some(9), true, Some((77, 0))));
    let mut wanted = options(None, (None, false, Some((1_030, 77))));
    assert!(rt; all.has_sack());
    assert_eq!(rt; all.of_segment(None, 30), wanted);
    wanted.sack_ranges = kept;
    assert_eq!(rt; all.of_blocks(kept, 30), wanted);
    wanted.sack_ranges = [kept[0], None, None, None];
    assert_eq!(rt; all.of_segment(kept[0], 30), wanted);
    let none = agreed((Some(9), false, None));
    assert!(rt; !none.has_sack());
    assert_eq!(rt;
        none.of_blocks(kept, 30),
        options(None, (None, false, None))
    );
}

// A timestamp takes 10 bytes and 2 of padding, and n SACK blocks 8 * n + 2 (RFC 2018, section 3): 1,448 of 1,460 are left.
#[test]
fn text_limits(rt: HostRuntime) {
    let both = agreed((None, true, Some((77, 0))));
    let stamps = agreed((None, false, Some((77, 0))));
    let sack = agreed((None, true, None));
    let none = agreed((None, false, None));
    let rows: [(&Agreed, u16, bool, u16); 12] = [
        (&none, 1_460, true, 1_460),
        (&stamps, 1_460, false, 1_448),
        (&stamps, 1_460, true, 1_448),
        (&sack, 1_460, false, 1_460),
        (&sack, 1_460, true, 1_448),
        (&both, 1_460, false, 1_448),
        (&both, 1_460, true, 1_440),
        (&both, 48, true, 28),
        (&both, 28, true, 8),
        (&both, 20, true, 8),
        (&both, 8, true, 8),
        (&both, 5, true, 5),
    ];
    for (agreed, mss, has_gap, limit) in rows {
        assert_eq!(rt; agreed.text_limit(mss, has_gap), limit, "{mss} {has_gap}");
    }
}
