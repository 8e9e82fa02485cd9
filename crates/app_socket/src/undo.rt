//! A retransmission that was not needed: the Eifel algorithm (RFC 3522, RFC 4015).

ghost use Rattle.std.specs.Prelude.{◌≡◌};
ghost use Rattle.app_socket.specs.Undo.{is_echo_before, since_expired};

// cwnd and ssthresh before the first segment went again, and when that was: 0 if none went.
#[repr(C)]
#[derive(Debug, Clone, Copy)]
pub(crate) struct Undo {
    pub(crate) sent_at: u64,
    pub(crate) cwnd: u32,
    pub(crate) ssthresh: u32,
}

impl Undo {
    pub(crate) const NONE: Undo = Undo {
        sent_at: 0,
        cwnd: 0,
        ssthresh: 0,
    };
}

// Whether an acknowledgement echoes a timestamp from before this time, by the round trip that its echo tells.
pub(crate) fn is_echo_before(time: u64, round_trip: Option<u32>, now: u64) -> bool
    ensures { result ≡ is_echo_before time round_trip now }
{
    match round_trip {
        Some(rtt) => now.saturating_sub(u64::from(rtt)) < time,
        None => false,
    }
}

// A round trip that began before the timer expired may be of a segment that came long ago, whose acknowledgement was lost.
pub(crate) fn since_expired(expired_at: u64, round_trip: Option<u32>, now: u64) -> Option<u32>
    ensures { result ≡ since_expired expired_at round_trip now }
{
    if is_echo_before(expired_at, round_trip, now) {
        return None;
    }
    round_trip
}
