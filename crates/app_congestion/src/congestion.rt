//! The congestion window (RFC 5681) with NewReno (RFC 6582), limited transmit (RFC 3042), byte counting (RFC 3465) and validation
//! (RFC 7661), in bytes.

ghost use Rattle.std.specs.Prelude.{◌≤◌, ◌<◌, ◌*◌};

use crate::phase::{Phase, outside, window_of};
use tcp_stream::is_before;

/// The largest congestion window: more than the largest window of a receiver (RFC 7323, section 2.3).
pub const MAX_CWND: u32 = 1 << 30;

// How many duplicate acknowledgements are a loss.
const THRESHOLD: u8 = 3;
// For how many of them limited transmit sends a segment.
const LIMITED: u8 = 2;

/// How much a sender may have in flight, with a call for each event.
#[derive(Debug, Clone, Copy)]
pub struct Congestion {
    // SMSS
    pub(crate) mss: u32,
    // With the segments that limited transmit allows, until new data is acknowledged.
    pub(crate) cwnd: u32,
    pub(crate) ssthresh: u32,
    // Bytes acknowledged in congestion avoidance since cwnd grew.
    pub(crate) acked: u32,
    pub(crate) duplicates: u8,
    // FlightSize at the first of them.
    pub(crate) first_flight: u32,
    pub(crate) phase: Phase,
    // Whether the timer has sent the first segment again.
    pub(crate) is_resent: bool,
    ghost some: { 1 ≤ mss },
    ghost small: { mss ≤ 65535 },
    ghost low: { mss ≤ cwnd },
    ghost high: { cwnd ≤ 1073741824 },
    ghost two: { 2 * mss ≤ ssthresh },
    ghost bound: { ssthresh ≤ 1073741824 },
    ghost counted: { acked < cwnd },
}

impl Congestion {
    ghost use Rattle.std.specs.Prelude.{◌≡◌, ◌+◌, ◌/◌, ◌==◌, ◌&&◌, not, max, min, true, false};
    ghost use Rattle.app_congestion.specs.Congestion.{sender_of, begins, halved, capped, is_past, is_partial, is_in_recovery, is_third, grown, limit_of, unchanged, allowed, partial, acknowledged, duplicated, probed, timed_out, restarted, undone};

    /// A connection with this maximum segment size (SMSS); 0 counts as 1. Its initial window is that of RFC 6928: 10 segments
    /// of up to 1,460 bytes.
    pub fn new(mss: u16) -> Congestion
        ensures { sender_of result ≡ begins (max 1 mss) }
    {
        let mss = u32::from(mss.max(1));
        Congestion {
            mss,
            cwnd: window_of(mss),
            ssthresh: MAX_CWND,
            acked: 0,
            duplicates: 0,
            first_flight: 0,
            phase: Phase::Open,
            is_resent: false,
        }
    }

    /// The path takes smaller segments (RFC 1191, RFC 8201): SMSS is at most this one; 0 counts as 1.
    pub fn lower_mss(&mut self, mss: u16)
        ensures { sender_of self.new ≡ record (sender_of self.old) { mss = min (max 1 mss) self.old.mss } }
    {
        self.mss = self.mss.min(u32::from(mss.max(1)));
    }

    /// The congestion window (cwnd): from one segment to `MAX_CWND`. After a first or second duplicate acknowledgement it
    /// includes what limited transmit allows.
    pub fn cwnd(&self) -> u32
        ensures value { result ≡ self.now.cwnd }
        ensures low { self.now.mss ≤ result }
        ensures high { result ≤ 1073741824 }
    {
        self.cwnd
    }

    /// The slow start threshold (ssthresh): at least two segments, and `MAX_CWND` before the first loss.
    pub fn ssthresh(&self) -> u32
        ensures value { result ≡ self.now.ssthresh }
        ensures two { 2 * self.now.mss ≤ result }
    {
        self.ssthresh
    }

    /// What was done for a loss was not needed: cwnd and ssthresh are these again, as before it (RFC 4015).
    pub fn undo(&mut self, cwnd: u32, ssthresh: u32)
        ensures { sender_of self.new ≡ undone (sender_of self.old) cwnd ssthresh }
    {
        let cwnd = cwnd.max(self.mss).min(MAX_CWND);
        let ssthresh = ssthresh.max(2 * self.mss).min(MAX_CWND);
        *self = Congestion {
            mss: self.mss,
            cwnd,
            ssthresh,
            acked: 0,
            duplicates: 0,
            first_flight: self.first_flight,
            phase: Phase::Open,
            is_resent: false,
        };
    }

    /// Whether it is in fast recovery.
    pub fn is_recovering(&self) -> bool
        ensures { result ≡ is_in_recovery self.now.phase }
    {
        matches!(self.phase, Phase::Recovery(_))
    }

    /// How many bytes may be sent, with `flight` bytes in flight and this window of the receiver (SND.WND).
    pub fn may_send(&self, window: u32, flight: u32) -> u32
        ensures { result + flight ≡ max flight (min window self.now.cwnd) }
    {
        window.min(self.cwnd).saturating_sub(flight)
    }

    /// An acknowledgement of `newly` bytes, which leaves `flight` bytes in flight from `una` on (SND.UNA). That of the SYN does
    /// not count (RFC 6928, section 2). cwnd does not grow if less than half of it was in flight (RFC 7661). Takes away again what
    /// limited transmit allowed. Returns whether to send the segment at `una` again now: in fast recovery, after a partial
    /// acknowledgement (RFC 6582, section 3.2).
    pub fn on_ack(&mut self, newly: u32, flight: u32, una: u32) -> bool
        ensures sender { sender_of self.new ≡ acknowledged (sender_of self.old) newly flight una }
        ensures again { result ≡ (not (newly == 0) && is_partial self.old.phase una) }
        ensures slow { is_in_recovery self.old.phase ≡ false → self.new.cwnd ≤ self.old.cwnd + 2 * self.old.mss }
        ensures once { is_in_recovery self.old.phase ≡ false → self.old.ssthresh < 1073741824 → self.new.cwnd ≤ self.old.cwnd + self.old.mss }
        ensures unused { is_in_recovery self.old.phase ≡ false → 2 * (flight + newly) < unchanged (sender_of self.old) → self.new.cwnd ≤ self.old.cwnd }
        ensures deflated { is_in_recovery self.old.phase ≡ true → is_in_recovery self.new.phase ≡ false → self.new.cwnd ≤ self.old.ssthresh }
    {
        if newly == 0 {
            return false;
        }
        self.is_resent = false;
        match self.phase {
            Phase::Open => self.grow(newly, flight),
            Phase::Recovered(recover) => {
                self.phase = outside(recover, una);
                self.grow(newly, flight);
            }
            Phase::Recovery(recover) => {
                self.duplicates = 0;
                if is_before(una, recover) {
                    self.deflate(newly);
                    return true;
                }
                self.acked = 0;
                self.cwnd = self
                    .ssthresh
                    .min(flight.max(self.mss).saturating_add(self.mss));
                self.phase = outside(recover, una);
            }
        }
        false
    }

    /// A duplicate acknowledgement (RFC 5681, section 2) with `flight` bytes in flight from `una` on (SND.UNA). `next` is the
    /// number after the highest one that was sent. The first and the second one allow a segment more (limited transmit, RFC
    /// 3042). Returns whether to send the segment at `una` again now (fast retransmit).
    pub fn on_duplicate(&mut self, flight: u32, una: u32, next: u32) -> bool
        ensures sender { sender_of self.new ≡ duplicated (sender_of self.old) flight una next }
        ensures again { result ≡ (not (is_in_recovery self.old.phase) && is_third (sender_of self.old) una) }
        ensures recovers { result ≡ true → self.new.phase ≡ Phase.Recovery next }
        ensures half { result ≡ true → self.new.ssthresh ≤ max (flight / 2) (2 * self.old.mss) }
    {
        if let Phase::Recovery(_) = self.phase {
            self.widen(self.mss);
            return false;
        }
        if self.duplicates == 0 {
            self.first_flight = flight;
        }
        self.duplicates = self.duplicates.saturating_add(1);
        if self.duplicates <= LIMITED {
            self.widen(self.mss);
            return false;
        }
        if self.duplicates != THRESHOLD || !self.is_past(una) {
            return false;
        }
        self.ssthresh = self.half(flight.min(self.first_flight));
        self.cwnd = (self.ssthresh + 3 * self.mss).min(MAX_CWND);
        self.acked = 0;
        self.phase = Phase::Recovery(next);
        true
    }

    /// A loss probe repaired a loss (RFC 8985, section 7.4): the segment at SND.UNA was lost, with `flight` bytes in flight.
    /// `next` is the number after the highest one that was sent. Fast recovery begins. In it the segment was sent again before,
    /// and ssthresh is halved again (RFC 5681, section 4.3).
    pub fn on_probe(&mut self, flight: u32, next: u32)
        ensures sender { sender_of self.new ≡ probed (sender_of self.old) flight next }
        ensures half { self.new.ssthresh ≤ max (flight / 2) (2 * self.old.mss) }
        ensures cwnd { self.new.cwnd ≡ self.new.ssthresh }
    {
        self.ssthresh = self.half(flight.min(self.allowed()));
        self.cwnd = self.ssthresh;
        self.acked = 0;
        self.duplicates = 0;
        self.phase = Phase::Recovery(next);
    }

    /// The retransmission timer expired with `flight` bytes in flight. `next` is the number after the highest one that was
    /// sent. The segment at SND.UNA is sent again.
    pub fn on_timeout(&mut self, flight: u32, next: u32)
        ensures sender { sender_of self.new ≡ timed_out (sender_of self.old) flight next }
        ensures one { self.new.cwnd ≡ self.old.mss }
        ensures half { self.old.is_resent ≡ false → self.new.ssthresh ≤ max (flight / 2) (2 * self.old.mss) }
    {
        if !self.is_resent {
            self.ssthresh = self.half(flight);
        }
        self.cwnd = self.mss;
        self.acked = 0;
        self.duplicates = 0;
        self.phase = Phase::Recovered(next);
        self.is_resent = true;
    }

    /// Data is to be sent, and none was for longer than the timeout (RFC 5681, section 4.1).
    pub fn on_idle(&mut self)
        ensures { sender_of self.new ≡ restarted (sender_of self.old) }
    {
        self.cwnd = self.cwnd.min(window_of(self.mss));
        self.acked = 0;
    }

    /// The connection is established, and its SYN was sent more than twice (RFC 6928, section 2): cwnd is one segment.
    pub fn after_lost_syn(&mut self)
        ensures { sender_of self.new ≡ record (sender_of self.old) { cwnd = self.old.mss; acked = 0 } }
    {
        self.cwnd = self.mss;
        self.acked = 0;
    }

    // New data is acknowledged outside fast recovery: the window grows from what it was before limited transmit, if it was used.
    fn grow(&mut self, newly: u32, flight: u32)
        ensures { sender_of self.new ≡ grown (record (sender_of self.old) { cwnd = unchanged (sender_of self.old); duplicates = 0 }) newly flight }
    {
        let cwnd = self.unchanged();
        let used = u64::from(flight) + u64::from(newly);
        self.cwnd = cwnd;
        self.duplicates = 0;
        if 2 * used < u64::from(cwnd) {
            self.acked = 0;
        } else if cwnd < self.ssthresh {
            self.acked = 0;
            self.cwnd = (cwnd + newly.min(self.limit())).min(MAX_CWND);
        } else if newly < cwnd.saturating_sub(self.acked) {
            self.acked += newly;
        } else {
            self.acked = 0;
            self.cwnd = (cwnd + self.mss).min(MAX_CWND);
        }
    }

    // The most that slow start adds for an acknowledgement.
    fn limit(&self) -> u32
        ensures { result ≡ limit_of (sender_of self.now) }
    {
        if self.ssthresh == MAX_CWND {
            2 * self.mss
        } else {
            self.mss
        }
    }

    /// The window without the segments that limited transmit allows.
    pub fn unchanged(&self) -> u32
        ensures { result ≡ unchanged (sender_of self.now) }
    {
        let limited = u32::from(self.duplicates.min(LIMITED)) * self.mss;
        self.cwnd.saturating_sub(limited).max(self.mss)
    }

    // What counts as in flight at most: in fast recovery cwnd is inflated.
    fn allowed(&self) -> u32
        ensures { result ≡ allowed (sender_of self.now) }
    {
        if self.is_recovering() {
            self.ssthresh
        } else {
            self.unchanged()
        }
    }

    // A larger window, at most the largest.
    fn widen(&mut self, count: u32)
        ensures { sender_of self.new ≡ record (sender_of self.old) { cwnd = capped (self.old.cwnd + count) } }
    {
        self.cwnd = self.cwnd.saturating_add(count).min(MAX_CWND);
    }

    // A partial acknowledgement.
    fn deflate(&mut self, newly: u32)
        ensures { sender_of self.new ≡ partial (sender_of self.old) newly }
    {
        let back = if newly < self.mss { 0 } else { self.mss };
        let cwnd = self.cwnd.saturating_sub(newly) + back;
        self.acked = 0;
        self.cwnd = cwnd.min(MAX_CWND).max(self.mss);
    }

    // The new ssthresh after a loss.
    fn half(&self, flight: u32) -> u32
        ensures { result ≡ halved (sender_of self.now) flight }
    {
        (flight / 2).max(2 * self.mss).min(MAX_CWND)
    }

    // Whether more than `recover` is acknowledged.
    fn is_past(&self, una: u32) -> bool
        ensures { result ≡ is_past self.now.phase una }
    {
        match self.phase {
            Phase::Open => true,
            Phase::Recovery(recover) | Phase::Recovered(recover) => is_before(recover, una),
        }
    }
}
