//! The retransmission timer (RFC 6298), in milliseconds.

ghost use Rattle.std.specs.Prelude.{◌≤◌};

use crate::estimate::Estimate;

/// The shortest timeout, and by how much it is longer than the round trip (SRTT): 200 ms. RFC 6298, section 2.4, has 1 s; see
/// docs/DECISIONS.md.
pub const MIN_RTO: u32 = 200;

/// The longest timeout: 60 s (section 2.5).
pub const MAX_RTO: u32 = 60_000;

// By how much a loss probe is later than two round trips, at least.
pub(crate) const MIN_PROBE: u32 = 10;

// The timeout before the first sample (section 2.1), and after the SYN was sent again (section 5.7).
const INITIAL_RTO: u32 = 1_000;

const RTO_AFTER_SYN: u32 = 3_000;

/// The timeout of the retransmission timer. The caller runs the timer (section 5).
#[derive(Debug, Clone, Copy)]
pub struct Rto {
    pub(crate) estimate: Option<Estimate>,
    pub(crate) timeout: u32,
    ghost low: { 200 ≤ timeout },
    ghost high: { timeout ≤ 60000 },
}

impl Rto {
    ghost use Rattle.std.specs.Prelude.{◌≡◌, ◌+◌, ◌*◌, min, Some, None, IfSome};
    ghost use Rattle.app_congestion.specs.Rto.{IsRounded, probe_after, sampled, srtt_of, timeout_of};

    /// Before the first sample: 1 s (section 2.1).
    pub fn new() -> Rto
        ensures estimate { result.estimate ≡ None }
        ensures timeout { result.timeout ≡ 1000 }
    {
        Rto {
            estimate: None,
            timeout: INITIAL_RTO,
        }
    }

    /// The timeout in milliseconds, from `MIN_RTO` to `MAX_RTO`.
    pub fn timeout(&self) -> u32
        ensures value { result ≡ self.now.timeout }
        ensures low { 200 ≤ result }
        ensures high { result ≤ 60000 }
    {
        self.timeout
    }

    /// When a loss probe goes (RFC 8985, section 7.2), in milliseconds: after 2 SRTT and at least 10 ms, 4 RTTVAR if that is
    /// more, and at most the timeout. The timeout before the first sample.
    pub fn probe_timeout(&self) -> u32
        ensures value { result ≡ probe_after self.now.estimate self.now.timeout }
        ensures low { 10 ≤ result }
        ensures high { result ≤ self.now.timeout }
    {
        match &self.estimate {
            None => self.timeout,
            Some(estimate) => estimate.probe().min(self.timeout),
        }
    }

    /// Takes a round-trip time in milliseconds (sections 2.2 and 2.3), and ends the back-off (section 5). Never pass that of a
    /// segment that was sent twice, whose acknowledgement may be for either (section 3, Karn's algorithm).
    pub fn on_sample(&mut self, rtt: u32)
        ensures estimate { self.new.estimate ≡ Some (sampled self.old.estimate rtt) }
        ensures timeout { self.new.timeout ≡ timeout_of (sampled self.old.estimate rtt) }
        ensures rounded { IfSome self.old.estimate (λ e. IsRounded e (sampled self.old.estimate rtt) rtt) }
        ensures above { min 60000 (srtt_of (sampled self.old.estimate rtt) + 200) ≤ self.new.timeout }
    {
        let estimate = match &self.estimate {
            None => Estimate::first(rtt),
            Some(estimate) => estimate.next(rtt),
        };
        self.timeout = estimate.timeout();
        self.estimate = Some(estimate);
    }

    /// The timer expired (section 5.5): doubles the timeout, up to `MAX_RTO`.
    pub fn back_off(&mut self)
        ensures estimate { self.new.estimate ≡ self.old.estimate }
        ensures timeout { self.new.timeout ≡ min 60000 (2 * self.old.timeout) }
    {
        self.timeout = (2 * self.timeout).min(MAX_RTO);
    }

    /// The connection is established, and its SYN was sent more than once (section 5.7): 3 s.
    pub fn after_lost_syn(&mut self)
        ensures estimate { self.new.estimate ≡ self.old.estimate }
        ensures timeout { self.new.timeout ≡ 3000 }
    {
        self.timeout = RTO_AFTER_SYN;
    }
}
