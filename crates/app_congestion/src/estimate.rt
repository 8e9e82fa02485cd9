//! The estimate of the round-trip time (RFC 6298, section 2).

ghost use Rattle.std.specs.Prelude.{◌≡◌, Some, None};
ghost use Rattle.app_congestion.specs.Rto.{probe_of, sampled, timeout_of};

use crate::rto::{MAX_RTO, MIN_PROBE, MIN_RTO};

// SRTT and RTTVAR, in milliseconds.
#[repr(C)]
#[derive(Debug, Clone, Copy, PartialEq, Eq)]
pub(crate) struct Estimate {
    // 8 * SRTT
    pub(crate) srtt_8: u64,
    // 4 * RTTVAR
    pub(crate) rttvar_4: u64,
}

impl Estimate {
    // The first sample (section 2.2).
    pub(crate) fn first(rtt: u32) -> Estimate
        ensures { result ≡ sampled None rtt }
    {
        Estimate {
            srtt_8: 8 * u64::from(rtt),
            rttvar_4: 2 * u64::from(rtt),
        }
    }

    // A further sample (section 2.3): RTTVAR is updated by the old SRTT.
    pub(crate) fn next(&self, rtt: u32) -> Estimate
        ensures { result ≡ sampled (Some self.now) rtt }
    {
        let rtt = u64::from(rtt);
        Estimate {
            srtt_8: self.srtt_8 - self.srtt_8 / 8 + rtt,
            rttvar_4: self.rttvar_4 - self.rttvar_4 / 4 + (self.srtt_8 / 8).abs_diff(rtt),
        }
    }

    // The timeout (sections 2.3 and 2.5).
    pub(crate) fn timeout(&self) -> u32
        ensures { result ≡ timeout_of self.now }
    {
        let timeout = (self.srtt_8 / 8).saturating_add(self.rttvar_4.max(u64::from(MIN_RTO)));
        timeout.min(u64::from(MAX_RTO)) as u32
    }

    // When a loss probe goes.
    pub(crate) fn probe(&self) -> u32
        ensures { result ≡ probe_of self.now }
    {
        let timeout = (self.srtt_8 / 4).saturating_add(self.rttvar_4.max(u64::from(MIN_PROBE)));
        timeout.min(u64::from(MAX_RTO)) as u32
    }
}
