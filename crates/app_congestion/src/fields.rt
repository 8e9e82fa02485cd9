//! The states without enums, to be kept in memory of C.

ghost use Rattle.std.specs.Prelude.{◌≤◌, ◌<◌, ◌*◌};

use crate::congestion::Congestion;
use crate::estimate::Estimate;
use crate::phase::Phase;
use crate::rto::Rto;

/// A `Rto`.
#[repr(C)]
#[derive(Debug, Clone, Copy)]
pub struct RtoFields {
    // If there was a sample.
    estimate: Estimate,
    timeout: u32,
    is_sampled: bool,
    ghost low: { 200 ≤ timeout },
    ghost high: { timeout ≤ 60000 },
}

/// A `Congestion`.
#[repr(C)]
#[derive(Debug, Clone, Copy)]
pub struct CongestionFields {
    mss: u32,
    cwnd: u32,
    ssthresh: u32,
    acked: u32,
    first_flight: u32,
    // In fast recovery and after it.
    recover: u32,
    duplicates: u8,
    is_recovering: bool,
    is_recovered: bool,
    is_resent: bool,
    ghost some: { 1 ≤ mss },
    ghost small: { mss ≤ 65535 },
    ghost low: { mss ≤ cwnd },
    ghost high: { cwnd ≤ 1073741824 },
    ghost two: { 2 * mss ≤ ssthresh },
    ghost bound: { ssthresh ≤ 1073741824 },
    ghost counted: { acked < cwnd },
}

impl Rto {
    ghost use Rattle.std.specs.Prelude.{◌≡◌};
    ghost use Rattle.app_congestion.specs.Fields.{rto_of};

    /// Its fields.
    #[inline(always)]
    pub fn fields(&self) -> RtoFields
        ensures { rto_of result ≡ self.now }
    {
        RtoFields {
            estimate: self.estimate.unwrap_or(Estimate {
                srtt_8: 0,
                rttvar_4: 0,
            }),
            timeout: self.timeout,
            is_sampled: self.estimate.is_some(),
        }
    }
}

impl RtoFields {
    ghost use Rattle.std.specs.Prelude.{◌≡◌};
    ghost use Rattle.app_congestion.specs.Fields.{rto_of};

    /// The value with these fields.
    #[inline(always)]
    pub fn value(&self) -> Rto
        ensures { result ≡ rto_of self.now }
    {
        Rto {
            estimate: if self.is_sampled {
                Some(self.estimate)
            } else {
                None
            },
            timeout: self.timeout,
        }
    }
}

impl Congestion {
    ghost use Rattle.std.specs.Prelude.{◌≡◌};
    ghost use Rattle.app_congestion.specs.Fields.{congestion_of};

    /// Its fields.
    #[inline(always)]
    pub fn fields(&self) -> CongestionFields
        ensures { congestion_of result ≡ self.now }
    {
        let (is_recovering, is_recovered, recover) = match self.phase {
            Phase::Open => (false, false, 0),
            Phase::Recovery(recover) => (true, false, recover),
            Phase::Recovered(recover) => (false, true, recover),
        };
        CongestionFields {
            mss: self.mss,
            cwnd: self.cwnd,
            ssthresh: self.ssthresh,
            acked: self.acked,
            first_flight: self.first_flight,
            recover,
            duplicates: self.duplicates,
            is_recovering,
            is_recovered,
            is_resent: self.is_resent,
        }
    }
}

impl CongestionFields {
    ghost use Rattle.std.specs.Prelude.{◌≡◌};
    ghost use Rattle.app_congestion.specs.Fields.{congestion_of, phase_of};

    /// The value with these fields.
    #[inline(always)]
    pub fn value(&self) -> Congestion
        ensures { result ≡ congestion_of self.now }
    {
        Congestion {
            mss: self.mss,
            cwnd: self.cwnd,
            ssthresh: self.ssthresh,
            acked: self.acked,
            duplicates: self.duplicates,
            first_flight: self.first_flight,
            phase: self.phase(),
            is_resent: self.is_resent,
        }
    }

    fn phase(&self) -> Phase
        ensures { result ≡ phase_of self.now }
    {
        if self.is_recovering {
            Phase::Recovery(self.recover)
        } else if self.is_recovered {
            Phase::Recovered(self.recover)
        } else {
            Phase::Open
        }
    }
}
