//! Timestamps, and protection against wrapped sequence numbers (PAWS; RFC 7323, sections 3 to 5).

ghost use Rattle.std.specs.Prelude.{◌≡◌};
ghost use Rattle.app_options.specs.Timestamps.{is_old, since, stamp};

use tcp_stream::{is_ahead, is_before};

// How many timestamps there are.
const CLOCK: u64 = 1 << 32;

// How long TS.Recent is valid, in milliseconds: 24 days (section 5.5).
const VALID: u64 = 24 * 24 * 3600 * 1000;

// The timestamp that the peer sent last in order (TS.Recent), and when it came.
#[repr(C)]
#[derive(Debug, Clone, Copy)]
pub(crate) struct Recent {
    pub(crate) value: u32,
    pub(crate) heard_at: u64,
}

impl Recent {
    // Whether a timestamp is older, so that its segment may be one of an earlier round of the sequence numbers.
    pub(crate) fn is_after(&self, tsval: u32, now: u64) -> bool
        ensures { result ≡ is_old self.now tsval now }
    {
        let is_valid = now <= self.heard_at.saturating_add(VALID);
        is_valid && is_before(tsval, self.value)
    }
}

// The timestamp at this time, in milliseconds from a secret beginning (section 5.4).
pub(crate) fn stamp(offset: u32, now: u64) -> u32
    ensures { result ≡ stamp offset now }
{
    offset.wrapping_add((now % CLOCK) as u32)
}

// The time since the clock showed this timestamp, if it is not ahead of the clock.
pub(crate) fn since(offset: u32, stamped: u32, now: u64) -> Option<u32>
    ensures { result ≡ since offset stamped now }
{
    let clock = stamp(offset, now);
    if is_ahead(stamped, clock) {
        Some(clock.wrapping_sub(stamped))
    } else {
        None
    }
}
