//! The timers, in milliseconds on the caller's clock.

ghost use Rattle.std.specs.Prelude.{◌≡◌, ◌≤◌, ◌+◌, ◌<◌, min, true, false, if◌then◌else◌, Option, Some, None, IfSome};
ghost use Rattle.app_socket.specs.Resends.{is_due};
ghost use Rattle.app_socket.specs.Times.{later, earlier, first_of, first_in_set_up, first_in_time_wait};

// How long the peer may stay silent while the connection is set up, and later while something waits for it (RFC 9293,
// section 3.8.3).
const SYN_PATIENCE: u64 = 180_000;

const USER_TIMEOUT: u64 = 300_000;

// Twice the maximum segment lifetime (section 3.4.3), of 30 s.
const TIME_WAIT: u64 = 60_000;

// Between two keep-alive probes, and how many of them stay without an answer.
const KEEP_ALIVE_INTERVAL: u64 = 75_000;

const KEEP_ALIVE_PROBES: u64 = 9;

// How long an acknowledgement waits for text (section 3.8.6.3: less than 500).
const ACK_DELAY: u64 = 40;

// The timers of a connection.
#[derive(Debug, Clone, Copy)]
pub(crate) struct Timers {
    // When the connection ends if the peer stays silent.
    pub(crate) ends_at: u64,
    // Retransmission or persist; None: nothing waits for the peer.
    pub(crate) resend_at: Option<u64>,
    // When an acknowledgement has to go.
    pub(crate) ack_at: Option<u64>,
    // When the next keep-alive probe goes, if nothing waits.
    pub(crate) probe_at: u64,
}

// Whether it is time.
pub(crate) fn is_reached(time: Option<u64>, now: u64) -> bool
    ensures value { result ≡ is_due time now }
    ensures before { result ≡ false → IfSome time (λ t. now < t) }
{
    match time {
        Some(time) => time <= now,
        None => false,
    }
}

// The earlier one.
fn earlier(time: Option<u64>, other: u64) -> u64
    ensures { result ≡ earlier time other }
{
    match time {
        Some(time) => time.min(other),
        None => other,
    }
}

impl Timers {
    // No connection.
    pub(crate) fn new() -> Timers {
        Timers {
            ends_at: 0,
            resend_at: None,
            ack_at: None,
            probe_at: 0,
        }
    }

    // A SYN goes out.
    pub(crate) fn begin(&mut self, now: u64, rto: u32)
        ensures { self.new
            ≡ record self.old { ends_at = later now 180000; resend_at = Some (later now rto); ack_at = None } }
    {
        self.ends_at = now.saturating_add(SYN_PATIENCE);
        self.resend_at = Some(now.saturating_add(u64::from(rto)));
        self.ack_at = None;
    }

    // The retransmission timer starts anew if something waits.
    pub(crate) fn restart(&mut self, now: u64, rto: u32, waits: bool)
        ensures { self.new ≡ record self.old { resend_at = if waits then Some (later now rto) else None } }
    {
        self.resend_at = if waits {
            Some(now.saturating_add(u64::from(rto)))
        } else {
            None
        };
    }

    // The retransmission timer runs if something waits, and only then. Where something begins to wait, the peer's patience ends
    // with the user timeout.
    pub(crate) fn run(&mut self, now: u64, rto: u32, waits: bool)
        ensures off { waits ≡ false → self.new ≡ record self.old { resend_at = None } }
        ensures starts { waits ≡ true → self.old.resend_at ≡ None → self.new
            ≡ record self.old { resend_at = Some (later now rto); ends_at = min self.old.ends_at (later now 300000) } }
        ensures runs { waits ≡ true → IfSome self.old.resend_at (λ t. self.new ≡ self.old) }
        ensures lasts { min self.old.ends_at (later now 300000) ≤ self.new.ends_at }
    {
        if !waits {
            self.resend_at = None;
        } else if self.resend_at.is_none() {
            self.resend_at = Some(now.saturating_add(u64::from(rto)));
            self.ends_at = self.ends_at.min(now.saturating_add(USER_TIMEOUT));
        }
    }

    // A segment of the peer came.
    pub(crate) fn hear(&mut self, now: u64, idle: u64, waits: bool)
        requires { idle ≤ 4294967295000 }
        ensures { self.new ≡ record self.old {
          ends_at = later now (if waits then 300000 else idle + 675000);
          probe_at = later now idle;
        } }
    {
        let patience = if waits {
            USER_TIMEOUT
        } else {
            idle + KEEP_ALIVE_PROBES * KEEP_ALIVE_INTERVAL
        };
        self.ends_at = now.saturating_add(patience);
        self.probe_at = now.saturating_add(idle);
    }

    // TIME-WAIT begins again.
    pub(crate) fn linger(&mut self, now: u64)
        ensures { self.new ≡ record self.old { ends_at = later now 60000 } }
    {
        self.ends_at = now.saturating_add(TIME_WAIT);
    }

    // An acknowledgement has to go, at once or with the text of the next 40 ms.
    pub(crate) fn owe(&mut self, now: u64, at_once: bool)
        ensures { self.new ≡ record self.old { ack_at = Some (if at_once then now else later now 40) } }
    {
        self.ack_at = Some(if at_once {
            now
        } else {
            now.saturating_add(ACK_DELAY)
        });
    }

    // A keep-alive probe goes out.
    pub(crate) fn probe(&mut self, now: u64)
        ensures { self.new ≡ record self.old { probe_at = later now 75000 } }
    {
        self.probe_at = now.saturating_add(KEEP_ALIVE_INTERVAL);
    }

    // When there is something to do in the set-up.
    pub(crate) fn first_in_set_up(&self) -> u64
        ensures { result ≡ first_in_set_up self.now }
    {
        earlier(self.resend_at, self.ends_at)
    }

    // The same in TIME-WAIT.
    pub(crate) fn first_in_time_wait(&self) -> u64
        ensures { result ≡ first_in_time_wait self.now }
    {
        earlier(self.ack_at, self.first_in_set_up())
    }

    // When there is something to do in an open connection.
    pub(crate) fn first(&self) -> u64
        ensures { result ≡ first_of self.now }
    {
        let time = match self.resend_at {
            Some(time) => time,
            None => self.probe_at,
        };
        earlier(self.ack_at, time.min(self.ends_at))
    }
}
