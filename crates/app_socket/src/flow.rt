//! What is remembered of what is sent, and when it goes again (RFC 6298, RFC 5681, RFC 6582).

ghost use Rattle.std.specs.Prelude.{◌≡◌, ◌<◌, ◌≤◌, ◌⊎◌, ◌+◌, ◌-◌, ◌%◌, ◌==◌, ◌&&◌, ℕ, true, false, not, nat_lt, min, max, Some, None, IfSome};
ghost use Rattle.app_congestion.specs.Congestion.{acknowledged, begins, duplicated, is_in_recovery, is_partial, is_past, is_third, restarted, sender_of};
ghost use Rattle.app_congestion.specs.Scoreboard.{has, total};
ghost use Rattle.app_socket.specs.Pieces.{IsSacked, IsWithin};
ghost use Rattle.app_socket.specs.Resends.{BacksOff, Samples, TimesOut, is_idle, is_probe_useful, next_in, ChangesRecovery, SamplesTimed};
ghost use Rattle.app_socket.specs.Probes.{is_probing, phase_heard, repaired, timer_of};
ghost use Rattle.app_socket.specs.Undo.{IsUndone, Undoes, is_echo_before, is_spurious, saved, since_expired};

use crate::undo::{Undo, is_echo_before, since_expired};
use app_congestion::{Congestion, Rto, Scoreboard};

// A segment whose round trip is timed.
#[repr(C)]
#[derive(Debug, Clone, Copy)]
pub(crate) struct Timed {
    // The number after its last item.
    pub(crate) end: u32,
    pub(crate) sent_at: u64,
}

// The state of what is sent.
#[derive(Debug, Clone, Copy)]
pub(crate) struct Flow {
    pub(crate) rto: Rto,
    pub(crate) congestion: Congestion,
    // Only a segment that was sent once (Karn's algorithm).
    pub(crate) timing: Option<Timed>,
    // How many items after SND.UNA were sent since the last time-out.
    pub(crate) cursor: u32,
    // Whether the first segment goes again at once.
    pub(crate) resend: bool,
    // What the peer has after a gap, in items after SND.UNA.
    pub(crate) scoreboard: Scoreboard,
    // Up to where holes were sent again in this fast recovery.
    pub(crate) rescued: u32,
    // The largest SND.WND so far.
    pub(crate) max_window: u32,
    // Whether the timer expired since the last sample of the round trip.
    pub(crate) is_probed: bool,
    // Whether a loss probe is out: nothing was acknowledged since, and nothing else showed a loss.
    pub(crate) has_probe: bool,
    // What a spurious retransmission restores, and when the timer expired last.
    pub(crate) undo: Undo,
    pub(crate) expired_at: u64,
    // When text or a FIN was sent last.
    pub(crate) sent_at: u64,
}

// What the choice of the next segment sees of a connection.
#[derive(Debug, Clone, Copy)]
pub(crate) struct Queue {
    // SND.UNA, SND.NXT - SND.UNA, and SND.WND
    pub(crate) una: u32,
    pub(crate) flight: u32,
    pub(crate) window: u32,
    // Items after SND.NXT.
    pub(crate) unsent: usize,
    // Whether a FIN waits.
    pub(crate) has_fin: bool,
    pub(crate) mss: u16,
    pub(crate) is_eager: bool,
}

// Why a segment goes.
#[derive(Debug, Clone, Copy, PartialEq, Eq)]
pub(crate) enum Kind {
    // Only new items.
    New,
    // Items that were sent before, and maybe new ones after them.
    Again,
    // One item of a closed window.
    Probe,
}

// A part of what waits: from this item after SND.UNA, and at most so many.
#[derive(Debug, Clone, Copy)]
pub(crate) struct Piece {
    pub(crate) offset: u32,
    pub(crate) count: u32,
    pub(crate) kind: Kind,
}

impl Queue {
    // SND.NXT
    fn next(&self) -> u32
        ensures { result ≡ next_in self.now }
    {
        self.una.wrapping_add(self.flight)
    }
}

impl Flow {
    pub(crate) fn new() -> Flow {
        Flow {
            rto: Rto::new(),
            congestion: Congestion::new(0),
            timing: None,
            cursor: 0,
            resend: false,
            scoreboard: Scoreboard::new(),
            rescued: 0,
            max_window: 0,
            is_probed: false,
            has_probe: false,
            undo: Undo::NONE,
            expired_at: 0,
            sent_at: 0,
        }
    }

    // The timeout of the retransmission timer, in milliseconds.
    pub(crate) fn timeout(&self) -> u32
        ensures value { result ≡ self.now.rto.timeout }
        ensures low { 0 < result }
        ensures high { result ≤ 60000 }
    {
        self.rto.timeout()
    }

    // For how long the timer runs: until a loss probe, or if one went since the last sample, until the time-out (RFC 8985,
    // sections 7.2 and 7.3).
    pub(crate) fn timer(&self) -> u32
        ensures value { result ≡ timer_of self.now }
        ensures low { 0 < result }
        ensures high { result ≤ 60000 }
    {
        if self.is_probed {
            self.rto.timeout()
        } else {
            self.rto.probe_timeout()
        }
    }

    // Whether the timer is that of a loss probe.
    pub(crate) fn is_probing(&self) -> bool
        ensures { result ≡ is_probing self.now }
    {
        self.timer() < self.rto.timeout()
    }

    // A SYN goes out; `end` is the number after it.
    pub(crate) fn begin(&mut self, end: u32, now: u64)
        ensures same { self.new ≡ record self.old {
          rto = self.new.rto;
          timing = Some (record {
            end = end;
            sent_at = now;
          });
          cursor = 1;
          resend = false;
          scoreboard = self.new.scoreboard;
          rescued = 0;
          max_window = 0;
          is_probed = false;
          has_probe = false;
          undo = record { sent_at = 0; cwnd = 0; ssthresh = 0 };
          expired_at = 0;
        } }
        ensures timeout { self.new.rto.timeout ≡ 1000 }
        ensures estimate { self.new.rto.estimate ≡ None }
        ensures known { (n : ℕ) → has self.new.scoreboard n ≡ false }
    {
        self.rto = Rto::new();
        self.timing = Some(Timed { end, sent_at: now });
        self.cursor = 1;
        self.resend = false;
        self.scoreboard.clear();
        self.rescued = 0;
        self.max_window = 0;
        self.is_probed = false;
        self.has_probe = false;
        self.undo = Undo::NONE;
        self.expired_at = 0;
    }

    // The SYN was acknowledged. One that was sent again is not timed (RFC 6298, section 5.7; RFC 5681, section 3.1).
    pub(crate) fn establish(&mut self, mss: u16, window: u32, now: u64)
        ensures same { self.new ≡ record self.old {
          rto = self.new.rto;
          congestion = self.new.congestion;
          timing = None;
          cursor = 0;
          scoreboard = self.new.scoreboard;
          max_window = window;
        } }
        ensures known { (n : ℕ) → has self.new.scoreboard n ≡ false }
        ensures times { IfSome self.old.timing
            (λ t. Samples self.old.rto self.new.rto (min 4294967295 (now - t.sent_at))) }
        ensures begins { IfSome self.old.timing (λ t. sender_of self.new.congestion ≡ begins (max 1 mss)) }
        ensures lost { self.old.timing ≡ None → self.new.rto.timeout ≡ 3000 }
        ensures slow { self.old.timing ≡ None → self.new.congestion.cwnd ≡ max 1 mss }
    {
        self.congestion = Congestion::new(mss);
        match self.timing {
            Some(timed) => self.rto.on_sample(elapsed(timed.sent_at, now)),
            None => {
                self.rto.after_lost_syn();
                self.congestion.after_lost_syn();
            }
        }
        self.timing = None;
        self.max_window = window;
        self.cursor = 0;
        self.scoreboard.clear();
    }

    // So many items after `una` were newly acknowledged. Timestamps told this round trip.
    pub(crate) fn on_ack(
        &mut self,
        una: u32,
        newly: u32,
        flight: u32,
        round_trip: Option<u32>,
        now: u64,
    )
        ensures same { self.new ≡ record self.old {
          rto = self.new.rto;
          congestion = self.new.congestion;
          timing = self.new.timing;
          cursor = self.new.cursor;
          resend = self.new.resend;
          scoreboard = self.new.scoreboard;
          rescued = self.old.rescued - newly;
          is_probed = self.new.is_probed;
          has_probe = false;
          undo = record self.old.undo { sent_at = 0 };
        } }
        ensures cursor { is_spurious self.old round_trip now ≡ false → self.new.cursor ≡ self.old.cursor - newly }
        ensures known { (n : ℕ) → has self.new.scoreboard n ≡ has self.old.scoreboard (n + newly) }
        ensures sender { is_spurious self.old round_trip now ≡ false → sender_of self.new.congestion
            ≡ acknowledged (repaired self.old (min 4294967295 (newly + flight)) (((una + newly) % 4294967296 + flight) % 4294967296))
            newly flight ((una + newly) % 4294967296) }
        ensures undoes { is_spurious self.old round_trip now ≡ true
            → Undoes self.old self.new newly flight ((una + newly) % 4294967296) }
        ensures calm { is_spurious self.old round_trip now ≡ true → is_in_recovery self.new.congestion.phase ≡ false }
        ensures partial { is_spurious self.old round_trip now ≡ false
            → is_partial (phase_heard self.old (((una + newly) % 4294967296 + flight) % 4294967296)) ((una + newly) % 4294967296)
            ≡ true → 0 < newly → self.old.rescued ≤ newly → self.new.resend ≡ true }
        ensures alone { is_spurious self.old round_trip now ≡ false
            → is_partial (phase_heard self.old (((una + newly) % 4294967296 + flight) % 4294967296)) ((una + newly) % 4294967296)
            ≡ true → 0 < newly → ((n : ℕ) → has self.new.scoreboard n ≡ false) → self.new.resend ≡ true }
        ensures other { is_partial (phase_heard self.old (((una + newly) % 4294967296 + flight) % 4294967296))
            ((una + newly) % 4294967296) ≡ false → self.new.resend ≡ false }
        ensures timed { SamplesTimed self.old self.new una newly now }
        ensures told { self.old.timing ≡ None → IfSome (since_expired self.old.expired_at round_trip now)
            (λ rtt. Samples self.old.rto self.new.rto rtt) }
        ensures stale { self.old.timing ≡ None → is_echo_before self.old.expired_at round_trip now ≡ true
            → self.new.rto ≡ self.old.rto }
        ensures ends { self.old.is_probed ≡ false → self.new.is_probed ≡ false }
    {
        self.time(una, newly, round_trip, now);
        self.cursor = self.cursor.saturating_sub(newly);
        self.rescued = self.rescued.saturating_sub(newly);
        self.scoreboard.advance(newly);
        self.restore(flight, round_trip, now);
        let una = una.wrapping_add(newly);
        self.repair(newly.saturating_add(flight), una.wrapping_add(flight));
        let is_partial = self.congestion.on_ack(newly, flight, una);
        // With SACK the first segment goes only once in a fast recovery.
        self.resend = is_partial && (self.rescued == 0 || self.scoreboard.is_empty());
    }

    // The first acknowledgement after a segment went again: if it echoes a timestamp from before that, nothing was lost, and
    // congestion control is as if the segment had not gone (RFC 3522, section 3.2; RFC 4015). `flight`: what is in flight.
    fn restore(&mut self, flight: u32, round_trip: Option<u32>, now: u64)
        ensures same { self.new ≡ record self.old {
          undo = record self.old.undo { sent_at = 0 };
          congestion = self.new.congestion;
          cursor = self.new.cursor;
          resend = self.new.resend;
          has_probe = self.new.has_probe;
        } }
        ensures undone { is_spurious self.old round_trip now ≡ true → IsUndone self.old self.new flight }
        ensures kept { is_spurious self.old round_trip now ≡ false
            → self.new ≡ record self.old { undo = record self.old.undo { sent_at = 0 } } }
    {
        if is_echo_before(self.undo.sent_at, round_trip, now) {
            self.congestion.undo(self.undo.cwnd, self.undo.ssthresh);
            self.cursor = flight;
            self.resend = false;
            self.has_probe = false;
        }
        self.undo.sent_at = 0;
    }

    // Something new is acknowledged, and nothing shows that it was not lost: if a loss probe is out, it repaired a loss, and
    // congestion control responds (RFC 8985, section 7.4). So many were in flight, up to `next`.
    fn repair(&mut self, flight: u32, next: u32)
        ensures same { self.new ≡ record self.old { congestion = self.new.congestion; has_probe = false } }
        ensures sender { sender_of self.new.congestion ≡ repaired self.old flight next }
        ensures phase { self.new.congestion.phase ≡ phase_heard self.old next }
        ensures other { self.old.has_probe ≡ false → self.new ≡ self.old }
    {
        if self.has_probe {
            self.has_probe = false;
            self.congestion.on_probe(flight, next);
        }
    }

    // A segment goes again, at first of these: what congestion control was is kept until the next acknowledgement.
    fn save(&mut self, congestion: &Congestion, now: u64)
        ensures { self.new
            ≡ record self.old { undo = saved (record self.old { congestion = congestion.now }) now } }
    {
        if self.undo.sent_at == 0 {
            self.undo = Undo {
                sent_at: now,
                cwnd: congestion.unchanged(),
                ssthresh: congestion.ssthresh(),
            };
        }
    }

    // Takes the round trip of the segment that is timed; where none is, since segments went again, the one that timestamps tell
    // (RFC 6298, section 3), unless it began before the timer expired.
    fn time(&mut self, una: u32, newly: u32, round_trip: Option<u32>, now: u64)
        ensures same { self.new
            ≡ record self.old { rto = self.new.rto; timing = self.new.timing; is_probed = self.new.is_probed } }
        ensures timed { SamplesTimed self.old self.new una newly now }
        ensures told { self.old.timing ≡ None → IfSome (since_expired self.old.expired_at round_trip now)
            (λ rtt. Samples self.old.rto self.new.rto rtt) }
        ensures stale { self.old.timing ≡ None → is_echo_before self.old.expired_at round_trip now ≡ true
            → self.new.rto ≡ self.old.rto }
        ensures ends { self.old.is_probed ≡ false → self.new.is_probed ≡ false }
    {
        let sample = match self.timing {
            Some(timed) if timed.end.wrapping_sub(una) > newly => return,
            Some(timed) => Some(elapsed(timed.sent_at, now)),
            None => since_expired(self.expired_at, round_trip, now),
        };
        self.timing = None;
        if let Some(rtt) = sample {
            self.rto.on_sample(rtt);
            self.is_probed = false;
        }
    }

    // The peer has these numbers after a gap (RFC 2018), of the `flight` that were sent after `una`.
    pub(crate) fn on_sack(&mut self, una: u32, flight: u32, first: u32, end: u32)
        ensures same { self.new ≡ record self.old { scoreboard = self.new.scoreboard } }
        ensures known { (n : ℕ) → has self.new.scoreboard n ≡ true
            → (has self.old.scoreboard n ≡ true) ⊎ IsSacked una flight first end n }
    {
        let (from, to) = (first.wrapping_sub(una), end.wrapping_sub(una));
        if to <= flight {
            self.scoreboard.add(from, to);
        }
    }

    // Whether it is in fast recovery.
    pub(crate) fn is_recovering(&self) -> bool
        ensures { result ≡ is_in_recovery self.now.congestion.phase }
    {
        self.congestion.is_recovering()
    }

    // How many items the peer has after a gap.
    pub(crate) fn sacked(&self) -> u32
        ensures { result ≡ total self.now.scoreboard }
    {
        self.scoreboard.total()
    }

    // As many duplicate acknowledgements.
    pub(crate) fn on_duplicates(&mut self, count: u32, flight: u32, una: u32, now: u64)
        ensures same { ChangesRecovery self.old self.new }
        ensures still { self.old.resend ≡ true → self.new.resend ≡ true }
        ensures none { count ≡ 0 → self.new ≡ self.old }
        ensures counts { is_in_recovery self.old.congestion.phase ≡ false → self.old.congestion.duplicates + count < 3
            → (self.new.congestion.phase ≡ self.old.congestion.phase)
            × (self.new.congestion.duplicates ≡ self.old.congestion.duplicates + count) }
        ensures third { is_in_recovery self.old.congestion.phase ≡ false → is_past self.old.congestion.phase una ≡ true
            → self.old.congestion.duplicates < 3 → 3 ≤ self.old.congestion.duplicates + count → self.new.resend ≡ true }
    {
        for _ in 0..count {
            self.on_duplicate(flight, una, now);
        }
    }

    fn on_duplicate(&mut self, flight: u32, una: u32, now: u64)
        ensures same { ChangesRecovery self.old self.new }
        ensures sender { sender_of self.new.congestion
            ≡ duplicated (sender_of self.old.congestion) flight una ((una + flight) % 4294967296) }
        ensures still { self.old.resend ≡ true → self.new.resend ≡ true }
        ensures third { (not (is_in_recovery self.old.congestion.phase) && is_third (sender_of self.old.congestion) una)
            ≡ true → (self.new.resend ≡ true) × ((self.new.rescued ≡ 0) × ((self.new.has_probe ≡ false)
            × (self.new.undo ≡ saved self.old now))) }
        ensures other { (not (is_in_recovery self.old.congestion.phase) && is_third (sender_of self.old.congestion) una)
            ≡ false → self.new ≡ record self.old { congestion = self.new.congestion } }
    {
        let next = una.wrapping_add(flight);
        let before = self.congestion;
        if self.congestion.on_duplicate(flight, una, next) {
            self.save(&before, now);
            self.has_probe = false;
            self.resend = true;
            self.rescued = 0;
        }
    }

    // The peer's window.
    pub(crate) fn on_window(&mut self, window: u32)
        ensures { self.new ≡ record self.old { max_window = max self.old.max_window window } }
    {
        self.max_window = self.max_window.max(window);
    }

    // Something begins to wait, after nothing did. If nothing was sent for longer than the timeout, cwnd is at most the initial
    // window (RFC 5681, section 4.1).
    pub(crate) fn on_wait(&mut self, now: u64)
        ensures same { self.new ≡ record self.old { congestion = self.new.congestion } }
        ensures idle { is_idle self.old now ≡ true
            → sender_of self.new.congestion ≡ restarted (sender_of self.old.congestion) }
        ensures busy { is_idle self.old now ≡ false → self.new ≡ self.old }
    {
        if now > self.sent_at.saturating_add(u64::from(self.timeout())) {
            self.congestion.on_idle();
        }
    }

    // The SYN goes again.
    pub(crate) fn back_off(&mut self)
        ensures same { self.new ≡ record self.old { rto = self.new.rto; timing = None } }
        ensures backs_off { BacksOff self.old.rto self.new.rto }
    {
        self.rto.back_off();
        self.timing = None;
    }

    // The timer of a loss probe expired: the first segment goes again, and congestion control stays (RFC 8985, section 7.3).
    // Nothing happens if the window is closed, while everything goes again, and for one segment, whose acknowledgement the peer
    // may delay.
    pub(crate) fn on_probe(&mut self, queue: &Queue, now: u64)
        ensures same { self.new ≡ record self.old {
          resend = self.new.resend;
          rescued = self.new.rescued;
          is_probed = true;
          has_probe = self.new.has_probe;
          undo = self.new.undo;
          expired_at = now;
        } }
        ensures first { is_probe_useful self.old queue.now ≡ true
            → (self.new.resend ≡ true) × ((self.new.rescued ≡ 0) × (self.new.has_probe ≡ true)) }
        ensures saves { is_probe_useful self.old queue.now ≡ true → self.new.undo ≡ saved self.old now }
        ensures other { is_probe_useful self.old queue.now ≡ false
            → self.new ≡ record self.old { is_probed = true; expired_at = now } }
        ensures still { self.old.resend ≡ true → self.new.resend ≡ true }
    {
        self.is_probed = true;
        self.expired_at = now;
        if queue.window == 0 || queue.flight <= u32::from(queue.mss) || self.cursor < queue.flight {
            return;
        }
        let before = self.congestion;
        self.save(&before, now);
        self.has_probe = true;
        self.resend = true;
        self.rescued = 0;
    }

    // The timer expired: the first segment goes again, or probes a closed window. With nothing in flight it is one that was too
    // small for its window before.
    pub(crate) fn on_timeout(&mut self, queue: &Queue, now: u64) -> Piece
        ensures within { IsWithin result queue.now.window self.new.congestion.cwnd }
        ensures first { result.offset ≡ 0 }
        ensures times_out { TimesOut self.old self.new queue.now now }
        ensures kind { queue.now.window ≡ 0 → result.kind ≡ Kind.Probe }
        ensures again { 0 < queue.now.window → result.kind ≡ Kind.Again }
    {
        self.timing = None;
        self.is_probed = true;
        self.has_probe = false;
        self.expired_at = now;
        self.go_back();
        if queue.window == 0 {
            self.rto.back_off();
            return self.first(queue, Kind::Probe);
        }
        if queue.flight > 0 {
            self.rto.back_off();
            let before = self.congestion;
            self.save(&before, now);
            self.congestion.on_timeout(queue.flight, queue.next());
        }
        self.first(queue, Kind::Again)
    }

    // The path takes smaller segments.
    pub(crate) fn lower_mss(&mut self, mss: u16)
        ensures same { self.new ≡ record self.old { congestion = self.new.congestion } }
        ensures smss { sender_of self.new.congestion
            ≡ record (sender_of self.old.congestion) { mss = min (max 1 mss) self.old.congestion.mss } }
    {
        self.congestion.lower_mss(mss);
    }

    // All goes again, also what the peer had after a gap: it may have dropped that (RFC 2018, section 8).
    pub(crate) fn go_back(&mut self)
        ensures same { self.new
            ≡ record self.old { cursor = 0; resend = false; rescued = 0; scoreboard = self.new.scoreboard } }
        ensures known { (n : ℕ) → has self.new.scoreboard n ≡ false }
    {
        self.cursor = 0;
        self.resend = false;
        self.rescued = 0;
        self.scoreboard.clear();
    }
}

// The milliseconds from one time to another.
fn elapsed(from: u64, to: u64) -> u32
    ensures { result ≡ min 4294967295 (to - from) }
{
    u32::try_from(to.saturating_sub(from)).unwrap_or(u32::MAX)
}
