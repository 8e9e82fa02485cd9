//! A segment arrives.

ghost use Rattle.std.specs.Prelude.{false, ◌≤◌, None, max, ◌≡◌, ◌<◌, ℕ, List, is_some, length, true, IfSome, if◌then◌else◌, option_map, ◌+◌, ◌-◌, ◌%◌, ◌&&◌, not, min, Option, Some};
ghost use Rattle.tcp_stream.specs.Network.{World};
ghost use Rattle.tcp_stream.specs.Stands.{Stands, room_of};
ghost use Rattle.app_connection.specs.Endpoints.{OutFits, InFits, acknowledgement_of, answers_bare, endpoint_of, has_items, is_bare, len_of, spoken};
ghost use Rattle.app_connection.specs.Events.{GetsBy};
ghost use Rattle.app_connection.specs.States.{state_from};
ghost use Rattle.app_connection.specs.declared.state.State.TheVariants as state;
ghost use Rattle.app_connection.specs.Worlds.{GoesOut, said};
ghost use Rattle.tcp_stream.specs.Endpoint.{distance};
ghost use Rattle.app_congestion.specs.Congestion.{is_in_recovery};
ghost use Rattle.app_socket.specs.Resends.{IsArmed, IsDuplicate, IsSound, Learns, restarted_at, scaled_by, CountsDuplicate, ResendsOnPartial, ResendsOnThird, RestartsTimer, StaysSound, UndoesNeedless, newly_after};
ghost use Rattle.app_socket.specs.Undo.{Undoes, is_needless};
ghost use Rattle.app_socket.specs.Limits.{is_held, quiet_after};
ghost use Rattle.app_socket.specs.Segments.{StaysOrUpdates, rejects};
ghost use Rattle.app_socket.specs.Times.{is_open, later, patience_of};
ghost use Rattle.app_socket.specs.Window.{HasRoom, Tells};
ghost use Rattle.app_connection.specs.Promises.{HasNoText, IsAnswerOf};
ghost use Rattle.app_socket.specs.Promises.{AcknowledgesReceived, AcksSoon, AdvertisesWindow, ChangesOnlyAck, IsOpen, IsPatient, KeepsRecent, KeepsRoom, OwesNoAck, RemembersFlight, StepsBy, WhileOpen};
ghost use Rattle.app_socket.specs.Replies.{IsAcknowledgement};

use crate::before::Before;
use crate::socket::Socket;
use crate::tick::is_open;
use app_connection::{Event as Move, Segment, State};
use wire_tcp_options::TcpOptionSummary;

// How many segments one acknowledgement counts for at most: receivers hold back no more than that.
const MAX_SEGMENTS: u32 = 64;

impl Socket {
    // Takes a segment with its options, unless its timestamp is too old.
    pub(crate) fn on_arrival<'a>(
        &mut self,
        outgoing: &'a [u8],
        incoming: &mut [u8],
        now: u64,
        segment: &Segment,
        options: &TcpOptionSummary,
        fresh: u32,
    ) -> Option<Segment<'a>>
        requires text { length segment.now.payload.now < 65536 }
        requires out { OutFits self.old.connection.sending (length outgoing.now) }
        requires rings { InFits self.old.connection.receiving (length incoming.old) }
        ensures out { OutFits self.new.connection.sending (length outgoing.now) }
        ensures rings { InFits self.new.connection.receiving (length incoming.old) }
        ensures tells { AdvertisesWindow self.old self.new (length incoming.old) result }
        ensures keeps { KeepsRoom self.old self.new (length incoming.old) }
        ensures acks { OwesNoAck self.old self.new result }
        ensures patience { IsPatient self.old self.new now }
        ensures text { HasNoText result }
        ensures bare { IsOpen self.old → IfSome result (λ s. len_of s ≡ 0) }
        ensures answers { AcknowledgesReceived self.old self.new incoming.new result }
        ensures owes { WhileOpen self.old self.new (self.old.connection.receiving.is_open ≡ true
            → rejects self.old now segment.now options.now ≡ false → is_held self.old now segment.now ≡ false
            → has_items segment.now ≡ true → AcksSoon self.new now result) }
        ensures replies { WhileOpen self.old self.new (self.old.connection.receiving.is_open ≡ true
            → rejects self.old now segment.now options.now ≡ false → has_items segment.now ≡ true
            → IsAcknowledgement self.new result) }
        ensures to_bare { WhileOpen self.old self.new (rejects self.old now segment.now options.now ≡ false
            → is_bare segment.now ≡ true → is_some result ≡ (answers_bare self.old.connection
            (room_of self.old.connection.receiving (length incoming.old)) segment.now.number segment.now.ack
            && not (is_held self.old now segment.now))) }
        ensures held { WhileOpen self.old self.new (is_held self.old now segment.now ≡ true → result ≡ None) }
        ensures quiet { WhileOpen self.old self.new
            (self.new.quiet_until ≡ quiet_after self.old now segment.now (is_some result)) }
        ensures recent { KeepsRecent self.old self.new now }
        ensures timestamp { IsOpen self.old
            → StaysOrUpdates self.old.agreed.recent self.new.agreed.recent options.now.timestamp now }
        ensures begins { is_open (state_from self.old.connection) ≡ false → IsOpen self.new → RemembersFlight self.new }
        ensures gets { IsOpen self.old → self.old.connection.receiving.is_open ≡ true
            → rejects self.old now segment.now options.now ≡ false → GetsBy (Move.Arrives segment.entry fresh)
            self.old.connection (room_of self.old.connection.receiving (length incoming.old))
            self.new.connection.receiving incoming.old incoming.new }
        ensures stays { IsOpen self.old → segment.now.rst ≡ false
            → endpoint_of self.new.connection ≡ endpoint_of self.old.connection }
        ensures learns { WhileOpen self.old self.new (rejects self.old now segment.now options.now ≡ false
            → Learns self.old self.new outgoing.now (length incoming.old) now (scaled_by self.old.agreed segment.now)
            options.now.timestamp) }
        ensures stale { rejects self.old now segment.now options.now ≡ true → ChangesOnlyAck self.old self.new }
        ensures answered { rejects self.old now segment.now options.now ≡ true
            → is_some result ≡ (is_some options.now.timestamp && not (is_held self.old now segment.now)) }
        ensures steps { StepsBy self.old self.new outgoing.now incoming.old incoming.new
            (if rejects self.old now segment.now options.now then Move.Send 0 0 else Move.Arrives segment.entry fresh)
            result }
    {
        if self.is_stale(segment, options, now) {
            return self.on_stale(outgoing, incoming.len(), now, segment, options);
        }
        self.agree(segment, options, now, fresh);
        let counts = self.is_timestamp_due(segment);
        let scaled = self.scaled(segment);
        let reply = self.on_segment(outgoing, incoming, now, &scaled, options, fresh);
        if counts {
            self.agreed.on_timestamp(options.timestamp, now);
        }
        reply
    }

    // Takes a segment that comes, and returns what to send at once.
    pub(crate) fn on_segment<'a>(
        &mut self,
        outgoing: &'a [u8],
        incoming: &mut [u8],
        now: u64,
        segment: &Segment,
        options: &TcpOptionSummary,
        fresh: u32,
    ) -> Option<Segment<'a>>
        requires text { length segment.now.payload.now < 65536 }
        requires out { OutFits self.old.connection.sending (length outgoing.now) }
        requires rings { InFits self.old.connection.receiving (length incoming.old) }
        ensures out { OutFits self.new.connection.sending (length outgoing.now) }
        ensures rings { InFits self.new.connection.receiving (length incoming.old) }
        ensures tells { AdvertisesWindow self.old self.new (length incoming.old) result }
        ensures keeps { KeepsRoom self.old self.new (length incoming.old) }
        ensures acks { OwesNoAck self.old self.new result }
        ensures patience { IsPatient self.old self.new now }
        ensures text { HasNoText result }
        ensures bare { IsOpen self.old → IfSome result (λ s. len_of s ≡ 0) }
        ensures answers { AcknowledgesReceived self.old self.new incoming.new result }
        ensures owes { WhileOpen self.old self.new (self.old.connection.receiving.is_open ≡ true
            → is_held self.old now segment.now ≡ false → has_items segment.now ≡ true
            → AcksSoon self.new now result) }
        ensures replies { WhileOpen self.old self.new (self.old.connection.receiving.is_open ≡ true
            → has_items segment.now ≡ true → IsAcknowledgement self.new result) }
        ensures to_bare { WhileOpen self.old self.new (is_bare segment.now ≡ true → is_some result
            ≡ (answers_bare self.old.connection
            (room_of self.old.connection.receiving (length incoming.old)) segment.now.number segment.now.ack
            && not (is_held self.old now segment.now))) }
        ensures held { WhileOpen self.old self.new (is_held self.old now segment.now ≡ true → result ≡ None) }
        ensures quiet { WhileOpen self.old self.new
            (self.new.quiet_until ≡ quiet_after self.old now segment.now (is_some result)) }
        ensures agreed { self.new.agreed ≡ self.old.agreed }
        ensures steps { StepsBy self.old self.new outgoing.now incoming.old incoming.new
            (Move.Arrives segment.entry fresh) result }
        ensures begins { is_open (state_from self.old.connection) ≡ false → IsOpen self.new → RemembersFlight self.new }
        ensures gets { IsOpen self.old → self.old.connection.receiving.is_open ≡ true
            → GetsBy (Move.Arrives segment.entry fresh) self.old.connection
            (room_of self.old.connection.receiving (length incoming.old)) self.new.connection.receiving incoming.old
            incoming.new }
        ensures stays { IsOpen self.old → segment.now.rst ≡ false
            → endpoint_of self.new.connection ≡ endpoint_of self.old.connection }
        ensures learns { WhileOpen self.old self.new
            (Learns self.old self.new outgoing.now (length incoming.old) now segment.now options.now.timestamp) }
    {
        let before = self.before(incoming.len());
        let reply = self
            .connection
            .step(outgoing, incoming, Move::Arrives(segment, fresh));
        match self.connection.state() {
            State::Closed | State::Listen | State::SynSent => reply,
            State::SynReceived => {
                self.on_syn(&before, now, fresh, &reply);
                reply
            }
            _ => {
                self.learn(&before, now, segment, options);
                self.answer(&before, incoming.len(), now, segment, reply)
            }
        }
    }

    // In SYN-RECEIVED.
    fn on_syn(&mut self, before: &Before, now: u64, iss: u32, reply: &Option<Segment<'_>>)
        ensures same { self.new
            ≡ record self.old { timers = self.new.timers; flow = self.new.flow; edge = self.new.edge } }
        ensures patience { IsPatient self.old self.new now }
    {
        if before.state == State::Listen {
            self.begin(now, iss);
        }
        if before.state != State::SynReceived {
            self.begin_edge(reply);
        }
    }

    // The first window is advertised.
    pub(crate) fn begin_edge(&mut self, reply: &Option<Segment<'_>>)
        ensures { self.new ≡ record self.old { edge = self.new.edge } }
    {
        if let Some(reply) = reply
            && let Some(ack) = reply.ack
        {
            self.edge = ack.wrapping_add(reply.window);
        }
    }

    // What an open connection learns from a segment.
    fn learn(&mut self, before: &Before, now: u64, segment: &Segment, options: &TcpOptionSummary)
        ensures same { self.new ≡ record self.old { timers = self.new.timers; flow = self.new.flow } }
        ensures patience { IsPatient self.old self.new now }
        ensures restarts { is_open before.now.state ≡ true → RestartsTimer self.old self.new before.now.una now }
        ensures keeps { is_open before.now.state ≡ true → newly_after self.old before.now.una ≡ 0 → (earlier : Option ℕ)
            → IsArmed earlier self.old.timers.resend_at now → IsArmed earlier self.new.timers.resend_at now }
        ensures partial { is_open before.now.state ≡ true → is_needless self.old options.now.timestamp now ≡ false
            → ResendsOnPartial self.old.flow self.new.flow self.old.connection.sending.una self.old.connection.sending.flight
            (newly_after self.old before.now.una) }
        ensures undoes { is_open before.now.state ≡ true
            → UndoesNeedless self.old self.new before.now.una options.now.timestamp now }
        ensures counted { is_open before.now.state ≡ true → newly_after self.old before.now.una ≡ 0 → IsDuplicate
            before.now.una before.now.flight before.now.window before.now.next before.now.room segment.now
            → CountsDuplicate self.old.flow self.new.flow self.old.connection.sending.una }
        ensures third { is_open before.now.state ≡ true → newly_after self.old before.now.una ≡ 0 → IsDuplicate
            before.now.una before.now.flight before.now.window before.now.next before.now.room segment.now
            → ResendsOnThird self.old.flow self.new.flow self.old.connection.sending.una }
        ensures armed { is_open before.now.state ≡ true → 0 < newly_after self.old before.now.una
            → IfSome self.new.timers.resend_at (λ at. at ≤ later now 60000) }
        ensures lives { is_open before.now.state ≡ true → (state_from self.old.connection ≡ state.TimeWait → ⊥)
            → 0 < newly_after self.old before.now.una → later now 300000 ≤ self.new.timers.ends_at }
        ensures lasts { is_open before.now.state ≡ true → (state_from self.old.connection ≡ state.TimeWait → ⊥)
            → min self.old.timers.ends_at (later now 300000) ≤ self.new.timers.ends_at }
        ensures near { is_open before.now.state ≡ true → (state_from self.old.connection ≡ state.TimeWait → ⊥)
            → segment.now.rst ≡ false → distance segment.now.number before.now.next ≤ before.now.room + 1
            → later now 300000 ≤ self.new.timers.ends_at }
        ensures off { is_open before.now.state ≡ false → self.new.timers.resend_at ≡ None }
        ensures sound { is_open before.now.state ≡ true → StaysSound self.old self.new before.now.una }
        ensures begins { is_open before.now.state ≡ false → IsSound self.new.flow self.old.connection.sending.flight }
    {
        let window = self.connection.window();
        if !is_open(before.state) {
            let mss = self.most();
            self.flow.establish(mss, window, now);
            self.timers.resend_at = None;
            self.hear(now);
            return;
        }
        self.learn_life(before, now, segment);
        self.learn_ack(before, now, segment, options);
        self.flow.on_window(window);
        if before.window == 0 && window > 0 && self.waits() {
            self.timers.restart(now, self.flow.timer(), true);
        }
    }

    // The peer lives.
    fn hear(&mut self, now: u64)
        ensures same { self.new ≡ record self.old { timers = self.new.timers } }
        ensures resend_at { self.new.timers.resend_at ≡ self.old.timers.resend_at }
        ensures lives { later now 300000 ≤ self.new.timers.ends_at }
        ensures patience { self.new.timers.ends_at ≤ later now (patience_of self.old.options) }
    {
        let waits = self.waits();
        self.timers.hear(now, self.options.idle_time(), waits);
    }

    // Whether the segment shows that the peer lives.
    fn learn_life(&mut self, before: &Before, now: u64, segment: &Segment)
        ensures same { self.new ≡ record self.old { timers = self.new.timers } }
        ensures resend_at { self.new.timers.resend_at ≡ self.old.timers.resend_at }
        ensures lives { (state_from self.old.connection ≡ state.TimeWait → ⊥)
            → 0 < newly_after self.old before.now.una → later now 300000 ≤ self.new.timers.ends_at }
        ensures lasts { (state_from self.old.connection ≡ state.TimeWait → ⊥)
            → min self.old.timers.ends_at (later now 300000) ≤ self.new.timers.ends_at }
        ensures near { (state_from self.old.connection ≡ state.TimeWait → ⊥) → segment.now.rst ≡ false
            → distance segment.now.number before.now.next ≤ before.now.room + 1
            → later now 300000 ≤ self.new.timers.ends_at }
        ensures patience { IsPatient self.old self.new now }
    {
        if self.connection.state() == State::TimeWait {
            if before.state != State::TimeWait || segment.fin {
                self.timers.linger(now);
            }
        } else if before.is_near(segment) || self.has_moved(before) {
            self.hear(now);
        }
    }

    // Whether text or an acknowledgement was taken.
    fn has_moved(&self, before: &Before) -> bool
        ensures { 0 < distance self.now.connection.sending.una before.now.una → result ≡ true }
    {
        self.next() != before.next || self.connection.una() != before.una
    }

    // What the segment acknowledges.
    fn learn_ack(
        &mut self,
        before: &Before,
        now: u64,
        segment: &Segment,
        options: &TcpOptionSummary,
    )
        ensures same { self.new ≡ record self.old { timers = self.new.timers; flow = self.new.flow } }
        ensures patience { IsPatient self.old self.new now }
        ensures restarts { RestartsTimer self.old self.new before.now.una now }
        ensures sound { StaysSound self.old self.new before.now.una }
        ensures still { newly_after self.old before.now.una ≡ 0 → self.new.timers ≡ self.old.timers }
        ensures ends_at { self.new.timers.ends_at ≡ self.old.timers.ends_at }
        ensures armed { 0 < newly_after self.old before.now.una
            → IfSome self.new.timers.resend_at (λ at. at ≤ later now 60000) }
        ensures partial { is_needless self.old options.now.timestamp now ≡ false
            → ResendsOnPartial self.old.flow self.new.flow self.old.connection.sending.una self.old.connection.sending.flight
            (newly_after self.old before.now.una) }
        ensures undoes { UndoesNeedless self.old self.new before.now.una options.now.timestamp now }
        ensures counted { newly_after self.old before.now.una ≡ 0 → IsDuplicate before.now.una before.now.flight
            before.now.window before.now.next before.now.room segment.now
            → CountsDuplicate self.old.flow self.new.flow self.old.connection.sending.una }
        ensures third { newly_after self.old before.now.una ≡ 0 → IsDuplicate before.now.una before.now.flight
            before.now.window before.now.next before.now.room segment.now
            → ResendsOnThird self.old.flow self.new.flow self.old.connection.sending.una }
    {
        let newly = self.connection.una().wrapping_sub(before.una);
        if newly > 0 {
            self.learn_newly(before.una, newly, now, options);
        }
        self.learn_duplicates(before, newly, now, segment, options);
    }

    // So many numbers after `una` were newly acknowledged: the timer starts anew (RFC 6298, section 5.3).
    fn learn_newly(&mut self, una: u32, newly: u32, now: u64, options: &TcpOptionSummary)
        ensures same { self.new
            ≡ record self.old {
              timers = record self.old.timers { resend_at = self.new.timers.resend_at };
              flow = self.new.flow;
            } }
        ensures sound { IsSound self.old.flow (self.old.connection.sending.flight + newly)
            → IsSound self.new.flow self.old.connection.sending.flight }
        ensures restarts { (size : ℕ) → OutFits self.old.connection.sending size
            → self.new.timers.resend_at ≡ restarted_at self.new now }
        ensures armed { IfSome self.new.timers.resend_at (λ at. at ≤ later now 60000) }
        ensures partial { is_needless self.old options.now.timestamp now ≡ false
            → ResendsOnPartial self.old.flow self.new.flow ((una + newly) % 4294967296) self.old.connection.sending.flight newly }
        ensures undoes { is_needless self.old options.now.timestamp now ≡ true
            → Undoes self.old.flow self.new.flow newly self.old.connection.sending.flight ((una + newly) % 4294967296) }
        ensures calm { is_needless self.old options.now.timestamp now ≡ true
            → is_in_recovery self.new.flow.congestion.phase ≡ false }
    {
        let flight = self.connection.flight();
        let round_trip = self.agreed.round_trip(options.timestamp, now);
        self.flow.on_ack(una, newly, flight, round_trip, now);
        let waits = self.waits();
        self.timers.restart(now, self.flow.timer(), waits);
    }

    // Duplicate acknowledgements, and what the peer has after a gap.
    fn learn_duplicates(
        &mut self,
        before: &Before,
        newly: u32,
        now: u64,
        segment: &Segment,
        options: &TcpOptionSummary,
    )
        ensures same { self.new ≡ record self.old {
          flow = record self.old.flow {
            congestion = self.new.flow.congestion;
            resend = self.new.flow.resend;
            scoreboard = self.new.flow.scoreboard;
            rescued = self.new.flow.rescued;
            has_probe = self.new.flow.has_probe;
            undo = self.new.flow.undo;
          };
        } }
        ensures calm { 0 < newly → is_in_recovery self.old.flow.congestion.phase ≡ false → self.new.flow
            ≡ record self.old.flow { scoreboard = self.new.flow.scoreboard } }
        ensures still { self.old.flow.resend ≡ true → self.new.flow.resend ≡ true }
        ensures sound { IsSound self.old.flow self.old.connection.sending.flight
            → IsSound self.new.flow self.old.connection.sending.flight }
        ensures counted { newly ≡ 0 → IsDuplicate before.now.una before.now.flight before.now.window before.now.next
            before.now.room segment.now → CountsDuplicate self.old.flow self.new.flow self.old.connection.sending.una }
        ensures third { newly ≡ 0 → IsDuplicate before.now.una before.now.flight before.now.window before.now.next
            before.now.room segment.now → ResendsOnThird self.old.flow self.new.flow self.old.connection.sending.una }
    {
        let (una, flight) = (self.connection.una(), self.connection.flight());
        let has_sack = self.agreed.has_sack() && before.has_sack(segment, options);
        let segments = if has_sack {
            self.learn_sack(options)
        } else {
            0
        };
        if newly == 0 && before.is_duplicate(segment, has_sack) {
            self.flow.on_duplicates(segments.max(1), flight, una, now);
        } else if newly > 0 && self.flow.is_recovering() {
            self.flow.on_duplicates(segments, flight, una, now);
        }
    }

    // What the peer has after a gap. Returns how many segments that is more than it told before (RFC 6675, section 5): receivers
    // answer several segments with one acknowledgement.
    fn learn_sack(&mut self, options: &TcpOptionSummary) -> u32
        ensures same { self.new
            ≡ record self.old { flow = record self.old.flow { scoreboard = self.new.flow.scoreboard } } }
        ensures sound { IsSound self.old.flow self.old.connection.sending.flight
            → IsSound self.new.flow self.old.connection.sending.flight }
    {
        let (una, flight) = (self.connection.una(), self.connection.flight());
        let known = self.flow.sacked();
        for (first, end) in options.sack_ranges.iter().flatten() {
            self.flow.on_sack(una, flight, *first, *end);
        }
        let newly = self.flow.sacked().saturating_sub(known);
        (newly / u32::from(self.most().max(1))).min(MAX_SEGMENTS)
    }
}
