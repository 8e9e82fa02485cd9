//! Time passes.

ghost use Rattle.std.specs.Prelude.{[], false, ◌≡◌, ◌<◌, ◌≤◌, ℕ, List, length, true, Some, None, IfSome, ◌||◌, option_map, Option, MatchOption, min, ◌+◌, ◌%◌};
ghost use Rattle.tcp_stream.specs.Network.{World};
ghost use Rattle.tcp_stream.specs.Stands.{Stands};
ghost use Rattle.tcp_stream.specs.Waits.{Waits, count_of};
ghost use Rattle.app_connection.specs.declared.state.Phase.TheVariants.{Open};
ghost use Rattle.app_connection.specs.Endpoints.{endpoint_of, len_of, OutFits, InFits, acknowledgement_of};
ghost use Rattle.app_connection.specs.Worlds.{GoesOut, said};
ghost use Rattle.app_connection.specs.States.{has_peer, state_from};
ghost use Rattle.app_congestion.specs.Congestion.{is_in_recovery};
ghost use Rattle.app_congestion.specs.Scoreboard.{IsHole};
ghost use Rattle.app_socket.specs.Pieces.{IsWithin};
ghost use Rattle.app_socket.specs.Resends.{Acknowledges, IsArmed, IsHeld, IsSound, Resends, SendsFirst, SendsSyn, TimesOut, is_due, is_room_news, queue_of, window_of, KeepsCount, WhenDue, WhenNotDue, WhenTimeout, RestartsIdle, WhenProbe};
ghost use Rattle.app_socket.specs.Probes.{is_probing};
ghost use Rattle.app_socket.specs.Segments.{IsSent, text_of};
ghost use Rattle.app_socket.specs.Times.{is_open, later};
ghost use Rattle.app_socket.specs.Window.{HasRoom, Tells, end_after, limit_of};
ghost use Rattle.app_connection.specs.Promises.{ChangesOnlyNext, GoesFrom, IsAnswerOf};
ghost use Rattle.app_socket.specs.Promises.{AcknowledgesInTime, AcknowledgesReceived, AdvertisesWindow, EndsBySilence, EndsNoLater, HasShortText, KeepsRoom, OwesNoAck, ResendsInTime, ResendsSyn, RestsUntilDue, SendsStream, SendsWithin, StaysIdle, StepsBy};

use crate::flow::{Piece, Queue};
use crate::socket::Socket;
use crate::timers::is_reached;
use crate::window::{advertised, is_update_due, least_growth, moved};
use app_connection::{Event as Move, Segment, State};

// Whether there is a connection, or the beginning of one.
pub(crate) fn has_peer(state: State) -> bool
    ensures { result ≡ has_peer state }
{
    !matches!(state, State::Closed | State::Listen)
}

// Whether the connection is set up.
pub(crate) fn is_open(state: State) -> bool
    ensures { result ≡ is_open state }
{
    has_peer(state) && !matches!(state, State::SynSent | State::SynReceived)
}

impl Socket {
    // Ends the connection, or sends the next segment that is due.
    pub(crate) fn tick<'a>(
        &mut self,
        outgoing: &'a [u8],
        incoming: &mut [u8],
        now: u64,
    ) -> Option<Segment<'a>>
        requires out { OutFits self.old.connection.sending (length outgoing.now) }
        requires rings { InFits self.old.connection.receiving (length incoming.old) }
        ensures out { OutFits self.new.connection.sending (length outgoing.now) }
        ensures rings { InFits self.new.connection.receiving (length incoming.old) }
        ensures steps { StepsBy self.old self.new outgoing.now incoming.old incoming.new (Move.Send 0 0) result }
        ensures ends { EndsBySilence self.old self.new now }
        ensures later { EndsNoLater self.old self.new }
        ensures idle { StaysIdle self.old self.new }
        ensures tells { AdvertisesWindow self.old self.new (length incoming.old) result }
        ensures within { SendsWithin self.old self.new result }
        ensures keeps { KeepsRoom self.old self.new (length incoming.old) }
        ensures acks { OwesNoAck self.old self.new result }
        ensures short { HasShortText result }
        ensures sends { SendsStream self.old outgoing.now result }
        ensures answers { AcknowledgesReceived self.old self.new incoming.new result }
        ensures agreed { self.new.agreed ≡ self.old.agreed }
        ensures quiet { self.new.quiet_until ≡ self.old.quiet_until }
        ensures resends { ResendsInTime self.old self.new outgoing.now now result }
        ensures acknowledges { AcknowledgesInTime self.old (length incoming.old) now result }
        ensures again { ResendsSyn self.old self.new now result }
        ensures rests { RestsUntilDue self.new now result }
    {
        let state = self.connection.state();
        if !has_peer(state) {
            return None;
        }
        if self.timers.ends_at <= now {
            return self.connection.step(outgoing, incoming, Move::Abort);
        }
        if !is_open(state) {
            return self.tick_set_up(outgoing, incoming.len(), now);
        }
        self.tick_open(outgoing, incoming.len(), now)
    }

    // The SYN goes again.
    fn tick_set_up<'a>(
        &mut self,
        outgoing: &'a [u8],
        incoming: usize,
        now: u64,
    ) -> Option<Segment<'a>>
        requires out { OutFits self.old.connection.sending (length outgoing.now) }
        requires rings { InFits self.old.connection.receiving incoming }
        ensures out { OutFits self.new.connection.sending (length outgoing.now) }
        ensures receiving { self.new.connection.receiving ≡ self.old.connection.receiving }
        ensures endpoint { endpoint_of self.new.connection ≡ endpoint_of self.old.connection }
        ensures goes { GoesFrom self.old.connection self.new.connection outgoing.now (option_map said result) }
        ensures agreed { self.new.agreed ≡ self.old.agreed }
        ensures quiet { self.new.quiet_until ≡ self.old.quiet_until }
        ensures short { HasShortText result }
        ensures again { is_due self.old.timers.resend_at now ≡ true → SendsSyn self.old self.new now result }
        ensures ends_at { self.new.timers.ends_at ≡ self.old.timers.ends_at }
        ensures resend { now < 9223372036854775808 → IfSome self.new.timers.resend_at (λ t. now < t) }
    {
        if !is_reached(self.timers.resend_at, now) {
            return None;
        }
        self.flow.back_off();
        self.timers.restart(now, self.flow.timeout(), true);
        self.connection.send(outgoing, incoming, 0, 1)
    }

    // What an open connection sends: text, or else an acknowledgement.
    fn tick_open<'a>(
        &mut self,
        outgoing: &'a [u8],
        incoming: usize,
        now: u64,
    ) -> Option<Segment<'a>>
        requires out { OutFits self.old.connection.sending (length outgoing.now) }
        requires rings { InFits self.old.connection.receiving incoming }
        ensures out { OutFits self.new.connection.sending (length outgoing.now) }
        ensures receiving { self.new.connection.receiving ≡ self.old.connection.receiving }
        ensures goes { GoesFrom self.old.connection self.new.connection outgoing.now (option_map said result) }
        ensures agreed { self.new.agreed ≡ self.old.agreed }
        ensures quiet { self.new.quiet_until ≡ self.old.quiet_until }
        ensures ends_at { EndsNoLater self.old self.new }
        ensures still { now < 9223372036854775808 → now < self.old.timers.ends_at → now < self.new.timers.ends_at }
        ensures resend { now < 9223372036854775808 → IfSome self.new.timers.resend_at (λ t. now < t) }
        ensures tells { IfSome result (λ s. IfSome s.ack
            (λ ack. Tells self.old.edge self.new.edge self.new.connection.receiving incoming ack s.window)) }
        ensures short { self.old.connection.phase ≡ Open → HasShortText result }
        ensures sends { self.old.connection.phase ≡ Open → IfSome result (λ s. 0 < len_of s → (there : World)
            → Waits there self.old.connection.sending outgoing.now → IsSent there s) }
        ensures answers { IfSome result (λ s. IsAnswerOf self.old.connection.receiving s.ack) }
        ensures within { self.old.connection.phase ≡ Open → IfSome result (λ s. 0 < len_of s
            → end_after self.old.connection.sending.una s
            ≤ limit_of self.old.connection.wnd self.new.flow.congestion.cwnd) }
        ensures keeps { HasRoom self.old.edge self.old.connection.receiving incoming
            → HasRoom self.new.edge self.old.connection.receiving incoming }
        ensures acks { IfSome result (λ s. self.new.timers.ack_at ≡ None) }
        ensures ack { result ≡ None → IfSome self.new.timers.ack_at (λ t. now < t) }
        ensures resends { self.old.connection.phase ≡ Open → has_peer (state_from self.old.connection) ≡ true
            → Resends self.old self.new outgoing.now now result }
        ensures acknowledges { self.old.connection.phase ≡ Open → Acknowledges self.old incoming now result }
        ensures probe { result ≡ None → (state_from self.new.connection ≡ State.TimeWait → ⊥)
            → self.new.timers.resend_at ≡ None → now < self.new.timers.probe_at }
    {
        if let Some(segment) = self.next_text(outgoing, incoming, now) {
            return Some(self.advertise(segment, incoming));
        }
        let number = self.connection.acknowledgement().number;
        if is_reached(self.timers.ack_at, now) || self.is_update_due(incoming) {
            return Some(self.acknowledge(outgoing, incoming, number));
        }
        if self.is_probe_due(now) {
            self.timers.probe(now);
            return Some(self.acknowledge(outgoing, incoming, number.wrapping_sub(1)));
        }
        None
    }

    // The next segment with text or a FIN, if it is time.
    fn next_text<'a>(
        &mut self,
        outgoing: &'a [u8],
        incoming: usize,
        now: u64,
    ) -> Option<Segment<'a>>
        requires out { OutFits self.old.connection.sending (length outgoing.now) }
        requires rings { InFits self.old.connection.receiving incoming }
        ensures out { OutFits self.new.connection.sending (length outgoing.now) }
        ensures receiving { self.new.connection.receiving ≡ self.old.connection.receiving }
        ensures goes { GoesFrom self.old.connection self.new.connection outgoing.now (option_map said result) }
        ensures ends_at { EndsNoLater self.old self.new }
        ensures still { now < 9223372036854775808 → now < self.old.timers.ends_at → now < self.new.timers.ends_at }
        ensures resend { now < 9223372036854775808 → IfSome self.new.timers.resend_at (λ t. now < t) }
        ensures edge { self.new.edge ≡ self.old.edge }
        ensures resends { self.old.connection.phase ≡ Open → has_peer (state_from self.old.connection) ≡ true
            → Resends self.old self.new outgoing.now now result }
        ensures none { result ≡ None → self.new.connection ≡ self.old.connection }
        ensures items { self.old.connection.phase ≡ Open → IfSome result (λ s. 0 < len_of s) }
        ensures rst { IfSome result (λ s. s.rst ≡ false) }
        ensures same { self.new
            ≡ record self.old { connection = self.new.connection; timers = self.new.timers; flow = self.new.flow } }
        ensures ack_at { self.new.timers.ack_at ≡ self.old.timers.ack_at }
        ensures agreed { self.new.agreed ≡ self.old.agreed }
        ensures short { self.old.connection.phase ≡ Open → HasShortText result }
        ensures sends { self.old.connection.phase ≡ Open → IfSome result (λ s. (there : World)
            → Waits there self.old.connection.sending outgoing.now → IsSent there s) }
        ensures within { self.old.connection.phase ≡ Open → IfSome result
            (λ s. end_after self.old.connection.sending.una s
            ≤ limit_of self.old.connection.wnd self.new.flow.congestion.cwnd) }
    {
        let Some(piece) = self.piece(now) else {
            return None;
        };
        self.cut(outgoing, incoming, now, &piece)
    }

    // What is to be sent now.
    fn piece(&mut self, now: u64) -> Option<Piece>
        ensures same { self.new ≡ record self.old { timers = self.new.timers; flow = self.new.flow } }
        ensures ends_at { EndsNoLater self.old self.new }
        ensures still { now < 9223372036854775808 → now < self.old.timers.ends_at → now < self.new.timers.ends_at }
        ensures resend { now < 9223372036854775808 → IfSome self.new.timers.resend_at (λ t. now < t) }
        ensures within { IfSome result (λ p. IsWithin p self.new.connection.wnd self.new.flow.congestion.cwnd) }
        ensures armed { (size : ℕ) → OutFits self.old.connection.sending size → 0 < count_of self.old.connection.sending
            → IsArmed self.old.timers.resend_at self.new.timers.resend_at now }
        ensures expires { (size : ℕ) → OutFits self.old.connection.sending size
            → WhenTimeout self.old now (MatchOption result ⊥ (λ p. p.offset ≡ 0)) }
        ensures times_out { (size : ℕ) → OutFits self.old.connection.sending size
            → WhenTimeout self.old now (TimesOut self.old.flow self.new.flow (queue_of self.old) now) }
        ensures probed { (size : ℕ) → OutFits self.old.connection.sending size
            → WhenDue self.old now (self.new.flow.is_probed ≡ true) }
        ensures free { (size : ℕ) → OutFits self.old.connection.sending size
            → WhenProbe self.old now (self.new.flow.congestion ≡ self.old.flow.congestion) }
        ensures again { self.old.flow.resend ≡ true → MatchOption result ⊥ (λ p. p.offset ≡ 0) }
        ensures ack_at { self.new.timers.ack_at ≡ self.old.timers.ack_at }
        ensures stays { self.old.flow.is_probed ≡ true → self.new.flow.is_probed ≡ true }
        ensures patience { (size : ℕ) → OutFits self.old.connection.sending size → 0 < count_of self.old.connection.sending
            → IfSome self.old.timers.resend_at (λ at. self.new.timers.ends_at ≡ self.old.timers.ends_at) }
        ensures lasts { min self.old.timers.ends_at (later now 300000) ≤ self.new.timers.ends_at }
        ensures place { (size : ℕ) → OutFits self.old.connection.sending size → 0 < count_of self.old.connection.sending
            → self.old.connection.sending.flight ≤ count_of self.old.connection.sending
            → IsSound self.old.flow self.old.connection.sending.flight → IfSome result
            (λ p. (p.offset ≤ self.old.connection.sending.flight) × (p.offset < count_of self.old.connection.sending)) }
        ensures sound { (flight : ℕ) → IsSound self.old.flow flight → IsSound self.new.flow flight }
        ensures held { (size : ℕ) → OutFits self.old.connection.sending size → result ≡ None
            → IsHeld self.new.flow (queue_of self.new) }
        ensures hole { (size offset count : ℕ) → OutFits self.old.connection.sending size
            → WhenNotDue self.old now (self.old.flow.resend ≡ false
            → is_in_recovery self.old.flow.congestion.phase ≡ true
            → IsHole self.old.flow.scoreboard self.old.flow.rescued offset count → 0 < text_of self.old
            → offset < min self.old.connection.wnd self.new.flow.congestion.cwnd
            → MatchOption result ⊥ (λ p. p.offset ≡ offset)) }
        ensures rto { WhenNotDue self.old now (self.new.flow.rto ≡ self.old.flow.rto) }
        ensures calm { WhenNotDue self.old now (KeepsCount self.old.flow self.new.flow) }
        ensures idle { (size : ℕ) → OutFits self.old.connection.sending size → 0 < count_of self.old.connection.sending
            → self.old.timers.resend_at ≡ None → now < 9223372036854775808
            → RestartsIdle self.old.flow self.new.flow now }
    {
        let queue = self.queue();
        self.run_timer(now);
        if let Some(piece) = self.expire(&queue, now) {
            return Some(piece);
        }
        self.flow.next(&queue)
    }

    // The retransmission timer runs if something waits, and only then. Something that begins to wait after an idle time does so
    // with a smaller cwnd.
    fn run_timer(&mut self, now: u64)
        ensures same { self.new ≡ record self.old {
          timers = self.new.timers;
          flow = record self.old.flow { congestion = self.new.flow.congestion };
        } }
        ensures ends_at { EndsNoLater self.old self.new }
        ensures still { now < 9223372036854775808 → now < self.old.timers.ends_at → now < self.new.timers.ends_at }
        ensures armed { (size : ℕ) → OutFits self.old.connection.sending size → 0 < count_of self.old.connection.sending
            → IsArmed self.old.timers.resend_at self.new.timers.resend_at now }
        ensures sound { (flight : ℕ) → IsSound self.old.flow flight → IsSound self.new.flow flight }
        ensures ack_at { self.new.timers.ack_at ≡ self.old.timers.ack_at }
        ensures due { (size : ℕ) → OutFits self.old.connection.sending size
            → WhenDue self.old now (self.new ≡ self.old) }
        ensures runs { (size : ℕ) → OutFits self.old.connection.sending size → 0 < count_of self.old.connection.sending
            → IfSome self.old.timers.resend_at (λ at. self.new.timers ≡ self.old.timers) }
        ensures lasts { min self.old.timers.ends_at (later now 300000) ≤ self.new.timers.ends_at }
        ensures phase { self.new.flow.congestion.phase ≡ self.old.flow.congestion.phase }
        ensures duplicates { self.new.flow.congestion.duplicates ≡ self.old.flow.congestion.duplicates }
        ensures rests { WhenNotDue self.old now (is_due self.new.timers.resend_at now ≡ false) }
        ensures idle { (size : ℕ) → OutFits self.old.connection.sending size → 0 < count_of self.old.connection.sending
            → self.old.timers.resend_at ≡ None → RestartsIdle self.old.flow self.new.flow now }
    {
        let waits = self.waits();
        if waits && self.timers.resend_at.is_none() {
            self.flow.on_wait(now);
        }
        self.timers.run(now, self.flow.timer(), waits);
    }

    // If the timer expires it starts anew (RFC 6298, sections 5.4 to 5.6): that of a loss probe, or the retransmission timer, and
    // then the first segment goes again.
    fn expire(&mut self, queue: &Queue, now: u64) -> Option<Piece>
        ensures same { self.new
            ≡ record self.old {
              timers = record self.old.timers { resend_at = self.new.timers.resend_at };
              flow = self.new.flow;
            } }
        ensures resend { now < 9223372036854775808 → IfSome self.new.timers.resend_at (λ t. now < t) }
        ensures armed { (before : Option ℕ) → IsArmed before self.old.timers.resend_at now
            → IsArmed before self.new.timers.resend_at now }
        ensures rests { is_due self.old.timers.resend_at now ≡ false → (self.new ≡ self.old) × (result ≡ None) }
        ensures within { IfSome result (λ p. IsWithin p queue.now.window self.new.flow.congestion.cwnd) }
        ensures first { IfSome result (λ p. p.offset ≡ 0) }
        ensures some { is_due self.old.timers.resend_at now ≡ true → self.old.flow.is_probed ≡ true
            → MatchOption result ⊥ (λ p. p.offset ≡ 0) }
        ensures times_out { is_due self.old.timers.resend_at now ≡ true → self.old.flow.is_probed ≡ true
            → TimesOut self.old.flow self.new.flow queue.now now }
        ensures probed { is_due self.old.timers.resend_at now ≡ true → self.new.flow.is_probed ≡ true }
        ensures free { is_due self.old.timers.resend_at now ≡ true → is_probing self.old.flow ≡ true
            → self.new.flow.congestion ≡ self.old.flow.congestion }
        ensures stays { self.old.flow.is_probed ≡ true → self.new.flow.is_probed ≡ true }
        ensures again { result ≡ None → self.old.flow.resend ≡ true → self.new.flow.resend ≡ true }
        ensures sound { (flight : ℕ) → IsSound self.old.flow flight → IsSound self.new.flow flight }
    {
        if !is_reached(self.timers.resend_at, now) {
            return None;
        }
        if self.flow.is_probing() {
            let rto = self.flow.timeout();
            self.flow.on_probe(queue, now);
            self.timers.restart(now, rto, true);
            return None;
        }
        let piece = self.flow.on_timeout(queue, now);
        self.timers.restart(now, self.flow.timeout(), true);
        Some(piece)
    }

    // The segment of a piece.
    fn cut<'a>(
        &mut self,
        outgoing: &'a [u8],
        incoming: usize,
        now: u64,
        piece: &Piece,
    ) -> Option<Segment<'a>>
        requires out { OutFits self.old.connection.sending (length outgoing.now) }
        requires rings { InFits self.old.connection.receiving incoming }
        ensures same { self.new ≡ record self.old { connection = self.new.connection; flow = self.new.flow } }
        ensures out { OutFits self.new.connection.sending (length outgoing.now) }
        ensures receiving { self.new.connection.receiving ≡ self.old.connection.receiving }
        ensures goes { GoesFrom self.old.connection self.new.connection outgoing.now (option_map said result) }
        ensures flow { self.new.flow ≡ record self.old.flow {
          timing = self.new.flow.timing;
          cursor = self.new.flow.cursor;
          rescued = self.new.flow.rescued;
          sent_at = self.new.flow.sent_at;
        } }
        ensures only { ChangesOnlyNext self.old.connection self.new.connection }
        ensures some { self.old.connection.phase ≡ Open → has_peer (state_from self.old.connection) ≡ true
            → 0 < piece.now.count → piece.now.offset ≤ self.old.connection.sending.flight
            → piece.now.offset < count_of self.old.connection.sending → MatchOption result ⊥ (λ s. 0 < len_of s) }
        ensures none { result ≡ None → self.new ≡ self.old }
        ensures items { self.old.connection.phase ≡ Open → IfSome result (λ s. 0 < len_of s) }
        ensures rst { IfSome result (λ s. s.rst ≡ false) }
        ensures number { self.old.connection.phase ≡ Open → piece.now.offset ≤ self.old.connection.sending.flight
            → piece.now.offset < count_of self.old.connection.sending
            → IfSome result (λ s. s.number ≡ (self.old.connection.sending.una + piece.now.offset) % 4294967296) }
        ensures nothing { self.old.connection.phase ≡ Open → count_of self.old.connection.sending ≡ 0 → result ≡ None }
        ensures sound { self.old.connection.phase ≡ Open → piece.now.offset ≤ self.old.connection.sending.flight
            → piece.now.offset < count_of self.old.connection.sending
            → IsSound self.old.flow self.old.connection.sending.flight
            → IsSound self.new.flow self.new.connection.sending.flight }
        ensures first { self.old.connection.phase ≡ Open → has_peer (state_from self.old.connection) ≡ true
            → 0 < piece.now.count → piece.now.offset ≡ 0 → 0 < count_of self.old.connection.sending
            → SendsFirst self.old.connection.sending self.new.connection.sending outgoing.now result }
        ensures short { self.old.connection.phase ≡ Open → (window cwnd : ℕ) → IsWithin piece.now window cwnd
            → HasShortText result }
        ensures sends { self.old.connection.phase ≡ Open → IfSome result (λ s. (there : World)
            → Waits there self.old.connection.sending outgoing.now → IsSent there s) }
        ensures within { self.old.connection.phase ≡ Open → (window : ℕ)
            → IsWithin piece.now window self.old.flow.congestion.cwnd → IfSome result
            (λ s. end_after self.old.connection.sending.una s ≤ limit_of window self.old.flow.congestion.cwnd) }
    {
        let queue = self.queue();
        let (offset, count) = (piece.offset as usize, piece.count as usize);
        let segment = self.connection.send(outgoing, incoming, offset, count);
        if let Some(segment) = &segment {
            let bytes = segment.payload.len().min(count) as u32;
            let items = bytes.saturating_add(u32::from(segment.fin));
            self.flow.on_sent(&queue, piece, items, now);
        }
        segment
    }

    // Whether a keep-alive probe goes (section 3.8.4).
    fn is_probe_due(&self, now: u64) -> bool
        ensures { result ≡ false → (state_from self.now.connection ≡ State.TimeWait → ⊥)
            → self.now.timers.resend_at ≡ None → now < self.now.timers.probe_at }
    {
        self.connection.state() != State::TimeWait
            && self.timers.resend_at.is_none()
            && self.timers.probe_at <= now
    }

    // Whether the peer has to hear of the room that the application made.
    fn is_update_due(&self, incoming: usize) -> bool
        requires { InFits self.now.connection.receiving incoming }
        ensures { self.now.connection.receiving.is_open ≡ true → result ≡ is_room_news self.now incoming }
    {
        let is_before_end = matches!(
            self.connection.state(),
            State::Established | State::FinWait1 | State::FinWait2
        );
        let least = least_growth(incoming, self.options.most());
        let room = self.connection.room(incoming);
        let shift = self.agreed.own_scale(incoming);
        is_before_end && is_update_due(self.edge, self.next(), room, least, shift)
    }

    // An acknowledgement of all that came, with this number.
    pub(crate) fn acknowledge<'a>(
        &mut self,
        outgoing: &'a [u8],
        incoming: usize,
        number: u32,
    ) -> Segment<'a>
        requires { InFits self.old.connection.receiving incoming }
        ensures same { self.new
            ≡ record self.old { timers = record self.old.timers { ack_at = None }; edge = self.new.edge } }
        ensures text { (result.payload.now ≡ []) × (result.fin ≡ false) }
        ensures rst { result.rst ≡ false }
        ensures len { len_of result ≡ 0 }
        ensures goes_out { (there back : World) (consumed buffer : List ℕ)
            → Stands back consumed self.old.connection.receiving buffer → GoesOut there back (said result) }
        ensures ack { result.ack ≡ (acknowledgement_of self.old.connection).ack }
        ensures number { result.number ≡ number }
        ensures answers { IsAnswerOf self.old.connection.receiving result.ack }
        ensures tells { IfSome result.ack
            (λ ack. Tells self.old.edge self.new.edge self.old.connection.receiving incoming ack result.window) }
        ensures window { IfSome result.ack (λ ack. result.window ≡ window_of self.old incoming) }
        ensures keeps { HasRoom self.old.edge self.old.connection.receiving incoming
            → HasRoom self.new.edge self.old.connection.receiving incoming }
    {
        let segment = Segment {
            number,
            ack: None,
            window: 0,
            syn: false,
            rst: false,
            fin: false,
            payload: &outgoing[..0],
        };
        self.advertise(segment, incoming)
    }

    // The segment with an acknowledgement of all that came, and the window.
    pub(crate) fn advertise<'a>(&mut self, segment: Segment<'a>, incoming: usize) -> Segment<'a>
        requires { InFits self.old.connection.receiving incoming }
        ensures same { self.new
            ≡ record self.old { timers = record self.old.timers { ack_at = None }; edge = self.new.edge } }
        ensures segment { result ≡ record segment.entry { ack = result.ack; window = result.window } }
        ensures goes_out { (there back : World) (consumed buffer : List ℕ)
            → Stands back consumed self.old.connection.receiving buffer → GoesOut there back (said segment.entry)
            → GoesOut there back (said result) }
        ensures ack { result.ack ≡ (acknowledgement_of self.old.connection).ack }
        ensures answers { IsAnswerOf self.old.connection.receiving result.ack }
        ensures tells { IfSome result.ack
            (λ ack. Tells self.old.edge self.new.edge self.old.connection.receiving incoming ack result.window) }
        ensures window { IfSome result.ack (λ ack. result.window ≡ window_of self.old incoming) }
        ensures keeps { HasRoom self.old.edge self.old.connection.receiving incoming
            → HasRoom self.new.edge self.old.connection.receiving incoming }
    {
        self.timers.ack_at = None;
        let ack = self.connection.acknowledgement().ack;
        let window = match ack {
            Some(next) => self.tell(next, incoming),
            None => 0,
        };
        Segment {
            number: segment.number,
            ack,
            window,
            syn: segment.syn,
            rst: segment.rst,
            fin: segment.fin,
            payload: segment.payload,
        }
    }

    // The window to advertise from RCV.NXT on.
    fn tell(&mut self, next: u32, incoming: usize) -> u32
        requires next { next ≡ self.old.connection.receiving.next }
        requires rings { InFits self.old.connection.receiving incoming }
        ensures same { self.new ≡ record self.old { edge = self.new.edge } }
        ensures tells { Tells self.old.edge self.new.edge self.old.connection.receiving incoming next result }
        ensures window { result ≡ window_of self.old incoming }
    {
        let least = least_growth(incoming, self.options.most());
        let window = advertised(self.edge, next, self.connection.room(incoming), least);
        self.edge = moved(self.edge, next.wrapping_add(window));
        window
    }
}
