//! A segment arrives (RFC 9293, section 3.10.7; RFC 5961).

ghost use Rattle.std.specs.Prelude.{◌≡◌, ◌≢◌, ◌&&◌, ◌==◌, ◌<◌, ◌≤◌, ℕ, List, length, true, false, if◌then◌else◌, not, IfSome, Some, None, option_map};
ghost use Rattle.tcp_stream.specs.Endpoint.{is_earlier};
ghost use Rattle.tcp_stream.specs.Network.{World};
ghost use Rattle.tcp_stream.specs.Items.{items_of};
ghost use Rattle.tcp_stream.specs.Stands.{Stands, SegmentComes, room_of};
ghost use Rattle.app_connection.specs.declared.state.Phase.TheVariants.{Closed, Listen, SynSent, SynReceived, Open};
ghost use Rattle.app_connection.specs.Sequence.{is_taken_at, is_of_sent};
ghost use Rattle.app_connection.specs.SetUp.{hears, reset_of};
ghost use Rattle.app_connection.specs.Endpoints.{endpoint_of, control_of, len_of, OutFits, InFits, IsLegal, refused, takes_window, window_after, TakesAck, acknowledgement_of, is_bare, answers_bare, next_of};
ghost use Rattle.app_connection.specs.States.{has_peer, state_from};
ghost use Rattle.app_connection.specs.Steps.{Hears};
ghost use Rattle.app_connection.specs.Worlds.{GetsText, StandsLater, IsAnswered, replied, HearsAck};
ghost use Rattle.app_connection.specs.Promises.{GetsTextOf, GoesWith, HearsAckOf, KeepsEdge, KeepsOrEnds, RepliesIn, SameNext, TakesAckOf, WaitsOnAck, WhenOpen, WhenSynced};

use crate::connection::Connection;
use crate::segment::{Reply, Segment, refusal};
use crate::sequence::{is_in_window, is_taken};
use crate::state::{Phase, State};
use tcp_stream::is_before;

impl Connection {
    /// Takes a segment that comes, and returns what to send at once. `fresh` becomes ISS if the segment opens a connection in
    /// LISTEN (RFC 6528).
    pub fn on_segment(
        &mut self,
        outgoing: &[u8],
        incoming: &mut [u8],
        segment: &Segment,
        fresh: u32,
    ) -> Option<Reply>
        requires text { length segment.now.payload.now < 65536 }
        requires out { OutFits self.old.sending (length outgoing.now) }
        requires rings { InFits self.old.receiving (length incoming.old) }
        ensures out { OutFits self.new.sending (length outgoing.now) }
        ensures rings { InFits self.new.receiving (length incoming.old) }
        ensures set_up { (self.old.phase ≡ Open → ⊥) → endpoint_of self.new ≡ hears (endpoint_of self.old)
            (control_of segment.now) (room_of self.old.receiving (length incoming.old)) fresh }
        ensures legal { (self.old.phase ≡ Open → ⊥) → IfSome result (λ r. IsLegal (endpoint_of self.new) r) }
        ensures rests { has_peer (state_from self.old) ≡ false → (self.new.phase ≡ SynReceived → ⊥)
            → (self.new ≡ self.old) × (incoming.new ≡ incoming.old) × IfSome result (λ r. r.rst ≡ true) }
        ensures hears { has_peer (state_from self.old) ≡ false → self.new.phase ≡ SynReceived
            → Hears segment.now fresh self.new outgoing.now incoming.new (option_map replied result) }
        ensures goes { has_peer (state_from self.old) ≡ true
            → GoesWith self.old self.new outgoing.now incoming.old incoming.new segment.now
            (option_map replied result) }
        ensures beside { self.old.phase ≡ Open → segment.now.rst ≡ true → segment.now.number ≢ self.old.receiving.next
            → self.new ≡ self.old }
        ensures syn { self.old.phase ≡ Open → segment.now.rst ≡ false → segment.now.syn ≡ true → self.new ≡ self.old }
        ensures outside { self.old.phase ≡ Open → segment.now.rst ≡ false → is_taken_at self.old.receiving.next
            (room_of self.old.receiving (length incoming.old)) segment.now.number (len_of segment.now) ≡ false
            → self.new ≡ self.old }
        ensures keeps { self.old.phase ≡ Open → segment.now.rst ≡ false → endpoint_of self.new ≡ endpoint_of self.old }
        ensures acts { self.old.phase ≡ Open → KeepsOrEnds self.old self.new }
        ensures window { self.old.phase ≡ Open
            → ((ack : ℕ) → segment.now.ack ≡ Some ack → takes_window self.old segment.now.number ack ≡ false)
            → self.new.wnd ≤ self.old.wnd }
        ensures answers { self.old.phase ≡ Open → IfSome result (λ r. RepliesIn self.new.receiving incoming.new r) }
        ensures takes { WhenSynced self.old
            (TakesAckOf self.old (room_of self.old.receiving (length incoming.old)) segment.now self.new) }
        ensures flight { self.old.phase ≡ Open → SameNext self.old.sending self.new.sending }
        ensures heard { WhenSynced self.old
            (HearsAckOf self.old (room_of self.old.receiving (length incoming.old)) segment.now self.new outgoing.now) }
        ensures gets { WhenSynced self.old
            (GetsTextOf self.old (room_of self.old.receiving (length incoming.old)) segment.now self.new.receiving
            incoming.old incoming.new) }
        ensures replies { WhenOpen self.old (IfSome result (λ r. r ≡ acknowledgement_of self.new)) }
        ensures bare { WhenOpen self.old (is_bare segment.now ≡ true → result ≡ (if answers_bare self.old
            (room_of self.old.receiving (length incoming.old)) segment.now.number segment.now.ack
            then Some (acknowledgement_of self.old) else None)) }
        ensures answered { WhenSynced self.old (segment.now.rst ≡ false → len_of segment.now ≢ 0
            → IfSome segment.now.ack (λ ack. result ≡ Some (acknowledgement_of self.new))) }
        ensures still { self.old.phase ≡ Open → is_bare segment.now ≡ true → self.new.receiving ≡ self.old.receiving }
        ensures edge { self.old.phase ≡ Open → KeepsEdge self.old self.new (length incoming.old) }
        ensures closed { state_from self.old ≡ State.Closed → result ≡ refused segment.now }
    {
        match self.phase {
            Phase::Closed => refusal(segment),
            Phase::Listen => self.in_listen(outgoing, incoming.len(), segment, fresh),
            Phase::SynSent => self.in_syn_sent(outgoing, segment),
            Phase::SynReceived => self.in_syn_received(outgoing, incoming, segment),
            Phase::Open => {
                if self.state() == State::Closed {
                    return refusal(segment);
                }
                self.in_open(outgoing, incoming, segment)
            }
        }
    }

    // Section 3.10.7.4 in the synchronized states.
    fn in_open(&mut self, outgoing: &[u8], incoming: &mut [u8], segment: &Segment) -> Option<Reply>
        requires phase { self.old.phase ≡ Open }
        requires text { length segment.now.payload.now < 65536 }
        requires out { OutFits self.old.sending (length outgoing.now) }
        requires rings { InFits self.old.receiving (length incoming.old) }
        ensures out { OutFits self.new.sending (length outgoing.now) }
        ensures rings { InFits self.new.receiving (length incoming.old) }
        ensures goes { GoesWith self.old self.new outgoing.now incoming.old incoming.new segment.now
            (option_map replied result) }
        ensures beside { segment.now.rst ≡ true → segment.now.number ≢ self.old.receiving.next → self.new ≡ self.old }
        ensures syn { segment.now.rst ≡ false → segment.now.syn ≡ true → self.new ≡ self.old }
        ensures outside { segment.now.rst ≡ false → is_taken_at self.old.receiving.next
            (room_of self.old.receiving (length incoming.old)) segment.now.number (len_of segment.now) ≡ false
            → self.new ≡ self.old }
        ensures keeps { segment.now.rst ≡ false → endpoint_of self.new ≡ endpoint_of self.old }
        ensures acts { KeepsOrEnds self.old self.new }
        ensures window { ((ack : ℕ) → segment.now.ack ≡ Some ack → takes_window self.old segment.now.number ack ≡ false)
            → self.new.wnd ≤ self.old.wnd }
        ensures takes { self.old.receiving.is_open ≡ true
            → TakesAckOf self.old (room_of self.old.receiving (length incoming.old)) segment.now self.new }
        ensures flight { SameNext self.old.sending self.new.sending }
        ensures hears { self.old.receiving.is_open ≡ true
            → HearsAckOf self.old (room_of self.old.receiving (length incoming.old)) segment.now self.new outgoing.now }
        ensures gets { self.old.receiving.is_open ≡ true
            → GetsTextOf self.old (room_of self.old.receiving (length incoming.old)) segment.now self.new.receiving
            incoming.old incoming.new }
        ensures replies { IfSome result (λ r. r ≡ acknowledgement_of self.new) }
        ensures answered { self.old.receiving.is_open ≡ true → segment.now.rst ≡ false → len_of segment.now ≢ 0
            → IfSome segment.now.ack (λ ack. result ≡ Some (acknowledgement_of self.new)) }
        ensures bare { is_bare segment.now ≡ true → result ≡ (if answers_bare self.old
            (room_of self.old.receiving (length incoming.old)) segment.now.number segment.now.ack
            then Some (acknowledgement_of self.old) else None) }
        ensures still { is_bare segment.now ≡ true → self.new.receiving ≡ self.old.receiving }
        ensures edge { KeepsEdge self.old self.new (length incoming.old) }
        ensures answers { IfSome result (λ r. RepliesIn self.new.receiving incoming.new r) }
    {
        let Some(next) = self.receiving.next() else {
            return None;
        };
        let room = self.room(incoming.len());
        if segment.rst {
            return self.on_reset(segment.number, next, room, self.acknowledgement());
        }
        if segment.syn || !is_taken(next, room, segment.number, segment.len()) {
            return self.outside(next, segment);
        }
        let Some(ack) = segment.ack else {
            return None;
        };
        if is_before(self.sending.next(), ack) {
            return Some(self.acknowledgement());
        }
        self.on_ack(outgoing, segment, ack);
        self.take_text(incoming, segment)
    }

    // The reply to a segment that is not taken. There is none to an acknowledgement after the window, so that acknowledgements of
    // acknowledgements end. One before RCV.NXT is answered, as a keep-alive probe needs it.
    fn outside(&self, next: u32, segment: &Segment) -> Option<Reply>
        requires text { length segment.now.payload.now < 65536 }
        ensures value { result ≡ (if len_of segment.now == 0 && not (is_earlier segment.now.number next) then None
            else Some (acknowledgement_of self.now)) }
        ensures syn { IfSome result (λ r. r.syn ≡ false) }
        ensures legal { IfSome result (λ r. (back : World) (consumed buffer : List ℕ)
            → Stands back consumed self.now.receiving buffer → IsAnswered back r) }
    {
        if segment.len() == 0 && !is_before(segment.number, next) {
            return None;
        }
        Some(self.acknowledgement())
    }

    // A RST acts only at RCV.NXT; elsewhere in the window it is challenged (RFC 5961, section 3.2).
    pub(crate) fn on_reset(
        &mut self,
        number: u32,
        next: u32,
        room: u32,
        challenge: Reply,
    ) -> Option<Reply>
        ensures sending { self.new.sending ≡ self.old.sending }
        ensures receiving { self.new.receiving ≡ self.old.receiving }
        ensures window { self.new.wnd ≡ self.old.wnd }
        ensures beside { number ≢ next → self.new ≡ self.old }
        ensures stays { (self.new.phase ≡ Closed → ⊥) → (self.new.phase ≡ Listen → ⊥) → self.new ≡ self.old }
        ensures acts { number ≡ next → endpoint_of self.new ≡ reset_of (endpoint_of self.old) }
        ensures ends { self.old.phase ≡ Open → KeepsOrEnds self.old self.new }
        ensures legal { IsLegal (endpoint_of self.old) challenge
            → IfSome result (λ r. IsLegal (endpoint_of self.new) r) }
        ensures reply { IfSome result (λ r. r ≡ challenge) }
    {
        if number == next {
            self.phase = if self.phase == Phase::SynReceived && self.is_passive {
                Phase::Listen
            } else {
                Phase::Closed
            };
            return None;
        }
        if is_in_window(next, room, number) {
            Some(challenge)
        } else {
            None
        }
    }

    // Takes an acknowledgement that is not after SND.NXT, and the window that came with it.
    fn on_ack(&mut self, outgoing: &[u8], segment: &Segment, ack: u32)
        requires { OutFits self.old.sending (length outgoing.now) }
        ensures out { OutFits self.new.sending (length outgoing.now) }
        ensures receiving { self.new.receiving ≡ self.old.receiving }
        ensures endpoint { endpoint_of self.new ≡ endpoint_of self.old }
        ensures waits { WaitsOnAck self.old.sending self.new.sending outgoing.now ack }
        ensures takes { TakesAck self.old self.new segment.now.number segment.now.window ack }
        ensures flight { SameNext self.old.sending self.new.sending }
        ensures hears { is_of_sent self.old.sending.una (next_of self.old) ack ≡ true
            → HearsAck self.old.sending self.new.sending outgoing.now ack }
        ensures window { self.new.wnd ≡ window_after self.old segment.now.number segment.now.window ack }
        ensures wl1 { self.new.wl1
            ≡ (if takes_window self.old segment.now.number ack then segment.now.number else self.old.wl1) }
        ensures wl2 { self.new.wl2 ≡ (if takes_window self.old segment.now.number ack then ack else self.old.wl2) }
    {
        let newly = ack.wrapping_sub(self.sending.una());
        if newly > self.sending.flight() {
            return;
        }
        self.sending.on_ack(outgoing, ack);
        if is_before(self.wl1, segment.number)
            || self.wl1 == segment.number && !is_before(ack, self.wl2)
        {
            self.wnd = segment.window;
            self.wl1 = segment.number;
            self.wl2 = ack;
        } else {
            self.wnd = self.wnd.saturating_sub(newly);
        }
    }

    // Takes text and FIN, and acknowledges them.
    pub(crate) fn take_text(&mut self, incoming: &mut [u8], segment: &Segment) -> Option<Reply>
        requires { InFits self.old.receiving (length incoming.old) }
        ensures rings { InFits self.new.receiving (length incoming.old) }
        ensures sending { self.new.sending ≡ self.old.sending }
        ensures window { self.new.wnd ≡ self.old.wnd }
        ensures endpoint { endpoint_of self.new ≡ endpoint_of self.old }
        ensures stands { (back : World) (which : ℕ) (consumed : List ℕ)
            → SegmentComes back which segment.now.number (items_of false segment.now.payload.now segment.now.fin)
            → Stands back consumed self.old.receiving incoming.old
            → StandsLater back consumed self.new.receiving incoming.new }
        ensures reply { IfSome result (λ r. (r.syn ≡ false) × (r.rst ≡ false)) }
        ensures replies { IfSome result (λ r. r ≡ acknowledgement_of self.new) }
        ensures gets { segment.now.syn ≡ false → 0 < len_of segment.now
            → GetsText self.old.receiving self.new.receiving incoming.old incoming.new
            (room_of self.old.receiving (length incoming.old)) segment.now.number
            (items_of false segment.now.payload.now segment.now.fin) }
        ensures none { len_of segment.now ≡ 0 → result ≡ None }
        ensures still { len_of segment.now ≡ 0
            → (self.new.receiving ≡ self.old.receiving) × (incoming.new ≡ incoming.old) }
        ensures some { segment.now.syn ≡ false → len_of segment.now ≢ 0 → result ≡ Some (acknowledgement_of self.new) }
        ensures edge { KeepsEdge self.old self.new (length incoming.old) }
        ensures answers { IfSome result (λ r. RepliesIn self.new.receiving incoming.new r) }
    {
        if segment.payload.is_empty() && !segment.fin {
            return None;
        }
        self.receiving
            .on_segment(incoming, segment.number, segment.payload, segment.fin);
        Some(self.acknowledgement())
    }
}
