//! What goes out at once after a segment, and how often (RFC 9293, section 3.10.7.4; RFC 5961, section 7).

ghost use Rattle.std.specs.Prelude.{false, ◌≤◌, None, max, ◌≡◌, ◌<◌, ℕ, List, is_some, length, true, IfSome, option_map, ◌&&◌, not, Option, Some};
ghost use Rattle.tcp_stream.specs.Network.{World};
ghost use Rattle.tcp_stream.specs.Stands.{Stands};
ghost use Rattle.app_connection.specs.Endpoints.{InFits, acknowledgement_of, len_of, spoken};
ghost use Rattle.app_connection.specs.Promises.{HasNoText, IsAnswerOf};
ghost use Rattle.app_connection.specs.Worlds.{GoesOut, said};
ghost use Rattle.app_socket.specs.Limits.{is_held, is_limited, quiet_after};
ghost use Rattle.app_socket.specs.Promises.{AcksSoon};
ghost use Rattle.app_socket.specs.Replies.{IsAcknowledgement};
ghost use Rattle.app_socket.specs.Times.{is_open};
ghost use Rattle.app_socket.specs.Window.{HasRoom, Tells};

use crate::before::Before;
use crate::socket::Socket;
use app_connection::{Segment, State};

// How long no answer goes after one to a segment without text.
const QUIET_TIME: u64 = 500;

// Whether the answer to a segment is limited: it has neither text nor FIN, or it has SYN or RST.
fn is_limited(segment: &Segment) -> bool
    ensures { result ≡ is_limited segment.now }
{
    segment.syn || segment.rst || segment.payload.is_empty() && !segment.fin
}

impl Socket {
    // What goes out at once. The acknowledgement of text waits for Tick.
    pub(crate) fn answer<'a>(
        &mut self,
        before: &Before,
        incoming: usize,
        now: u64,
        segment: &Segment,
        reply: Option<Segment<'a>>,
    ) -> Option<Segment<'a>>
        requires rings { InFits self.old.connection.receiving incoming }
        requires text { HasNoText reply }
        requires bare { is_open before.now.state ≡ true → IfSome reply (λ s. len_of s ≡ 0) }
        ensures same { self.new ≡ record self.old {
          timers = self.new.timers;
          edge = self.new.edge;
          quiet_until = self.new.quiet_until;
        } }
        ensures held { is_open before.now.state ≡ true → is_held self.old now segment.now ≡ true → result ≡ None }
        ensures quiet { is_open before.now.state ≡ true
            → self.new.quiet_until ≡ quiet_after self.old now segment.now (is_some result) }
        ensures text { HasNoText result }
        ensures bare { is_open before.now.state ≡ true → IfSome result (λ s. len_of s ≡ 0) }
        ensures goes_out { (there back : World) (consumed buffer : List ℕ)
            → Stands back consumed self.old.connection.receiving buffer
            → IfSome (option_map said reply.entry) (GoesOut there back)
            → IfSome (option_map said result) (GoesOut there back) }
        ensures answers { is_open before.now.state ≡ true
            → IfSome result (λ s. IsAnswerOf self.old.connection.receiving s.ack) }
        ensures tells { is_open before.now.state ≡ true → IfSome result (λ s. IfSome s.ack
            (λ ack. Tells self.old.edge self.new.edge self.old.connection.receiving incoming ack s.window)) }
        ensures keeps { is_open before.now.state ≡ true → HasRoom self.old.edge self.old.connection.receiving incoming
            → HasRoom self.new.edge self.old.connection.receiving incoming }
        ensures acks { is_open before.now.state ≡ true → IfSome result (λ s. self.new.timers.ack_at ≡ None) }
        ensures ends_at { self.new.timers.ends_at ≡ self.old.timers.ends_at }
        ensures resend_at { self.new.timers.resend_at ≡ self.old.timers.resend_at }
        ensures owes { is_open before.now.state ≡ true → is_some reply.entry ≡ true
            → is_held self.old now segment.now ≡ false → AcksSoon self.new now result }
        ensures replies { is_open before.now.state ≡ true
            → spoken reply.entry ≡ Some (acknowledgement_of self.old.connection) → IsAcknowledgement self.old result }
        ensures none { is_open before.now.state ≡ true → is_some reply.entry ≡ false → result ≡ None }
        ensures some { is_open before.now.state ≡ true → self.old.connection.receiving.is_open ≡ true
            → before.now.next ≡ self.old.connection.receiving.next
            → is_some result ≡ (is_some reply.entry && not (is_held self.old now segment.now)) }
    {
        if before.state == State::SynSent {
            self.begin_edge(&reply);
            return reply;
        }
        if before.next == self.next() {
            let Some(reply) = reply else {
                return None;
            };
            if !self.may_answer(segment, now) {
                return None;
            }
            return Some(self.advertise(reply, incoming));
        }
        let at_once = self.timers.ack_at.is_some()
            || segment.fin
            || before.has_gap
            || self.connection.has_gap();
        self.timers.owe(now, at_once);
        None
    }

    // Whether the answer to a segment goes now.
    pub(crate) fn may_answer(&mut self, segment: &Segment, now: u64) -> bool
        ensures same { self.new
            ≡ record self.old { quiet_until = quiet_after self.old now segment.now result } }
        ensures value { result ≡ not (is_held self.old now segment.now) }
    {
        if !is_limited(segment) {
            return true;
        }
        if now < self.quiet_until {
            return false;
        }
        self.quiet_until = now.saturating_add(QUIET_TIME);
        true
    }
}
