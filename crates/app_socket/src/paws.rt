//! The options of a segment that arrives: what a SYN agrees on, timestamps and PAWS, the window scale (RFC 7323).

ghost use Rattle.std.specs.Prelude.{false, None, ◌≡◌, ◌<◌, ℕ, List, is_some, length, true, IfSome, option_map, ◌&&◌, not, min, Option};
ghost use Rattle.tcp_stream.specs.Network.{World};
ghost use Rattle.tcp_stream.specs.Stands.{Stands};
ghost use Rattle.app_connection.specs.Endpoints.{InFits, len_of};
ghost use Rattle.app_connection.specs.Worlds.{GoesOut, said};
ghost use Rattle.app_socket.specs.Limits.{is_held, quiet_after};
ghost use Rattle.app_socket.specs.Resends.{scaled_by};
ghost use Rattle.app_socket.specs.Segments.{rejects};
ghost use Rattle.app_socket.specs.Times.{is_open};
ghost use Rattle.app_socket.specs.Window.{HasRoom, Tells};
ghost use Rattle.app_connection.specs.Promises.{HasNoText, IsAnswerOf};
ghost use Rattle.app_socket.specs.Promises.{ChangesOnlyAck, IsOpen};

use crate::socket::Socket;
use crate::tick::is_open;
use app_connection::{Segment, State};
use app_options::{Agreed, peer_mss};
use tcp_stream::is_ahead;
use wire_tcp_options::TcpOptionSummary;

impl Socket {
    // Whether it may be a segment of an earlier round of the sequence numbers (PAWS; RFC 7323, section 5).
    pub(crate) fn is_stale(&self, segment: &Segment, options: &TcpOptionSummary, now: u64) -> bool
        ensures { result ≡ rejects self.now now segment.now options.now }
    {
        is_open(self.connection.state())
            && !segment.rst
            && !self.agreed.takes(options.timestamp, now)
    }

    // The answer to such a segment (section 5.3), and none to one without a timestamp (section 3.2).
    pub(crate) fn on_stale<'a>(
        &mut self,
        outgoing: &'a [u8],
        incoming: usize,
        now: u64,
        segment: &Segment,
        options: &TcpOptionSummary,
    ) -> Option<Segment<'a>>
        requires { InFits self.old.connection.receiving incoming }
        ensures same { ChangesOnlyAck self.old self.new }
        ensures answered { is_some result
            ≡ (is_some options.now.timestamp && not (is_held self.old now segment.now)) }
        ensures held { is_held self.old now segment.now ≡ true → result ≡ None }
        ensures quiet { self.new.quiet_until ≡ quiet_after self.old now segment.now (is_some result) }
        ensures tells { IfSome result (λ s. IfSome s.ack
            (λ ack. Tells self.old.edge self.new.edge self.old.connection.receiving incoming ack s.window)) }
        ensures keeps { HasRoom self.old.edge self.old.connection.receiving incoming
            → HasRoom self.new.edge self.old.connection.receiving incoming }
        ensures acks { IfSome result (λ s. self.new.timers.ack_at ≡ None) }
        ensures text { HasNoText result }
        ensures bare { IfSome result (λ s. len_of s ≡ 0) }
        ensures answers { IfSome result (λ s. IsAnswerOf self.old.connection.receiving s.ack) }
        ensures goes_out { (there back : World) (consumed buffer : List ℕ)
            → Stands back consumed self.old.connection.receiving buffer
            → IfSome (option_map said result) (GoesOut there back) }
    {
        if options.timestamp.is_none() || !self.may_answer(segment, now) {
            return None;
        }
        let number = self.connection.acknowledgement().number;
        Some(self.acknowledge(outgoing, incoming, number))
    }

    // What the SYN of the peer says.
    pub(crate) fn agree(
        &mut self,
        segment: &Segment,
        options: &TcpOptionSummary,
        now: u64,
        fresh: u32,
    )
        ensures same { self.new ≡ record self.old { agreed = self.new.agreed; limit = self.new.limit } }
        ensures open { IsOpen self.old → self.new ≡ self.old }
    {
        if !segment.syn {
            return;
        }
        let state = self.connection.state();
        if !matches!(state, State::Listen | State::SynSent) {
            return;
        }
        if state == State::Listen {
            self.agreed = Agreed::new(fresh);
        }
        self.agreed.on_syn(options, now);
        self.limit = self.options.most().min(peer_mss(options));
    }

    // Whether the timestamp of the segment counts if it is taken (RFC 7323, section 4.3): it begins at or before the last
    // number that was acknowledged, and is not all old.
    pub(crate) fn is_timestamp_due(&self, segment: &Segment) -> bool
        requires { length segment.now.payload.now < 65536 }
        ensures { result ≡ true → segment.now.rst ≡ false }
    {
        let next = self.next();
        let is_acknowledged = self.timers.ack_at.is_none();
        let end = segment.number.wrapping_add(segment.len());
        is_open(self.connection.state())
            && !segment.rst
            && !segment.syn
            && is_acknowledged
            && is_ahead(segment.number, next)
            && is_ahead(next, end)
    }

    // The segment with the window of the peer in bytes. That of a SYN is not scaled (RFC 7323, section 2.2).
    pub(crate) fn scaled<'s>(&self, segment: &Segment<'s>) -> Segment<'s>
        ensures same { result ≡ record segment.now { window = result.window } }
        ensures value { result ≡ scaled_by self.now.agreed segment.now }
    {
        Segment {
            number: segment.number,
            ack: segment.ack,
            window: if segment.syn {
                segment.window
            } else {
                self.agreed.window_in(segment.window)
            },
            syn: segment.syn,
            rst: segment.rst,
            fin: segment.fin,
            payload: segment.payload,
        }
    }
}
