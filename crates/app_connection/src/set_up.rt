//! A segment arrives before the connection is established (RFC 9293, sections 3.10.7.2 to 3.10.7.4).

ghost use Rattle.std.specs.Prelude.{◌≡◌, ◌⊎◌, ◌&&◌, ◌==◌, ◌∷◌, ◌<◌, ℕ, List, length, true, false, IfSome, Some, None, option_map};
ghost use Rattle.tcp_stream.specs.Endpoint.{Item, Syn};
ghost use Rattle.tcp_stream.specs.Network.{World, Segment_comes, happens};
ghost use Rattle.tcp_stream.specs.Stands.{Stands, SegmentComes, room_of};
ghost use Rattle.tcp_stream.specs.Waits.{AckComes};
ghost use Rattle.app_connection.specs.declared.state.Phase.TheVariants.{Closed, Listen, SynSent, SynReceived, Open};
ghost use Rattle.app_connection.specs.Sequence.{after};
ghost use Rattle.app_connection.specs.SetUp.{is_ack_of, hears, hears_in_listen, hears_in_syn_sent, hears_syn_again, hears_in_syn_received};
ghost use Rattle.app_connection.specs.Endpoints.{endpoint_of, control_of, OutFits, InFits, IsLegal};
ghost use Rattle.app_connection.specs.Steps.{Hears};
ghost use Rattle.app_connection.specs.Worlds.{Arrives, Goes, Stand, StandsLater, replied};
ghost use Rattle.app_connection.specs.Promises.{GoesWith, WaitsOnAck};

use crate::connection::Connection;
use crate::segment::{Reply, Segment};
use crate::sequence::is_acceptable;
use crate::state::Phase;

impl Connection {
    // Section 3.10.7.2.
    pub(crate) fn in_listen(
        &mut self,
        outgoing: &[u8],
        incoming: usize,
        segment: &Segment,
        fresh: u32,
    ) -> Option<Reply>
        requires phase { self.old.phase ≡ Listen }
        requires out { OutFits self.old.sending (length outgoing.now) }
        requires rings { InFits self.old.receiving incoming }
        ensures out { OutFits self.new.sending (length outgoing.now) }
        ensures rings { InFits self.new.receiving incoming }
        ensures endpoint { endpoint_of self.new ≡ hears_in_listen (control_of segment.now) fresh }
        ensures legal { IfSome result (λ r. IsLegal (endpoint_of self.new) r) }
        ensures rests { (self.new.phase ≡ SynReceived → ⊥) → (self.new ≡ self.old) × IfSome result (λ r. r.rst ≡ true) }
        ensures hears { self.new.phase ≡ SynReceived → (buffer : List ℕ)
            → Hears segment.now fresh self.new outgoing.now buffer (option_map replied result) }
    {
        if segment.rst {
            return None;
        }
        if let Some(ack) = segment.ack {
            return Some(Reply::reset(ack));
        }
        if !segment.syn {
            return None;
        }
        self.begin(outgoing, fresh);
        self.is_passive = true;
        self.take_syn(segment);
        Some(self.syn_ack())
    }

    // Section 3.10.7.3.
    pub(crate) fn in_syn_sent(&mut self, outgoing: &[u8], segment: &Segment) -> Option<Reply>
        requires phase { self.old.phase ≡ SynSent }
        requires out { OutFits self.old.sending (length outgoing.now) }
        ensures out { OutFits self.new.sending (length outgoing.now) }
        ensures rings { (size : ℕ) → InFits self.old.receiving size → InFits self.new.receiving size }
        ensures endpoint { endpoint_of self.new ≡ hears_in_syn_sent self.old.iss (control_of segment.now) }
        ensures legal { IfSome result (λ r. IsLegal (endpoint_of self.new) r) }
        ensures goes { (there back : World) (consumed buffer : List ℕ) → Arrives there back segment.now
            → Stand there back consumed self.old outgoing.now buffer
            → Goes there back consumed self.new outgoing.now buffer (option_map replied result) }
    {
        match segment.ack {
            Some(ack) => {
                if ack != self.iss.wrapping_add(1) {
                    return if segment.rst {
                        None
                    } else {
                        Some(Reply::reset(ack))
                    };
                }
                if segment.rst {
                    self.phase = Phase::Closed;
                    return None;
                }
                if !segment.syn {
                    return None;
                }
                self.take_syn(segment);
                self.establish(outgoing, segment, ack);
                Some(self.first_ack())
            }
            None => {
                if segment.rst || !segment.syn {
                    return None;
                }
                self.is_passive = false;
                self.take_syn(segment);
                Some(self.syn_ack())
            }
        }
    }

    // Section 3.10.7.4 in SYN-RECEIVED. It is established only by a segment at RCV.NXT, or by the SYN of the peer that comes
    // again with an acknowledgement (figure 7).
    pub(crate) fn in_syn_received(
        &mut self,
        outgoing: &[u8],
        incoming: &mut [u8],
        segment: &Segment,
    ) -> Option<Reply>
        requires phase { self.old.phase ≡ SynReceived }
        requires text { length segment.now.payload.now < 65536 }
        requires out { OutFits self.old.sending (length outgoing.now) }
        requires rings { InFits self.old.receiving (length incoming.old) }
        ensures out { OutFits self.new.sending (length outgoing.now) }
        ensures rings { InFits self.new.receiving (length incoming.old) }
        ensures endpoint { endpoint_of self.new ≡ hears_in_syn_received self.old.is_passive self.old.iss self.old.irs
            (control_of segment.now) (room_of self.old.receiving (length incoming.old)) }
        ensures legal { IfSome result (λ r. IsLegal (endpoint_of self.new) r) }
        ensures goes { GoesWith self.old self.new outgoing.now incoming.old incoming.new segment.now
            (option_map replied result) }
    {
        let next = self.irs.wrapping_add(1);
        let room = self.room(incoming.len());
        if segment.rst {
            return self.on_reset(segment.number, next, room, self.first_ack());
        }
        if segment.syn {
            return self.on_syn_again(
                outgoing,
                segment,
                is_acceptable(next, room, segment.number, segment.len()),
            );
        }
        if !is_acceptable(next, room, segment.number, segment.len()) {
            return Some(self.first_ack());
        }
        let Some(ack) = segment.ack else {
            return None;
        };
        if !self.is_first_answer(segment.number, ack) {
            return Some(self.objection(ack));
        }
        self.establish(outgoing, segment, ack);
        self.take_text(incoming, segment)
    }

    // Whether a segment in SYN-RECEIVED acknowledges the SYN, and is at RCV.NXT.
    fn is_first_answer(&self, number: u32, ack: u32) -> bool
        ensures { result ≡ (is_ack_of self.now.iss (Some ack) && number == after self.now.irs) }
    {
        ack == self.iss.wrapping_add(1) && number == self.irs.wrapping_add(1)
    }

    // The reply to an acknowledgement that establishes nothing: a RST if it is not of the SYN.
    fn objection(&self, ack: u32) -> Reply
        requires { self.now.phase ≡ SynReceived }
        ensures legal { IsLegal (endpoint_of self.now) result }
        ensures value { (result.rst ≡ true) ⊎ (result ≡ record {
          number = after self.now.iss;
          ack = Some (after self.now.irs);
          syn = false;
          rst = false;
        }) }
    {
        if ack == self.iss.wrapping_add(1) {
            self.first_ack()
        } else {
            Reply::reset(ack)
        }
    }

    // A SYN in SYN-RECEIVED. The answer to the first one was lost, or both crossed: it goes again, as no peer in SYN-SENT takes an
    // acknowledgement without SYN.
    fn on_syn_again(
        &mut self,
        outgoing: &[u8],
        segment: &Segment,
        acceptable: bool,
    ) -> Option<Reply>
        requires phase { self.old.phase ≡ SynReceived }
        requires out { OutFits self.old.sending (length outgoing.now) }
        ensures out { OutFits self.new.sending (length outgoing.now) }
        ensures receiving { self.new.receiving ≡ self.old.receiving }
        ensures endpoint { endpoint_of self.new
            ≡ hears_syn_again self.old.is_passive self.old.iss self.old.irs (control_of segment.now) acceptable }
        ensures legal { IfSome result (λ r. IsLegal (endpoint_of self.new) r) }
        ensures goes { (there back : World) (consumed buffer : List ℕ)
            → IfSome segment.now.ack (λ number. (which : ℕ) × AckComes there which number)
            → Stand there back consumed self.old outgoing.now buffer
            → Goes there back consumed self.new outgoing.now buffer (option_map replied result) }
    {
        if segment.number == self.irs
            && let Some(ack) = segment.ack
        {
            if ack != self.iss.wrapping_add(1) {
                return Some(self.first_ack());
            }
            self.establish(outgoing, segment, ack);
            return None;
        }
        if acceptable && self.is_passive {
            self.phase = Phase::Listen;
            return None;
        }
        if segment.number == self.irs {
            return Some(self.syn_ack());
        }
        Some(self.first_ack())
    }

    // The peer's SYN came.
    fn take_syn(&mut self, segment: &Segment)
        ensures phase { self.new.phase ≡ SynReceived }
        ensures passive { self.new.is_passive ≡ self.old.is_passive }
        ensures iss { self.new.iss ≡ self.old.iss }
        ensures irs { self.new.irs ≡ segment.now.number }
        ensures sending { self.new.sending ≡ self.old.sending }
        ensures rings { (size : ℕ) → InFits self.old.receiving size → InFits self.new.receiving size }
        ensures next { self.old.receiving.is_open ≡ false
            → (self.new.receiving.is_open ≡ true) × (self.new.receiving.next ≡ after self.new.irs) }
        ensures stands { (back : World) (which : ℕ) (rest : List Item) (consumed buffer : List ℕ)
            → SegmentComes back which segment.now.number (Syn ∷ rest) → Stands back consumed self.old.receiving buffer
            → StandsLater back consumed self.new.receiving buffer }
        ensures opens { (back : World) (which : ℕ) (rest : List Item) (consumed buffer : List ℕ)
            → back.receiver.is_open ≡ false → SegmentComes back which segment.now.number (Syn ∷ rest)
            → Stands back consumed self.old.receiving buffer
            → Stands (happens back (Segment_comes which 1)) consumed self.new.receiving buffer }
    {
        self.irs = segment.number;
        self.receiving.on_syn(segment.number);
        self.wnd = segment.window;
        self.wl1 = segment.number;
        self.wl2 = self.iss;
        self.phase = Phase::SynReceived;
    }

    // The SYN was acknowledged.
    fn establish(&mut self, outgoing: &[u8], segment: &Segment, ack: u32)
        requires { OutFits self.old.sending (length outgoing.now) }
        ensures out { OutFits self.new.sending (length outgoing.now) }
        ensures phase { self.new.phase ≡ Open }
        ensures iss { self.new.iss ≡ self.old.iss }
        ensures irs { self.new.irs ≡ self.old.irs }
        ensures receiving { self.new.receiving ≡ self.old.receiving }
        ensures waits { WaitsOnAck self.old.sending self.new.sending outgoing.now ack }
    {
        self.sending.on_ack(outgoing, ack);
        self.wnd = segment.window;
        self.wl1 = segment.number;
        self.wl2 = ack;
        self.phase = Phase::Open;
    }

    // SYN and acknowledgement in SYN-RECEIVED.
    fn syn_ack(&self) -> Reply
        ensures { result ≡ record { number = self.now.iss; ack = Some (after self.now.irs); syn = true; rst = false } }
    {
        Reply {
            number: self.iss,
            ack: Some(self.irs.wrapping_add(1)),
            syn: true,
            rst: false,
        }
    }

    // The acknowledgement of the peer's SYN, before text is sent or comes.
    fn first_ack(&self) -> Reply
        ensures { result
            ≡ record { number = after self.now.iss; ack = Some (after self.now.irs); syn = false; rst = false } }
    {
        Reply {
            number: self.iss.wrapping_add(1),
            ack: Some(self.irs.wrapping_add(1)),
            syn: false,
            rst: false,
        }
    }
}
