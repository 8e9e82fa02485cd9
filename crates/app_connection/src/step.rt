//! One call for everything that can happen to a connection.

ghost use Rattle.std.specs.Prelude.{◌≡◌, ◌<◌, [], length, true, false, if◌then◌else◌, IfSome, Some, None, option_map};
ghost use Rattle.tcp_stream.specs.Stands.{room_of};
ghost use Rattle.app_connection.specs.declared.state.Phase.TheVariants.{Listen, Open};
ghost use Rattle.app_connection.specs.declared.state.State.TheVariants as state;
ghost use Rattle.app_connection.specs.Endpoints.{endpoint_of, len_of, spoken, acknowledgement_of, IsLegal, OutFits, InFits};
ghost use Rattle.app_connection.specs.Steps.{Steps};
ghost use Rattle.app_connection.specs.Worlds.{said};
ghost use Rattle.app_connection.specs.Events.{ComesWithoutReset, IsShort, IsMove, IsSending, begins, brings_bare, brings_items, cut_from, is_answered, GetsBy, HearsBy, KeepsNext, TakesBy};
ghost use Rattle.app_connection.specs.States.{has_peer, state_from};
ghost use Rattle.app_connection.specs.Promises.{AnswersIn, HasNoText, IsCut, KeepsEdge, WhenOpen, WhenSynced};

use crate::connection::Connection;
use crate::segment::{Reply, Segment};

/// What can happen.
#[derive(Debug, Clone, Copy)]
pub enum Event<'s> {
    /// The application waits for a peer.
    Listen,
    /// The application opens, with a fresh number (ISS).
    Open(u32),
    /// A segment arrives; the number is a fresh one.
    Arrives(&'s Segment<'s>, u32),
    /// The caller has the next segment sent, or sent again: from this offset, with so many bytes.
    Send(usize, usize),
    /// The application closes.
    Close,
    /// The application gives up.
    Abort,
}

impl Connection {
    /// One event. Returns the segment to send, if any.
    pub fn step<'a>(
        &mut self,
        outgoing: &'a [u8],
        incoming: &mut [u8],
        event: Event,
    ) -> Option<Segment<'a>>
        requires text { IsShort event }
        requires out { OutFits self.old.sending (length outgoing.now) }
        requires rings { InFits self.old.receiving (length incoming.old) }
        ensures out { OutFits self.new.sending (length outgoing.now) }
        ensures rings { InFits self.new.receiving (length incoming.old) }
        ensures steps { Steps self.old self.new outgoing.now incoming.old incoming.new event.entry
            (option_map said result) }
        ensures moves { IsMove event.entry (room_of self.old.receiving (length incoming.old)) (endpoint_of self.old)
            (endpoint_of self.new) }
        ensures stays { self.old.phase ≡ Open → ComesWithoutReset event.entry
            → endpoint_of self.new ≡ endpoint_of self.old }
        ensures takes { WhenSynced self.old
            (TakesBy event.entry self.old (room_of self.old.receiving (length incoming.old)) self.new) }
        ensures hears { WhenSynced self.old
            (HearsBy event.entry self.old (room_of self.old.receiving (length incoming.old)) self.new outgoing.now) }
        ensures gets { WhenSynced self.old (GetsBy event.entry self.old
            (room_of self.old.receiving (length incoming.old)) self.new.receiving incoming.old incoming.new) }
        ensures next { self.old.phase ≡ Open → KeepsNext event.entry self.old.sending self.new.sending }
        ensures edge { self.old.phase ≡ Open → KeepsEdge self.old self.new (length incoming.old) }
        ensures legal { (self.old.phase ≡ Open → ⊥) → IfSome (spoken result) (λ r. IsLegal (endpoint_of self.new) r) }
        ensures text { (self.old.phase ≡ Open → IsSending event.entry → ⊥) → HasNoText result }
        ensures bare { self.old.phase ≡ Open → (IsSending event.entry → ⊥)
            → begins event.entry (has_peer (state_from self.old)) ≡ false → IfSome result (λ s. len_of s ≡ 0) }
        ensures sends { self.old.phase ≡ Open → begins event.entry (has_peer (state_from self.old)) ≡ false
            → IfSome result (λ s. 0 < len_of s
            → IsCut self.old.sending outgoing.now (cut_from event.entry self.old.sending) s) }
        ensures answers { self.old.phase ≡ Open → IfSome result (λ s. AnswersIn self.new.receiving incoming.new s) }
        ensures to_items { WhenSynced self.old (brings_items event.entry ≡ true
            → spoken result ≡ Some (acknowledgement_of self.new)) }
        ensures to_bare { WhenOpen self.old (brings_bare event.entry ≡ true → spoken result
            ≡ (if is_answered event.entry self.old (room_of self.old.receiving (length incoming.old))
            then Some (acknowledgement_of self.old) else None)) }
        ensures still { self.old.phase ≡ Open → brings_bare event.entry ≡ true
            → self.new.receiving ≡ self.old.receiving }
    {
        let reply = match event {
            Event::Send(offset, count) => {
                return self.send(outgoing, incoming.len(), offset, count);
            }
            Event::Listen => {
                self.listen();
                return None;
            }
            Event::Close => {
                self.close();
                return None;
            }
            Event::Open(iss) => self.open(outgoing, iss),
            Event::Arrives(segment, fresh) => self.on_segment(outgoing, incoming, segment, fresh),
            Event::Abort => self.abort(),
        };
        self.without_text(outgoing, incoming.len(), reply)
    }

    // The segment of a reply, with the window.
    fn without_text<'a>(
        &self,
        outgoing: &'a [u8],
        incoming: usize,
        reply: Option<Reply>,
    ) -> Option<Segment<'a>>
        requires { InFits self.now.receiving incoming }
        ensures spoken { spoken result ≡ reply }
        ensures text { HasNoText result }
    {
        let Some(reply) = reply else {
            return None;
        };
        Some(Segment {
            number: reply.number,
            ack: reply.ack,
            window: if reply.rst { 0 } else { self.room(incoming) },
            syn: reply.syn,
            rst: reply.rst,
            fin: false,
            payload: &outgoing[..0],
        })
    }
}
