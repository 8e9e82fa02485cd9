//! Laws of the set-up, and of acknowledgements.

ghost use Rattle.std.specs.Prelude.{◌≡◌, ◌+◌, ◌<◌, ◌≤◌, ℕ, List, [], ◌∷◌, length, Bool, true, false, IfSome, Some, None, option_map};
ghost use Rattle.tcp_stream.specs.Endpoint.{Byte, Fin};
ghost use Rattle.tcp_stream.specs.Network.{World, Event, run};
ghost use Rattle.tcp_stream.specs.Stands.{room_of};
ghost use Rattle.app_connection.specs.declared.state.Phase.TheVariants.{Open};
ghost use Rattle.app_connection.specs.Arrived.{BothComeAcross};
ghost use Rattle.app_connection.specs.Endpoints.{OutFits, InFits, TakesAck, acknowledgement_of};
ghost use Rattle.app_connection.specs.Events.{IsShort};
ghost use Rattle.app_connection.specs.Openings as openings;
ghost use Rattle.app_connection.specs.Openings.{OthersStay, Program, Programs, Turns, ends_of, opening, present};
ghost use Rattle.app_connection.specs.Runs.{BothRead, Calls, End, Ends, IsFrom, IsNew, MayCome, OpensOnce, Runs, Sent, stepped, two_sent};
ghost use Rattle.app_connection.specs.SetUp.{Turn, BothAgree, run_ends, both_idle, In_established, three_ways};
ghost use Rattle.app_connection.specs.States.{has_peer, state_from};
ghost use Rattle.app_connection.specs.Worlds.{Said, Stand, ComesNext, said};

pub mod bytes;
pub mod openings;

use crate::connection::Connection;
use crate::segment::{Reply, Segment};
use crate::state::State;
use crate::step;

/// Whatever the network loses, repeats or reorders, and whatever segments of other connections come: an endpoint that is
/// established has the number of its peer, and the peer was in an attempt with both numbers.
pub fn both_agree()
    ensures { (ts : List Turn) → BothAgree (run_ends ts both_idle) }
{}

/// A schedule that establishes both.
pub fn both_are_established()
    ensures here { (run_ends three_ways both_idle).here.me ≡ In_established 100 300 }
    ensures there { (run_ends three_ways both_idle).there.me ≡ In_established 300 100 }
{}

/// What one program reads from a connection is a prefix of what the other one wrote, and all of it once `is_ended` returns true.
/// This holds for all calls of both programs in any order, over a network that loses, repeats, reorders, delays, splits and joins
/// segments. Each end opens once. Each segment that comes was returned by a call of the other end, or was made of such segments,
/// and since then each program wrote less than 2^30 - 1 bytes. A RST may be from anyone.
pub fn two_connections_deliver()
    ensures { (p : Ends) → Runs p → BothRead p }
{}

/// The same in each connection of two programs that open again any number of times.
pub fn connections_that_open_again_deliver()
    ensures { (p : Programs) → openings.Runs p → (n : ℕ) → BothRead (ends_of p n) }
{}

/// What is acknowledged has come: if nothing of a program waits, the other one has read all that it wrote, or it waits in the ring
/// to be read. So has the end. The runs are those of `two_connections_deliver`.
pub fn what_connections_acknowledge_has_come()
    ensures { (p : Ends) → Runs p → BothComeAcross p }
{}

/// The peer does not answer an acknowledgement, unless it has by then received something that was sent after it. So
/// acknowledgements of acknowledgements end. In CLOSED it sends a RST. The peer takes the acknowledgement and the window if the
/// sender has sent at most one number that is not in the peer's window.
pub fn an_acknowledgement_ends(
    sender: &Connection,
    receiver: &mut Connection,
    outgoing: &[u8],
    incoming: &mut [u8],
    window: u32,
    fresh: u32,
) -> Option<Reply>
    requires out { OutFits receiver.old.sending (length outgoing.now) }
    requires rings { InFits receiver.old.receiving (length incoming.old) }
    requires phase { receiver.old.phase ≡ Open }
    requires state { state_from receiver.old ≡ State.Closed → ⊥ }
    ensures ends { (there back : World) (sent received : List Event) (consumed read out rings : List ℕ)
        → Stand there back consumed sender.now out rings
        → Stand (run received back) (run sent there) read receiver.old outgoing.now incoming.old
        → ComesNext there back sent received → result ≡ None }
    ensures taken { (there back : World) (sent received : List Event) (consumed read out rings : List ℕ)
        → receiver.old.receiving.is_open ≡ true → Stand there back consumed sender.now out rings
        → Stand (run received back) (run sent there) read receiver.old outgoing.now incoming.old
        → ComesNext there back sent received
        → there.sent ≤ length (run sent there).receiver.got + room_of receiver.old.receiving (length incoming.old) + 1
        → IfSome (acknowledgement_of sender.now).ack
        (λ ack. TakesAck receiver.old receiver.new (acknowledgement_of sender.now).number window ack) }
{
    let reply = sender.acknowledgement();
    let segment = Segment {
        number: reply.number,
        ack: reply.ack,
        window,
        syn: reply.syn,
        rst: reply.rst,
        fin: false,
        payload: &outgoing[..0],
    };
    receiver.on_segment(outgoing, incoming, &segment, fresh)
}

/// What the network brings of two segments, after almost 2^30 bytes were written: the first one after the second one was sent, the
/// second byte of the first one, and this byte joined with the second one. A RST may be from anyone.
pub fn a_middlebox_makes_others()
    ensures older { IsFrom two_sent 1073741824 1073741822 (record { number = 4294967295; items = Byte 1 ∷ Byte 2 ∷ []; ack = Some 500; rst = false }) }
    ensures split { IsFrom two_sent 1073741824 1073741822 (record { number = 0; items = Byte 2 ∷ []; ack = Some 500; rst = false }) }
    ensures joined { IsFrom two_sent 1073741824 1073741822 (record { number = 0; items = Byte 2 ∷ Byte 3 ∷ Fin ∷ []; ack = Some 501; rst = false }) }
    ensures reset { (s : Said) → s.rst ≡ true → IsFrom two_sent 1073741824 1073741822 s }
{}

/// A new connection is an end before its first call.
pub fn a_new_connection_is_new(outgoing: &[u8], incoming: &[u8]) -> Connection
    requires some { 0 < length outgoing.now }
    requires small { length outgoing.now < 1073741824 }
    ensures { IsNew (record {
      connection = result;
      outgoing = outgoing.now;
      incoming = incoming.now;
      was_opened = false;
      wrote = [];
      read = [];
      sent = [];
    }) }
{
    Connection::new()
}

/// Each step is a call of a run, if a segment that comes is from the other end, and no end opens twice.
pub fn a_step_is_a_call<'a>(
    here: &mut Connection,
    outgoing: &'a [u8],
    incoming: &mut [u8],
    event: step::Event,
) -> Option<Segment<'a>>
    requires text { IsShort event }
    requires out { OutFits here.old.sending (length outgoing.now) }
    requires rings { InFits here.old.receiving (length incoming.old) }
    ensures { (b : End) (was_opened : Bool) (wrote read : List ℕ) (sent : List Sent)
        → let a : End = record {
          connection = here.old;
          outgoing = outgoing.now;
          incoming = incoming.old;
          was_opened = was_opened;
          wrote = wrote;
          read = read;
          sent = sent;
        } in MayCome event.entry a b
        → OpensOnce a here.new → Calls a b (stepped a b here.new incoming.new (option_map said result)) }
{
    here.step(outgoing, incoming, event)
}

/// The call that opens actively is one of a run, in a connection that the program has not opened before. The peer's end of this
/// connection may be any, and so may the present connection, which has no peer.
pub fn an_opening_is_a_call<'a>(
    here: &mut Connection,
    outgoing: &'a [u8],
    incoming: &mut [u8],
    iss: u32,
) -> Option<Segment<'a>>
    requires none { has_peer (state_from here.old) ≡ false }
    requires out { OutFits here.old.sending (length outgoing.now) }
    requires rings { InFits here.old.receiving (length incoming.old) }
    ensures { (a b new : Program) (k : ℕ) → (present a).connection ≡ here.old → (present a).outgoing ≡ outgoing.now → (present a).incoming ≡ incoming.old → (a.ends k).was_opened ≡ false → new.number ≡ k → OthersStay k a new → new.ends k ≡ stepped (opening a k) (b.ends k) here.new incoming.new (option_map said result) → Turns a b new }
{
    here.step(outgoing, incoming, step::Event::Open(iss))
}
