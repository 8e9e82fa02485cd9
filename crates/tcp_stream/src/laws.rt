//! Laws of both halves together.

ghost use Rattle.std.specs.Prelude.{◌≡◌, ◌≤◌, ◌<◌, ℕ, List, length, true, false};
ghost use Rattle.tcp_stream.specs.Network.{World, Event, run, start, stream};
ghost use Rattle.tcp_stream.specs.GoesOn.{GoesOn};
ghost use Rattle.tcp_stream.specs.Stands.{Stands, room_of, reach};
ghost use Rattle.tcp_stream.specs.Waits.{Waits};

use crate::{Receiving, Sending};

/// After any events a round without loss acknowledges more, until all is acknowledged. The receiver has room, or has all.
pub fn goes_on(
    sending: &mut Sending,
    receiving: &mut Receiving,
    outgoing: &[u8],
    incoming: &mut [u8],
    count: usize,
)
    requires start { sending.old.start < length outgoing.now }
    requires len { sending.old.len ≤ length outgoing.now }
    requires small { length outgoing.now < 1073741824 }
    requires begin { receiving.old.start < length incoming.old }
    requires received { reach receiving.old ≤ length incoming.old }
    requires few { length incoming.old < 1073741824 }
    requires established { sending.old.has_syn ≡ false }
    requires is_open { receiving.old.is_open ≡ true }
    requires count { 0 < count }
    requires room { receiving.old.has_fin ≡ false → 0 < room_of receiving.old (length incoming.old) }
    ensures { (initial : ℕ) (events : List Event) (consumed : List ℕ)
        → let w : World = run events (start initial) in Waits w sending.old outgoing.now
        → Stands w consumed receiving.old incoming.old → w.acked < length (stream w.written w.closed)
        → GoesOn w consumed sending.new outgoing.now receiving.new incoming.new }
{
    let segment = sending.segment(outgoing, 0, count);
    receiving.on_segment(incoming, segment.number, segment.payload, segment.fin);
    if let Some(number) = receiving.next() {
        sending.on_ack(outgoing, number);
    }
}
