//! Laws of several calls.

ghost use Rattle.std.specs.Prelude.{◌≡◌, ◌≤◌, [], length, false, ◌<◌, ◌+◌, ◌%◌, ℕ, List, true, max, min, is_some, MatchOption, None, Some};
ghost use Rattle.app_connection.specs.Arrived.{BothComeAcross};
ghost use Rattle.app_connection.specs.Endpoints.{OutFits, InFits, len_of};
ghost use Rattle.app_connection.specs.Runs.{BothRead};
ghost use Rattle.app_connection.specs.States.{has_peer, state_from};
ghost use Rattle.app_socket.specs.Openings as openings;
ghost use Rattle.app_socket.specs.Rounds.{AcknowledgesItems, AreBefore, AreRounds, GoesFurther, IsAllAcknowledged, IsRound, IsWaiting, StandsFor, StillWaits, expires_by};
ghost use Rattle.app_socket.specs.Runs.{Ends, Runs, ends_of};
ghost use Rattle.tcp_stream.specs.Network.{World, Event as WorldEvent, run, start, stream};
ghost use Rattle.tcp_stream.specs.Waits.{Waits, count_of};
ghost use Rattle.app_congestion.specs.Congestion.{sender_of};
ghost use Rattle.app_options.specs.Timestamps.{round_trip, takes};
ghost use Rattle.app_socket.specs.Resends.{ComesAcross, GoesRound, IsSound, is_due, newly_in};
ghost use Rattle.app_socket.specs.Undo.{UndoesTo, is_echo_before};
ghost use Rattle.app_socket.specs.Segments.{text_of};
ghost use Rattle.app_socket.specs.Times.{is_open, resend_or_probe};

pub mod losses;
pub mod pair;
pub mod repairs;
pub mod rounds;
pub mod schedules;

use crate::{Event, Socket};
use app_connection::Segment;
use wire_tcp_options::TcpOptionSummary;

/// A connection whose peer is silent ends, whatever it still has to send: after ticks at any times, the last one not before the
/// time at which it ends, there is none.
pub fn silence_ends(
    socket: &mut Socket,
    outgoing: &[u8],
    incoming: &mut [u8],
    times: &[u64],
    last: u64,
)
    requires out { OutFits socket.old.connection.sending (length outgoing.now) }
    requires rings { InFits socket.old.connection.receiving (length incoming.old) }
    ensures { socket.old.timers.ends_at ≤ last → has_peer (state_from socket.new.connection) ≡ false }
{
    for time in times {
        let _ = socket.step(outgoing, incoming, *time, Event::Tick);
    }
    let _ = socket.step(outgoing, incoming, last, Event::Tick);
}

/// What one program reads from a socket is a prefix of what the other one wrote, and all of it once `is_ended` returns true. This
/// holds for all calls of both programs in any order and at any times, over a network that loses, repeats, reorders, delays,
/// splits and joins segments. Each end opens once. Each segment that PAWS takes was returned by a call of the other end, or was
/// made of such segments, and since then each program wrote less than 2^30 - 1 bytes. A RST may be from anyone.
pub fn two_sockets_deliver()
    ensures { (p : Ends) → Runs p → BothRead (ends_of p) }
{}

/// The same in each connection of two programs that open again any number of times.
pub fn sockets_that_open_again_deliver()
    ensures { (p : openings.Programs) → openings.Runs p → (n : ℕ) → BothRead (openings.ends_of p n) }
{}

/// What is acknowledged has come: if nothing of a program waits, the other one has read all that it wrote, or it waits in the ring
/// to be read. So has the end. The runs are those of `two_sockets_deliver`.
pub fn what_sockets_acknowledge_has_come()
    ensures { (p : Ends) → Runs p → BothComeAcross (ends_of p) }
{}

/// What is not acknowledged goes again from the first item on, at most two expirations of the timer after it was sent, a minute
/// apart: the first one may be a loss probe. The peer was not silent for too long before.
pub fn what_is_lost_goes_again<'a>(
    socket: &mut Socket,
    outgoing: &'a [u8],
    incoming: &mut [u8],
    first: u64,
    second: u64,
) -> Option<Segment<'a>>
    requires out { OutFits socket.old.connection.sending (length outgoing.now) }
    requires rings { InFits socket.old.connection.receiving (length incoming.old) }
    requires opened { is_open (state_from socket.old.connection) ≡ true }
    requires waits { 0 < count_of socket.old.connection.sending }
    requires due { is_due socket.old.timers.resend_at first ≡ true }
    requires minute { first + 60000 ≤ second }
    requires patient { second < socket.old.timers.ends_at }
    ensures { MatchOption result ⊥ (λ s. (s.number ≡ socket.old.connection.sending.una) × (0 < len_of s)) }
{
    let _ = socket.step(outgoing, incoming, first, Event::Tick);
    socket.step(outgoing, incoming, second, Event::Tick)
}

/// A round after a loss: the timer expires, after the loss probe. What goes then is a part of the stream from SND.UNA on, and if it
/// comes to the peer, and its acknowledgement comes back, more is acknowledged than before. The law `all_is_acknowledged` of
/// `tcp_stream` counts such rounds: after one for each item all is acknowledged.
pub fn a_time_out_goes_on(socket: &mut Socket, outgoing: &[u8], incoming: &mut [u8], now: u64)
    requires out { OutFits socket.old.connection.sending (length outgoing.now) }
    requires rings { InFits socket.old.connection.receiving (length incoming.old) }
    requires opened { is_open (state_from socket.old.connection) ≡ true }
    requires due { is_due socket.old.timers.resend_at now ≡ true }
    requires probed { socket.old.flow.is_probed ≡ true }
    requires patient { now < socket.old.timers.ends_at }
    ensures { (initial room : ℕ) (events : List WorldEvent)
        → let there : World = run events (start initial) in Waits there socket.old.connection.sending outgoing.now
        → there.acked < length (stream there.written there.closed) → there.receiver.is_open ≡ true → 0 < room
        → ComesAcross there socket.new.connection.sending outgoing.now room }
{
    let _ = socket.step(outgoing, incoming, now, Event::Tick);
}

/// A whole round after a loss. The timer expires, after the loss probe, and then the peer's acknowledgement comes: of all that it
/// has after what went came. That is a round of `tcp_stream` (`goes_on`), after which more is acknowledged than before.
pub fn a_round_is_acknowledged(
    socket: &mut Socket,
    outgoing: &[u8],
    incoming: &mut [u8],
    times: (u64, u64),
    answer: &Segment,
    options: &TcpOptionSummary,
)
    requires out { OutFits socket.old.connection.sending (length outgoing.now) }
    requires rings { InFits socket.old.connection.receiving (length incoming.old) }
    requires opened { is_open (state_from socket.old.connection) ≡ true }
    requires due { is_due socket.old.timers.resend_at times.0 ≡ true }
    requires probed { socket.old.flow.is_probed ≡ true }
    requires patient { times.0 < socket.old.timers.ends_at }
    requires synced { socket.old.connection.receiving.is_open ≡ true }
    requires number { answer.now.number ≡ socket.old.connection.receiving.next }
    requires no_rst { answer.now.rst ≡ false }
    requires bare { len_of answer.now ≡ 0 }
    requires taken { takes socket.old.agreed.recent options.now.timestamp times.1 ≡ true }
    ensures { is_open (state_from socket.new.connection) ≡ true → (initial room : ℕ) (events : List WorldEvent)
        → let there : World = run events (start initial) in Waits there socket.old.connection.sending outgoing.now
        → there.acked < length (stream there.written there.closed) → there.receiver.is_open ≡ true → 0 < room
        → GoesRound there socket.new.connection.sending outgoing.now room answer.now.ack }
{
    let _ = socket.step(outgoing, incoming, times.0, Event::Tick);
    let _ = socket.step(
        outgoing,
        incoming,
        times.1,
        Event::Arrives(answer, options, 0),
    );
}

/// A time-out that was not needed costs nothing: if no segment went again before it, and the next acknowledgement of something new
/// echoes a timestamp from before it, cwnd and ssthresh are as before it, and cwnd grows by what is acknowledged. All in flight
/// counts as sent once (RFC 3522, RFC 4015).
pub fn a_spurious_time_out_is_undone(
    socket: &mut Socket,
    outgoing: &[u8],
    incoming: &mut [u8],
    times: (u64, u64),
    answer: &Segment,
    options: &TcpOptionSummary,
)
    requires out { OutFits socket.old.connection.sending (length outgoing.now) }
    requires rings { InFits socket.old.connection.receiving (length incoming.old) }
    requires opened { is_open (state_from socket.old.connection) ≡ true }
    requires waits { 0 < count_of socket.old.connection.sending }
    requires flight { 0 < socket.old.connection.sending.flight }
    requires window { 0 < socket.old.connection.wnd }
    requires due { is_due socket.old.timers.resend_at times.0 ≡ true }
    requires probed { socket.old.flow.is_probed ≡ true }
    requires patient { times.0 < socket.old.timers.ends_at }
    requires once { socket.old.flow.undo.sent_at ≡ 0 }
    requires text { length answer.now.payload.now < 65536 }
    requires taken { takes socket.old.agreed.recent options.now.timestamp times.1 ≡ true }
    requires echo { let a = socket.old.agreed in
        is_echo_before times.0 (round_trip a.recent a.offset options.now.timestamp times.1) times.1 ≡ true }
    ensures { is_open (state_from socket.new.connection) ≡ true → 0 < newly_in socket.old socket.new
        → UndoesTo (sender_of socket.old.flow.congestion) socket.new.flow (newly_in socket.old socket.new)
        socket.new.connection.sending.flight socket.new.connection.sending.una }
{
    let _ = socket.step(outgoing, incoming, times.0, Event::Tick);
    let _ = socket.step(
        outgoing,
        incoming,
        times.1,
        Event::Arrives(answer, options, 0),
    );
}

/// Text is not held back: with nothing in flight all that waits goes at the next tick, if it fits a segment and both windows.
pub fn small_text_goes_at_once<'a>(
    socket: &mut Socket,
    outgoing: &'a [u8],
    incoming: &mut [u8],
    now: u64,
) -> Option<Segment<'a>>
    requires out { OutFits socket.old.connection.sending (length outgoing.now) }
    requires rings { InFits socket.old.connection.receiving (length incoming.old) }
    requires opened { is_open (state_from socket.old.connection) ≡ true }
    requires patient { now < socket.old.timers.ends_at }
    requires sound { IsSound socket.old.flow socket.old.connection.sending.flight }
    requires idle { socket.old.connection.sending.flight ≡ 0 }
    requires waits { 0 < count_of socket.old.connection.sending }
    requires window { count_of socket.old.connection.sending ≤ socket.old.connection.wnd }
    ensures { count_of socket.old.connection.sending ≤ text_of socket.new
        → count_of socket.old.connection.sending ≤ socket.new.flow.congestion.cwnd
        → MatchOption result ⊥ (λ s. 0 < len_of s) }
{
    socket.step(outgoing, incoming, now, Event::Tick)
}

/// A round of a network that loses: the retransmission timer expires, the segment at SND.UNA goes, and the peer acknowledges it.
#[derive(Debug, Clone, Copy)]
pub struct Round<'r> {
    /// When the program calls before, and what it sends is lost, or its acknowledgement.
    pub lost: &'r [u64],
    /// When it calls after the timer expired. It may be a loss probe that goes then.
    pub first: u64,
    /// When it calls after the timer expired again.
    pub second: u64,
    /// When the acknowledgement of what went at `second` comes.
    pub answered: u64,
    /// How many items from SND.UNA on the peer has then: at least one, and at most those in flight.
    pub taken: u32,
    /// The window of the acknowledgement.
    pub window: u32,
}

/// Many rounds bring everything across: after one round for each item that waits, all that was written is acknowledged. In each
/// round what goes before is lost. The time of silence after which the connection ends is named by `AreRounds`: as long as an
/// acknowledgement comes in time, it does not end. Returns false if PAWS drops an acknowledgement; it drops none if no timestamps
/// were agreed on.
pub fn rounds_acknowledge_all(
    socket: &mut Socket,
    outgoing: &[u8],
    incoming: &mut [u8],
    rounds: &[Round],
    options: &TcpOptionSummary,
) -> bool
    requires out { OutFits socket.old.connection.sending (length outgoing.now) }
    requires rings { InFits socket.old.connection.receiving (length incoming.old) }
    requires opened { is_open (state_from socket.old.connection) ≡ true }
    requires synced { socket.old.connection.receiving.is_open ≡ true }
    requires runs { is_some socket.old.timers.resend_at ≡ true }
    requires rounds { AreRounds (resend_or_probe socket.old.timers.resend_at socket.old.timers.probe_at) socket.old.timers.ends_at rounds.now }
    ensures all { StandsFor socket.old.connection outgoing.now incoming.old → count_of socket.old.connection.sending ≤ length rounds.now → result ≡ true → IsAllAcknowledged socket.new.connection.sending outgoing.now }
    ensures taken { StandsFor socket.old.connection outgoing.now incoming.old → socket.old.agreed.recent ≡ None → result ≡ true }
{
    for round in rounds {
        if socket.waiting() == 0 {
            return true;
        }
        if !goes_round(socket, outgoing, incoming, round, options) {
            return false;
        }
    }
    true
}

// One round. Returns false if PAWS drops the acknowledgement.
fn goes_round(
    socket: &mut Socket,
    outgoing: &[u8],
    incoming: &mut [u8],
    round: &Round,
    options: &TcpOptionSummary,
) -> bool
    requires out { OutFits socket.old.connection.sending (length outgoing.now) }
    requires rings { InFits socket.old.connection.receiving (length incoming.old) }
    ensures out { OutFits socket.new.connection.sending (length outgoing.now) }
    ensures rings { InFits socket.new.connection.receiving (length incoming.old) }
    ensures goes { (by end : ℕ) → 0 < count_of socket.old.connection.sending → IsWaiting socket.old by end → IsRound by end round.now → StandsFor socket.old.connection outgoing.now incoming.old → result ≡ true → GoesFurther socket.old socket.new outgoing.now incoming.new round.now.answered }
    ensures taken { (by end : ℕ) → 0 < count_of socket.old.connection.sending → IsWaiting socket.old by end → IsRound by end round.now → StandsFor socket.old.connection outgoing.now incoming.old → socket.old.agreed.recent ≡ None → (result ≡ true) × (socket.new.agreed.recent ≡ None) }
{
    lose(socket, outgoing, incoming, round.lost);
    let _ = socket.step(outgoing, incoming, round.first, Event::Tick);
    let Some(sent) = socket.step(outgoing, incoming, round.second, Event::Tick) else {
        return false;
    };
    if !socket.agreed.takes(options.timestamp, round.answered) {
        return false;
    }
    let answer = answer(socket, outgoing, &sent, round);
    hear(socket, outgoing, incoming, round.answered, &answer, options);
    true
}

// The acknowledgement comes.
fn hear(
    socket: &mut Socket,
    outgoing: &[u8],
    incoming: &mut [u8],
    now: u64,
    answer: &Segment,
    options: &TcpOptionSummary,
)
    requires text { answer.now.payload.now ≡ [] }
    requires out { OutFits socket.old.connection.sending (length outgoing.now) }
    requires rings { InFits socket.old.connection.receiving (length incoming.old) }
    requires taken { takes socket.old.agreed.recent options.now.timestamp now ≡ true }
    ensures out { OutFits socket.new.connection.sending (length outgoing.now) }
    ensures rings { InFits socket.new.connection.receiving (length incoming.old) }
    ensures further { (by end taken : ℕ) → IsWaiting socket.old by end → AcknowledgesItems socket.old.connection answer.now taken → StandsFor socket.old.connection outgoing.now incoming.old → GoesFurther socket.old socket.new outgoing.now incoming.new now }
    ensures recent { is_open (state_from socket.old.connection) ≡ true → socket.old.agreed.recent ≡ None → socket.new.agreed.recent ≡ None }
{
    let _ = socket.step(outgoing, incoming, now, Event::Arrives(answer, options, 0));
}

// Time passes, and what goes is lost.
fn lose(socket: &mut Socket, outgoing: &[u8], incoming: &mut [u8], times: &[u64])
    requires out { OutFits socket.old.connection.sending (length outgoing.now) }
    requires rings { InFits socket.old.connection.receiving (length incoming.old) }
    ensures out { OutFits socket.new.connection.sending (length outgoing.now) }
    ensures rings { InFits socket.new.connection.receiving (length incoming.old) }
    ensures waits { (by end : ℕ) → 0 < count_of socket.old.connection.sending → IsWaiting socket.old by end → AreBefore times.now end → StandsFor socket.old.connection outgoing.now incoming.old → StillWaits socket.old socket.new outgoing.now incoming.new (expires_by by times.now) end }
{
    for time in times {
        let _ = socket.step(outgoing, incoming, *time, Event::Tick);
    }
}

// The peer's acknowledgement of a segment, at RCV.NXT.
fn answer<'a>(socket: &Socket, outgoing: &'a [u8], sent: &Segment, round: &Round) -> Segment<'a>
    ensures number { socket.now.connection.receiving.is_open ≡ true → result.number ≡ socket.now.connection.receiving.next }
    ensures ack { result.ack ≡ Some ((sent.now.number + min socket.now.connection.sending.flight (max 1 round.now.taken)) % 4294967296) }
    ensures rst { result.rst ≡ false }
    ensures text { result.payload.now ≡ [] }
    ensures bare { len_of result ≡ 0 }
{
    let taken = round.taken.max(1).min(socket.connection.flight());
    Segment {
        number: socket.next(),
        ack: Some(sent.number.wrapping_add(taken)),
        window: round.window,
        syn: false,
        rst: false,
        fin: false,
        payload: &outgoing[..0],
    }
}
