//! Laws of what is lost: what is sent again, and what that makes of the timer and of cwnd.

ghost use Rattle.std.specs.Prelude.{[], false, ◌≡◌, ◌<◌, ◌≤◌, ◌⊎◌, ◌+◌, ◌*◌, ◌/◌, ◌%◌, ℕ, length, true, max, min, MatchOption, None, Some};
ghost use Rattle.app_congestion.specs.Congestion.{is_in_recovery, is_partial, is_past};
ghost use Rattle.app_congestion.specs.declared.phase.Phase.TheVariants.{Recovered};
ghost use Rattle.app_connection.specs.Endpoints.{OutFits, InFits, next_of, spoken};
ghost use Rattle.app_connection.specs.States.{has_peer, state_from};
ghost use Rattle.app_connection.specs.declared.state.State.TheVariants as State;
ghost use Rattle.app_options.specs.Options.{own_scale};
ghost use Rattle.app_options.specs.Timestamps.{takes};
ghost use Rattle.app_socket.specs.Losses.{GoesAt, IsEarly};
ghost use Rattle.app_socket.specs.Probes.{is_probing, phase_heard};
ghost use Rattle.app_socket.specs.Resends.{IsDuplicateFor, is_due, newly_in, scaled_by};
ghost use Rattle.app_socket.specs.Times.{is_open, later, mss_of};
ghost use Rattle.app_socket.specs.Undo.{is_needless};
ghost use Rattle.app_socket.specs.Window.{least_growth, promised, read_as};
ghost use Rattle.tcp_stream.specs.Stands.{room_of};
ghost use Rattle.tcp_stream.specs.Waits.{count_of, unsent_of};

use crate::{Event, Socket};
use app_connection::Segment;
use wire_tcp_options::TcpOptionSummary;

/// A SYN without an answer is sent again after a second (RFC 6298, section 2.1), and then after two more (section 5.5). Returns
/// both.
pub fn a_lost_syn_goes_again<'a>(
    socket: &mut Socket,
    outgoing: &'a [u8],
    incoming: &mut [u8],
    now: u64,
    iss: u32,
) -> (Option<Segment<'a>>, Option<Segment<'a>>)
    requires out { OutFits socket.old.connection.sending (length outgoing.now) }
    requires rings { InFits socket.old.connection.receiving (length incoming.old) }
    requires none { has_peer (state_from socket.old.connection) ≡ false }
    requires clock { now + 180000 < 18446744073709551616 }
    ensures once { spoken result.0 ≡ Some (record { number = iss; ack = None; syn = true; rst = false }) }
    ensures twice { spoken result.1 ≡ Some (record { number = iss; ack = None; syn = true; rst = false }) }
    ensures next { socket.new.timers.resend_at ≡ Some (now + 7000) }
{
    let _ = socket.step(outgoing, incoming, now, Event::Open(iss));
    let once = socket.step(outgoing, incoming, now + 1000, Event::Tick);
    let twice = socket.step(outgoing, incoming, now + 3000, Event::Tick);
    (once, twice)
}

/// The retransmission timer expires for the first time. Then cwnd is one segment, and ssthresh half of what is in flight, but at
/// least two segments (RFC 5681, section 3.1). The timeout is twice as long (RFC 6298, section 5.5). A call before the timer expires
/// again changes nothing of the timeout. Returns the socket between both calls.
pub fn a_time_out_slows(
    socket: &mut Socket,
    outgoing: &[u8],
    incoming: &mut [u8],
    first: u64,
    second: u64,
) -> Socket
    requires out { OutFits socket.old.connection.sending (length outgoing.now) }
    requires rings { InFits socket.old.connection.receiving (length incoming.old) }
    requires opened { is_open (state_from socket.old.connection) ≡ true }
    requires waits { 0 < count_of socket.old.connection.sending }
    requires due { is_due socket.old.timers.resend_at first ≡ true }
    requires probed { socket.old.flow.is_probed ≡ true }
    requires patient { first < socket.old.timers.ends_at }
    requires flight { 0 < socket.old.connection.sending.flight }
    requires window { 0 < socket.old.connection.wnd }
    requires fresh { socket.old.flow.congestion.is_resent ≡ false }
    ensures cwnd { result.flow.congestion.cwnd ≡ socket.old.flow.congestion.mss }
    ensures ssthresh { result.flow.congestion.ssthresh
        ≡ min 1073741824 (max (socket.old.connection.sending.flight / 2) (2 * socket.old.flow.congestion.mss)) }
    ensures timeout { result.flow.rto.timeout ≡ min 60000 (2 * socket.old.flow.rto.timeout) }
    ensures rests { IsEarly result second → (socket.new.flow.rto.timeout ≡ min 60000 (2 * socket.old.flow.rto.timeout))
        × (socket.new.flow.is_probed ≡ true)
        × (socket.new.flow.congestion.phase
        ≡ Recovered ((socket.old.connection.sending.una + socket.old.connection.sending.flight) % 4294967296))
        × (socket.new.flow.congestion.duplicates ≡ 0) }
{
    let _ = socket.step(outgoing, incoming, first, Event::Tick);
    let between = *socket;
    let _ = socket.step(outgoing, incoming, second, Event::Tick);
    between
}

/// A loss probe leaves cwnd and ssthresh as they are (RFC 8985, section 7.3): congestion control responds only to an acknowledgement
/// that shows a loss.
pub fn a_loss_probe_leaves_cwnd(socket: &mut Socket, outgoing: &[u8], incoming: &mut [u8], now: u64)
    requires out { OutFits socket.old.connection.sending (length outgoing.now) }
    requires rings { InFits socket.old.connection.receiving (length incoming.old) }
    requires opened { is_open (state_from socket.old.connection) ≡ true }
    requires waits { 0 < count_of socket.old.connection.sending }
    requires due { is_due socket.old.timers.resend_at now ≡ true }
    requires probing { is_probing socket.old.flow ≡ true }
    requires patient { now < socket.old.timers.ends_at }
    ensures { socket.new.flow.congestion ≡ socket.old.flow.congestion }
{
    let _ = socket.step(outgoing, incoming, now, Event::Tick);
}

/// An acknowledgement comes, and the program calls before the timer expires. A duplicate one is counted, or the segment at SND.UNA
/// is sent again: after the third one at the latest (RFC 5681, section 3.2). So it is after a partial one (RFC 6582, section 3.2),
/// also one that answers a loss probe (RFC 8985, section 7.4), unless a timestamp shows that nothing was lost (RFC 3522). If all is
/// acknowledged the timer is off (RFC 6298, section 5.2). An acknowledgement of nothing new leaves a timer that runs for at most a
/// minute. Returns the socket between both calls, and what is sent.
pub fn an_acknowledgement_resends<'a>(
    socket: &mut Socket,
    outgoing: &'a [u8],
    incoming: &mut [u8],
    times: (u64, u64),
    answer: &Segment,
    options: &TcpOptionSummary,
) -> (Socket, Option<Segment<'a>>)
    requires text { length answer.now.payload.now < 65536 }
    requires out { OutFits socket.old.connection.sending (length outgoing.now) }
    requires rings { InFits socket.old.connection.receiving (length incoming.old) }
    requires opened { is_open (state_from socket.old.connection) ≡ true }
    requires synced { socket.old.connection.receiving.is_open ≡ true }
    requires taken { takes socket.old.agreed.recent options.now.timestamp times.0 ≡ true }
    ensures duplicate { IsEarly result.0 times.1 → newly_in socket.old result.0 ≡ 0
        → IsDuplicateFor socket.old (length incoming.old) (scaled_by socket.old.agreed answer.now)
        → is_in_recovery socket.old.flow.congestion.phase ≡ false
        → is_past socket.old.flow.congestion.phase result.0.connection.sending.una ≡ true
        → socket.old.flow.congestion.duplicates < 3 → GoesAt result.1 result.0.connection.sending.una
        ⊎ ((socket.old.flow.congestion.duplicates < socket.new.flow.congestion.duplicates)
        × (socket.new.flow.congestion.duplicates < 3)) }
    ensures partial { IsEarly result.0 times.1 → 0 < newly_in socket.old result.0
        → is_needless socket.old options.now.timestamp times.0 ≡ false
        → is_partial (phase_heard socket.old.flow (next_of result.0.connection)) result.0.connection.sending.una ≡ true
        → socket.old.flow.rescued ≤ newly_in socket.old result.0 → GoesAt result.1 result.0.connection.sending.una }
    ensures off { is_open (state_from result.0.connection) ≡ true → 0 < newly_in socket.old result.0
        → result.0.connection.sending.flight ≡ 0 → unsent_of result.0.connection.sending ≡ 0
        → result.0.timers.resend_at ≡ None }
    ensures runs { is_open (state_from result.0.connection) ≡ true → newly_in socket.old result.0 ≡ 0 → (at : ℕ)
        → socket.old.timers.resend_at ≡ Some at → at ≤ later times.0 60000
        → MatchOption result.0.timers.resend_at ⊥ (λ t. t ≤ later times.0 60000) }
{
    let _ = socket.step(
        outgoing,
        incoming,
        times.0,
        Event::Arrives(answer, options, 0),
    );
    let between = *socket;
    let given = socket.step(outgoing, incoming, times.1, Event::Tick);
    (between, given)
}

/// The program reads after the window was closed. Once half of the ring or a segment is free, as the peer reads a scaled window, the
/// next call advertises all of it (RFC 9293, section 3.8.6.2.2).
pub fn a_window_that_opens_is_told<'a>(
    socket: &mut Socket,
    outgoing: &'a [u8],
    incoming: &mut [u8],
    count: usize,
    now: u64,
) -> Option<Segment<'a>>
    requires out { OutFits socket.old.connection.sending (length outgoing.now) }
    requires rings { InFits socket.old.connection.receiving (length incoming.old) }
    requires opened { state_from socket.old.connection ≡ State.Established }
    requires synced { socket.old.connection.receiving.is_open ≡ true }
    requires closed { promised socket.old.edge socket.old.connection.receiving.next ≡ 0 }
    requires patient { now < socket.old.timers.ends_at }
    ensures { least_growth (length incoming.old) (mss_of socket.old.options)
        ≤ read_as (room_of socket.new.connection.receiving (length incoming.old))
        (own_scale socket.old.agreed (length incoming.old))
        → MatchOption result ⊥ (λ s. (s.ack ≡ Some socket.old.connection.receiving.next)
        × (s.window ≡ room_of socket.new.connection.receiving (length incoming.old))) }
{
    let _ = socket.read(incoming, count);
    socket.step(outgoing, incoming, now, Event::Tick)
}
