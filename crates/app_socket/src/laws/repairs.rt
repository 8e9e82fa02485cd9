//! Laws of what goes again: holes, the answer to a SYN, and what is remembered of the segments in flight.

ghost use Rattle.std.specs.Prelude.{◌≡◌, ◌<◌, ◌≤◌, ◌⊎◌, ◌+◌, ◌*◌, ◌%◌, ℕ, length, false, true, min, IfSome, MatchOption, Some};
ghost use Rattle.app_congestion.specs.Congestion.{is_in_recovery};
ghost use Rattle.app_connection.specs.Endpoints.{InFits, OutFits, len_of, spoken};
ghost use Rattle.app_connection.specs.States.{state_from};
ghost use Rattle.app_connection.specs.declared.state.Phase.TheVariants.{SynReceived};
ghost use Rattle.app_options.specs.Timestamps.{takes};
ghost use Rattle.app_socket.specs.Losses.{HasTwoBlocks, IsEarly};
ghost use Rattle.app_socket.specs.Resends.{IsSound, is_due};
ghost use Rattle.app_socket.specs.Segments.{text_of};
ghost use Rattle.app_socket.specs.Times.{is_open};
ghost use Rattle.tcp_stream.specs.Waits.{count_of};

use crate::{Event, Socket};
use app_connection::Segment;
use wire_tcp_options::TcpOptionSummary;

/// In fast recovery the peer has two blocks after gaps, [a, b) and [c, d), counted from SND.UNA on. A call before the timer expires
/// sends the first items that the peer lacks, and that were not sent again: from those that were sent again on, or after the first
/// block (RFC 6675, section 4, rule 1 of NextSeg).
pub fn a_hole_goes_again<'a>(
    socket: &mut Socket,
    outgoing: &'a [u8],
    incoming: &mut [u8],
    now: u64,
) -> Option<Segment<'a>>
    requires out { OutFits socket.old.connection.sending (length outgoing.now) }
    requires rings { InFits socket.old.connection.receiving (length incoming.old) }
    requires early { IsEarly socket.old now }
    requires sound { IsSound socket.old.flow socket.old.connection.sending.flight }
    requires flight { socket.old.connection.sending.flight ≤ count_of socket.old.connection.sending }
    requires recovers { is_in_recovery socket.old.flow.congestion.phase ≡ true }
    requires first { socket.old.flow.resend ≡ false }
    requires text { 0 < text_of socket.old }
    ensures before { (a b c d : ℕ) → HasTwoBlocks socket.old.flow.scoreboard a b c d → socket.old.flow.rescued < a
        → socket.old.flow.rescued < min socket.old.connection.wnd socket.new.flow.congestion.cwnd
        → MatchOption result ⊥
        (λ s. s.number ≡ (socket.old.connection.sending.una + socket.old.flow.rescued) % 4294967296) }
    ensures between { (a b c d : ℕ) → HasTwoBlocks socket.old.flow.scoreboard a b c d → a ≤ socket.old.flow.rescued
        → socket.old.flow.rescued ≤ b → b < min socket.old.connection.wnd socket.new.flow.congestion.cwnd
        → MatchOption result ⊥ (λ s. s.number ≡ (socket.old.connection.sending.una + b) % 4294967296) }
{
    socket.step(outgoing, incoming, now, Event::Tick)
}

/// In SYN-RECEIVED: SYN and acknowledgement are sent again when the timer expires, and once more after twice the timeout (RFC 6298,
/// section 5.5). The end of the peer's patience stays. Returns both.
pub fn a_lost_answer_goes_again<'a>(
    socket: &mut Socket,
    outgoing: &'a [u8],
    incoming: &mut [u8],
    first: u64,
    second: u64,
) -> (Option<Segment<'a>>, Option<Segment<'a>>)
    requires out { OutFits socket.old.connection.sending (length outgoing.now) }
    requires rings { InFits socket.old.connection.receiving (length incoming.old) }
    requires phase { socket.old.connection.phase ≡ SynReceived }
    requires due { is_due socket.old.timers.resend_at first ≡ true }
    requires much { first + 2 * socket.old.flow.rto.timeout ≤ second }
    requires patient { second < socket.old.timers.ends_at }
    ensures once { spoken result.0 ≡ Some (record {
      number = socket.old.connection.iss;
      ack = Some ((socket.old.connection.irs + 1) % 4294967296);
      syn = true;
      rst = false;
    }) }
    ensures twice { spoken result.1 ≡ Some (record {
      number = socket.old.connection.iss;
      ack = Some ((socket.old.connection.irs + 1) % 4294967296);
      syn = true;
      rst = false;
    }) }
    ensures ends { socket.new.timers.ends_at ≡ socket.old.timers.ends_at }
{
    let once = socket.step(outgoing, incoming, first, Event::Tick);
    let twice = socket.step(outgoing, incoming, second, Event::Tick);
    (once, twice)
}

/// A segment without items that goes as time passes is at SND.NXT, or one before it to probe a silent peer (RFC 9293, section 3.8.4).
/// A delayed acknowledgement is no such probe. Here SND.NXT is 0.
pub fn a_probe_is_one_before<'a>(
    socket: &mut Socket,
    outgoing: &'a [u8],
    incoming: &mut [u8],
    now: u64,
) -> Option<Segment<'a>>
    requires out { OutFits socket.old.connection.sending (length outgoing.now) }
    requires rings { InFits socket.old.connection.receiving (length incoming.old) }
    requires opened { is_open (state_from socket.old.connection) ≡ true }
    requires patient { now < socket.old.timers.ends_at }
    requires una { socket.old.connection.sending.una ≡ 4294967294 }
    requires flight { socket.old.connection.sending.flight ≡ 2 }
    ensures number { IfSome result (λ s. len_of s ≡ 0 → (s.number ≡ 0) ⊎ (s.number ≡ 4294967295)) }
    ensures due { is_due socket.old.timers.ack_at now ≡ true → IfSome result (λ s. len_of s ≡ 0 → s.number ≡ 0) }
{
    socket.step(outgoing, incoming, now, Event::Tick)
}

/// What was remembered of the segments that one acknowledged holds back nothing: if all that waits after it was not sent, and fits
/// a segment and both windows, it goes at the next call. Returns the socket between both calls, and what is sent.
pub fn small_text_goes_after_a_segment<'a>(
    socket: &mut Socket,
    outgoing: &'a [u8],
    incoming: &mut [u8],
    times: (u64, u64),
    segment: &Segment,
    options: &TcpOptionSummary,
) -> (Socket, Option<Segment<'a>>)
    requires text { length segment.now.payload.now < 65536 }
    requires out { OutFits socket.old.connection.sending (length outgoing.now) }
    requires rings { InFits socket.old.connection.receiving (length incoming.old) }
    requires opened { is_open (state_from socket.old.connection) ≡ true }
    requires taken { takes socket.old.agreed.recent options.now.timestamp times.0 ≡ true }
    requires sound { IsSound socket.old.flow socket.old.connection.sending.flight }
    ensures { is_open (state_from result.0.connection) ≡ true → times.1 < result.0.timers.ends_at
        → result.0.connection.sending.flight ≡ 0 → 0 < count_of result.0.connection.sending
        → count_of result.0.connection.sending ≤ result.0.connection.wnd
        → count_of result.0.connection.sending ≤ text_of socket.new
        → count_of result.0.connection.sending ≤ socket.new.flow.congestion.cwnd
        → MatchOption result.1 ⊥ (λ s. 0 < len_of s) }
{
    let _ = socket.step(
        outgoing,
        incoming,
        times.0,
        Event::Arrives(segment, options, 0),
    );
    let between = *socket;
    let given = socket.step(outgoing, incoming, times.1, Event::Tick);
    (between, given)
}
