//! Laws of two sockets.

ghost use Rattle.std.specs.Prelude.{◌≡◌, ◌<◌, length};
ghost use Rattle.app_connection.specs.Endpoints.{InFits, OutFits};
ghost use Rattle.app_socket.specs.Pair.{Exchanged, MayAnswer, MaySend, Past, end_at};
ghost use Rattle.app_socket.specs.Answered.{AnsweredBy};
ghost use Rattle.app_socket.specs.Promises.{HasShortText};
ghost use Rattle.app_socket.specs.Runs.{Runs};

use crate::{Event, Header, Socket};
use app_connection::Segment;

/// When what happens in a round, and with which headers both segments come.
#[derive(Debug, Clone, Copy)]
pub struct Exchange {
    /// When the program that sends calls, after the timer expired. It may be a loss probe that goes then.
    pub first: u64,
    /// When it calls after the timer expired again.
    pub second: u64,
    /// When the segment at SND.UNA comes to the other end, by the clock of that end.
    pub arrives: u64,
    /// When the program of that end calls after that.
    pub calls: u64,
    /// When the acknowledgement comes back.
    pub answered: u64,
    /// The window and the options of the segment that comes.
    pub text: Header,
    /// The window and the options of the acknowledgement.
    pub answer: Header,
}

/// A round of two sockets after a loss. The timer expires twice, the segment at SND.UNA comes to the other end, and the
/// acknowledgement of that end, at once or after 40 ms, comes back. Then fewer items wait than before. What happened before may be
/// any run of both ends, over a network that loses, repeats, reorders, delays, splits and joins segments.
pub fn a_round_of_two_sockets(
    here: &mut Socket,
    outgoing: &[u8],
    incoming: &mut [u8],
    there: &mut Socket,
    answers: &[u8],
    text: &mut [u8],
    round: &Exchange,
)
    requires out { OutFits here.old.connection.sending (length outgoing.now) }
    requires rings { InFits here.old.connection.receiving (length incoming.old) }
    requires out_there { OutFits there.old.connection.sending (length answers.now) }
    requires rings_there { InFits there.old.connection.receiving (length text.old) }
    ensures out { OutFits here.new.connection.sending (length outgoing.now) }
    ensures rings { InFits here.new.connection.receiving (length incoming.old) }
    ensures out_there { OutFits there.new.connection.sending (length answers.now) }
    ensures rings_there { InFits there.new.connection.receiving (length text.old) }
    ensures goes { (h t : Past)
        → Runs (record {
          here = end_at here.old outgoing.now incoming.old h;
          there = end_at there.old answers.now text.old t;
        })
        → MaySend here.old round.now → MayAnswer there.old (length text.old) round.now → Exchanged here.old here.new
        there.old there.new outgoing.now incoming.new answers.now text.new h t round.now }
{
    let _ = here.step(outgoing, incoming, round.first, Event::Tick);
    let Some(sent) = here.step(outgoing, incoming, round.second, Event::Tick) else {
        return;
    };
    let Some(answer) = answer(there, answers, text, round, &sent) else {
        return;
    };
    let answer = with_window(&answer, round.answer.window);
    let _ = here.step(
        outgoing,
        incoming,
        round.answered,
        Event::Arrives(&answer, &round.answer.options, 0),
    );
}

// The segment comes, and is answered at once or by the next call.
fn answer<'a>(
    there: &mut Socket,
    answers: &'a [u8],
    text: &mut [u8],
    round: &Exchange,
    sent: &Segment,
) -> Option<Segment<'a>>
    requires short { length sent.now.payload.now < 65536 }
    requires out { OutFits there.old.connection.sending (length answers.now) }
    requires rings { InFits there.old.connection.receiving (length text.old) }
    ensures out { OutFits there.new.connection.sending (length answers.now) }
    ensures rings { InFits there.new.connection.receiving (length text.old) }
    ensures short { HasShortText result }
    ensures goes { AnsweredBy there.old there.new answers.now text.old text.new round.now sent.now result }
{
    let segment = with_window(sent, round.text.window);
    let reply = there.step(
        answers,
        text,
        round.arrives,
        Event::Arrives(&segment, &round.text.options, 0),
    );
    if reply.is_some() {
        return reply;
    }
    there.step(answers, text, round.calls, Event::Tick)
}

// The same segment, with another window.
fn with_window<'a>(segment: &Segment<'a>, window: u16) -> Segment<'a>
    ensures { result ≡ record segment.now { window = window } }
{
    Segment {
        number: segment.number,
        ack: segment.ack,
        window: u32::from(window),
        syn: segment.syn,
        rst: segment.rst,
        fin: segment.fin,
        payload: segment.payload,
    }
}
