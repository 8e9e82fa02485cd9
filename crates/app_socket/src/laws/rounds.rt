//! Many rounds of two sockets.

ghost use Rattle.std.specs.Prelude.{◌≤◌, length};
ghost use Rattle.app_connection.specs.Endpoints.{InFits, OutFits};
ghost use Rattle.app_socket.specs.Exchanges.{AllCame, MayExchange};
ghost use Rattle.app_socket.specs.Pair.{Past, end_at};
ghost use Rattle.app_socket.specs.Runs.{Runs};
ghost use Rattle.tcp_stream.specs.Waits.{count_of};

use crate::Socket;
use crate::laws::pair::{Exchange, a_round_of_two_sockets};

/// Many rounds of two sockets bring everything across: after one round for each item that waits, all that was written has come to
/// the other end. The other program has read it, or finds it in its ring. What happened before may be any run of both ends, over
/// a network that loses, repeats, reorders, delays, splits and joins segments.
pub fn rounds_of_two_sockets_deliver(
    here: &mut Socket,
    outgoing: &[u8],
    incoming: &mut [u8],
    there: &mut Socket,
    answers: &[u8],
    text: &mut [u8],
    rounds: &[Exchange],
)
    requires out { OutFits here.old.connection.sending (length outgoing.now) }
    requires rings { InFits here.old.connection.receiving (length incoming.old) }
    requires out_there { OutFits there.old.connection.sending (length answers.now) }
    requires rings_there { InFits there.old.connection.receiving (length text.old) }
    ensures { (h t : Past)
        → Runs (record {
          here = end_at here.old outgoing.now incoming.old h;
          there = end_at there.old answers.now text.old t;
        })
        → MayExchange here.old there.old (length text.old) h t rounds.now
        → count_of here.old.connection.sending ≤ length rounds.now
        → AllCame here.new there.new outgoing.now incoming.new answers.now text.new h t }
{
    for round in rounds {
        if here.waiting() == 0 {
            return;
        }
        a_round_of_two_sockets(here, outgoing, incoming, there, answers, text, round);
    }
}
