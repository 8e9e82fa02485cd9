//! TCP connections.

ghost use Rattle.std.specs.Prelude.{◌≡◌, ◌≤◌, ◌<◌, ◌+◌, ℕ, List, length, true, min, pos};
ghost use Rattle.std.specs.Option.{unwrap_or};
ghost use Rattle.tcp_stream.specs.Network.{Event, World, run, start};
ghost use Rattle.tcp_stream.specs.Stands.{Stands};
ghost use Rattle.tcp_stream.specs.Waits.{unsent_of};
ghost use Rattle.app_connection.specs.Endpoints.{OutFits, endpoint_of};
ghost use Rattle.app_connection.specs.SetUp.{In_closed};
ghost use Rattle.app_connection.specs.States.{state_from};
ghost use Rattle.app_socket.specs.Fields.{socket_of};
ghost use Rattle.app_socket.specs.Segments.{is_in_flight};
ghost use Rattle.app_socket.specs.Times.{due_in};
ghost use Rattle.app_socket.specs.declared.step.Event.TheVariants as event;
ghost use Rattle.c_structs.specs.Written.{flag, is_set};
ghost use Rattle.c_socket.specs.Application.{Aborts, Closes, Learns, Listens, state_code};
ghost use Rattle.c_socket.specs.Calls.{IsArrival, IsUnchanged, Meets, Reads, Writes};
ghost use Rattle.c_socket.specs.Options.{summary_of};
ghost use Rattle.c_socket.specs.Segments.{segment_of};

use c_socket::{
    SegmentFields, SocketFields, abort, close, connect, due, init, is_ended, learn_mss, listen,
    read, state, take, tick, waiting, write,
};

/// Makes a connection in CLOSED. 0 is the default of each option.
#[unsafe(no_mangle)]
pub extern "C" fn lk_connection_init(
    connection: &mut SocketFields,
    mss: u16,
    keep_alive: u32,
    is_eager: i32,
)
    ensures closed { endpoint_of (socket_of connection.new).connection ≡ In_closed }
    ensures options { (socket_of connection.new).options ≡ record { mss = mss; keep_alive = keep_alive; is_eager = is_set is_eager } }
{
    init(connection, mss, keep_alive, is_eager);
}

/// Waits for a peer: CLOSED becomes LISTEN.
#[unsafe(no_mangle)]
pub extern "C" fn lk_connection_listen(connection: &mut SocketFields)
    ensures { Listens (socket_of connection.old) (socket_of connection.new) }
{
    listen(connection);
}

/// Opens the connection, in CLOSED or LISTEN, with a fresh number. Stores its SYN and returns 1. Returns 0 in another state, and
/// -1 if the rings do not fit.
#[unsafe(no_mangle)]
pub extern "C" fn lk_connection_connect<'a>(
    connection: &mut SocketFields,
    outgoing: &'a [u8],
    incoming: &mut [u8],
    now: u64,
    iss: u32,
    out: &mut SegmentFields<'a>,
) -> i32
    ensures { Meets (λ e. e ≡ event.Open iss) connection.old connection.new outgoing.now incoming.old incoming.new now out.old out.new result }
{
    connect(connection, outgoing, incoming, now, iss, out)
}

/// Takes a segment. `fresh`: the number of the SYN that answers one in LISTEN. Stores the segment to send and returns 1. Returns
/// 0 if there is none, and -1 if the rings do not fit or the text has more than 65,535 bytes.
#[unsafe(no_mangle)]
pub extern "C" fn lk_connection_step<'a>(
    connection: &mut SocketFields,
    outgoing: &'a [u8],
    incoming: &mut [u8],
    now: u64,
    segment: &SegmentFields<'_>,
    fresh: u32,
    out: &mut SegmentFields<'a>,
) -> i32
    ensures short { length segment.now.payload.now ≤ 65535 → Meets (IsArrival (segment_of segment.now) (summary_of segment.now.options) fresh) connection.old connection.new outgoing.now incoming.old incoming.new now out.old out.new result }
    ensures long { 65535 < length segment.now.payload.now → IsUnchanged connection.old connection.new incoming.old incoming.new out.old out.new result }
{
    take(connection, outgoing, incoming, now, segment, fresh, out)
}

/// Stores the next segment to send and returns 1. Returns 0 if there is none at this time, and -1 if the rings do not fit.
#[unsafe(no_mangle)]
pub extern "C" fn lk_connection_tick<'a>(
    connection: &mut SocketFields,
    outgoing: &'a [u8],
    incoming: &mut [u8],
    now: u64,
    out: &mut SegmentFields<'a>,
) -> i32
    ensures { Meets (λ e. e ≡ event.Tick) connection.old connection.new outgoing.now incoming.old incoming.new now out.old out.new result }
{
    tick(connection, outgoing, incoming, now, out)
}

/// The application writes no more.
#[unsafe(no_mangle)]
pub extern "C" fn lk_connection_close(connection: &mut SocketFields)
    ensures { Closes (socket_of connection.old) (socket_of connection.new) }
{
    close(connection);
}

/// Gives the connection up. Stores a RST for the peer and returns 1. Returns 0 if there is none.
#[unsafe(no_mangle)]
pub extern "C" fn lk_connection_abort<'a>(
    connection: &mut SocketFields,
    out: &mut SegmentFields<'a>,
) -> i32
    ensures { Aborts (socket_of connection.old) (socket_of connection.new) out.old out.new result }
{
    abort(connection, out)
}

/// Takes bytes of the application, as far as the ring has room. Returns how many, or -1 if the ring does not fit.
#[unsafe(no_mangle)]
pub extern "C" fn lk_connection_write(
    connection: &mut SocketFields,
    outgoing: &mut [u8],
    bytes: &[u8],
) -> isize
    ensures { Writes connection.old connection.new outgoing.old outgoing.new bytes.now result }
{
    write(connection, outgoing, bytes)
}

/// Copies the next bytes for the application. Returns how many, or -1 if the ring does not fit.
#[unsafe(no_mangle)]
pub extern "C" fn lk_connection_read(
    connection: &mut SocketFields,
    incoming: &[u8],
    out: &mut [u8],
) -> isize
    ensures { Reads connection.old connection.new incoming.now out.old out.new result }
{
    read(connection, incoming, out)
}

/// When `lk_connection_tick` has something to do if nothing happens before. The last time: never.
#[unsafe(no_mangle)]
pub extern "C" fn lk_connection_next_timeout(connection: &SocketFields) -> u64
    ensures { let s = socket_of connection.now in result ≡ unwrap_or (due_in (state_from s.connection) s.timers) 18446744073709551615 }
{
    due(connection)
}

/// The number of its state.
#[unsafe(no_mangle)]
pub extern "C" fn lk_connection_state(connection: &SocketFields) -> i32
    ensures { result ≡ pos (state_code (state_from (socket_of connection.now).connection)) }
{
    state(connection)
}

/// Whether the application has read all that the peer wrote, and the peer has closed.
#[unsafe(no_mangle)]
pub extern "C" fn lk_connection_at_eof(connection: &SocketFields) -> i32
    ensures { (initial : ℕ) (events : List Event) (consumed buffer : List ℕ) → result ≡ pos 1 → let back : World = run events (start initial) in Stands back consumed (socket_of connection.now).connection.receiving buffer → (back.closed ≡ true) × (consumed ≡ back.written) }
{
    is_ended(connection)
}

/// How many items the peer has not acknowledged: bytes that were written, a SYN and a FIN.
#[unsafe(no_mangle)]
pub extern "C" fn lk_connection_unacked(connection: &SocketFields) -> usize
    ensures { let s = (socket_of connection.now).connection.sending in (size : ℕ) → OutFits s size → result ≡ min 18446744073709551615 (s.flight + unsent_of s) }
{
    waiting(connection)
}

/// An ICMP error says that a segment of this number was too big. Returns 1 if it is in flight, or else 0.
#[unsafe(no_mangle)]
pub extern "C" fn lk_connection_too_big(
    connection: &mut SocketFields,
    seq_number: u32,
    mss: u16,
) -> i32
    ensures result { result ≡ pos (flag (is_in_flight (socket_of connection.old).connection seq_number)) }
    ensures learns { Learns (socket_of connection.old) (socket_of connection.new) seq_number mss }
{
    learn_mss(connection, seq_number, mss)
}
