//! The calls of the application that need no ring.

ghost use Rattle.std.specs.Prelude.{◌≡◌, ◌+◌, ◌<◌, ℕ, List, [], true, min, pos};
ghost use Rattle.std.specs.Option.{unwrap_or};
ghost use Rattle.tcp_stream.specs.Network.{Event, World, run, start};
ghost use Rattle.tcp_stream.specs.Stands.{Stands};
ghost use Rattle.tcp_stream.specs.Waits.{unsent_of};
ghost use Rattle.app_connection.specs.Endpoints.{OutFits, endpoint_of};
ghost use Rattle.app_connection.specs.Runs.{HasAll};
ghost use Rattle.app_connection.specs.SetUp.{In_closed};
ghost use Rattle.app_connection.specs.States.{state_from};
ghost use Rattle.app_socket.specs.Fields.{socket_of};
ghost use Rattle.app_socket.specs.Segments.{is_in_flight};
ghost use Rattle.app_socket.specs.Times.{due_in};
ghost use Rattle.c_structs.specs.Written.{flag, is_set};
ghost use Rattle.c_socket.specs.Application.{Aborts, Closes, Learns, Listens, state_code};

use crate::calls::{NOTHING, STORED};
use crate::segment::{SegmentFields, reset_of};
use app_connection::State;
use app_socket::{Options, Socket, SocketFields};
use c_structs::is_set;

/// Makes a connection in CLOSED. 0 is the default of each option.
pub fn init(connection: &mut SocketFields, mss: u16, keep_alive: u32, is_eager: i32)
    ensures closed { endpoint_of (socket_of connection.new).connection ≡ In_closed }
    ensures options { (socket_of connection.new).options
        ≡ record { mss = mss; keep_alive = keep_alive; is_eager = is_set is_eager } }
    ensures stands { (buffer : List ℕ) → Stands (start 0) [] (socket_of connection.new).connection.receiving buffer }
    ensures out { (size : ℕ) → 0 < size → size < 1073741824
        → OutFits (socket_of connection.new).connection.sending size }
{
    let options = Options {
        mss,
        keep_alive,
        is_eager: is_set(is_eager),
    };
    *connection = Socket::new(options).fields();
}

/// Waits for a peer: CLOSED becomes LISTEN.
pub fn listen(connection: &mut SocketFields)
    ensures { Listens (socket_of connection.old) (socket_of connection.new) }
{
    let mut socket = connection.value();
    socket.listen();
    *connection = socket.fields();
}

/// The application writes no more.
pub fn close(connection: &mut SocketFields)
    ensures { Closes (socket_of connection.old) (socket_of connection.new) }
{
    let mut socket = connection.value();
    socket.close();
    *connection = socket.fields();
}

/// Gives the connection up. Stores a RST for the peer and returns 1. Returns 0 if there is none.
pub fn abort<'a>(connection: &mut SocketFields, out: &mut SegmentFields<'a>) -> i32
    ensures { Aborts (socket_of connection.old) (socket_of connection.new) out.old out.new result }
{
    let mut socket = connection.value();
    let reset = socket.abort();
    *connection = socket.fields();
    match reset {
        Some(reset) => {
            *out = reset_of(&reset);
            STORED
        }
        None => NOTHING,
    }
}

/// When `tick` has something to do if nothing happens before. The last time: never.
pub fn due(connection: &SocketFields) -> u64
    ensures { let s = socket_of connection.now in result
        ≡ unwrap_or (due_in (state_from s.connection) s.timers) 18446744073709551615 }
{
    connection.value().due().unwrap_or(u64::MAX)
}

/// The number of its state.
pub fn state(connection: &SocketFields) -> i32
    ensures { result ≡ pos (state_code (state_from (socket_of connection.now).connection)) }
{
    match connection.value().state() {
        State::Closed => 0,
        State::Listen => 1,
        State::SynSent => 2,
        State::SynReceived => 3,
        State::Established => 4,
        State::FinWait1 => 5,
        State::FinWait2 => 6,
        State::CloseWait => 7,
        State::Closing => 8,
        State::LastAck => 9,
        State::TimeWait => 10,
    }
}

/// Whether the application has read all that the peer wrote, and the peer has closed: 1 or 0.
pub fn is_ended(connection: &SocketFields) -> i32
    ensures all { result ≡ pos 1 → HasAll (socket_of connection.now).connection }
    ensures whole { (initial : ℕ) (events : List Event) (consumed buffer : List ℕ) → result ≡ pos 1
        → let back : World = run events (start initial) in
        Stands back consumed (socket_of connection.now).connection.receiving buffer
        → (back.closed ≡ true) × (consumed ≡ back.written) }
{
    i32::from(connection.value().is_ended())
}

/// How many items the peer has not acknowledged: bytes that were written, a SYN and a FIN.
pub fn waiting(connection: &SocketFields) -> usize
    ensures { let s = (socket_of connection.now).connection.sending in (size : ℕ) → OutFits s size
        → result ≡ min 18446744073709551615 (s.flight + unsent_of s) }
{
    connection.value().waiting()
}

/// An ICMP error says that a segment of this number was too big. Returns 1 if it is in flight, or else 0.
pub fn learn_mss(connection: &mut SocketFields, number: u32, mss: u16) -> i32
    ensures result { result ≡ pos (flag (is_in_flight (socket_of connection.old).connection number)) }
    ensures learns { Learns (socket_of connection.old) (socket_of connection.new) number mss }
{
    let mut socket = connection.value();
    let is_in_flight = socket.on_too_big(number, mss);
    *connection = socket.fields();
    i32::from(is_in_flight)
}
