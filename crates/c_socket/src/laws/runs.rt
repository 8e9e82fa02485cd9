//! Laws of runs: how they begin, and that they go on with each call.

ghost use Rattle.std.specs.Prelude.{◌≡◌, ◌<◌, ◌++◌, ℕ, false, length, pos, take};
ghost use Rattle.app_connection.specs.Endpoints.{InFits, OutFits};
ghost use Rattle.app_connection.specs.Runs.{IsNew};
ghost use Rattle.app_socket.specs.Fields.{socket_of};
ghost use Rattle.app_socket.specs.Pair.{Past};
ghost use Rattle.c_socket.specs.Extends.{GoesOn, IsShort, MayOpen, MayTake, end_at, no_past, programs_with};
ghost use Rattle.c_socket.specs.Openings as openings;
ghost use Rattle.c_socket.specs.Openings.{OthersStay, Program, Turns, has, opening, present};
ghost use Rattle.c_socket.specs.Runs.{End, Ends, Runs, connection_of, stepped, stored};
ghost use Rattle.c_structs.specs.Written.{within};

use crate::{
    SegmentFields, SocketFields, abort, close, connect, init, learn_mss, listen, read, take, tick,
    write,
};

/// A call without bytes of the application.
#[derive(Clone, Copy)]
pub enum Call<'c> {
    Connect(u32),
    Take(&'c SegmentFields<'c>, u32),
    Tick,
    Listen,
    Close,
    Abort,
}

/// Two new connections are a run.
pub fn two_new_programs_are_a_run(
    here: &mut SocketFields,
    there: &mut SocketFields,
    outgoing: &[u8],
    incoming: &[u8],
    answers: &[u8],
    text: &[u8],
    options: (u16, u32, i32),
)
    requires some { 0 < length outgoing.now }
    requires small { length outgoing.now < 1073741824 }
    requires some_there { 0 < length answers.now }
    requires small_there { length answers.now < 1073741824 }
    ensures { Runs (record {
      here = end_at here.new outgoing.now incoming.now no_past;
      there = end_at there.new answers.now text.now no_past;
    }) }
{
    init(here, options.0, options.1, options.2);
    init(there, options.0, options.1, options.2);
}

/// Each run goes on with each call of one end, if a segment that it takes is from the other end, and no end opens twice.
pub fn a_call_goes_on<'a>(
    here: &mut SocketFields,
    outgoing: &'a [u8],
    incoming: &mut [u8],
    now: u64,
    call: Call,
    out: &mut SegmentFields<'a>,
) -> i32
    requires short { IsShort call }
    requires out { OutFits (socket_of here.old).connection.sending (length outgoing.now) }
    requires rings { InFits (socket_of here.old).connection.receiving (length incoming.old) }
    ensures { (h : Past) (b : End) → MayOpen here.old h → MayTake call.entry b h
        → OutFits (socket_of here.new).connection.sending (length outgoing.now)
        → let a : End = end_at here.old outgoing.now incoming.old h in
        GoesOn a b (stepped a b here.new incoming.new (stored result out.new)) }
{
    match call {
        Call::Connect(iss) => connect(here, outgoing, incoming, now, iss, out),
        Call::Take(segment, fresh) => take(here, outgoing, incoming, now, segment, fresh, out),
        Call::Tick => tick(here, outgoing, incoming, now, out),
        Call::Listen => {
            listen(here);
            0
        }
        Call::Close => {
            close(here);
            0
        }
        Call::Abort => abort(here, out),
    }
}

/// So it does with the calls that write and read, and that take an ICMP error.
pub fn bytes_go_on(
    here: &mut SocketFields,
    outgoing: &mut [u8],
    incoming: &[u8],
    bytes: &[u8],
    into: &mut [u8],
    error: (u32, u16),
) -> (isize, isize)
    ensures { (h : Past) (b : End) (n m : ℕ) → result.0 ≡ pos n → result.1 ≡ pos m
        → OutFits (socket_of here.new).connection.sending (length outgoing.new)
        → GoesOn (end_at here.old outgoing.old incoming.now h) b (end_at here.new outgoing.new incoming.now
        (record h { wrote = h.wrote ++ take n (within bytes.now); read = h.read ++ take m into.new })) }
{
    let written = write(here, outgoing, bytes);
    let count = read(here, incoming, into);
    let _ = learn_mss(here, error.0, error.1);
    (written, count)
}

/// A run of two programs with one connection each is one of programs that open again.
pub fn a_run_is_one_that_opens_again()
    ensures { (p q : Ends) → IsNew (connection_of q.here) → IsNew (connection_of q.there) → Runs p → openings.Runs (programs_with p q) }
{}

/// The call that opens actively begins another connection of such a run, which the program has not opened before.
pub fn a_connect_opens_again<'a>(
    here: &mut SocketFields,
    outgoing: &'a [u8],
    incoming: &mut [u8],
    now: u64,
    iss: u32,
    out: &mut SegmentFields<'a>,
) -> i32
    requires none { has here.old ≡ false }
    requires out { OutFits (socket_of here.old).connection.sending (length outgoing.now) }
    requires rings { InFits (socket_of here.old).connection.receiving (length incoming.old) }
    ensures { (a b new : Program) (k : ℕ) → (present a).fields ≡ here.old → (present a).outgoing ≡ outgoing.now
        → (present a).incoming ≡ incoming.old → (a.ends k).was_opened ≡ false → new.number ≡ k → OthersStay k a new
        → new.ends k ≡ stepped (opening a k) (b.ends k) here.new incoming.new (stored result out.new) → Turns a b new }
{
    connect(here, outgoing, incoming, now, iss, out)
}
