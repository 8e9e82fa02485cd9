//! Segments and time come to a connection in memory of C.

ghost use Rattle.std.specs.Prelude.{◌≡◌, ◌≤◌, ◌<◌, length};
ghost use Rattle.app_connection.specs.Endpoints.{InFits};
ghost use Rattle.app_socket.specs.Events.{IsShort};
ghost use Rattle.app_socket.specs.declared.step.Event.TheVariants as event;
ghost use Rattle.c_socket.specs.Calls.{IsArrival, IsUnchanged, Meets, Stores};
ghost use Rattle.c_socket.specs.Options.{summary_of};
ghost use Rattle.c_socket.specs.Segments.{segment_of};

use crate::options::summary_of;
use crate::segment::{SegmentFields, fields_of};
use app_connection::Segment;
use app_socket::{Event, Socket, SocketFields};

// What a call returns: it stored a segment, there is none, or the rings do not fit.
pub(crate) const STORED: i32 = 1;

pub(crate) const NOTHING: i32 = 0;

const MISUSE: i32 = -1;

// The longest text of a segment.
const MAX_TEXT: usize = 65_535;

/// Opens the connection, in CLOSED or LISTEN, with a fresh number. Stores its SYN and returns 1. Returns 0 in another state, and
/// -1 if the rings do not fit.
pub fn connect<'a>(
    connection: &mut SocketFields,
    outgoing: &'a [u8],
    incoming: &mut [u8],
    now: u64,
    iss: u32,
    out: &mut SegmentFields<'a>,
) -> i32
    ensures { Meets (λ e. e ≡ event.Open iss) connection.old connection.new outgoing.now incoming.old incoming.new now
        out.old out.new result }
{
    meet(connection, outgoing, incoming, now, Event::Open(iss), out)
}

/// Takes a segment. `fresh`: the number of the SYN that answers one in LISTEN. Stores the segment to send and returns 1. Returns
/// 0 if there is none, and -1 if the rings do not fit or the text has more than 65,535 bytes.
pub fn take<'a>(
    connection: &mut SocketFields,
    outgoing: &'a [u8],
    incoming: &mut [u8],
    now: u64,
    segment: &SegmentFields<'_>,
    fresh: u32,
    out: &mut SegmentFields<'a>,
) -> i32
    ensures short { length segment.now.payload.now ≤ 65535 → Meets
        (IsArrival (segment_of segment.now) (summary_of segment.now.options) fresh) connection.old connection.new
        outgoing.now incoming.old incoming.new now out.old out.new result }
    ensures long { 65535 < length segment.now.payload.now
        → IsUnchanged connection.old connection.new incoming.old incoming.new out.old out.new result }
{
    if segment.payload.len() > MAX_TEXT {
        return MISUSE;
    }
    let options = summary_of(&segment.options);
    let arrived = segment.value();
    let event = Event::Arrives(&arrived, &options, fresh);
    meet(connection, outgoing, incoming, now, event, out)
}

/// Stores the next segment to send and returns 1. Returns 0 if there is none at this time, and -1 if the rings do not fit.
pub fn tick<'a>(
    connection: &mut SocketFields,
    outgoing: &'a [u8],
    incoming: &mut [u8],
    now: u64,
    out: &mut SegmentFields<'a>,
) -> i32
    ensures { Meets (λ e. e ≡ event.Tick) connection.old connection.new outgoing.now incoming.old incoming.new now
        out.old out.new result }
{
    meet(connection, outgoing, incoming, now, Event::Tick, out)
}

// One event.
fn meet<'a>(
    connection: &mut SocketFields,
    outgoing: &'a [u8],
    incoming: &mut [u8],
    now: u64,
    event: Event,
    out: &mut SegmentFields<'a>,
) -> i32
    requires { IsShort event }
    ensures { Meets (λ e. e ≡ event.entry) connection.old connection.new outgoing.now incoming.old incoming.new now
        out.old out.new result }
{
    let mut socket = connection.value();
    if !socket.fits(outgoing.len(), incoming.len()) {
        return MISUSE;
    }
    let segment = socket.step(outgoing, incoming, now, event);
    *connection = socket.fields();
    store(&socket, incoming.len(), now, segment, out)
}

// Stores a segment that goes out, and returns 1; or returns 0.
fn store<'a>(
    socket: &Socket,
    incoming: usize,
    now: u64,
    segment: Option<Segment<'a>>,
    out: &mut SegmentFields<'a>,
) -> i32
    requires { InFits socket.now.connection.receiving incoming }
    ensures { Stores socket.now incoming now segment.entry out.old out.new result }
{
    match segment {
        Some(segment) => {
            let header = socket.header(&segment, incoming, now);
            *out = fields_of(&segment, &header);
            STORED
        }
        None => NOTHING,
    }
}
