//! A connection or a socket with its rings, and the answers of its calls.

ghost use Rattle.std.specs.Prelude.{length};
ghost use Rattle.app_connection.specs.Endpoints.{OutFits, InFits};

use crate::options::{options_of, options_text};
use crate::words::{NOTHING, Words};
use app_connection::{Connection, Event, Segment, State};
use app_socket::{Event as Timed, Options, Socket};
use std::alloc::{AllocError, Global};

// The largest size of a ring.
const MAX_SIZE: usize = 1 << 20;

// A connection without its timers, or with them and the time.
#[derive(Debug, Clone, Copy)]
enum Kind {
    Plain(Connection),
    Timed(Socket, u64),
}

/// A connection or a socket, and the rings of its bytes.
#[derive(Drop)]
pub struct Endpoint {
    kind: Kind,
    outgoing: Vec<u8>,
    incoming: Vec<u8>,
}

impl Endpoint {
    /// A connection in CLOSED. Sizes outside 1 to 2^20 are changed to the nearest.
    pub fn new(alloc: Global, outgoing: usize, incoming: usize) -> Result<Endpoint, AllocError> {
        Endpoint::of(alloc, Kind::Plain(Connection::new()), outgoing, incoming)
    }

    /// A socket in CLOSED at the time 0, with rings of the same sizes as a connection.
    pub fn timed(
        alloc: Global,
        options: Options,
        outgoing: usize,
        incoming: usize,
    ) -> Result<Endpoint, AllocError> {
        Endpoint::of(
            alloc,
            Kind::Timed(Socket::new(options), 0),
            outgoing,
            incoming,
        )
    }

    fn of(
        alloc: Global,
        kind: Kind,
        outgoing: usize,
        incoming: usize,
    ) -> Result<Endpoint, AllocError> {
        Ok(Endpoint {
            kind,
            outgoing: vec![in alloc; 0; outgoing.clamp(1, MAX_SIZE)]?,
            incoming: vec![in alloc; 0; incoming.clamp(1, MAX_SIZE)]?,
        })
    }

    /// The state and variables.
    pub fn variables(&self, alloc: Global) -> Result<String, AllocError> {
        let connection = match &self.kind {
            Kind::Plain(connection) => connection,
            Kind::Timed(socket, _) => socket.connection(),
        };
        let state = connection.state();
        let (outgoing, incoming) = (self.outgoing.len(), self.incoming.len());
        if matches!(state, State::Closed | State::Listen) || !connection.fits(outgoing, incoming) {
            return format!(in alloc; "{state:?}");
        }
        let next = connection.acknowledgement();
        let ack = number_text(alloc, next.ack)?;
        let room = connection.room(incoming);
        let window = connection.window();
        format!(in alloc; "{state:?} {} {ack} {room} {window}", next.number)
    }

    /// Lets the event of this name happen, with the operands that follow. Returns the result as text.
    pub fn answer(
        &mut self,
        alloc: Global,
        name: &str,
        operands: &mut Words<'_>,
    ) -> Result<String, AllocError> {
        let outgoing = self.outgoing.as_mut_slice();
        let incoming = self.incoming.as_mut_slice();
        match &mut self.kind {
            Kind::Plain(connection) => {
                if !connection.fits(outgoing.len(), incoming.len()) {
                    return String::from_str(alloc, "unknown");
                }
                plain_answer(alloc, connection, outgoing, incoming, name, operands)
            }
            Kind::Timed(socket, now) => {
                if !socket.fits(outgoing.len(), incoming.len()) {
                    return String::from_str(alloc, "unknown");
                }
                if name == "at" {
                    *now = operands.time();
                }
                let result = timed_answer(alloc, socket, *now, outgoing, incoming, name, operands)?;
                let due = time_text(alloc, socket.due())?;
                format!(in alloc; "{result} {due}")
            }
        }
    }
}

// The result of a connection.
fn plain_answer(
    alloc: Global,
    connection: &mut Connection,
    outgoing: &mut [u8],
    incoming: &mut [u8],
    name: &str,
    operands: &mut Words<'_>,
) -> Result<String, AllocError>
    requires out { OutFits connection.old.sending (length outgoing.old) }
    requires rings { InFits connection.old.receiving (length incoming.old) }
{
    match name {
        "write" => {
            let count = connection.write(outgoing, operands.text());
            format!(in alloc; "{count}")
        }
        "read" => String::from_str(alloc, shown(connection.read(incoming, operands.size()))),
        "arrives" => {
            let segment = operands.segment();
            let event = Event::Arrives(&segment, operands.number());
            segment_text(alloc, connection.step(outgoing, incoming, event))
        }
        _ => match operands.event(name) {
            Some(event) => segment_text(alloc, connection.step(outgoing, incoming, event)),
            None => String::from_str(alloc, "unknown"),
        },
    }
}

// The result of a socket at this time.
fn timed_answer(
    alloc: Global,
    socket: &mut Socket,
    now: u64,
    outgoing: &mut [u8],
    incoming: &mut [u8],
    name: &str,
    operands: &mut Words<'_>,
) -> Result<String, AllocError>
    requires out { OutFits socket.old.connection.sending (length outgoing.old) }
    requires rings { InFits socket.old.connection.receiving (length incoming.old) }
{
    let size = incoming.len();
    match name {
        "at" => String::from_str(alloc, NOTHING),
        "write" => {
            let count = socket.write(outgoing, operands.text());
            format!(in alloc; "{count}")
        }
        "read" => String::from_str(alloc, shown(socket.read(incoming, operands.size()))),
        "too-big" => {
            let number = operands.number();
            let _ = socket.on_too_big(number, operands.mss());
            String::from_str(alloc, NOTHING)
        }
        "arrives" => {
            let segment = operands.segment();
            let options = options_of(operands.word());
            let event = Timed::Arrives(&segment, &options, operands.number());
            let sent = socket.step(outgoing, incoming, now, event);
            packet_text(alloc, socket, size, now, sent)
        }
        _ => match operands.timed_event(name) {
            Some(event) => {
                let sent = socket.step(outgoing, incoming, now, event);
                packet_text(alloc, socket, size, now, sent)
            }
            None => String::from_str(alloc, "unknown"),
        },
    }
}

// A segment that a socket sends, with its window field and its options, and `-` for none.
fn packet_text(
    alloc: Global,
    socket: &Socket,
    incoming: usize,
    now: u64,
    segment: Option<Segment<'_>>,
) -> Result<String, AllocError>
    requires { InFits socket.now.connection.receiving incoming }
{
    let Some(segment) = segment else {
        return String::from_str(alloc, NOTHING);
    };
    let header = socket.header(&segment, incoming, now);
    let fields = fields_text(alloc, &segment, u32::from(header.window))?;
    let options = options_text(alloc, &header.options)?;
    format!(in alloc; "{fields} {options}")
}

// A segment that a connection sends, and `-` for none.
fn segment_text(alloc: Global, segment: Option<Segment<'_>>) -> Result<String, AllocError> {
    match segment {
        Some(segment) => fields_text(alloc, &segment, segment.window),
        None => String::from_str(alloc, NOTHING),
    }
}

// A segment with this window.
fn fields_text(alloc: Global, segment: &Segment<'_>, window: u32) -> Result<String, AllocError> {
    let ack = number_text(alloc, segment.ack)?;
    let syn = if segment.syn { "S" } else { "" };
    let fin = if segment.fin { "F" } else { "" };
    let rst = if segment.rst { "R" } else { "" };
    let text = shown(segment.payload);
    format!(in alloc; "{} {ack} .{syn}{fin}{rst} {window} {text}", segment.number)
}

fn number_text(alloc: Global, number: Option<u32>) -> Result<String, AllocError> {
    match number {
        Some(number) => format!(in alloc; "{number}"),
        None => String::from_str(alloc, NOTHING),
    }
}

fn time_text(alloc: Global, time: Option<u64>) -> Result<String, AllocError> {
    match time {
        Some(time) => format!(in alloc; "{time}"),
        None => String::from_str(alloc, NOTHING),
    }
}

// Bytes of lines as text.
fn shown(bytes: &[u8]) -> &str {
    match str::from_utf8(bytes) {
        Ok("") => NOTHING,
        Ok(text) => text,
        Err(_) => "?",
    }
}
