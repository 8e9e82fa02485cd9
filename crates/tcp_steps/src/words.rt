//! The words of a line.

ghost use Rattle.std.specs.Prelude.{◌<◌, length, IfSome};
ghost use Rattle.app_connection.specs.Events.{IsShort};
ghost use Rattle.app_socket.specs.Events as timed;

use app_connection::{Event, Segment};
use app_socket::{Event as Timed, Options};

/// The word for nothing.
pub const NOTHING: &str = "-";

// The most bytes of a segment.
const MAX_TEXT: usize = 65535;

/// The words of a line that were not read yet. A word that is missing is read as an empty one.
#[derive(Drop)]
pub struct Words<'a> {
    words: &'a [&'a str],
}

impl<'a> Words<'a> {
    /// All words of a line.
    pub fn new(words: &'a [&'a str]) -> Self {
        Words { words }
    }

    /// The next word.
    pub fn word(&mut self) -> &'a str {
        match self.words {
            [word, rest @ ..] => {
                self.words = rest;
                word
            }
            [] => "",
        }
    }

    /// The next word as a number.
    pub fn number(&mut self) -> u32 {
        self.word().parse().unwrap_or(0)
    }

    /// The next word as a segment size.
    pub fn mss(&mut self) -> u16 {
        self.word().parse().unwrap_or(0)
    }

    /// The next word as a time.
    pub fn time(&mut self) -> u64 {
        self.word().parse().unwrap_or(0)
    }

    /// The next word as a number of bytes.
    pub fn size(&mut self) -> usize {
        self.number() as usize
    }

    /// The next word as bytes, at most as many as a segment has.
    pub fn text(&mut self) -> &'a [u8]
        ensures { length result.now < 65536 }
    {
        match self.word() {
            NOTHING => &[],
            word => {
                let bytes = word.as_bytes();
                &bytes[..bytes.len().min(MAX_TEXT)]
            }
        }
    }

    /// The next words as a segment.
    pub fn segment(&mut self) -> Segment<'a>
        ensures { length result.payload.now < 65536 }
    {
        let number = self.number();
        let ack = self.word().parse().ok();
        let flags = self.word();
        Segment {
            number,
            ack,
            window: self.number(),
            syn: flags.contains('S'),
            fin: flags.contains('F'),
            rst: flags.contains('R'),
            payload: self.text(),
        }
    }

    /// The event with this name that has no segment.
    pub fn event(&mut self, name: &str) -> Option<Event<'a>>
        ensures { IfSome result (λ event. IsShort event) }
    {
        match name {
            "listen" => Some(Event::Listen),
            "open" => Some(Event::Open(self.number())),
            "send" => Some(Event::Send(self.size(), self.size())),
            "close" => Some(Event::Close),
            "abort" => Some(Event::Abort),
            _ => None,
        }
    }

    /// The event of a socket with this name that has no segment.
    pub fn timed_event(&mut self, name: &str) -> Option<Timed<'a>>
        ensures { IfSome result (λ event. timed.IsShort event) }
    {
        match name {
            "listen" => Some(Timed::Listen),
            "open" => Some(Timed::Open(self.number())),
            "close" => Some(Timed::Close),
            "abort" => Some(Timed::Abort),
            "tick" => Some(Timed::Tick),
            _ => None,
        }
    }

    /// The next words as options of a socket.
    pub fn options(&mut self) -> Options {
        Options {
            mss: self.mss(),
            keep_alive: self.number(),
            is_eager: self.number() != 0,
        }
    }
}
