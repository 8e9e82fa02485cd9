//! Figures 6 to 13 of RFC 9293 (sections 3.5 and 3.6), each as both ends see it, and acknowledgements beside the window.

ghost use Rattle.app_connection.specs.Events.{IsShort};

use Turn::{Close, Gets, Listen, Open, Send, Write};
use app_connection::{Connection, Event, Segment, State as S};
use std::process::Abort;

/// A segment, with the number of its bytes.
#[derive(Debug, Clone, Copy, PartialEq, Eq)]
struct Line {
    number: u32,
    ack: Option<u32>,
    flags: Flags,
    len: usize,
}

#[derive(Debug, Clone, Copy, PartialEq, Eq)]
enum Flags {
    None,
    Syn,
    Rst,
    Fin,
}

/// What happens at one end.
#[derive(Debug, Clone, Copy)]
enum Turn {
    Listen,
    Open(u32),
    Gets(Line),
    Write,
    Send,
    Close,
}

/// What happens, what it sends, and its state then.
type Row = (Turn, Option<Line>, S);

/// One end of a connection.
#[derive(Debug, Clone, Copy)]
struct End {
    connection: Connection,
    outgoing: [u8; 64],
    incoming: [u8; 64],
}

const TEXT: [u8; 10] = [7; 10];

fn plain(number: u32, ack: Option<u32>, flags: Flags) -> Line {
    Line {
        number,
        ack,
        flags,
        len: 0,
    }
}

fn syn(number: u32) -> Line {
    plain(number, None, Flags::Syn)
}

fn syn_ack(number: u32, ack: u32) -> Line {
    plain(number, Some(ack), Flags::Syn)
}

fn rst(number: u32) -> Line {
    plain(number, None, Flags::Rst)
}

fn ack(number: u32, ack: u32) -> Line {
    plain(number, Some(ack), Flags::None)
}

fn fin(number: u32, ack: u32) -> Line {
    plain(number, Some(ack), Flags::Fin)
}

fn text(number: u32, ack: u32) -> Line {
    Line {
        number,
        ack: Some(ack),
        flags: Flags::None,
        len: TEXT.len(),
    }
}

fn line_of(segment: &Segment) -> Line {
    let flags = if segment.syn {
        Flags::Syn
    } else if segment.rst {
        Flags::Rst
    } else if segment.fin {
        Flags::Fin
    } else {
        Flags::None
    };
    Line {
        number: segment.number,
        ack: segment.ack,
        flags,
        len: segment.payload.len(),
    }
}

impl End {
    /// What one turn sends. A connection that is opened by a SYN begins at `fresh`.
    fn turn(&mut self, turn: Turn, fresh: u32) -> Option<Line> {
        match turn {
            Turn::Listen => self.step(Event::Listen),
            Turn::Open(iss) => self.step(Event::Open(iss)),
            Turn::Gets(line) => self.gets(line, fresh),
            Turn::Write => {
                if self.connection.fits(64, 64) {
                    let _ = self.connection.write(&mut self.outgoing, &TEXT);
                }
                None
            }
            Turn::Send => self.step(Event::Send(0, 64)),
            Turn::Close => self.step(Event::Close),
        }
    }

    /// What a segment brings about.
    fn gets(&mut self, line: Line, fresh: u32) -> Option<Line> {
        let segment = Segment {
            number: line.number,
            ack: line.ack,
            window: 64,
            syn: line.flags == Flags::Syn,
            rst: line.flags == Flags::Rst,
            fin: line.flags == Flags::Fin,
            payload: &TEXT[..line.len.min(TEXT.len())],
        };
        if !self.connection.fits(64, 64) {
            return None;
        }
        let event = Event::Arrives(&segment, fresh);
        let sent = self
            .connection
            .step(&self.outgoing, &mut self.incoming, event);
        match sent {
            Some(segment) => Some(line_of(&segment)),
            None => None,
        }
    }

    fn step(&mut self, event: Event) -> Option<Line>
        requires { IsShort event }
    {
        if !self.connection.fits(64, 64) {
            return None;
        }
        let sent = self
            .connection
            .step(&self.outgoing, &mut self.incoming, event);
        match sent {
            Some(segment) => Some(line_of(&segment)),
            None => None,
        }
    }
}

/// The rows, in order, from CLOSED on. Each passive open begins at the next of the numbers.
fn check(rt: &impl Abort, name: &str, fresh: &[u32], rows: &[Row]) {
    let mut end = End {
        connection: Connection::new(),
        outgoing: [0; 64],
        incoming: [0; 64],
    };
    let mut listens = 0;
    for (i, (turn, sends, state)) in rows.iter().enumerate() {
        let number = if listens < fresh.len() {
            fresh[listens]
        } else {
            0
        };
        let sent = end.turn(*turn, number);
        assert_eq!(rt; sent, *sends, "figure {name}, row {i}");
        assert_eq!(rt; end.connection.state(), *state, "figure {name}, row {i}");
        if *state == S::Listen && i > 0 {
            listens = 1;
        }
    }
}

#[test]
fn figure_6(rt: HostRuntime) {
    let rows = [
        (Open(100), Some(syn(100)), S::SynSent),
        (Gets(syn_ack(300, 101)), Some(ack(101, 301)), S::Established),
        (Write, None, S::Established),
        (Send, Some(text(101, 301)), S::Established),
    ];
    check(&rt, "6, A", &[], &rows);
    let rows = [
        (Listen, None, S::Listen),
        (Gets(syn(100)), Some(syn_ack(300, 101)), S::SynReceived),
        (Gets(ack(101, 301)), None, S::Established),
        (Gets(text(101, 301)), Some(ack(301, 111)), S::Established),
    ];
    check(&rt, "6, B", &[300], &rows);
}

#[test]
fn figure_7(rt: HostRuntime) {
    let rows = [
        (Open(100), Some(syn(100)), S::SynSent),
        (Gets(syn(300)), Some(syn_ack(100, 301)), S::SynReceived),
        (Gets(syn_ack(300, 101)), None, S::Established),
    ];
    check(&rt, "7, A", &[], &rows);
    let rows = [
        (Open(300), Some(syn(300)), S::SynSent),
        (Gets(syn(100)), Some(syn_ack(300, 101)), S::SynReceived),
        (Gets(syn_ack(100, 301)), None, S::Established),
    ];
    check(&rt, "7, B", &[], &rows);
}

// Figure 7, where an old SYN comes to B first. A segment of A that is only in the window does not establish B.
#[test]
fn old_syn_in_a_simultaneous_open(rt: HostRuntime) {
    let rows = [
        (Open(300), Some(syn(300)), S::SynSent),
        (Gets(syn(90)), Some(syn_ack(300, 91)), S::SynReceived),
        (Gets(ack(101, 301)), Some(ack(301, 91)), S::SynReceived),
        (Gets(rst(92)), Some(ack(301, 91)), S::SynReceived),
        (Gets(rst(91)), None, S::Closed),
    ];
    check(&rt, "7 with an old SYN, B", &[], &rows);
}

#[test]
fn figure_8(rt: HostRuntime) {
    let rows = [
        (Open(100), Some(syn(100)), S::SynSent),
        (Gets(syn_ack(300, 91)), Some(rst(91)), S::SynSent),
        (Gets(syn_ack(400, 101)), Some(ack(101, 401)), S::Established),
    ];
    check(&rt, "8, A", &[], &rows);
    let rows = [
        (Listen, None, S::Listen),
        (Gets(syn(90)), Some(syn_ack(300, 91)), S::SynReceived),
        (Gets(rst(91)), None, S::Listen),
        (Gets(syn(100)), Some(syn_ack(400, 101)), S::SynReceived),
        (Gets(ack(101, 401)), None, S::Established),
    ];
    check(&rt, "8, B", &[300, 400], &rows);
}

#[test]
fn figures_9_and_10(rt: HostRuntime) {
    let rows = [
        (Open(400), Some(syn(400)), S::SynSent),
        (Gets(ack(300, 100)), Some(rst(100)), S::SynSent),
        (Send, Some(syn(400)), S::SynSent),
    ];
    check(&rt, "9, A", &[], &rows);
    let rows = [
        (Open(299), Some(syn(299)), S::SynSent),
        (Gets(syn_ack(99, 300)), Some(ack(300, 100)), S::Established),
        (Gets(syn(400)), Some(ack(300, 100)), S::Established),
        (Gets(rst(100)), None, S::Closed),
    ];
    check(&rt, "9, B", &[], &rows);
    let rows = [(Gets(text(300, 100)), Some(rst(100)), S::Closed)];
    check(&rt, "10, A", &[], &rows);
}

#[test]
fn figure_11(rt: HostRuntime) {
    let rows = [
        (Listen, None, S::Listen),
        (Gets(syn_ack(700, 501)), Some(rst(501)), S::Listen),
    ];
    check(&rt, "11, A", &[1], &rows);
    let rows = [
        (Listen, None, S::Listen),
        (Gets(syn(500)), Some(syn_ack(700, 501)), S::SynReceived),
        (Gets(rst(501)), None, S::Listen),
    ];
    check(&rt, "11, B", &[700], &rows);
}

#[test]
fn figure_12(rt: HostRuntime) {
    let rows = [
        (Open(99), Some(syn(99)), S::SynSent),
        (Gets(syn_ack(299, 100)), Some(ack(100, 300)), S::Established),
        (Close, None, S::FinWait1),
        (Send, Some(fin(100, 300)), S::FinWait1),
        (Gets(ack(300, 101)), None, S::FinWait2),
        (Gets(fin(300, 101)), Some(ack(101, 301)), S::TimeWait),
        (Gets(fin(300, 101)), Some(ack(101, 301)), S::TimeWait),
    ];
    check(&rt, "12, A", &[], &rows);
    let rows = [
        (Open(299), Some(syn(299)), S::SynSent),
        (Gets(syn_ack(99, 300)), Some(ack(300, 100)), S::Established),
        (Gets(fin(100, 300)), Some(ack(300, 101)), S::CloseWait),
        (Close, None, S::LastAck),
        (Send, Some(fin(300, 101)), S::LastAck),
        (Gets(ack(101, 301)), None, S::Closed),
    ];
    check(&rt, "12, B", &[], &rows);
}

#[test]
fn figure_13(rt: HostRuntime) {
    let rows = [
        (Open(99), Some(syn(99)), S::SynSent),
        (Gets(syn_ack(299, 100)), Some(ack(100, 300)), S::Established),
        (Close, None, S::FinWait1),
        (Send, Some(fin(100, 300)), S::FinWait1),
        (Gets(fin(300, 100)), Some(ack(101, 301)), S::Closing),
        (Gets(ack(301, 101)), None, S::TimeWait),
    ];
    check(&rt, "13, A", &[], &rows);
}

#[test]
fn acknowledgements_beside_the_window(rt: HostRuntime) {
    let rows = [
        (Open(99), Some(syn(99)), S::SynSent),
        (Gets(syn_ack(299, 100)), Some(ack(100, 300)), S::Established),
        (Close, None, S::FinWait1),
        (Send, Some(fin(100, 300)), S::FinWait1),
        (Gets(ack(299, 101)), Some(ack(101, 300)), S::FinWait1),
        (Gets(ack(366, 101)), None, S::FinWait1),
        (Gets(ack(365, 101)), None, S::FinWait2),
    ];
    check(&rt, "of the window", &[], &rows);
}
