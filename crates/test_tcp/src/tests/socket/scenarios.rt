//! What a connection does over time.

ghost use Rattle.app_socket.specs.Events.{IsShort};

use Turn::{Close, Gets, Listen, Open, Read, Tick, Write};
use app_connection::{Segment, State as S};
use app_socket::{Event, Header, Options, Socket};
use std::process::Abort;
use wire_tcp_options::TcpOptionSummary;

/// The size of both rings, and of the longest segment.
const SIZE: usize = 4000;

const MSS: u16 = 1000;

const TEXT: [u8; SIZE] = [7; SIZE];

const OPTIONS: Options = Options {
    mss: MSS,
    keep_alive: 100,
    is_eager: false,
};

/// A segment with the window of its header, and with the number of its bytes.
#[derive(Debug, Clone, Copy, PartialEq, Eq)]
pub(super) struct Line {
    pub(super) number: u32,
    pub(super) ack: Option<u32>,
    pub(super) flags: Flags,
    pub(super) window: u32,
    pub(super) len: usize,
}

#[derive(Debug, Clone, Copy, PartialEq, Eq)]
pub(super) enum Flags {
    None,
    Syn,
    Rst,
    Fin,
}

/// What happens.
#[derive(Debug, Clone, Copy)]
pub(super) enum Turn {
    Listen,
    Open(u32),
    Gets(Line),
    Write(usize),
    Read(usize),
    Close,
    Tick,
}

/// When something happens, what it sends, and when the next Tick is due.
type Row = (u64, Turn, Option<Line>, Option<u64>);

/// A connection with the ring of what it sends.
#[derive(Debug, Clone, Copy)]
pub(super) struct End {
    pub(super) socket: Socket,
    outgoing: [u8; SIZE],
}

pub(super) fn plain(number: u32, ack: Option<u32>, flags: Flags, len: usize) -> Line {
    Line {
        number,
        ack,
        flags,
        window: 4000,
        len,
    }
}

pub(super) fn syn(number: u32) -> Line {
    plain(number, None, Flags::Syn, 0)
}

pub(super) fn syn_ack(number: u32, ack: u32) -> Line {
    plain(number, Some(ack), Flags::Syn, 0)
}

pub(super) fn ack(number: u32, ack: u32) -> Line {
    plain(number, Some(ack), Flags::None, 0)
}

fn rst(number: u32) -> Line {
    Line {
        window: 0,
        ..plain(number, None, Flags::Rst, 0)
    }
}

fn fin(number: u32, ack: u32) -> Line {
    Line {
        window: 1000,
        ..plain(number, Some(ack), Flags::Fin, 0)
    }
}

pub(super) fn tells(number: u32, ack: u32, window: u32) -> Line {
    Line {
        window,
        ..plain(number, Some(ack), Flags::None, 0)
    }
}

pub(super) fn text(number: u32, ack: u32, len: usize) -> Line {
    plain(number, Some(ack), Flags::None, len)
}

fn line_of(segment: &Segment, header: &Header) -> Line {
    let flags = if segment.syn {
        Flags::Syn
    } else if segment.rst {
        Flags::Rst
    } else if segment.fin {
        Flags::Fin
    } else {
        Flags::None
    };
    Line {
        number: segment.number,
        ack: segment.ack,
        flags,
        window: u32::from(header.window),
        len: segment.payload.len(),
    }
}

impl End {
    pub(super) fn new() -> End {
        End {
            socket: Socket::new(OPTIONS),
            outgoing: [0; SIZE],
        }
    }

    pub(super) fn turn(
        &mut self,
        incoming: &mut [u8],
        now: u64,
        turn: Turn,
        options: &TcpOptionSummary,
    ) -> Option<(Line, TcpOptionSummary)> {
        if !self.socket.fits(SIZE, incoming.len()) {
            return None;
        }
        match turn {
            Turn::Listen => self.step(incoming, now, Event::Listen),
            Turn::Open(iss) => self.step(incoming, now, Event::Open(iss)),
            Turn::Gets(line) => self.gets(incoming, now, line, options),
            Turn::Write(count) => {
                let _ = self
                    .socket
                    .write(&mut self.outgoing, &TEXT[..count.min(SIZE)]);
                None
            }
            Turn::Read(count) => {
                let _ = self.socket.read(incoming, count);
                None
            }
            Turn::Close => self.step(incoming, now, Event::Close),
            Turn::Tick => self.step(incoming, now, Event::Tick),
        }
    }

    fn gets(
        &mut self,
        incoming: &mut [u8],
        now: u64,
        line: Line,
        options: &TcpOptionSummary,
    ) -> Option<(Line, TcpOptionSummary)> {
        let segment = Segment {
            number: line.number,
            ack: line.ack,
            window: line.window,
            syn: line.flags == Flags::Syn,
            rst: line.flags == Flags::Rst,
            fin: line.flags == Flags::Fin,
            payload: &TEXT[..line.len.min(SIZE)],
        };
        self.step(incoming, now, Event::Arrives(&segment, options, 500))
    }

    fn step(
        &mut self,
        incoming: &mut [u8],
        now: u64,
        event: Event,
    ) -> Option<(Line, TcpOptionSummary)>
        requires { IsShort event }
    {
        let size = incoming.len();
        if !self.socket.fits(SIZE, size) {
            return None;
        }
        let sent = self.socket.step(&self.outgoing, incoming, now, event);
        match sent {
            Some(segment) => {
                let header = self.socket.header(&segment, size, now);
                Some((line_of(&segment, &header), header.options))
            }
            None => None,
        }
    }
}

/// The rows, in order, from CLOSED on, and the state after them. The peer has an MSS option only.
fn check(rt: &impl Abort, name: &str, rows: &[Row], state: S) {
    let mut end = End::new();
    let mut incoming = [0; SIZE];
    for (i, (now, turn, sends, due)) in rows.iter().enumerate() {
        let options = TcpOptionSummary {
            max_segment_size: Some(MSS),
            ..TcpOptionSummary::default()
        };
        let line = match end.turn(&mut incoming, *now, *turn, &options) {
            Some((line, _)) => Some(line),
            None => None,
        };
        assert_eq!(rt; line, *sends, "{name}, row {i}");
        assert_eq!(rt; end.socket.due(), *due, "{name}, row {i}");
    }
    assert_eq!(rt; end.socket.state(), state, "{name}");
}

#[test]
fn a_lost_syn(rt: HostRuntime) {
    let rows = [
        (0, Open(99), Some(syn(99)), Some(1000)),
        (0, Tick, None, Some(1000)),
        (1000, Tick, Some(syn(99)), Some(3000)),
        (1000, Tick, None, Some(3000)),
        (
            1100,
            Gets(syn_ack(299, 100)),
            Some(ack(100, 300)),
            Some(101_100),
        ),
        (1100, Write(10), None, Some(101_100)),
        (1100, Tick, Some(text(100, 300, 10)), Some(4100)),
    ];
    check(&rt, "a lost SYN", &rows, S::Established);
}

#[test]
fn no_answer_to_a_syn(rt: HostRuntime) {
    let rows = [
        (0, Open(99), Some(syn(99)), Some(1000)),
        (179_999, Tick, Some(syn(99)), Some(180_000)),
        (180_000, Tick, None, None),
    ];
    check(&rt, "no answer to a SYN", &rows, S::Closed);
}

// The first of four segments is lost, and goes again after three duplicate acknowledgements. Then cwnd is half of what was in
// flight.
#[test]
fn a_lost_segment(rt: HostRuntime) {
    let rows = [
        (0, Open(99), Some(syn(99)), Some(1000)),
        (
            100,
            Gets(syn_ack(299, 100)),
            Some(ack(100, 300)),
            Some(100_100),
        ),
        (100, Write(4000), None, Some(100_100)),
        (200, Tick, Some(text(100, 300, 1000)), Some(500)),
        (200, Tick, Some(text(1100, 300, 1000)), Some(500)),
        (200, Tick, Some(text(2100, 300, 1000)), Some(500)),
        (200, Tick, Some(text(3100, 300, 1000)), Some(500)),
        (200, Tick, None, Some(500)),
        (301, Gets(ack(300, 100)), None, Some(500)),
        (302, Gets(ack(300, 100)), None, Some(500)),
        (302, Tick, None, Some(500)),
        (303, Gets(ack(300, 100)), None, Some(500)),
        (303, Tick, Some(text(100, 300, 1000)), Some(500)),
        (303, Tick, None, Some(500)),
        (403, Gets(ack(300, 4100)), None, Some(100_403)),
        (403, Tick, None, Some(100_403)),
        (403, Write(4000), None, Some(100_403)),
        (403, Tick, Some(text(4100, 300, 1000)), Some(703)),
        (403, Tick, Some(text(5100, 300, 1000)), Some(703)),
        (403, Tick, None, Some(703)),
    ];
    check(&rt, "a lost segment", &rows, S::Established);
}

// The acknowledgements of four segments are lost. The first one probes after 2 SRTT and 4 RTTVAR, before the time-out.
#[test]
fn a_loss_probe(rt: HostRuntime) {
    let rows = [
        (0, Open(99), Some(syn(99)), Some(1000)),
        (
            10,
            Gets(syn_ack(299, 100)),
            Some(ack(100, 300)),
            Some(100_010),
        ),
        (10, Write(4000), None, Some(100_010)),
        (20, Tick, Some(text(100, 300, 1000)), Some(60)),
        (20, Tick, Some(text(1100, 300, 1000)), Some(60)),
        (20, Tick, Some(text(2100, 300, 1000)), Some(60)),
        (20, Tick, Some(text(3100, 300, 1000)), Some(60)),
        (20, Tick, None, Some(60)),
        (60, Tick, Some(text(100, 300, 1000)), Some(270)),
        (60, Tick, None, Some(270)),
        (70, Gets(ack(300, 4100)), None, Some(100_070)),
        (70, Tick, None, Some(100_070)),
    ];
    check(&rt, "a loss probe", &rows, S::Established);
}

// Nagle's algorithm keeps the last 500 bytes. Then the window is closed: probes of one byte, each after twice the time.
#[test]
fn a_closed_window(rt: HostRuntime) {
    let rows = [
        (0, Open(99), Some(syn(99)), Some(1000)),
        (
            400,
            Gets(syn_ack(299, 100)),
            Some(ack(100, 300)),
            Some(100_400),
        ),
        (400, Write(1500), None, Some(100_400)),
        (500, Tick, Some(text(100, 300, 1000)), Some(1700)),
        (500, Tick, None, Some(1700)),
        (900, Gets(tells(300, 1100, 0)), None, Some(1900)),
        (900, Tick, None, Some(1900)),
        (1900, Tick, Some(text(1100, 300, 1)), Some(3900)),
        (1900, Tick, None, Some(3900)),
        (2300, Gets(tells(300, 1100, 0)), None, Some(3900)),
        (3900, Tick, Some(text(1100, 300, 1)), Some(7900)),
        (4300, Gets(ack(300, 1100)), None, Some(8300)),
        (4300, Tick, Some(text(1100, 300, 500)), Some(8300)),
        (4300, Tick, None, Some(8300)),
    ];
    check(&rt, "a closed window", &rows, S::Established);
}

// The user timeout begins with what waits, and no retransmission puts it off.
#[test]
fn an_end_after_silence(rt: HostRuntime) {
    let rows = [
        (0, Open(99), Some(syn(99)), Some(1000)),
        (
            400,
            Gets(syn_ack(299, 100)),
            Some(ack(100, 300)),
            Some(100_400),
        ),
        (400, Write(1000), None, Some(100_400)),
        (500, Tick, Some(text(100, 300, 1000)), Some(1700)),
        (1700, Tick, Some(text(100, 300, 1000)), Some(4100)),
        (300_499, Tick, Some(text(100, 300, 1000)), Some(300_500)),
        (300_500, Tick, Some(rst(1100)), None),
        (300_500, Tick, None, None),
    ];
    check(&rt, "an end after silence", &rows, S::Closed);
}

// Acknowledgements wait 40 ms, or for the second segment. The room that the application makes is told once it is a segment.
#[test]
fn a_slow_reader(rt: HostRuntime) {
    let rows = [
        (0, Listen, None, None),
        (0, Gets(syn(99)), Some(syn_ack(500, 100)), Some(1000)),
        (100, Gets(ack(100, 501)), None, Some(100_100)),
        (100, Tick, None, Some(100_100)),
        (200, Gets(text(100, 501, 1000)), None, Some(240)),
        (200, Tick, None, Some(240)),
        (240, Tick, Some(tells(501, 1100, 3000)), Some(100_200)),
        (300, Gets(text(1100, 501, 1000)), None, Some(340)),
        (301, Gets(text(2100, 501, 1000)), None, Some(301)),
        (301, Tick, Some(tells(501, 3100, 1000)), Some(100_301)),
        (400, Gets(text(3100, 501, 1000)), None, Some(440)),
        (440, Tick, Some(tells(501, 4100, 0)), Some(100_400)),
        (500, Read(999), None, Some(100_400)),
        (500, Tick, None, Some(100_400)),
        (500, Read(1), None, Some(100_400)),
        (500, Tick, Some(tells(501, 4100, 1000)), Some(100_400)),
        (500, Tick, None, Some(100_400)),
        (600, Close, None, Some(100_400)),
        (600, Tick, Some(fin(501, 4100)), Some(900)),
    ];
    check(&rt, "a slow reader", &rows, S::FinWait1);
}

// Acknowledgements of what was not sent get one answer in half a second (RFC 5961, section 7), and text that came before one each.
#[test]
fn a_peer_out_of_step(rt: HostRuntime) {
    let rows = [
        (0, Listen, None, None),
        (0, Gets(syn(99)), Some(syn_ack(500, 100)), Some(1000)),
        (100, Gets(ack(100, 501)), None, Some(100_100)),
        (200, Gets(ack(100, 502)), Some(ack(501, 100)), Some(100_200)),
        (201, Gets(ack(100, 502)), None, Some(100_201)),
        (699, Gets(ack(100, 502)), None, Some(100_699)),
        (700, Gets(ack(100, 502)), Some(ack(501, 100)), Some(100_700)),
        (
            701,
            Gets(text(99, 501, 1)),
            Some(ack(501, 100)),
            Some(100_700),
        ),
        (
            702,
            Gets(text(99, 501, 1)),
            Some(ack(501, 100)),
            Some(100_700),
        ),
    ];
    check(&rt, "a peer out of step", &rows, S::Established);
}
