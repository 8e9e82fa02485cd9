//! The connection with its timers, and the calls of its application.

ghost use Rattle.std.specs.Prelude.{◌≡◌, ◌==◌, ◌&&◌, ◌≤◌, ◌<◌, ◌++◌, [], max, ℕ, List, length, true, false, MatchOption, take, ◌+◌, nat_lt};
ghost use Rattle.tcp_stream.specs.Network.{World, Event, happens, run, start, IsPrefixOf};
ghost use Rattle.tcp_stream.specs.Ranges.{is_none};
ghost use Rattle.tcp_stream.specs.Stands.{Stands, room_of};
ghost use Rattle.app_connection.specs.SetUp.{In_closed};
ghost use Rattle.app_connection.specs.Endpoints.{endpoint_of, OutFits, InFits};
ghost use Rattle.app_connection.specs.States.{state_from, has_peer};
ghost use Rattle.app_connection.specs.Steps.{Reads, Writes};
ghost use Rattle.tcp_stream.specs.Waits.{count_of, unsent_of};
ghost use Rattle.app_socket.specs.Resends.{queue_of};
ghost use Rattle.app_options.specs.Options.{of_segment};
ghost use Rattle.app_socket.specs.Segments.{GoesAgain, Lowers, header_of, is_in_flight, is_narrower, kept_of, text_of};
ghost use Rattle.app_socket.specs.Times.{due_in};
ghost use Rattle.app_socket.specs.Promises.{RemembersFlight};

use crate::flow::{Flow, Queue};
use crate::options::Options;
use crate::timers::Timers;
use app_connection::{Connection, Segment, State};
use app_options::{Agreed, syn_window};
use wire_tcp_options::TcpOptionSummary;

// The least segment of a path: beside 40 bytes of options it leaves 8 for text.
const MIN_MSS: u16 = 48;

/// One end of a TCP connection. Times are milliseconds on the caller's clock, which never goes back. The bytes are in two rings
/// of the caller's, each of less than 2^30 bytes.
///
/// After each event, `write` and `read` the caller calls `step` with `Tick` until it returns None, and again at `due`.
#[derive(Debug, Clone, Copy)]
pub struct Socket {
    pub(crate) connection: Connection,
    pub(crate) options: Options,
    pub(crate) timers: Timers,
    pub(crate) flow: Flow,
    // The right edge of the window that was advertised last.
    pub(crate) edge: u32,
    pub(crate) agreed: Agreed,
    // The largest segment that the peer and the path take, with its options.
    pub(crate) limit: u16,
    // Before this time no answer goes to a segment without text.
    pub(crate) quiet_until: u64,
}

/// What the TCP header of a segment has beside its numbers, flags and text.
#[derive(Debug, Clone, Copy, PartialEq, Eq)]
pub struct Header {
    /// The window field, after scaling (RFC 7323, section 2.3).
    pub window: u16,
    pub options: TcpOptionSummary,
}

impl Socket {
    /// In CLOSED.
    pub fn new(options: Options) -> Socket
        ensures endpoint { endpoint_of result.connection ≡ In_closed }
        ensures options { result.options ≡ options }
        ensures out { (size : ℕ) → 0 < size → size < 1073741824 → OutFits result.connection.sending size }
        ensures rings { (size : ℕ) → 0 < size → size < 1073741824 → InFits result.connection.receiving size }
        ensures stands { (buffer : List ℕ) → Stands (start 0) [] result.connection.receiving buffer }
    {
        Socket {
            connection: Connection::new(),
            options,
            timers: Timers::new(),
            flow: Flow::new(),
            edge: 0,
            agreed: Agreed::new(0),
            limit: options.most(),
            quiet_until: 0,
        }
    }

    /// The header of a segment that `step` returned at this time. An RST has no options.
    pub fn header(&self, segment: &Segment, incoming: usize, now: u64) -> Header
        requires { InFits self.now.connection.receiving incoming }
        ensures { result ≡ header_of self.now segment.now incoming now }
    {
        if segment.syn {
            return Header {
                window: syn_window(segment.window),
                options: self
                    .agreed
                    .of_syn(self.options.most(), incoming, now, segment.ack.is_some()),
            };
        }
        Header {
            window: self.agreed.window_out(segment.window, incoming),
            options: if segment.rst {
                TcpOptionSummary::default()
            } else {
                self.options_of(segment.payload, now)
            },
        }
    }

    // The options of a segment with this text, without SYN and RST: text leaves room for one SACK block.
    fn options_of(&self, text: &[u8], now: u64) -> TcpOptionSummary
        ensures { result ≡ of_segment self.now.agreed (kept_of self.now.connection.receiving text.now) now }
    {
        if !self.connection.has_gap() {
            return self.agreed.of_segment(None, now);
        }
        self.gap_options(text, now)
    }

    // The same, if something is kept after a gap.
    #[inline(never)]
    fn gap_options(&self, text: &[u8], now: u64) -> TcpOptionSummary
        requires { is_none self.now.connection.receiving.ranges ≡ false }
        ensures { result ≡ of_segment self.now.agreed (kept_of self.now.connection.receiving text.now) now }
    {
        let blocks = self.connection.blocks();
        if text.is_empty() {
            return self.agreed.of_blocks(blocks, now);
        }
        self.agreed.of_segment(blocks[0], now)
    }

    /// An ICMP error says that a segment of this number was too big, and that the path takes segments with `mss` bytes of text
    /// and options (RFC 1191, RFC 8201). An error about no segment in flight changes nothing (RFC 5927, section 4.1). What is
    /// in flight goes again if segments were larger; `mss` counts as at least 48. Returns whether a segment of this number is
    /// in flight.
    pub fn on_too_big(&mut self, number: u32, mss: u16) -> bool
        ensures same { self.new ≡ record self.old { limit = self.new.limit; flow = self.new.flow } }
        ensures value { result ≡ is_in_flight self.old.connection number }
        ensures lowers { is_narrower self.old number mss ≡ true → Lowers self.old self.new (max 48 mss) }
        ensures again { is_narrower self.old number mss ≡ true → GoesAgain self.old.flow self.new.flow }
        ensures other { is_narrower self.old number mss ≡ false → self.new ≡ self.old }
        ensures sound { RemembersFlight self.old → RemembersFlight self.new }
    {
        let is_in_flight = number.wrapping_sub(self.connection.una()) < self.connection.flight();
        if is_in_flight && mss < self.limit {
            self.lower(mss.max(MIN_MSS));
            self.flow.go_back();
        }
        is_in_flight
    }

    /// Lowers the largest segment that is sent, with its options: when the MTU of the path gets smaller. 0 changes nothing.
    pub fn limit_mss(&mut self, mss: u16)
        ensures same { self.new ≡ record self.old {
          limit = self.new.limit;
          flow = record self.old.flow { congestion = self.new.flow.congestion };
        } }
        ensures lowers { 0 < mss → Lowers self.old self.new mss }
        ensures none { mss ≡ 0 → self.new ≡ self.old }
        ensures sound { RemembersFlight self.old → RemembersFlight self.new }
    {
        if mss != 0 {
            self.lower(mss);
        }
    }

    // The largest segment, and with it that of congestion control (SMSS).
    fn lower(&mut self, mss: u16)
        ensures same { self.new ≡ record self.old {
          limit = self.new.limit;
          flow = record self.old.flow { congestion = self.new.flow.congestion };
        } }
        ensures lowers { Lowers self.old self.new mss }
    {
        self.limit = mss.min(self.limit);
        let most = self.most();
        self.flow.lower_mss(most);
    }

    // The most bytes of text in the next segment.
    pub(crate) fn most(&self) -> u16
        ensures { result ≡ text_of self.now }
    {
        self.agreed
            .text_limit(self.limit, self.connection.has_gap())
    }

    /// Its state.
    pub fn state(&self) -> State
        ensures { result ≡ state_from self.now.connection }
    {
        self.connection.state()
    }

    /// The connection without its timers, to look at.
    pub fn connection(&self) -> &Connection
        ensures { result.now ≡ self.now.connection }
    {
        &self.connection
    }

    /// Whether the rings have sizes that fit: what other calls require, of the rings that they always get.
    pub fn fits(&self, outgoing: usize, incoming: usize) -> bool
        ensures out { result ≡ true → OutFits self.now.connection.sending outgoing }
        ensures rings { result ≡ true → InFits self.now.connection.receiving incoming }
        ensures all { OutFits self.now.connection.sending outgoing → InFits self.now.connection.receiving incoming
            → result ≡ true }
    {
        self.connection.fits(outgoing, incoming)
    }

    /// How many bytes there is room for (RCV.WND).
    pub fn room(&self, incoming: usize) -> u32
        requires { InFits self.now.connection.receiving incoming }
        ensures { result ≡ room_of self.now.connection.receiving incoming }
    {
        self.connection.room(incoming)
    }

    /// Takes bytes of the application, as far as the ring has room, also before the connection is established. Returns how
    /// many: 0 in CLOSED, LISTEN and after `close`.
    pub fn write(&mut self, outgoing: &mut [u8], bytes: &[u8]) -> usize
        requires { OutFits self.old.connection.sending (length outgoing.old) }
        ensures few { result ≤ length bytes.now }
        ensures out { OutFits self.new.connection.sending (length outgoing.old) }
        ensures writes { Writes self.old.connection self.new.connection outgoing.old outgoing.new
            (take result bytes.now) }
        ensures none { has_peer (state_from self.old.connection) ≡ false → result ≡ 0 }
        ensures timers { self.new.timers ≡ self.old.timers }
        ensures same { self.new ≡ record self.old { connection = self.new.connection } }
        ensures sound { RemembersFlight self.old → RemembersFlight self.new }
    {
        self.connection.write(outgoing, bytes)
    }

    /// The next bytes for the application, at most `count`, and none in LISTEN. They end at the end of the ring: then the next
    /// call has the others.
    pub fn read<'a>(&mut self, incoming: &'a [u8], count: usize) -> &'a [u8]
        requires { InFits self.old.connection.receiving (length incoming.now) }
        ensures rings { InFits self.new.connection.receiving (length incoming.now) }
        ensures few { length result.now ≤ count }
        ensures reads { Reads self.old.connection self.new.connection incoming.now result.now }
        ensures delivers { (initial : ℕ) (events : List Event) (consumed : List ℕ)
            → let back : World = run events (start initial) in
            Stands back consumed self.old.connection.receiving incoming.now
            → IsPrefixOf (consumed ++ result.now) back.written }
        ensures timers { self.new.timers ≡ self.old.timers }
        ensures same { self.new ≡ record self.old { connection = self.new.connection } }
        ensures sound { RemembersFlight self.old → RemembersFlight self.new }
    {
        self.connection.read(incoming, count)
    }

    /// Whether the application has read all that the peer wrote, and the peer has closed.
    pub fn is_ended(&self) -> bool
        ensures value { result ≡ (self.now.connection.receiving.has_fin && self.now.connection.receiving.len == 0) }
        ensures whole { (initial : ℕ) (events : List Event) (consumed buffer : List ℕ) → result ≡ true
            → let back : World = run events (start initial) in Stands back consumed self.now.connection.receiving buffer
            → (back.closed ≡ true) × (consumed ≡ back.written) }
    {
        self.connection.is_ended()
    }

    /// When the next `Tick` has something to do if nothing happens before, after one that returned None. None: never.
    pub fn due(&self) -> Option<u64>
        ensures value { result ≡ due_in (state_from self.now.connection) self.now.timers }
        ensures ends { has_peer (state_from self.now.connection) ≡ true
            → MatchOption result ⊥ (λ t. t ≤ self.now.timers.ends_at) }
    {
        match self.connection.state() {
            State::Closed | State::Listen => None,
            State::SynSent | State::SynReceived => Some(self.timers.first_in_set_up()),
            State::TimeWait => Some(self.timers.first_in_time_wait()),
            _ => Some(self.timers.first()),
        }
    }

    // Whether something waits: it was not sent, or the peer did not acknowledge it.
    pub(crate) fn waits(&self) -> bool
        ensures value { (size : ℕ) → OutFits self.now.connection.sending size
            → result ≡ nat_lt 0 (self.now.connection.sending.flight + unsent_of self.now.connection.sending) }
        ensures some { (size : ℕ) → OutFits self.now.connection.sending size → 0 < count_of self.now.connection.sending
            → result ≡ true }
    {
        self.connection.flight() > 0 || self.connection.unsent() > 0
    }

    // What waits.
    pub(crate) fn queue(&self) -> Queue
        ensures una { result.una ≡ self.now.connection.sending.una }
        ensures window { result.window ≡ self.now.connection.wnd }
        ensures flight { result.flight ≡ self.now.connection.sending.flight }
        ensures value { (size : ℕ) → OutFits self.now.connection.sending size → result ≡ queue_of self.now }
    {
        Queue {
            una: self.connection.una(),
            flight: self.connection.flight(),
            window: self.connection.window(),
            unsent: self.connection.unsent(),
            has_fin: matches!(
                self.connection.state(),
                State::FinWait1 | State::Closing | State::LastAck
            ),
            mss: self.most(),
            is_eager: self.options.is_eager,
        }
    }

    // RCV.NXT; 0 before the peer's SYN.
    pub(crate) fn next(&self) -> u32
        ensures { self.now.connection.receiving.is_open ≡ true → result ≡ self.now.connection.receiving.next }
    {
        self.connection.acknowledgement().ack.unwrap_or(0)
    }
}
