//! The connection, and the calls of its application (RFC 9293, sections 3.10.1 to 3.10.5).

ghost use Rattle.std.specs.Prelude.{◌≡◌, ◌==◌, ◌&&◌, ◌∷◌, not, ◌+◌, ◌%◌, ◌≤◌, ◌<◌, ◌++◌, ◌⊎◌, ℕ, List, [], length, true, false, IfSome, Some, None, max, take, option_map, MatchOption};
ghost use Rattle.tcp_stream.specs.Endpoint.{Syn};
ghost use Rattle.tcp_stream.specs.Network.{World, Event, Close, happens, run, start, IsPrefixOf};
ghost use Rattle.tcp_stream.specs.Ranges.{blocks_of, is_none};
ghost use Rattle.tcp_stream.specs.Stands.{AreTold, Stands, room_of, IsAnswer};
ghost use Rattle.tcp_stream.specs.Waits.{Waits, from_of, unsent_of, count_of};
ghost use Rattle.tcp_stream.specs.Items.{items_of};
ghost use Rattle.app_connection.specs.declared.state.Phase.TheVariants.{Closed, SynSent, Open, SynReceived};
ghost use Rattle.app_connection.specs.SetUp.{In_closed, In_listen, In_syn_sent};
ghost use Rattle.app_connection.specs.Endpoints.{endpoint_of, len_of, spoken, OutFits, InFits, IsLegal, acknowledgement_of, edge_of};
ghost use Rattle.app_connection.specs.Sequence.{after};
ghost use Rattle.app_connection.specs.States.{state_from, state_closed, may_close, has_peer};
ghost use Rattle.app_connection.specs.Steps.{IsFresh, Reads, Writes, first};
ghost use Rattle.app_connection.specs.Worlds.{Goes, IsOut, Stand, TellsState, replied, said};
ghost use Rattle.app_connection.specs.Promises.{ChangesOnlyNext, GoesFrom, HasNoText, IsAnswerOf, IsCut, IsEventSend};

use crate::segment::{Reply, Segment};
use crate::state::{Phase, State, state_of};
use tcp_stream::{Blocks, Receiving, Sending};

/// One end of a connection. Its bytes are in two rings of the caller's, each of less than 2^30 bytes.
#[derive(Debug, Clone, Copy)]
pub struct Connection {
    pub(crate) phase: Phase,
    // Whether SYN-RECEIVED was reached from LISTEN.
    pub(crate) is_passive: bool,
    // ISS and IRS
    pub(crate) iss: u32,
    pub(crate) irs: u32,
    pub(crate) sending: Sending,
    pub(crate) receiving: Receiving,
    // SND.WND, SND.WL1 and SND.WL2
    pub(crate) wnd: u32,
    pub(crate) wl1: u32,
    pub(crate) wl2: u32,
    // Whether the peer's FIN came before the application closed.
    pub(crate) is_peer_first: bool,
}

impl Connection {
    /// In CLOSED.
    pub fn new() -> Connection
        ensures endpoint { endpoint_of result ≡ In_closed }
        ensures out { (size : ℕ) → 0 < size → size < 1073741824 → OutFits result.sending size }
        ensures rings { (size : ℕ) → 0 < size → size < 1073741824 → InFits result.receiving size }
        ensures stands { (buffer : List ℕ) → Stands (start 0) [] result.receiving buffer }
    {
        Connection {
            phase: Phase::Closed,
            is_passive: false,
            iss: 0,
            irs: 0,
            sending: Sending::new(0),
            receiving: Receiving::new(),
            wnd: 0,
            wl1: 0,
            wl2: 0,
            is_peer_first: false,
        }
    }

    /// Its state.
    pub fn state(&self) -> State
        ensures value { result ≡ state_from self.now }
        ensures tells { (there back : World) (consumed outgoing incoming : List ℕ)
            → Stand there back consumed self.now outgoing incoming → TellsState result there back }
    {
        match self.phase {
            Phase::Closed => State::Closed,
            Phase::Listen => State::Listen,
            Phase::SynSent => State::SynSent,
            Phase::SynReceived => State::SynReceived,
            Phase::Open => state_of(
                self.sending.is_closed(),
                !self.sending.has_fin(),
                self.receiving.has_fin(),
                self.is_peer_first,
            ),
        }
    }

    /// How many bytes the peer has room for from SND.UNA on (SND.WND).
    pub fn window(&self) -> u32
        ensures { result ≡ self.now.wnd }
    {
        self.wnd
    }

    /// The oldest number that the peer has not acknowledged (SND.UNA).
    pub fn una(&self) -> u32
        ensures { result ≡ self.now.sending.una }
    {
        self.sending.una()
    }

    /// How many numbers were sent and not acknowledged (SND.NXT - SND.UNA), with those of a SYN and a FIN.
    pub fn flight(&self) -> u32
        ensures { result ≡ self.now.sending.flight }
    {
        self.sending.flight()
    }

    /// How many items after SND.NXT wait in the ring: bytes and a FIN.
    pub fn unsent(&self) -> usize
        ensures { (size : ℕ) → OutFits self.now.sending size → result ≡ unsent_of self.now.sending }
    {
        self.sending.unsent()
    }

    /// Whether the rings have sizes that fit: what other calls require, of the rings that they always get.
    pub fn fits(&self, outgoing: usize, incoming: usize) -> bool
        ensures out { result ≡ true → OutFits self.now.sending outgoing }
        ensures rings { result ≡ true → InFits self.now.receiving incoming }
        ensures all { OutFits self.now.sending outgoing → InFits self.now.receiving incoming → result ≡ true }
    {
        self.fits_outgoing(outgoing) && self.fits_incoming(incoming)
    }

    /// Whether the ring of what is sent has a size that fits.
    pub fn fits_outgoing(&self, outgoing: usize) -> bool
        ensures some { result ≡ true → OutFits self.now.sending outgoing }
        ensures all { OutFits self.now.sending outgoing → result ≡ true }
    {
        self.sending.fits(outgoing)
    }

    /// Whether the ring of what comes has a size that fits.
    pub fn fits_incoming(&self, incoming: usize) -> bool
        ensures some { result ≡ true → InFits self.now.receiving incoming }
        ensures all { InFits self.now.receiving incoming → result ≡ true }
    {
        self.receiving.fits(incoming)
    }

    /// The passive open: CLOSED becomes LISTEN. Another state stays.
    pub fn listen(&mut self)
        ensures sending { self.new.sending ≡ self.old.sending }
        ensures receiving { self.new.receiving ≡ self.old.receiving }
        ensures listens { state_from self.old ≡ State.Closed → endpoint_of self.new ≡ In_listen }
        ensures moves { (endpoint_of self.new ≡ endpoint_of self.old) ⊎ (endpoint_of self.new ≡ In_listen) }
        ensures stays { (state_from self.old ≡ State.Closed → ⊥) → self.new ≡ self.old }
    {
        if self.state() == State::Closed {
            self.phase = Phase::Listen;
        }
    }

    /// The active open, with a fresh initial number (ISS, RFC 6528): CLOSED or LISTEN becomes SYN-SENT. Returns the SYN.
    pub fn open(&mut self, outgoing: &[u8], iss: u32) -> Option<Reply>
        requires some { 0 < length outgoing.now }
        requires small { length outgoing.now < 1073741824 }
        ensures opens { has_peer (state_from self.old) ≡ false → endpoint_of self.new ≡ In_syn_sent iss }
        ensures syn { has_peer (state_from self.old) ≡ false
            → result ≡ Some (record { number = iss; ack = None; syn = true; rst = false }) }
        ensures out { has_peer (state_from self.old) ≡ false → OutFits self.new.sending (length outgoing.now) }
        ensures rings { has_peer (state_from self.old) ≡ false → (size : ℕ) → 0 < size → size < 1073741824
            → InFits self.new.receiving size }
        ensures begins { has_peer (state_from self.old) ≡ false → (back : World) (buffer : List ℕ) → IsFresh back
            → Goes (first iss) back [] self.new outgoing.now buffer (option_map replied result) }
        ensures stays { has_peer (state_from self.old) ≡ true → self.new ≡ self.old }
        ensures none { has_peer (state_from self.old) ≡ true → result ≡ None }
    {
        match self.state() {
            State::Closed | State::Listen => {
                self.begin(outgoing, iss);
                self.phase = Phase::SynSent;
                Some(Reply {
                    number: iss,
                    ack: None,
                    syn: true,
                    rst: false,
                })
            }
            _ => None,
        }
    }

    /// Takes bytes of the application, as far as the ring has room, also before the connection is established. Returns how many:
    /// 0 in CLOSED, LISTEN and after `close`.
    pub fn write(&mut self, outgoing: &mut [u8], bytes: &[u8]) -> usize
        requires { OutFits self.old.sending (length outgoing.old) }
        ensures few { result ≤ length bytes.now }
        ensures out { OutFits self.new.sending (length outgoing.old) }
        ensures receiving { self.new.receiving ≡ self.old.receiving }
        ensures endpoint { endpoint_of self.new ≡ endpoint_of self.old }
        ensures writes { Writes self.old self.new outgoing.old outgoing.new (take result bytes.now) }
        ensures none { has_peer (state_from self.old) ≡ false → result ≡ 0 }
        ensures flight { self.new.sending.flight ≡ self.old.sending.flight }
    {
        match self.state() {
            State::Closed | State::Listen => 0,
            _ => self.sending.write(outgoing, bytes),
        }
    }

    /// The next bytes for the application, at most `count`, and none in LISTEN. They end at the end of the ring: then the next
    /// call has the others.
    pub fn read<'a>(&mut self, incoming: &'a [u8], count: usize) -> &'a [u8]
        requires { InFits self.old.receiving (length incoming.now) }
        ensures rings { InFits self.new.receiving (length incoming.now) }
        ensures sending { self.new.sending ≡ self.old.sending }
        ensures endpoint { endpoint_of self.new ≡ endpoint_of self.old }
        ensures few { length result.now ≤ count }
        ensures edge { self.old.receiving.has_fin ≡ false → edge_of self.new.receiving (length incoming.now)
            ≡ (edge_of self.old.receiving (length incoming.now) + length result.now) % 4294967296 }
        ensures reads { Reads self.old self.new incoming.now result.now }
        ensures delivers { (initial : ℕ) (events : List Event) (consumed : List ℕ)
            → let back : World = run events (start initial) in Stands back consumed self.old.receiving incoming.now
            → IsPrefixOf (consumed ++ result.now) back.written }
    {
        let count = self.readable(count);
        self.receiving.read(incoming, count)
    }

    // How many of so many bytes may be read: none in LISTEN, where what came belongs to an earlier connection.
    fn readable(&self, count: usize) -> usize
        ensures { result ≤ count }
    {
        if self.phase == Phase::Listen {
            0
        } else {
            count
        }
    }

    /// Whether the application has read all that the peer wrote, and the peer has closed.
    pub fn is_ended(&self) -> bool
        ensures value { result ≡ (self.now.receiving.has_fin && self.now.receiving.len == 0) }
        ensures whole { (initial : ℕ) (events : List Event) (consumed buffer : List ℕ) → result ≡ true
            → let back : World = run events (start initial) in Stands back consumed self.now.receiving buffer
            → (back.closed ≡ true) × (consumed ≡ back.written) }
    {
        self.receiving.is_ended()
    }

    /// The application writes no more. LISTEN and SYN-SENT become CLOSED, ESTABLISHED FIN-WAIT-1, CLOSE-WAIT LAST-ACK; in
    /// SYN-RECEIVED the FIN waits until the connection is established. The FIN goes out by `send`.
    pub fn close(&mut self)
        ensures receiving { self.new.receiving ≡ self.old.receiving }
        ensures out { (size : ℕ) → OutFits self.old.sending size → OutFits self.new.sending size }
        ensures state { state_from self.new ≡ state_closed (state_from self.old) }
        ensures moves { (endpoint_of self.new ≡ endpoint_of self.old) ⊎ (endpoint_of self.new ≡ In_closed) }
        ensures same { self.new ≡ record self.old {
          phase = self.new.phase;
          sending = self.new.sending;
          is_peer_first = self.new.is_peer_first;
        } }
        ensures phase { (self.new.phase ≡ Closed → ⊥)
            → (self.new.phase ≡ self.old.phase) × (self.new.phase ≡ SynSent → ⊥) }
        ensures flight { self.new.sending.flight ≡ self.old.sending.flight }
        ensures waits { may_close (state_from self.old) ≡ true → (there : World) (outgoing : List ℕ)
            → Waits there self.old.sending outgoing → Waits (happens there Close) self.new.sending outgoing }
        ensures stays { may_close (state_from self.old) ≡ false → self.new.sending ≡ self.old.sending }
    {
        match self.state() {
            State::Listen | State::SynSent => self.phase = Phase::Closed,
            State::SynReceived | State::Established | State::CloseWait => {
                self.is_peer_first = self.receiving.has_fin();
                self.sending.close();
            }
            _ => {}
        }
    }

    /// Gives the connection up: CLOSED. Returns a RST for the peer if there may be one.
    pub fn abort(&mut self) -> Option<Reply>
        ensures endpoint { endpoint_of self.new ≡ In_closed }
        ensures sending { self.new.sending ≡ self.old.sending }
        ensures receiving { self.new.receiving ≡ self.old.receiving }
        ensures reset { IfSome result (λ r. r.rst ≡ true) }
        ensures syn { IfSome result (λ r. r.syn ≡ false) }
    {
        let state = self.state();
        self.phase = Phase::Closed;
        match state {
            State::SynReceived
            | State::Established
            | State::FinWait1
            | State::FinWait2
            | State::CloseWait => Some(Reply::reset(self.sending.next())),
            _ => None,
        }
    }

    /// The next segment to send or to send again, from `offset` after SND.UNA on, with at most `count` bytes; a FIN counts as
    /// one. Before the connection is established it is the SYN. `None`: there is nothing, or `offset` is after SND.NXT. The caller
    /// keeps to the window.
    pub fn send<'a>(
        &mut self,
        outgoing: &'a [u8],
        incoming: usize,
        offset: usize,
        count: usize,
    ) -> Option<Segment<'a>>
        requires out { OutFits self.old.sending (length outgoing.now) }
        requires rings { InFits self.old.receiving incoming }
        ensures out { OutFits self.new.sending (length outgoing.now) }
        ensures receiving { self.new.receiving ≡ self.old.receiving }
        ensures endpoint { endpoint_of self.new ≡ endpoint_of self.old }
        ensures set_up { (self.old.phase ≡ Open → ⊥)
            → IfSome result (λ s. IsLegal (endpoint_of self.old) (record {
              number = s.number;
              ack = s.ack;
              syn = s.syn;
              rst = s.rst;
            })) }
        ensures text { (self.old.phase ≡ Open → ⊥) → HasNoText result }
        ensures after { self.old.phase ≡ Open → self.old.sending.flight < offset
            → (result ≡ None) × (self.new ≡ self.old) }
        ensures sends { self.old.phase ≡ Open
            → IfSome result (λ s. IsCut self.old.sending outgoing.now (from_of self.old.sending offset) s) }
        ensures alone { has_peer (state_from self.old) ≡ false → (result ≡ None) × (self.new ≡ self.old) }
        ensures goes { GoesFrom self.old self.new outgoing.now (option_map said result) }
        ensures answers { self.old.phase ≡ Open → IfSome result (λ s. IsAnswerOf self.old.receiving s.ack) }
        ensures same { ChangesOnlyNext self.old self.new }
        ensures syn { self.old.phase ≡ SynSent
            → spoken result ≡ Some (record { number = self.old.iss; ack = None; syn = true; rst = false }) }
        ensures syn_ack { self.old.phase ≡ SynReceived → spoken result
            ≡ Some (record { number = self.old.iss; ack = Some (after self.old.irs); syn = true; rst = false }) }
        ensures some { self.old.phase ≡ Open → has_peer (state_from self.old) ≡ true → 0 < count
            → offset ≤ self.old.sending.flight → offset < count_of self.old.sending
            → MatchOption result ⊥ (λ s. 0 < len_of s) }
        ensures at_una { self.old.phase ≡ Open → offset ≡ 0 → IfSome result (λ s. s.number ≡ self.old.sending.una) }
        ensures sent { self.old.phase ≡ Open → IfSome result
            (λ s. IsEventSend self.old.sending self.new.sending outgoing.now (from_of self.old.sending offset) s) }
        ensures none { result ≡ None → self.new ≡ self.old }
        ensures nothing { self.old.phase ≡ Open → count_of self.old.sending ≡ 0 → result ≡ None }
        ensures items { self.old.phase ≡ Open → IfSome result (λ s. 0 < len_of s) }
        ensures inner { self.old.phase ≡ Open → IfSome result (λ s. length s.payload.now ≤ length outgoing.now) }
        ensures rst { IfSome result (λ s. s.rst ≡ false) }
        ensures flight { self.old.phase ≡ Open → IfSome result (λ s. self.new.sending.flight
            ≡ max self.old.sending.flight (from_of self.old.sending offset + length
            (items_of s.syn s.payload.now s.fin))) }
        ensures reach { self.old.phase ≡ Open → IfSome result
            (λ s. (s.number ≡ (self.old.sending.una + from_of self.old.sending offset) % 4294967296)
            × (len_of s ≤ max 1 count)) }
    {
        match self.state() {
            State::Closed | State::Listen => None,
            State::SynSent => Some(self.set_up(outgoing, incoming, None)),
            State::SynReceived => Some(self.set_up(
                outgoing,
                incoming,
                Some(self.irs.wrapping_add(1)),
            )),
            _ if offset > self.sending.flight() as usize => None,
            _ if self.sending.has_next(offset, count) => self.cut(
                outgoing, incoming, offset, count,
            ),
            _ => None,
        }
    }

    // The SYN, with this acknowledgement.
    fn set_up<'a>(&self, outgoing: &'a [u8], incoming: usize, ack: Option<u32>) -> Segment<'a>
        requires { InFits self.now.receiving incoming }
        ensures number { result.number ≡ self.now.iss }
        ensures ack { result.ack ≡ ack }
        ensures syn { result.syn ≡ true }
        ensures rst { result.rst ≡ false }
        ensures text { result.payload.now ≡ [] }
        ensures fin { result.fin ≡ false }
    {
        Segment {
            number: self.iss,
            ack,
            window: self.room(incoming),
            syn: true,
            rst: false,
            fin: false,
            payload: &outgoing[..0],
        }
    }

    // The segment from an item on, with what is acknowledged.
    fn cut<'a>(
        &mut self,
        outgoing: &'a [u8],
        incoming: usize,
        offset: usize,
        count: usize,
    ) -> Option<Segment<'a>>
        requires out { OutFits self.old.sending (length outgoing.now) }
        requires rings { InFits self.old.receiving incoming }
        ensures out { OutFits self.new.sending (length outgoing.now) }
        ensures receiving { self.new.receiving ≡ self.old.receiving }
        ensures endpoint { endpoint_of self.new ≡ endpoint_of self.old }
        ensures sends { IfSome result (λ s. IsCut self.old.sending outgoing.now (from_of self.old.sending offset) s) }
        ensures goes { self.old.phase ≡ Open → GoesFrom self.old self.new outgoing.now (option_map said result) }
        ensures answers { IfSome result (λ s. IsAnswerOf self.old.receiving s.ack) }
        ensures same { ChangesOnlyNext self.old self.new }
        ensures some { 0 < count → offset < count_of self.old.sending → MatchOption result ⊥ (λ s. 0 < len_of s) }
        ensures at_una { offset ≡ 0 → IfSome result (λ s. s.number ≡ self.old.sending.una) }
        ensures sent { IfSome result
            (λ s. IsEventSend self.old.sending self.new.sending outgoing.now (from_of self.old.sending offset) s) }
        ensures none { result ≡ None → self.new ≡ self.old }
        ensures items { IfSome result (λ s. 0 < len_of s) }
        ensures inner { IfSome result (λ s. length s.payload.now ≤ length outgoing.now) }
        ensures rst { IfSome result (λ s. s.rst ≡ false) }
        ensures flight { IfSome result (λ s. self.new.sending.flight ≡ max self.old.sending.flight
            (from_of self.old.sending offset + length (items_of s.syn s.payload.now s.fin))) }
        ensures reach { IfSome result
            (λ s. (s.number ≡ (self.old.sending.una + from_of self.old.sending offset) % 4294967296)
            × (len_of s ≤ max 1 count)) }
    {
        let part = self.sending.segment(outgoing, offset, count);
        if !part.syn && part.payload.is_empty() && !part.fin {
            return None;
        }
        Some(Segment {
            number: part.number,
            ack: self.receiving.next(),
            window: self.room(incoming),
            syn: part.syn,
            rst: false,
            fin: part.fin,
            payload: part.payload,
        })
    }

    /// An acknowledgement of all that came, in a state that has one.
    pub fn acknowledgement(&self) -> Reply
        ensures syn { result.syn ≡ false }
        ensures rst { result.rst ≡ false }
        ensures value { result ≡ acknowledgement_of self.now }
        ensures legal { (back : World) (consumed buffer : List ℕ) → Stands back consumed self.now.receiving buffer
            → IfSome result.ack (λ number. IsAnswer back number) }
    {
        Reply {
            number: self.sending.next(),
            ack: self.receiving.next(),
            syn: false,
            rst: false,
        }
    }

    /// The SACK blocks of what is kept after gaps: the numbers of the first byte, and after the last one (RFC 2018,
    /// section 3). The first one has the newest bytes, and the others are the lowest (section 4). There are at most three.
    pub fn blocks(&self) -> Blocks
        ensures value { result
            ≡ blocks_of self.now.receiving.ranges self.now.receiving.next self.now.receiving.newest }
        ensures legal { (back : World) (consumed buffer : List ℕ) → Stands back consumed self.now.receiving buffer
            → AreTold back result }
    {
        self.receiving.blocks()
    }

    /// Whether bytes of the peer are kept after a gap.
    pub fn has_gap(&self) -> bool
        ensures { result ≡ not (is_none self.now.receiving.ranges) }
    {
        self.receiving.has_gap()
    }

    /// How many bytes there is room for (RCV.WND).
    pub fn room(&self, incoming: usize) -> u32
        requires { InFits self.now.receiving incoming }
        ensures { result ≡ room_of self.now.receiving incoming }
    {
        self.receiving.room(incoming) as u32
    }

    // Begins to send at this initial number; its SYN is sent.
    pub(crate) fn begin(&mut self, outgoing: &[u8], iss: u32)
        requires some { 0 < length outgoing.now }
        requires small { length outgoing.now < 1073741824 }
        ensures phase { self.new.phase ≡ self.old.phase }
        ensures iss { self.new.iss ≡ iss }
        ensures out { OutFits self.new.sending (length outgoing.now) }
        ensures rings { (size : ℕ) → 0 < size → size < 1073741824 → InFits self.new.receiving size }
        ensures waits { Waits (first iss) self.new.sending outgoing.now }
        ensures sent { IsOut (first iss) iss (Syn ∷ []) }
        ensures begins { (back : World) (buffer : List ℕ) → IsFresh back → Stands back [] self.new.receiving buffer }
        ensures shut { self.new.receiving.is_open ≡ false }
    {
        self.iss = iss;
        self.is_peer_first = false;
        self.wnd = 0;
        self.sending = Sending::new(iss);
        self.receiving = Receiving::new();
        let _ = self.sending.segment(outgoing, 0, 1);
    }
}
