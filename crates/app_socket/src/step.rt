//! One call for everything that can happen.

ghost use Rattle.std.specs.Prelude.{[], false, ◌≡◌, ◌≤◌, is_some, length, Some, None};
ghost use Rattle.app_connection.specs.Endpoints.{OutFits, InFits};
ghost use Rattle.app_connection.specs.States.{has_peer, state_from};
ghost use Rattle.app_socket.specs.Events.{IsShort, IsTick, IsQuiet};
ghost use Rattle.app_socket.specs.Resends.{Connects, ConnectsBy};
ghost use Rattle.app_socket.specs.Times.{later, patience_of};
ghost use Rattle.app_connection.specs.Promises.{HasNoText};
ghost use Rattle.app_socket.specs.Promises.{AcknowledgesInTime, AcknowledgesReceived, AdvertisesWindow, AnswersBare, AnswersStale, BeginsSound, Continues, DropsStale, EndsBySilence, EndsNoLater, HasShortText, HearsTimestamp, HoldsAnswers, IsOpen, IsPatient, KeepsRecent, KeepsRoom, LearnsFrom, LimitsAnswers, OwesAck, OwesNoAck, ResendsInTime, ResendsSyn, RestsUntilDue, SendsStream, SendsWithin, StaysIdle, StaysOpen, TakesText, StepsBy};
ghost use Rattle.app_socket.specs.Replies.{RepliesToItems};

use crate::socket::Socket;
use crate::tick::has_peer;
use app_connection::{Event as Move, Segment};
use app_options::Agreed;
use wire_tcp_options::TcpOptionSummary;

/// What can happen.
#[derive(Debug, Clone, Copy)]
pub enum Event<'s> {
    /// The application waits for a peer.
    Listen,
    /// The application opens, with a fresh number (ISS, RFC 6528).
    Open(u32),
    /// A segment arrives, with its window as in the header, and its options; the number is a fresh one.
    Arrives(&'s Segment<'s>, &'s TcpOptionSummary, u32),
    /// The application closes.
    Close,
    /// The application gives up.
    Abort,
    /// Time passes, or the application wrote or read.
    Tick,
}

impl Socket {
    /// One event at the time `now`. Returns the segment to send, if any.
    pub fn step<'a>(
        &mut self,
        outgoing: &'a [u8],
        incoming: &mut [u8],
        now: u64,
        event: Event,
    ) -> Option<Segment<'a>>
        requires text { IsShort event }
        requires out { OutFits self.old.connection.sending (length outgoing.now) }
        requires rings { InFits self.old.connection.receiving (length incoming.old) }
        ensures out { OutFits self.new.connection.sending (length outgoing.now) }
        ensures rings { InFits self.new.connection.receiving (length incoming.old) }
        ensures steps { Continues self.old self.new outgoing.now incoming.old incoming.new now event.entry result }
        ensures ends { IsTick event.entry → EndsBySilence self.old self.new now }
        ensures idle { IsTick event.entry → StaysIdle self.old self.new }
        ensures later { IsQuiet event.entry → EndsNoLater self.old self.new }
        ensures tells { AdvertisesWindow self.old self.new (length incoming.old) result }
        ensures keeps { KeepsRoom self.old self.new (length incoming.old) }
        ensures text { (IsTick event.entry → ⊥) → HasNoText result }
        ensures short { IsTick event.entry → HasShortText result }
        ensures sends { SendsStream self.old outgoing.now result }
        ensures answers { AcknowledgesReceived self.old self.new incoming.new result }
        ensures stale { DropsStale self.old self.new now event.entry }
        ensures answered { AnswersStale self.old now event.entry result }
        ensures within { SendsWithin self.old self.new result }
        ensures acks { OwesNoAck self.old self.new result }
        ensures owes { OwesAck self.old self.new now event.entry result }
        ensures replies { RepliesToItems self.old self.new now event.entry result }
        ensures to_bare { AnswersBare self.old self.new (length incoming.old) now event.entry result }
        ensures held { HoldsAnswers self.old self.new now event.entry result }
        ensures quiet { LimitsAnswers self.old self.new now event.entry result }
        ensures recent { KeepsRecent self.old self.new now }
        ensures timestamp { HearsTimestamp event.entry self.old self.new now }
        ensures patience { IsPatient self.old self.new now }
        ensures begins { BeginsSound self.old self.new event.entry }
        ensures stays { StaysOpen self.old self.new event.entry }
        ensures gets { TakesText self.old self.new incoming.old incoming.new now event.entry }
        ensures learns { LearnsFrom self.old self.new outgoing.now (length incoming.old) now event.entry }
        ensures connects { ConnectsBy event.entry self.old self.new now }
        ensures resends { IsTick event.entry → ResendsInTime self.old self.new outgoing.now now result }
        ensures acknowledges { IsTick event.entry → AcknowledgesInTime self.old (length incoming.old) now result }
        ensures again { IsTick event.entry → ResendsSyn self.old self.new now result }
        ensures rests { IsTick event.entry → RestsUntilDue self.new now result }
    {
        match event {
            Event::Tick => self.tick(outgoing, incoming, now),
            Event::Arrives(segment, options, fresh) => {
                self.on_arrival(outgoing, incoming, now, segment, options, fresh)
            }
            Event::Open(iss) => self.open(outgoing, incoming, now, iss),
            Event::Listen => {
                let _ = self.connection.step(outgoing, incoming, Move::Listen);
                None
            }
            Event::Close => {
                let _ = self.connection.step(outgoing, incoming, Move::Close);
                None
            }
            Event::Abort => self.connection.step(outgoing, incoming, Move::Abort),
        }
    }

    // The active open.
    fn open<'a>(
        &mut self,
        outgoing: &'a [u8],
        incoming: &mut [u8],
        now: u64,
        iss: u32,
    ) -> Option<Segment<'a>>
        requires out { OutFits self.old.connection.sending (length outgoing.now) }
        requires rings { InFits self.old.connection.receiving (length incoming.old) }
        ensures out { OutFits self.new.connection.sending (length outgoing.now) }
        ensures rings { InFits self.new.connection.receiving (length incoming.old) }
        ensures connects { has_peer (state_from self.old.connection) ≡ false → Connects self.new now }
        ensures none { IsOpen self.old → result ≡ None }
        ensures stays { IsOpen self.old → self.new ≡ self.old }
        ensures text { HasNoText result }
        ensures patience { IsPatient self.old self.new now }
        ensures steps { StepsBy self.old self.new outgoing.now incoming.old incoming.new (Move.Open iss) result }
    {
        if has_peer(self.connection.state()) {
            return None;
        }
        let syn = self.connection.step(outgoing, incoming, Move::Open(iss));
        if syn.is_some() {
            self.begin(now, iss);
            self.agreed = Agreed::new(iss);
            self.limit = self.options.most();
        }
        syn
    }

    // The SYN with this number goes out.
    pub(crate) fn begin(&mut self, now: u64, iss: u32)
        ensures same { self.new ≡ record self.old { timers = self.new.timers; flow = self.new.flow } }
        ensures timer { self.new.timers.resend_at ≡ Some (later now 1000) }
        ensures timeout { self.new.flow.rto.timeout ≡ 1000 }
        ensures ends_at { self.new.timers.ends_at ≡ later now 180000 }
        ensures patience { self.new.timers.ends_at ≤ later now (patience_of self.old.options) }
    {
        self.flow.begin(iss.wrapping_add(1), now);
        self.timers.begin(now, self.flow.timeout());
    }
}
