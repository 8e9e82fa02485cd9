//! What is remembered while a segment is taken.

ghost use Rattle.std.specs.Prelude.{◌≡◌, ◌+◌, ◌&&◌, true, not, nat_le, min};
ghost use Rattle.tcp_stream.specs.Endpoint.{distance};
ghost use Rattle.tcp_stream.specs.Stands.{room_of};
ghost use Rattle.app_connection.specs.Endpoints.{InFits};
ghost use Rattle.app_connection.specs.States.{state_from};
ghost use Rattle.app_socket.specs.Resends.{IsDuplicate};

use crate::socket::Socket;
use app_connection::{Segment, State};
use wire_tcp_options::TcpOptionSummary;

// What a connection was before the segment.
#[derive(Debug, Clone, Copy)]
pub(crate) struct Before {
    pub(crate) state: State,
    pub(crate) una: u32,
    pub(crate) flight: u32,
    pub(crate) window: u32,
    // RCV.NXT and RCV.WND
    pub(crate) next: u32,
    pub(crate) room: u32,
    // Whether something was kept after a gap.
    pub(crate) has_gap: bool,
}

impl Before {
    // Whether the segment is near what is expected.
    pub(crate) fn is_near(&self, segment: &Segment) -> bool
        ensures { result ≡ (not segment.now.rst && nat_le (distance segment.now.number self.now.next)
            (min 4294967295 (self.now.room + 1))) }
    {
        !segment.rst && segment.number.wrapping_sub(self.next) <= self.room.saturating_add(1)
    }

    // Whether it is taken with its SACK option.
    pub(crate) fn has_sack(&self, segment: &Segment, options: &TcpOptionSummary) -> bool {
        self.is_near(segment)
            && !segment.syn
            && segment.ack.is_some()
            && options.sack_ranges[0].is_some()
    }

    // Whether it is a duplicate acknowledgement (RFC 5681, section 2), or has a SACK block, also with text (RFC 6675, section 2).
    // One with a closed window answers a probe.
    pub(crate) fn is_duplicate(&self, segment: &Segment, has_sack: bool) -> bool
        ensures { IsDuplicate self.now.una self.now.flight self.now.window self.now.next self.now.room segment.now
            → result ≡ true }
    {
        let is_bare = segment.payload.is_empty() && !segment.fin && segment.window == self.window;
        self.flight > 0
            && self.window > 0
            && self.is_near(segment)
            && !segment.syn
            && segment.ack == Some(self.una)
            && (is_bare || has_sack)
    }
}

impl Socket {
    // What it is now.
    pub(crate) fn before(&self, incoming: usize) -> Before
        requires { InFits self.now.connection.receiving incoming }
        ensures state { result.state ≡ state_from self.now.connection }
        ensures next { self.now.connection.receiving.is_open ≡ true → result.next ≡ self.now.connection.receiving.next }
        ensures una { result.una ≡ self.now.connection.sending.una }
        ensures flight { result.flight ≡ self.now.connection.sending.flight }
        ensures window { result.window ≡ self.now.connection.wnd }
        ensures room { result.room ≡ room_of self.now.connection.receiving incoming }
    {
        Before {
            state: self.connection.state(),
            una: self.connection.una(),
            flight: self.connection.flight(),
            window: self.connection.window(),
            next: self.next(),
            room: self.connection.room(incoming),
            has_gap: self.connection.has_gap(),
        }
    }
}
