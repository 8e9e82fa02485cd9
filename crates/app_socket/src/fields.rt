//! A socket without enums, to be kept in memory of C.

ghost use Rattle.std.specs.Prelude.{◌≡◌};
ghost use Rattle.app_socket.specs.Fields.{flow_of, socket_of, timers_of};

use crate::flow::{Flow, Timed};
use crate::options::Options;
use crate::socket::Socket;
use crate::timers::Timers;
use crate::undo::Undo;
use app_congestion::{CongestionFields, RtoFields, Scoreboard};
use app_connection::{Connection, ConnectionFields};
use app_options::AgreedFields;

/// A `Socket`.
#[repr(C)]
#[derive(Debug, Clone, Copy)]
pub struct SocketFields {
    connection: ConnectionFields,
    rto: RtoFields,
    timing: Timed,
    congestion: CongestionFields,
    scoreboard: Scoreboard,
    agreed: AgreedFields,
    undo: Undo,
    expired_at: u64,
    sent_at: u64,
    ends_at: u64,
    resend_at: u64,
    ack_at: u64,
    probe_at: u64,
    quiet_until: u64,
    options: Options,
    cursor: u32,
    rescued: u32,
    max_window: u32,
    edge: u32,
    limit: u16,
    resend: bool,
    is_probed: bool,
    has_probe: bool,
    // Whether `timing`, `resend_at` and `ack_at` are used.
    is_timed: bool,
    has_resend: bool,
    has_ack: bool,
}

impl Socket {
    /// Its fields.
    #[inline(always)]
    pub fn fields(&self) -> SocketFields
        ensures { socket_of result ≡ self.now }
    {
        let flow = &self.flow;
        let timers = &self.timers;
        SocketFields {
            connection: self.connection.fields(),
            rto: flow.rto.fields(),
            timing: flow.timing.unwrap_or(Timed { end: 0, sent_at: 0 }),
            congestion: flow.congestion.fields(),
            scoreboard: flow.scoreboard,
            undo: flow.undo,
            agreed: self.agreed.fields(),
            expired_at: flow.expired_at,
            sent_at: flow.sent_at,
            ends_at: timers.ends_at,
            resend_at: timers.resend_at.unwrap_or(0),
            ack_at: timers.ack_at.unwrap_or(0),
            probe_at: timers.probe_at,
            quiet_until: self.quiet_until,
            options: self.options,
            cursor: flow.cursor,
            rescued: flow.rescued,
            max_window: flow.max_window,
            edge: self.edge,
            limit: self.limit,
            resend: flow.resend,
            is_probed: flow.is_probed,
            has_probe: flow.has_probe,
            is_timed: flow.timing.is_some(),
            has_resend: timers.resend_at.is_some(),
            has_ack: timers.ack_at.is_some(),
        }
    }
}

impl SocketFields {
    /// The connection without its timers: to read and write, which moves none.
    #[inline(always)]
    pub fn connection(&self) -> Connection
        ensures { result ≡ (socket_of self.now).connection }
    {
        self.connection.value()
    }

    /// The connection after that.
    #[inline(always)]
    pub fn set_connection(&mut self, connection: &Connection)
        ensures { socket_of self.new ≡ record (socket_of self.old) { connection = connection.now } }
    {
        self.connection = connection.fields();
    }

    /// The value with these fields.
    #[inline(always)]
    pub fn value(&self) -> Socket
        ensures { result ≡ socket_of self.now }
    {
        Socket {
            connection: self.connection.value(),
            options: self.options,
            timers: self.timers(),
            flow: self.flow(),
            edge: self.edge,
            agreed: self.agreed.value(),
            limit: self.limit,
            quiet_until: self.quiet_until,
        }
    }

    #[inline(always)]
    fn timers(&self) -> Timers
        ensures { result ≡ timers_of self.now }
    {
        Timers {
            ends_at: self.ends_at,
            resend_at: if self.has_resend {
                Some(self.resend_at)
            } else {
                None
            },
            ack_at: if self.has_ack {
                Some(self.ack_at)
            } else {
                None
            },
            probe_at: self.probe_at,
        }
    }

    #[inline(always)]
    fn flow(&self) -> Flow
        ensures { result ≡ flow_of self.now }
    {
        Flow {
            rto: self.rto.value(),
            congestion: self.congestion.value(),
            timing: if self.is_timed {
                Some(self.timing)
            } else {
                None
            },
            cursor: self.cursor,
            resend: self.resend,
            scoreboard: self.scoreboard,
            rescued: self.rescued,
            max_window: self.max_window,
            is_probed: self.is_probed,
            has_probe: self.has_probe,
            undo: self.undo,
            expired_at: self.expired_at,
            sent_at: self.sent_at,
        }
    }
}
