//! The state without enums, to be kept in memory of C.

ghost use Rattle.std.specs.Prelude.{◌≡◌};
ghost use Rattle.app_connection.specs.Fields.{connection_of, phase_of};

use crate::connection::Connection;
use crate::state::Phase;
use tcp_stream::{Receiving, Sending};

/// A `Connection`.
#[repr(C)]
#[derive(Debug, Clone, Copy)]
pub struct ConnectionFields {
    sending: Sending,
    receiving: Receiving,
    iss: u32,
    irs: u32,
    wnd: u32,
    wl1: u32,
    wl2: u32,
    phase: u8,
    is_passive: bool,
    is_peer_first: bool,
}

impl Connection {
    /// Its fields.
    #[inline(always)]
    pub fn fields(&self) -> ConnectionFields
        ensures { connection_of result ≡ self.now }
    {
        ConnectionFields {
            sending: self.sending,
            receiving: self.receiving,
            iss: self.iss,
            irs: self.irs,
            wnd: self.wnd,
            wl1: self.wl1,
            wl2: self.wl2,
            phase: number_of(self.phase),
            is_passive: self.is_passive,
            is_peer_first: self.is_peer_first,
        }
    }
}

impl ConnectionFields {
    /// The value with these fields.
    #[inline(always)]
    pub fn value(&self) -> Connection
        ensures { result ≡ connection_of self.now }
    {
        Connection {
            phase: phase_of(self.phase),
            is_passive: self.is_passive,
            iss: self.iss,
            irs: self.irs,
            sending: self.sending,
            receiving: self.receiving,
            wnd: self.wnd,
            wl1: self.wl1,
            wl2: self.wl2,
            is_peer_first: self.is_peer_first,
        }
    }
}

// The number of a phase.
fn number_of(phase: Phase) -> u8
    ensures { phase_of result ≡ phase }
{
    match phase {
        Phase::Closed => 0,
        Phase::Listen => 1,
        Phase::SynSent => 2,
        Phase::SynReceived => 3,
        Phase::Open => 4,
    }
}

// The phase with this number.
fn phase_of(number: u8) -> Phase
    ensures { result ≡ phase_of number }
{
    if number == 0 {
        Phase::Closed
    } else if number == 1 {
        Phase::Listen
    } else if number == 2 {
        Phase::SynSent
    } else if number == 3 {
        Phase::SynReceived
    } else {
        Phase::Open
    }
}
