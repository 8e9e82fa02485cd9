//! The states of a connection (RFC 9293, section 3.3.2).

ghost use Rattle.std.specs.Prelude.{◌≡◌};
ghost use Rattle.app_connection.specs.States.{state_at};

/// The states.
#[derive(Debug, Clone, Copy, PartialEq, Eq)]
pub enum State {
    Closed,
    Listen,
    SynSent,
    SynReceived,
    Established,
    FinWait1,
    FinWait2,
    CloseWait,
    Closing,
    LastAck,
    TimeWait,
}

// How far the set-up has come. The states after it follow from the two halves.
#[derive(Debug, Clone, Copy, PartialEq, Eq)]
pub(crate) enum Phase {
    Closed,
    Listen,
    SynSent,
    SynReceived,
    Open,
}

/// The state of a connection that was established. `closed`: the application has closed. `fin_acked`: the peer has
/// acknowledged our FIN. `fin_came`: its FIN came. `peer_first`: that was before the application closed.
pub(crate) fn state_of(closed: bool, fin_acked: bool, fin_came: bool, peer_first: bool) -> State
    ensures { result ≡ state_at closed fin_acked fin_came peer_first }
{
    if !closed {
        return if fin_came {
            State::CloseWait
        } else {
            State::Established
        };
    }
    if !fin_came {
        return if fin_acked {
            State::FinWait2
        } else {
            State::FinWait1
        };
    }
    if fin_acked {
        return if peer_first {
            State::Closed
        } else {
            State::TimeWait
        };
    }
    if peer_first {
        State::LastAck
    } else {
        State::Closing
    }
}
