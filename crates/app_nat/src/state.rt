//! The state of a TCP connection, as far as a NAT sees it (RFC 5382, section 5).

ghost use Rattle.std.specs.Prelude.{◌≡◌};
ghost use Rattle.app_nat.specs.State.{byte_of, ends_connection, next_state, protocol_of, state_of};

use ip_wire::TcpControl;

/// A protocol whose ports a NAT translates. Each has its own mappings. The identifier of an ICMP echo
/// message counts as a port (RFC 5508, section 3.1).
#[derive(Debug, Clone, Copy, PartialEq, Eq)]
pub enum Protocol {
    Udp,
    Tcp,
    Icmp,
}

/// What a NAT sees of a packet: its protocol, and the flags of a TCP segment.
#[derive(Debug, Clone, Copy, PartialEq, Eq)]
pub enum Event {
    Udp,
    Tcp(TcpControl),
    Icmp,
}

impl Event {
    /// The protocol of the packet.
    pub fn protocol(self) -> Protocol
        ensures { result ≡ protocol_of self }
    {
        match self {
            Event::Udp => Protocol::Udp,
            Event::Tcp(_) => Protocol::Tcp,
            Event::Icmp => Protocol::Icmp,
        }
    }

    // Returns `true` for a TCP segment with FIN or RST.
    pub(crate) fn ends_connection(self) -> bool
        ensures { result ≡ ends_connection self }
    {
        matches!(self, Event::Tcp(TcpControl::Fin | TcpControl::Rst))
    }
}

/// The state of a TCP mapping. It decides the time-out.
#[derive(Debug, Clone, Copy, PartialEq, Eq)]
pub enum TcpState {
    /// The connection is being opened, or an RST was seen: the transitory time-out applies.
    Opening,
    /// The inside host sent a segment without SYN, FIN and RST.
    Established,
    /// A FIN was seen: the transitory time-out applies, until the inside host sends SYN.
    Closing,
}

impl TcpState {
    // The state that this byte stands for.
    pub(crate) fn of(byte: u8) -> TcpState
        ensures { result ≡ state_of byte }
    {
        if byte == 1 {
            TcpState::Established
        } else if byte == 2 {
            TcpState::Closing
        } else {
            TcpState::Opening
        }
    }

    // The byte of this state.
    pub(crate) fn byte(self) -> u8
        ensures { result ≡ byte_of self }
    {
        match self {
            TcpState::Opening => 0,
            TcpState::Established => 1,
            TcpState::Closing => 2,
        }
    }

    /// The state after a packet of the inside host. `shared`: the mapping serves more than one
    /// remote endpoint.
    pub fn next(self, shared: bool, event: Event) -> TcpState
        ensures { result ≡ next_state shared self event }
    {
        let Event::Tcp(control) = event else {
            return self;
        };
        match control {
            TcpControl::Syn if shared && self == TcpState::Established => TcpState::Established,
            TcpControl::Syn => TcpState::Opening,
            TcpControl::Fin | TcpControl::Rst if shared => self,
            TcpControl::Rst if self != TcpState::Closing => TcpState::Opening,
            TcpControl::Fin | TcpControl::Rst => TcpState::Closing,
            _ if !shared && self == TcpState::Closing => TcpState::Closing,
            _ => TcpState::Established,
        }
    }
}
