//! Control flags.

ghost use Rattle.std.specs.Prelude.{◌≡◌, ◌≢◌};
ghost use Rattle.wire_tcp_options.specs.TcpSeq.{control_len};

/// The control flag of a segment, at most one of four (RFC 9293, section 3.1).
#[derive(Debug, Clone, Copy, PartialEq, Eq)]
pub enum TcpControl {
    None,
    /// Push: the receiver passes the data on at once.
    Psh,
    /// Synchronize sequence numbers.
    Syn,
    /// No more data from the sender.
    Fin,
    /// Reset the connection.
    Rst,
}

#[allow(clippy::len_without_is_empty)]
impl TcpControl {
    /// The number of sequence numbers that the flag uses: 1 for SYN and FIN, else 0.
    pub fn len(self) -> usize
        ensures { result ≡ control_len self }
    {
        match self {
            TcpControl::Syn | TcpControl::Fin => 1,
            _ => 0,
        }
    }

    /// `None` for `Psh`; any other control is unchanged.
    pub fn quash_psh(self) -> TcpControl
        ensures psh { self ≡ TcpControl.Psh → result ≡ TcpControl.None }
        ensures other { self ≢ TcpControl.Psh → result ≡ self }
    {
        match self {
            TcpControl::Psh => TcpControl::None,
            _ => self,
        }
    }
}
