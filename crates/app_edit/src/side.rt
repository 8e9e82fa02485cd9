//! The two ends of a packet.

ghost use Rattle.std.specs.Prelude.{◌≡◌};
ghost use Rattle.app_edit.specs.Sides.{opposite};

/// The end of a packet, source or destination, whose address and port are replaced.
#[derive(Debug, Clone, Copy, PartialEq, Eq)]
pub enum Side {
    Source,
    Destination,
}

impl Side {
    /// The other end.
    pub fn opposite(self) -> Side
        ensures { result ≡ opposite self }
    {
        match self {
            Side::Source => Side::Destination,
            Side::Destination => Side::Source,
        }
    }
}
