//! Timestamps (RFC 7323, section 3).

ghost use Rattle.std.specs.Prelude.{◌≡◌, ◌↔◌, IfSome, IsSome};

/// A clock for timestamps.
pub type TcpTimestampGenerator = fn() -> u32;

/// A timestamp, and the echoed timestamp.
#[derive(Debug, Clone, Copy, PartialEq, Eq)]
pub struct TcpTimestampRepr {
    /// The sender's clock.
    pub tsval: u32,
    /// The `tsval` of the segment that this one replies to.
    pub tsecr: u32,
}

impl TcpTimestampRepr {
    /// A timestamp, and the echoed timestamp.
    pub fn new(tsval: u32, tsecr: u32) -> TcpTimestampRepr
        ensures tsval { result.tsval ≡ tsval }
        ensures tsecr { result.tsecr ≡ tsecr }
    {
        TcpTimestampRepr { tsval, tsecr }
    }

    /// The reply to this timestamp. It is `None` if there is no clock.
    pub fn generate_reply(
        &self,
        generator: Option<TcpTimestampGenerator>,
    ) -> Option<TcpTimestampRepr>
        requires { IfSome generator (λ clock. pre clock) }
        ensures given { IsSome result ↔ IsSome generator }
        ensures tsval { IfSome generator (λ clock. IfSome result (λ reply. post clock reply.tsval)) }
        ensures tsecr { IfSome result (λ reply. reply.tsecr ≡ self.now.tsval) }
    {
        TcpTimestampRepr::generate_reply_with_tsval(generator, self.tsval)
    }

    /// The reply to the timestamp `tsval`. It is `None` if there is no clock.
    pub fn generate_reply_with_tsval(
        generator: Option<TcpTimestampGenerator>,
        tsval: u32,
    ) -> Option<TcpTimestampRepr>
        requires { IfSome generator (λ clock. pre clock) }
        ensures given { IsSome result ↔ IsSome generator }
        ensures tsval { IfSome generator (λ clock. IfSome result (λ reply. post clock reply.tsval)) }
        ensures tsecr { IfSome result (λ reply. reply.tsecr ≡ tsval) }
    {
        let clock = generator?;
        Some(TcpTimestampRepr::new(clock(), tsval))
    }
}
