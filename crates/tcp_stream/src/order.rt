//! The order of sequence numbers (RFC 9293, section 3.4).

ghost use Rattle.std.specs.Prelude.{◌≡◌};
ghost use Rattle.tcp_stream.specs.Endpoint.{is_ahead, is_earlier};

use wire_tcp_options::TcpSeqNumber;

/// Whether `a` is before `b`, by less than 2^31 numbers. A timestamp is before another one in the same way (RFC 7323, section
/// 5.2).
pub fn is_before(a: u32, b: u32) -> bool
    ensures { result ≡ is_earlier a b }
{
    TcpSeqNumber(b.cast_signed()).seq_gt(TcpSeqNumber(a.cast_signed()))
}

/// Whether `target` is `edge` or after it, by less than 2^31 numbers.
pub fn is_ahead(edge: u32, target: u32) -> bool
    ensures { result ≡ is_ahead edge target }
{
    TcpSeqNumber(target.cast_signed()).seq_ge(TcpSeqNumber(edge.cast_signed()))
}
