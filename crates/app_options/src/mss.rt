//! The maximum segment size (RFC 9293, section 3.7.1).

ghost use Rattle.std.specs.Prelude.{◌≡◌};
ghost use Rattle.app_options.specs.Options.{peer_mss};

use wire_tcp_options::TcpOptionSummary;

// The maximum segment size of a peer that tells none.
const DEFAULT_MSS: u16 = 536;

// The least one that is used: beside 40 bytes of options it leaves 8 for text.
const MIN_MSS: u16 = 48;

/// The largest segment that the peer takes, by the MSS option of its SYN: 536 without one, and at least 48. The options of a
/// segment count as part of it (RFC 6691).
pub fn peer_mss(options: &TcpOptionSummary) -> u16
    ensures { result ≡ peer_mss options.now }
{
    options.max_segment_size.unwrap_or(DEFAULT_MSS).max(MIN_MSS)
}
