//! What is known of losses, and the numbers of it.

ghost use Rattle.std.specs.Prelude.{◌≡◌, ◌≤◌};
ghost use Rattle.app_congestion.specs.Congestion.{initial_window, outside_of};

use tcp_stream::is_before;

/// What is known of losses. The number is `recover` of RFC 6582, as a next number: one more than there.
#[derive(Debug, Clone, Copy, PartialEq, Eq)]
pub(crate) enum Phase {
    /// No loss, or more than `recover` is acknowledged.
    Open,
    /// Fast recovery.
    Recovery(u32),
    /// After fast recovery or a time-out.
    Recovered(u32),
}

// The initial window.
pub(crate) fn window_of(mss: u32) -> u32
    requires { mss ≤ 65535 }
    ensures { result ≡ initial_window mss }
{
    (10 * mss).min((2 * mss).max(14_600))
}

// The phase outside fast recovery.
pub(crate) fn outside(recover: u32, una: u32) -> Phase
    ensures { result ≡ outside_of recover una }
{
    if is_before(recover, una) {
        Phase::Open
    } else {
        Phase::Recovered(recover)
    }
}
