//! Options of a connection.

ghost use Rattle.std.specs.Prelude.{◌≡◌, ◌≤◌};
ghost use Rattle.app_socket.specs.Times.{idle_of, mss_of};

/// What the application chooses before it opens.
#[repr(C)]
#[derive(Debug, Clone, Copy, PartialEq, Eq)]
pub struct Options {
    /// The most bytes of text in a segment that is sent; 0 is 536 (RFC 9293, section 3.7.1).
    pub mss: u16,
    /// Seconds without a segment of the peer until it is probed; 0 is 7200 (RFC 9293, section 3.8.4).
    pub keep_alive: u32,
    /// Whether small segments go at once: without Nagle's algorithm (RFC 9293, section 3.7.4), as with TCP_NODELAY.
    pub is_eager: bool,
}

const DEFAULT_MSS: u16 = 536;

const DEFAULT_KEEP_ALIVE: u32 = 7200;

impl Options {
    // The most bytes of text in a segment.
    pub(crate) fn most(&self) -> u16
        ensures { result ≡ mss_of self.now }
    {
        if self.mss == 0 { DEFAULT_MSS } else { self.mss }
    }

    // Milliseconds without a segment until the peer is probed.
    pub(crate) fn idle_time(&self) -> u64
        ensures value { result ≡ idle_of self.now }
        ensures limit { result ≤ 4294967295000 }
    {
        let seconds = if self.keep_alive == 0 {
            DEFAULT_KEEP_ALIVE
        } else {
            self.keep_alive
        };
        u64::from(seconds) * 1000
    }
}
