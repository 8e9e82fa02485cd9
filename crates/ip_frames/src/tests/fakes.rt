//! Devices that fail.

ghost use Rattle.std.specs.Prelude.{[], ◌≡◌, ◌≤◌, Some, false, length, take};

use crate::devices::{Failed, FrameSink, FrameSource};

/// A source that gives one byte at a time, and fails once it gave so many.
#[derive(Drop)]
pub struct FailingSource<'a> {
    pub rest: &'a [u8],
    pub left: usize,
    pub failures: u64,
}

impl FrameSource for FailingSource<'_> {
    ghost remaining = { λ s. Some s.rest.now };

    ghost failures = { λ s. s.failures };

    fn read(&mut self, buf: &mut [u8]) -> Result<usize, Failed> {
        if self.left == 0 {
            self.failures = self.failures.saturating_add(1);
            return Err(Failed);
        }
        let n = buf.len().min(self.rest.len()).min(1);
        let (front, rest) = self.rest.split_at(n);
        buf[..n].copy_from_slice(front);
        self.rest = rest;
        self.left -= n;
        Ok(n)
    }

    fn failures(&self) -> u64 {
        self.failures
    }
}

/// A sink that takes one byte at a time, and then none. Its flush fails.
#[derive(Drop)]
pub struct StuckSink<'a> {
    pub room: &'a mut [u8],
    pub len: usize,
    pub failures: u64,
    ghost within: { len ≤ length room.now },
}

impl StuckSink<'_> {
    pub fn written(&self) -> &[u8]
        ensures { result.now ≡ take self.now.len self.now.room.now }
    {
        &self.room[..self.len]
    }
}

impl FrameSink for StuckSink<'_> {
    ghost contents = { λ s. Some (take s.len s.room.now) };

    ghost failures = { λ s. s.failures };

    ghost flushed = { λ _. false };

    ghost kept = { λ _. [] };

    fn write(&mut self, bytes: &[u8]) -> Result<usize, Failed> {
        if bytes.is_empty() {
            return Ok(0);
        }
        if self.len == self.room.len() {
            self.failures = self.failures.saturating_add(1);
            return Ok(0);
        }
        self.room[self.len] = bytes[0];
        self.len += 1;
        Ok(1)
    }

    fn flush(&mut self) -> Result<(), Failed> {
        self.failures = self.failures.saturating_add(1);
        Err(Failed)
    }

    fn failures(&self) -> u64 {
        self.failures
    }

    fn flushed(&self) -> bool {
        false
    }
}
