//! What both ends agreed on.

use crate::scale::{MAX_FIELD, MAX_SCALE, scale_of};
use crate::timestamps::{Recent, since, stamp};
use wire_tcp_options::{SACK_BLOCKS, TcpOptionSummary};

const MIN_TEXT: u16 = 8;

// Bytes of a timestamp and of one SACK block: alone with padding, and both together.
const ONE_OPTION: u16 = 12;

const BOTH_OPTIONS: u16 = 20;

/// What the SYNs of both ends agree on. This end offers a window scale, SACK and timestamps in its SYN, and in answer to a SYN
/// those that it had.
#[derive(Debug, Clone, Copy)]
pub struct Agreed {
    // Where the own timestamps begin.
    pub(crate) offset: u32,
    // The bits by which the windows of the peer are shifted, as it told them; None: no window is.
    pub(crate) peer_scale: Option<u8>,
    pub(crate) has_sack: bool,
    // None: no timestamps.
    pub(crate) recent: Option<Recent>,
}

impl Agreed {
    ghost use Rattle.std.specs.Prelude.{◌≡◌, ◌≤◌, ◌*◌, ◌∷◌, None, min, replicate};
    ghost use Rattle.app_options.specs.Timestamps.{echoes, round_trip, takes, updated};
    ghost use Rattle.app_options.specs.Options.{agreed_on, nothing, of_segment, of_syn, text_limit, window_in, window_out, own_scale};

    /// Nothing yet. The timestamps of this end begin at `offset`, which should be random (RFC 7323, section 5.4).
    pub fn new(offset: u32) -> Agreed
        ensures { result ≡ nothing offset }
    {
        Agreed {
            offset,
            peer_scale: None,
            has_sack: false,
            recent: None,
        }
    }

    /// The SYN of the peer came, with these options. What it offers is agreed on.
    pub fn on_syn(&mut self, options: &TcpOptionSummary, now: u64)
        ensures { self.new ≡ agreed_on self.old options.now now }
    {
        self.peer_scale = options.window_scale;
        self.has_sack = options.sack_permitted;
        self.recent = match options.timestamp {
            Some((tsval, _)) => Some(Recent {
                value: tsval,
                heard_at: now,
            }),
            None => None,
        };
    }

    /// The options of a SYN with this MSS, for a receive buffer of this size. One that answers a SYN (with ACK) has what is
    /// agreed on, and another one offers all.
    pub fn of_syn(&self, mss: u16, size: usize, now: u64, is_answer: bool) -> TcpOptionSummary
        ensures { result ≡ of_syn self.now mss size now is_answer }
    {
        let is_scaled = !is_answer || self.peer_scale.is_some();
        let timestamp = if is_answer {
            self.timestamp(now)
        } else {
            Some((stamp(self.offset, now), 0))
        };
        TcpOptionSummary {
            max_segment_size: Some(mss),
            window_scale: if is_scaled {
                Some(scale_of(size))
            } else {
                None
            },
            sack_permitted: !is_answer || self.has_sack,
            sack_ranges: [None; SACK_BLOCKS],
            timestamp,
        }
    }

    /// The options of another segment. `kept`: a SACK block of what is kept after a gap.
    pub fn of_segment(&self, kept: Option<(u32, u32)>, now: u64) -> TcpOptionSummary
        ensures { result ≡ of_segment self.now (kept ∷ replicate 3 None) now }
    {
        TcpOptionSummary {
            max_segment_size: None,
            window_scale: None,
            sack_permitted: false,
            sack_ranges: [if self.has_sack { kept } else { None }, None, None, None],
            timestamp: self.timestamp(now),
        }
    }

    /// The same with several SACK blocks. A timestamp leaves room for three.
    pub fn of_blocks(&self, kept: [Option<(u32, u32)>; SACK_BLOCKS], now: u64) -> TcpOptionSummary
        ensures { result ≡ of_segment self.now kept now }
    {
        if !self.has_sack {
            return self.of_segment(None, now);
        }
        TcpOptionSummary {
            max_segment_size: None,
            window_scale: None,
            sack_permitted: false,
            sack_ranges: kept,
            timestamp: self.timestamp(now),
        }
    }

    // The timestamp of a segment, with the one that it answers.
    fn timestamp(&self, now: u64) -> Option<(u32, u32)>
        ensures { result ≡ echoes self.now.recent self.now.offset now }
    {
        match self.recent {
            Some(recent) => Some((stamp(self.offset, now), recent.value)),
            None => None,
        }
    }

    /// The most bytes of text in a segment whose text and options have at most `mss` bytes (RFC 6691). It is at least 8, if `mss`
    /// is. `has_gap`: a SACK block is due.
    pub fn text_limit(&self, mss: u16, has_gap: bool) -> u16
        ensures value { result ≡ text_limit self.now mss has_gap }
        ensures most { result ≤ mss }
        ensures least { min 8 mss ≤ result }
    {
        let options = match (self.recent.is_some(), self.has_sack && has_gap) {
            (true, true) => BOTH_OPTIONS,
            (false, false) => 0,
            _ => ONE_OPTION,
        };
        mss.saturating_sub(options).max(MIN_TEXT).min(mss)
    }

    /// The window of the peer in bytes, from the window field of a segment that is no SYN.
    pub fn window_in(&self, field: u32) -> u32
        ensures value { result ≡ window_in self.now field }
        ensures most { result ≤ 65535 * 16384 }
    {
        field.min(MAX_FIELD) << self.peer_scale.unwrap_or(0).min(MAX_SCALE)
    }

    /// The window field of a segment that is no SYN, for a receive buffer of this size.
    pub fn window_out(&self, window: u32, size: usize) -> u16
        ensures value { result ≡ window_out self.now window size }
    {
        (window >> self.own_scale(size)).min(MAX_FIELD) as u16
    }

    /// The own window scale, for a receive buffer of this size: at most 14, and 0 if windows are not scaled.
    pub fn own_scale(&self, size: usize) -> u8
        ensures value { result ≡ own_scale self.now size }
        ensures most { result ≤ 14 }
    {
        if self.peer_scale.is_some() {
            scale_of(size)
        } else {
            0
        }
    }

    /// Whether both ends use SACK.
    pub fn has_sack(&self) -> bool
        ensures { result ≡ self.now.has_sack }
    {
        self.has_sack
    }

    /// Whether a segment without RST is taken. If timestamps are agreed on, it must have one that is not older than TS.Recent,
    /// unless that is outdated (PAWS; RFC 7323, sections 3.2, 5.3 and 5.5).
    pub fn takes(&self, timestamp: Option<(u32, u32)>, now: u64) -> bool
        ensures { result ≡ takes self.now.recent timestamp now }
    {
        match (self.recent, timestamp) {
            (None, _) => true,
            (Some(_), None) => false,
            (Some(recent), Some((tsval, _))) => !recent.is_after(tsval, now),
        }
    }

    /// A segment was taken whose timestamp counts (TS.Recent; RFC 7323, section 4.3).
    pub fn on_timestamp(&mut self, timestamp: Option<(u32, u32)>, now: u64)
        ensures { self.new ≡ record self.old { recent = updated self.old.recent timestamp now } }
    {
        if self.recent.is_some()
            && let Some((tsval, _)) = timestamp
        {
            self.recent = Some(Recent {
                value: tsval,
                heard_at: now,
            });
        }
    }

    /// The round trip in milliseconds that the TSecr of a segment tells, also of a segment that was sent twice (RFC 7323, section
    /// 4.1). None if timestamps are not agreed on, or TSecr is ahead of the clock.
    pub fn round_trip(&self, timestamp: Option<(u32, u32)>, now: u64) -> Option<u32>
        ensures { result ≡ round_trip self.now.recent self.now.offset timestamp now }
    {
        match (self.recent, timestamp) {
            (Some(_), Some((_, tsecr))) => since(self.offset, tsecr, now),
            _ => None,
        }
    }
}
