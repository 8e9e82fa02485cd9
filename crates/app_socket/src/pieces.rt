//! What is sent next (RFC 9293, sections 3.7.4 and 3.8.6; RFC 6675, section 4).

ghost use Rattle.std.specs.Prelude.{◌≡◌, ◌<◌, ◌≤◌, ◌⊎◌, ◌+◌, ◌==◌, ◌&&◌, ℕ, true, false, min, max, Some, None, IfSome, MatchOption};
ghost use Rattle.app_congestion.specs.Congestion.{is_in_recovery};
ghost use Rattle.app_congestion.specs.Scoreboard.{HasNoHole, IsHole};
ghost use Rattle.app_socket.specs.Pieces.{IsWithin, is_worth};
ghost use Rattle.app_socket.specs.Resends.{IsBeyond, IsHeld, IsSound};

use crate::flow::{Flow, Kind, Piece, Queue, Timed};

// Whether so many new items of those that are available are worth a segment: Nagle's algorithm (section 3.7.4) and the sender's
// avoidance of silly windows (section 3.8.6.2.1).
fn is_worth(queue: &Queue, count: u32, available: usize, max_window: u32) -> bool
    ensures { result ≡ is_worth queue.now count available max_window }
{
    let is_all = count as usize == available;
    let at_once = queue.is_eager || queue.flight == 0 || queue.has_fin;
    count == u32::from(queue.mss) || is_all && at_once || count.saturating_mul(2) >= max_window
}

impl Flow {
    // The first segment: one item even where the window is closed.
    pub(crate) fn first(&self, queue: &Queue, kind: Kind) -> Piece
        ensures within { IsWithin result queue.now.window self.now.congestion.cwnd }
        ensures offset { result.offset ≡ 0 }
        ensures kind { result.kind ≡ kind }
    {
        let usable = self.congestion.may_send(queue.window, 0);
        Piece {
            offset: 0,
            count: usable.min(u32::from(queue.mss)).max(1),
            kind,
        }
    }

    // The next segment, if there is one that may go and is worth it.
    pub(crate) fn next(&mut self, queue: &Queue) -> Option<Piece>
        ensures same { self.new ≡ record self.old { resend = false } }
        ensures within { IfSome result (λ p. IsWithin p queue.now.window self.new.congestion.cwnd) }
        ensures first { self.old.resend ≡ true → MatchOption result ⊥ (λ p. p.offset ≡ 0) }
        ensures held { result ≡ None → IsHeld self.new queue.now }
        ensures hole { (offset count : ℕ) → self.old.resend ≡ false → is_in_recovery self.old.congestion.phase ≡ true
            → IsHole self.old.scoreboard self.old.rescued offset count → 0 < queue.now.mss
            → offset < min queue.now.window self.old.congestion.cwnd → MatchOption result ⊥ (λ p. p.offset ≡ offset) }
        ensures place { IsSound self.old queue.now.flight → self.old.resend ≡ false
            → IfSome result (λ p. (p.offset ≤ queue.now.flight) × (p.offset < queue.now.flight + queue.now.unsent)) }
        ensures kind { IfSome result
            (λ p. (p.kind ≡ Kind.Again) ⊎ ((p.kind ≡ Kind.New) × (queue.now.flight ≤ p.offset))) }
    {
        if self.resend {
            self.resend = false;
            return Some(self.first(queue, Kind::Again));
        }
        if let Some(piece) = self.hole(queue) {
            return Some(piece);
        }
        let again = queue.flight.saturating_sub(self.cursor);
        let available = (again as usize).saturating_add(queue.unsent);
        let usable = self.congestion.may_send(queue.window, self.cursor);
        let count = usable.min(u32::from(queue.mss));
        let count = available.min(count as usize) as u32;
        if count == 0 {
            return None;
        }
        if again > 0 {
            return Some(self.piece(count, Kind::Again));
        }
        if is_worth(queue, count, available, self.max_window) {
            return Some(self.piece(count, Kind::New));
        }
        None
    }

    // In fast recovery: the next items that the peer has not, before some that it has, and that were not sent again (RFC 6675,
    // section 4, rule 1 of NextSeg).
    fn hole(&self, queue: &Queue) -> Option<Piece>
        ensures within { IfSome result (λ p. IsWithin p queue.now.window self.now.congestion.cwnd) }
        ensures kind { IfSome result (λ p. p.kind ≡ Kind.Again) }
        ensures place { IsSound self.now queue.now.flight → IfSome result (λ p. p.offset < queue.now.flight) }
        ensures first { (offset count : ℕ) → is_in_recovery self.now.congestion.phase ≡ true
            → IsHole self.now.scoreboard self.now.rescued offset count → 0 < queue.now.mss
            → offset < min queue.now.window self.now.congestion.cwnd → MatchOption result ⊥ (λ p. p.offset ≡ offset) }
        ensures none { result ≡ None → is_in_recovery self.now.congestion.phase ≡ true → 0 < queue.now.mss
            → HasNoHole self.now.scoreboard self.now.rescued
            ⊎ IsBeyond self.now.scoreboard self.now.rescued (min queue.now.window self.now.congestion.cwnd) }
    {
        if !self.is_recovering() {
            return None;
        }
        let (offset, len) = self.scoreboard.hole(self.rescued)?;
        let usable = self.congestion.may_send(queue.window, offset);
        let count = usable.min(u32::from(queue.mss)).min(len);
        if count == 0 {
            return None;
        }
        Some(Piece {
            offset,
            count,
            kind: Kind::Again,
        })
    }

    // So many items after those that were sent.
    fn piece(&self, count: u32, kind: Kind) -> Piece
        ensures { result ≡ record { offset = self.now.cursor; count = count; kind = kind } }
    {
        Piece {
            offset: self.cursor,
            count,
            kind,
        }
    }

    // This piece went out, with so many items.
    pub(crate) fn on_sent(&mut self, queue: &Queue, piece: &Piece, items: u32, now: u64)
        ensures same { self.new
            ≡ record self.old { timing = self.new.timing; cursor = self.new.cursor; rescued = self.new.rescued; sent_at = now } }
        ensures probe { piece.now.kind ≡ Kind.Probe → self.new ≡ record self.old { sent_at = now } }
        ensures cursor { (piece.now.kind ≡ Kind.Probe → ⊥)
            → self.new.cursor ≡ max self.old.cursor (min 4294967295 (piece.now.offset + items)) }
        ensures again { piece.now.kind ≡ Kind.Again → self.new.timing ≡ None }
        ensures karn { IfSome self.new.timing (λ t. (self.old.timing ≡ Some t) ⊎ (piece.now.kind ≡ Kind.New)) }
    {
        self.sent_at = now;
        if piece.kind == Kind::Probe {
            return;
        }
        let end = piece.offset.saturating_add(items);
        self.cursor = self.cursor.max(end);
        if piece.kind == Kind::Again {
            self.rescued = self.rescued.max(end);
            self.timing = None;
        } else if self.timing.is_none() {
            self.timing = Some(Timed {
                end: queue.una.wrapping_add(end),
                sent_at: now,
            });
        }
    }
}
