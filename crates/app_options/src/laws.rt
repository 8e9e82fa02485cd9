//! Laws of several calls.

ghost use Rattle.std.specs.Prelude.{◌≡◌, ◌+◌, ◌%◌, ◌^◌, ◌<◌, ◌≤◌, ℕ, Some, is_some, option_map, min, true, false};
ghost use Rattle.app_options.specs.Options.{agreed_on};
ghost use Rattle.app_options.specs.Windows.{scale_of};

use crate::Agreed;
use wire_tcp_options::TcpOptionSummary;

/// PAWS (RFC 7323, section 5). TS.Recent is the timestamp of a segment that the peer sent at the time `sent`. It is not outdated.
/// Then a segment of an earlier `time` is dropped, and one of the same or a later time is taken. The peer's times are in
/// milliseconds, and a timestamp is the low 32 bits of its time. Both times differ by less than 2^31, that is 24.8 days.
pub fn an_old_timestamp_is_dropped(
    agreed: &mut Agreed,
    last: (u32, u32),
    heard_at: u64,
    next: (u32, u32),
    now: u64,
) -> bool
    requires timestamps { is_some agreed.old.recent ≡ true }
    requires valid { now ≤ heard_at + 2073600000 }
    ensures earlier { (sent time : ℕ) → last.0 ≡ sent % 2 ^ 32 → next.0 ≡ time % 2 ^ 32 →
        time < sent → sent < time + 2 ^ 31 → result ≡ false }
    ensures later { (sent time : ℕ) → last.0 ≡ sent % 2 ^ 32 → next.0 ≡ time % 2 ^ 32 →
        sent ≤ time → time < sent + 2 ^ 31 → result ≡ true }
{
    agreed.on_timestamp(Some(last), heard_at);
    agreed.takes(Some(next), now)
}

/// RTTM (RFC 7323, section 4.1). The peer takes the timestamp of a segment that goes out at the time `sent`, and echoes it. What
/// comes back then tells how long both took together: of less than 2^31 milliseconds, and whatever its times are.
pub fn an_echo_tells_the_round_trip(
    own: &Agreed,
    peer: &mut Agreed,
    sent: u64,
    times: (u64, u64),
    now: u64,
) -> Option<u32>
    requires own { is_some own.now.recent ≡ true }
    requires peer { is_some peer.old.recent ≡ true }
    ensures { sent ≤ now → now < sent + 2 ^ 31 → option_map (λ elapsed. sent + elapsed) result ≡ Some now }
{
    let segment = own.of_segment(None, sent);
    peer.on_timestamp(segment.timestamp, times.0);
    let answer = peer.of_segment(None, times.1);
    own.round_trip(answer.timestamp, now)
}

/// The window that a peer reads in a header is at most the own one, and less than 2^scale bytes below it (RFC 7323, section 2.4).
/// If windows are scaled, the peer knows the scale.
pub fn what_is_told_fits(own: &Agreed, peer: &Agreed, window: u32, size: usize) -> u32
    requires knows { peer.now.peer_scale ≡ option_map (λ _. scale_of size) own.now.peer_scale }
    ensures most { result ≤ window }
    ensures scaled { is_some own.now.peer_scale ≡ true → window ≤ size → size < 2 ^ 30 →
        window < result + 2 ^ scale_of size }
    ensures whole { is_some own.now.peer_scale ≡ false → result ≡ min 65535 window }
{
    peer.window_in(u32::from(own.window_out(window, size)))
}

/// Whatever options the first SYN still has when it comes, both ends agree on the same after its answer. The opener then knows the
/// scale of the windows that it is told.
pub fn an_answer_agrees(
    opener: &mut Agreed,
    answerer: &mut Agreed,
    syn: &TcpOptionSummary,
    mss: u16,
    size: usize,
    now: u64,
)
    ensures heard { answerer.new ≡ agreed_on answerer.old syn.now now }
    ensures scale { opener.new.peer_scale ≡ option_map (λ _. scale_of size) answerer.new.peer_scale }
    ensures sack { opener.new.has_sack ≡ answerer.new.has_sack }
    ensures timestamps { is_some opener.new.recent ≡ is_some answerer.new.recent }
{
    answerer.on_syn(syn, now);
    let answer = answerer.of_syn(mss, size, now, true);
    opener.on_syn(&answer, now);
}

/// If all options come, both ends use window scales, each that of the other's ring, SACK and timestamps.
pub fn two_ends_agree(
    opener: &mut Agreed,
    answerer: &mut Agreed,
    mss: u16,
    sizes: (usize, usize),
    now: u64,
)
    ensures opener { opener.new.peer_scale ≡ Some (scale_of sizes.1) }
    ensures answerer { answerer.new.peer_scale ≡ Some (scale_of sizes.0) }
    ensures sack { (opener.new.has_sack ≡ true) × (answerer.new.has_sack ≡ true) }
    ensures timestamps { (is_some opener.new.recent ≡ true) × (is_some answerer.new.recent ≡ true) }
{
    let syn = opener.of_syn(mss, sizes.0, now, false);
    an_answer_agrees(opener, answerer, &syn, mss, sizes.1, now);
}

/// The same holds if both ends open at once (RFC 9293, section 3.5).
pub fn two_openers_agree(
    one: &mut Agreed,
    other: &mut Agreed,
    mss: u16,
    sizes: (usize, usize),
    now: u64,
)
    ensures one { one.new.peer_scale ≡ Some (scale_of sizes.1) }
    ensures other { other.new.peer_scale ≡ Some (scale_of sizes.0) }
    ensures sack { (one.new.has_sack ≡ true) × (other.new.has_sack ≡ true) }
    ensures timestamps { (is_some one.new.recent ≡ true) × (is_some other.new.recent ≡ true) }
{
    let first = one.of_syn(mss, sizes.0, now, false);
    let second = other.of_syn(mss, sizes.1, now, false);
    one.on_syn(&second, now);
    other.on_syn(&first, now);
}
