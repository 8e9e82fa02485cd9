//! Laws of this crate's definitions. A law states a fact about definitions; its body does nothing.

ghost use Rattle.std.specs.Prelude.{List, ℕ};
ghost use Rattle.app_host.specs.Host.{Answers, IsFinal, IsReset, IsSegment, ServesPortOf};

use crate::host::Host;

/// Hosts do not reply to each other forever. A reply to a reply is a RST or an ICMP error, and no host replies
/// to those. It is a RST if the second host serves each UDP port, or if the first frame is a TCP segment.
pub fn answers_end(first: &Host<'_>, second: &Host<'_>, third: &Host<'_>)
    ensures finishes { (f g h : List ℕ) → Answers first.now f g → Answers second.now g h → IsFinal h }
    ensures resets { (f g h : List ℕ) → ServesPortOf second.now g → Answers first.now f g → Answers second.now g h → IsReset h }
    ensures segments { (f g h : List ℕ) → IsSegment f → Answers first.now f g → Answers second.now g h → IsReset h }
    ensures final_ends { (h k : List ℕ) → IsFinal h → ¬ Answers third.now h k }
    ensures ends { (f g h k : List ℕ) → Answers first.now f g → Answers second.now g h → ¬ Answers third.now h k }
{}
