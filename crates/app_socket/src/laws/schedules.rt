//! Schedules that the laws of rounds allow.

ghost use Rattle.std.specs.Prelude.{◌≡◌, ◌+◌, ◌<◌, [], ◌∷◌, Some};
ghost use Rattle.app_socket.specs.Exchanges.{AreInTime, ComesBefore, TakesAnswers, TakesTexts};
ghost use Rattle.app_socket.specs.Rounds.{AreRounds};

use crate::laws::Round;
use crate::laws::pair::Exchange;

/// Two rounds as the timers have them: the timer runs for a minute at most (RFC 6298, section 2.5), and silence ends the connection
/// 5 minutes after the last acknowledgement (RFC 9293, section 3.8.3), and not before.
pub fn rounds_may_take_so_long(one: &Round, other: &Round)
    requires lost { one.now.lost.now ≡ [] }
    requires first { one.now.first ≡ 1000 }
    requires second { one.now.second ≡ 61000 }
    requires lost_then { other.now.lost.now ≡ [] }
    requires first_then { other.now.first ≡ one.now.answered + 60000 }
    requires second_then { other.now.second ≡ one.now.answered + 299999 }
    requires clock { one.now.answered + 300000 < 18446744073709551616 }
    ensures { AreRounds 1000 61001 (one.now ∷ other.now ∷ []) }
{}

/// Two rounds of two sockets with the same times, and with timestamps. The second answer comes 5 minutes after the first one, by
/// the clocks of both ends.
pub fn rounds_of_two_sockets_may_take_so_long(one: &Exchange, other: &Exchange)
    requires first { one.now.first ≡ 1000 }
    requires second { one.now.second ≡ 61000 }
    requires called { one.now.calls ≡ one.now.arrives + 40 }
    requires first_then { other.now.first ≡ one.now.answered + 60000 }
    requires second_then { other.now.second ≡ one.now.answered + 299999 }
    requires arrives_then { other.now.arrives ≡ one.now.arrives + 299959 }
    requires called_then { other.now.calls ≡ one.now.arrives + 299999 }
    requires clock { one.now.answered + 300000 < 18446744073709551616 }
    requires clock_there { other.now.arrives + 300000 < 18446744073709551616 }
    requires text { one.now.text.options.timestamp ≡ Some (61000, 700) }
    requires text_then { other.now.text.options.timestamp ≡ Some (361000, 800) }
    requires answer { one.now.answer.options.timestamp ≡ Some (800, 61000) }
    requires answer_then { other.now.answer.options.timestamp ≡ Some (300800, 361000) }
    ensures in_time { AreInTime 1000 61001 (one.now.arrives + 300000) (one.now ∷ other.now ∷ []) }
    ensures patient { ComesBefore (one.now.arrives + 300000) (one.now ∷ other.now ∷ []) }
    ensures texts { TakesTexts (Some (record { value = 900; heard_at = 700 })) (one.now ∷ other.now ∷ []) }
    ensures answers { TakesAnswers (Some (record { value = 700; heard_at = 900 })) (one.now ∷ other.now ∷ []) }
{}
