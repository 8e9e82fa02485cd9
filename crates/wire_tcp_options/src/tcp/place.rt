//! The place of a value in the options of a header.

ghost use Rattle.std.specs.Prelude.{◌≡◌, ◌+◌, ◌≤◌, IfSome, List, None, length, ℕ};
ghost use Rattle.wire_tcp_options.specs.TcpItems.{IsOptionList, Item};
ghost use Rattle.wire_tcp_options.specs.TcpPlace.{segment_size_at};
ghost use Rattle.wire_tcp_options.specs.TcpSummary.{HasNoList};

use super::TcpOption;

/// The index of the two bytes with the maximum segment size, if there is such an option. Of several
/// the last one counts. `None` if an option is malformed.
pub fn max_segment_size_at(options: &[u8]) -> Option<usize>
    ensures listed { (items : List Item) (tail : List ℕ) → IsOptionList options.now items tail
        → result ≡ segment_size_at items }
    ensures room { IfSome result (λ at. at + 2 ≤ length options.now) }
    ensures malformed { HasNoList options.now → result ≡ None }
{
    let mut at = None;
    let mut rest = options;
    while !rest.is_empty() {
        let Ok((next, option)) = TcpOption::parse(rest) else {
            return None;
        };
        match option {
            TcpOption::EndOfList => break,
            TcpOption::MaxSegmentSize(_) => at = Some(options.len() - rest.len() + 2),
            _ => {}
        }
        rest = next;
    }
    at
}
