//! Searches over options that continue past the end of the list.

ghost use Rattle.std.specs.Prelude.{◌<◌, [], false, true};
ghost use Rattle.wire_tcp_options.specs.TcpItems.{first_blocks};
ghost use Rattle.wire_tcp_options.specs.TcpWalk.{Answers, FindsFirst};

use super::option::{OPT_SACKPERM, OPT_SACKRNG};
use super::{SACK_BLOCKS, TcpOption};
use net_base::Result;

/// Returns `true` if an option permits SACK. Fails if a malformed option comes before it.
pub fn sack_permitted(options: &[u8]) -> Result<bool>
    ensures { Answers options.now 4 (λ i. true) false result }
{
    Ok(first_of_kind(options, OPT_SACKPERM)?.is_some())
}

/// The ranges of the first SACK option, or no ranges. Fails if a malformed option comes before it.
#[tactic(auto, using(crate::proofs::Walks::no_ranges, crate::proofs::Walks::some_ranges))]
pub fn sack_ranges(options: &[u8]) -> Result<[Option<(u32, u32)>; SACK_BLOCKS]>
    ensures { Answers options.now 5 (λ i. first_blocks i.content) (first_blocks []) result }
{
    match first_of_kind(options, OPT_SACKRNG)? {
        Some(option) => Ok(option.ranges()),
        None => Ok([None; SACK_BLOCKS]),
    }
}

// The first option of a kind, or `None`. Fails if a malformed option comes before it.
fn first_of_kind<'a>(options: &'a [u8], kind: u8) -> Result<Option<TcpOption<'a>>>
    requires { 0 < kind }
    ensures { FindsFirst options.now kind result }
{
    let mut rest = options;
    while !rest.is_empty() {
        let (next, option) = TcpOption::parse(rest)?;
        if rest[0] == kind {
            return Ok(Some(option));
        }
        rest = next;
    }
    Ok(None)
}
