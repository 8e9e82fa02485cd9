//! Laws of the checksum. A law states a fact about definitions, and its body does nothing.
//! `pseudo_header_by_version` compares calls: its body makes them.

ghost use Rattle.std.specs.Prelude.{◌≡◌, ◌+◌, ◌*◌, ◌++◌, ◌%◌, ◌<◌, ◌≤◌, ◌∷◌, [], length, replicate, sum, true};
ghost use Rattle.wire_checksum.specs.WordSum.{IsSum, sum_of, sum_of_bytes, updated, words};
ghost use Rattle.net_base.specs.Field.{field, with_field};

use crate::checksum;
use wire_addr::{IpAddress, IpProtocol, Ipv4Address, Ipv6Address};

/// `IsSum` holds of exactly one number, and `sum_of_bytes` computes it.
#[tactic(auto, using(crate::proofs::Residues::IsSum_residue, crate::proofs::Residues::residue_IsSum))]
pub fn sum_is_one_number(bytes: &[u8], other: u16)
    ensures is { IsSum (sum (words bytes.now)) (sum_of_bytes bytes.now) }
    ensures only { IsSum (sum (words bytes.now)) other → other ≡ sum_of_bytes bytes.now }
{}

/// The sum of two joined slices is the combination of their sums, if the first has an even length.
#[tactic(auto, using(crate::proofs::PseudoSums::sum_joins_words))]
pub fn sum_joins(first: &[u8], second: &[u8])
    requires { length first.now % 2 ≡ 0 }
    ensures { sum_of_bytes (first.now ++ second.now) ≡ sum_of (sum_of_bytes first.now ∷ sum_of_bytes second.now ∷ []) }
{}

/// A valid checksum stays valid if a word changes and the checksum is updated by `checksum::update`.
/// `checksum` and `place` count the words of the bytes. Some word beside the checksum must not be 0
/// after the change.
#[tactic(auto, using(crate::proofs::UpdatedBytes::updated_word))]
pub fn updated_checksum_verifies(bytes: &[u8], checksum: usize, place: usize, word: u16)
    requires checksum { 2 * checksum + 2 ≤ length bytes.now }
    requires place { 2 * place + 2 ≤ length bytes.now }
    requires some { 0 < sum_of_bytes (with_field (with_field bytes.now (16 * place) 16 word) (16 * checksum) 16 0) }
    requires valid { sum_of_bytes bytes.now ≡ 65535 }
    ensures { let changed = with_field bytes.now (16 * place) 16 word in
        let sum = updated (field changed (16 * checksum) 16) (field bytes.now (16 * place) 16) word in
        sum_of_bytes (with_field changed (16 * checksum) 16 sum) ≡ 65535 }
{}

/// The sum of a pseudo-header of one version is that of either version. The result says of both versions
/// whether they agree.
pub fn pseudo_header_by_version(
    ipv4: [Ipv4Address; 2],
    ipv6: [Ipv6Address; 2],
    next_header: IpProtocol,
    length: u32,
) -> [bool; 2]
    ensures { result ≡ replicate 2 true }
{
    let [src, dst] = ipv4;
    let either = checksum::pseudo_header(
        &IpAddress::Ipv4(src),
        &IpAddress::Ipv4(dst),
        next_header,
        length,
    );
    let of_ipv4 = either == checksum::pseudo_header_v4(&src, &dst, next_header, length);
    let [src, dst] = ipv6;
    let either = checksum::pseudo_header(
        &IpAddress::Ipv6(src),
        &IpAddress::Ipv6(dst),
        next_header,
        length,
    );
    let of_ipv6 = either == checksum::pseudo_header_v6(&src, &dst, next_header, length);
    [of_ipv4, of_ipv6]
}
