//! The eight groups of an IPv6 text.

ghost use Rattle.std.specs.Prelude.{◌≡◌, ◌≢◌, ◌≤◌, ◌<◌, ◌==◌, ◌++◌, [], IfSome, length, option_copied, take};
ghost use Rattle.std.specs.List.{list_all};
ghost use Rattle.wire_addr.specs.Grammar.{IsDotted, IsIpv6Text, Reads, groups_of, mapped_groups};
ghost use Rattle.wire_addr.specs.Reading.{inner_text, spread};
ghost use Rattle.wire_addr.specs.Reading as Reading;

use crate::bytes_text::octets;
use crate::number_text::first_group;
use byteorder::{ByteOrder, NetworkEndian};

fn are_zeros(groups: &[u16]) -> bool
    ensures { result ≡ list_all (λ g. g == 0) groups.now }
{
    groups.iter().all(|g| *g == 0)
}

/// Whether a dotted part may follow these groups, given the number of groups in front of `::`.
fn may_end_dotted(groups: &[u16], before: Option<usize>) -> bool
    ensures { result ≡ Reading.may_end_dotted before groups.now }
{
    match (before, groups) {
        (None, [0, 0, 0, 0, 0, 0xffff]) => true,
        (Some(before), [zeros @ .., 0xffff]) => {
            before <= 4 && zeros.len() == before && are_zeros(zeros)
        }
        _ => false,
    }
}

/// The groups in front of `::`, zeros, and the groups after it.
#[inline(always)]
fn spread(groups: &[u16; 8], len: usize, before: usize) -> [u16; 8]
    requires few { len ≤ 8 }
    requires within { before ≤ len }
    ensures { result ≡ spread before (take len groups.now) }
{
    let zeros = 8 - len;
    let mut all = [0; 8];
    for i in 0..8 {
        all[i] = if i < before {
            groups[i]
        } else if i < before + zeros {
            0
        } else {
            groups[i - zeros]
        };
    }
    all
}

/// The eight groups, from the parsed groups and the number of groups in front of `::`.
#[inline(always)]
fn all_groups(groups: &[u16; 8], len: usize, before: Option<usize>) -> Option<[u16; 8]>
    requires few { len ≤ 8 }
    requires within { IfSome before (λ n. n ≤ len) }
    ensures { result ≡ Reading.all_groups before (take len groups.now) }
{
    match before {
        None if len == 8 => Some(*groups),
        Some(before) if len < 8 => Some(spread(groups, len, before)),
        _ => None,
    }
}

/// The groups of an IPv4-mapped address.
#[inline(always)]
fn mapped(octets: [u8; 4]) -> [u16; 8]
    ensures { result ≡ mapped_groups ++ groups_of octets }
{
    let high = NetworkEndian::read_u16(&octets);
    let low = NetworkEndian::read_u16(&octets[2..]);
    [0, 0, 0, 0, 0, 0xffff, high, low]
}

/// The eight groups of an address that ends in this dotted part, if one may follow these groups.
#[inline(always)]
fn dotted_end(groups: &[u16], before: Option<usize>, text: &[u8]) -> Option<[u16; 8]>
    ensures { result ≡ Reading.dotted_end before groups.now text.now [] }
{
    if !may_end_dotted(groups, before) {
        return None;
    }
    Some(mapped(dotted(text)?))
}

/// The bytes of a dotted part. Not inlined, so that the loop over groups keeps its values in registers.
#[inline(never)]
fn dotted(text: &[u8]) -> Option<[u8; 4]>
    ensures { Reads IsDotted text.now result }
{
    octets(text)
}

/// The eight groups of an IPv4-mapped address in its usual form (RFC 5952, section 5).
#[inline(always)]
fn mapped_as_printed(text: &[u8]) -> Option<[u16; 8]>
    ensures { IfSome result (λ groups. IsIpv6Text text.now groups) }
{
    let part = text.strip_prefix(b"::ffff:")?;
    Some(mapped(dotted(part)?))
}

/// The text without the first colon of a leading `::`, so that any other leading colon is rejected.
#[inline(always)]
fn inner(text: &[u8]) -> Option<&[u8]>
    ensures { option_copied result ≡ inner_text text.now }
{
    let (first, following) = text.split_first()?;
    if *first != b':' {
        return Some(text);
    }
    if *following.first()? == b':' {
        Some(following)
    } else {
        None
    }
}

/// The eight groups of an IPv6 text. `None` if the text does not parse.
#[inline(always)]
pub fn groups(text: &[u8]) -> Option<[u16; 8]>
    ensures { Reads IsIpv6Text text.now result }
{
    if let Some(groups) = mapped_as_printed(text) {
        return Some(groups);
    }
    let mut rest = Some(inner(text)?);
    let mut groups = [0; 8];
    let mut len = 0;
    let mut before = None;
    while let Some(more) = rest {
        let (number, digits) = first_group(more);
        let group = number as u16;
        rest = match (digits, more[digits..].split_first()) {
            // A colon without digits in front of it is `::`, which may occur once and may be the end.
            (0, Some((byte, following))) if *byte == b':' && before.is_none() => {
                before = Some(len);
                (!following.is_empty()).then_some(following)
            }
            (1.., Some((byte, following))) if *byte == b':' && len < 8 => {
                groups[len] = group;
                len += 1;
                Some(following)
            }
            (1.., None) if len < 8 => {
                groups[len] = group;
                len += 1;
                None
            }
            _ => return dotted_end(&groups[..len], before, more),
        };
    }
    all_groups(&groups, len, before)
}
