//! The answers of lines.

ghost use Rattle.std.specs.Prelude.{◌≡◌, ◌==◌, IfOk, length, map, vec_len};
ghost use Rattle.std.specs.List.{slice_split};
ghost use Rattle.ip_calls.specs.Lines.{lines};

use crate::operands::Operands;
use crate::{again, block, class, emit, get, host, options, set, tcp, text};
use hex_digits::Digits;
use ip_wire::{EthernetAddress, IpAddress, IpCidr, IpEndpoint, Ipv4Cidr, Ipv6Cidr};
use std::alloc::{AllocError, Global};

/// The answers to the lines of the input, in their order.
pub fn answers(alloc: Global, input: &[u8]) -> Result<Vec<String>, AllocError>
    ensures { IfOk result (λ texts. vec_len texts ≡ length (lines input.now)) }
{
    let lines = lines_of(alloc, input)?;
    let digits = Digits::new();
    let mut texts = Vec::new(alloc);
    for line in lines.as_slice() {
        texts.push(answer(alloc, &digits, line)?)?;
    }
    Ok(texts)
}

// The lines of the input.
fn lines_of(alloc: Global, input: &[u8]) -> Result<Vec<&[u8]>, AllocError>
    ensures { IfOk result (λ found. map (λ x. x.now) found.items ≡ lines input.now) }
{
    match input {
        [] => Ok(Vec::new(alloc)),
        [body @ .., b'\n'] => parts(alloc, body),
        _ => parts(alloc, input),
    }
}

// The pieces of a text between its line feeds.
fn parts(alloc: Global, text: &[u8]) -> Result<Vec<&[u8]>, AllocError>
    ensures { IfOk result (λ found. map (λ x. x.now) found.items ≡ slice_split (λ b. b == 10) text.now) }
{
    text.split(|b| *b == b'\n').collect(alloc)
}

// The answer to a line. The text of a parser is everything after the first space.
fn answer(alloc: Global, digits: &Digits, line: &[u8]) -> Result<String, AllocError> {
    let (kind, text) = split_kind(line);
    match kind {
        b"eth" => text::answer::<EthernetAddress>(alloc, text),
        b"ip" => text::answer::<IpAddress>(alloc, text),
        b"cidr4" => text::answer::<Ipv4Cidr>(alloc, text),
        b"cidr6" => text::answer::<Ipv6Cidr>(alloc, text),
        b"cidr" => text::answer::<IpCidr>(alloc, text),
        b"endpoint" => text::answer::<IpEndpoint>(alloc, text),
        _ => call(alloc, digits, line),
    }
}

// A line before its first space, and after it.
fn split_kind(line: &[u8]) -> (&[u8], &[u8]) {
    match line.iter().position(|b| *b == b' ') {
        Some(at) => (&line[..at], &line[at + 1..]),
        None => (line, &[]),
    }
}

// The answer of a call with words as operands.
fn call(alloc: Global, digits: &Digits, line: &[u8]) -> Result<String, AllocError> {
    let Ok(line) = str::from_utf8(line) else {
        return String::from_str(alloc, "unknown");
    };
    let words: Vec<&str> = line.split(' ').collect(alloc)?;
    let mut operands = Operands::new(words.as_slice(), digits);
    match result(alloc, &mut operands)? {
        None => String::from_str(alloc, "unknown"),
        Some(text) if operands.is_whole() => Ok(text),
        Some(_) => String::from_str(alloc, "malformed"),
    }
}

// The text of the call that the first word names, if there is one. The operands tell whether it counts.
fn result(alloc: Global, operands: &mut Operands<'_>) -> Result<Option<String>, AllocError> {
    let text = match operands.word() {
        "tcp" => tcp::answer(alloc, operands),
        "udp" => emit::udp(alloc, operands),
        "header" => emit::header(alloc, operands),
        "frag" => emit::fragment(alloc, operands),
        "walk" => options::answer(alloc, operands),
        "option" => options::first(alloc, operands),
        "block" => block::answer(alloc, operands),
        "prefix" => block::prefix_len(alloc, operands),
        "netmask" => block::from_netmask(alloc, operands),
        "class" => class::answer(alloc, operands),
        "sum" => emit::sum(alloc, operands),
        "set" => set::answer(alloc, operands),
        "get" => get::answer(alloc, operands),
        "again" => again::answer(alloc, operands),
        "host" => host::answer(alloc, operands),
        _ => return Ok(None),
    };
    Ok(Some(text?))
}
