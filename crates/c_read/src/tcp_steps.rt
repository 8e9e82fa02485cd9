//! The options of a TCP header one by one, each by its place.

ghost use Rattle.std.specs.Prelude.{◌≡◌, ◌+◌, ◌<◌, ◌≤◌, length};
ghost use Rattle.c_read.specs.TcpSteps.{is_end_mark, next_at, place_at, step, step_to};

use c_structs::TcpOptionPlace;
use ip_wire::{TCP_HEADER_LEN, TcpOption, TcpPacket};

/// Steps to the next option of a header, and returns 1. Returns 0 if there is none, and -1 if it is
/// malformed or the lengths of the header are wrong, and stores nothing then.
pub fn next_tcp_option(option: &mut TcpOptionPlace, header: &[u8]) -> i32
    ensures returned { result ≡ (step header.now option.old).0 }
    ensures stored { option.new ≡ (step header.now option.old).1 }
{
    let packet = match TcpPacket::new_checked(header) {
        Ok(packet) => packet,
        Err(_) => return -1,
    };
    if is_end_mark(option) {
        return 0;
    }
    let options = packet.options();
    let at = next_at(option);
    if at >= options.len() {
        return 0;
    }
    let (_, rest) = options.split_at(at);
    step_to(option, rest, at)
}

// Whether this is the end mark, after which there is no option.
fn is_end_mark(option: &TcpOptionPlace) -> bool
    ensures { result ≡ is_end_mark option.now }
{
    option.offset != 0 && option.kind == 0
}

// Where the option after this one begins. All fields are 0 before the first one.
fn next_at(option: &TcpOptionPlace) -> usize
    ensures { result ≡ next_at option.now }
{
    if option.offset == 0 {
        return 0;
    }
    (usize::from(option.offset) + usize::from(option.len)).saturating_sub(TCP_HEADER_LEN)
}

// Steps to the option that begins here.
#[tactic(auto, using(crate::proofs::Steps::item_steps, crate::proofs::Steps::nothing_steps))]
fn step_to(option: &mut TcpOptionPlace, rest: &[u8], at: usize) -> i32
    requires some { 0 < length rest.now }
    requires few { at + length rest.now ≤ 40 }
    ensures returned { result ≡ (step_to rest.now at option.old).0 }
    ensures stored { option.new ≡ (step_to rest.now at option.old).1 }
{
    if rest[0] == 0 {
        *option = place_at(at, 0, 1);
        return 1;
    }
    match TcpOption::parse(rest) {
        Ok((following, _)) => {
            *option = place_at(at, rest[0], rest.len() - following.len());
            1
        }
        Err(_) => -1,
    }
}

// The place of an option that begins so many bytes after the first 20 of the header.
fn place_at(at: usize, kind: u8, len: usize) -> TcpOptionPlace
    requires at { at ≤ 40 }
    requires len { len ≤ 40 }
    ensures { result ≡ place_at at kind len }
{
    TcpOptionPlace {
        offset: (TCP_HEADER_LEN + at) as u8,
        kind,
        len: len as u8,
    }
}
