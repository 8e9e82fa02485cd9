//! Makes one library call per input line, and prints one answer per line. So other programs can be
//! compared with the library, call by call.
//!
//! A line ends at a line feed. Its words are separated by single spaces: the kind of call and its
//! operands. Numbers are decimal, bytes are hex digits, and `-` is no value or no bytes.
//!
//! - `tcp SRC DST SPORT DPORT CONTROL SEQ ACK WIN WS MSS SACKP RANGE.. TS PAYLOAD TX OLD`: the length of
//!   the header and, unless it is too long, the bytes of the segment. CONTROL is `none`, `psh`, `syn`,
//!   `fin` or `rst`. Each RANGE and TS is a pair `A,B`. There are `SACK_BLOCKS` RANGEs.
//! - `udp SRC DST SPORT DPORT PAYLOAD TX OLD`, `header SRC DST PROTOCOL LEN HOPS TX OLD` and
//!   `frag OFFSET MORE IDENT OLD`: the bytes that are emitted.
//! - `set VIEW CALL OPERAND.. BYTES`: the bytes after a call of a setter, as `set udp set_len 8 BYTES`. VIEW
//!   is `eth`, `arp`, `ipv4`, `ipv6`, `frag`, `udp` or `tcp`. The operands are those of CALL.
//! - `get VIEW BYTES`: what the getters of the view return, in the order of the fields.
//! - `again FORMAT CHOICES OLD BYTES`: the bytes are parsed, and the value is emitted again. The answer is
//!   the bytes that are emitted, or `err` if the bytes do not parse. FORMAT is `ipv4`, `ip`, `udp SRC DST`,
//!   `tcp SRC DST` or `frame`. CHOICES has a letter for each of IPv4, UDP, TCP, ICMPv4 and ICMPv6: `r` verifies
//!   checksums, `t` computes them, `b` does both, and `n` does neither.
//! - `walk OPTIONS`: the summary of TCP options, whether SACK is permitted, and the SACK ranges.
//! - `option BYTES`: the first TCP option and the number of bytes after it. Then the option, emitted into a
//!   buffer of bytes ff that is two longer, and the number of bytes that `emit` leaves of the buffer. `err` if
//!   there is no option.
//! - `block A/N B/M`: whether the first block contains the address B, and whether it contains the second
//!   block; for IPv4 also its netmask, network and broadcast address.
//! - `prefix ADDRESS`: n if the address is n ones, followed by zeros, else `-`.
//! - `netmask ADDRESS MASK`: the block of both, or `err`.
//! - `class ADDRESS`: the classes that contain it, in this order: `unspecified`, `broadcast`, `loopback`,
//!   `multicast`, `unique-local`, `link-local`, `global-unicast`, `solicited-node`, `unicast`. Then, for
//!   IPv6, `scope=` and the scope: `interface-local`, `link-local`, `admin-local`, `site-local`,
//!   `organization-local`, `global` or `unknown`.
//! - `sum BYTES`: their Internet checksum, before its complement.
//! - `host NAME LINK IPV4 IPV6 ECHO UDP PORTS SEQ WIN MSS WS CLOCK ROOM FRAME`: NAME, and the bytes of
//!   the reply of a host to FRAME, or `-` if it writes none into a buffer of ROOM bytes. LINK, IPV4 and
//!   IPV6 are its addresses, ECHO is its UDP echo port, UDP and PORTS are its other UDP ports and its open
//!   TCP ports, joined by commas. The other operands are what the TCP ports offer.
//! - `eth TEXT`, `ip TEXT`, `cidr4 TEXT`, `cidr6 TEXT`, `cidr TEXT` and `endpoint TEXT`: `ok` and the
//!   printed text of the parsed value, or `err`. The value is an Ethernet address, an IP address, a block of
//!   IPv4, of IPv6 or of either, or an endpoint. TEXT is everything after the first space.
//!
//! TX is 1 if checksums are computed. MORE, SACKP and the flags of setters are 1 for yes. The buffer is
//! filled with the byte OLD before the call. The answer is `unknown` for an unknown kind, and `malformed`
//! for operands that the call does not take.
//!
//! If reading or writing fails or memory runs out, the program prints one line on standard error and
//! exits with status 1.
//!
//! Proved: each line has an answer, the conditions of each call are met, and the answer to a text is the
//! result of its parser and its printer. The other answers are compared with a reference, or with answers
//! that follow from RFCs.
#![tactic(auto)]

mod again;
mod answer;
mod block;
mod class;
mod emit;
mod get;
mod host;
mod operands;
mod options;
mod run;
mod set;
mod tcp;
mod text;

use crate::run::run;
use std::process::ExitCode;

fn main(rt: HostRuntime) -> ExitCode {
    match run(rt.alloc(), rt.stdin(), rt.stdout()) {
        Ok(()) => ExitCode::SUCCESS,
        Err(e) => {
            let _ = eprintln!(rt; "{e}");
            ExitCode::FAILURE
        }
    }
}
