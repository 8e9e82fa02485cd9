//! Lets events happen to a TCP connection, or to a socket, which is one with time. Each input line is an event, and its answer
//! is printed at once on one line. So it can be compared with a model, event by event, or talk with other ends.
//!
//! The words of a line are separated by single spaces:
//!
//! - `new OUT IN`: another connection, in CLOSED, with rings of these sizes in bytes.
//! - `listen`, `open ISS`, `close` and `abort`: calls of the application.
//! - `write TEXT` and `read COUNT`: bytes from and for the application.
//! - `send OFFSET COUNT`: the next segment, or one again.
//! - `arrives SEQ ACK FLAGS WINDOW TEXT FRESH`: a segment comes, and the number of a connection that it opens.
//! - `socket MSS KEEP_ALIVE EAGER OUT IN`: another socket, in CLOSED, with these options (EAGER is 0 or 1) and rings.
//! - `at NOW`: sets the clock of a socket, in milliseconds. It begins at 0.
//! - `tick`: time passes. A socket has it instead of `send`.
//! - `arrives SEQ ACK FLAGS WINDOW TEXT OPTIONS FRESH`: a segment comes to a socket, with its TCP options.
//! - `too-big SEQ MSS`: an ICMP error about a segment with this number tells a socket how large segments may be.
//!
//! ACK is `-` without the flag ACK. FLAGS is a dot and the letters of SYN, FIN and RST. TEXT is taken as it stands, and `-`
//! is no text. A number that does not parse is 0. OPTIONS is `-` or has parts with a comma between them: `mss=1460`, `ws=7`
//! (the window scale), `sackok` (SACK permitted), `ts=5:9` (TSval and TSecr), and `sack=100-200` for each block of SACK. WINDOW
//! is the field of the header, which a window scale does not change.
//!
//! The answer is the state, and in other states than CLOSED and LISTEN also SND.NXT, RCV.NXT, RCV.WND and SND.WND. Then comes
//! what the call returns: the segment that goes out as `SEQ ACK FLAGS WINDOW TEXT`, that of a socket with OPTIONS, the count
//! of `write`, or the text of `read`, and `-` for nothing. The last word of a socket's answer is when the next `tick` has
//! something to do, and `-` for never.
//!
//! If reading or writing fails or memory runs out, the program ends with status 1.
#![tactic(auto)]

mod endpoint;
mod options;
mod words;

use crate::endpoint::Endpoint;
use crate::words::{NOTHING, Words};
use std::io;
use std::io::{BufWriter, Write};

fn main(rt: HostRuntime) -> io::Result<()> {
    let alloc = rt.alloc();
    let mut endpoint = Endpoint::new(alloc, 1, 1)?;
    let mut output = BufWriter::new(alloc, rt.stdout())?;
    for line in rt.lines(alloc) {
        let line = line?;
        let words: Vec<&str> = line.split(' ').collect(alloc)?;
        let mut words = Words::new(words.as_slice());
        let result = match words.word() {
            "new" => {
                endpoint = Endpoint::new(alloc, words.size(), words.size())?;
                String::from_str(alloc, NOTHING)?
            }
            "socket" => {
                let options = words.options();
                endpoint = Endpoint::timed(alloc, options, words.size(), words.size())?;
                String::from_str(alloc, "- -")?
            }
            name => endpoint.answer(alloc, name, &mut words)?,
        };
        let state = endpoint.variables(alloc)?;
        writeln!(output, "{state} {result}")?;
        output.flush()?;
    }
    Ok(())
}
