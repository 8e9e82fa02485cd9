//! Runs over readers and writers of the standard library.

ghost use Rattle.std.specs.Prelude.{Some};

use crate::devices::{FrameSink, FrameSource};
use crate::run::RunError;
use crate::streams::{StreamSink, StreamSource, run_streams};
use std::alloc::{AllocError, Global};
use std::io::{self, ErrorKind, Read, Write};

const INPUT: &[u8] = b"\n0g\n";

const OUTPUT: &[u8] = b"EthernetII (wire::Error)\n\nnot hex\n\n";

/// A reader that is interrupted before each byte.
#[derive(Drop)]
struct InterruptedReader<'a> {
    rest: &'a [u8],
    ready: bool,
}

impl Read for InterruptedReader<'_> {
    ghost remaining = { λ s. Some s.rest.now };

    fn read(&mut self, buf: &mut [u8]) -> io::Result<usize> {
        self.ready = !self.ready;
        if self.ready {
            return Err(io::Error::from(ErrorKind::Interrupted));
        }
        let n = buf.len().min(self.rest.len()).min(1);
        let (front, rest) = self.rest.split_at(n);
        buf[..n].copy_from_slice(front);
        self.rest = rest;
        Ok(n)
    }
}

/// A writer with an error before each write. It takes some bytes at a time, and so many.
#[derive(Drop)]
struct FailingWriter<'a> {
    taken: &'a mut Vec<u8>,
    room: usize,
    error: ErrorKind,
    ready: bool,
}

impl Write for FailingWriter<'_> {
    fn write(&mut self, buf: &[u8]) -> io::Result<usize> {
        self.ready = !self.ready;
        if self.ready {
            return Err(io::Error::from(self.error));
        }
        let n = buf.len().min(self.room).min(4096);
        self.room -= n;
        self.taken.write(&buf[..n])
    }

    fn flush(&mut self) -> io::Result<()> {
        Ok(())
    }
}

// Whether a run to a writer with this error and room ends so, and the writer has so many bytes, which begin so. All is
// flushed unless the sink fails, and it fails once. The source is interrupted, and does not fail.
fn ends(
    alloc: Global,
    input: &[u8],
    error: ErrorKind,
    room: usize,
    wanted: Result<(), RunError>,
    len: usize,
    output: &[u8],
) -> Result<bool, AllocError> {
    let mut taken = Vec::new(alloc);
    let mut source = StreamSource::new(InterruptedReader {
        rest: input,
        ready: false,
    });
    let mut sink = StreamSink::new(
        alloc,
        FailingWriter {
            taken: &mut taken,
            room,
            error,
            ready: false,
        },
    )?;
    let is_so = run_streams(alloc, &mut source, &mut sink) == wanted
        && source.failures() == 0
        && sink.flushed() == wanted.is_ok()
        && sink.failures() == u64::from(wanted.is_err());
    drop(sink);
    Ok(is_so && taken.len() == len && taken.as_slice().starts_with(output))
}

#[test]
fn a_writer_that_is_full_has_the_beginning(rt: HostRuntime) -> Result<(), AllocError> {
    let (error, wanted) = (ErrorKind::Interrupted, Err(RunError::Write));
    for n in 0..OUTPUT.len() {
        assert!(rt; ends(rt.alloc(), INPUT, error, n, wanted, n, &OUTPUT[..n])?);
    }
    Ok(())
}

// What is written for an empty line and one of zeros starts so.
const LONG_OUTPUT: &[u8] = b"EthernetII (wire::Error)\n\n\
    EthernetII src=00-00-00-00-00-00 dst=00-00-00-00-00-00 type=0x0000\nagain 0000";

// The last block of the second run does not fit the buffer.
#[test]
fn an_interruption_is_no_failure(rt: HostRuntime) -> Result<(), AllocError> {
    let (error, room) = (ErrorKind::Interrupted, 100_000);
    assert!(rt; ends(rt.alloc(), INPUT, error, room, Ok(()), 35, OUTPUT)?);
    let mut input = vec![in rt.alloc(); b'0'; 80001]?;
    input.as_mut_slice()[0] = b'\n';
    assert!(rt;
        ends(
            rt.alloc(),
            input.as_slice(),
            error,
            room,
            Ok(()),
            80101,
            LONG_OUTPUT
        )?
    );
    Ok(())
}

#[test]
fn what_was_reported_as_failed_is_not_written_again(rt: HostRuntime) -> Result<(), AllocError> {
    let (error, wanted) = (ErrorKind::StorageFull, Err(RunError::Write));
    assert!(rt; ends(rt.alloc(), INPUT, error, 100, wanted, 0, b"")?);
    Ok(())
}
