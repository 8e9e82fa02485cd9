//! A run from a reader to a writer.

use crate::answer::answers;
use std::alloc::{AllocError, Global};
use std::error::Error;
use std::io::{BufWriter, ErrorKind, Read, Write};
use std::{fmt, io};

/// Why a run failed.
#[derive(Clone, Copy, Debug, PartialEq, Eq)]
pub enum RunError {
    /// The reader failed.
    Read,
    /// The writer failed.
    Write,
    /// Memory ran out.
    Memory,
}

impl From<AllocError> for RunError {
    fn from(_e: AllocError) -> RunError {
        RunError::Memory
    }
}

/// The program's name and what failed.
impl fmt::Display for RunError {
    fn fmt<W: fmt::Write>(&self, f: &mut fmt::Formatter<W>) -> fmt::Result {
        match *self {
            RunError::Read => write!(f, "ip_calls: read failed"),
            RunError::Write => write!(f, "ip_calls: write failed"),
            RunError::Memory => write!(f, "ip_calls: out of memory"),
        }
    }
}

impl Error for RunError {}

/// Reads lines to the end of the reader, and then writes the answer of each on one line.
pub fn run<R: Read + Drop, W: Write + Drop>(
    alloc: Global,
    mut reader: R,
    writer: W,
) -> Result<(), RunError> {
    let mut input = Vec::new(alloc);
    if let Err(e) = reader.read_to_end(&mut input) {
        return Err(failed(e.kind(), RunError::Read));
    }
    let texts = answers(alloc, input.as_slice())?;
    match write_lines(alloc, texts.as_slice(), writer) {
        Ok(()) => Ok(()),
        Err(e) => Err(failed(e.kind(), RunError::Write)),
    }
}

// Writes each text on a line.
fn write_lines<W: Write + Drop>(alloc: Global, texts: &[String], writer: W) -> io::Result<()> {
    let mut output = BufWriter::new(alloc, writer)?;
    for text in texts {
        writeln!(output, "{text}")?;
    }
    output.flush()
}

// What failed, by the kind of error of a device.
fn failed(kind: ErrorKind, device: RunError) -> RunError {
    match kind {
        ErrorKind::OutOfMemory => RunError::Memory,
        _ => device,
    }
}
