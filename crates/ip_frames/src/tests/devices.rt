//! Runs over devices that hold, and over devices that fail.

use crate::devices::{FrameSink, FrameSource};
use crate::memory::{MemorySink, MemorySource};
use crate::run::{RunError, run};
use crate::tests::examples::{EXAMPLES, FOUR_SACK_BLOCKS};
use crate::tests::fakes::{FailingSource, StuckSink};
use std::alloc::Global;

/// Room for every output, in bytes.
const ROOM: usize = 512;

// Whether a run to a sink with room for so many bytes ends so, and writes this. What is written is flushed unless the
// sink failed, and it fails once.
fn leaves(
    alloc: Global,
    input: &[u8],
    room: usize,
    wanted: Result<(), RunError>,
    output: &[u8],
) -> bool {
    let mut bytes = [0; ROOM];
    let mut source = MemorySource::new(input);
    let mut sink = MemorySink::new(&mut bytes[..room.min(ROOM)]);
    run(alloc, &mut source, &mut sink) == wanted
        && sink.written() == output
        && sink.flushed() == wanted.is_ok()
        && sink.failures() == u64::from(wanted.is_err())
}

#[test]
fn a_line_has_a_block(rt: HostRuntime) {
    for (input, output) in EXAMPLES {
        assert!(rt; leaves(rt.alloc(), input, ROOM, Ok(()), output));
    }
}

#[test]
fn four_sack_blocks_are_kept(rt: HostRuntime) {
    let (input, output) = FOUR_SACK_BLOCKS;
    assert!(rt; leaves(rt.alloc(), input, ROOM, Ok(()), output));
}

#[test]
fn a_sink_that_is_full_has_the_beginning(rt: HostRuntime) {
    for (input, output) in EXAMPLES {
        for n in 0..output.len() {
            assert!(rt; leaves(rt.alloc(), input, n, Err(RunError::Write), &output[..n]));
        }
        assert!(rt; leaves(rt.alloc(), input, output.len(), Ok(()), output));
    }
}

// Whether a run over a source that fails after `left` bytes fails to read, with nothing written. The source counts it.
fn fails_to_read(alloc: Global, input: &[u8], left: usize, before: u64, after: u64) -> bool {
    let mut bytes = [0; ROOM];
    let mut source = FailingSource {
        rest: input,
        left,
        failures: before,
    };
    let mut sink = MemorySink::new(&mut bytes);
    run(alloc, &mut source, &mut sink) == Err(RunError::Read)
        && source.failures() == after
        && sink.written().is_empty()
        && !sink.flushed()
        && sink.failures() == 0
}

#[test]
fn a_source_that_fails_leaves_nothing_written(rt: HostRuntime) {
    for (input, _) in EXAMPLES {
        for left in 0..input.len() {
            assert!(rt; fails_to_read(rt.alloc(), input, left, 0, 1));
        }
        assert!(rt; fails_to_read(rt.alloc(), input, input.len(), 0, 1));
        assert!(rt; fails_to_read(rt.alloc(), input, 0, u64::MAX, u64::MAX));
    }
}

// Whether a run to a sink that takes one byte at a time, and not more than `room`, fails to write, with this written.
// The sink counts the failure.
fn sticks(alloc: Global, input: &[u8], room: usize, output: &[u8], counts: (u64, u64)) -> bool {
    let mut bytes = [0; ROOM];
    let mut source = MemorySource::new(input);
    let mut sink = StuckSink {
        room: &mut bytes[..room.min(ROOM)],
        len: 0,
        failures: counts.0,
    };
    run(alloc, &mut source, &mut sink) == Err(RunError::Write)
        && sink.written() == output
        && sink.failures() == counts.1
}

#[test]
fn a_sink_that_takes_no_byte_has_the_beginning(rt: HostRuntime) {
    for (input, output) in EXAMPLES {
        for n in 0..output.len() {
            assert!(rt; sticks(rt.alloc(), input, n, &output[..n], (0, 1)));
        }
    }
}

#[test]
fn a_flush_that_fails_is_a_write_that_fails(rt: HostRuntime) {
    for (input, output) in EXAMPLES {
        assert!(rt; sticks(rt.alloc(), input, ROOM, output, (0, 1)));
        assert!(rt; sticks(rt.alloc(), input, ROOM, output, (u64::MAX - 1, u64::MAX)));
        assert!(rt; sticks(rt.alloc(), input, ROOM, output, (u64::MAX, u64::MAX)));
    }
}

// Whether a run to a sink in memory is `Ok`.
fn appends(alloc: Global, input: &[u8], sink: &mut MemorySink<'_>) -> bool {
    let mut source = MemorySource::new(input);
    run(alloc, &mut source, sink).is_ok()
}

#[test]
fn what_was_written_before_stays(rt: HostRuntime) {
    let mut room = [0; ROOM];
    let mut sink = MemorySink::new(&mut room);
    assert!(rt; appends(rt.alloc(), b"0g\n", &mut sink));
    assert!(rt; appends(rt.alloc(), b"\r\n\n", &mut sink));
    assert!(rt;
        sink.written()
            == b"not hex\n\nEthernetII (wire::Error)\n\nEthernetII (wire::Error)\n\n".as_slice()
    );
}
