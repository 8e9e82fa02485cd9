//! Emission of TCP segments.

use crate::operands::{Operands, seq_number_of};
use ip_wire::{
    SACK_BLOCKS, TCP_MAX_HEADER_LEN, TcpControl, TcpPacketMut, TcpRepr, TcpTimestampRepr,
};
use std::alloc::{AllocError, Global};

/// The length of the header and, unless it is too long for a header, the bytes of the segment.
pub fn answer(alloc: Global, operands: &mut Operands<'_>) -> Result<String, AllocError> {
    let (src_addr, dst_addr) = operands.addresses();
    let fields = segment(operands);
    let payload = operands.octets(alloc)?;
    let (caps, old) = (operands.computed(), operands.number());
    let segment = TcpRepr {
        payload: payload.as_slice(),
        ..fields
    };
    let header_len = segment.header_len();
    if header_len > TCP_MAX_HEADER_LEN {
        return format!(in alloc; "{header_len}");
    }
    let mut out = vec![in alloc; old; segment.buffer_len()]?;
    let mut emitted = TcpPacketMut::new_unchecked(out.as_mut_slice());
    segment.emit(&mut emitted, &src_addr, &dst_addr, &caps);
    let digits = hex::encode(alloc, out.as_slice())?;
    format!(in alloc; "{header_len} {digits}")
}

// A segment without a payload.
fn segment(operands: &mut Operands<'_>) -> TcpRepr<'static> {
    TcpRepr {
        src_port: operands.number(),
        dst_port: operands.number(),
        control: control(operands),
        seq_number: operands.seq_number(),
        ack_number: operands.maybe().map(seq_number_of),
        window_len: operands.number(),
        window_scale: operands.maybe(),
        max_seg_size: operands.maybe(),
        sack_permitted: operands.flag(),
        sack_ranges: sack_ranges(operands),
        timestamp: operands
            .pair()
            .map(|(tsval, tsecr)| TcpTimestampRepr::new(tsval, tsecr)),
        payload: &[],
    }
}

// The control of a name.
fn control(operands: &mut Operands<'_>) -> TcpControl {
    match operands.word() {
        "none" => TcpControl::None,
        "psh" => TcpControl::Psh,
        "syn" => TcpControl::Syn,
        "fin" => TcpControl::Fin,
        "rst" => TcpControl::Rst,
        _ => {
            operands.reject();
            TcpControl::None
        }
    }
}

// As many ranges as a segment keeps.
fn sack_ranges(operands: &mut Operands<'_>) -> [Option<(u32, u32)>; SACK_BLOCKS] {
    let mut ranges = [None; SACK_BLOCKS];
    for range in ranges.iter_mut() {
        *range = operands.pair();
    }
    ranges
}
