//! The block of output lines for one input line, with the rebuilt frame.

ghost use Rattle.std.specs.Prelude.{[], ◌≡◌, ◌≤◌, ◌++◌, ◌⊎◌, IfErr, IfOk, OnOk, Err, Ok, length, string_bytes};
ghost use Rattle.hex.specs.Hex.{decode_of, encode_lower};
ghost use Rattle.hex.specs.declared.error.FromHexError.TheVariants.{OutOfMemory};
ghost use Rattle.ip_frames.specs.Output.{AddsBytes, again_line, block_of, frame_lines};
ghost use Rattle.ip_wire.specs.Frame.{all_checked, rebuilt};
ghost use Rattle.ip_wire.specs.FrameValue.{Finds, Fits, frame_bytes, frame_len};

use crate::payload::push_payload;
use hex::FromHexError;
use hex_digits::{Digits, write_digits};
use ip_wire::{ChecksumCapabilities, EthernetFrame, Frame, laws};
use std::alloc::{AllocError, Global};

/// The buffers for a block. They are reused from line to line, so memory grows only if a line needs
/// more than those before it.
#[derive(Drop)]
pub struct Room {
    frame: Vec<u8>,
    again: Vec<u8>,
    pub block: Vec<u8>,
}

impl Room {
    /// Room that has no memory yet.
    pub fn new(alloc: Global) -> Room
        ensures { result.block.items ≡ [] }
    {
        Room {
            frame: Vec::new(alloc),
            again: Vec::new(alloc),
            block: Vec::new(alloc),
        }
    }

    /// The room with the block of an input line in it.
    pub fn with_block(self, line: &[u8], digits: &Digits) -> Result<Room, AllocError>
        ensures { IfOk result (λ room. room.block.items ≡ block_of line.now) }
    {
        let Room {
            mut frame,
            mut again,
            block,
        } = self;
        let mut text = empty_text(block);
        let mut block = match decode(line, digits, &mut frame) {
            Ok(()) => with_frame(text, frame.as_slice(), &mut again)?,
            Err(FromHexError::OutOfMemory) => return Err(AllocError),
            Err(_) => {
                text.push_str("not hex\n")?;
                text.into_bytes()
            }
        };
        block.push(b'\n')?;
        Ok(Room {
            frame,
            again,
            block,
        })
    }
}

// An empty text in the memory of `bytes`.
fn empty_text(mut bytes: Vec<u8>) -> String
    ensures { string_bytes result ≡ [] }
{
    bytes.clear();
    String::from_utf8(bytes).unwrap()
}

// Decodes the digits of a line into `frame`. Not inlined: inlined, the loop spills its registers.
#[inline(never)]
fn decode(line: &[u8], digits: &Digits, frame: &mut Vec<u8>) -> Result<(), FromHexError>
    ensures ok { OnOk result (decode_of line.now ≡ Ok frame.new.items) }
    ensures err { IfErr result (λ e. (e ≡ OutOfMemory) ⊎ (decode_of line.now ≡ Err e)) }
{
    if line.len() % 2 != 0 {
        return Err(FromHexError::OddLength);
    }
    frame.resize(line.len() / 2, 0)?;
    digits.decode(line, frame.as_mut_slice())
}

// The text, followed by the lines of a frame. The last line has the rebuilt frame, which is made in
// `again`.
fn with_frame(mut text: String, bytes: &[u8], again: &mut Vec<u8>) -> Result<Vec<u8>, AllocError>
    ensures { IfOk result (λ block. block.items ≡ string_bytes text ++ frame_lines bytes.now) }
{
    let view = EthernetFrame::new_unchecked(bytes);
    writeln!(text, "{view}")?;
    match Frame::read(bytes, &ChecksumCapabilities::default()) {
        Ok(frame) => {
            push_payload(&frame, view.payload(), &mut text)?;
            rebuild(&frame, bytes, again)?;
            with_again(text, again.as_slice())
        }
        Err(_) => Ok(text.into_bytes()),
    }
}

// Makes `again` the rebuilt frame.
fn rebuild(frame: &Frame<'_>, bytes: &[u8], again: &mut Vec<u8>) -> Result<(), AllocError>
    requires found { Finds all_checked bytes.now frame.now }
    requires fits { Fits frame.now }
    requires no_longer { frame_len frame.now ≤ length bytes.now }
    ensures { OnOk result (again.new.items ≡ rebuilt bytes.now) }
{
    again.resize(frame.buffer_len(), 0)?;
    emit(frame, again.as_mut_slice());
    laws::frame_rebuilds(bytes, frame);
    Ok(())
}

// Writes a frame with its checksums over all of `buffer`.
fn emit(frame: &Frame<'_>, buffer: &mut [u8])
    requires fits { Fits frame.now }
    requires room { frame_len frame.now ≡ length buffer.old }
    ensures { buffer.new ≡ frame_bytes all_checked frame.now }
{
    frame.emit(buffer, &ChecksumCapabilities::default());
}

// The text, followed by the line with a rebuilt frame.
#[tactic(auto, unfolding(crate::specs::Output::again_line))]
fn with_again(mut text: String, again: &[u8]) -> Result<Vec<u8>, AllocError>
    ensures { IfOk result (λ block. block.items ≡ string_bytes text ++ again_line again.now) }
{
    text.push_str("again ")?;
    let mut block = text.into_bytes();
    push_digits(again, &mut block)?;
    block.push(b'\n')?;
    Ok(block)
}

// Appends the digits of `bytes` to a text.
fn push_digits(bytes: &[u8], text: &mut Vec<u8>) -> Result<(), AllocError>
    ensures { OnOk result (AddsBytes text.old text.new (encode_lower bytes.now)) }
{
    let start = text.len();
    let len = bytes.len().checked_mul(2).ok_or(AllocError)?;
    let end = start.checked_add(len).ok_or(AllocError)?;
    text.resize(end, 0)?;
    write_digits(bytes, &mut text[start..]);
    Ok(())
}
