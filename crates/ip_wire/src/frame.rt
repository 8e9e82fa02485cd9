//! A whole Ethernet frame, as a value.

ghost use Rattle.std.specs.Prelude.{◌≡◌, ◌<◌, ◌≤◌, ◌^◌, ◌++◌, ◌↔◌, IfOk, IsOk, Some, drop, length};
ghost use Rattle.std.specs.Option.{option_map};
ghost use Rattle.ip_wire.specs.Frame as frame;
ghost use Rattle.ip_wire.specs.FrameValue.{Finds, Fits, Gives, Parses, carried_payload, frame_bytes, frame_len, frame_text};
ghost use Rattle.ip_wire.specs.Frame.{ReadsFrame, frame_of};
ghost use Rattle.ip_wire.specs.Packet.{IsFrame};
ghost use Rattle.wire_ethernet.specs.declared.EthernetRepr.{EthernetRepr};
ghost use Rattle.net_base.specs.Filled.{Fills};

mod build;
mod carried;
mod header;
mod packet;
mod reply;
mod transport;

pub use carried::Carried;
pub use header::{HeaderFault, parse_ipv4};
use net_base::{ChecksumCapabilities, Error, Result};
pub use packet::Packet;
pub use reply::{send, send_reply};
use std::fmt;
pub use transport::Transport;
use wire_ethernet::{ETHERNET_HEADER_LEN, EthernetFrame, EthernetFrameMut, EthernetRepr};

/// An Ethernet II frame: the values of its headers, and the innermost payload.
#[derive(Debug, Clone, Copy, PartialEq, Eq)]
pub struct Frame<'a> {
    /// The Ethernet header.
    pub header: EthernetRepr,
    /// What follows it.
    pub carried: Carried<'a>,
}

impl<'a> Frame<'a> {
    /// Parses a frame leniently: from the first rejected header on, the bytes are kept as `Unread`.
    /// Padding is dropped. Verifies the checksums that `caps` selects. Fails for fewer than 14
    /// bytes.
    #[inline(always)]
    pub fn read(bytes: &'a [u8], caps: &ChecksumCapabilities) -> Result<Frame<'a>>
        ensures ok { IsOk result ↔ (14 ≤ length bytes.now) }
        ensures value { IfOk result (Finds caps.now bytes.now) }
        ensures fits { IfOk result Fits }
        ensures no_longer { IfOk result (λ f. frame_len f ≤ length bytes.now) }
    {
        let frame = EthernetFrame::new_unchecked(bytes);
        let header = EthernetRepr::parse(&frame)?;
        let carried = Carried::read(header.ethertype, frame.payload(), caps);
        Ok(Frame { header, carried })
    }

    /// As `read`, but an error unless everything was parsed: an ARP packet, or an IP packet with its
    /// transport. IPv4 fragments and unknown EtherTypes are errors.
    #[inline(always)]
    pub fn parse(bytes: &'a [u8], caps: &ChecksumCapabilities) -> Result<Frame<'a>>
        ensures value { IsFrame (frame_of caps.now bytes.now) result }
        ensures ok { IfOk result (Parses caps.now bytes.now) }
        ensures reads { (v : EthernetRepr) (c : frame.Carried) → Gives result v c ↔ ReadsFrame caps.now bytes.now v c }
        ensures fits { IfOk result Fits }
        ensures no_longer { IfOk result (λ f. frame_len f ≤ length bytes.now) }
    {
        match Frame::read(bytes, caps) {
            Ok(frame) => {
                if frame.carried.is_read() {
                    Ok(frame)
                } else {
                    Err(Error)
                }
            }
            Err(error) => Err(error),
        }
    }

    /// The payload of the transport. None if no transport header was parsed.
    #[inline(always)]
    pub fn payload(&self) -> Option<&'a [u8]>
        ensures { option_map (λ bytes. bytes.now) result ≡ carried_payload self.now.carried }
    {
        self.carried.payload()
    }

    /// The number of bytes that `emit` writes.
    #[inline(always)]
    pub fn buffer_len(&self) -> usize
        requires { frame_len self.now < 2 ^ 64 }
        ensures { result ≡ frame_len self.now }
    {
        ETHERNET_HEADER_LEN + self.carried.buffer_len()
    }

    /// Writes the frame to the front of `buffer`. All bytes after it stay unchanged. Computes the
    /// checksums that `caps` selects; the others are 0.
    #[inline(always)]
    pub fn emit(&self, buffer: &mut [u8], caps: &ChecksumCapabilities)
        requires room { frame_len self.now ≤ length buffer.old }
        requires fits { Fits self.now }
        ensures { buffer.new ≡ frame_bytes caps.now self.now ++ drop (frame_len self.now) buffer.old }
    {
        self.try_emit(buffer, caps);
    }

    /// As `emit`, and returns the number of bytes. Returns `None` and writes nothing if they do not fit.
    #[inline(always)]
    pub fn try_emit(&self, out: &mut [u8], caps: &ChecksumCapabilities) -> Option<usize>
        requires { Fits self.now }
        ensures { Fills (frame_bytes caps.now self.now) (frame_len self.now) out.old out.new result }
    {
        if out.len() < ETHERNET_HEADER_LEN {
            return None;
        }
        let (front, rest) = out.split_at_mut(ETHERNET_HEADER_LEN);
        match self.carried.try_emit(rest, caps) {
            Some(len) => {
                self.header
                    .emit(&mut EthernetFrameMut::new_unchecked(front));
                Some(ETHERNET_HEADER_LEN + len)
            }
            None => None,
        }
    }
}

/// A line for each layer, without a line end after the last.
impl fmt::Display for Frame<'_> {
    ghost output = { λ frame. Some (frame_text frame) };

    fn fmt<W: fmt::Write>(&self, f: &mut fmt::Formatter<W>) -> fmt::Result {
        let (header, carried) = (self.header, &self.carried);
        write!(f, "{header}{carried}")
    }
}
