//! The replies of TCP to a segment without a connection (RFC 9293, section 3.10.7), as values.

ghost use Rattle.std.specs.Prelude.{◌≡◌, ◌↔◌, ◌<◌, ◌+◌, ◌-◌, ◌^◌, [], IfSome, None, Some, length};
ghost use Rattle.std.specs.Option.{option_map};
ghost use Rattle.ip_wire.specs.TcpRepr.{TcpHeader, header_of, seq_of};
ghost use Rattle.app_host.specs.TcpReply.{Replies, back, closed_reply, listen_reply};

use ip_wire::{SACK_BLOCKS, TcpControl, TcpRepr, TcpSeqNumber, TcpTimestampRepr};

/// The largest window scale (RFC 7323, section 2.3).
const MAX_WINDOW_SCALE: u8 = 14;

/// What an open port offers in its replies.
#[derive(Debug, Clone, Copy, PartialEq, Eq)]
pub struct Offer {
    /// The initial sequence number, that of the SYN (RFC 9293, section 3.4.1).
    pub initial: TcpSeqNumber,
    /// The receive window in bytes. The window of a SYN is not scaled.
    pub window_len: u16,
    /// The maximum segment size that is accepted, in bytes.
    pub max_seg_size: u16,
    /// The window scale, at most 14; larger values count as 14.
    pub window_scale: u8,
    /// The clock of its timestamps.
    pub clock: u32,
}

/// The reply of a closed port (RFC 9293, section 3.10.7.1): RST, or `None` to a RST.
#[inline(always)]
pub fn closed<'a>(segment: &TcpRepr<'a>) -> Option<TcpRepr<'a>>
    requires { length segment.now.payload.now < 2 ^ 31 - 1 }
    ensures value { option_map header_of result ≡ closed_reply (header_of segment.now) (length segment.now.payload.now) }
    ensures payload { IfSome result (λ reply. reply.payload.now ≡ []) }
{
    if segment.control == TcpControl::Rst {
        return None;
    }
    let (seq_number, ack_number) = match segment.ack_number {
        Some(ack_number) => (ack_number, None),
        None => (
            TcpSeqNumber(0),
            Some(segment.seq_number + segment.segment_len()),
        ),
    };
    Some(TcpRepr {
        seq_number,
        ack_number,
        ..plain(segment, TcpControl::Rst)
    })
}

/// The reply of an open port (RFC 9293, section 3.10.7.2): SYN and ACK to a SYN, with those options that
/// the SYN has too, and RST to an acknowledgement. `None` to a RST, and to a segment with none of the three.
#[inline(always)]
pub fn listening<'a>(segment: &TcpRepr<'a>, offer: &Offer) -> Option<TcpRepr<'a>>
    requires { length segment.now.payload.now < 2 ^ 31 - 1 }
    ensures value { option_map header_of result ≡ listen_reply offer.now (header_of segment.now) }
    ensures payload { IfSome result (λ reply. reply.payload.now ≡ []) }
{
    if segment.ack_number.is_some() {
        return closed(segment);
    }
    if segment.control != TcpControl::Syn {
        return None;
    }
    Some(TcpRepr {
        seq_number: offer.initial,
        ack_number: Some(segment.seq_number + 1),
        window_len: offer.window_len,
        window_scale: segment
            .window_scale
            .map(|_| offer.window_scale.min(MAX_WINDOW_SCALE)),
        max_seg_size: Some(offer.max_seg_size),
        sack_permitted: segment.sack_permitted,
        timestamp: segment
            .timestamp
            .map(|stamp| TcpTimestampRepr::new(offer.clock, stamp.tsval)),
        ..plain(segment, TcpControl::Syn)
    })
}

/// The reply to a segment, if these ports are open.
#[inline(always)]
pub fn reply_to<'a>(segment: &TcpRepr<'a>, ports: &[u16], offer: &Offer) -> Option<TcpRepr<'a>>
    requires { length segment.now.payload.now < 2 ^ 31 - 1 }
    ensures value { (reply : TcpHeader) → (option_map header_of result ≡ Some reply)
        ↔ Replies ports.now offer.now (header_of segment.now) (length segment.now.payload.now) reply }
    ensures payload { IfSome result (λ reply. reply.payload.now ≡ []) }
{
    if ports.contains(&segment.dst_port) {
        listening(segment, offer)
    } else {
        closed(segment)
    }
}

// A segment back to the sender of this one, without numbers, options and payload.
#[inline(always)]
fn plain<'a>(segment: &TcpRepr<'a>, control: TcpControl) -> TcpRepr<'a>
    ensures value { header_of result ≡ back (header_of segment.now) control (seq_of 0) None }
    ensures payload { result.payload.now ≡ [] }
{
    TcpRepr {
        src_port: segment.dst_port,
        dst_port: segment.src_port,
        control,
        seq_number: TcpSeqNumber(0),
        ack_number: None,
        window_len: 0,
        window_scale: None,
        max_seg_size: None,
        sack_permitted: false,
        sack_ranges: [None; SACK_BLOCKS],
        timestamp: None,
        payload: &segment.payload[..0],
    }
}
