//! Frames that are sent: emitted with all checksums, so that they parse as their values.

ghost use Rattle.std.specs.Prelude.{◌≡◌, IfSome};
ghost use Rattle.ip_wire.specs.Reply.{IsReplySent, IsSendable, IsSent};

use super::Frame;
use crate::laws;
use net_base::ChecksumCapabilities;

/// Emits a frame to the front of `out` with its checksums, and returns its length. `None` if it does not
/// fit; then `out` is unchanged.
pub fn send(frame: &Frame<'_>, out: &mut [u8]) -> Option<usize>
    requires { IsSendable frame.now }
    ensures { IsSent frame.now out.old out.new result }
{
    let caps = ChecksumCapabilities::default();
    let len = frame.try_emit(out, &caps)?;
    laws::frame_reads_back(frame, &out[len..], caps, caps);
    Some(len)
}

/// As `send`, for the reply to a frame. `None` if there is no reply; then `out` is unchanged.
pub fn send_reply(reply: &Option<Frame<'_>>, out: &mut [u8]) -> Option<usize>
    requires { IfSome reply.now IsSendable }
    ensures { IsReplySent reply.now out.old out.new result }
{
    match reply {
        Some(frame) => send(frame, out),
        None => None,
    }
}
