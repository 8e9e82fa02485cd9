//! Whole frames.

ghost use Rattle.std.specs.Prelude.{◌≡◌, ◌≤◌, ◌++◌, drop, length, take};
ghost use Rattle.ip_wire.specs.Frame.{meaning_of, rebuilt};

use ip_wire::{ChecksumCapabilities, Frame, laws};

/// Writes the rebuilt frame to the front of `out`, and returns its length. It is no longer than the
/// frame.
pub fn rebuild(frame: &[u8], out: &mut [u8]) -> usize
    requires header { 14 ≤ length frame.now }
    requires room { length frame.now ≤ length out.old }
    ensures len { result ≡ length (rebuilt frame.now) }
    ensures no_longer { result ≤ length frame.now }
    ensures header { 14 ≤ result }
    ensures bytes { out.new ≡ rebuilt frame.now ++ drop result out.old }
{
    let caps = ChecksumCapabilities::default();
    match Frame::read(frame, &caps) {
        Ok(value) => {
            laws::frame_rebuilds(frame, &value);
            value.emit(out, &caps);
            value.buffer_len()
        }
        Err(_) => unreachable!(),
    }
}

/// A frame reaches a fixed point after two rounds: a third one changes nothing. It keeps its meaning, and no round
/// makes it longer. Returns the length of the last frame, which is at the front of `second`.
pub fn settles(frame: &[u8], first: &mut [u8], second: &mut [u8]) -> usize
    requires header { 14 ≤ length frame.now }
    requires first_room { length frame.now ≤ length first.old }
    requires second_room { length frame.now ≤ length second.old }
    ensures no_longer { result ≤ length frame.now }
    ensures settled { rebuilt (take result second.new) ≡ take result second.new }
    ensures keeps { meaning_of (take result second.new) ≡ meaning_of frame.now }
{
    let once = rebuild(frame, first);
    laws::frame_settles(frame, frame);
    rebuild(&first[..once], second)
}
