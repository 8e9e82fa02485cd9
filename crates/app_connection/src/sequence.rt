//! Tests of sequence numbers (RFC 9293, sections 3.4 and 3.10.7.4).

ghost use Rattle.std.specs.Prelude.{◌≡◌, ◌<◌};
ghost use Rattle.app_connection.specs.Sequence.{is_inside, is_acceptable_at, is_taken_at};

/// Whether a number is in a window that begins at `next`.
pub(crate) fn is_in_window(next: u32, window: u32, number: u32) -> bool
    ensures { result ≡ is_inside next window number }
{
    number.wrapping_sub(next) < window
}

/// Whether a segment of `len` numbers is acceptable: the four cases of section 3.10.7.4.
pub(crate) fn is_acceptable(next: u32, window: u32, number: u32, len: u32) -> bool
    ensures { result ≡ is_acceptable_at next window number len }
{
    if len == 0 {
        return if window == 0 {
            number == next
        } else {
            is_in_window(next, window, number)
        };
    }
    let last = number.wrapping_add(len - 1);
    is_in_window(next, window, number) || is_in_window(next, window, last)
}

/// Whether the acknowledgement and the window of a segment of `len` numbers are taken in a synchronized state: an acceptable
/// segment, or one of no number at most one past the window, where a peer is that probed a closed window.
pub(crate) fn is_taken(next: u32, window: u32, number: u32, len: u32) -> bool
    requires { window < 1073741824 }
    ensures { result ≡ is_taken_at next window number len }
{
    if len == 0 {
        return is_in_window(next, window + 2, number);
    }
    is_acceptable(next, window, number, len)
}
