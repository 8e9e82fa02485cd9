//! The window that is advertised (RFC 9293, section 3.8.6).

ghost use Rattle.std.specs.Prelude.{◌≡◌, ◌≤◌};
ghost use Rattle.app_socket.specs.Window.{least_growth, advertised, moved, is_update_due, read_as};

use tcp_stream::is_ahead;

// By how much the window has to grow before a larger one is advertised (section 3.8.6.2.2), with a ring of this size.
pub(crate) fn least_growth(size: usize, mss: u16) -> u32
    ensures { result ≡ least_growth size mss }
{
    (size / 2).min(usize::from(mss)).max(1) as u32
}

// The window to advertise at RCV.NXT, with room for so many bytes. `edge` is the right edge that was advertised last.
pub(crate) fn advertised(edge: u32, next: u32, room: u32, least: u32) -> u32
    ensures { result ≡ advertised edge next room least }
{
    let promised = edge.wrapping_sub(next);
    if promised <= room && room - promised < least {
        promised
    } else {
        room
    }
}

// The right edge after `target` was advertised: it never goes back.
pub(crate) fn moved(edge: u32, target: u32) -> u32
    ensures { result ≡ moved edge target }
{
    if is_ahead(edge, target) { target } else { edge }
}

// A window as the peer reads it: windows are scaled by 2^shift.
fn read_as(window: u32, shift: u8) -> u32
    requires { shift ≤ 14 }
    ensures { result ≡ read_as window shift }
{
    window >> shift << shift
}

// Whether the peer has to hear that the window is open again: it would read much more of it, and little of it is left, or at most
// half of what there is room for (section 3.8.6.2.2).
pub(crate) fn is_update_due(edge: u32, next: u32, room: u32, least: u32, shift: u8) -> bool
    requires { shift ≤ 14 }
    ensures { result ≡ is_update_due edge next room least shift }
{
    let promised = edge.wrapping_sub(next);
    if promised > room || room - promised < least {
        return false;
    }
    let told = read_as(promised, shift);
    read_as(room, shift).saturating_sub(told) >= least
        && (told < least || room - promised >= promised)
}
