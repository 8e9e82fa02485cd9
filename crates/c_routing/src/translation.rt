//! Network address translation of one address and port.

ghost use Rattle.std.specs.Prelude.{◌≡◌};
ghost use Rattle.c_routing.specs.Translated.{Translates, side_of};

use crate::rejections::Rejection;
use app_edit::Side;
use app_nat::translate;
use c_structs::{Endpoint, MAX_LEN};

/// Writes another address and port into the packet of a frame over IPv4, in place. Returns 0, or the number of the
/// reason.
pub fn translate_frame(frame: &mut [u8], side: i32, end: &Endpoint) -> i32
    ensures { Translates frame.old frame.new (side_of side) end.now result }
{
    if end.addr.version != 4 {
        return Rejection::NoIpv4.code();
    }
    if frame.len() > MAX_LEN {
        return Rejection::NotIp.code();
    }
    match translate(frame, side_of(side), end.addr.ipv4(), end.port) {
        Ok(()) => 0,
        Err(reason) => Rejection::of_nat(reason).code(),
    }
}

// The side with this number: any number but 0 is the destination.
pub(crate) fn side_of(number: i32) -> Side
    ensures { result ≡ side_of number }
{
    if number == 0 {
        Side::Source
    } else {
        Side::Destination
    }
}
