//! TCP headers that parse without a walk over their options.

ghost use Rattle.std.specs.Prelude.{◌≡◌, ◌≤◌, ◌⊎◌, IsTrue, length};
ghost use Rattle.ip_wire.specs.Tcp.{header_len};
ghost use Rattle.c_structs.specs.TcpKept.{HasPaddedStamp, HasStamp};
ghost use Rattle.c_read.specs.TcpUsual.{IsUsual};

use c_structs::{has_padded_stamp, has_stamp};
use ip_wire::TcpPacket;

/// Whether a segment parses without a walk over its options, if its checksum is not looked at: the ports are not 0,
/// the flags are ACK or ACK and PSH, and there is no option, or only a timestamp.
#[inline(always)]
pub fn is_usual(bytes: &[u8]) -> bool
    requires { 20 ≤ length bytes.now }
    ensures { IsTrue result → IsUsual bytes.now }
{
    let packet = TcpPacket::new_unchecked(bytes);
    has_usual_list(bytes)
        && matches!(bytes[13], 0x10 | 0x18)
        && packet.src_port() != 0
        && packet.dst_port() != 0
}

// Whether a header has no reserved bit, and no option or a timestamp.
#[inline(always)]
fn has_usual_list(bytes: &[u8]) -> bool
    requires { 20 ≤ length bytes.now }
    ensures { IsTrue result → (header_len bytes.now ≡ 20) ⊎ HasPaddedStamp bytes.now ⊎ HasStamp bytes.now }
{
    match bytes[12] {
        0x50 => true,
        0x80 => has_padded_stamp(bytes) || has_stamp(bytes),
        _ => false,
    }
}
