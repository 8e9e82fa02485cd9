//! The calls that parse.

ghost use Rattle.std.specs.Prelude.{◌≡◌, ◌≤◌, length};

use c_exports::read_calls::{
    lk_find_tcp_options, lk_read_captured, lk_read_captured_packet, lk_read_frame,
    lk_read_frame_options, lk_read_packet,
};
use c_structs::{FrameFields, TcpOptions};

/// A TCP header has one list of options.
pub fn read_tcp_options_once(
    header: &[u8],
    options: &mut TcpOptions,
    other: &mut TcpOptions,
) -> (i32, i32)
    requires { options.old ≡ other.old }
    ensures returned { result.0 ≡ result.1 }
    ensures written { options.new ≡ other.new }
{
    (
        lk_find_tcp_options(header, options),
        lk_find_tcp_options(header, other),
    )
}

/// Bytes parse as one frame with one list of options.
pub fn read_frame_options_once(
    bytes: &[u8],
    frame: &mut FrameFields,
    other: &mut FrameFields,
    options: &mut TcpOptions,
    others: &mut TcpOptions,
) -> (i32, i32)
    ensures returned { result.0 ≡ result.1 }
    ensures written { frame.new ≡ other.new }
    ensures stored { options.new ≡ others.new }
{
    (
        lk_read_frame_options(bytes, frame, options),
        lk_read_frame_options(bytes, other, others),
    )
}

/// Of more bytes than a frame has, its own are parsed.
#[tactic(auto, using(crate::proofs::Once::short_bytes, crate::proofs::Once::short_len, crate::proofs::Once::short_front))]
pub fn whole_frame(captured: &[u8], len: usize, frame: &mut FrameFields, other: &mut FrameFields)
    requires part { len ≤ length captured.now }
    requires usable { length captured.now ≤ 1099511627775 }
    ensures { frame.new ≡ other.new }
{
    lk_read_captured(captured, len, frame);
    lk_read_frame(&captured[..len], other);
}

/// Of more bytes than a packet has, its own are parsed.
#[tactic(auto, using(crate::proofs::Once::short_bytes, crate::proofs::Once::short_len, crate::proofs::Once::short_front))]
pub fn whole_packet(captured: &[u8], len: usize, frame: &mut FrameFields, other: &mut FrameFields)
    requires part { len ≤ length captured.now }
    requires usable { length captured.now ≤ 1099511627775 }
    ensures { frame.new ≡ other.new }
{
    lk_read_captured_packet(captured, len, frame);
    lk_read_packet(&captured[..len], other);
}
