//! The options of the TCP header in a frame, stored in the struct of C.

ghost use Rattle.std.specs.Prelude.{◌≡◌};
ghost use Rattle.c_structs.specs.Codes.{transport_code};
ghost use Rattle.c_structs.specs.declared.codes.TransportKind.TheVariants as transport;
ghost use Rattle.c_read.specs.FrameFields.{fields_of};
ghost use Rattle.c_read.specs.FrameOptions.{HasOptions};

use crate::tcp_options::{from_summary, read_header};
use c_structs::{FrameFields, TcpOptions, TransportKind};
use ip_wire::TcpOptionSummary;

/// Stores the options of the TCP header in a frame whose fields are stored, or zeros if none was read.
#[inline(always)]
pub fn read_frame_options(options: &mut TcpOptions, fields: &FrameFields, frame: &[u8])
    requires { fields.now.transport ≡ transport_code transport.Tcp → fields.now ≡ fields_of frame.now }
    ensures { HasOptions fields.now frame.now options.new }
{
    if fields.transport != TransportKind::Tcp.code() {
        *options = from_summary(&TcpOptionSummary::default());
        return;
    }
    read_header(
        options,
        &frame[fields.transport_offset..fields.payload_offset],
    );
}
