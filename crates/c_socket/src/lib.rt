//! TCP connections, as the calls of `include/ip_wire.h` make them. `c_exports` exports them to C.
#![tactic(auto)]

mod application;
mod bytes;
mod calls;
pub mod laws;
mod options;
mod segment;

pub use app_socket::SocketFields;
pub use application::{abort, close, due, init, is_ended, learn_mss, listen, state, waiting};
pub use bytes::{read, write};
pub use calls::{connect, take, tick};
pub use segment::SegmentFields;

// `struct lk_connection` has 512 bytes.
const _: () = prove!(size_of::<SocketFields>() <= 512);
