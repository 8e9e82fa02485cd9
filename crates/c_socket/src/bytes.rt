//! The bytes of the application.

ghost use Rattle.std.specs.Prelude.{◌≤◌, length};
ghost use Rattle.app_connection.specs.Endpoints.{InFits};
ghost use Rattle.c_socket.specs.Calls.{Delivers, Reads, Writes};

use app_connection::Connection;
use app_socket::SocketFields;
use c_structs::{usable, within};

// What a call returns if the ring does not fit.
const MISUSE: isize = -1;

/// Takes bytes of the application, as far as the ring has room. Returns how many, or -1 if the ring does not fit.
pub fn write(connection: &mut SocketFields, outgoing: &mut [u8], bytes: &[u8]) -> isize
    ensures { Writes connection.old connection.new outgoing.old outgoing.new bytes.now result }
{
    let mut streams = connection.connection();
    if !streams.fits_outgoing(outgoing.len()) {
        return MISUSE;
    }
    let count = streams.write(outgoing, within(bytes));
    connection.set_connection(&streams);
    count as isize
}

/// Copies the next bytes for the application. Returns how many, or -1 if the ring does not fit.
pub fn read(connection: &mut SocketFields, incoming: &[u8], out: &mut [u8]) -> isize
    ensures { Reads connection.old connection.new incoming.now out.old out.new result }
{
    let mut streams = connection.connection();
    if !streams.fits_incoming(incoming.len()) {
        return MISUSE;
    }
    let (front, _) = out.split_at_mut(usable(out.len()));
    let count = read_twice(&mut streams, incoming, front);
    connection.set_connection(&streams);
    count as isize
}

// Copies bytes up to the end of the ring, and from its beginning on.
fn read_twice(streams: &mut Connection, incoming: &[u8], out: &mut [u8]) -> usize
    requires { InFits streams.old.receiving (length incoming.now) }
    ensures few { result ≤ length out.old }
    ensures delivers { Delivers streams.old streams.new incoming.now out.old out.new result }
{
    let first = read_part(streams, incoming, out);
    let (_, rest) = out.split_at_mut(first);
    first + read_part(streams, incoming, rest)
}

// Copies bytes up to the end of the ring.
fn read_part(streams: &mut Connection, incoming: &[u8], out: &mut [u8]) -> usize
    requires { InFits streams.old.receiving (length incoming.now) }
    ensures fits { InFits streams.new.receiving (length incoming.now) }
    ensures few { result ≤ length out.old }
    ensures delivers { Delivers streams.old streams.new incoming.now out.old out.new result }
{
    let bytes = streams.read(incoming, out.len());
    let (front, _) = out.split_at_mut(bytes.len());
    front.copy_from_slice(bytes);
    bytes.len()
}
