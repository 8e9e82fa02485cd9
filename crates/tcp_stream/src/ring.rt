//! Bytes in a ring of the caller's.

ghost use Rattle.std.specs.Prelude.{◌≡◌, ◌+◌, ◌≤◌, ◌<◌, ◌⊎◌, ◌*◌, length};
ghost use Rattle.tcp_stream.specs.Ring.{ring, placed};

// A ring has less than 2^30 bytes, which is the largest window (RFC 7323, section 2.3).
pub(crate) const RING_LIMIT: usize = 1 << 30;

// The index in a buffer of this size of a place that is less than one round past its end.
pub(crate) fn wrapped(place: usize, size: usize) -> usize
    requires { place < size + size }
    ensures inside { result < size }
    ensures same { (result ≡ place) ⊎ (result + size ≡ place) }
{
    if place >= size { place - size } else { place }
}

// Writes bytes after the first `len` of the ring that begins at `start`. The others stay.
pub(crate) fn put(buffer: &mut [u8], start: usize, len: usize, bytes: &[u8])
    requires start { start < length buffer.old }
    requires room { len + length bytes.now ≤ length buffer.old }
    requires small { length buffer.old < 1073741824 }
    ensures { ring start buffer.new ≡ placed len bytes.now (ring start buffer.old) }
{
    let end = start + len;
    let at = if end >= buffer.len() {
        end - buffer.len()
    } else {
        end
    };
    let first = bytes.len().min(buffer.len() - at);
    buffer[at..at + first].copy_from_slice(&bytes[..first]);
    buffer[..bytes.len() - first].copy_from_slice(&bytes[first..]);
}
