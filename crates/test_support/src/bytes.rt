//! Bytes that are changed, copied and compared.

/// The value of each byte of a buffer before a write.
pub const OLD: [u8; 3] = [0x00, 0xa5, 0xff];

/// Writes bytes to some places of a frame.
pub fn change(frame: &mut [u8], octets: &[(usize, u8)]) {
    for (at, octet) in octets {
        if let Some(changed) = frame.get_mut(*at) {
            *changed = *octet;
        }
    }
}

/// Copies the bytes to a buffer of the same length. Returns the length of the buffer.
pub fn copy_to(buffer: &mut [u8], bytes: &[u8]) -> usize {
    if buffer.len() == bytes.len() {
        buffer.copy_from_slice(bytes);
    }
    buffer.len()
}

/// Whether a buffer begins with these bytes, and holds only the old byte after them.
pub fn has_front(buffer: &[u8], front: &[u8], old: u8) -> bool {
    if buffer.len() < front.len() {
        return false;
    }
    for byte in &buffer[front.len()..] {
        if *byte != old {
            return false;
        }
    }
    &buffer[..front.len()] == front
}
