//! Bytes that a reader accepts or rejects.

/// Bytes, and whether they are what was asked for.
#[derive(Debug, Drop)]
pub struct Checked<'a> {
    pub bytes: &'a mut [u8],
    pub ok: bool,
}
