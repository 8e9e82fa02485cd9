//! Slices that a view may be of.

ghost use Rattle.std.specs.Prelude.{◌≡◌, ℕ, List};

use std::fmt;

/// A borrowed slice of bytes, to be read or also written.
pub trait Octets {
    // the bytes of the slice
    ghost octets: { Self → List ℕ };

    /// What the name of a view of such a slice ends in.
    const NAME_END: &'static str;

    /// The bytes.
    fn octets(&self) -> &[u8]
        ensures { result.now ≡ octets self.now };
}

impl Octets for &[u8] {
    ghost octets = { λ slice. slice.now };

    const NAME_END: &'static str = "";

    fn octets(&self) -> &[u8] {
        self
    }
}

impl Octets for &mut [u8] {
    ghost octets = { λ slice. slice.now };

    const NAME_END: &'static str = "Mut";

    fn octets(&self) -> &[u8] {
        self
    }
}

/// Writes the debug text of a view: its name, and the bytes under it.
pub fn debug_view<W: fmt::Write, B: Octets>(
    f: &mut fmt::Formatter<W>,
    name: &str,
    slice: &B,
) -> fmt::Result {
    let (end, octets) = (B::NAME_END, slice.octets());
    write!(f, "{name}{end} {{ buffer: {octets:?} }}")
}
