//! Windows in headers (RFC 7323, section 2).

ghost use Rattle.std.specs.Prelude.{◌≡◌, min};
ghost use Rattle.app_options.specs.Windows.{IsScale, scale_of};

// The largest window scale (section 2.3).
pub(crate) const MAX_SCALE: u8 = 14;

// The largest window that a header tells before scaling.
pub(crate) const MAX_FIELD: u32 = 65535;

/// The least window scale with which a header tells a window of this size, at most 14.
pub fn scale_of(size: usize) -> u8
    ensures value { result ≡ scale_of size }
    ensures scale { IsScale size result }
{
    let mut scale = 0;
    while scale < MAX_SCALE && size >> scale > MAX_FIELD as usize {
        scale += 1;
    }
    scale
}

/// The window field of a SYN, which is not scaled (section 2.2).
pub fn syn_window(window: u32) -> u16
    ensures { result ≡ min 65535 window }
{
    window.min(MAX_FIELD) as u16
}
