//! The state without enums, to be kept in memory of C.

ghost use Rattle.std.specs.Prelude.{◌≡◌};
ghost use Rattle.app_options.specs.Fields.{agreed_of};

use crate::agreed::Agreed;
use crate::timestamps::Recent;

/// An `Agreed`.
#[repr(C)]
#[derive(Debug, Clone, Copy)]
pub struct AgreedFields {
    // If there are timestamps.
    recent: Recent,
    offset: u32,
    // If windows are scaled.
    peer_scale: u8,
    has_timestamps: bool,
    has_scale: bool,
    has_sack: bool,
}

impl Agreed {
    /// Its fields.
    #[inline(always)]
    pub fn fields(&self) -> AgreedFields
        ensures { agreed_of result ≡ self.now }
    {
        AgreedFields {
            recent: self.recent.unwrap_or(Recent {
                value: 0,
                heard_at: 0,
            }),
            offset: self.offset,
            peer_scale: self.peer_scale.unwrap_or(0),
            has_timestamps: self.recent.is_some(),
            has_scale: self.peer_scale.is_some(),
            has_sack: self.has_sack,
        }
    }
}

impl AgreedFields {
    /// The value with these fields.
    #[inline(always)]
    pub fn value(&self) -> Agreed
        ensures { result ≡ agreed_of self.now }
    {
        Agreed {
            offset: self.offset,
            peer_scale: if self.has_scale {
                Some(self.peer_scale)
            } else {
                None
            },
            has_sack: self.has_sack,
            recent: if self.has_timestamps {
                Some(self.recent)
            } else {
                None
            },
        }
    }
}
