//! The extension headers of an IPv6 packet, and where they lead (RFC 8200, section 4; RFC 4302).
#![tactic(auto)]

mod chain;
mod extension;

pub use chain::{Chain, ExtensionFault, is_part};
pub use extension::{EXTENSION_UNIT, FRAGMENT, extension_len, is_extension};
