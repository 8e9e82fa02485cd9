//! The text of a value, compared with what it should be.

use std::fmt;
use std::fmt::{Display, Write};

/// A writer that compares its input with expected bytes. It fails after the last of them.
#[derive(Drop)]
struct Expecting<'a> {
    rest: &'a [u8],
    agrees: bool,
}

impl Expecting<'_> {
    /// Whether the input was all of the expected bytes, and began with them.
    fn is_met(&self) -> bool {
        self.agrees && self.rest.is_empty()
    }
}

impl Write for Expecting<'_> {
    fn write_str(&mut self, text: &str) -> fmt::Result {
        let bytes = text.as_bytes();
        let n = bytes.len().min(self.rest.len());
        let (expected, rest) = self.rest.split_at(n);
        if expected != &bytes[..n] {
            self.agrees = false;
        }
        self.rest = rest;
        if n < bytes.len() {
            Err(fmt::Error)
        } else {
            Ok(())
        }
    }
}

/// Returns whether a value prints as this text, whatever width and precision the format asks for, and
/// fails exactly if its writer does: with room for fewer bytes it writes that many of the text and returns
/// an error.
pub fn prints<T: Display>(value: &T, text: &str) -> bool {
    for room in 0..=text.len() {
        let (expected, is_whole) = (&text.as_bytes()[..room], room == text.len());
        let mut plain = Expecting {
            rest: expected,
            agrees: true,
        };
        let result = write!(plain, "{value}");
        let mut wide = Expecting {
            rest: expected,
            agrees: true,
        };
        let wide_result = write!(wide, "{value:-^60.2}");
        if !plain.is_met() || !wide.is_met() {
            return false;
        }
        if result.is_ok() != is_whole || wide_result.is_ok() != is_whole {
            return false;
        }
    }
    true
}
