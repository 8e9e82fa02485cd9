//! Texts: of addresses, blocks and endpoints, and of several values.

ghost use Rattle.std.specs.Prelude.{IfOk};
ghost use Rattle.std.specs.String.{string_bytes};
ghost use Rattle.ip_calls.specs.Answers.{IsAnswer};

use std::alloc::{AllocError, Global};
use std::fmt::Display;
use std::str::FromStr;

/// `ok` and the printed text of the parsed value, or `err` if the text does not parse or is not UTF-8.
pub fn answer<T: FromStr + Display + Drop>(
    alloc: Global,
    bytes: &[u8],
) -> Result<String, AllocError>
where
    T::Err: Drop,
    ensures { IfOk result (λ answer. IsAnswer T.from_str_gives T.output bytes.now (string_bytes answer)) }
{
    let Ok(text) = str::from_utf8(bytes) else {
        return String::from_str(alloc, "err");
    };
    match text.parse::<T>() {
        Ok(value) => format!(in alloc; "ok {value}"),
        Err(_) => String::from_str(alloc, "err"),
    }
}

/// Appends values, with a space before each but the first of the text.
pub fn push_all<T: Display>(values: &[T], text: &mut String) -> Result<(), AllocError> {
    for value in values {
        if !text.is_empty() {
            text.push(' ')?;
        }
        write!(text, "{value}")?;
    }
    Ok(())
}

/// The text of a value, or `-` or `err` if there is none.
pub fn of_option<T: Display + Drop>(
    alloc: Global,
    value: Option<T>,
    none: &str,
) -> Result<String, AllocError> {
    match value {
        Some(value) => format!(in alloc; "{value}"),
        None => String::from_str(alloc, none),
    }
}
