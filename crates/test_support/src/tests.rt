//! `prints`, on types whose `Display` is wrong.

use crate::texts::prints;
use std::fmt;
use std::fmt::Display;

/// Prints two words.
struct Words;

impl Display for Words {
    fn fmt<W: fmt::Write>(&self, f: &mut fmt::Formatter<W>) -> fmt::Result {
        write!(f, "two ")?;
        write!(f, "words")
    }
}

/// Prints the same, but returns no error where the first write fails.
struct Silent;

impl Display for Silent {
    fn fmt<W: fmt::Write>(&self, f: &mut fmt::Formatter<W>) -> fmt::Result {
        match write!(f, "two ") {
            Ok(()) => write!(f, "words"),
            Err(_) => Ok(()),
        }
    }
}

/// Prints the same, and then fails.
struct Failing;

impl Display for Failing {
    fn fmt<W: fmt::Write>(&self, f: &mut fmt::Formatter<W>) -> fmt::Result {
        write!(f, "two words")?;
        Err(fmt::Error)
    }
}

#[test]
fn tells_errors_that_are_hidden_and_added(rt: HostRuntime) {
    let found = [
        prints(&Words, "two words"),
        prints(&Words, "two"),
        prints(&Words, "two words, or three"),
        prints(&Words, "two swords"),
        prints(&Silent, "two words"),
        prints(&Failing, "two words"),
    ];
    assert_eq!(rt; found, [true, false, false, false, false, false]);
}
