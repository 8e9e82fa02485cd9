//! Calls between two connections of a program.

ghost use Rattle.std.specs.Prelude.{[], ◌≡◌, ◌<◌, ℕ, length, false};
ghost use Rattle.app_connection.specs.Openings.{Program, Turns};

use crate::connection::Connection;

/// A program may leave its present connection at any time, and begin with a new one and with other rings.
pub fn another_connection_begins(outgoing: &[u8], incoming: &[u8]) -> Connection
    requires some { 0 < length outgoing.now }
    requires small { length outgoing.now < 1073741824 }
    ensures { (a b : Program) (k : ℕ) → a.ends k ≡ record {
      connection = result;
      outgoing = outgoing.now;
      incoming = incoming.now;
      was_opened = false;
      wrote = [];
      read = [];
      sent = [];
    } → Turns a b (record a { number = k }) }
{
    Connection::new()
}
