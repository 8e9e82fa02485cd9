//! What the law of whole runs says of single bytes.

ghost use Rattle.std.specs.Prelude.{◌≡◌, ℕ, length, true, Some, slice_get};
ghost use Rattle.app_connection.specs.Runs.{Ends, Runs};

use crate::connection::Connection;

/// Each byte that a program read is the one that the other program wrote at the same place. Once `is_ended` returns true, it read
/// as many bytes as the other one wrote. So it is in both directions. The runs are those of `two_connections_deliver`.
pub fn each_byte_is_as_written(connection: &Connection) -> bool
    ensures here { (p : Ends) → Runs p → (place byte : ℕ) → slice_get p.here.read place ≡ Some byte
        → slice_get p.there.wrote place ≡ Some byte }
    ensures there { (p : Ends) → Runs p → (place byte : ℕ) → slice_get p.there.read place ≡ Some byte
        → slice_get p.here.wrote place ≡ Some byte }
    ensures here_ends { (p : Ends) → Runs p → p.here.connection ≡ connection.now → result ≡ true
        → length p.here.read ≡ length p.there.wrote }
    ensures there_ends { (p : Ends) → Runs p → p.there.connection ≡ connection.now → result ≡ true
        → length p.there.read ≡ length p.here.wrote }
{
    connection.is_ended()
}
