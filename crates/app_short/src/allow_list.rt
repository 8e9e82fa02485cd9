//! An allowlist of address blocks.

ghost use Rattle.std.specs.Prelude.{◌↔◌, IsTrue};
ghost use Rattle.std.specs.List.{Any};
ghost use Rattle.ip_wire.specs.IpCidr.{IsIn};

use ip_wire::{IpAddress, IpCidr};

/// Returns `true` if the address is in one of the blocks.
pub fn is_allowed(list: &[IpCidr], addr: &IpAddress) -> bool
    ensures { IsTrue result ↔ Any (λ block. IsIn block addr.now) list.now }
{
    list.iter().any(|block| block.contains_addr(addr))
}
