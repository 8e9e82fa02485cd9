//! The calls with addresses and texts.

ghost use Rattle.std.specs.Prelude.{◌≡◌};
ghost use Rattle.c_structs.specs.Addresses.{endpoint_struct, ethernet_bytes};
ghost use Rattle.c_structs.specs.Written.{IsRead, within};
ghost use Rattle.ip_wire.specs.Endpoint.{ReadsEndpoint};
ghost use Rattle.ip_wire.specs.Read.{ReadsEthernet};

use c_exports::addresses::{
    lk_contains, lk_parse_addr, lk_parse_endpoint, lk_parse_mac, lk_parse_prefix, lk_print_addr,
};
use c_structs::{Addr, Block, Endpoint};

/// A text parses as one address, or as none.
#[tactic(auto, using(crate::proofs::Once::address_once))]
pub fn parse_addr_once(text: &[u8], addr: &mut Addr, other: &mut Addr) -> (i32, i32)
    requires { addr.old ≡ other.old }
    ensures returned { result.0 ≡ result.1 }
    ensures written { addr.new ≡ other.new }
{
    (lk_parse_addr(text, addr), lk_parse_addr(text, other))
}

/// An address has one text.
pub fn print_addr_once(addr: &Addr, out: &mut [u8], other: &mut [u8]) -> (isize, isize)
    requires { out.old ≡ other.old }
    ensures returned { result.0 ≡ result.1 }
    ensures written { out.new ≡ other.new }
{
    (lk_print_addr(addr, out), lk_print_addr(addr, other))
}

/// A text parses as one block, or as none.
#[tactic(auto, using(crate::proofs::Once::cidr_once))]
pub fn parse_block_once(text: &[u8], block: &mut Block, other: &mut Block) -> (i32, i32)
    requires { block.old ≡ other.old }
    ensures returned { result.0 ≡ result.1 }
    ensures written { block.new ≡ other.new }
{
    (lk_parse_prefix(text, block), lk_parse_prefix(text, other))
}

/// An address is in a block, or it is not.
pub fn contains_once(block: &Block, addr: &Addr) -> (i32, i32)
    ensures { result.0 ≡ result.1 }
{
    (lk_contains(block, addr), lk_contains(block, addr))
}

/// No text is stored as two endpoints.
fn one_endpoint(
    text: &[u8],
    old: &Endpoint,
    same: &Endpoint,
    new: &Endpoint,
    other: &Endpoint,
    results: (i32, i32),
)
    requires old { old.now ≡ same.now }
    requires first { IsRead ReadsEndpoint endpoint_struct (within text.now) old.now new.now results.0 }
    requires second { IsRead ReadsEndpoint endpoint_struct (within text.now) same.now other.now results.1 }
    ensures returned { results.0 ≡ results.1 }
    ensures stored { new.now ≡ other.now }
{}

/// A text parses as one endpoint, or as none.
pub fn parse_endpoint_once(text: &[u8], endpoint: &mut Endpoint, other: &mut Endpoint) -> (i32, i32)
    requires { endpoint.old ≡ other.old }
    ensures returned { result.0 ≡ result.1 }
    ensures written { endpoint.new ≡ other.new }
{
    let (old, same) = (*endpoint, *other);
    let results = (
        lk_parse_endpoint(text, endpoint),
        lk_parse_endpoint(text, other),
    );
    one_endpoint(text, &old, &same, endpoint, other, results);
    results
}

/// No text is stored as two Ethernet addresses.
fn one_ethernet(
    text: &[u8],
    old: &[u8; 6],
    same: &[u8; 6],
    new: &[u8; 6],
    other: &[u8; 6],
    results: (i32, i32),
)
    requires old { old.now ≡ same.now }
    requires first { IsRead ReadsEthernet ethernet_bytes (within text.now) old.now new.now results.0 }
    requires second { IsRead ReadsEthernet ethernet_bytes (within text.now) same.now other.now results.1 }
    ensures returned { results.0 ≡ results.1 }
    ensures stored { new.now ≡ other.now }
{}

/// A text parses as one Ethernet address, or as none.
pub fn parse_ethernet_once(text: &[u8], octets: &mut [u8; 6], other: &mut [u8; 6]) -> (i32, i32)
    requires { octets.old ≡ other.old }
    ensures returned { result.0 ≡ result.1 }
    ensures written { octets.new ≡ other.new }
{
    let (old, same) = (*octets, *other);
    let results = (lk_parse_mac(text, octets), lk_parse_mac(text, other));
    one_ethernet(text, &old, &same, octets, other, results);
    results
}
