//! Addresses, blocks and endpoints, and their texts.

ghost use Rattle.std.specs.Prelude.{◌≡◌, IsSomeAnd, None, Some};
ghost use Rattle.std.specs.Option.{option_map};
ghost use Rattle.ip_wire.specs.Endpoint.{ReadsEndpoint, endpoint_text};
ghost use Rattle.ip_wire.specs.IpAddress.{IsMulticast, IsUnicast, ReadsAddress, address_text};
ghost use Rattle.ip_wire.specs.IpCidr.{IsIn, ReadsCidr, cidr_text};
ghost use Rattle.ip_wire.specs.Printed.{dashed};
ghost use Rattle.ip_wire.specs.Read.{ReadsEthernet};
ghost use Rattle.c_structs.specs.Addresses.{addr_of, block_of, block_struct, endpoint_struct, ethernet_bytes, ip_endpoint_of, ip_of};
ghost use Rattle.c_structs.specs.Failures.{addr_failure, block_failure};
ghost use Rattle.c_structs.specs.Written.{Answers, IsRead, Prints, within};

use c_structs::{Addr, Block, Endpoint, failed, print, print_address, print_block, within};
use ip_wire::{EthernetAddress, IpAddress, IpCidr, IpEndpoint};

/// Parses the text of an address, stores the address, and returns 1. Returns 0 if it is no such text.
#[unsafe(no_mangle)]
pub extern "C" fn lk_parse_addr(text: &[u8], addr: &mut Addr) -> i32
    ensures { IsRead ReadsAddress addr_of (within text.now) addr.old addr.new result }
{
    match IpAddress::parse_ascii(within(text)) {
        Ok(address) => {
            *addr = Addr::of(address);
            1
        }
        Err(()) => 0,
    }
}

/// Prints an address. Returns its length, or a failure; then `out` is unchanged.
#[unsafe(no_mangle)]
pub extern "C" fn lk_print_addr(addr: &Addr, out: &mut [u8]) -> isize
    ensures { Prints (option_map address_text (ip_of addr.now)) (addr_failure addr.now) out.old out.new result }
{
    match addr.ip() {
        Some(address) => print_address(&address, out),
        None => failed(addr.failure()),
    }
}

/// Parses the text of a block, stores the block, and returns 1. Returns 0 if it is no such text.
#[unsafe(no_mangle)]
pub extern "C" fn lk_parse_prefix(text: &[u8], block: &mut Block) -> i32
    ensures { IsRead ReadsCidr block_struct (within text.now) block.old block.new result }
{
    match IpCidr::parse_ascii(within(text)) {
        Ok(cidr) => {
            *block = Block::of(&cidr);
            1
        }
        Err(()) => 0,
    }
}

/// Prints a block. Returns its length, or a failure; then `out` is unchanged.
#[unsafe(no_mangle)]
pub extern "C" fn lk_print_prefix(block: &Block, out: &mut [u8]) -> isize
    ensures { Prints (option_map cidr_text (block_of block.now)) (block_failure block.now) out.old out.new result }
{
    match block.cidr() {
        Some(block) => print_block(&block, out),
        None => failed(block.failure()),
    }
}

/// Whether an address is in a block.
#[unsafe(no_mangle)]
pub extern "C" fn lk_contains(block: &Block, addr: &Addr) -> i32
    ensures { Answers (IsSomeAnd (block_of block.now) (λ cidr. IsSomeAnd (ip_of addr.now) (IsIn cidr))) result }
{
    i32::from(block.contains(addr))
}

/// Parses the text of an endpoint, stores the endpoint, and returns 1. Returns 0 if it is no such text.
#[unsafe(no_mangle)]
pub extern "C" fn lk_parse_endpoint(text: &[u8], endpoint: &mut Endpoint) -> i32
    ensures { IsRead ReadsEndpoint endpoint_struct (within text.now) endpoint.old endpoint.new result }
{
    match IpEndpoint::parse_ascii(within(text)) {
        Ok(parsed) => {
            *endpoint = Endpoint::of(&parsed);
            1
        }
        Err(()) => 0,
    }
}

/// Prints an endpoint. Returns its length, or a failure; then `out` is unchanged.
#[unsafe(no_mangle)]
pub extern "C" fn lk_print_endpoint(endpoint: &Endpoint, out: &mut [u8]) -> isize
    ensures { Prints (option_map endpoint_text (ip_endpoint_of endpoint.now)) (addr_failure endpoint.now.addr) out.old out.new result }
{
    match endpoint.ip() {
        Some(endpoint) => print(endpoint.text().as_str(), out),
        None => failed(endpoint.addr.failure()),
    }
}

/// Parses the text of an Ethernet address, stores its bytes, and returns 1. Returns 0 if it is no such
/// text.
#[unsafe(no_mangle)]
pub extern "C" fn lk_parse_mac(text: &[u8], octets: &mut [u8; 6]) -> i32
    ensures { IsRead ReadsEthernet ethernet_bytes (within text.now) octets.old octets.new result }
{
    match EthernetAddress::parse_ascii(within(text)) {
        Ok(address) => {
            let read = address.0;
            *octets = read;
            1
        }
        Err(()) => 0,
    }
}

/// Prints an Ethernet address. Returns its length, or a failure; then `out` is unchanged.
#[unsafe(no_mangle)]
pub extern "C" fn lk_print_mac(octets: &[u8; 6], out: &mut [u8]) -> isize
    ensures { Prints (Some (dashed octets.now)) None out.old out.new result }
{
    print(EthernetAddress(*octets).text().as_str(), out)
}

/// Whether an address is a multicast address.
#[unsafe(no_mangle)]
pub extern "C" fn lk_is_multicast(addr: &Addr) -> i32
    ensures { Answers (IsSomeAnd (ip_of addr.now) IsMulticast) result }
{
    match addr.ip() {
        Some(address) => i32::from(address.is_multicast()),
        None => 0,
    }
}

/// Whether an address is neither multicast, nor unspecified, nor 255.255.255.255.
#[unsafe(no_mangle)]
pub extern "C" fn lk_is_unicast(addr: &Addr) -> i32
    ensures { Answers (IsSomeAnd (ip_of addr.now) IsUnicast) result }
{
    match addr.ip() {
        Some(address) => i32::from(address.is_unicast()),
        None => 0,
    }
}
