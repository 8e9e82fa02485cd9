//! Laws of addresses and blocks, also of their derived order and hash. A law states a fact about
//! definitions; its body does nothing.

ghost use Rattle.std.specs.Cmp.Lexicographic.{slice_cmp};
ghost use Rattle.std.specs.Hash as hash;
ghost use Rattle.std.specs.Ordering.{nat_cmp, ordering_reverse};
ghost use Rattle.std.specs.Prelude.{◌↔◌, ◌≡◌, true, ℕ};
ghost use Rattle.std.specs.declared.cmp.Ordering.TheVariants.{Equal};
ghost use Rattle.wire_addr.specs.Block.{IsGreatest, IsLeast, block_cmp, block_hash};
ghost use Rattle.wire_addr.specs.BlockText.{ReadsIpv4Block, ReadsIpv6Block};
ghost use Rattle.wire_addr.specs.Class.{HasScope};
ghost use Rattle.wire_addr.specs.Endpoint.{ReadsEndpoint, endpoint_cmp, endpoint_hash, endpoint_text, listening_cmp, listening_hash};
ghost use Rattle.wire_addr.specs.IpAddress.{ReadsAddress, address_cmp, address_hash, address_text};
ghost use Rattle.wire_addr.specs.IpCidr.{ReadsCidr, cidr_cmp, cidr_hash, cidr_text};
ghost use Rattle.wire_addr.specs.IpVersion.{number_of, version_hash};
ghost use Rattle.wire_addr.specs.Prefix.{IsMasked, IsNetmask};
ghost use Rattle.wire_addr.specs.Printed.{IsIpv6Print, block_text, dashed, dotted, ipv6_text};
ghost use Rattle.wire_addr.specs.Protocol.{protocol_cmp, protocol_hash};
ghost use Rattle.wire_addr.specs.Read.{ReadsEthernet, ReadsIpv4, ReadsIpv6};

use crate::{
    EthernetAddress, IpAddress, IpCidr, IpEndpoint, IpListenEndpoint, IpProtocol, IpVersion,
    Ipv4Address, Ipv4Cidr, Ipv6Address, Ipv6Cidr, Ipv6MulticastScope,
};
use std::hash::Hash;

/// `IsIpv6Print` holds of exactly one text of an address, and `ipv6_text` computes it.
#[tactic(auto, using(crate::proofs::Ipv6Texts::IsIpv6Print_ipv6_text, crate::proofs::Ipv6Texts::is_ipv6_text))]
pub fn ipv6_print_rule(address: Ipv6Address, other: &[u8])
    ensures is { IsIpv6Print address (ipv6_text address) }
    ensures only { IsIpv6Print address other.now → other.now ≡ ipv6_text address }
{}

/// A string parses as at most one Ethernet address.
pub fn ethernet_one_reading(text: &[u8], a: EthernetAddress, b: EthernetAddress)
    ensures { ReadsEthernet text.now a → ReadsEthernet text.now b → a ≡ b }
{}

/// A string parses as at most one IPv4 address.
pub fn ipv4_one_reading(text: &[u8], a: Ipv4Address, b: Ipv4Address)
    ensures { ReadsIpv4 text.now a → ReadsIpv4 text.now b → a ≡ b }
{}

/// A string parses as at most one IPv6 address.
pub fn ipv6_one_reading(text: &[u8], a: Ipv6Address, b: Ipv6Address)
    ensures { ReadsIpv6 text.now a → ReadsIpv6 text.now b → a ≡ b }
{}

/// A string parses as at most one block of IPv4 addresses.
pub fn ipv4_cidr_one_reading(text: &[u8], a: Ipv4Cidr, b: Ipv4Cidr)
    ensures { ReadsIpv4Block text.now a → ReadsIpv4Block text.now b → a ≡ b }
{}

/// A string parses as at most one block of IPv6 addresses.
pub fn ipv6_cidr_one_reading(text: &[u8], a: Ipv6Cidr, b: Ipv6Cidr)
    ensures { ReadsIpv6Block text.now a → ReadsIpv6Block text.now b → a ≡ b }
{}

/// A printed address parses as that address.
pub fn print_reads_back(ethernet: EthernetAddress, ipv4: Ipv4Address, ipv6: Ipv6Address)
    ensures ethernet { ReadsEthernet (dashed ethernet.0) ethernet }
    ensures ipv4 { ReadsIpv4 (dotted ipv4) ipv4 }
    ensures ipv6 { ReadsIpv6 (ipv6_text ipv6) ipv6 }
{
    let _ethernet = ethernet.as_bytes();
    let _ipv4 = ipv4.octets();
    let _ipv6 = ipv6.octets();
}

/// A printed block of IPv4 addresses parses as that block.
pub fn print_reads_back_ipv4_cidr(block: Ipv4Cidr)
    ensures { ReadsIpv4Block (block_text dotted block) block }
{
    let _address = block.address();
    let _prefix_len = block.prefix_len();
}

/// A printed block of IPv6 addresses parses as that block.
#[tactic(auto, using(crate::proofs::BlockTexts::printed_block, crate::proofs::ReadBack::ReadsIpv6_ipv6_text))]
pub fn print_reads_back_ipv6_cidr(block: Ipv6Cidr)
    ensures { ReadsIpv6Block (block_text ipv6_text block) block }
{
    let _address = block.address();
    let _prefix_len = block.prefix_len();
}

/// Two values are equal exactly if they compare as `Equal`, and their order is the reverse of that of
/// both exchanged.
pub fn order_agrees<T: Ord>(a: &T, b: &T)
    ensures equal { (T.cmp a.now b.now ≡ Equal) ↔ (T.eq a.now b.now ≡ true) }
    ensures reverse { T.cmp b.now a.now ≡ ordering_reverse (T.cmp a.now b.now) }
{}

/// Equal values have equal hashes.
pub fn hash_agrees<T: Hash>(a: &T, b: &T)
    ensures { T.eq a.now b.now ≡ true → T.hash_input a.now ≡ T.hash_input b.now }
{}

/// Ethernet addresses are ordered by their bytes, and all bytes are hashed.
pub fn ethernet_address_order(a: EthernetAddress, b: EthernetAddress)
    ensures order { ⟦<EthernetAddress as Ord>⟧.cmp a b ≡ slice_cmp nat_cmp a.0 b.0 }
    ensures hash { ⟦<EthernetAddress as Hash>⟧.hash_input a ≡ hash.slice hash.u8 a.0 }
{}

/// IPv4 addresses are ordered by their bytes, and all bytes are hashed.
pub fn ipv4_address_order(a: Ipv4Address, b: Ipv4Address)
    ensures order { ⟦<Ipv4Address as Ord>⟧.cmp a b ≡ slice_cmp nat_cmp a b }
    ensures hash { ⟦<Ipv4Address as Hash>⟧.hash_input a ≡ hash.slice hash.u8 a }
{}

/// IPv6 addresses are ordered by their bytes, and all bytes are hashed.
pub fn ipv6_address_order(a: Ipv6Address, b: Ipv6Address)
    ensures order { ⟦<Ipv6Address as Ord>⟧.cmp a b ≡ slice_cmp nat_cmp a b }
    ensures hash { ⟦<Ipv6Address as Hash>⟧.hash_input a ≡ hash.slice hash.u8 a }
{}

/// IPv4 blocks are ordered by their addresses, and blocks with one address by their prefix lengths. Both
/// are hashed.
pub fn ipv4_block_order(a: Ipv4Cidr, b: Ipv4Cidr)
    ensures order { ⟦<Ipv4Cidr as Ord>⟧.cmp a b ≡ block_cmp a b }
    ensures hash { ⟦<Ipv4Cidr as Hash>⟧.hash_input a ≡ block_hash a }
{}

/// IPv6 blocks are ordered by their addresses, and blocks with one address by their prefix lengths. Both
/// are hashed.
pub fn ipv6_block_order(a: Ipv6Cidr, b: Ipv6Cidr)
    ensures order { ⟦<Ipv6Cidr as Ord>⟧.cmp a b ≡ block_cmp a b }
    ensures hash { ⟦<Ipv6Cidr as Hash>⟧.hash_input a ≡ block_hash a }
{}

/// A netmask has one prefix length, and a prefix length has one netmask.
#[tactic(auto, using(crate::proofs::One::one_length, crate::proofs::One::one_netmask))]
pub fn one_netmask(a: Ipv4Address, b: Ipv4Address)
    ensures len { (n m : ℕ) → IsNetmask n a → IsNetmask m a → n ≡ m }
    ensures mask { (n : ℕ) → IsNetmask n a → IsNetmask n b → a ≡ b }
{
    let _bytes = (a.octets(), b.octets());
}

/// An address has one form with zeros after its first `n` bits.
pub fn one_masked_address(address: Ipv6Address, a: Ipv6Address, b: Ipv6Address)
    ensures { (n : ℕ) → IsMasked n address a → IsMasked n address b → a ≡ b }
{
    let _bytes = (a.octets(), b.octets());
}

/// A block has one first and one last address.
pub fn one_block_end(block: Ipv4Cidr, a: Ipv4Address, b: Ipv4Address)
    ensures first { IsLeast 4 block a → IsLeast 4 block b → a ≡ b }
    ensures last { IsGreatest 4 block a → IsGreatest 4 block b → a ≡ b }
{
    let _bytes = (a.octets(), b.octets());
}

/// An address has one scope.
pub fn one_scope(address: Ipv6Address, a: Ipv6MulticastScope, b: Ipv6MulticastScope)
    ensures { HasScope address a → HasScope address b → a ≡ b }
{
    let _multicast = address.is_multicast();
    let _link_local = address.is_link_local();
    let _unique_local = address.is_unique_local();
    let _global = address.is_global_unicast();
}

/// No text parses as two addresses.
#[tactic(auto, using(crate::proofs::EndTexts::address_once))]
pub fn ip_address_one_reading(text: &[u8], a: IpAddress, b: IpAddress)
    ensures { ReadsAddress text.now a → ReadsAddress text.now b → a ≡ b }
{}

/// No text parses as two blocks.
#[tactic(auto, using(crate::proofs::EndTexts::cidr_once))]
pub fn ip_cidr_one_reading(text: &[u8], a: IpCidr, b: IpCidr)
    ensures { ReadsCidr text.now a → ReadsCidr text.now b → a ≡ b }
{}

/// No text parses as two endpoints.
pub fn ip_endpoint_one_reading(text: &[u8], a: IpEndpoint, b: IpEndpoint)
    ensures { ReadsEndpoint text.now a → ReadsEndpoint text.now b → a ≡ b }
{}

/// A printed address parses as that address.
pub fn print_reads_back_ip_address(address: IpAddress)
    ensures { ReadsAddress (address_text address) address }
{
    match address {
        IpAddress::Ipv4(address) => {
            let _bytes = address.octets();
        }
        IpAddress::Ipv6(address) => {
            let _bytes = address.octets();
        }
    }
}

/// A printed block parses as that block.
pub fn print_reads_back_ip_cidr(cidr: IpCidr)
    ensures { ReadsCidr (cidr_text cidr) cidr }
{
    match cidr {
        IpCidr::Ipv4(cidr) => print_reads_back_ipv4_cidr(cidr),
        IpCidr::Ipv6(cidr) => print_reads_back_ipv6_cidr(cidr),
    }
}

/// A printed endpoint parses as that endpoint.
#[tactic(auto, using(crate::proofs::EndTexts::printed_endpoint))]
pub fn print_reads_back_ip_endpoint(endpoint: IpEndpoint)
    ensures { ReadsEndpoint (endpoint_text endpoint) endpoint }
{
    print_reads_back_ip_address(endpoint.addr);
}

/// Two addresses are equal exactly if they compare as `Equal`. Order and hash are as defined.
pub fn ip_address_order(a: &IpAddress, b: &IpAddress)
    ensures order { ⟦<IpAddress as Ord>⟧.cmp a.now b.now ≡ address_cmp a.now b.now }
    ensures equal { (⟦<IpAddress as PartialEq>⟧.eq a.now b.now ≡ true) ↔ (a.now ≡ b.now) }
    ensures hash { ⟦<IpAddress as Hash>⟧.hash_input a.now ≡ address_hash a.now }
{}

/// Two blocks are equal exactly if they compare as `Equal`. Order and hash are as defined.
pub fn ip_block_order(a: &IpCidr, b: &IpCidr)
    ensures order { ⟦<IpCidr as Ord>⟧.cmp a.now b.now ≡ cidr_cmp a.now b.now }
    ensures equal { (⟦<IpCidr as PartialEq>⟧.eq a.now b.now ≡ true) ↔ (a.now ≡ b.now) }
    ensures hash { ⟦<IpCidr as Hash>⟧.hash_input a.now ≡ cidr_hash a.now }
{}

/// Two endpoints are equal exactly if they compare as `Equal`. Order and hash are as defined.
pub fn endpoint_order(a: &IpEndpoint, b: &IpEndpoint)
    ensures order { ⟦<IpEndpoint as Ord>⟧.cmp a.now b.now ≡ endpoint_cmp a.now b.now }
    ensures equal { (⟦<IpEndpoint as PartialEq>⟧.eq a.now b.now ≡ true) ↔ (a.now ≡ b.now) }
    ensures hash { ⟦<IpEndpoint as Hash>⟧.hash_input a.now ≡ endpoint_hash a.now }
{}

/// Two listening endpoints are equal exactly if they compare as `Equal`. Order and hash are as defined.
pub fn listen_endpoint_order(a: &IpListenEndpoint, b: &IpListenEndpoint)
    ensures order { ⟦<IpListenEndpoint as Ord>⟧.cmp a.now b.now ≡ listening_cmp a.now b.now }
    ensures equal { (⟦<IpListenEndpoint as PartialEq>⟧.eq a.now b.now ≡ true) ↔ (a.now ≡ b.now) }
    ensures hash { ⟦<IpListenEndpoint as Hash>⟧.hash_input a.now ≡ listening_hash a.now }
{}

/// Two versions are equal exactly if they compare as `Equal`. Version 4 comes before version 6.
pub fn ip_version_order(a: IpVersion, b: IpVersion)
    ensures order { ⟦<IpVersion as Ord>⟧.cmp a b ≡ nat_cmp (number_of a) (number_of b) }
    ensures equal { (⟦<IpVersion as PartialEq>⟧.eq a b ≡ true) ↔ (a ≡ b) }
    ensures hash { ⟦<IpVersion as Hash>⟧.hash_input a ≡ version_hash a }
{}

/// Two protocols are equal exactly if they compare as `Equal`. Named ones come before unknown numbers.
/// The hash is as defined.
pub fn ip_protocol_order(a: IpProtocol, b: IpProtocol)
    ensures order { ⟦<IpProtocol as Ord>⟧.cmp a b ≡ protocol_cmp a b }
    ensures equal { (⟦<IpProtocol as PartialEq>⟧.eq a b ≡ true) ↔ (a ≡ b) }
    ensures hash { ⟦<IpProtocol as Hash>⟧.hash_input a ≡ protocol_hash a }
{}
