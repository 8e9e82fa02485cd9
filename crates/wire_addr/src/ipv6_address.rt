//! IPv6 addresses.

ghost use Rattle.std.specs.Prelude.{ℕ, ◌≡◌, ◌≢◌, ◌↔◌, ◌+◌, ◌<◌, ◌≤◌, ◌∷◌, ◌++◌, [], IfSome, IsTrue, MatchOption, Some, length, take};
ghost use Rattle.std.specs.Net.Text.{longest_zero_run};
ghost use Rattle.arrayvec.specs.ArrayString.{array_string_len};
ghost use Rattle.wire_addr.specs.Block.{IsIn};
ghost use Rattle.wire_addr.specs.Class.{HasScope, IsIpv6Unicast, ipv6_global_unicast, ipv6_link_local, ipv6_loopback, ipv6_multicast, ipv6_solicited_node, ipv6_unique_local, ipv6_unspecified, link_address, solicited_node};
ghost use Rattle.wire_addr.specs.Bytes.{IsByteArray, groups_of, mapped_prefix, address_bytes};
ghost use Rattle.wire_addr.specs.Prefix.{IsMasked, IsNetmask, number_of};
ghost use Rattle.wire_addr.specs.Printed.{ipv6_text};

use crate::prefix::mask_128;
use crate::print::{push_dotted, push_groups};
use crate::{HardwareAddress, Ipv4Address, Ipv6Cidr, Ipv6MulticastScope};
use arrayvec::ArrayString;
use byteorder::{ByteOrder, NetworkEndian};
use std::fmt;
use std::marker::Model;

/// The number of bytes of an address.
pub const IPV6_ADDR_SIZE: usize = 16;

/// The group of all nodes on a link (RFC 4291, section 2.7.1).
pub const IPV6_LINK_LOCAL_ALL_NODES: Ipv6Address = Ipv6Address([
    0xff, 0x02, 0, 0, 0, 0, 0, 0, 0, 0, 0, 0, 0, 0, 0, 0x01,
]);

/// The group of all routers on a link (RFC 4291, section 2.7.1).
pub const IPV6_LINK_LOCAL_ALL_ROUTERS: Ipv6Address = Ipv6Address([
    0xff, 0x02, 0, 0, 0, 0, 0, 0, 0, 0, 0, 0, 0, 0, 0, 0x02,
]);

/// The group of all MLDv2-capable routers on a link (RFC 3810, section 11).
pub const IPV6_LINK_LOCAL_ALL_MLDV2_ROUTERS: Ipv6Address = Ipv6Address([
    0xff, 0x02, 0, 0, 0, 0, 0, 0, 0, 0, 0, 0, 0, 0, 0, 0x16,
]);

/// The group of all RPL nodes on a link (RFC 6550, section 20.19).
pub const IPV6_LINK_LOCAL_ALL_RPL_NODES: Ipv6Address = Ipv6Address([
    0xff, 0x02, 0, 0, 0, 0, 0, 0, 0, 0, 0, 0, 0, 0, 0, 0x1a,
]);

/// The first 96 bits of an IPv4-mapped address, as a number (RFC 4291, section 2.5.5.2).
const MAPPED_PREFIX: u128 = 0xffff;

/// The least number of zero groups that `::` stands for (RFC 5952, section 4.2.2).
const MIN_RUN: usize = 2;

/// A sixteen-byte IPv6 address. A clause sees it as the list of its bytes, in the order in which
/// they are sent.
#[derive(Debug, Clone, Copy, PartialEq, Eq, PartialOrd, Ord, Hash)]
pub struct Ipv6Address(pub(crate) [u8; IPV6_ADDR_SIZE]);

impl Model for Ipv6Address {
    ghost use Rattle.std.specs.Prelude.{ℕ, List};
    ghost use Rattle.wire_addr.specs.Bytes.{IsByteArray};

    ghost Value = { List ℕ };

    ghost view = { λ a. a.0 };

    ghost invariant = { λ a. IsByteArray 16 a.0 };

    ghost inverse = { λ octets. record { 0 = octets } };
}

impl Ipv6Address {
    /// The unspecified address, `::`: the source address of a host that has no address yet (RFC
    /// 4291, section 2.5.2).
    pub const UNSPECIFIED: Ipv6Address = Ipv6Address([0; 16]);

    /// The loopback address, `::1` (RFC 4291, section 2.5.3).
    pub const LOCALHOST: Ipv6Address = Ipv6Address([
        0, 0, 0, 0, 0, 0, 0, 0, 0, 0, 0, 0, 0, 0, 0, 1,
    ]);

    /// The address `a:b:c:d:e:f:g:h`.
    pub const fn new(a: u16, b: u16, c: u16, d: u16, e: u16, f: u16, g: u16, h: u16) -> Ipv6Address
        ensures { result ≡ address_bytes (a ∷ b ∷ c ∷ d ∷ e ∷ f ∷ g ∷ h ∷ []) }
    {
        Ipv6Address::from_octets([
            (a >> 8) as u8,
            (a & 0xff) as u8,
            (b >> 8) as u8,
            (b & 0xff) as u8,
            (c >> 8) as u8,
            (c & 0xff) as u8,
            (d >> 8) as u8,
            (d & 0xff) as u8,
            (e >> 8) as u8,
            (e & 0xff) as u8,
            (f >> 8) as u8,
            (f & 0xff) as u8,
            (g >> 8) as u8,
            (g & 0xff) as u8,
            (h >> 8) as u8,
            (h & 0xff) as u8,
        ])
    }

    /// The address with these bytes.
    pub const fn from_octets(octets: [u8; 16]) -> Ipv6Address
        ensures { result ≡ octets }
    {
        Ipv6Address(octets)
    }

    /// The sixteen bytes.
    pub const fn octets(&self) -> [u8; 16]
        ensures { result ≡ self.now }
    {
        self.0
    }

    /// The address with the bytes of this number, in big-endian order.
    #[inline]
    pub fn from_bits(bits: u128) -> Ipv6Address
        ensures value { number_of result ≡ bits }
        ensures octets { IsByteArray 16 result }
    {
        let mut octets = [0; 16];
        NetworkEndian::write_u128(&mut octets, bits);
        Ipv6Address(octets)
    }

    /// The bytes as a big-endian number.
    #[inline]
    pub fn to_bits(self) -> u128
        ensures value { result ≡ number_of self }
        ensures octets { IsByteArray 16 self }
    {
        NetworkEndian::read_u128(&self.0)
    }

    /// The eight groups of 16 bits, in the order in which they are sent.
    #[tactic(auto, using(crate::proofs::GroupBytes::read_groups))]
    pub fn segments(&self) -> [u16; 8]
        ensures { result ≡ groups_of self.now }
    {
        let mut groups = [0; 8];
        NetworkEndian::read_u16_into(&self.0, &mut groups);
        groups
    }

    /// Returns `true` for `::`.
    #[inline]
    pub fn is_unspecified(&self) -> bool
        ensures { IsTrue result ↔ (self.now ≡ ipv6_unspecified) }
    {
        *self == Ipv6Address::UNSPECIFIED
    }

    /// Returns `true` for `::1`.
    #[inline]
    pub fn is_loopback(&self) -> bool
        ensures { IsTrue result ↔ (self.now ≡ ipv6_loopback) }
    {
        *self == Ipv6Address::LOCALHOST
    }

    /// Returns `true` for a multicast address, in ff00::/8 (RFC 4291, section 2.7).
    #[inline]
    pub fn is_multicast(&self) -> bool
        ensures { IsTrue result ↔ IsIn ipv6_multicast self.now }
    {
        Ipv6Cidr::new(Ipv6Address::new(0xff00, 0, 0, 0, 0, 0, 0, 0), 8).contains_addr(self)
    }

    /// Returns `true` for a unique local address, in fc00::/7 (RFC 4193, section 3.1).
    #[inline]
    pub fn is_unique_local(&self) -> bool
        ensures { IsTrue result ↔ IsIn ipv6_unique_local self.now }
    {
        Ipv6Cidr::new(Ipv6Address::new(0xfc00, 0, 0, 0, 0, 0, 0, 0), 7).contains_addr(self)
    }

    /// Returns `true` for a link-local address, in fe80::/64: the ten bits of the prefix are
    /// followed by 54 zeros (RFC 4291, section 2.5.6). `Ipv6Cidr::LINK_LOCAL_PREFIX` is the larger
    /// block fe80::/10.
    #[inline]
    pub fn is_link_local(&self) -> bool
        ensures { IsTrue result ↔ IsIn ipv6_link_local self.now }
    {
        Ipv6Cidr::new(Ipv6Address::new(0xfe80, 0, 0, 0, 0, 0, 0, 0), 64).contains_addr(self)
    }

    /// Returns `true` for a global unicast address, in 2000::/3 (RFC 3587, section 3).
    #[inline]
    pub fn is_global_unicast(&self) -> bool
        ensures { IsTrue result ↔ IsIn ipv6_global_unicast self.now }
    {
        Ipv6Cidr::new(Ipv6Address::new(0x2000, 0, 0, 0, 0, 0, 0, 0), 3).contains_addr(self)
    }

    /// Returns `true` for an address that is neither multicast nor unspecified.
    pub fn x_is_unicast(&self) -> bool
        ensures { IsTrue result ↔ IsIpv6Unicast self.now }
    {
        !(self.is_multicast() || self.is_unspecified())
    }

    /// The address of an interface on a link: the link's prefix and the interface identifier (RFC
    /// 2464, section 4). `None` if the prefix length is not 64, or if there is no interface
    /// identifier.
    pub fn from_link_prefix(
        link_prefix: &Ipv6Cidr,
        interface_identifier: HardwareAddress,
    ) -> Option<Ipv6Address>
        ensures { result ≡ link_address link_prefix.now interface_identifier }
    {
        if link_prefix.prefix_len() != 64 {
            return None;
        }
        let mut octets = link_prefix.address().octets();
        octets[8..].copy_from_slice(&interface_identifier.as_eui_64()?);
        Some(Ipv6Address::from_octets(octets))
    }

    /// The bytes of the address, with zeros after the first `mask` bits.
    pub fn mask(&self, mask: u8) -> [u8; IPV6_ADDR_SIZE]
        requires { mask ≤ 128 }
        ensures { IsMasked mask self.now result }
    {
        (self.to_bits() & mask_128(mask)).to_be_bytes()
    }

    /// The solicited-node multicast address of this address (RFC 4291, section 2.7.1).
    pub fn solicited_node(&self) -> Ipv6Address
        requires { IsIpv6Unicast self.now }
        ensures { result ≡ solicited_node self.now }
    {
        let mut octets = Ipv6Cidr::SOLICITED_NODE_PREFIX.address().octets();
        octets[13..].copy_from_slice(&self.0[13..]);
        Ipv6Address::from_octets(octets)
    }

    /// Returns `true` for a solicited-node multicast address, in ff02::1:ff00:0/104 (RFC 4291,
    /// section 2.7.1).
    #[inline]
    pub fn is_solicited_node_multicast(&self) -> bool
        ensures { IsTrue result ↔ IsIn ipv6_solicited_node self.now }
    {
        Ipv6Cidr::SOLICITED_NODE_PREFIX.contains_addr(self)
    }

    /// The scope of the address. Unicast addresses have a scope too, for the choice of a source
    /// address (RFC 6724, section 3.1). A unique local address has global scope.
    pub fn x_multicast_scope(&self) -> Ipv6MulticastScope
        ensures { HasScope self.now result }
    {
        if self.is_multicast() {
            (self.0[1] % 16).into()
        } else if self.is_link_local() {
            Ipv6MulticastScope::LinkLocal
        } else if self.is_unique_local() || self.is_global_unicast() {
            Ipv6MulticastScope::Global
        } else {
            Ipv6MulticastScope::Unknown
        }
    }

    /// The prefix length of this netmask: the number of ones, if only zeros follow them. `None` for
    /// any other address.
    pub fn prefix_len(&self) -> Option<u8>
        ensures value { (n : ℕ) → (result ≡ Some n) ↔ IsNetmask n self.now }
        ensures within { IfSome result (λ n. n ≤ 128) }
    {
        let bits = self.to_bits();
        let ones = bits.leading_ones() as u8;
        (bits == mask_128(ones)).then_some(ones)
    }

    /// The printed text (RFC 5952, section 4). The last four bytes of an IPv4-mapped address are
    /// dotted.
    #[inline(always)]
    pub fn text(&self) -> ArrayString<39>
        ensures { result.bytes ≡ ipv6_text self.now }
    {
        let mut text = ArrayString::new();
        push_ipv6(&mut text, self);
        text
    }

    /// The IPv4 address in an IPv4-mapped address, else `None`.
    fn to_ipv4_mapped(&self) -> Option<Ipv4Address>
        ensures { MatchOption result (take 12 self.now ≢ mapped_prefix)
            (λ ipv4. self.now ≡ mapped_prefix ++ ipv4) }
    {
        let [.., a, b, c, d] = self.0;
        let is_mapped = self.to_bits() >> 32 == MAPPED_PREFIX;
        is_mapped.then_some(Ipv4Address::new(a, b, c, d))
    }
}

/// The address with these bytes.
impl From<[u8; 16]> for Ipv6Address {
    ghost from_gives = { λ octets address. address ≡ octets };

    fn from(octets: [u8; 16]) -> Ipv6Address {
        Ipv6Address(octets)
    }
}

/// The address with these groups.
impl From<[u16; 8]> for Ipv6Address {
    ghost from_gives = { λ groups address. address ≡ address_bytes groups };

    fn from(groups: [u16; 8]) -> Ipv6Address {
        let mut octets = [0; 16];
        NetworkEndian::write_u16_into(&groups, &mut octets);
        Ipv6Address::from_octets(octets)
    }
}

/// Appends an IPv6 address as `Ipv6Address::text` does.
pub fn push_ipv6<const CAP: usize>(text: &mut ArrayString<CAP>, address: &Ipv6Address)
    requires { array_string_len text.old + 39 ≤ CAP }
    ensures bytes { text.new.bytes ≡ text.old.bytes ++ ipv6_text address.now }
    ensures len { array_string_len text.new ≤ array_string_len text.old + 39 }
{
    if let Some(ipv4) = address.to_ipv4_mapped() {
        text.push_str("::ffff:");
        return push_dotted(text, ipv4.octets());
    }
    let groups = address.segments();
    let (start, len) = longest_zero_run(&groups);
    if len >= MIN_RUN {
        push_groups(text, &groups[..start]);
        text.push_str("::");
        push_groups(text, &groups[start + len..]);
    } else {
        push_groups(text, &groups);
    }
}

/// The place of the longest run of zeros, the first of several, and its length.
fn longest_zero_run(groups: &[u16; 8]) -> (usize, usize)
    ensures value { result ≡ longest_zero_run groups.now }
    ensures within { result.0 + result.1 ≤ 8 }
{
    // A run as one number. A longer run is greater; of two runs of one length the first is greater.
    let mut longest = 0;
    let mut run = 0;
    for i in (0..8).rev() {
        run = if groups[i] == 0 { run + 1 } else { 0 };
        longest = longest.max(8 * run + 7 - i);
    }
    (7 - longest % 8, longest / 8)
}

/// Width and precision of the formatter are ignored.
impl fmt::Display for Ipv6Address {
    ghost output = { λ octets. Some (ipv6_text octets) };

    fn fmt<W: fmt::Write>(&self, f: &mut fmt::Formatter<W>) -> fmt::Result {
        let mut text = ArrayString::<39>::new();
        push_ipv6(&mut text, self);
        f.write_str(text.as_str())
    }
}
