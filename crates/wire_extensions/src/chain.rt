//! Where the extension headers of an IPv6 packet lead.

ghost use Rattle.std.specs.Prelude.{◌≡◌, ◌≤◌, ◌+◌, ◌%◌, ◌^◌, IfSome, None, drop, length};
ghost use Rattle.wire_ipv6.specs.Ipv6Fragment as fragment;
ghost use Rattle.wire_extensions.specs.Chain.{begun, chain_of, end_of, ends_at_part, entered, extension_fault, is_part, stepped};
ghost use Rattle.wire_extensions.specs.Extension.{extension_len};

use crate::extension::{AUTHENTICATION, EXTENSION_UNIT, FRAGMENT, extension_len, is_extension};
use wire_ipv6::{Ipv6FragmentHeader, Ipv6FragmentRepr};

// The protocols of hop-by-hop options and of a routing header.
const HOP_BY_HOP: u8 = 0;

const ROUTING: u8 = 43;

/// Why an extension header is rejected.
#[derive(Debug, Clone, Copy, PartialEq, Eq)]
pub enum ExtensionFault {
    /// The packet ends in the header.
    TooShort,
    /// The header was not captured as a whole.
    HeaderCut,
    /// A routing header with segments left: the IPv6 header does not name the last destination.
    HopsLeft,
    /// Hop-by-hop options that are not the first header after the IPv6 header.
    BadOrder,
}

/// Extension headers of a packet, one after the other.
#[derive(Debug, Clone, Copy)]
pub struct Chain {
    /// The length of those that were stepped through, in bytes.
    pub len: usize,
    /// The number of what follows them.
    pub protocol: u8,
    /// Why the next one is rejected, if it is.
    pub fault: Option<ExtensionFault>,
    /// The last fragment header.
    pub fragment: Option<Ipv6FragmentRepr>,
    /// Whether one of them is an authentication header.
    pub is_authenticated: bool,
}

impl Chain {
    /// The chain from this protocol on. The IPv6 header is followed by `len` bytes, of which these were captured. The chain
    /// ends at the header of a fragment, and is not stepped through it.
    pub fn of(protocol: u8, len: usize, bytes: &[u8]) -> Chain
        requires captured { length bytes.now ≤ len }
        ensures value { result ≡ chain_of protocol len bytes.now }
        ensures within { end_of result ≤ length bytes.now }
        ensures even { result.len % 2 ≡ 0 }
        ensures part { IfSome result.fragment (λ v. v.frag_offset ≤ 8191) }
    {
        let mut chain = Chain::begun(protocol);
        for _ in 0..=bytes.len() {
            if !chain.step(len, bytes) {
                break;
            }
        }
        chain
    }

    /// The end of the chain in bytes, with the header of a fragment that it ends at.
    pub fn end(&self) -> usize
        requires { self.now.len ≤ 2 ^ 63 }
        ensures { result ≡ end_of self.now }
    {
        if self.ends_at_part() {
            self.len + EXTENSION_UNIT
        } else {
            self.len
        }
    }

    /// Whether the chain ends at the header of a fragment.
    pub fn ends_at_part(&self) -> bool
        ensures { result ≡ ends_at_part self.now.fragment }
    {
        match &self.fragment {
            Some(header) => is_part(header),
            None => false,
        }
    }

    // The chain before its first header.
    fn begun(protocol: u8) -> Chain
        ensures { result ≡ begun protocol }
    {
        Chain {
            len: 0,
            protocol,
            fault: None,
            fragment: None,
            is_authenticated: false,
        }
    }

    // Steps through the next header. Returns whether the chain goes on.
    #[tactic(auto, unfolding(crate::specs::Chain::stepped))]
    fn step(&mut self, len: usize, bytes: &[u8]) -> bool
        requires captured { length bytes.now ≤ len }
        requires place { self.old.len ≤ length bytes.now }
        requires even { self.old.len % 2 ≡ 0 }
        requires part { IfSome self.old.fragment (λ v. v.frag_offset ≤ 8191) }
        ensures chain { self.new ≡ (stepped len bytes.now self.old).0 }
        ensures goes_on { result ≡ (stepped len bytes.now self.old).1 }
        ensures within { self.new.len ≤ length bytes.now }
        ensures even { self.new.len % 2 ≡ 0 }
        ensures part { IfSome self.new.fragment (λ v. v.frag_offset ≤ 8191) }
    {
        if !is_extension(self.protocol) {
            return false;
        }
        let rest = &bytes[self.len..];
        match extension_fault(self.protocol, self.len == 0, len - self.len, rest) {
            Some(fault) => {
                self.fault = Some(fault);
                false
            }
            None => self.enter(rest),
        }
    }

    // Steps through a header that is not rejected. Returns whether the chain goes on.
    fn enter(&mut self, bytes: &[u8]) -> bool
        requires place { self.old.len ≤ 2 ^ 63 }
        requires even { self.old.len % 2 ≡ 0 }
        requires header { 8 ≤ length bytes.now }
        requires part { IfSome self.old.fragment (λ v. v.frag_offset ≤ 8191) }
        ensures chain { self.new ≡ (entered self.old bytes.now).0 }
        ensures goes_on { result ≡ (entered self.old bytes.now).1 }
        ensures within { self.new.len ≤ self.old.len + extension_len self.old.protocol bytes.now }
        ensures even { self.new.len % 2 ≡ 0 }
        ensures part { IfSome self.new.fragment (λ v. v.frag_offset ≤ 8191) }
    {
        if self.protocol == FRAGMENT {
            let header = fragment_values(bytes);
            self.fragment = Some(header);
            if is_part(&header) {
                return false;
            }
        }
        self.len += extension_len(self.protocol, bytes);
        self.is_authenticated = self.is_authenticated || self.protocol == AUTHENTICATION;
        self.protocol = bytes[0];
        true
    }
}

// The values of a fragment header.
fn fragment_values(bytes: &[u8]) -> Ipv6FragmentRepr
    requires { 8 ≤ length bytes.now }
    ensures value { result ≡ fragment.header_of (drop 2 bytes.now) }
    ensures part { result.frag_offset ≤ 8191 }
{
    let header = Ipv6FragmentHeader::new_unchecked(&bytes[2..]);
    Ipv6FragmentRepr {
        frag_offset: header.frag_offset(),
        more_frags: header.more_frags(),
        ident: header.ident(),
    }
}

/// Whether a fragment header with these values is that of a fragment, and not of a whole packet (RFC 6946).
pub fn is_part(header: &Ipv6FragmentRepr) -> bool
    ensures { result ≡ is_part header.now }
{
    header.more_frags || header.frag_offset != 0
}

// Why an extension header is rejected, if it is: the first test that fails. `len` bytes of the packet begin with it, of
// which these were captured.
fn extension_fault(protocol: u8, is_first: bool, len: usize, bytes: &[u8]) -> Option<ExtensionFault>
    ensures value { result ≡ extension_fault protocol is_first len bytes.now }
    ensures header { result ≡ None → 8 ≤ length bytes.now }
    ensures whole { result ≡ None → extension_len protocol bytes.now ≤ length bytes.now }
{
    if len < EXTENSION_UNIT {
        return Some(ExtensionFault::TooShort);
    }
    if bytes.len() < EXTENSION_UNIT {
        return Some(ExtensionFault::HeaderCut);
    }
    let header_len = extension_len(protocol, bytes);
    if len < header_len {
        Some(ExtensionFault::TooShort)
    } else if bytes.len() < header_len {
        Some(ExtensionFault::HeaderCut)
    } else if protocol == ROUTING && bytes[3] != 0 {
        Some(ExtensionFault::HopsLeft)
    } else if protocol == HOP_BY_HOP && !is_first {
        Some(ExtensionFault::BadOrder)
    } else {
        None
    }
}
