//! The values of an IPv6 fragment header.

ghost use Rattle.std.specs.Prelude.{◌≡◌, ◌↔◌, ◌≤◌, ◌++◌, Ok, OnOk, Some, drop, length};
ghost use Rattle.std.specs.Result.{result_ok};
ghost use Rattle.wire_ipv6.specs.Ipv6Fragment.{Becomes, Reads, bytes_of, header_bytes, header_bytes_mut, ipv6_fragment_of, value_text};
ghost use Rattle.wire_ipv6.specs.declared.ipv6fragment.repr.Ipv6FragmentRepr.{Ipv6FragmentRepr};

use super::{HEADER_LEN, Ipv6FragmentHeader, Ipv6FragmentHeaderMut};
use net_base::Result;
use std::fmt;

/// The values of a fragment header.
#[derive(Debug, Clone, Copy, PartialEq, Eq)]
pub struct Ipv6FragmentRepr {
    /// The fragment offset: where the fragment begins in the fragmentable part, in units of 8 bytes, at
    /// most 8,191.
    pub frag_offset: u16,
    /// Set if more fragments follow this one.
    pub more_frags: bool,
    /// The identification, which all fragments of a packet share.
    pub ident: u32,
}

impl Ipv6FragmentRepr {
    /// Parses a header. The reserved bits are ignored. Bytes that are too short for a header are
    /// rejected.
    pub fn parse(header: &Ipv6FragmentHeader<'_>) -> Result<Ipv6FragmentRepr>
        ensures reads { (v : Ipv6FragmentRepr) → (result ≡ Ok v) ↔ Reads (header_bytes header.now) v }
        ensures value { ipv6_fragment_of (header_bytes header.now) ≡ result_ok result }
        ensures lengths { OnOk result (6 ≤ length (header_bytes header.now)) }
    {
        header.check_len()?;
        Ok(Ipv6FragmentRepr {
            frag_offset: header.frag_offset(),
            more_frags: header.more_frags(),
            ident: header.ident(),
        })
    }

    /// The length of the emitted header in bytes.
    pub fn buffer_len(&self) -> usize
        ensures { result ≡ 6 }
    {
        HEADER_LEN
    }

    /// Writes the header. All bytes after it stay. The offset is cut to 13 bits, and the
    /// reserved bits are zeroed.
    pub fn emit(&self, header: &mut Ipv6FragmentHeaderMut<'_>)
        requires { 6 ≤ length (header_bytes_mut header.old) }
        ensures { Becomes header.old header.new (bytes_of self.now ++ drop 6 (header_bytes_mut header.old)) }
    {
        header.clear_reserved();
        header.set_frag_offset(self.frag_offset);
        header.set_more_frags(self.more_frags);
        header.set_ident(self.ident);
    }
}

impl fmt::Display for Ipv6FragmentRepr {
    ghost output = { λ v. Some (value_text v) };

    #[tactic(auto, unfolding(crate::specs::Ipv6Fragment::value_text))]
    fn fmt<W: fmt::Write>(&self, f: &mut fmt::Formatter<W>) -> fmt::Result {
        let (offset, more, ident) = (self.frag_offset, self.more_frags, self.ident);
        write!(f, "IPv6 Fragment offset={offset} more={more} ident={ident}")
    }
}
