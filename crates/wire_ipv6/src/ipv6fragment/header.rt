//! Views of IPv6 fragment headers, and their getters.

ghost use Rattle.std.specs.Prelude.{◌≡◌, ◌↔◌, ◌≤◌, IfOk, IsOk, IsTrue, Some, length};
ghost use Rattle.wire_ipv6.specs.Ipv6Fragment.{frag_offset_of, header_bytes, header_slice, header_text, ident_of, more_frags_of};

use super::{HEADER_LEN, Ipv6FragmentRepr};
use byteorder::{ByteOrder, NetworkEndian};
use net_base::{Error, Octets, Result, debug_view, is_bit_set};
use std::fmt;

/// A view of a borrowed fragment header, without the next header and the reserved byte. A call
/// requires only the bytes that it uses.
#[derive(Clone, Copy, PartialEq, Eq, Drop)]
pub struct Ipv6FragmentView<B> {
    pub(super) buffer: B,
}

/// A reading view.
pub type Ipv6FragmentHeader<'a> = Ipv6FragmentView<&'a [u8]>;

/// A mutable view.
pub type Ipv6FragmentHeaderMut<'a> = Ipv6FragmentView<&'a mut [u8]>;

impl<B: Octets> Ipv6FragmentView<B> {
    /// A view of any bytes. Nothing is checked.
    pub fn new_unchecked(buffer: B) -> Ipv6FragmentView<B>
        ensures { header_slice result ≡ buffer }
    {
        Ipv6FragmentView { buffer }
    }

    /// Checks that there are at least 6 bytes, and else returns an error. After `Ok` every call of this view may be
    /// made.
    pub fn check_len(&self) -> Result<()>
        ensures { IsOk result ↔ (6 ≤ length (B.octets (header_slice self.now))) }
    {
        if self.as_bytes().len() < HEADER_LEN {
            Err(Error)
        } else {
            Ok(())
        }
    }

    /// The borrowed slice, with its own lifetime.
    pub fn into_inner(self) -> B
        ensures { result ≡ header_slice self }
    {
        self.buffer
    }

    /// The bytes under the view.
    pub fn as_bytes(&self) -> &[u8]
        ensures { result.now ≡ B.octets (header_slice self.now) }
    {
        self.buffer.octets()
    }

    /// A reading view of the same bytes.
    pub fn as_view(&self) -> Ipv6FragmentHeader<'_>
        ensures { header_bytes result ≡ B.octets (header_slice self.now) }
    {
        Ipv6FragmentView::new_unchecked(self.as_bytes())
    }

    /// The fragment offset: where the fragment begins in the fragmentable part, in units of 8 bytes.
    pub fn frag_offset(&self) -> u16
        requires { 2 ≤ length (B.octets (header_slice self.now)) }
        ensures { result ≡ frag_offset_of (B.octets (header_slice self.now)) }
    {
        NetworkEndian::read_u16(&self.as_bytes()[0..2]) >> 3
    }

    /// Returns `true` if more fragments follow this one.
    pub fn more_frags(&self) -> bool
        requires { 2 ≤ length (B.octets (header_slice self.now)) }
        ensures { IsTrue result ↔ (more_frags_of (B.octets (header_slice self.now)) ≡ 1) }
    {
        is_bit_set(self.as_bytes(), 15)
    }

    /// The identification, which all fragments of a packet share.
    pub fn ident(&self) -> u32
        requires { 6 ≤ length (B.octets (header_slice self.now)) }
        ensures { result ≡ ident_of (B.octets (header_slice self.now)) }
    {
        NetworkEndian::read_u32(&self.as_bytes()[2..6])
    }
}

impl<'a> Ipv6FragmentHeader<'a> {
    /// A view of bytes that `check_len` accepts, else an error.
    pub fn new_checked(buffer: &'a [u8]) -> Result<Ipv6FragmentHeader<'a>>
        ensures ok { IsOk result ↔ (6 ≤ length buffer.now) }
        ensures bytes { IfOk result (λ header. header_bytes header ≡ buffer.now) }
    {
        let header = Ipv6FragmentView::new_unchecked(buffer);
        header.check_len()?;
        Ok(header)
    }
}

impl<B: Octets> fmt::Debug for Ipv6FragmentView<B> {
    fn fmt<W: fmt::Write>(&self, f: &mut fmt::Formatter<W>) -> fmt::Result {
        debug_view(f, "Ipv6FragmentHeader", &self.buffer)
    }
}

/// Prints the values of the header, or an error if the bytes hold none.
impl fmt::Display for Ipv6FragmentHeader<'_> {
    ghost output = { λ header. Some (header_text (header_bytes header)) };

    fn fmt<W: fmt::Write>(&self, f: &mut fmt::Formatter<W>) -> fmt::Result {
        match Ipv6FragmentRepr::parse(self) {
            Ok(value) => write!(f, "{value}"),
            Err(error) => write!(f, "IPv6 Fragment ({error})"),
        }
    }
}
