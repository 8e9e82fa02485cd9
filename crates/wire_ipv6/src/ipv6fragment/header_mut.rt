//! Setters of IPv6 fragment headers.

ghost use Rattle.std.specs.Prelude.{◌↔◌, ◌≤◌, if◌then◌else◌, IfOk, IsOk, length};
ghost use Rattle.std.specs.Borrow.{sem};
ghost use Rattle.net_base.specs.Field.{with_field};
ghost use Rattle.net_base.specs.Borrow.{Checks, Holds, StaysIfErr};
ghost use Rattle.wire_ipv6.specs.Ipv6Fragment.{Becomes, header_bytes_mut, header_slice};

use super::header::Ipv6FragmentView;
use super::{Ipv6FragmentHeader, Ipv6FragmentHeaderMut};
use byteorder::{ByteOrder, NetworkEndian};
use net_base::{Checked, Error, Result, set_bits, set_bits_u16};

impl<'a> Ipv6FragmentHeaderMut<'a> {
    /// A mutable view of bytes that `check_len` accepts, else an error. Rejected bytes are unchanged.
    pub fn new_checked(buffer: &'a mut [u8]) -> Result<Ipv6FragmentHeaderMut<'a>>
        ensures* rejected { sem 𝓛 (StaysIfErr buffer.entry header_slice result) }
        ensures ok { IsOk result ↔ (6 ≤ length buffer.old) }
        ensures bytes { IfOk result (λ header. Holds buffer.entry (header_slice header) buffer.old) }
    {
        let checked = check(buffer);
        if checked.ok {
            Ok(Ipv6FragmentView {
                buffer: checked.bytes,
            })
        } else {
            Err(Error)
        }
    }

    /// Writes the fragment offset in units of 8 bytes, cut to 13 bits.
    pub fn set_frag_offset(&mut self, value: u16)
        requires { 2 ≤ length (header_bytes_mut self.old) }
        ensures { Becomes self.old self.new (with_field (header_bytes_mut self.old) 0 13 value) }
    {
        set_bits_u16(&mut self.buffer[0..2], 0, 13, value);
    }

    /// Writes the flag for more fragments.
    pub fn set_more_frags(&mut self, value: bool)
        requires { 2 ≤ length (header_bytes_mut self.old) }
        ensures { Becomes self.old self.new (with_field (header_bytes_mut self.old) 15 1 (if value then 1 else 0)) }
    {
        set_bits(self.buffer, 15, 1, value.into());
    }

    /// Writes the identification.
    pub fn set_ident(&mut self, value: u32)
        requires { 6 ≤ length (header_bytes_mut self.old) }
        ensures { Becomes self.old self.new (with_field (header_bytes_mut self.old) 16 32 value) }
    {
        NetworkEndian::write_u32(&mut self.buffer[2..6], value);
    }

    /// Zeroes the two reserved bits between the offset and the flag.
    pub fn clear_reserved(&mut self)
        requires { 2 ≤ length (header_bytes_mut self.old) }
        ensures { Becomes self.old self.new (with_field (header_bytes_mut self.old) 13 2 0) }
    {
        set_bits(self.buffer, 13, 2, 0);
    }
}

// The slice, and whether `check_len` accepts it.
fn check(bytes: &mut [u8]) -> Checked<'_>
    ensures { Checks bytes.entry (6 ≤ length bytes.old) result }
{
    let ok = Ipv6FragmentHeader::new_checked(bytes).is_ok();
    Checked { bytes, ok }
}
