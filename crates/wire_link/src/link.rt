//! A link-layer header with its VLAN tags.

ghost use Rattle.std.specs.Prelude.{◌≡◌, ◌≤◌, ◌+◌, ◌*◌, IfOk, length};
ghost use Rattle.wire_link.specs.Link.{header_len, is_tag, link_of, with_tag};

use crate::link_type::LinkType;
use byteorder::{ByteOrder, NetworkEndian};

/// The length of a VLAN tag, in bytes.
const TAG_LEN: usize = 4;

/// Why a link-layer header is rejected.
#[derive(Debug, Clone, Copy, PartialEq, Eq)]
pub enum LinkFault {
    /// There are fewer bytes than these, which the header and its tags need.
    TooShort(usize),
    /// A packet without a link-layer header that has no IP version of the link type.
    BadVersion,
}

/// `struct lk_link`: a link-layer header.
#[repr(C)]
#[derive(Debug, Clone, Copy, PartialEq, Eq)]
pub struct Link {
    /// Where the packet begins: the length of the header and its tags, in bytes.
    pub offset: usize,
    /// The EtherType of the packet; 0 if the header has none.
    pub ethertype: u16,
    /// The control information of each VLAN tag, the outer one first; 0 if there is no such tag.
    pub tags: [u16; 2],
    /// At most 2.
    pub tag_count: u8,
}

impl Link {
    /// Parses the link-layer header that the bytes begin with. Up to two VLAN tags are skipped, of
    /// EtherType 0x8100, 0x88a8 or 0x9100 (IEEE 802.1Q, section 9). A `LinkFault` says why the header is rejected.
    pub fn parse(link_type: LinkType, bytes: &[u8]) -> Result<Link, LinkFault>
        ensures value { result ≡ link_of link_type bytes.now }
        ensures tags { IfOk result (λ link. link.offset ≡ header_len link_type + 4 * link.tag_count) }
        ensures header { IfOk result (λ link. header_len link_type ≤ link.offset) }
        ensures within { IfOk result (λ link. link.offset ≤ length bytes.now) }
        ensures bounded { IfOk result (λ link. link.offset ≤ 28) }
    {
        let least = link_type.least_len();
        if bytes.len() < least {
            return Err(LinkFault::TooShort(least));
        }
        let header = Link {
            offset: link_type.header_len(),
            ethertype: link_type.ethertype(bytes)?,
            tags: [0, 0],
            tag_count: 0,
        };
        header.with_tag(bytes)?.with_tag(bytes)
    }

    // The link with the tag that follows it, if its EtherType names one.
    fn with_tag(self, bytes: &[u8]) -> Result<Link, LinkFault>
        requires within { self.offset ≤ length bytes.now }
        requires bounded { self.offset ≤ 24 }
        requires few { self.tag_count ≤ 1 }
        ensures value { result ≡ with_tag bytes.now self }
        ensures tags { IfOk result (λ link. link.offset + 4 * self.tag_count ≡ self.offset + 4 * link.tag_count) }
        ensures few { IfOk result (λ link. link.tag_count ≤ self.tag_count + 1) }
        ensures header { IfOk result (λ link. self.offset ≤ link.offset) }
        ensures within { IfOk result (λ link. link.offset ≤ length bytes.now) }
        ensures bounded { IfOk result (λ link. link.offset ≤ self.offset + 4) }
    {
        if !is_tag(self.ethertype) {
            return Ok(self);
        }
        let rest = &bytes[self.offset..];
        if rest.len() < TAG_LEN {
            return Err(LinkFault::TooShort(self.offset + TAG_LEN));
        }
        let tag = NetworkEndian::read_u16(rest);
        let is_outer = self.tag_count == 0;
        Ok(Link {
            offset: self.offset + TAG_LEN,
            ethertype: NetworkEndian::read_u16(&rest[2..4]),
            tags: if is_outer {
                [tag, 0]
            } else {
                [self.tags[0], tag]
            },
            tag_count: if is_outer { 1 } else { 2 },
        })
    }
}

// Whether a VLAN tag follows this EtherType.
fn is_tag(ethertype: u16) -> bool
    ensures { result ≡ is_tag ethertype }
{
    matches!(ethertype, 0x8100 | 0x88a8 | 0x9100)
}
