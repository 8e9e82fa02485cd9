//! Link-layer headers, and the packets after them, in the structs of C.

ghost use Rattle.std.specs.Prelude.{◌≡◌, ◌≤◌, ◌+◌, ◌-◌, length, min, pos};
ghost use Rattle.wire_link.specs.Link.{header_len};
ghost use Rattle.ip_wire.specs.Ethernet.{protocol_of};
ghost use Rattle.c_read.specs.Links.{carried_by, ethernet_in, link_or, link_reason, linked_by, linked_headers, linked_of, rejected_link, with_linked};

use crate::captured::{reject_cut, store_cut_arp, store_cut_ipv4, store_cut_ipv6};
use crate::frame_fields::{reject, step_after, store_arp, store_captured, store_ipv4, store_ipv6};
use c_structs::{Ethernet, FrameFields, Reason};
use ip_wire::EthernetProtocol;
use net_base::array_at;
use wire_link::{Link, LinkFault, LinkType};

/// Stores the link-layer header that captured bytes begin with, and returns 0. Returns why there is none, and
/// stores nothing then.
pub fn read_link(number: u32, captured: &[u8], link: &mut Link) -> i32
    ensures stored { link.new ≡ link_or number captured.now link.old }
    ensures returned { result ≡ pos (link_reason number captured.now) }
{
    let Some(link_type) = LinkType::of(number) else {
        return i32::from(Reason::UnknownLink.code());
    };
    match Link::parse(link_type, captured) {
        Ok(found) => {
            *link = found;
            i32::from(Reason::Read.code())
        }
        Err(LinkFault::TooShort(_)) => i32::from(Reason::TooShort.code()),
        Err(LinkFault::BadVersion) => i32::from(Reason::BadVersion.code()),
    }
}

/// Stores the values of a packet with a link-layer header of the type with this number, up to a header that is
/// rejected. The first bytes of its `len` bytes were captured.
#[tactic(auto, unfolding(crate::specs::Links::linked_of))]
pub fn read_linked(fields: &mut FrameFields, number: u32, captured: &[u8], len: usize)
    requires part { length captured.now ≤ len }
    ensures value { fields.new ≡ linked_of number captured.now len }
    ensures within { fields.new.payload_offset + fields.new.payload_len ≤ len }
    ensures captured { fields.new.payload_captured ≡ min fields.new.payload_len (length captured.now - fields.new.payload_offset) }
{
    store_linked_headers(fields, number, captured, len);
    store_captured(fields, captured.len());
}

// Stores the values of the headers of a packet with a link-layer header of the type with this number.
#[tactic(auto, unfolding(crate::specs::Links::linked_headers))]
fn store_linked_headers(fields: &mut FrameFields, number: u32, captured: &[u8], len: usize)
    requires part { length captured.now ≤ len }
    ensures value { fields.new ≡ linked_headers number captured.now len }
    ensures within { fields.new.payload_offset + fields.new.payload_len ≤ len }
{
    *fields = FrameFields::nothing(len);
    match LinkType::of(number) {
        Some(link_type) => store_linked(fields, link_type, captured),
        None => reject(fields, Reason::UnknownLink),
    }
}

// Stores a packet of this link type.
fn store_linked(fields: &mut FrameFields, link_type: LinkType, captured: &[u8])
    requires offset { fields.old.payload_offset ≡ 0 }
    requires len { length captured.now ≤ fields.old.payload_len }
    ensures value { fields.new ≡ linked_by fields.old captured.now link_type }
    ensures within { fields.new.payload_offset + fields.new.payload_len ≤ fields.old.payload_len }
{
    match Link::parse(link_type, captured) {
        Ok(link) => {
            store_header(fields, link_type, &link, captured);
            store_carried(fields, link.ethertype, &captured[link.offset..]);
        }
        Err(fault) => reject_link(fields, fault),
    }
}

// Stores why there is no link-layer header.
fn reject_link(fields: &mut FrameFields, fault: LinkFault)
    ensures { fields.new ≡ rejected_link fields.old fault }
{
    match fault {
        LinkFault::TooShort(least) => reject_cut(fields, least),
        LinkFault::BadVersion => reject(fields, Reason::BadVersion),
    }
}

// Stores a link-layer header.
fn store_header(fields: &mut FrameFields, link_type: LinkType, link: &Link, captured: &[u8])
    requires offset { fields.old.payload_offset ≡ 0 }
    requires len { length captured.now ≤ fields.old.payload_len }
    requires header { header_len link_type ≤ link.now.offset }
    requires within { link.now.offset ≤ length captured.now }
    requires bounded { link.now.offset ≤ 28 }
    ensures { fields.new ≡ with_linked fields.old link_type link.now captured.now }
{
    fields.ethernet = ethernet_in(link_type, link.ethertype, captured);
    fields.reason = Reason::Read.code();
    step_after(fields, link.offset, fields.payload_len - link.offset);
}

// Stores the packet of this EtherType, of which not all bytes may have been captured.
fn store_carried(fields: &mut FrameFields, ethertype: u16, bytes: &[u8])
    requires offset { fields.old.payload_offset ≤ 28 }
    requires len { length bytes.now ≤ fields.old.payload_len }
    ensures value { fields.new ≡ carried_by fields.old (protocol_of ethertype) bytes.now }
    ensures within { fields.new.payload_offset + fields.new.payload_len ≤ fields.old.payload_offset + fields.old.payload_len }
{
    let is_cut = bytes.len() < fields.payload_len;
    match EthernetProtocol::from(ethertype) {
        EthernetProtocol::Arp if is_cut => store_cut_arp(fields, bytes),
        EthernetProtocol::Arp => store_arp(fields, bytes),
        EthernetProtocol::Ipv4 if is_cut => store_cut_ipv4(fields, bytes),
        EthernetProtocol::Ipv4 => store_ipv4(fields, bytes),
        EthernetProtocol::Ipv6 if is_cut => store_cut_ipv6(fields, bytes),
        EthernetProtocol::Ipv6 => store_ipv6(fields, bytes),
        EthernetProtocol::Unknown(_) => {}
    }
}

// The Ethernet header with this EtherType. Other link types have no Ethernet addresses.
fn ethernet_in(link_type: LinkType, ethertype: u16, bytes: &[u8]) -> Ethernet
    requires { header_len link_type ≤ length bytes.now }
    ensures { result ≡ ethernet_in link_type ethertype bytes.now }
{
    match link_type {
        LinkType::Ethernet => Ethernet {
            src: array_at(bytes, 6),
            dst: array_at(bytes, 0),
            ethertype,
        },
        _ => Ethernet {
            src: [0; 6],
            dst: [0; 6],
            ethertype,
        },
    }
}
