//! The values of an IPv6 header.

ghost use Rattle.std.specs.Prelude.{◌≡◌, ◌↔◌, ◌≤◌, ◌++◌, [], Ok, OnOk, Some, drop, length};
ghost use Rattle.std.specs.Result.{result_ok};
ghost use Rattle.wire_ipv6.specs.Ipv6.{Becomes, HasLengths, Reads, bytes_of, ipv6_of, packet_bytes, packet_bytes_mut};
ghost use Rattle.wire_ipv6.specs.Ipv6Text.{value_text};
ghost use Rattle.wire_ipv6.specs.declared.ipv6.repr.Ipv6Repr.{Ipv6Repr};

use super::{IPV6_HEADER_LEN, Ipv6Packet, Ipv6PacketMut};
use arrayvec::ArrayString;
use itoa::Buffer;
use net_base::{Error, Result};
use std::fmt;
use wire_addr::{IpProtocol, Ipv6Address, push_ipv6, push_protocol};

// The first 4 bytes of the header: version 6, traffic class 0, flow label 0.
const VERSION_6: u32 = 0x6000_0000;

/// The fields of a header that upper layers need, without traffic class and flow label.
#[derive(Debug, Clone, Copy, PartialEq, Eq)]
pub struct Ipv6Repr {
    pub src_addr: Ipv6Address,
    pub dst_addr: Ipv6Address,
    pub next_header: IpProtocol,
    /// The length of the payload in bytes, with extension headers.
    pub payload_len: usize,
    pub hop_limit: u8,
}

impl Ipv6Repr {
    /// Parses the header of a packet. Rejects what `check_len` rejects, and another version than 6. Traffic class and
    /// flow label are ignored.
    #[inline(always)]
    pub fn parse(packet: &Ipv6Packet<'_>) -> Result<Ipv6Repr>
        ensures reads { (v : Ipv6Repr) → (result ≡ Ok v) ↔ Reads (packet_bytes packet.now) v }
        ensures value { ipv6_of (packet_bytes packet.now) ≡ result_ok result }
        ensures lengths { OnOk result (HasLengths (packet_bytes packet.now)) }
    {
        packet.check_len()?;
        if packet.version() != 6 {
            return Err(Error);
        }
        Ok(Ipv6Repr {
            src_addr: packet.src_addr(),
            dst_addr: packet.dst_addr(),
            next_header: packet.next_header(),
            payload_len: packet.payload_len().into(),
            hop_limit: packet.hop_limit(),
        })
    }

    /// The length of the emitted header in bytes.
    pub fn buffer_len(&self) -> usize
        ensures { result ≡ 40 }
    {
        IPV6_HEADER_LEN
    }

    /// Writes the header, with traffic class and flow label 0. All bytes after it stay.
    pub fn emit(&self, packet: &mut Ipv6PacketMut<'_>)
        requires room { 40 ≤ length (packet_bytes_mut packet.old) }
        requires payload_len { self.now.payload_len ≤ 65535 }
        ensures { Becomes packet.old packet.new (bytes_of self.now ++ drop 40 (packet_bytes_mut packet.old)) }
    {
        let value = *self;
        packet.set_first_word(VERSION_6);
        packet.set_payload_len(value.payload_len as u16);
        packet.set_hop_limit(value.hop_limit);
        packet.set_next_header(value.next_header);
        packet.set_src_addr(value.src_addr);
        packet.set_dst_addr(value.dst_addr);
    }

    // Writes the printed text into an empty string.
    #[tactic(auto, unfolding(crate::specs::Ipv6Text::value_text))]
    fn push_to(&self, text: &mut ArrayString<125>)
        requires { text.old.bytes ≡ [] }
        ensures { text.new.bytes ≡ value_text self.now }
    {
        text.push_str("IPv6 src=");
        push_ipv6(text, &self.src_addr);
        text.push_str(" dst=");
        push_ipv6(text, &self.dst_addr);
        text.push_str(" nxt_hdr=");
        push_protocol(text, self.next_header);
        text.push_str(" hop_limit=");
        text.push_str(Buffer::new().format(self.hop_limit));
    }
}

impl fmt::Display for Ipv6Repr {
    ghost output = { λ v. Some (value_text v) };

    fn fmt<W: fmt::Write>(&self, f: &mut fmt::Formatter<W>) -> fmt::Result {
        let mut text = ArrayString::new();
        self.push_to(&mut text);
        f.write_str(text.as_str())
    }
}
