//! The values of an IPv4 header.

ghost use Rattle.std.specs.Prelude.{◌≡◌, ◌↔◌, ◌-◌, ◌≤◌, ◌++◌, [], Ok, OnOk, Some, drop, length};
ghost use Rattle.std.specs.Result.{result_ok};
ghost use Rattle.net_base.specs.Checksum.{computes, verifies};
ghost use Rattle.wire_checksum.specs.WordSum.{sum_of_bytes};
ghost use Rattle.wire_ipv4.specs.Ipv4.{Becomes, HasLengths, Reads, bytes_of, header_with, ipv4_of, max_payload_len, packet_bytes, packet_bytes_mut};
ghost use Rattle.wire_ipv4.specs.Ipv4Text.{value_text};
ghost use Rattle.wire_ipv4.specs.declared.ipv4.repr.Ipv4Repr.{Ipv4Repr};

use super::{IPV4_HEADER_LEN, Ipv4Packet, Ipv4PacketMut};
use arrayvec::ArrayString;
use byteorder::{ByteOrder, NetworkEndian};
use net_base::{ChecksumCapabilities, Error, Result, write_front};
use std::fmt;
use wire_addr::{IpProtocol, Ipv4Address, push_dotted, push_protocol};
use wire_checksum::for_emit;

// The byte with the flags, of which only DF (don't fragment) is set, and the first bits of an
// offset of 0.
const DONT_FRAG: u8 = 0x40;

/// The fields of a header that upper layers need, without options, DSCP, ECN and fragment fields.
#[derive(Debug, Clone, Copy, PartialEq, Eq)]
pub struct Ipv4Repr {
    pub src_addr: Ipv4Address,
    pub dst_addr: Ipv4Address,
    pub next_header: IpProtocol,
    /// The length of the payload in bytes.
    pub payload_len: usize,
    pub hop_limit: u8,
}

impl Ipv4Repr {
    /// Parses the header of a packet. Rejects what `check_len` rejects, another version than 4, and
    /// a wrong checksum if `caps` asks to verify it. Options are ignored, and a fragment parses
    /// like any packet.
    #[inline(always)]
    pub fn parse(packet: &Ipv4Packet<'_>, caps: &ChecksumCapabilities) -> Result<Ipv4Repr>
        ensures reads { (v : Ipv4Repr) → (result ≡ Ok v) ↔ Reads (packet_bytes packet.now) (verifies caps.now.ipv4) v }
        ensures value { ipv4_of (verifies caps.now.ipv4) (packet_bytes packet.now) ≡ result_ok result }
        ensures lengths { OnOk result (HasLengths (packet_bytes packet.now)) }
    {
        packet.check_len()?;
        if packet.version() != 4 {
            return Err(Error);
        }
        if caps.ipv4.rx() && !packet.verify_checksum() {
            return Err(Error);
        }
        Ok(Ipv4Repr {
            src_addr: packet.src_addr(),
            dst_addr: packet.dst_addr(),
            next_header: packet.next_header(),
            payload_len: usize::from(packet.total_len()) - usize::from(packet.header_len()),
            hop_limit: packet.hop_limit(),
        })
    }

    /// The length of the emitted header in bytes.
    pub fn buffer_len(&self) -> usize
        ensures { result ≡ IPV4_HEADER_LEN }
    {
        IPV4_HEADER_LEN
    }

    /// Writes the header, with the flag DF (don't fragment). All bytes after it are unchanged. The
    /// checksum is computed if `caps` asks for it, else it is 0.
    #[inline(always)]
    pub fn emit(&self, packet: &mut Ipv4PacketMut<'_>, caps: &ChecksumCapabilities)
        requires room { IPV4_HEADER_LEN ≤ length (packet_bytes_mut packet.old) }
        requires payload_len { self.now.payload_len ≤ max_payload_len }
        ensures { Becomes packet.old packet.new (bytes_of self.now (computes caps.now.ipv4) ++ drop IPV4_HEADER_LEN (packet_bytes_mut packet.old)) }
    {
        let checksum = if caps.ipv4.tx() { self.checksum() } else { 0 };
        write_front(packet.buffer, &self.header(checksum));
    }

    // The checksum of the header, computed from the values. Bytes that were just written are slow
    // to read again.
    #[inline(always)]
    fn checksum(self) -> u16
        requires { self.payload_len ≤ max_payload_len }
        ensures { result ≡ 65535 - sum_of_bytes (header_with self 0) }
    {
        !for_emit::header(&self.header(0))
    }

    // The header with this checksum.
    #[inline(always)]
    fn header(self, checksum: u16) -> [u8; IPV4_HEADER_LEN]
        requires { self.payload_len ≤ max_payload_len }
        ensures { result ≡ header_with self checksum }
    {
        let (hop_limit, protocol) = (self.hop_limit, u8::from(self.next_header));
        let [a, b, c, d] = self.src_addr.octets();
        let [e, f, g, h] = self.dst_addr.octets();
        let mut header = [
            0x45, 0, 0, 0, 0, 0, DONT_FRAG, 0, hop_limit, protocol, 0, 0, a, b, c, d, e, f, g, h,
        ];
        let total_len = (IPV4_HEADER_LEN + self.payload_len) as u16;
        NetworkEndian::write_u16(&mut header[2..4], total_len);
        NetworkEndian::write_u16(&mut header[10..12], checksum);
        header
    }

    // Writes the printed text into an empty string.
    #[tactic(auto, unfolding(crate::specs::Ipv4Text::value_text))]
    fn push_to(&self, text: &mut ArrayString<61>)
        requires { text.old.bytes ≡ [] }
        ensures { text.new.bytes ≡ value_text self.now }
    {
        text.push_str("IPv4 src=");
        push_dotted(text, self.src_addr.octets());
        text.push_str(" dst=");
        push_dotted(text, self.dst_addr.octets());
        text.push_str(" proto=");
        push_protocol(text, self.next_header);
    }
}

impl fmt::Display for Ipv4Repr {
    ghost output = { λ v. Some (value_text v) };

    fn fmt<W: fmt::Write>(&self, f: &mut fmt::Formatter<W>) -> fmt::Result {
        let mut text = ArrayString::new();
        self.push_to(&mut text);
        f.write_str(text.as_str())
    }
}
