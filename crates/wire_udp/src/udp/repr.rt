//! The values of a UDP header.

ghost use Rattle.std.specs.Prelude.{◌≡◌, ◌↔◌, ◌≤◌, ◌+◌, ◌++◌, [], Ok, OnOk, Some, drop, length};
ghost use Rattle.std.specs.Result.{result_ok};
ghost use Rattle.net_base.specs.Checksum.{computes, verifies};
ghost use Rattle.wire_addr.specs.IpAddress.{version_of};
ghost use Rattle.net_base.specs.Filled.{Fills};
ghost use Rattle.wire_udp.specs.Udp.{Becomes, HasLengths, Reads, bytes_of, checksum_for, header_bytes, max_payload_len, packet_bytes, packet_bytes_mut, packet_sum, packet_with, payload_of, udp_of};
ghost use Rattle.wire_udp.specs.UdpText.{value_text};
ghost use Rattle.wire_udp.specs.declared.udp.repr.UdpRepr.{UdpRepr};

use super::{UDP_HEADER_LEN, UdpPacket, UdpPacketMut, checksum_for};
use arrayvec::ArrayString;
use itoa::Buffer;
use net_base::{ChecksumCapabilities, Error, Result};
use std::fmt;
use wire_addr::{IpAddress, IpProtocol};
use wire_checksum::for_emit;

/// The ports of a UDP header. Its length and its checksum follow from the payload.
#[derive(Debug, Clone, Copy, PartialEq, Eq)]
pub struct UdpRepr {
    /// 0 if the sender has none.
    pub src_port: u16,
    pub dst_port: u16,
}

impl UdpRepr {
    /// Parses a header. Rejects what `check_len` rejects, a destination port of 0, and a wrong
    /// checksum if `caps` asks to verify it. A checksum of 0 is valid over IPv4 only.
    #[inline(always)]
    pub fn parse(
        packet: &UdpPacket<'_>,
        src_addr: &IpAddress,
        dst_addr: &IpAddress,
        caps: &ChecksumCapabilities,
    ) -> Result<UdpRepr>
        requires { version_of src_addr.now ≡ version_of dst_addr.now }
        ensures reads { let bytes = packet_bytes packet.now in
            (v : UdpRepr) → (result ≡ Ok v) ↔ Reads bytes src_addr.now dst_addr.now (verifies caps.now.udp) v (payload_of bytes) }
        ensures value { udp_of src_addr.now dst_addr.now (verifies caps.now.udp) (packet_bytes packet.now) ≡ result_ok result }
        ensures lengths { OnOk result (HasLengths (packet_bytes packet.now)) }
    {
        packet.check_len()?;
        if packet.dst_port() == 0 {
            return Err(Error);
        }
        if caps.udp.rx() && !packet.has_valid_checksum(src_addr, dst_addr) {
            return Err(Error);
        }
        Ok(UdpRepr {
            src_port: packet.src_port(),
            dst_port: packet.dst_port(),
        })
    }

    /// The length of the emitted header in bytes.
    pub fn header_len(&self) -> usize
        ensures { result ≡ UDP_HEADER_LEN }
    {
        UDP_HEADER_LEN
    }

    /// Writes the header for a payload of `payload_len` bytes, with 0 as checksum. All bytes
    /// after the header stay.
    pub fn emit_header(&self, packet: &mut UdpPacketMut<'_>, payload_len: usize)
        requires room { UDP_HEADER_LEN ≤ length (packet_bytes_mut packet.old) }
        requires payload_len { payload_len ≤ max_payload_len }
        ensures { Becomes packet.old packet.new (header_bytes self.now payload_len 0 ++ drop UDP_HEADER_LEN (packet_bytes_mut packet.old)) }
    {
        self.emit_fields(packet, payload_len, 0);
    }

    /// Writes the header and the payload. All bytes after them stay. The checksum is computed if
    /// `caps` asks for it, else it is 0.
    #[inline(always)]
    pub fn emit(
        &self,
        packet: &mut UdpPacketMut<'_>,
        src_addr: &IpAddress,
        dst_addr: &IpAddress,
        payload: &[u8],
        caps: &ChecksumCapabilities,
    )
        requires room { UDP_HEADER_LEN + length payload.now ≤ length (packet_bytes_mut packet.old) }
        requires payload_len { length payload.now ≤ max_payload_len }
        requires family { version_of src_addr.now ≡ version_of dst_addr.now }
        ensures { let rest = drop (UDP_HEADER_LEN + length payload.now) (packet_bytes_mut packet.old) in
            Becomes packet.old packet.new (bytes_of self.now payload.now src_addr.now dst_addr.now (computes caps.now.udp) ++ rest) }
    {
        let checksum = if caps.udp.tx() {
            self.checksum(*src_addr, *dst_addr, payload)
        } else {
            0
        };
        self.emit_fields(packet, payload.len(), checksum);
        packet.set_payload(payload);
    }

    /// As `emit`, to the front of `out`, and returns the length of the packet in bytes. Returns `None`
    /// and writes nothing if it does not fit.
    #[inline(always)]
    pub fn try_emit(
        &self,
        out: &mut [u8],
        src_addr: &IpAddress,
        dst_addr: &IpAddress,
        payload: &[u8],
        caps: &ChecksumCapabilities,
    ) -> Option<usize>
        requires payload_len { length payload.now ≤ max_payload_len }
        requires family { version_of src_addr.now ≡ version_of dst_addr.now }
        ensures { let bytes = bytes_of self.now payload.now src_addr.now dst_addr.now (computes caps.now.udp) in
            Fills bytes (UDP_HEADER_LEN + length payload.now) out.old out.new result }
    {
        let len = UDP_HEADER_LEN + payload.len();
        if out.len() < len {
            return None;
        }
        let mut packet = UdpPacketMut::new_unchecked(out);
        self.emit(&mut packet, src_addr, dst_addr, payload, caps);
        Some(len)
    }

    // Writes all fields of the header.
    fn emit_fields(&self, packet: &mut UdpPacketMut<'_>, payload_len: usize, checksum: u16)
        requires room { UDP_HEADER_LEN ≤ length (packet_bytes_mut packet.old) }
        requires payload_len { payload_len ≤ max_payload_len }
        ensures { Becomes packet.old packet.new (header_bytes self.now payload_len checksum ++ drop UDP_HEADER_LEN (packet_bytes_mut packet.old)) }
    {
        packet.set_src_port(self.src_port);
        packet.set_dst_port(self.dst_port);
        packet.set_len((UDP_HEADER_LEN + payload_len) as u16);
        packet.set_checksum(checksum);
    }

    // The checksum of the packet with this payload, computed from the values. Bytes that were just
    // written are slow to read again.
    #[inline(always)]
    fn checksum(&self, src_addr: IpAddress, dst_addr: IpAddress, payload: &[u8]) -> u16
        requires payload_len { length payload.now ≤ max_payload_len }
        requires family { version_of src_addr ≡ version_of dst_addr }
        ensures { result ≡ checksum_for (packet_sum src_addr dst_addr (packet_with self.now payload.now 0)) }
    {
        let [a, b] = self.src_port.to_be_bytes();
        let [c, d] = self.dst_port.to_be_bytes();
        let [e, f] = ((UDP_HEADER_LEN + payload.len()) as u16).to_be_bytes();
        let header = [a, b, c, d, e, f, 0, 0];
        checksum_for(for_emit::packet(src_addr, dst_addr, IpProtocol::Udp, &header, payload))
    }

    // Writes the printed text into an empty string.
    fn push_to(&self, text: &mut ArrayString<23>)
        requires { text.old.bytes ≡ [] }
        ensures { text.new.bytes ≡ value_text self.now }
    {
        text.push_str("UDP src=");
        text.push_str(Buffer::new().format(self.src_port));
        text.push_str(" dst=");
        text.push_str(Buffer::new().format(self.dst_port));
    }
}

impl fmt::Display for UdpRepr {
    ghost output = { λ v. Some (value_text v) };

    fn fmt<W: fmt::Write>(&self, f: &mut fmt::Formatter<W>) -> fmt::Result {
        let mut text = ArrayString::new();
        self.push_to(&mut text);
        f.write_str(text.as_str())
    }
}
