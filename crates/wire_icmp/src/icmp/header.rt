//! The fields of a header beside its checksum.

ghost use Rattle.std.specs.Prelude.{◌≡◌, ◌≤◌, ◌+◌, ◌-◌, ◌++◌, drop, length};
ghost use Rattle.net_base.specs.Checksum.{computes};
ghost use Rattle.wire_addr.specs.IpAddress.{version_of};
ghost use Rattle.net_base.specs.Filled.{Fills};
ghost use Rattle.wire_icmp.specs.Icmp.{Becomes, choice_of, emitted, header_bytes, message_sum, message_with, packet_bytes_mut};

use super::{ICMP_HEADER_LEN, IcmpPacketMut, choice_of};
use net_base::ChecksumCapabilities;
use wire_addr::{IpAddress, IpProtocol};
use wire_checksum::laws::sum_joins;
use wire_checksum::{checksum, for_emit};

/// The type, the code and the second word of a header. `IcmpRepr` gives those of the messages that it
/// knows; other messages, such as those of neighbor discovery, have their own.
#[derive(Debug, Clone, Copy, PartialEq, Eq)]
pub struct IcmpHeader {
    pub msg_type: u8,
    pub msg_code: u8,
    pub word: u32,
}

impl IcmpHeader {
    /// Writes the header and the payload. All bytes after them stay. The checksum is computed if
    /// `caps` asks for it in the version of the addresses, else it is 0.
    #[inline(always)]
    pub fn emit(
        &self,
        packet: &mut IcmpPacketMut<'_>,
        src_addr: &IpAddress,
        dst_addr: &IpAddress,
        payload: &[u8],
        caps: &ChecksumCapabilities,
    )
        requires room { ICMP_HEADER_LEN + length payload.now ≤ length (packet_bytes_mut packet.old) }
        requires family { version_of src_addr.now ≡ version_of dst_addr.now }
        ensures { let rest = drop (ICMP_HEADER_LEN + length payload.now) (packet_bytes_mut packet.old) in
            Becomes packet.old packet.new (emitted self.now payload.now src_addr.now dst_addr.now (computes (choice_of (version_of src_addr.now) caps.now)) ++ rest) }
    {
        let checksum = if choice_of(src_addr.version(), caps).tx() {
            self.checksum(src_addr, dst_addr, payload)
        } else {
            0
        };
        self.emit_fields(packet, checksum);
        packet.set_payload(payload);
    }

    /// As `emit`, to the front of `out`, and returns the length of the message in bytes. Returns `None`
    /// and writes nothing if it does not fit.
    #[inline(always)]
    pub fn try_emit(
        &self,
        out: &mut [u8],
        src_addr: &IpAddress,
        dst_addr: &IpAddress,
        payload: &[u8],
        caps: &ChecksumCapabilities,
    ) -> Option<usize>
        requires { version_of src_addr.now ≡ version_of dst_addr.now }
        ensures { let bytes = emitted self.now payload.now src_addr.now dst_addr.now (computes (choice_of (version_of src_addr.now) caps.now)) in
            Fills bytes (ICMP_HEADER_LEN + length payload.now) out.old out.new result }
    {
        if out.len() < ICMP_HEADER_LEN || out.len() - ICMP_HEADER_LEN < payload.len() {
            return None;
        }
        let mut packet = IcmpPacketMut::new_unchecked(out);
        self.emit(&mut packet, src_addr, dst_addr, payload, caps);
        Some(ICMP_HEADER_LEN + payload.len())
    }

    // Writes all fields of the header.
    fn emit_fields(&self, packet: &mut IcmpPacketMut<'_>, checksum: u16)
        requires { ICMP_HEADER_LEN ≤ length (packet_bytes_mut packet.old) }
        ensures { Becomes packet.old packet.new (header_bytes self.now checksum ++ drop ICMP_HEADER_LEN (packet_bytes_mut packet.old)) }
    {
        packet.set_msg_type(self.msg_type);
        packet.set_msg_code(self.msg_code);
        packet.set_checksum(checksum);
        packet.set_word(self.word);
    }

    // The checksum of the message with this payload, computed from the values. Bytes that were just
    // written are slow to read again.
    #[inline(always)]
    fn checksum(&self, src_addr: &IpAddress, dst_addr: &IpAddress, payload: &[u8]) -> u16
        requires { version_of src_addr.now ≡ version_of dst_addr.now }
        ensures { result ≡ 65535 - message_sum src_addr.now dst_addr.now (message_with self.now payload.now 0) }
    {
        let [a, b, c, d] = self.word.to_be_bytes();
        let header = [self.msg_type, self.msg_code, 0, 0, a, b, c, d];
        match src_addr {
            IpAddress::Ipv4(_) => {
                sum_joins(&header, payload);
                !checksum::combine(&[checksum::data(&header), checksum::data(payload)])
            }
            IpAddress::Ipv6(_) => {
                !for_emit::packet(*src_addr, *dst_addr, IpProtocol::Icmpv6, &header, payload)
            }
        }
    }
}
