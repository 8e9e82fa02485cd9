//! The values of ICMP headers, stored in the struct of C.

ghost use Rattle.std.specs.Prelude.{◌≡◌, ◌≤◌, length};
ghost use Rattle.ip_wire.specs.IpAddress.{version_of};
ghost use Rattle.ip_wire.specs.Udp.{is_ipv4};
ghost use Rattle.wire_icmp.specs.Icmp.{packet_bytes};
ghost use Rattle.c_structs.specs.Verdicts.{icmp_verdict};
ghost use Rattle.c_read.specs.FrameFields.{icmp_values, is_icmp, with_icmp};

use crate::frame_fields::step_after;
use crate::verdicts::icmp_verdict;
use c_structs::{FrameFields, Icmp, TransportKind, Verdict};
use ip_wire::{IpAddress, IpProtocol};
use wire_icmp::{ICMP_HEADER_LEN, IcmpPacket};

// The header of a message.
#[inline(always)]
fn icmp_values(packet: &IcmpPacket<'_>) -> Icmp
    requires { 8 ≤ length (packet_bytes packet.now) }
    ensures { result ≡ icmp_values (packet_bytes packet.now) }
{
    Icmp {
        word: packet.word(),
        msg_type: packet.msg_type(),
        code: packet.msg_code(),
    }
}

// Whether an address is one of IPv4.
#[inline(always)]
fn is_ipv4(addr: &IpAddress) -> bool
    ensures { result ≡ is_ipv4 addr.now }
{
    match addr {
        IpAddress::Ipv4(_) => true,
        IpAddress::Ipv6(_) => false,
    }
}

// Whether a packet of this protocol with this source carries ICMP. Each version of IP has a protocol number for it.
#[inline(always)]
pub(super) fn is_icmp(protocol: IpProtocol, src_addr: &IpAddress) -> bool
    ensures { result ≡ is_icmp protocol src_addr.now }
{
    match protocol {
        IpProtocol::Icmp => is_ipv4(src_addr),
        IpProtocol::Icmpv6 => !is_ipv4(src_addr),
        _ => false,
    }
}

// Stores the header of an ICMP message. Addresses are passed by value: other packets need none in memory.
pub(super) fn store_icmp(
    fields: &mut FrameFields,
    src_addr: IpAddress,
    dst_addr: IpAddress,
    bytes: &[u8],
)
    requires offset { fields.old.payload_offset ≤ 65700 }
    requires len { fields.old.payload_len ≡ length bytes.now }
    requires header { 8 ≤ length bytes.now }
    requires family { version_of src_addr ≡ version_of dst_addr }
    ensures { fields.new ≡ with_icmp fields.old bytes.now (icmp_verdict src_addr dst_addr bytes.now) }
{
    let packet = IcmpPacket::new_unchecked(bytes);
    store_icmp_fields(fields, &packet, icmp_verdict(&packet, &src_addr, &dst_addr));
}

// Stores the header of an ICMP message whose checksum has this verdict. The payload begins after it.
#[inline(always)]
pub(super) fn store_icmp_fields(fields: &mut FrameFields, packet: &IcmpPacket<'_>, verdict: Verdict)
    requires offset { fields.old.payload_offset ≤ 65700 }
    requires len { 8 ≤ fields.old.payload_len }
    requires header { 8 ≤ length (packet_bytes packet.now) }
    ensures { fields.new ≡ with_icmp fields.old (packet_bytes packet.now) verdict }
{
    fields.icmp = icmp_values(packet);
    fields.transport = TransportKind::Icmp.code();
    fields.transport_checksum = verdict.code();
    fields.transport_offset = fields.payload_offset;
    step_after(
        fields,
        ICMP_HEADER_LEN,
        fields.payload_len - ICMP_HEADER_LEN,
    );
}
