//! A UDP packet with a wrong checksum is rejected unless the device has verified it.

ghost use Rattle.std.specs.Prelude.{◌≡◌, ◌≢◌, ◌↔◌, IsErr, IsTrue, Ok};
ghost use Rattle.ip_wire.specs.Field.{field};
ghost use Rattle.ip_wire.specs.Udp.{HasChecksum, HasLengths, Reads, payload_of};
ghost use Rattle.ip_wire.specs.declared.UdpRepr.{UdpRepr};
ghost use Rattle.ip_wire.specs.Checksum.{all_are, verifies};

use ip_wire::{Checksum, ChecksumCapabilities, IpAddress, Ipv4Address, Result, UdpPacket, UdpRepr};

/// The ports of a UDP packet between two addresses. If `caps` asks to verify the checksum, packets with
/// an invalid one are rejected. A checksum of 0 is valid over IPv4: the sender computed none. Packets with
/// invalid lengths or destination port 0 are always rejected.
pub fn parse_udp_ports(
    packet: &[u8],
    src_addr: Ipv4Address,
    dst_addr: Ipv4Address,
    caps: &ChecksumCapabilities,
) -> Result<UdpRepr>
    ensures reads { let src = IpAddress.Ipv4 src_addr in let dst = IpAddress.Ipv4 dst_addr in
        (ports : UdpRepr) → (result ≡ Ok ports)
        ↔ Reads packet.now src dst (verifies caps.now.udp) ports (payload_of packet.now) }
    ensures rejected { let src = IpAddress.Ipv4 src_addr in let dst = IpAddress.Ipv4 dst_addr in
        HasLengths packet.now → field packet.now 16 16 ≢ 0 → IsErr result
        ↔ (IsTrue (verifies caps.now.udp) × ¬ HasChecksum src dst packet.now) }
{
    let packet = UdpPacket::new_unchecked(packet);
    UdpRepr::parse(
        &packet,
        &IpAddress::Ipv4(src_addr),
        &IpAddress::Ipv4(dst_addr),
        caps,
    )
}

/// The capabilities for a device that verifies the UDP checksum of each received packet and computes
/// none: the library computes it and does not verify it.
pub fn verified_by_the_device() -> ChecksumCapabilities
    ensures { result ≡ record (all_are Checksum.Both) { udp = Checksum.Tx } }
{
    ChecksumCapabilities {
        udp: Checksum::Tx,
        ..ChecksumCapabilities::default()
    }
}
