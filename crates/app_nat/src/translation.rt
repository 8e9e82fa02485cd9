//! Network address translation of one address and port (RFC 3022, sections 2.2 and 4.1).

ghost use Rattle.std.specs.Prelude.{◌≡◌, ◌↔◌, ◌≤◌, ◌-◌, List, ℕ, IfErr, OnErr, OnOk, length, true};
ghost use Rattle.app_edit.specs.Sides.{opposite};
ghost use Rattle.app_nat.specs.Nat as nat;
ghost use Rattle.app_nat.specs.Nat.{AllowsPort, CarriesPorts, IsPacket, IsTranslated, IsUntranslated, ReadsPorts, RejectsPort, Rewrites, Transport, addr_of, of_header, port_bit, translated_packet, with_addr, with_address, with_echo_ident, with_end, with_port, with_tcp_end, with_udp_end};
ghost use Rattle.ip_wire.specs.Ipv4 as ipv4;
ghost use Rattle.ip_wire.specs.Field.{field, with_field};
ghost use Rattle.ip_wire.specs.Protocol.{protocol_of};
ghost use Rattle.ip_wire.specs.TcpRepr.{TcpHeader};
ghost use Rattle.ip_wire.specs.Types.{Ipv4Repr, UdpRepr};
ghost use Rattle.ip_wire.specs.Udp.{checksum_for};
ghost use Rattle.ip_wire.specs.WordSum.{residue, sum_of_bytes, updated};

use crate::packet::{Packet, protocol_number};
use app_edit::{Layout, Side};
use ip_wire::laws::field::bytes_fit;
use ip_wire::{
    ETHERNET_HEADER_LEN, HeaderFault, IpAddress, IpProtocol, IpVersion, Ipv4Address, Ipv4PacketMut,
    Ipv4Repr, TcpPacket, TcpPacketMut, UdpPacket, UdpPacketMut, checksum,
};
use wire_icmp::IcmpPacketMut;

/// Why a frame is not translated. The checks run in this order: if several reasons apply, the first of
/// them is returned.
#[derive(Debug, Clone, Copy, PartialEq, Eq)]
pub enum Rejection {
    /// The frame has no Ethernet header, or its EtherType is not IPv4.
    NotIpv4,
    /// The version of the IPv4 header is not 4, or its lengths are invalid.
    BadHeader,
    /// The checksum of the IPv4 header is wrong.
    WrongChecksum,
    /// The packet is a fragment.
    Fragment,
    /// The packet carries neither UDP nor TCP, nor an ICMP message with the type and code of an echo, whatever
    /// its length and checksum are. `translate_out` and `translate_in` also accept the types of ICMP errors.
    OtherProtocol,
    /// The UDP or TCP header does not parse, an ICMP message is shorter than 8 bytes, or the checksum
    /// is wrong. Of an ICMP error: it does not quote a whole IPv4 header and 8 bytes after it.
    BadTransport,
    /// The port to write is 0, and a receiver would reject it. For `translate_out`: the source port is 0.
    ZeroPort,
    /// For `translate_in`: the destination is not the outside address, no live mapping has its port, or
    /// the packet is an echo request. For `translate_out`: the packet is an echo reply. For both: an ICMP
    /// error quotes a packet without a live mapping, a later fragment, or another protocol or ICMP message.
    NoMapping,
    /// No outside port is free for the source.
    NoFreePort,
}

impl Rejection {
    // The rejection for a fault of an IPv4 header.
    #[inline(always)]
    pub(crate) fn of_header(fault: HeaderFault) -> Rejection
        ensures { result ≡ of_header fault }
    {
        match fault {
            HeaderFault::BadHeader => Rejection::BadHeader,
            HeaderFault::WrongChecksum => Rejection::WrongChecksum,
            _ => Rejection::NotIpv4,
        }
    }
}

/// Writes an address and a port into the UDP packet, TCP segment or ICMP echo message of a frame over
/// IPv4, and updates the checksums (RFC 1624). On either side, the port of an echo message is its identifier; its
/// checksum is computed anew. A UDP checksum of 0 stays 0. Only the source port of a UDP packet (RFC 768) and an
/// identifier may be 0. A rejected frame is unchanged.
pub fn translate(
    frame: &mut [u8],
    side: Side,
    addr: Ipv4Address,
    port: u16,
) -> Result<(), Rejection>
    ensures translated { OnOk result (IsTranslated frame.old frame.new side addr port) }
    ensures rejected { IfErr result (IsUntranslated frame.old side port) }
    ensures unchanged { OnErr result (frame.new ≡ frame.old) }
{
    let packet = Packet::parse(frame)?;
    packet.rewrite(frame, side, addr, port)
}

impl Packet {
    /// Writes an address and a port into the frame that this packet was parsed from, as `translate` does, without
    /// parsing it again. Rejects only a port of 0.
    #[inline(always)]
    pub fn rewrite(
        &self,
        frame: &mut [u8],
        side: Side,
        addr: Ipv4Address,
        port: u16,
    ) -> Result<(), Rejection>
        requires { IsPacket frame.old self.now }
        ensures translated { OnOk result (IsTranslated frame.old frame.new side addr port) }
        ensures rejected { IfErr result (λ reason. reason ≡ Rejection.ZeroPort) }
        ensures disallowed { OnErr result (RejectsPort frame.old side port) }
        ensures unchanged { OnErr result (frame.new ≡ frame.old) }
    {
        if !self.allows_port(side, port) {
            return Err(Rejection::ZeroPort);
        }
        bytes_fit(frame);
        let (_, packet) = frame.split_at_mut(ETHERNET_HEADER_LEN);
        rewrite_packet(self.header, packet, side, addr, port);
        Ok(())
    }
}

// Writes the address and the port into a packet with this header.
#[inline(always)]
fn rewrite_packet(header: Ipv4Repr, packet: &mut [u8], side: Side, addr: Ipv4Address, port: u16)
    requires carries { (transport : Transport) × CarriesPorts packet.old header transport }
    ensures carries { (transport : Transport) → AllowsPort side transport port
        → CarriesPorts packet.old header transport → CarriesPorts packet.new (with_addr side addr header) (with_port side port transport) }
    ensures bytes { packet.new ≡ translated_packet side addr port packet.old }
{
    let number = protocol_number(packet);
    let layout = Layout::of(IpVersion::Ipv4, packet);
    let payload = &mut packet[layout.start..layout.end];
    rewrite_transport(header, number, payload, side, addr, port);
    set_addr(packet, side, addr);
}

// Writes the address into an IPv4 packet, and updates the checksum of its header.
#[inline(always)]
pub(crate) fn set_addr(packet: &mut [u8], side: Side, addr: Ipv4Address)
    requires { 20 ≤ length packet.old }
    ensures reads { (v : Ipv4Repr) → ipv4.Reads packet.old true v → ipv4.Reads packet.new true (with_addr side addr v) }
    ensures bytes { packet.new ≡ with_address side addr packet.old }
    ensures summed { 20 ≤ ipv4.header_len packet.old → ipv4.header_len packet.old ≤ length packet.old
        → ipv4.HasChecksum packet.old ↔ ipv4.HasChecksum packet.new }
{
    bytes_fit(packet);
    let mut packet = Ipv4PacketMut::new_unchecked(packet);
    let new = checksum::address(&IpAddress::Ipv4(addr));
    match side {
        Side::Source => {
            let old = checksum::address(&IpAddress::Ipv4(packet.src_addr()));
            packet.set_src_addr(addr);
            packet.update_checksum(old, new);
        }
        Side::Destination => {
            let old = checksum::address(&IpAddress::Ipv4(packet.dst_addr()));
            packet.set_dst_addr(addr);
            packet.update_checksum(old, new);
        }
    }
}

// Writes the address and the port into the payload of such a packet.
#[inline(always)]
fn rewrite_transport(
    header: Ipv4Repr,
    number: u8,
    payload: &mut [u8],
    side: Side,
    addr: Ipv4Address,
    port: u16,
)
    requires named { header.next_header ≡ protocol_of number }
    requires reads { (transport : Transport) × ReadsPorts header payload.old transport }
    ensures reads { (transport : Transport) → Rewrites header payload.old payload.new side addr port transport }
    ensures bytes { payload.new ≡ with_end header.next_header side (addr_of side header) addr port payload.old }
{
    let old = addr_of(side, &header);
    match IpProtocol::from(number) {
        IpProtocol::Udp => rewrite_udp(payload, side, old, addr, port),
        IpProtocol::Tcp => rewrite_tcp(payload, side, old, addr, port),
        IpProtocol::Icmp => rewrite_echo(header, payload, side, addr, port),
        _ => {}
    }
}

// The address of a header on this side. Always inlined, since a call would keep the header in memory.
#[inline(always)]
fn addr_of(side: Side, header: &Ipv4Repr) -> Ipv4Address
    ensures { result ≡ addr_of side header.now }
{
    match side {
        Side::Source => header.src_addr,
        Side::Destination => header.dst_addr,
    }
}

// Writes the port into a UDP packet, and updates its checksum for it and the address.
#[inline(always)]
pub(crate) fn rewrite_udp(
    bytes: &mut [u8],
    side: Side,
    old: Ipv4Address,
    new: Ipv4Address,
    port: u16,
)
    requires len { 8 ≤ length bytes.old }
    ensures reads { (header : Ipv4Repr) (v : UdpRepr) (payload : List ℕ) → length (addr_of (opposite side) header) ≡ 4 → addr_of side header ≡ old
        → Rewrites header bytes.old bytes.new side new port (nat.datagram v payload) }
    ensures bytes { bytes.new ≡ with_udp_end side old new port bytes.old }
{
    bytes_fit(bytes);
    let checksum = UdpPacket::new_unchecked(bytes).checksum();
    let old_port = replace_port(bytes, side, port);
    if checksum == 0 {
        return;
    }
    let checksum = updated_checksum(checksum, old, new, old_port, port);
    UdpPacketMut::new_unchecked(bytes).set_checksum(udp_checksum(checksum));
}

// Writes the port into a TCP segment, and updates its checksum, which must be there, for it and the address.
#[inline(always)]
pub(crate) fn rewrite_tcp(
    bytes: &mut [u8],
    side: Side,
    old: Ipv4Address,
    new: Ipv4Address,
    port: u16,
)
    requires len { 18 ≤ length bytes.old }
    ensures reads { (header : Ipv4Repr) (v : TcpHeader) (payload : List ℕ) → length (addr_of (opposite side) header) ≡ 4 → addr_of side header ≡ old
        → Rewrites header bytes.old bytes.new side new port (nat.segment v payload) }
    ensures bytes { bytes.new ≡ with_tcp_end side old new port bytes.old }
{
    bytes_fit(bytes);
    let checksum = TcpPacket::new_unchecked(bytes).checksum();
    let old_port = replace_port(bytes, side, port);
    let checksum = updated_checksum(checksum, old, new, old_port, port);
    TcpPacketMut::new_unchecked(bytes).set_checksum(checksum);
}

// Writes a port of UDP or TCP, whose headers begin with the same ports. Returns the port before.
#[inline(always)]
pub(crate) fn replace_port(bytes: &mut [u8], side: Side, port: u16) -> u16
    requires { 4 ≤ length bytes.old }
    ensures before { result ≡ field bytes.old (port_bit side) 16 }
    ensures written { bytes.new ≡ with_field bytes.old (port_bit side) 16 port }
{
    let mut header = UdpPacketMut::new_unchecked(bytes);
    match side {
        Side::Source => {
            let before = header.src_port();
            header.set_src_port(port);
            before
        }
        Side::Destination => {
            let before = header.dst_port();
            header.set_dst_port(port);
            before
        }
    }
}

// A UDP checksum is never 0, which means that there is none.
#[inline(always)]
fn udp_checksum(checksum: u16) -> u16
    ensures { result ≡ checksum_for (65535 - checksum) }
{
    if checksum == 0 { 0xffff } else { checksum }
}

// The checksum after two updates, one for the address and one for the port.
#[tactic(auto, using(crate::proofs::Residues::updated_twice))]
#[inline(always)]
fn updated_checksum(
    checksum: u16,
    old: Ipv4Address,
    new: Ipv4Address,
    old_port: u16,
    new_port: u16,
) -> u16
    ensures { result ≡ updated (updated checksum (sum_of_bytes old) (sum_of_bytes new)) old_port new_port }
{
    let old_sum = checksum::address(&IpAddress::Ipv4(old));
    let new_sum = checksum::address(&IpAddress::Ipv4(new));
    let sums = u32::from(!checksum) + u32::from(!old_sum) + u32::from(new_sum);
    !fold(sums + u32::from(!old_port) + u32::from(new_port))
}

// The one's complement sum of the two words of a number.
#[inline(always)]
fn fold(number: u32) -> u16
    ensures { result ≡ residue number }
{
    checksum::combine(&[(number >> 16) as u16, (number % (1 << 16)) as u16])
}

#[inline(always)]
fn rewrite_echo(header: Ipv4Repr, bytes: &mut [u8], side: Side, addr: Ipv4Address, port: u16)
    requires len { 8 ≤ length bytes.old }
    ensures reads { (transport : Transport) → header.next_header ≡ IpProtocol.Icmp → Rewrites header bytes.old bytes.new side addr port transport }
    ensures bytes { bytes.new ≡ with_echo_ident addr port bytes.old }
{
    bytes_fit(bytes);
    // Over IPv4 the checksum covers no address.
    let end = IpAddress::Ipv4(addr);
    let mut message = IcmpPacketMut::new_unchecked(bytes);
    message.set_echo_ident(port);
    message.fill_checksum(&end, &end);
}
