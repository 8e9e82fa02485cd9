//! The values of an ARP packet.

ghost use Rattle.std.specs.Prelude.{◌≡◌, ◌↔◌, ◌≤◌, ◌++◌, IsTrue, Ok, OnOk, Some, drop, length, take};
ghost use Rattle.std.specs.Result.{result_ok};
ghost use Rattle.wire_arp.specs.Arp.{Becomes, HasLengths, Reads, arp_of, bytes_of, ethernet_ipv4, packet_bytes, packet_bytes_mut};
ghost use Rattle.wire_arp.specs.ArpText.{value_text};
ghost use Rattle.net_base.specs.Filled.{Fills};
ghost use Rattle.wire_arp.specs.declared.arp.repr.ArpRepr.{ArpRepr};

use super::text::OperationWord;
use super::{ArpHardware, ArpOperation, ArpPacket, ArpPacketMut};
use byteorder::{ByteOrder, NetworkEndian};
use net_base::{Error, Result, array_at, write_front};
use std::fmt;
use wire_addr::{EthernetAddress, Ipv4Address};
use wire_ethernet::EthernetProtocol;

/// The length of an Ethernet address, in bytes.
const ETHERNET_ADDR_LEN: u8 = 6;

/// The length of an IPv4 address, in bytes.
const IPV4_ADDR_LEN: u8 = 4;

/// The length of a packet with such addresses, in bytes.
const ETHERNET_IPV4_LEN: usize = 28;

/// The first eight bytes of such a packet as one big-endian number, with 0 for the operation.
const ETHERNET_IPV4: u64 = 0x0001_0800_0604_0000;

/// The fields of a packet that upper layers need.
#[derive(Debug, Clone, Copy, PartialEq, Eq)]
pub enum ArpRepr {
    /// The addresses are those of Ethernet and IPv4.
    EthernetIpv4 {
        operation: ArpOperation,
        source_hardware_addr: EthernetAddress,
        source_protocol_addr: Ipv4Address,
        target_hardware_addr: EthernetAddress,
        target_protocol_addr: Ipv4Address,
    },
}

impl ArpRepr {
    /// The values of a packet. Packets of other hardware or of another protocol are rejected.
    #[inline(always)]
    pub fn parse(packet: &ArpPacket<'_>) -> Result<ArpRepr>
        ensures reads { (v : ArpRepr) → (result ≡ Ok v) ↔ Reads (packet_bytes packet.now) v }
        ensures value { arp_of (packet_bytes packet.now) ≡ result_ok result }
        ensures lengths { OnOk result (HasLengths (packet_bytes packet.now)) }
    {
        let bytes = packet.as_bytes();
        if bytes.len() < ETHERNET_IPV4_LEN || !is_ethernet_ipv4(bytes) {
            return Err(Error);
        }
        Ok(ArpRepr::EthernetIpv4 {
            operation: packet.operation(),
            source_hardware_addr: EthernetAddress(array_at(bytes, 8)),
            source_protocol_addr: Ipv4Address::from_octets(array_at(bytes, 14)),
            target_hardware_addr: EthernetAddress(array_at(bytes, 18)),
            target_protocol_addr: Ipv4Address::from_octets(array_at(bytes, 24)),
        })
    }

    /// The length of the packet, in bytes.
    pub fn buffer_len(&self) -> usize
        ensures { result ≡ 28 }
    {
        match *self {
            ArpRepr::EthernetIpv4 { .. } => ETHERNET_IPV4_LEN,
        }
    }

    /// Writes the packet. All bytes after it stay unchanged.
    #[inline(always)]
    pub fn emit(&self, packet: &mut ArpPacketMut<'_>)
        requires { 28 ≤ length (packet_bytes_mut packet.old) }
        ensures { Becomes packet.old packet.new (bytes_of self.now ++ drop 28 (packet_bytes_mut packet.old)) }
    {
        match *self {
            ArpRepr::EthernetIpv4 {
                operation,
                source_hardware_addr,
                source_protocol_addr,
                target_hardware_addr,
                target_protocol_addr,
            } => {
                write_ethernet_ipv4(
                    packet.buffer,
                    operation,
                    source_hardware_addr,
                    source_protocol_addr,
                    target_hardware_addr,
                    target_protocol_addr,
                );
            }
        }
    }

    /// As `emit`, to the front of `out`, and returns the length of the packet in bytes. Returns `None`
    /// and writes nothing if it does not fit.
    #[inline(always)]
    pub fn try_emit(&self, out: &mut [u8]) -> Option<usize>
        ensures { Fills (bytes_of self.now) 28 out.old out.new result }
    {
        let len = self.buffer_len();
        if out.len() < len {
            return None;
        }
        self.emit(&mut ArpPacketMut::new_unchecked(out));
        Some(len)
    }
}

// Whether the bytes of a packet name Ethernet and IPv4, and the lengths of their addresses.
#[tactic(auto, using(crate::proofs::ArpComputed::kind_fields))]
fn is_ethernet_ipv4(bytes: &[u8]) -> bool
    requires { 6 ≤ length bytes.now }
    ensures { IsTrue result ↔ (take 6 bytes.now ≡ ethernet_ipv4) }
{
    let packet = ArpPacket::new_unchecked(bytes);
    matches!(
        (
            packet.hardware_type(),
            packet.protocol_type(),
            packet.hardware_len(),
            packet.protocol_len(),
        ),
        (
            ArpHardware::Ethernet,
            EthernetProtocol::Ipv4,
            ETHERNET_ADDR_LEN,
            IPV4_ADDR_LEN,
        )
    )
}

// Writes a packet of Ethernet and IPv4 to the front. The addresses are one array, so that the compiler
// moves them with two stores.
#[inline(always)]
fn write_ethernet_ipv4(
    bytes: &mut [u8],
    operation: ArpOperation,
    source_hardware_addr: EthernetAddress,
    source_protocol_addr: Ipv4Address,
    target_hardware_addr: EthernetAddress,
    target_protocol_addr: Ipv4Address,
)
    requires { 28 ≤ length bytes.old }
    ensures { bytes.new ≡ bytes_of (ArpRepr.EthernetIpv4 operation source_hardware_addr source_protocol_addr target_hardware_addr target_protocol_addr) ++ drop 28 bytes.old }
{
    let [a, b, c, d, e, f] = source_hardware_addr.0;
    let [g, h, i, j] = source_protocol_addr.octets();
    let [k, l, m, n, o, p] = target_hardware_addr.0;
    let [q, r, s, t] = target_protocol_addr.octets();
    let addresses = [a, b, c, d, e, f, g, h, i, j, k, l, m, n, o, p, q, r, s, t];
    NetworkEndian::write_u64(bytes, ETHERNET_IPV4 + u64::from(operation.number()));
    write_front(&mut bytes[8..28], &addresses);
}

/// The addresses and the operation.
impl fmt::Display for ArpRepr {
    ghost output = { λ v. Some (value_text v) };

    #[tactic(auto, unfolding(crate::specs::ArpText::value_text))]
    fn fmt<W: fmt::Write>(&self, f: &mut fmt::Formatter<W>) -> fmt::Result {
        match *self {
            ArpRepr::EthernetIpv4 {
                operation,
                source_hardware_addr: sha,
                source_protocol_addr: spa,
                target_hardware_addr: tha,
                target_protocol_addr: tpa,
            } => {
                let op = OperationWord(operation);
                write!(
                    f,
                    "ARP type=Ethernet+IPv4 src={sha}/{spa} tgt={tha}/{tpa} op={op}"
                )
            }
        }
    }
}
