//! A view that reads the bytes of an ARP packet.

ghost use Rattle.std.specs.Prelude.{◌≡◌, ◌↔◌, ◌≤◌, IfOk, IsOk, Some, length};
ghost use Rattle.wire_arp.specs.Arp.{HasLengths, hardware_len, hardware_of, hardware_type_of, opcode_of, operation_of, packet_bytes, packet_slice, protocol_len, protocol_type_of, source_hardware_addr, source_hardware_end, source_protocol_addr, source_protocol_end, target_hardware_addr, target_hardware_end, target_protocol_addr, target_protocol_end};
ghost use Rattle.wire_arp.specs.ArpText.{packet_text};
ghost use Rattle.wire_ethernet.specs.Ethernet.{protocol_of};

use super::places::{self, FIXED_LEN};
use super::text::write_fields;
use super::{ArpHardware, ArpOperation, ArpRepr};
use byteorder::{ByteOrder, NetworkEndian};
use net_base::{Error, Octets, Result, debug_view};
use std::fmt;
use wire_ethernet::EthernetProtocol;

/// A view of the bytes of a packet. Its calls ask for the bytes that they read, and for no more.
#[derive(Clone, Copy, PartialEq, Eq, Drop)]
pub struct ArpView<B> {
    pub(super) buffer: B,
}

/// A reading view.
pub type ArpPacket<'a> = ArpView<&'a [u8]>;

/// A mutable view.
pub type ArpPacketMut<'a> = ArpView<&'a mut [u8]>;

impl<B: Octets> ArpView<B> {
    /// The view of any bytes.
    pub fn new_unchecked(buffer: B) -> ArpView<B>
        ensures { packet_slice result ≡ buffer }
    {
        ArpView { buffer }
    }

    /// Whether the bytes hold the four addresses, by the lengths that they name. Then each call of
    /// this view may be made, until one of the two lengths is written.
    pub fn check_len(&self) -> Result<()>
        ensures { IsOk result ↔ HasLengths (B.octets (packet_slice self.now)) }
    {
        let len = self.as_bytes().len();
        if len < FIXED_LEN {
            return Err(Error);
        }
        let place = places::target_protocol_addr(self.hardware_len(), self.protocol_len());
        if len < place.end {
            return Err(Error);
        }
        Ok(())
    }

    /// The borrowed bytes, with their own lifetime.
    pub fn into_inner(self) -> B
        ensures { result ≡ packet_slice self }
    {
        self.buffer
    }

    /// The bytes.
    pub fn as_bytes(&self) -> &[u8]
        ensures { result.now ≡ B.octets (packet_slice self.now) }
    {
        self.buffer.octets()
    }

    /// A view that reads the same bytes.
    pub fn as_view(&self) -> ArpPacket<'_>
        ensures { packet_bytes result ≡ B.octets (packet_slice self.now) }
    {
        ArpView::new_unchecked(self.as_bytes())
    }

    /// The kind of the hardware addresses.
    pub fn hardware_type(&self) -> ArpHardware
        requires { 2 ≤ length (B.octets (packet_slice self.now)) }
        ensures { result ≡ hardware_of (hardware_type_of (B.octets (packet_slice self.now))) }
    {
        ArpHardware::from(NetworkEndian::read_u16(&self.as_bytes()[0..2]))
    }

    /// The protocol whose addresses the packet has.
    pub fn protocol_type(&self) -> EthernetProtocol
        requires { 4 ≤ length (B.octets (packet_slice self.now)) }
        ensures { result ≡ protocol_of (protocol_type_of (B.octets (packet_slice self.now))) }
    {
        EthernetProtocol::from(NetworkEndian::read_u16(&self.as_bytes()[2..4]))
    }

    /// The length of a hardware address, in bytes.
    pub fn hardware_len(&self) -> u8
        requires { 5 ≤ length (B.octets (packet_slice self.now)) }
        ensures { result ≡ hardware_len (B.octets (packet_slice self.now)) }
    {
        self.as_bytes()[4]
    }

    /// The length of a protocol address, in bytes.
    pub fn protocol_len(&self) -> u8
        requires { 6 ≤ length (B.octets (packet_slice self.now)) }
        ensures { result ≡ protocol_len (B.octets (packet_slice self.now)) }
    {
        self.as_bytes()[5]
    }

    /// The operation.
    pub fn operation(&self) -> ArpOperation
        requires { 8 ≤ length (B.octets (packet_slice self.now)) }
        ensures { result ≡ operation_of (opcode_of (B.octets (packet_slice self.now))) }
    {
        ArpOperation::from(NetworkEndian::read_u16(&self.as_bytes()[6..8]))
    }
}

impl<'a> ArpPacket<'a> {
    /// A view of bytes that `check_len` accepts, else an error.
    pub fn new_checked(buffer: &'a [u8]) -> Result<ArpPacket<'a>>
        ensures ok { IsOk result ↔ HasLengths buffer.now }
        ensures bytes { IfOk result (λ packet. packet_bytes packet ≡ buffer.now) }
    {
        let packet = ArpView::new_unchecked(buffer);
        packet.check_len()?;
        Ok(packet)
    }

    /// The hardware address of the sender.
    pub fn source_hardware_addr(&self) -> &'a [u8]
        requires { source_hardware_end (packet_bytes self.now) ≤ length (packet_bytes self.now) }
        ensures { result.now ≡ source_hardware_addr (packet_bytes self.now) }
    {
        &self.buffer[places::source_hardware_addr(self.hardware_len())]
    }

    /// The protocol address of the sender.
    pub fn source_protocol_addr(&self) -> &'a [u8]
        requires { source_protocol_end (packet_bytes self.now) ≤ length (packet_bytes self.now) }
        ensures { result.now ≡ source_protocol_addr (packet_bytes self.now) }
    {
        &self.buffer[places::source_protocol_addr(self.hardware_len(), self.protocol_len())]
    }

    /// The hardware address that is asked for, or that of the receiver.
    pub fn target_hardware_addr(&self) -> &'a [u8]
        requires { target_hardware_end (packet_bytes self.now) ≤ length (packet_bytes self.now) }
        ensures { result.now ≡ target_hardware_addr (packet_bytes self.now) }
    {
        &self.buffer[places::target_hardware_addr(self.hardware_len(), self.protocol_len())]
    }

    /// The protocol address whose hardware address is asked for, or that of the receiver.
    pub fn target_protocol_addr(&self) -> &'a [u8]
        requires { target_protocol_end (packet_bytes self.now) ≤ length (packet_bytes self.now) }
        ensures { result.now ≡ target_protocol_addr (packet_bytes self.now) }
    {
        &self.buffer[places::target_protocol_addr(self.hardware_len(), self.protocol_len())]
    }
}

impl<B: Octets> fmt::Debug for ArpView<B> {
    fn fmt<W: fmt::Write>(&self, f: &mut fmt::Formatter<W>) -> fmt::Result {
        debug_view(f, "ArpPacket", &self.buffer)
    }
}

/// The packet's values, or its fields if it is not for Ethernet and IPv4, or the error if
/// `check_len` rejects the bytes.
impl fmt::Display for ArpPacket<'_> {
    ghost output = { λ packet. Some (packet_text (packet_bytes packet)) };

    fn fmt<W: fmt::Write>(&self, f: &mut fmt::Formatter<W>) -> fmt::Result {
        match ArpRepr::parse(self) {
            Ok(value) => write!(f, "{value}"),
            Err(_) if self.check_len().is_ok() => write_fields(self, f),
            Err(error) => write!(f, "ARP ({error})"),
        }
    }
}
