//! A view that reads and writes the bytes of an ARP packet.

ghost use Rattle.std.specs.Prelude.{◌≡◌, ◌↔◌, ◌≤◌, IfOk, IsOk, length};
ghost use Rattle.std.specs.Borrow.{sem};
ghost use Rattle.net_base.specs.Field.{with_field, with_range};
ghost use Rattle.net_base.specs.Borrow.{Checks, Holds, StaysIfErr};
ghost use Rattle.wire_arp.specs.Arp.{Becomes, HasLengths, hardware_len, hardware_number, operation_number, packet_bytes_mut, packet_slice, protocol_len, source_hardware_addr, source_hardware_end, source_protocol_addr, source_protocol_end, target_hardware_addr, target_hardware_end, target_protocol_addr, target_protocol_end};
ghost use Rattle.wire_ethernet.specs.Ethernet.{number_of};

use super::packet::ArpView;
use super::{ArpHardware, ArpOperation, ArpPacket, ArpPacketMut, places};
use byteorder::{ByteOrder, NetworkEndian};
use net_base::{Checked, Error, Result};
use wire_ethernet::EthernetProtocol;

impl<'a> ArpPacketMut<'a> {
    /// The view of bytes that `check_len` takes. An error leaves them as they are.
    pub fn new_checked(buffer: &'a mut [u8]) -> Result<ArpPacketMut<'a>>
        ensures* rejected { sem 𝓛 (StaysIfErr buffer.entry packet_slice result) }
        ensures ok { IsOk result ↔ HasLengths buffer.old }
        ensures bytes { IfOk result (λ packet. Holds buffer.entry (packet_slice packet) buffer.old) }
    {
        let checked = check(buffer);
        if checked.ok {
            Ok(ArpView {
                buffer: checked.bytes,
            })
        } else {
            Err(Error)
        }
    }

    /// The hardware address of the sender.
    pub fn source_hardware_addr(&self) -> &[u8]
        requires { source_hardware_end (packet_bytes_mut self.now) ≤ length (packet_bytes_mut self.now) }
        ensures { result.now ≡ source_hardware_addr (packet_bytes_mut self.now) }
    {
        self.as_view().source_hardware_addr()
    }

    /// The protocol address of the sender.
    pub fn source_protocol_addr(&self) -> &[u8]
        requires { source_protocol_end (packet_bytes_mut self.now) ≤ length (packet_bytes_mut self.now) }
        ensures { result.now ≡ source_protocol_addr (packet_bytes_mut self.now) }
    {
        self.as_view().source_protocol_addr()
    }

    /// The hardware address that is asked for, or that of the receiver.
    pub fn target_hardware_addr(&self) -> &[u8]
        requires { target_hardware_end (packet_bytes_mut self.now) ≤ length (packet_bytes_mut self.now) }
        ensures { result.now ≡ target_hardware_addr (packet_bytes_mut self.now) }
    {
        self.as_view().target_hardware_addr()
    }

    /// The protocol address whose hardware address is asked for, or that of the receiver.
    pub fn target_protocol_addr(&self) -> &[u8]
        requires { target_protocol_end (packet_bytes_mut self.now) ≤ length (packet_bytes_mut self.now) }
        ensures { result.now ≡ target_protocol_addr (packet_bytes_mut self.now) }
    {
        self.as_view().target_protocol_addr()
    }

    /// Writes the kind of the hardware addresses.
    pub fn set_hardware_type(&mut self, value: ArpHardware)
        requires { 2 ≤ length (packet_bytes_mut self.old) }
        ensures { Becomes self.old self.new (with_field (packet_bytes_mut self.old) 0 16 (hardware_number value)) }
    {
        NetworkEndian::write_u16(&mut self.buffer[0..2], value.into());
    }

    /// Writes the protocol whose addresses the packet has.
    pub fn set_protocol_type(&mut self, value: EthernetProtocol)
        requires { 4 ≤ length (packet_bytes_mut self.old) }
        ensures { Becomes self.old self.new (with_field (packet_bytes_mut self.old) 16 16 (number_of value)) }
    {
        NetworkEndian::write_u16(&mut self.buffer[2..4], value.into());
    }

    /// Writes the length of a hardware address, in bytes. The addresses after the first move.
    pub fn set_hardware_len(&mut self, value: u8)
        requires { 5 ≤ length (packet_bytes_mut self.old) }
        ensures { Becomes self.old self.new (with_field (packet_bytes_mut self.old) 32 8 value) }
    {
        self.buffer[4] = value;
    }

    /// Writes the length of a protocol address, in bytes. The addresses of the target move.
    pub fn set_protocol_len(&mut self, value: u8)
        requires { 6 ≤ length (packet_bytes_mut self.old) }
        ensures { Becomes self.old self.new (with_field (packet_bytes_mut self.old) 40 8 value) }
    {
        self.buffer[5] = value;
    }

    /// Writes the operation.
    pub fn set_operation(&mut self, value: ArpOperation)
        requires { 8 ≤ length (packet_bytes_mut self.old) }
        ensures { Becomes self.old self.new (with_field (packet_bytes_mut self.old) 48 16 (operation_number value)) }
    {
        NetworkEndian::write_u16(&mut self.buffer[6..8], value.into());
    }

    /// Writes the hardware address of the sender, which is as long as the packet says.
    pub fn set_source_hardware_addr(&mut self, value: &[u8])
        requires len { length value.now ≡ hardware_len (packet_bytes_mut self.old) }
        requires room { source_hardware_end (packet_bytes_mut self.old) ≤ length (packet_bytes_mut self.old) }
        ensures { let bytes = packet_bytes_mut self.old in
            Becomes self.old self.new (with_range bytes 8 (source_hardware_end bytes) value.now) }
    {
        let place = places::source_hardware_addr(self.hardware_len());
        self.buffer[place].copy_from_slice(value);
    }

    /// Writes the protocol address of the sender, which is as long as the packet says.
    pub fn set_source_protocol_addr(&mut self, value: &[u8])
        requires len { length value.now ≡ protocol_len (packet_bytes_mut self.old) }
        requires room { source_protocol_end (packet_bytes_mut self.old) ≤ length (packet_bytes_mut self.old) }
        ensures { let bytes = packet_bytes_mut self.old in
            Becomes self.old self.new (with_range bytes (source_hardware_end bytes) (source_protocol_end bytes) value.now) }
    {
        let place = places::source_protocol_addr(self.hardware_len(), self.protocol_len());
        self.buffer[place].copy_from_slice(value);
    }

    /// Writes the hardware address that is asked for, or that of the receiver. It is as long as the
    /// packet says.
    pub fn set_target_hardware_addr(&mut self, value: &[u8])
        requires len { length value.now ≡ hardware_len (packet_bytes_mut self.old) }
        requires room { target_hardware_end (packet_bytes_mut self.old) ≤ length (packet_bytes_mut self.old) }
        ensures { let bytes = packet_bytes_mut self.old in
            Becomes self.old self.new (with_range bytes (source_protocol_end bytes) (target_hardware_end bytes) value.now) }
    {
        let place = places::target_hardware_addr(self.hardware_len(), self.protocol_len());
        self.buffer[place].copy_from_slice(value);
    }

    /// Writes the protocol address whose hardware address is asked for, or that of the receiver. It is
    /// as long as the packet says.
    pub fn set_target_protocol_addr(&mut self, value: &[u8])
        requires len { length value.now ≡ protocol_len (packet_bytes_mut self.old) }
        requires room { target_protocol_end (packet_bytes_mut self.old) ≤ length (packet_bytes_mut self.old) }
        ensures { let bytes = packet_bytes_mut self.old in
            Becomes self.old self.new (with_range bytes (target_hardware_end bytes) (target_protocol_end bytes) value.now) }
    {
        let place = places::target_protocol_addr(self.hardware_len(), self.protocol_len());
        self.buffer[place].copy_from_slice(value);
    }
}

// Whether the bytes hold the four addresses, by the lengths that they name.
fn check(bytes: &mut [u8]) -> Checked<'_>
    ensures { Checks bytes.entry (HasLengths bytes.old) result }
{
    let ok = ArpPacket::new_checked(bytes).is_ok();
    Checked { bytes, ok }
}
