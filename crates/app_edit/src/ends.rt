//! Edits of addresses and ports. The checksums that cover them are known, so no ranges are compared.

ghost use Rattle.std.specs.Prelude.{◌≡◌, ◌≤◌, ◌<◌, ◌+◌, ◌%◌, Some, length, slice_range};
ghost use Rattle.byteorder.specs.Endian.{big_bytes};
ghost use Rattle.app_edit.specs.Edited.{edited, header_checksum, port_place, transport_checksum, updated_checksum};
ghost use Rattle.app_edit.specs.Places.{Holds, InFrame, addresses_end, addresses_start};
ghost use Rattle.app_edit.specs.declared.side.Side.{Side};
ghost use Rattle.ip_wire.specs.declared.IpVersion.TheVariants.{Ipv4};

use crate::checksums::update_bytes;
use crate::offsets::IPV4_CHECKSUM;
use crate::places::{Carried, Places, Segment};
use crate::replace::{Offload, update_whole, word_at, write_at};
use ip_wire::laws::field::bytes_fit;
use ip_wire::{IpProtocol, IpVersion};

impl Places {
    // Writes these bytes of the addresses of a packet of this version, and updates the checksums that cover them. Each
    // length has code of its own.
    #[inline(always)]
    pub(crate) fn replace_address<const N: usize>(
        &self,
        version: IpVersion,
        frame: &mut [u8],
        at: usize,
        bytes: &[u8; N],
        offload: Offload,
    )
        requires places { Holds self.now frame.old }
        requires version { version ≡ self.now.version }
        requires some { 0 < length bytes.now }
        requires first { addresses_start version ≤ at }
        requires last { at + length bytes.now ≤ addresses_end version }
        ensures { frame.new ≡ edited offload self.now frame.old at bytes.now }
    {
        let header = match version {
            IpVersion::Ipv4 => self.header_over(frame, at, bytes),
            IpVersion::Ipv6 => 0,
        };
        let transport = match &self.carried {
            Carried::Segment(segment) => {
                segment.checksum_over_address(version, frame, at, bytes, offload)
            }
            _ => 0,
        };
        write_at(frame, at, bytes);
        self.write_header_checksum(frame, header);
        self.write_transport_checksum(frame, transport);
    }

    // Writes a port, which only the transport checksum covers.
    #[inline(always)]
    pub(crate) fn replace_port(&self, frame: &mut [u8], at: usize, port: u16, offload: Offload)
        requires places { Holds self.now frame.old }
        requires place { (side : Side) × (port_place side self.now.carried ≡ Some at) }
        ensures { frame.new ≡ edited offload self.now frame.old at (big_bytes 2 port) }
    {
        bytes_fit(frame);
        let bytes = port.to_be_bytes();
        let transport = self.transport_over_port(frame, at, &bytes, offload);
        write_at(frame, at, &bytes);
        self.write_transport_checksum(frame, transport);
    }

    // The checksum of the transport packet after the two bytes of a port are written.
    #[inline(always)]
    fn transport_over_port(&self, frame: &[u8], at: usize, bytes: &[u8], offload: Offload) -> u16
        requires places { Holds self.now frame.now }
        requires place { (side : Side) × (port_place side self.now.carried ≡ Some at) }
        requires len { length bytes.now ≡ 2 }
        ensures { result ≡ transport_checksum offload self.now.carried self.now.version frame.now at bytes.now }
    {
        match &self.carried {
            Carried::Segment(segment) => {
                segment.checksum_over_port(self.version, frame, at, bytes, offload)
            }
            _ => 0,
        }
    }

    // The checksum of an IPv4 header after these bytes of it are written.
    #[inline(always)]
    fn header_over(&self, frame: &[u8], at: usize, bytes: &[u8]) -> u16
        requires places { Holds self.now frame.now }
        requires version { self.now.version ≡ Ipv4 }
        requires some { 0 < length bytes.now }
        requires first { 14 ≤ at }
        requires last { at + length bytes.now ≤ 34 }
        ensures { result ≡ header_checksum self.now.version self.now.start frame.now at bytes.now }
    {
        let before = &frame[at..at + bytes.len()];
        update_bytes(word_at(frame, IPV4_CHECKSUM), at, before, bytes)
    }
}

impl Segment {
    // The checksum field after these bytes of the addresses are written.
    #[inline(always)]
    fn checksum_over_address(
        &self,
        version: IpVersion,
        frame: &[u8],
        at: usize,
        bytes: &[u8],
        offload: Offload,
    ) -> u16
        requires inside { InFrame version self.now frame.now }
        requires some { 0 < length bytes.now }
        requires first { addresses_start version ≤ at }
        requires last { at + length bytes.now ≤ addresses_end version }
        ensures { result ≡ updated_checksum offload version self.now frame.now at (slice_range frame.now at (at + length bytes.now)) bytes.now }
    {
        let before = &frame[at..at + bytes.len()];
        let field = word_at(frame, self.checksum());
        if self.is_left(version, frame, offload) {
            return !update_bytes(!field, at, before, bytes);
        }
        match self.protocol {
            IpProtocol::Icmp => field,
            protocol => update_whole(protocol, field, at, before, bytes),
        }
    }

    // The checksum field after these two bytes of the segment are written.
    #[inline(always)]
    fn checksum_over_port(
        &self,
        version: IpVersion,
        frame: &[u8],
        at: usize,
        bytes: &[u8],
        offload: Offload,
    ) -> u16
        requires inside { InFrame version self.now frame.now }
        requires len { length bytes.now ≡ 2 }
        requires even { at % 2 ≡ 0 }
        requires first { self.now.start ≤ at }
        requires last { at + 2 ≤ self.now.end }
        ensures { result ≡ updated_checksum offload version self.now frame.now at (slice_range frame.now at (at + length bytes.now)) bytes.now }
    {
        let field = word_at(frame, self.checksum());
        if self.is_left(version, frame, offload) {
            return field;
        }
        let before = &frame[at..at + bytes.len()];
        update_whole(self.protocol, field, 0, before, bytes)
    }
}
