//! The one step of every edit: bytes of a frame are replaced, and the checksums that cover them updated.

ghost use Rattle.std.specs.Prelude.{◌≡◌, ◌≤◌, ◌+◌, ◌^◌, length, slice_range, true};
ghost use Rattle.ip_wire.specs.IpAddress.{version_of};
ghost use Rattle.ip_wire.specs.Protocol.{number_of};
ghost use Rattle.ip_wire.specs.WordSum.{sum_of_bytes, updated};
ghost use Rattle.app_edit.specs.Edited.{can_be_left, dst_of, edited, header_checksum, is_left, looks_left, pseudo_header_sum, segment_sum, src_of, transport_checksum, updated_by, updated_checksum, updated_over, with_header_checksum, with_transport_checksum, with_word, word_at, written};
ghost use Rattle.app_edit.specs.Checksums.{sum_at};
ghost use Rattle.app_edit.specs.Filled.{filled};
ghost use Rattle.app_edit.specs.Places.{Holds, InFrame, addresses_end, addresses_start};
ghost use Rattle.app_edit.specs.declared.replace.Offload.TheVariants.{Complete};

use crate::checksums::{update_bytes, update_udp_bytes};
use crate::offsets::{IP_HEADER, IPV4_CHECKSUM, IPV4_END, IPV4_SRC, IPV6_END, IPV6_SRC};
use crate::places::{Carried, Places, Segment, TCP, UDP};
use byteorder::{ByteOrder, NetworkEndian};
use ip_wire::laws::field::bytes_fit;
use ip_wire::{IpAddress, IpProtocol, IpVersion, Ipv4Packet, Ipv6Packet, checksum};

/// Whether the checksum of a TCP or UDP packet is left to the device that sends the frame (checksum offload). The frame
/// does not say it, but the headers before it in virtio and in captures do.
#[derive(Debug, Clone, Copy, PartialEq, Eq)]
pub enum Offload {
    /// Not known: it is left to the device if the field is the sum of the pseudo-header, and is not valid as it is.
    Guess,
    /// It is left to the device, and the field is the sum of the pseudo-header.
    Offloaded,
    /// It is not.
    Complete,
}

impl Places {
    // Writes bytes from byte `at` on, and updates the checksums that cover them.
    #[inline(always)]
    pub(crate) fn replace(&self, frame: &mut [u8], at: usize, bytes: &[u8], offload: Offload)
        requires places { Holds self.now frame.old }
        requires room { at + length bytes.now ≤ length frame.old }
        ensures { frame.new ≡ edited offload self.now frame.old at bytes.now }
    {
        let header = self.header_checksum(frame, at, bytes);
        let transport = self.transport_checksum(frame, at, bytes, offload);
        write_at(frame, at, bytes);
        self.write_header_checksum(frame, header);
        self.write_transport_checksum(frame, transport);
    }

    // The same before the addresses: no transport checksum covers these bytes.
    #[inline(always)]
    pub(crate) fn replace_before_addresses(&self, frame: &mut [u8], at: usize, bytes: &[u8])
        requires places { Holds self.now frame.old }
        requires before { at + length bytes.now ≤ addresses_start self.now.version }
        ensures { frame.new ≡ edited Complete self.now frame.old at bytes.now }
    {
        bytes_fit(frame);
        let header = self.header_checksum(frame, at, bytes);
        write_at(frame, at, bytes);
        self.write_header_checksum(frame, header);
    }

    // The checksum of an IPv4 header after these bytes are written; 0 for IPv6.
    #[inline(always)]
    fn header_checksum(&self, frame: &[u8], at: usize, bytes: &[u8]) -> u16
        requires places { Holds self.now frame.now }
        requires room { at + length bytes.now ≤ length frame.now }
        ensures { result ≡ header_checksum self.now.version self.now.start frame.now at bytes.now }
    {
        match self.version {
            IpVersion::Ipv4 => {
                let before = &frame[at..at + bytes.len()];
                let field = word_at(frame, IPV4_CHECKSUM);
                update_over(field, IP_HEADER, self.start, at, before, bytes)
            }
            IpVersion::Ipv6 => 0,
        }
    }

    // The checksum of the transport packet after these bytes are written; 0 if there is none.
    #[inline(always)]
    fn transport_checksum(&self, frame: &[u8], at: usize, bytes: &[u8], offload: Offload) -> u16
        requires places { Holds self.now frame.now }
        requires room { at + length bytes.now ≤ length frame.now }
        ensures { result ≡ transport_checksum offload self.now.carried self.now.version frame.now at bytes.now }
    {
        match &self.carried {
            Carried::Segment(segment) => {
                let before = &frame[at..at + bytes.len()];
                segment.updated_checksum(self.version, frame, at, before, bytes, offload)
            }
            _ => 0,
        }
    }

    #[inline(always)]
    pub(crate) fn write_header_checksum(&self, frame: &mut [u8], checksum: u16)
        requires { 26 ≤ length frame.old }
        ensures { frame.new ≡ with_header_checksum self.now.version frame.old checksum }
    {
        if let IpVersion::Ipv4 = self.version {
            write_word(frame, IPV4_CHECKSUM, checksum);
        }
    }

    #[inline(always)]
    pub(crate) fn write_transport_checksum(&self, frame: &mut [u8], checksum: u16)
        requires { Holds self.now frame.old }
        ensures { frame.new ≡ with_transport_checksum self.now.carried frame.old checksum }
    {
        if let Carried::Segment(segment) = &self.carried {
            write_word(frame, segment.checksum(), checksum);
        }
    }
}

impl Segment {
    // Writes the checksum, computed with 0 in its field.
    #[inline(always)]
    pub(crate) fn fill(&self, version: IpVersion, frame: &mut [u8])
        requires { InFrame version self.now frame.old }
        ensures { frame.new ≡ filled version self.now frame.old }
    {
        write_word(frame, self.checksum(), 0);
        let checksum = match (self.protocol, self.sum(version, frame)) {
            (IpProtocol::Udp, 0xffff) => 0xffff,
            (_, sum) => !sum,
        };
        write_word(frame, self.checksum(), checksum);
    }

    // The checksum field after the bytes `before` from byte `at` on became `after`.
    #[inline(always)]
    fn updated_checksum(
        &self,
        version: IpVersion,
        frame: &[u8],
        at: usize,
        before: &[u8],
        after: &[u8],
        offload: Offload,
    ) -> u16
        requires inside { InFrame version self.now frame.now }
        requires before { length before.now ≡ length after.now }
        requires room { at + length after.now ≤ 2 ^ 63 }
        ensures { result ≡ updated_checksum offload version self.now frame.now at before.now after.now }
    {
        let field = word_at(frame, self.checksum());
        let (first, last) = addresses(version);
        if self.is_left(version, frame, offload) {
            return !update_over(!field, first, last, at, before, after);
        }
        let field = match self.protocol {
            IpProtocol::Icmp => field,
            protocol => update_by(protocol, field, first, last, at, before, after),
        };
        update_by(
            self.protocol,
            field,
            self.start,
            self.end,
            at,
            before,
            after,
        )
    }

    // Whether the checksum counts as left to the device.
    #[inline(always)]
    pub(crate) fn is_left(&self, version: IpVersion, frame: &[u8], offload: Offload) -> bool
        requires { InFrame version self.now frame.now }
        ensures { result ≡ is_left offload version self.now frame.now }
    {
        match offload {
            Offload::Guess => self.looks_left(version, frame),
            Offload::Offloaded => can_be_left(self.protocol),
            Offload::Complete => false,
        }
    }

    // Whether the checksum looks left to the device.
    #[inline(always)]
    fn looks_left(&self, version: IpVersion, frame: &[u8]) -> bool
        requires { InFrame version self.now frame.now }
        ensures { result ≡ looks_left version self.now frame.now }
    {
        self.is_whole
            && can_be_left(self.protocol)
            && word_at(frame, self.checksum()) == self.pseudo_header_sum(version, frame)
            && self.sum(version, frame) != 0xffff
    }

    // The sum of all that the checksum covers. Passed by value, so that the segment of a caller need not be in memory.
    #[inline(never)]
    fn sum(self, version: IpVersion, frame: &[u8]) -> u16
        requires { InFrame version self frame.now }
        ensures { result ≡ segment_sum version self frame.now }
    {
        let bytes = &frame[self.start..self.end];
        match self.protocol {
            IpProtocol::Icmp => checksum::data(bytes),
            protocol => {
                let src = src_of(version, frame);
                let dst = dst_of(version, frame);
                checksum::packet(src, dst, protocol, bytes)
            }
        }
    }

    // The sum of the pseudo-header.
    #[tactic(auto, using(crate::proofs::Left::pseudo_parts))]
    #[inline(always)]
    fn pseudo_header_sum(&self, version: IpVersion, frame: &[u8]) -> u16
        requires inside { InFrame version self.now frame.now }
        requires left { can_be_left self.now.protocol ≡ true }
        ensures { result ≡ pseudo_header_sum version self.now frame.now }
    {
        let length = ((self.end - self.start) % (1 << 16)) as u16;
        let number = u16::from(number_of(self.protocol));
        checksum::combine(&[addresses_sum(version, frame), number, length])
    }
}

// Whether the sender may leave the checksum of this protocol to a device; only these have ports.
pub(crate) fn can_be_left(protocol: IpProtocol) -> bool
    ensures { result ≡ can_be_left protocol }
{
    matches!(protocol, IpProtocol::Tcp | IpProtocol::Udp)
}

// The number of such a protocol.
#[inline(always)]
fn number_of(protocol: IpProtocol) -> u8
    requires { can_be_left protocol ≡ true }
    ensures { result ≡ number_of protocol }
{
    match protocol {
        IpProtocol::Tcp => TCP,
        IpProtocol::Udp => UDP,
        _ => 0,
    }
}

// Where the two addresses of a packet begin and end.
fn addresses(version: IpVersion) -> (usize, usize)
    ensures start { result.0 ≡ addresses_start version }
    ensures end { result.1 ≡ addresses_end version }
{
    match version {
        IpVersion::Ipv4 => (IPV4_SRC, IPV4_END),
        IpVersion::Ipv6 => (IPV6_SRC, IPV6_END),
    }
}

// The sum of the two addresses of a packet.
#[inline(always)]
fn addresses_sum(version: IpVersion, frame: &[u8]) -> u16
    requires { addresses_end version ≤ length frame.now }
    ensures { result ≡ sum_of_bytes (slice_range frame.now (addresses_start version) (addresses_end version)) }
{
    match version {
        IpVersion::Ipv4 => checksum::data(&frame[IPV4_SRC..IPV4_END]),
        IpVersion::Ipv6 => checksum::data(&frame[IPV6_SRC..IPV6_END]),
    }
}

// The source address of a packet.
fn src_of(version: IpVersion, frame: &[u8]) -> IpAddress
    requires { addresses_end version ≤ length frame.now }
    ensures value { result ≡ src_of version frame.now }
    ensures version { version_of result ≡ version }
{
    let (_, packet) = frame.split_at(IP_HEADER);
    match version {
        IpVersion::Ipv4 => IpAddress::Ipv4(Ipv4Packet::new_unchecked(packet).src_addr()),
        IpVersion::Ipv6 => IpAddress::Ipv6(Ipv6Packet::new_unchecked(packet).src_addr()),
    }
}

// The destination address of a packet.
fn dst_of(version: IpVersion, frame: &[u8]) -> IpAddress
    requires { addresses_end version ≤ length frame.now }
    ensures value { result ≡ dst_of version frame.now }
    ensures version { version_of result ≡ version }
{
    let (_, packet) = frame.split_at(IP_HEADER);
    match version {
        IpVersion::Ipv4 => IpAddress::Ipv4(Ipv4Packet::new_unchecked(packet).dst_addr()),
        IpVersion::Ipv6 => IpAddress::Ipv6(Ipv6Packet::new_unchecked(packet).dst_addr()),
    }
}

// The field of a checksum that covers the bytes from `first` up to `last`, after the bytes `before` from byte `at` on
// became `after`.
#[inline(always)]
fn update_over(field: u16, first: usize, last: usize, at: usize, before: &[u8], after: &[u8]) -> u16
    requires same { length before.now ≡ length after.now }
    requires room { at + length after.now ≤ 2 ^ 63 }
    ensures { result ≡ updated_over updated field first last at before.now after.now }
{
    update_by(IpProtocol::Tcp, field, first, last, at, before, after)
}

// The same for the checksum of this protocol. That of UDP differs from the others: a field of 0 stays.
#[inline(always)]
fn update_by(
    protocol: IpProtocol,
    field: u16,
    first: usize,
    last: usize,
    at: usize,
    before: &[u8],
    after: &[u8],
) -> u16
    requires same { length before.now ≡ length after.now }
    requires room { at + length after.now ≤ 2 ^ 63 }
    ensures { result ≡ updated_over (updated_by protocol) field first last at before.now after.now }
{
    let end = at + after.len();
    if end <= first || last <= at || after.is_empty() {
        return field;
    }
    if first <= at && end <= last {
        return update_whole(protocol, field, at, before, after);
    }
    update_partly(protocol, field, first, last, at, before, after)
}

// The same if the checksum covers all these bytes, as in most edits. Their sums are then the same for all checksums.
#[inline(always)]
pub(crate) fn update_whole(
    protocol: IpProtocol,
    field: u16,
    at: usize,
    before: &[u8],
    after: &[u8],
) -> u16
    ensures { result ≡ updated_by protocol field (sum_at at before.now) (sum_at at after.now) }
{
    match protocol {
        IpProtocol::Udp => update_udp_bytes(field, at, before, after),
        _ => update_bytes(field, at, before, after),
    }
}

// The same if the checksum covers only some of these bytes.
#[inline(never)]
fn update_partly(
    protocol: IpProtocol,
    field: u16,
    first: usize,
    last: usize,
    at: usize,
    before: &[u8],
    after: &[u8],
) -> u16
    requires same { length before.now ≡ length after.now }
    requires room { at + length after.now ≤ 2 ^ 63 }
    ensures { result ≡ updated_over (updated_by protocol) field first last at before.now after.now }
{
    let from = at.max(first);
    let to = (at + after.len()).min(last);
    if from >= to {
        return field;
    }
    let (before, after) = (&before[from - at..to - at], &after[from - at..to - at]);
    update_whole(protocol, field, from, before, after)
}

// The number in the two bytes from byte `at` on.
#[inline(always)]
pub(crate) fn word_at(frame: &[u8], at: usize) -> u16
    requires { at + 2 ≤ length frame.now }
    ensures { result ≡ word_at frame.now at }
{
    NetworkEndian::read_u16(&frame[at..])
}

#[inline(always)]
fn write_word(frame: &mut [u8], at: usize, number: u16)
    requires { at + 2 ≤ length frame.old }
    ensures { frame.new ≡ with_word frame.old at number }
{
    write_at(frame, at, &number.to_be_bytes());
}

// Writes bytes from byte `at` on.
#[inline(always)]
pub(crate) fn write_at(frame: &mut [u8], at: usize, bytes: &[u8])
    requires { at + length bytes.now ≤ length frame.old }
    ensures { frame.new ≡ written frame.old at bytes.now }
{
    frame[at..at + bytes.len()].copy_from_slice(bytes);
}
