//! Laws of the edits, over the definitions of what they write. Sums are one's complement sums (RFC 1071).

ghost use Rattle.std.specs.Prelude.{◌≡◌, ◌≢◌, ◌≤◌, ◌<◌, ◌+◌, ◌%◌, ◌⊎◌, ◌↔◌, IsSomeAnd, Some, false, length, slice_index, slice_range, true};
ghost use Rattle.std.specs.Option.{unwrap_or};
ghost use Rattle.app_edit.specs.Edited.{allows, can_be_left, edited, is_left, pseudo_header_sum, segment_bytes, segment_sum, word_at};
ghost use Rattle.app_edit.specs.Edits.{HasAddress, IsBeside, edit_made};
ghost use Rattle.app_edit.specs.Fields.{addr_of, dscp_of, ecn_of, hop_limit_of, port_of};
ghost use Rattle.app_edit.specs.Filled.{filled};
ghost use Rattle.app_edit.specs.Outside.{BesideHeader, BesideTransport, IsOutside, OutsideHeaderChecksum, OutsideTransportChecksum};
ghost use Rattle.app_edit.specs.Places.{checksum_place, places_of};
ghost use Rattle.app_edit.specs.Valid.{HasHeaderChecksum, HasTransportChecksum};
ghost use Rattle.app_edit.specs.declared.places.Carried.TheVariants.{Hidden, Segment as OfSegment};
ghost use Rattle.app_edit.specs.declared.places.Places.{Places as PlacesOf};
ghost use Rattle.app_edit.specs.declared.places.Segment.{Segment as SegmentOf};
ghost use Rattle.app_edit.specs.declared.replace.Offload.{Offload as OffloadOf};
ghost use Rattle.app_edit.specs.declared.replace.Offload.TheVariants.{Offloaded};
ghost use Rattle.ip_wire.specs.IpAddress.{IsAddress, version_of};
ghost use Rattle.ip_wire.specs.WordSum.{sum_of_bytes};
ghost use Rattle.ip_wire.specs.declared.IpProtocol.TheVariants.{Icmp, Tcp, Udp};
ghost use Rattle.ip_wire.specs.declared.IpVersion.TheVariants.{Ipv4};

use crate::edits::{set_addr, set_bytes, set_dscp, set_hop_limit, set_port};
use crate::places::Places;
use crate::replace::Offload;
use crate::side::Side;
use ip_wire::IpAddress;
use ip_wire::laws::field::bytes_fit;

/// An edit that does not touch the checksum of an IPv4 header keeps the sum of the header, modulo 65535. So a valid
/// checksum stays valid, and a wrong one wrong.
pub fn header_sum_stays(frame: &[u8], at: usize, bytes: &[u8])
    requires room { at + length bytes.now ≤ length frame.now }
    requires apart { (at + length bytes.now ≤ 24) ⊎ (26 ≤ at) }
    ensures { (o : OffloadOf) (p : PlacesOf) → places_of frame.now ≡ Some p → p.version ≡ Ipv4
        → sum_of_bytes (slice_range (edited o p frame.now at bytes.now) 14 p.start) % 65535 ≡ sum_of_bytes (slice_range frame.now 14 p.start) % 65535 }
{
    bytes_fit(frame);
    let _ = Places::of(frame);
}

/// An edit that does not touch the transport checksum keeps the sum of the pseudo-header and the transport packet,
/// modulo 65535, also if it writes an address. The checksum does not count as left to the device, as `Offload::Complete`
/// says of any packet, and that of UDP is not 0.
pub fn segment_sum_stays(frame: &[u8], at: usize, bytes: &[u8])
    requires room { at + length bytes.now ≤ length frame.now }
    ensures { (o : OffloadOf) (p : PlacesOf) (s : SegmentOf) → places_of frame.now ≡ Some p → p.carried ≡ OfSegment s
        → (at + length bytes.now ≤ checksum_place s) ⊎ (checksum_place s + 2 ≤ at)
        → is_left o p.version s frame.now ≡ false → (s.protocol ≡ Udp → word_at frame.now (checksum_place s) ≢ 0)
        → segment_sum p.version s (edited o p frame.now at bytes.now) % 65535 ≡ segment_sum p.version s frame.now % 65535 }
{
    bytes_fit(frame);
    let _ = Places::of(frame);
}

/// A computed transport checksum is valid.
pub fn filled_sum_verifies(frame: &[u8])
    ensures { (p : PlacesOf) (s : SegmentOf) → places_of frame.now ≡ Some p → p.carried ≡ OfSegment s
        → segment_sum p.version s (filled p.version s frame.now) ≡ 65535 }
{
    let _ = Places::of(frame);
}

/// A checksum that counts as left to the device, as `Offload::Offloaded` says of TCP and UDP, stays the sum of the
/// pseudo-header after an edit that does not touch it.
pub fn pseudo_header_sum_stays(frame: &[u8], at: usize, bytes: &[u8])
    requires room { at + length bytes.now ≤ length frame.now }
    ensures { (o : OffloadOf) (p : PlacesOf) (s : SegmentOf) → places_of frame.now ≡ Some p → p.carried ≡ OfSegment s
        → (at + length bytes.now ≤ checksum_place s) ⊎ (checksum_place s + 2 ≤ at) → is_left o p.version s frame.now ≡ true
        → (o ≡ Offloaded → word_at frame.now (checksum_place s) ≡ pseudo_header_sum p.version s frame.now)
        → word_at (edited o p frame.now at bytes.now) (checksum_place s) ≡ pseudo_header_sum p.version s (edited o p frame.now at bytes.now) }
{
    bytes_fit(frame);
    let _ = Places::of(frame);
}

/// An edit of bytes that `set_bytes` may replace keeps all places in the frame.
pub fn places_stay(frame: &[u8], at: usize, bytes: &[u8])
    requires { at + length bytes.now ≤ length frame.now }
    ensures { (o : OffloadOf) (p : PlacesOf) → places_of frame.now ≡ Some p → allows p at (at + length bytes.now) ≡ true
        → places_of (edited o p frame.now at bytes.now) ≡ Some p }
{
    let _ = Places::of(frame);
}

/// An edit keeps byte `i`, if it is none of those that are replaced, and in no checksum that covers one of these.
pub fn other_bytes_stay(frame: &[u8], at: usize, bytes: &[u8], i: usize)
    requires { at + length bytes.now ≤ length frame.now }
    ensures { (o : OffloadOf) (p : PlacesOf) → places_of frame.now ≡ Some p → IsOutside at (at + length bytes.now) i
        → OutsideHeaderChecksum p.version i ⊎ BesideHeader p.version p.start at (at + length bytes.now)
        → OutsideTransportChecksum p.carried i ⊎ BesideTransport p.carried p.version at (at + length bytes.now)
        → slice_index (edited o p frame.now at bytes.now) i ≡ slice_index frame.now i }
{
    bytes_fit(frame);
    let _ = Places::of(frame);
}

/// The hop limit that is set reads back.
pub fn hop_limit_reads_back(frame: &mut [u8], hop_limit: u8) -> bool
    ensures { (p : PlacesOf) → places_of frame.old ≡ Some p → (result ≡ true) × (hop_limit_of p.version frame.new ≡ hop_limit) }
{
    let _ = Places::of(frame);
    set_hop_limit(frame, hop_limit)
}

/// The DSCP that is set reads back, and the ECN stays.
pub fn dscp_reads_back(frame: &mut [u8], dscp: u8) -> bool
    requires { dscp ≤ 63 }
    ensures { (p : PlacesOf) → places_of frame.old ≡ Some p
        → (result ≡ true) × (dscp_of p.version frame.new ≡ dscp) × (ecn_of p.version frame.new ≡ ecn_of p.version frame.old) }
{
    bytes_fit(frame);
    let _ = Places::of(frame);
    set_dscp(frame, dscp)
}

/// An address of the version of the packet that is set reads back, unless the transport checksum is not found.
pub fn addr_reads_back(frame: &mut [u8], side: Side, addr: &IpAddress, offload: Offload) -> bool
    ensures { (p : PlacesOf) → places_of frame.old ≡ Some p → version_of addr.now ≡ p.version → p.carried ≢ Hidden
        → (result ≡ true) × (addr_of side p.version frame.new ≡ addr.now) }
{
    address_fits(addr);
    let _ = Places::of(frame);
    set_addr(frame, side, addr, offload)
}

/// A port of TCP or UDP that is set reads back.
pub fn port_reads_back(frame: &mut [u8], side: Side, port: u16, offload: Offload) -> bool
    ensures { (p : PlacesOf) (s : SegmentOf) → places_of frame.old ≡ Some p → p.carried ≡ OfSegment s → (s.protocol ≡ Tcp) ⊎ (s.protocol ≡ Udp)
        → (result ≡ true) × (port_of side s frame.new ≡ port) }
{
    let _ = Places::of(frame);
    set_port(frame, side, port, offload)
}

/// Bytes that `set_bytes` may replace read back.
pub fn bytes_read_back(frame: &mut [u8], at: usize, bytes: &[u8], offload: Offload) -> bool
    requires { at + length bytes.now ≤ length frame.old }
    ensures { (p : PlacesOf) → places_of frame.old ≡ Some p → allows p at (at + length bytes.now) ≡ true
        → (result ≡ true) × (slice_range frame.new at (at + length bytes.now) ≡ bytes.now) }
{
    let _ = Places::of(frame);
    set_bytes(frame, at, bytes, offload)
}

/// An edit of no bytes changes nothing. It is done if the packet has places, and `at` is between no two bytes that may not
/// be replaced.
pub fn no_bytes_change_nothing(frame: &mut [u8], at: usize, offload: Offload) -> bool
    ensures frame { frame.new ≡ frame.old }
    ensures done { (result ≡ true) ↔ ((at ≤ length frame.old) × IsSomeAnd (places_of frame.old) (λ p. allows p at at ≡ true)) }
{
    bytes_fit(frame);
    let _ = Places::of(frame);
    set_bytes(frame, at, &[], offload)
}

/// An edit of a frame.
#[derive(Debug, Clone, Copy)]
pub enum Edit<'a> {
    HopLimit(u8),
    Dscp(u8),
    Addr(Side, IpAddress),
    Port(Side, u16),
    Bytes(usize, &'a [u8]),
}

/// An edit keeps a valid checksum valid, and a wrong one wrong: that of an IPv4 header, and that of TCP, UDP, ICMP or
/// ICMPv6. The exception is an ICMP message of zeros over IPv4. One that counts as left to the device stays the sum of
/// the pseudo-header.
pub fn checksums_stay(frame: &mut [u8], edit: &Edit<'_>, offload: Offload) -> bool
    ensures header { (p : PlacesOf) → places_of frame.old ≡ Some p → p.version ≡ Ipv4 → HasHeaderChecksum frame.old ↔ HasHeaderChecksum frame.new }
    ensures valid { (p : PlacesOf) (s : SegmentOf) → places_of frame.old ≡ Some p → p.carried ≡ OfSegment s
        → (offload ≡ Offloaded → can_be_left s.protocol ≡ false) → (s.protocol ≡ Icmp → 0 < sum_of_bytes (segment_bytes s frame.new))
        → HasTransportChecksum p.version s frame.old → HasTransportChecksum p.version s frame.new }
    ensures wrong { (p : PlacesOf) (s : SegmentOf) → places_of frame.old ≡ Some p → p.carried ≡ OfSegment s
        → is_left offload p.version s frame.old ≡ false → (s.protocol ≡ Icmp → 0 < sum_of_bytes (segment_bytes s frame.old))
        → HasTransportChecksum p.version s frame.new → HasTransportChecksum p.version s frame.old }
    ensures left { (p : PlacesOf) (s : SegmentOf) → places_of frame.old ≡ Some p → p.carried ≡ OfSegment s
        → is_left offload p.version s frame.old ≡ true
        → (offload ≡ Offloaded → word_at frame.old (checksum_place s) ≡ pseudo_header_sum p.version s frame.old)
        → word_at frame.new (checksum_place s) ≡ pseudo_header_sum p.version s frame.new }
{
    bytes_fit(frame);
    let _ = Places::of(frame);
    let done = make(frame, edit, offload);
    bytes_fit(frame);
    let _ = Places::of(frame);
    done
}

/// An edit keeps each byte but those that it sets and the checksums.
pub fn edit_keeps_other_bytes(frame: &mut [u8], edit: &Edit<'_>, offload: Offload, i: usize) -> bool
    ensures { (p : PlacesOf) → places_of frame.old ≡ Some p → IsBeside edit.now p i → OutsideHeaderChecksum p.version i → OutsideTransportChecksum p.carried i
        → slice_index frame.new i ≡ slice_index frame.old i }
{
    bytes_fit(frame);
    let _ = Places::of(frame);
    let done = make(frame, edit, offload);
    bytes_fit(frame);
    let _ = Places::of(frame);
    done
}

fn make(frame: &mut [u8], edit: &Edit<'_>, offload: Offload) -> bool
    ensures bytes { frame.new ≡ unwrap_or (edit_made offload frame.old edit.now) frame.old }
    ensures places { places_of frame.new ≡ places_of frame.old }
    ensures address { HasAddress edit.now }
{
    match edit {
        Edit::HopLimit(hop_limit) => set_hop_limit(frame, *hop_limit),
        Edit::Dscp(dscp) => set_dscp(frame, *dscp),
        Edit::Addr(side, addr) => {
            address_fits(addr);
            set_addr(frame, *side, addr, offload)
        }
        Edit::Port(side, port) => set_port(frame, *side, *port, offload),
        Edit::Bytes(at, bytes) => set_bytes(frame, *at, bytes, offload),
    }
}

// An address has as many bytes as its version has.
fn address_fits(addr: &IpAddress)
    ensures { IsAddress addr.now }
{
    match *addr {
        IpAddress::Ipv4(addr) => {
            addr.to_bits();
        }
        IpAddress::Ipv6(addr) => {
            addr.to_bits();
        }
    }
}
