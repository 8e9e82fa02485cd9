//! An IP packet that is put together from its fragments (RFC 791, section 3.2; RFC 8200, section 4.5), in memory of the
//! caller.

ghost use Rattle.std.specs.Prelude.{[], ◌≡◌, ◌≢◌, ◌↔◌, ◌+◌, ◌*◌, ◌<◌, ◌≤◌, ◌++◌, ◌∷◌, ◌⊎◌, ◌==◌, ℕ, IfSome, IsTrue, List, None, drop, false, length, not, take};
ghost use Rattle.app_fragment.specs.Datagram.{Collects, EachPacket, HasHeader, IsFirst, IsFirstWritten, IsMixed, IsTooLong, IsWhole, OnePacket, fragments_of, ipv4_whole_header, ipv4_with_ce, ipv6_whole_header, ipv6_with_ce, stored_header, whole_bytes, whole_header};
ghost use Rattle.app_fragment.specs.Fragments.{Agree, IsShaped, Make, end_of};
ghost use Rattle.ip_wire.specs.Field.{field, with_field};
ghost use Rattle.ip_wire.specs.Ipv4.{header_len};
ghost use Rattle.app_fragment.specs.Parts.{IsOf, IsValid, counted_len, ecn_of, fragment_of, header_of, key_of, packet_len, part_header_len, whole_header_len};

use crate::ipv4::{fill_checksum, set_place};
use crate::part::{
    FragKey, Part, counted_len, is_ipv6, packet_len, part_header_len, part_of, whole_header_len,
};
use crate::reassembly::{Ends, Inserted, clear, insert, is_complete};
use ip_wire::laws::field::bytes_fit;
use ip_wire::{IPV4_HEADER_LEN, IPV6_HEADER_LEN, IpProtocol, Ipv4PacketMut, Ipv6PacketMut};

// The length of the longest header.
const MAX_HEADER_LEN: usize = 60;

// The greatest value of the length field of a packet.
const MAX_LEN: usize = 65535;

// The codepoints of explicit congestion notification: not capable, and congestion experienced (RFC 3168, section 5).
const NOT_ECT: u8 = 0;

const CE: u8 = 3;

/// What was received of a packet, beside its payload: the key of its fragments, their ends and codepoints, and the header of
/// the first one. The payload is in a buffer of the caller. A byte for each 8 bytes of it says whether they were received.
/// Any bytes are a value.
#[repr(C)]
#[derive(Debug, Clone, Copy)]
pub struct Datagram {
    pub(crate) key: FragKey,
    ends: Ends,
    // All zeros until the first fragment is received.
    header: [u8; 60],
    // Other than 0: a fragment has the codepoint NOT_ECT.
    not_ect: u8,
    // Other than 0: a fragment has the codepoint CE.
    ce: u8,
    unused: [u8; 2],
}

/// A datagram with this key, of which nothing was received.
pub fn begin(received: &mut [u8], key: FragKey) -> Datagram
    ensures empty { (buffer : List ℕ) → Collects result buffer received.new [] }
    ensures key { result.key ≡ key }
{
    Datagram {
        key,
        ends: clear(received),
        header: [0; MAX_HEADER_LEN],
        not_ect: 0,
        ce: 0,
        unused: [0; 2],
    }
}

impl Datagram {
    // All zeros: none.
    pub(crate) const NONE: Datagram = Datagram {
        key: FragKey {
            ident: 0,
            version: 0,
            protocol: 0,
            unused: [0; 2],
            src: [0; 16],
            dst: [0; 16],
        },
        ends: Ends { len: 0, high: 0 },
        header: [0; 60],
        not_ect: 0,
        ce: 0,
        unused: [0; 2],
    };

    /// Adds a fragment. The header of the first one is stored. It is rejected if a length, the version or the checksum of
    /// its header is wrong, if it has another key, or as `insert` rejects it. It is a conflict if it disagrees with the
    /// fragments before it: as `insert` says, by codepoints of explicit congestion notification that do not go together
    /// (RFC 3168, section 5.3), or because the whole packet is too long. Then nothing is changed.
    pub fn insert(&mut self, buffer: &mut [u8], received: &mut [u8], packet: &[u8]) -> Inserted
        requires blocks { length buffer.old ≤ 8 * length received.old }
        requires small { length received.old < 65536 }
        ensures collected { (result ≡ Inserted.Incomplete) ⊎ (result ≡ Inserted.Complete) → (ps : List (List ℕ))
            → Collects self.old buffer.old received.old ps → Collects self.new buffer.new received.new (packet.now ∷ ps) }
        ensures complete { result ≡ Inserted.Complete → (ps : List (List ℕ)) → Collects self.old buffer.old received.old ps
            → Make (fragment_of packet.now ∷ fragments_of ps) (take self.new.ends.len buffer.new) }
        ensures missing { result ≡ Inserted.Incomplete → (ps : List (List ℕ)) → Collects self.old buffer.old received.old ps
            → (payload : List ℕ) → ¬ Make (fragment_of packet.now ∷ fragments_of ps) payload }
        ensures valid { result ≢ Inserted.Rejected → IsOf self.old.key packet.now × IsShaped (fragment_of packet.now)
            × (end_of (fragment_of packet.now) ≤ length buffer.old) }
        ensures rejected { result ≡ Inserted.Rejected → self.old.ends.len ≤ length buffer.old → IsOf self.old.key packet.now
            → IsShaped (fragment_of packet.now) → ¬ (end_of (fragment_of packet.now) ≤ length buffer.old) }
        ensures conflict { result ≡ Inserted.Conflict → (ps : List (List ℕ)) → Collects self.old buffer.old received.old ps
            → ¬ Agree (fragment_of packet.now) (fragments_of ps) ⊎ IsMixed (packet.now ∷ ps) ⊎ IsTooLong (packet.now ∷ ps) }
        ensures key { self.new.key ≡ self.old.key }
        ensures kept { (result ≡ Inserted.Rejected) ⊎ (result ≡ Inserted.Conflict) → (self.new ≡ self.old)
            × (buffer.new ≡ buffer.old) × (received.new ≡ received.old) }
    {
        let Some(part) = part_of(packet) else {
            return Inserted::Rejected;
        };
        if !part.key.is_same(&self.key) || !part.is_shaped() || !part.fits(buffer.len()) {
            return Inserted::Rejected;
        }
        let header = self.header_with(&part);
        if self.is_mixed(part.ecn) || is_too_long(&header, self.len_with(&part)) {
            return Inserted::Conflict;
        }
        match insert(
            buffer,
            received,
            &mut self.ends,
            part.first,
            part.more,
            part.payload,
        ) {
            Inserted::Incomplete => {
                self.keep(header, part.ecn);
                Inserted::Incomplete
            }
            Inserted::Complete => {
                self.keep(header, part.ecn);
                Inserted::Complete
            }
            Inserted::Rejected => Inserted::Rejected,
            Inserted::Conflict => Inserted::Conflict,
        }
    }

    /// Writes the whole packet to the front of `out`, and returns its length: the header of the first fragment without a
    /// fragment header, with the new length, MF clear, offset 0, CE if a fragment has it, and a new checksum; and the
    /// payload. Returns `None` and writes nothing if a part is missing, or if it does not fit in `out`.
    pub fn write(&self, buffer: &[u8], received: &[u8], out: &mut [u8]) -> Option<usize>
        requires blocks { length buffer.now ≤ 8 * length received.now }
        requires small { length received.now < 65536 }
        ensures bytes { IfSome result (λ len. out.new
            ≡ whole_bytes (stored_header self.now.header) (take self.now.ends.len buffer.now) (not (self.now.ce == 0)) ++ drop len out.old) }
        ensures whole { IfSome result (λ len. (ps : List (List ℕ)) → Collects self.now buffer.now received.now ps
            → IsWhole self.now.key ps len out.new) }
        ensures missing { result ≡ None → (ps : List (List ℕ)) → Collects self.now buffer.now received.now ps
            → (payload : List ℕ) → Make (fragments_of ps) payload
            → length out.old < whole_header_len self.now.header + length payload }
        ensures least { IfSome result (λ len. 20 ≤ len) }
        ensures room { IfSome result (λ len. len ≤ length out.old) }
        ensures unchanged { result ≡ None → out.new ≡ out.old }
    {
        bytes_fit(&self.header);
        if !self.is_complete(buffer, received) {
            return None;
        }
        let header = &self.header[..part_header_len(&self.header)];
        let payload = &buffer[..self.ends.len];
        write_whole(header, payload, self.ce != 0, out)
    }

    /// Writes the fragment with offset 0 to the front of `out`, and returns its length. Returns `None` and writes nothing if
    /// it was not received, or if it does not fit in `out`.
    pub fn write_first(&self, buffer: &[u8], out: &mut [u8]) -> Option<usize>
        ensures first { IfSome result (λ len. (received : List ℕ) (ps : List (List ℕ)) → Collects self.now buffer.now received ps
            → OnePacket (IsFirstWritten len out.new out.old) ps) }
        ensures missing { result ≡ None → (received : List ℕ) (ps : List (List ℕ)) → Collects self.now buffer.now received ps
            → EachPacket (λ p. ¬ IsFirst p) ps ⊎ OnePacket (λ p. IsFirst p × (length out.old < packet_len p)) ps }
        ensures room { IfSome result (λ len. len ≤ length out.old) }
        ensures unchanged { result ≡ None → out.new ≡ out.old }
    {
        bytes_fit(&self.header);
        let start = part_header_len(&self.header);
        let len = packet_len(&self.header);
        if start < IPV4_HEADER_LEN || len < start || len - start > buffer.len() || out.len() < len {
            return None;
        }
        write_joined(&self.header[..start], &buffer[..len - start], out);
        Some(len)
    }

    // Whether all was received, and the packet is not too long.
    fn is_complete(&self, buffer: &[u8], received: &[u8]) -> bool
        requires blocks { length buffer.now ≤ 8 * length received.now }
        requires small { length received.now < 65536 }
        ensures header { IsTrue result → 20 ≤ part_header_len self.now.header }
        ensures within { IsTrue result → self.now.ends.len ≤ length buffer.now }
        ensures fits { IsTrue result → counted_len self.now.header + self.now.ends.len ≤ 65535 }
        ensures make { IsTrue result → (ps : List (List ℕ)) → Collects self.now buffer.now received.now ps
            → Make (fragments_of ps) (take self.now.ends.len buffer.now) }
        ensures missing { result ≡ false → (ps : List (List ℕ)) → Collects self.now buffer.now received.now ps
            → (payload : List ℕ) → ¬ Make (fragments_of ps) payload }
    {
        if part_header_len(&self.header) < IPV4_HEADER_LEN {
            return false;
        }
        if self.ends.len > buffer.len() || is_too_long(&self.header, self.ends.len) {
            return false;
        }
        is_complete(received, self.ends.len)
    }

    // The header to be stored with this fragment: the one of the fragment, if it is the first and none is stored.
    fn header_with(&self, part: &Part<'_>) -> [u8; 60]
        requires { length part.now.header.now ≤ 60 }
        ensures stored { part.now.first ≡ 0 → part_header_len self.now.header ≡ 0
            → take (length part.now.header.now) result ≡ part.now.header.now }
        ensures other { (part.now.first ≢ 0) ⊎ (part_header_len self.now.header ≢ 0) → result ≡ self.now.header }
    {
        let mut header = self.header;
        if part.first == 0 && part_header_len(&self.header) == 0 {
            header[..part.header.len()].copy_from_slice(part.header);
        }
        header
    }

    // The end of the last fragment, with this one: 0 if it is missing.
    fn len_with(&self, part: &Part<'_>) -> usize
        requires first { part.now.first < 8192 }
        requires bound { length part.now.payload.now < 65536 }
        ensures more { IsTrue part.now.more → result ≡ self.now.ends.len }
        ensures last { part.now.more ≡ false → result ≡ 8 * part.now.first + length part.now.payload.now }
    {
        if part.more {
            self.ends.len
        } else {
            8 * part.first + part.payload.len()
        }
    }

    // Whether codepoints that do not go together are among those received and this one: a router says that there is
    // congestion, and a sender does not take part (RFC 3168, section 5.3).
    fn is_mixed(&self, ecn: u8) -> bool
        ensures { IsTrue result ↔ (((self.now.ce ≢ 0) ⊎ (ecn ≡ 3)) × ((self.now.not_ect ≢ 0) ⊎ (ecn ≡ 0))) }
    {
        (self.ce != 0 || ecn == CE) && (self.not_ect != 0 || ecn == NOT_ECT)
    }

    // Stores this header, and that a fragment has this codepoint.
    fn keep(&mut self, header: [u8; 60], ecn: u8)
        ensures header { self.new.header ≡ header }
        ensures ce { (self.new.ce ≢ 0) ↔ ((self.old.ce ≢ 0) ⊎ (ecn ≡ 3)) }
        ensures not_ect { (self.new.not_ect ≢ 0) ↔ ((self.old.not_ect ≢ 0) ⊎ (ecn ≡ 0)) }
        ensures key { self.new.key ≡ self.old.key }
        ensures ends { self.new.ends ≡ self.old.ends }
    {
        self.header = header;
        if ecn == CE {
            self.ce = 1;
        }
        if ecn == NOT_ECT {
            self.not_ect = 1;
        }
    }
}

// Whether a payload of this length is too long for the length field of a packet with this header.
fn is_too_long(header: &[u8], len: usize) -> bool
    requires { 1 ≤ length header.now }
    ensures long { IsTrue result → 65535 < counted_len header.now + len }
    ensures fits { result ≡ false → counted_len header.now + len ≤ 65535 }
{
    len > MAX_LEN - counted_len(header)
}

/// Writes a packet that is not fragmented, but may have a fragment header over IPv6: without this header. Returns its length.
/// Returns `None` and writes nothing if it is fragmented or invalid, or if it does not fit in `out`.
pub fn write_alone(packet: &[u8], out: &mut [u8]) -> Option<usize>
    ensures valid { IfSome result (λ len. IsValid packet.now × IsFirst packet.now × ((fragment_of packet.now).more ≡ false)) }
    ensures bytes { IfSome result (λ len. out.new
        ≡ whole_bytes (header_of packet.now) (fragment_of packet.now).bytes (ecn_of packet.now == 3) ++ drop len out.old) }
    ensures whole { IfSome result (λ len. IsWhole (key_of packet.now) (packet.now ∷ []) len out.new) }
    ensures none { result ≡ None → IsValid packet.now → IsFirst packet.now → (fragment_of packet.now).more ≡ false
        → length out.old < whole_header_len packet.now + length (fragment_of packet.now).bytes }
    ensures least { IfSome result (λ len. 20 ≤ len) }
    ensures room { IfSome result (λ len. len ≤ length out.old) }
    ensures unchanged { result ≡ None → out.new ≡ out.old }
{
    bytes_fit(packet);
    let Some(part) = part_of(packet) else {
        return None;
    };
    if !part.is_whole() {
        return None;
    }
    write_whole(part.header, part.payload, part.ecn == CE, out)
}

// Writes a packet with this payload, by the header of its first fragment, and returns its length.
fn write_whole(header: &[u8], payload: &[u8], ce: bool, out: &mut [u8]) -> Option<usize>
    requires least { 20 ≤ length header.now }
    requires header { part_header_len header.now ≡ length header.now }
    requires small { counted_len header.now + length payload.now ≤ 65535 }
    ensures bytes { IfSome result (λ len. out.new ≡ whole_bytes header.now payload.now ce ++ drop len out.old) }
    ensures len { IfSome result (λ len. len ≡ whole_header_len header.now + length payload.now) }
    ensures none { result ≡ None → length out.old < whole_header_len header.now + length payload.now }
    ensures least { IfSome result (λ len. 20 ≤ len) }
    ensures room { IfSome result (λ len. len ≤ length out.old) }
    ensures unchanged { result ≡ None → out.new ≡ out.old }
{
    let start = whole_header_len(header);
    let len = start + payload.len();
    if out.len() < len {
        return None;
    }
    let (front, rest) = out.split_at_mut(start);
    write_header(header, payload.len(), ce, front);
    rest[..payload.len()].copy_from_slice(payload);
    Some(len)
}

// Writes the header of a packet with a payload of this length.
fn write_header(header: &[u8], payload_len: usize, ce: bool, out: &mut [u8])
    requires least { 20 ≤ length header.now }
    requires header { part_header_len header.now ≡ length header.now }
    requires small { counted_len header.now + payload_len ≤ 65535 }
    requires room { length out.old ≡ whole_header_len header.now }
    ensures { out.new ≡ whole_header header.now payload_len ce }
{
    if is_ipv6(header) {
        write_ipv6_header(header, payload_len, ce, out);
    } else {
        write_ipv4_header(header, payload_len, ce, out);
    }
}

fn write_ipv4_header(header: &[u8], payload_len: usize, ce: bool, out: &mut [u8])
    requires least { 20 ≤ length header.now }
    requires header { header_len header.now ≡ length header.now }
    requires small { length header.now + payload_len ≤ 65535 }
    requires room { length out.old ≡ length header.now }
    ensures { out.new ≡ ipv4_whole_header header.now payload_len ce }
{
    out.copy_from_slice(header);
    set_ipv4_ce(out, ce);
    set_place(out, (header.len() + payload_len) as u16, false, 0);
    fill_checksum(out);
}

fn set_ipv4_ce(header: &mut [u8], ce: bool)
    requires { 20 ≤ length header.old }
    ensures { header.new ≡ ipv4_with_ce ce header.old }
{
    if ce {
        Ipv4PacketMut::new_unchecked(header).set_ecn(CE);
    }
}

fn write_ipv6_header(header: &[u8], payload_len: usize, ce: bool, out: &mut [u8])
    requires long { length header.now ≡ 48 }
    requires small { payload_len ≤ 65535 }
    requires room { length out.old ≡ 40 }
    ensures { out.new ≡ ipv6_whole_header header.now payload_len ce }
{
    let next_header = carried_next_header(header);
    out.copy_from_slice(&header[..out.len()]);
    set_ipv6_payload(out, payload_len as u16, next_header);
    set_ipv6_ce(out, ce);
}

// The next header that the fragment header has.
fn carried_next_header(header: &[u8]) -> u8
    requires { length header.now ≡ 48 }
    ensures { result ≡ field header.now 320 8 }
{
    bytes_fit(header);
    header[IPV6_HEADER_LEN]
}

fn set_ipv6_payload(header: &mut [u8], len: u16, next_header: u8)
    requires { 40 ≤ length header.old }
    ensures { header.new ≡ with_field (with_field header.old 32 16 len) 48 8 next_header }
{
    let mut packet = Ipv6PacketMut::new_unchecked(header);
    packet.set_payload_len(len);
    packet.set_next_header(IpProtocol::from(next_header));
}

fn set_ipv6_ce(header: &mut [u8], ce: bool)
    requires { 40 ≤ length header.old }
    ensures { header.new ≡ ipv6_with_ce ce header.old }
{
    bytes_fit(header);
    if ce {
        let mut packet = Ipv6PacketMut::new_unchecked(header);
        let class = packet.traffic_class() / 4 * 4 + CE;
        packet.set_traffic_class(class);
    }
}

// Writes two parts of a packet to the front of `out`.
fn write_joined(first: &[u8], second: &[u8], out: &mut [u8])
    requires { length first.now + length second.now ≤ length out.old }
    ensures { out.new ≡ (first.now ++ second.now) ++ drop (length first.now + length second.now) out.old }
{
    let (front, rest) = out.split_at_mut(first.len());
    front.copy_from_slice(first);
    rest[..second.len()].copy_from_slice(second);
}
