//! Laws of fragments and the packets that they make. The bodies of those about IPv4 make a call of `fragment_ipv4`
//! or of `Datagram::write`.

ghost use Rattle.std.specs.Prelude.{◌≡◌, ◌≢◌, ◌↔◌, ◌+◌, ◌<◌, ◌≤◌, ◌++◌, ◌∷◌, ◌*◌, ◌⊎◌, IfSome, List, drop, false, length, slice_range, take, ℕ};
ghost use Rattle.app_fragment.specs.Datagram.{Collects, fragments_of};
ghost use Rattle.app_fragment.specs.Fragments.{Among, AreNumbered, Covers, Cut, Fragment, IsPartOf, Make};
ghost use Rattle.app_fragment.specs.Ipv4Fragments.{IsCommon, fragment_of, options_at, payload_len, payload_of};
ghost use Rattle.app_fragment.specs.Parts.{whole_payload};
ghost use Rattle.ip_wire.specs.Field.{bit};
ghost use Rattle.ip_wire.specs.Ipv4.{checksum_of, dont_frag_of, fragment_offset, header_len, ident_of, is_fragment, total_len};

pub mod ipv6;
pub mod partials;

use crate::datagram::Datagram;
use crate::ipv4::{Written, fragment_ipv4};
use ip_wire::laws::field::bytes_fit;

/// Fragments make at most one packet, in any order and with copies.
pub fn fragments_make_one_packet()
    ensures { (fs gs : List Fragment) (packet other : List ℕ) → ((f : Fragment) → Among f fs ↔ Among f gs)
        → Make fs packet → Make gs other → packet ≡ other }
{}

/// Fragments that make a packet make it in any order, and with copies.
pub fn fragments_in_any_order()
    ensures { (fs gs : List Fragment) (packet : List ℕ) → ((f : Fragment) → Among f fs ↔ Among f gs)
        → Make fs packet → Make gs packet }
{}

/// The fragments that a payload is cut into make its packet.
pub fn cut_packet_is_made()
    ensures { (fs : List Fragment) (packet : List ℕ) → 0 < length packet → Cut packet 0 fs → Make fs packet }
{}

/// The fragments of the numbers from 0 on, up to the last one, cut the payload: each begins where the one before it ends.
/// `numbered_place` says where they begin, `ipv4_place` and `ipv6_place` in a packet.
pub fn numbered_fragments_cut_the_payload()
    ensures { (room : ℕ) (payload : List ℕ) → (8 ≤ room) ⊎ (length payload ≤ room)
        → (fs : List Fragment) × AreNumbered room payload 0 fs × Cut payload 0 fs }
{}

/// The fragments of a packet that is no fragment cut its payload: the written one is the first of those from `at` on, and
/// the others are those from `next` on. None follows if `next` is the length of the payload.
pub fn fragments_cut_the_payload(
    packet: &[u8],
    at: usize,
    mtu: usize,
    ident: Option<u16>,
    out: &mut [u8],
) -> Option<Written>
    requires { is_fragment packet.now ≡ false }
    ensures { IfSome result (λ written. (fs : List Fragment) → Cut (payload_of packet.now) written.next fs
        → Cut (payload_of packet.now) at (fragment_of out.new ∷ fs)) }
{
    bytes_fit(packet);
    fragment_ipv4(packet, at, mtu, ident, out)
}

/// A fragment may be fragmented again. A written fragment covers the bytes of the whole packet that the old one has from
/// `at` up to `next`. It is a fragment of each packet that the old one is a fragment of, and the last one if its payload
/// ends with that of the old one, which was the last one.
pub fn fragments_of_a_fragment(
    packet: &[u8],
    at: usize,
    mtu: usize,
    ident: Option<u16>,
    out: &mut [u8],
) -> Option<Written>
    ensures covers { IfSome result (λ written. (p : ℕ) → Covers (fragment_of out.new) p
        ↔ ((fragment_offset packet.now + at ≤ p) × (p < fragment_offset packet.now + written.next))) }
    ensures part { IfSome result (λ written. (whole : List ℕ) → IsPartOf (fragment_of packet.now) whole
        → IsPartOf (fragment_of out.new) whole) }
    ensures last { IfSome result (λ written. ((fragment_of out.new).more ≡ false)
        ↔ (((fragment_of packet.now).more ≡ false) × (written.next ≡ payload_len packet.now))) }
{
    bytes_fit(packet);
    fragment_ipv4(packet, at, mtu, ident, out)
}

/// A written fragment has the header of the packet: all bits but those of its own fields, and the options, or those that
/// a later fragment has.
pub fn fragment_has_the_header(
    packet: &[u8],
    at: usize,
    mtu: usize,
    ident: Option<u16>,
    out: &mut [u8],
) -> Option<Written>
    ensures bits { IfSome result (λ written. (i : ℕ) → i < 160 → IsCommon ident i → bit out.new i ≡ bit packet.now i) }
    ensures options { IfSome result (λ written. slice_range out.new 20 (header_len packet.now)
        ≡ options_at at (slice_range packet.now 20 (header_len packet.now))) }
{
    bytes_fit(packet);
    fragment_ipv4(packet, at, mtu, ident, out)
}

/// A fragment of one's own has the given identification, and DF is clear.
pub fn own_fragment_has_the_ident(
    packet: &[u8],
    at: usize,
    mtu: usize,
    ident: u16,
    out: &mut [u8],
) -> Option<Written>
    ensures { IfSome result (λ written. (ident_of out.new ≡ ident) × (dont_frag_of out.new ≡ 0)) }
{
    bytes_fit(packet);
    fragment_ipv4(packet, at, mtu, Some(ident), out)
}

/// A forwarded packet that fits in the MTU is its only fragment, to the byte. A checksum of 0xffff is the exception: the
/// fragment has 0, which is valid too, and which senders compute.
pub fn packet_that_fits_is_copied(packet: &[u8], mtu: usize, out: &mut [u8]) -> Option<Written>
    requires fits { total_len packet.now ≤ mtu }
    requires checksum { checksum_of packet.now ≢ 65535 }
    ensures { IfSome result (λ written. out.new ≡ take (total_len packet.now) packet.now ++ drop written.len out.old) }
{
    bytes_fit(packet);
    fragment_ipv4(packet, 0, mtu, None, out)
}

/// A packet is put together from the fragments that its payload was cut into, in any order and with copies: the payload is
/// the same.
pub fn datagram_has_the_payload(
    datagram: &Datagram,
    buffer: &[u8],
    received: &[u8],
    out: &mut [u8],
) -> Option<usize>
    requires blocks { length buffer.now ≤ 8 * length received.now }
    requires small { length received.now < 65536 }
    ensures { IfSome result (λ len. (ps : List (List ℕ)) (fs : List Fragment) (payload : List ℕ)
        → Collects datagram.now buffer.now received.now ps → 0 < length payload → Cut payload 0 fs
        → ((f : Fragment) → Among f fs ↔ Among f (fragments_of ps)) → whole_payload out.new ≡ payload) }
{
    datagram.write(buffer, received, out)
}
