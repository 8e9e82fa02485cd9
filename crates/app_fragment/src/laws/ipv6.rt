//! Laws of the fragments of IPv6 packets. Their bodies make a call of `fragment_ipv6`.

ghost use Rattle.std.specs.Prelude.{◌≡◌, ◌<◌, ◌≤◌, ◌++◌, ◌∷◌, IfSome, List, drop, take, ℕ};
ghost use Rattle.app_fragment.specs.Fragments.{Cut, Fragment};
ghost use Rattle.app_fragment.specs.Ipv6Fragments.{IsCommon};
ghost use Rattle.app_fragment.specs.Parts.{IsIpv6, fragment_of};
ghost use Rattle.ip_wire.specs.Field.{bit, field};
ghost use Rattle.ip_wire.specs.Ipv6.{payload_len_of, payload_of, total_len};

use crate::ipv4::Written;
use crate::ipv6::fragment_ipv6;
use ip_wire::laws::field::bytes_fit;

/// The fragments of a packet that does not fit in `mtu` cut its payload: the written one is the first of those from `at`
/// on, and the others are those from `next` on. None follows if `next` is the length of the payload.
pub fn fragments_cut_the_payload_ipv6(
    packet: &[u8],
    at: usize,
    mtu: usize,
    ident: u32,
    out: &mut [u8],
) -> Option<Written>
    requires { mtu < total_len packet.now }
    ensures valid { IfSome result (λ written. IsIpv6 out.new) }
    ensures cut { IfSome result (λ written. (fs : List Fragment) → Cut (payload_of packet.now) written.next fs
        → Cut (payload_of packet.now) at (fragment_of out.new ∷ fs)) }
{
    bytes_fit(packet);
    fragment_ipv6(packet, at, mtu, ident, out)
}

/// A written fragment has the fixed header of the packet: all bits but those of the payload length and the next header.
/// That is 44, and the fragment header has the next header of the packet, zeros in its reserved fields, and the
/// identification.
pub fn fragment_has_the_header_ipv6(
    packet: &[u8],
    at: usize,
    mtu: usize,
    ident: u32,
    out: &mut [u8],
) -> Option<Written>
    requires { mtu < total_len packet.now }
    ensures bits { IfSome result (λ written. (i : ℕ) → i < 320 → IsCommon i → bit out.new i ≡ bit packet.now i) }
    ensures next { IfSome result (λ written. (field out.new 48 8 ≡ 44) × (field out.new 320 8 ≡ field packet.now 48 8)) }
    ensures reserved { IfSome result (λ written. (field out.new 328 8 ≡ 0) × (field out.new 349 2 ≡ 0)) }
    ensures ident { IfSome result (λ written. field out.new 352 32 ≡ ident) }
{
    bytes_fit(packet);
    fragment_ipv6(packet, at, mtu, ident, out)
}

/// A packet that fits in `mtu` is its only fragment, to the byte.
pub fn packet_that_fits_is_copied_ipv6(
    packet: &[u8],
    mtu: usize,
    ident: u32,
    out: &mut [u8],
) -> Option<Written>
    requires { total_len packet.now ≤ mtu }
    ensures bytes { IfSome result (λ written. out.new ≡ take (total_len packet.now) packet.now ++ drop written.len out.old) }
    ensures only { IfSome result (λ written. written.next ≡ payload_len_of packet.now) }
{
    fragment_ipv6(packet, 0, mtu, ident, out)
}
