//! The headers after an IPv6 header (RFC 8200, section 4).

ghost use Rattle.std.specs.Prelude.{suc, ◌≡◌, ◌≤◌, ◌<◌, IfSome, MatchOption, length, slice_index};
ghost use Rattle.app_host.specs.Ipv6Chain.{LeadsNowhere, LeadsTo, extension_len, following, has_headers, is_extension_header, is_later_fragment, least_len};

use ip_wire::Ipv6FragmentHeader;

// The numbers of the fragment header and of the authentication header.
const FRAGMENT: u8 = 44;

const AUTHENTICATION: u8 = 51;

// The numbers of what follows extension headers.
const TCP: u8 = 6;

const UDP: u8 = 17;

const ICMPV6: u8 = 58;

const NO_NEXT_HEADER: u8 = 59;

// The length of the shortest extension header in bytes.
const MIN_LEN: usize = 8;

/// The protocol after all extension headers of a packet, and the bytes from its header on. A fragment other than the
/// first has none of these bytes. `None` if an extension header does not end within the packet, or if it would be in
/// another fragment.
pub fn upper_layer(next_header: u8, payload: &[u8]) -> Option<(u8, &[u8])>
    ensures { MatchOption result (LeadsNowhere next_header payload.now) (λ upper. LeadsTo upper.0 upper.1.now next_header payload.now) }
{
    let mut number = next_header;
    let mut rest = payload;
    while is_extension_header(number) {
        let Some((next, following)) = header_after(number, rest) else {
            return None;
        };
        number = next;
        rest = following;
    }
    Some((number, rest))
}

/// Whether the bytes have all headers from the one with this number through that of the upper-layer protocol. Of TCP
/// they need 20 bytes, of UDP 8, of ICMPv6 4, and of another protocol one.
pub(crate) fn has_headers(number: u8, bytes: &[u8]) -> bool
    ensures { result ≡ has_headers (suc (length bytes.now)) number bytes.now }
{
    match upper_layer(number, bytes) {
        Some((protocol, message)) => least_len(protocol) <= message.len(),
        None => false,
    }
}

// The length of the header of an upper-layer protocol without options.
fn least_len(protocol: u8) -> usize
    ensures { result ≡ least_len protocol }
{
    match protocol {
        TCP => 20,
        UDP => 8,
        ICMPV6 => 4,
        NO_NEXT_HEADER => 0,
        _ => 1,
    }
}

// The number of the header after an extension header, and the bytes from it on. `None` if the extension header is cut.
fn header_after(number: u8, bytes: &[u8]) -> Option<(u8, &[u8])>
    ensures cut { result ≡ None → length bytes.now < extension_len number bytes.now }
    ensures whole { IfSome result (λ after. extension_len number bytes.now ≤ length bytes.now) }
    ensures next { IfSome result (λ after. after.0 ≡ slice_index bytes.now 0) }
    ensures following { IfSome result (λ after. after.1.now ≡ following number bytes.now) }
{
    if bytes.len() < MIN_LEN {
        return None;
    }
    let len = extension_len(number, bytes);
    if bytes.len() < len {
        return None;
    }
    if is_later_fragment(number, bytes) {
        return Some((bytes[0], &bytes[..0]));
    }
    Some((bytes[0], &bytes[len..]))
}

// Whether it is the number of an extension header (RFC 7045, section 4), but not of the encapsulating security payload
// or for experiments.
fn is_extension_header(number: u8) -> bool
    ensures { result ≡ is_extension_header number }
{
    matches!(number, 0 | 43 | 44 | 51 | 60 | 135 | 139 | 140)
}

// The length of an extension header in bytes.
fn extension_len(number: u8, bytes: &[u8]) -> usize
    requires { 8 ≤ length bytes.now }
    ensures { result ≡ extension_len number bytes.now }
{
    let units = usize::from(bytes[1]);
    match number {
        FRAGMENT => MIN_LEN,
        AUTHENTICATION => 4 * (units + 2),
        _ => 8 * (units + 1),
    }
}

// Whether the header at the front is that of a fragment other than the first.
fn is_later_fragment(number: u8, bytes: &[u8]) -> bool
    requires { 8 ≤ length bytes.now }
    ensures { result ≡ is_later_fragment number bytes.now }
{
    number == FRAGMENT && Ipv6FragmentHeader::new_unchecked(&bytes[2..]).frag_offset() != 0
}
