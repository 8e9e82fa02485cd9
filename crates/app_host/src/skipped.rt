//! The extension headers of IPv6 packets that a host skips (RFC 8200, section 4).

ghost use Rattle.std.specs.Prelude.{◌≡◌, ◌≤◌, IfSome, length};
ghost use Rattle.app_host.specs.Skipped.{is_passed, is_solicitation, past, skipped};

use crate::ipv6_fault::first_fault;
use ip_wire::{IpProtocol, Ipv6Repr};
use wire_extensions::{Chain, is_extension};

const ICMPV6: u8 = 58;

// The ICMPv6 type of a neighbour solicitation.
const SOLICITATION: u8 = 135;

/// The header and the payload of a packet without the extension headers that a host skips.
#[inline(always)]
pub(crate) fn without_extensions(header: Ipv6Repr, payload: &[u8]) -> (Ipv6Repr, &[u8])
    requires { length payload.now ≤ 65535 }
    ensures { (result.0, result.1.now) ≡ past header payload.now }
{
    let number = header.next_header.number();
    if !is_extension(number) {
        return (header, payload);
    }
    match skipped(number, payload) {
        Some(chain) => {
            let message = &payload[chain.len..];
            let header = Ipv6Repr {
                next_header: IpProtocol::from(chain.protocol),
                payload_len: message.len(),
                ..header
            };
            (header, message)
        }
        None => (header, payload),
    }
}

// The extension headers that a host skips in a packet with this next header and payload. `None` if there are none, if
// one of them has a fault, after which the packet is discarded, or if one is the header of a fragment. A neighbour
// solicitation after extension headers is ignored.
#[inline(never)]
fn skipped(next_header: u8, payload: &[u8]) -> Option<Chain>
    requires { length payload.now ≤ 65535 }
    ensures value { result ≡ skipped next_header payload.now }
    ensures within { IfSome result (λ chain. chain.len ≤ length payload.now) }
{
    if !is_extension(next_header) {
        return None;
    }
    match first_fault(next_header, payload) {
        Some(_) => None,
        None => {
            let chain = Chain::of(next_header, payload.len(), payload);
            if is_passed(&chain, payload) {
                Some(chain)
            } else {
                None
            }
        }
    }
}

// Whether a host skips the extension headers of a chain in this payload.
fn is_passed(chain: &Chain, payload: &[u8]) -> bool
    requires { chain.now.len ≤ length payload.now }
    ensures { result ≡ is_passed chain.now payload.now }
{
    chain.fault.is_none()
        && !chain.ends_at_part()
        && !is_solicitation(chain.protocol, &payload[chain.len..])
}

// Whether a message of this protocol is a neighbour solicitation.
fn is_solicitation(protocol: u8, message: &[u8]) -> bool
    ensures { result ≡ is_solicitation protocol message.now }
{
    protocol == ICMPV6 && message.first() == Some(&SOLICITATION)
}
