//! The addresses of an interface, and replies that are written.

ghost use Rattle.std.specs.Prelude.{◌≡◌, ◌<◌, ◌≤◌, ◌^◌, IfSome, None, length, pos};
ghost use Rattle.std.specs.Option.{option_map_or};
ghost use Rattle.app_host.specs.Message.{IsSendable, IsSent};
ghost use Rattle.c_icmp.specs.Interfaces.{HasMessage, WritesReply, interface_of};
ghost use Rattle.c_structs.specs.Written.{failure_code, max_len};
ghost use Rattle.c_structs.specs.declared.failures.Failure.TheVariants.{NoRoom};

use app_host::{Interface, MessageFrame};
use c_structs::{Addr, Failure, MAX_LEN};
use ip_wire::{EthernetAddress, IpAddress};

/// The interface with these addresses. `None` if the first is no IPv4 address, or the second no IPv6 address.
#[inline(always)]
pub(crate) fn interface(
    first: &Addr,
    second: &Addr,
    hardware: [u8; 6],
    is_router: bool,
) -> Option<Interface>
    ensures { result ≡ interface_of first.now second.now hardware is_router }
{
    // With known versions the compiler makes no address that may be of either.
    if first.version != 4 || second.version != 6 {
        return None;
    }
    let ipv4 = first.ip()?;
    let ipv6 = second.ip()?;
    match (&ipv4, &ipv6) {
        (IpAddress::Ipv4(ipv4_addr), IpAddress::Ipv6(ipv6_addr)) => Some(Interface {
            hardware_addr: EthernetAddress(hardware),
            ipv4_addr: *ipv4_addr,
            ipv6_addr: *ipv6_addr,
            is_router,
        }),
        _ => None,
    }
}

/// Writes a frame with a message, and returns its length. Fails with `NoRoom`.
pub(crate) fn write_message(frame: &MessageFrame<'_>, out: &mut [u8]) -> isize
    requires { IsSendable frame.now }
    ensures { WritesReply (λ carried. frame.now.dscp) (HasMessage frame.now) out.old out.new result }
{
    returned(send_message(frame, out))
}

// As `send`, if the slice is no longer than `MAX_LEN`.
fn send_message(frame: &MessageFrame<'_>, out: &mut [u8]) -> Option<usize>
    requires { IsSendable frame.now }
    ensures beyond { max_len < length out.old → (result ≡ None) × (out.new ≡ out.old) }
    ensures within { length out.old ≤ max_len → IsSent frame.now out.old out.new result }
    ensures fits { IfSome result (λ n. n ≤ max_len) }
{
    if out.len() > MAX_LEN {
        return None;
    }
    frame.send(out)
}

/// The length of what was sent, or that there was no room.
#[inline(always)]
pub(crate) fn returned(len: Option<usize>) -> isize
    requires { IfSome len (λ n. n < 2 ^ 63) }
    ensures { result ≡ option_map_or pos len (failure_code NoRoom) }
{
    match len {
        Some(len) => len as isize,
        None => Failure::NoRoom.code(),
    }
}
