//! The reply to an ARP request for the IPv4 address of the interface (RFC 826).

ghost use Rattle.std.specs.Prelude.{◌≡◌, ◌↔◌, Some};
ghost use Rattle.app_host.specs.Arp.{ArpRepliesBytes, ArpRepliesFrame, IsArpReply};
ghost use Rattle.ip_wire.specs.Reply.{Gives, Sends, unmarked};
ghost use Rattle.ip_wire.specs.declared.ArpRepr.{ArpRepr};

use crate::interface::Interface;
use ip_wire::{
    ArpOperation, ArpRepr, Carried, ChecksumCapabilities, EthernetAddress, Frame, IpAddress,
    send_reply,
};

/// The reply to a request for the IPv4 address, sent to the host that asks. `None` for any other frame,
/// if the hardware address of the sender is not unicast, and if its IPv4 address is neither a valid source nor 0.0.0.0.
#[inline(always)]
pub fn reply<'a>(request: &Frame<'_>, ours: &Interface) -> Option<Frame<'a>>
    ensures { Gives (ArpRepliesFrame ours.now request.now) result }
{
    match &request.carried {
        Carried::Arp(message) => match reply_to(message, ours) {
            Some((asker, reply)) => Some(Frame::arp(ours.hardware_addr, asker, reply)),
            None => None,
        },
        _ => None,
    }
}

// The reply to a message, and the Ethernet address of the host that asks.
#[inline(always)]
fn reply_to(message: &ArpRepr, ours: &Interface) -> Option<(EthernetAddress, ArpRepr)>
    ensures { (asker : EthernetAddress) (reply : ArpRepr) → (result ≡ Some (asker, reply)) ↔ IsArpReply ours.now message.now asker reply }
{
    match *message {
        ArpRepr::EthernetIpv4 {
            operation: ArpOperation::Request,
            source_hardware_addr,
            source_protocol_addr,
            target_protocol_addr,
            ..
        } if ours.has_addr(&IpAddress::Ipv4(target_protocol_addr))
            && ours.may_ask(&source_hardware_addr, &source_protocol_addr) => {
            let reply = ArpRepr::EthernetIpv4 {
                operation: ArpOperation::Reply,
                source_hardware_addr: ours.hardware_addr,
                source_protocol_addr: ours.ipv4_addr,
                target_hardware_addr: source_hardware_addr,
                target_protocol_addr: source_protocol_addr,
            };
            Some((source_hardware_addr, reply))
        }
        _ => None,
    }
}

/// Writes the reply to a frame to the front of `out`, and returns its length. `None` if there is no
/// reply or it does not fit; then `out` is unchanged.
pub fn answer(bytes: &[u8], ours: &Interface, out: &mut [u8]) -> Option<usize>
    ensures { Sends unmarked (ArpRepliesBytes ours.now bytes.now) out.old out.new result }
{
    match Frame::parse(bytes, &ChecksumCapabilities::default()) {
        Ok(request) => send_reply(&reply(&request, ours), out),
        Err(_) => None,
    }
}
