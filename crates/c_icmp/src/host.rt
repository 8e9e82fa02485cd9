//! A host with one interface and no connections.

ghost use Rattle.std.specs.Prelude.{◌≡◌, ◌≤◌, IsSome, length, pos};
ghost use Rattle.app_host.specs.Host.{IsUnread, RepliesBytes};
ghost use Rattle.app_host.specs.IcmpEcho.{reply_dscp};
ghost use Rattle.c_icmp.specs.HostFields.{WritesAnswer, host_of, offer_of};
ghost use Rattle.c_icmp.specs.Interfaces.{WritesReply};
ghost use Rattle.c_structs.specs.Written.{max_len};

use crate::interfaces::{interface, returned};
use crate::types::HostFields;
use app_host::tcp_reply::Offer;
use app_host::{Host, try_answer};
use c_structs::{Failure, MAX_LEN, usable};
use ip_wire::TcpSeqNumber;

impl<'a> HostFields<'a> {
    /// Writes the answer of the host to a frame, and returns its length; 0 if there is none. Fails with
    /// `NoVersion` if the struct lacks an IPv4 or an IPv6 address, with `NoHeader` if the frame is longer than
    /// `MAX_LEN`, and with `NoRoom`.
    #[tactic(auto, using(crate::proofs::FrameReplies::rejected))]
    #[inline(always)]
    pub fn answer(&self, frame: &[u8], out: &mut [u8]) -> isize
        ensures answers { WritesAnswer (host_of self.now) frame.now out.old out.new result }
        ensures unread { IsSome (host_of self.now) → length frame.now ≤ max_len → IsUnread frame.now → result ≡ pos 0 }
    {
        match self.value() {
            Some(host) => {
                if frame.len() > MAX_LEN {
                    return Failure::NoHeader.code();
                }
                answer(&host, frame, out)
            }
            None => Failure::NoVersion.code(),
        }
    }

    // The host. `None` if `ipv4` is no IPv4 address, or `ipv6` no IPv6 address.
    #[inline(always)]
    fn value(&self) -> Option<Host<'a>>
        ensures { result ≡ host_of self.now }
    {
        let hardware = self.hardware;
        let interface = interface(&self.ipv4, &self.ipv6, hardware, self.is_router != 0)?;
        Some(Host {
            interface,
            echo_port: self.echo_port,
            open_udp_ports: self.open_udp_ports,
            open_ports: self.open_ports,
            offer: self.offer(),
        })
    }

    // What the open ports offer.
    #[inline(always)]
    fn offer(&self) -> Offer
        ensures { result ≡ offer_of self.now }
    {
        Offer {
            initial: TcpSeqNumber(self.seq_number.cast_signed()),
            window_len: self.window_len,
            max_seg_size: self.max_seg_size,
            window_scale: self.window_scale,
            clock: self.tsval,
        }
    }
}

// Writes the answer of a host to a frame, and returns its length; 0 if there is none. Fails with `NoRoom`.
#[inline(always)]
fn answer(host: &Host<'_>, frame: &[u8], out: &mut [u8]) -> isize
    ensures answers { WritesReply (reply_dscp frame.now) (RepliesBytes host.now frame.now) out.old out.new result }
    ensures unread { IsUnread frame.now → result ≡ pos 0 }
{
    let (front, _) = out.split_at_mut(usable(out.len()));
    match try_answer(host, frame, front) {
        Some(sent) => returned(sent),
        None => 0,
    }
}
