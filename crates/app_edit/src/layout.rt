//! Where the payload of an IP packet is.

ghost use Rattle.std.specs.Prelude.{◌≡◌, ◌≤◌, length};
ghost use Rattle.app_edit.specs.Layout.{layout_of};

use ip_wire::{IPV6_HEADER_LEN, IpVersion, Ipv4Packet, Ipv6Packet};

/// Where the payload of an IP packet is. Both places count from the first byte of the packet.
#[derive(Debug, Clone, Copy, PartialEq, Eq)]
pub struct Layout {
    /// The end of the header. IPv6 extension headers are part of the payload.
    pub start: usize,
    /// The end of the packet. Later bytes are padding.
    pub end: usize,
}

impl Layout {
    /// The layout of a packet of this version, by the lengths in its header. They are not checked.
    #[inline(always)]
    pub fn of(version: IpVersion, packet: &[u8]) -> Layout
        requires { 6 ≤ length packet.now }
        ensures { result ≡ layout_of version packet.now }
    {
        match version {
            IpVersion::Ipv4 => {
                let packet = Ipv4Packet::new_unchecked(packet);
                Layout {
                    start: usize::from(packet.header_len()),
                    end: usize::from(packet.total_len()),
                }
            }
            IpVersion::Ipv6 => Layout {
                start: IPV6_HEADER_LEN,
                end: Ipv6Packet::new_unchecked(packet).total_len(),
            },
        }
    }
}
