//! The UDP packet in a frame, over IPv4 or IPv6.

ghost use Rattle.std.specs.Prelude.{ℕ, ◌≡◌, IfSome, List, None};
ghost use Rattle.ip_wire.specs.Frame.{IsReadWhole, datagram, packet};
ghost use Rattle.ip_wire.specs.Types.{EthernetRepr, IpRepr, UdpRepr};

use ip_wire::{Carried, ChecksumCapabilities, Frame, IpRepr, Transport, UdpRepr};

/// The IP header, UDP header and payload. `None` unless it is a UDP packet with valid checksums.
pub fn udp_packet(bytes: &[u8]) -> Option<(IpRepr, UdpRepr, &[u8])>
    ensures some { IfSome result (λ (header, ports, payload). (link : EthernetRepr)
        × IsReadWhole bytes.now link (packet header (datagram ports payload.now))) }
    ensures none { result ≡ None → (link : EthernetRepr) (header : IpRepr) (ports : UdpRepr)
        (payload : List ℕ) → ¬ IsReadWhole bytes.now link (packet header (datagram ports payload)) }
{
    match Frame::parse(bytes, &ChecksumCapabilities::default()) {
        Ok(frame) => match frame.carried {
            Carried::Packet(header, inner) => match inner {
                Transport::Udp(ports, payload) => Some((header, ports, payload)),
                _ => None,
            },
            _ => None,
        },
        Err(_) => None,
    }
}
