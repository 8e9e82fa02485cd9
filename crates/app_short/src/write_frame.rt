//! A frame with a UDP packet, over IPv4 or IPv6.

ghost use Rattle.std.specs.Prelude.{◌≡◌, ◌≤◌, ◌↔◌, ◌++◌, IfSome, IsSome, None, drop, length};
ghost use Rattle.ip_wire.specs.Frame.{all_checked};
ghost use Rattle.ip_wire.specs.FrameValue.{Agrees, Fits, ReadsNormalOf, frame_around, frame_bytes, frame_len};
ghost use Rattle.ip_wire.specs.declared.Transport.TheVariants as transport;

use ip_wire::{ChecksumCapabilities, EthernetAddress, Frame, IpRepr, UdpRepr, laws};

/// Writes the frame to the front of `buffer` with its checksums, and returns its length. `None` if it
/// does not fit, if the payload is too long, or if the destination port is 0.
pub fn write_udp(
    buffer: &mut [u8],
    src_addr: EthernetAddress,
    dst_addr: EthernetAddress,
    header: IpRepr,
    ports: UdpRepr,
    payload: &[u8],
) -> Option<usize>
    ensures bytes { let frame = frame_around src_addr dst_addr header (transport.Udp ports payload.entry) in
        IfSome result (λ len. (len ≡ frame_len frame) × (buffer.new ≡ frame_bytes all_checked frame ++ drop len buffer.old)) }
    ensures reads_back { let frame = frame_around src_addr dst_addr header (transport.Udp ports payload.entry) in
        IfSome result (λ len. ReadsNormalOf all_checked buffer.new frame) }
    ensures fits { let frame = frame_around src_addr dst_addr header (transport.Udp ports payload.entry) in
        IsSome result ↔ (Agrees frame × Fits frame × (frame_len frame ≤ length buffer.old)) }
    ensures stays { result ≡ None → buffer.new ≡ buffer.old }
{
    match Frame::udp(src_addr, dst_addr, header, ports, payload) {
        Ok(frame) => {
            let len = frame.try_emit(buffer, &ChecksumCapabilities::default())?;
            laws::frame_reads_back(
                &frame,
                &buffer[len..],
                ChecksumCapabilities::default(),
                ChecksumCapabilities::default(),
            );
            Some(len)
        }
        Err(_) => None,
    }
}
