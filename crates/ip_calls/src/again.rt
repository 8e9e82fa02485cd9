//! Packets that are parsed and emitted again, under a choice of checksums.

ghost use Rattle.std.specs.Prelude.{◌≡◌};

use crate::operands::Operands;
use ip_wire::{
    ChecksumCapabilities, Frame, IPV4_MAX_PAYLOAD_LEN, IpAddress, IpPacket, IpProtocol, IpRepr,
    Ipv4Packet, Ipv4PacketMut, Ipv4Repr, Transport,
};
use std::alloc::{AllocError, Global};

/// The bytes that are emitted: an IP header, a packet of UDP or TCP, or a frame. `err` if none is parsed.
pub fn answer(alloc: Global, operands: &mut Operands<'_>) -> Result<String, AllocError> {
    let format = operands.word();
    let (src, dst) = match format {
        "udp" | "tcp" => operands.addresses(),
        _ => (IpAddress::v4(0, 0, 0, 0), IpAddress::v4(0, 0, 0, 0)),
    };
    let (caps, old) = (operands.capabilities(), operands.number());
    let octets = operands.octets(alloc)?;
    let bytes = octets.as_slice();
    // No value is emitted to more bytes than it was parsed from.
    let mut out = vec![in alloc; old; bytes.len()]?;
    let room = out.as_mut_slice();
    let len = match format {
        "ipv4" => ipv4(bytes, room, &caps),
        "ip" => ip(bytes, room, &caps),
        "udp" => transport(
            &IpRepr::new(src, dst, IpProtocol::Udp, 0, 0),
            bytes,
            room,
            &caps,
        ),
        "tcp" => transport(
            &IpRepr::new(src, dst, IpProtocol::Tcp, 0, 0),
            bytes,
            room,
            &caps,
        ),
        "frame" => frame(bytes, room, &caps),
        _ => {
            operands.reject();
            None
        }
    };
    match len {
        Some(len) => {
            out.truncate(len);
            hex::encode(alloc, out.as_slice())
        }
        None => String::from_str(alloc, "err"),
    }
}

// Each of these emits what is parsed of one format to the front of `out`, and returns its length. `None` if the
// bytes do not parse.

fn ipv4(bytes: &[u8], out: &mut [u8], caps: &ChecksumCapabilities) -> Option<usize> {
    let header = Ipv4Repr::parse(&Ipv4Packet::new_unchecked(bytes), caps).ok()?;
    let len = header.buffer_len();
    if header.payload_len > IPV4_MAX_PAYLOAD_LEN || out.len() < len {
        return None;
    }
    header.emit(&mut Ipv4PacketMut::new_unchecked(out), caps);
    Some(len)
}

fn ip(bytes: &[u8], out: &mut [u8], caps: &ChecksumCapabilities) -> Option<usize> {
    let header = IpRepr::parse(&IpPacket::new_unchecked(bytes), caps).ok()?;
    let len = header.header_len();
    if header.payload_len() > header.max_payload_len() || out.len() < len {
        return None;
    }
    header.emit(out, caps);
    Some(len)
}

fn transport(
    header: &IpRepr,
    bytes: &[u8],
    out: &mut [u8],
    caps: &ChecksumCapabilities,
) -> Option<usize> {
    match Transport::parse(header, bytes, caps) {
        Ok(value) if value.fits() => value.try_emit(header, out, caps),
        _ => None,
    }
}

fn frame(bytes: &[u8], out: &mut [u8], caps: &ChecksumCapabilities) -> Option<usize> {
    match Frame::parse(bytes, caps) {
        Ok(frame) => frame.try_emit(out, caps),
        Err(_) => None,
    }
}
