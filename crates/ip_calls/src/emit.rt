//! Emission of headers and of UDP packets, and sums of bytes.

use crate::operands::Operands;
use ip_wire::{
    IpRepr, Ipv6FragmentHeaderMut, Ipv6FragmentRepr, UDP_HEADER_LEN, UDP_MAX_PAYLOAD_LEN,
    UdpPacketMut, UdpRepr, checksum,
};
use std::alloc::{AllocError, Global};

/// The bytes of a UDP packet.
pub fn udp(alloc: Global, operands: &mut Operands<'_>) -> Result<String, AllocError> {
    let (src_addr, dst_addr) = operands.addresses();
    let header = UdpRepr {
        src_port: operands.number(),
        dst_port: operands.number(),
    };
    let payload = operands.octets(alloc)?;
    let (caps, old) = (operands.computed(), operands.number());
    if payload.len() > UDP_MAX_PAYLOAD_LEN {
        operands.reject();
        return Ok(String::new(alloc));
    }
    let mut out = vec![in alloc; old; UDP_HEADER_LEN + payload.len()]?;
    header.emit(
        &mut UdpPacketMut::new_unchecked(out.as_mut_slice()),
        &src_addr,
        &dst_addr,
        payload.as_slice(),
        &caps,
    );
    hex::encode(alloc, out.as_slice())
}

/// The bytes of an IP header.
pub fn header(alloc: Global, operands: &mut Operands<'_>) -> Result<String, AllocError> {
    let (src_addr, dst_addr) = operands.addresses();
    let protocol = operands.number::<u8>().into();
    let (payload_len, hop_limit) = (operands.number(), operands.number());
    let header = IpRepr::new(src_addr, dst_addr, protocol, payload_len, hop_limit);
    let (caps, old) = (operands.computed(), operands.number());
    if header.payload_len() > header.max_payload_len() {
        operands.reject();
        return Ok(String::new(alloc));
    }
    let mut out = vec![in alloc; old; header.header_len()]?;
    header.emit(out.as_mut_slice(), &caps);
    hex::encode(alloc, out.as_slice())
}

/// The bytes of a fragment header of IPv6.
pub fn fragment(alloc: Global, operands: &mut Operands<'_>) -> Result<String, AllocError> {
    let header = Ipv6FragmentRepr {
        frag_offset: operands.number(),
        more_frags: operands.flag(),
        ident: operands.number(),
    };
    let mut out = vec![in alloc; operands.number(); header.buffer_len()]?;
    header.emit(&mut Ipv6FragmentHeaderMut::new_unchecked(out.as_mut_slice()));
    hex::encode(alloc, out.as_slice())
}

/// The sum of bytes.
pub fn sum(alloc: Global, operands: &mut Operands<'_>) -> Result<String, AllocError> {
    let sum = checksum::data(operands.octets(alloc)?.as_slice());
    format!(in alloc; "{sum}")
}
