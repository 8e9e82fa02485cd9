//! What a frame, a packet and a segment carry, by two calls.

ghost use Rattle.std.specs.Prelude.{◌≡◌};

use ip_wire::{
    Carried, ChecksumCapabilities, EthernetProtocol, IpRepr, TCP_MAX_HEADER_LEN, Transport,
    UDP_MAX_PAYLOAD_LEN,
};

/// A lenient parse reads every header exactly if `parse` returns `Ok`.
pub fn carried_by_parse(
    ethertype: EthernetProtocol,
    bytes: &[u8],
    caps: &ChecksumCapabilities,
) -> (bool, bool)
    ensures { result.0 ≡ result.1 }
{
    let is_read = Carried::read(ethertype, bytes, caps).is_read();
    (is_read, Carried::parse(ethertype, bytes, caps).is_ok())
}

/// A lenient parse reads the transport header exactly if `parse` returns `Ok`.
pub fn transport_by_parse(
    header: &IpRepr,
    bytes: &[u8],
    caps: &ChecksumCapabilities,
) -> (bool, bool)
    ensures { result.0 ≡ result.1 }
{
    let is_read = Transport::read(header, bytes, caps).is_read();
    (is_read, Transport::parse(header, bytes, caps).is_ok())
}

/// A transport fits exactly if its payload or its header is no longer than the constant says.
pub fn fits_by_len(transport: &Transport<'_>) -> (bool, bool)
    ensures { result.0 ≡ result.1 }
{
    let is_short = match transport {
        Transport::Udp(_, payload) => payload.len() <= UDP_MAX_PAYLOAD_LEN,
        Transport::Tcp(value) => value.header_len() <= TCP_MAX_HEADER_LEN,
        _ => true,
    };
    (transport.fits(), is_short)
}
