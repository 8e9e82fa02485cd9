//! ARP packets.

ghost use Rattle.std.specs.Prelude.{◌≡◌};
ghost use Rattle.c_write.specs.Headers.{arp_bytes, arp_value};
ghost use Rattle.c_structs.specs.Written.{Fills};

use c_structs::{Addr, Arp};
use ip_wire::{ArpOperation, ArpRepr, EthernetAddress};

/// The values of a packet between two addresses. `None` if they are no IPv4 addresses.
#[inline(always)]
pub fn arp_value(header: &Arp, src: &Addr, dst: &Addr) -> Option<ArpRepr>
    ensures { result ≡ arp_value header.now src.now dst.now }
{
    match (src.version, dst.version) {
        (4, 4) => Some(ArpRepr::EthernetIpv4 {
            operation: ArpOperation::Unknown(header.operation),
            source_hardware_addr: EthernetAddress(header.src_hardware),
            source_protocol_addr: src.ipv4(),
            target_hardware_addr: EthernetAddress(header.dst_hardware),
            target_protocol_addr: dst.ipv4(),
        }),
        _ => None,
    }
}

/// Writes a packet between two addresses to the front of `out` and returns its length. `None` if it
/// does not fit, or as for `arp_value`.
#[inline(always)]
pub fn emit_arp(header: &Arp, src: &Addr, dst: &Addr, out: &mut [u8]) -> Option<usize>
    ensures { Fills (arp_bytes header.now src.now dst.now) out.old out.new result }
{
    arp_value(header, src, dst)?.try_emit(out)
}
