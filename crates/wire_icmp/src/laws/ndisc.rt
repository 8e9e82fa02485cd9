//! Laws of neighbour discovery messages. A law states a fact about definitions.

ghost use Rattle.std.specs.Prelude.{◌≡◌, ◌↔◌, ◌≤◌, IsTrue, Some, length};
ghost use Rattle.wire_icmp.specs.Ndisc.{IsAllowed, Reads, bytes_of, ndisc_of};

use crate::ndisc::NdiscRepr;
use wire_addr::Ipv6Address;

/// The emitted message parses as the same value, with the hop limit 255, if it is valid between its
/// addresses. A checksum that is verified must have been computed.
pub fn emit_reads_back_ndisc(
    value: NdiscRepr,
    src_addr: Ipv6Address,
    dst_addr: Ipv6Address,
    computed: bool,
    verified: bool,
)
    requires allowed { IsAllowed value src_addr dst_addr }
    requires checksum { IsTrue verified → IsTrue computed }
    ensures { Reads (bytes_of value src_addr dst_addr computed) src_addr dst_addr 255 verified value }
{}

/// Bytes parse as at most one value.
pub fn reads_once_ndisc(
    bytes: &[u8],
    src_addr: Ipv6Address,
    dst_addr: Ipv6Address,
    hop_limit: u8,
    verified: bool,
    value: NdiscRepr,
    other: NdiscRepr,
)
    requires value { Reads bytes.now src_addr dst_addr hop_limit verified value }
    requires other { Reads bytes.now src_addr dst_addr hop_limit verified other }
    ensures { value ≡ other }
{}

/// `ndisc_of` computes the value that the bytes parse as, if there is one.
pub fn reading_is_computed_ndisc(
    bytes: &[u8],
    src_addr: Ipv6Address,
    dst_addr: Ipv6Address,
    hop_limit: u8,
    verified: bool,
    value: NdiscRepr,
)
    ensures { (ndisc_of src_addr dst_addr hop_limit verified bytes.now ≡ Some value) ↔ Reads bytes.now src_addr dst_addr hop_limit verified value }
{}

/// The emitted message is never longer than the bytes that were parsed.
pub fn no_more_bytes_ndisc(
    bytes: &[u8],
    src_addr: Ipv6Address,
    dst_addr: Ipv6Address,
    hop_limit: u8,
    verified: bool,
    computed: bool,
    value: NdiscRepr,
)
    requires { Reads bytes.now src_addr dst_addr hop_limit verified value }
    ensures { length (bytes_of value src_addr dst_addr computed) ≤ length bytes.now }
{}
