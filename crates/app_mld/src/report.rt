//! The report of a group.

ghost use Rattle.std.specs.Prelude.{◌≡◌, IfSome, length};
ghost use Rattle.app_host.specs.Neighbour.{group_hardware};
ghost use Rattle.app_mld.specs.Mld.{report_bytes, report_ip, report_link, report_message, report_payload, report_values};
ghost use Rattle.ip_wire.specs.Filled.{Fills};
ghost use Rattle.ip_wire.specs.Frame.{IsReadWhole};
ghost use Rattle.ip_wire.specs.declared.IpAddress.TheVariants.{Ipv6};
ghost use Rattle.wire_icmp.specs.Icmp.{Verifies};

use ip_wire::{
    Carried, ChecksumCapabilities, EthernetAddress, EthernetProtocol, EthernetRepr, Frame,
    IpAddress, IpProtocol, IpRepr, Ipv6Address, Ipv6Repr, Transport, send,
};
use wire_icmp::{IcmpHeader, IcmpPacketMut};

/// The length of the frame of a report in bytes: an Ethernet header, an IPv6 header, hop-by-hop options and the message.
pub const REPORT_LEN: usize = 86;

// The lengths of the hop-by-hop options and of the message in bytes.
const OPTIONS_LEN: usize = 8;

const MESSAGE_LEN: usize = 24;

const PAYLOAD_LEN: usize = OPTIONS_LEN + MESSAGE_LEN;

// The ICMPv6 type of a report.
const REPORT: u8 = 131;

// Hop-by-hop options before ICMPv6: the router alert for MLD, and PadN (RFC 2711, section 2.1).
const ROUTER_ALERT: [u8; OPTIONS_LEN] = [58, 0, 5, 2, 0, 0, 1, 0];

/// Writes the frame of a report to the front of `out`, and returns its length. Returns `None` and writes nothing if it
/// does not fit. The source is a link-local address, or `::` if the interface has none (RFC 3590, section 4).
pub fn emit_report(
    hardware: EthernetAddress,
    src: Ipv6Address,
    group: Ipv6Address,
    out: &mut [u8],
) -> Option<usize>
    ensures bytes { Fills (report_bytes hardware src group) REPORT_LEN out.old out.new result }
    ensures len { length (report_bytes hardware src group) ≡ REPORT_LEN }
    ensures checksum { Verifies (Ipv6 src) (Ipv6 group) (report_message src group) }
    ensures reads { IfSome result (λ len. IsReadWhole out.new (report_link hardware group) (report_values src group)) }
{
    let payload = report_payload(&src, &group);
    let frame = Frame {
        header: report_link(hardware, &group),
        carried: Carried::Packet(
            IpRepr::Ipv6(report_ip(src, group)),
            Transport::Other(&payload),
        ),
    };
    send(&frame, out)
}

// The Ethernet header.
fn report_link(hardware: EthernetAddress, group: &Ipv6Address) -> EthernetRepr
    ensures { result ≡ report_link hardware group.now }
{
    EthernetRepr {
        src_addr: hardware,
        dst_addr: group_hardware(group),
        ethertype: EthernetProtocol::Ipv6,
    }
}

// The Ethernet address of a group (RFC 2464, section 7).
fn group_hardware(group: &Ipv6Address) -> EthernetAddress
    ensures { result.0 ≡ group_hardware group.now }
{
    let mut octets = [0x33; 6];
    octets[2..].copy_from_slice(&group.octets()[12..]);
    EthernetAddress(octets)
}

// The IPv6 header.
fn report_ip(src: Ipv6Address, group: Ipv6Address) -> Ipv6Repr
    ensures { result ≡ report_ip src group }
{
    Ipv6Repr {
        src_addr: src,
        dst_addr: group,
        next_header: IpProtocol::HopByHop,
        payload_len: PAYLOAD_LEN,
        hop_limit: 1,
    }
}

// What follows the IPv6 header.
fn report_payload(src: &Ipv6Address, group: &Ipv6Address) -> [u8; PAYLOAD_LEN]
    ensures { result ≡ report_payload src.now group.now }
{
    let mut payload = [0; PAYLOAD_LEN];
    let (options, message) = payload.split_at_mut(OPTIONS_LEN);
    options.copy_from_slice(&ROUTER_ALERT);
    emit_message(src, group, message);
    payload
}

// Writes the message.
fn emit_message(src: &Ipv6Address, group: &Ipv6Address, out: &mut [u8])
    requires { MESSAGE_LEN ≡ length out.old }
    ensures { out.new ≡ report_message src.now group.now }
{
    let header = IcmpHeader {
        msg_type: REPORT,
        msg_code: 0,
        word: 0,
    };
    let (src_addr, dst_addr) = (IpAddress::Ipv6(*src), IpAddress::Ipv6(*group));
    let caps = ChecksumCapabilities::default();
    let mut packet = IcmpPacketMut::new_unchecked(out);
    header.emit(&mut packet, &src_addr, &dst_addr, &group.octets(), &caps);
}
