//! The sender and the receiver of a frame.

ghost use Rattle.std.specs.Prelude.{◌≡◌, ◌≤◌, ◌+◌, ◌++◌};
ghost use Rattle.arrayvec.specs.ArrayString.{array_string_len};
ghost use Rattle.c_structs.specs.Addresses.{ip_of};
ghost use Rattle.c_read.specs.Summary.{end_text, ends_text, ethernet_text, has_ports, network_word, transport_of};

use super::line::{Line, push_number};
use c_structs::{Ethernet, FrameFields};
use ip_wire::IpAddress;
use wire_addr::{push_dashed, push_dotted, push_hex_byte, push_ipv6};

/// Appends the IP addresses with their ports, or the Ethernet addresses with the EtherType.
#[inline(always)]
pub(crate) fn push_ends(text: &mut Line, frame: &FrameFields)
    requires { array_string_len text.old + 102 ≤ 275 }
    ensures bytes { text.new.bytes ≡ text.old.bytes ++ ends_text frame.now (ip_of frame.now.src.addr) (ip_of frame.now.dst.addr) }
    ensures len { array_string_len text.new ≤ array_string_len text.old + 102 }
{
    match (frame.src.addr.ip(), frame.dst.addr.ip()) {
        (Some(src), Some(dst)) => {
            let ported = has_ports(transport_of(frame));
            push_network(text, frame.network);
            push_end(text, ported, &src, frame.src.port);
            text.push_str(" > ");
            push_end(text, ported, &dst, frame.dst.port);
        }
        _ => push_ethernet(text, &frame.ethernet),
    }
}

/// The number of the transport header that was read, or that was rejected and is stored.
pub(crate) fn transport_of(frame: &FrameFields) -> u8
    ensures { result ≡ transport_of frame.now }
{
    if frame.transport == 0 {
        frame.rejected
    } else {
        frame.transport
    }
}

fn has_ports(transport: u8) -> bool
    ensures { result ≡ has_ports transport }
{
    transport == 1 || transport == 2
}

#[inline(always)]
fn push_network(text: &mut Line, network: u8)
    requires { array_string_len text.old + 5 ≤ 275 }
    ensures bytes { text.new.bytes ≡ text.old.bytes ++ network_word network }
    ensures len { array_string_len text.new ≤ array_string_len text.old + 5 }
{
    match network {
        1 => text.push_str("ARP "),
        2 => text.push_str("IPv4 "),
        3 => text.push_str("IPv6 "),
        _ => (),
    }
}

// Not `IpEndpoint::text`: with a second caller it is no longer inlined into `lk_print_endpoint`.
fn push_end(text: &mut Line, ported: bool, addr: &IpAddress, port: u16)
    requires { array_string_len text.old + 47 ≤ 275 }
    ensures bytes { text.new.bytes ≡ text.old.bytes ++ end_text ported addr.now port }
    ensures len { array_string_len text.new ≤ array_string_len text.old + 47 }
{
    match addr {
        IpAddress::Ipv4(addr) => push_dotted(text, addr.octets()),
        IpAddress::Ipv6(addr) => {
            if ported {
                text.push_str("[");
            }
            push_ipv6(text, addr);
            if ported {
                text.push_str("]");
            }
        }
    }
    if ported {
        push_number(text, ":", port);
    }
}

fn push_ethernet(text: &mut Line, header: &Ethernet)
    requires { array_string_len text.old + 58 ≤ 275 }
    ensures bytes { text.new.bytes ≡ text.old.bytes ++ ethernet_text header.now }
    ensures len { array_string_len text.new ≤ array_string_len text.old + 58 }
{
    text.push_str("Ethernet ");
    push_dashed(text, header.src);
    text.push_str(" > ");
    push_dashed(text, header.dst);
    text.push_str(" type=0x");
    push_hex_byte(text, (header.ethertype / 256) as u8);
    push_hex_byte(text, (header.ethertype % 256) as u8);
}
