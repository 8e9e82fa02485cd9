//! Laws of the stored values. Most bodies are empty: the law follows from the definitions.

ghost use Rattle.std.specs.Prelude.{◌≡◌, ◌↔◌, ◌≢◌, ◌≤◌, ◌<◌, List, None, Some, drop, false, length, true, ℕ};
ghost use Rattle.ip_wire.specs.Ethernet as ethernet;
ghost use Rattle.ip_wire.specs.Frame.{Carried, ReadsFrame, Transport, datagram, packet, segment, type_of};
ghost use Rattle.ip_wire.specs.Ip.{ReadsHeader};
ghost use Rattle.ip_wire.specs.Ipv4 as ipv4;
ghost use Rattle.ip_wire.specs.declared.EthernetProtocol.TheVariants as ethertype;
ghost use Rattle.ip_wire.specs.TcpRepr.{TcpHeader};
ghost use Rattle.ip_wire.specs.Types.{EthernetRepr, IpRepr, Ipv4Repr, UdpRepr};
ghost use Rattle.ip_wire.specs.Field.{field};
ghost use Rattle.wire_link.specs.Link.{is_tag};
ghost use Rattle.c_read.specs.FrameFields.{fields_of};
ghost use Rattle.wire_extensions.specs.Chain.{IsThrough, LeadsTo, chain_of};
ghost use Rattle.c_read.specs.Summary.{tcp_line, udp_line, with_verdicts};
ghost use Rattle.c_structs.specs.Written.{Prints};
ghost use Rattle.c_read.specs.Stored.{HasNoExtension, HasVerdicts, IsTypeOf, StepsFrame, Stores, StoresFragment, StoresRejected, StoresUnread, in_frame, unchecked};

mod messages;

use crate::captured::read_captured;
use crate::frame_fields::{read_frame, read_packet};
use crate::links::read_linked;
use crate::summary::print_frame;
use c_structs::FrameFields;
use ip_wire::{ChecksumCapabilities, ETHERNET_HEADER_LEN};
pub use messages::{messages_are_stored, only_messages_have_icmp, other_frames_have_no_icmp};

// The number of the link type of Ethernet (www.tcpdump.org/linktypes.html).
const LINKTYPE_ETHERNET: u32 = 1;

/// The struct of a frame that is parsed whole stores each value of its headers under the name of the
/// value, and locates the innermost payload. The verified checksums are valid exactly if their fields
/// say that they are right, or for UDP that the sender left them out.
pub fn fields_are_parsed(frame: &[u8], caps: ChecksumCapabilities)
    ensures stores { (v : EthernetRepr) (w : Carried) → StepsFrame unchecked frame.now v w → Stores (fields_of frame.now) frame.now v w }
    ensures verdicts { (v : EthernetRepr) (w : Carried) → StepsFrame unchecked frame.now v w
        → (StepsFrame caps frame.now v w) ↔ (HasVerdicts caps (fields_of frame.now)) }
    ensures only { (fields_of frame.now).reason ≡ 0 → (fields_of frame.now).network ≢ 0 → (fields_of frame.now).is_fragment ≡ 0
        → (v : EthernetRepr) × (w : Carried) × StepsFrame unchecked frame.now v w }
{}

/// IPv6 extension headers that are stepped through lead to the protocol and the bytes at which the struct goes on. A frame
/// without extension headers is parsed as it is.
pub fn extensions_are_stepped(
    payload: &[u8],
    protocol: u8,
    frame: &[u8],
    caps: ChecksumCapabilities,
)
    ensures leads { let c = chain_of protocol (length payload.now) payload.now in IsThrough c → LeadsTo c.protocol (drop c.len payload.now) true protocol payload.now }
    ensures plain { (v : EthernetRepr) (w : IpRepr) (t : Transport) → ReadsFrame caps frame.now v (packet w t) → HasNoExtension w
        → StepsFrame caps frame.now v (packet w t) }
{}

/// At a fragment of IPv4, at a rejected header and at an unknown EtherType the struct stores the values
/// of the headers before it, and locates what follows them. It stores the ports and the values of a
/// rejected UDP or TCP header too, unless this is too short, and the first test that fails.
pub fn fields_before_are_parsed(frame: &[u8])
    ensures fragment { (v : EthernetRepr) (w : Ipv4Repr) → ethernet.Reads frame.now v → v.ethertype ≡ ethertype.Ipv4
        → ipv4.Reads (drop 14 frame.now) false w → ipv4.is_fragment (drop 14 frame.now) ≡ true → StoresFragment (fields_of frame.now) frame.now v w }
    ensures rejected { (v : EthernetRepr) (w : IpRepr) → ethernet.Reads frame.now v → v.ethertype ≡ type_of w
        → ReadsHeader (drop 14 frame.now) false w → (fields_of frame.now).reason ≢ 0 → StoresRejected (fields_of frame.now) frame.now v w }
    ensures unread { (v : EthernetRepr) → ethernet.Reads frame.now v → (fields_of frame.now).network ≡ 0
        → StoresUnread (fields_of frame.now) frame.now v }
{}

/// `transport` names no header where one is rejected, and `rejected` none where none is.
pub fn rejected_is_no_transport(frame: &[u8])
    ensures rejected { (fields_of frame.now).reason ≢ 0 → (fields_of frame.now).transport ≡ 0 }
    ensures parsed { (fields_of frame.now).reason ≡ 0 → (fields_of frame.now).rejected ≡ 0 }
{}

/// The struct of a packet in a frame is that of the packet by itself, with the values of the Ethernet header, and
/// with each offset 14 more.
pub fn frame_has_packet(frame: &[u8], whole: &mut FrameFields, packet: &mut FrameFields)
    requires { 14 ≤ length frame.now }
    ensures { (v : EthernetRepr) → ethernet.Reads frame.now v → IsTypeOf v.ethertype (drop 14 frame.now) → whole.new ≡ in_frame v packet.new }
{
    read_frame(whole, frame);
    read_packet(packet, &frame[ETHERNET_HEADER_LEN..]);
}

/// A frame without VLAN tags of which a part was captured, read by the link type of Ethernet, is stored as by itself.
pub fn untagged_is_captured(
    captured: &[u8],
    len: usize,
    linked: &mut FrameFields,
    frame: &mut FrameFields,
)
    requires part { length captured.now < len }
    ensures { is_tag (field captured.now 96 16) ≡ false → linked.new ≡ frame.new }
{
    read_linked(linked, LINKTYPE_ETHERNET, captured, len);
    read_captured(frame, captured, len);
}

/// A whole frame without VLAN tags, read by the link type of Ethernet, is stored as by itself.
pub fn untagged_is_read(bytes: &[u8], linked: &mut FrameFields, frame: &mut FrameFields)
    ensures { is_tag (field bytes.now 96 16) ≡ false → linked.new ≡ frame.new }
{
    read_linked(linked, LINKTYPE_ETHERNET, bytes, bytes.len());
    read_frame(frame, bytes);
}

/// The line of a frame with a UDP packet or a TCP segment has the addresses, the ports and the length of the payload that
/// the frame parses as.
pub fn line_is_parsed(frame: &[u8], fields: &mut FrameFields, out: &mut [u8]) -> isize
    ensures udp { (v : EthernetRepr) (ip : IpRepr) (ports : UdpRepr) (payload : List ℕ) → StepsFrame unchecked frame.now v (packet ip (datagram ports payload))
        → Prints (Some (with_verdicts (udp_line ip ports (length payload)) fields.new)) None out.old out.new result }
    ensures tcp { (v : EthernetRepr) (ip : IpRepr) (header : TcpHeader) (payload : List ℕ) → StepsFrame unchecked frame.now v (packet ip (segment header payload))
        → Prints (Some (with_verdicts (tcp_line ip header fields.new.tcp (length payload)) fields.new)) None out.old out.new result }
{
    read_frame(fields, frame);
    print_frame(fields, fields.icmp.msg_type, fields.icmp.code, out)
}
