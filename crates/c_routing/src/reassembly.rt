//! Packets that are put together from the fragments in frames.

ghost use Rattle.std.specs.Prelude.{◌≡◌, ◌<◌, ◌≤◌, length};
ghost use Rattle.c_routing.specs.Reassembled.{ExpiresFrame, ReassemblesFrame, ReassemblesPacket, carries_ip};
ghost use Rattle.c_structs.specs.Written.{max_len, within};
ghost use Rattle.app_fragment.specs.Partials.{table};

use crate::lengths::in_bounds;
use app_fragment::{Partial, Reassembled, expire, reassemble};
use c_structs::{Failure, usable, within};
use ip_wire::{ETHERNET_HEADER_LEN, EthernetFrame, EthernetProtocol, EthernetRepr, IpVersion};

/// Takes the fragment in a frame. `out` is needed only if the packet is complete. Returns the length of the frame with its
/// packet if that is complete, 0 if a part of it is missing, or a failure.
pub fn reassemble_frame(
    partials: &mut [Partial],
    memory: &mut [u8],
    now: u64,
    frame: &[u8],
    out: &mut [u8],
) -> isize
    ensures reassembles { ReassemblesFrame (table partials.old memory.old) (table partials.new memory.new) now (within frame.now) out.old out.new result }
    ensures partials_beyond { max_len < length partials.old → partials.new ≡ partials.old }
    ensures memory_beyond { max_len < length memory.old → memory.new ≡ memory.old }
    ensures out_beyond { max_len < length out.old → out.new ≡ out.old }
{
    let frame = within(frame);
    if !carries_ip(frame) {
        return Failure::NoHeader.code();
    }
    let count = usable(partials.len());
    let len = usable(memory.len());
    let cap = usable(out.len());
    reassemble_packet(
        &mut partials[..count],
        &mut memory[..len],
        now,
        frame,
        &mut out[..cap],
    )
}

// Whether a frame carries an IP packet of the version that its EtherType says.
#[tactic(auto, unfolding(crate::specs::Reassembled::carries_ip))]
fn carries_ip(frame: &[u8]) -> bool
    ensures { result ≡ carries_ip frame.now }
{
    let Ok(link) = EthernetRepr::parse(&EthernetFrame::new_unchecked(frame)) else {
        return false;
    };
    let (_, packet) = frame.split_at(ETHERNET_HEADER_LEN);
    match IpVersion::of_packet(packet) {
        Ok(IpVersion::Ipv4) => link.ethertype == EthernetProtocol::Ipv4,
        Ok(IpVersion::Ipv6) => link.ethertype == EthernetProtocol::Ipv6,
        Err(_) => false,
    }
}

// Takes the packet of a frame.
fn reassemble_packet(
    partials: &mut [Partial],
    memory: &mut [u8],
    now: u64,
    frame: &[u8],
    out: &mut [u8],
) -> isize
    requires header { 14 ≤ length frame.now }
    requires room { length out.old ≤ max_len }
    ensures { ReassemblesPacket (table partials.old memory.old) (table partials.new memory.new) now frame.now out.old out.new result }
{
    let (link, packet) = frame.split_at(ETHERNET_HEADER_LEN);
    // Without room for a header there is none for a packet, so that no packet is written to `rest`.
    let (front, rest) = out.split_at_mut(ETHERNET_HEADER_LEN.min(out.len()));
    match reassemble(partials, memory, now, link, packet, rest) {
        Reassembled::Whole(len) => {
            front.copy_from_slice(link);
            (ETHERNET_HEADER_LEN + len) as isize
        }
        Reassembled::Incomplete => 0,
        Reassembled::Rejected => Failure::NoHeader.code(),
        Reassembled::TooLong => Failure::PayloadTooLong.code(),
        Reassembled::Dropped => Failure::Dropped.code(),
        Reassembled::NoRoom => Failure::NoRoom.code(),
    }
}

/// Ends packets whose time is over, up to one whose first fragment was received. Writes the frame with it, and returns its
/// length; 0 if there is none.
pub fn expire_packet(partials: &mut [Partial], memory: &[u8], now: u64, out: &mut [u8]) -> usize
    ensures expires { ExpiresFrame (table partials.old memory.now) partials.new now out.old out.new result }
    ensures partials_beyond { max_len < length partials.old → partials.new ≡ partials.old }
    ensures out_beyond { max_len < length out.old → out.new ≡ out.old }
{
    let count = usable(partials.len());
    let cap = usable(out.len());
    expire(
        &mut partials[..count],
        in_bounds(memory),
        now,
        &mut out[..cap],
    )
    .unwrap_or(0)
}
