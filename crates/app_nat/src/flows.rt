//! Network address translation by a table of mappings (RFC 3022, section 4.1; RFC 4787; RFC 5382; RFC 5508).

ghost use Rattle.std.specs.Prelude.{◌≡◌, IfErr, OnErr, OnOk};
ghost use Rattle.app_nat.specs.Table.{IsTable};
ghost use Rattle.app_nat.specs.Flows.{ComesIn, GoesOut, IsKeptInside, IsKeptOutside, IsPacketKeptInside, IsPacketKeptOutside, PacketComesIn, PacketGoesOut};

use crate::errors::{error_in, error_out};
use crate::packet::Packet;
use crate::translation::Rejection;
use crate::{Mapping, Nat, find, open};
use app_edit::Side;
use ip_wire::Ipv4Address;

/// Lets a frame go out: the outside address, and the port that the table gives, replace the source of its UDP packet,
/// TCP segment or ICMP echo request. A mapping is made if the source has none, and its time-out starts anew. A UDP or TCP
/// packet from port 0 is rejected, since no answer could reach it, and an echo reply, since it answers no request that
/// came in. An ICMP error goes out if it quotes a packet to an inside endpoint with a live mapping (RFC 5508, section 4): the
/// outside address and port replace the destination there, and the outside address the source of the error. An error does
/// not change the table. A rejected frame changes neither the frame nor the table.
pub fn translate_out(
    nat: &Nat,
    mappings: &mut [Mapping],
    now: u64,
    frame: &mut [u8],
) -> Result<(), Rejection>
    ensures out { OnOk result (GoesOut nat.now mappings.old mappings.new now frame.old frame.new) }
    ensures rejected { IfErr result (IsKeptInside nat.now mappings.old now frame.old) }
    ensures unchanged { OnErr result (frame.new ≡ frame.old) }
    ensures table { OnErr result (mappings.new ≡ mappings.old) }
    ensures keeps { IsTable nat.now mappings.old now → IsTable nat.now mappings.new now }
{
    let Err(reason) = packet_out(nat, mappings, now, frame) else {
        return Ok(());
    };
    match reason {
        Rejection::OtherProtocol => error_out(nat, mappings, now, frame),
        _ => Err(reason),
    }
}

/// Lets a frame come in: if its UDP packet, TCP segment or ICMP echo reply is for the outside address, and the table has a
/// live mapping of its destination port, the inside endpoint replaces the destination. Any remote endpoint may answer
/// (RFC 4787, REQ-8). An ICMP error for the outside address comes in if it quotes a packet from an outside port with a live
/// mapping (RFC 5508, section 4): the inside endpoint replaces the source there, and the destination of the error. An error
/// does not change the table. A rejected frame is unchanged.
pub fn translate_in(
    nat: &Nat,
    mappings: &mut [Mapping],
    now: u64,
    frame: &mut [u8],
) -> Result<(), Rejection>
    ensures came { OnOk result (ComesIn nat.now mappings.old mappings.new now frame.old frame.new) }
    ensures rejected { IfErr result (IsKeptOutside nat.now mappings.old mappings.new now frame.old) }
    ensures unchanged { OnErr result (frame.new ≡ frame.old) }
    ensures keeps { IsTable nat.now mappings.old now → IsTable nat.now mappings.new now }
{
    let Err(reason) = packet_in(nat, mappings, now, frame) else {
        return Ok(());
    };
    match reason {
        Rejection::OtherProtocol => error_in(nat, mappings, now, frame),
        _ => Err(reason),
    }
}

// Lets the packet of a frame go out: all but ICMP errors.
fn packet_out(
    nat: &Nat,
    mappings: &mut [Mapping],
    now: u64,
    frame: &mut [u8],
) -> Result<(), Rejection>
    ensures out { OnOk result (PacketGoesOut nat.now mappings.old mappings.new now frame.old frame.new) }
    ensures rejected { IfErr result (IsPacketKeptInside nat.now mappings.old now frame.old) }
    ensures unchanged { OnErr result (frame.new ≡ frame.old) }
    ensures table { OnErr result (mappings.new ≡ mappings.old) }
    ensures keeps { IsTable nat.now mappings.old now → IsTable nat.now mappings.new now }
{
    let packet = Packet::parse(frame)?;
    packet.check_source()?;
    let Some(port) = open(
        nat,
        mappings,
        now,
        packet.event(),
        &packet.src(),
        &packet.dst(),
    ) else {
        return Err(Rejection::NoFreePort);
    };
    packet.rewrite(
        frame,
        Side::Source,
        Ipv4Address::from_octets(nat.outside),
        port,
    )
}

// Lets the packet of a frame come in: all but ICMP errors.
fn packet_in(
    nat: &Nat,
    mappings: &mut [Mapping],
    now: u64,
    frame: &mut [u8],
) -> Result<(), Rejection>
    ensures came { OnOk result (PacketComesIn nat.now mappings.old mappings.new now frame.old frame.new) }
    ensures rejected { IfErr result (IsPacketKeptOutside nat.now mappings.old mappings.new now frame.old) }
    ensures unchanged { OnErr result (frame.new ≡ frame.old) }
    ensures keeps { IsTable nat.now mappings.old now → IsTable nat.now mappings.new now }
{
    let packet = Packet::parse(frame)?;
    if packet.header.dst_addr.octets() != nat.outside || packet.is_echo_request() {
        return Err(Rejection::NoMapping);
    }
    let Some(inside) = find(
        nat,
        mappings,
        now,
        packet.event(),
        packet.dst_port,
        &packet.src(),
    ) else {
        return Err(Rejection::NoMapping);
    };
    packet.rewrite(frame, Side::Destination, inside.addr, inside.port)
}
