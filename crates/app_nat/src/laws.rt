//! Laws of this crate. A law states a fact about definitions, or about several calls.

ghost use Rattle.std.specs.Prelude.{◌≡◌, ◌≢◌, IfErr, List, MatchResult, OnErr, OnOk, ℕ};
ghost use Rattle.app_nat.specs.Flows.{IsAnswer, LeadsToPorts};
ghost use Rattle.app_nat.specs.Nat.{HasUsualChecksums, IsPacket, IsTranslated, IsUntranslated, addr_of, port_of};
ghost use Rattle.app_edit.specs.declared.side.Side.TheVariants.{Destination};
ghost use Rattle.app_nat.specs.declared.packet.Packet.{Packet};

pub mod reach;
pub mod table;

use crate::flows::{translate_in, translate_out};
use crate::packet::Packet;
use crate::translation::{Rejection, translate};
use crate::{Mapping, Nat};
use app_edit::Side;
use ip_wire::Ipv4Address;
use ip_wire::laws::field::bytes_fit;

/// Translating back to the address and port that the packet had restores the
/// original bytes. The IPv4 checksum and that of a TCP segment must not be 0xffff. No sender
/// computes 0xffff, and an update writes 0 instead.
pub fn translation_is_undone(frame: &[u8], side: Side, addr: Ipv4Address, port: u16)
    requires { HasUsualChecksums frame.now }
    ensures { (there back : List ℕ) (was : IsTranslated frame.now there side addr port)
        → IsTranslated there back side (addr_of side was.header) (port_of side was.transport)
        → back ≡ frame.now }
{
    bytes_fit(frame);
}

/// If a frame is translated, a second call with the old address and port is not rejected, and it restores the original
/// bytes. Otherwise the frame is unchanged.
pub fn translate_back(
    frame: &mut [u8],
    side: Side,
    addr: Ipv4Address,
    port: u16,
) -> Result<(), Rejection>
    requires { HasUsualChecksums frame.old }
    ensures same { frame.new ≡ frame.old }
    ensures rejected { IfErr result (IsUntranslated frame.old side port) }
{
    bytes_fit(frame);
    let packet = Packet::parse(frame)?;
    packet.rewrite(frame, side, addr, port)?;
    match side {
        Side::Source => translate(frame, side, packet.header.src_addr, packet.src_port),
        Side::Destination => translate(frame, side, packet.header.dst_addr, packet.dst_port),
    }
}

/// A table whose live mappings lead to no port 0, as an empty one, stays so.
pub fn no_mapping_leads_to_zero(
    nat: &Nat,
    mappings: &mut [Mapping],
    now: u64,
    frame: &mut [u8],
) -> Result<(), Rejection>
    ensures { LeadsToPorts nat.now mappings.old now → LeadsToPorts nat.now mappings.new now }
{
    translate_out(nat, mappings, now, frame)
}

/// With such a table, no frame that comes in is rejected as `ZeroPort`, and a rejected frame does not change the table.
pub fn no_frame_comes_in_to_zero(
    nat: &Nat,
    mappings: &mut [Mapping],
    now: u64,
    frame: &mut [u8],
) -> Result<(), Rejection>
    ensures keeps { LeadsToPorts nat.now mappings.old now → LeadsToPorts nat.now mappings.new now }
    ensures reason { LeadsToPorts nat.now mappings.old now → IfErr result (λ reason. reason ≢ Rejection.ZeroPort) }
    ensures table { LeadsToPorts nat.now mappings.old now → OnErr result (mappings.new ≡ mappings.old) }
{
    translate_in(nat, mappings, now, frame)
}

/// A packet goes out, and an answer comes in to its new source before the mapping expires, whatever passed through the NAT
/// since: the destination of the answer becomes the source that the packet had. `later` is the table as the answer
/// finds it.
pub fn answer_comes_back(
    nat: &Nat,
    mappings: &mut [Mapping],
    sent: u64,
    frame: &mut [u8],
    later: &mut [Mapping],
    now: u64,
    answer: &mut [u8],
) -> (Result<(), Rejection>, Result<(), Rejection>)
    ensures { OnOk result.0 ((packet : Packet) → IsPacket frame.old packet → IsAnswer nat.now mappings.new later.old now frame.new answer.old
        → MatchResult result.1 (λ _. IsTranslated answer.old answer.new Destination packet.header.src_addr packet.src_port) (λ _. ⊥)) }
{
    let out = translate_out(nat, mappings, sent, frame);
    let back = translate_in(nat, later, now, answer);
    (out, back)
}
