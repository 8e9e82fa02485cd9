//! The fields of an IPv4 header, printed one by one.

ghost use Rattle.std.specs.Prelude.{◌≤◌, length};
ghost use Rattle.std.specs.Fmt.{WritesOnOk};
ghost use Rattle.wire_ipv4.specs.Ipv4.{packet_bytes};
ghost use Rattle.wire_ipv4.specs.Ipv4Text.{addresses_text, fields_text, fragments_text, header_fields_text, lengths_text, text_if, unless_usual};

use super::{IPV4_HEADER_LEN, Ipv4Packet};
use std::fmt;
use wire_addr::{IpProtocol, Ipv4Address};

/// Writes the fields of a header, or nothing if the bytes are fewer than a header without options.
pub fn write_fields<W: fmt::Write>(
    packet: &Ipv4Packet<'_>,
    f: &mut fmt::Formatter<W>,
) -> fmt::Result
    ensures { WritesOnOk W.write_str_gives f.old result (fields_text (packet_bytes packet.now)) f.new }
{
    if packet.as_bytes().len() < IPV4_HEADER_LEN {
        Ok(())
    } else {
        write_header_fields(packet, f)
    }
}

// Writes the fields of a header.
fn write_header_fields<W: fmt::Write>(
    packet: &Ipv4Packet<'_>,
    f: &mut fmt::Formatter<W>,
) -> fmt::Result
    requires { 20 ≤ length (packet_bytes packet.now) }
    ensures { WritesOnOk W.write_str_gives f.old result (header_fields_text (packet_bytes packet.now)) f.new }
{
    write_addresses(
        f,
        packet.src_addr(),
        packet.dst_addr(),
        packet.next_header(),
        packet.hop_limit(),
    )?;
    write_lengths(packet, f)?;
    write_fragments(
        f,
        packet.dont_frag(),
        packet.more_frags(),
        packet.frag_offset(),
        packet.ident(),
    )
}

// Writes the fields that every header prints: addresses, protocol and hop limit.
#[tactic(auto, unfolding(crate::specs::Ipv4Text::addresses_text))]
fn write_addresses<W: fmt::Write>(
    f: &mut fmt::Formatter<W>,
    src: Ipv4Address,
    dst: Ipv4Address,
    protocol: IpProtocol,
    hop_limit: u8,
) -> fmt::Result
    ensures { WritesOnOk W.write_str_gives f.old result (addresses_text src dst protocol hop_limit) f.new }
{
    write!(
        f,
        " src={src} dst={dst} proto={protocol} hop_limit={hop_limit}"
    )
}

// Writes version, header length, DSCP and ECN, each only if it is not the usual one, and the total
// length.
#[tactic(auto, unfolding(crate::specs::Ipv4Text::lengths_text))]
fn write_lengths<W: fmt::Write>(packet: &Ipv4Packet<'_>, f: &mut fmt::Formatter<W>) -> fmt::Result
    requires { 20 ≤ length (packet_bytes packet.now) }
    ensures { WritesOnOk W.write_str_gives f.old result (lengths_text (packet_bytes packet.now)) f.new }
{
    write_unless(f, 4, " ver=", packet.version().into())?;
    write_unless(f, 20, " hlen=", packet.header_len().into())?;
    write_unless(f, 0, " dscp=", packet.dscp().into())?;
    write_unless(f, 0, " ecn=", packet.ecn().into())?;
    let total_len = packet.total_len();
    write!(f, " tlen={total_len}")
}

// Writes the flags DF and MF if they are set, an offset other than 0, and the identification of a
// fragment.
#[tactic(auto, unfolding(crate::specs::Ipv4Text::fragments_text))]
fn write_fragments<W: fmt::Write>(
    f: &mut fmt::Formatter<W>,
    dont_frag: bool,
    more_frags: bool,
    offset: u16,
    ident: u16,
) -> fmt::Result
    ensures { WritesOnOk W.write_str_gives f.old result (fragments_text dont_frag more_frags offset ident) f.new }
{
    write_if(f, dont_frag, " df")?;
    write_if(f, more_frags, " mf")?;
    write_unless(f, 0, " off=", offset)?;
    if more_frags || offset != 0 {
        write!(f, " id={ident}")
    } else {
        Ok(())
    }
}

// Writes a name and a number, or nothing if it is the usual number.
fn write_unless<W: fmt::Write>(
    f: &mut fmt::Formatter<W>,
    usual: u16,
    name: &str,
    n: u16,
) -> fmt::Result
    ensures { WritesOnOk W.write_str_gives f.old result (unless_usual usual name.now n) f.new }
{
    if n == usual {
        Ok(())
    } else {
        write!(f, "{name}{n}")
    }
}

// Writes a word if it is wanted.
fn write_if<W: fmt::Write>(f: &mut fmt::Formatter<W>, wanted: bool, word: &str) -> fmt::Result
    ensures { WritesOnOk W.write_str_gives f.old result (text_if wanted word.now) f.new }
{
    if wanted { write!(f, "{word}") } else { Ok(()) }
}
