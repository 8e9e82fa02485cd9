//! The printed text of a segment.

ghost use Rattle.std.specs.Prelude.{◌≡◌, [], None, Some, if◌then◌else◌};
ghost use Rattle.std.specs.Fmt.{WritesOnOk};
ghost use Rattle.wire_tcp.specs.Tcp.{HasLengths, packet_bytes};
ghost use Rattle.wire_tcp_options.specs.TcpSeq.{number};
ghost use Rattle.wire_tcp.specs.TcpText.{fields_text, flags_text, hex_word, numbered_some, numbers_text, options_text, packet_text, ranges_text, shown};

use super::TcpPacket;
use net_base::Error;
use std::fmt;
use wire_tcp_options::{TcpOption, TcpSeqNumber};

impl fmt::Display for TcpPacket<'_> {
    ghost output = { λ packet. Some (packet_text (packet_bytes packet)) };

    fn fmt<W: fmt::Write>(&self, f: &mut fmt::Formatter<W>) -> fmt::Result {
        match self.check_len() {
            Ok(()) => {
                let (src, dst) = (self.src_port(), self.dst_port());
                write!(f, "TCP src={src} dst={dst}")?;
                write_flags(self, f)?;
                write_fields(self, f)?;
                let options = Options(self.options());
                write!(f, "{options}")
            }
            Err(error) => write!(f, "TCP ({error})"),
        }
    }
}

// Writes the flags that are set.
#[tactic(auto, unfolding(crate::specs::TcpText::flags_text))]
fn write_flags<W: fmt::Write>(packet: &TcpPacket<'_>, f: &mut fmt::Formatter<W>) -> fmt::Result
    requires { HasLengths (packet_bytes packet.now) }
    ensures { WritesOnOk W.write_str_gives f.old result (flags_text (packet_bytes packet.now)) f.new }
{
    let syn = word_if(packet.syn(), " syn");
    let fin = word_if(packet.fin(), " fin");
    let rst = word_if(packet.rst(), " rst");
    let psh = word_if(packet.psh(), " psh");
    let ece = word_if(packet.ece(), " ece");
    let cwr = word_if(packet.cwr(), " cwr");
    let ns = word_if(packet.ns(), " ns");
    write!(f, "{syn}{fin}{rst}{psh}{ece}{cwr}{ns}")
}

// The word if it is wanted, else an empty string.
fn word_if(wanted: bool, word: &'static str) -> &'static str
    ensures { result.now ≡ if wanted then word.now else [] }
{
    if wanted { word } else { "" }
}

// Writes the numbers of the header, and the length of the payload.
fn write_fields<W: fmt::Write>(packet: &TcpPacket<'_>, f: &mut fmt::Formatter<W>) -> fmt::Result
    requires { HasLengths (packet_bytes packet.now) }
    ensures { WritesOnOk W.write_str_gives f.old result (fields_text (packet_bytes packet.now)) f.new }
{
    let ack = number_if(packet.ack(), packet.ack_number().0.cast_unsigned());
    let urgent = number_if(packet.urg(), packet.urgent_at().into());
    write_numbers(
        f,
        packet.seq_number(),
        ack,
        packet.window_len(),
        urgent,
        packet.payload().len(),
    )
}

// The number if it is wanted.
fn number_if(wanted: bool, n: u32) -> Option<u32>
    ensures { result ≡ if wanted then Some n else None }
{
    if wanted { Some(n) } else { None }
}

// Writes the numbers of a header, and the length of a payload.
#[tactic(auto, unfolding(crate::specs::TcpText::numbers_text))]
fn write_numbers<W: fmt::Write>(
    f: &mut fmt::Formatter<W>,
    seq: TcpSeqNumber,
    ack: Option<u32>,
    window: u16,
    urgent: Option<u32>,
    len: usize,
) -> fmt::Result
    ensures { WritesOnOk W.write_str_gives f.old result (numbers_text (number seq) ack window urgent len) f.new }
{
    write!(f, " seq={seq}")?;
    write_some(f, " ack=", ack)?;
    write!(f, " win={window}")?;
    write_some(f, " urg=", urgent)?;
    write!(f, " len={len}")
}

// Writes a name and a number, if there is a number.
fn write_some<W: fmt::Write>(
    f: &mut fmt::Formatter<W>,
    name: &str,
    number: Option<u32>,
) -> fmt::Result
    ensures { WritesOnOk W.write_str_gives f.old result (numbered_some name.now number) f.new }
{
    match number {
        Some(n) => write!(f, "{name}{n}"),
        None => Ok(()),
    }
}

/// The options of a header. They are printed up to the end of the list, or up to the first
/// malformed one.
#[derive(Clone, Copy)]
struct Options<'a>(&'a [u8]);

impl fmt::Display for Options<'_> {
    ghost output = { λ options. Some (options_text options.0.now) };

    fn fmt<W: fmt::Write>(&self, f: &mut fmt::Formatter<W>) -> fmt::Result {
        let mut rest = self.0;
        while !rest.is_empty() {
            let Ok((next, option)) = TcpOption::parse(rest) else {
                return write!(f, " ({Error})");
            };
            if let TcpOption::EndOfList = option {
                break;
            }
            write_option(&option, f)?;
            rest = next;
        }
        Ok(())
    }
}

// Writes an option.
fn write_option<W: fmt::Write>(option: &TcpOption<'_>, f: &mut fmt::Formatter<W>) -> fmt::Result
    ensures { WritesOnOk W.write_str_gives f.old result (shown option.now) f.new }
{
    match option {
        TcpOption::EndOfList => Ok(()),
        TcpOption::NoOperation => Ok(()),
        TcpOption::MaxSegmentSize(size) => write!(f, " mss={size}"),
        TcpOption::WindowScale(scale) => write!(f, " ws={scale}"),
        TcpOption::SackPermitted => write!(f, " sACK"),
        TcpOption::SackRange(ranges) => {
            let ranges = Ranges(ranges.as_slice());
            write!(f, " sACKr{ranges}")
        }
        TcpOption::TimeStamp { tsval, tsecr } => {
            let (tsval, tsecr) = (HexWord(*tsval), HexWord(*tsecr));
            write!(f, " tsval {tsval} tsecr {tsecr}")
        }
        TcpOption::Unknown { kind, .. } => write!(f, " opt({kind})"),
    }
}

/// The blocks of a SACK option.
#[derive(Clone, Copy)]
struct Ranges<'a>(&'a [Option<(u32, u32)>]);

impl fmt::Display for Ranges<'_> {
    ghost output = { λ ranges. Some (ranges_text ranges.0.now) };

    #[tactic(auto, using(crate::proofs::TcpTexts::debug_list_of_ranges))]
    fn fmt<W: fmt::Write>(&self, f: &mut fmt::Formatter<W>) -> fmt::Result {
        let ranges = self.0;
        write!(f, "{ranges:?}")
    }
}

/// A number in eight hex digits.
#[derive(Clone, Copy)]
struct HexWord(u32);

impl fmt::Display for HexWord {
    ghost output = { λ word. Some (hex_word word.0) };

    #[tactic(auto, using(crate::proofs::TcpTexts::padded_hex_word))]
    fn fmt<W: fmt::Write>(&self, f: &mut fmt::Formatter<W>) -> fmt::Result {
        let word = self.0;
        write!(f, "{word:08x}")
    }
}
