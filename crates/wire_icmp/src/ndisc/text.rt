//! The printed text of a message.

ghost use Rattle.std.specs.Prelude.{◌≡◌, [], Some, if◌then◌else◌};
ghost use Rattle.std.specs.Fmt.{WritesOnOk};
ghost use Rattle.wire_icmp.specs.NdiscText.{flags_text, lladdr_text, value_text};

use super::{NdiscNeighborFlags, NdiscRepr};
use std::fmt;
use wire_addr::EthernetAddress;

/// Prints the target, the flags that are set, and the link-layer address if there is one.
impl fmt::Display for NdiscRepr {
    ghost output = { λ v. Some (value_text v) };

    fn fmt<W: fmt::Write>(&self, f: &mut fmt::Formatter<W>) -> fmt::Result {
        match *self {
            NdiscRepr::NeighborSolicit {
                target_addr,
                lladdr,
            } => {
                write!(f, "NDISC solicit target={target_addr}")?;
                write_lladdr(lladdr, f)
            }
            NdiscRepr::NeighborAdvert {
                flags,
                target_addr,
                lladdr,
            } => {
                write!(f, "NDISC advert target={target_addr}")?;
                write_flags(flags, f)?;
                write_lladdr(lladdr, f)
            }
        }
    }
}

// Writes the flags that are set.
fn write_flags<W: fmt::Write>(flags: NdiscNeighborFlags, f: &mut fmt::Formatter<W>) -> fmt::Result
    ensures { WritesOnOk W.write_str_gives f.old result (flags_text flags) f.new }
{
    let router = word_if(flags.router, " router");
    let solicited = word_if(flags.solicited, " solicited");
    let override_ = word_if(flags.override_, " override");
    write!(f, "{router}{solicited}{override_}")
}

// The word if it is wanted, else an empty string.
fn word_if(wanted: bool, word: &'static str) -> &'static str
    ensures { result.now ≡ if wanted then word.now else [] }
{
    if wanted { word } else { "" }
}

// Writes the link-layer address, if there is one.
fn write_lladdr<W: fmt::Write>(
    lladdr: Option<EthernetAddress>,
    f: &mut fmt::Formatter<W>,
) -> fmt::Result
    ensures { WritesOnOk W.write_str_gives f.old result (lladdr_text lladdr) f.new }
{
    match lladdr {
        Some(lladdr) => write!(f, " lladdr={lladdr}"),
        None => Ok(()),
    }
}
