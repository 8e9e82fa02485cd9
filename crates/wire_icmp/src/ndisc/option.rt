//! The options of a message (RFC 4861, section 4.6).

ghost use Rattle.std.specs.Prelude.{◌≡◌, ◌≤◌, IfOk, OnErr, Some, None, length};
ghost use Rattle.std.specs.Result.{result_ok};
ghost use Rattle.wire_icmp.specs.NdOption.{first_option, lladdr_in, lladdr_of};

use net_base::{Error, Result};
use wire_addr::EthernetAddress;

/// The unit of an option's length, in bytes.
pub(super) const UNIT: usize = 8;

// The link-layer address in the first option of this type, or `None`. Fails if the bytes are no
// options, or if that option has not the length of an Ethernet address.
pub(super) fn find_lladdr(options: &[u8], kind: u8) -> Result<Option<EthernetAddress>>
    ensures { lladdr_of kind options.now ≡ result_ok result }
{
    let mut lladdr = None;
    let mut rest = options;
    while !rest.is_empty() {
        let (option, following) = split_option(rest)?;
        if option[0] == kind && lladdr.is_none() {
            lladdr = Some(read_lladdr(option)?);
        }
        rest = following;
    }
    Ok(lladdr)
}

// The first option, and the bytes after it.
fn split_option(bytes: &[u8]) -> Result<(&[u8], &[u8])>
    ensures ok { IfOk result (λ parts. first_option bytes.now ≡ Some (parts.0.now, parts.1.now)) }
    ensures len { IfOk result (λ parts. 8 ≤ length parts.0.now) }
    ensures err { OnErr result (first_option bytes.now ≡ None) }
{
    if bytes.len() < UNIT {
        return Err(Error);
    }
    let len = UNIT * usize::from(bytes[1]);
    if len == 0 || bytes.len() < len {
        return Err(Error);
    }
    Ok((&bytes[..len], &bytes[len..]))
}

// The address in an option.
fn read_lladdr(option: &[u8]) -> Result<EthernetAddress>
    ensures ok { IfOk result (λ lladdr. lladdr_in (Some option.now) ≡ Some (Some lladdr)) }
    ensures err { OnErr result (lladdr_in (Some option.now) ≡ None) }
{
    if option.len() != UNIT {
        return Err(Error);
    }
    Ok(EthernetAddress::from_bytes(&option[2..]))
}
