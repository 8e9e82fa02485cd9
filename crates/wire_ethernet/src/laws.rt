//! Laws of this crate. A law states a fact about definitions, or about the calls in its body.

ghost use Rattle.std.specs.Prelude.{◌≡◌, ◌↔◌, ◌++◌, ◌≤◌, IsTrue, Some, length, true};
ghost use Rattle.wire_addr.specs.Order.{named_cmp};
ghost use Rattle.wire_ethernet.specs.Ethernet.{Reads, bytes_of, ethernet_of, frame_bytes, frame_bytes_mut, is_unknown, normal, number_of};
ghost use Rattle.wire_ethernet.specs.EthernetFields.{after, diagram, got, read_of, write_of};
ghost use Rattle.net_base.specs.Diagram.{end_of};

use crate::ethernet::{EthernetFrame, EthernetFrameMut, EthernetProtocol, EthernetRepr};
use byteorder::{ByteOrder, NetworkEndian};
use net_base::laws::bytes_fit;
use wire_addr::EthernetAddress;

/// The header of a value, with any bytes after it, parses as the value's normal form.
pub fn emit_reads_back_ethernet(value: EthernetRepr, rest: &[u8])
    ensures { Reads (bytes_of value ++ rest.now) (normal value) }
{}

/// No bytes parse as two values.
pub fn reads_once_ethernet(bytes: &[u8], value: EthernetRepr, other: EthernetRepr)
    requires value { Reads bytes.now value }
    requires other { Reads bytes.now other }
    ensures { value ≡ other }
{}

/// The value computed from bytes is the one that they parse as.
pub fn reading_is_computed_ethernet(bytes: &[u8], value: EthernetRepr)
    ensures { (ethernet_of bytes.now ≡ Some value) ↔ Reads bytes.now value }
{}

/// A normal form is its own, and a value that was read is in its normal form.
pub fn normal_twice_ethernet(bytes: &[u8], value: EthernetRepr)
    ensures twice { normal (normal value) ≡ normal value }
    ensures read { Reads bytes.now value → normal value ≡ value }
{}

/// What was read is emitted in no more bytes than it was read from.
pub fn no_more_bytes_ethernet(bytes: &[u8], value: EthernetRepr)
    requires { Reads bytes.now value }
    ensures { length (bytes_of value) ≤ length bytes.now }
{}

/// Protocols are equal exactly as values are. Those with a name come before unknown numbers.
pub fn ethernet_protocol_order(a: EthernetProtocol, b: EthernetProtocol)
    ensures order { ⟦<EthernetProtocol as Ord>⟧.cmp a b ≡ named_cmp is_unknown number_of a b }
    ensures equal { (⟦<EthernetProtocol as PartialEq>⟧.eq a b ≡ true) ↔ (a ≡ b) }
{}

/// A call of a setter.
#[derive(Debug, Clone, Copy)]
pub enum EthernetSetting {
    DstAddr(EthernetAddress),
    SrcAddr(EthernetAddress),
    Ethertype(EthernetProtocol),
}

/// A setter writes its field of the header's diagram, and nothing else.
pub fn setter_writes_one_field_ethernet(frame: &mut EthernetFrameMut<'_>, setting: EthernetSetting)
    requires { end_of diagram (write_of setting).0 ≤ length (frame_bytes_mut frame.old) }
    ensures { frame_bytes_mut frame.new ≡ after setting (frame_bytes_mut frame.old) }
{
    match setting {
        EthernetSetting::DstAddr(x) => {
            bytes_fit(x.as_bytes());
            frame.set_dst_addr(x)
        }
        EthernetSetting::SrcAddr(x) => {
            bytes_fit(x.as_bytes());
            frame.set_src_addr(x)
        }
        EthernetSetting::Ethertype(x) => frame.set_ethertype(x),
    }
}

/// A call of a getter.
#[derive(Debug, Clone, Copy)]
pub enum EthernetGetting {
    DstAddr,
    SrcAddr,
    Ethertype,
}

/// A getter returns the number in its field of the header's diagram.
pub fn getters_read_fields_ethernet(frame: &EthernetFrame<'_>, getting: EthernetGetting) -> u64
    requires { end_of diagram (read_of getting) ≤ length (frame_bytes frame.now) }
    ensures { result ≡ got getting (frame_bytes frame.now) }
{
    bytes_fit(frame.as_bytes());
    match getting {
        EthernetGetting::DstAddr => NetworkEndian::read_u48(frame.dst_addr().as_bytes()),
        EthernetGetting::SrcAddr => NetworkEndian::read_u48(frame.src_addr().as_bytes()),
        EthernetGetting::Ethertype => frame.ethertype().number().into(),
    }
}

/// `new_unchecked`, `as_view` and `into_inner` keep the bytes.
/// `new_checked` accepts what `check_len` accepts.
pub fn views_have_the_bytes_ethernet(bytes: &[u8]) -> bool
    ensures { IsTrue result }
{
    let frame = EthernetFrame::new_unchecked(bytes);
    frame.as_bytes() == bytes
        && frame.as_view().as_bytes() == bytes
        && frame.into_inner() == bytes
        && EthernetFrame::new_checked(bytes).is_ok() == frame.check_len().is_ok()
}
