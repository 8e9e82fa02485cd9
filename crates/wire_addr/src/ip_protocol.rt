//! IP protocol numbers.

ghost use Rattle.std.specs.Prelude.{◌≡◌, ◌+◌, ◌≤◌, ◌++◌, Some};
ghost use Rattle.arrayvec.specs.ArrayString.{array_string_len};
ghost use Rattle.wire_addr.specs.Protocol.{number_of, protocol_of, protocol_text};

use crate::push_hex_byte;
use arrayvec::ArrayString;
use std::fmt;

/// The protocol of an IP packet's payload, by the number that IANA assigned to it.
#[derive(Debug, Clone, Copy, PartialEq, Eq, PartialOrd, Ord, Hash)]
pub enum IpProtocol {
    HopByHop,
    Icmp,
    Igmp,
    Tcp,
    Udp,
    Ipv6Route,
    Ipv6Frag,
    IpSecEsp,
    IpSecAh,
    Icmpv6,
    Ipv6NoNxt,
    Ipv6Opts,
    Unknown(u8),
}

impl IpProtocol {
    /// The number in the header field "protocol" or "next header".
    #[inline(always)]
    pub const fn number(self) -> u8
        ensures { result ≡ number_of self }
    {
        match self {
            IpProtocol::HopByHop => 0,
            IpProtocol::Icmp => 1,
            IpProtocol::Igmp => 2,
            IpProtocol::Tcp => 6,
            IpProtocol::Udp => 17,
            IpProtocol::Ipv6Route => 43,
            IpProtocol::Ipv6Frag => 44,
            IpProtocol::IpSecEsp => 50,
            IpProtocol::IpSecAh => 51,
            IpProtocol::Icmpv6 => 58,
            IpProtocol::Ipv6NoNxt => 59,
            IpProtocol::Ipv6Opts => 60,
            IpProtocol::Unknown(other) => other,
        }
    }
}

/// Appends the name of a protocol, or `0x` and two hex digits.
pub fn push_protocol<const CAP: usize>(text: &mut ArrayString<CAP>, protocol: IpProtocol)
    requires { array_string_len text.old + 10 ≤ CAP }
    ensures bytes { text.new.bytes ≡ text.old.bytes ++ protocol_text protocol }
    ensures len { array_string_len text.new ≤ array_string_len text.old + 10 }
{
    match protocol {
        IpProtocol::HopByHop => text.push_str("Hop-by-Hop"),
        IpProtocol::Icmp => text.push_str("ICMP"),
        IpProtocol::Igmp => text.push_str("IGMP"),
        IpProtocol::Tcp => text.push_str("TCP"),
        IpProtocol::Udp => text.push_str("UDP"),
        IpProtocol::Ipv6Route => text.push_str("IPv6-Route"),
        IpProtocol::Ipv6Frag => text.push_str("IPv6-Frag"),
        IpProtocol::IpSecEsp => text.push_str("IPsec-ESP"),
        IpProtocol::IpSecAh => text.push_str("IPsec-AH"),
        IpProtocol::Icmpv6 => text.push_str("ICMPv6"),
        IpProtocol::Ipv6NoNxt => text.push_str("IPv6-NoNxt"),
        IpProtocol::Ipv6Opts => text.push_str("IPv6-Opts"),
        IpProtocol::Unknown(id) => {
            text.push_str("0x");
            push_hex_byte(text, id);
        }
    }
}

impl From<u8> for IpProtocol {
    ghost from_gives = { λ n p. p ≡ protocol_of n };

    #[inline(always)]
    fn from(value: u8) -> IpProtocol {
        match value {
            0 => IpProtocol::HopByHop,
            1 => IpProtocol::Icmp,
            2 => IpProtocol::Igmp,
            6 => IpProtocol::Tcp,
            17 => IpProtocol::Udp,
            43 => IpProtocol::Ipv6Route,
            44 => IpProtocol::Ipv6Frag,
            50 => IpProtocol::IpSecEsp,
            51 => IpProtocol::IpSecAh,
            58 => IpProtocol::Icmpv6,
            59 => IpProtocol::Ipv6NoNxt,
            60 => IpProtocol::Ipv6Opts,
            other => IpProtocol::Unknown(other),
        }
    }
}

impl From<IpProtocol> for u8 {
    ghost from_gives = { λ p n. n ≡ number_of p };

    #[inline(always)]
    fn from(value: IpProtocol) -> u8 {
        value.number()
    }
}

impl fmt::Display for IpProtocol {
    ghost output = { λ p. Some (protocol_text p) };

    fn fmt<W: fmt::Write>(&self, f: &mut fmt::Formatter<W>) -> fmt::Result {
        let mut text = ArrayString::<10>::new();
        push_protocol(&mut text, *self);
        f.write_str(text.as_str())
    }
}
