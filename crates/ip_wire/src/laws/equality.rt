//! `==` compares values.

ghost use Rattle.std.specs.Prelude.{◌≡◌, ◌↔◌, true};
ghost use Rattle.ip_wire.specs.Equality.{IsEquality};

use net_base::{Checksum, ChecksumCapabilities, Error, Medium};
use wire_addr::{
    EthernetAddress, HardwareAddress, IpProtocol, Ipv4Address, Ipv4Cidr, Ipv6Address, Ipv6Cidr,
    Ipv6MulticastScope, RawHardwareAddress,
};
use wire_arp::ArpRepr;
use wire_ethernet::EthernetRepr;
use wire_ip::IpRepr;
use wire_ipv4::{Ipv4FragKey, Ipv4Repr};
use wire_ipv6::{Ipv6FragmentRepr, Ipv6Repr};
use wire_tcp_options::{TcpControl, TcpSeqNumber, TcpTimestampRepr};
use wire_udp::UdpRepr;

/// `==` returns `true` exactly for equal values. The laws of orders (`ip_address_order`,
/// `ip_block_order`, `endpoint_order`, `listen_endpoint_order`, `ip_version_order`,
/// `ip_protocol_order`, `ethernet_protocol_order`, `arp_hardware_order`, `arp_operation_order`)
/// say the same of their types.
pub fn eq_is_equality()
    ensures checksum { IsEquality ⟦<Checksum as PartialEq>⟧.eq }
    ensures medium { IsEquality ⟦<Medium as PartialEq>⟧.eq }
    ensures error { IsEquality ⟦<Error as PartialEq>⟧.eq }
    ensures ethernet_address { IsEquality ⟦<EthernetAddress as PartialEq>⟧.eq }
    ensures hardware_address { IsEquality ⟦<HardwareAddress as PartialEq>⟧.eq }
    ensures ipv4_address { IsEquality ⟦<Ipv4Address as PartialEq>⟧.eq }
    ensures ipv6_address { IsEquality ⟦<Ipv6Address as PartialEq>⟧.eq }
    ensures ipv6_multicast_scope { IsEquality ⟦<Ipv6MulticastScope as PartialEq>⟧.eq }
    ensures ipv4_cidr { IsEquality ⟦<Ipv4Cidr as PartialEq>⟧.eq }
    ensures ipv6_cidr { IsEquality ⟦<Ipv6Cidr as PartialEq>⟧.eq }
    ensures ethernet { IsEquality ⟦<EthernetRepr as PartialEq>⟧.eq }
    ensures arp { IsEquality ⟦<ArpRepr as PartialEq>⟧.eq }
    ensures ip_protocol { IsEquality ⟦<IpProtocol as PartialEq>⟧.eq }
    ensures ipv6_fragment { IsEquality ⟦<Ipv6FragmentRepr as PartialEq>⟧.eq }
    ensures udp { IsEquality ⟦<UdpRepr as PartialEq>⟧.eq }
    ensures tcp_control { IsEquality ⟦<TcpControl as PartialEq>⟧.eq }
    ensures tcp_seq_number { IsEquality ⟦<TcpSeqNumber as PartialEq>⟧.eq }
    ensures tcp_timestamp { IsEquality ⟦<TcpTimestampRepr as PartialEq>⟧.eq }
{}

/// `==` of two `ChecksumCapabilities` is `true` exactly if they are the same value.
pub fn eq_is_equality_capabilities(a: ChecksumCapabilities, b: ChecksumCapabilities)
    ensures { (⟦<ChecksumCapabilities as PartialEq>⟧.eq a b ≡ true) ↔ (a ≡ b) }
{
    eq_is_equality();
}

/// `==` of two `RawHardwareAddress` is `true` exactly if they have the same bytes.
pub fn eq_is_equality_raw(a: RawHardwareAddress, b: RawHardwareAddress)
    ensures { (⟦<RawHardwareAddress as PartialEq>⟧.eq a b ≡ true) ↔ (a ≡ b) }
{}

/// `==` of two IP headers of one version, or of two keys of fragments, is `true` exactly if they are the same value.
pub fn eq_is_equality_headers()
    ensures ipv4 { IsEquality ⟦<Ipv4Repr as PartialEq>⟧.eq }
    ensures ipv6 { IsEquality ⟦<Ipv6Repr as PartialEq>⟧.eq }
    ensures frag_key { IsEquality ⟦<Ipv4FragKey as PartialEq>⟧.eq }
{
    eq_is_equality();
}

/// `==` of two `IpRepr` is `true` exactly if they are the same value.
pub fn eq_is_equality_ip()
    ensures { IsEquality ⟦<IpRepr as PartialEq>⟧.eq }
{
    eq_is_equality_headers();
}
