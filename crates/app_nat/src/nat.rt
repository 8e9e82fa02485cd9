//! The parameters of a NAT, and the outside ports that an inside endpoint may get.

ghost use Rattle.std.specs.Prelude.{◌≡◌, ◌≢◌, ◌+◌, ◌*◌, ◌≤◌, length};
ghost use Rattle.app_nat.specs.State.{timeout_of};
ghost use Rattle.app_nat.specs.Table.{hash_of, place_of, ports, protocols, start_of, step_of};
ghost use Rattle.app_nat.specs.declared.nat.Nat.{Nat};

use crate::mapping::{Ipv4Endpoint, Mapping};
use crate::state::{Protocol, TcpState};
use ip_wire::Ipv4Address;
use std::hash::{DefaultHasher, Hasher};

/// The usual time-out of UDP: 5 minutes (RFC 4787, REQ-5).
pub const UDP_TIMEOUT: u64 = 300_000;

/// The usual time-out of an established TCP connection: 2 hours and 4 minutes (RFC 5382, REQ-5).
pub const TCP_TIMEOUT: u64 = 7_440_000;

/// The usual time-out of a TCP connection that opens or closes: 4 minutes (RFC 5382, REQ-5).
pub const TCP_TRANSITORY_TIMEOUT: u64 = 240_000;

/// The usual time-out of ICMP: 60 seconds (RFC 5508, REQ-2).
pub const ICMP_TIMEOUT: u64 = 60_000;

// The mappings of an outside port: one for each protocol.
const PROTOCOLS: usize = 3;

// The least number of ports of a row, unless there are fewer ports.
const ROW: usize = 63;

// The part of the widest step by which steps differ.
const STEPS: usize = 32;

/// The parameters of a NAT. Times are in milliseconds.
#[repr(C)]
#[derive(Debug, Clone, Copy)]
pub struct Nat {
    /// Random and secret: without it nobody can choose endpoints that compete for the same ports.
    pub key: [u64; 2],
    /// How long a UDP mapping lives after the last packet of its inside host. RFC 4787, REQ-5: at
    /// least 2 minutes, 5 by default.
    pub udp_timeout: u64,
    /// How long a TCP mapping with an established connection lives after its last packet from inside. RFC 5382,
    /// REQ-5: at least 2 hours and 4 minutes.
    pub tcp_timeout: u64,
    /// How long a TCP mapping whose connection opens or closes lives after that packet. RFC 5382, REQ-5:
    /// at least 4 minutes.
    pub tcp_transitory_timeout: u64,
    /// How long an ICMP mapping lives after the last echo request of its inside host. RFC 5508, REQ-2:
    /// at least 60 seconds.
    pub icmp_timeout: u64,
    /// The outside IPv4 address.
    pub outside: [u8; 4],
    /// The first of the outside ports. 0: there is no outside port.
    pub first_port: u16,
    pub unused: u16,
}

impl Nat {
    /// A NAT with the usual time-outs.
    pub fn new(key: [u64; 2], outside: Ipv4Address, first_port: u16) -> Nat
        ensures { result ≡ record {
          key = key;
          udp_timeout = 300000;
          tcp_timeout = 7440000;
          tcp_transitory_timeout = 240000;
          icmp_timeout = 60000;
          outside = outside;
          first_port = first_port;
          unused = 0;
        } }
    {
        Nat {
            key,
            udp_timeout: UDP_TIMEOUT,
            tcp_timeout: TCP_TIMEOUT,
            tcp_transitory_timeout: TCP_TRANSITORY_TIMEOUT,
            icmp_timeout: ICMP_TIMEOUT,
            outside: outside.octets(),
            first_port,
            unused: 0,
        }
    }

    // The time-out of a mapping in this state.
    pub(crate) fn timeout(&self, protocol: Protocol, state: TcpState) -> u64
        ensures { result ≡ timeout_of self.now protocol state }
    {
        match protocol {
            Protocol::Udp => self.udp_timeout,
            Protocol::Tcp => match state {
                TcpState::Established => self.tcp_timeout,
                TcpState::Opening | TcpState::Closing => self.tcp_transitory_timeout,
            },
            Protocol::Icmp => self.icmp_timeout,
        }
    }

    /// The number of outside ports in a table.
    pub fn ports(&self, mappings: &[Mapping]) -> usize
        ensures { result ≡ ports self.now (length mappings.now) }
    {
        if self.first_port == 0 {
            0
        } else {
            (mappings.len() / PROTOCOLS).min(65536 - usize::from(self.first_port))
        }
    }

    // The place of a port's mapping. With a product, it does not compare the protocol anew for each port of a search.
    pub(crate) fn place(&self, mappings: &[Mapping], protocol: Protocol, port: usize) -> usize
        requires low { self.now.first_port ≤ port }
        requires high { port ≤ 65535 }
        ensures { result ≡ place_of self.now (length mappings.now) protocol port }
    {
        let part = match protocol {
            Protocol::Udp => 0,
            Protocol::Tcp => 1,
            Protocol::Icmp => 2,
        };
        part * (mappings.len() / PROTOCOLS) + (port - usize::from(self.first_port))
    }

    // Where the first row of an endpoint begins, counted from the first of so many outside ports, and the step from one
    // port of a row to the next.
    #[inline(always)]
    pub(crate) fn spread(&self, count: usize, inside: &Ipv4Endpoint) -> (usize, usize)
        requires { count ≤ 65536 }
        ensures start { result.0 ≡ start_of self.now.key count inside.now }
        ensures step { result.1 ≡ step_of self.now.key count inside.now }
    {
        let hash = self.hash(inside);
        let widest = (count / ROW).max(1);
        let start = (hash % count.max(1) as u64) as usize;
        let less = (hash >> 32) % (widest / STEPS + 1) as u64;
        (start, widest - less as usize)
    }

    #[tactic(auto, unfolding(crate::specs::Table::hash_of))]
    #[inline(always)]
    fn hash(&self, inside: &Ipv4Endpoint) -> u64
        ensures { result ≡ hash_of self.now.key inside.now }
    {
        let mut hasher = DefaultHasher::new();
        hasher.write(&self.key[0].to_le_bytes());
        hasher.write(&self.key[1].to_le_bytes());
        hasher.write(&inside.addr.octets());
        hasher.write(&inside.port.to_le_bytes());
        hasher.finish()
    }
}

/// The number of mappings of a table with this many outside ports: one for each port and protocol.
pub fn mappings_for(port_count: u16) -> usize
    ensures count { result ≡ protocols * port_count }
    ensures ports { (nat : Nat) → nat.first_port ≢ 0 → nat.first_port + port_count ≤ 65536 → ports nat result ≡ port_count }
{
    PROTOCOLS * usize::from(port_count)
}
