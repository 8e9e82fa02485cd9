//! One mapping, and how packets change it.

ghost use Rattle.std.specs.Prelude.{◌≡◌, ◌<◌, ◌↔◌, IsTrue, false, true};
ghost use Rattle.app_nat.specs.State.{ends_connection, next_state, state_of};
ghost use Rattle.app_nat.specs.Mapping.{IsOf, after_inbound, after_outbound, expiry, inside_of, is_remote, is_shared, new_mapping};

use crate::nat::Nat;
use crate::state::{Event, Protocol, TcpState};
use ip_wire::{Ipv4Address, TcpControl};

/// An IPv4 address, and a port of UDP or TCP or the identifier of an ICMP echo message.
#[derive(Debug, Clone, Copy, PartialEq, Eq)]
pub struct Ipv4Endpoint {
    pub addr: Ipv4Address,
    pub port: u16,
}

/// The mapping of one outside port and protocol. Any bytes are a value; all zeros are no live
/// mapping.
#[repr(C)]
#[derive(Debug, Clone, Copy)]
pub struct Mapping {
    /// The mapping is live before this time. In milliseconds.
    pub expires: u64,
    /// The address of the inside endpoint.
    pub inside: [u8; 4],
    /// The address of the first remote endpoint.
    pub remote: [u8; 4],
    pub inside_port: u16,
    pub remote_port: u16,
    /// Of TCP: 0 for opening, 1 for established, 2 for closing. Other values count as 0.
    pub state: u8,
    /// Other than 0: packets went to more than one remote endpoint.
    pub shared: u8,
    /// Not of the mapping, but of its place: how many rows after the first one may have a mapping of an endpoint whose
    /// first row begins here. To free a mapping, set `expires` to 0, and keep this.
    pub reach: u16,
}

impl Mapping {
    /// A mapping that is not live.
    pub const FREE: Mapping = Mapping {
        expires: 0,
        inside: [0; 4],
        remote: [0; 4],
        inside_port: 0,
        remote_port: 0,
        state: 0,
        shared: 0,
        reach: 0,
    };

    // A mapping that no packet used yet, at a place with this reach. It is not live.
    pub(crate) fn new(inside: &Ipv4Endpoint, remote: &Ipv4Endpoint, reach: u16) -> Mapping
        ensures { result ≡ new_mapping inside.now remote.now reach }
    {
        Mapping {
            expires: 0,
            inside: inside.addr.octets(),
            remote: remote.addr.octets(),
            inside_port: inside.port,
            remote_port: remote.port,
            state: 0,
            shared: 0,
            reach,
        }
    }

    /// The inside endpoint.
    pub fn inside(&self) -> Ipv4Endpoint
        ensures { result ≡ inside_of self.now }
    {
        Ipv4Endpoint {
            addr: Ipv4Address::from_octets(self.inside),
            port: self.inside_port,
        }
    }

    // Returns `true` if this is the inside endpoint.
    pub(crate) fn is_of(&self, inside: &Ipv4Endpoint) -> bool
        ensures { IsTrue result ↔ IsOf inside.now self.now }
    {
        self.inside_port == inside.port && self.inside == inside.addr.octets()
    }

    // Returns `true` if this is the remote endpoint.
    fn is_remote(&self, remote: &Ipv4Endpoint) -> bool
        ensures { result ≡ is_remote self.now remote.now }
    {
        self.remote == remote.addr.octets() && self.remote_port == remote.port
    }

    // Returns `true` if the mapping has more than one remote endpoint, with this one.
    fn is_shared(&self, remote: &Ipv4Endpoint) -> bool
        ensures { result ≡ is_shared self.now remote.now }
    {
        self.shared != 0 || !self.is_remote(remote)
    }

    // The mapping after its inside endpoint sent a packet to this remote endpoint.
    pub(crate) fn after_outbound(
        &self,
        nat: &Nat,
        now: u64,
        event: Event,
        remote: &Ipv4Endpoint,
    ) -> Mapping
        ensures { result ≡ after_outbound nat.now now event remote.now self.now }
    {
        let shared = self.is_shared(remote);
        let state = TcpState::of(self.state).next(shared, event);
        Mapping {
            expires: expiry(now, nat.timeout(event.protocol(), state)),
            inside: self.inside,
            remote: self.remote,
            inside_port: self.inside_port,
            remote_port: self.remote_port,
            state: state.byte(),
            shared: u8::from(shared),
            reach: self.reach,
        }
    }

    // Notes that this remote endpoint sent a packet to the outside port.
    pub(crate) fn receive(&mut self, nat: &Nat, now: u64, event: Event, remote: &Ipv4Endpoint)
        ensures { self.new ≡ after_inbound nat.now now event remote.now self.old }
    {
        if !event.ends_connection() || self.is_shared(remote) {
            return;
        }
        self.expires = self
            .expires
            .min(expiry(now, nat.timeout(Protocol::Tcp, TcpState::Closing)));
        self.state = self.state_after_end(event).byte();
    }

    // The state after a FIN or RST of its only remote endpoint.
    #[inline(always)]
    fn state_after_end(&self, event: Event) -> TcpState
        requires { ends_connection event ≡ true }
        ensures { result ≡ next_state false (state_of self.now.state) event }
    {
        match event {
            Event::Tcp(TcpControl::Rst) if self.state != 2 => TcpState::Opening,
            _ => TcpState::Closing,
        }
    }
}

// The end of a time-out that starts now.
fn expiry(now: u64, timeout: u64) -> u64
    ensures { result ≡ expiry now timeout }
{
    now.saturating_add(timeout)
}
