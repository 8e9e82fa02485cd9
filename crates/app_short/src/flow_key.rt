//! A key of each flow, the same for both directions, over IPv4 and IPv6.

ghost use Rattle.std.specs.Prelude.{◌≡◌, ◌↔◌, IsTrue};
ghost use Rattle.std.specs.Ordering.{ordering_reverse};
ghost use Rattle.std.specs.declared.cmp.Ordering.TheVariants.{Equal};
ghost use Rattle.ip_wire.specs.Endpoint.{endpoint_cmp};
ghost use Rattle.app_short.specs.Flow.{IsOneFlow, flow_between, flow_of, key_of};

use ip_wire::laws::addr::order_agrees;
use ip_wire::laws::ends::endpoint_order;
use ip_wire::{Carried, Frame, IpEndpoint, IpProtocol, IpRepr, Transport};
use std::cmp::Ordering;

/// The protocol of a UDP or TCP packet, its sender and its receiver.
#[derive(Debug, Clone, Copy, PartialEq, Eq)]
pub struct Flow {
    pub protocol: IpProtocol,
    pub src: IpEndpoint,
    pub dst: IpEndpoint,
}

/// The protocol and the two endpoints of a flow. The lower endpoint is `low`.
#[derive(Debug, Clone, Copy, PartialEq, Eq, PartialOrd, Ord, Hash)]
pub struct FlowKey {
    pub protocol: IpProtocol,
    pub low: IpEndpoint,
    pub high: IpEndpoint,
}

impl Flow {
    /// The flow of a frame, or `None` unless it carries a UDP or TCP packet.
    pub fn of_frame(frame: &Frame<'_>) -> Option<Flow>
        ensures { result ≡ flow_of frame.now }
    {
        match frame.carried {
            Carried::Packet(header, inner) => match inner {
                Transport::Udp(ports, _) => Some(Flow::between(
                    IpProtocol::Udp,
                    &header,
                    ports.src_port,
                    ports.dst_port,
                )),
                Transport::Tcp(segment) => Some(Flow::between(
                    IpProtocol::Tcp,
                    &header,
                    segment.src_port,
                    segment.dst_port,
                )),
                _ => None,
            },
            _ => None,
        }
    }

    // The flow of a packet with this header and these ports.
    fn between(protocol: IpProtocol, header: &IpRepr, src_port: u16, dst_port: u16) -> Flow
        ensures { result ≡ flow_between protocol header.now src_port dst_port }
    {
        Flow {
            protocol,
            src: IpEndpoint::new(header.src_addr(), src_port),
            dst: IpEndpoint::new(header.dst_addr(), dst_port),
        }
    }

    /// The key of the flow. Two flows have the same key exactly if they are equal or the reverse of each
    /// other.
    pub fn key(&self) -> FlowKey
        ensures value { result ≡ key_of self.now }
        ensures tells { (other : Flow) → (key_of other ≡ result) ↔ IsOneFlow other self.now }
    {
        in_order(&self.src, &self.dst);
        match self.src.cmp(&self.dst) {
            Ordering::Greater => FlowKey {
                protocol: self.protocol,
                low: self.dst,
                high: self.src,
            },
            _ => FlowKey {
                protocol: self.protocol,
                low: self.src,
                high: self.dst,
            },
        }
    }
}

// Exchanging two endpoints reverses their order; only equal endpoints compare as `Equal`.
fn in_order(a: &IpEndpoint, b: &IpEndpoint)
    ensures order { ⟦<IpEndpoint as Ord>⟧.cmp a.now b.now ≡ endpoint_cmp a.now b.now }
    ensures reverse { endpoint_cmp a.now b.now ≡ ordering_reverse (endpoint_cmp b.now a.now) }
    ensures equal { endpoint_cmp a.now b.now ≡ Equal → a.now ≡ b.now }
{
    endpoint_order(a, b);
    endpoint_order(b, a);
    order_agrees(a, b);
    order_agrees(b, a);
}
