//! The calls of the router, and those with an index of routes.

ghost use Rattle.std.specs.Prelude.{◌≡◌, List, map};
ghost use Rattle.app_router.specs.Index.{IsIndex, block_of};
ghost use Rattle.ip_wire.specs.declared.IpAddress.{IpAddress};
ghost use Rattle.ip_wire.specs.declared.IpCidr.{IpCidr};

use app_router::forward;
use app_router::index::{Node, choose, find};
use app_router::route::Route;
use app_router::source::{SourceFault, check_source, check_source_by_index, is_martian};
use ip_wire::{EthernetAddress, HeaderFault, IpAddress, IpRepr};

/// A frame is forwarded in one way, or rejected for one fault.
#[tactic(auto, using(crate::proofs::RouterOnce::forward_returned, crate::proofs::RouterOnce::forward_frame))]
pub fn forward_once(
    frame: &mut [u8],
    other: &mut [u8],
    src_addr: EthernetAddress,
    dst_addr: EthernetAddress,
) -> (Result<IpRepr, HeaderFault>, Result<IpRepr, HeaderFault>)
    requires { frame.old ≡ other.old }
    ensures returned { result.0 ≡ result.1 }
    ensures frame { frame.new ≡ other.new }
{
    (
        forward(frame, src_addr, dst_addr),
        forward(other, src_addr, dst_addr),
    )
}

/// An index leads to one route, or to none.
pub fn choose_by_index_once(
    routes: &[Route],
    nodes: &[Node],
    addr: &IpAddress,
) -> (Option<Route>, Option<Route>)
    requires { IsIndex (map block_of routes.now) nodes.now }
    ensures { result.0 ≡ result.1 }
{
    (choose(routes, nodes, addr), choose(routes, nodes, addr))
}

/// An index has one place for an address, or none.
pub fn find_by_index_once(nodes: &[Node], addr: &IpAddress) -> (Option<u32>, Option<u32>)
    ensures { (blocks : List IpCidr) → IsIndex blocks nodes.now → result.0 ≡ result.1 }
{
    (find(nodes, addr), find(nodes, addr))
}

/// A source has one fault, or none.
#[tactic(auto, using(app_router::proofs::RoutesOnce::one_fault))]
pub fn check_source_once(
    src: &IpAddress,
    interface: u16,
    back: Option<u16>,
) -> (Option<SourceFault>, Option<SourceFault>)
    ensures { result.0 ≡ result.1 }
{
    (
        check_source(src, interface, back),
        check_source(src, interface, back),
    )
}

/// A source has one fault, or none, by an index of routes.
pub fn check_source_by_index_once(
    routes: &[Route],
    nodes: &[Node],
    src: &IpAddress,
    interface: u16,
) -> (Option<SourceFault>, Option<SourceFault>)
    requires { IsIndex (map block_of routes.now) nodes.now }
    ensures { result.0 ≡ result.1 }
{
    (
        check_source_by_index(routes, nodes, src, interface),
        check_source_by_index(routes, nodes, src, interface),
    )
}

/// An address is martian, or it is not.
#[tactic(auto, using(std::proofs::lemmas::Bool::Decides::same_from_decides))]
pub fn is_martian_once(addr: &IpAddress) -> (bool, bool)
    ensures { result.0 ≡ result.1 }
{
    (is_martian(addr), is_martian(addr))
}
