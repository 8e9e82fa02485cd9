//! The choice of a route, and the errors of the router.

ghost use Rattle.std.specs.Prelude.{◌≡◌, MatchOption, None};
ghost use Rattle.app_host.specs.Message.{values_of};

use app_host::{Interface, MessageFrame};
use app_router::route::{Route, choose};
use app_router::{Problem, error};
use ip_wire::IpAddress;

/// The routes to an address give one, or none.
pub fn choose_once(routes: &[Route], addr: &IpAddress) -> (Option<Route>, Option<Route>)
    ensures { result.0 ≡ result.1 }
{
    (choose(routes, addr), choose(routes, addr))
}

/// There is one error about a packet, with one header and one message, or none.
pub fn error_once<'a>(
    frame: &'a [u8],
    ours: &Interface,
    problem: Problem,
) -> (Option<MessageFrame<'a>>, Option<MessageFrame<'a>>)
    ensures { MatchOption result.0 (result.1 ≡ None)
        (λ f. MatchOption result.1 ⊥ (λ g. (f.header ≡ g.header) × (values_of f ≡ values_of g))) }
{
    (error(frame, ours, problem), error(frame, ours, problem))
}
