//! What `==` computes for any two values of a type.

ghost use Rattle.promises.specs.Same.{Compares, SameCarried, SameFrame, SameOption, SameSegment, SameTransport};

use ip_wire::{Carried, Frame, TcpOption, TcpRepr, Transport, laws};

pub(super) fn tcp_options()
    ensures { Compares SameOption ⟦<TcpOption<'static> as PartialEq>⟧.eq }
{}

pub(super) fn segments()
    ensures { Compares SameSegment ⟦<TcpRepr<'static> as PartialEq>⟧.eq }
{
    laws::eq_is_equality();
}

pub(super) fn transports()
    ensures { Compares SameTransport ⟦<Transport<'static> as PartialEq>⟧.eq }
{
    laws::eq_is_equality();
    segments();
}

pub(super) fn payloads()
    ensures { Compares SameCarried ⟦<Carried<'static> as PartialEq>⟧.eq }
{
    laws::eq_is_equality();
    laws::eq_is_equality_ip();
    transports();
}

pub(super) fn frames()
    ensures { Compares SameFrame ⟦<Frame<'static> as PartialEq>⟧.eq }
{
    laws::eq_is_equality();
    payloads();
}
