//! Packets that are cut into fragments and put together, worked outside.

ghost use Rattle.std.specs.Prelude.{◌≡◌};

mod datagrams;
mod ipv4_fragments;
mod ipv6_fragments;
mod partials;
mod reassembly;
