//! Worked examples, frame by frame. `tests/judge` has those of the calls that the C library has too.

ghost use Rattle.std.specs.Prelude.{◌≡◌};

mod calls;
mod flows;
mod hop_guard;
mod links;
mod nat;
mod replies;
mod router;
mod routes;
mod sack;
mod uses;
mod views;
