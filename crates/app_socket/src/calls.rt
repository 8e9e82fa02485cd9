//! Calls of the application that need no ring.

ghost use Rattle.std.specs.Prelude.{◌≡◌, ◌+◌, ℕ, List, true, false, min, IfSome, None, option_map};
ghost use Rattle.tcp_stream.specs.Network.{World, Close, happens};
ghost use Rattle.tcp_stream.specs.Waits.{Waits, unsent_of};
ghost use Rattle.app_connection.specs.Endpoints.{InFits, OutFits, endpoint_of};
ghost use Rattle.app_connection.specs.SetUp.{In_closed, In_listen};
ghost use Rattle.app_connection.specs.States.{may_close, state_closed, state_from};
ghost use Rattle.app_connection.specs.Steps.{Steps};
ghost use Rattle.app_connection.specs.Worlds.{replied};
ghost use Rattle.app_connection.specs.declared.state.State.TheVariants as State;
ghost use Rattle.app_connection.specs.declared.step.Event.TheVariants as Move;
ghost use Rattle.app_socket.specs.Promises.{RemembersFlight};

use crate::socket::Socket;
use app_connection::Reply;

impl Socket {
    /// Whether the ring of what is sent has a size that fits.
    pub fn fits_outgoing(&self, outgoing: usize) -> bool
        ensures some { result ≡ true → OutFits self.now.connection.sending outgoing }
        ensures all { OutFits self.now.connection.sending outgoing → result ≡ true }
    {
        self.connection.fits_outgoing(outgoing)
    }

    /// Whether the ring of what comes has a size that fits.
    pub fn fits_incoming(&self, incoming: usize) -> bool
        ensures some { result ≡ true → InFits self.now.connection.receiving incoming }
        ensures all { InFits self.now.connection.receiving incoming → result ≡ true }
    {
        self.connection.fits_incoming(incoming)
    }

    /// The same as `step` with `Listen`.
    pub fn listen(&mut self)
        ensures same { self.new ≡ record self.old { connection = self.new.connection } }
        ensures listens { state_from self.old.connection ≡ State.Closed → endpoint_of self.new.connection ≡ In_listen }
        ensures stays { (state_from self.old.connection ≡ State.Closed → ⊥) → self.new ≡ self.old }
        ensures steps { (outgoing incoming : List ℕ)
            → Steps self.old.connection self.new.connection outgoing incoming incoming Move.Listen None }
    {
        self.connection.listen();
    }

    /// The same as `step` with `Close`.
    pub fn close(&mut self)
        ensures same { self.new ≡ record self.old { connection = self.new.connection } }
        ensures state { state_from self.new.connection ≡ state_closed (state_from self.old.connection) }
        ensures receiving { self.new.connection.receiving ≡ self.old.connection.receiving }
        ensures waits { may_close (state_from self.old.connection) ≡ true → (there : World) (outgoing : List ℕ)
            → Waits there self.old.connection.sending outgoing
            → Waits (happens there Close) self.new.connection.sending outgoing }
        ensures stays { may_close (state_from self.old.connection) ≡ false
            → self.new.connection.sending ≡ self.old.connection.sending }
        ensures steps { (outgoing incoming : List ℕ)
            → Steps self.old.connection self.new.connection outgoing incoming incoming Move.Close None }
        ensures sound { RemembersFlight self.old → RemembersFlight self.new }
    {
        self.connection.close();
    }

    /// The same as `step` with `Abort`, without a segment to hold the RST.
    pub fn abort(&mut self) -> Option<Reply>
        ensures same { self.new ≡ record self.old { connection = self.new.connection } }
        ensures closed { endpoint_of self.new.connection ≡ In_closed }
        ensures sending { self.new.connection.sending ≡ self.old.connection.sending }
        ensures receiving { self.new.connection.receiving ≡ self.old.connection.receiving }
        ensures reset { IfSome result (λ r. r.rst ≡ true) }
        ensures steps { (outgoing incoming : List ℕ)
            → Steps self.old.connection self.new.connection outgoing incoming incoming Move.Abort
            (option_map replied result) }
    {
        self.connection.abort()
    }

    /// How many items the peer has not acknowledged: bytes that were written, a SYN and a FIN.
    pub fn waiting(&self) -> usize
        ensures { (size : ℕ) → OutFits self.now.connection.sending size → result
            ≡ min 18446744073709551615 (self.now.connection.sending.flight + unsent_of self.now.connection.sending) }
    {
        (self.connection.flight() as usize).saturating_add(self.connection.unsent())
    }
}
