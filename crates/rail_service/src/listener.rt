// Where connections come from.
ghost use Rattle.std.specs.Prelude.{◌≡◌, ◌≤◌, ℕ};
ghost use Rattle.rail_io.specs.Faults.{Rose};
ghost use Rattle.rail_service.specs.Listeners.{HandingBy, ListenerView, Binds, Accepts, HasFailed, OfStream};
ghost use Rattle.rail_service.specs.declared.listener.Bound.TheVariants.{Failed};

use crate::waiting::Waiting;
use rail_io::{Sink, Source};

/// What a bind answers.
#[derive(Clone, Copy, PartialEq, Eq)]
pub enum Bound {
    /// The listener listens at the port.
    Ready,
    /// It doesn't, and is as before.
    Failed,
}

/// What an accept answers.
pub enum Accepted<I, O> {
    /// The next stream.
    Stream(Waiting<I, O>),
    /// It failed to get a stream.
    Failed,
    /// As many streams as the limit says were handed out.
    Closed,
}

/// Hands out streams, up to a limit.
pub trait Listener {
    /// What comes of a stream.
    type Input: Source + Drop;

    /// What goes into it.
    type Output: Sink + Drop;

    /// Its port, its limit, and how many streams it has handed out.
    ghost told: { Self → ListenerView };

    /// How often it has failed. The count stands still at the last value of 64 bits, and at every call that doesn't
    /// fail.
    ghost faults: { Self → ℕ };

    /// That one call made the second listener of the first. Whoever knows nothing of a listener but this trait can show
    /// that of it only by a call.
    ghost becomes: { Self → Self → Type 0 };

    /// That an accept handed out a stream: the listener before it, what the stream's source and its sink told, and the
    /// listener after it. Whoever knows nothing of a listener but this trait can show that of it only by an accept that
    /// gave such a stream.
    ghost hands: { HandingBy Self };

    /// Listens at a port, from 1 to 65,535, from now on. Ready sets the port alone.
    fn bind(&mut self, port: u16) -> Bound
        ensures binds { Binds (told self.old) port (told self.new) result }
        ensures becomes { becomes self.old self.new }
        ensures never_falls { faults self.old ≤ faults self.new }
        ensures cause { result ≡ Failed → Rose (faults self.old) (faults self.new) }
        ensures steady { (result ≡ Failed → ⊥) → faults self.new ≡ faults self.old };

    /// Hands out the next stream, for which it may wait. `Closed` comes exactly where the limit is reached.
    fn accept(&mut self) -> Accepted<Self::Input, Self::Output>
        ensures accepts { Accepts (told self.old) (told self.new) result }
        ensures becomes { becomes self.old self.new }
        ensures gives { OfStream result (λ waiting.
            hands self.old (Self.Input.told waiting.input) (Self.Output.told waiting.output) self.new) }
        ensures never_falls { faults self.old ≤ faults self.new }
        ensures cause { HasFailed result → Rose (faults self.old) (faults self.new) }
        ensures steady { (HasFailed result → ⊥) → faults self.new ≡ faults self.old };

    /// Sets the limit alone.
    fn set_limit(&mut self, connections: u32)
        ensures limit { told self.new ≡ record (told self.old) { limit = connections } }
        ensures becomes { becomes self.old self.new }
        ensures faults { faults self.new ≡ faults self.old };
}
