// Where moments come from, and what a clock is told of requests and commands.
ghost use Rattle.std.specs.Prelude.{◌≡◌, ℕ, Option, IfSome};
ghost use Rattle.rail_io.specs.Clocks.{MovesUp};

use rail_time::Moment;

/// What a command has to do with bookings.
#[derive(Clone, Copy, PartialEq, Eq)]
pub enum Reach {
    /// It changes none and promises nothing of one: a search, a list of places.
    Apart,
    /// It tells of bookings, and changes none.
    Tells,
    /// It may change some.
    Changes,
}

/// What a request asks for, by its route alone.
#[derive(Clone, Copy, PartialEq, Eq)]
pub enum RouteName {
    Offers,
    Book,
    Reserve,
    Show,
    Release,
    Confirm,
    Fulfil,
    QuoteRefund,
    AcceptRefund,
    QuoteExchange,
    AcceptExchange,
    Places,
    Sweep,
}

/// A clock.
pub trait Clock {
    ghost use Rattle.rail_io.specs.declared.clock.Reach.{Reach};

    /// The readings to come, by their numbers from 0, where the clock tells them.
    ghost told: { Self → Option (ℕ → ℕ) };

    /// That a command of this reach has begun, and has no answer yet. Whoever knows nothing of the clock but this trait
    /// can show that only by a call of `begin`.
    ghost begun: { Self → Reach → Type 0 } = { λ _ _. Unit {0} };

    /// That a call of `end` gave this cut: the clock before it, the cut, and the clock after it. Whoever knows nothing
    /// of the clock but this trait can show that only by such a call.
    ghost ends: { Self → ℕ → Self → Type 0 } = { λ _ _ _. Unit {0} };

    /// The first of the readings to come. Each later one moves up by one.
    fn now(&mut self) -> Moment
        ensures first { IfSome (told self.old) (λ readings. result ≡ readings 0) }
        ensures rest { MovesUp (told self.old) (told self.new) };

    /// A request came that has this route. It may still be refused for its key or its body; then no command begins.
    fn arrive(&mut self, route: RouteName)
        ensures same { told self.new ≡ told self.old }
    {
        let _ = route;
    }

    /// A command of this reach begins. It may wait.
    fn begin(&mut self, reach: Reach)
        ensures same { told self.new ≡ told self.old }
        ensures begun { begun self.new reach };

    /// The command that began last has its answer. The answer may leave once the cut of this number is kept; at once,
    /// where it is 0.
    fn end(&mut self) -> u64
        ensures same { told self.new ≡ told self.old }
        ensures ends { ends self.old result self.new };
}
