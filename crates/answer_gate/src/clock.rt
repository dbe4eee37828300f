// A clock that goes through a gate.
ghost use Rattle.std.specs.Prelude.{◌≡◌};
ghost use Rattle.rail_io.specs.declared.clock.Reach.TheVariants.{Apart};

use crate::gate::Gate;
use crate::state::Inside;
use rail_io::{Clock, Reach, RouteName};
use rail_time::Moment;
use std::sync::Wait;

/// A clock that enters the gate where a command begins that may change bookings: then it holds an `Inside`. It is to
/// leave the gate where that command has its answer. Where there is no gate it is to do as its clock does.
///
/// What its calls do to the value under the gate's lock, and that its `Inside` is one of that gate, is read (`State`).
#[derive(Drop)]
pub struct GatedClock<'g, R, C> {
    clock: C,
    gate: Option<&'g Gate>,
    rt: &'g R,
    /// What the command that is under way has to do with bookings.
    reach: Reach,
    /// Is had while one is under way that may change some.
    inside: Option<Inside>,
}

impl<'g, R, C: Clock> GatedClock<'g, R, C> {
    /// The clock before the gate, with no command under way.
    pub fn new(clock: C, gate: Option<&'g Gate>, rt: &'g R) -> GatedClock<'g, R, C>
        ensures clock { C.told result.clock ≡ C.told clock }
        ensures gate { result.gate ≡ gate.entry }
        ensures idle { result.reach ≡ Apart }
    {
        GatedClock {
            clock,
            gate,
            rt,
            reach: Reach::Apart,
            inside: None,
        }
    }

    /// The clock before the gate, at its end.
    pub fn into_inner(self) -> C
        ensures { C.told result ≡ C.told self.entry.clock }
    {
        let GatedClock { clock, .. } = self;
        clock
    }
}

impl<R: Wait, C: Clock> Clock for GatedClock<'_, R, C> {
    ghost use Rattle.std.specs.Prelude.{◌<◌, IfSome, IsSome};
    ghost use Rattle.rail_io.specs.declared.clock.Reach.TheVariants.{Changes};

    ghost told = { λ c. C.told c.clock };

    // The command that began is the one under way. Where there is a gate, and that command may change bookings, an
    // `Inside` is held, which some `State` gave.
    ghost begun = { λ c reach. (c.reach ≡ reach) × (reach ≡ Changes → IfSome c.gate (λ _. IsSome c.inside)) };

    // Whoever holds an `Inside` then waits for a cut.
    ghost ends = { λ c cut _. IfSome c.gate (λ _. IsSome c.inside → 0 < cut) };

    fn now(&mut self) -> Moment {
        self.clock.now()
    }

    #[inline(always)]
    fn arrive(&mut self, route: RouteName) {
        self.clock.arrive(route);
    }

    fn begin(&mut self, reach: Reach)
        ensures same { C.told self.new.clock ≡ C.told self.old.clock }
        ensures gate { self.new.gate ≡ self.old.gate }
        ensures begun { (self.new.reach ≡ reach)
            × (reach ≡ Changes → IfSome self.new.gate (λ _. IsSome self.new.inside)) }
    {
        self.clock.begin(reach);
        self.reach = reach;
        match self.gate {
            Some(gate) if reach == Reach::Changes => self.inside = Some(gate.enter(self.rt)),
            _ => {}
        }
    }

    fn end(&mut self) -> u64
        ensures same { C.told self.new.clock ≡ C.told self.old.clock }
        ensures idle { self.new.reach ≡ Apart }
        ensures gate { self.new.gate ≡ self.old.gate }
        ensures ends { IfSome self.old.gate (λ _. IsSome self.old.inside → 0 < result) }
    {
        let reach = self.reach;
        self.reach = Reach::Apart;
        let cut = self.clock.end();
        let Some(gate) = self.gate else {
            return cut;
        };
        if let Some(inside) = self.inside.take() {
            return gate.leave(self.rt, inside).number();
        }
        if reach == Reach::Tells {
            gate.tell(self.rt).number()
        } else {
            0
        }
    }
}
