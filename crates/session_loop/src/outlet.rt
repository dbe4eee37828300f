// Where the answers of a connection go.
ghost use Rattle.std.specs.Prelude.{◌≡◌, ◌≤◌, ◌<◌, ◌++◌, ℕ, List, Option, length};
ghost use Rattle.rail_io.specs.declared.sink.Pushed.TheVariants.{Failed};
ghost use Rattle.rail_io.specs.Faults.{Rose};
ghost use Rattle.rail_io.specs.Told.{Pushes, PushesBoth, HasFailed, TakesInTurn, taken_by, both_taken_by};

use rail_io::{Pushed, PushedBoth, Sink};

/// Takes the answers of a connection, and says what may be handed to it next. Whoever knows nothing of an outlet but
/// this trait has to show, at each single call, that it permits these bytes: so what it permits is kept at each moment,
/// also in a run that never ends.
pub trait Outlet {
    /// All bytes taken, where the outlet tells them.
    ghost told: { Self → Option (List ℕ) };

    /// How often it has failed.
    ghost faults: { Self → ℕ };

    /// That one call took just these bytes: the outlet before it, the bytes, and the outlet after it. Whoever knows
    /// nothing of an outlet but this trait can show that of it only by such a call.
    ghost takes: { Self → List ℕ → Self → Type 0 };

    /// That it was told once that what is handed to it from then on may leave only once the cut of a number is kept:
    /// the outlet before it, the number, and the outlet after it.
    ghost held: { Self → ℕ → Self → Type 0 };

    /// Which bytes may be handed to it next.
    ghost permits: { Self → List ℕ → Type 0 };

    /// Takes some of the bytes at the front of `piece`, which isn't empty.
    fn hand(&mut self, piece: &[u8]) -> Pushed
        requires some { 0 < length piece.now }
        requires permitted { permits self.old piece.now }
        ensures pushes { Pushes (told self.old) (told self.new) piece.now result }
        ensures takes { takes self.old (taken_by piece.now result) self.new }
        ensures never_falls { faults self.old ≤ faults self.new }
        ensures cause { result ≡ Failed → Rose (faults self.old) (faults self.new) }
        ensures steady { (result ≡ Failed → ⊥) → faults self.new ≡ faults self.old };

    /// Takes some of the bytes at the front of `first`, which isn't empty, and `second` after it.
    fn hand_both(&mut self, first: &[u8], second: &[u8]) -> PushedBoth
        requires some { 0 < length first.now }
        requires permitted { permits self.old (first.now ++ second.now) }
        ensures pushes { PushesBoth (told self.old) (told self.new) (first.now ++ second.now) result }
        ensures takes { TakesInTurn takes self.old (both_taken_by (first.now ++ second.now) result) self.new }
        ensures never_falls { faults self.old ≤ faults self.new }
        ensures cause { HasFailed result → Rose (faults self.old) (faults self.new) }
        ensures steady { (HasFailed result → ⊥) → faults self.new ≡ faults self.old };

    /// What is handed over from now on may leave only once the cut of this number is kept.
    fn hold_for(&mut self, cut: u64)
        ensures held { held self.old cut self.new }
        ensures same { told self.new ≡ told self.old }
        ensures faults { faults self.new ≡ faults self.old };
}

/// A sink permits all.
impl<K: Sink> Outlet for K {
    ghost told = { λ sink. K.told sink };

    ghost faults = { λ sink. K.faults sink };

    ghost takes = { λ before bytes after. K.takes before bytes after };

    ghost held = { λ before cut after. K.held before cut after };

    ghost permits = { λ _ _. Unit {0} };

    #[inline(always)]
    fn hand(&mut self, piece: &[u8]) -> Pushed {
        self.write(piece)
    }

    #[inline(always)]
    fn hand_both(&mut self, first: &[u8], second: &[u8]) -> PushedBoth {
        self.write_both(first, second)
    }

    #[inline(always)]
    fn hold_for(&mut self, cut: u64) {
        self.hold_until(cut)
    }
}
