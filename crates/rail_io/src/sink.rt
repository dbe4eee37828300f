// Where bytes go.
ghost use Rattle.std.specs.Prelude.{◌≡◌, ◌≤◌, ◌<◌, ◌++◌, ℕ, List, Option, length};
ghost use Rattle.rail_io.specs.declared.sink.Pushed.TheVariants.{Failed};
ghost use Rattle.rail_io.specs.Faults.{Rose};
ghost use Rattle.rail_io.specs.Told.{Pushes, PushesBoth, HasFailed, TakesInTurn, taken_by, both_taken_by};

/// What a write answers.
#[derive(Clone, Copy, PartialEq, Eq)]
pub enum Pushed {
    /// So many bytes of the piece were taken, at least one.
    Took(usize),
    /// The write failed, and nothing was taken. A write that takes nothing counts as failed.
    Failed,
}

/// What a write of two pieces answers.
#[derive(Clone, Copy, PartialEq, Eq)]
pub enum PushedBoth {
    /// So many bytes of the front of both were taken, at least one.
    Took(usize),
    /// So many bytes of the front of both were taken, maybe none and not all, and then the sink failed.
    Failed(usize),
}

/// Takes bytes one after another.
pub trait Sink {
    /// All bytes taken, where the sink tells them.
    ghost told: { Self → Option (List ℕ) };

    /// How often it has failed. The count stands still at the last value of 64 bits, and at every
    /// call that doesn't fail.
    ghost faults: { Self → ℕ };

    /// That one call took just these bytes: the sink before it, the bytes, and the sink after it. Whoever knows nothing
    /// of a sink but this trait can show that of it only by such a call.
    ghost takes: { Self → List ℕ → Self → Type 0 } = { λ _ _ _. Unit {0} };

    /// That it was told once that what is written from then on may leave only once the cut of a number is kept: the
    /// sink before it, the number, and the sink after it. Whoever knows nothing of a sink but this trait can show that
    /// of it only by telling it. A sink that knows no journal stays as it was.
    ghost held: { Self → ℕ → Self → Type 0 } = { λ before _ after. after ≡ before };

    /// Takes some of the bytes at the front of `piece`, which isn't empty.
    fn write(&mut self, piece: &[u8]) -> Pushed
        requires { 0 < length piece.now }
        ensures pushes { Pushes (told self.old) (told self.new) piece.now result }
        ensures takes { takes self.old (taken_by piece.now result) self.new }
        ensures never_falls { faults self.old ≤ faults self.new }
        ensures cause { result ≡ Failed → Rose (faults self.old) (faults self.new) }
        ensures steady { (result ≡ Failed → ⊥) → faults self.new ≡ faults self.old };

    /// Takes some of the bytes at the front of `first`, which isn't empty, with `second` after it. A sink that has no
    /// better way writes one after the other.
    fn write_both(&mut self, first: &[u8], second: &[u8]) -> PushedBoth
        requires { 0 < length first.now }
        ensures pushes { PushesBoth (told self.old) (told self.new) (first.now ++ second.now) result }
        ensures takes { TakesInTurn takes self.old (both_taken_by (first.now ++ second.now) result) self.new }
        ensures never_falls { faults self.old ≤ faults self.new }
        ensures cause { HasFailed result → Rose (faults self.old) (faults self.new) }
        ensures steady { (HasFailed result → ⊥) → faults self.new ≡ faults self.old }
    {
        let Pushed::Took(count) = self.write(first) else {
            return PushedBoth::Failed(0);
        };
        if count < first.len() || second.is_empty() {
            return PushedBoth::Took(count);
        }
        match self.write(second) {
            Pushed::Took(more) => PushedBoth::Took(count + more),
            Pushed::Failed => PushedBoth::Failed(count),
        }
    }

    /// What is written from now on may leave only once the cut of this number is kept. A sink that knows no journal
    /// doesn't hear it.
    fn hold_until(&mut self, cut: u64)
        ensures held { held self.old cut self.new }
        ensures same { told self.new ≡ told self.old }
        ensures faults { faults self.new ≡ faults self.old };
}
