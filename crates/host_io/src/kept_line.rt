// A line as a sink whose bytes leave only once they may.
ghost use Rattle.std.specs.Prelude.{◌≡◌, ◌≤◌, ◌<◌, ◌++◌, ◌⊎◌, ℕ, [], max, true, false};
ghost use Rattle.rail_io.specs.Told.{Pushes};
ghost use Rattle.rail_io.specs.declared.sink.Pushed.TheVariants.{Failed};
ghost use Rattle.host_io.specs.Wires.{limits_of};

use crate::line::Line;
use crate::wire::Wire;
use rail_io::{Keeper, Pushed, PushedBoth, Sink, pushed_of};

/// A line as a sink. One piece goes out by a call for one, and two go out by a call for both, which costs the system
/// more. Nothing goes out before its keeper finds the cut kept that it is held for. What that means the keeper shows.
#[derive(Drop)]
pub(crate) struct KeptLine<W: Wire + Drop, K: Keeper + Drop> {
    pub(crate) line: Line<W>,
    pub(crate) keeper: K,
    /// The cut that has to be kept before anything more goes out: 0 for none.
    cut: u64,
    /// A cut that was found kept: 0 for none.
    kept: u64,
    faults: u64,
    ghost shown: { 0 < kept → ∥ K.kept keeper kept ∥₁ },
}

impl<W: Wire + Drop, K: Keeper + Drop> KeptLine<W, K> {
    /// A line that is held for no cut.
    pub(crate) fn of(line: Line<W>, keeper: K) -> KeptLine<W, K>
        ensures line { result.line ≡ line }
        ensures free { result.cut ≡ 0 }
        ensures keeper { result.keeper ≡ keeper }
    {
        KeptLine {
            line,
            keeper,
            cut: 0,
            kept: 0,
            faults: 0,
        }
    }

    // Waits until bytes may go out. It is to be false where they never may: of false no clause says a cause.
    fn may_leave(&mut self) -> bool
        ensures line { self.new.line ≡ self.old.line }
        ensures faults { self.new.faults ≡ self.old.faults }
        ensures free { result ≡ true → self.new.cut ≤ self.new.kept }
        ensures held { (self.new.cut ≡ self.old.cut) × (self.new.keeper ≡ self.old.keeper) }
    {
        if self.cut <= self.kept {
            return true;
        }
        if self.keeper.wait_kept(self.cut) {
            self.kept = self.cut;
            return true;
        }
        false
    }

    // Lets a piece go out, whose cut was found kept.
    fn let_out(&mut self, piece: &[u8]) -> Pushed
        requires kept { self.old.cut ≤ self.old.kept }
        ensures pushes { Pushes (W.outgoing self.old.line.wire) (W.outgoing self.new.line.wire) piece.now result }
        ensures faults { self.new.faults ≡ self.old.faults }
        ensures left { W.incoming self.new.line.wire ≡ W.incoming self.old.line.wire }
        ensures limits { limits_of (W.settings self.new.line.wire) ≡ limits_of (W.settings self.old.line.wire) }
        ensures held { (self.new.cut ≡ self.old.cut) × (self.new.keeper ≡ self.old.keeper) }
        ensures kept { self.new.kept ≡ self.old.kept }
    {
        pushed_of(self.line.send(piece))
    }

    // Likewise both pieces.
    fn let_both_out(&mut self, first: &[u8], second: &[u8]) -> Pushed
        requires kept { self.old.cut ≤ self.old.kept }
        ensures pushes { Pushes (W.outgoing self.old.line.wire) (W.outgoing self.new.line.wire)
            (first.now ++ second.now) result }
        ensures faults { self.new.faults ≡ self.old.faults }
        ensures left { W.incoming self.new.line.wire ≡ W.incoming self.old.line.wire }
        ensures limits { limits_of (W.settings self.new.line.wire) ≡ limits_of (W.settings self.old.line.wire) }
        ensures held { (self.new.cut ≡ self.old.cut) × (self.new.keeper ≡ self.old.keeper) }
        ensures kept { self.new.kept ≡ self.old.kept }
    {
        pushed_of(self.line.send_both(first, second))
    }

    // Lets a piece go out once its cut is found kept. It is to fail where that never will be.
    fn push(&mut self, piece: &[u8]) -> Pushed
        ensures pushes { Pushes (W.outgoing self.old.line.wire) (W.outgoing self.new.line.wire) piece.now result }
        ensures faults { self.new.faults ≡ self.old.faults }
        ensures left { W.incoming self.new.line.wire ≡ W.incoming self.old.line.wire }
        ensures limits { limits_of (W.settings self.new.line.wire) ≡ limits_of (W.settings self.old.line.wire) }
        ensures held { (self.new.cut ≡ self.old.cut) × (self.new.keeper ≡ self.old.keeper) }
        ensures kept { (result ≡ Failed → ⊥) → self.old.cut ≤ self.new.kept }
    {
        if self.may_leave() {
            return self.let_out(piece);
        }
        Pushed::Failed
    }

    // Likewise both pieces.
    fn push_both(&mut self, first: &[u8], second: &[u8]) -> Pushed
        ensures pushes { Pushes (W.outgoing self.old.line.wire) (W.outgoing self.new.line.wire)
            (first.now ++ second.now) result }
        ensures faults { self.new.faults ≡ self.old.faults }
        ensures left { W.incoming self.new.line.wire ≡ W.incoming self.old.line.wire }
        ensures limits { limits_of (W.settings self.new.line.wire) ≡ limits_of (W.settings self.old.line.wire) }
        ensures held { (self.new.cut ≡ self.old.cut) × (self.new.keeper ≡ self.old.keeper) }
        ensures kept { (result ≡ Failed → ⊥) → self.old.cut ≤ self.new.kept }
    {
        if self.may_leave() {
            return self.let_both_out(first, second);
        }
        Pushed::Failed
    }
}

impl<W: Wire + Drop, K: Keeper + Drop> Sink for KeptLine<W, K> {
    ghost told = { λ s. W.outgoing s.line.wire };

    ghost faults = { λ s. s.faults };

    // Bytes go out only where the line has found a cut kept that is no earlier than the one that it is held for.
    ghost takes = { λ before bytes after. (W.incoming after.line.wire ≡ W.incoming before.line.wire)
        × (limits_of (W.settings after.line.wire) ≡ limits_of (W.settings before.line.wire))
        × (after.cut ≡ before.cut) × (after.keeper ≡ before.keeper)
        × ((bytes ≡ [] → ⊥) → before.cut ≤ after.kept) };

    fn write(&mut self, piece: &[u8]) -> Pushed {
        let pushed = self.push(piece);
        if let Pushed::Failed = pushed {
            self.faults = self.faults.saturating_add(1);
        }
        pushed
    }

    fn write_both(&mut self, first: &[u8], second: &[u8]) -> PushedBoth {
        let Pushed::Took(count) = self.push_both(first, second) else {
            self.faults = self.faults.saturating_add(1);
            return PushedBoth::Failed(0);
        };
        PushedBoth::Took(count)
    }

    ghost held = { λ before cut after. (after.cut ≡ max before.cut cut) × (after.line ≡ before.line) };

    fn hold_until(&mut self, cut: u64) {
        self.cut = self.cut.max(cut);
    }
}
