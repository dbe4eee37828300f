// Which cuts are kept.
ghost use Rattle.std.specs.Prelude.{◌≡◌, ◌<◌, ◌≤◌, ◌↔◌, max, true, false};
ghost use Rattle.answer_gate.specs.Receipts.{MayLeave};

use crate::receipt::Receipt;
use std::marker::PhantomData;

/// Which cuts are kept, to stand in a lock, with what was shown of the last one.
#[derive(Drop)]
pub struct Tally<K: Receipt> {
    /// The last cut that is kept. All before it are.
    kept: u64,
    /// Whether more may be.
    goes_on: bool,
    of: PhantomData<K>,
    ghost shown: { MayLeave K.kept kept },
}

impl<K: Receipt> Tally<K> {
    /// None is kept.
    pub fn new() -> Tally<K>
        ensures none { result.kept ≡ 0 }
        ensures goes_on { result.goes_on ≡ true }
    {
        Tally {
            kept: 0,
            goes_on: true,
            of: PhantomData,
        }
    }

    /// The cut of this number is kept.
    pub fn keep(&mut self, cut: u64)
        requires { K.kept cut }
        ensures kept { self.new.kept ≡ max self.old.kept cut }
        ensures goes_on { self.new.goes_on ≡ self.old.goes_on }
    {
        if self.kept < cut {
            self.kept = cut;
        }
    }

    /// No more cuts will be kept.
    pub fn end(&mut self)
        ensures kept { self.new.kept ≡ self.old.kept }
        ensures ended { self.new.goes_on ≡ false }
    {
        self.goes_on = false;
    }

    /// Whether the cut of this number isn't kept yet, and may be.
    pub fn is_awaited(&self, cut: u64) -> bool
        ensures { (result ≡ true) ↔ ((self.now.goes_on ≡ true) × (self.now.kept < cut)) }
    {
        self.goes_on && self.kept < cut
    }

    /// Whether the cut of this number is kept, which is then shown of it or of a later one; of cut 0 nothing is shown.
    pub fn has_kept(&self, cut: u64) -> bool
        ensures kept { (result ≡ true) ↔ (cut ≤ self.now.kept) }
        ensures shown { result ≡ true → MayLeave K.kept cut }
    {
        cut <= self.kept
    }
}
