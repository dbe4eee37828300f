// What members were handed out, counted together.
ghost use Rattle.std.specs.Prelude.{◌≡◌, ◌+◌, ℕ};

use crate::worker::Worker;
use std::sync::ledger::{Ledger, Share};

/// A worker with parts of a ledger.
pub trait Gives<N: Ledger>: Worker {
    /// How many parts of the ledger it has.
    ghost parts: { Self → ℕ };

    /// What it has counted.
    ghost amount: { Self → ℕ };

    /// Gives both to this share, at its end.
    fn give(self, all: &mut Share<N>)
        ensures parts { all.new.parts ≡ all.old.parts + parts self }
        ensures amount { all.new.amount ≡ all.old.amount + amount self };
}
