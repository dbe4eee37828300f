// What says when cuts of the bookings are kept.
ghost use Rattle.std.specs.Prelude.{◌≡◌, ℕ, true};

/// Says when cuts are kept.
pub trait Keeper {
    /// What is shown of a cut that is kept, by its number.
    ghost kept: { Self → ℕ → Type 0 } = { λ _ _. Unit {0} };

    /// True only where the cut of this number is kept, for which it may wait. False says nothing to contracts.
    fn wait_kept(&self, cut: u64) -> bool
        ensures { result ≡ true → kept self.now cut };

    /// Whether nothing more may be taken on, since the journal is lost. It says nothing to contracts.
    fn is_lost(&self) -> bool;
}
