// What it means that cuts are kept.
ghost use Rattle.std.specs.Prelude.{ℕ};

use std::marker::Brand;

/// A receipt for a kept cut. Whoever has a cut kept hands one in, and shows what it means; whoever finds a cut kept has
/// that shown, of it or of a later one.
pub trait Receipt {
    /// What it means that the cut of this number is kept.
    ghost kept: { ℕ → Type 0 };

    /// The number of the cut that a receipt is for.
    ghost of: { Self → ℕ };
}

impl Receipt for Brand {
    ghost kept = { λ _. Unit {0} };

    ghost of = { λ _. 0 };
}
