ghost use Rattle.std.specs.Prelude.{◌≡◌, ◌≤◌};

use std::marker::Model;

/// What an adult pays on a run, in minor units: a base, and an amount for each leg. Each is at most 10,000,000.
#[derive(Clone, Copy, PartialEq, Eq)]
pub struct Fare {
    pub base: u32,
    pub per_leg: u32,
}

impl Model for Fare {
    ghost use Rattle.std.specs.Prelude.{◌≤◌};
    ghost use Rattle.tariff.specs.Prices.{FareAmounts};

    ghost Value = { FareAmounts };

    ghost view = { λ f. record { base = f.base; per_leg = f.per_leg } };

    ghost invariant = { λ f. (f.base ≤ 10_000_000) × (f.per_leg ≤ 10_000_000) };

    ghost inverse = { λ n. record { base = n.base; per_leg = n.per_leg } };
}

impl Fare {
    /// The fare of these amounts.
    pub fn new(base: u32, per_leg: u32) -> Fare
        requires base { base ≤ 10_000_000 }
        requires per_leg { per_leg ≤ 10_000_000 }
        ensures amounts { result ≡ record { base = base; per_leg = per_leg } }
    {
        Fare { base, per_leg }
    }
}
