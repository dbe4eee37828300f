ghost use Rattle.std.specs.Prelude.{◌≡◌};
ghost use Rattle.catalogue_contents.specs.Contents.{fare_in};

use place_map::Class;
use std::marker::Model;
use tariff::Fare;

/// The fares of a run.
#[derive(Clone, Copy, PartialEq, Eq)]
pub struct Fares {
    first: Fare,
    second: Fare,
}

impl Model for Fares {
    ghost use Rattle.catalogue_contents.specs.Contents.{FaresView};

    ghost Value = { FaresView };

    ghost view = { λ f. record { first = f.first; second = f.second } };

    ghost inverse = { λ n. record { first = n.first; second = n.second } };
}

impl Fares {
    /// The fares of both classes.
    pub fn new(first: Fare, second: Fare) -> Fares
        ensures { result ≡ record { first = first; second = second } }
    {
        Fares { first, second }
    }

    // The fare of a class.
    pub(crate) fn of(self, class: Class) -> Fare
        ensures { result ≡ fare_in class self }
    {
        match class {
            Class::First => self.first,
            Class::Second => self.second,
        }
    }
}
