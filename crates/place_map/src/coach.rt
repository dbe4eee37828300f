ghost use Rattle.std.specs.Prelude.{◌≡◌, ◌≤◌};

use rail_ids::RunNo;
use std::marker::Model;

/// The class of a coach.
#[derive(Clone, Copy, PartialEq, Eq)]
pub enum Class {
    First,
    Second,
}

/// A place of a run. `traits` is a sum of 1 (by a window), 2 (by an aisle), 4 (at a table), 8 (in a quiet zone) and 16
/// (with power).
#[derive(Clone, Copy, PartialEq, Eq)]
pub struct Place {
    pub run: RunNo,
    pub coach: u16,
    pub number: u16,
    pub class: Class,
    pub traits: u8,
}

/// One place for each number from `first` to `last`, all with these traits.
#[derive(Clone, Copy, PartialEq, Eq)]
pub struct Group {
    pub first: u16,
    pub last: u16,
    pub traits: u8,
}

impl Model for Group {
    ghost use Rattle.std.specs.Prelude.{◌≤◌};
    ghost use Rattle.place_map.specs.Seats.{Seats};

    ghost Value = { Seats };

    ghost view = { λ g. record { first = g.first; last = g.last; traits = g.traits } };

    ghost invariant = { λ g. g.first ≤ g.last };

    ghost inverse = { λ n. record { first = n.first; last = n.last; traits = n.traits } };
}

impl Group {
    /// The places from the first number to the last, each with these traits.
    pub fn new(first: u16, last: u16, traits: u8) -> Group
        requires { first ≤ last }
        ensures group { result ≡ record { first = first; last = last; traits = traits } }
    {
        Group {
            first,
            last,
            traits,
        }
    }
}

/// A coach of a run, or a part of one: two coaches of one number are one coach.
#[derive(Drop)]
pub struct Coach {
    pub number: u16,
    pub class: Class,
    pub groups: Vec<Group>,
}

/// Why a coach was not added.
#[derive(Clone, Copy, PartialEq, Eq)]
pub enum PlaceFault {
    /// The run would have over 1,200 places, or all runs together over 4,194,304.
    TooManyPlaces,
    /// This place of the coach would stand twice in the run. It is the first such place in order.
    DoublePlace { coach: u16, number: u16 },
    /// Want of memory.
    NoMemory,
}
