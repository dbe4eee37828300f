ghost use Rattle.std.specs.Prelude.{◌≡◌, ◌<◌, ◌≤◌, ◌+◌, ◌*◌, ◌^◌, [], length, insert, remove, All, OnErr, IfOk};
ghost use Rattle.std.specs.List.{AllPairs};
ghost use Rattle.std.specs.List.Sorted.{IsPartitionPoint};
ghost use Rattle.std.specs.Int.Digits.{digits_of};
ghost use Rattle.train_runs.specs.Departures.{IsBefore};
ghost use Rattle.train_runs.specs.Boards.{IsWindow};

use rail_ids::RunNo;
use rail_time::Moment;
use std::alloc::{AllocError, Global};
use std::marker::Model;
use std::sync::ledger::Ledger;
use step_count::Steps;

/// A run leaves a station at this moment, from a stop that isn't its last.
#[derive(Clone, Copy, PartialEq, Eq)]
pub struct Departure {
    pub moment: Moment,
    pub run: RunNo,
    pub stop: u8,
}

/// The departures of one station, in the order of moment, run and stop.
#[derive(Drop)]
pub(crate) struct Board {
    departures: Vec<Departure>,
}

impl Model for Board {
    ghost use Rattle.std.specs.Prelude.{List};
    ghost use Rattle.train_runs.specs.declared.departure.Departure.{Departure};

    ghost Value = { List Departure };

    ghost view = { λ b. b.departures.items };
}

impl Board {
    /// No departure. Takes no memory.
    pub(crate) fn new(alloc: Global) -> Board
        ensures { result ≡ [] }
    {
        Board {
            departures: Vec::new(alloc),
        }
    }

    /// Puts a departure in its place, and answers where that is. It comes after those of its moment.
    pub(crate) fn post(&mut self, departure: Departure) -> Result<usize, AllocError>
        requires in_order { AllPairs IsBefore self.old }
        requires behind { All (λ d. d.moment ≡ departure.moment → IsBefore d departure) self.old }
        ensures posted { IfOk result (λ n. (n ≤ length self.old) × (self.new ≡ insert self.old n departure)) }
        ensures in_order { AllPairs IsBefore self.new }
        ensures kept { OnErr result (self.new ≡ self.old) }
    {
        let seconds = departure.moment.seconds();
        let place = self
            .departures
            .partition_point(|d| d.moment.seconds() <= seconds);
        match self.departures.insert(place, departure) {
            Ok(()) => Ok(place),
            Err(error) => Err(error.into()),
        }
    }

    /// Takes the departure at this place away again.
    pub(crate) fn withdraw(&mut self, place: usize)
        requires { place < length self.old }
        ensures { self.new ≡ remove self.old place }
    {
        self.departures.remove(place);
    }

    /// All of them.
    pub(crate) fn all(&self) -> &[Departure]
        ensures { result.now ≡ self.now }
    {
        self.departures.as_slice()
    }

    /// The departures from the one second to the other, both included.
    pub(crate) fn between<L: Ledger>(
        &self,
        from: u64,
        to: u64,
        steps: &mut Steps<L>,
    ) -> &[Departure]
        requires in_order { AllPairs IsBefore self.now }
        requires end { to < 2 ^ 63 }
        ensures window { IsWindow from to self.now result.now }
        ensures cost { steps.new ≤ steps.old + 2 * length (digits_of 2 (length self.now)) }
    {
        let departures = self.departures.as_slice();
        let rest = &departures[first_from(departures, from, steps)..];
        &rest[..first_from(rest, to + 1, steps)]
    }
}

// The departures before this place are earlier than these seconds, and the others are not.
fn first_from<L: Ledger>(departures: &[Departure], seconds: u64, steps: &mut Steps<L>) -> usize
    requires in_order { AllPairs IsBefore departures.now }
    ensures within { result ≤ length departures.now }
    ensures splits { IsPartitionPoint (λ d. d.moment < seconds) (λ d. seconds ≤ d.moment) departures.now result }
    ensures cost { steps.new ≡ steps.old + length (digits_of 2 (length departures.now)) }
{
    let mut first = 0;
    let mut size = departures.len();
    'halves: while size > 0 {
        let half = size / 2;
        steps.tick();
        if departures[first + half].moment.seconds() < seconds {
            first += size - half;
        }
        size = half;
    }
    first
}
