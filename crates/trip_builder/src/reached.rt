ghost use Rattle.std.specs.Prelude.{◌≡◌, ◌<◌, ◌≤◌, ◌+◌, ◌-◌, ℕ, true, false, length, IfOk};
ghost use Rattle.train_runs.specs.Runs.{RunsView};
ghost use Rattle.train_runs.specs.declared.wish.TripWish.{TripWish};
ghost use Rattle.trip_builder.specs.Reached.{Hold, HoldTrain, HoldWait, AreStretched, IsRidden, AreReached, IsNear};

use crate::departures::{LONGEST_WAIT, stops_of};
use rail_ids::{RunNo, StationNo};
use std::alloc::{AllocError, Global};
use std::marker::Model;
use train_runs::{Runs, Stop, TripWish};

/// From when to when a train may be taken at a station.
#[derive(Clone, Copy)]
pub(crate) struct Times {
    from: u64,
    to: u64,
}

/// One doesn't come to the station.
const NOT_AT_ALL: Times = Times {
    from: u64::MAX,
    to: 0,
};

/// Where one may be after that many trains of a wish at most, and from when to when a train may be taken there. It may
/// say more than there is: a time of change isn't asked for, nor what lies between the first moment and the last.
#[derive(Drop)]
pub(crate) struct Reached {
    times: Vec<Times>,
}

impl Model for Reached {
    ghost use Rattle.std.specs.Prelude.{List};
    ghost use Rattle.trip_builder.specs.declared.reached.Times.{Times};

    ghost Value = { List Times };

    ghost view = { λ r. r.times.items };
}

impl Reached {
    // Nowhere.
    fn nowhere(alloc: Global, runs: &Runs) -> Result<Reached, AllocError> {
        let times = Vec::from_elem(alloc, NOT_AT_ALL, runs.station_count() as usize)?;
        Ok(Reached { times })
    }

    // Before the first train.
    fn at_origin(alloc: Global, runs: &Runs, wish: &TripWish) -> Result<Reached, AllocError>
        ensures { IfOk result (λ reached.
            Hold reached wish.now.origin.0 wish.now.earliest wish.now.latest) }
    {
        let mut reached = Reached::nowhere(alloc, runs)?;
        reached.note(wish.origin, wish.earliest.seconds(), wish.latest.seconds());
        Ok(reached)
    }

    // After one train more, or none.
    fn further(&self, alloc: Global, runs: &Runs, wish: &TripWish) -> Result<Reached, AllocError>
        ensures start { IfOk result (λ reached.
            Hold reached wish.now.origin.0 wish.now.earliest wish.now.latest) }
        ensures ridden { IfOk result (λ reached. (run : ℕ) → IsRidden runs.now self.now reached run) }
    {
        let mut reached = Reached::at_origin(alloc, runs, wish)?;
        reached.ride_all(runs, self);
        Ok(reached)
    }

    // After two trains at most, where this is after one: nothing is left out where that is most stations already.
    fn second(&self, alloc: Global, runs: &Runs, wish: &TripWish) -> Result<Reached, AllocError>
        ensures { IfOk result (λ two. AreReached runs.now wish.now 1 self.now → AreReached runs.now wish.now 2 two) }
    {
        if self.count() > self.times.len() / 2 {
            return Ok(Reached {
                times: Vec::new(alloc),
            });
        }
        let two = self.further(alloc, runs, wish)?;
        Ok(two)
    }

    // How many stations one comes to.
    fn count(&self) -> usize {
        let mut count: usize = 0;
        for times in self.times.as_slice() {
            if times.from <= times.to {
                count = count.saturating_add(1);
            }
        }
        count
    }

    // Notes where all runs go from there.
    fn ride_all(&mut self, runs: &Runs, before: &Reached)
        ensures stretched { AreStretched self.old self.new }
        ensures ridden { (run : ℕ) → IsRidden runs.now before.now self.new run }
    {
        for run in 0..runs.count() {
            self.ride(runs, RunNo(run), before);
        }
    }

    // Likewise one run.
    fn ride(&mut self, runs: &Runs, run: RunNo, before: &Reached)
        ensures stretched { AreStretched self.old self.new }
        ensures ridden { IsRidden runs.now before.now self.new run.0 }
    {
        let mut aboard = false;
        for stop in stops_of(runs, run) {
            aboard = self.stop_at(stop, before, aboard);
        }
    }

    // Gets off at the stop where one is aboard, and looks whether one is then.
    fn stop_at(&mut self, stop: &Stop, before: &Reached, aboard: bool) -> bool
        ensures stretched { AreStretched self.old self.new }
        ensures stays { aboard ≡ true → result ≡ true }
        ensures boards { HoldTrain before.now stop.now → result ≡ true }
        ensures off { aboard ≡ true → HoldWait self.new stop.now }
    {
        if aboard {
            let arrive = stop.arrive.seconds();
            self.note(stop.station, arrive, arrive + LONGEST_WAIT);
            return true;
        }
        before.may_board(stop)
    }

    // A train may be taken at the station from the one moment to the other.
    fn note(&mut self, station: StationNo, from: u64, to: u64)
        ensures stretched { AreStretched self.old self.new }
        ensures here { Hold self.new station.0 from to }
    {
        let place = station.0 as usize;
        if place < self.times.len() {
            let times = self.times[place];
            self.times[place] = Times {
                from: times.from.min(from),
                to: times.to.max(to),
            };
        }
    }

    // Whether the train may be taken at this stop.
    fn may_board(&self, stop: &Stop) -> bool
        ensures { HoldTrain self.now stop.now → result ≡ true }
    {
        let depart = stop.depart.seconds();
        match self.times.get(stop.station.0 as usize) {
            Some(times) => times.from <= depart && depart <= times.to,
            None => true,
        }
    }

    /// Whether one comes to the station.
    pub(crate) fn has(&self, station: StationNo) -> bool
        ensures { result ≡ false → (from to : ℕ) → Hold self.now station.0 from to → to < from }
    {
        match self.times.get(station.0 as usize) {
            Some(times) => times.from <= times.to,
            None => true,
        }
    }
}

/// Where one may be after one train of a wish at most, and after two.
#[derive(Drop)]
pub(crate) struct Near {
    one: Reached,
    two: Reached,
}

impl Near {
    /// By the trains of the wish.
    pub(crate) fn of(alloc: Global, runs: &Runs, wish: &TripWish) -> Result<Near, AllocError>
        ensures { IfOk result (IsNear runs.now wish.now) }
    {
        let none = Reached::at_origin(alloc, runs, wish)?;
        let one = none.further(alloc, runs, wish)?;
        let two = one.second(alloc, runs, wish)?;
        Ok(Near { one, two })
    }

    /// Where a trip may take a train after which that many changes come.
    pub(crate) fn before(&self, changes: usize) -> &Reached
        ensures { (r : RunsView) (w : TripWish) → IsNear r w self.now → AreReached r w (2 - changes) result.now }
    {
        if changes == 0 { &self.two } else { &self.one }
    }
}
