ghost use Rattle.std.specs.Prelude.{◌≡◌, ◌≤◌, ◌<◌, ◌^◌, ◌+◌, ℕ, [], length, List, IfOk};
ghost use Rattle.train_runs.specs.Runs.{RunsView, stops_of as stops_of_run};
ghost use Rattle.train_runs.specs.declared.departure.Departure.{Departure};
ghost use Rattle.train_runs.specs.declared.wish.TripWish.{TripWish};
ghost use Rattle.trip_builder.specs.Search.{Rise};
ghost use Rattle.trip_builder.specs.Ends.{IsThere};
ghost use Rattle.trip_builder.specs.Shortest.{ride_from as ride_from_in, AreLowered, AreRidesTo, AreShortest, AreFromDepartures, TakesAtLeast};

use crate::departures::{all_leaving, stops_of};
use rail_ids::{RunNo, StationNo};
use std::alloc::{AllocError, Global};
use std::marker::Model;
use train_runs::{Departure, Runs, TripWish};

/// For how many stations the rides are known at most: the first ones.
const MOST_STATIONS: u32 = 8_192;

/// No train goes from the station straight to the destination: no ride is as long.
const NO_RIDE: u32 = u32::MAX;

/// How many seconds the shortest ride takes from each station straight to the destination, on one train.
#[derive(Drop)]
pub(crate) struct Shortest {
    rides: Vec<u32>,
}

impl Model for Shortest {
    ghost use Rattle.std.specs.Prelude.{List, ℕ};

    ghost Value = { List ℕ };

    ghost view = { λ s. s.rides.items };
}

impl Shortest {
    /// Nothing is known. Takes no memory.
    pub(crate) fn blank(alloc: Global) -> Shortest
        ensures { result ≡ [] }
    {
        Shortest {
            rides: Vec::new(alloc),
        }
    }

    /// Whether nothing is known.
    pub(crate) fn are_blank(&self) -> bool {
        self.rides.is_empty()
    }

    /// Those of all runs that come to the destination.
    pub(crate) fn of(alloc: Global, runs: &Runs, wish: &TripWish) -> Result<Shortest, AllocError>
        ensures { IfOk result (AreShortest runs.now wish.now) }
    {
        let rides = Vec::from_elem(
            alloc,
            NO_RIDE,
            runs.station_count().min(MOST_STATIONS) as usize,
        )?;
        let mut shortest = Shortest { rides };
        let departures = all_leaving(runs, wish.destination);
        shortest.add_departures(runs, departures);
        shortest.add_last_stops(runs, wish);
        Ok(shortest)
    }

    /// How many seconds what leaves the station takes at least, with that many changes, to the destination.
    pub(crate) fn least_from(&self, changes: usize, station: StationNo) -> u64
        ensures least { (r : RunsView) (w : TripWish) → Rise r → AreShortest r w self.now
            → TakesAtLeast r w changes station result }
        ensures small { result < 2 ^ 32 }
    {
        if changes > 0 {
            return 1;
        }
        self.ride_from(station)
    }

    // The shortest ride from the station.
    fn ride_from(&self, station: StationNo) -> u64
        ensures value { result ≡ ride_from_in self.now station.0 }
        ensures small { result < 2 ^ 32 }
    {
        match self.rides.get(station.0 as usize) {
            Some(seconds) => u64::from(*seconds),
            None => 1,
        }
    }

    // The rides to where these departures leave.
    fn add_departures(&mut self, runs: &Runs, departures: &[Departure])
        requires { Rise runs.now }
        ensures { AreFromDepartures runs.now departures.now self.new }
    {
        for departure in departures {
            self.add_rides(runs, departure.run, usize::from(departure.stop));
        }
    }

    // The rides to the last stops of runs that end at the destination.
    fn add_last_stops(&mut self, runs: &Runs, wish: &TripWish)
        requires { Rise runs.now }
        ensures lowered { AreLowered self.old self.new }
        ensures rides { (run to : ℕ) → to + 1 ≡ length (stops_of_run runs.now run) → IsThere runs.now wish.now run to
            → AreRidesTo runs.now run to self.new }
    {
        for run in 0..runs.count() {
            self.add_last_stop(runs, wish, RunNo(run));
        }
    }

    // Likewise of one run.
    fn add_last_stop(&mut self, runs: &Runs, wish: &TripWish, run: RunNo)
        requires { Rise runs.now }
        ensures lowered { AreLowered self.old self.new }
        ensures rides { (to : ℕ) → to + 1 ≡ length (stops_of_run runs.now run.0) → IsThere runs.now wish.now run.0 to
            → AreRidesTo runs.now run.0 to self.new }
    {
        let stops = stops_of(runs, run);
        if stops.is_empty() {
            return;
        }
        let last = stops.len() - 1;
        if stops[last].station.0 == wish.destination.0 {
            self.add_rides(runs, run, last);
        }
    }

    // The rides on the run to this stop.
    fn add_rides(&mut self, runs: &Runs, run: RunNo, to: usize)
        requires { Rise runs.now }
        ensures lowered { AreLowered self.old self.new }
        ensures rides { AreRidesTo runs.now run.0 to self.new }
    {
        let stops = stops_of(runs, run);
        if to >= stops.len() {
            return;
        }
        let arrive = stops[to].arrive.seconds();
        for from in 0..to {
            let stop = &stops[from];
            let seconds = arrive.saturating_sub(stop.depart.seconds());
            self.add(stop.station, seconds);
        }
    }

    // A ride from the station.
    fn add(&mut self, station: StationNo, seconds: u64)
        ensures lowered { AreLowered self.old self.new }
        ensures here { 1 ≤ seconds → ride_from_in self.new station.0 ≤ seconds }
    {
        let place = station.0 as usize;
        if place < self.rides.len() && seconds < u64::from(self.rides[place]) {
            self.rides[place] = seconds as u32;
        }
    }
}
