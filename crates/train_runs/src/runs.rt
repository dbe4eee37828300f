ghost use Rattle.std.specs.Prelude.{◌^◌, ◌≡◌, ◌<◌, ◌≤◌, ◌+◌, ◌-◌, ◌*◌, ◌++◌, [], ◌∷◌, List, ℕ, length, All, IfOk, IfErr, OnErr, OnOk, Ok, Err, Some, None, true, IfSome, option_map, slice_get};
ghost use Rattle.train_runs.specs.declared.run.RunFault.TheVariants as run_fault;
ghost use Rattle.train_runs.specs.Stations.{station_with, is_code as is_code_of, most_stations};
ghost use Rattle.train_runs.specs.Stops.{IsRun, most_stops};
ghost use Rattle.train_runs.specs.Runs.{AreSound, most_runs, run_fault as run_fault_of, span_of, and_station, IsStationAdded, RefusesStation, code_of};
ghost use Rattle.train_runs.specs.Departures.{AreDepartures, AreExactly, IsDeparture, departure_count};
ghost use Rattle.train_runs.specs.Boards.{HasBoards, ArePosted};
ghost use Rattle.std.specs.Int.Digits.{digits_of};

use crate::departure::{Board, Departure};
use crate::run::{MOST_STOPS, Run, RunFault, Stop, first_repeated, first_unrisen, stop_of};
use crate::station::{MOST_STATIONS, Station, StationFault, code_number, is_code};
use leg_masks::Span;
use rail_ids::{RunNo, StationNo};
use rail_time::Moment;
use std::alloc::{AllocError, Global};
use std::collections::BTreeMap;
use std::marker::Model;
use std::str;
use std::sync::ledger::Ledger;
use step_count::Steps;

/// How many runs there may be.
pub const MOST_RUNS: usize = 4_096;

/// All stations and runs, each numbered from 0 in the order in which they were added.
#[derive(Drop)]
pub struct Runs {
    stations: Vec<Station>,
    // By the numbers of their codes, which are compared sooner than texts.
    numbers: BTreeMap<u64, StationNo>,
    runs: Vec<Run>,
    boards: Vec<Board>,
}

impl Model for Runs {
    ghost use Rattle.std.specs.Prelude.{◌≡◌, ℕ, List, true};
    ghost use Rattle.std.specs.Ordering.{nat_cmp};
    ghost use Rattle.std.specs.BTreeMap.{get};
    ghost use Rattle.train_runs.specs.Stations.{station_with, is_code, code_number};
    ghost use Rattle.train_runs.specs.Runs.{RunsView, AreSound};
    ghost use Rattle.train_runs.specs.Boards.{HasBoards};

    ghost Value = { RunsView };

    ghost view = { λ r. record { stations = r.stations.items; runs = r.runs.items } };

    ghost invariant = { λ r. AreSound (record { stations = r.stations.items; runs = r.runs.items })
        × ((code : List ℕ) → is_code code ≡ true
        → get nat_cmp r.numbers (code_number code) ≡ station_with code r.stations.items)
        × HasBoards (record { stations = r.stations.items; runs = r.runs.items }) r.boards.items };
}

impl Runs {
    /// No station and no run. Takes no memory.
    pub fn new(alloc: Global) -> Runs
        ensures empty { result ≡ record { stations = []; runs = [] } }
    {
        Runs {
            stations: Vec::new(alloc),
            numbers: BTreeMap::new(alloc),
            runs: Vec::new(alloc),
            boards: Vec::new(alloc),
        }
    }

    /// Adds a station with its code, and the seconds that a change of trains takes there at least. After a refusal all
    /// is as before.
    pub fn add_station(&mut self, code: &[u8], change: u32) -> Result<StationNo, StationFault>
        ensures ok { IfOk result (IsStationAdded self.old code.now change self.new) }
        ensures runs { self.new.runs ≡ self.old.runs }
        ensures err { IfErr result (RefusesStation self.old code.now change) }
        ensures kept { OnErr result (self.new ≡ self.old) }
    {
        if !is_code(code) {
            return Err(StationFault::BadCode);
        }
        let Ok(text) = str::from_utf8(code) else {
            return Err(StationFault::BadCode);
        };
        if self.numbers.get(&code_number(code)).is_some() {
            return Err(StationFault::DoubleCode);
        }
        if self.stations.len() >= MOST_STATIONS {
            return Err(StationFault::TooManyStations);
        }
        let number = StationNo(self.stations.len() as u32);
        match self.insert_station(text, change) {
            Ok(()) => Ok(number),
            Err(_) => Err(StationFault::NoMemory),
        }
    }

    // Adds a station whose code is one that no other has.
    fn insert_station(&mut self, code: &str, change: u32) -> Result<(), AllocError>
        requires code { is_code_of code.now ≡ true }
        requires fresh { station_with code.now self.old.stations ≡ None }
        requires room { length self.old.stations < most_stations }
        ensures ok { OnOk result (self.new ≡ and_station self.old code.now change) }
        ensures kept { OnErr result (self.new ≡ self.old) }
    {
        let alloc = *self.stations.allocator();
        let number = StationNo(self.stations.len() as u32);
        let key = code_number(code.as_bytes());
        self.stations
            .push(Station::new(String::from_str(alloc, code)?, change))?;
        if let Err(error) = self.boards.push(Board::new(alloc)) {
            self.stations.pop();
            return Err(error.into());
        }
        match self.numbers.insert(key, number) {
            Ok(_) => Ok(()),
            Err(error) => {
                self.boards.pop();
                self.stations.pop();
                Err(error.into())
            }
        }
    }

    /// Adds a run, whose stations are known. After a refusal all is as before.
    pub fn add(&mut self, run: Run) -> Result<RunNo, RunFault>
        requires known { All (λ s. s.station.0 < length self.old.stations) run.stops }
        ensures ok { IfOk result (λ n. (n.0 ≡ length self.old.runs) × (run_fault_of self.old.runs run ≡ None)
            × (self.new ≡ record self.old { runs = self.old.runs ++ run ∷ [] })) }
        ensures err { IfErr result (λ e. ¬ (e ≡ run_fault.NoMemory) → run_fault_of self.old.runs run ≡ Some e) }
        ensures kept { OnErr result (self.new ≡ self.old) }
    {
        if let Some(fault) = fault_of(self.runs.as_slice(), &run) {
            return Err(fault);
        }
        let number = RunNo(self.runs.len() as u32);
        match self.insert_run(run) {
            Ok(()) => Ok(number),
            Err(_) => Err(RunFault::NoMemory),
        }
    }

    // Adds a run that has no fault.
    fn insert_run(&mut self, run: Run) -> Result<(), AllocError>
        requires known { All (λ s. s.station.0 < length self.old.stations) run.stops }
        requires faultless { run_fault_of self.old.runs run ≡ None }
        ensures ok { OnOk result (self.new ≡ record self.old { runs = self.old.runs ++ run ∷ [] }) }
        ensures kept { OnErr result (self.new ≡ self.old) }
    {
        self.runs.reserve(1)?;
        post_from(self.boards.as_mut_slice(), self.runs.as_slice(), &run, 0)?;
        match self.runs.push(run) {
            Ok(()) => Ok(()),
            Err(error) => Err(error.into()),
        }
    }

    /// The station with the code.
    pub fn station_of(&self, code: &[u8]) -> Option<StationNo>
        ensures value { result ≡ station_with code.now self.now.stations }
        ensures known { IfSome result (λ n. n.0 < length self.now.stations) }
    {
        let numbers = &self.numbers;
        if !is_code(code) {
            return None;
        }
        numbers.get(&code_number(code)).copied()
    }

    /// The run with the number.
    pub fn run(&self, run: RunNo) -> Option<&Run>
        ensures value { option_map (λ r. r.now) result ≡ slice_get self.now.runs run.0 }
        ensures sound { IfSome result (λ r. IsRun (length self.now.stations) r.now) }
    {
        self.runs.get(run.0 as usize)
    }

    /// How many stations there are.
    pub fn station_count(&self) -> u32
        ensures value { result ≡ length self.now.stations }
        ensures most { result ≤ most_stations }
    {
        self.stations.len() as u32
    }

    /// How many runs there are.
    pub fn count(&self) -> u32
        ensures value { result ≡ length self.now.runs }
        ensures most { result ≤ most_runs }
    {
        self.runs.len() as u32
    }

    /// The departures of the station from the one moment to the other, both included, at stops that aren't a run's
    /// last, in the order of moment, run and stop. A station that isn't known has none. Takes no memory.
    ///
    /// A step is one comparison of moments: at most twice the binary digits of the station's count of departures, and
    /// two.
    pub fn departures<L: Ledger>(
        &self,
        station: StationNo,
        from: Moment,
        to: Moment,
        steps: &mut Steps<L>,
    ) -> &[Departure]
        ensures departures { AreDepartures self.now.runs station from to result.now }
        ensures unknown { length self.now.stations ≤ station.0 → result.now ≡ [] }
        ensures cost { steps.new ≤ steps.old + (2 * length (digits_of 2 (departure_count station self.now.runs)) + 2) }
    {
        self.departures_within(station, from.seconds(), to.seconds(), steps)
    }

    /// The same, from and to these seconds since 1970-01-01T00:00:00Z: a window may end after the last moment there is.
    pub fn departures_within<L: Ledger>(
        &self,
        station: StationNo,
        from: u64,
        to: u64,
        steps: &mut Steps<L>,
    ) -> &[Departure]
        requires end { to < 2 ^ 63 }
        ensures departures { AreDepartures self.now.runs station from to result.now }
        ensures cost { steps.new ≤ steps.old + (2 * length (digits_of 2 (departure_count station self.now.runs)) + 2) }
        ensures sound { All (IsRun (length self.now.stations)) self.now.runs }
    {
        match self.boards.get(station.0 as usize) {
            Some(board) => board.between(from, to, steps),
            None => &[],
        }
    }

    /// All departures of the station, at whatever moment, in the order of moment, run and stop. A station that isn't
    /// known has none. Takes no memory.
    pub fn all_departures(&self, station: StationNo) -> &[Departure]
        ensures departures { AreExactly (IsDeparture self.now.runs station) result.now }
        ensures sound { All (IsRun (length self.now.stations)) self.now.runs }
    {
        match self.boards.get(station.0 as usize) {
            Some(board) => board.all(),
            None => &[],
        }
    }

    /// The code of the station with the number.
    pub fn code(&self, station: StationNo) -> Option<&[u8]>
        ensures value { option_map (λ c. c.now) result ≡ code_of self.now station }
    {
        match self.stations.get(station.0 as usize) {
            Some(found) => Some(found.code().as_bytes()),
            None => None,
        }
    }

    /// The code of the station with the number, as text.
    pub fn code_text(&self, station: StationNo) -> Option<&str>
        ensures value { option_map (λ c. c.now) result ≡ code_of self.now station }
    {
        match self.stations.get(station.0 as usize) {
            Some(found) => Some(found.code()),
            None => None,
        }
    }

    /// How many seconds a change of trains takes at the station at least.
    pub fn change(&self, station: StationNo) -> Option<u32>
        ensures value { result ≡ option_map (λ s. s.change) (slice_get self.now.stations station.0) }
    {
        match self.stations.get(station.0 as usize) {
            Some(found) => Some(found.change()),
            None => None,
        }
    }

    /// The legs of the run between the two stations: `None` exactly where there is no such run, or it doesn't stop at
    /// the one and later at the other.
    pub fn span_between(&self, run: RunNo, from: StationNo, to: StationNo) -> Option<Span>
        ensures value { result ≡ span_of self.now run from to }
    {
        let stops = self.run(run)?.stops();
        let first = stop_of(stops, from)?;
        let last = stop_of(stops, to)?;
        Span::new(first, last)
    }
}

// The first fault of a further run.
fn fault_of(runs: &[Run], run: &Run) -> Option<RunFault>
    ensures { result ≡ run_fault_of runs.now run.now }
{
    let stops = run.stops();
    if stops.len() < 2 {
        return Some(RunFault::TooFewStops);
    }
    if stops.len() > MOST_STOPS {
        return Some(RunFault::TooManyStops);
    }
    if let Some(stop) = first_unrisen(stops) {
        return Some(RunFault::TimesNotRising { stop });
    }
    if runs.len() >= MOST_RUNS {
        return Some(RunFault::TooManyRuns);
    }
    let stop = first_repeated(stops)?;
    Some(RunFault::StationRepeated { stop })
}

// Posts the departures of the run at its stops from the n-th on, where those before are posted. Where memory runs out
// the boards are as before.
fn post_from(boards: &mut [Board], runs: &[Run], run: &Run, n: usize) -> Result<(), AllocError>
    requires posted { ArePosted runs.now run.now n boards.old }
    requires known { All (λ s. s.station.0 < length boards.old) run.now.stops }
    requires stops { n < length run.now.stops }
    requires few { length run.now.stops ≤ most_stops }
    requires runs { length runs.now < most_runs }
    ensures same { length boards.new ≡ length boards.old }
    ensures ok { OnOk result (ArePosted runs.now run.now (length run.now.stops - 1) boards.new) }
    ensures kept { OnErr result (boards.new ≡ boards.old) }
{
    let stops = run.stops();
    if n + 1 == stops.len() {
        return Ok(());
    }
    let stop = stops[n];
    let station = stop.station.0 as usize;
    let place = boards[station].post(Departure {
        moment: stop.depart,
        run: RunNo(runs.len() as u32),
        stop: n as u8,
    })?;
    match post_from(boards, runs, run, n + 1) {
        Ok(()) => Ok(()),
        Err(error) => {
            boards[station].withdraw(place);
            Err(error)
        }
    }
}
