ghost use Rattle.std.specs.Prelude.{◌≡◌, ◌<◌, ◌≤◌, ◌+◌, ◌^◌, ℕ, true, [], length, IfOk, OnOk};
ghost use Rattle.train_runs.specs.Runs.{RunsView};
ghost use Rattle.train_runs.specs.declared.wish.TripWish.{TripWish};
ghost use Rattle.trip_builder.specs.Ends.{AreEnds};
ghost use Rattle.trip_builder.specs.Bounds.{RanksView, ReachView, Precede, AreRanks, AreRides, AreFirsts, AreBoards, IsReach, AreBounds, AreNarrowed, StayRides, StayLastRides, AreMarked, IsMarkedRun, KeepMarks, BoundsRide, BoundsLeaving, FirstsOfRide, FirstsOfStop, no_rank};

use crate::boards::{Boards, Draft};
use crate::departures::{Window, all_leaving, leaving, stop_of, stops_of, window_at, window_of};
use crate::ends::Ends;
use crate::probe::probed_rank;
use crate::ranks::{FirstTwo, Ranks, join};
use crate::reached::Near;
use crate::rides::Rides;
use rail_ids::{RunNo, StationNo};
use std::alloc::{AllocError, Global};
use std::marker::Model;
use train_runs::{Departure, Runs, Segment, Stop, TripWish};

/// With fewer changes than this there are bounds.
const BOUNDED_CHANGES: usize = 3;

/// The seconds of a change's window, both ends included, where a change takes no time.
const LONGEST_WINDOW: u32 = 14_401;

/// The bounds with one number of changes: of each ride, and of what leaves each station. Without a change rides are
/// known by the ranks.
#[derive(Drop)]
struct Reach {
    rides: Rides,
    boards: Boards,
}

impl Model for Reach {
    ghost use Rattle.trip_builder.specs.Bounds.{ReachView};

    ghost Value = { ReachView };

    ghost view = { λ r. record { rides = r.rides; boards = r.boards } };
}

/// When what goes on from a departure arrives at the destination at the earliest: without a change, with one, with two.
#[derive(Drop)]
pub(crate) struct Bounds {
    ranks: Ranks,
    levels: Vec<Reach>,
}

impl Model for Bounds {
    ghost use Rattle.trip_builder.specs.Bounds.{BoundsView};

    ghost Value = { BoundsView };

    ghost view = { λ b. record { ranks = b.ranks; levels = b.levels.items } };
}

impl Bounds {
    /// Nothing is known. Takes no memory.
    pub(crate) fn unknown(alloc: Global) -> Bounds
        ensures { result.levels ≡ [] }
    {
        Bounds {
            ranks: Ranks::unknown(alloc),
            levels: Vec::new(alloc),
        }
    }

    /// Whether nothing is known.
    pub(crate) fn are_unknown(&self) -> bool {
        self.levels.is_empty()
    }

    // How many numbers of changes there are bounds for.
    fn count(&self) -> usize
        ensures { result ≡ length self.now.levels }
    {
        self.levels.len()
    }

    /// The bounds of all departures. Of what arrives after the limit, or later than enough ways of the wish that were
    /// seen while they were made, they say no more than that.
    pub(crate) fn of(
        alloc: Global,
        runs: &Runs,
        wish: &TripWish,
        ends: &mut Ends,
        limit: u64,
    ) -> Result<Bounds, AllocError>
        requires { AreEnds runs.now wish.now ends.old }
        ensures ends { AreEnds runs.now wish.now ends.new }
        ensures bounds { IfOk result (AreBounds runs.now wish.now) }
    {
        let ranks = Ranks::of(alloc, runs, wish, ends, limit)?;
        let right = ranks.are_right(runs, wish, ends);
        let mut bounds = Bounds {
            ranks,
            levels: Vec::new(alloc),
        };
        if right {
            bounds.add_levels(runs, wish)?;
        }
        Ok(bounds)
    }

    // Adds those with each number of changes. They speak of the wish's trips alone: a station that its trains don't
    // reach needs no board.
    fn add_levels(&mut self, runs: &Runs, wish: &TripWish) -> Result<(), AllocError>
        requires ranks { AreRanks runs.now wish.now self.old.ranks }
        requires none { self.old.levels ≡ [] }
        ensures { OnOk result (AreBounds runs.now wish.now self.new) }
    {
        let alloc = *self.levels.allocator();
        let near = Near::of(alloc, runs, wish)?;
        for changes in 0..BOUNDED_CHANGES {
            let mut rides = rides_of(alloc, runs, wish, self)?;
            rides.leave_far(runs.station_count(), near.before(changes));
            self.narrow(alloc, runs, wish, &rides)?;
            let reach = reach_of(alloc, runs, &self.ranks, rides, changes)?;
            self.levels.push(reach)?;
        }
        Ok(())
    }

    // Before the boards with one change are made, lets what comes later than some ways of the wish come too late.
    fn narrow(
        &mut self,
        alloc: Global,
        runs: &Runs,
        wish: &TripWish,
        rides: &Rides,
    ) -> Result<(), AllocError>
        ensures { OnOk result (AreNarrowed self.old self.new) }
    {
        if self.count() == 1 {
            let rank = probed_rank(alloc, runs, wish, &self.ranks, rides)?;
            self.ranks.narrow(rank);
        }
        Ok(())
    }

    /// A bound of the arrivals of what takes this train after the way and changes so often.
    pub(crate) fn of_ride(&self, changes: usize, departure: &Departure, way: &[Segment]) -> u64
        ensures { (r : RunsView) (w : TripWish) → AreBounds r w self.now
            → BoundsRide r w changes way.now departure.now.run.0 departure.now.stop result }
    {
        let Some(reach) = self.levels.get(changes) else {
            return 0;
        };
        let two = firsts_of(&self.ranks, &reach.rides, changes, departure);
        self.ranks.arrival(two, way)
    }

    /// A bound of the arrivals of what leaves within the window after the way and changes so often.
    pub(crate) fn of_leaving(&self, changes: usize, window: &Window, way: &[Segment]) -> u64
        requires end { window.now.to < 2 ^ 63 }
        ensures { (r : RunsView) (w : TripWish) → AreBounds r w self.now
            → BoundsLeaving r w changes way.now window.now.station window.now.from window.now.to result }
    {
        let Some(reach) = self.levels.get(changes) else {
            return 0;
        };
        let early = reach.boards.firsts(window.station, window.from, window.to);
        let two = join(early, self.ranks.late_ones());
        self.ranks.arrival(two, way)
    }
}

// The first two of the departure with that many changes.
fn firsts_of(ranks: &Ranks, rides: &Rides, changes: usize, departure: &Departure) -> FirstTwo
    ensures { (r : RunsView) (w : TripWish) → AreRanks r w ranks.now → AreRides r w ranks.now changes rides.now
        → FirstsOfRide r w ranks.now changes departure.now.run.0 departure.now.stop result }
{
    if changes == 0 {
        return ranks.ride(departure.run, departure.stop);
    }
    rides.at(departure.run, departure.stop)
}

// The bounds with that many changes, by the rides with as many.
fn reach_of(
    alloc: Global,
    runs: &Runs,
    ranks: &Ranks,
    rides: Rides,
    changes: usize,
) -> Result<Reach, AllocError>
    ensures { IfOk result (λ reach. (w : TripWish) → AreRanks runs.now w ranks.now
        → AreRides runs.now w ranks.now changes rides → IsReach runs.now w ranks.now changes reach) }
{
    let boards = boards_of(alloc, runs, ranks, &rides, changes)?;
    Ok(Reach { rides, boards })
}

// The departures of each station that lead to the destination in time: no boards where no further change is bounded by
// them.
fn boards_of(
    alloc: Global,
    runs: &Runs,
    ranks: &Ranks,
    rides: &Rides,
    changes: usize,
) -> Result<Boards, AllocError>
    ensures { IfOk result (λ boards. (w : TripWish) → AreRanks runs.now w ranks.now
        → AreRides runs.now w ranks.now changes rides.now → AreBoards runs.now w ranks.now changes boards) }
{
    if changes >= BOUNDED_CHANGES - 1 {
        return Ok(Draft::new(alloc, 0, 0)?.finish());
    }
    let count = runs.station_count();
    let mut draft = Draft::new(alloc, count as usize, departures_of(runs))?;
    let mut twos = Vec::new(alloc);
    for station in 0..count {
        if rides.is_marked(StationNo(station)) {
            let departures = all_leaving(runs, StationNo(station));
            gather(ranks, rides, changes, departures, &mut twos)?;
            let seconds = block_of(runs, StationNo(station));
            draft.add(departures, twos.as_slice(), ranks.late(), seconds)?;
        } else {
            draft.skip()?;
        }
    }
    Ok(draft.finish())
}

// How many seconds the longest window of a change at the station has.
fn block_of(runs: &Runs, station: StationNo) -> u32 {
    LONGEST_WINDOW.saturating_sub(runs.change(station).unwrap_or(0))
}

// The first two of each of the departures. They are read one after the other, without a look at what they are, so that
// memory is waited for less.
fn gather(
    ranks: &Ranks,
    rides: &Rides,
    changes: usize,
    departures: &[Departure],
    twos: &mut Vec<FirstTwo>,
) -> Result<(), AllocError>
    ensures { OnOk result ((r : RunsView) (w : TripWish) → AreRanks r w ranks.now
        → AreRides r w ranks.now changes rides.now
        → AreFirsts r w ranks.now changes departures.now (length departures.now) twos.new.items) }
{
    twos.clear();
    for departure in departures {
        twos.push(firsts_of(ranks, rides, changes, departure))?;
    }
    Ok(())
}

// How many departures there are.
fn departures_of(runs: &Runs) -> usize {
    let mut count: usize = 0;
    for run in 0..runs.count() {
        let stops = stops_of(runs, RunNo(run)).len();
        count = count.saturating_add(stops.saturating_sub(1));
    }
    count
}

// Those of all rides with one change more: with the most changes, of what leaves the origin.
fn rides_of(
    alloc: Global,
    runs: &Runs,
    wish: &TripWish,
    bounds: &Bounds,
) -> Result<Rides, AllocError>
    requires ranks { AreRanks runs.now wish.now bounds.now.ranks }
    requires bounds { AreBounds runs.now wish.now bounds.now }
    ensures { IfOk result (AreRides runs.now wish.now bounds.now.ranks (length bounds.now.levels)) }
{
    let count = bounds.count();
    if count == 0 {
        return last_rides(alloc, runs, &bounds.ranks);
    }
    let reach = &bounds.levels[count - 1];
    if count < BOUNDED_CHANGES - 1 {
        return all_rides(alloc, runs, &bounds.ranks, reach);
    }
    let firsts = leaving(runs, window_of(runs, wish, &[]));
    first_rides(alloc, runs, &bounds.ranks, reach, firsts)
}

// Those without a change: the stations that something leaves in time.
fn last_rides(alloc: Global, runs: &Runs, ranks: &Ranks) -> Result<Rides, AllocError>
    ensures { IfOk result (λ rides. (w : TripWish) → AreRanks runs.now w ranks.now
        → AreRides runs.now w ranks.now 0 rides) }
{
    let mut rides = Rides::unknown(alloc, runs, 0, runs.station_count() as usize)?;
    mark_each(runs, ranks, &mut rides);
    rides.end();
    Ok(rides)
}

// Marks the stations from which a run goes straight to the destination in time.
fn mark_each(runs: &Runs, ranks: &Ranks, rides: &mut Rides)
    ensures rides { StayLastRides runs.now ranks.now rides.old rides.new }
    ensures marked { (w : TripWish) → AreRanks runs.now w ranks.now
        → AreMarked runs.now w ranks.now 0 rides.new.marks.items }
{
    for run in 0..runs.count() {
        mark_run(runs, ranks, RunNo(run), rides);
    }
}

// Those of one run.
fn mark_run(runs: &Runs, ranks: &Ranks, run: RunNo, rides: &mut Rides)
    ensures rides { StayLastRides runs.now ranks.now rides.old rides.new }
    ensures kept { KeepMarks rides.old.marks.items rides.new.marks.items }
    ensures marked { (w : TripWish) → AreRanks runs.now w ranks.now
        → IsMarkedRun runs.now w ranks.now 0 run.0 rides.new.marks.items }
{
    let stops = stops_of(runs, run);
    let count = usize::from(ranks.stop_of(run)).min(stops.len());
    for stop in 0..count {
        rides.mark(stops[stop].station);
    }
}

// Those of all runs.
fn all_rides(alloc: Global, runs: &Runs, ranks: &Ranks, reach: &Reach) -> Result<Rides, AllocError>
    ensures { IfOk result (λ rides. (w : TripWish) (changes : ℕ) → IsReach runs.now w ranks.now changes reach.now
        → AreRides runs.now w ranks.now (changes + 1) rides) }
{
    let mut rides = Rides::unknown(
        alloc,
        runs,
        most_stops_of(runs),
        runs.station_count() as usize,
    )?;
    bound_each(runs, ranks, reach, &mut rides);
    rides.end();
    Ok(rides)
}

// Those of these departures alone.
fn first_rides(
    alloc: Global,
    runs: &Runs,
    ranks: &Ranks,
    reach: &Reach,
    departures: &[Departure],
) -> Result<Rides, AllocError>
    ensures { IfOk result (λ rides. (w : TripWish) (changes : ℕ) → IsReach runs.now w ranks.now changes reach.now
        → AreRides runs.now w ranks.now (changes + 1) rides) }
{
    let mut rides = Rides::unknown(alloc, runs, past_stops_of(departures), 0)?;
    board_each(runs, ranks, reach, departures, &mut rides);
    Ok(rides)
}

// How many stops a run has at most.
fn most_stops_of(runs: &Runs) -> u8 {
    let mut most = 0;
    for run in 0..runs.count() {
        most = most.max(stops_of(runs, RunNo(run)).len() as u8);
    }
    most
}

// The first number of a stop that comes after those of these departures.
fn past_stops_of(departures: &[Departure]) -> u8 {
    let mut past: u8 = 0;
    for departure in departures {
        past = past.max(departure.stop.saturating_add(1));
    }
    past
}

// Bounds the rides of all runs.
fn bound_each(runs: &Runs, ranks: &Ranks, reach: &Reach, rides: &mut Rides)
    ensures rides { StayRides runs.now ranks.now reach.now rides.old rides.new }
    ensures marked { (w : TripWish) (changes : ℕ) → IsReach runs.now w ranks.now changes reach.now
        → AreMarked runs.now w ranks.now (changes + 1) rides.new.marks.items }
{
    for run in 0..runs.count() {
        bound_run(runs, ranks, reach, RunNo(run), rides);
    }
}

// For each stop of the run, the first two by what gets off further on. A run's stops stand together, and a station's
// board is read for few numbers only.
fn bound_run(runs: &Runs, ranks: &Ranks, reach: &Reach, run: RunNo, rides: &mut Rides)
    ensures rides { StayRides runs.now ranks.now reach.now rides.old rides.new }
    ensures kept { KeepMarks rides.old.marks.items rides.new.marks.items }
    ensures marked { (w : TripWish) (changes : ℕ) → IsReach runs.now w ranks.now changes reach.now
        → IsMarkedRun runs.now w ranks.now (changes + 1) run.0 rides.new.marks.items }
{
    let stops = stops_of(runs, run);
    let count = stops.len();
    let late = ranks.late();
    let mut firsts = ranks.late_ones();
    for back in 0..count {
        let stop = count - 1 - back;
        let off = &stops[stop];
        rides.note(run, stop as u8, off.station, firsts, late);
        firsts = firsts_with(runs, reach, off, firsts);
    }
}

// Bounds the rides of these departures alone.
fn board_each(
    runs: &Runs,
    ranks: &Ranks,
    reach: &Reach,
    departures: &[Departure],
    rides: &mut Rides,
)
    ensures { StayRides runs.now ranks.now reach.now rides.old rides.new }
{
    for departure in departures {
        let firsts = firsts_after(runs, ranks, reach, departure);
        rides.put(departure.run, departure.stop, firsts);
    }
}

// The first two by what gets off further on.
fn firsts_after(runs: &Runs, ranks: &Ranks, reach: &Reach, departure: &Departure) -> FirstTwo
    ensures { (w : TripWish) (changes : ℕ) → IsReach runs.now w ranks.now changes reach.now
        → FirstsOfRide runs.now w ranks.now (changes + 1) departure.now.run.0 departure.now.stop result }
{
    let stops = stops_of(runs, departure.run);
    let mut firsts = ranks.late_ones();
    for stop in usize::from(departure.stop) + 1..stops.len() {
        let off = &stops[stop];
        firsts = firsts_with(runs, reach, off, firsts);
    }
    firsts
}

// These two, and the first two of what gets off at the stop, with one change more. A train that has the first ones
// already, as it soon has where few come to the destination, asks for no window.
fn firsts_with(runs: &Runs, reach: &Reach, off: &Stop, firsts: FirstTwo) -> FirstTwo
    ensures further { (rank : ℕ) → Precede firsts rank → Precede result rank }
    ensures own { (w : TripWish) (v : RanksView) (changes : ℕ) → IsReach runs.now w v changes reach.now
        → ((rank : ℕ) → v.late ≤ rank → rank < no_rank → Precede firsts rank)
        → FirstsOfStop runs.now w v (changes + 1) off.now result }
{
    let window = window_at(runs, off);
    if reach
        .boards
        .precede_rest(window.station, window.from, firsts)
    {
        return firsts;
    }
    let here = reach.boards.firsts(window.station, window.from, window.to);
    join(firsts, here)
}
