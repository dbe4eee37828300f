ghost use Rattle.std.specs.Prelude.{◌≡◌, ◌<◌, ◌+◌, ◌-◌, ◌*◌, ℕ, true, false, length, IfOk, slice_index_or};
ghost use Rattle.train_runs.specs.Runs.{RunsView};
ghost use Rattle.train_runs.specs.declared.wish.TripWish.{TripWish};
ghost use Rattle.trip_builder.specs.Bounds.{RanksView, AreRides, AreUnknown, FirstsOfRide, AreMarked, KeepMarks, LeavesLate, firsts_in};
ghost use Rattle.trip_builder.specs.Reached.{AreReached, StayMarked};

use crate::ranks::{FirstTwo, UNKNOWN};
use crate::reached::Reached;
use rail_ids::{RunNo, StationNo};
use std::alloc::{AllocError, Global};
use train_runs::Runs;

/// For each run and each of that many of its first stops, the first two that come to the destination by what takes the
/// run there. It also has which stations something leaves that comes there in time, once that was looked at for all
/// runs.
#[derive(Drop)]
pub(crate) struct Rides {
    width: u8,
    firsts: Vec<FirstTwo>,
    marks: Vec<bool>,
    all: bool,
}

impl Rides {
    /// Nothing is known of the rides from the first stops of each run, that many of them, nor of the stations.
    pub(crate) fn unknown(
        alloc: Global,
        runs: &Runs,
        width: u8,
        stations: usize,
    ) -> Result<Rides, AllocError>
        ensures { IfOk result AreUnknown }
    {
        let count = runs.count() as usize;
        Ok(Rides {
            width,
            firsts: Vec::from_elem(alloc, UNKNOWN, count.saturating_mul(usize::from(width)))?,
            marks: Vec::from_elem(alloc, false, stations)?,
            all: false,
        })
    }

    /// The first two of the run at the stop.
    pub(crate) fn at(&self, run: RunNo, stop: u8) -> FirstTwo
        ensures { result ≡ firsts_in self.now run.0 stop }
    {
        if stop >= self.width {
            return UNKNOWN;
        }
        match self.firsts.get(place(self.width, run, stop)) {
            Some(two) => *two,
            None => UNKNOWN,
        }
    }

    /// Notes the first two of the run at the stop.
    pub(crate) fn put(&mut self, run: RunNo, stop: u8, two: FirstTwo)
        ensures rides { (r : RunsView) (w : TripWish) (v : RanksView) (changes : ℕ) → AreRides r w v changes self.old
            → FirstsOfRide r w v changes run.0 stop two → AreRides r w v changes self.new }
        ensures marks { self.new.marks.items ≡ self.old.marks.items }
    {
        if stop >= self.width {
            return;
        }
        let place = place(self.width, run, stop);
        if place < self.firsts.len() {
            self.firsts[place] = two;
        }
    }

    /// Something leaves the station that comes to the destination in time.
    pub(crate) fn mark(&mut self, station: StationNo)
        ensures rides { (r : RunsView) (w : TripWish) (v : RanksView) (changes : ℕ) → AreRides r w v changes self.old
            → AreRides r w v changes self.new }
        ensures kept { KeepMarks self.old.marks.items self.new.marks.items }
        ensures marked { slice_index_or self.new.marks.items station.0 true ≡ true }
    {
        let place = station.0 as usize;
        if place < self.marks.len() {
            self.marks[place] = true;
        }
    }

    /// Notes the first two of the run at the stop, and marks the station where they come before this rank.
    pub(crate) fn note(
        &mut self,
        run: RunNo,
        stop: u8,
        station: StationNo,
        two: FirstTwo,
        late: u16,
    )
        ensures rides { (r : RunsView) (w : TripWish) (v : RanksView) (changes : ℕ) → AreRides r w v changes self.old
            → FirstsOfRide r w v changes run.0 stop two → AreRides r w v changes self.new }
        ensures kept { KeepMarks self.old.marks.items self.new.marks.items }
        ensures marked { two.first < late → slice_index_or self.new.marks.items station.0 true ≡ true }
    {
        self.put(run, stop, two);
        if two.first < late {
            self.mark(station);
        }
    }

    /// All stations that something leaves in time are marked: before, no mark says anything.
    pub(crate) fn end(&mut self)
        ensures { (r : RunsView) (w : TripWish) (v : RanksView) (changes : ℕ) → AreRides r w v changes self.old
            → AreMarked r w v changes self.old.marks.items → AreRides r w v changes self.new }
    {
        self.all = true;
    }

    /// Takes away the marks of those of that many stations to which one doesn't come: no trip of the wish goes on
    /// there.
    pub(crate) fn leave_far(&mut self, stations: u32, reached: &Reached)
        ensures { (r : RunsView) (w : TripWish) (v : RanksView) (changes : ℕ)
            → AreReached r w (2 - changes) reached.now → AreRides r w v changes self.old
            → AreRides r w v changes self.new }
    {
        unmark_far(self.marks.as_mut_slice(), stations, reached);
    }

    /// Whether something may leave the station that comes to the destination in time.
    pub(crate) fn is_marked(&self, station: StationNo) -> bool
        ensures { (r : RunsView) (w : TripWish) (v : RanksView) (changes : ℕ) → AreRides r w v changes self.now
            → result ≡ false → LeavesLate r w v changes station.0 }
    {
        if !self.all {
            return true;
        }
        match self.marks.get(station.0 as usize) {
            Some(mark) => *mark,
            None => true,
        }
    }
}

// Takes away the marks of those of that many stations to which one doesn't come.
fn unmark_far(marks: &mut [bool], stations: u32, reached: &Reached)
    ensures { StayMarked reached.now marks.old marks.new }
{
    for station in 0..stations {
        unmark(marks, StationNo(station), reached);
    }
}

// Likewise of one station.
fn unmark(marks: &mut [bool], station: StationNo, reached: &Reached)
    ensures { StayMarked reached.now marks.old marks.new }
{
    if reached.has(station) {
        return;
    }
    let place = station.0 as usize;
    if place < marks.len() {
        marks[place] = false;
    }
}

// Where the two of the run at the stop stand, with that many stops for each run.
fn place(width: u8, run: RunNo, stop: u8) -> usize
    ensures { result ≡ run.0 * width + stop }
{
    run.0 as usize * usize::from(width) + usize::from(stop)
}
