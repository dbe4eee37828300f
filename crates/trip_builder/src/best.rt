ghost use Rattle.std.specs.Prelude.{◌≡◌, ◌≤◌, ◌<◌, ◌+◌, true, false, length, OnOk, slice_index_or};
ghost use Rattle.std.specs.List.{insert};
ghost use Rattle.train_runs.specs.Runs.{RunsView};
ghost use Rattle.train_runs.specs.declared.wish.TripWish.{TripWish};
ghost use Rattle.trip_builder.specs.Trips.{most_trips};
ghost use Rattle.trip_builder.specs.Best.{AreBest, IsAmong, IsTrip, IsDecided};
ghost use Rattle.trip_builder.specs.Search.{IsWay, Grows, AllArriveBy, AllArriveBefore, keep as keep_of};
ghost use Rattle.trip_builder.specs.Order.{sorted_in, last_arrival};
ghost use Rattle.trip_builder.specs.Keeping.{IsKept, IsLimit, IsOutdone, BeginsBehind};

use crate::departures::{first_stop_of, last_stop_of};
use crate::order::{exceeds, is_same_trip, place_among};
use crate::ranks::NEVER;
use crate::trip::Trip;
use std::alloc::{AllocError, Global};
use train_runs::{Runs, Segment, TripWish};

/// How many trips are answered at most.
const MOST_TRIPS: usize = 16;

/// The best sixteen trips so far, and when the last of them arrives: never, before there are sixteen.
#[derive(Drop)]
pub(crate) struct Best {
    trips: Vec<Trip>,
    limit: u64,
}

impl Best {
    /// No trip yet. Takes no memory.
    pub(crate) fn none(alloc: Global) -> Best
        ensures { (r : RunsView) (w : TripWish) → IsKept r w result }
    {
        Best {
            trips: Vec::new(alloc),
            limit: NEVER,
        }
    }

    /// The trips, in their order.
    pub(crate) fn into_trips(self) -> Vec<Trip>
        ensures { result.items ≡ self.trips.items }
    {
        self.trips
    }

    /// By which allocator the trips are kept.
    pub(crate) fn allocator(&self) -> Global {
        *self.trips.allocator()
    }

    /// When the last of sixteen trips arrives: later than each arrival where there are fewer.
    pub(crate) fn limit(&self) -> u64 {
        self.limit
    }

    /// Whether what arrives after these seconds doesn't come among the best.
    pub(crate) fn are_all_by(&self, seconds: u64) -> bool
        ensures { (r : RunsView) (w : TripWish) → IsKept r w self.now → result ≡ true
            → AllArriveBy r self.now.trips.items seconds }
    {
        self.limit <= seconds && self.limit != NEVER
    }

    /// Whether what arrives at these seconds doesn't come among the best.
    pub(crate) fn are_all_before(&self, seconds: u64) -> bool
        ensures { (r : RunsView) (w : TripWish) → IsKept r w self.now → result ≡ true
            → AllArriveBefore r self.now.trips.items seconds }
    {
        self.limit < seconds
    }

    /// Whether what begins so, has that many more segments and arrives no earlier than the bound doesn't come among the
    /// best.
    pub(crate) fn outdo(&self, runs: &Runs, bound: u64, begun: &[Segment], more: usize) -> bool
        requires few { length begun.now + more ≤ 3 }
        ensures { (w : TripWish) → IsKept runs.now w self.now → result ≡ true
            → IsOutdone runs.now self.now.trips.items bound begun.now more }
    {
        if bound != self.limit {
            return self.limit < bound;
        }
        if begun.is_empty() {
            return false;
        }
        match self.trips.get(MOST_TRIPS - 1) {
            Some(last) => begins_behind(runs, last.segments(), bound, begun, more),
            None => false,
        }
    }

    /// Puts the way into its place among the best, where it ends at the destination and isn't there yet.
    pub(crate) fn keep(
        &mut self,
        runs: &Runs,
        wish: &TripWish,
        way: &[Segment],
    ) -> Result<(), AllocError>
        requires some { 1 ≤ length way.now }
        requires few { length way.now ≤ 3 }
        requires way { IsWay runs.now wish.now way.now }
        requires kept { IsKept runs.now wish.now self.old }
        ensures kept { OnOk result (IsKept runs.now wish.now self.new) }
        ensures grows { OnOk result (Grows runs.now wish.now self.old.trips.items self.new.trips.items) }
        ensures decided { OnOk result
            (IsTrip runs.now wish.now way.now → IsDecided runs.now self.new.trips.items way.now) }
    {
        put_new(runs, wish, way, &mut self.trips)?;
        self.limit = limit_of(runs, self.trips.as_slice());
        Ok(())
    }
}

// Whether what begins so, has that many more segments and arrives no earlier than the bound stands after the trip.
fn begins_behind(runs: &Runs, trip: &[Segment], bound: u64, begun: &[Segment], more: usize) -> bool
    requires some { (1 ≤ length trip.now) × (1 ≤ length begun.now) }
    requires few { length begun.now + more ≤ 3 }
    ensures arrival { result ≡ true → last_arrival runs.now trip.now ≤ bound }
    ensures key { result ≡ true → BeginsBehind runs.now trip.now begun.now more }
{
    if bound < last_stop_of(runs, trip).arrive.seconds() {
        return false;
    }
    let departure = first_stop_of(runs, begun).depart.seconds();
    let other = first_stop_of(runs, trip).depart.seconds();
    if departure != other {
        return departure < other;
    }
    let count = begun.len() + more;
    if count != trip.len() {
        return trip.len() < count;
    }
    exceeds(begun, trip)
}

// Puts the way into its place among the best, where it ends at the destination and isn't there yet.
fn put_new(
    runs: &Runs,
    wish: &TripWish,
    way: &[Segment],
    best: &mut Vec<Trip>,
) -> Result<(), AllocError>
    requires some { 1 ≤ length way.now }
    requires few { length way.now ≤ 3 }
    requires way { IsWay runs.now wish.now way.now }
    requires best { AreBest runs.now wish.now best.old.items }
    ensures grows { OnOk result (Grows runs.now wish.now best.old.items best.new.items) }
    ensures decided { OnOk result (IsTrip runs.now wish.now way.now → IsDecided runs.now best.new.items way.now) }
{
    let at = place_among(runs, best.as_slice(), way);
    if at == MOST_TRIPS {
        return Ok(());
    }
    if is_at(best.as_slice(), at, way) {
        return Ok(());
    }
    put(runs, wish, way, at, best)?;
    Ok(())
}

// Puts the way there, where it ends at the destination.
fn put(
    runs: &Runs,
    wish: &TripWish,
    way: &[Segment],
    at: usize,
    best: &mut Vec<Trip>,
) -> Result<(), AllocError>
    requires some { 1 ≤ length way.now }
    requires few { length way.now ≤ 3 }
    requires within { at ≤ length best.old.items }
    requires place { sorted_in runs.now best.old.items way.now ≡ insert best.old.items at way.now }
    ensures { OnOk result (best.new.items ≡ keep_of runs.now wish.now best.old.items way.now) }
{
    if last_stop_of(runs, way).station.0 != wish.destination.0 {
        return Ok(());
    }
    best.insert(at, Trip::of(way))?;
    best.truncate(MOST_TRIPS);
    Ok(())
}

// Whether the trip stands at this place.
fn is_at(best: &[Trip], at: usize, way: &[Segment]) -> bool
    ensures found { result ≡ true → IsAmong best.now way.now }
    ensures apart { result ≡ false → at < length best.now → ¬ (slice_index_or best.now at way.now ≡ way.now) }
{
    match best.get(at) {
        Some(trip) => is_same_trip(trip.segments(), way),
        None => false,
    }
}

// When the last of sixteen trips arrives.
fn limit_of(runs: &Runs, best: &[Trip]) -> u64
    ensures { length best.now ≤ most_trips → IsLimit runs.now best.now result }
{
    match best.get(MOST_TRIPS - 1) {
        Some(last) => last_stop_of(runs, last.segments()).arrive.seconds(),
        None => NEVER,
    }
}
