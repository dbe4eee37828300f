ghost use Rattle.std.specs.Prelude.{◌≡◌, ◌≤◌, ◌<◌, ◌+◌, length, IfOk, OnOk};
ghost use Rattle.trip_builder.specs.Trips.{trips_of};
ghost use Rattle.trip_builder.specs.Search.{IsWay, MayTake, Rise, Grows, AreDecided, AreDecidedFrom};
ghost use Rattle.trip_builder.specs.Keeping.{IsSearch};

use crate::ahead::look_ahead;
use crate::best::Best;
use crate::bounds::Bounds;
use crate::departures::{leaving, stops_of, window_of};
use crate::ends::Ends;
use crate::found::{Found, get_off, is_hopeless, longer, may_lead};
use crate::ranks::NEVER;
use crate::shortest::Shortest;
use crate::trip::Trip;
use std::alloc::{AllocError, Global};
use train_runs::{Departure, Runs, Segment, TripWish};

/// How many segments a trip has at most.
pub(crate) const MOST_SEGMENTS: usize = 3;

/// How many tries a search has before it makes the bounds, which take memory for each station, and some passes over all
/// runs and their departures.
const SHORT_SEARCH: u32 = 50_000;

/// A train with that many stops is a try more: each of them is looked at.
const STOPS_OF_A_TRY: u32 = 16;

/// The first sixteen trips of the wish: by their last arrival, then the later first departure, then fewer segments,
/// then the list of run, first stop and last stop.
///
/// A trip is one to three segments on different runs, from the origin to the destination. Each begins at the station
/// where the one before ended, no earlier than the station's change time after it and no later than 14,400 seconds; the
/// first departs from the wish's earliest to its latest moment, both included. A trip may pass through its origin and
/// destination.
///
/// Trips with fewer segments are tried first: the best sixteen so far bound what is tried of the others.
pub fn trips(alloc: Global, runs: &Runs, wish: &TripWish) -> Result<Vec<Trip>, AllocError>
    ensures { IfOk result (λ v. v.items ≡ trips_of runs.now wish.now) }
{
    let mut found = Found {
        best: Best::none(alloc),
        ends: Ends::unknown(alloc, runs)?,
        shortest: Shortest::blank(alloc),
        bounds: Bounds::unknown(alloc),
        left: SHORT_SEARCH,
        ceiling: 0,
    };
    for changes in 0..MOST_SEGMENTS {
        time_rides(runs, wish, &mut found)?;
        go_on(runs, wish, &[], changes, &mut found)?;
    }
    Ok(found.best.into_trips())
}

// Once there are sixteen trips, it looks up the shortest rides. Before that nothing is too late.
fn time_rides(runs: &Runs, wish: &TripWish, found: &mut Found) -> Result<(), AllocError>
    requires { IsSearch runs.now wish.now found.old }
    ensures search { OnOk result (IsSearch runs.now wish.now found.new) }
    ensures grows { OnOk result (Grows runs.now wish.now found.old.best.trips.items found.new.best.trips.items) }
{
    if found.shortest.are_blank() && found.best.are_all_before(NEVER) {
        let alloc = found.best.allocator();
        found.shortest = Shortest::of(alloc, runs, wish)?;
    }
    Ok(())
}

// Tries all trips that go on from the way with one train and that many changes to others.
#[cycle(search)]
fn go_on(
    runs: &Runs,
    wish: &TripWish,
    way: &[Segment],
    changes: usize,
    found: &mut Found,
) -> Result<(), AllocError>
    requires few { length way.now + changes ≤ 2 }
    requires way { IsWay runs.now wish.now way.now }
    requires search { IsSearch runs.now wish.now found.old }
    ensures search { OnOk result (IsSearch runs.now wish.now found.new) }
    ensures grows { OnOk result (Grows runs.now wish.now found.old.best.trips.items found.new.best.trips.items) }
    ensures decided { OnOk result (AreDecided runs.now wish.now found.new.best.trips.items way.now changes) }
{
    bound_long_search(runs, wish, found)?;
    let window = window_of(runs, wish, way);
    let bound = found.bounds.of_leaving(changes, &window, way);
    if is_hopeless(runs, found, bound, way, changes + 1) {
        return Ok(());
    }
    let least = found.shortest.least_from(changes, window.station);
    for departure in leaving(runs, window) {
        if found
            .best
            .are_all_before(departure.moment.seconds() + least)
        {
            return Ok(());
        }
        found.left = found.left.saturating_sub(1);
        if may_lead(runs, wish, way, departure, changes, found) {
            ride(runs, wish, way, departure, changes, found)?;
        }
    }
    Ok(())
}

// Tries those of them that take this train.
#[cycle(search)]
fn ride(
    runs: &Runs,
    wish: &TripWish,
    way: &[Segment],
    departure: &Departure,
    changes: usize,
    found: &mut Found,
) -> Result<(), AllocError>
    requires few { length way.now + changes ≤ 2 }
    requires way { IsWay runs.now wish.now way.now }
    requires search { IsSearch runs.now wish.now found.old }
    requires rise { Rise runs.now }
    requires taken { MayTake runs.now wish.now way.now departure.now }
    ensures search { OnOk result (IsSearch runs.now wish.now found.new) }
    ensures grows { OnOk result (Grows runs.now wish.now found.old.best.trips.items found.new.best.trips.items) }
    ensures decided { OnOk result
        (AreDecidedFrom runs.now wish.now found.new.best.trips.items way.now changes departure.now) }
{
    if changes == 0 {
        return get_off(runs, wish, way, departure, found);
    }
    let stops = stops_of(runs, departure.run);
    found.left = found
        .left
        .saturating_sub(stops.len() as u32 / STOPS_OF_A_TRY);
    for to in departure.stop + 1..stops.len() as u8 {
        let off = &stops[usize::from(to)];
        let arrive = off.arrive.seconds();
        if found.best.are_all_before(arrive + 1) {
            return Ok(());
        }
        let least = found.shortest.least_from(changes - 1, off.station);
        if !found.best.are_all_before(arrive + least) {
            let way = longer(way, departure, to);
            go_on(runs, wish, way.as_slice(), changes - 1, found)?;
        }
    }
    Ok(())
}

// Counts a try. Where the search has got long, it makes the bounds, and looks ahead by them.
fn bound_long_search(runs: &Runs, wish: &TripWish, found: &mut Found) -> Result<(), AllocError>
    requires { IsSearch runs.now wish.now found.old }
    ensures search { OnOk result (IsSearch runs.now wish.now found.new) }
    ensures grows { OnOk result (Grows runs.now wish.now found.old.best.trips.items found.new.best.trips.items) }
{
    if found.left > 0 {
        found.left -= 1;
        return Ok(());
    }
    if !found.bounds.are_unknown() {
        return Ok(());
    }
    let alloc = found.best.allocator();
    found.bounds = Bounds::of(alloc, runs, wish, &mut found.ends, found.best.limit())?;
    found.left = SHORT_SEARCH;
    look_ahead(runs, wish, found)?;
    Ok(())
}
