ghost use Rattle.std.specs.Prelude.{◌≡◌, ◌≤◌, ◌<◌, ◌+◌, true, length, OnOk, IfSome};
ghost use Rattle.std.specs.List.{AllByRecursion};
ghost use Rattle.trip_builder.specs.Segments.{IsKnown};
ghost use Rattle.trip_builder.specs.Search.{IsWay, Grows};
ghost use Rattle.trip_builder.specs.Keeping.{IsSearch};
ghost use Rattle.trip_builder.specs.Bounds.{never};

use crate::bounds::Bounds;
use crate::chain::{are_connected, has_run};
use crate::departures::{admits, leaving, stop_of, stops_of, window_of};
use crate::ends::End;
use crate::found::{Found, is_hopeless, longer, may_lead};
use crate::ranks::NEVER;
use crate::search::MOST_SEGMENTS;
use rail_ids::RunNo;
use std::alloc::AllocError;
use train_runs::{Departure, Runs, Segment, TripWish};

/// How many trains are taken after one way at most: as many as there are best trips, twice.
const MOST_TRAINS: usize = 32;

/// Puts trips among the best that arrive early, the earliest first, until there are sixteen. It needs the bounds.
///
/// No promise is made of what it finds: a search that looks at all trips goes on after it, and then has little left to
/// try.
#[tactic(auto, using(crate::proofs::Deciding::grows_on))]
pub(crate) fn look_ahead(runs: &Runs, wish: &TripWish, found: &mut Found) -> Result<(), AllocError>
    requires { IsSearch runs.now wish.now found.old }
    ensures search { OnOk result (IsSearch runs.now wish.now found.new) }
    ensures grows { OnOk result (Grows runs.now wish.now found.old.best.trips.items found.new.best.trips.items) }
{
    let departures = leaving(runs, window_of(runs, wish, &[]));
    let mut ceiling = least_after(departures, &found.bounds, 0);
    'ceilings: while ceiling < NEVER && !found.best.are_all_before(ceiling) {
        found.ceiling = ceiling;
        look_until(runs, wish, departures, found)?;
        ceiling = least_after(departures, &found.bounds, ceiling);
    }
    Ok(())
}

// The least bound of what leaves so that is later than these seconds.
fn least_after(departures: &[Departure], bounds: &Bounds, seconds: u64) -> u64
    requires { seconds < never }
    ensures { seconds < result }
{
    let mut least = NEVER;
    for changes in 0..MOST_SEGMENTS {
        least = least.min(least_of(departures, bounds, changes, seconds));
    }
    least
}

fn least_of(departures: &[Departure], bounds: &Bounds, changes: usize, seconds: u64) -> u64
    requires { seconds < never }
    ensures { seconds < result }
{
    let mut least = NEVER;
    for departure in departures {
        let bound = bounds.of_ride(changes, departure, &[]);
        if seconds < bound && bound < least {
            least = bound;
        }
    }
    least
}

// Tries what arrives by the ceiling, of the later departures first.
#[tactic(auto, using(crate::proofs::Deciding::grows_on))]
fn look_until(
    runs: &Runs,
    wish: &TripWish,
    departures: &[Departure],
    found: &mut Found,
) -> Result<(), AllocError>
    requires { IsSearch runs.now wish.now found.old }
    ensures search { OnOk result (IsSearch runs.now wish.now found.new) }
    ensures grows { OnOk result (Grows runs.now wish.now found.old.best.trips.items found.new.best.trips.items) }
{
    let mut end = departures.len();
    'groups: while end > 0 {
        let first = group_before(departures, end);
        look_at(runs, wish, &departures[first..end], found)?;
        end = first;
    }
    Ok(())
}

// How many of the departures leave before the last of that many.
fn group_before(departures: &[Departure], end: usize) -> usize
    requires some { 0 < end }
    requires within { end ≤ length departures.now }
    ensures { result < end }
{
    let moment = departures[end - 1].moment.seconds();
    for back in 1..end {
        if departures[end - 1 - back].moment.seconds() != moment {
            return end - back;
        }
    }
    0
}

// Tries what begins with one of these departures, with fewer changes first.
#[tactic(auto, using(crate::proofs::Deciding::grows_on))]
fn look_at(
    runs: &Runs,
    wish: &TripWish,
    departures: &[Departure],
    found: &mut Found,
) -> Result<(), AllocError>
    requires { IsSearch runs.now wish.now found.old }
    ensures search { OnOk result (IsSearch runs.now wish.now found.new) }
    ensures grows { OnOk result (Grows runs.now wish.now found.old.best.trips.items found.new.best.trips.items) }
{
    for changes in 0..MOST_SEGMENTS {
        look_with(runs, wish, departures, changes, found)?;
    }
    Ok(())
}

#[tactic(auto, using(crate::proofs::Deciding::grows_on))]
fn look_with(
    runs: &Runs,
    wish: &TripWish,
    departures: &[Departure],
    changes: usize,
    found: &mut Found,
) -> Result<(), AllocError>
    requires few { changes ≤ 2 }
    requires search { IsSearch runs.now wish.now found.old }
    ensures search { OnOk result (IsSearch runs.now wish.now found.new) }
    ensures grows { OnOk result (Grows runs.now wish.now found.old.best.trips.items found.new.best.trips.items) }
{
    for departure in departures {
        if is_in_time(found, &[], changes, departure)
            && may_lead(runs, wish, &[], departure, changes, found)
        {
            take(runs, wish, &[], departure, changes, found)?;
        }
    }
    Ok(())
}

// Whether what takes the train could arrive by the ceiling.
fn is_in_time(found: &Found, way: &[Segment], changes: usize, departure: &Departure) -> bool {
    found.bounds.of_ride(changes, departure, way) <= found.ceiling
}

// Tries what goes on from the way with this train.
#[tactic(auto, using(crate::proofs::Deciding::grows_on))]
#[cycle(ahead)]
fn take(
    runs: &Runs,
    wish: &TripWish,
    way: &[Segment],
    departure: &Departure,
    changes: usize,
    found: &mut Found,
) -> Result<(), AllocError>
    requires few { length way.now + changes ≤ 2 }
    requires search { IsSearch runs.now wish.now found.old }
    ensures search { OnOk result (IsSearch runs.now wish.now found.new) }
    ensures grows { OnOk result (Grows runs.now wish.now found.old.best.trips.items found.new.best.trips.items) }
{
    if changes == 0 {
        arrive(runs, wish, way, departure, found)?;
        return Ok(());
    }
    let stops = stops_of(runs, departure.run);
    for to in 0..stops.len() as u8 {
        let off = stops[usize::from(to)].arrive.seconds();
        if departure.stop < to && off < found.ceiling {
            let way = longer(way, departure, to);
            reach(runs, wish, way.as_slice(), changes, found)?;
        }
    }
    Ok(())
}

// Tries what goes on from the way with that many further trains.
#[cycle(ahead)]
fn reach(
    runs: &Runs,
    wish: &TripWish,
    way: &[Segment],
    trains: usize,
    found: &mut Found,
) -> Result<(), AllocError>
    requires some { 1 ≤ length way.now }
    requires trains { 1 ≤ trains }
    requires few { length way.now + trains ≤ 3 }
    requires search { IsSearch runs.now wish.now found.old }
    ensures search { OnOk result (IsSearch runs.now wish.now found.new) }
    ensures grows { OnOk result (Grows runs.now wish.now found.old.best.trips.items found.new.best.trips.items) }
{
    let window = window_of(runs, wish, way);
    let bound = found.bounds.of_leaving(trains - 1, &window, way);
    if bound > found.ceiling || is_hopeless(runs, found, bound, way, trains) {
        return Ok(());
    }
    change(runs, wish, way, trains, leaving(runs, window), found)?;
    Ok(())
}

// Tries what goes on with one of these trains, the lower runs first.
#[tactic(auto, using(crate::proofs::Deciding::grows_on))]
#[cycle(ahead)]
fn change(
    runs: &Runs,
    wish: &TripWish,
    way: &[Segment],
    trains: usize,
    departures: &[Departure],
    found: &mut Found,
) -> Result<(), AllocError>
    requires some { 1 ≤ length way.now }
    requires trains { 1 ≤ trains }
    requires few { length way.now + trains ≤ 3 }
    requires search { IsSearch runs.now wish.now found.old }
    ensures search { OnOk result (IsSearch runs.now wish.now found.new) }
    ensures grows { OnOk result (Grows runs.now wish.now found.old.best.trips.items found.new.best.trips.items) }
{
    let mut run = 0;
    let mut left = MOST_TRAINS;
    'trains: while left > 0 {
        let Some(departure) = next_train(departures, way, trains - 1, run, found) else {
            return Ok(());
        };
        if !may_lead(runs, wish, way, &departure, trains - 1, found) {
            return Ok(());
        }
        take(runs, wish, way, &departure, trains - 1, found)?;
        run = departure.run.0.saturating_add(1);
        left -= 1;
    }
    Ok(())
}

// Of the trains that could arrive by the ceiling the one of the lowest run, from this one on.
fn next_train(
    departures: &[Departure],
    way: &[Segment],
    changes: usize,
    run: u32,
    found: &Found,
) -> Option<Departure>
    ensures { IfSome result (λ d. run ≤ d.run.0) }
{
    let mut next = None;
    for departure in departures {
        if run <= departure.run.0
            && is_lower(departure.run, &next)
            && is_in_time(found, way, changes, departure)
            && !has_run(way, departure.run)
        {
            next = Some(*departure);
        }
    }
    next
}

fn is_lower(run: RunNo, next: &Option<Departure>) -> bool {
    match next {
        Some(departure) => run.0 < departure.run.0,
        None => true,
    }
}

// Tries the one that ends with this train.
fn arrive(
    runs: &Runs,
    wish: &TripWish,
    way: &[Segment],
    departure: &Departure,
    found: &mut Found,
) -> Result<(), AllocError>
    requires few { length way.now ≤ 2 }
    requires search { IsSearch runs.now wish.now found.old }
    ensures search { OnOk result (IsSearch runs.now wish.now found.new) }
    ensures grows { OnOk result (Grows runs.now wish.now found.old.best.trips.items found.new.best.trips.items) }
{
    let End::At(call) = found.ends.of(runs, wish, departure.run) else {
        return Ok(());
    };
    if call.stop <= departure.stop {
        return Ok(());
    }
    let way = longer(way, departure, call.stop);
    keep_way(runs, wish, way.as_slice(), found)?;
    Ok(())
}

// Puts the way among the best, where it is a trip.
fn keep_way(
    runs: &Runs,
    wish: &TripWish,
    way: &[Segment],
    found: &mut Found,
) -> Result<(), AllocError>
    requires some { 1 ≤ length way.now }
    requires few { length way.now ≤ 3 }
    requires search { IsSearch runs.now wish.now found.old }
    ensures search { OnOk result (IsSearch runs.now wish.now found.new) }
    ensures grows { OnOk result (Grows runs.now wish.now found.old.best.trips.items found.new.best.trips.items) }
{
    if is_way(runs, wish, way) {
        found.best.keep(runs, wish, way)?;
    }
    Ok(())
}

// Whether a trip may begin so.
fn is_way(runs: &Runs, wish: &TripWish, way: &[Segment]) -> bool
    requires some { 1 ≤ length way.now }
    ensures { result ≡ true → IsWay runs.now wish.now way.now }
{
    let first = &way[0];
    let window = window_of(runs, wish, &[]);
    if !admits(window, &stop_of(runs, first.run, first.span.from())) {
        return false;
    }
    if !are_known(runs, way) {
        return false;
    }
    are_connected(runs, way)
}

// Whether each segment ends at a later stop of its run.
fn are_known(runs: &Runs, way: &[Segment]) -> bool
    ensures { result ≡ true → AllByRecursion (IsKnown runs.now) way.now }
{
    for segment in way {
        if !is_known(runs, segment) {
            return false;
        }
    }
    true
}

fn is_known(runs: &Runs, segment: &Segment) -> bool
    ensures { result ≡ true → IsKnown runs.now segment.now }
{
    let to = usize::from(segment.span.to());
    segment.span.from() < segment.span.to() && to < stops_of(runs, segment.run).len()
}
