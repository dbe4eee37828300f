ghost use Rattle.train_runs.specs.Stops.{most_stops};
ghost use Rattle.std.specs.Prelude.{◌≡◌, ◌≤◌, ◌<◌, ◌⊎◌, ◌+◌, ◌++◌, ◌∷◌, [], true, false, List, length, OnOk, IfSome};
ghost use Rattle.train_runs.specs.Runs.{RunsView};
ghost use Rattle.train_runs.specs.declared.segment.Segment.{Segment};
ghost use Rattle.train_runs.specs.declared.wish.TripWish.{TripWish};
ghost use Rattle.trip_builder.specs.Segments.{segment};
ghost use Rattle.trip_builder.specs.Search.{IsWay, MayTake, Grows, AreDecidedFrom, has_run as has_run_of};
ghost use Rattle.trip_builder.specs.Keeping.{IsSearch, IsOutdone};
ghost use Rattle.trip_builder.specs.Bounds.{never};

use crate::best::Best;
use crate::bounds::Bounds;
use crate::chain::has_run;
use crate::departures::stops_of;
use crate::ends::{End, Ends};
use crate::ranks::NEVER;
use crate::shortest::Shortest;
use arrayvec::ArrayVec;
use leg_masks::Span;
use std::alloc::AllocError;
use train_runs::{Departure, Runs, Segment, TripWish};

/// What a search has so far. It has the best trips, where runs come to the destination, how short a ride there is at
/// least, and the bounds from the destination back once they are made. It also has how many tries come before them, and
/// by when what is looked at ahead arrives.
#[derive(Drop)]
pub(crate) struct Found {
    pub best: Best,
    pub ends: Ends,
    pub shortest: Shortest,
    pub bounds: Bounds,
    pub left: u32,
    pub ceiling: u64,
}

/// Whether the train may be taken, and could lead to a trip that comes among the best.
pub(crate) fn may_lead(
    runs: &Runs,
    wish: &TripWish,
    way: &[Segment],
    departure: &Departure,
    changes: usize,
    found: &Found,
) -> bool
    requires few { length way.now + changes ≤ 2 }
    requires search { IsSearch runs.now wish.now found.now }
    ensures fresh { result ≡ true → has_run_of way.now departure.now.run.0 ≡ false }
    ensures decided { result ≡ false
        → AreDecidedFrom runs.now wish.now found.now.best.trips.items way.now changes departure.now }
{
    if changes == 0 && misses(found, departure) {
        return false;
    }
    if has_run(way, departure.run) {
        return false;
    }
    let bound = found.bounds.of_ride(changes, departure, way);
    if bound == NEVER {
        return false;
    }
    if !found.best.are_all_by(bound) {
        return true;
    }
    match to_next_stop(runs, way, departure) {
        Some(begun) => !found.best.outdo(runs, bound, begun.as_slice(), changes),
        None => true,
    }
}

// Whether it is known that the train doesn't come to the destination from there, or too late for the best.
fn misses(found: &Found, departure: &Departure) -> bool
    ensures { (r : RunsView) (w : TripWish) (way : List Segment) → IsSearch r w found.now → result ≡ true
        → AreDecidedFrom r w found.now.best.trips.items way 0 departure.now }
{
    match found.ends.known(departure.run) {
        End::Unknown => false,
        End::Nowhere => true,
        End::At(call) => call.stop <= departure.stop || found.best.are_all_before(call.arrive),
    }
}

/// Whether what begins so, has that many more segments and arrives no earlier than the bound doesn't come among the
/// best.
pub(crate) fn is_hopeless(
    runs: &Runs,
    found: &Found,
    bound: u64,
    begun: &[Segment],
    more: usize,
) -> bool
    requires few { length begun.now + more ≤ 3 }
    ensures { (w : TripWish) → IsSearch runs.now w found.now → result ≡ true
        → (bound ≡ never) ⊎ IsOutdone runs.now found.now.best.trips.items bound begun.now more }
{
    bound == NEVER || found.best.outdo(runs, bound, begun, more)
}

/// Tries the one that ends with this train.
pub(crate) fn get_off(
    runs: &Runs,
    wish: &TripWish,
    way: &[Segment],
    departure: &Departure,
    found: &mut Found,
) -> Result<(), AllocError>
    requires few { length way.now ≤ 2 }
    requires way { IsWay runs.now wish.now way.now }
    requires search { IsSearch runs.now wish.now found.old }
    requires taken { MayTake runs.now wish.now way.now departure.now }
    ensures search { OnOk result (IsSearch runs.now wish.now found.new) }
    ensures grows { OnOk result (Grows runs.now wish.now found.old.best.trips.items found.new.best.trips.items) }
    ensures decided { OnOk result
        (AreDecidedFrom runs.now wish.now found.new.best.trips.items way.now 0 departure.now) }
{
    let End::At(call) = found.ends.of(runs, wish, departure.run) else {
        return Ok(());
    };
    if call.stop <= departure.stop {
        return Ok(());
    }
    if found.best.are_all_before(call.arrive) {
        return Ok(());
    }
    let way = longer(way, departure, call.stop);
    found.best.keep(runs, wish, way.as_slice())?;
    Ok(())
}

// The way with the train from the departure to its next stop, where it has one.
fn to_next_stop(runs: &Runs, way: &[Segment], departure: &Departure) -> Option<ArrayVec<Segment, 3>>
    requires few { length way.now ≤ 2 }
    ensures { IfSome result (λ b. b.items
        ≡ way.now ++ segment departure.now.run.0 departure.now.stop (departure.now.stop + 1) ∷ []) }
{
    let next = usize::from(departure.stop) + 1;
    if next >= stops_of(runs, departure.run).len() {
        return None;
    }
    Some(longer(way, departure, next as u8))
}

/// The way with the train from the departure to this stop.
pub(crate) fn longer(way: &[Segment], departure: &Departure, to: u8) -> ArrayVec<Segment, 3>
    requires few { length way.now ≤ 2 }
    requires later { departure.now.stop < to }
    requires stop { to < most_stops }
    ensures { result.items ≡ way.now ++ segment departure.now.run.0 departure.now.stop to ∷ [] }
{
    let Some(span) = Span::new(departure.stop, to) else {
        unreachable!()
    };
    let mut found = ArrayVec::new();
    let _copied = found.try_extend_from_slice(way);
    found.push(Segment {
        run: departure.run,
        span,
    });
    found
}
