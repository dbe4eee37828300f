ghost use Rattle.std.specs.Prelude.{◌≡◌, ◌≤◌, true, false, length};
ghost use Rattle.std.specs.List.{AllWithin};
ghost use Rattle.trip_builder.specs.Order.{is_same as is_same_of, is_lower as is_lower_of, are_lower as are_lower_of, exceeds as exceeds_of, stands_before as stands_before_of};
ghost use Rattle.trip_builder.specs.Best.{AreInOrder};

use crate::departures::{first_stop_of, last_stop_of};
use crate::trip::Trip;
use train_runs::{Runs, Segment};

/// How many of the trips, which stand in order, stand before this one.
pub(crate) fn place_among(runs: &Runs, sorted: &[Trip], trip: &[Segment]) -> usize
    requires some { 1 ≤ length trip.now }
    requires order { AreInOrder runs.now sorted.now }
    ensures within { result ≤ length sorted.now }
    ensures before { AllWithin (λ t. stands_before_of runs.now t trip.now ≡ true) sorted.now 0 result }
    ensures after { AllWithin (λ t. stands_before_of runs.now t trip.now ≡ false)
        sorted.now result (length sorted.now) }
{
    let mut first = 0;
    let mut size = sorted.len();
    'halves: while size > 0 {
        let half = size / 2;
        if stands_before(runs, sorted[first + half].segments(), trip) {
            first += size - half;
        }
        size = half;
    }
    first
}

/// Whether the one trip stands before the other.
pub(crate) fn stands_before(runs: &Runs, a: &[Segment], b: &[Segment]) -> bool
    requires some { (1 ≤ length a.now) × (1 ≤ length b.now) }
    ensures { result ≡ stands_before_of runs.now a.now b.now }
{
    let (arrival, other) = (last_stop_of(runs, a).arrive, last_stop_of(runs, b).arrive);
    if arrival.seconds() != other.seconds() {
        return arrival.seconds() < other.seconds();
    }
    let (departure, other) = (first_stop_of(runs, a).depart, first_stop_of(runs, b).depart);
    if departure.seconds() != other.seconds() {
        return other.seconds() < departure.seconds();
    }
    if a.len() != b.len() {
        return a.len() < b.len();
    }
    are_lower(a, b)
}

// Whether the first two segments that differ stand in order.
fn are_lower(a: &[Segment], b: &[Segment]) -> bool
    ensures { result ≡ are_lower_of a.now b.now }
{
    for (n, segment) in a.iter().enumerate() {
        if n >= b.len() {
            return false;
        }
        if !is_same(segment, &b[n]) {
            return is_lower(segment, &b[n]);
        }
    }
    a.len() < b.len()
}

/// Whether the trip stands before all that begin so: of the first two segments that differ, its own is the lower.
pub(crate) fn exceeds(begun: &[Segment], trip: &[Segment]) -> bool
    ensures { result ≡ exceeds_of begun.now trip.now }
{
    for (n, segment) in begun.iter().enumerate() {
        if n >= trip.len() {
            return false;
        }
        if !is_same(&trip[n], segment) {
            return is_lower(&trip[n], segment);
        }
    }
    false
}

fn is_same(a: &Segment, b: &Segment) -> bool
    ensures { result ≡ is_same_of a.now b.now }
{
    a.run.0 == b.run.0 && a.span.from() == b.span.from() && a.span.to() == b.span.to()
}

fn is_lower(a: &Segment, b: &Segment) -> bool
    ensures { result ≡ is_lower_of a.now b.now }
{
    if a.run.0 != b.run.0 {
        return a.run.0 < b.run.0;
    }
    if a.span.from() != b.span.from() {
        return a.span.from() < b.span.from();
    }
    a.span.to() < b.span.to()
}

/// Whether the two trips have the same segments.
pub(crate) fn is_same_trip(a: &[Segment], b: &[Segment]) -> bool
    ensures same { result ≡ true → a.now ≡ b.now }
    ensures differs { result ≡ false → ¬ (a.now ≡ b.now) }
{
    !are_lower(a, b) && !are_lower(b, a)
}
