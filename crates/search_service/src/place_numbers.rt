//! The numbers of a run's places.
ghost use Rattle.std.specs.Prelude.{◌≡◌, ◌==◌, ◌++◌, take, drop, IfOk, OnOk};
ghost use Rattle.place_map.specs.Candidates.{numbers_of};
ghost use Rattle.search_service.specs.Numbering.{in_turn as in_turn_of};

use place_map::{Class, Place, PlaceMap};
use rail_ids::{PlaceNo, RunNo};
use std::alloc::{AllocError, Global};

/// The numbers of the run's places, in order. Only the run's own places are looked at.
pub(crate) fn numbers_of_run(
    alloc: Global,
    places: &PlaceMap,
    run: RunNo,
) -> Result<Vec<PlaceNo>, AllocError>
    ensures numbers { IfOk result (λ v. v.items ≡ numbers_of (λ p. p.run.0 == run.0) 0 places.now) }
{
    let first = places.class_places(run, Class::First);
    let second = places.class_places(run, Class::Second);
    in_turn(alloc, places.of_run(run), first, second)
}

// For each of the places the next number of its class.
fn in_turn(
    alloc: Global,
    places: &[Place],
    first: &[PlaceNo],
    second: &[PlaceNo],
) -> Result<Vec<PlaceNo>, AllocError>
    ensures { IfOk result (λ v. v.items ≡ in_turn_of places.now first.now second.now) }
{
    let mut numbers = Vec::with_capacity(alloc, places.len())?;
    let mut firsts = 0;
    let mut seconds = 0;
    for place in places {
        match place.class {
            Class::First => {
                push_at(&mut numbers, first, firsts)?;
                firsts += 1;
            }
            Class::Second => {
                push_at(&mut numbers, second, seconds)?;
                seconds += 1;
            }
        }
    }
    Ok(numbers)
}

// Appends the number that stands there, if one does.
fn push_at(numbers: &mut Vec<PlaceNo>, list: &[PlaceNo], at: usize) -> Result<(), AllocError>
    ensures { OnOk result (numbers.new.items ≡ numbers.old.items ++ take 1 (drop at list.now)) }
{
    if let Some(number) = list.get(at) {
        numbers.push(*number)?;
    }
    Ok(())
}
