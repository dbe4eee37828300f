//! The print of what a catalogue's numbers mean.
ghost use Rattle.std.specs.Prelude.{◌≡◌, ◌++◌, IfOk, OnOk};
ghost use Rattle.host_catalogue.specs.Prints.{class_text, place_text, places_text, print_in, run_text, run_text_at};
ghost use Rattle.host_catalogue.specs.Prints.{runs_text, stop_text, stops_text};

use catalogue_contents::Catalogue;
use journal_text::Sum;
use line_text::push_field;
use place_map::{Class, Place};
use rail_ids::RunNo;
use std::alloc::{AllocError, Global};
use train_runs::{Run, Runs, Stop};

/// The print of what the numbers of places mean: the runs in order, with their trains and the stations where they stop,
/// and the places in order, each with its run, coach, number and class. Keys, fares, terms and times aren't in it. It
/// is the SHA-256 of a text with a line for each run and for each place (`specs/Prints`).
pub fn print_of(alloc: Global, catalogue: &Catalogue) -> Result<Sum, AllocError>
    ensures { IfOk result (λ sum. sum.digits ≡ print_in catalogue.now) }
{
    let mut text = Vec::new(alloc);
    text.extend_from_slice(b"rail-print 1\n")?;
    push_runs(&mut text, catalogue.runs())?;
    push_places(&mut text, catalogue.places().all())?;
    Ok(Sum::of(text.as_slice()))
}

// All runs.
fn push_runs(text: &mut Vec<u8>, runs: &Runs) -> Result<(), AllocError>
    ensures { OnOk result (text.new.items ≡ text.old.items ++ runs_text runs.now runs.now.runs) }
{
    for number in 0..runs.count() {
        push_run_at(text, runs, RunNo(number))?;
    }
    Ok(())
}

// The run with this number, if there is one.
fn push_run_at(text: &mut Vec<u8>, runs: &Runs, run: RunNo) -> Result<(), AllocError>
    ensures { OnOk result (text.new.items ≡ text.old.items ++ run_text_at runs.now run.0) }
{
    match runs.run(run) {
        Some(run) => push_run(text, runs, run),
        None => Ok(()),
    }
}

// A run.
fn push_run(text: &mut Vec<u8>, runs: &Runs, run: &Run) -> Result<(), AllocError>
    ensures { OnOk result (text.new.items ≡ text.old.items ++ run_text runs.now run.now) }
{
    text.extend_from_slice(b"run")?;
    push_field(text, u64::from(run.train()))?;
    push_stops(text, runs, run.stops())?;
    text.push(b'\n')?;
    Ok(())
}

// The stations of stops.
fn push_stops(text: &mut Vec<u8>, runs: &Runs, stops: &[Stop]) -> Result<(), AllocError>
    ensures { OnOk result (text.new.items ≡ text.old.items ++ stops_text runs.now stops.now) }
{
    for stop in stops {
        push_stop(text, runs, stop)?;
    }
    Ok(())
}

// The station of a stop.
fn push_stop(text: &mut Vec<u8>, runs: &Runs, stop: &Stop) -> Result<(), AllocError>
    ensures { OnOk result (text.new.items ≡ text.old.items ++ stop_text runs.now stop.now) }
{
    text.push(b' ')?;
    match runs.code(stop.station) {
        Some(code) => text.extend_from_slice(code),
        None => Ok(()),
    }
}

// All places.
fn push_places(text: &mut Vec<u8>, places: &[Place]) -> Result<(), AllocError>
    ensures { OnOk result (text.new.items ≡ text.old.items ++ places_text places.now) }
{
    for place in places {
        push_place(text, place)?;
    }
    Ok(())
}

// A place.
fn push_place(text: &mut Vec<u8>, place: &Place) -> Result<(), AllocError>
    ensures { OnOk result (text.new.items ≡ text.old.items ++ place_text place.now) }
{
    push_field(text, u64::from(place.run.0))?;
    push_field(text, u64::from(place.coach))?;
    push_field(text, u64::from(place.number))?;
    push_class(text, place.class)?;
    text.push(b'\n')?;
    Ok(())
}

// The letter of a class.
fn push_class(text: &mut Vec<u8>, class: Class) -> Result<(), AllocError>
    ensures { OnOk result (text.new.items ≡ text.old.items ++ class_text class) }
{
    match class {
        Class::First => text.extend_from_slice(b" F"),
        Class::Second => text.extend_from_slice(b" S"),
    }
}
