//! What the catalogue says of the stops and places that a reply names.
ghost use Rattle.std.specs.Prelude.{◌≡◌};
ghost use Rattle.train_runs.specs.Stops.{stop_at as stop_at_of, no_stop as no_stop_of};
ghost use Rattle.osdm_parts.specs.Spots.{run_stop as run_stop_of, station_code as station_code_of, stop_code as stop_code_of, train_of as train_number_of, place_at as place_at_of, run_places as run_places_of};

use catalogue_contents::Catalogue;
use place_map::{Class, Place};
use rail_ids::{RunNo, StationNo};
use rail_time::Moment;
use train_runs::Stop;

/// The n-th stop of the run.
pub(crate) fn run_stop(cat: &Catalogue, run: RunNo, n: u8) -> Stop
    ensures { result ≡ run_stop_of cat.now run.0 n }
{
    match cat.runs().run(run) {
        Some(it) => stop_at(it.stops(), n),
        None => no_stop(),
    }
}

fn stop_at(stops: &[Stop], n: u8) -> Stop
    ensures { result ≡ stop_at_of stops.now n }
{
    match stops.get(usize::from(n)) {
        Some(stop) => *stop,
        None => no_stop(),
    }
}

fn no_stop() -> Stop
    ensures { result ≡ no_stop_of }
{
    let never = Moment::of(0).unwrap();
    Stop {
        station: StationNo(0),
        arrive: never,
        depart: never,
    }
}

fn station_code(cat: &Catalogue, station: StationNo) -> &str
    ensures { result.now ≡ station_code_of cat.now station }
{
    match cat.runs().code_text(station) {
        Some(code) => code,
        None => "",
    }
}

/// The code of the station of the n-th stop.
pub(crate) fn stop_code(cat: &Catalogue, run: RunNo, n: u8) -> &str
    ensures { result.now ≡ stop_code_of cat.now run.0 n }
{
    station_code(cat, run_stop(cat, run, n).station)
}

/// The number of the run's train.
pub(crate) fn train_number(cat: &Catalogue, run: RunNo) -> u32
    ensures { result ≡ train_number_of cat.now run.0 }
{
    match cat.runs().run(run) {
        Some(it) => it.train(),
        None => 0,
    }
}

/// The place of a number.
pub(crate) fn place_at(cat: &Catalogue, place: u32) -> Place
    ensures { result ≡ place_at_of cat.now place }
{
    match cat.places().all().get(place as usize) {
        Some(it) => *it,
        None => Place {
            run: RunNo(0),
            coach: 0,
            number: 0,
            class: Class::First,
            traits: 0,
        },
    }
}

/// The places of the run, in order.
pub fn run_places(cat: &Catalogue, run: RunNo) -> &[Place]
    ensures { result.now ≡ run_places_of cat.now run.0 }
{
    cat.places().of_run(run)
}
