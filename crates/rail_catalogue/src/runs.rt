ghost use Rattle.std.specs.Prelude.{◌≡◌, ◌<◌, ◌≤◌, ◌+◌, [], ◌∷◌, All, Ok, Err, None, IfOk, IfErr, IfSome, IfNone, MatchOption, OnOk, IsUtf8, is_some, true, length};
ghost use Rattle.json_text.specs.View.{view};
ghost use Rattle.json_text.specs.Outlines.{member_at};
ghost use Rattle.json_text.specs.Ahead.{ahead};
ghost use Rattle.place_map.specs.Places.{EndsWithRun};
ghost use Rattle.rail_catalogue.specs.Json.{list_of as list_of_member};
ghost use Rattle.rail_catalogue.specs.Faults.{Refuses, fault_of};
ghost use Rattle.rail_catalogue.specs.Stops.{timetable_of, fares_of, amount_at, with_run};
ghost use Rattle.catalogue_contents.specs.Contents.{IsWhole};
ghost use Rattle.rail_catalogue.specs.Format.{places_of, with_item, network_from, network_of};
ghost use Rattle.rail_catalogue.specs.Networks.{network_view, runs_at, start_of};
ghost use Rattle.rail_catalogue.specs.Listed.{all_ahead, AreListed};

use crate::coaches::read_coaches;
use crate::fault::{CatalogueFault, field_fault, item_fault};
use crate::json::{list_in, list_of, whole_in};
use crate::stops::read_stops;
use catalogue_contents::{Fares, Network};
use json_text::{Items, Scratch, Value, items_at};
use place_map::PlaceMap;
use rail_ids::RunNo;
use std::alloc::{AllocError, Global};
use tariff::Fare;
use train_runs::{Run, RunFault, Runs};

/// The runs of the member at this place, over these stations.
pub fn read_network(
    alloc: Global,
    text: &[u8],
    scratch: &mut Scratch,
    place: Option<usize>,
    runs: Runs,
) -> Result<Network, CatalogueFault>
    requires empty { runs.runs ≡ [] }
    requires utf8 { IsUtf8 text.now }
    requires there { IfSome place (λ i. is_some (member_at i text.now) ≡ true) }
    ensures ok { IfOk result (λ n. network_of runs.stations (runs_at place text.now) ≡ Ok (network_view n)) }
    ensures whole { IfOk result (λ n. IsWhole n.runs n.fares.items n.places) }
    ensures some { IfOk result (λ n. 1 ≤ length n.runs.runs) }
    ensures err { Refuses (network_of runs.stations (runs_at place text.now)) result }
{
    let Some(items) = find_runs(text, scratch, place)? else {
        return Err(field_fault(alloc, "runs"));
    };
    let network = read_runs(alloc, items, runs)?;
    if network.fares.is_empty() {
        return Err(field_fault(alloc, "runs"));
    }
    Ok(network)
}

// The runs, of which one at a time is read, where they are a list.
fn find_runs<'a>(
    text: &'a [u8],
    scratch: &'a mut Scratch,
    place: Option<usize>,
) -> Result<Option<Items<'a>>, AllocError>
    requires utf8 { IsUtf8 text.now }
    requires there { IfSome place (λ i. is_some (member_at i text.now) ≡ true) }
    ensures { IfOk result (λ l. MatchOption l (list_of_member (runs_at place text.now) ≡ None)
        (λ l. AreListed (runs_at place text.now) l)) }
{
    let Some(place) = place else {
        return Ok(None);
    };
    items_at(text, scratch, place)
}

// The network of these stations and items, one after another.
fn read_runs(alloc: Global, items: Items<'_>, runs: Runs) -> Result<Network, CatalogueFault>
    requires empty { runs.runs ≡ [] }
    requires there { is_some (ahead items) ≡ true }
    requires few { length (all_ahead items) ≤ 9_223_372_036_854_775_807 }
    ensures ok { IfOk result
        (λ n. network_from (start_of runs.stations) 0 (all_ahead items.entry) ≡ Ok (network_view n)) }
    ensures whole { IfOk result (λ n. IsWhole n.runs n.fares.items n.places) }
    ensures count { IfOk result (λ n. length n.runs.runs ≡ length (all_ahead items.entry)) }
    ensures err { Refuses (network_from (start_of runs.stations) 0 (all_ahead items.entry)) result }
{
    let mut items = items;
    let mut network = Network {
        runs,
        fares: Vec::new(alloc),
        places: PlaceMap::new(alloc),
    };
    let mut n = 0;
    'items: while let Some(item) = next_run(alloc, &mut items)? {
        read_run(alloc, &item, n, &mut network)?;
        n += 1;
    }
    Ok(network)
}

// The next item of a list that is known to be JSON, so that nothing but memory can be wanting.
fn next_run<'a>(alloc: Global, items: &mut Items<'a>) -> Result<Option<Value<'a>>, CatalogueFault>
    requires { is_some (ahead items.old) ≡ true }
    ensures last { IfOk result (λ v. IfNone v (all_ahead items.old ≡ [])) }
    ensures there { IfOk result (λ v. IfSome v (λ _. is_some (ahead items.new) ≡ true)) }
    ensures next { IfOk result (λ v. IfSome v (λ v. all_ahead items.old ≡ view v ∷ all_ahead items.new)) }
    ensures err { IfErr result (λ e. fault_of e ≡ None) }
{
    match items.next(alloc) {
        Ok(item) => Ok(item),
        Err(_) => Err(CatalogueFault::NoMemory),
    }
}

// Adds the next item of the list, which has this index.
fn read_run(
    alloc: Global,
    item: &Value<'_>,
    n: usize,
    network: &mut Network,
) -> Result<(), CatalogueFault>
    requires number { n ≡ length network.old.runs.runs }
    requires whole { IsWhole network.old.runs network.old.fares.items network.old.places }
    ensures ok { OnOk result (with_item (network_view network.old) n (view item.now) ≡ Ok (network_view network.new)) }
    ensures number { OnOk result (length network.new.runs.runs ≡ n + 1) }
    ensures whole { OnOk result (IsWhole network.new.runs network.new.fares.items network.new.places) }
    ensures err { Refuses (with_item (network_view network.old) n (view item.now)) result }
{
    let run = read_timetable(alloc, item, n, &mut network.runs)?;
    let fares = read_fares(alloc, item, n)?;
    read_places(alloc, item, run, &mut network.places)?;
    network.fares.push(fares)?;
    Ok(())
}

// Adds the train and the stops of an item.
fn read_timetable(
    alloc: Global,
    item: &Value<'_>,
    n: usize,
    runs: &mut Runs,
) -> Result<RunNo, CatalogueFault>
    requires { n ≡ length runs.old.runs }
    ensures ok { OnOk result (timetable_of runs.old n (view item.now) ≡ Ok runs.new) }
    ensures number { IfOk result (λ r. r.0 ≡ n) }
    ensures count { OnOk result (length runs.new.runs ≡ n + 1) }
    ensures err { Refuses (timetable_of runs.old n (view item.now)) result }
{
    if !item.is_object() {
        return Err(item_fault(alloc, "runs", n, ""));
    }
    let Some(train) = whole_in(item.get("train"), 1, 99_999) else {
        return Err(item_fault(alloc, "runs", n, ".train"));
    };
    let Some(items) = list_of(item.get("stops")) else {
        return Err(item_fault(alloc, "runs", n, ".stops"));
    };
    let stops = read_stops(alloc, items, n, runs)?;
    add_run(runs, Run::new(train, stops))
}

fn add_run(runs: &mut Runs, run: Run) -> Result<RunNo, CatalogueFault>
    requires known { All (λ s. s.station.0 < length runs.old.stations) run.stops }
    ensures ok { OnOk result (with_run runs.old run ≡ Ok runs.new) }
    ensures number { IfOk result (λ r. r.0 ≡ length runs.old.runs) }
    ensures count { OnOk result (length runs.new.runs ≡ length runs.old.runs + 1) }
    ensures err { Refuses (with_run runs.old run) result }
{
    match runs.add(run) {
        Ok(number) => Ok(number),
        Err(RunFault::NoMemory) => Err(CatalogueFault::NoMemory),
        Err(fault) => Err(CatalogueFault::Run(fault)),
    }
}

fn read_fares(alloc: Global, item: &Value<'_>, n: usize) -> Result<Fares, CatalogueFault>
    ensures ok { IfOk result (λ f. fares_of n (view item.now) ≡ Ok f) }
    ensures err { Refuses (fares_of n (view item.now)) result }
{
    let Some(first_base) = amount_in(item, "first", "base") else {
        return Err(item_fault(alloc, "runs", n, ".fares.first.base"));
    };
    let Some(first_leg) = amount_in(item, "first", "perLeg") else {
        return Err(item_fault(alloc, "runs", n, ".fares.first.perLeg"));
    };
    let Some(second_base) = amount_in(item, "second", "base") else {
        return Err(item_fault(alloc, "runs", n, ".fares.second.base"));
    };
    let Some(second_leg) = amount_in(item, "second", "perLeg") else {
        return Err(item_fault(alloc, "runs", n, ".fares.second.perLeg"));
    };
    Ok(Fares::new(
        Fare::new(first_base, first_leg),
        Fare::new(second_base, second_leg),
    ))
}

fn amount_in(item: &Value<'_>, class: &str, name: &str) -> Option<u32>
    ensures value { result ≡ amount_at class.now name.now (view item.now) }
    ensures most { IfSome result (λ n. n ≤ 10_000_000) }
{
    let amount = item.get("fares")?.get(class)?.get(name);
    whole_in(amount, 0, 10_000_000)
}

// Adds the coaches of an item to the places.
fn read_places(
    alloc: Global,
    item: &Value<'_>,
    run: RunNo,
    places: &mut PlaceMap,
) -> Result<(), CatalogueFault>
    requires no_later_run { EndsWithRun run.0 places.old }
    ensures ok { OnOk result (places_of run.0 places.old (view item.now) ≡ Ok places.new) }
    ensures grown { OnOk result (length places.old < length places.new) }
    ensures no_later_run { OnOk result (EndsWithRun run.0 places.new) }
    ensures err { Refuses (places_of run.0 places.old (view item.now)) result }
{
    let Some(items) = list_in(item.get("coaches"), 1, 9_223_372_036_854_775_807) else {
        return Err(item_fault(alloc, "runs", run.0 as usize, ".coaches"));
    };
    read_coaches(alloc, items, run.0, places)
}
