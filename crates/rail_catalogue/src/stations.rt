ghost use Rattle.std.specs.Prelude.{◌≡◌, ◌+◌, [], Ok, Err, IfOk, OnOk, length};
ghost use Rattle.std.specs.List.{list_all};
ghost use Rattle.json_text.specs.View.{view};
ghost use Rattle.train_runs.specs.Stations.{is_code as is_code_of, is_code_byte as is_code_byte_of, with_station};
ghost use Rattle.rail_catalogue.specs.Json.{member_data};
ghost use Rattle.rail_catalogue.specs.Faults.{Refuses};
ghost use Rattle.rail_catalogue.specs.Stations.{with_item, stations_of, station_taken};

use crate::fault::{CatalogueFault, field_fault, item_fault};
use crate::json::{list_in, whole_or};
use json_text::Value;
use std::alloc::Global;
use train_runs::{Runs, StationFault};

/// The stations of the member, and no run yet.
pub fn read_stations(alloc: Global, value: Option<&Value<'_>>) -> Result<Runs, CatalogueFault>
    ensures ok { IfOk result (λ r. stations_of (member_data value.entry) ≡ Ok r.stations) }
    ensures no_run { IfOk result (λ r. r.runs ≡ []) }
    ensures err { Refuses (stations_of (member_data value.entry)) result }
{
    let Some(items) = list_in(value, 2, 65_536) else {
        return Err(field_fault(alloc, "stations"));
    };
    let mut runs = Runs::new(alloc);
    for (n, item) in items.iter().enumerate() {
        read_station(alloc, item, n, &mut runs)?;
    }
    Ok(runs)
}

// Adds the next item of the list, which has this index.
fn read_station(
    alloc: Global,
    item: &Value<'_>,
    n: usize,
    runs: &mut Runs,
) -> Result<(), CatalogueFault>
    requires { n ≡ length runs.old.stations }
    ensures ok { OnOk result (with_item runs.old.stations (view item.now) ≡ Ok runs.new.stations) }
    ensures count { OnOk result (length runs.new.stations ≡ n + 1) }
    ensures runs { runs.new.runs ≡ runs.old.runs }
    ensures err { Refuses (with_item runs.old.stations (view item.now)) result }
{
    if !item.is_object() {
        return Err(item_fault(alloc, "stations", n, ""));
    }
    let code = match item.get("code").and_then(Value::as_str) {
        Some(code) if is_code(code.as_bytes()) => code,
        _ => return Err(item_fault(alloc, "stations", n, ".code")),
    };
    if runs.station_of(code.as_bytes()).is_some() {
        return Err(CatalogueFault::DoubleKey);
    }
    let Some(change) = whole_or(item.get("change"), 300, 0, 14_400) else {
        return Err(item_fault(alloc, "stations", n, ".change"));
    };
    add_station(alloc, code.as_bytes(), change, n, runs)
}

fn add_station(
    alloc: Global,
    code: &[u8],
    change: u32,
    n: usize,
    runs: &mut Runs,
) -> Result<(), CatalogueFault>
    ensures ok { OnOk result (station_taken n (with_station runs.old.stations code.now change) ≡ Ok runs.new.stations) }
    ensures count { OnOk result (length runs.new.stations ≡ length runs.old.stations + 1) }
    ensures runs { runs.new.runs ≡ runs.old.runs }
    ensures err { Refuses (station_taken n (with_station runs.old.stations code.now change)) result }
{
    match runs.add_station(code, change) {
        Ok(_) => Ok(()),
        Err(StationFault::BadCode) => Err(item_fault(alloc, "stations", n, ".code")),
        Err(StationFault::DoubleCode) => Err(CatalogueFault::DoubleKey),
        Err(StationFault::TooManyStations) => Err(field_fault(alloc, "stations")),
        Err(StationFault::NoMemory) => Err(CatalogueFault::NoMemory),
    }
}

fn is_code(code: &[u8]) -> bool
    ensures { result ≡ is_code_of code.now }
{
    1 <= code.len() && code.len() <= 8 && has_code_bytes(code)
}

fn has_code_bytes(code: &[u8]) -> bool
    ensures { result ≡ list_all is_code_byte_of code.now }
{
    code.iter().all(|b| is_code_byte(*b))
}

fn is_code_byte(b: u8) -> bool
    ensures { result ≡ is_code_byte_of b }
{
    b.is_ascii_uppercase() || b.is_ascii_digit()
}
