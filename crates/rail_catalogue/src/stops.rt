ghost use Rattle.std.specs.Prelude.{◌≡◌, ◌<◌, ◌+◌, ◌==◌, ◌&&◌, All, Ok, Err, IfOk, IfErr, IfSome, length, codes};
ghost use Rattle.json_text.specs.View.{view};
ghost use Rattle.rail_catalogue.specs.Json.{member_data};
ghost use Rattle.rail_catalogue.specs.Faults.{fault_of, field, run_item_path, Refuses};
ghost use Rattle.rail_catalogue.specs.Stops.{times_of as times_in, time_of, times_at, stop_at, stops_in};
ghost use Rattle.rail_catalogue.specs.TimeViews.{time_view, side_name, times_view};

use crate::fault::{CatalogueFault, run_item_fault};
use json_text::Value;
use rail_time::{Moment, MomentFault, read_moment};
use std::alloc::{AllocError, Global};
use train_runs::{Runs, Stop};

// A member that is to be a moment.
#[derive(Clone, Copy)]
enum Time {
    Missing,
    Bad,
    Given(Moment),
}

#[derive(Clone, Copy)]
struct Times {
    arrive: Moment,
    depart: Moment,
}

#[derive(Clone, Copy)]
enum Side {
    Arrive,
    Depart,
}

/// The stops of a run, at stations that are known.
pub fn read_stops(
    alloc: Global,
    items: &[Value<'_>],
    run: usize,
    runs: &Runs,
) -> Result<Vec<Stop>, CatalogueFault>
    ensures ok { IfOk result (λ v. stops_in runs.now.stations run items.now ≡ Ok v.items) }
    ensures known { IfOk result (λ v. All (λ s. s.station.0 < length runs.now.stations) v.items) }
    ensures err { Refuses (stops_in runs.now.stations run items.now) result }
{
    let mut found = Vec::new(alloc);
    for item in items {
        found.push(read_stop(alloc, item, run, found.len(), items.len(), runs)?)?;
    }
    Ok(found)
}

fn read_stop(
    alloc: Global,
    item: &Value<'_>,
    run: usize,
    j: usize,
    n: usize,
    runs: &Runs,
) -> Result<Stop, CatalogueFault>
    requires { j < n }
    ensures ok { IfOk result (λ s. stop_at runs.now.stations run j n (view item.now) ≡ Ok s) }
    ensures known { IfOk result (λ s. s.station.0 < length runs.now.stations) }
    ensures err { Refuses (stop_at runs.now.stations run j n (view item.now)) result }
{
    if !item.is_object() {
        return Err(run_item_fault(alloc, run, "stops", j, ""));
    }
    let Some(code) = item.get("station").and_then(Value::as_str) else {
        return Err(run_item_fault(alloc, run, "stops", j, ".station"));
    };
    let Some(station) = runs.station_of(code.as_bytes()) else {
        return Err(CatalogueFault::UnknownStation {
            code: String::from_str(alloc, code)?,
        });
    };
    let times = read_times(alloc, item, run, j, n)?;
    Ok(Stop {
        station,
        arrive: times.arrive,
        depart: times.depart,
    })
}

fn read_times(
    alloc: Global,
    item: &Value<'_>,
    run: usize,
    j: usize,
    n: usize,
) -> Result<Times, CatalogueFault>
    requires { j < n }
    ensures ok { IfOk result (λ t. times_at run j n (view item.now) ≡ Ok (times_view t)) }
    ensures err { Refuses (times_at run j n (view item.now)) result }
{
    let arrives = time_member(alloc, item.get("arrive"))?;
    let departs = time_member(alloc, item.get("depart"))?;
    let only = n == 1;
    match times_of(arrives, departs, j == 0 && !only, j + 1 == n && !only) {
        Ok(times) => Ok(times),
        Err(side) => Err(side_fault(alloc, run, j, side)),
    }
}

fn side_fault(alloc: Global, run: usize, j: usize, side: Side) -> CatalogueFault
    ensures { IfSome (fault_of result) (λ f. f ≡ field (run_item_path run (codes "stops") j (side_name side))) }
{
    match side {
        Side::Arrive => run_item_fault(alloc, run, "stops", j, ".arrive"),
        Side::Depart => run_item_fault(alloc, run, "stops", j, ".depart"),
    }
}

// The times of a stop, or the member at fault.
fn times_of(arrives: Time, departs: Time, first: bool, last: bool) -> Result<Times, Side>
    ensures ok { IfOk result (λ t. times_in first last (time_view arrives) (time_view departs) ≡ Ok (times_view t)) }
    ensures err { IfErr result (λ e. times_in first last (time_view arrives) (time_view departs) ≡ Err (side_name e)) }
{
    match arrives {
        Time::Bad => Err(Side::Arrive),
        Time::Given(arrive) => match departs {
            Time::Bad => Err(Side::Depart),
            Time::Given(depart) => Ok(Times { arrive, depart }),
            Time::Missing => {
                if last {
                    Ok(Times {
                        arrive,
                        depart: arrive,
                    })
                } else {
                    Err(Side::Depart)
                }
            }
        },
        Time::Missing => {
            if !first {
                return Err(Side::Arrive);
            }
            match departs {
                Time::Given(depart) => Ok(Times {
                    arrive: depart,
                    depart,
                }),
                Time::Bad | Time::Missing => Err(Side::Depart),
            }
        }
    }
}

fn time_member(alloc: Global, value: Option<&Value<'_>>) -> Result<Time, AllocError>
    ensures { IfOk result (λ t. time_view t ≡ time_of (member_data value.entry)) }
{
    let Some(value) = value else {
        return Ok(Time::Missing);
    };
    let Some(text) = value.as_str() else {
        return Ok(Time::Bad);
    };
    match read_moment(alloc, text) {
        Ok(moment) => Ok(Time::Given(moment)),
        Err(MomentFault::NoMemory) => Err(AllocError),
        Err(_) => Ok(Time::Bad),
    }
}
