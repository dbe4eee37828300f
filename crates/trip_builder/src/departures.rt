ghost use Rattle.std.specs.Prelude.{◌≡◌, ◌<◌, ◌≤◌, ◌+◌, ◌^◌, length};
ghost use Rattle.train_runs.specs.Stops.{most_stops, stop_at, no_stop as nowhere};
ghost use Rattle.train_runs.specs.Runs.{stops_of as stops_of_run};
ghost use Rattle.trip_builder.specs.Segments.{first_stop, last_stop, last_of, first_of};
ghost use Rattle.trip_builder.specs.Trips.{leaves, change_at, longest_wait};
ghost use Rattle.trip_builder.specs.Search.{AreLeaving, AreAllLeaving, Rise, IsWindowOf, first_after, last_after};

use rail_ids::{RunNo, StationNo};
use rail_time::Moment;
use std::marker::Brand;
use std::sync::ledger::{Blank, Ledger};
use step_count::Steps;
use train_runs::{Departure, Runs, Segment, Stop, TripWish};

/// The longest wait between two trains, in seconds.
pub(crate) const LONGEST_WAIT: u64 = 14_400;

/// Where and when a segment may depart: at a station, and in these seconds, with both ends.
#[derive(Clone, Copy, PartialEq, Eq)]
pub(crate) struct Window {
    pub station: StationNo,
    pub from: u64,
    pub to: u64,
}

/// The window of the segments that go on from the way.
pub(crate) fn window_of(runs: &Runs, wish: &TripWish, way: &[Segment]) -> Window
    ensures window { IsWindowOf runs.now wish.now way.now result.station result.from result.to }
    ensures end { result.to < 2 ^ 63 }
{
    if way.is_empty() {
        return Window {
            station: wish.origin,
            from: wish.earliest.seconds(),
            to: wish.latest.seconds(),
        };
    }
    window_after(runs, way)
}

/// The window of the segments that are reached from the last of these.
pub(crate) fn window_after(runs: &Runs, segments: &[Segment]) -> Window
    requires some { 1 ≤ length segments.now }
    ensures station { result.station ≡ (last_stop runs.now (last_of segments.now)).station }
    ensures from { result.from ≡ first_after runs.now segments.now }
    ensures to { result.to ≡ last_after runs.now segments.now }
    ensures end { result.to < 2 ^ 63 }
{
    window_at(runs, &last_stop_of(runs, segments))
}

/// The window of the segments that are reached from a train at the stop.
pub(crate) fn window_at(runs: &Runs, off: &Stop) -> Window
    ensures station { result.station ≡ off.now.station }
    ensures from { result.from ≡ off.now.arrive + change_at runs.now off.now.station }
    ensures to { result.to ≡ off.now.arrive + longest_wait }
    ensures end { result.to < 2 ^ 63 }
{
    let arrive = off.arrive.seconds();
    let change = runs.change(off.station).unwrap_or(0);
    Window {
        station: off.station,
        from: arrive + u64::from(change),
        to: arrive + LONGEST_WAIT,
    }
}

/// The departures within the window, the earlier ones first.
pub(crate) fn leaving(runs: &Runs, window: Window) -> &[Departure]
    requires end { window.to < 2 ^ 63 }
    ensures leaving { AreLeaving runs.now window.station window.from window.to result.now }
    ensures rise { Rise runs.now }
{
    leaving_from::<Brand>(runs, window, Blank::new(1))
}

/// All departures of the station, the earlier ones first.
pub(crate) fn all_leaving(runs: &Runs, station: StationNo) -> &[Departure]
    ensures leaving { AreAllLeaving runs.now station result.now }
    ensures rise { Rise runs.now }
{
    runs.all_departures(station)
}

// The steps are counted from nothing and let go.
fn leaving_from<L: Ledger>(runs: &Runs, window: Window, blank: Blank) -> &[Departure]
    requires name { blank.name ≡ L.name }
    requires parts { blank.parts ≡ L.parts }
    requires some { 0 < blank.parts }
    requires end { window.to < 2 ^ 63 }
    ensures leaving { AreLeaving runs.now window.station window.from window.to result.now }
    ensures rise { Rise runs.now }
{
    let mut steps = Steps::<L>::start(blank);
    runs.departures_within(window.station, window.from, window.to, &mut steps)
}

/// Where and when the last of the segments ends: at station 0 in 1970 where that is no stop of a known run.
pub fn last_stop_of(runs: &Runs, segments: &[Segment]) -> Stop
    requires some { 1 ≤ length segments.now }
    ensures { result ≡ last_stop runs.now (last_of segments.now) }
{
    let last = &segments[segments.len() - 1];
    stop_of(runs, last.run, last.span.to())
}

/// Where and when the first of the segments begins: at station 0 in 1970 where that is no stop of a known run.
pub fn first_stop_of(runs: &Runs, segments: &[Segment]) -> Stop
    requires some { 1 ≤ length segments.now }
    ensures { result ≡ first_stop runs.now (first_of segments.now) }
{
    let first = &segments[0];
    stop_of(runs, first.run, first.span.from())
}

/// The stop of this number of the run.
pub(crate) fn stop_of(runs: &Runs, run: RunNo, number: u8) -> Stop
    ensures { result ≡ stop_at (stops_of_run runs.now run.0) number }
{
    match stops_of(runs, run).get(usize::from(number)) {
        Some(stop) => *stop,
        None => no_stop(),
    }
}

/// The stops of the run: none where it isn't known.
pub(crate) fn stops_of(runs: &Runs, run: RunNo) -> &[Stop]
    ensures stops { result.now ≡ stops_of_run runs.now run.0 }
    ensures few { length result.now ≤ most_stops }
{
    match runs.run(run) {
        Some(it) => it.stops(),
        None => &[],
    }
}

fn no_stop() -> Stop
    ensures { result ≡ nowhere }
{
    let Some(start) = Moment::of(0) else {
        unreachable!()
    };
    Stop {
        station: StationNo(0),
        arrive: start,
        depart: start,
    }
}

/// Whether the stop is left within the window.
pub(crate) fn admits(window: Window, stop: &Stop) -> bool
    ensures { result ≡ leaves window.station window.from window.to stop.now }
{
    let depart = stop.depart.seconds();
    stop.station.0 == window.station.0 && window.from <= depart && depart <= window.to
}
