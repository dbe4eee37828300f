//! What is known of every catalogue and of every moment.
ghost use Rattle.std.specs.Prelude.{◌≡◌, ◌<◌, ◌≤◌, length, All};
ghost use Rattle.rail_time.specs.Moments.{last_second};
ghost use Rattle.train_runs.specs.Stops.{most_stops};
ghost use Rattle.train_runs.specs.Runs.{most_runs};

use rail_ids::StationNo;
use rail_time::Moment;
use train_runs::Runs;

/// There are few runs, each has few stops, and a moment is none after the last. It changes nothing.
pub(crate) fn know_ranges(runs: &Runs, now: Moment)
    ensures runs { length runs.now.runs ≤ most_runs }
    ensures stops { All (λ it. length it.stops ≤ most_stops) runs.now.runs }
    ensures in_years { now ≤ last_second }
{
    // All departures of a station say it of all runs' stops.
    let _ = runs.all_departures(StationNo(0));
    prove!(runs.count() <= 4_096 && now.seconds() <= 4_102_444_799);
}
