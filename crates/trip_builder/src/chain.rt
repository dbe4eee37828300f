ghost use Rattle.std.specs.Prelude.{◌≡◌, ◌≤◌, length};
ghost use Rattle.trip_builder.specs.Trips.{are_connected as are_connected_of, follows as follows_of};
ghost use Rattle.trip_builder.specs.Search.{has_run as has_run_of};

use crate::departures::{admits, stop_of, window_after};
use rail_ids::RunNo;
use train_runs::{Runs, Segment};

/// Whether each of the segments but the first is reached from those before it: at the station where the one before
/// ended, from the change time to 14,400 seconds after it, on a run that none of them has.
pub fn are_connected(runs: &Runs, segments: &[Segment]) -> bool
    ensures { result ≡ are_connected_of runs.now segments.now }
{
    for n in 1..segments.len() {
        if !follows(runs, &segments[..n], &segments[n]) {
            return false;
        }
    }
    true
}

/// Whether the segment is reached from those before it.
fn follows(runs: &Runs, before: &[Segment], next: &Segment) -> bool
    requires some { 1 ≤ length before.now }
    ensures { result ≡ follows_of runs.now before.now next.now }
{
    let window = window_after(runs, before);
    admits(window, &stop_of(runs, next.run, next.span.from())) && !has_run(before, next.run)
}

/// Whether one of the segments has the run.
pub(crate) fn has_run(segments: &[Segment], run: RunNo) -> bool
    ensures { result ≡ has_run_of segments.now run.0 }
{
    for segment in segments {
        if segment.run.0 == run.0 {
            return true;
        }
    }
    false
}
