ghost use Rattle.std.specs.Prelude.{◌≡◌};
ghost use Rattle.std.specs.List.{list_all};
ghost use Rattle.offer_codes.specs.Offers.{offer_view};
ghost use Rattle.offer_prices.specs.Runs.{is_of_runs as is_of_runs_of};
ghost use Rattle.offer_engine.specs.Codes.{is_offered as is_offered_of};

use catalogue_contents::Catalogue;
use offer_codes::{OfferCode, Segment};
use train_runs::Runs;
use trip_builder::{are_connected, first_stop_of, last_stop_of};

/// Whether the catalogue has the offer: every run exists and holds its span, the segments are a trip whose first and
/// last stations differ, and the first departure isn't before the offer was made. Takes no memory.
pub fn is_offered(cat: &Catalogue, code: &OfferCode) -> bool
    ensures { result ≡ is_offered_of cat.now (offer_view code.now) }
{
    let runs = cat.runs();
    let segments = code.segments.as_slice();
    if segments.is_empty() || !are_of_runs(runs, segments) {
        return false;
    }
    let first = first_stop_of(runs, segments);
    let last = last_stop_of(runs, segments);
    code.made.seconds() <= first.depart.seconds()
        && first.station.0 != last.station.0
        && are_connected(runs, segments)
}

fn are_of_runs(runs: &Runs, segments: &[Segment]) -> bool
    ensures { result ≡ list_all (is_of_runs_of runs.now) segments.now }
{
    for segment in segments {
        if !is_of_runs(runs, segment) {
            return false;
        }
    }
    true
}

// Whether the run exists and stops where the segment ends.
fn is_of_runs(runs: &Runs, segment: &Segment) -> bool
    ensures { result ≡ is_of_runs_of runs.now segment.now }
{
    match runs.run(segment.run) {
        Some(run) => usize::from(segment.span.to()) < run.stops().len(),
        None => false,
    }
}
