use crate::departures::{leaving, stops_of, window_at, window_of};
use crate::ranks::{NO_RANK, Ranks};
use crate::rides::Rides;
use rail_ids::RunNo;
use std::alloc::{AllocError, Global};
use train_runs::{Departure, Runs, Stop, TripWish};

/// How many ways are looked for: some more than a search answers, since not each of them need be a trip.
const ENOUGH: usize = 24;

/// How many of the first trains are looked at, at most.
const MOST_FIRSTS: usize = 64;

/// How many trains are looked at that go on from a stop.
const MOST_NEXT: u32 = 8;

/// How many ways were seen that come to the destination with the run of each rank.
#[derive(Drop)]
struct Seen {
    counts: Vec<u8>,
}

impl Seen {
    fn note(&mut self, rank: u16) {
        let place = usize::from(rank);
        if place < self.counts.len() {
            self.counts[place] = self.counts[place].saturating_add(1);
        }
    }

    // The least rank with which enough of them come there.
    fn rank_of_enough(&self) -> u16 {
        let mut count: usize = 0;
        for rank in 0..self.counts.len() {
            count = count.saturating_add(usize::from(self.counts[rank]));
            if count >= ENOUGH {
                return (rank % 65_536) as u16;
            }
        }
        NO_RANK
    }
}

/// With which rank some ways of the wish come to the destination, by the rides with one change: what comes later is
/// hardly asked for. Any rank would do.
pub(crate) fn probed_rank(
    alloc: Global,
    runs: &Runs,
    wish: &TripWish,
    ranks: &Ranks,
    rides: &Rides,
) -> Result<u16, AllocError> {
    let mut seen = Seen {
        counts: Vec::from_elem(alloc, 0, runs.count() as usize)?,
    };
    let firsts = leaving(runs, window_of(runs, wish, &[]));
    let stride = firsts.len() / MOST_FIRSTS + 1;
    for n in 0..firsts.len() {
        if n % stride == 0 {
            look_along(runs, ranks, rides, &firsts[n], &mut seen);
        }
    }
    Ok(seen.rank_of_enough())
}

// Looks at the train, and at what goes on from its stops.
fn look_along(runs: &Runs, ranks: &Ranks, rides: &Rides, departure: &Departure, seen: &mut Seen) {
    seen.note(ranks.ride(departure.run, departure.stop).first);
    let stops = stops_of(runs, departure.run);
    for stop in usize::from(departure.stop) + 1..stops.len() {
        look_on(runs, rides, departure.run, &stops[stop], seen);
    }
}

// Looks at some of the trains that go on from the stop of the run.
fn look_on(runs: &Runs, rides: &Rides, run: RunNo, off: &Stop, seen: &mut Seen) {
    let mut left = MOST_NEXT;
    for next in leaving(runs, window_at(runs, off)) {
        if left == 0 {
            return;
        }
        left -= 1;
        if next.run.0 != run.0 {
            seen.note(rides.at(next.run, next.stop).first);
        }
    }
}
