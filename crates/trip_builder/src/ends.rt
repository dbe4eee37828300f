ghost use Rattle.std.specs.Prelude.{◌≡◌, ◌<◌, ◌≤◌, length, List, IfOk, slice_index_or};
ghost use Rattle.train_runs.specs.Runs.{RunsView};
ghost use Rattle.train_runs.specs.declared.wish.TripWish.{TripWish};
ghost use Rattle.trip_builder.specs.Ends.{IsEnd, IsEndSoFar, AreEnds};

use rail_ids::RunNo;
use std::alloc::{AllocError, Global};
use std::marker::Model;
use train_runs::{Runs, TripWish};

/// Which stop of a run is at the destination, and when it arrives there.
#[derive(Clone, Copy)]
pub(crate) struct Call {
    pub stop: u8,
    pub arrive: u64,
}

/// Where a run comes to the destination, as far as it was looked up.
#[derive(Clone, Copy)]
pub(crate) enum End {
    Unknown,
    Nowhere,
    At(Call),
}

/// Where the runs come to the destination. Each is looked up once.
#[derive(Drop)]
pub(crate) struct Ends {
    ends: Vec<End>,
}

impl Model for Ends {
    ghost use Rattle.std.specs.Prelude.{List};
    ghost use Rattle.trip_builder.specs.declared.ends.End.{End};

    ghost Value = { List End };

    ghost view = { λ e. e.ends.items };
}

impl Ends {
    /// None of the runs is looked up yet.
    pub(crate) fn unknown(alloc: Global, runs: &Runs) -> Result<Ends, AllocError>
        ensures { IfOk result (λ e. (r : RunsView) (w : TripWish) → AreEnds r w e) }
    {
        let ends = Vec::from_elem(alloc, End::Unknown, runs.count() as usize)?;
        Ok(Ends { ends })
    }

    /// Where the run comes to the destination.
    pub(crate) fn of(&mut self, runs: &Runs, wish: &TripWish, run: RunNo) -> End
        requires { AreEnds runs.now wish.now self.old }
        ensures kept { AreEnds runs.now wish.now self.new }
        ensures value { IsEnd runs.now wish.now run.0 result }
    {
        match self.known(run) {
            End::Unknown => {
                let found = end_of(runs, wish, run);
                self.note(run, found);
                found
            }
            known => known,
        }
    }

    /// What is known of the run.
    pub(crate) fn known(&self, run: RunNo) -> End
        ensures { (r : RunsView) (w : TripWish) → AreEnds r w self.now → IsEndSoFar r w run.0 result }
    {
        match self.ends.get(run.0 as usize) {
            Some(end) => *end,
            None => End::Unknown,
        }
    }

    // Notes where the run comes to the destination.
    fn note(&mut self, run: RunNo, end: End)
        ensures { (r : RunsView) (w : TripWish) → AreEnds r w self.old → IsEnd r w run.0 end → AreEnds r w self.new }
    {
        let place = run.0 as usize;
        if place < self.ends.len() {
            self.ends[place] = end;
        }
    }
}

// Where the run comes to the destination.
fn end_of(runs: &Runs, wish: &TripWish, run: RunNo) -> End
    ensures { IsEnd runs.now wish.now run.0 result }
{
    let Some(it) = runs.run(run) else {
        return End::Nowhere;
    };
    for (n, stop) in it.stops().iter().enumerate() {
        if stop.station.0 == wish.destination.0 {
            let arrive = stop.arrive.seconds();
            let stop = n as u8;
            return End::At(Call { stop, arrive });
        }
    }
    End::Nowhere
}
