ghost use Rattle.std.specs.Prelude.{◌≡◌, ◌≤◌, ◌<◌, ℕ, true, [], length, slice_index_or};
ghost use Rattle.train_runs.specs.Runs.{RunsView};
ghost use Rattle.train_runs.specs.declared.wish.TripWish.{TripWish};
ghost use Rattle.train_runs.specs.declared.segment.Segment.{Segment};
ghost use Rattle.trip_builder.specs.Bounds.{Precede, AreRanks, IsPlacedRun, Ascends, BoundsFresh, FirstsOfRide, LeadsTo, IsNarrowed, rank_in, rank_of, no_rank};
ghost use Rattle.trip_builder.specs.declared.ranks.Arrival.{Arrival};
ghost use Rattle.trip_builder.specs.Ends.{IsEnd, AreEnds};

use crate::chain::has_run;
use crate::ends::{End, Ends};
use rail_ids::RunNo;
use std::alloc::{AllocError, Global};
use std::marker::Model;
use train_runs::{Runs, Segment, TripWish};

/// Later than each arrival.
pub(crate) const NEVER: u64 = u64::MAX;

/// After each rank.
pub(crate) const NO_RANK: u16 = 65_535;

/// The ranks of the first two of some runs that come to the destination: that of the first, and one before which no
/// other stands.
#[derive(Clone, Copy)]
pub(crate) struct FirstTwo {
    pub first: u16,
    pub second: u16,
}

/// None of them comes to the destination.
pub(crate) const NONE: FirstTwo = FirstTwo {
    first: 65_535,
    second: 65_535,
};

/// Nothing is known of them.
pub(crate) const UNKNOWN: FirstTwo = FirstTwo {
    first: 0,
    second: 0,
};

/// The first two of both.
pub(crate) fn join(a: FirstTwo, b: FirstTwo) -> FirstTwo
    ensures left { (rank : ℕ) → Precede a rank → Precede result rank }
    ensures right { (rank : ℕ) → Precede b rank → Precede result rank }
{
    let other = if a.first == b.first {
        NO_RANK
    } else {
        a.first.max(b.first)
    };
    FirstTwo {
        first: a.first.min(b.first),
        second: a.second.min(b.second).min(other),
    }
}

/// Whether all that the others precede these two precede as well.
pub(crate) fn precede_all(two: FirstTwo, others: FirstTwo) -> bool
    ensures { result ≡ true → (rank : ℕ) → Precede others rank → Precede two rank }
{
    two.first <= others.first
        && (two.second <= others.first
            || (two.first == others.first && two.second <= others.second))
}

/// A run that comes to the destination, at which of its stops, and when.
#[derive(Clone, Copy)]
pub(crate) struct Arrival {
    pub run: RunNo,
    pub stop: u8,
    pub arrive: u64,
}

/// The runs that come to the destination, the earliest first, for each run its place among them, and from which rank on
/// they come too late.
#[derive(Drop)]
pub(crate) struct Ranks {
    order: Vec<Arrival>,
    ranks: Vec<u16>,
    late: u16,
}

impl Model for Ranks {
    ghost use Rattle.trip_builder.specs.Bounds.{RanksView};

    ghost Value = { RanksView };

    ghost view = { λ r. record { order = r.order.items; ranks = r.ranks.items; late = r.late } };
}

impl Ranks {
    /// Nothing is known. Takes no memory.
    pub(crate) fn unknown(alloc: Global) -> Ranks {
        Ranks {
            order: Vec::new(alloc),
            ranks: Vec::new(alloc),
            late: NO_RANK,
        }
    }

    /// Those of all runs, of which what comes after the limit is too late. Whoever takes them checks that they are
    /// right.
    pub(crate) fn of(
        alloc: Global,
        runs: &Runs,
        wish: &TripWish,
        ends: &mut Ends,
        limit: u64,
    ) -> Result<Ranks, AllocError>
        requires { AreEnds runs.now wish.now ends.old }
        ensures { AreEnds runs.now wish.now ends.new }
    {
        let mut order = arrivals_of(alloc, runs, wish, ends)?;
        order.as_mut_slice().sort_unstable_by_key(|it| it.arrive);
        let ranks = places_of(alloc, runs, order.as_slice())?;
        let late = late_of(order.as_slice(), limit);
        Ok(Ranks { order, ranks, late })
    }

    /// Whether all that come to the destination have their places.
    pub(crate) fn are_right(&self, runs: &Runs, wish: &TripWish, ends: &mut Ends) -> bool
        requires { AreEnds runs.now wish.now ends.old }
        ensures kept { AreEnds runs.now wish.now ends.new }
        ensures right { result ≡ true → AreRanks runs.now wish.now self.now }
    {
        for run in 0..runs.count() {
            let end = ends.of(runs, wish, RunNo(run));
            if !self.is_placed(RunNo(run), end) {
                return false;
            }
        }
        ascends(self.order.as_slice())
    }

    // Whether the run has its place, where it comes to the destination.
    fn is_placed(&self, run: RunNo, end: End) -> bool
        ensures { (r : RunsView) (w : TripWish) → IsEnd r w run.0 end → result ≡ true
            → IsPlacedRun r w self.now run.0 }
    {
        let End::At(call) = end else {
            return true;
        };
        let rank = self.of_run(run);
        match self.order.get(usize::from(rank)) {
            Some(it) => {
                rank < NO_RANK
                    && it.run.0 == run.0
                    && it.stop == call.stop
                    && it.arrive <= call.arrive
                    && it.arrive < NEVER
            }
            None => false,
        }
    }

    /// From which rank on they come too late.
    pub(crate) fn late(&self) -> u16
        ensures { result ≡ self.now.late }
    {
        self.late
    }

    /// Lets those come too late as well that arrive after the one of this rank.
    pub(crate) fn narrow(&mut self, rank: u16)
        ensures { IsNarrowed self.old self.new }
    {
        let Some(it) = self.order.get(usize::from(rank)) else {
            return;
        };
        let late = late_of(self.order.as_slice(), it.arrive);
        self.late = self.late.min(late);
    }

    /// Those that come too late: which of them stays unsaid.
    pub(crate) fn late_ones(&self) -> FirstTwo
        ensures { (rank : ℕ) → self.now.late ≤ rank → rank < no_rank → Precede result rank }
    {
        FirstTwo {
            first: self.late,
            second: self.late,
        }
    }

    /// The run alone, where it comes to the destination after this stop.
    pub(crate) fn ride(&self, run: RunNo, stop: u8) -> FirstTwo
        ensures { (r : RunsView) (w : TripWish) → AreRanks r w self.now
            → FirstsOfRide r w self.now 0 run.0 stop result }
    {
        let rank = self.of_run(run);
        let Some(it) = self.order.get(usize::from(rank)) else {
            return NONE;
        };
        if it.stop <= stop {
            return NONE;
        }
        FirstTwo {
            first: rank,
            second: NO_RANK,
        }
    }

    /// At which stop the run comes to the destination: 0 where it doesn't, or too late.
    pub(crate) fn stop_of(&self, run: RunNo) -> u8
        ensures { (r : RunsView) (w : TripWish) → AreRanks r w self.now → (s : Segment) → s.run.0 ≡ run.0
            → LeadsTo r w s [] → rank_of self.now s [] < self.now.late → s.span.to ≡ result }
    {
        let rank = self.of_run(run);
        if rank >= self.late {
            return 0;
        }
        match self.order.get(usize::from(rank)) {
            Some(it) => it.stop,
            None => 0,
        }
    }

    fn of_run(&self, run: RunNo) -> u16
        ensures { result ≡ rank_in self.now run.0 }
    {
        match self.ranks.get(run.0 as usize) {
            Some(rank) => *rank,
            None => NO_RANK,
        }
    }

    /// When the first of them arrives that the way doesn't have.
    pub(crate) fn arrival(&self, two: FirstTwo, way: &[Segment]) -> u64
        ensures { (r : RunsView) (w : TripWish) → AreRanks r w self.now → BoundsFresh r w self.now two way.now result }
    {
        let Some(first) = self.order.get(usize::from(two.first)) else {
            return NEVER;
        };
        if has_run(way, first.run) {
            return self.time(two.second);
        }
        first.arrive
    }

    // When the one of this rank arrives.
    fn time(&self, rank: u16) -> u64
        ensures { (none : Arrival) → rank < length self.now.order
            → result ≡ (slice_index_or self.now.order rank none).arrive }
    {
        match self.order.get(usize::from(rank)) {
            Some(it) => it.arrive,
            None => NEVER,
        }
    }
}

// The runs that come to the destination, by their numbers.
fn arrivals_of(
    alloc: Global,
    runs: &Runs,
    wish: &TripWish,
    ends: &mut Ends,
) -> Result<Vec<Arrival>, AllocError>
    requires { AreEnds runs.now wish.now ends.old }
    ensures { AreEnds runs.now wish.now ends.new }
{
    let mut order = Vec::new(alloc);
    for run in 0..runs.count() {
        if let End::At(call) = ends.of(runs, wish, RunNo(run)) {
            order.push(Arrival {
                run: RunNo(run),
                stop: call.stop,
                arrive: call.arrive,
            })?;
        }
    }
    Ok(order)
}

// The place of each run.
fn places_of(alloc: Global, runs: &Runs, order: &[Arrival]) -> Result<Vec<u16>, AllocError> {
    let mut ranks = Vec::from_elem(alloc, NO_RANK, runs.count() as usize)?;
    for rank in 0..order.len() {
        let run = order[rank].run.0 as usize;
        if run < ranks.len() {
            ranks[run] = (rank % 65_536) as u16;
        }
    }
    Ok(ranks)
}

// The first that arrives after the limit.
fn late_of(order: &[Arrival], limit: u64) -> u16 {
    for rank in 0..order.len() {
        if order[rank].arrive > limit {
            return (rank % 65_536) as u16;
        }
    }
    NO_RANK
}

// Whether the later ones stand further on.
fn ascends(order: &[Arrival]) -> bool
    ensures { result ≡ true → Ascends order.now }
{
    for n in 1..order.len() {
        if order[n].arrive < order[n - 1].arrive {
            return false;
        }
    }
    true
}
