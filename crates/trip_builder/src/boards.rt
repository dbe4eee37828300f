ghost use Rattle.std.specs.Prelude.{◌≡◌, ◌<◌, ◌≤◌, ◌+◌, ◌++◌, ◌∷◌, ◌^◌, ℕ, true, List, [], length, IfOk, OnOk, slice_index_or};
ghost use Rattle.std.specs.List.{AllWithin};
ghost use Rattle.std.specs.Option.{IfSome};
ghost use Rattle.trip_builder.specs.declared.board.Useful.{Useful};
ghost use Rattle.trip_builder.specs.Bounds.{Precede, Rises, IsPosted, BoundsWindow, unknown};
ghost use Rattle.trip_builder.specs.Boards.{InOrder, HasAdded, AreHintsOf, IsHeadOf, rest_in};

use crate::board::{Board, Useful, count_before};
use crate::hints::Hints;
use crate::ranks::{FirstTwo, NONE, UNKNOWN, join, precede_all};
use crate::rests::Parts;
use rail_ids::StationNo;
use std::alloc::{AllocError, Global};
use std::marker::Model;
use train_runs::Departure;

/// Where a station's board stands among all departures, and where its hints begin among all hints.
#[derive(Clone, Copy)]
pub(crate) struct Head {
    begin: usize,
    end: usize,
    hints: usize,
    parts: Parts,
    last: u64,
}

/// Of a station from which nothing leads to the destination.
const NO_HEAD: Head = Head {
    begin: 0,
    end: 0,
    hints: 0,
    parts: Parts { start: 0, shift: 0 },
    last: 0,
};

/// For each station the departures that lead to the destination. They stand in one list, one board after the other.
#[derive(Drop)]
pub(crate) struct Boards {
    numbers: Vec<usize>,
    heads: Vec<Head>,
    useful: Vec<Useful>,
    rests: Vec<FirstTwo>,
}

impl Model for Boards {
    ghost use Rattle.std.specs.Prelude.{List};
    ghost use Rattle.trip_builder.specs.declared.board.Useful.{Useful};
    ghost use Rattle.trip_builder.specs.Boards.{boards_at, AreHeads};

    ghost Value = { List (List Useful) };

    ghost view = { λ b. boards_at b.heads.items b.useful.items b.numbers.items };

    ghost invariant = { λ b. AreHeads b.heads.items b.useful.items b.rests.items b.numbers.items };
}

/// Boards in the making, and what the next one is made in.
#[derive(Drop)]
pub(crate) struct Draft {
    pub boards: Boards,
    pub board: Board,
    pub hints: Hints,
}

impl Draft {
    /// No station yet, with room for that many stations and departures.
    pub(crate) fn new(alloc: Global, stations: usize, room: usize) -> Result<Draft, AllocError>
        ensures { IfOk result (λ d. d.boards ≡ []) }
    {
        let boards = Boards::none(alloc, stations, room)?;
        Ok(Draft {
            boards,
            board: Board::new(alloc),
            hints: Hints::none(alloc),
        })
    }

    /// The next station has no board.
    pub(crate) fn skip(&mut self) -> Result<(), AllocError>
        ensures { OnOk result (self.new.boards ≡ self.old.boards ++ [] ∷ []) }
    {
        self.boards.skip()
    }

    /// Adds the next station's board: those of the departures that lead to the destination before this rank, by the
    /// first two of each, in blocks of that many seconds.
    pub(crate) fn add(
        &mut self,
        departures: &[Departure],
        twos: &[FirstTwo],
        late: u16,
        seconds: u32,
    ) -> Result<(), AllocError>
        requires { InOrder departures.now }
        ensures { OnOk result (HasAdded self.old.boards departures.now twos.now late self.new.boards) }
    {
        self.board.clear(u64::from(seconds));
        self.board.post_all(departures, twos, late)?;
        self.board.finish();
        let useful = self.board.all();
        if useful.is_empty() {
            return self.boards.skip();
        }
        self.hints.set(useful)?;
        self.boards.keep(useful, &self.hints)
    }

    /// All are there.
    pub(crate) fn finish(self) -> Boards
        ensures { result ≡ self.boards }
    {
        self.boards
    }
}

impl Boards {
    // No station yet, with room for that many stations and departures.
    fn none(alloc: Global, stations: usize, room: usize) -> Result<Boards, AllocError>
        ensures { IfOk result (λ b. b ≡ []) }
    {
        let mut heads = Vec::new(alloc);
        heads.push(NO_HEAD)?;
        let mut numbers = Vec::new(alloc);
        numbers.reserve(stations)?;
        let mut useful = Vec::new(alloc);
        useful.reserve(room)?;
        let mut rests = Vec::new(alloc);
        rests.reserve(room)?;
        Ok(Boards {
            numbers,
            heads,
            useful,
            rests,
        })
    }

    // The next station has no board.
    fn skip(&mut self) -> Result<(), AllocError>
        ensures { OnOk result (self.new ≡ self.old ++ [] ∷ []) }
    {
        self.numbers.push(0)?;
        Ok(())
    }

    // The next station's board, with its hints.
    fn keep(&mut self, useful: &[Useful], hints: &Hints) -> Result<(), AllocError>
        requires rises { Rises useful.now }
        requires hints { AreHintsOf useful.now hints.now }
        ensures { OnOk result (self.new ≡ self.old ++ useful.now ∷ []) }
    {
        let begin = self.useful.len();
        self.useful.extend_from_slice(useful)?;
        let before = self.rests.len();
        self.rests.extend_from_slice(hints.rests.as_slice())?;
        let number = self.heads.len();
        self.heads.push(Head {
            begin,
            end: self.useful.len(),
            hints: before,
            parts: hints.parts,
            last: hints.last,
        })?;
        self.numbers.push(number)?;
        Ok(())
    }

    /// The first two by what leaves the station from the one second to the other, both included, where the window is as
    /// long as a block; else two that precede them.
    pub(crate) fn firsts(&self, station: StationNo, from: u64, to: u64) -> FirstTwo
        requires end { to < 2 ^ 63 }
        ensures known { (none : List Useful) → station.0 < length self.now
            → BoundsWindow (slice_index_or self.now station.0 none) from to result }
        ensures other { length self.now ≤ station.0 → result ≡ unknown }
    {
        let Some(head) = head_of(self.numbers.as_slice(), self.heads.as_slice(), station) else {
            return UNKNOWN;
        };
        let all = self.useful.as_slice();
        let useful = &all[head.begin..head.end];
        firsts_within(useful, from, to)
    }

    /// Whether these two precede all that leaves the station from this second on.
    pub(crate) fn precede_rest(&self, station: StationNo, from: u64, two: FirstTwo) -> bool
        ensures known { result ≡ true → station.0 < length self.now }
        ensures rest { result ≡ true → (depart rank : ℕ) (none : List Useful)
            → IsPosted (slice_index_or self.now station.0 none) depart rank → from ≤ depart → Precede two rank }
    {
        let Some(head) = head_of(self.numbers.as_slice(), self.heads.as_slice(), station) else {
            return false;
        };
        if from > head.last {
            return true;
        }
        precede_all(
            two,
            rest_at(head, self.rests.as_slice(), head.parts.at(from)),
        )
    }
}

// The head of the station's board.
fn head_of<'a>(numbers: &[usize], heads: &'a [Head], station: StationNo) -> Option<&'a Head>
    ensures { IfSome result (λ h. IsHeadOf numbers.now heads.now station.0 h.now) }
{
    match numbers.get(station.0 as usize) {
        Some(number) => heads.get(*number),
        None => None,
    }
}

// The two of this part of the board.
fn rest_at(head: &Head, all: &[FirstTwo], part: usize) -> FirstTwo
    ensures { result ≡ rest_in all.now head.now part }
{
    match all.get(head.hints.saturating_add(part)) {
        Some(two) => *two,
        None => UNKNOWN,
    }
}

// The first two by what leaves from the one second to the other, both included, where the window is as long as a block;
// else two that precede them.
fn firsts_within(useful: &[Useful], from: u64, to: u64) -> FirstTwo
    requires rises { Rises useful.now }
    requires end { to < 2 ^ 63 }
    ensures { BoundsWindow useful.now from to result }
{
    let first = count_before(useful, from);
    let count = count_before(useful, to + 1);
    if count <= first {
        return NONE;
    }
    let earliest = useful[first];
    let latest = useful[count - 1];
    if earliest.block == latest.block {
        return earliest.onward;
    }
    if earliest.block.saturating_add(1) == latest.block {
        return join(earliest.onward, latest.so_far);
    }
    UNKNOWN
}
