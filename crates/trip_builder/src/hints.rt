ghost use Rattle.std.specs.Prelude.{◌≡◌, ◌≤◌, ◌<◌, ◌+◌, ◌-◌, ◌/◌, ◌%◌, ◌^◌, ℕ, length, OnOk, slice_index_or};
ghost use Rattle.trip_builder.specs.declared.board.Useful.{Useful};
ghost use Rattle.trip_builder.specs.Bounds.{Precede, Rises};
ghost use Rattle.trip_builder.specs.Boards.{AreTold, AreRestsIn, AreHintsOf};

use crate::board::{Useful, moment_at};
use crate::ranks::{FirstTwo, NONE, join};
use crate::rests::{Parts, put, settle};
use std::alloc::{AllocError, Global};

/// For each part of a board's time the first two by what leaves in it or later.
#[derive(Drop)]
pub(crate) struct Hints {
    pub parts: Parts,
    pub last: u64,
    pub rests: Vec<FirstTwo>,
}

impl Hints {
    /// Those of no board. Takes no memory.
    pub(crate) fn none(alloc: Global) -> Hints {
        Hints {
            parts: Parts { start: 0, shift: 0 },
            last: 0,
            rests: Vec::new(alloc),
        }
    }

    /// Makes them those of this board, with one part for two to four departures.
    pub(crate) fn set(&mut self, useful: &[Useful]) -> Result<(), AllocError>
        requires some { 0 < length useful.now }
        requires rises { Rises useful.now }
        ensures { OnOk result (AreHintsOf useful.now self.new) }
    {
        let last = moment_at(useful, useful.len() - 1);
        let parts = Parts::between(moment_at(useful, 0), last, useful.len() as u64 / 2);
        let count = parts.at(last).saturating_add(1);
        self.parts = parts;
        self.last = last;
        self.rests.clear();
        self.rests.resize(count, NONE)?;
        make(useful, parts, self.rests.as_mut_slice());
        Ok(())
    }
}

// The hints of the board in these parts.
fn make(useful: &[Useful], parts: Parts, rests: &mut [FirstTwo])
    ensures { AreRestsIn useful.now parts rests.new }
{
    note_all(useful, parts, rests);
    settle(rests);
}

// Notes for each departure's part what it and all later ones lead to.
fn note_all(useful: &[Useful], parts: Parts, rests: &mut [FirstTwo])
    ensures { AreTold useful.now parts rests.new }
{
    let count = useful.len();
    let mut rest = NONE;
    for back in 0..count {
        let place = count - 1 - back;
        let it = useful[place];
        let part = parts.at(u64::from(it.moment));
        rest = join(rest, it.onward);
        put(rests, part, rest);
    }
}
