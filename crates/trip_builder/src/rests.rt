ghost use Rattle.std.specs.Prelude.{◌≡◌, ◌<◌, ◌≤◌, ◌+◌, ◌-◌, ◌/◌, ◌%◌, ◌^◌, ℕ, length, slice_index_or};
ghost use Rattle.trip_builder.specs.Bounds.{Precede};
ghost use Rattle.trip_builder.specs.Boards.{part_at, KeepsBy, IsTold, AreSettled};

use crate::ranks::{FirstTwo, NONE, join};

/// Parts of the time, all of the same power of two in seconds, from this second on.
#[derive(Clone, Copy)]
pub(crate) struct Parts {
    pub start: u64,
    pub shift: u32,
}

impl Parts {
    /// Parts of which about that many, and no more, lie between the two seconds.
    pub(crate) fn between(start: u64, end: u64, most: u64) -> Parts
        ensures { result.start ≡ start }
    {
        let each = end.saturating_sub(start) / most.max(1);
        Parts {
            start,
            shift: 64u32.saturating_sub(each.leading_zeros()).min(63),
        }
    }

    /// In which part the second lies.
    pub(crate) fn at(self, seconds: u64) -> usize
        ensures { result ≡ part_at self seconds }
    {
        (seconds.saturating_sub(self.start) >> (self.shift % 64)) as usize
    }
}

/// Puts these two in place of the part's, or of the last one's where there are fewer. What both precede stays told.
pub(crate) fn put(rests: &mut [FirstTwo], part: usize, two: FirstTwo)
    ensures kept { KeepsBy two rests.old rests.new }
    ensures told { (rank : ℕ) → Precede two rank → IsTold rests.new part rank }
{
    let count = rests.len();
    if count > 0 {
        let place = part.min(count - 1);
        rests[place] = two;
    }
}

/// Lets each part know of all later ones.
pub(crate) fn settle(rests: &mut [FirstTwo])
    ensures { AreSettled rests.old rests.new }
{
    let count = rests.len();
    let mut next = NONE;
    for back in 0..count {
        let part = count - 1 - back;
        next = join(next, rests[part]);
        rests[part] = next;
    }
}
