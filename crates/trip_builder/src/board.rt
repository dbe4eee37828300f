ghost use Rattle.std.specs.Prelude.{◌≡◌, ◌≤◌, ◌<◌, ◌+◌, ◌^◌, ℕ, true, [], length, All, OnOk, slice_index_or};
ghost use Rattle.trip_builder.specs.declared.board.Useful.{Useful};
ghost use Rattle.std.specs.List.{AllWithin};
ghost use Rattle.trip_builder.specs.Boards.{InOrder, AreNoted};
ghost use Rattle.trip_builder.specs.Bounds.{Precede, Rises, HasPosted, Follows, IsNoted, IsPosted};

use crate::ranks::{FirstTwo, join};
use std::alloc::{AllocError, Global};
use std::marker::Model;
use train_runs::Departure;

/// A departure that leads to the destination, and the first two that come there from its block: by those that leave no
/// earlier (`onward`), and by those that leave no later.
#[derive(Clone, Copy)]
pub(crate) struct Useful {
    pub moment: u32,
    pub block: u32,
    pub onward: FirstTwo,
    pub so_far: FirstTwo,
}

/// The departures of a station that lead to the destination, the earlier ones first, cut into blocks of time.
///
/// A window as long as a block lies in two neighbouring ones at most: so the end of the one and the beginning of the
/// other tell the earliest arrival of what leaves within it.
#[derive(Drop)]
pub(crate) struct Board {
    useful: Vec<Useful>,
    seconds: u64,
    end: u64,
}

impl Model for Board {
    ghost use Rattle.std.specs.Prelude.{List};
    ghost use Rattle.trip_builder.specs.declared.board.Useful.{Useful};
    ghost use Rattle.trip_builder.specs.Bounds.{Rises};

    ghost Value = { List Useful };

    ghost view = { λ b. b.useful.items };

    ghost invariant = { λ b. Rises b.useful.items };
}

impl Board {
    /// No departure. Takes no memory.
    pub(crate) fn new(alloc: Global) -> Board
        ensures { result ≡ [] }
    {
        Board {
            useful: Vec::new(alloc),
            seconds: 0,
            end: 0,
        }
    }

    /// Takes all departures off, for blocks of that many seconds. The memory stays.
    pub(crate) fn clear(&mut self, seconds: u64)
        ensures { self.new ≡ [] }
    {
        self.useful.clear();
        self.seconds = seconds;
        self.end = 0;
    }

    /// Posts those of the departures that lead to the destination before this rank, by the first two of each.
    pub(crate) fn post_all(
        &mut self,
        departures: &[Departure],
        twos: &[FirstTwo],
        late: u16,
    ) -> Result<(), AllocError>
        requires none { self.old ≡ [] }
        requires order { InOrder departures.now }
        ensures { OnOk result (AreNoted departures.now twos.now late self.new) }
    {
        for n in 0..departures.len().min(twos.len()) {
            let departure = departures[n];
            let two = twos[n];
            if two.first < late {
                self.post(departure.moment.seconds() as u32, two)?;
            }
        }
        Ok(())
    }

    /// Its departures.
    pub(crate) fn all(&self) -> &[Useful]
        ensures value { result.now ≡ self.now }
        ensures rises { Rises result.now }
    {
        self.useful.as_slice()
    }

    // Puts a departure after those that leave no later. What leaves later than it is told to it by `finish`.
    fn post(&mut self, moment: u32, least: FirstTwo) -> Result<(), AllocError>
        requires later { All (λ u. u.moment ≤ moment) self.old }
        ensures { OnOk result (HasPosted self.old moment least self.new) }
    {
        let opens = u64::from(moment) >= self.end;
        let useful = following(self.useful.as_slice(), opens, moment, least);
        self.useful.push(useful)?;
        self.end = if opens {
            u64::from(moment).saturating_add(self.seconds)
        } else {
            self.end
        };
        Ok(())
    }

    /// Lets each departure know of those of its block that leave no earlier.
    pub(crate) fn finish(&mut self)
        ensures { (depart rank : ℕ) → IsNoted self.old depart rank → IsPosted self.new depart rank }
    {
        let count = self.useful.len();
        if count == 0 {
            return;
        }
        let mut later = self.useful[count - 1];
        for back in 1..count {
            let next = count - back;
            let here = self.useful[next - 1];
            later = told(here, later);
            self.useful[next - 1] = later;
        }
    }
}

// The departure as the next one of the board: the first of a block, or one more of the last block.
fn following(board: &[Useful], opens: bool, moment: u32, least: FirstTwo) -> Useful
    ensures moment { result.moment ≡ moment }
    ensures follows { Follows board.now least result }
{
    let Some(last) = board.last() else {
        return Useful {
            moment,
            block: 0,
            onward: least,
            so_far: least,
        };
    };
    let block = last.block.saturating_add(u32::from(opens));
    let so_far = if block == last.block {
        join(least, last.so_far)
    } else {
        least
    };
    Useful {
        moment,
        block,
        onward: least,
        so_far,
    }
}

// The departure, where it knows of the next one of its block.
fn told(here: Useful, next: Useful) -> Useful
    ensures moment { result.moment ≡ here.moment }
    ensures block { result.block ≡ here.block }
    ensures so_far { result.so_far ≡ here.so_far }
    ensures own { (rank : ℕ) → Precede here.onward rank → Precede result.onward rank }
    ensures told { (rank : ℕ) → here.block ≡ next.block → Precede next.onward rank
        → Precede result.onward rank }
{
    if here.block != next.block {
        return here;
    }
    Useful {
        moment: here.moment,
        block: here.block,
        onward: join(here.onward, next.onward),
        so_far: here.so_far,
    }
}

/// When the departure at this place leaves.
pub(crate) fn moment_at(useful: &[Useful], place: usize) -> u64
    requires { place < length useful.now }
    ensures value { (none : Useful) → result ≡ (slice_index_or useful.now place none).moment }
    ensures small { result < 2 ^ 32 }
{
    u64::from(useful[place].moment)
}

/// How many of the departures leave before these seconds.
pub(crate) fn count_before(useful: &[Useful], seconds: u64) -> usize
    requires rises { Rises useful.now }
    ensures within { result ≤ length useful.now }
    ensures earlier { AllWithin (λ u. u.moment < seconds) useful.now 0 result }
    ensures later { AllWithin (λ u. seconds ≤ u.moment) useful.now result (length useful.now) }
{
    let mut first = 0;
    let mut size = useful.len();
    'halves: while size > 0 {
        let half = size / 2;
        if moment_at(useful, first + half) < seconds {
            first += size - half;
        }
        size = half;
    }
    first
}
