//! How many rows stand in which phase, by looks.
ghost use Rattle.std.specs.Prelude.{◌≡◌, ◌<◌};
ghost use Rattle.claim_rule.specs.Calls.{AddsStepsBy};
ghost use Rattle.claim_rule.specs.Desks.{IsOf};
ghost use Rattle.claim_rule.specs.Out.{AllLooks, IsTidy, KeepsEndings, KeepsHolds};
ghost use Rattle.history_model.specs.Booking.{most_rows};
ghost use Rattle.row_cuts.specs.Counts.{AreFew, CountsRows, ShowsRow, with_one, with_row};

use claim_rule::{Books, Desk};
use history_model::booking::STANDING_WORD;
use history_model::phase::{Phase, read_row_word};
use rail_ids::RowNo;

/// How many rows were seen in each phase, and the greatest generation.
#[derive(Clone, Copy, PartialEq, Eq)]
pub struct RowCount {
    /// In no phase: no booking has begun there.
    pub never_used: u32,
    pub making: u32,
    pub prebooked: u32,
    pub confirmed: u32,
    pub fulfilled: u32,
    pub ending: u32,
    /// Ended in some way, and not in use again.
    pub ended: u32,
    /// The greatest generation of a row. A row that was used once has generation 0.
    pub greatest_generation: u32,
}

/// Looks at each row once, in rising number, and counts what these looks showed. While other desks step, two looks may
/// be of two moments.
pub fn count_rows(books: &Books, desk: &mut Desk) -> RowCount
    requires own { IsOf books.now desk.old }
    ensures own { IsOf books.now desk.new }
    ensures counts { AddsStepsBy (CountsRows books.now.layout.rows result) desk.old desk.new }
    ensures looks { AddsStepsBy AllLooks desk.old desk.new }
    ensures holds { KeepsHolds desk.old desk.new }
    ensures endings { KeepsEndings desk.old desk.new }
    ensures tidy { IsTidy desk.old → IsTidy desk.new }
{
    let mut count = RowCount {
        never_used: 0,
        making: 0,
        prebooked: 0,
        confirmed: 0,
        fulfilled: 0,
        ending: 0,
        ended: 0,
        greatest_generation: 0,
    };
    for row in 0..books.rows() {
        let (phase, generation) = look_standing(books, desk, row);
        count = counted(phase, generation, count);
    }
    count
}

// The phase and the generation that one look at a row shows.
fn look_standing(books: &Books, desk: &mut Desk, row: u32) -> (Phase, u32)
    requires own { IsOf books.now desk.old }
    requires row { row < books.now.layout.rows }
    ensures own { IsOf books.now desk.new }
    ensures shows { AddsStepsBy (ShowsRow row result.0 result.1) desk.old desk.new }
    ensures holds { KeepsHolds desk.old desk.new }
    ensures endings { KeepsEndings desk.old desk.new }
{
    let word = books.step_read(desk, RowNo { row, generation: 0 }, STANDING_WORD);
    let Some((phase, generation)) = read_row_word(word) else {
        return (Phase::Free, 0);
    };
    if let Phase::Free = phase {
        return (Phase::Free, 0);
    }
    (phase, generation)
}

// One row more, of this phase and this generation.
fn counted(phase: Phase, generation: u32, count: RowCount) -> RowCount
    requires few { AreFew count most_rows }
    ensures { result ≡ with_row phase generation count }
{
    RowCount {
        greatest_generation: generation.max(count.greatest_generation),
        ..one_more(phase, count)
    }
}

// One row more, of this phase.
fn one_more(phase: Phase, count: RowCount) -> RowCount
    requires few { AreFew count most_rows }
    ensures { result ≡ with_one phase count }
{
    match phase {
        Phase::Free => RowCount {
            never_used: count.never_used + 1,
            ..count
        },
        Phase::Making => RowCount {
            making: count.making + 1,
            ..count
        },
        Phase::Prebooked => RowCount {
            prebooked: count.prebooked + 1,
            ..count
        },
        Phase::Confirmed => RowCount {
            confirmed: count.confirmed + 1,
            ..count
        },
        Phase::Fulfilled => RowCount {
            fulfilled: count.fulfilled + 1,
            ..count
        },
        Phase::Ending(_) => RowCount {
            ending: count.ending + 1,
            ..count
        },
        Phase::Ended(_) => RowCount {
            ended: count.ended + 1,
            ..count
        },
    }
}
