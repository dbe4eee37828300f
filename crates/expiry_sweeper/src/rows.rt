//! The sweep of one row.
ghost use Rattle.std.specs.Prelude.{◌<◌};
ghost use Rattle.claim_rule.specs.Desks.{IsOf};
ghost use Rattle.claim_rule.specs.Out.{EndsNone, KeepsHolds};
ghost use Rattle.expiry_sweeper.specs.OneRow.{SweepsRow};

use booking_rows::Aim;
use claim_rule::{Books, Desk};
use confirm_core::{end_row, look_phase, look_word};
use history_model::booking::{LIMIT_WORD, STANDING_WORD};
use history_model::phase::{Phase, read_row_word};
use rail_ids::RowNo;
use rail_time::Moment;

// What came of the sweep of a row.
#[derive(Clone, Copy, PartialEq, Eq)]
pub(crate) enum RowSwept {
    // It was seen in another phase than prebooked, or the last look showed that it was given away.
    Passed,
    // It was seen prebooked, with a limit not before now.
    Waiting,
    // It was expired, and its items are given back.
    Expired,
    // Another turn came first.
    Lost,
}

// Expires the row where it is seen prebooked, with a limit before now.
pub(crate) fn sweep_row(books: &Books, desk: &mut Desk, row: u32, now: Moment) -> RowSwept
    requires own { IsOf books.now desk.old }
    requires row { row < books.now.layout.rows }
    requires none { EndsNone desk.old }
    ensures own { IsOf books.now desk.new }
    ensures entries { SweepsRow now row desk.old desk.new result }
    ensures none { EndsNone desk.new }
    ensures holds { KeepsHolds desk.old desk.new }
{
    let word = books.step_read(desk, RowNo { row, generation: 0 }, STANDING_WORD);
    let Some((shown, generation)) = read_row_word(word) else {
        return RowSwept::Passed;
    };
    let Phase::Prebooked = shown else {
        return RowSwept::Passed;
    };
    let row = RowNo { row, generation };
    let limit = look_word(books, desk, row, LIMIT_WORD);
    let last = look_phase(books, desk, row);
    if let Phase::Free = last {
        return RowSwept::Passed;
    }
    if now.seconds() <= limit {
        return RowSwept::Waiting;
    }
    match end_row(books, desk, row, Phase::Prebooked, Aim::Expire { now }) {
        None => RowSwept::Expired,
        Some(_shown) => RowSwept::Lost,
    }
}
