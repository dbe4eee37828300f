//! Looks at a row, and the line of what they showed.
ghost use Rattle.std.specs.Prelude.{◌≡◌, ◌≤◌, ◌++◌, ◌∷◌, [], ◌<◌, IfOk, OnOk, Some, option_map};
ghost use Rattle.history_model.specs.WholeEnds.{end_at};
ghost use Rattle.booking_rows.specs.Ends.{shown_end, word_of_successor};
ghost use Rattle.booking_rows.specs.Views.{IsSeen, MaySucceed, last_successor};
ghost use Rattle.claim_rule.specs.Calls.{AddsStepsBy};
ghost use Rattle.claim_rule.specs.Desks.{IsOf};
ghost use Rattle.claim_rule.specs.Out.{AllLooks, KeepsEndings, KeepsHolds};
ghost use Rattle.cold_store.specs.Written.{said_line};
ghost use Rattle.row_cuts.specs.Lines.{WritesLines, line_count, line_text};
ghost use Rattle.row_cuts.specs.Looks.{end_seen, kept_seen, kept_unmade};

use booking_rows::{EndView, RowView, look_row};
use claim_rule::{Books, Desk};
use cold_store::{BookingLine, LineEnd, push_line, push_stub};
use history_model::booking::STANDING_WORD;
use history_model::phase::{Phase, read_row_word};
use history_model::successor::successor_word;
use rail_ids::RowNo;
use std::alloc::AllocError;

/// Looks at a row: at word 0, and where that shows a sealed booking, at all of its words. Writes its line after the
/// text, if it has one, and gives the count of these lines. A row has none that was free, or in the making for the
/// first time, or was given away meanwhile.
pub(crate) fn push_row(
    text: &mut Vec<u8>,
    books: &Books,
    desk: &mut Desk,
    row: u32,
) -> Result<u64, AllocError>
    requires own { IsOf books.now desk.old }
    requires row { row < books.now.layout.rows }
    ensures own { IsOf books.now desk.new }
    ensures lines { IfOk result (λ count. AddsStepsBy (WritesLines (row ∷ []) text.old.items text.new.items count)
        desk.old desk.new) }
    ensures looks { AddsStepsBy AllLooks desk.old desk.new }
    ensures holds { KeepsHolds desk.old desk.new }
    ensures endings { KeepsEndings desk.old desk.new }
{
    let word = books.step_read(desk, RowNo { row, generation: 0 }, STANDING_WORD);
    let Some((phase, generation)) = read_row_word(word) else {
        return Ok(0);
    };
    if let Phase::Free = phase {
        return Ok(0);
    }
    if let Phase::Making = phase {
        return push_unmade(text, row, generation);
    }
    match look_row(books, desk, RowNo { row, generation }) {
        Some(view) => push_seen(text, row, generation, &view),
        None => Ok(0),
    }
}

// The line of a row whose booking of this generation isn't made yet, and the count of these lines. The first one of a
// row has none.
fn push_unmade(text: &mut Vec<u8>, row: u32, generation: u32) -> Result<u64, AllocError>
    ensures line { OnOk result (text.new.items ≡ text.old.items ++ line_text (kept_unmade row generation)) }
    ensures count { IfOk result (λ count. count ≡ line_count (kept_unmade row generation)) }
{
    if generation == 0 {
        return Ok(0);
    }
    push_stub(text, row, generation)?;
    Ok(1)
}

// The line of a sealed booking that looks showed, and the count of these lines.
fn push_seen(
    text: &mut Vec<u8>,
    row: u32,
    generation: u32,
    view: &RowView,
) -> Result<u64, AllocError>
    requires seen { IsSeen view.now }
    ensures line { OnOk result (text.new.items
        ≡ text.old.items ++ line_text (Some (kept_seen row generation view.now))) }
    ensures count { IfOk result (λ count. count ≡ line_count (Some (kept_seen row generation view.now))) }
{
    push_line(text, &line_of(row, generation, view))?;
    Ok(1)
}

// The line of a booking that looks showed.
fn line_of<'a>(row: u32, generation: u32, view: &'a RowView) -> BookingLine<'a>
    requires { IsSeen view.now }
    ensures { said_line result ≡ kept_seen row generation view.now }
{
    BookingLine {
        row,
        generation,
        phase: view.phase,
        retailer: view.retailer.0,
        limit: view.limit.seconds(),
        total: view.total,
        items: view.items.as_slice(),
        end: end_of(view.ended),
    }
}

// The end that looks showed, or none.
fn end_of(ended: Option<EndView>) -> LineEnd
    requires { MaySucceed (option_map shown_end ended) }
    ensures { end_at result.moment result.amount result.successor ≡ end_seen (option_map shown_end ended) }
{
    match ended {
        Some(end) => LineEnd {
            amount: end.amount,
            moment: end.moment.seconds(),
            successor: word_of(end.successor),
        },
        None => LineEnd {
            amount: 0,
            moment: 0,
            successor: 0,
        },
    }
}

// The word of a successor, or 0 for none.
fn word_of(successor: Option<RowNo>) -> u64
    requires { word_of_successor successor ≤ last_successor }
    ensures { result ≡ word_of_successor successor }
{
    match successor {
        Some(row) => successor_word(row),
        None => 0,
    }
}
