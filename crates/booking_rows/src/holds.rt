//! Starting a hold, and keeping its empty row.
ghost use Rattle.std.specs.Prelude.{ℕ, ◌≡◌, ◌≢◌, ◌<◌, ◌+◌, ◌*◌, ◌/◌, true, false, Some, None, [], option_map, IfSome, IfNone};
ghost use Rattle.history_model.specs.declared.entry.Step.TheVariants.{Start, SawRow};
ghost use Rattle.claim_rule.specs.Rule.{BooksView};
ghost use Rattle.claim_rule.specs.Desks.{IsOf, AddsSteps, Stepped, AddsAtMost};
ghost use Rattle.claim_rule.specs.Holds.{empty_hold};
ghost use Rattle.claim_rule.specs.Calls.{AddsStepsBy};
ghost use Rattle.claim_rule.specs.Out.{IsHolding, HoldsNone, HasNotedItems, KeepsHolds, KeepsEndings};
ghost use Rattle.history_model.specs.Phase.{generation_words};
ghost use Rattle.booking_rows.specs.Starts.{StartsHold, Finds, FindsAgain, HasFirst, HasNext, Passes, RemembersFree, LearnsFull};
ghost use Rattle.booking_rows.specs.Starts.{IsNextOf, MayFollowOn, is_startable};
ghost use Rattle.history_model.specs.Booking.{standing_word};

use claim_rule::{Books, Desk, Hold, Started};
use history_model::booking::STANDING_WORD;
use history_model::phase::{Phase, read_row_word};
use rail_ids::{LAST_GENERATION, RowNo};

/// Spends a hold without items. The desk keeps its row, for its next hold.
pub fn keep_row(desk: &mut Desk, hold: Hold)
    requires hold { IsHolding desk.old hold }
    requires empty { hold.items ≡ [] }
    ensures kept { desk.new ≡ record desk.old { kept = Some hold.row } }
    ensures own { (books : BooksView) → IsOf books desk.old → IsOf books desk.new }
    ensures none { HoldsNone desk.new }
    ensures endings { KeepsEndings desk.old desk.new }
{
    desk.keep(hold);
}

/// A hold without items: on the desk's kept row where it keeps one, else on the first free row in rising number, else
/// on the first row whose ended booking gives way to the next generation.
///
/// `None` only where in what the desk has then seen no row is free, the desk kept none, and each row showed in this
/// call no ended booking before the last generation, or another word when it was tried. A desk remembers up to which
/// row all are taken, and looks for a free one from there: no row is ever free again.
pub fn start_hold(books: &Books, desk: &mut Desk) -> Option<Hold>
    requires own { IsOf books.now desk.old }
    requires none { HoldsNone desk.old }
    ensures own { IsOf books.now desk.new }
    ensures entries { AddsStepsBy (StartsHold desk.old desk.new (option_map (λ h. h.row) result)) desk.old desk.new }
    ensures hold { IfSome result (λ h. IsHolding desk.new h × (h.items ≡ [])) }
    ensures noted { IfSome result (HasNotedItems desk.new) }
    ensures none_out { IfNone result (HoldsNone desk.new) }
    ensures endings { KeepsEndings desk.old desk.new }
    ensures remembers { IfSome result (RemembersFree desk.old desk.new) }
    ensures learns { LearnsFull desk.old desk.new (option_map (λ h. h.row) result) }
    ensures bound { AddsAtMost (3 * books.now.layout.rows) desk.old desk.new }
{
    if let Some(hold) = desk.kept() {
        return Some(hold);
    }
    if let Some(hold) = start_free(books, desk) {
        return Some(hold);
    }
    start_again(books, desk)
}

// Starts the first free row. The desk remembers up to which row all are taken.
fn start_free(books: &Books, desk: &mut Desk) -> Option<Hold>
    requires own { IsOf books.now desk.old }
    requires alone { desk.old.kept ≡ None }
    requires none { HoldsNone desk.old }
    ensures own { IsOf books.now desk.new }
    ensures found { Finds desk.old desk.new result }
    ensures alone { IfNone result (desk.new.kept ≡ None) }
    ensures endings { KeepsEndings desk.old desk.new }
{
    let first = desk.past();
    for row in first..books.rows() {
        if let Some(hold) = start_row(books, desk, row) {
            desk.pass(row + 1);
            return Some(hold);
        }
    }
    desk.pass(books.rows());
    None
}

// Starts the first generation of the row, where its word is 0.
fn start_row(books: &Books, desk: &mut Desk, row: u32) -> Option<Hold>
    requires own { IsOf books.now desk.old }
    requires alone { desk.old.kept ≡ None }
    requires none { HoldsNone desk.old }
    requires row { row < books.now.layout.rows }
    ensures own { IsOf books.now desk.new }
    ensures some { IfSome result (HasFirst row desk.old desk.new) }
    ensures none { IfNone result ((n : ℕ) × (n ≢ 0) × Stepped (SawRow row standing_word n) desk.old desk.new
        × HoldsNone desk.new) }
    ensures endings { KeepsEndings desk.old desk.new }
{
    let first = RowNo { row, generation: 0 };
    match books.step_start(desk, first, 0) {
        Started::Won(hold) => Some(hold),
        Started::Missed { shown: _ } => None,
    }
}

// Starts the next generation of the first row whose booking has ended.
fn start_again(books: &Books, desk: &mut Desk) -> Option<Hold>
    requires own { IsOf books.now desk.old }
    requires alone { desk.old.kept ≡ None }
    requires none { HoldsNone desk.old }
    ensures own { IsOf books.now desk.new }
    ensures found { FindsAgain desk.old desk.new result }
    ensures endings { KeepsEndings desk.old desk.new }
{
    for row in 0..books.rows() {
        if let Some(hold) = restart_row(books, desk, row) {
            return Some(hold);
        }
    }
    None
}

// Starts the next generation of the row, where it shows an ended booking before the last generation.
fn restart_row(books: &Books, desk: &mut Desk, row: u32) -> Option<Hold>
    requires own { IsOf books.now desk.old }
    requires alone { desk.old.kept ≡ None }
    requires none { HoldsNone desk.old }
    requires row { row < books.now.layout.rows }
    ensures own { IsOf books.now desk.new }
    ensures some { IfSome result (HasNext row desk.old desk.new) }
    ensures none { IfNone result (Passes row desk.old desk.new × HoldsNone desk.new) }
    ensures kept { IfNone result (desk.new.kept ≡ None) }
    ensures past { desk.new.past ≡ desk.old.past }
    ensures endings { KeepsEndings desk.old desk.new }
{
    let shown = books.step_read(desk, RowNo { row, generation: 0 }, STANDING_WORD);
    let next = RowNo {
        row,
        generation: next_generation(shown)?,
    };
    match books.step_start(desk, next, shown) {
        Started::Won(hold) => Some(hold),
        Started::Missed { shown: _ } => None,
    }
}

// The generation that may follow on what word 0 of a row shows: an ended booking, before the last generation.
fn next_generation(word: u64) -> Option<u32>
    ensures some { IfSome result (IsNextOf word) }
    ensures expected { IfSome result (MayFollowOn word) }
    ensures none { IfNone result (is_startable word ≡ false) }
{
    match read_row_word(word) {
        Some((Phase::Ended(_), generation)) => {
            if generation < LAST_GENERATION {
                Some(generation + 1)
            } else {
                None
            }
        }
        _ => None,
    }
}
